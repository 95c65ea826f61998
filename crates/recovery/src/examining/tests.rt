//! Inspections of sets of 3 members, chunk 8 and 32 stripes: on banks that take no write and no flush, beside what
//! assembling does then.
use super::examine;
use crate::testing::{
    BLANK, ID, OTHER_ID, SET_A, answer, array_of, assembled, bank_of, check_missing, fails_at,
    fresh, fresh_without, image_now, put_from, put_sector, refusal_of, same, shorten, superblock,
    take,
};
use crate::{Examined, ExaminedSlot, Outlook, Presence, Standing};
use sector_model::{Bank, Choice, Image, MemBank, Plan, Refusal, Sector};
use std::process::Abort;
use superblock::State;

// The calls of an inspection of five devices that are up: two superblocks of each, and two seals of each journal.
const CALLS: u64 = 2 * 5 + 2 * 2;

// What stands in a slot whose device is there.
fn there(generation: u64, incarnation: u64, standing: Standing) -> ExaminedSlot {
    ExaminedSlot {
        presence: Presence::There,
        generation,
        incarnation,
        standing,
    }
}

// What stands in a slot without a device.
fn absent(standing: Standing) -> ExaminedSlot {
    ExaminedSlot {
        presence: Presence::Absent,
        generation: 0,
        incarnation: 0,
        standing,
    }
}

// What stands in the slots of a set at this generation, of which one has something else.
fn but(generation: u64, slot: usize, one: ExaminedSlot) -> [ExaminedSlot; 5] {
    let mut slots = [there(generation, 1, Standing::Live); 5];
    if slot < 5 {
        slots[slot] = one;
    }
    slots
}

// What an inspection of the set on a bank finds, by so many calls.
fn inspect(rt: &impl Abort, bank: &mut MemBank, calls: u64) -> Examined {
    let found = examine(bank, &ID).expect(rt, "calls are counted");
    same(rt, bank.now(), calls);
    found.expect(rt, "there is a set")
}

// Checks what an inspection finds.
fn check_found(
    rt: &impl Abort,
    found: &Examined,
    slots: &[ExaminedSlot; 5],
    last: [Option<u64>; 2],
    outlook: Outlook,
) {
    same(rt, &found.slots[..5], &slots[..]);
    same(rt, found.last, last);
    same(rt, found.outlook, outlook);
}

// Checks what an inspection of the set on these devices finds, by so many calls, and that assembling then does what it
// says.
fn check(
    rt: &(impl Abort + AllocGlobal),
    image: Image,
    slots: &[ExaminedSlot; 5],
    last: [Option<u64>; 2],
    outlook: Outlook,
    calls: u64,
) {
    let mut bank = bank_of(rt, image, Plan::NONE, 0);
    check_found(rt, &inspect(rt, &mut bank, calls), slots, last, outlook);
    check_assembled(rt, image_now(rt, &bank, Choice::Newest), outlook);
}

// Checks that assembling the set on these devices does what an inspection of it said.
fn check_assembled(rt: &(impl Abort + AllocGlobal), image: Image, outlook: Outlook) {
    let result = answer(rt, image, Plan::NONE, ID);
    match outlook {
        Outlook::TwoLost => same(rt, refusal_of(rt, result).0, Refusal::TwoLost),
        Outlook::Complete => check_missing(rt, &array_of(rt, result).table, 9),
        Outlook::Missing(slot) => check_missing(rt, &array_of(rt, result).table, slot as usize),
        Outlook::WouldMark(slot) => check_missing(rt, &array_of(rt, result).table, slot as usize),
        Outlook::Rebuilding(slot, position) => {
            assert!(rt; slot < 10);
            let table = array_of(rt, result).table;
            let state = table.states[slot as usize];
            same(rt, (state, table.position), (State::Rebuilding, position));
        }
    }
}

#[test]
fn all_there(rt: HostRuntime) {
    let slots = [there(1, 1, Standing::Live); 5];
    let last = [Some(0), Some(0)];
    check(
        &rt,
        fresh(&rt, SET_A),
        &slots,
        last,
        Outlook::Complete,
        CALLS,
    );
}

#[test]
fn one_away_and_back(rt: HostRuntime) {
    let image = fresh_without(&rt, SET_A, 4);
    let slots = but(1, 4, absent(Standing::NotThere));
    let last = [Some(0), None];
    check(&rt, image, &slots, last, Outlook::WouldMark(4), CALLS - 4);
    let bank = assembled(&rt, fresh_without(&rt, SET_A, 4)).into_bank();
    let image = image_now(&rt, &bank, Choice::Newest);
    let slots = but(2, 4, absent(Standing::CalledMissing));
    check(&rt, image, &slots, last, Outlook::Missing(4), CALLS - 4);
    // What the device says that is back is older.
    let mut image = image_now(&rt, &bank, Choice::Newest);
    put_from(&rt, &mut image, 4, fresh(&rt, SET_A));
    let slots = but(2, 4, there(1, 1, Standing::CalledMissing));
    let last = [Some(0), Some(0)];
    check(&rt, image, &slots, last, Outlook::Missing(4), CALLS);
}

#[test]
fn two_away(rt: HostRuntime) {
    let mut image = fresh_without(&rt, SET_A, 4);
    take(&rt, &mut image, 0);
    let mut slots = but(1, 4, absent(Standing::NotThere));
    slots[0] = slots[4];
    let last = [Some(0), None];
    check(&rt, image, &slots, last, Outlook::TwoLost, CALLS - 6);
}

#[test]
fn one_too_short(rt: HostRuntime) {
    for slot in [2u8, 3] {
        let mut image = fresh(&rt, SET_A);
        shorten(&rt, &mut image, slot as usize);
        let mut short = there(1, 1, Standing::NotThere);
        short.presence = Presence::TooShort;
        let slots = but(1, slot as usize, short);
        let (lower, calls) = match slot {
            3 => (None, CALLS - 2),
            _ => (Some(0), CALLS),
        };
        let last = [lower, Some(0)];
        check(&rt, image, &slots, last, Outlook::WouldMark(slot), calls);
    }
}

#[test]
fn another_set(rt: HostRuntime) {
    let mut bank = bank_of(&rt, fresh(&rt, SET_A), Plan::NONE, 0);
    let found = examine(&mut bank, &OTHER_ID).expect(&rt, "calls are counted");
    same(&rt, (found.is_none(), bank.now()), (true, 2 * 5));
}

// The devices of a set whose slot 1 was given a second device, at generation 3; the first one is back. `newest` is what
// it has in place 1.
fn replaced(rt: &(impl Abort + AllocGlobal), newest: &Sector) -> Image {
    let mut image = fresh(rt, SET_A);
    for slot in [0u8, 2, 3, 4] {
        let mut sector = superblock(3, 32, slot);
        sector[48 + 16] = 2;
        put_sector(rt, &mut image, slot as usize, 1, &sector);
    }
    put_sector(rt, &mut image, 1, 1, newest);
    image
}

#[test]
fn an_old_device_is_back(rt: HostRuntime) {
    let last = [Some(0), Some(0)];
    let mut higher = superblock(3, 32, 1);
    higher[48 + 16] = 3;
    higher[208] = 3;
    for (newest, one) in [
        (superblock(1, 32, 1), there(1, 1, Standing::OlderGeneration)),
        (
            superblock(3, 32, 1),
            there(3, 1, Standing::LowerIncarnation),
        ),
        (higher, there(3, 3, Standing::HigherIncarnation)),
        (BLANK, there(0, 0, Standing::NoSuperblock)),
    ] {
        let image = replaced(&rt, &newest);
        check(
            &rt,
            image,
            &but(3, 1, one),
            last,
            Outlook::WouldMark(1),
            CALLS,
        );
    }
}

#[test]
fn a_member_is_rebuilding(rt: HostRuntime) {
    let mut image = fresh(&rt, SET_A);
    for slot in 0..5u8 {
        let mut sector = superblock(2, 32, slot);
        sector[40 + 16] = 2;
        sector[200] = 7;
        put_sector(&rt, &mut image, slot as usize, 0, &sector);
    }
    let slots = but(2, 1, there(2, 1, Standing::Rebuilding(7)));
    let last = [Some(0), Some(0)];
    check(&rt, image, &slots, last, Outlook::Rebuilding(1, 7), CALLS);
}

// The bytes of the seal of this entry with row 3.
fn seal(number: u8) -> Sector {
    let mut sector = BLANK;
    sector[..8].copy_from_slice(b"RAID5JE1");
    sector[8..24].copy_from_slice(&ID);
    sector[24] = number;
    sector[32] = 1;
    sector[40] = 3;
    sector[504..].copy_from_slice(b"1EJ5DIAR");
    sector
}

#[test]
fn last_entries(rt: HostRuntime) {
    let mut image = fresh(&rt, SET_A);
    put_sector(&rt, &mut image, 3, 2, &seal(2));
    put_sector(&rt, &mut image, 3, 3, &seal(1));
    put_sector(&rt, &mut image, 4, 3, &seal(1));
    let slots = [there(1, 1, Standing::Live); 5];
    let last = [Some(2), Some(1)];
    check(&rt, image, &slots, last, Outlook::Complete, CALLS);
}

// A device that fails as its superblocks are read is not there; of a journal that fails as its seals are read no entry
// is known.
#[test]
fn a_device_fails(rt: HostRuntime) {
    let plan = fails_at(&rt, &[4], 2 * 4);
    let mut bank = bank_of(&rt, fresh(&rt, SET_A), plan, 0);
    let found = inspect(&rt, &mut bank, CALLS - 3);
    let slots = but(1, 4, absent(Standing::NotThere));
    check_found(&rt, &found, &slots, [Some(0), None], Outlook::WouldMark(4));
    let plan = fails_at(&rt, &[3], 2 * 5);
    let mut bank = bank_of(&rt, fresh(&rt, SET_A), plan, 0);
    let found = inspect(&rt, &mut bank, CALLS - 1);
    let slots = [there(1, 1, Standing::Live); 5];
    check_found(&rt, &found, &slots, [None, Some(0)], Outlook::Complete);
}
