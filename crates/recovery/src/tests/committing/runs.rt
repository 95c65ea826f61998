//! Entries of sets of format 2 that no commit forms, put on the journals by hand: of 58 runs, of one run of 2,048 rows,
//! and of rows of zeros. Assembling copies such an entry to the journal that lacks it and puts it on the members, and
//! so it does again after a crash in that.
use super::forms::{held_seal, whole_seal};
use super::{List, check_sectors};
use crate::assemble;
use crate::testing::{
    BLANK, ID, SHORT, array_of, bank_of, check_missing, crashed, devices, fresh, image_now,
    put_sector, same, sector_of, superblock, take,
};
use array_io::Array;
use layout_map::Geometry;
use sector_model::{Bank, Choice, Image, MemBank, Plan, Sector};
use std::process::Abort;
use stripe_journal::Entry;

// A run of rows: the first, how many they are, and a mask of the members whose sectors the body has; 0 where each
// member's is zero.
type Run = (u16, u16, u8);

// An entry of a set of 3 members: the set's chunk and stripes, its number, and its runs.
#[derive(Clone, Copy)]
struct ByHand<'a> {
    chunk: u16,
    stripes: u8,
    number: u8,
    runs: &'a [Run],
}

// No slot of the set.
const NONE: usize = 5;

// How many writes and flushes a bank takes.
const ROOM: usize = 12_000;

// The superblock of generation 1 of the entry's set, in the slot of this role.
fn first_superblock(entry: &ByHand, role: u8) -> Sector {
    let mut sector = superblock(1, entry.stripes, role);
    sector[7] = b'2';
    sector[34..36].copy_from_slice(&entry.chunk.to_le_bytes());
    sector[504] = b'2';
    sector
}

// The seal of an entry.
fn seal_of(rt: &impl Abort, entry: &ByHand) -> Sector {
    let mut sector = BLANK;
    sector[..8].copy_from_slice(b"RAID5JE3");
    sector[8..24].copy_from_slice(&ID);
    sector[24] = entry.number;
    assert!(rt; entry.runs.len() <= 58);
    sector[32] = entry.runs.len() as u8;
    for (i, run) in entry.runs.iter().enumerate() {
        let at = 40 + 8 * i;
        sector[at..at + 2].copy_from_slice(&run.0.to_le_bytes());
        sector[at + 5..at + 7].copy_from_slice(&run.1.to_le_bytes());
        sector[at + 7] = run.2;
    }
    sector[504..].copy_from_slice(b"3EJ5DIAR");
    sector
}

// Where the seal of an entry stands, and where its body begins.
fn places_of(entry: &ByHand) -> (usize, usize) {
    if entry.number % 2 == 0 {
        (2, 8)
    } else {
        (3, 4_104)
    }
}

// The geometry of the entry's set.
fn geometry_of(rt: &impl Abort, entry: &ByHand) -> Geometry {
    Geometry::large(3, entry.chunk, u32::from(entry.stripes)).expect(rt, "a geometry")
}

// The logical sectors before an entry, none of them zero.
fn list_before(rt: &(impl Abort + AllocGlobal), geometry: &Geometry) -> Vec<(u64, u8)> {
    let mut list = Vec::new(rt.alloc());
    for logical in 0..geometry.data_sectors() {
        let byte = 1 + (logical % 101) as u8;
        list.push((logical, byte)).expect(rt, "memory");
    }
    list
}

// The logical sector of a member in a row, none where it has the parity.
fn logical_of(rt: &impl Abort, geometry: &Geometry, member: u8, row: u64) -> Option<u64> {
    assert!(rt; member < geometry.members && row < geometry.rows());
    geometry.logical_of(member, row)
}

// Whether a mask has the bit of a member.
fn has_bit(mask: u8, member: u8) -> bool {
    member < 8 && (mask >> member) % 2 == 1
}

// Puts what an entry says of a row: other bytes than those before it.
fn put_row(rt: &impl Abort, geometry: &Geometry, list: &mut [(u64, u8)], row: u64, mask: u8) {
    for member in 0..3u8 {
        if let Some(logical) = logical_of(rt, geometry, member, row) {
            assert!(rt; logical < list.len() as u64);
            if mask == 0 {
                list[logical as usize].1 = 0;
            } else if has_bit(mask, member) {
                list[logical as usize].1 = 128 + (logical % 103) as u8;
            }
        }
    }
}

// The logical sectors after an entry.
fn list_after(rt: &(impl Abort + AllocGlobal), entry: &ByHand) -> Vec<(u64, u8)> {
    let geometry = geometry_of(rt, entry);
    let mut list = list_before(rt, &geometry);
    for (first, length, mask) in entry.runs {
        for row in *first..first.saturating_add(*length) {
            put_row(rt, &geometry, &mut list, u64::from(row), *mask);
        }
    }
    list
}

// The bytes of which the members' sectors of a row are full, by the logical sectors.
fn row_of(rt: &impl Abort, geometry: &Geometry, list: List, row: u64) -> [u8; 3] {
    let mut bytes = [0; 3];
    let mut parity = 0;
    for member in 0..3u8 {
        if let Some(logical) = logical_of(rt, geometry, member, row) {
            assert!(rt; logical < list.len() as u64);
            bytes[member as usize] = list[logical as usize].1;
            parity ^= list[logical as usize].1;
        }
    }
    assert!(rt; row < geometry.rows());
    let member = geometry.parity_member(row) as usize;
    assert!(rt; member < 3);
    bytes[member] = parity;
    bytes
}

// The bytes of which the sectors of an entry's body are full, in their order, by the logical sectors after it.
fn body_of(rt: &(impl Abort + AllocGlobal), entry: &ByHand, list: List) -> Vec<u8> {
    let geometry = geometry_of(rt, entry);
    let mut body = Vec::new(rt.alloc());
    for (first, length, mask) in entry.runs {
        for row in *first..first.saturating_add(*length) {
            let bytes = row_of(rt, &geometry, list, u64::from(row));
            for member in 0..3u8 {
                if has_bit(*mask, member) {
                    body.push(bytes[member as usize]).expect(rt, "memory");
                }
            }
        }
    }
    body
}

// The devices of the entry's set, without it: the members have these logical sectors.
fn image_of(rt: &(impl Abort + AllocGlobal), entry: &ByHand, list: List) -> Image {
    let geometry = geometry_of(rt, entry);
    let member = (geometry.rows() as usize).saturating_add(8);
    let mut image = devices(rt, &[member, member, member, 8_200, 8_200], 0);
    for slot in 0..5u8 {
        let sector = first_superblock(entry, slot);
        put_sector(rt, &mut image, slot as usize, 1, &sector);
    }
    for row in 0..geometry.rows() {
        let bytes = row_of(rt, &geometry, list, row);
        for member in 0..3usize {
            let at = (row as usize).saturating_add(8);
            put_sector(rt, &mut image, member, at, &[bytes[member]; 512]);
        }
    }
    image
}

// Puts an entry on a journal, body and seal.
fn put_entry(rt: &(impl Abort + AllocGlobal), image: &mut Image, journal: usize, entry: &ByHand) {
    let body = body_of(rt, entry, &list_after(rt, entry));
    let (seal, first) = places_of(entry);
    for (i, byte) in body.iter().enumerate() {
        put_sector(rt, image, journal, first.saturating_add(i), &[*byte; 512]);
    }
    put_sector(rt, image, journal, seal, &seal_of(rt, entry));
}

// The array that is assembled on these devices.
fn assembled(rt: &(impl Abort + AllocGlobal), image: Image) -> Array<MemBank> {
    let bank = bank_of(rt, image, Plan::NONE, ROOM);
    let entry = Entry::new(rt.alloc()).expect(rt, "memory");
    array_of(rt, assemble(bank, entry, ID))
}

// Asks that a journal has an entry, body and seal.
fn check_journal(rt: &impl Abort, image: &Image, journal: usize, entry: &ByHand, body: &[u8]) {
    let (seal, first) = places_of(entry);
    let is_sealed = sector_of(rt, image, journal, seal) == seal_of(rt, entry);
    same(rt, (journal, is_sealed), (journal, true));
    for (i, byte) in body.iter().enumerate() {
        let at = first.saturating_add(i);
        let stands = sector_of(rt, image, journal, at) == [*byte; 512];
        same(rt, (journal, at, stands), (journal, at, true));
    }
}

// Asks that the members have these logical sectors, and each row its parity.
fn check_members(rt: &impl Abort, image: &Image, geometry: &Geometry, list: List) {
    for row in 0..geometry.rows() {
        let bytes = row_of(rt, geometry, list, row);
        for member in 0..3usize {
            let at = (row as usize).saturating_add(8);
            let stands = sector_of(rt, image, member, at) == [bytes[member]; 512];
            same(rt, (row, member, stands), (row, member, true));
        }
    }
}

// Asks that an array without a missing slot has the entry as its last one, on both journals and on the members, safe.
fn check_settled(rt: &(impl Abort + AllocGlobal), entry: &ByHand, array: &Array<MemBank>) {
    same(rt, array.entry, u64::from(entry.number));
    check_missing(rt, &array.table, NONE);
    let list = list_after(rt, entry);
    let body = body_of(rt, entry, &list);
    let image = image_now(rt, &array.bank, Choice::Oldest);
    check_journal(rt, &image, 3, entry, &body);
    check_journal(rt, &image, 4, entry, &body);
    check_members(rt, &image, &array.table.geometry, &list);
}

// The choice at a crash of this number: each of three in turn.
fn in_turn(number: u64) -> Choice {
    match number % 3 {
        0 => Choice::Oldest,
        1 => Choice::Newest,
        _ => Choice::Mixed(3),
    }
}

// Assembles the set with an entry on these journals, whose members are as they were before it.
fn brought(rt: &(impl Abort + AllocGlobal), entry: &ByHand, journals: &[usize]) -> Array<MemBank> {
    let mut image = image_of(rt, entry, &list_before(rt, &geometry_of(rt, entry)));
    for journal in journals {
        put_entry(rt, &mut image, *journal, entry);
    }
    let array = assembled(rt, image);
    check_settled(rt, entry, &array);
    array
}

// Assembles the set again after a crash in an assembly: it ends in the same.
fn check_crash(rt: &(impl Abort + AllocGlobal), entry: &ByHand, bank: &MemBank, call: u64) {
    let image = crashed(rt, bank, call, in_turn(call));
    check_settled(rt, entry, &assembled(rt, image));
}

// Assembles the set again after a crash in an assembly without a slot: its logical sectors are those after the entry.
fn check_crash_without(
    rt: &(impl Abort + AllocGlobal),
    entry: &ByHand,
    bank: &MemBank,
    call: u64,
    slot: usize,
) {
    let mut image = crashed(rt, bank, call, in_turn(call));
    take(rt, &mut image, slot);
    let mut again = assembled(rt, image);
    same(rt, (call, again.entry), (call, u64::from(entry.number)));
    check_missing(rt, &again.table, slot);
    check_sectors(rt, &mut again, &list_after(rt, entry));
}

// Checks crashes after each call of the assembly of an entry that both journals have, each with none of the slots taken
// away or with one of them, in turn.
fn check_put(rt: &(impl Abort + AllocGlobal), entry: &ByHand) {
    let array = brought(rt, entry, &[3, 4]);
    for call in 0..array.bank.now().saturating_add(1) {
        let slot = (call % 6) as usize;
        if slot < 5 {
            check_crash_without(rt, entry, &array.bank, call, slot);
        } else {
            check_crash(rt, entry, &array.bank, call);
        }
    }
}

// Checks crashes after each call of the assembly of an entry that this journal alone has.
fn check_copied(rt: &(impl Abort + AllocGlobal), entry: &ByHand, journal: usize) {
    let array = brought(rt, entry, &[journal]);
    for call in 0..array.bank.now().saturating_add(1) {
        check_crash(rt, entry, &array.bank, call);
    }
}

// Rows 32 to 39 and 48 to 63 are zeros, and of rows 40 to 47 all members' sectors are held; the body is in half 0.
const ZEROS_BESIDE: ByHand<'static> = ByHand {
    chunk: 8,
    stripes: 9,
    number: 2,
    runs: &[(32, 8, 0x00), (40, 8, 0x07), (48, 16, 0x00)],
};

#[test]
fn zeros_beside_a_run_are_put(rt: HostRuntime) {
    check_put(&rt, &ZEROS_BESIDE);
}

#[test]
fn zeros_beside_a_run_are_copied(rt: HostRuntime) {
    check_copied(&rt, &ZEROS_BESIDE, 3);
}

// Rows 3 to 39, the last, are zeros, over five stripes: there is no body.
const ZEROS_ALONE: ByHand<'static> = ByHand {
    chunk: 8,
    stripes: 5,
    number: 1,
    runs: &[(3, 37, 0x00)],
};

#[test]
fn zeros_alone_are_put(rt: HostRuntime) {
    check_put(&rt, &ZEROS_ALONE);
}

#[test]
fn zeros_alone_are_copied(rt: HostRuntime) {
    check_copied(&rt, &ZEROS_ALONE, 4);
}

// 58 runs of a row each, with a row that no run has after each third: zeros, all members, and all but one of the two
// with data, in turn.
fn runs_58() -> [Run; 58] {
    let mut runs = [(0, 1, 0); 58];
    for i in 0..58u8 {
        let row = i + i / 3;
        let parity = 2 - row / 8 % 3;
        let all_but = [0x06, 0x05, 0x03];
        let mask = match i % 4 {
            0 => 0x00,
            1 => 0x07,
            2 => all_but[((parity + 1) % 3) as usize],
            _ => all_but[((parity + 2) % 3) as usize],
        };
        runs[i as usize] = (u16::from(row), 1, mask);
    }
    runs
}

// Their rows are 0 to 76 of 80, over ten stripes; the body is in half 1.
fn of_58<'a>(runs: &'a [Run]) -> ByHand<'a> {
    ByHand {
        chunk: 8,
        stripes: 10,
        number: 3,
        runs,
    }
}

#[test]
fn entry_of_58_runs_is_put(rt: HostRuntime) {
    check_put(&rt, &of_58(&runs_58()));
}

#[test]
fn entry_of_58_runs_is_copied(rt: HostRuntime) {
    check_copied(&rt, &of_58(&runs_58()), 4);
}

// A chunk of 1,024 sectors: rows 0 to 2,047 are all that the set has, with the parity on member 2 and from row 1,024 on
// on member 1. The body fills a half of a journal.
const OF_2048_ROWS: ByHand<'static> = ByHand {
    chunk: 1_024,
    stripes: 2,
    number: 3,
    runs: &[(0, 2_048, 0x06)],
};

// Each device is read three times or twice, the journals for two seals more, and then the body: a crash at 0 finds the
// members old, one in the middle of the writes of each member a part of its rows.
#[test]
fn run_of_2048_rows_is_put(rt: HostRuntime) {
    let array = brought(&rt, &OF_2048_ROWS, &[3, 4]);
    let calls = 15 + 4 + 4_096 + 2 * 2_049;
    same(&rt, array.bank.now(), calls);
    for call in [calls - 3_000, calls - 2_049, calls - 1_000, calls - 1] {
        check_crash(&rt, &OF_2048_ROWS, &array.bank, call);
    }
}

// The body is written, too, with a flush, and the seal with another one.
#[test]
fn run_of_2048_rows_is_copied(rt: HostRuntime) {
    let array = brought(&rt, &OF_2048_ROWS, &[4]);
    let put = 2 * 2_049;
    let calls = 15 + 4 + 4_096 + 4_099 + put;
    same(&rt, array.bank.now(), calls);
    for call in [
        calls - put - 2_000,
        calls - put - 2,
        calls - put,
        calls - 1_000,
    ] {
        check_crash(&rt, &OF_2048_ROWS, &array.bank, call);
    }
}

// Assembles a set with a seal in sector 2 of slot 3, whose number is 2: whether that is the last entry's. Where it is
// not, nothing is written.
fn check_seal(rt: &(impl Abort + AllocGlobal), image: Image, seal: &Sector, counts: bool) {
    let mut image = image;
    put_sector(rt, &mut image, 3, 2, seal);
    let array = assembled(rt, image);
    let entry = if counts { 2 } else { 0 };
    let has_written = array.bank.room < ROOM;
    same(rt, (array.entry, has_written), (entry, counts));
    check_missing(rt, &array.table, NONE);
}

// The entry of row 32 with the sectors of members 1 and 2, and of row 32 whole. Sets of both formats have 64 rows in
// stripes of 8.
#[test]
fn seals_of_the_other_format(rt: HostRuntime) {
    let entry = ByHand {
        chunk: 8,
        stripes: 8,
        number: 2,
        runs: &[(32, 1, 0x06)],
    };
    let zeros = [(0, 0); 128];
    let runs = seal_of(&rt, &entry);
    check_seal(&rt, fresh(&rt, SHORT), &runs, false);
    check_seal(&rt, fresh(&rt, SHORT), &held_seal(2, 0x06), true);
    check_seal(
        &rt,
        image_of(&rt, &entry, &zeros),
        &held_seal(2, 0x06),
        false,
    );
    check_seal(&rt, image_of(&rt, &entry, &zeros), &whole_seal(2), false);
    check_seal(&rt, image_of(&rt, &entry, &zeros), &runs, true);
}

// The last row of the set is row 63: rows 56 to 63 of zeros count, and up to row 64 they do not.
#[test]
fn zeros_after_the_last_row(rt: HostRuntime) {
    let zeros = [(0, 0); 128];
    for (length, counts) in [(8, true), (9, false)] {
        let entry = ByHand {
            chunk: 8,
            stripes: 8,
            number: 2,
            runs: &[(56, length, 0x00)],
        };
        check_seal(
            &rt,
            image_of(&rt, &entry, &zeros),
            &seal_of(&rt, &entry),
            counts,
        );
    }
}
