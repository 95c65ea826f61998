//! Sets of 3 members, chunk 8 and 8 stripes whose journals have entries of both forms: of a whole row, and of what
//! changes in it. Row 32 has logical sectors 72 and 64 on members 0 and 2, and the parity on member 1.
use super::{Change, List, check_members, checked, commit, shows_new};
use crate::testing::{
    AssemblySize, BLANK, CommitSize, ID, SHORT, assembled, fresh, image_now, left, made,
    put_sector, same, sector_of,
};
use array_io::Array;
use sector_model::{Bank, Choice, Image, MemBank, Sector};
use std::process::Abort;

// No slot of the set.
const NONE: usize = 5;

/// The seal of the entry of this number that holds row 32 whole.
pub(crate) fn whole_seal(number: u8) -> Sector {
    let mut sector = BLANK;
    sector[..8].copy_from_slice(b"RAID5JE1");
    sector[8..24].copy_from_slice(&ID);
    sector[24] = number;
    sector[32] = 1;
    sector[40] = 32;
    sector[504..].copy_from_slice(b"1EJ5DIAR");
    sector
}

/// The seal of the entry of this number that holds of row 32 what a mask has.
pub(crate) fn held_seal(number: u8, mask: u8) -> Sector {
    let mut sector = whole_seal(number);
    sector[7] = b'2';
    sector[168] = mask;
    sector[504] = b'2';
    sector
}

// What an entry of the whole row holds, member by member, and what it says.
static BODY: [u8; 3] = [0x05, 0x27, 0x22];

static WHOLE: [(u64, u8); 4] = [(64, 0x22), (65, 0), (72, 0x05), (73, 0)];

// Puts that entry with this number on a journal, body and seal.
fn put_whole(rt: &impl Abort, image: &mut Image, slot: usize, number: u8) {
    let half = (number % 2) as usize;
    for i in 0..3 {
        put_sector(rt, image, slot, 8 + 256 * half + i, &[BODY[i]; 512]);
    }
    put_sector(rt, image, slot, 2 + half, &whole_seal(number));
}

// Asks that both journals have these seals in sectors 2 and 3, and this body from a sector on, each of its sectors full
// of a byte.
fn check_journals(rt: &impl Abort, image: &Image, seals: &[Sector; 2], from: u16, body: &[u8]) {
    assert!(rt; body.len() <= 256);
    for slot in [3, 4] {
        for i in 0..2 {
            let stands = sector_of(rt, image, slot, 2 + i) == seals[i];
            same(rt, (slot, 2 + i, stands), (slot, 2 + i, true));
        }
        for i in 0..body.len() {
            let at = from as usize + i;
            let stands = sector_of(rt, image, slot, at) == [body[i]; 512];
            same(rt, (slot, at, stands), (slot, at, true));
        }
    }
}

// The array that is assembled on a set whose journals have entry 1 of the whole row, and whose members are as they were
// made.
fn replayed(rt: &(impl Abort + AllocGlobal)) -> Array<MemBank> {
    let mut image = fresh(rt, SHORT);
    put_whole(rt, &mut image, 3, 1);
    put_whole(rt, &mut image, 4, 1);
    let array = assembled(rt, image);
    let size = AssemblySize {
        members: 3,
        out: None,
        masks: &[0x07],
        is_copied: false,
    };
    same(rt, (array.entry, array.bank.now()), (1, size.calls()));
    array
}

// The commit of 64 to that array, and what is there before and after.
const OF_64: CommitSize = CommitSize {
    members: 3,
    masks: &[0x06],
};

static CHANGE: Change = Change {
    old: &[(64, 0x22), (65, 0), (72, 0x05), (73, 0)],
    new: &[(64, 0x66), (65, 0), (72, 0x05), (73, 0)],
    rows: &[0, 32, 33, 63],
};

// All members get the whole row, and the next entry has the next number and holds the parity and the new sector alone.
#[test]
fn whole_entry_replayed(rt: HostRuntime) {
    let mut array = replayed(&rt);
    check_members(&rt, &array.bank, CHANGE.rows, CHANGE.old);
    commit(&rt, &mut array, &[(64, 0x66)]);
    same(&rt, array.entry, 2);
    let seals = [held_seal(2, 0x06), whole_seal(1)];
    let image = image_now(&rt, &array.bank, Choice::Oldest);
    check_journals(&rt, &image, &seals, 8, &[0x63, 0x66, 0]);
    check_journals(&rt, &image, &seals, 264, &BODY);
    same(&rt, checked(&rt, image, NONE, CHANGE.new).entry, 2);
}

// Checks whether what is new is shown after so many calls, with a slot absent afterwards or none.
fn check_crash(
    rt: &(impl Abort + AllocGlobal),
    bank: &MemBank,
    crash: u64,
    choice: Choice,
    absent: usize,
    is_sealed: bool,
) {
    let is_new = shows_new(rt, left(rt, bank, crash, choice, absent), CHANGE);
    same(rt, (crash, absent, is_new), (crash, absent, is_sealed));
}

// Checks the crashes with this choice in the commit that follows the entry of the whole row, with each one slot absent
// or none: its entry shows where a journal that is there has its seal. A crash after so many calls from the first seal
// on, and no fewer, leaves it on slot 3, and on slot 4.
fn check_crashes(rt: &(impl Abort + AllocGlobal), choice: Choice, sealed: [u64; 2]) {
    let mut array = replayed(rt);
    let from = array.bank.now();
    assert!(rt; from < 1_000);
    commit(rt, &mut array, &[(64, 0x66)]);
    let end = from + OF_64.calls();
    same(rt, array.bank.now(), end);
    let seals = from + OF_64.before_seals();
    for crash in from..end + 1 {
        for absent in 0..6usize {
            let lower = absent != 3 && crash >= seals.saturating_add(sealed[0]);
            let upper = absent != 4 && crash >= seals.saturating_add(sealed[1]);
            check_crash(rt, &array.bank, crash, choice, absent, lower || upper);
        }
    }
}

#[test]
fn stops_in_commit_after_whole_entry_oldest(rt: HostRuntime) {
    check_crashes(&rt, Choice::Oldest, [2, 4]);
}

#[test]
fn stops_in_commit_after_whole_entry_newest(rt: HostRuntime) {
    check_crashes(&rt, Choice::Newest, [1, 3]);
}

// What entry 1 says, before the entry of the whole row is entry 2.
static EARLIER: [(u64, u8); 4] = [(64, 0x11), (65, 0), (72, 0), (73, 0)];

// The assembly that copies the latter to slot 4.
const COPIED: AssemblySize = AssemblySize {
    members: 3,
    out: None,
    masks: &[0x07],
    is_copied: true,
};

// Checks what is assembled after a crash, with the device of slot 3, and without it: then entry 2 is there from this
// call on.
fn check_copy(
    rt: &(impl Abort + AllocGlobal),
    bank: &MemBank,
    crash: u64,
    choice: Choice,
    sealed: u64,
) {
    let _ = checked(rt, left(rt, bank, crash, choice, NONE), NONE, &WHOLE);
    let list: List = if crash >= sealed { &WHOLE } else { &EARLIER };
    let _ = checked(rt, left(rt, bank, crash, choice, 3), 3, list);
}

// Entry 2 of the whole row stands on slot 3 alone, beside entry 1, which holds what changed in that row and stands on
// both.
#[test]
fn whole_entry_after_a_held_one(rt: HostRuntime) {
    let mut first = made(&rt, SHORT);
    commit(&rt, &mut first, &[(64, 0x11)]);
    let mut image = image_now(&rt, &first.bank, Choice::Newest);
    put_whole(&rt, &mut image, 3, 2);
    let array = assembled(&rt, image);
    let calls = COPIED.calls();
    same(&rt, (array.entry, array.bank.now()), (2, calls));
    check_members(&rt, &array.bank, &[0, 32, 33, 63], &WHOLE);
    let image = image_now(&rt, &array.bank, Choice::Oldest);
    check_journals(&rt, &image, &[whole_seal(2), held_seal(1, 0x06)], 8, &BODY);
    let sealed = COPIED.before_members();
    for crash in 0..calls + 1 {
        check_copy(&rt, &array.bank, crash, Choice::Oldest, sealed);
        check_copy(
            &rt,
            &array.bank,
            crash,
            Choice::Newest,
            sealed.saturating_sub(1),
        );
    }
}
