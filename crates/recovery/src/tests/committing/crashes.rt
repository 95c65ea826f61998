//! Crashes in the device calls of a commit: assembling finds all of it or none, also without any one slot.
use super::{Change, List, check_sectors, commit, list_of, put_list, shows_new, zeros};
use crate::testing::{
    CommitSize, ID, SET_A, SHORT, Shape, assembled, crashed, fresh, geometry_of, left, same,
    sector_of,
};
use array_io::Array;
use sector_model::{Bank, Choice, Image, MemBank};
use std::process::Abort;
use stripe_journal::oracle::last_sealed_in;

// The number of the last entry on a journal of set A, 0 where there is none.
fn last_number(rt: &impl Abort, image: &Image, slot: usize) -> u64 {
    assert!(rt; slot < image.slots.len());
    match last_sealed_in(&image.slots[slot], &ID, &geometry_of(rt, SET_A)) {
        Some(seal) => seal.number,
        None => 0,
    }
}

// The bank of a set of this shape to which these sectors were committed, the second ones by so many calls; and how many
// calls came before these.
fn committed_twice(
    rt: &(impl Abort + AllocGlobal),
    shape: Shape,
    earlier: List,
    list: List,
    calls: u64,
) -> (MemBank, u64) {
    let mut array = assembled(rt, fresh(rt, shape));
    commit(rt, &mut array, earlier);
    let from = array.bank.now();
    assert!(rt; from < 10_000 && calls < 10_000);
    commit(rt, &mut array, list);
    same(rt, array.bank.now(), from + calls);
    (array.into_bank(), from)
}

// What is there before and after 64 is written the second time.
static BEFORE: [(u64, u8); 3] = [(64, 0x11), (65, 0x77), (72, 0)];

static AFTER: [(u64, u8); 3] = [(64, 0x22), (65, 0x77), (72, 0)];

// The commit of 64 to set A, which changes members 1 and 2.
const OF_64: CommitSize = CommitSize {
    members: 3,
    masks: &[0x06],
};

// The bank of set A to which 64 was written twice, and the number of calls before the second time.
fn written_twice(rt: &(impl Abort + AllocGlobal)) -> (MemBank, u64) {
    let mut array = assembled(rt, fresh(rt, SET_A));
    commit(rt, &mut array, &[(64, 0x11)]);
    commit(rt, &mut array, &[(65, 0x77)]);
    let from = array.bank.now();
    assert!(rt; from < 1_000);
    commit(rt, &mut array, &[(64, 0x22)]);
    same(rt, array.bank.now(), from + OF_64.calls());
    (array.into_bank(), from)
}

// Asks that these sectors are read after so many calls, also where the device of a slot is absent afterwards.
fn check_left(
    rt: &(impl Abort + AllocGlobal),
    bank: &MemBank,
    call: u64,
    absent: usize,
    list: List,
) {
    let image = left(rt, bank, call, Choice::Newest, absent);
    check_sectors(rt, &mut assembled(rt, image), list);
}

#[test]
fn stop_between_seals(rt: HostRuntime) {
    let (bank, before) = written_twice(&rt);
    // After the seal was written to slot 3, and after it was flushed.
    let seals = before.saturating_add(OF_64.before_seals());
    for later in [1, 2] {
        let call = seals.saturating_add(later);
        let image = crashed(&rt, &bank, call, Choice::Newest);
        same(&rt, last_number(&rt, &image, 3), 3);
        same(&rt, last_number(&rt, &image, 4), 2);
        check_left(&rt, &bank, call, 5, &AFTER);
        check_left(&rt, &bank, call, 3, &BEFORE);
    }
}

#[test]
fn stop_after_first_member_write(rt: HostRuntime) {
    let (bank, before) = written_twice(&rt);
    // After the write to each member that has a part of it.
    let members = before.saturating_add(OF_64.before_members());
    for later in [1, 3] {
        let call = members.saturating_add(later);
        check_left(&rt, &bank, call, 1, &AFTER);
    }
    // No member has the new data after the first of these writes, and member 2 has it after the last one.
    for (later, byte) in [(1, 0x11), (3, 0x22)] {
        let image = crashed(&rt, &bank, members.saturating_add(later), Choice::Newest);
        let is_byte = sector_of(&rt, &image, 2, 40) == [byte; 512];
        same(&rt, (later, is_byte), (later, true));
    }
}

// The same crashes, where slot 2 is absent afterwards: its data is read by the parity and the entry.
#[test]
fn degraded_reads_after_stop(rt: HostRuntime) {
    let (bank, before) = written_twice(&rt);
    let members = before.saturating_add(OF_64.before_members());
    for later in [1, 3] {
        let call = members.saturating_add(later);
        check_left(&rt, &bank, call, 2, &[(64, 0x22), (65, 0x77)]);
    }
}

// Checks a crash after so many calls, with a slot absent afterwards if it is one of the set's. Whether assembling shows
// what is new.
fn shows_new_after(
    rt: &(impl Abort + AllocGlobal),
    bank: &MemBank,
    call: u64,
    choice: Choice,
    absent: usize,
    change: Change,
) -> bool {
    shows_new(rt, left(rt, bank, call, choice, absent), change)
}

// The second of two commits one after the other changes these, in rows 32 and 33.
static CHANGE: Change = Change {
    old: &[
        (0, 0),
        (64, 0x11),
        (65, 0x77),
        (72, 0x05),
        (73, 0),
        (127, 0),
    ],
    new: &[
        (0, 0),
        (64, 0x22),
        (65, 0x88),
        (72, 0x66),
        (73, 0),
        (127, 0),
    ],
    rows: &[0, 32, 33, 63],
};

const SECOND: CommitSize = CommitSize {
    members: 3,
    masks: &[0x07, 0x06],
};

// What is committed first, and then.
static EARLIER: [(u64, u8); 3] = [(64, 0x11), (65, 0x77), (72, 0x05)];

static LATER: [(u64, u8); 3] = [(64, 0x22), (65, 0x88), (72, 0x66)];

// Checks whether what is new is shown after so many calls of the second of two commits, with a slot absent afterwards
// or none.
fn check_second_crash(
    rt: &(impl Abort + AllocGlobal),
    twice: &(MemBank, u64),
    call: u64,
    choice: Choice,
    absent: usize,
    want: bool,
) {
    let crash = twice.1.saturating_add(call);
    let is_new = shows_new_after(rt, &twice.0, crash, choice, absent, CHANGE);
    same(rt, (call, absent, is_new), (call, absent, want));
}

// The crashes with this choice in the second of two commits, with each one slot absent or none: the entry shows where a
// journal that is there has its seal. A crash after so many calls from the first seal on, and no fewer, leaves it on
// slot 3, and on slot 4.
fn check_second_commit(rt: &(impl Abort + AllocGlobal), choice: Choice, sealed: [u64; 2]) {
    let calls = SECOND.calls();
    let seals = SECOND.before_seals();
    let twice = committed_twice(rt, SHORT, &EARLIER, &LATER, calls);
    for call in 0..calls + 1 {
        for absent in 0..6usize {
            let lower = absent != 3 && call >= seals.saturating_add(sealed[0]);
            let upper = absent != 4 && call >= seals.saturating_add(sealed[1]);
            check_second_crash(rt, &twice, call, choice, absent, lower || upper);
        }
    }
}

// The seals of entry 2 stand in sector 2 and are written one after the other, each flushed by the next call. Until then
// they have two candidates, of which `Mixed(3)` takes the older on slot 3, and the newer on slot 4.
#[test]
fn stops_in_commit_oldest(rt: HostRuntime) {
    check_second_commit(&rt, Choice::Oldest, [2, 4]);
}

#[test]
fn stops_in_commit_newest(rt: HostRuntime) {
    check_second_commit(&rt, Choice::Newest, [1, 3]);
}

#[test]
fn stops_in_commit_mixed(rt: HostRuntime) {
    check_second_commit(&rt, Choice::Mixed(3), [2, 3]);
}

// Checks the crash with this choice after so many calls of the second of two commits, with a slot absent afterwards or
// none.
fn check_crash(
    rt: &(impl Abort + AllocGlobal),
    twice: &(MemBank, u64),
    call: u64,
    choice: Choice,
    absent: usize,
    change: Change,
    size: CommitSize,
) {
    let crash = twice.1.saturating_add(call);
    let is_new = shows_new_after(rt, &twice.0, crash, choice, absent, change);
    // No seal is written before, and both are safe after that.
    let may_be_old = call < size.before_members();
    let may_be_new = call > size.before_seals();
    let may_be = if is_new { may_be_new } else { may_be_old };
    same(rt, (call, is_new, may_be), (call, is_new, true));
}

// The crashes at each call of the commit of `written_twice`, which changes row 32, each with this slot absent
// afterwards, or none.
fn check_crashes_of_64(rt: &(impl Abort + AllocGlobal), twice: &(MemBank, u64), absent: usize) {
    let change = Change {
        old: &BEFORE,
        new: &AFTER,
        rows: &[32, 33],
    };
    for call in 0..OF_64.calls() + 1 {
        for choice in [Choice::Oldest, Choice::Newest, Choice::Mixed(3)] {
            check_crash(rt, twice, call, choice, absent, change, OF_64);
        }
    }
}

#[test]
fn stops_in_commit(rt: HostRuntime) {
    let twice = written_twice(&rt);
    for absent in 0..6usize {
        check_crashes_of_64(&rt, &twice, absent);
    }
}

// A set has two journals. Here each is absent in its turn, so that the other is the only one.
#[test]
fn one_journal_stops(rt: HostRuntime) {
    let twice = written_twice(&rt);
    check_crashes_of_64(&rt, &twice, 4);
    check_crashes_of_64(&rt, &twice, 3);
}

// The crashes at each call of the second of two commits, each with another slot absent afterwards, or none.
fn check_crashes_in_turn(
    rt: &(impl Abort + AllocGlobal),
    twice: &(MemBank, u64),
    choice: Choice,
    change: Change,
    size: CommitSize,
) {
    for call in 0..size.calls() + 1 {
        let absent = (call % (u64::from(size.members) + 3)) as usize;
        check_crash(rt, twice, call, choice, absent, change, size);
    }
}

// The crashes at each call of a commit of this size to a set of this shape, where all other sectors stand as an earlier
// commit and zeros left them; each with another slot absent afterwards, or none.
fn check_each_crash(
    rt: &(impl Abort + AllocGlobal),
    shape: Shape,
    list: List,
    size: CommitSize,
    choice: Choice,
) {
    let earlier = list_of(56, 1, 0x81);
    let twice = committed_twice(rt, shape, &earlier, list, size.calls());
    let mut old = zeros(rt, shape);
    put_list(rt, &mut old, &earlier);
    let mut new = zeros(rt, shape);
    put_list(rt, &mut new, &earlier);
    put_list(rt, &mut new, list);
    let change = Change {
        old: &old,
        new: &new,
        rows: &[0, 8, 15, 16, 23],
    };
    check_crashes_in_turn(rt, &twice, choice, change, size);
}

fn size_of(members: u8, masks: &[u8]) -> CommitSize {
    CommitSize { members, masks }
}

// What changes in rows 16 to 31 of 4 members, where logical sectors 60 to 91 do: the parity is on member 1, and from
// row 24 on on member 0.
static MANY_OF_4: [u8; 16] = [
    0x03, 0x03, 0x03, 0x03, 0x0b, 0x0b, 0x0b, 0x0b, 0x0f, 0x0f, 0x0f, 0x0f, 0x07, 0x07, 0x07, 0x07,
];

// What changes in rows 8 to 15 of 8 members, with the parity on member 6.
static MANY_OF_8: [u8; 8] = [0x4f, 0x4f, 0x4f, 0x4f, 0xc7, 0xc7, 0xc7, 0xc7];

// Of 4 members, logical sectors 64 and 72 lie in rows 16 and 24, on members 0 and 1; of 8 members, both lie in row 8.
#[test]
fn crashes_in_commits_of_2_and_32(rt: HostRuntime) {
    let two = list_of(64, 8, 0x21);
    let many = list_of(60, 1, 0x31);
    let size = size_of(4, &[0x03, 0x03]);
    check_each_crash(&rt, (4, 8, 6), &two[..2], size, Choice::Newest);
    let size = size_of(8, &[0x43]);
    check_each_crash(&rt, (8, 8, 4), &two[..2], size, Choice::Oldest);
    let size = size_of(4, &MANY_OF_4);
    check_each_crash(&rt, (4, 8, 6), &many, size, Choice::Mixed(3));
    let size = size_of(8, &MANY_OF_8);
    check_each_crash(&rt, (8, 8, 4), &many, size, Choice::Mixed(2));
}

// The crashes at each call of the second of two commits to 5 members, with each of them absent afterwards.
fn check_each_member(
    rt: &(impl Abort + AllocGlobal),
    twice: &(MemBank, u64),
    change: Change,
    size: CommitSize,
) {
    let choices = [Choice::Oldest, Choice::Newest, Choice::Mixed(3)];
    for call in 0..size.calls() + 1 {
        for member in 0..5 {
            let choice = choices[(call % 3) as usize];
            check_crash(rt, twice, call, choice, member, change, size);
        }
    }
}

// Of 5 members, logical sectors 64, 72, 80 and 88 are the data of row 16, on members 3, 4, 0 and 1, with the parity on
// member 2, and those that follow them the data of row 17.
#[test]
fn each_member_absent_after_crash(rt: HostRuntime) {
    let old = list_of(64, 1, 0x11);
    let list = [(64, 0xa1), (72, 0xa2), (65, 0xa3)];
    let mut new = old;
    new[0] = (64, 0xa1);
    new[1] = (65, 0xa3);
    new[8] = (72, 0xa2);
    let size = size_of(5, &[0x1c, 0x0c]);
    let twice = committed_twice(&rt, (5, 8, 4), &old, &list, size.calls());
    let change = Change {
        old: &old,
        new: &new,
        rows: &[16, 17],
    };
    check_each_member(&rt, &twice, change, size);
}
