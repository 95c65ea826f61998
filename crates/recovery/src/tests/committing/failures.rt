//! Devices that go down in a commit.
use super::{List, answer_of_commit, check_members, check_sectors, checked, commit, unlike};
use crate::testing::{
    CommitSize, SET_A, SHORT, Shape, assembled, calls_of_make, check_missing, fails_at, fresh,
    image_now, left, made, same,
};
use array_io::Array;
use sector_model::{Bank, Choice, Image, MemBank, Plan, Refusal};
use std::process::Abort;

// Whether the device of a slot is down.
fn is_down(rt: &impl Abort, bank: &MemBank, slot: u8) -> bool {
    assert!(rt; slot < bank.devices());
    bank.is_down(slot)
}

// The flush of slot 2 is the last call of the first commit of set A, which changes members 1 and 2; the four other
// slots are written and flushed to mark it missing.
#[test]
fn commit_with_member_down(rt: HostRuntime) {
    let mut array = made(&rt, SET_A);
    let before = calls_of_make(3, 256);
    let size = CommitSize {
        members: 3,
        masks: &[0x06],
    };
    let calls = before + size.calls();
    array.bank.plan = fails_at(&rt, &[2], calls.saturating_sub(1));
    commit(&rt, &mut array, &[(64, 0x66)]);
    same(&rt, array.bank.now(), calls + 2 * 4);
    same(&rt, is_down(&rt, &array.bank, 2), true);
    check_missing(&rt, &array.table, 2);
    same(&rt, array.table.generation, 2);
    same(&rt, array.entry, 1);
    check_sectors(&rt, &mut array, &[(64, 0x66), (72, 0), (65, 0)]);
}

// What a commit is tried on: a set, what stands in it before, what is committed, and what is read afterwards.
#[derive(Clone, Copy)]
struct Case<'a> {
    shape: Shape,
    size: CommitSize<'a>,
    old: List<'a>,
    given: List<'a>,
    new: List<'a>,
}

// Of 3 members, logical sectors 64 and 72 are the data of row 32, on members 2 and 0, with the parity on member 1; 65
// and 73 are that of row 33.
static OF_3: Case = Case {
    shape: SHORT,
    size: CommitSize {
        members: 3,
        masks: &[0x07, 0x06],
    },
    old: &[(64, 0x11), (65, 0x77), (72, 0x05), (73, 0x09)],
    given: &[(65, 0xa1), (64, 0xa2), (72, 0xa3)],
    new: &[
        (64, 0xa2),
        (65, 0xa1),
        (72, 0xa3),
        (73, 0x09),
        (80, 0),
        (0, 0),
    ],
};

// Of 5 members, logical sectors 64, 72, 80 and 88 are the data of row 16, on members 3, 4, 0 and 1, with the parity on
// member 2.
static OF_5: Case = Case {
    shape: (5, 8, 4),
    size: CommitSize {
        members: 5,
        masks: &[0x0c],
    },
    old: &[(64, 0x11), (65, 0x77), (72, 0x05), (80, 0x09), (88, 0x30)],
    given: &[(64, 0xa2)],
    new: &[
        (64, 0xa2),
        (65, 0x77),
        (72, 0x05),
        (80, 0x09),
        (88, 0x30),
        (0, 0),
    ],
};

// The array of a case, before what is committed. In that these slots go down, each at its first call from one on,
// counted from the commit's first.
fn failing(
    rt: &(impl Abort + AllocGlobal),
    case: &Case,
    slots: &[u8],
    call: u64,
) -> Array<MemBank> {
    let mut array = assembled(rt, fresh(rt, case.shape));
    commit(rt, &mut array, case.old);
    let from = array.bank.now();
    assert!(rt; from < 1_000 && call < 1_000);
    array.bank.plan = fails_at(rt, slots, from + call);
    array
}

// Checks what is assembled on these devices: this slot is missing, if it is one of the set's, and these sectors are
// read. So it is by the members alone where all of them are there.
fn check_again(rt: &(impl Abort + AllocGlobal), image: Image, missing: usize, list: List) {
    let array = checked(rt, image, missing, list);
    check_members(rt, &array.bank, &[], list);
}

// Checks what a crash now leaves, where this slot is missing, if it is one of the set's; and without the device of a
// slot.
fn check_crashes(
    rt: &(impl Abort + AllocGlobal),
    bank: &MemBank,
    slot: u8,
    missing: usize,
    list: List,
) {
    check_again(rt, image_now(rt, bank, Choice::Oldest), missing, list);
    check_again(rt, image_now(rt, bank, Choice::Newest), missing, list);
    let image = left(rt, bank, bank.now(), Choice::Newest, slot as usize);
    check_again(rt, image, slot as usize, list);
}

// Checks a commit in which a slot goes down at its first call from one on, counted from the commit's first.
fn check_failure(rt: &(impl Abort + AllocGlobal), case: &Case, slot: u8, call: u64) {
    let mut array = failing(rt, case, &[slot], call);
    commit(rt, &mut array, case.given);
    array.bank.plan = Plan::NONE;
    let has_failed = case.size.is_called_from(slot, call);
    let missing = if has_failed { slot as usize } else { 10 };
    check_missing(rt, &array.table, missing);
    check_sectors(rt, &mut array, case.new);
    same(rt, is_down(rt, &array.bank, slot), has_failed);
    check_crashes(rt, &array.bank, slot, missing, case.new);
}

// Checks the failures of each slot at each call of a commit, and none in it.
fn check_failures(rt: &(impl Abort + AllocGlobal), case: &Case) {
    assert!(rt; case.size.members <= 8);
    for slot in 0..case.size.members + 2 {
        for call in 0..case.size.calls() + 1 {
            check_failure(rt, case, slot, call);
        }
    }
}

// The data that is committed lies on members 2 and 0; of row 33 member 0 is read.
#[test]
fn each_slot_down_in_commit(rt: HostRuntime) {
    check_failures(&rt, &OF_3);
}

// The data that is committed lies on member 3: it and the parity, on member 2, are read, and no other member is called.
#[test]
fn each_slot_down_in_commit_of_5(rt: HostRuntime) {
    check_failures(&rt, &OF_5);
}

// Checks that a crash leaves all that is new, or all that is old.
fn check_either(rt: &(impl Abort + AllocGlobal), image: Image, new: List, old: List) {
    let mut again = assembled(rt, image);
    if unlike(rt, &mut again, new).is_some() {
        check_sectors(rt, &mut again, old);
    }
}

// Checks that two slots are down, and what a crash leaves then.
fn check_lost(rt: &(impl Abort + AllocGlobal), bank: &MemBank, case: &Case, first: u8, second: u8) {
    same(rt, is_down(rt, bank, first), true);
    same(rt, is_down(rt, bank, second), true);
    check_either(rt, image_now(rt, bank, Choice::Oldest), case.new, case.old);
    check_either(rt, image_now(rt, bank, Choice::Newest), case.new, case.old);
}

// Checks a commit in which two slots go down, each at its first call from one on: whichever goes down first, the other
// is called to mark it missing.
fn check_two_failures(
    rt: &(impl Abort + AllocGlobal),
    case: &Case,
    first: u8,
    second: u8,
    call: u64,
) {
    let mut array = failing(rt, case, &[first, second], call);
    let answer = answer_of_commit(rt, &mut array, case.given);
    let failures = (first, second, call);
    if !case.size.is_called_from(first, call) && !case.size.is_called_from(second, call) {
        same(rt, (failures, answer), (failures, Ok(())));
    } else {
        same(rt, (failures, answer), (failures, Err(Refusal::TwoLost)));
        check_lost(rt, &array.bank, case, first, second);
    }
}

#[test]
fn second_device_down_in_commit(rt: HostRuntime) {
    let case = &OF_3;
    for first in 0..4u8 {
        for second in first + 1..5u8 {
            for call in 0..case.size.calls() + 1 {
                check_two_failures(&rt, case, first, second, call);
            }
        }
    }
}
