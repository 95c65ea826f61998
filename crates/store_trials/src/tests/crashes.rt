//! Crashes in the device calls of a store: assembling and opening it again finds the volumes before the call or after
//! it, also without any one slot.
use super::Answer::Done;
use super::Call::{Create, Extend, Remove, Rename, Upgrade, Write};
use super::Step::{Do, Holds, Shows};
use super::calls::SEAL_CALLS;
use super::{
    Call, NO_SLOT, SET_A, SMALL, Shape, Step, TestStore, Volumes, again, check, opened_after,
    unlike,
};
use crate::testing::same;
use sector_model::{Bank, Choice, MemBank};
use std::process::Abort;

/// A call on a set of 3 members, what was done before it, and the volumes before it and after it. Its last commit,
/// which is of the table or the write itself, has so many rows, of each of which one sector is given, and writes to so
/// many members: two where all of these sectors are of one, and all parity of another.
#[derive(Clone, Copy)]
pub(crate) struct Case<'a> {
    pub(crate) shape: Shape,
    pub(crate) before: &'a [Step<'a>],
    pub(crate) call: Call<'a>,
    pub(crate) old: Volumes<'a>,
    pub(crate) new: Volumes<'a>,
    pub(crate) rows: u8,
    pub(crate) members: u8,
}

// Whether a store that is opened after a crash, with a slot absent if it is one of the set's, shows the volumes after
// the call, and else those before it, as has to be. Where it does, it takes these steps.
fn shows_new(
    rt: &(impl Abort + AllocGlobal),
    bank: &MemBank,
    call: u64,
    (choice, absent): (Choice, usize),
    case: &Case,
    then: &[Step],
) -> bool {
    let mut store = again(rt, bank, call, choice, absent);
    let is_new = unlike(rt, &mut store, case.new).is_none();
    if is_new {
        check(rt, &mut store, then);
    } else {
        let place = unlike(rt, &mut store, case.old);
        same(rt, (call, absent, place), (call, absent, None));
    }
    is_new
}

// The store of a case after its call, with these steps before it and after it, and the numbers of device calls before
// the call and after it.
fn called(
    rt: &(impl Abort + AllocGlobal),
    case: &Case,
    before: &[Step],
    after: &[Step],
) -> (TestStore, u64, u64) {
    let mut store = opened_after(rt, case.shape, case.before);
    check(rt, &mut store, before);
    let from = store.bank().now();
    check(rt, &mut store, &[Do(case.call, Done)]);
    let end = store.bank().now();
    check(rt, &mut store, after);
    (store, from, end)
}

/// The choice at a crash with a slot absent, or none: each of three in turn.
pub(crate) fn each_in_turn(call: u64, absent: usize) -> Choice {
    match (call % 3 + (absent % 3) as u64 * 2) % 3 {
        0 => Choice::Oldest,
        2 => Choice::Newest,
        _ => Choice::Mixed(3),
    }
}

/// Each one slot of a set of five absent, and none.
pub(crate) const ABSENT: &[usize] = &[0, 1, 2, 3, 4, 5];

// The numbers of the device calls before the seals of a case's last commit, and after them: it ends with the calls of
// its seals, and then those of its members.
fn seals_of(case: &Case, end: u64) -> (u64, u64) {
    let put = (2 * u64::from(case.rows)).saturating_add(u64::from(case.members));
    let sealed = end.saturating_sub(put);
    (sealed.saturating_sub(SEAL_CALLS), sealed)
}

// Checks the crashes at each device call of a case, from one to another, with each one of these slots absent, by this
// choice or by each in turn: no seal is written before the calls of the seals, and both are safe after them. Each store
// that shows the volumes after the call takes these steps.
fn check_each(
    rt: &(impl Abort + AllocGlobal),
    bank: &MemBank,
    (from, end): (u64, u64),
    case: &Case,
    choice: Option<Choice>,
    slots: &[usize],
    then: &[Step],
) {
    let (unsealed, sealed) = seals_of(case, end);
    for call in from..end.saturating_add(1) {
        for absent in slots {
            let choice = choice.unwrap_or(each_in_turn(call, *absent));
            let is_new = shows_new(rt, bank, call, (choice, *absent), case, then);
            let want = call >= sealed || (call > unsealed && is_new);
            same(rt, (call, *absent, is_new), (call, *absent, want));
        }
    }
}

/// Checks the crashes at each device call of a case, with each one of these slots absent, by this choice or by each in
/// turn.
pub(crate) fn check_crashes(
    rt: &(impl Abort + AllocGlobal),
    case: &Case,
    choice: Option<Choice>,
    slots: &[usize],
) {
    let before = [Shows(case.old), Holds(case.old)];
    let (store, from, end) = called(rt, case, &before, &[Shows(case.new)]);
    let (unsealed, _) = seals_of(case, end);
    assert!(rt; from < unsealed);
    check_each(rt, store.bank(), (from, end), case, choice, slots, &[]);
}

/// Checks the crashes at each device call from the seals of a case's last commit on, with no slot absent, by each
/// choice in turn, and takes these steps on each store that shows the volumes after the call.
pub(crate) fn check_crashes_then(rt: &(impl Abort + AllocGlobal), case: &Case, then: &[Step]) {
    let (store, from, end) = called(rt, case, &[Holds(case.old)], &[Holds(case.new)]);
    let (unsealed, _) = seals_of(case, end);
    assert!(rt; from < unsealed);
    check_each(
        rt,
        store.bank(),
        (unsealed, end),
        case,
        None,
        &[NO_SLOT],
        then,
    );
}

// The blocks of the new volume had other bytes before.
static CREATE: Case = Case {
    shape: SMALL,
    before: &[
        Do(Create(b"b", 1), Done),
        Do(Create(b"a", 5), Done),
        Do(Write(b"b", 0, &[0x11]), Done),
        Do(Write(b"a", 0, &[0xaa; 5]), Done),
        Do(Remove(b"a"), Done),
    ],
    call: Create(b"a", 3),
    old: &[(b"b", &[0x11])],
    new: &[(b"a", &[0; 3]), (b"b", &[0x11])],
    rows: 2,
    members: 2,
};

#[test]
fn crashes_in_create_oldest(rt: HostRuntime) {
    check_crashes(&rt, &CREATE, Some(Choice::Oldest), ABSENT);
}

#[test]
fn crashes_in_create_newest(rt: HostRuntime) {
    check_crashes(&rt, &CREATE, Some(Choice::Newest), ABSENT);
}

#[test]
fn crashes_in_create_mixed(rt: HostRuntime) {
    check_crashes(&rt, &CREATE, Some(Choice::Mixed(3)), ABSENT);
}

// The new blocks lie in an extent that the volume has, and one had other bytes before.
static EXTEND: Case = Case {
    shape: SMALL,
    before: &[
        Do(Create(b"b", 5), Done),
        Do(Write(b"b", 0, &[0xaa; 5]), Done),
        Do(Remove(b"b"), Done),
        Do(Create(b"a", 2), Done),
        Do(Write(b"a", 0, &[0x11, 0x22]), Done),
    ],
    call: Extend(b"a", 2),
    old: &[(b"a", &[0x11, 0x22])],
    new: &[(b"a", &[0x11, 0x22, 0, 0])],
    rows: 1,
    members: 2,
};

#[test]
fn stops_in_extend_within_an_extent(rt: HostRuntime) {
    check_crashes(&rt, &EXTEND, None, ABSENT);
}

// Block 63 lies in the extent that the volume has, and block 64 in a new one. Both had other bytes before.
static EXTEND_BEYOND: Case = Case {
    shape: SMALL,
    before: &[
        Do(Create(b"a", 65), Done),
        Do(Write(b"a", 62, &[0xaa; 3]), Done),
        Do(Remove(b"a"), Done),
        Do(Create(b"a", 63), Done),
        Do(Write(b"a", 0, &[0x33; 32]), Done),
        Do(Write(b"a", 32, &[0x44; 31]), Done),
    ],
    call: Extend(b"a", 2),
    old: &[(
        b"a",
        &[
            0x33, 0x33, 0x33, 0x33, 0x33, 0x33, 0x33, 0x33, 0x33, 0x33, 0x33, 0x33, 0x33, 0x33,
            0x33, 0x33, 0x33, 0x33, 0x33, 0x33, 0x33, 0x33, 0x33, 0x33, 0x33, 0x33, 0x33, 0x33,
            0x33, 0x33, 0x33, 0x33, 0x44, 0x44, 0x44, 0x44, 0x44, 0x44, 0x44, 0x44, 0x44, 0x44,
            0x44, 0x44, 0x44, 0x44, 0x44, 0x44, 0x44, 0x44, 0x44, 0x44, 0x44, 0x44, 0x44, 0x44,
            0x44, 0x44, 0x44, 0x44, 0x44, 0x44, 0x44,
        ],
    )],
    new: &[(
        b"a",
        &[
            0x33, 0x33, 0x33, 0x33, 0x33, 0x33, 0x33, 0x33, 0x33, 0x33, 0x33, 0x33, 0x33, 0x33,
            0x33, 0x33, 0x33, 0x33, 0x33, 0x33, 0x33, 0x33, 0x33, 0x33, 0x33, 0x33, 0x33, 0x33,
            0x33, 0x33, 0x33, 0x33, 0x44, 0x44, 0x44, 0x44, 0x44, 0x44, 0x44, 0x44, 0x44, 0x44,
            0x44, 0x44, 0x44, 0x44, 0x44, 0x44, 0x44, 0x44, 0x44, 0x44, 0x44, 0x44, 0x44, 0x44,
            0x44, 0x44, 0x44, 0x44, 0x44, 0x44, 0x44, 0, 0,
        ],
    )],
    rows: 2,
    members: 2,
};

#[test]
fn stops_in_extend_beyond_an_extent(rt: HostRuntime) {
    check_crashes(&rt, &EXTEND_BEYOND, None, ABSENT);
}

// Blocks 1 to 3 lie in rows 33 to 35.
static WRITE: Case = Case {
    shape: SMALL,
    before: &[
        Do(Create(b"a", 5), Done),
        Do(Write(b"a", 0, &[0x11, 0x22, 0x33, 0x44, 0x55]), Done),
    ],
    call: Write(b"a", 1, &[0xaa, 0xbb, 0xcc]),
    old: &[(b"a", &[0x11, 0x22, 0x33, 0x44, 0x55])],
    new: &[(b"a", &[0x11, 0xaa, 0xbb, 0xcc, 0x55])],
    rows: 3,
    members: 2,
};

#[test]
fn crashes_in_write(rt: HostRuntime) {
    check_crashes(&rt, &WRITE, None, ABSENT);
}

static REMOVE: Case = Case {
    shape: SMALL,
    before: &[
        Do(Create(b"a", 3), Done),
        Do(Create(b"b", 2), Done),
        Do(Write(b"a", 0, &[0x11, 0x22, 0x33]), Done),
        Do(Write(b"b", 0, &[0x44, 0x55]), Done),
    ],
    call: Remove(b"a"),
    old: &[(b"a", &[0x11, 0x22, 0x33]), (b"b", &[0x44, 0x55])],
    new: &[(b"b", &[0x44, 0x55])],
    rows: 2,
    members: 2,
};

#[test]
fn crashes_in_remove(rt: HostRuntime) {
    check_crashes(&rt, &REMOVE, None, ABSENT);
}

// The volume after its tenth block is written, and extended by ten.
static KEEPS_AND_ZEROES: Case = Case {
    shape: SET_A,
    before: &[
        Do(Create(b"a", 10), Done),
        Do(Write(b"a", 9, &[0xff]), Done),
    ],
    call: Extend(b"a", 10),
    old: &[(b"a", &[0, 0, 0, 0, 0, 0, 0, 0, 0, 0xff])],
    new: &[(
        b"a",
        &[
            0, 0, 0, 0, 0, 0, 0, 0, 0, 0xff, 0, 0, 0, 0, 0, 0, 0, 0, 0, 0,
        ],
    )],
    rows: 1,
    members: 2,
};

#[test]
fn stops_in_extend(rt: HostRuntime) {
    for choice in [Choice::Oldest, Choice::Newest, Choice::Mixed(3)] {
        check_crashes(&rt, &KEEPS_AND_ZEROES, Some(choice), &[5]);
    }
    check_crashes(&rt, &KEEPS_AND_ZEROES, None, &[0, 1, 2, 3, 4]);
}

// A volume whose first block was written gets another name: sector 1 of the table changes alone, in row 1.
static RENAME: Case = Case {
    shape: SET_A,
    before: &[
        Do(Create(b"a", 10), Done),
        Do(Write(b"a", 0, &[0xab]), Done),
    ],
    call: Rename(b"a", b"b"),
    old: &[(b"a", &[0xab, 0, 0, 0, 0, 0, 0, 0, 0, 0])],
    new: &[(b"b", &[0xab, 0, 0, 0, 0, 0, 0, 0, 0, 0])],
    rows: 1,
    members: 2,
};

#[test]
fn stops_in_rename(rt: HostRuntime) {
    check_crashes(&rt, &RENAME, None, ABSENT);
}

// The same with a table of version 2, to a name of the longest length. Record 4 is the first in sector 2, in row 2.
static LONG_RENAME: Case = Case {
    shape: SET_A,
    before: &[
        Do(Create(b"a", 1), Done),
        Do(Create(b"b", 1), Done),
        Do(Create(b"c", 1), Done),
        Do(Create(b"d", 1), Done),
        Do(Create(b"e", 2), Done),
        Do(Write(b"e", 1, &[0xab]), Done),
        Do(Upgrade, Done),
    ],
    call: Rename(
        b"e",
        b"a-name-of-twenty-four-bytes-and-of-thirty-nine-more-behind-them",
    ),
    old: &[
        (b"a", &[0]),
        (b"b", &[0]),
        (b"c", &[0]),
        (b"d", &[0]),
        (b"e", &[0, 0xab]),
    ],
    new: &[
        (b"a", &[0]),
        (
            b"a-name-of-twenty-four-bytes-and-of-thirty-nine-more-behind-them",
            &[0, 0xab],
        ),
        (b"b", &[0]),
        (b"c", &[0]),
        (b"d", &[0]),
    ],
    rows: 1,
    members: 2,
};

#[test]
fn stops_in_rename_of_version_2(rt: HostRuntime) {
    check_crashes(&rt, &LONG_RENAME, None, ABSENT);
}
