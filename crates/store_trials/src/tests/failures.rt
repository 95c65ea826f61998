//! Devices that go down in the calls of a store, and what a store answers once it was ended.
ghost use Rattle.std.specs.Prelude.{◌≤◌};

use super::Answer::{Blocks, Done, Refused};
use super::Call::{
    Create, Extend, Fail, List, Read, RebuildStep, Remove, Rename, Replace, Scrub, Upgrade, Write,
};
use super::Step::{Do, Ended, Failure, Holds, Shows};
use super::calls::{CommitSize, OF_TABLE};
use super::{
    Call, NO_SLOT, SET_A, SMALL, Step, TestStore, Volumes, again, check, check_call, check_missing,
    fail_devices, fresh_store, next_run, opened_after, unlike,
};
use crate::testing::same;
use sector_model::{Bank, Choice, MemBank, Refusal};
use std::process::Abort;

// The blocks of the new volume had other bytes before.
const BEFORE: &[Step] = &[
    Do(Create(b"b", 1), Done),
    Do(Create(b"a", 5), Done),
    Do(Write(b"b", 0, &[0x11]), Done),
    Do(Write(b"a", 0, &[0xaa; 5]), Done),
    Do(Remove(b"a"), Done),
];

// The volumes after the new one was made.
const VOLUMES: Volumes = &[(b"a", &[0; 3]), (b"b", &[0x11])];

// The commit that makes the 3 blocks zero, in rows 64 to 66: member 1 has them, and member 0 the parity.
const ZEROS: CommitSize = CommitSize { rows: 3, read: 2 };

// The device calls that make the volume: that commit, and one to 2 rows of the table.
fn calls_of_create() -> u64
    ensures { result ≤ 6_000 }
{
    ZEROS.calls() + OF_TABLE.calls()
}

// The last of these calls to a slot, counted from 0: it is in the second commit.
fn last_call(slot: u8) -> u64 {
    ZEROS.calls().saturating_add(OF_TABLE.last_call(slot))
}

// Asks that a store shows the volumes, with this slot missing or none.
fn check_held(
    rt: &(impl Abort + AllocGlobal),
    mut store: TestStore,
    number: usize,
    missing: usize,
) {
    check_missing(rt, &store, number, missing);
    let place = unlike(rt, &mut store, VOLUMES);
    same(rt, (number, place), (number, None));
}

// Makes the volume, in which a slot goes down at its first call from one on, counted from the first, if it `fails`.
fn create(
    rt: &(impl Abort + AllocGlobal),
    store: &mut TestStore,
    slot: u8,
    call: u64,
    fails: bool,
) {
    let number = call as usize;
    let from = store.bank().now();
    fail_devices(rt, store, &[slot], call);
    check_call(rt, store, number, Create(b"a", 3), Done);
    fail_devices(rt, store, &[], 0);
    let calls = store.bank().now().saturating_sub(from);
    assert!(rt; fails || calls == calls_of_create());
    assert!(rt; slot < store.bank().devices());
    same(rt, (number, store.bank().is_down(slot)), (number, fails));
}

// Checks the making of a volume on what this bank holds, in which a slot goes down at its first call from one on. What
// fails is named by that call.
fn check_failure(rt: &(impl Abort + AllocGlobal), bank: &MemBank, slot: u8, call: u64) {
    assert!(rt; slot < 5);
    let number = call as usize;
    let fails = call <= last_call(slot);
    let missing = if fails { slot as usize } else { NO_SLOT };
    let mut store = next_run(rt, bank);
    create(rt, &mut store, slot, call, fails);
    let now = store.bank().now();
    let later = again(rt, store.bank(), now, Choice::Oldest, NO_SLOT);
    check_held(rt, later, number, missing);
    let without = again(rt, store.bank(), now, Choice::Newest, slot as usize);
    check_held(rt, without, number, slot as usize);
    check_held(rt, store, number, missing);
}

// Checks the failures of these slots at each device call of the making, and none in it.
fn check_failures(rt: &(impl Abort + AllocGlobal), slots: &[u8]) {
    let store = opened_after(rt, SMALL, BEFORE);
    for slot in slots {
        for call in 0..calls_of_create() + 1 {
            check_failure(rt, store.bank(), *slot, call);
        }
    }
}

#[test]
fn each_member_down_in_create(rt: HostRuntime) {
    check_failures(&rt, &[0, 1, 2]);
}

#[test]
fn each_journal_down_in_create(rt: HostRuntime) {
    check_failures(&rt, &[3, 4]);
}

// Calls that a store admits, and some that it refuses before it does anything.
const CALLS: &[Call] = &[
    Write(b"a", 0, &[0x11]),
    Create(b"c", 1),
    Create(b"C", 0),
    Extend(b"a", 1),
    Extend(b"c", 1),
    Remove(b"a"),
    Remove(b"c"),
    Rename(b"a", b"c"),
    Rename(b"c", b"C"),
    Fail(0),
    Fail(9),
    Replace(0),
    Replace(9),
    RebuildStep(64),
    Scrub,
    Read(b"a", 0, 1),
    Read(b"c", 9, 0),
    List,
    Upgrade,
];

/// Checks that a store answers this refusal to every call, and makes no device call.
pub(crate) fn check_ended(
    rt: &(impl Abort + AllocGlobal),
    store: &mut TestStore,
    number: usize,
    refusal: Refusal,
) {
    let before = store.bank().now();
    for call in CALLS {
        check_call(rt, store, number, *call, Refused(refusal));
    }
    same(rt, (number, store.status().err()), (number, Some(refusal)));
    same(rt, (number, store.bank().now()), (number, before));
}

// A store with two volumes, of which one has a block that is written.
fn with_volumes(rt: &(impl Abort + AllocGlobal)) -> TestStore {
    let mut store = fresh_store(rt, SET_A);
    const STEPS: &[Step] = &[
        Do(Create(b"a", 2), Done),
        Do(Create(b"b", 1), Done),
        Do(Write(b"a", 0, &[0x77]), Done),
    ];
    check(rt, &mut store, STEPS);
    store
}

// Calls that end a store of which two devices go down.
const ENDING: &[Call] = &[
    Write(b"a", 1, &[0x11]),
    Create(b"bb", 1),
    Extend(b"a", 1),
    Remove(b"b"),
    Rename(b"b", b"c"),
    Upgrade,
    Fail(0),
    Fail(4),
];

// Checks that a call ends the store as slots 1 and 3 go down, and what is opened again then.
fn check_ending(rt: &(impl Abort + AllocGlobal), number: usize, call: Call) {
    let mut store = with_volumes(rt);
    fail_devices(rt, &mut store, &[1, 3], 0);
    check_call(rt, &mut store, number, call, Refused(Refusal::TwoLost));
    check_ended(rt, &mut store, number, Refusal::TwoLost);
    let now = store.bank().now();
    let mut later = again(rt, store.bank(), now, Choice::Oldest, NO_SLOT);
    let place = unlike(rt, &mut later, &[(b"a", &[0x77, 0]), (b"b", &[0])]);
    same(rt, (number, place), (number, None));
}

// Slot 1 is read or written by each of the calls, and 3 is written.
#[test]
fn kept_refusal(rt: HostRuntime) {
    let mut number = 0usize;
    for call in ENDING {
        check_ending(&rt, number, *call);
        number = number.wrapping_add(1);
    }
}

// Block 0 of `a` lies on member 2: of the set, it and slot 0 go down.
#[test]
fn refusal_of_a_read_is_kept(rt: HostRuntime) {
    const STEPS: &[Step] = &[
        Failure(&[2, 0], 0),
        Do(Read(b"a", 0, 1), Refused(Refusal::TwoLost)),
        Ended(Refusal::TwoLost),
    ];
    check(&rt, &mut with_volumes(&rt), STEPS);
}

// The entry's number stands at its limit.
#[test]
fn worn_is_kept(rt: HostRuntime) {
    const STEPS: &[Step] = &[
        Do(Read(b"a", 0, 1), Blocks(&[0x77])),
        Do(Create(b"A", 0), Refused(Refusal::BadName)),
        Do(Write(b"a", 0, &[0x11]), Refused(Refusal::Worn)),
        Ended(Refusal::Worn),
        Shows(&[(b"a", &[0x77, 0]), (b"b", &[0])]),
    ];
    let mut store = with_volumes(&rt);
    store.array.entry = 1 << 62;
    check(&rt, &mut store, STEPS);
}

// What is refused without harm ends no store.
#[test]
fn other_refusals_are_not_kept(rt: HostRuntime) {
    const STEPS: &[Step] = &[
        Do(Create(b"a", 1), Refused(Refusal::Exists)),
        Do(Create(b"c", 449), Refused(Refusal::NoSpace)),
        Do(Extend(b"c", 1), Refused(Refusal::NoVolume)),
        Do(Remove(b"c"), Refused(Refusal::NoVolume)),
        Do(Rename(b"a", b"b"), Refused(Refusal::Exists)),
        Do(Write(b"b", 1, &[1]), Refused(Refusal::OutOfRange)),
        Do(Fail(5), Refused(Refusal::NotMissing)),
        Do(Read(b"a", 0, 0), Refused(Refusal::BadCount)),
        Do(Write(b"b", 0, &[0x66]), Done),
        Holds(&[(b"a", &[0x77, 0]), (b"b", &[0x66])]),
    ];
    check(&rt, &mut with_volumes(&rt), STEPS);
}
