//! Devices that go down in a rename, and renames in sets that lack a slot or rebuild one.
use super::super::Answer::{Done, Stepped};
use super::super::Call::{Create, Fail, RebuildStep, Rename, Replace, Upgrade, Write};
use super::super::Step::{Do, Holds, Shows};
use super::super::calls::CommitSize;
use super::super::{
    NO_SLOT, SET_A, Step, TestStore, Volumes, again, check, check_call, check_missing,
    fail_devices, fresh_store, next_run, opened_after, unlike,
};
use crate::testing::same;
use rebuild::Progress::{Complete, Position};
use sector_model::{Bank, Choice, MemBank};
use std::process::Abort;

// Two volumes, of which the first has a block that was written.
static BEFORE: [Step; 3] = [
    Do(Create(b"a", 3), Done),
    Do(Create(b"b", 2), Done),
    Do(Write(b"a", 1, &[0xab]), Done),
];

// The same with a table of version 2.
static UPGRADED: [Step; 4] = [
    Do(Create(b"a", 3), Done),
    Do(Create(b"b", 2), Done),
    Do(Write(b"a", 1, &[0xab]), Done),
    Do(Upgrade, Done),
];

// The volumes when the first one has got the name `c`.
const VOLUMES: Volumes = &[(b"b", &[0, 0]), (b"c", &[0, 0xab, 0])];

// Sector 1 of the table, in row 1: member 0 has it, and member 2 the parity.
const OF_RECORD: CommitSize = CommitSize { rows: 1, read: 1 };

// The device calls of a rename.
const CALLS: u64 = 15;

// Asks that a store shows the volumes, with this slot missing or none.
fn check_held(
    rt: &(impl Abort + AllocGlobal),
    store: &mut TestStore,
    number: usize,
    missing: usize,
) {
    check_missing(rt, store, number, missing);
    let place = unlike(rt, store, VOLUMES);
    same(rt, (number, place), (number, None));
}

// Renames the volume, in which a slot goes down at its first call from one on, counted from the first, if it `fails`.
fn rename(
    rt: &(impl Abort + AllocGlobal),
    store: &mut TestStore,
    slot: u8,
    call: u64,
    fails: bool,
) {
    let number = call as usize;
    let from = store.bank().now();
    fail_devices(rt, store, &[slot], call);
    check_call(rt, store, number, Rename(b"a", b"c"), Done);
    fail_devices(rt, store, &[], 0);
    let calls = store.bank().now().saturating_sub(from);
    assert!(rt; fails || calls == CALLS);
    assert!(rt; slot < store.bank().devices());
    same(rt, (number, store.bank().is_down(slot)), (number, fails));
}

// Checks the rename on what this bank holds, in which a slot goes down at its first call from one on. What fails is
// named by that call.
fn check_failure(rt: &(impl Abort + AllocGlobal), bank: &MemBank, slot: u8, call: u64) {
    assert!(rt; slot < 5);
    let number = call as usize;
    let fails = call <= OF_RECORD.last_call(slot);
    let missing = if fails { slot as usize } else { NO_SLOT };
    let mut store = next_run(rt, bank);
    rename(rt, &mut store, slot, call, fails);
    let now = store.bank().now();
    let mut later = again(rt, store.bank(), now, Choice::Oldest, NO_SLOT);
    check_held(rt, &mut later, number, missing);
    let mut without = again(rt, store.bank(), now, Choice::Newest, slot as usize);
    check_held(rt, &mut without, number, slot as usize);
    check_held(rt, &mut store, number, missing);
}

// Checks the failures of each slot at each device call of the rename, and none in it.
fn check_failures(rt: &(impl Abort + AllocGlobal), before: &[Step]) {
    let store = opened_after(rt, SET_A, before);
    for slot in 0..5u8 {
        for call in 0..CALLS + 1 {
            check_failure(rt, store.bank(), slot, call);
        }
    }
}

#[test]
fn each_slot_down_in_rename(rt: HostRuntime) {
    check_failures(&rt, &BEFORE);
}

#[test]
fn each_slot_down_in_rename_of_version_2(rt: HostRuntime) {
    check_failures(&rt, &UPGRADED);
}

// Renames a volume of a set without a slot.
fn check_degraded(rt: &(impl Abort + AllocGlobal), slot: u8) {
    let mut store = fresh_store(rt, SET_A);
    check(rt, &mut store, &BEFORE);
    check(
        rt,
        &mut store,
        &[
            Do(Fail(slot), Done),
            Do(Rename(b"a", b"c"), Done),
            Shows(VOLUMES),
        ],
    );
    check_held(rt, &mut store, slot as usize, slot as usize);
    let mut later = next_run(rt, store.bank());
    check_held(rt, &mut later, slot as usize, slot as usize);
}

#[test]
fn renames_in_a_degraded_set(rt: HostRuntime) {
    for slot in 0..5u8 {
        check_degraded(&rt, slot);
    }
}

// Renames a volume of a set of which so many rows of a member are rebuilt, with row 1 or without it, and rebuilds the
// rest.
fn check_rebuilding(rt: &(impl Abort + AllocGlobal), slot: u8, rows: u64) {
    static RENAMED: [Step; 2] = [Do(Rename(b"a", b"c"), Done), Holds(VOLUMES)];
    static REST: [Step; 3] = [
        Do(RebuildStep(64), Stepped(Position(128))),
        Do(RebuildStep(64), Stepped(Position(192))),
        Do(RebuildStep(64), Stepped(Complete)),
    ];
    let mut store = fresh_store(rt, SET_A);
    check(rt, &mut store, &BEFORE);
    check(
        rt,
        &mut store,
        &[
            Do(Fail(slot), Done),
            Do(Replace(slot), Done),
            Do(RebuildStep(rows), Stepped(Position(rows))),
        ],
    );
    check(rt, &mut store, &RENAMED);
    let mut later = next_run(rt, store.bank());
    let rest = 64u64.saturating_sub(rows);
    check(
        rt,
        &mut later,
        &[Do(RebuildStep(rest), Stepped(Position(64)))],
    );
    check(rt, &mut later, &REST);
    check_held(rt, &mut later, slot as usize, NO_SLOT);
}

#[test]
fn renames_in_a_rebuilding_set(rt: HostRuntime) {
    for slot in 0..3u8 {
        check_rebuilding(&rt, slot, 1);
        check_rebuilding(&rt, slot, 2);
    }
}
