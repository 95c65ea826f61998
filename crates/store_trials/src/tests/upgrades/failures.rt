//! Devices that go down in an upgrade, and upgrades of sets that lack a slot or rebuild one.
use super::super::Answer::{Done, Scrubbed, Stepped};
use super::super::Call::{Create, Fail, RebuildStep, Replace, Scrub, Upgrade, Write};
use super::super::Step::{Do, Holds, Shows, Version};
use super::super::{
    NO_SLOT, SET_A, Step, TestStore, Volumes, again, check, check_call, check_missing,
    fail_devices, fresh_store, next_run, opened_after, unlike, version_of,
};
use super::{BEFORE_MEMBERS, BEFORE_SEALS, CALLS};
use crate::testing::same;
use rebuild::Progress::{Complete, Position};
use scrub::ScrubReport;
use sector_model::{Bank, Choice, MemBank};
use std::process::Abort;

// Two volumes, of which each has a block that was written.
static BEFORE: [Step; 4] = [
    Do(Create(b"a", 3), Done),
    Do(Create(b"b", 2), Done),
    Do(Write(b"a", 1, &[0x11]), Done),
    Do(Write(b"b", 0, &[0x22]), Done),
];

const VOLUMES: Volumes = &[(b"a", &[0, 0x11, 0]), (b"b", &[0x22, 0])];

// The last call to each slot, counted from 0: members 0 to 2 get 9, 16 and 16 sectors and a flush, one after the other,
// and each journal a seal and a flush.
static LAST_CALLS: [u64; 5] = [
    BEFORE_MEMBERS + 9,
    BEFORE_MEMBERS + 10 + 16,
    CALLS - 1,
    BEFORE_SEALS + 1,
    BEFORE_SEALS + 3,
];

// Asks that a store shows the volumes in a table of version 2, with this slot missing or none.
fn check_held(
    rt: &(impl Abort + AllocGlobal),
    store: &mut TestStore,
    number: usize,
    missing: usize,
) {
    check_missing(rt, store, number, missing);
    let place = unlike(rt, store, VOLUMES);
    let got = (number, place, version_of(rt, store));
    same(rt, got, (number, None, 2));
}

// Upgrades the table, in which a slot goes down at its first call from one on, counted from the first, if it `fails`.
fn upgrade(
    rt: &(impl Abort + AllocGlobal),
    store: &mut TestStore,
    slot: u8,
    call: u64,
    fails: bool,
) {
    let number = call as usize;
    let from = store.bank().now();
    fail_devices(rt, store, &[slot], call);
    check_call(rt, store, number, Upgrade, Done);
    fail_devices(rt, store, &[], 0);
    let calls = store.bank().now().saturating_sub(from);
    assert!(rt; fails || calls == CALLS);
    assert!(rt; slot < store.bank().devices());
    same(rt, (number, store.bank().is_down(slot)), (number, fails));
}

// Checks the upgrade on what this bank holds, in which a slot goes down at its first call from one on. What fails is
// named by that call.
fn check_failure(rt: &(impl Abort + AllocGlobal), bank: &MemBank, slot: u8, call: u64) {
    assert!(rt; slot < 5);
    let number = call as usize;
    let fails = call <= LAST_CALLS[slot as usize];
    let missing = if fails { slot as usize } else { NO_SLOT };
    let mut store = next_run(rt, bank);
    upgrade(rt, &mut store, slot, call, fails);
    let now = store.bank().now();
    let mut later = again(rt, store.bank(), now, Choice::Oldest, NO_SLOT);
    check_held(rt, &mut later, number, missing);
    let mut without = again(rt, store.bank(), now, Choice::Newest, slot as usize);
    check_held(rt, &mut without, number, slot as usize);
    check_held(rt, &mut store, number, missing);
}

// Checks the failures of these slots at each device call of the upgrade, and none in it.
fn check_failures(rt: &(impl Abort + AllocGlobal), slots: &[u8]) {
    let store = opened_after(rt, SET_A, &BEFORE);
    for slot in slots {
        for call in 0..CALLS + 1 {
            check_failure(rt, store.bank(), *slot, call);
        }
    }
}

#[test]
fn each_member_down_in_upgrade(rt: HostRuntime) {
    check_failures(&rt, &[0, 1, 2]);
}

#[test]
fn each_journal_down_in_upgrade(rt: HostRuntime) {
    check_failures(&rt, &[3, 4]);
}

// Upgrades a set without a slot, and gives that a device then.
fn check_degraded(rt: &(impl Abort + AllocGlobal), slot: u8) {
    let mut store = fresh_store(rt, SET_A);
    check(rt, &mut store, &BEFORE);
    check(
        rt,
        &mut store,
        &[Do(Fail(slot), Done), Version(1), Do(Upgrade, Done)],
    );
    let number = slot as usize;
    check_held(rt, &mut store, number, number);
    let mut later = next_run(rt, store.bank());
    check_held(rt, &mut later, number, number);
    check(rt, &mut later, &[Do(Replace(slot), Done)]);
    if slot < 3 {
        check(rt, &mut later, &REBUILT);
    }
    check_whole(rt, &mut later, number);
}

// The steps of 64 rows that rebuild a member.
static REBUILT: [Step; 4] = [
    Do(RebuildStep(64), Stepped(Position(64))),
    Do(RebuildStep(64), Stepped(Position(128))),
    Do(RebuildStep(64), Stepped(Position(192))),
    Do(RebuildStep(64), Stepped(Complete)),
];

// No row of set A is unsound.
static SOUND: [Step; 2] = [
    Do(
        Scrub,
        Scrubbed(ScrubReport {
            rows: 256,
            bad: 0,
            first_bad: None,
        }),
    ),
    Shows(VOLUMES),
];

// Asks that a set is whole, and shows the volumes in a table of version 2.
fn check_whole(rt: &(impl Abort + AllocGlobal), store: &mut TestStore, number: usize) {
    check_held(rt, store, number, NO_SLOT);
    check(rt, store, &SOUND);
}

#[test]
fn upgrade_of_a_degraded_set(rt: HostRuntime) {
    for slot in 0..5u8 {
        check_degraded(&rt, slot);
    }
}

// Upgrades a set of which a member is rebuilt up to the middle of the rows of the table, and rebuilds the rest.
fn check_rebuilding(rt: &(impl Abort + AllocGlobal), slot: u8) {
    static STEPS: [Step; 8] = [
        Do(RebuildStep(8), Stepped(Position(8))),
        Version(1),
        Do(Upgrade, Done),
        Version(2),
        Holds(VOLUMES),
        Do(RebuildStep(64), Stepped(Position(72))),
        Do(RebuildStep(64), Stepped(Position(136))),
        Do(RebuildStep(64), Stepped(Position(200))),
    ];
    let mut store = fresh_store(rt, SET_A);
    check(rt, &mut store, &BEFORE);
    check(
        rt,
        &mut store,
        &[Do(Fail(slot), Done), Do(Replace(slot), Done)],
    );
    check(rt, &mut store, &STEPS);
    let mut later = next_run(rt, store.bank());
    check(rt, &mut later, &[Do(RebuildStep(64), Stepped(Complete))]);
    check_whole(rt, &mut later, slot as usize);
}

#[test]
fn upgrade_of_a_rebuilding_set(rt: HostRuntime) {
    for slot in 0..3u8 {
        check_rebuilding(&rt, slot);
    }
}
