//! Crashes in an upgrade: assembling and opening the set again finds the volumes as they were, in a table of one
//! version or the other.
use super::super::Answer::Done;
use super::super::Call::Upgrade;
use super::super::Step::{Do, Version};
use super::super::crashes::each_in_turn;
use super::super::every_call::begun;
use super::super::{SET_A, Step, TestStore, again, check, fresh_store, unlike, version_of};
use super::forged::with_old_bytes;
use super::{BEFORE_MEMBERS, BEFORE_SEALS, CALLS, ONE, ONE_VOLUME};
use crate::testing::same;
use sector_model::{Bank, MemBank};
use std::process::Abort;

// The version of the table after a crash at a call, with a slot absent if it is one of the set's. The volumes have to
// be as they were. The call counts from the first of the upgrade.
fn version_after(
    rt: &(impl Abort + AllocGlobal),
    bank: &MemBank,
    first: u64,
    call: u64,
    absent: usize,
) -> u8 {
    let crash = first.saturating_add(call);
    let mut store = again(rt, bank, crash, each_in_turn(call, absent), absent);
    let place = unlike(rt, &mut store, ONE_VOLUME);
    same(rt, (call, absent, place), (call, absent, None));
    version_of(rt, &store)
}

// The version that a table may have after so many calls of the upgrade, where a crash finds this one: 1 where no seal
// is written, and 2 where both are safe.
fn wanted(call: u64, found: u8) -> u8 {
    if call <= BEFORE_SEALS {
        return 1;
    }
    if call >= BEFORE_MEMBERS || found != 1 {
        return 2;
    }
    1
}

// Checks the crashes at a call with each one slot of five absent, and none. How many there are.
fn check_crashed_call(
    rt: &(impl Abort + AllocGlobal),
    bank: &MemBank,
    first: u64,
    call: u64,
) -> u64 {
    let mut images = 0u64;
    for absent in 0..6usize {
        let version = version_after(rt, bank, first, call, absent);
        let want = wanted(call, version);
        same(rt, (call, absent, version), (call, absent, want));
        images = images.saturating_add(1);
    }
    images
}

// Upgrades a store that has the volume, and checks the crashes at each call of that: after none of them, after the
// first, and so on.
fn check_crashes(rt: &(impl Abort + AllocGlobal), store: &mut TestStore) {
    static STEPS: [Step; 3] = [Version(1), Do(Upgrade, Done), Version(2)];
    check(rt, store, &ONE);
    let first = store.bank().now();
    check(rt, store, &STEPS);
    same(rt, store.bank().now(), first.saturating_add(CALLS));
    let mut images = 0u64;
    for call in 0..CALLS + 1 {
        images = images.saturating_add(check_crashed_call(rt, store.bank(), first, call));
    }
    same(rt, images, 6 * (CALLS + 1));
}

// 840 crashes, by three choices in turn.
#[test]
fn stops_in_upgrade(rt: HostRuntime) {
    check_crashes(&rt, &mut fresh_store(&rt, SET_A));
}

// The same where other bytes stood in the sectors after the table of version 1.
#[test]
fn stops_in_upgrade_over_old_bytes(rt: HostRuntime) {
    check_crashes(&rt, &mut begun(&rt, with_old_bytes(&rt)));
}
