//! Devices that go down while blocks are made zero, or did before: it is done without one, and two end the store.
use super::crashes::{Range, check_crash, ends_of, written, zeroed, zeroed_in};
use super::sets::{NO_SLOT, TestStore, again, check_ended, check_missing, fail_devices, next_run};
use crate::testing::same;
use sector_model::{Bank, Choice, MemBank, Refusal};
use std::process::Abort;

// Asks that a store has this slot missing, or none, and that all blocks of a range are zero and no other.
fn check_zeroed(
    rt: &(impl Abort + AllocGlobal),
    mut store: TestStore,
    call: u64,
    missing: usize,
    range: Range,
) {
    check_missing(rt, &store, call, missing);
    let end = zeroed_in(rt, &mut store, call, range);
    same(rt, (call, end), (call, range.0.saturating_add(range.1)));
}

// Makes a range zero while a slot goes down at its first call from one on. Whether it went down.
fn check_failure(
    rt: &(impl Abort + AllocGlobal),
    before: &MemBank,
    range: Range,
    (slot, call): (u8, u64),
) -> bool {
    let mut store = next_run(rt, before);
    fail_devices(rt, &mut store, &[slot], call);
    let answer = store.zero(b"v", range.0, range.1);
    same(rt, (slot, call, answer), (slot, call, Ok(())));
    fail_devices(rt, &mut store, &[], 0);
    assert!(rt; slot < store.bank().devices());
    let fails = store.bank().is_down(slot);
    let missing = if fails { slot as usize } else { NO_SLOT };
    let now = store.bank().now();
    let oldest = again(rt, store.bank(), now, Choice::Oldest, NO_SLOT);
    check_zeroed(rt, oldest, call, missing, range);
    let without = again(rt, store.bank(), now, Choice::Newest, slot as usize);
    check_zeroed(rt, without, call, slot as usize, range);
    check_zeroed(rt, store, call, missing, range);
    fails
}

// Checks the failures of one slot after the other, each from a later call on. How many went down.
fn check_failures(rt: &(impl Abort + AllocGlobal), range: Range) -> u64 {
    let before = written(rt);
    let (store, from) = zeroed(rt, before.bank(), range);
    let calls = store.bank().now().saturating_sub(from);
    let mut failed = 0u64;
    for call in 0..calls.saturating_add(1) {
        if check_failure(rt, before.bank(), range, ((call % 5) as u8, call)) {
            failed = failed.saturating_add(1);
        }
    }
    failed
}

// The last of the 167 calls to each slot, which are those of block 64, are 164, 152, 166, 160 and 162: 161 of the calls
// have one to their slot from there on.
#[test]
fn each_slot_down_in_three_parts(rt: HostRuntime) {
    same(&rt, check_failures(&rt, (5, 60)), 161);
}

// The last of 81 calls to each slot are 30, 55 and 80, the flushes of the members, and 3 and 5, those of the seals.
#[test]
fn each_slot_down_in_whole_stripes(rt: HostRuntime) {
    same(&rt, check_failures(&rt, (0, 48)), 7 + 11 + 16 + 1 + 1);
}

// The last of 188 calls to each slot are 146, 170 and 187, and 127 and 129.
#[test]
fn each_slot_down_in_one_write(rt: HostRuntime) {
    same(&rt, check_failures(&rt, (9, 32)), 30 + 34 + 38 + 25 + 26);
}

// Makes a range zero while two slots go down, each at its first call from one on, which ends the store unless one is
// not called any more. The set is then assembled with both devices back, without what was not flushed: the blocks of
// the first commits are zero. Whether it ended.
fn check_two(
    rt: &(impl Abort + AllocGlobal),
    before: &MemBank,
    range: Range,
    (slots, call): ([u8; 2], u64),
) -> bool {
    let mut store = next_run(rt, before);
    fail_devices(rt, &mut store, &slots, call);
    let answer = store.zero(b"v", range.0, range.1);
    let ends = answer == Err(Refusal::TwoLost);
    if ends {
        check_ended(rt, &mut store, Refusal::TwoLost);
    } else {
        same(rt, (slots, call, answer), (slots, call, Ok(())));
    }
    let now = store.bank().now();
    let mut later = again(rt, store.bank(), now, Choice::Oldest, NO_SLOT);
    let end = zeroed_in(rt, &mut later, call, range);
    let (at, count) = range;
    let is_end = end == at.saturating_add(count);
    let is_between = end == at || ends_of(range).contains(&end);
    assert!(rt; is_end || (ends && is_between));
    ends
}

// One pair of slots after the other, each from a later call on. How many ended the store.
fn check_pairs(rt: &(impl Abort + AllocGlobal), range: Range) -> u64 {
    let before = written(rt);
    let (store, from) = zeroed(rt, before.bank(), range);
    let calls = store.bank().now().saturating_sub(from);
    let mut ended = 0u64;
    for call in 0..calls.saturating_add(1) {
        let first = (call % 5) as u8;
        let second = (call.wrapping_add(1).wrapping_add(call / 5 % 4) % 5) as u8;
        if check_two(rt, before.bank(), range, ([first, second], call)) {
            ended = ended.saturating_add(1);
        }
    }
    ended
}

// The store ends where a call comes to one of the two, since giving that up writes to the other: in 153 cases up to
// call 152, and from there on in those from 153 to 162, 164 and 165.
#[test]
fn two_slots_down_in_three_parts(rt: HostRuntime) {
    same(&rt, check_pairs(&rt, (5, 60)), 153 + 12);
}

// Makes a range zero in a set that lacks a slot, and checks each so many-th crash in it, with the slot still absent.
fn check_without(
    rt: &(impl Abort + AllocGlobal),
    before: &MemBank,
    range: Range,
    slot: usize,
    step: u64,
) {
    assert!(rt; step > 0);
    let lost = again(rt, before, before.now(), Choice::Newest, slot);
    let (store, from) = zeroed(rt, lost.bank(), range);
    let place = (range, store.bank(), from);
    let calls = store.bank().now().saturating_sub(from);
    for call in 0..calls.saturating_add(1) {
        if call % step == slot as u64 % step || call == calls {
            check_crash(rt, place, call, (Choice::Oldest, slot));
            check_crash(rt, place, call, (Choice::Newest, slot));
        }
    }
    check_zeroed(rt, store, calls, slot, range);
}

// Each one slot is lost before.
#[test]
fn crashes_without_a_slot_in_three_parts(rt: HostRuntime) {
    let before = written(&rt);
    for slot in 0..5usize {
        check_without(&rt, before.bank(), (5, 60), slot, 4);
    }
}

#[test]
fn crashes_without_a_slot_in_one_write(rt: HostRuntime) {
    let before = written(&rt);
    for slot in 0..5usize {
        check_without(&rt, before.bank(), (9, 32), slot, 4);
    }
}

#[test]
fn crashes_without_a_slot_in_whole_stripes(rt: HostRuntime) {
    let before = written(&rt);
    for slot in 0..5usize {
        check_without(&rt, before.bank(), (16, 48), slot, 3);
    }
}
