//! Devices that go down in the commit of a large batch: it is done without one, and two end the store.
use super::super::Write;
use super::super::failures::{Failing, FailingTwo, check_failing, check_two};
use super::super::steps::Volumes;
use super::{Large, ROWS_2048, RUNS_58, Size, writes_of};
use crate::testing::same;
use sector_model::MemBank;
use std::process::Abort;

// The last call of the commit to a slot: the flush after its sectors, the last read where it has none of them, or the
// flush after its seal.
fn last_call(size: &Size, slot: u8) -> u64 {
    let calls = match slot {
        3 => return size.unsealed().saturating_add(1),
        4 => return size.unsealed().saturating_add(3),
        member => size.put_below(member as usize + 1),
    };
    if calls == 0 {
        size.reads().saturating_sub(1)
    } else {
        size.sealed().saturating_add(calls - 1)
    }
}

// Checks the failures of one slot after the other, each from a later call on by so many calls, and none in the last.
// How many there were.
fn check_failures(rt: &(impl Abort + AllocGlobal), size: Size, step: u64) -> u64 {
    assert!(rt; step > 0);
    let large = Large::of(rt, size);
    let store = large.store(rt);
    let new = large.new(rt);
    let writes = writes_of(rt, &size, &new);
    let mut number = 0u64;
    for call in 0..size.calls().saturating_add(1) {
        if call % step == 0 {
            let slot = (number % 5) as u8;
            let failing = Failing {
                slot,
                call,
                last: last_call(&size, slot),
                calls: size.calls(),
                writes: &writes,
                new: &new,
            };
            check_failing(rt, store.bank(), &failing);
            number = number.saturating_add(1);
        }
    }
    number
}

// From each ninth call of 414 on.
#[test]
fn each_slot_down_in_a_batch_of_58_runs(rt: HostRuntime) {
    same(&rt, check_failures(&rt, RUNS_58, 9), 47);
}

// From each 2,869th call of 14,345 on, of which 2,869 times 5 is the last.
#[test]
fn each_slot_down_in_a_batch_of_2048_rows(rt: HostRuntime) {
    same(&rt, check_failures(&rt, ROWS_2048, 2_869), 6);
}

// Two slots that go down in the commit, and its first call from which on the batch is there afterwards.
type Pair = ([u8; 2], u64);

// The pairs of slots, where these many calls end with the last read of members 0 and 1, of 0 and 2, and of 1 and 2.
//
// Of two members one goes down at a read, before anything is written; after the last read no member is called before
// both seals are safe. The lower journal goes down with a member unless its own seal is safe, which takes two calls.
// The upper one goes down at its own seal, if not before, when the other seal is safe; and so do both, from there on.
fn pairs(size: &Size, reads: [u64; 3]) -> [Pair; 10] {
    let upper = size.unsealed();
    let lower = upper.saturating_add(2);
    [
        ([0, 1], reads[0]),
        ([0, 2], reads[1]),
        ([1, 2], reads[2]),
        ([0, 3], lower),
        ([1, 3], lower),
        ([2, 3], lower),
        ([0, 4], upper),
        ([1, 4], upper),
        ([2, 4], upper),
        ([3, 4], lower),
    ]
}

// The last call of the commit to either slot.
fn last_to_either(size: &Size, slots: [u8; 2]) -> u64 {
    last_call(size, slots[0]).max(last_call(size, slots[1]))
}

// A large batch, and the volumes before it and after it.
#[derive(Clone, Copy)]
struct Told<'a> {
    writes: &'a [Write<'a>],
    old: Volumes<'a>,
    new: Volumes<'a>,
}

// Checks the failures of a pair from this call on.
fn check_pair(
    rt: &(impl Abort + AllocGlobal),
    bank: &MemBank,
    told: &Told,
    (slots, first_new): Pair,
    call: u64,
) {
    let failing = FailingTwo {
        slots,
        call,
        writes: told.writes,
        left: if call >= first_new {
            told.new
        } else {
            told.old
        },
    };
    check_two(rt, bank, &failing);
}

// Checks a pair from the first call on, from the last one from which on the volumes are as before, from the one after
// that, and from the last call to either slot. How many calls these are.
fn check_edges(
    rt: &(impl Abort + AllocGlobal),
    bank: &MemBank,
    told: &Told,
    size: &Size,
    pair: Pair,
) -> u64 {
    let last = last_to_either(size, pair.0);
    let mut number = 0u64;
    let mut next = 0u64;
    for call in [0, pair.1.saturating_sub(1), pair.1, last] {
        if next <= call && call <= last {
            check_pair(rt, bank, told, pair, call);
            number = number.saturating_add(1);
            next = call.saturating_add(1);
        }
    }
    number
}

// Each pair from its first and last calls on, and those between which the volumes change: two calls of the pair of
// which no row is read, and of the one that is not called after that; four of the others.
#[test]
fn two_slots_down_in_a_batch_of_58_runs(rt: HostRuntime) {
    let large = Large::of(&rt, RUNS_58);
    let store = large.store(&rt);
    let (old, new) = (large.old(&rt), large.new(&rt));
    let writes = writes_of(&rt, &RUNS_58, &new);
    let told = Told {
        writes: &writes,
        old: &old,
        new: &new,
    };
    let mut number = 0u64;
    for pair in &pairs(&RUNS_58, [58, 58, 0]) {
        let calls = check_edges(&rt, store.bank(), &told, &RUNS_58, *pair);
        number = number.saturating_add(calls);
    }
    same(&rt, number, 2 + 2 + 8 * 4);
}

// Each pair from one call on, by turns the first one from which on the batch is there, and the one before it. The last
// rows are read on members 2, 1 and 0: stripe 14 up to call 1,791, and 128 rows each of stripes 15 and 16.
#[test]
fn two_slots_down_in_a_batch_of_2048_rows(rt: HostRuntime) {
    let large = Large::of(&rt, ROWS_2048);
    let store = large.store(&rt);
    let (old, new) = (large.old(&rt), large.new(&rt));
    let writes = writes_of(&rt, &ROWS_2048, &new);
    let told = Told {
        writes: &writes,
        old: &old,
        new: &new,
    };
    let mut is_new = false;
    for pair in &pairs(&ROWS_2048, [2_048, 2_048, 1_920]) {
        let before = if is_new { 0 } else { 1 };
        let call = pair.1.saturating_sub(before);
        check_pair(&rt, store.bank(), &told, *pair, call);
        is_new = !is_new;
    }
}
