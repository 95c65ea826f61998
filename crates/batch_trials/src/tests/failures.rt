//! Devices that go down in the commit of a batch: it is done without one, and two end the store.
use super::crashes::{BEFORE, BEFORE_SEALS, CALLS, NEW, OLD, WRITES};
use super::sets::{NO_SLOT, SMALL, TestStore, again, check_missing, next_run};
use super::steps::{Volumes, opened_after, unlike};
use super::{LARGE_SMALL, Write, staged};
use crate::testing::same;
use sector_model::{Bank, Choice, MemBank, Refusal};
use std::process::Abort;

// The last call of the commit to a slot, counted from its first. The rows of the entry are 32 to 34, which have their
// given sectors on member 0, and 37 to 39, which have them on member 2; all have their parity on member 1. After the
// seals the members are written one after the other, 3, 6 and 3 sectors with a flush after them.
fn last_call(slot: u8) -> u64 {
    match slot {
        0 => BEFORE_SEALS + 4 + 3,
        1 => BEFORE_SEALS + 4 + 4 + 6,
        2 => BEFORE_SEALS + 4 + 4 + 7 + 3,
        3 => BEFORE_SEALS + 1,
        _ => BEFORE_SEALS + 3,
    }
}

/// A slot that goes down in the commit of a batch at its first call from one on, counted from the first of the commit.
#[derive(Clone, Copy)]
pub(crate) struct Failing<'a> {
    pub slot: u8,
    pub call: u64,
    /// The last call to the slot, and how many calls there are to all, where none goes down.
    pub last: u64,
    pub calls: u64,
    /// The batch, and the volumes after it.
    pub writes: &'a [Write<'a>],
    pub new: Volumes<'a>,
}

// Asks that a store shows these volumes, with this slot missing or none.
fn check_held(
    rt: &(impl Abort + AllocGlobal),
    mut store: TestStore,
    number: usize,
    missing: usize,
    volumes: Volumes,
) {
    check_missing(rt, &store, number as u64, missing);
    let place = unlike(rt, &mut store, volumes);
    same(rt, (number, place), (number, None));
}

/// Commits the batch on what this bank holds while the slot goes down. What fails is named by the call.
pub(crate) fn check_failing(rt: &(impl Abort + AllocGlobal), bank: &MemBank, failing: &Failing) {
    let (slot, number) = (failing.slot, failing.call as usize);
    let fails = failing.call <= failing.last;
    let missing = if fails { slot as usize } else { NO_SLOT };
    let mut waiting = staged(rt, next_run(rt, bank), failing.writes);
    let from = waiting.store.bank().now();
    waiting.fail(rt, &[slot], failing.call);
    same(rt, (number, waiting.commit()), (number, Ok(())));
    waiting.fail(rt, &[], 0);
    let calls = waiting.store.bank().now().saturating_sub(from);
    assert!(rt; fails || calls == failing.calls);
    let store = waiting.into_store(rt);
    assert!(rt; slot < store.bank().devices());
    same(rt, (number, store.bank().is_down(slot)), (number, fails));
    let now = store.bank().now();
    let later = again(rt, store.bank(), now, Choice::Oldest, NO_SLOT);
    check_held(rt, later, number, missing, failing.new);
    let without = again(rt, store.bank(), now, Choice::Newest, slot as usize);
    check_held(rt, without, number, slot as usize, failing.new);
    check_held(rt, store, number, missing, failing.new);
}

// Commits the small batch on what this bank holds while a slot goes down at its first call from one on.
fn check_failure(rt: &(impl Abort + AllocGlobal), bank: &MemBank, slot: u8, call: u64) {
    let failing = Failing {
        slot,
        call,
        last: last_call(slot),
        calls: CALLS,
        writes: WRITES,
        new: NEW,
    };
    check_failing(rt, bank, &failing);
}

// Checks the failures of these slots at each device call of the commit, and none in it.
fn check_failures(rt: &(impl Abort + AllocGlobal), slots: &[u8]) {
    let store = opened_after(rt, SMALL, BEFORE);
    for slot in slots {
        for call in 0..CALLS + 1 {
            check_failure(rt, store.bank(), *slot, call);
        }
    }
}

#[test]
fn each_member_down_in_a_batch(rt: HostRuntime) {
    check_failures(&rt, &[0, 1, 2]);
}

#[test]
fn each_journal_down_in_a_batch(rt: HostRuntime) {
    check_failures(&rt, &[3, 4]);
}

// One slot after the other goes down, each at a later call.
#[test]
fn each_slot_down_in_a_batch_of_format_2(rt: HostRuntime) {
    let store = opened_after(&rt, LARGE_SMALL, BEFORE);
    for call in 0..CALLS + 1 {
        check_failure(&rt, store.bank(), (call % 5) as u8, call);
    }
}

/// Two slots that go down in the commit of a batch, each at its first call from one on, counted from the first of the
/// commit.
#[derive(Clone, Copy)]
pub(crate) struct FailingTwo<'a> {
    pub slots: [u8; 2],
    pub call: u64,
    /// The batch, and the volumes that the set then has.
    pub writes: &'a [Write<'a>],
    pub left: Volumes<'a>,
}

/// Commits the batch on what this bank holds while the slots go down: the store is ended. The set is then assembled
/// with both devices back, without what was not flushed, and has the volumes.
pub(crate) fn check_two(rt: &(impl Abort + AllocGlobal), bank: &MemBank, failing: &FailingTwo) {
    let (slots, number) = (failing.slots, failing.call as usize);
    let mut waiting = staged(rt, next_run(rt, bank), failing.writes);
    waiting.fail(rt, &slots, failing.call);
    let ended = Err(Refusal::TwoLost);
    same(
        rt,
        (slots, number, waiting.commit()),
        (slots, number, ended),
    );
    waiting.check_ended(rt, Refusal::TwoLost);
    let bank = waiting.store.bank();
    let mut later = again(rt, bank, bank.now(), Choice::Oldest, NO_SLOT);
    let place = unlike(rt, &mut later, failing.left);
    same(rt, (slots, number, place), (slots, number, None));
}

// Checks the failures of two slots at each device call of the commit up to the last one to either of them: the first
// that goes down cannot be given up, since that publishes a table on the other one, too. From one call on the volumes
// are those after the batch, and else those before it.
fn check_pairs(rt: &(impl Abort + AllocGlobal), slots: [u8; 2], first_new: u64) {
    let store = opened_after(rt, SMALL, BEFORE);
    let last = last_call(slots[0]).max(last_call(slots[1]));
    for call in 0..last.saturating_add(1) {
        let failing = FailingTwo {
            slots,
            call,
            writes: WRITES,
            left: if call >= first_new { NEW } else { OLD },
        };
        check_two(rt, store.bank(), &failing);
    }
}

// Rows 32 to 34 are read on member 2, by calls 0 to 2, and rows 37 to 39 on member 0, by calls 3 to 5. After call 5 no
// member is called before both seals are safe.
#[test]
fn two_members_down_in_a_batch(rt: HostRuntime) {
    check_pairs(&rt, [0, 1], 6);
    check_pairs(&rt, [1, 2], 3);
}

// The seal on the lower journal is safe after the second call of the seals.
#[test]
fn both_journals_down_in_a_batch(rt: HostRuntime) {
    check_pairs(&rt, [3, 4], BEFORE_SEALS + 2);
}

// So it is where the upper journal goes down at any call from there on.
#[test]
fn a_member_and_a_journal_down_in_a_batch(rt: HostRuntime) {
    check_pairs(&rt, [1, 3], BEFORE_SEALS + 2);
    check_pairs(&rt, [0, 4], BEFORE_SEALS);
}
