//! Crashes in the commit of a large batch: assembling and opening the set again finds the volumes before it or those
//! after all of it, also without any one slot, and the same batch is then committed.
use super::super::TestWaiting;
use super::super::sets::{NO_SLOT, again};
use super::super::steps::unlike;
use super::{Large, ROWS_2048, RUNS_58, Size, in_turn};
use crate::testing::same;
use sector_model::{Bank, Choice, MemBank};
use std::process::Abort;

// The store after the batch was committed, and the number of the first call of that.
fn committed(rt: &(impl Abort + AllocGlobal), large: &Large) -> (TestWaiting, u64) {
    let mut waiting = large.staged(rt, large.store(rt));
    waiting.check_volumes(rt, &large.old(rt));
    let from = waiting.store.bank().now();
    same(rt, waiting.commit(), Ok(()));
    let calls = waiting.store.bank().now().saturating_sub(from);
    same(rt, calls, large.size.calls());
    waiting.check_volumes(rt, &large.new(rt));
    (waiting, from)
}

// Whether a store that is opened after a crash, with a slot absent if it is one of the set's, shows the volumes after
// the batch, and else those before it, as has to be. The batch is then committed to it.
fn shows_new(
    rt: &(impl Abort + AllocGlobal),
    large: &Large,
    bank: &MemBank,
    call: u64,
    (choice, absent): (Choice, usize),
) -> bool {
    let (old, new) = (large.old(rt), large.new(rt));
    let mut store = again(rt, bank, call, choice, absent);
    let is_new = unlike(rt, &mut store, &new).is_none();
    if !is_new {
        let place = unlike(rt, &mut store, &old);
        same(rt, (call, absent, place), (call, absent, None));
    }
    let mut waiting = large.staged(rt, store);
    same(rt, (call, absent, waiting.commit()), (call, absent, Ok(())));
    waiting.check_holds(rt, call as usize, &new);
    is_new
}

// Checks the crash at a call of the commit, counted from its first: no seal is written before the calls of the seals,
// and both are safe after them.
fn check_crash(
    rt: &(impl Abort + AllocGlobal),
    large: &Large,
    (bank, from): (&MemBank, u64),
    call: u64,
    crash: (Choice, usize),
) {
    let is_new = shows_new(rt, large, bank, from.saturating_add(call), crash);
    let want = call >= large.size.sealed() || (call > large.size.unsealed() && is_new);
    same(rt, (call, crash.1, is_new), (call, crash.1, want));
}

// The crashes that are tried: one after the first number of calls of the commit and each so many-th from there on.
#[derive(Clone, Copy)]
struct Tried {
    first: u64,
    step: u64,
    // How many are tried after each number of calls around the seals. Six are one without each of five slots and one
    // with all; where there are none, these numbers are like all others.
    seals: u64,
}

impl Tried {
    // How many after so many calls.
    fn after(&self, size: &Size, call: u64) -> u64 {
        let is_at_seals = size.unsealed() <= call && call <= size.sealed();
        if self.seals > 0 && is_at_seals {
            self.seals
        } else if self.step > 0 && call % self.step == self.first {
            1
        } else {
            0
        }
    }
}

// Checks crashes in the commit, by each choice and without each slot in turn. How many there were.
fn check_crashes(rt: &(impl Abort + AllocGlobal), size: Size, tried: &Tried) -> u64 {
    let large = Large::of(rt, size);
    let (waiting, from) = committed(rt, &large);
    let place = (waiting.store.bank(), from);
    let mut images = 0u64;
    for call in 0..size.calls().saturating_add(1) {
        for _ in 0..tried.after(&size, call) {
            check_crash(rt, &large, place, call, in_turn(images));
            images = images.saturating_add(1);
        }
    }
    images
}

// Of the commit's 414 calls the seals come after 292 to 296: of 104 numbers that 4 divides 102 others.
#[test]
fn crashes_after_each_fourth_call_of_58_runs(rt: HostRuntime) {
    let tried = Tried {
        first: 0,
        step: 4,
        seals: 6,
    };
    same(&rt, check_crashes(&rt, RUNS_58, &tried), 102 + 5 * 6);
}

// Checks the crashes after each fourth call from this one on. How many there were.
fn check_each_fourth(rt: &(impl Abort + AllocGlobal), first: u64) -> u64 {
    let tried = Tried {
        first,
        step: 4,
        seals: 0,
    };
    check_crashes(rt, RUNS_58, &tried)
}

#[test]
fn crashes_one_call_later_in_58_runs(rt: HostRuntime) {
    same(&rt, check_each_fourth(&rt, 1), 104);
}

#[test]
fn crashes_two_calls_later_in_58_runs(rt: HostRuntime) {
    same(&rt, check_each_fourth(&rt, 2), 104);
}

#[test]
fn crashes_three_calls_later_in_58_runs(rt: HostRuntime) {
    same(&rt, check_each_fourth(&rt, 3), 103);
}

// Of the commit's 14,345 calls the seals come after 10,242 to 10,246, of which 2,049 divides 10,245. It divides seven
// other numbers, of which 14,343 is the last.
#[test]
fn crashes_in_a_batch_of_2048_rows(rt: HostRuntime) {
    let tried = Tried {
        first: 0,
        step: 2_049,
        seals: 1,
    };
    same(&rt, check_crashes(&rt, ROWS_2048, &tried), 7 + 5);
}

// A crash that is followed by another one in the assembly after it.
#[derive(Clone, Copy)]
struct Twice {
    // The call of the first one, counted from the first call of the commit.
    call: u64,
    // The slot that is absent after both, if it is one of the set's.
    absent: usize,
    // How many calls the assembly makes and the opening after it.
    calls: u64,
    // The second one comes after each so many-th number of calls.
    step: u64,
}

// Checks the second crashes: after each the volumes are those after the batch, as after the first, by which one seal is
// there. How many there were.
fn check_second(
    rt: &(impl Abort + AllocGlobal),
    large: &Large,
    (bank, from): (&MemBank, u64),
    twice: &Twice,
) -> u64 {
    assert!(rt; twice.step > 0);
    let (call, absent, new) = (from.saturating_add(twice.call), twice.absent, large.new(rt));
    let first = again(rt, bank, call, Choice::Newest, absent);
    let end = first.bank().now();
    same(
        rt,
        (twice.call, absent, end),
        (twice.call, absent, twice.calls),
    );
    let mut images = 0u64;
    for second in 0..end.saturating_add(1) {
        if second % twice.step == 0 {
            let (choice, _) = in_turn(images.saturating_mul(6));
            let mut store = again(rt, first.bank(), second, choice, absent);
            let place = unlike(rt, &mut store, &new);
            same(rt, (twice.call, second, place), (twice.call, second, None));
            images = images.saturating_add(1);
        }
    }
    images
}

fn check_twice(rt: &(impl Abort + AllocGlobal), size: Size, crashes: &[Twice]) -> u64 {
    let large = Large::of(rt, size);
    let (waiting, from) = committed(rt, &large);
    let place = (waiting.store.bank(), from);
    let mut images = 0u64;
    for twice in crashes {
        images = images.saturating_add(check_second(rt, &large, place, twice));
    }
    images
}

// A set that is all there is found by 19 calls: two reads of each slot, one more for its table, and two of seals of
// each journal. Without a member there are 8 reads, 8 calls that publish a table, and 4 reads of seals; without a
// journal 2 of these. Opening reads the 25 sectors of the table, which are on member 0. The first crash comes between
// the seals, so that the upper journal gets the 116 sectors, a seal and two flushes, and the members get theirs; or
// when member 1 is written, and member 2 is not.
#[test]
fn second_crashes_over_58_runs(rt: HostRuntime) {
    let between = RUNS_58.unsealed().saturating_add(2);
    let half = RUNS_58.sealed().saturating_add(59);
    let crashes = [
        Twice {
            call: between,
            absent: NO_SLOT,
            calls: 19 + 116 + (116 + 3) + 118 + 25,
            step: 9,
        },
        Twice {
            call: half,
            absent: NO_SLOT,
            calls: 19 + 116 + 118 + 25,
            step: 9,
        },
        Twice {
            call: half,
            absent: 2,
            calls: 20 + 116 + 59 + 25,
            step: 9,
        },
        Twice {
            call: half,
            absent: 3,
            calls: 18 + 116 + 118 + 25,
            step: 9,
        },
    ];
    same(&rt, check_twice(&rt, RUNS_58, &crashes), 45 + 31 + 25 + 31);
}

// The same with 4,096 sectors, of which member 0 has 1,280, and each other one 1,408. The second crash comes after
// numbers of calls that 4,001 divides.
#[test]
fn second_crashes_over_2048_rows(rt: HostRuntime) {
    let between = ROWS_2048.unsealed().saturating_add(2);
    let half = ROWS_2048.sealed().saturating_add(1_281);
    let crashes = [
        Twice {
            call: between,
            absent: NO_SLOT,
            calls: 19 + 4_096 + (4_096 + 3) + 4_099 + 25,
            step: 4_001,
        },
        Twice {
            call: half,
            absent: 1,
            calls: 20 + 4_096 + 1_281 + 1_409 + 25,
            step: 4_001,
        },
    ];
    same(&rt, check_twice(&rt, ROWS_2048, &crashes), 4 + 2);
}
