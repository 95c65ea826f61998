//! What waits after a commit, and what a commit does where nothing waits, or where the store was ended.
ghost use Rattle.batch_trials.specs.Waiting.{Waits};

use super::sets::{NO_SLOT, SMALL, again};
use super::steps::{Step, Volumes, check_holds, opened_after};
use super::{LARGE_SMALL, TestWaiting, Waiting, Write, staged};
use crate::testing::same;
use sector_model::{Bank, Choice, Refusal};
use std::process::Abort;

// Two volumes, of which one has blocks that were written.
const BEFORE: &[Step] = &[
    Step::Create(b"a", 4),
    Step::Create(b"b", 1),
    Step::Write(b"a", 0, &[0x11; 4]),
];

// They before a batch is committed.
const OLD: Volumes = &[(b"a", &[0x11; 4]), (b"b", &[0])];

// Blocks 1 and 2 of `a` are logical sectors 65 and 66.
const WRITES: &[Write] = &[(b"a", 1, &[0x22; 2]), (b"a", 2, &[0x33])];

// They after it.
const NEW: Volumes = &[(b"a", &[0x11, 0x22, 0x33, 0x11]), (b"b", &[0])];

// Asks that nothing waits.
fn check_empty(rt: &(impl Abort + AllocGlobal), waiting: &TestWaiting) {
    let batch = &waiting.batch;
    same(rt, (batch.is_empty(), batch.len()), (true, 0));
    same(rt, (batch.sectors().len(), batch.places().len()), (0, 0));
    same(rt, batch.runs().count(), 0);
}

// Commits a batch in which nothing waits: it is answered so, without a device call.
fn check_nothing(
    rt: &(impl Abort + AllocGlobal),
    waiting: &mut TestWaiting,
    answer: Result<(), Refusal>,
)
    requires held { Waits waiting.old.store waiting.old.batch }
    ensures held { Waits waiting.new.store waiting.new.batch }
{
    check_empty(rt, waiting);
    let before = waiting.store.bank().now();
    same(rt, waiting.commit(), answer);
    same(rt, waiting.store.bank().now(), before);
    check_empty(rt, waiting);
}

#[test]
fn nothing_waits_after_a_commit(rt: HostRuntime) {
    for shape in [SMALL, LARGE_SMALL] {
        let mut waiting = Waiting::new(&rt, opened_after(&rt, shape, BEFORE));
        check_nothing(&rt, &mut waiting, Ok(()));
        waiting.stage_all(&rt, WRITES);
        let listed = waiting.listed(&rt);
        assert!(rt; listed.as_slice() == [(65, 0x22), (66, 0x33)].as_slice());
        same(&rt, waiting.commit(), Ok(()));
        check_nothing(&rt, &mut waiting, Ok(()));
        waiting.check_volumes(&rt, NEW);
        // The next batch is of its own writes alone.
        waiting.stage_all(&rt, &[(b"b", 0, &[0xbb])]);
        same(&rt, waiting.batch.len(), 1);
        same(&rt, waiting.commit(), Ok(()));
        waiting.check_volumes(&rt, &[NEW[0], (b"b", &[0xbb])]);
    }
}

// Commits what waits, which ends the store, and then another batch, which waited as well. It is answered the same, as
// every later call is, and nothing waits any more.
fn check_ended_before(rt: &(impl Abort + AllocGlobal), waiting: &mut TestWaiting, refusal: Refusal)
    requires held { Waits waiting.old.store waiting.old.batch }
{
    let answers = waiting.commit_both(rt, (b"b", 0, &[0x99]));
    same(rt, answers, [Err(refusal), Err(refusal)]);
    check_nothing(rt, waiting, Err(refusal));
    same(rt, waiting.stage(rt, (b"b", 0, &[0x99])), Err(refusal));
    same(rt, waiting.stage(rt, (b"c", 0, &[])), Err(refusal));
    check_nothing(rt, waiting, Err(refusal));
    waiting.check_ended(rt, refusal);
    check_later(rt, waiting);
}

// Asks that the set, assembled again with what had landed, has the volumes as they were.
fn check_later(rt: &(impl Abort + AllocGlobal), waiting: &TestWaiting) {
    let bank = waiting.store.bank();
    let mut later = again(rt, bank, bank.now(), Choice::Oldest, NO_SLOT);
    check_holds(rt, &mut later, 0, OLD);
}

#[test]
fn a_batch_of_a_store_that_two_losses_ended(rt: HostRuntime) {
    for shape in [SMALL, LARGE_SMALL] {
        let mut waiting = staged(&rt, opened_after(&rt, shape, BEFORE), WRITES);
        waiting.fail(&rt, &[1, 3], 0);
        check_ended_before(&rt, &mut waiting, Refusal::TwoLost);
    }
}

#[test]
fn a_batch_of_a_store_that_is_worn(rt: HostRuntime) {
    let mut store = opened_after(&rt, LARGE_SMALL, BEFORE);
    store.array.entry = 1 << 62;
    let mut waiting = staged(&rt, store, WRITES);
    check_ended_before(&rt, &mut waiting, Refusal::Worn);
}

// Asks that the commit of what waits ends the store.
fn check_ending(rt: &(impl Abort + AllocGlobal), waiting: &mut TestWaiting, refusal: Refusal)
    requires held { Waits waiting.old.store waiting.old.batch }
{
    same(rt, waiting.commit(), Err(refusal));
    check_nothing(rt, waiting, Err(refusal));
    same(rt, waiting.stage(rt, (b"a", 0, &[0x99])), Err(refusal));
    check_empty(rt, waiting);
    waiting.check_ended(rt, refusal);
    check_later(rt, waiting);
}

#[test]
fn a_commit_that_ends_its_store(rt: HostRuntime) {
    for shape in [SMALL, LARGE_SMALL] {
        let mut waiting = staged(&rt, opened_after(&rt, shape, BEFORE), WRITES);
        waiting.fail(&rt, &[1, 3], 0);
        check_ending(&rt, &mut waiting, Refusal::TwoLost);
        let mut store = opened_after(&rt, shape, BEFORE);
        store.array.entry = 1 << 62;
        let mut waiting = staged(&rt, store, WRITES);
        check_ending(&rt, &mut waiting, Refusal::Worn);
    }
}
