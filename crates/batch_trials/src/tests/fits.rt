//! What fits one entry, by blocks and by runs: what a batch has once it waits, and that it is committed.
//!
//! The set has 5 members with chunk 128: logical sector 512 is the first one of stripe 1, in row 128, and block 0 of
//! the volume.
ghost use Rattle.batch_trials.specs.Waiting.{Waits};

use super::sets::{Shape, TestStore, next_run};
use super::steps::{Step, opened_after};
use super::{TestWaiting, Waiting};
use crate::testing::{all, same};
use layout_map::Format;
use std::process::Abort;

// 2,304 rows, 9,216 data sectors and 17 extents of 512 blocks.
const FIVE: Shape = (Format::Two, 5, 128, 18);

// A run: its first row, how many rows it has, and its mask.
type Run = (u32, u32, u8);

// A set with a volume `a` of all its blocks, and nothing that waits.
fn empty(rt: &(impl Abort + AllocGlobal)) -> TestWaiting
    ensures held { Waits result.store result.batch }
{
    let store = opened_after(rt, FIVE, &[Step::Create(b"a", 8_704)]);
    Waiting::new(rt, store)
}

// Has so many logical sectors wait, in order from one on.
fn stage_in_order(
    rt: &(impl Abort + AllocGlobal),
    waiting: &mut TestWaiting,
    first: u32,
    count: u32,
)
    requires held { Waits waiting.old.store waiting.old.batch }
    ensures held { Waits waiting.new.store waiting.new.batch }
{
    let bytes = vec![in rt.alloc(); 0x55u8; count as usize].expect(rt, "memory");
    let mut at = first.saturating_sub(512);
    for blocks in bytes.chunks(32) {
        waiting.stage_all(rt, &[(b"a", at, blocks)]);
        at = at.saturating_add(32);
    }
}

// Has so many logical sectors wait, each second one from one on.
fn stage_apart(rt: &(impl Abort + AllocGlobal), waiting: &mut TestWaiting, first: u32, count: u32)
    requires held { Waits waiting.old.store waiting.old.batch }
    ensures held { Waits waiting.new.store waiting.new.batch }
{
    for number in 0..count {
        let at = number.saturating_mul(2).saturating_add(first);
        stage_in_order(rt, waiting, at, 1);
    }
}

// Has a logical sector wait that does not fit.
fn refuse(rt: &(impl Abort + AllocGlobal), waiting: &mut TestWaiting, sector: u32)
    requires held { Waits waiting.old.store waiting.old.batch }
    ensures held { Waits waiting.new.store waiting.new.batch }
{
    let answer = waiting.stage(rt, (b"a", sector.saturating_sub(512), &[0x99]));
    same(rt, answer, Ok(false));
}

// Whether a row goes on with the last of these runs.
fn joins(runs: &[Run], row: u32, mask: u8) -> bool {
    match runs.last() {
        Some(run) => run.0.saturating_add(run.1) == row && run.2 == mask,
        None => false,
    }
}

// The runs of the rows that a commit of what waits changes.
fn runs_of(rt: &(impl Abort + AllocGlobal), waiting: &TestWaiting) -> Vec<Run> {
    let rows = waiting.batch.runs();
    let mut runs = Vec::new(rt.alloc());
    for i in 0..rows.count() {
        let listed = rows.listed(i);
        if joins(&runs, listed.row, listed.mask) {
            let last = runs.len().saturating_sub(1);
            assert!(rt; last < runs.len());
            runs[last].1 = runs[last].1.saturating_add(1);
        } else {
            runs.push((listed.row, 1, listed.mask)).expect(rt, "memory");
        }
    }
    runs
}

// Asks that so many distinct blocks wait, and that their entry has so many runs, rows and held sectors.
fn check_entry(rt: &(impl Abort + AllocGlobal), waiting: &TestWaiting, wanted: [usize; 4]) {
    let runs = runs_of(rt, waiting);
    let mut held = 0usize;
    for run in &runs {
        let each = run.2.count_ones() as usize;
        held = held.saturating_add(each.saturating_mul(run.1 as usize));
    }
    let batch = &waiting.batch;
    let got = [batch.len(), runs.len(), batch.runs().count(), held];
    same(rt, got, wanted);
}

// How many blocks of the volume are as the batch writes them.
fn written(rt: &(impl Abort + AllocGlobal), store: &mut TestStore) -> usize {
    let mut count = 0usize;
    for block in 0..8_704u32 {
        let mut to = [all(0x99)];
        same(rt, store.read(b"a", block, &mut to), Ok(()));
        if to[0] == all(0x55) {
            count = count.saturating_add(1);
        }
    }
    count
}

// Commits what waits: so many blocks are as the batch writes them, in the next run.
fn check_committed(rt: &(impl Abort + AllocGlobal), waiting: &mut TestWaiting, blocks: usize)
    requires held { Waits waiting.old.store waiting.old.batch }
{
    same(rt, waiting.commit(), Ok(()));
    let mut later = next_run(rt, waiting.store.bank());
    same(rt, written(rt, &mut later), blocks);
}

#[test]
fn blocks_2048_in_order_from_700(rt: HostRuntime) {
    const RUNS: [Run; 5] = [
        (128, 60, 0x0e),
        (188, 68, 0x0f),
        (256, 384, 0x1f),
        (640, 60, 0x13),
        (700, 68, 0x11),
    ];
    let mut waiting = empty(&rt);
    stage_in_order(&rt, &mut waiting, 700, 2_048);
    check_entry(&rt, &waiting, [2_048, 5, 640, 2_688]);
    assert!(rt; runs_of(&rt, &waiting).as_slice() == RUNS.as_slice());
    check_committed(&rt, &mut waiting, 2_048);
}

#[test]
fn the_same_and_700_again(rt: HostRuntime) {
    let mut waiting = empty(&rt);
    stage_in_order(&rt, &mut waiting, 700, 2_048);
    stage_in_order(&rt, &mut waiting, 700, 1);
    check_entry(&rt, &waiting, [2_048, 5, 640, 2_688]);
    check_committed(&rt, &mut waiting, 2_048);
}

#[test]
fn the_same_and_2748(rt: HostRuntime) {
    let mut waiting = empty(&rt);
    stage_in_order(&rt, &mut waiting, 700, 2_048);
    refuse(&rt, &mut waiting, 2_748);
    check_entry(&rt, &waiting, [2_048, 5, 640, 2_688]);
    check_committed(&rt, &mut waiting, 2_048);
}

#[test]
fn blocks_58_from_512_to_626(rt: HostRuntime) {
    let mut waiting = empty(&rt);
    stage_apart(&rt, &mut waiting, 512, 58);
    check_entry(&rt, &waiting, [58, 58, 58, 116]);
    check_committed(&rt, &mut waiting, 58);
}

#[test]
fn blocks_59_from_512_to_628(rt: HostRuntime) {
    let mut waiting = empty(&rt);
    stage_apart(&rt, &mut waiting, 512, 58);
    refuse(&rt, &mut waiting, 628);
    check_entry(&rt, &waiting, [58, 58, 58, 116]);
    check_committed(&rt, &mut waiting, 58);
}

// Sector 513 makes one run of the first two, so that there is room for 628.
#[test]
fn these_59_and_513(rt: HostRuntime) {
    let mut waiting = empty(&rt);
    stage_apart(&rt, &mut waiting, 512, 58);
    stage_in_order(&rt, &mut waiting, 513, 1);
    check_entry(&rt, &waiting, [59, 57, 59, 118]);
    stage_in_order(&rt, &mut waiting, 628, 1);
    check_entry(&rt, &waiting, [60, 58, 60, 120]);
    check_committed(&rt, &mut waiting, 60);
}

// Sectors 512 to 639, 1,024 to 1,151, and so on: a chunk of each of 16 stripes. Another block would be a 2,049th.
#[test]
fn a_chunk_of_each_of_16_stripes(rt: HostRuntime) {
    let mut waiting = empty(&rt);
    for stripe in 0..16u32 {
        stage_in_order(&rt, &mut waiting, 512 + 512 * stripe, 128);
    }
    check_entry(&rt, &waiting, [2_048, 16, 2_048, 4_096]);
    refuse(&rt, &mut waiting, 640);
    check_committed(&rt, &mut waiting, 2_048);
}
