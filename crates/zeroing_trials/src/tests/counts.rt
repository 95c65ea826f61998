//! How many commits and syncs it takes to make many blocks zero.
//!
//! A commit of whole stripes writes a seal to each of two journals, and zeros to each member. It reads nothing and has
//! no body, so that the flush of a journal before its seal has nothing to sync.
use super::rows::{Commit, check_seals};
use super::sets::Shape;
use super::{OF_FIVE, ThinStore, end_of_zeros, filled, later, new_set};
use crate::testing::same;
use layout_map::Format;
use sector_model::Plan;
use std::process::Abort;

// A store over a set of this shape, in which the volume `v` has all blocks of the extents, so many, and none is zero.
fn with_volume(rt: &(impl Abort + AllocGlobal), shape: Shape, blocks: u32) -> ThinStore {
    let mut store = new_set(rt, shape);
    same(rt, store.create(b"v", blocks), Ok(()));
    later(rt, &filled(rt, store, blocks), Plan::NONE)
}

// What was done with the devices of a store: reads, writes to members, writes of bodies, and syncs.
fn done(store: &ThinStore) -> [u64; 4] {
    let notes = &store.array.bank.notes;
    [notes.reads, notes.to_members, notes.to_bodies, notes.syncs]
}

// How much more was done than before.
fn more(after: [u64; 4], before: [u64; 4]) -> [u64; 4] {
    let mut made = [0; 4];
    for kind in 0..4usize {
        made[kind] = after[kind].saturating_sub(before[kind]);
    }
    made
}

// From the start of a stripe on 65,536 blocks of 5 members are 128 stripes of 128 rows: 2 syncs of the seals, and one
// of each member.
#[test]
fn syncs_of_65536_blocks(rt: HostRuntime) {
    let mut store = with_volume(&rt, OF_FIVE, 66_560);
    let before = done(&store);
    let last = store.array.entry;
    same(&rt, store.zero(b"v", 0, 65_536), Ok(()));
    let commits: &[Commit] = &[(65_536, &[(128, 16_384, 0)])];
    check_seals(&rt, &store, last, (commits, 0));
    same(&rt, more(done(&store), before), [0, 5 * 16_384, 0, 2 + 5]);
}

// 524,416 rows, and 1,024 extents of 2,048 blocks, stripes 1 to 4,096: a GiB.
const OF_A_GIB: Shape = (Format::Two, 5, 128, 4_097);

// The blocks of a GiB.
const A_GIB: u32 = 2_097_152;

// Asks that all sectors of the extents are zero on each member.
fn check_all_zero(rt: &impl Abort, store: &ThinStore) {
    for member in 0..5u8 {
        let end = end_of_zeros(rt, store, member, (128, 524_416));
        same(rt, (member, end), (member, None));
    }
}

// A GiB in calls of 65,536 blocks. Each begins with the start of a stripe and is one commit, so that there are 32.
#[test]
fn commits_of_a_gib(rt: HostRuntime) {
    let mut store = with_volume(&rt, OF_A_GIB, A_GIB);
    let before = done(&store);
    for call in 0..32u32 {
        same(&rt, store.zero(b"v", call * 65_536, 65_536), Ok(()));
        let seals = store.array.bank.notes.seals.len();
        same(&rt, (call, seals), (call, call as usize + 1));
    }
    let rows = u64::from(A_GIB) / 4;
    same(&rt, more(done(&store), before), [0, 5 * rows, 0, 32 * 7]);
    check_all_zero(&rt, &store);
}

// Where all extents are dirty, `create` makes stripes zero, of which a run has 511, since 512 stripes of 128 rows are
// 65,536 rows; then comes the commit of the table. So the 4,096 stripes of a GiB are nine runs, each an entry.
#[test]
fn commits_of_create_of_a_gib(rt: HostRuntime) {
    let mut store = with_volume(&rt, OF_A_GIB, A_GIB);
    same(&rt, store.remove(b"v"), Ok(()));
    let mut store = later(&rt, &store.array.bank, Plan::NONE);
    let last = store.array.entry;
    same(&rt, store.create(b"w", A_GIB), Ok(()));
    let commits: &[Commit] = &[
        (261_632, &[(128, 65_408, 0)]),
        (523_264, &[(65_536, 65_408, 0)]),
        (784_896, &[(130_944, 65_408, 0)]),
        (1_046_528, &[(196_352, 65_408, 0)]),
        (1_308_160, &[(261_760, 65_408, 0)]),
        (1_569_792, &[(327_168, 65_408, 0)]),
        (1_831_424, &[(392_576, 65_408, 0)]),
        (2_093_056, &[(457_984, 65_408, 0)]),
        (2_097_152, &[(523_392, 1_024, 0)]),
    ];
    check_seals(&rt, &store, last, (commits, 1));
    check_all_zero(&rt, &store);
}
