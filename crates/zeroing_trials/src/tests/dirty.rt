//! Blocks in dirty extents, which are made zero before a volume gets them: worked rows of tables of version 3.
use super::rows::{Commit, check_seals};
use super::sets::Shape;
use super::{EXAMPLE, Run, ThinStore, later, new_set};
use crate::testing::same;
use layout_map::Format;
use sector_model::Plan;
use std::process::Abort;

// The store of a run that begins now.
fn next(rt: &(impl Abort + AllocGlobal), store: &ThinStore) -> ThinStore {
    later(rt, &store.array.bank, Plan::NONE)
}

// Asks that since a number the store had an entry with these runs, and then that of its table.
fn check_zeroed(rt: &(impl Abort + AllocGlobal), store: &ThinStore, last: u64, runs: &[Run]) {
    let commits: &[Commit] = &[(0, runs)];
    check_seals(rt, store, last, (commits, 1));
}

// Makes a volume longer, in the next run.
fn extended(
    rt: &(impl Abort + AllocGlobal),
    store: &ThinStore,
    by: u32,
    runs: &[Run],
) -> ThinStore {
    let mut store = next(rt, store);
    let last = store.array.entry;
    same(rt, store.extend(b"c", by), Ok(()));
    check_zeroed(rt, &store, last, runs);
    store
}

// The blocks of `c` that are in dirty extents are those from 352 on: first logical 64 to 111, three whole stripes; then
// 112 to 119, a row each of members 1 and 2; and then 120 to 139, the other half of that stripe, and 12 blocks of the
// next.
#[test]
fn blocks_in_dirty_extents_of_the_example_set(rt: HostRuntime) {
    let mut store = new_set(&rt, EXAMPLE);
    same(&rt, store.create(b"a", 40), Ok(()));
    same(&rt, store.create(b"b", 16), Ok(()));
    same(&rt, store.remove(b"a"), Ok(()));
    same(&rt, store.extend(b"b", 20), Ok(()));
    let mut store = next(&rt, &store);
    let last = store.array.entry;
    same(&rt, store.create(b"c", 400), Ok(()));
    check_zeroed(&rt, &store, last, &[(32, 24, 0)]);
    same(&rt, store.remove(b"b"), Ok(()));
    let store = extended(&rt, &store, 8, &[(56, 8, 0x06)]);
    let runs = [(56, 8, 0x03), (64, 4, 0x07), (68, 4, 0x03)];
    extended(&rt, &store, 20, &runs);
}

// 8,224 rows, and 1,024 extents of 16 blocks.
const OF_1024: Shape = (Format::Two, 3, 8, 1_028);

// The volume has all blocks of the extents, which were another's.
#[test]
fn blocks_in_1024_dirty_extents(rt: HostRuntime) {
    let mut store = new_set(&rt, OF_1024);
    same(&rt, store.create(b"a", 16_384), Ok(()));
    same(&rt, store.remove(b"a"), Ok(()));
    let mut store = next(&rt, &store);
    let last = store.array.entry;
    same(&rt, store.create(b"a", 16_384), Ok(()));
    check_zeroed(&rt, &store, last, &[(32, 8_192, 0)]);
}
