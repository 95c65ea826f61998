//! Writes and reads of as many blocks as one request has.
use super::{ALL, cut, first, joined, made, same, since};
use crate::testing::made_store;
use crate::testing::streams::WHOLE;
use layout_map::Geometry;
use sector_model::{MemBank, Refusal};
use std::process::Abort;
use volume_table::Store;

// A set of 3 members of this geometry with a volume of 2,048 blocks.
fn with_large_volume(
    rt: &(impl Abort + AllocGlobal),
    geometry: Result<Geometry, Refusal>,
) -> Store<MemBank> {
    let mut store = made_store(rt, geometry, 40_000);
    same(rt, store.create(b"v", 2_048), Ok(()));
    store
}

// Appends a block with these two bytes at its beginning.
fn append_block(rt: &impl Abort, all: &mut Vec<u8>, low: u8, high: u8) {
    all.push(low).expect(rt, "memory");
    all.push(high).expect(rt, "memory");
    all.extend_from_slice(&[0x61; 510]).expect(rt, "memory");
}

// Appends 256 blocks.
fn append_blocks(rt: &impl Abort, all: &mut Vec<u8>, high: u8) {
    for low in 0..=255 {
        append_block(rt, all, low, high);
    }
}

// The bytes of 2,048 blocks, of which each has its number in its first two bytes.
fn numbered(rt: &(impl Abort + AllocGlobal)) -> Vec<u8> {
    let mut all = Vec::new(rt.alloc());
    for high in 0..8 {
        append_blocks(rt, &mut all, high);
    }
    all
}

// What stands before these bytes, and they.
fn before(rt: &(impl Abort + AllocGlobal), line: &'static [u8], bytes: &[u8]) -> Vec<u8> {
    let mut all = joined(rt, &[(line, 1)]);
    all.extend_from_slice(bytes).expect(rt, "memory");
    all
}

// Writes 2,048 blocks, and reads them: with so many commits.
fn writes_all(rt: &(impl Abort + AllocGlobal), store: &mut Store<MemBank>, commits: u64) {
    let whole = (WHOLE, WHOLE);
    let blocks = numbered(rt);
    let start = made(store);
    let input = before(rt, b"write v 0 2048\n", &blocks);
    cut(rt, store, &input, whole, ALL, 0, b"ok\n");
    same(rt, since(store, start).0, commits);
    let text = before(rt, b"blocks 2048\n", &blocks);
    cut(rt, store, b"read v 0 2048\n", whole, ALL, 0, &text);
    let input = before(rt, b"write v 1 2048\n", &blocks);
    cut(rt, store, &input, whole, ALL, 0, b"refused 8 OutOfRange\n");
}

// An entry of format 1 has 32 blocks.
#[test]
fn blocks_2048_by_64_commits(rt: HostRuntime) {
    let mut store = with_large_volume(&rt, Geometry::new(3, 8, 136));
    writes_all(&rt, &mut store, 64);
}

#[test]
fn blocks_2048_by_one_commit(rt: HostRuntime) {
    let mut store = with_large_volume(&rt, Geometry::large(3, 8, 136));
    writes_all(&rt, &mut store, 1);
}

// Of a write of 33 blocks the first 32 are one commit in format 1.
#[test]
fn blocks_33_by_two_commits(rt: HostRuntime) {
    let mut store = with_large_volume(&rt, Geometry::new(3, 8, 136));
    let start = made(&store);
    let whole = (WHOLE, WHOLE);
    let blocks = numbered(&rt);
    let blocks = first(&rt, &blocks, 33 * 512);
    let input = before(&rt, b"write v 7 33\n", blocks);
    cut(&rt, &mut store, &input, whole, ALL, 0, b"ok\n");
    same(&rt, since(&store, start).0, 2);
    let text = before(&rt, b"blocks 33\n", blocks);
    cut(&rt, &mut store, b"read v 7 33\n", whole, ALL, 0, &text);
}
