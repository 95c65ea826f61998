//! Ranges that cannot be made zero: each is refused without a device call, and nothing changes.
use super::sets::{SET_A, Shape, TestStore, fail_devices, fresh_store, write_bytes};
use super::{EXAMPLE, bytes_of};
use crate::testing::same;
use sector_model::{Bank, Refusal};
use std::process::Abort;

// Asks that the range is refused so, without a call.
fn check_refused(
    rt: &impl Abort,
    store: &mut TestStore,
    range: (&[u8], u32, u32),
    refusal: Refusal,
) {
    let (name, at, count) = range;
    let before = store.bank().now();
    let got = store.zero(name, at, count);
    same(rt, (name, at, count, got), (name, at, count, Err(refusal)));
    same(rt, store.bank().now(), before);
}

// Ranges of sets with a volume `a` of 448 blocks, of which each is refused by the first of these that is so: no volume
// has the name, there are 0 blocks or more than 65,536, or they go past the end.
const REFUSED: &[(&[u8], u32, u32, Refusal)] = &[
    (b"b", 0, 1, Refusal::NoVolume),
    (b"b", 0, 0, Refusal::NoVolume),
    (b"b", 448, 65_537, Refusal::NoVolume),
    (b"", 0, 1, Refusal::NoVolume),
    (b"a", 0, 0, Refusal::BadCount),
    (b"a", 448, 0, Refusal::BadCount),
    (b"a", 449, 0, Refusal::BadCount),
    (b"a", 0, 65_537, Refusal::BadCount),
    (b"a", 448, 65_537, Refusal::BadCount),
    (b"a", 0, u32::MAX, Refusal::BadCount),
    (b"a", 0, 449, Refusal::OutOfRange),
    (b"a", 0, 65_536, Refusal::OutOfRange),
    (b"a", 447, 2, Refusal::OutOfRange),
    (b"a", 448, 1, Refusal::OutOfRange),
    (b"a", 448, 33, Refusal::OutOfRange),
    (b"a", u32::MAX, 1, Refusal::OutOfRange),
    (b"a", u32::MAX, 65_536, Refusal::OutOfRange),
    (b"a", u32::MAX - 65_535, 65_536, Refusal::OutOfRange),
];

// Makes these ranges of a set of this shape, which has room for 448 blocks.
fn check_refusals(rt: &(impl Abort + AllocGlobal), shape: Shape) {
    let mut store = fresh_store(rt, shape);
    same(rt, store.create(b"a", 448), Ok(()));
    write_bytes(rt, &mut store, b"a", 416, &[0x11; 32]);
    for (name, at, count, refusal) in REFUSED {
        check_refused(rt, &mut store, (*name, *at, *count), *refusal);
    }
    check_kept(rt, &mut store);
}

// Asks that the volume `a` is the one that there is, and that its last 32 blocks are as they were written and the others
// zero.
fn check_kept(rt: &(impl Abort + AllocGlobal), store: &mut TestStore) {
    let listed = store.list(rt.alloc()).expect(rt, "volumes are listed");
    assert!(rt; listed.len() == 1);
    let is_name = listed[0].name.bytes() == b"a".as_slice();
    same(rt, (is_name, listed[0].blocks), (true, 448));
    let mut block = 0u32;
    for byte in &bytes_of(rt, store, b"a", 448) {
        let wanted = if block < 416 { 0 } else { 0x11 };
        same(rt, (block, *byte), (block, wanted));
        block = block.saturating_add(1);
    }
    same(rt, block, 448);
}

#[test]
fn ranges_that_are_refused(rt: HostRuntime) {
    check_refusals(&rt, EXAMPLE);
}

#[test]
fn ranges_that_are_refused_in_format_1(rt: HostRuntime) {
    check_refusals(&rt, SET_A);
}

// Up to the last block it is done.
#[test]
fn ranges_up_to_the_end(rt: HostRuntime) {
    for shape in [EXAMPLE, SET_A] {
        let mut store = fresh_store(&rt, shape);
        same(&rt, store.create(b"a", 448), Ok(()));
        same(&rt, store.zero(b"a", 447, 1), Ok(()));
        same(&rt, store.zero(b"a", 400, 48), Ok(()));
        same(&rt, store.zero(b"a", 0, 448), Ok(()));
    }
}

// A store that has ended refuses every range as what ended it.
#[test]
fn after_two_are_lost(rt: HostRuntime) {
    let mut store = fresh_store(&rt, EXAMPLE);
    same(&rt, store.create(b"a", 448), Ok(()));
    fail_devices(&rt, &mut store, &[0, 1], 0);
    same(&rt, store.zero(b"a", 0, 448), Err(Refusal::TwoLost));
    check_refused(&rt, &mut store, (b"a", 0, 448), Refusal::TwoLost);
    check_refused(&rt, &mut store, (b"b", 0, 0), Refusal::TwoLost);
}
