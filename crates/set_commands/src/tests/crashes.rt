//! Scripts that a crash cuts off, and what a later run answers.
use super::rows::serves;
use super::{SET_A, answers, crashed, fresh_store, image_now, sector, without};
use crate::testing::same;
use sector_model::{Choice, Image};
use std::process::Abort;

// Whether the two seals of a journal, its sectors 2 and 3, are the same in both images.
fn are_seals_same(rt: &impl Abort, old: &Image, new: &Image, slot: usize) -> bool {
    sector(rt, old, slot, 2) == sector(rt, new, slot, 2)
        && sector(rt, old, slot, 3) == sector(rt, new, slot, 3)
}

// The write ends with a seal on each of the journals in slots 3 and 4, a flush of each, and one row and a flush on
// the members with the parity and the block, 1 and 2: 8 calls, of which the first is done.
#[test]
fn stop_between_seals(rt: HostRuntime) {
    let mut store = fresh_store(&rt, SET_A);
    answers(
        &rt,
        &mut store,
        b"create a 64\nwrite a 0 11*512\n",
        b"ok\nok\n",
    );
    let old = image_now(&rt, &store);
    answers(&rt, &mut store, b"write a 0 22*512\n", b"ok\n");
    let new = crashed(&rt, &store, 7, Choice::Newest);
    same(&rt, are_seals_same(&rt, &old, &new, 3), false);
    same(&rt, are_seals_same(&rt, &old, &new, 4), true);
    serves(&rt, new, b"read a 0 1\n", b"22*512\n");
    let new = crashed(&rt, &store, 7, Choice::Newest);
    serves(&rt, without(&rt, new, 3), b"read a 0 1\n", b"11*512\n");
}

// The write ends with one row and a flush on each of members 1 and 2: 4 calls, of which the first is done.
#[test]
fn stop_after_first_member_write(rt: HostRuntime) {
    let mut store = fresh_store(&rt, SET_A);
    answers(
        &rt,
        &mut store,
        b"create a 64\nwrite a 0 11*512\nwrite a 1 77*512\nwrite a 0 22*512\n",
        b"ok\nok\nok\nok\n",
    );
    for choice in [Choice::Oldest, Choice::Newest, Choice::Mixed(3)] {
        let image = without(&rt, crashed(&rt, &store, 3, choice), 1);
        serves(&rt, image, b"read a 0 2\n", b"22*512\n77*512\n");
    }
}
