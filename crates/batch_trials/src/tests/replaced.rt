//! A journal is replaced while the last entry is of a batch: the entry is copied to it, and its copy serves once the
//! other journal is lost.
//!
//! The set has 3 members with chunk 8. Blocks 0 to 99 of the volume are logical sectors 64 to 163, so the batch fills
//! rows 32 to 79, and has four sectors in rows 80 to 83.
use super::sets::{TestStore, assembled, image_now, opened};
use super::steps::{Step, check_holds, check_sound, check_state, opened_after, take};
use super::{LARGE, TestWaiting, Write, staged};
use crate::testing::same;
use sector_model::{Image, Sector};
use std::mem;
use std::process::Abort;
use superblock::State;

// A batch of 100 blocks.
const WRITES: &[Write] = &[
    (b"a", 0, &[0xa1; 32]),
    (b"a", 32, &[0xa2; 32]),
    (b"a", 64, &[0xa3; 32]),
    (b"a", 96, &[0xa4; 4]),
];

// The bytes of the 128 blocks after it.
const BYTES: &[u8] = &[
    0xa1, 0xa1, 0xa1, 0xa1, 0xa1, 0xa1, 0xa1, 0xa1, 0xa1, 0xa1, 0xa1, 0xa1, 0xa1, 0xa1, 0xa1, 0xa1,
    0xa1, 0xa1, 0xa1, 0xa1, 0xa1, 0xa1, 0xa1, 0xa1, 0xa1, 0xa1, 0xa1, 0xa1, 0xa1, 0xa1, 0xa1, 0xa1,
    0xa2, 0xa2, 0xa2, 0xa2, 0xa2, 0xa2, 0xa2, 0xa2, 0xa2, 0xa2, 0xa2, 0xa2, 0xa2, 0xa2, 0xa2, 0xa2,
    0xa2, 0xa2, 0xa2, 0xa2, 0xa2, 0xa2, 0xa2, 0xa2, 0xa2, 0xa2, 0xa2, 0xa2, 0xa2, 0xa2, 0xa2, 0xa2,
    0xa3, 0xa3, 0xa3, 0xa3, 0xa3, 0xa3, 0xa3, 0xa3, 0xa3, 0xa3, 0xa3, 0xa3, 0xa3, 0xa3, 0xa3, 0xa3,
    0xa3, 0xa3, 0xa3, 0xa3, 0xa3, 0xa3, 0xa3, 0xa3, 0xa3, 0xa3, 0xa3, 0xa3, 0xa3, 0xa3, 0xa3, 0xa3,
    0xa4, 0xa4, 0xa4, 0xa4, 0, 0, 0, 0, 0, 0, 0, 0, 0, 0, 0, 0, 0, 0, 0, 0, 0, 0, 0, 0, 0, 0, 0, 0,
    0, 0, 0, 0,
];

// A store of which the last entry is of the batch.
fn with_batch(rt: &(impl Abort + AllocGlobal)) -> TestWaiting {
    let store = opened_after(rt, LARGE, &[Step::Create(b"a", 128)]);
    let mut waiting = staged(rt, store, WRITES);
    same(rt, waiting.batch.len(), 100);
    same(rt, waiting.commit(), Ok(()));
    waiting
}

/// Puts another device, or none, into a slot.
pub(crate) fn put(rt: &impl Abort, image: &mut Image, slot: usize, device: Option<Vec<Sector>>) {
    assert!(rt; slot < image.slots.len());
    let _ = mem::replace(&mut image.slots[slot], device);
}

/// Makes sectors of a device zero, from one to another.
pub(crate) fn clear(rt: &impl Abort, image: &mut Image, slot: usize, first: usize, end: usize) {
    assert!(rt; slot < image.slots.len());
    let mut count = 0usize;
    if let Some(disk) = image.slots[slot].as_deref_mut() {
        for at in first..end.min(disk.len()) {
            disk[at] = [0; 512];
            count = count.saturating_add(1);
        }
    }
    same(rt, Some(count), end.checked_sub(first));
}

// The devices with which the next run begins where the other journal is lost and nothing of the batch has reached the
// members: sector 8 of a member is its row 0, and all of these rows were zero.
fn without_rows(rt: &(impl Abort + AllocGlobal), store: &TestStore, other: usize) -> Image {
    let mut image = image_now(rt, store.bank());
    put(rt, &mut image, other, None);
    for member in 0..3usize {
        clear(rt, &mut image, member, 8 + 32, 8 + 84);
    }
    image
}

// Asks that the blocks of the volume are full of these bytes in a run on these devices, in which this journal is
// missing.
fn check_run(rt: &(impl Abort + AllocGlobal), image: Image, missing: usize, bytes: &[u8]) {
    let volumes = [(b"a".as_slice(), bytes)];
    let mut store = opened(rt, assembled(rt, image));
    check_state(rt, &store, missing, State::Missing, 1);
    check_holds(rt, &mut store, missing, &volumes);
}

// Asks that the copy on this journal serves without the other one. Without its seals there is no entry, and the members
// stay as they are.
fn check_copy(rt: &(impl Abort + AllocGlobal), store: &TestStore, journal: usize, other: usize) {
    check_run(rt, without_rows(rt, store, other), other, BYTES);
    let mut unsealed = without_rows(rt, store, other);
    clear(rt, &mut unsealed, journal, 2, 8);
    check_run(rt, unsealed, other, &[0; 128]);
}

// A blank device takes the place of a journal.
#[test]
fn a_blank_journal_gets_a_copy_of_a_batch(rt: HostRuntime) {
    for (slot, journal, other) in [(3u8, 3usize, 4usize), (4, 4, 3)] {
        let waiting = with_batch(&rt);
        let mut image = image_now(&rt, waiting.store.bank());
        let blank = vec![in rt.alloc(); [0; 512]; 8_200].expect(&rt, "memory");
        put(&rt, &mut image, journal, Some(blank));
        let mut store = opened(&rt, assembled(&rt, image));
        check_state(&rt, &store, journal, State::Missing, 1);
        take(&rt, &mut store, &[Step::Replace(slot)]);
        check_state(&rt, &store, journal, State::InSync, 2);
        check_sound(&rt, &mut store, 256);
        check_copy(&rt, &store, journal, other);
    }
}

// A journal is given up in the run that committed the batch, and taken in again.
#[test]
fn a_journal_that_was_given_up_gets_a_copy_of_a_batch(rt: HostRuntime) {
    for (slot, journal, other) in [(3u8, 3usize, 4usize), (4, 4, 3)] {
        let mut store = with_batch(&rt).into_store(&rt);
        take(&rt, &mut store, &[Step::Fail(slot), Step::Replace(slot)]);
        check_state(&rt, &store, journal, State::InSync, 2);
        check_copy(&rt, &store, journal, other);
    }
}
