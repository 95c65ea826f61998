//! Slots that are lost before a large batch, have their old device again after it, and are replaced; and journals that
//! get a copy of such a batch as the last entry.
use super::super::replaced::{clear, put};
use super::super::sets::{
    TestStore, again, assembled, check_missing, geometry_of, image_now, next_run, opened,
};
use super::super::steps::{Step, Volumes, check_holds, check_sound, check_state, take};
use super::{Large, ROWS_2048, RUNS_58, Size};
use crate::testing::same;
use rebuild::Progress;
use sector_model::{Bank, Choice, Image, MemBank, Sector};
use std::mem;
use std::process::Abort;
use superblock::State;

// The sectors of a slot.
fn device_of(rt: &impl Abort, image: &mut Image, slot: usize) -> Vec<Sector> {
    assert!(rt; slot < image.slots.len());
    mem::replace(&mut image.slots[slot], None).expect(rt, "a device")
}

// Commits the batch without a slot to the set on this bank, and gives the slot the device back that it had before.
fn with_old_device(
    rt: &(impl Abort + AllocGlobal),
    large: &Large,
    bank: &MemBank,
    slot: usize,
) -> TestStore {
    let lost = again(rt, bank, bank.now(), Choice::Newest, slot);
    let mut waiting = large.staged(rt, lost);
    same(rt, waiting.commit(), Ok(()));
    waiting.check_holds(rt, slot, &large.new(rt));
    let mut image = image_now(rt, waiting.store.bank());
    let device = device_of(rt, &mut image_now(rt, bank), slot);
    put(rt, &mut image, slot, Some(device));
    opened(rt, assembled(rt, image))
}

// Replaces a slot by what it has, and rebuilds a member's rows: the set is whole, and no row of it is bad.
fn make_whole(rt: &(impl Abort + AllocGlobal), store: &mut TestStore, slot: u8, rows: u64) {
    take(rt, store, &[Step::Replace(slot)]);
    if slot < 3 {
        same(rt, store.rebuild_step(4_096), Ok(Progress::Complete));
    }
    check_sound(rt, store, rows);
}

// Asks that a store lacks a slot, and shows these volumes.
fn check_without(
    rt: &(impl Abort + AllocGlobal),
    store: &mut TestStore,
    missing: usize,
    volumes: Volumes,
) {
    check_missing(rt, store, 0, missing);
    check_holds(rt, store, missing, volumes);
}

// Checks that a slot is missing when its old device is back, and once it is replaced stands in for another one.
fn check_slot(rt: &(impl Abort + AllocGlobal), large: &Large, bank: &MemBank, slot: u8) {
    let rows = geometry_of(rt, large.size.shape).rows();
    let mut store = with_old_device(rt, large, bank, slot as usize);
    check_without(rt, &mut store, slot as usize, &large.new(rt));
    make_whole(rt, &mut store, slot, rows);
    let other = if slot == 0 { 1 } else { 0 };
    let bank = store.bank();
    let mut later = again(rt, bank, bank.now(), Choice::Oldest, other);
    check_without(rt, &mut later, other, &large.new(rt));
}

fn check_slots(rt: &(impl Abort + AllocGlobal), size: Size) {
    let large = Large::of(rt, size);
    let store = large.store(rt);
    for slot in 0..5u8 {
        check_slot(rt, &large, store.bank(), slot);
    }
}

#[test]
fn each_slot_back_and_replaced_after_58_runs(rt: HostRuntime) {
    check_slots(&rt, RUNS_58);
}

#[test]
fn each_slot_back_and_replaced_after_2048_rows(rt: HostRuntime) {
    check_slots(&rt, ROWS_2048);
}

// The devices of a bank without this journal, where the rows of each member are as they were on an earlier bank. They
// begin with sector 8.
fn with_old_rows(
    rt: &(impl Abort + AllocGlobal),
    bank: &MemBank,
    earlier: &MemBank,
    journal: usize,
) -> Image {
    let (mut image, mut old) = (image_now(rt, bank), image_now(rt, earlier));
    put(rt, &mut image, journal, None);
    for member in 0..3usize {
        let mut device = device_of(rt, &mut image, member);
        let rows = device_of(rt, &mut old, member);
        assert!(rt; device.len() == rows.len() && rows.len() >= 8);
        device[8..].copy_from_slice(&rows[8..]);
        put(rt, &mut image, member, Some(device));
    }
    image
}

// Checks that a journal which is taken in again gets a copy of the batch, which serves where the other one is lost and
// nothing has reached the members. Without its seals there is no entry, and the volumes are those before it.
fn check_copy(rt: &(impl Abort + AllocGlobal), size: Size, slot: u8, other: usize) {
    let large = Large::of(rt, size);
    let before = large.store(rt);
    let mut waiting = large.staged(rt, next_run(rt, before.bank()));
    same(rt, waiting.commit(), Ok(()));
    let mut store = waiting.into_store(rt);
    take(rt, &mut store, &[Step::Fail(slot), Step::Replace(slot)]);
    check_state(rt, &store, slot as usize, State::InSync, 2);
    let sealed = with_old_rows(rt, store.bank(), before.bank(), other);
    let mut later = opened(rt, assembled(rt, sealed));
    check_without(rt, &mut later, other, &large.new(rt));
    let mut unsealed = with_old_rows(rt, store.bank(), before.bank(), other);
    clear(rt, &mut unsealed, slot as usize, 2, 8);
    let mut later = opened(rt, assembled(rt, unsealed));
    check_without(rt, &mut later, other, &large.old(rt));
}

#[test]
fn each_journal_gets_a_copy_of_58_runs(rt: HostRuntime) {
    check_copy(&rt, RUNS_58, 3, 4);
    check_copy(&rt, RUNS_58, 4, 3);
}

#[test]
fn each_journal_gets_a_copy_of_2048_rows(rt: HostRuntime) {
    check_copy(&rt, ROWS_2048, 3, 4);
    check_copy(&rt, ROWS_2048, 4, 3);
}
