//! That making blocks zero is the same device calls as writes of zeros: in a set of format 1 of 32 blocks each, in one
//! of format 2 where a range is one write.
use super::sets::{ID, SMALL, Shape, fresh_store, image_now, write_bytes};
use super::{EXAMPLE, ThinStore, bytes_of, thin_bank};
use crate::testing::same;
use recovery::assemble;
use sector_model::{Bank, MemBank, Plan};
use std::process::Abort;
use stripe_journal::Entry;
use volume_table::Store;

// The bytes of 32 blocks of a volume from one on, each of which is one more than its number.
fn bytes_from(first: u8) -> [u8; 32] {
    let mut bytes = [0; 32];
    let mut next = first;
    for byte in &mut bytes {
        next = next.wrapping_add(1);
        *byte = next;
    }
    bytes
}

// The set with a volume `v` of 128 blocks, of which none is zero.
fn written(rt: &(impl Abort + AllocGlobal), shape: Shape) -> MemBank {
    let mut store = fresh_store(rt, shape);
    same(rt, store.create(b"v", 128), Ok(()));
    for part in 0..4u8 {
        let first = part.saturating_mul(32);
        write_bytes(rt, &mut store, b"v", u32::from(first), &bytes_from(first));
    }
    store.into_bank()
}

// A store over what a bank holds, whose calls are noted.
fn noted(rt: &(impl Abort + AllocGlobal), bank: &MemBank) -> ThinStore {
    let none = Vec::new(rt.alloc());
    let bank = thin_bank(rt, image_now(rt, bank), (8_200, none), Plan::NONE);
    let entry = Entry::new(rt.alloc()).expect(rt, "memory");
    let array = assemble(bank, entry, ID);
    let array = array.ok().expect(rt, "the set is assembled");
    let mut store = Store::open(array).ok().expect(rt, "the store is opened");
    store.array.bank.notes.each = true;
    store
}

// A range of blocks: the first, and how many.
type Range = (u32, u32);

// Writes zeros to a range, 32 blocks at a time.
fn write_zeros(rt: &impl Abort, store: &mut ThinStore, (at, count): Range) {
    let zeros = [[0; 512]; 32];
    for number in 0..count.saturating_add(31) / 32 {
        let before = number.saturating_mul(32);
        let some = count.saturating_sub(before).min(32) as usize;
        let place = at.saturating_add(before);
        same(rt, store.write(b"v", place, &zeros[..some]), Ok(()));
    }
}

// Whether two stores made the same calls one after another, and their devices hold the same. The number of calls.
fn check_same(rt: &(impl Abort + AllocGlobal), got: &ThinStore, wanted: &ThinStore) -> usize {
    let calls = &got.array.bank.notes.calls;
    same(rt, calls.len(), wanted.array.bank.notes.calls.len());
    for at in 0..calls.len().min(wanted.array.bank.notes.calls.len()) {
        same(rt, (at, calls[at]), (at, wanted.array.bank.notes.calls[at]));
    }
    let devices = image_now(rt, &got.array.bank.bank);
    let others = image_now(rt, &wanted.array.bank.bank);
    for slot in 0..devices.slots.len().min(others.slots.len()) {
        let is_so = devices.slots[slot] == others.slots[slot];
        same(rt, (slot, is_so), (slot, true));
    }
    calls.len()
}

// Makes a range zero, and writes zeros to it in a set that is the same.
fn check_range(rt: &(impl Abort + AllocGlobal), bank: &MemBank, range: Range) {
    let (at, count) = range;
    let mut store = noted(rt, bank);
    same(rt, (range, store.zero(b"v", at, count)), (range, Ok(())));
    let mut other = noted(rt, bank);
    write_zeros(rt, &mut other, range);
    assert!(rt; check_same(rt, &store, &other) > 0);
    let seals = store.array.bank.notes.seals.len();
    same(
        rt,
        (range, seals),
        (range, count.saturating_add(31) as usize / 32),
    );
    let mut block = 0u32;
    for byte in &bytes_of(rt, &mut store, b"v", 128) {
        let is_within = at <= block && block - at < count;
        same(rt, (range, block, *byte == 0), (range, block, is_within));
        block = block.saturating_add(1);
    }
}

// Commits of 32 blocks, the last of fewer.
#[test]
fn calls_of_writes_in_format_1(rt: HostRuntime) {
    let bank = written(&rt, SMALL);
    for at in [0u32, 1, 5, 8, 16, 31, 50, 64] {
        for count in [1u32, 15, 16, 31, 32, 33, 48, 60, 64] {
            check_range(&rt, &bank, (at, count));
        }
    }
    check_range(&rt, &bank, (0, 128));
}

#[test]
fn calls_of_one_write_in_format_2(rt: HostRuntime) {
    let bank = written(&rt, EXAMPLE);
    for at in [0u32, 1, 5, 8, 16, 31, 50, 64] {
        for count in [1u32, 15, 16, 17, 31, 32] {
            check_range(&rt, &bank, (at, count));
        }
    }
}
