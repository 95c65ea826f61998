//! Which calls of the devices' files a call of a store makes, where sectors that follow one another are one call.
//!
//! The volume of each set is of 64 blocks, so its blocks lie from logical sector 64 on. It takes three entries: two of
//! zeros, and one of the table. So the next one is number 4, its seal sector 2 of a journal, from byte 1,024 on, and
//! its body begins with sector 8, at byte 4,096. Row r is sector 8 + r of a member, at byte 4,096 + 512 r.
mod recorded;

use super::{ID, SET_A, Shape, geometry_of};
use crate::testing::{all, same};
use layout_map::{Format, Geometry};
use recorded::FileCall::{Read, Sync, Write};
use recorded::{FileCall, Recorded, RecordedBank, bank_over};
use recovery::{assemble, make};
use std::cell::RefCell;
use std::process::Abort;
use stripe_journal::Entry;
use volume_table::Store;

/// A journal's calls of an entry whose body has so many bytes: the body, and the seal.
fn sealed(bytes: usize) -> [FileCall; 4] {
    [Write(4_096, bytes), Sync, Write(1_024, 512), Sync]
}

// Files of zeros for a set of this shape, as long as it needs them.
fn blank_files(rt: &(impl Abort + AllocGlobal), geometry: &Geometry) -> RefCell<Recorded> {
    let mut files = Vec::new(rt.alloc());
    let member = (geometry.rows() as usize).saturating_add(8);
    for slot in 0..geometry.members.saturating_add(2) {
        let sectors = if slot < geometry.members { member } else { 520 };
        let bytes = sectors.saturating_mul(512);
        let file = vec![in rt.alloc(); 0; bytes].expect(rt, "memory");
        files.push(file).expect(rt, "memory");
    }
    RefCell::new(Recorded {
        files,
        calls: Vec::new(rt.alloc()),
    })
}

// Makes a set of this shape on files, and a volume of 64 blocks on it.
fn made_on(rt: &(impl Abort + AllocGlobal), record: &RefCell<Recorded>, geometry: Geometry) {
    let entry = Entry::new(rt.alloc()).expect(rt, "memory");
    let array = make(bank_over(rt, record), entry, ID, geometry);
    let array = array.ok().expect(rt, "the set is made");
    let mut store = Store::open(array).ok().expect(rt, "the store is opened");
    same(rt, store.create(b"a", 64), Ok(()));
}

// The store over the set that is assembled on files. What they were called for before is forgotten.
fn opened_on<'a>(
    rt: &(impl Abort + AllocGlobal),
    record: &'a RefCell<Recorded>,
) -> Store<RecordedBank<'a>> {
    let entry = Entry::new(rt.alloc()).expect(rt, "memory");
    let array = assemble(bank_over(rt, record), entry, ID);
    let array = array.ok().expect(rt, "the set is assembled");
    let store = Store::open(array).ok().expect(rt, "the store is opened");
    let mut record = record.try_borrow_mut().expect(rt, "a record");
    record.calls.clear();
    store
}

// The calls of each device's file are these, in this order.
fn are_called(rt: &(impl Abort + AllocGlobal), record: &RefCell<Recorded>, wanted: &[&[FileCall]]) {
    let record = record.try_borrow().expect(rt, "a record");
    let mut count = 0usize;
    for device in 0..wanted.len() {
        let mut calls = Vec::new(rt.alloc());
        for (of, call) in &record.calls {
            if *of as usize == device {
                calls.push(*call).expect(rt, "memory");
            }
        }
        same(rt, (device, calls.as_slice()), (device, wanted[device]));
        count = count.saturating_add(calls.len());
    }
    same(rt, record.calls.len(), count);
}

// How many reads and writes of files there were, and how many syncs.
fn are_so_many(rt: &impl Abort, record: &RefCell<Recorded>, reads_and_writes: usize, syncs: usize) {
    let record = record.try_borrow().expect(rt, "a record");
    let mut counted = 0usize;
    for (_, call) in &record.calls {
        if *call == Sync {
            counted = counted.saturating_add(1);
        }
    }
    let others = record.calls.len().saturating_sub(counted);
    same(rt, (others, counted), (reads_and_writes, syncs));
}

// What a write of so many blocks to the front of a volume of a set of this shape makes of calls of files.
fn check_write(
    rt: &(impl Abort + AllocGlobal),
    shape: Shape,
    blocks: usize,
    counts: (usize, usize),
    wanted: &[&[FileCall]],
) {
    let geometry = geometry_of(rt, shape);
    let record = blank_files(rt, &geometry);
    made_on(rt, &record, geometry);
    let mut store = opened_on(rt, &record);
    let data = vec![in rt.alloc(); all(0xa5); blocks].expect(rt, "memory");
    same(rt, store.write(b"a", 0, &data), Ok(()));
    are_called(rt, &record, wanted);
    are_so_many(rt, &record, counts.0, counts.1);
}

// Logical sector 64 is chunk 8, of stripe 4: row 32, on member 2, with the parity on 1. Two sectors are held, and the
// third is read.
#[test]
fn files_of_a_block_on_3_members(rt: HostRuntime) {
    const ROW: &[FileCall] = &[Write(20_480, 512), Sync];
    let journal = sealed(1_024);
    let wanted: [&[FileCall]; 5] = [&[Read(20_480, 512)], ROW, ROW, &journal, &journal];
    check_write(&rt, SET_A, 1, (7, 6), &wanted)
}

// Logical sectors 64 to 95 are chunks 8 to 11, which are all of stripe 2: rows 16 to 23. All 40 sectors are held.
#[test]
fn files_of_a_whole_stripe_on_5_members(rt: HostRuntime) {
    const ROWS: &[FileCall] = &[Write(12_288, 4_096), Sync];
    let journal = sealed(20_480);
    let wanted: [&[FileCall]; 7] = [ROWS, ROWS, ROWS, ROWS, ROWS, &journal, &journal];
    check_write(&rt, (Format::One, 5, 8, 12), 32, (9, 9), &wanted)
}

// Logical sectors 64 to 71 are chunk 8, the last of stripe 2: rows 16 to 23, on member 0, with the parity on 1. These
// two are as few as the two others, so their old values are read: one sector, and then the rest of the 4,096 bytes.
#[test]
fn files_of_a_chunk_on_4_members(rt: HostRuntime) {
    const ROWS: &[FileCall] = &[
        Read(12_288, 512),
        Read(12_800, 3_584),
        Write(12_288, 4_096),
        Sync,
    ];
    let journal = sealed(8_192);
    let wanted: [&[FileCall]; 6] = [ROWS, ROWS, &[], &[], &journal, &journal];
    check_write(&rt, (Format::One, 4, 8, 12), 8, (10, 6), &wanted)
}

// Logical sectors 64 to 95 are chunks 8 to 11: rows 32 to 39 on member 2, then on 0, rows 40 to 47 on 1, then on 2. The
// second run of member 2 follows the first, and goes on to the next multiple of 8,192 bytes.
#[test]
fn files_of_a_read_of_32_blocks(rt: HostRuntime) {
    const WANTED: &[&[FileCall]] = &[
        &[Read(20_480, 512), Read(20_992, 3_584)],
        &[Read(24_576, 512), Read(25_088, 3_584)],
        &[Read(20_480, 512), Read(20_992, 3_584), Read(24_576, 8_192)],
        &[],
        &[],
    ];
    let geometry = geometry_of(&rt, SET_A);
    let record = blank_files(&rt, &geometry);
    made_on(&rt, &record, geometry);
    let mut store = opened_on(&rt, &record);
    let mut blocks = vec![in rt.alloc(); all(0xee); 32].expect(&rt, "memory");
    same(&rt, store.read(b"a", 0, &mut blocks), Ok(()));
    for block in &blocks {
        same(&rt, *block == all(0), true);
    }
    are_called(&rt, &record, WANTED);
    are_so_many(&rt, &record, 7, 0);
}
