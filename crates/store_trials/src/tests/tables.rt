//! The table on the devices: what stands in it, in which order its volumes are listed, and one that is damaged.
use super::Answer::Done;
use super::Call::{Create, Extend, Remove};
use super::Step::{Do, Holds, Table};
use super::{SET_A, Shape, Step, assembled, check_new, fresh_store, image_now};
use crate::testing::same;
use sector_model::{Bank, Image, Refusal};
use std::process::Abort;
use volume_table::Store;

#[test]
fn table_vectors(rt: HostRuntime) {
    const STEPS: &[Step] = &[
        Table(&[], &[]),
        Do(Create(b"a", 64), Done),
        Table(
            b"\x01\x61\x00\x00\x00\x00\x00\x00\x00\x00\x00\x00\x00\x00\x00\x00\x00\x00\x00\x00\
              \x00\x00\x00\x00\x00\x00\x00\x00\x40",
            &[1],
        ),
        Do(Extend(b"a", 1), Done),
        Table(
            b"\x01\x61\x00\x00\x00\x00\x00\x00\x00\x00\x00\x00\x00\x00\x00\x00\x00\x00\x00\x00\
              \x00\x00\x00\x00\x00\x00\x00\x00\x41",
            &[1, 0, 0, 0, 1, 0, 1, 0],
        ),
        Do(Remove(b"a"), Done),
        Table(&[], &[]),
    ];
    check_new(&rt, SET_A, STEPS);
}

// Volumes of these names, which are made in another order.
#[test]
fn list_rises(rt: HostRuntime) {
    const STEPS: &[Step] = &[
        Do(Create(b"b", 2), Done),
        Do(Create(b"a", 3), Done),
        Do(Create(b"z", 1), Done),
        Do(Create(b"a-b", 4), Done),
        Do(Create(b"aa", 5), Done),
        Do(Create(b"a_", 6), Done),
        Holds(&[
            (b"a", &[0; 3]),
            (b"a-b", &[0; 4]),
            (b"a_", &[0; 6]),
            (b"aa", &[0; 5]),
            (b"b", &[0; 2]),
            (b"z", &[0; 1]),
        ]),
    ];
    check_new(&rt, SET_A, STEPS);
}

// Changes the first byte of a logical sector of the first chunk, which lies on member 0, and of the parity of its row,
// on member 2.
fn damage(rt: &impl Abort, image: &mut Image, logical: usize, by: u8) {
    for slot in [0usize, 2] {
        assert!(rt; slot < image.slots.len() && logical < 8);
        let disk = image.slots[slot].as_deref_mut();
        let disk = disk.expect(rt, "there is a device");
        assert!(rt; disk.len() > 16);
        disk[8 + logical][0] ^= by;
    }
}

/// Opens a set of this shape, of 3 members and chunks of 8 sectors, of which the first byte of a sector of the table is
/// changed: it reads so many sectors, and writes nothing.
pub(crate) fn check_damaged(
    rt: &(impl Abort + AllocGlobal),
    shape: Shape,
    logical: usize,
    by: u8,
    sectors: u64,
) {
    let mut image = image_now(rt, fresh_store(rt, shape).bank());
    damage(rt, &mut image, logical, by);
    let array = assembled(rt, image);
    let (now, room) = (array.bank.now(), array.bank.room);
    let returned = Store::open(array).err().expect(rt, "no store is opened");
    let calls = returned.bank.now().saturating_sub(now);
    let got = (logical, returned.refusal, calls, returned.bank.room);
    same(rt, got, (logical, Refusal::BadTable, sectors, room));
}

// Sector 0 then has a version that there is not, after which nothing is read; sectors 1 and 2 have a record of a name
// that is not good, and sectors 3 and 7 an owner without a record.
#[test]
fn bad_table(rt: HostRuntime) {
    check_damaged(&rt, SET_A, 0, 2, 1);
    for logical in [1usize, 2, 3, 7] {
        check_damaged(&rt, SET_A, logical, 1, 11);
    }
}
