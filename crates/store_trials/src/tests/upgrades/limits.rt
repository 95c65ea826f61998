//! How many volumes a set may have, and how long their names may be, before an upgrade and after it.
use super::super::Answer::{Done, Refused};
use super::super::Call::{Create, Extend, Remove, Upgrade, Write};
use super::super::Step::{Do, Holds, Record, Shows, Status, Version};
use super::super::{
    SET_A, Shape, Step, TestStore, Volumes, check, fresh_store, next_run, opened_after,
    unlike_block,
};
use crate::testing::{all, same};
use layout_map::Format;
use sector_model::{Bank, Refusal};
use std::process::Abort;

// 2,080 rows, 4,160 data sectors and 64 extents.
const LARGE: Shape = (Format::One, 3, 8, 260);

// The name of the volume of each record, 0 to 63: it rises with that.
fn name_of(number: u8) -> [u8; 2] {
    [
        b'a'.saturating_add(number / 8),
        b'a'.saturating_add(number % 8),
    ]
}

// Makes these volumes of one block, whose bytes are the number. No other volume is made then, for want of a record.
fn make_volumes(rt: &(impl Abort + AllocGlobal), store: &mut TestStore, first: u8, end: u8) {
    for number in first..end {
        let name = name_of(number);
        same(rt, (number, store.create(&name, 1)), (number, Ok(())));
        let written = store.write(&name, 0, &[all(number)]);
        same(rt, (number, written), (number, Ok(())));
    }
    let refused = store.create(b"z", 1);
    same(rt, (end, refused), (end, Err(Refusal::TooManyVolumes)));
}

// Asks that the volumes 0 to `end` - 1 are listed, and no other.
fn check_listed(rt: &(impl Abort + AllocGlobal), store: &mut TestStore, end: u8) {
    let listed = store.list(rt.alloc()).expect(rt, "volumes are listed");
    same(rt, listed.len(), end as usize);
    let mut number = 0u8;
    for volume in &listed {
        let is_so = volume.name.bytes() == name_of(number).as_slice() && volume.blocks == 1;
        same(rt, (number, is_so), (number, true));
        number = number.wrapping_add(1);
    }
}

// Asks that these are the volumes, each with its byte.
fn check_volumes(rt: &(impl Abort + AllocGlobal), store: &mut TestStore, end: u8) {
    check_listed(rt, store, end);
    for number in 0..end {
        let unlike = unlike_block(rt, store, &name_of(number), &[number]);
        same(rt, (number, unlike), (number, None));
    }
}

// The last volume has the last record and the last extent, and its place is taken by the next one that is made. The run
// begins after the making of the set, which writes each of its rows: a bank keeps so many writes and no more.
#[test]
fn sixty_four_volumes(rt: HostRuntime) {
    static BEFORE: [Step; 4] = [
        Status([2_080, 1, 64, 32, 32]),
        Version(1),
        Do(Upgrade, Done),
        Version(2),
    ];
    static AGAIN: [Step; 5] = [
        Status([2_080, 1, 64, 0, 64]),
        Version(2),
        Record(b"hh", 63, 1),
        Do(Remove(b"hh"), Done),
        Do(Create(b"z", 64), Done),
    ];
    let mut store = opened_after(&rt, LARGE, &[]);
    make_volumes(&rt, &mut store, 0, 32);
    check_volumes(&rt, &mut store, 32);
    check(&rt, &mut store, &BEFORE);
    make_volumes(&rt, &mut store, 32, 64);
    check_volumes(&rt, &mut store, 64);
    let mut later = next_run(&rt, store.bank());
    check_volumes(&rt, &mut later, 64);
    check(&rt, &mut later, &AGAIN);
}

const OF_24: &[u8] = b"a-name-of-twenty-four-by";

const OF_25: &[u8] = b"a-name-of-twenty-four-byt";

const OF_63: &[u8] = b"a-name-of-twenty-four-bytes-and-of-thirty-nine-more-behind-them";

const OF_64: &[u8] = b"a-name-of-twenty-four-bytes-and-of-thirty-nine-more-behind-them_";

const LONG: Volumes = &[(OF_24, &[0]), (OF_25, &[0x25]), (OF_63, &[0, 0x63, 0])];

#[test]
fn long_names(rt: HostRuntime) {
    static STEPS: [Step; 14] = [
        Do(Create(OF_24, 1), Done),
        Do(Create(OF_25, 1), Refused(Refusal::BadName)),
        Do(Create(OF_63, 2), Refused(Refusal::BadName)),
        Do(Create(OF_64, 1), Refused(Refusal::BadName)),
        Do(Upgrade, Done),
        Do(Create(OF_25, 1), Done),
        Do(Create(OF_63, 2), Done),
        Do(Create(OF_63, 2), Refused(Refusal::Exists)),
        Do(Create(OF_64, 1), Refused(Refusal::BadName)),
        Do(Extend(OF_63, 1), Done),
        Do(Write(OF_25, 0, &[0x25]), Done),
        Do(Write(OF_63, 1, &[0x63]), Done),
        Holds(LONG),
        Shows(LONG),
    ];
    static AGAIN: [Step; 3] = [
        Holds(LONG),
        Do(Remove(OF_63), Done),
        Holds(&[(OF_24, &[0]), (OF_25, &[0x25])]),
    ];
    same(
        &rt,
        [OF_24.len(), OF_25.len(), OF_63.len(), OF_64.len()],
        [24, 25, 63, 64],
    );
    let mut store = fresh_store(&rt, SET_A);
    check(&rt, &mut store, &STEPS);
    check(&rt, &mut next_run(&rt, store.bank()), &AGAIN);
}
