//! The table of volumes gets version 2: what stands on the devices then, and what the call costs.
use super::Answer::{Done, Refused};
use super::Call::{Create, Read, Remove, Upgrade, Write};
use super::Step::{Apply, Do, Ended, Holds, Makes, Shows, Status, Version};
use super::calls::SEAL_CALLS;
use super::{
    Answer, ID, SET_A, Step, TestStore, Volumes, check, check_new, fresh_store, geometry_of,
    image_now, logical_list, next_run,
};
use crate::testing::{front, same};
use layout_map::ENTRY_ROWS;
use sector_model::{Bank, Image, MemBank, Refusal};
use std::process::Abort;
use stripe_journal::Form;
use stripe_journal::oracle::last_sealed_in;

mod crashes;
mod events;
mod failures;
mod forged;
mod limits;

// Of set A sectors 0 to 7 of the table lie on member 0 and 8 to 15 on member 1, in rows 0 to 7, whose parity is on
// member 2. Sectors 16 to 23 lie on member 2 and sector 24 on member 0, in rows 8 to 15, whose parity is on member 1.
// So rows 0 to 8 are written whole, and rows 9 to 15 but for member 0, which is read there.
const READS: u64 = 7;

/// The sectors that the entry of an upgrade holds.
pub(crate) const HELD: u64 = 9 * 3 + 7 * 2;

/// The calls of an upgrade before its seals: the reads, and two bodies with a flush each.
pub(crate) const BEFORE_SEALS: u64 = READS + 2 * (HELD + 1);

/// The calls of an upgrade before its first write to a member.
pub(crate) const BEFORE_MEMBERS: u64 = BEFORE_SEALS + SEAL_CALLS;

/// The calls of an upgrade: after the seals each sector is written to its member, and each of three members is flushed.
pub(crate) const CALLS: u64 = BEFORE_MEMBERS + HELD + 3;

// Nothing.
const NONE: [u64; 3] = [0, 0, 0];

// The reads of an upgrade, its writes and flushes, and its entries.
const MADE: [u64; 3] = [READS, CALLS - READS, 1];

/// The volume `a` of 64 blocks.
pub(crate) static ONE: [Step; 1] = [Do(Create(b"a", 64), Done)];

/// The volumes then.
pub(crate) const ONE_VOLUME: Volumes = &[(b"a", &[0; 64])];

/// The sectors of its table of version 2 that are not zero, by what is at their front: the version, record 0, and
/// extent 0.
pub(crate) static SPELLED: [(usize, &[u8]); 3] = [
    (0, &[1]),
    (
        1,
        &[
            0x01, 0x61, 0, 0, 0, 0, 0, 0, 0, 0, 0, 0, 0, 0, 0, 0, 0, 0, 0, 0, 0, 0, 0, 0, 0, 0, 0,
            0, 0, 0, 0, 0, 0, 0, 0, 0, 0, 0, 0, 0, 0, 0, 0, 0, 0, 0, 0, 0, 0, 0, 0, 0, 0, 0, 0, 0,
            0, 0, 0, 0, 0, 0, 0, 0, 0x40, 0, 0, 0,
        ],
    ),
    (17, &[1, 0, 0, 0]),
];

// What is at the front of a sector.
fn front_of<'a>(spelled: &[(usize, &'a [u8])], sector: usize) -> &'a [u8] {
    for (number, bytes) in spelled {
        if *number == sector {
            return bytes;
        }
    }
    &[]
}

/// Asks that these of the logical sectors 0 to 24 begin so, and all else in them is zero.
pub(crate) fn check_spelled(
    rt: &(impl Abort + AllocGlobal),
    bank: &MemBank,
    spelled: &[(usize, &[u8])],
) {
    let (sectors, _) = logical_list(rt, bank);
    assert!(rt; sectors.len() >= 25);
    for at in 0..25usize {
        let is_so = sectors[at] == front(front_of(spelled, at));
        same(rt, (at, is_so), (at, true));
    }
}

// The members of each row whose sectors the entry has.
static MASKS: [u8; ENTRY_ROWS] = [
    7, 7, 7, 7, 7, 7, 7, 7, 7, 6, 6, 6, 6, 6, 6, 6, 0, 0, 0, 0, 0, 0, 0, 0, 0, 0, 0, 0, 0, 0, 0, 0,
];

// Its rows.
static ROWS: [u32; 16] = [0, 1, 2, 3, 4, 5, 6, 7, 8, 9, 10, 11, 12, 13, 14, 15];

// Asks that the last entry of a journal has these rows, and of them those sectors.
fn check_entry(rt: &impl Abort, image: &Image, slot: usize) {
    assert!(rt; slot < image.slots.len());
    let geometry = geometry_of(rt, SET_A);
    let seal = last_sealed_in(&image.slots[slot], &ID, &geometry).expect(rt, "an entry is sealed");
    same(
        rt,
        (slot, seal.form.rows() == ROWS.as_slice()),
        (slot, true),
    );
    match &seal.form {
        Form::Whole(_) | Form::Runs(_) => same(rt, (slot, false), (slot, true)),
        Form::Held(_, masks) => same(rt, (slot, *masks), (slot, MASKS)),
    }
}

#[test]
fn upgrade_vector(rt: HostRuntime) {
    let mut store = fresh_store(&rt, SET_A);
    check(&rt, &mut store, &ONE);
    check(
        &rt,
        &mut store,
        &[Version(1), Do(Upgrade, Done), Version(2)],
    );
    check_spelled(&rt, store.bank(), &SPELLED);
    let image = image_now(&rt, store.bank());
    check_entry(&rt, &image, 3);
    check_entry(&rt, &image, 4);
    check(&rt, &mut store, &[Holds(ONE_VOLUME), Shows(ONE_VOLUME)]);
}

// An upgrade of a table of version 2 makes no device call, in this run and in the next one.
#[test]
fn upgrade_twice(rt: HostRuntime) {
    static STEPS: [Step; 7] = [
        Do(Create(b"a", 64), Done),
        Makes(Upgrade, Done, MADE),
        Version(2),
        Makes(Upgrade, Done, NONE),
        Version(2),
        Apply(Upgrade, Done),
        Status([256, 1, 7, 6, 1]),
    ];
    static AGAIN: [Step; 3] = [Version(2), Makes(Upgrade, Done, NONE), Holds(ONE_VOLUME)];
    let mut store = fresh_store(&rt, SET_A);
    check(&rt, &mut store, &STEPS);
    check(&rt, &mut next_run(&rt, store.bank()), &AGAIN);
}

// A set without volumes, by the event of the call.
#[test]
fn upgrade_of_no_volumes(rt: HostRuntime) {
    static STEPS: [Step; 5] = [
        Makes(Upgrade, Done, MADE),
        Apply(Upgrade, Done),
        Version(2),
        Holds(&[]),
        Shows(&[]),
    ];
    let mut store = fresh_store(&rt, SET_A);
    check(&rt, &mut store, &STEPS);
    check_spelled(&rt, store.bank(), &[(0, &[1])]);
}

// Volumes come and go in a table of version 2 as in one of version 1: two sectors of it change with a volume, in two
// rows, and record 0 is free again.
#[test]
fn volumes_of_an_upgraded_set(rt: HostRuntime) {
    static STEPS: [Step; 8] = [
        Do(Upgrade, Done),
        Do(Create(b"b", 1), Done),
        Do(Write(b"b", 0, &[0x22]), Done),
        Makes(Remove(b"a"), Done, [2, 3 * 4 + 6 + 3, 1]),
        Do(Create(b"c", 2), Done),
        Do(Read(b"c", 0, 2), Answer::Blocks(&[0, 0])),
        Holds(&[(b"b", &[0x22]), (b"c", &[0, 0])]),
        Shows(&[(b"b", &[0x22]), (b"c", &[0, 0])]),
    ];
    let mut store = fresh_store(&rt, SET_A);
    check(&rt, &mut store, &ONE);
    check(&rt, &mut store, &STEPS);
    check(&rt, &mut next_run(&rt, store.bank()), &STEPS[6..]);
}

// The entry's number stands at its limit: the upgrade is refused and ends the store, and the table has version 1 in the
// next run.
#[test]
fn upgrade_of_a_worn_set(rt: HostRuntime) {
    static STEPS: [Step; 3] = [
        Do(Upgrade, Refused(Refusal::Worn)),
        Ended(Refusal::Worn),
        Shows(&[(b"a", &[0; 64])]),
    ];
    static AGAIN: [Step; 2] = [Version(1), Holds(&[(b"a", &[0; 64])])];
    let mut store = fresh_store(&rt, SET_A);
    check(&rt, &mut store, &ONE);
    store.array.entry = 1 << 62;
    check(&rt, &mut store, &STEPS);
    check(&rt, &mut next_run(&rt, store.bank()), &AGAIN);
}
