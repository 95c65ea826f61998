//! What making a set writes, and which banks it refuses.
use crate::testing::{
    BLANK, ID, ROOM, SET_A, Shape, answer_of_make, array_of, bank_of, calls_of_make,
    calls_of_make_on_used, devices, disk, image_now, put_sector, refusal_of, same, sector_of,
    superblock,
};
use array_io::Array;
use sector_model::{Bank, Choice, Image, MemBank, Plan, Refusal, Sector, write_sector};
use std::process::Abort;
use superblock::oracle::chosen_table_in;

const USED: Sector = [0xee; 512];

/// A bank with devices of so many sectors, each of them in use, which crashes at a call.
fn used_bank(rt: &(impl Abort + AllocGlobal), sectors: &[usize], stop: Option<u64>) -> MemBank {
    let plan = Plan {
        down: [None; 10],
        stop,
    };
    bank_of(rt, devices(rt, sectors, 0xee), plan, ROOM)
}

/// The array of a set of this shape.
fn made(rt: &(impl Abort + AllocGlobal), sectors: &[usize], shape: Shape) -> Array<MemBank> {
    array_of(rt, answer_of_make(rt, used_bank(rt, sectors, None), shape))
}

/// Checks that making a set is refused so, after so many calls.
fn check_refused(
    rt: &(impl Abort + AllocGlobal),
    sectors: &[usize],
    shape: Shape,
    stop: Option<u64>,
    refusal: (Refusal, u64),
) {
    let answer = answer_of_make(rt, used_bank(rt, sectors, stop), shape);
    same(rt, refusal_of(rt, answer), refusal);
}

/// Checks that these sectors of a device are this one, from one up to another.
fn check_sectors(rt: &impl Abort, disk: &[Sector], from: usize, end: usize, want: &Sector) {
    assert!(rt; end <= disk.len());
    for at in from..end {
        same(rt, (at, disk[at] == *want), (at, true));
    }
}

/// Checks an image of set A: the members have 264 sectors and more, the journals 520 and more.
fn check_set_a(rt: &impl Abort, image: &Image) {
    for slot in 0..5u8 {
        let disk = disk(rt, image, slot as usize);
        check_sectors(rt, disk, 0, 1, &BLANK);
        check_sectors(rt, disk, 1, 2, &superblock(1, 32, slot));
        if slot < 3 {
            check_sectors(rt, disk, 2, 8, &USED);
            check_sectors(rt, disk, 8, 264, &BLANK);
            check_sectors(rt, disk, 264, disk.len(), &USED);
        } else {
            check_sectors(rt, disk, 2, 4, &BLANK);
            check_sectors(rt, disk, 4, disk.len(), &USED);
        }
    }
    let beyond = disk(rt, image, 5);
    check_sectors(rt, beyond, 0, beyond.len(), &USED);
}

// Checks that an image chooses the table of an array.
fn check_chosen(rt: &impl Abort, image: &Image, array: &Array<MemBank>) {
    same(rt, chosen_table_in(image, &ID), Some(array.table));
}

// Checks what a crash leaves now of set A.
fn check_left(rt: &(impl Abort + AllocGlobal), array: &Array<MemBank>, choice: Choice) {
    let image = image_now(rt, &array.bank, choice);
    check_set_a(rt, &image);
    check_chosen(rt, &image, array);
}

// Checks a member of 264 sectors, but for its superblock.
fn check_member(rt: &impl Abort, image: &Image, slot: usize) {
    let disk = disk(rt, image, slot);
    check_sectors(rt, disk, 0, 1, &BLANK);
    check_sectors(rt, disk, 2, 8, &USED);
    check_sectors(rt, disk, 8, 264, &BLANK);
}

#[test]
fn superblock_vector_on_used_devices(rt: HostRuntime) {
    let array = made(&rt, &[264, 264, 300, 520, 600, 40], SET_A);
    same(&rt, array.entry, 0);
    same(&rt, array.bank.now(), calls_of_make_on_used(3, 256));
    for choice in [Choice::Oldest, Choice::Newest, Choice::Mixed(3)] {
        check_left(&rt, &array, choice);
    }
}

#[test]
fn a_set_of_ten_slots_is_made(rt: HostRuntime) {
    let sectors = [264, 264, 264, 264, 264, 264, 264, 264, 520, 520];
    let array = made(&rt, &sectors, (8, 128, 2));
    same(&rt, array.bank.now(), calls_of_make_on_used(8, 256));
    let image = image_now(&rt, &array.bank, Choice::Oldest);
    for slot in 0..8 {
        check_member(&rt, &image, slot);
    }
    check_chosen(&rt, &image, &array);
}

// Sectors that are zero but for one byte: places, rows and seals, and some that no set clears.
static IN_USE: [(u8, u16, u16); 10] = [
    (0, 0, 511),
    (0, 8, 0),
    (1, 0, 256),
    (1, 263, 511),
    (2, 100, 63),
    (3, 3, 511),
    (4, 2, 0),
    (0, 7, 511),
    (2, 264, 0),
    (3, 4, 511),
];

// A bank with the devices of set A, which are zero but for these sectors.
fn almost_blank_bank(rt: &(impl Abort + AllocGlobal)) -> MemBank {
    let mut image = devices(rt, &[264, 264, 300, 520, 600], 0);
    for (slot, at, byte) in IN_USE {
        let mut sector = BLANK;
        assert!(rt; byte < 512);
        sector[byte as usize] = 1;
        put_sector(rt, &mut image, slot as usize, at as usize, &sector);
    }
    bank_of(rt, image, Plan::NONE, ROOM)
}

// Seven of them are written; besides each slot gets its superblock, and is flushed twice.
#[test]
fn only_what_is_not_zero_is_written(rt: HostRuntime) {
    let answer = answer_of_make(&rt, almost_blank_bank(&rt), SET_A);
    let bank = array_of(&rt, answer).bank;
    same(&rt, bank.now(), calls_of_make(3, 256) + 7);
    same(&rt, ROOM.saturating_sub(bank.room), 7 + 3 * 5);
    let image = image_now(&rt, &bank, Choice::Oldest);
    for i in 0..IN_USE.len() {
        let (slot, at, _) = IN_USE[i];
        let is_blank = sector_of(&rt, &image, slot as usize, at as usize) == BLANK;
        same(&rt, (i, is_blank), (i, i < 7));
    }
}

// Zeros that were written before, and never flushed, are read alone, and are safe as soon as the set is made.
#[test]
fn zeros_that_were_not_flushed(rt: HostRuntime) {
    let mut bank = used_bank(&rt, &[264, 264, 300, 520, 600, 40], None);
    for (slot, at) in [(0, 0), (1, 8), (2, 263), (4, 3)] {
        assert!(&rt; slot < bank.devices() && at < bank.sectors(slot));
        same(&rt, write_sector(&mut bank, slot, at, &BLANK), Ok(()));
    }
    let array = array_of(&rt, answer_of_make(&rt, bank, SET_A));
    same(&rt, array.bank.now(), calls_of_make_on_used(3, 256));
    for choice in [Choice::Oldest, Choice::Newest, Choice::Mixed(3)] {
        check_left(&rt, &array, choice);
    }
}

#[test]
fn refused_banks(rt: HostRuntime) {
    // Four members and two journals need six slots.
    let few = (Refusal::BadGeometry, 0);
    check_refused(&rt, &[264, 264, 264, 264, 520], (4, 8, 32), None, few);
    for sectors in [
        [0, 264, 264, 520, 520],
        [264, 264, 264, 520, 0],
        [264, 263, 264, 520, 520],
        [264, 264, 264, 519, 520],
        [264, 264, 264, 520, 519],
    ] {
        check_refused(&rt, &sectors, SET_A, None, (Refusal::NotUsable, 0));
    }
}

#[test]
fn a_device_goes_down_at_each_call(rt: HostRuntime) {
    let sectors = [72, 72, 72, 520, 520];
    let shape = (3, 8, 8);
    let calls = calls_of_make_on_used(3, 64);
    same(&rt, made(&rt, &sectors, shape).bank.now(), calls);
    for call in 0..calls {
        check_refused(
            &rt,
            &sectors,
            shape,
            Some(call),
            (Refusal::NotUsable, call + 1),
        );
    }
}
