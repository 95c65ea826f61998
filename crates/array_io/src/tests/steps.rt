//! Images of a set of 3 members, chunk 8 and 32 stripes, as lists of what is put on them, and what they are asked.
use crate::oracle::{is_row_sound_in, is_trusted_in, logical_in, reading_of};
use crate::testing::{
    Bytes, ID, Slots, WHOLE, all, blank, blank_device, held_seal, holds, is_out, put, put_row,
    same, seal, superblock, table_of,
};
use sector_model::{Image, Sector};
use std::process::Abort;
use superblock::Table;
use superblock::oracle::chosen_table_in;

/// What is put on an image.
pub(crate) enum Put {
    /// The superblock of this generation, on the device of each slot that is not missing by it.
    Table(u8, Slots),
    /// A row of the members.
    Row(u32, Bytes),
    /// The body of an entry of one row, into a slot: the number of the entry, and the row's bytes.
    Body(usize, u8, Bytes),
    /// The seal of the entry of this number with this row alone, into a slot.
    Seal(usize, u8, u8),
    /// The seals, on both journals, of the entry of this number that holds of this row what a mask has.
    Held(u8, u8, u8),
    /// The seal of the entry of this number that holds of this row what a mask has, into a slot.
    HeldOn(usize, u8, u8, u8),
    /// The entry of this number with one row, body and seal on both journals, and the row on the members.
    Entry(u8, u8, Bytes),
    /// A sector full of a byte: its slot, its place and the byte.
    Full(usize, usize, u8),
    /// Rows 0 to 63 of members 1 and 2.
    Rows,
    /// A blank device of a member, into a slot.
    Blank(usize),
    /// Nothing: the device of a slot is taken away.
    Gone(usize),
}

/// What an image is asked, by the table that it chooses.
pub(crate) enum Ask {
    /// That table is the one of this generation.
    Table(u8, Slots),
    /// No entry stands on it, and these members are live.
    Reading([bool; 8]),
    /// Whether the own sector of a member counts in a row: the row, the member, and the answer.
    Trusted(u64, u64, bool),
    /// A logical sector is full of this byte.
    Logical(u64, u8),
    /// Each of the 256 rows is sound.
    Sound,
    /// This row is not sound.
    Unsound(u64),
}

/// What is put on an image, or asked of it then.
pub(crate) enum Step {
    Put(Put),
    Ask(Ask),
}

// A set that was just made.
fn made(rt: &(impl Abort + AllocGlobal)) -> Image {
    let mut image = blank(rt, 3);
    put_tables(rt, &mut image, 1, &WHOLE);
    image
}

/// A set that was just made, with these on it.
pub(crate) fn made_with(rt: &(impl Abort + AllocGlobal), puts: &[Put]) -> Image {
    let mut image = made(rt);
    put_each(rt, &mut image, puts);
    image
}

fn put_each(rt: &(impl Abort + AllocGlobal), image: &mut Image, puts: &[Put]) {
    for it in puts {
        put_one(rt, image, it);
    }
}

fn put_one(rt: &(impl Abort + AllocGlobal), image: &mut Image, it: &Put) {
    match it {
        Put::Table(generation, slots) => put_tables(rt, image, *generation, slots),
        Put::Row(row, bytes) => put_row(rt, image, 3, *row, bytes),
        Put::Body(slot, number, bytes) => put_body(rt, image, *slot, *number, bytes),
        Put::Seal(slot, number, row) => put_seal(rt, image, *slot, *number, *row),
        Put::Held(number, row, mask) => put_held(rt, image, *number, *row, *mask),
        Put::HeldOn(slot, number, row, mask) => put_mask(rt, image, *slot, *number, *row, *mask),
        Put::Entry(number, row, bytes) => put_entry(rt, image, *number, *row, bytes),
        Put::Full(slot, at, byte) => put(rt, image, *slot, *at, &all(*byte)),
        Put::Rows => put_rows(rt, image),
        Put::Blank(slot) => put_device(rt, image, *slot, Some(blank_device(rt, 264))),
        Put::Gone(slot) => put_device(rt, image, *slot, None),
    }
}

fn put_tables(rt: &impl Abort, image: &mut Image, generation: u8, slots: &Slots) {
    for role in 0..5u8 {
        if !is_out(slots, role) {
            let sector = superblock(generation, role, slots);
            put(rt, image, role as usize, (generation % 2) as usize, &sector);
        }
    }
}

fn put_body(rt: &impl Abort, image: &mut Image, slot: usize, number: u8, bytes: &Bytes) {
    for member in 0..3 {
        let at = 8 + 256 * (number % 2) as usize + member;
        put(rt, image, slot, at, &all(bytes[member]));
    }
}

fn put_seal(rt: &impl Abort, image: &mut Image, slot: usize, number: u8, row: u8) {
    let at = 2 + (number % 2) as usize;
    put(rt, image, slot, at, &seal(number, [row, 0]));
}

fn put_held(rt: &impl Abort, image: &mut Image, number: u8, row: u8, mask: u8) {
    for slot in 3..5 {
        put_mask(rt, image, slot, number, row, mask);
    }
}

fn put_mask(rt: &impl Abort, image: &mut Image, slot: usize, number: u8, row: u8, mask: u8) {
    let at = 2 + (number % 2) as usize;
    put(rt, image, slot, at, &held_seal(number, [row, 0], [mask, 0]));
}

fn put_entry(rt: &impl Abort, image: &mut Image, number: u8, row: u8, bytes: &Bytes) {
    put_row(rt, image, 3, u32::from(row), bytes);
    for slot in 3..5 {
        put_body(rt, image, slot, number, bytes);
        put_seal(rt, image, slot, number, row);
    }
}

// On member 1 the bytes count from 01, and on member 2 from 80.
fn put_rows(rt: &impl Abort, image: &mut Image) {
    for row in 0..64u8 {
        put(rt, image, 1, 8 + row as usize, &all(1 + row));
        put(rt, image, 2, 8 + row as usize, &all(0x80 + row));
    }
}

fn put_device(rt: &impl Abort, image: &mut Image, slot: usize, device: Option<Vec<Sector>>) {
    assert!(rt; slot < image.slots.len());
    image.slots[slot] = device;
}

// Asks for a logical sector full of this byte.
fn check_logical(rt: &impl Abort, image: &Image, table: &Table, step: u64, logical: u64, byte: u8) {
    assert!(rt; logical < table.geometry.data_sectors());
    let mut sector = all(0xee);
    logical_in(image, table, logical, &mut sector);
    holds(
        rt,
        "step, logical sector",
        (step, logical),
        sector == all(byte),
    );
}

// Asks whether a row is sound.
fn check_row(rt: &impl Abort, image: &Image, table: &Table, step: u64, row: u64, is_sound: bool) {
    assert!(rt; row < table.geometry.rows());
    let is_right = is_row_sound_in(image, table, row) == is_sound;
    holds(rt, "step, row", (step, row), is_right);
}

/// Asks for the table of this generation, after so many steps.
pub(crate) fn check_table(
    rt: &impl Abort,
    image: &Image,
    step: u64,
    generation: u8,
    slots: &Slots,
) {
    let table = chosen_table_in(image, &ID).expect(rt, "a table is chosen");
    same(rt, (step, table), (step, table_of(rt, generation, slots)));
}

// Asks this of an image, after so many steps.
fn ask_one(rt: &impl Abort, image: &Image, step: u64, it: &Ask) {
    let table = chosen_table_in(image, &ID).expect(rt, "a table is chosen");
    match it {
        Ask::Table(generation, slots) => check_table(rt, image, step, *generation, slots),
        Ask::Reading(live) => check_reading(rt, image, &table, step, live),
        Ask::Trusted(row, member, is_trusted) => {
            let got = is_trusted_in(image, &table, *row, *member as usize);
            holds(rt, "row, member", (*row, *member), got == *is_trusted);
        }
        Ask::Logical(logical, byte) => check_logical(rt, image, &table, step, *logical, *byte),
        Ask::Sound => check_each_row(rt, image, &table, step),
        Ask::Unsound(row) => check_row(rt, image, &table, step, *row, false),
    }
}

fn check_reading(rt: &impl Abort, image: &Image, table: &Table, step: u64, live: &[bool; 8]) {
    let reading = reading_of(image, table);
    holds(rt, "step, no entry", (step, 0), reading.last.is_none());
    same(rt, reading.live, *live);
}

fn check_each_row(rt: &impl Abort, image: &Image, table: &Table, step: u64) {
    for row in 0..256 {
        check_row(rt, image, table, step, row, true);
    }
}

fn take(rt: &(impl Abort + AllocGlobal), image: &mut Image, i: u64, step: &Step) {
    match step {
        Step::Put(it) => put_one(rt, image, it),
        Step::Ask(it) => ask_one(rt, image, i, it),
    }
}

fn take_each(rt: &(impl Abort + AllocGlobal), image: &mut Image, steps: &[Step]) {
    for i in 0..steps.len() {
        take(rt, image, i as u64, &steps[i]);
    }
}

/// Takes the steps on a set that was just made.
pub(crate) fn run(rt: &(impl Abort + AllocGlobal), steps: &[Step]) {
    let mut image = made(rt);
    take_each(rt, &mut image, steps);
}
