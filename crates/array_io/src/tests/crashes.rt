//! The images that crashes in the middle of device calls may leave, each of them also without a slot, and what they
//! have to be: what is asked of each is what a case that holds asks, in some rows and logical sectors.
use crate::oracle::{is_live_at, is_row_sound_in, logical_in};
use crate::testing::{BLANK, ID, all, put};
use sector_model::{Bank, Choice, Image, MemBank, Sector};
use std::process::Abort;
use stripe_journal::Seal;
use stripe_journal::oracle::last_sealed_in;
use superblock::oracle::{chosen_table_in, counted_in, own_incarnation_in};
use superblock::{State, Table};

const CHOICES: [Choice; 3] = [Choice::Oldest, Choice::Newest, Choice::Mixed(3)];

/// Logical sectors, each with the byte of which it is full.
type List = &'static [(u64, u8)];

// The logical sectors before a commit: 64 is on member 2 in row 32, beside 72 on member 0.
const OLD: List = &[(0, 0), (64, 0x11), (65, 0x77), (72, 0x05), (511, 0)];

// The logical sectors after it.
const NEW: List = &[(0, 0), (64, 0x22), (65, 0x77), (72, 0x05), (511, 0)];

// The rows that are looked at: the one that is committed, that of the entry before, and two others.
const ROWS: &[u64] = &[0, 32, 33, 255];

// Every seventeenth logical sector of rows 0 to 63: eight are in a chunk, and two chunks in a stripe. On member 1 the
// bytes of the rows count from 01, on member 2 from 80, and on member 0 each is the XOR of the two.
const REBUILT: List = &[
    (0, 0x81),
    (17, 0x89),
    (34, 0x13),
    (51, 0x87),
    (68, 0xa4),
    (85, 0x2e),
    (102, 0x81),
    (119, 0xbf),
];

const ROWS_REBUILT: &[u64] = &[0, 27, 63, 200];

/// What the logical sectors of images are: those before a commit, those after it, either, or those of a rebuild.
pub(crate) enum Logical {
    Old,
    New,
    Either,
    Rebuilt,
}

/// What is asked of images, whole and without any one of the slots of which `out` is true: that some rows are sound,
/// and that their logical sectors are these.
pub(crate) struct Wanted {
    pub out: [bool; 5],
    pub logical: Logical,
}

/// Where no slot is lost, any one may be.
pub(crate) const ANY: [bool; 5] = [true; 5];

/// The image that a crash after so many calls may leave.
pub(crate) fn image_at(
    rt: &(impl Abort + AllocGlobal),
    bank: &MemBank,
    call: u64,
    choice: Choice,
) -> Image {
    assert!(rt; call <= bank.now());
    let image = bank.image_after(rt.alloc(), call, choice);
    image.expect(rt, "memory")
}

/// The number of calls of the first crash that may leave a case which is not as wanted. `None` where there is no such
/// crash.
pub(crate) fn first_bad_crash(
    rt: &(impl Abort + AllocGlobal),
    bank: &MemBank,
    wanted: &Wanted,
) -> Option<u64> {
    for call in 0..=bank.now() {
        if !crash_holds(rt, bank, call, wanted) {
            return Some(call);
        }
    }
    None
}

/// Whether each case that a crash after so many calls may leave is as wanted.
pub(crate) fn crash_holds(
    rt: &(impl Abort + AllocGlobal),
    bank: &MemBank,
    call: u64,
    wanted: &Wanted,
) -> bool {
    for choice in CHOICES {
        if !case_holds(rt, image_at(rt, bank, call, choice), wanted) {
            return false;
        }
    }
    true
}

/// Whether the members alone show what is wanted once all calls are done: no seal counts.
pub(crate) fn members_hold(
    rt: &(impl Abort + AllocGlobal),
    bank: &MemBank,
    wanted: &Wanted,
) -> bool {
    let mut image = image_at(rt, bank, bank.now(), Choice::Newest);
    for (slot, at) in [(3, 2), (3, 3), (4, 2), (4, 3)] {
        put(rt, &mut image, slot, at, &BLANK);
    }
    case_holds(rt, image, wanted)
}

// Whether an image, and it without any one of the slots that may be out, are as wanted by one table.
fn case_holds(rt: &impl Abort, mut image: Image, wanted: &Wanted) -> bool {
    let Some(table) = chosen_table_in(&image, &ID) else {
        return false;
    };
    if !is_as_wanted(rt, &image, &table, wanted) {
        return false;
    }
    for slot in 0..5 {
        if wanted.out[slot] && !is_as_wanted_without(rt, &mut image, slot, &table, wanted) {
            return false;
        }
    }
    true
}

// Whether an image without this slot is as wanted. The slot is put back.
fn is_as_wanted_without(
    rt: &impl Abort,
    image: &mut Image,
    slot: usize,
    table: &Table,
    wanted: &Wanted,
) -> bool {
    assert!(rt; slot < image.slots.len());
    let content = image.slots[slot].take();
    let is_met = is_as_wanted(rt, image, table, wanted);
    image.slots[slot] = content;
    is_met
}

// Whether an image chooses this table and is as wanted by it.
fn is_as_wanted(rt: &impl Abort, image: &Image, table: &Table, wanted: &Wanted) -> bool {
    chosen_table_in(image, &ID) == Some(*table)
        && has_one_out_at_most(image, table)
        && have_no_later_device(image, table)
        && are_in_step(image, table)
        && has_logical(rt, image, table, &wanted.logical)
}

// Whether one slot at most is not live and in sync.
fn has_one_out_at_most(image: &Image, table: &Table) -> bool {
    let mut is_one_out = false;
    for slot in 0..image.slots.len() {
        let is_in_sync = slot < 10 && table.states[slot] == State::InSync;
        if !is_in_sync || !is_live_at(image, table, slot) {
            if is_one_out {
                return false;
            }
            is_one_out = true;
        }
    }
    true
}

// Whether no device has an incarnation of its slot above the table's, and those with the table's generation have the
// table.
fn have_no_later_device(image: &Image, table: &Table) -> bool {
    let devices = image.slots.len();
    for slot in 0..devices {
        let content = &image.slots[slot];
        if let Some(own) = own_incarnation_in(content, &ID, devices, slot) {
            if slot >= 10 || own > table.incarnations[slot] {
                return false;
            }
        }
        let place = (table.generation % 2) as u8;
        if let Some(superblock) = counted_in(content, &ID, devices, slot, place) {
            if superblock.table.generation == table.generation && superblock.table != *table {
                return false;
            }
        }
    }
    true
}

// Whether the last entries of two live journals are the same, or one is the next after the other.
fn are_in_step(image: &Image, table: &Table) -> bool {
    if image.slots.len() != 5 {
        return false;
    }
    if !is_live_at(image, table, 3) || !is_live_at(image, table, 4) {
        return true;
    }
    let lower = last_sealed_in(&image.slots[3], &ID, &table.geometry);
    let upper = last_sealed_in(&image.slots[4], &ID, &table.geometry);
    let (first, second) = (number_of(&lower), number_of(&upper));
    if first != second {
        return first.max(second) - first.min(second) == 1;
    }
    match &lower {
        Some(seal) => have_equal_entries(image, seal),
        None => true,
    }
}

// The number of an entry, 0 for none.
fn number_of(seal: &Option<Seal>) -> u64 {
    match seal {
        Some(seal) => seal.number,
        None => 0,
    }
}

// Whether the journals have the same seal and body where this seal stands on one of them.
fn have_equal_entries(image: &Image, seal: &Seal) -> bool {
    let half = (seal.number % 2) as usize;
    if sector_in(image, 3, 2 + half) != sector_in(image, 4, 2 + half) {
        return false;
    }
    for i in 0..3 * seal.form.rows().len() {
        let at = 8 + 256 * half + i;
        if sector_in(image, 3, at) != sector_in(image, 4, at) {
            return false;
        }
    }
    true
}

// A sector of what stands in a slot.
fn sector_in(image: &Image, slot: usize, at: usize) -> Option<Sector> {
    match image.slots.get(slot) {
        Some(Some(disk)) => disk.get(at).copied(),
        _ => None,
    }
}

// Whether these rows are sound.
fn are_sound(rt: &impl Abort, image: &Image, table: &Table, rows: &[u64]) -> bool {
    for row in rows {
        assert!(rt; *row < table.geometry.rows());
        if !is_row_sound_in(image, table, *row) {
            return false;
        }
    }
    true
}

// Whether the rows that are looked at are sound, and the logical sectors are these.
fn has_logical(rt: &impl Abort, image: &Image, table: &Table, logical: &Logical) -> bool {
    let rows = match logical {
        Logical::Rebuilt => ROWS_REBUILT,
        _ => ROWS,
    };
    are_sound(rt, image, table, rows)
        && match logical {
            Logical::Old => has_list(rt, image, table, OLD),
            Logical::New => has_list(rt, image, table, NEW),
            Logical::Either => has_list(rt, image, table, OLD) || has_list(rt, image, table, NEW),
            Logical::Rebuilt => has_list(rt, image, table, REBUILT),
        }
}

// Whether the logical sectors of the image are those of the list.
fn has_list(rt: &impl Abort, image: &Image, table: &Table, list: &[(u64, u8)]) -> bool {
    for (logical, byte) in list {
        assert!(rt; *logical < table.geometry.data_sectors());
        let mut sector = all(!*byte);
        logical_in(image, table, *logical, &mut sector);
        if sector != all(*byte) {
            return false;
        }
    }
    true
}
