//! Sets in memory that are committed to and crashed, for tests: what is written, what an image that a crash leaves says
//! of its rows, and which array is assembled on it.
ghost use Rattle.std.specs.Prelude.{◌↔◌, IsTrue};
ghost use Rattle.array_io.specs.Believed.ArrayCalls.{MayCommit};
ghost use Rattle.array_io.specs.Steps.FormingRows.{HasLogical};

use crate::testing::{BLANK, ID, Shape, assembled, check_missing, image_now, put_sector, same};
use array_io::Array;
use array_io::oracle::{is_row_sound_in, logical_in};
use layout_map::Geometry;
use sector_model::{Bank, Choice, Image, MemBank, Refusal, Sector};
use std::process::Abort;
use superblock::Table;
use superblock::oracle::chosen_table_in;

mod crashes;
mod device_calls;
mod entries;
mod failures;
mod forms;
mod order_of_calls;
mod replays;
mod runs;
mod without_a_slot;

/// Logical sectors, each with the byte of which it is full.
pub(crate) type List<'a> = &'a [(u64, u8)];

// Whether this logical sector is one of those given.
fn is_among(sectors: &[(u64, Sector)], logical: u64) -> bool
    ensures { IsTrue result ↔ HasLogical sectors.now logical }
{
    for sector in sectors {
        if sector.0 == logical {
            return true;
        }
    }
    false
}

// The sectors may be committed.
fn check_may_commit(rt: &impl Abort, table: &Table, sectors: &[(u64, Sector)])
    ensures { MayCommit table.now sectors.now }
{
    assert!(rt; matches!(sectors.len(), 1..=32));
    for (i, sector) in sectors.iter().enumerate() {
        assert!(rt; sector.0 < table.geometry.data_sectors());
        assert!(rt; !is_among(&sectors[..i], sector.0));
    }
}

/// What a commit of these logical sectors answers.
pub(crate) fn answer_of_commit<B: Bank>(
    rt: &(impl Abort + AllocGlobal),
    array: &mut Array<B>,
    list: List,
) -> Result<(), Refusal> {
    let mut sectors = Vec::new(rt.alloc());
    for (logical, byte) in list {
        sectors.push((*logical, [*byte; 512])).expect(rt, "memory");
    }
    check_may_commit(rt, &array.table, &sectors);
    array.commit(&sectors)
}

/// Commits these logical sectors together, as has to be answered with Ok.
pub(crate) fn commit<B: Bank>(rt: &(impl Abort + AllocGlobal), array: &mut Array<B>, list: List) {
    same(rt, answer_of_commit(rt, array, list), Ok(()));
}

/// What a read of a logical sector gives, which has to be answered with Ok.
pub(crate) fn read<B: Bank>(rt: &impl Abort, array: &mut Array<B>, logical: u64) -> Sector {
    assert!(rt; logical < array.table.geometry.data_sectors());
    // A sector of one byte it is only by the read.
    let mut sector = [0x5a; 512];
    sector[0] = 0xa5;
    same(rt, array.read(logical, &mut sector), Ok(()));
    sector
}

/// The first of these logical sectors that reads of an array do not give.
pub(crate) fn unlike(rt: &impl Abort, array: &mut Array<MemBank>, list: List) -> Option<u64> {
    for (logical, byte) in list {
        if read(rt, array, *logical) != [*byte; 512] {
            return Some(*logical);
        }
    }
    None
}

/// Asks that reads of an array give these logical sectors.
pub(crate) fn check_sectors(rt: &impl Abort, array: &mut Array<MemBank>, list: List) {
    same(rt, unlike(rt, array, list), None);
}

/// The array that is assembled on these devices: this slot is missing, where it is one of the set's, and reads give
/// these logical sectors, as they have to.
pub(crate) fn checked(
    rt: &(impl Abort + AllocGlobal),
    image: Image,
    missing: usize,
    list: List,
) -> Array<MemBank> {
    let mut array = assembled(rt, image);
    check_missing(rt, &array.table, missing);
    check_sectors(rt, &mut array, list);
    array
}

/// The table that an image chooses.
pub(crate) fn table_of(rt: &impl Abort, image: &Image) -> Table {
    chosen_table_in(image, &ID).expect(rt, "a table is chosen")
}

/// Asks that these rows of an image are sound by its table and its last entry.
pub(crate) fn check_rows(rt: &impl Abort, image: &Image, rows: &[u64]) {
    let table = table_of(rt, image);
    for row in rows {
        assert!(rt; *row < table.geometry.rows());
        same(
            rt,
            (*row, is_row_sound_in(image, &table, *row)),
            (*row, true),
        );
    }
}

/// Asks that the logical sectors of an image are these, by its table and its last entry.
pub(crate) fn check_list(rt: &impl Abort, image: &Image, list: List) {
    let table = table_of(rt, image);
    for (logical, byte) in list {
        assert!(rt; *logical < table.geometry.data_sectors());
        let mut sector = [!*byte; 512];
        logical_in(image, &table, *logical, &mut sector);
        same(rt, (*logical, sector == [*byte; 512]), (*logical, true));
    }
}

/// Asks that the members of an array say by themselves that these rows are sound and these logical sectors stand there:
/// the seals are cleared for that. The rows have to be sound before, too.
pub(crate) fn check_members(
    rt: &(impl Abort + AllocGlobal),
    bank: &MemBank,
    rows: &[u64],
    list: List,
) {
    let mut image = image_now(rt, bank, Choice::Newest);
    check_rows(rt, &image, rows);
    let first = table_of(rt, &image).geometry.members as usize;
    for slot in [first, first + 1] {
        put_sector(rt, &mut image, slot, 2, &BLANK);
        put_sector(rt, &mut image, slot, 3, &BLANK);
    }
    check_rows(rt, &image, rows);
    check_list(rt, &image, list);
}

/// The logical sectors of a set of this shape that is all zeros: one of a number stands at that place.
pub(crate) fn zeros(rt: &(impl Abort + AllocGlobal), shape: Shape) -> Vec<(u64, u8)> {
    let geometry = Geometry::new(shape.0, shape.1, shape.2).expect(rt, "a geometry");
    let mut list = Vec::new(rt.alloc());
    for logical in 0..geometry.data_sectors() {
        list.push((logical, 0)).expect(rt, "memory");
    }
    list
}

/// Puts logical sectors at their places.
pub(crate) fn put_list(rt: &impl Abort, to: &mut [(u64, u8)], list: List) {
    for (logical, byte) in list {
        assert!(rt; *logical < to.len() as u64);
        to[*logical as usize] = (*logical, *byte);
    }
}

/// Logical sectors from one on, each by this step from the one before, with bytes that differ from sector to sector.
pub(crate) fn list_of(first: u16, step: u16, salt: u8) -> [(u64, u8); 32] {
    let mut list = [(0, 0); 32];
    for i in 0..32u8 {
        let logical = first.saturating_add(step.saturating_mul(u16::from(i)));
        list[i as usize] = (u64::from(logical), salt.wrapping_add(i.wrapping_mul(7)));
    }
    list
}

/// What a commit changes: logical sectors before it and after it, in each of which they may differ, and rows to be
/// looked at.
#[derive(Clone, Copy)]
pub(crate) struct Change<'a> {
    pub old: List<'a>,
    pub new: List<'a>,
    pub rows: &'a [u64],
}

/// Whether assembling the set on these devices shows all that is new, and else all that is old, as has to be. The rows
/// of what it leaves have to be sound, and the members to show the same by themselves.
pub(crate) fn shows_new(rt: &(impl Abort + AllocGlobal), image: Image, change: Change) -> bool {
    let mut array = assembled(rt, image);
    let is_new = unlike(rt, &mut array, change.new) == None;
    let list = if is_new { change.new } else { change.old };
    check_sectors(rt, &mut array, list);
    check_members(rt, &array.bank, change.rows, list);
    is_new
}
