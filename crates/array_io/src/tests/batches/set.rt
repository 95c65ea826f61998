//! Sets of both formats, made by hand, arrays over them, and logical sectors that are written. What a logical sector is
//! full of depends on its number, so that no two neighbours are alike.
ghost use Rattle.std.specs.Prelude.{◌≡◌};
ghost use Rattle.layout_map.specs.declared.format.Format.TheVariants.{Two};
ghost use Rattle.entry_runs.specs.Built.{runs_in};
ghost use Rattle.array_io.specs.Believed.ZeroRows.{MayZero};

use crate::Array;
use crate::testing::{
    Slots, all, blank_device, check_sectors, check_slots, is_out, put, same, superblock,
};
use batch::{Batch, ZeroSectors};
use entry_runs::RunsBuilder;
use layout_map::Format;
use sector_model::{Bank, Image, MemBank, Plan, Sector};
use std::process::Abort;
use stripe_journal::Entry;
use superblock::{Table, decode};

/// A set of a format: the sectors of a chunk, the stripes, and its slots.
#[derive(Clone, Copy)]
pub(crate) struct Set {
    pub format: Format,
    pub chunk: u8,
    pub stripes: u8,
    pub slots: Slots,
}

/// Logical sectors that follow one another: the first, how many, 32 at most, and the kind of what is written there.
pub(crate) type Stretch = (u64, u64, u8);

/// A set of format 1, or of format 2, with so many members, all in sync.
pub(crate) fn small(members: u8, chunk: u8, stripes: u8) -> Set {
    Set {
        format: Format::One,
        chunk,
        stripes,
        slots: in_sync(members),
    }
}

pub(crate) fn large(members: u8, chunk: u8, stripes: u8) -> Set {
    Set {
        format: Format::Two,
        chunk,
        stripes,
        slots: in_sync(members),
    }
}

// So many members and journals, all in sync.
fn in_sync(members: u8) -> Slots {
    Slots {
        members,
        odd: 0,
        state: 1,
        incarnation: 1,
        position: 0,
    }
}

/// The byte of which a logical sector is full, where what stands there is of this kind, 0 to 4. Two kinds have no byte
/// in common.
pub(crate) fn byte_at(kind: u8, logical: u64) -> u8 {
    let step = (logical % 50) as u8;
    step.wrapping_mul(5).wrapping_add(kind)
}

// The superblock of the set in the slot of this role: in format 2 its marks have the digit 2.
fn superblock_of(set: &Set, role: u8) -> Sector {
    let mut sector = superblock(1, role, &set.slots);
    sector[34] = set.chunk;
    sector[36] = set.stripes;
    if set.format == Format::Two {
        sector[7] = b'2';
        sector[504] = b'2';
    }
    sector
}

/// The set's table, of generation 1.
pub(crate) fn table_of(rt: &impl Abort, set: &Set) -> Table {
    let role = if is_out(&set.slots, 0) { 1 } else { 0 };
    let superblock = decode(&superblock_of(set, role));
    superblock.expect(rt, "it is a superblock").table
}

/// The set's devices: superblocks, and no row or entry.
pub(crate) fn made(rt: &(impl Abort + AllocGlobal), set: &Set) -> Image {
    let rows = usize::from(set.chunk).saturating_mul(usize::from(set.stripes));
    let mut slots = Vec::new(rt.alloc());
    for _ in 0..set.slots.members {
        let device = blank_device(rt, rows.saturating_add(8));
        slots.push(Some(device)).expect(rt, "memory");
    }
    let journal = if set.format == Format::Two {
        8_200
    } else {
        520
    };
    for _ in 0..2 {
        let device = blank_device(rt, journal);
        slots.push(Some(device)).expect(rt, "memory");
    }
    let mut image = Image { slots };
    for role in 0..set.slots.members.saturating_add(2) {
        if !is_out(&set.slots, role) {
            put(rt, &mut image, role as usize, 1, &superblock_of(set, role));
        }
    }
    image
}

/// A bank that begins with this image, with room for the calls of a full batch.
pub(crate) fn bank_on(rt: &(impl Abort + AllocGlobal), image: Image) -> MemBank {
    assert!(rt; matches!(image.slots.len(), 5..=10));
    let bank = MemBank::new(rt.alloc(), image, Plan::NONE, 10_000);
    bank.expect(rt, "memory")
}

/// The set as an array over this bank, before its first entry.
pub(crate) fn array_on<B: Bank>(rt: &(impl Abort + AllocGlobal), set: &Set, bank: B) -> Array<B> {
    let table = table_of(rt, set);
    check_slots(rt, &table, &bank);
    let buffer = Entry::new(rt.alloc()).expect(rt, "memory");
    Array {
        bank,
        table,
        entry: 0,
        buffer,
    }
}

// The sectors of a stretch, with what is written there.
fn sectors_of(rt: &(impl Abort + AllocGlobal), stretch: &Stretch) -> Vec<(u64, Sector)> {
    let mut sectors = Vec::new(rt.alloc());
    for i in 0..stretch.1 {
        let logical = stretch.0.wrapping_add(i);
        let sector = all(byte_at(stretch.2, logical));
        sectors.push((logical, sector)).expect(rt, "memory");
    }
    sectors
}

// Has the sectors of a stretch wait in a batch of this table's set (condition).
fn stage(rt: &(impl Abort + AllocGlobal), table: &Table, stretch: &Stretch, batch: &mut Batch)
    requires { batch.old.geometry ≡ table.now.geometry }
    ensures { batch.new.geometry ≡ table.now.geometry }
{
    let sectors = sectors_of(rt, stretch);
    check_sectors(rt, table, &sectors);
    let is_staged = batch.stage(&sectors);
    assert!(rt; is_staged);
}

/// Writes these stretches, staged one after another, by one batch, in which so many sectors wait then.
pub(crate) fn commit_batch<B: Bank>(
    rt: &(impl Abort + AllocGlobal),
    array: &mut Array<B>,
    stretches: &[Stretch],
    waiting: usize,
) {
    let mut batch = Batch::new(&array.table.geometry, rt.alloc()).expect(rt, "memory");
    for stretch in stretches {
        stage(rt, &array.table, stretch, &mut batch);
    }
    assert!(rt; batch.len() >= 1);
    same(rt, batch.len(), waiting);
    same(rt, array.commit_batch(&batch), Ok(()));
}

/// Writes 2,048 logical sectors from this one on, staged in pieces of 32, by one batch.
pub(crate) fn commit_full_batch<B: Bank>(
    rt: &(impl Abort + AllocGlobal),
    array: &mut Array<B>,
    first: u64,
    kind: u8,
) {
    let mut batch = Batch::new(&array.table.geometry, rt.alloc()).expect(rt, "memory");
    for piece in 0..64u64 {
        let stretch = (first.wrapping_add(32 * piece), 32, kind);
        stage(rt, &array.table, &stretch, &mut batch);
    }
    assert!(rt; batch.len() == 2_048);
    same(rt, array.commit_batch(&batch), Ok(()));
}

/// Writes a stretch by `commit`.
pub(crate) fn commit<B: Bank>(
    rt: &(impl Abort + AllocGlobal),
    array: &mut Array<B>,
    stretch: &Stretch,
) {
    let sectors = sectors_of(rt, stretch);
    check_sectors(rt, &array.table, &sectors);
    same(rt, array.commit(&sectors), Ok(()));
}

// The set has format 2.
fn check_large(rt: &impl Abort, table: &Table)
    ensures { table.now.geometry.format ≡ Two }
{
    match table.geometry.format {
        Format::One => panic!(rt; "a set of format 1"),
        Format::Two => {}
    }
}

// These rows may be made zero.
fn check_zeros(rt: &impl Abort, table: &Table, rows: &RunsBuilder)
    ensures { MayZero table.now (runs_in rows.now) }
{
    check_large(rt, table);
    assert!(rt; rows.count() >= 1);
    for i in 0..rows.count() {
        let row = rows.listed(i);
        assert!(rt; row.mask == 0);
        assert!(rt; u64::from(row.row) < table.geometry.rows());
    }
}

/// Makes so many rows from this one on zero, 1 at least.
pub(crate) fn commit_zeros<B: Bank>(rt: &impl Abort, array: &mut Array<B>, first: u32, count: u16) {
    let mut rows = RunsBuilder::new();
    assert!(rt; count >= 1);
    let is_pushed = rows.push_zeros(first, count);
    assert!(rt; is_pushed);
    check_zeros(rt, &array.table, &rows);
    same(rt, array.commit_zeros(&rows), Ok(()));
}

// Lists the sectors of a stretch among those of this table's set (condition).
fn list(rt: &impl Abort, table: &Table, stretch: &(u64, u32), zeros: &mut ZeroSectors)
    requires { zeros.old.geometry ≡ table.now.geometry }
    ensures { zeros.new.geometry ≡ table.now.geometry }
{
    let end = stretch.0.checked_add(u64::from(stretch.1));
    let end = end.expect(rt, "a number");
    assert!(rt; end <= table.geometry.data_sectors());
    let is_listed = zeros.add(stretch.0, stretch.1);
    assert!(rt; is_listed);
}

/// Makes the sectors of these stretches zero by one entry: the first of each, and how many.
pub(crate) fn commit_zero_sectors<B: Bank>(
    rt: &impl Abort,
    array: &mut Array<B>,
    stretches: &[(u64, u32)],
) {
    let mut zeros = ZeroSectors::new(&array.table.geometry);
    for stretch in stretches {
        list(rt, &array.table, stretch, &mut zeros);
    }
    same(rt, array.commit_zero_sectors(&zeros), Ok(()));
}
