//! The steps that are taken before a batch, and what a store then shows: by what it reads, and by the definitions.
ghost use Rattle.std.specs.Prelude.{◌≡◌};

use super::sets::{ID, Shape, TestStore, blocks_of, fresh_store, image_now, next_run};
use crate::testing::{all, same};
use array_io::oracle::logical_in;
use extents::ExtentLayout;
use scrub::ScrubReport;
use sector_model::{MemBank, Sector};
use std::process::Abort;
use superblock::State;
use superblock::oracle::chosen_table_in;
use volume_table::Listed;
use volume_table::oracle::{block_shown, blocks_in_volume, table_shown};

/// A volume: its name, and for each of its blocks the byte of which that is full.
pub(crate) type Volume<'a> = (&'a [u8], &'a [u8]);

/// Volumes, in rising order of names.
pub(crate) type Volumes<'a> = &'a [Volume<'a>];

/// A call of a store, which is done. The blocks that are written are each full of one byte.
#[derive(Clone, Copy)]
pub(crate) enum Step<'a> {
    Create(&'a [u8], u32),
    Extend(&'a [u8], u32),
    Write(&'a [u8], u32, &'a [u8]),
    Fail(u8),
    Replace(u8),
}

// Takes a step. What fails is named by its number.
fn take_step(rt: &(impl Abort + AllocGlobal), store: &mut TestStore, number: usize, step: Step) {
    let got = match step {
        Step::Create(name, blocks) => store.create(name, blocks),
        Step::Extend(name, by) => store.extend(name, by),
        Step::Write(name, at, bytes) => store.write(name, at, &blocks_of(rt, bytes)),
        Step::Fail(slot) => store.fail(slot),
        Step::Replace(slot) => store.replace(slot),
    };
    same(rt, (number, got), (number, Ok(())));
}

/// Takes these steps on a store, one after another.
pub(crate) fn take(rt: &(impl Abort + AllocGlobal), store: &mut TestStore, steps: &[Step]) {
    for number in 0..steps.len() {
        take_step(rt, store, number, steps[number]);
    }
}

/// A store over a set of this shape on which these steps were taken, in a run that began after that.
pub(crate) fn opened_after(
    rt: &(impl Abort + AllocGlobal),
    shape: Shape,
    steps: &[Step],
) -> TestStore {
    let mut store = fresh_store(rt, shape);
    take(rt, &mut store, steps);
    next_run(rt, store.bank())
}

/// Asks that a slot has this state and this incarnation.
pub(crate) fn check_state(
    rt: &impl Abort,
    store: &TestStore,
    slot: usize,
    state: State,
    incarnation: u64,
) {
    assert!(rt; slot < 10);
    let table = &store.array.table;
    let got = (table.states[slot], table.incarnations[slot]);
    same(rt, (slot, got), (slot, (state, incarnation)));
}

/// Asks that a scrub looks at so many rows, and finds none of them bad.
pub(crate) fn check_sound(rt: &impl Abort, store: &mut TestStore, rows: u64) {
    let sound = ScrubReport {
        rows,
        bad: 0,
        first_bad: None,
    };
    same(rt, store.scrub(), Ok(sound));
}

// Whether these volumes are listed, with so many blocks as there are bytes, and no other.
fn is_list(listed: &[Listed], volumes: Volumes) -> bool {
    if listed.len() != volumes.len() {
        return false;
    }
    for at in 0..listed.len() {
        let (name, bytes) = volumes[at];
        if listed[at].name.bytes() != name || listed[at].blocks as usize != bytes.len() {
            return false;
        }
    }
    true
}

// Whether a block of a volume is full of this byte. It has to be read.
fn is_read(rt: &impl Abort, store: &mut TestStore, name: &[u8], at: u32, byte: u8) -> bool
    ensures volumes { store.new.table ≡ store.old.table }
    ensures set { store.new.array.table.geometry ≡ store.old.array.table.geometry }
{
    let mut block = [all(!byte)];
    same(rt, store.read(name, at, &mut block), Ok(()));
    block[0] == all(byte)
}

// The first block of a volume that is not read as full of its byte. Each has to be read.
fn unlike_block(rt: &impl Abort, store: &mut TestStore, name: &[u8], bytes: &[u8]) -> Option<u32>
    ensures volumes { store.new.table ≡ store.old.table }
    ensures set { store.new.array.table.geometry ≡ store.old.array.table.geometry }
{
    let mut at = 0u32;
    for byte in bytes {
        if !is_read(rt, store, name, at, *byte) {
            return Some(at);
        }
        at = at.wrapping_add(1);
    }
    None
}

/// Where a store shows other volumes than these: the place of a volume, and the number of a block of it; after the last
/// volume where it lists others.
pub(crate) fn unlike(
    rt: &(impl Abort + AllocGlobal),
    store: &mut TestStore,
    volumes: Volumes,
) -> Option<(usize, u32)> {
    let listed = store.list(rt.alloc()).expect(rt, "volumes are listed");
    if !is_list(&listed, volumes) {
        return Some((volumes.len(), 0));
    }
    unlike_volume(rt, store, volumes)
}

/// The first block of one of these volumes that is not read as full of its byte, and the place of the volume.
pub(crate) fn unlike_volume(
    rt: &impl Abort,
    store: &mut TestStore,
    volumes: Volumes,
) -> Option<(usize, u32)>
    ensures volumes { store.new.table ≡ store.old.table }
    ensures set { store.new.array.table.geometry ≡ store.old.array.table.geometry }
{
    for at in 0..volumes.len() {
        let (name, bytes) = volumes[at];
        if let Some(block) = unlike_block(rt, store, name, bytes) {
            return Some((at, block));
        }
    }
    None
}

/// Asks that a store lists these volumes and no other, and reads their blocks so. What fails is named by a number.
pub(crate) fn check_holds(
    rt: &(impl Abort + AllocGlobal),
    store: &mut TestStore,
    number: usize,
    volumes: Volumes,
) {
    same(rt, (number, unlike(rt, store, volumes)), (number, None));
}

// The logical list of the set on a bank, by its table and its last entry, and where its extents lie.
fn logical_list(rt: &(impl Abort + AllocGlobal), bank: &MemBank) -> (Vec<Sector>, ExtentLayout) {
    let image = image_now(rt, bank);
    let table = chosen_table_in(&image, &ID).expect(rt, "a table is chosen");
    let mut sectors = Vec::new(rt.alloc());
    for logical in 0..table.geometry.data_sectors() {
        let mut sector = all(0xee);
        logical_in(&image, &table, logical, &mut sector);
        sectors.push(sector).expect(rt, "memory");
    }
    (sectors, ExtentLayout::of(&table.geometry))
}

// How many volumes a logical list shows.
fn count_shown(rt: &impl Abort, sectors: &[Sector], extents: &ExtentLayout) -> usize {
    let table = table_shown(sectors, extents).expect(rt, "a table is shown");
    let mut count = 0usize;
    for record in &table.records {
        if record.is_some() {
            count = count.saturating_add(1);
        }
    }
    count
}

// The first block of a volume that a logical list does not show as full of its byte.
fn unlike_shown(
    sectors: &[Sector],
    extents: &ExtentLayout,
    name: &[u8],
    bytes: &[u8],
) -> Option<u32> {
    let mut at = 0u32;
    for byte in bytes {
        if block_shown(sectors, extents, name, at) != Some(all(*byte)) {
            return Some(at);
        }
        at = at.wrapping_add(1);
    }
    None
}

/// Asks that the logical list of the set on a bank shows these volumes and no other, by the definitions.
pub(crate) fn check_shown(rt: &(impl Abort + AllocGlobal), bank: &MemBank, volumes: Volumes) {
    let (sectors, extents) = logical_list(rt, bank);
    let count = count_shown(rt, &sectors, &extents);
    same(rt, count, volumes.len());
    for (name, bytes) in volumes {
        let blocks = blocks_in_volume(&sectors, &extents, name).expect(rt, "a volume is shown");
        same(rt, blocks as usize, bytes.len());
        let unlike = unlike_shown(&sectors, &extents, name, bytes);
        same(rt, unlike, None);
    }
}
