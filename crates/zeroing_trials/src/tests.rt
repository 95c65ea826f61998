//! Blocks of volumes that are made zero.
//!
//! Most of these sets are over devices that keep a sector of an extent as the byte of which it is full, so that they
//! are as large as the cuts of a range need them.

use crate::testing::same;
use extents::ExtentLayout;
use layout_map::{Format, Geometry};
use recovery::{assemble, make};
use sector_model::{Bank, Choice, Image, MemBank, Plan};
use std::process::Abort;
use stripe_journal::Entry;
use volume_table::Store;

mod counts;
mod crashes;
mod dirty;
mod failures;
mod format_1;
mod large_rows;
mod refusals;
mod rows;
mod sets;
mod thin;

use sets::{ID, Shape, blank, byte_of, crashed, geometry_of};
use thin::{Notes, Thin, place_of};

/// 256 rows and 28 extents of 16 blocks.
pub(crate) const EXAMPLE: Shape = (Format::Two, 3, 8, 32);

/// 1,600 rows and 197 extents of 24 blocks.
pub(crate) const OF_FOUR: Shape = (Format::Two, 4, 8, 200);

/// 16,768 rows and 130 extents of 512 blocks, which are stripes 1 to 130: so they are in larger sets, too, where an
/// extent is more stripes.
pub(crate) const OF_FIVE: Shape = (Format::Two, 5, 128, 131);

/// A store over a set whose devices keep little.
pub(crate) type ThinStore = Store<Thin<MemBank>>;

/// Rows as a seal spells them: the first row, how many there are, and the mask of the members that the entry holds, 0
/// where the rows are zero.
pub(crate) type Run = (u64, u16, u8);

// How many sectors of a member come before those of the first extent.
fn head_of(geometry: &Geometry) -> usize {
    let extents = ExtentLayout::of(geometry);
    let data = u64::from(geometry.members).saturating_sub(1).max(1);
    (extents.first / data).saturating_add(8) as usize
}

// A bank whose devices begin with these sectors, have so many, and go on with these bytes.
fn thin_bank(
    rt: &(impl Abort + AllocGlobal),
    heads: Image,
    (size, bytes): (u32, Vec<u8>),
    plan: Plan,
) -> Thin<MemBank> {
    assert!(rt; heads.slots.len() >= 5 && heads.slots.len() <= 10);
    let journal = heads.slots.len() as u8 - 2;
    let bank = MemBank::new(rt.alloc(), heads, plan, 40_000).expect(rt, "memory");
    Thin {
        bank,
        size,
        bytes,
        notes: Notes::new(rt, journal),
    }
}

/// A store over a set of this shape that was just made.
pub(crate) fn new_set(rt: &(impl Abort + AllocGlobal), shape: Shape) -> ThinStore {
    let geometry = geometry_of(rt, shape);
    let heads = blank(rt, &geometry, head_of(&geometry));
    let size = (geometry.rows() as u32).saturating_add(8).max(8_200);
    let places = (size as usize).saturating_mul(heads.slots.len());
    let bytes = vec![in rt.alloc(); 0; places].expect(rt, "memory");
    let bank = thin_bank(rt, heads, (size, bytes), Plan::NONE);
    let entry = Entry::new(rt.alloc()).expect(rt, "memory");
    let array = make(bank, entry, ID, geometry);
    let array = array.ok().expect(rt, "the set is made");
    Store::open(array).ok().expect(rt, "the store is opened")
}

/// The store of a run that begins after this one, on the devices as they are, but without what was not flushed of the
/// sectors before the extents. Its devices go down as a plan says.
pub(crate) fn later(
    rt: &(impl Abort + AllocGlobal),
    bank: &Thin<MemBank>,
    plan: Plan,
) -> ThinStore {
    let heads = crashed(rt, &bank.bank, bank.now(), Choice::Oldest);
    let bytes = Vec::from_slice(rt.alloc(), &bank.bytes).expect(rt, "memory");
    let bank = thin_bank(rt, heads, (bank.size, bytes), plan);
    let entry = Entry::new(rt.alloc()).expect(rt, "memory");
    let array = assemble(bank, entry, ID);
    let array = array.ok().expect(rt, "the set is assembled");
    Store::open(array).ok().expect(rt, "the store is opened")
}

/// A byte for each member of a set with so many, none of which is zero. Their sum is, so that rows are sound whose
/// sectors are full of them.
pub(crate) fn member_byte(members: u8, member: u8) -> u8 {
    if member.saturating_add(1) < members {
        1u8.wrapping_shl(u32::from(member))
    } else {
        1u8.wrapping_shl(u32::from(members.saturating_sub(1)))
            .wrapping_sub(1)
    }
}

/// The devices of a store, with the members' sectors of the extents full of their bytes, as far as those of so many
/// blocks, which are whole stripes.
pub(crate) fn filled(rt: &impl Abort, store: ThinStore, blocks: u32) -> Thin<MemBank> {
    let geometry = store.array.table.geometry;
    let head = head_of(&geometry);
    let rows = blocks / u32::from(geometry.members.max(2) - 1);
    let mut bank = store.into_bank();
    for member in 0..geometry.members {
        let from = place_of(bank.size, member, 0).saturating_add(head);
        let to = from.saturating_add(rows as usize);
        let byte = member_byte(geometry.members, member);
        fill_places(rt, &mut bank.bytes, (from, to), byte);
    }
    bank
}

fn fill_places(rt: &impl Abort, bytes: &mut [u8], (from, to): (usize, usize), byte: u8) {
    assert!(rt; from <= to && to <= bytes.len());
    bytes[from..to].fill(byte);
}

/// The row of a member, of those from one up to another, from which on its sectors are as they were filled, where those
/// before it are zero.
pub(crate) fn end_of_zeros(
    rt: &impl Abort,
    store: &ThinStore,
    member: u8,
    (first, rows): (u32, u32),
) -> Option<u32> {
    let filler = member_byte(store.array.table.geometry.members, member);
    let mut end = None;
    for row in first..rows {
        let byte = store.array.bank.byte(member, row.saturating_add(8));
        if byte == 0 {
            assert!(rt; end.is_none());
        } else {
            same(rt, byte, filler);
            end = end.or(Some(row));
        }
    }
    end
}

/// The bytes of blocks of a volume from one on, so many, each of which is full of one.
pub(crate) fn bytes_from<B: Bank>(
    rt: &(impl Abort + AllocGlobal),
    store: &mut Store<B>,
    name: &[u8],
    first: u32,
    count: u32,
) -> Vec<u8> {
    let mut bytes = Vec::new(rt.alloc());
    for number in 0..count.saturating_add(31) / 32 {
        let mut blocks = [[0xee; 512]; 32];
        let before = number.saturating_mul(32);
        let some = count.saturating_sub(before).min(32) as usize;
        let at = first.saturating_add(before);
        same(rt, store.read(name, at, &mut blocks[..some]), Ok(()));
        for block in &blocks[..some] {
            let byte = byte_of(block).expect(rt, "a block is full of one byte");
            bytes.push(byte).expect(rt, "memory");
        }
    }
    bytes
}

/// The bytes of the first blocks of a volume, so many, each of which is full of one.
pub(crate) fn bytes_of<B: Bank>(
    rt: &(impl Abort + AllocGlobal),
    store: &mut Store<B>,
    name: &[u8],
    count: u32,
) -> Vec<u8> {
    bytes_from(rt, store, name, 0, count)
}
