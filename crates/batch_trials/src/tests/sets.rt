//! Stores over sets in memory: sets that are made, crashed and assembled again, and stores that were ended.
ghost use Rattle.std.specs.Prelude.{◌≡◌};

use crate::testing::{all, same};
use array_io::Array;
use layout_map::{Format, Geometry};
use recovery::{assemble, make};
use sector_model::{Bank, Choice, Image, MemBank, Plan, Refusal, Sector};
use std::mem;
use std::process::Abort;
use stripe_journal::Entry;
use superblock::State;
use volume_table::Store;

/// The id of each set.
pub(crate) const ID: [u8; 16] = [0, 1, 2, 3, 4, 5, 6, 7, 8, 9, 10, 11, 12, 13, 14, 15];

/// A store over devices in memory.
pub(crate) type TestStore = Store<MemBank>;

/// Format, members, chunk and stripes.
pub(crate) type Shape = (Format, u8, u16, u32);

/// 96 rows, 192 data sectors and 2 extents of 64 blocks.
pub(crate) const SMALL: Shape = (Format::One, 3, 8, 12);

/// No slot of these sets, which have five or seven.
pub(crate) const NO_SLOT: usize = 10;

/// Sectors that are full of these bytes, each of one.
pub(crate) fn blocks_of(rt: &(impl Abort + AllocGlobal), bytes: &[u8]) -> Vec<Sector> {
    let mut blocks = Vec::new(rt.alloc());
    for byte in bytes {
        blocks.push(all(*byte)).expect(rt, "memory");
    }
    blocks
}

/// The geometry of a set of this shape.
pub(crate) fn geometry_of(rt: &impl Abort, shape: Shape) -> Geometry {
    let (format, members, chunk, stripes) = shape;
    let geometry = Geometry::of_format(format, members, chunk, stripes);
    geometry.expect(rt, "a shape")
}

// Blank devices for a set: members with so many sectors, and two journals.
fn blank(rt: &(impl Abort + AllocGlobal), geometry: &Geometry, sectors: usize) -> Image {
    let mut slots = Vec::new(rt.alloc());
    let journal = geometry.format.journal_sectors() as usize;
    for slot in 0..geometry.members.saturating_add(2) {
        let sectors = if slot < geometry.members {
            sectors
        } else {
            journal
        };
        let disk = vec![in rt.alloc(); [0; 512]; sectors].expect(rt, "memory");
        slots.push(Some(disk)).expect(rt, "memory");
    }
    Image { slots }
}

/// A bank with these devices, of which none goes down.
pub(crate) fn bank_of(rt: &(impl Abort + AllocGlobal), image: Image) -> MemBank {
    assert!(rt; image.slots.len() >= 5 && image.slots.len() <= 10);
    MemBank::new(rt.alloc(), image, Plan::NONE, 40_000).expect(rt, "memory")
}

/// A store over this set.
pub(crate) fn opened(rt: &impl Abort, array: Array<MemBank>) -> TestStore {
    Store::open(array).ok().expect(rt, "the store is opened")
}

/// A store over a set of this shape that was just made.
pub(crate) fn fresh_store(rt: &(impl Abort + AllocGlobal), shape: Shape) -> TestStore {
    let geometry = geometry_of(rt, shape);
    let sectors = (geometry.rows() as usize).saturating_add(8);
    let bank = bank_of(rt, blank(rt, &geometry, sectors));
    let entry = Entry::new(rt.alloc()).expect(rt, "memory");
    let array = make(bank, entry, ID, geometry);
    opened(rt, array.ok().expect(rt, "the set is made"))
}

/// The set that is assembled on these devices.
pub(crate) fn assembled(rt: &(impl Abort + AllocGlobal), image: Image) -> Array<MemBank> {
    let bank = bank_of(rt, image);
    let entry = Entry::new(rt.alloc()).expect(rt, "memory");
    let array = assemble(bank, entry, ID);
    array.ok().expect(rt, "the set is assembled")
}

/// The devices at a crash after so many calls.
pub(crate) fn crashed(
    rt: &(impl Abort + AllocGlobal),
    bank: &MemBank,
    call: u64,
    choice: Choice,
) -> Image {
    assert!(rt; call <= bank.now());
    let image = bank.image_after(rt.alloc(), call, choice);
    image.expect(rt, "memory")
}

/// The devices at a crash now, where all that was written has landed.
pub(crate) fn image_now(rt: &(impl Abort + AllocGlobal), bank: &MemBank) -> Image {
    crashed(rt, bank, bank.now(), Choice::Newest)
}

/// A store over the set that is assembled after a crash, with a slot absent if it is one of the set's.
pub(crate) fn again(
    rt: &(impl Abort + AllocGlobal),
    bank: &MemBank,
    call: u64,
    choice: Choice,
    absent: usize,
) -> TestStore {
    let mut image = crashed(rt, bank, call, choice);
    if absent < image.slots.len() {
        let _ = mem::replace(&mut image.slots[absent], None);
    }
    opened(rt, assembled(rt, image))
}

/// The store of a run that begins after this one.
pub(crate) fn next_run(rt: &(impl Abort + AllocGlobal), bank: &MemBank) -> TestStore {
    again(rt, bank, bank.now(), Choice::Newest, NO_SLOT)
}

/// From now on these slots go down at their first call after so many, and no other.
pub(crate) fn fail_devices(rt: &impl Abort, store: &mut TestStore, slots: &[u8], after: u64)
    ensures volumes { store.new.table ≡ store.old.table }
    ensures set { store.new.array.table ≡ store.old.array.table }
{
    let call = store.array.bank.now().saturating_add(after);
    let mut plan = Plan::NONE;
    for slot in slots {
        assert!(rt; *slot < 10);
        plan.down[*slot as usize] = Some(call);
    }
    store.array.bank.plan = plan;
}

/// Asks that this slot of a store's set is missing and each other one in sync, all of them where it is none of the
/// set's.
pub(crate) fn check_missing(rt: &impl Abort, store: &TestStore, number: u64, missing: usize) {
    for slot in 0..store.array.table.geometry.members as usize + 2 {
        let state = if slot == missing {
            State::Missing
        } else {
            State::InSync
        };
        let got = store.array.table.states[slot];
        same(rt, (number, slot, got), (number, slot, state));
    }
}

// Asks that a store refuses so to change its volumes, also where it would refuse that before it does anything.
fn check_no_volumes(rt: &impl Abort, store: &mut TestStore, refusal: Refusal) {
    let answers = [
        store.create(b"c", 1),
        store.create(b"C", 0),
        store.extend(b"a", 1),
        store.extend(b"c", 1),
    ];
    same(rt, answers, [Err(refusal); 4]);
}

fn check_no_names(rt: &impl Abort, store: &mut TestStore, refusal: Refusal) {
    let answers = [
        store.remove(b"a"),
        store.remove(b"c"),
        store.rename(b"a", b"c"),
        store.rename(b"c", b"C"),
    ];
    same(rt, answers, [Err(refusal); 4]);
}

fn check_no_slots(rt: &impl Abort, store: &mut TestStore, refusal: Refusal) {
    let answers = [
        store.fail(0),
        store.fail(9),
        store.replace(0),
        store.replace(9),
    ];
    same(rt, answers, [Err(refusal); 4]);
}

fn check_no_rows(rt: &impl Abort, store: &mut TestStore, refusal: Refusal) {
    same(rt, store.rebuild_step(64).err(), Some(refusal));
    same(rt, store.scrub().err(), Some(refusal));
    same(rt, store.upgrade().err(), Some(refusal));
}

fn check_no_blocks(rt: &(impl Abort + AllocGlobal), store: &mut TestStore, refusal: Refusal) {
    let answers = [
        store.write(b"a", 0, &[all(0x11)]),
        store.read(b"a", 0, &mut [all(0x5c)]),
        store.read(b"c", 9, &mut []),
    ];
    same(rt, answers, [Err(refusal); 3]);
    same(rt, store.list(rt.alloc()).err(), Some(refusal));
}

/// Checks that a store answers this refusal to every call, and makes no device call.
pub(crate) fn check_ended(
    rt: &(impl Abort + AllocGlobal),
    store: &mut TestStore,
    refusal: Refusal,
) {
    let before = store.bank().now();
    check_no_volumes(rt, store, refusal);
    check_no_names(rt, store, refusal);
    check_no_slots(rt, store, refusal);
    check_no_rows(rt, store, refusal);
    check_no_blocks(rt, store, refusal);
    same(rt, store.status().err(), Some(refusal));
    same(rt, store.bank().now(), before);
}
