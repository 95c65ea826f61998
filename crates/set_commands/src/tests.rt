//! Commands and scripts over sets in memory.
use crate::run_script;
use crate::testing::streams::{Full, Script, WHOLE};
use crate::testing::{ID, joined, same};
use layout_map::Geometry;
use recovery::make;
use sector_model::{Bank, Choice, Image, MemBank, Plan, Refusal};
use std::process::Abort;
use stripe_journal::Entry;
use volume_table::Store;

mod calls;
mod commands;
mod crashes;
mod faults;
mod lines;
mod many;
mod progress_banks;
mod renames;
mod rows;
mod whole_again;

/// The stripes of set A: 3 members, chunk 8, 256 rows, 512 data sectors and 7 extents.
const SET_A: u32 = 32;

/// The status of set A with a volume of one extent, once slot 2 is missing.
const MEMBER_DOWN: &str = "\
set 000102030405060708090a0b0c0d0e0f
members 3 chunk 8 stripes 32 rows 256
generation 2 position 0 left 0
extents 7 free 6 volumes 1 table 1
 0 member   in-sync    1
 1 member   in-sync    1
 2 member   missing    1
 3 journal  in-sync    1
 4 journal  in-sync    1
";

/// The same while slot 2 is rebuilding, of which no row is done.
const REBUILDING: &str = "\
set 000102030405060708090a0b0c0d0e0f
members 3 chunk 8 stripes 32 rows 256
generation 3 position 0 left 4
extents 7 free 6 volumes 1 table 1
 0 member   in-sync    1
 1 member   in-sync    1
 2 member   rebuilding 2
 3 journal  in-sync    1
 4 journal  in-sync    1
";

/// A bank with these devices, of which none goes down, and a place for entries.
fn bank_of(rt: &(impl Abort + AllocGlobal), image: Image) -> (MemBank, Entry) {
    assert!(rt; image.slots.len() >= 5 && image.slots.len() <= 10);
    let bank = MemBank::new(rt.alloc(), image, Plan::NONE, 8_000).expect(rt, "memory");
    (bank, Entry::new(rt.alloc()).expect(rt, "memory"))
}

/// A store over a set of 3 members, chunk 8 and so many stripes that was just made.
fn fresh_store(rt: &(impl Abort + AllocGlobal), stripes: u32) -> Store<MemBank> {
    fresh_store_of(rt, ID, stripes)
}

/// The same with this id.
fn fresh_store_of(rt: &(impl Abort + AllocGlobal), id: [u8; 16], stripes: u32) -> Store<MemBank> {
    let geometry = Geometry::new(3, 8, stripes).expect(rt, "a geometry");
    fresh_store_on(rt, id, geometry)
}

/// The same of this geometry, of 3 members.
fn fresh_store_on(
    rt: &(impl Abort + AllocGlobal),
    id: [u8; 16],
    geometry: Geometry,
) -> Store<MemBank> {
    let member = geometry.rows() as usize + 8;
    let journal = geometry.format.journal_sectors() as usize;
    let mut slots = Vec::new(rt.alloc());
    for sectors in [member, member, member, journal, journal] {
        let disk = vec![in rt.alloc(); [0; 512]; sectors].expect(rt, "memory");
        slots.push(Some(disk)).expect(rt, "memory");
    }
    let (bank, entry) = bank_of(rt, Image { slots });
    let array = make(bank, entry, id, geometry).ok().expect(rt, "a set");
    Store::open(array).ok().expect(rt, "a store")
}

/// Runs a script whose reader and writer fail after so many bytes: how it has to end, how many of its bytes have to
/// be left, and what it has to be answered with.
fn served(
    rt: &(impl Abort + AllocGlobal),
    store: &mut Store<MemBank>,
    script: &[u8],
    read: usize,
    room: usize,
    end: Result<(), Refusal>,
    left: usize,
    text: &[u8],
) {
    let mut reader = Script::new(script, read);
    let mut out = Full {
        text: Vec::new(rt.alloc()),
        room,
    };
    let done = run_script(rt.alloc(), &mut reader, &mut out, store);
    let case = (script, read, room);
    same(
        rt,
        (case, done, reader.text.len(), out.text.as_slice()),
        (case, end, left, text),
    );
}

/// Runs a script, which has to be read to its end and answered with this text.
fn answers(
    rt: &(impl Abort + AllocGlobal),
    store: &mut Store<MemBank>,
    script: &[u8],
    text: &[u8],
) {
    served(rt, store, script, WHOLE, WHOLE, Ok(()), 0, text);
}

/// A script over fresh set A has to be answered with this text.
fn writes(rt: &(impl Abort + AllocGlobal), script: &[u8], text: &[u8]) {
    answers(rt, &mut fresh_store(rt, SET_A), script, text);
}

/// The same, where the script and the text are of these parts, each so many times.
fn writes_joined(
    rt: &(impl Abort + AllocGlobal),
    script: &[(&[u8], usize)],
    text: &[(&[u8], usize)],
) {
    writes(rt, &joined(rt, script), &joined(rt, text));
}

/// A script, what it has to be answered with, and how many of its bytes are left where a line ended the store with
/// `TwoLost`.
type Row = (&'static [u8], &'static [u8], Option<usize>);

/// Runs these scripts one after another over a store.
fn plays(rt: &(impl Abort + AllocGlobal), store: &mut Store<MemBank>, rows: &[Row]) {
    for (script, text, left) in rows {
        let (end, left) = match left {
            None => (Ok(()), 0),
            Some(left) => (Err(Refusal::TwoLost), *left),
        };
        served(rt, store, script, WHOLE, WHOLE, end, left, text);
    }
}

/// From the call of this number on the devices in these slots go down.
fn fail_at(rt: &impl Abort, store: &mut Store<MemBank>, slots: &[usize], call: u64) {
    let mut plan = Plan::NONE;
    for slot in slots {
        assert!(rt; *slot < 10);
        plan.down[*slot] = Some(call);
    }
    store.array.bank.plan = plan;
}

/// The devices of a crash so many calls ago.
fn crashed(
    rt: &(impl Abort + AllocGlobal),
    store: &Store<MemBank>,
    ago: u64,
    choice: Choice,
) -> Image {
    let call = store.bank().now().saturating_sub(ago);
    assert!(rt; call <= store.bank().now());
    let crash = store.bank().image_after(rt.alloc(), call, choice);
    crash.expect(rt, "memory")
}

/// The devices of a crash now, where all that was written has landed.
fn image_now(rt: &(impl Abort + AllocGlobal), store: &Store<MemBank>) -> Image {
    crashed(rt, store, 0, Choice::Newest)
}

/// These devices without that of a slot.
fn without(rt: &impl Abort, mut image: Image, slot: usize) -> Image {
    assert!(rt; slot < image.slots.len());
    let _ = image.slots[slot].take();
    image
}

/// The bytes of a sector of a device.
fn sector(rt: &impl Abort, image: &Image, slot: usize, at: usize) -> [u8; 512] {
    assert!(rt; slot < image.slots.len());
    let disk = image.slots[slot].as_deref().expect(rt, "a device");
    assert!(rt; at < disk.len());
    disk[at]
}
