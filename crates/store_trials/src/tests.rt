//! Stores over sets in memory, for tests: sets that are made, crashed and assembled again, and the steps that tests
//! take on their stores.
use crate::testing::{all, front, same};
use array_io::Array;
use array_io::oracle::logical_in;
use extents::{ExtentLayout, Owned};
use layout_map::{Format, Geometry};
use rebuild::Progress;
use recovery::{assemble, make};
use scrub::ScrubReport;
use sector_model::{Bank, Choice, Image, MemBank, Plan, Refusal, Sector};
use std::mem;
use std::process::Abort;
use stripe_journal::Entry;
use stripe_journal::oracle::last_sealed_in;
use superblock::State;
use superblock::oracle::chosen_table_in;
use volume_table::oracle::{block_shown, blocks_in_volume, table_shown};
use volume_table::{Listed, Store};

mod calling;
mod calls;
mod crashes;
mod device_calls;
mod events;
mod every_call;
mod failures;
mod file_calls;
mod large;
mod memory;
mod mixed;
mod rebuild_failures;
mod rebuilds;
mod renames;
mod scrubs;
mod tables;
mod upgrades;
mod worn_out;

use calling::{check_call, check_event};
use failures::check_ended;

/// The id of each set.
const ID: [u8; 16] = [0, 1, 2, 3, 4, 5, 6, 7, 8, 9, 10, 11, 12, 13, 14, 15];

/// A store over devices in memory.
pub(crate) type TestStore = Store<MemBank>;

/// Format, members, chunk and stripes.
pub(crate) type Shape = (Format, u8, u16, u32);

/// 256 rows, 512 data sectors and 7 extents.
pub(crate) const SET_A: Shape = (Format::One, 3, 8, 32);

/// 96 rows, 192 data sectors and 2 extents.
pub(crate) const SMALL: Shape = (Format::One, 3, 8, 12);

/// No slot of these sets, which have five to seven.
pub(crate) const NO_SLOT: usize = 10;

/// A volume: its name, and for each of its blocks the byte of which that is full.
pub(crate) type Volume<'a> = (&'a [u8], &'a [u8]);

/// Volumes, in rising order of names.
pub(crate) type Volumes<'a> = &'a [Volume<'a>];

/// A call of a store. The blocks that are written are each full of one byte.
#[derive(Clone, Copy)]
pub(crate) enum Call<'a> {
    Create(&'a [u8], u32),
    Extend(&'a [u8], u32),
    Remove(&'a [u8]),
    Write(&'a [u8], u32, &'a [u8]),
    Rename(&'a [u8], &'a [u8]),
    Fail(u8),
    Replace(u8),
    RebuildStep(u64),
    Scrub,
    /// The first row, and how many.
    ScrubRows(u64, u64),
    /// So many blocks from one on.
    Read(&'a [u8], u32, u32),
    List,
    Upgrade,
}

/// What a call has to answer.
#[derive(Clone, Copy)]
pub(crate) enum Answer<'a> {
    Done,
    Refused(Refusal),
    Stepped(Progress),
    Scrubbed(ScrubReport),
    /// Blocks that are full of these bytes, each of one.
    Blocks(&'a [u8]),
    /// These volumes, with so many blocks as there are bytes, and no other.
    Listed(Volumes<'a>),
}

/// What a test does to a store, or asks of it.
#[derive(Clone, Copy)]
pub(crate) enum Step<'a> {
    /// A call answers so.
    Do(Call<'a>, Answer<'a>),
    /// So does the event of a call.
    Apply(Call<'a>, Answer<'a>),
    /// A call answers so, and makes so many reads (with what failed), writes with flushes, and entries. For sets of 3
    /// members.
    Makes(Call<'a>, Answer<'a>, [u64; 3]),
    /// The store lists these volumes and no other, and reads their blocks so, one by one.
    Holds(Volumes<'a>),
    /// The logical list of the set shows these volumes and no other, by the definitions.
    Shows(Volumes<'a>),
    /// Logical sectors from one on are full of these bytes, each of one.
    Logical(usize, &'a [u8]),
    /// The table has these bytes at the front of its sectors 1 and 3, and else zeros.
    Table(&'a [u8], &'a [u8]),
    /// An extent is of the volume of this record, at this place.
    Owner(u32, Option<(u8, u16)>),
    /// The record of a name has this number, and so many blocks.
    Record(&'a [u8], usize, u32),
    /// A slot has this state and this incarnation.
    Slot(usize, State, u64),
    /// The status has these rows, generation, extents, free extents and volumes.
    Status([u64; 5]),
    /// The table of volumes has this version, as the status tells.
    Version(u8),
    /// These slots go down at their first call after so many from now on, and no other.
    Failure(&'a [u8], u64),
    /// Every call is refused so, without a device call.
    Ended(Refusal),
}

/// Takes these steps on a store, one after another. What fails names its step by its number, of which the first is
/// given.
pub(crate) fn check_from(
    rt: &(impl Abort + AllocGlobal),
    store: &mut TestStore,
    first: usize,
    steps: &[Step],
) {
    for at in 0..steps.len() {
        let number = first.saturating_add(at);
        match steps[at] {
            Step::Do(call, answer) => check_call(rt, store, number, call, answer),
            Step::Apply(call, answer) => check_event(rt, store, number, call, answer),
            Step::Makes(call, answer, made) => check_made(rt, store, number, call, answer, made),
            Step::Holds(volumes) => same(rt, (number, unlike(rt, store, volumes)), (number, None)),
            Step::Failure(slots, after) => fail_devices(rt, store, slots, after),
            Step::Ended(refusal) => check_ended(rt, store, number, refusal),
            step => check_state(rt, store, number, step),
        }
    }
}

/// Takes these steps on a store, one after another. What fails names its step by its number from 0.
pub(crate) fn check(rt: &(impl Abort + AllocGlobal), store: &mut TestStore, steps: &[Step]) {
    check_from(rt, store, 0, steps);
}

/// Takes these steps on a store over a set of this shape that was just made.
pub(crate) fn check_new(rt: &(impl Abort + AllocGlobal), shape: Shape, steps: &[Step]) {
    check_from(rt, &mut fresh_store(rt, shape), 0, steps);
}

// Takes a step that looks at a store without a call.
fn check_state(rt: &(impl Abort + AllocGlobal), store: &TestStore, number: usize, step: Step) {
    match step {
        Step::Shows(volumes) => check_shown(rt, store.bank(), number, volumes),
        Step::Logical(first, bytes) => check_logical(rt, store.bank(), number, first, bytes),
        Step::Table(record, owners) => check_table(rt, store.bank(), number, record, owners),
        Step::Owner(extent, owner) => {
            let owner = owner.map(|(volume, place)| Owned { volume, place });
            same(rt, (number, store.map.entry(extent)), (number, owner));
        }
        Step::Record(name, record, count) => {
            let found = store
                .table
                .record_named(name)
                .expect(rt, "there is a record");
            same(
                rt,
                (number, found.number, found.count),
                (number, record, count),
            );
        }
        Step::Slot(slot, state, incarnation) => {
            assert!(rt; slot < 10);
            let table = &store.array.table;
            let got = (table.states[slot], table.incarnations[slot]);
            same(rt, (number, got), (number, (state, incarnation)));
        }
        Step::Status(told) => check_status(rt, store, number, told),
        Step::Version(version) => {
            same(rt, (number, version_of(rt, store)), (number, version));
        }
        _ => {}
    }
}

// The byte of which a sector is full. None where it is of more than one.
fn byte_of(sector: &Sector) -> Option<u8> {
    let byte = sector[0];
    if *sector == all(byte) {
        Some(byte)
    } else {
        None
    }
}

// Asks that sectors from one on are full of these bytes, each of one.
fn check_bytes(rt: &impl Abort, number: usize, sectors: &[Sector], first: usize, bytes: &[u8]) {
    for at in 0..bytes.len() {
        let place = first.saturating_add(at);
        assert!(rt; place < sectors.len());
        let byte = byte_of(&sectors[place]);
        same(rt, (number, place, byte), (number, place, Some(bytes[at])));
    }
}

/// The geometry of a set of this shape.
pub(crate) fn geometry_of(rt: &impl Abort, shape: Shape) -> Geometry {
    let (format, members, chunk, stripes) = shape;
    let geometry = Geometry::of_format(format, members, chunk, stripes);
    geometry.expect(rt, "a shape")
}

// Blank devices, as long as a set needs them.
fn blank_devices(rt: &(impl Abort + AllocGlobal), geometry: &Geometry) -> Image {
    let mut slots = Vec::new(rt.alloc());
    let member = (geometry.rows() as usize).saturating_add(8);
    let journal = geometry.format.journal_sectors() as usize;
    for slot in 0..geometry.members.saturating_add(2) {
        let sectors = if slot < geometry.members {
            member
        } else {
            journal
        };
        let disk = vec![in rt.alloc(); [0; 512]; sectors].expect(rt, "memory");
        slots.push(Some(disk)).expect(rt, "memory");
    }
    Image { slots }
}

// A bank with these devices, of which none goes down.
fn bank_of(rt: &(impl Abort + AllocGlobal), image: Image) -> MemBank {
    assert!(rt; image.slots.len() >= 5 && image.slots.len() <= 10);
    MemBank::new(rt.alloc(), image, Plan::NONE, 40_000).expect(rt, "memory")
}

// A store over this set.
fn opened(rt: &impl Abort, array: Array<MemBank>) -> TestStore {
    Store::open(array).ok().expect(rt, "the store is opened")
}

/// A store over a set of this shape that was just made: the calls of `make` are its bank's first.
pub(crate) fn fresh_store(rt: &(impl Abort + AllocGlobal), shape: Shape) -> TestStore {
    let geometry = geometry_of(rt, shape);
    let bank = bank_of(rt, blank_devices(rt, &geometry));
    let entry = Entry::new(rt.alloc()).expect(rt, "memory");
    let array = make(bank, entry, ID, geometry);
    opened(rt, array.ok().expect(rt, "the set is made"))
}

/// The set that is assembled on these devices.
pub(crate) fn assembled(rt: &(impl Abort + AllocGlobal), image: Image) -> Array<MemBank> {
    let bank = bank_of(rt, image);
    let entry = Entry::new(rt.alloc()).expect(rt, "memory");
    let array = assemble(bank, entry, ID);
    array.ok().expect(rt, "the set is assembled")
}

/// The devices at a crash after so many calls.
pub(crate) fn crashed(
    rt: &(impl Abort + AllocGlobal),
    bank: &MemBank,
    call: u64,
    choice: Choice,
) -> Image {
    assert!(rt; call <= bank.now());
    let image = bank.image_after(rt.alloc(), call, choice);
    image.expect(rt, "memory")
}

/// The devices at a crash now, where all that was written has landed.
pub(crate) fn image_now(rt: &(impl Abort + AllocGlobal), bank: &MemBank) -> Image {
    crashed(rt, bank, bank.now(), Choice::Newest)
}

/// A store over the set that is assembled after a crash, with a slot absent if it is one of the set's.
pub(crate) fn again(
    rt: &(impl Abort + AllocGlobal),
    bank: &MemBank,
    call: u64,
    choice: Choice,
    absent: usize,
) -> TestStore {
    let mut image = crashed(rt, bank, call, choice);
    if absent < image.slots.len() {
        let _ = mem::replace(&mut image.slots[absent], None);
    }
    opened(rt, assembled(rt, image))
}

/// The store of a run that begins after this one.
pub(crate) fn next_run(rt: &(impl Abort + AllocGlobal), bank: &MemBank) -> TestStore {
    again(rt, bank, bank.now(), Choice::Newest, NO_SLOT)
}

/// A store over a set of this shape on which these steps were taken, in a run that began after that.
pub(crate) fn opened_after(
    rt: &(impl Abort + AllocGlobal),
    shape: Shape,
    steps: &[Step],
) -> TestStore {
    let mut store = fresh_store(rt, shape);
    check(rt, &mut store, steps);
    next_run(rt, store.bank())
}

/// From now on these slots go down at their first call after so many, and no other.
pub(crate) fn fail_devices(rt: &impl Abort, store: &mut TestStore, slots: &[u8], after: u64) {
    let call = store.array.bank.now().saturating_add(after);
    let mut plan = Plan::NONE;
    for slot in slots {
        assert!(rt; *slot < 10);
        plan.down[*slot as usize] = Some(call);
    }
    store.array.bank.plan = plan;
}

/// Whether these volumes are listed, with so many blocks as there are bytes, and no other.
pub(crate) fn is_list(listed: &[Listed], volumes: Volumes) -> bool {
    if listed.len() != volumes.len() {
        return false;
    }
    for at in 0..listed.len() {
        let (name, bytes) = volumes[at];
        if listed[at].name.bytes() != name || listed[at].blocks as usize != bytes.len() {
            return false;
        }
    }
    true
}

// Whether a block of a volume is full of this byte. It has to be read.
fn is_read(rt: &impl Abort, store: &mut TestStore, name: &[u8], at: u32, byte: u8) -> bool {
    let mut block = [all(!byte)];
    same(rt, store.read(name, at, &mut block), Ok(()));
    block[0] == all(byte)
}

/// The first block of a volume that is not read as full of its byte. Each has to be read.
pub(crate) fn unlike_block(
    rt: &impl Abort,
    store: &mut TestStore,
    name: &[u8],
    bytes: &[u8],
) -> Option<u32> {
    let mut at = 0u32;
    for byte in bytes {
        if !is_read(rt, store, name, at, *byte) {
            return Some(at);
        }
        at = at.wrapping_add(1);
    }
    None
}

/// Where a store shows other volumes than these: the place of a volume, and the number of a block of it; after the last
/// volume where it lists others.
pub(crate) fn unlike(
    rt: &(impl Abort + AllocGlobal),
    store: &mut TestStore,
    volumes: Volumes,
) -> Option<(usize, u32)> {
    let listed = store.list(rt.alloc()).expect(rt, "volumes are listed");
    if !is_list(&listed, volumes) {
        return Some((volumes.len(), 0));
    }
    unlike_volume(rt, store, volumes)
}

// The first block of one of these volumes that is not read as full of its byte, and the place of the volume.
fn unlike_volume(rt: &impl Abort, store: &mut TestStore, volumes: Volumes) -> Option<(usize, u32)> {
    for at in 0..volumes.len() {
        let (name, bytes) = volumes[at];
        if let Some(block) = unlike_block(rt, store, name, bytes) {
            return Some((at, block));
        }
    }
    None
}

/// The logical list of the set on a bank, by its table and its last entry, and where its extents lie.
pub(crate) fn logical_list(
    rt: &(impl Abort + AllocGlobal),
    bank: &MemBank,
) -> (Vec<Sector>, ExtentLayout) {
    let image = image_now(rt, bank);
    let table = chosen_table_in(&image, &ID).expect(rt, "a table is chosen");
    let mut sectors = Vec::new(rt.alloc());
    for logical in 0..table.geometry.data_sectors() {
        let mut sector = all(0xee);
        logical_in(&image, &table, logical, &mut sector);
        sectors.push(sector).expect(rt, "memory");
    }
    (sectors, ExtentLayout::of(&table.geometry))
}

// How many volumes a logical list shows.
fn count_shown(rt: &impl Abort, sectors: &[Sector], extents: &ExtentLayout) -> usize {
    let table = table_shown(sectors, extents).expect(rt, "a table is shown");
    let mut count = 0usize;
    for record in &table.records {
        if record.is_some() {
            count = count.saturating_add(1);
        }
    }
    count
}

// The first block of a volume that a logical list does not show as full of its byte.
fn unlike_shown(
    sectors: &[Sector],
    extents: &ExtentLayout,
    name: &[u8],
    bytes: &[u8],
) -> Option<u32> {
    let mut at = 0u32;
    for byte in bytes {
        if block_shown(sectors, extents, name, at) != Some(all(*byte)) {
            return Some(at);
        }
        at = at.wrapping_add(1);
    }
    None
}

fn check_shown(rt: &(impl Abort + AllocGlobal), bank: &MemBank, number: usize, volumes: Volumes) {
    let (sectors, extents) = logical_list(rt, bank);
    let count = count_shown(rt, &sectors, &extents);
    same(rt, (number, count), (number, volumes.len()));
    for (name, bytes) in volumes {
        let blocks = blocks_in_volume(&sectors, &extents, name).expect(rt, "a volume is shown");
        same(rt, (number, blocks as usize), (number, bytes.len()));
        let unlike = unlike_shown(&sectors, &extents, name, bytes);
        same(rt, (number, unlike), (number, None));
    }
}

fn check_logical(
    rt: &(impl Abort + AllocGlobal),
    bank: &MemBank,
    number: usize,
    first: usize,
    bytes: &[u8],
) {
    let (sectors, _) = logical_list(rt, bank);
    check_bytes(rt, number, &sectors, first, bytes);
}

fn check_table(
    rt: &(impl Abort + AllocGlobal),
    bank: &MemBank,
    number: usize,
    record: &[u8],
    owners: &[u8],
) {
    let (sectors, _) = logical_list(rt, bank);
    assert!(rt; sectors.len() >= 11);
    for at in 0..11usize {
        let bytes = match at {
            1 => record,
            3 => owners,
            _ => &[],
        };
        let is_so = sectors[at] == front(bytes);
        same(rt, (number, at, is_so), (number, at, true));
    }
}

fn check_status(rt: &impl Abort, store: &TestStore, number: usize, told: [u64; 5]) {
    let status = store.status().expect(rt, "the status is told");
    let got = [
        status.rows,
        status.generation,
        u64::from(status.extents),
        u64::from(status.free),
        u64::from(status.volumes),
    ];
    same(rt, (number, got), (number, told));
}

/// The version of a store's table of volumes, as its status tells.
pub(crate) fn version_of(rt: &impl Abort, store: &TestStore) -> u8 {
    store.status().expect(rt, "the status is told").version
}

/// Asks that this slot of a store's set is missing and each other one in sync, all of them where it is none of the
/// set's.
pub(crate) fn check_missing(rt: &impl Abort, store: &TestStore, number: usize, missing: usize) {
    for slot in 0..store.array.table.geometry.members as usize + 2 {
        let state = if slot == missing {
            State::Missing
        } else {
            State::InSync
        };
        let got = store.array.table.states[slot];
        same(rt, (number, slot, got), (number, slot, state));
    }
}

// How many calls were made, how many writes and flushes there still is room for, and the number of the last entry, as
// the seals of both journals of a set of 3 members have it; 0 where there is none.
fn counts(rt: &(impl Abort + AllocGlobal), store: &TestStore) -> (u64, u64, u64) {
    let bank = store.bank();
    let image = image_now(rt, bank);
    assert!(rt; image.slots.len() == 5);
    let geometry = store.array.table.geometry;
    let lower = last_sealed_in(&image.slots[3], &ID, &geometry).map_or(0, |seal| seal.number);
    let upper = last_sealed_in(&image.slots[4], &ID, &geometry).map_or(0, |seal| seal.number);
    same(rt, lower, upper);
    (bank.now(), bank.room as u64, lower)
}

fn check_made(
    rt: &(impl Abort + AllocGlobal),
    store: &mut TestStore,
    number: usize,
    call: Call,
    answer: Answer,
    made: [u64; 3],
) {
    let before = counts(rt, store);
    check_call(rt, store, number, call, answer);
    let after = counts(rt, store);
    let calls = after.0.saturating_sub(before.0);
    let writes = before.1.saturating_sub(after.1);
    let got = [
        calls.saturating_sub(writes),
        writes,
        after.2.saturating_sub(before.2),
    ];
    same(rt, (number, got), (number, made));
}
