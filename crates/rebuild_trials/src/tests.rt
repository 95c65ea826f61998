//! A missing slot gets a device, and the rows of a member are rebuilt, over sets in memory whose logical sectors are
//! known. The sets are small: all rows of one of three members are a step.
ghost use Rattle.std.specs.Prelude.{◌↔◌, IsTrue};
ghost use Rattle.array_io.specs.Believed.ArrayCalls.{MayCommit};
ghost use Rattle.array_io.specs.Steps.FormingRows.{HasLogical};

use crate::testing::{all, same};
use array_io::Array;
use layout_map::{Format, Geometry};
use parity::{is_zero, xor_into};
use rebuild::{Progress, rebuild_step, replace};
use recovery::{Returned, assemble, make};
use sector_model::{Bank, Choice, Image, MemBank, Plan, Refusal, Sector};
use std::mem;
use std::process::Abort;
use stripe_journal::Entry;
use superblock::{State, Table, decode};

mod counters;
mod crashes;
mod device_calls;
mod failures;
mod held;
mod held_failures;
mod large;
mod last_entries;
mod rebuilt;
mod refusals;
mod replaced;
mod rows;

/// The id of each set.
pub(crate) const ID: [u8; 16] = [0, 1, 2, 3, 4, 5, 6, 7, 8, 9, 10, 11, 12, 13, 14, 15];

/// The id of another set.
pub(crate) const OTHER_ID: [u8; 16] = [0xff; 16];

/// What a set is made of: its format, its members and its stripes. Its chunk has 8 sectors.
#[derive(Clone, Copy)]
pub(crate) struct Shape {
    pub format: Format,
    pub members: u8,
    pub stripes: u32,
}

/// 256 rows and 512 data sectors.
pub(crate) const SET_A: Shape = Shape {
    format: Format::One,
    members: 3,
    stripes: 32,
};

/// 64 rows and 128 data sectors.
pub(crate) const OF_3: Shape = Shape {
    format: Format::One,
    members: 3,
    stripes: 8,
};

/// 48 rows and 144 data sectors.
pub(crate) const OF_4: Shape = Shape {
    format: Format::One,
    members: 4,
    stripes: 6,
};

/// 32 rows and 128 data sectors.
pub(crate) const OF_5: Shape = Shape {
    format: Format::One,
    members: 5,
    stripes: 4,
};

/// 24 rows and 168 data sectors.
pub(crate) const OF_8: Shape = Shape {
    format: Format::One,
    members: 8,
    stripes: 3,
};

/// How many writes and flushes a bank takes.
const ROOM: usize = 8_000;

/// A set in memory, and the bytes of which its logical sectors are full, in their order.
#[derive(Drop)]
pub(crate) struct Known {
    pub array: Array<MemBank>,
    pub list: Vec<u8>,
}

/// The device that a missing slot has.
#[derive(Clone, Copy)]
pub(crate) enum Device {
    /// One of zeros.
    Blank,
    /// The one that the slot had, as it was when its slot was marked missing.
    Own,
    /// The same with entries that the set does not have, the last with a higher number than the set's last.
    Ahead,
    /// That of the same slot of another set, which has entries.
    Foreign,
    /// One that is full of a byte.
    Filled,
}

/// What is called.
#[derive(Clone, Copy)]
pub(crate) enum Job {
    /// `replace` of the slot.
    Replace,
    /// A step of so many rows.
    Step(u64),
}

/// A call, and the set on which it is made.
#[derive(Clone, Copy)]
pub(crate) struct Case {
    pub shape: Shape,
    /// The slot that is replaced, or rebuilding.
    pub slot: u8,
    /// The device that it was given.
    pub device: Device,
    /// Whether the set has entries. Else its logical sectors are all zero.
    pub is_used: bool,
    /// How many rows are rebuilt before the call.
    pub position: u64,
    pub job: Job,
}

/// Replacing a member of a used set.
pub(crate) fn member(shape: Shape, slot: u8, device: Device) -> Case {
    Case {
        shape,
        slot,
        device,
        is_used: true,
        position: 0,
        job: Job::Replace,
    }
}

/// Replacing a journal.
pub(crate) fn journal(shape: Shape, slot: u8, device: Device, is_used: bool) -> Case {
    Case {
        shape,
        slot,
        device,
        is_used,
        position: 0,
        job: Job::Replace,
    }
}

/// Rebuilding 6 rows of a member from row 5 on.
pub(crate) fn middle_step(shape: Shape, slot: u8, device: Device) -> Case {
    Case {
        shape,
        slot,
        device,
        is_used: true,
        position: 5,
        job: Job::Step(6),
    }
}

/// Rebuilding the last 6 rows of a member.
pub(crate) fn last_step(shape: Shape, slot: u8, device: Device) -> Case {
    Case {
        shape,
        slot,
        device,
        is_used: true,
        position: rows_of(shape).saturating_sub(6),
        job: Job::Step(64),
    }
}

/// The rows of a set.
pub(crate) fn rows_of(shape: Shape) -> u64 {
    u64::from(shape.stripes).saturating_mul(8)
}

// Whether this logical sector is one of those given.
fn is_among(sectors: &[(u64, Sector)], logical: u64) -> bool
    ensures { IsTrue result ↔ HasLogical sectors.now logical }
{
    for sector in sectors {
        if sector.0 == logical {
            return true;
        }
    }
    false
}

// The sectors may be committed.
fn check_may_commit(rt: &impl Abort, table: &Table, sectors: &[(u64, Sector)])
    ensures { MayCommit table.now sectors.now }
{
    assert!(rt; matches!(sectors.len(), 1..=32));
    for (i, sector) in sectors.iter().enumerate() {
        assert!(rt; sector.0 < table.geometry.data_sectors());
        assert!(rt; !is_among(&sectors[..i], sector.0));
    }
}

/// What a commit of these logical sectors together answers, the first of them full of this byte, and each other of one
/// more than the one before. The list has them then.
pub(crate) fn answer_of_write(
    rt: &(impl Abort + AllocGlobal),
    known: &mut Known,
    numbers: &[u64],
    byte: u8,
) -> Result<(), Refusal> {
    let mut sectors = Vec::new(rt.alloc());
    let mut byte = byte;
    for number in numbers {
        assert!(rt; *number < known.list.len() as u64);
        known.list[*number as usize] = byte;
        sectors.push((*number, all(byte))).expect(rt, "memory");
        byte = byte.wrapping_add(1);
    }
    check_may_commit(rt, &known.array.table, &sectors);
    known.array.commit(&sectors)
}

/// Commits these logical sectors so, as has to be answered with Ok.
pub(crate) fn write(rt: &(impl Abort + AllocGlobal), known: &mut Known, numbers: &[u64], byte: u8) {
    same(rt, answer_of_write(rt, known, numbers, byte), Ok(()));
}

// The numbers from one up to another.
fn numbers_between(rt: &(impl Abort + AllocGlobal), first: u64, end: u64) -> Vec<u64> {
    let mut numbers = Vec::new(rt.alloc());
    for number in first..end {
        numbers.push(number).expect(rt, "memory");
    }
    numbers
}

// Commits all logical sectors, each full of its number and one.
fn fill(rt: &(impl Abort + AllocGlobal), known: &mut Known) {
    let count = known.list.len() as u64;
    let mut byte = 1u8;
    for part in 0..count.div_ceil(32) {
        let first = part.saturating_mul(32);
        let numbers = numbers_between(rt, first, first.saturating_add(32).min(count));
        write(rt, known, &numbers, byte);
        byte = byte.wrapping_add(32);
    }
}

/// Devices that are full of this byte, as long as a set needs them.
pub(crate) fn devices(rt: &(impl Abort + AllocGlobal), geometry: &Geometry, byte: u8) -> Image {
    let mut slots = Vec::new(rt.alloc());
    let member = (geometry.rows() as usize).saturating_add(8);
    let journal = match geometry.format {
        Format::One => 520,
        Format::Two => 8_200,
    };
    for slot in 0..geometry.members.saturating_add(2) {
        let sectors = if slot < geometry.members {
            member
        } else {
            journal
        };
        let disk = vec![in rt.alloc(); [byte; 512]; sectors].expect(rt, "memory");
        slots.push(Some(disk)).expect(rt, "memory");
    }
    Image { slots }
}

/// A bank with these devices, which go down by this plan.
pub(crate) fn bank_of(rt: &(impl Abort + AllocGlobal), image: Image, plan: Plan) -> MemBank {
    assert!(rt; image.slots.len() >= 5 && image.slots.len() <= 10);
    MemBank::new(rt.alloc(), image, plan, ROOM).expect(rt, "memory")
}

/// The geometry of a set of this shape.
pub(crate) fn geometry_of(rt: &impl Abort, shape: Shape) -> Geometry {
    let geometry = Geometry::of_format(shape.format, shape.members, 8, shape.stripes);
    geometry.expect(rt, "a shape")
}

/// A set of this id and shape that was just made, one of format 2 by its first superblocks.
pub(crate) fn made(rt: &(impl Abort + AllocGlobal), id: [u8; 16], shape: Shape) -> Known {
    let geometry = geometry_of(rt, shape);
    let mut image = devices(rt, &geometry, 0);
    let array = match shape.format {
        Format::One => {
            let bank = bank_of(rt, image, Plan::NONE);
            make(bank, entry_of_none(rt), id, geometry)
        }
        Format::Two => {
            put_first_superblocks(rt, &mut image, id, shape);
            assembling(rt, image, Plan::NONE, id)
        }
    };
    let count = geometry.data_sectors() as usize;
    Known {
        array: array.ok().expect(rt, "the set is made"),
        list: vec![in rt.alloc(); 0; count].expect(rt, "memory"),
    }
}

// The superblock of generation 1 of a set of format 2, in the slot of this role: all slots in sync at incarnation 1.
fn first_superblock(id: [u8; 16], shape: Shape, role: u8) -> Sector {
    let mut sector = all(0);
    sector[..8].copy_from_slice(b"RAID5JV2");
    sector[8..24].copy_from_slice(&id);
    sector[24] = 1;
    sector[32] = shape.members;
    sector[33] = role;
    sector[34] = 8;
    sector[36..40].copy_from_slice(&shape.stripes.to_le_bytes());
    for slot in 0..10 {
        if slot < shape.members as usize + 2 {
            sector[40 + 16 * slot] = 1;
            sector[48 + 16 * slot] = 1;
        }
    }
    sector[208] = 1;
    sector[504..].copy_from_slice(b"2VJ5DIAR");
    sector
}

// Puts that superblock on each device of a set, in sector 1.
fn put_first_superblocks(rt: &impl Abort, image: &mut Image, id: [u8; 16], shape: Shape) {
    for (role, slot) in image.slots.iter_mut().enumerate() {
        let device = slot.as_deref_mut().expect(rt, "there is a device");
        assert!(rt; role < 10 && device.len() >= 2);
        device[1] = first_superblock(id, shape, role as u8);
    }
}

// Where an array holds entries.
fn entry_of_none(rt: &(impl Abort + AllocGlobal)) -> Entry {
    Entry::new(rt.alloc()).expect(rt, "memory")
}

/// What assembling the set of this id on these devices answers, which go down by this plan.
pub(crate) fn assembling(
    rt: &(impl Abort + AllocGlobal),
    image: Image,
    plan: Plan,
    id: [u8; 16],
) -> Result<Array<MemBank>, Returned<MemBank>> {
    let bank = bank_of(rt, image, plan);
    assemble(bank, entry_of_none(rt), id)
}

/// The set that is assembled on these devices.
pub(crate) fn assembled(rt: &(impl Abort + AllocGlobal), image: Image) -> Array<MemBank> {
    assembling(rt, image, Plan::NONE, ID)
        .ok()
        .expect(rt, "the set is assembled")
}

/// The devices at a crash after so many calls.
pub(crate) fn crashed(
    rt: &(impl Abort + AllocGlobal),
    bank: &MemBank,
    call: u64,
    choice: Choice,
) -> Image {
    assert!(rt; call <= bank.now());
    let image = bank.image_after(rt.alloc(), call, choice);
    image.expect(rt, "memory")
}

/// The devices at a crash now, where all that was written has landed.
pub(crate) fn image_now(rt: &(impl Abort + AllocGlobal), bank: &MemBank) -> Image {
    crashed(rt, bank, bank.now(), Choice::Newest)
}

/// The choice at a crash of this number: each of three in turn.
pub(crate) fn in_turn(number: u64) -> Choice {
    match number % 3 {
        0 => Choice::Oldest,
        1 => Choice::Newest,
        _ => Choice::Mixed(3),
    }
}

/// Takes a device away.
pub(crate) fn take(rt: &impl Abort, image: &mut Image, slot: u8) {
    let slot = slot as usize;
    assert!(rt; slot < image.slots.len());
    let _ = mem::replace(&mut image.slots[slot], None);
}

/// Puts the device that another image has in a slot there.
pub(crate) fn put_from(rt: &impl Abort, image: &mut Image, slot: u8, mut from: Image) {
    let slot = slot as usize;
    assert!(rt; slot < image.slots.len() && slot < from.slots.len());
    mem::swap(&mut image.slots[slot], &mut from.slots[slot]);
}

/// Puts a copy of these sectors there.
pub(crate) fn put_copy(
    rt: &(impl Abort + AllocGlobal),
    image: &mut Image,
    slot: u8,
    disk: &[Sector],
) {
    let slot = slot as usize;
    assert!(rt; slot < image.slots.len());
    let copy = Vec::from_slice(rt.alloc(), disk).expect(rt, "memory");
    let _ = mem::replace(&mut image.slots[slot], Some(copy));
}

/// The sectors of a device.
pub(crate) fn disk<'a>(rt: &impl Abort, image: &'a Image, slot: u8) -> &'a [Sector] {
    let slot = slot as usize;
    assert!(rt; slot < image.slots.len());
    image.slots[slot].as_deref().expect(rt, "there is a device")
}

// The set as it is, in a run that began after a fork of it: two entries more, of other bytes.
fn forked(rt: &(impl Abort + AllocGlobal), bank: &MemBank) -> Image {
    let array = assembled(rt, image_now(rt, bank));
    let list = vec![in rt.alloc(); 0; 128].expect(rt, "memory");
    let mut fork = Known { array, list };
    write(rt, &mut fork, &[0, 41], 0xe0);
    write(rt, &mut fork, &[1, 42], 0xf0);
    image_now(rt, &fork.array.bank)
}

/// Devices of which a slot is to get the one of this kind, of a set that is all there.
pub(crate) fn source(
    rt: &(impl Abort + AllocGlobal),
    array: &Array<MemBank>,
    shape: Shape,
    device: Device,
) -> Image {
    match device {
        Device::Blank => devices(rt, &array.table.geometry, 0),
        Device::Own => image_now(rt, &array.bank),
        Device::Ahead => forked(rt, &array.bank),
        Device::Foreign => {
            let mut other = made(rt, OTHER_ID, shape);
            fill(rt, &mut other);
            image_now(rt, &other.array.bank)
        }
        Device::Filled => devices(rt, &array.table.geometry, 0xa5),
    }
}

/// Marks a slot missing.
pub(crate) fn mark(rt: &impl Abort, array: &mut Array<MemBank>, slot: u8) {
    assert!(rt; slot < array.table.geometry.members.saturating_add(2));
    same(rt, array.mark_missing(slot), Ok(()));
}

/// A set of which a slot is missing and has a device of this kind, in a run that just began. Where it has entries, the
/// last one is of two rows.
pub(crate) fn without(rt: &(impl Abort + AllocGlobal), case: &Case) -> Known {
    let mut known = made(rt, ID, case.shape);
    if case.is_used {
        fill(rt, &mut known);
        write(rt, &mut known, &[3, 44], 0x90);
    }
    let from = source(rt, &known.array, case.shape, case.device);
    mark(rt, &mut known.array, case.slot);
    if case.is_used {
        write(rt, &mut known, &[5, 40], 0xb0);
    }
    let mut image = image_now(rt, &known.array.bank);
    put_from(rt, &mut image, case.slot, from);
    Known {
        array: assembled(rt, image),
        list: known.list,
    }
}

/// Makes the call of a case, which answers how far a step is.
pub(crate) fn call<B: Bank>(
    array: &mut Array<B>,
    case: &Case,
) -> Result<Option<Progress>, Refusal> {
    match case.job {
        Job::Replace => match replace(array, case.slot) {
            Ok(()) => Ok(None),
            Err(refusal) => Err(refusal),
        },
        Job::Step(rows) => match rebuild_step(array, rows) {
            Ok(progress) => Ok(Some(progress)),
            Err(refusal) => Err(refusal),
        },
    }
}

/// The set of a case before its call, in a run that just began.
pub(crate) fn before(rt: &(impl Abort + AllocGlobal), case: &Case) -> Known {
    let mut known = without(rt, case);
    if let Job::Replace = case.job {
        return known;
    }
    same(rt, replace(&mut known.array, case.slot), Ok(()));
    let progress = rebuild_step(&mut known.array, case.position);
    same(rt, progress, Ok(Progress::Position(case.position)));
    Known {
        array: assembled(rt, image_now(rt, &known.array.bank)),
        list: known.list,
    }
}

/// What a table tells that changes: the generation, the states, the incarnations and the position.
pub(crate) type Told = (u64, [State; 10], [u64; 10], u64);

/// What a table tells.
pub(crate) fn told(table: &Table) -> Told {
    (
        table.generation,
        table.states,
        table.incarnations,
        table.position,
    )
}

/// What a table tells after this one, so many generations and incarnations of the slot further.
pub(crate) fn told_after(
    rt: &impl Abort,
    told: Told,
    slot: u8,
    state: State,
    further: (u64, u64),
    position: u64,
) -> Told {
    let (generation, mut states, mut incarnations, _) = told;
    let slot = slot as usize;
    assert!(rt; slot < 10);
    states[slot] = state;
    incarnations[slot] = incarnations[slot].saturating_add(further.1);
    (
        generation.saturating_add(further.0),
        states,
        incarnations,
        position,
    )
}

/// What the table of a case tells after its call, by what it told before.
pub(crate) fn told_when_done(rt: &impl Abort, case: &Case, old: Told) -> Told {
    match wanted(case) {
        Some(Progress::Position(position)) => {
            told_after(rt, old, case.slot, State::Rebuilding, (1, 0), position)
        }
        Some(Progress::Complete) => told_after(rt, old, case.slot, State::InSync, (1, 0), 0),
        None => {
            let state = if case.slot < case.shape.members {
                State::Rebuilding
            } else {
                State::InSync
            };
            told_after(rt, old, case.slot, state, (1, 1), 0)
        }
    }
}

/// How many rows a step rebuilds at most.
pub(crate) fn most_rows(shape: Shape) -> u64 {
    match shape.format {
        Format::One => 64,
        Format::Two => 4_096,
    }
}

/// What the call of a case answers: how far it is.
pub(crate) fn wanted(case: &Case) -> Option<Progress> {
    let Job::Step(rows) = case.job else {
        return None;
    };
    let end = case
        .position
        .saturating_add(rows.min(most_rows(case.shape)));
    if end < rows_of(case.shape) {
        Some(Progress::Position(end))
    } else {
        Some(Progress::Complete)
    }
}

/// What a read of a logical sector gives, which has to be answered with Ok.
pub(crate) fn read(rt: &impl Abort, array: &mut Array<MemBank>, logical: u64) -> Sector {
    assert!(rt; logical < array.table.geometry.data_sectors());
    // A sector of one byte it is only by the read.
    let mut sector = [0x5a; 512];
    sector[0] = 0xa5;
    same(rt, array.read(logical, &mut sector), Ok(()));
    sector
}

/// Asks that reads of an array give these logical sectors, all that it has. What fails is named by this number.
pub(crate) fn check_list(
    rt: &impl Abort,
    number: (u64, u64),
    array: &mut Array<MemBank>,
    list: &[u8],
) {
    let count = array.table.geometry.data_sectors();
    same(rt, (number, count), (number, list.len() as u64));
    let mut logical = 0u64;
    for byte in list {
        let is_so = read(rt, array, logical) == all(*byte);
        same(rt, (number, logical, is_so), (number, logical, true));
        logical = logical.wrapping_add(1);
    }
}

/// Asks that each slot but this one is in sync, and that this one has this state.
pub(crate) fn check_states(
    rt: &impl Abort,
    number: (u64, u64),
    table: &Table,
    slot: u8,
    state: State,
) {
    let mut states = [State::Missing; 10];
    for other in 0..table.geometry.members as usize + 2 {
        states[other] = if other == slot as usize {
            state
        } else {
            State::InSync
        };
    }
    same(rt, (number, table.states), (number, states));
}

/// Asks that each device of the set that is not missing has the superblock of its table, whatever a crash now leaves.
pub(crate) fn check_published(
    rt: &(impl Abort + AllocGlobal),
    number: (u64, u64),
    array: &Array<MemBank>,
) {
    let image = crashed(rt, &array.bank, array.bank.now(), Choice::Oldest);
    let place = (array.table.generation % 2) as usize;
    for slot in 0..array.table.geometry.members.saturating_add(2) {
        if slot < 10 && array.table.states[slot as usize] != State::Missing {
            let sectors = disk(rt, &image, slot);
            assert!(rt; place < sectors.len());
            let found = decode(&sectors[place]).map(|found| (found.role, found.table));
            same(rt, (number, found), (number, Some((slot, array.table))));
        }
    }
}

/// Asks that a set is complete, and that the sectors of its members say the same without the journals: the sectors of
/// each row XOR to zero, and these are the logical sectors.
pub(crate) fn check_whole(
    rt: &(impl Abort + AllocGlobal),
    number: (u64, u64),
    array: &Array<MemBank>,
    list: &[u8],
) {
    let table = &array.table;
    check_states(rt, number, table, 0, State::InSync);
    let image = image_now(rt, &array.bank);
    for row in 0..table.geometry.rows() {
        let mut sum = all(0);
        for member in 0..table.geometry.members {
            xor_into(&mut sum, row_of(rt, &image, member, row));
        }
        same(rt, (number, row, is_zero(&sum)), (number, row, true));
    }
    check_members(rt, number, &image, table, list);
}

// A member's sector of a row.
fn row_of<'a>(rt: &impl Abort, image: &'a Image, member: u8, row: u64) -> &'a Sector {
    let sectors = disk(rt, image, member);
    let at = (row as usize).saturating_add(8);
    assert!(rt; at < sectors.len());
    &sectors[at]
}

// Asks that these logical sectors stand where they lie on the members.
fn check_members(rt: &impl Abort, number: (u64, u64), image: &Image, table: &Table, list: &[u8]) {
    let count = table.geometry.data_sectors();
    same(rt, (number, count), (number, list.len() as u64));
    let mut logical = 0u64;
    for byte in list {
        assert!(rt; logical < table.geometry.data_sectors());
        let place = table.geometry.place(logical);
        let is_so = *row_of(rt, image, place.member, place.row) == all(*byte);
        same(rt, (number, logical, is_so), (number, logical, true));
        logical = logical.wrapping_add(1);
    }
}

/// Asks that a set is complete, and stays what it is without any one of its slots.
pub(crate) fn check_complete(
    rt: &(impl Abort + AllocGlobal),
    number: (u64, u64),
    array: &Array<MemBank>,
    list: &[u8],
) {
    check_whole(rt, number, array, list);
    for slot in 0..array.table.geometry.members.saturating_add(2) {
        let mut image = crashed(rt, &array.bank, array.bank.now(), Choice::Oldest);
        take(rt, &mut image, slot);
        let mut again = assembled(rt, image);
        check_states(rt, number, &again.table, slot, State::Missing);
        check_list(rt, number, &mut again, list);
    }
}
