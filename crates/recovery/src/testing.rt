//! What this crate's tests are made of: banks in memory, superblocks by their bytes, sets that are made and assembled,
//! and what values are compared with. Where one of them cannot go on, the test ends.
use crate::{Returned, assemble, make};
use array_io::Array;
use layout_map::{FIRST_ROW, Format, Geometry};
use sector_model::{Bank, Choice, Image, MemBank, Plan, Refusal, Sector};
use std::fmt::Debug;
use std::mem;
use std::process::Abort;
use stripe_journal::Entry;
use superblock::{State, Table, decode};

mod calls;

pub(crate) use calls::{AssemblySize, CommitSize, calls_of_make, calls_of_make_on_used};

/// The id of each set.
pub(crate) const ID: [u8; 16] = [0, 1, 2, 3, 4, 5, 6, 7, 8, 9, 10, 11, 12, 13, 14, 15];

pub(crate) const OTHER_ID: [u8; 16] = [0xff; 16];

/// A sector of zeros.
pub(crate) const BLANK: Sector = [0; 512];

/// Members, chunk and stripes.
pub(crate) type Shape = (u8, u16, u32);

/// 256 rows: logical sectors 64 and 72 are the data of row 32, on members 2 and 0, and 65 and 73 that of row 33.
pub(crate) const SET_A: Shape = (3, 8, 32);

/// 64 rows, the first of those of `SET_A`.
pub(crate) const SHORT: Shape = (3, 8, 8);

/// How many writes and flushes a bank takes.
pub(crate) const ROOM: usize = 4_000;

/// Ends the test where `got` is not `want`. As a call it leaves the test a fraction of what `assert_eq!` would
/// put into it, and so of the time that the test is checked in.
pub(crate) fn same<T: PartialEq + Debug + Drop>(rt: &impl Abort, got: T, want: T) {
    assert_eq!(rt; got, want);
}

/// Devices of so many sectors, each of them full of this byte; none where there are no sectors.
pub(crate) fn devices(rt: &(impl Abort + AllocGlobal), sectors: &[usize], byte: u8) -> Image {
    let mut slots = Vec::new(rt.alloc());
    for count in sectors {
        let mut device = None;
        if *count > 0 {
            device = Some(vec![in rt.alloc(); [byte; 512]; *count].expect(rt, "memory"));
        }
        slots.push(device).expect(rt, "memory");
    }
    Image { slots }
}

/// A plan by which these slots go down, each at its first call of this number or above.
pub(crate) fn fails_at(rt: &impl Abort, slots: &[u8], call: u64) -> Plan {
    let mut plan = Plan::NONE;
    for slot in slots {
        assert!(rt; *slot < 10);
        plan.down[*slot as usize] = Some(call);
    }
    plan
}

/// A bank with these devices, which go down by this plan.
pub(crate) fn bank_of(
    rt: &(impl Abort + AllocGlobal),
    image: Image,
    plan: Plan,
    room: usize,
) -> MemBank {
    assert!(rt; image.slots.len() >= 5 && image.slots.len() <= 10);
    MemBank::new(rt.alloc(), image, plan, room).expect(rt, "memory")
}

/// The geometry of a set of this shape.
pub(crate) fn geometry_of(rt: &impl Abort, shape: Shape) -> Geometry {
    Geometry::new(shape.0, shape.1, shape.2).expect(rt, "a geometry")
}

/// What making a set of this shape answers.
pub(crate) fn answer_of_make(
    rt: &(impl Abort + AllocGlobal),
    bank: MemBank,
    shape: Shape,
) -> Result<Array<MemBank>, Returned<MemBank>> {
    let entry = Entry::new(rt.alloc()).expect(rt, "memory");
    make(bank, entry, ID, geometry_of(rt, shape))
}

/// What assembling the set of this id on these devices answers.
pub(crate) fn answer(
    rt: &(impl Abort + AllocGlobal),
    image: Image,
    plan: Plan,
    id: [u8; 16],
) -> Result<Array<MemBank>, Returned<MemBank>> {
    let bank = bank_of(rt, image, plan, ROOM);
    let entry = Entry::new(rt.alloc()).expect(rt, "memory");
    assemble(bank, entry, id)
}

/// The array of an answer.
pub(crate) fn array_of<B: Bank>(
    rt: &impl Abort,
    answer: Result<Array<B>, Returned<B>>,
) -> Array<B> {
    match answer {
        Ok(array) => array,
        Err(_) => panic!(rt; "there is an array"),
    }
}

/// The refusal of an answer, and how many calls were made.
pub(crate) fn refusal_of(
    rt: &impl Abort,
    answer: Result<Array<MemBank>, Returned<MemBank>>,
) -> (Refusal, u64) {
    match answer {
        Ok(_) => panic!(rt; "there is no array"),
        Err(returned) => (returned.refusal, returned.bank.now()),
    }
}

/// An array of a set of this shape that was just made: the calls of `make` are its bank's first.
pub(crate) fn made(rt: &(impl Abort + AllocGlobal), shape: Shape) -> Array<MemBank> {
    let (members, chunk, stripes) = shape;
    assert!(rt; members <= 8 && stripes <= 100);
    let mut sectors = [Format::One.journal_sectors() as usize; 10];
    for slot in 0..members as usize {
        sectors[slot] = FIRST_ROW as usize + chunk as usize * stripes as usize;
    }
    let image = devices(rt, &sectors[..members as usize + 2], 0);
    array_of(
        rt,
        answer_of_make(rt, bank_of(rt, image, Plan::NONE, ROOM), shape),
    )
}

/// The devices of a set of this shape that was just made.
pub(crate) fn fresh(rt: &(impl Abort + AllocGlobal), shape: Shape) -> Image {
    image_now(rt, &made(rt, shape).bank, Choice::Newest)
}

/// The same without the device of a slot.
pub(crate) fn fresh_without(rt: &(impl Abort + AllocGlobal), shape: Shape, absent: usize) -> Image {
    let mut image = fresh(rt, shape);
    take(rt, &mut image, absent);
    image
}

/// The array that is assembled on these devices.
pub(crate) fn assembled(rt: &(impl Abort + AllocGlobal), image: Image) -> Array<MemBank> {
    array_of(rt, answer(rt, image, Plan::NONE, ID))
}

/// What assembling the set on these devices answers, of which a slot goes down at its first call of this number or
/// above.
pub(crate) fn answer_failing(
    rt: &(impl Abort + AllocGlobal),
    image: Image,
    slot: u8,
    call: u64,
) -> Result<Array<MemBank>, Returned<MemBank>> {
    answer(rt, image, fails_at(rt, &[slot], call), ID)
}

/// The array of such an answer.
pub(crate) fn assembled_failing(
    rt: &(impl Abort + AllocGlobal),
    image: Image,
    slot: u8,
    call: u64,
) -> Array<MemBank> {
    array_of(rt, answer_failing(rt, image, slot, call))
}

/// The image of a crash after so many calls.
pub(crate) fn crashed(
    rt: &(impl Abort + AllocGlobal),
    bank: &MemBank,
    call: u64,
    choice: Choice,
) -> Image {
    assert!(rt; call <= bank.now());
    bank.image_after(rt.alloc(), call, choice)
        .expect(rt, "memory")
}

/// The image of a crash now.
pub(crate) fn image_now(rt: &(impl Abort + AllocGlobal), bank: &MemBank, choice: Choice) -> Image {
    crashed(rt, bank, bank.now(), choice)
}

/// The image of a crash after so many calls, without the device of a slot where it is one of the set's.
pub(crate) fn left(
    rt: &(impl Abort + AllocGlobal),
    bank: &MemBank,
    call: u64,
    choice: Choice,
    absent: usize,
) -> Image {
    let mut image = crashed(rt, bank, call, choice);
    if absent < image.slots.len() {
        take(rt, &mut image, absent);
    }
    image
}

/// Takes a device away.
pub(crate) fn take(rt: &impl Abort, image: &mut Image, slot: usize) {
    assert!(rt; slot < image.slots.len());
    let _ = image.slots[slot].take();
}

/// Takes a device's last sector away.
pub(crate) fn shorten(rt: &impl Abort, image: &mut Image, slot: usize) {
    assert!(rt; slot < image.slots.len());
    if let Some(disk) = &mut image.slots[slot] {
        let _ = disk.pop();
    }
}

/// Puts the device that another image has in a slot there.
pub(crate) fn put_from(rt: &impl Abort, image: &mut Image, slot: usize, mut from: Image) {
    assert!(rt; slot < image.slots.len() && slot < from.slots.len());
    mem::swap(&mut image.slots[slot], &mut from.slots[slot]);
}

/// Puts a sector onto a device, where there is one.
pub(crate) fn put_sector(
    rt: &impl Abort,
    image: &mut Image,
    slot: usize,
    at: usize,
    sector: &Sector,
) {
    assert!(rt; slot < image.slots.len());
    if let Some(disk) = image.slots[slot].as_deref_mut() {
        assert!(rt; at < disk.len());
        disk[at] = *sector;
    }
}

/// The sectors of a device.
pub(crate) fn disk<'a>(rt: &impl Abort, image: &'a Image, slot: usize) -> &'a [Sector] {
    assert!(rt; slot < image.slots.len());
    image.slots[slot].as_deref().expect(rt, "there is a device")
}

/// A sector of a device.
pub(crate) fn sector_of(rt: &impl Abort, image: &Image, slot: usize, at: usize) -> Sector {
    let disk = disk(rt, image, slot);
    assert!(rt; at < disk.len());
    disk[at]
}

/// The superblock of a table with this generation and so many stripes, in the slot of this role: 3 members, chunk 8,
/// all slots in sync at incarnation 1.
pub(crate) fn superblock(generation: u8, stripes: u8, role: u8) -> Sector {
    let mut sector = BLANK;
    sector[..8].copy_from_slice(b"RAID5JV1");
    sector[8..24].copy_from_slice(&ID);
    sector[24] = generation;
    sector[32] = 3;
    sector[33] = role;
    sector[34] = 8;
    sector[36] = stripes;
    for slot in 0..5 {
        sector[40 + 16 * slot] = 1;
        sector[48 + 16 * slot] = 1;
    }
    sector[208] = 1;
    sector[504..].copy_from_slice(b"1VJ5DIAR");
    sector
}

/// The table of which a superblock tells.
pub(crate) fn table_in(rt: &impl Abort, sector: &Sector) -> Table {
    decode(sector).expect(rt, "it is a superblock").table
}

/// Asks that this slot of a table is missing and each other one of the set in sync, all of them where it is none of
/// these.
pub(crate) fn check_missing(rt: &impl Abort, table: &Table, missing: usize) {
    let mut states = [State::Missing; 10];
    for slot in 0..table.geometry.members as usize + 2 {
        if slot != missing {
            states[slot] = State::InSync;
        }
    }
    same(rt, table.states, states);
}
