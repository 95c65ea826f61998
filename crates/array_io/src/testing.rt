//! What this crate's tests share: sectors, images, banks and entries of a set of chunk 8 and 32 stripes, made by hand,
//! and what they compare values with. Its rows 0 to 255 are the sectors 8 to 263 of each member.
ghost use Rattle.std.specs.Prelude.{◌≡◌, ◌↔◌, ◌≤◌, ◌<◌, IsTrue, false};
ghost use Rattle.array_io.specs.Believed.ArrayCalls.{MayCommit};
ghost use Rattle.array_io.specs.Believed.Views.{HasItsSlots};
ghost use Rattle.array_io.specs.Steps.FormingRows.{HasLogical};
ghost use Rattle.superblock.specs.Counted.{least_sectors};

use sector_model::{Bank, Image, MemBank, Plan, Sector, read_sector};
use std::fmt::Debug;
use std::process::Abort;
use stripe_journal::Entry;
use superblock::{Table, decode, least_of};

/// Ends the test where `got` is not `want`. As a call it leaves the test a fraction of what `assert_eq!` would
/// put into it, and so of the time that the test is checked in.
pub(crate) fn same<T: PartialEq + Debug + Drop>(rt: &impl Abort, got: T, want: T) {
    assert_eq!(rt; got, want);
}

/// Ends the test where what is said of a place does not hold, and says which place that is.
pub(crate) fn holds(rt: &impl Abort, what: &'static str, place: (u64, u64), is_so: bool) {
    assert!(rt; is_so, "{what} {place:?}");
}

pub(crate) const ID: [u8; 16] = [0, 1, 2, 3, 4, 5, 6, 7, 8, 9, 10, 11, 12, 13, 14, 15];

pub(crate) const BLANK: Sector = [0; 512];

/// A sector of one value.
pub(crate) fn all(value: u8) -> Sector {
    [value; 512]
}

/// What a table says of a set's slots: how many of them are members, and that each is in sync with its first device,
/// but for one with this state and incarnation. In a state's byte 0 is missing, 1 in sync and 2 rebuilding, to this
/// position.
#[derive(Clone, Copy)]
pub(crate) struct Slots {
    pub members: u8,
    pub odd: usize,
    pub state: u8,
    pub incarnation: u8,
    pub position: u8,
}

/// A set of 3 members, all of it in sync.
pub(crate) const WHOLE: Slots = Slots {
    members: 3,
    odd: 0,
    state: 1,
    incarnation: 1,
    position: 0,
};

/// The set without its slot 0, and so on.
pub(crate) const WITHOUT_0: Slots = Slots {
    members: 3,
    odd: 0,
    state: 0,
    incarnation: 1,
    position: 0,
};

pub(crate) const WITHOUT_1: Slots = Slots {
    members: 3,
    odd: 1,
    state: 0,
    incarnation: 1,
    position: 0,
};

pub(crate) const WITHOUT_2: Slots = Slots {
    members: 3,
    odd: 2,
    state: 0,
    incarnation: 1,
    position: 0,
};

pub(crate) const WITHOUT_4: Slots = Slots {
    members: 3,
    odd: 4,
    state: 0,
    incarnation: 1,
    position: 0,
};

/// Member 1 is rebuilding, up to row 64.
pub(crate) const REBUILDING_1: Slots = Slots {
    members: 3,
    odd: 1,
    state: 2,
    incarnation: 1,
    position: 64,
};

/// Member 2 is rebuilding, up to row 32, 33 or 34.
pub(crate) const REBUILDING_2_TO_32: Slots = Slots {
    members: 3,
    odd: 2,
    state: 2,
    incarnation: 1,
    position: 32,
};

pub(crate) const REBUILDING_2_TO_33: Slots = Slots {
    members: 3,
    odd: 2,
    state: 2,
    incarnation: 1,
    position: 33,
};

/// The superblock of this generation in the slot of this role.
pub(crate) fn superblock(generation: u8, role: u8, slots: &Slots) -> Sector {
    let mut sector = BLANK;
    sector[..8].copy_from_slice(b"RAID5JV1");
    sector[8..24].copy_from_slice(&ID);
    sector[24] = generation;
    sector[32] = slots.members;
    sector[33] = role;
    sector[34] = 8;
    sector[36] = 32;
    for slot in 0..10 {
        let is_odd = slot == slots.odd;
        if slot < 2 || slot - 2 < slots.members as usize {
            sector[40 + 16 * slot] = if is_odd { slots.state } else { 1 };
            sector[48 + 16 * slot] = if is_odd { slots.incarnation } else { 1 };
        }
    }
    sector[200] = slots.position;
    let is_odd = role as usize == slots.odd;
    sector[208] = if is_odd { slots.incarnation } else { 1 };
    sector[504..].copy_from_slice(b"1VJ5DIAR");
    sector
}

/// Whether a slot of the set is missing.
pub(crate) fn is_out(slots: &Slots, slot: u8) -> bool {
    slot as usize == slots.odd && slots.state == 0
}

/// The table of this generation.
pub(crate) fn table_of(rt: &impl Abort, generation: u8, slots: &Slots) -> Table {
    let role = if is_out(slots, 0) { 1 } else { 0 };
    let superblock = decode(&superblock(generation, role, slots));
    superblock.expect(rt, "it is a superblock").table
}

/// The seal of the entry of this number that holds whole rows, one or two. Of one row the second is 0.
pub(crate) fn seal(number: u8, rows: [u8; 2]) -> Sector {
    let mut sector = BLANK;
    sector[..8].copy_from_slice(b"RAID5JE1");
    sector[8..24].copy_from_slice(&ID);
    sector[24] = number;
    sector[32] = if rows[1] == 0 { 1 } else { 2 };
    sector[40] = rows[0];
    sector[44] = rows[1];
    sector[504..].copy_from_slice(b"1EJ5DIAR");
    sector
}

/// The same of an entry that holds of its rows the sectors that these masks have.
pub(crate) fn held_seal(number: u8, rows: [u8; 2], masks: [u8; 2]) -> Sector {
    let mut sector = seal(number, rows);
    sector[7] = b'2';
    sector[168] = masks[0];
    sector[169] = masks[1];
    sector[504] = b'2';
    sector
}

/// Devices of zeros of a set with so many members.
pub(crate) fn blank(rt: &(impl Abort + AllocGlobal), members: u8) -> Image {
    let mut slots = Vec::new(rt.alloc());
    for _ in 0..members {
        slots.push(Some(blank_device(rt, 264))).expect(rt, "memory");
    }
    for _ in 0..2 {
        slots.push(Some(blank_device(rt, 520))).expect(rt, "memory");
    }
    Image { slots }
}

/// A device of so many zero sectors.
pub(crate) fn blank_device(rt: &(impl Abort + AllocGlobal), sectors: usize) -> Vec<Sector> {
    let device = vec![in rt.alloc(); BLANK; sectors];
    device.expect(rt, "memory")
}

/// Puts a sector into a slot that has a device.
pub(crate) fn put(rt: &impl Abort, image: &mut Image, slot: usize, at: usize, sector: &Sector) {
    assert!(rt; slot < image.slots.len());
    if let Some(device) = &mut image.slots[slot] {
        assert!(rt; at < device.len());
        device[at] = *sector;
    }
}

/// The bytes of which the members' sectors of a row are full. After the members they are 0.
pub(crate) type Bytes = [u8; 4];

/// Puts a row on so many members.
pub(crate) fn put_row(rt: &impl Abort, image: &mut Image, members: u8, row: u32, bytes: &Bytes) {
    for member in 0..members as usize {
        assert!(rt; member < 4);
        put(rt, image, member, 8 + row as usize, &all(bytes[member]));
    }
}

/// A device, and the call from which on it goes down.
pub(crate) type Failure = (usize, u64);

fn plan_of(rt: &impl Abort, failures: &[Failure]) -> Plan {
    let mut plan = Plan::NONE;
    for failure in failures {
        assert!(rt; failure.0 < 10);
        plan.down[failure.0] = Some(failure.1);
    }
    plan
}

/// A bank that begins with this image, of 5 to 10 slots.
pub(crate) fn bank_of(
    rt: &(impl Abort + AllocGlobal),
    image: Image,
    failures: &[Failure],
) -> MemBank {
    assert!(rt; matches!(image.slots.len(), 5..=10));
    let bank = MemBank::new(rt.alloc(), image, plan_of(rt, failures), 1_000);
    bank.expect(rt, "memory")
}

/// Asks for what stands in a sector of a slot of a bank.
pub(crate) fn check_sector(rt: &impl Abort, bank: &mut MemBank, slot: u8, at: u32, want: &Sector) {
    assert!(rt; slot < bank.devices() && at < bank.sectors(slot));
    let mut sector = all(0xee);
    same(rt, read_sector(bank, slot, at, &mut sector), Ok(()));
    let place = (u64::from(slot), u64::from(at));
    holds(rt, "slot, sector", place, sector == *want);
}

// A device that is up is long enough for its slot.
fn check_device<B: Bank>(rt: &impl Abort, table: &Table, bank: &B, slot: u8)
    requires { slot < (B.panel bank.now).devices }
    ensures { (B.panel bank.now).down slot ≡ false
        → least_sectors table.now.geometry slot ≤ (B.panel bank.now).sectors slot }
{
    assert!(rt; bank.is_down(slot) || bank.sectors(slot) >= least_of(&table.geometry, slot));
}

/// The bank has the devices of the table's set.
pub(crate) fn check_slots<B: Bank>(rt: &impl Abort, table: &Table, bank: &B)
    ensures { HasItsSlots table.now (B.panel bank.now) }
{
    let slots = table.geometry.members + 2;
    assert!(rt; slots <= bank.devices());
    for slot in 0..slots {
        check_device(rt, table, bank, slot);
    }
}

// Whether this logical sector is one of those given.
fn is_given(sectors: &[(u64, Sector)], logical: u64) -> bool
    ensures { IsTrue result ↔ HasLogical sectors.now logical }
{
    for sector in sectors {
        if sector.0 == logical {
            return true;
        }
    }
    false
}

/// The sectors may be committed.
pub(crate) fn check_sectors(rt: &impl Abort, table: &Table, sectors: &[(u64, Sector)])
    ensures { MayCommit table.now sectors.now }
{
    assert!(rt; matches!(sectors.len(), 1..=32));
    for (i, sector) in sectors.iter().enumerate() {
        assert!(rt; sector.0 < table.geometry.data_sectors());
        assert!(rt; !is_given(&sectors[..i], sector.0));
    }
}

/// The number of a row, its mask, and the bytes of its members, of which the entry holds those that the mask has.
pub(crate) type Row = (u32, u8, Bytes);

// Fills the sector of a member in the i-th row, which the row's mask has, with one byte.
fn fill(rt: &impl Abort, entry: &mut Entry, i: usize, member: u8, byte: u8) {
    assert!(rt; i < entry.len() && member < 8);
    assert!(rt; entry.view(i).member(member).is_some());
    *entry.sector_mut(i, member) = all(byte);
}

// Fills the sectors of the i-th row that its mask has.
fn fill_row(rt: &impl Abort, entry: &mut Entry, i: usize, mask: u8, bytes: &Bytes) {
    for member in 0..4u8 {
        if is_held(mask, member) {
            fill(rt, entry, i, member, bytes[member as usize]);
        }
    }
}

// Whether a mask has the bit of a member, 0 to 3 (condition).
fn is_held(mask: u8, member: u8) -> bool
    requires { member < 4 }
{
    (mask >> member) % 2 == 1
}

/// An entry with these rows.
pub(crate) fn entry_of(rt: &(impl Abort + AllocGlobal), rows: &[Row]) -> Entry {
    let mut entry = Entry::new(rt.alloc()).expect(rt, "memory");
    put_rows(rt, &mut entry, rows);
    entry
}

fn put_rows(rt: &impl Abort, entry: &mut Entry, rows: &[Row]) {
    for i in 0..rows.len() {
        let (row, mask, _) = rows[i];
        assert!(rt; entry.len() < 32 && entry.end() <= u64::from(row) && mask.count_ones() >= 2);
        entry.push(row, mask);
        fill_row(rt, entry, i, rows[i].1, &rows[i].2);
    }
}

// Asks that of the i-th row the sectors are held that the mask has, and no other, and are full of these bytes.
fn check_row(rt: &impl Abort, entry: &Entry, i: usize, mask: u8, bytes: &Bytes) {
    assert!(rt; i < entry.len());
    let row = entry.row(i);
    let view = entry.view(i);
    for member in 0..4u8 {
        let is_so = match view.member(member) {
            Some(sector) => is_held(mask, member) && *sector == all(bytes[member as usize]),
            None => !is_held(mask, member),
        };
        holds(
            rt,
            "row, member",
            (u64::from(row), u64::from(member)),
            is_so,
        );
    }
}

/// Asks that an entry has these rows, and no other.
pub(crate) fn check_rows(rt: &impl Abort, entry: &Entry, rows: &[Row]) {
    same(rt, entry.len(), rows.len());
    for i in 0..rows.len() {
        assert!(rt; i < entry.len());
        same(rt, entry.row(i), rows[i].0);
        check_row(rt, entry, i, rows[i].1, &rows[i].2);
    }
}
