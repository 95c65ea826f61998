//! What this crate's tests have in common: seals byte by byte, journals in a bank, and what they compare values with.
ghost use Rattle.std.specs.Prelude.{◌≡◌, ◌≤◌, ◌<◌, false};

use crate::{Entry, Seal, last_sealed, seal_decode, write_body, write_seal};
use layout_map::{FIRST_BODY, Geometry};
use sector_model::{Bank, Image, MemBank, Plan, Sector, Stop, read_sector};
use std::fmt::Debug;
use std::process::Abort;

/// Ends the test where `got` is not `want`. As a call it leaves the test a fraction of what `assert_eq!` would
/// put into it, and so of the time that the test is checked in.
pub(crate) fn same<T: PartialEq + Debug + Drop>(rt: &impl Abort, got: T, want: T) {
    assert_eq!(rt; got, want);
}

pub(crate) const ID: [u8; 16] = [
    0x00, 0x01, 0x02, 0x03, 0x04, 0x05, 0x06, 0x07, 0x08, 0x09, 0x0a, 0x0b, 0x0c, 0x0d, 0x0e, 0x0f,
];

pub(crate) const OTHER_ID: [u8; 16] = [0xff; 16];

pub(crate) const BLANK: Sector = [0; 512];

const FIRST_MARK: [u8; 8] = [0x52, 0x41, 0x49, 0x44, 0x35, 0x4a, 0x45, 0x31];

const LAST_MARK: [u8; 8] = [0x31, 0x45, 0x4a, 0x35, 0x44, 0x49, 0x41, 0x52];

/// The sector of the seal of an entry that holds whole rows, one row, or two where the second is not 0.
pub(crate) fn spelled(id: &[u8; 16], number: u8, rows: [u16; 2]) -> Sector {
    let mut sector = BLANK;
    sector[..8].copy_from_slice(&FIRST_MARK);
    sector[8..24].copy_from_slice(id);
    sector[24] = number;
    sector[32] = if rows[1] == 0 { 1 } else { 2 };
    sector[40] = (rows[0] % 256) as u8;
    sector[41] = (rows[0] / 256) as u8;
    sector[44] = (rows[1] % 256) as u8;
    sector[45] = (rows[1] / 256) as u8;
    sector[504..].copy_from_slice(&LAST_MARK);
    sector
}

/// The same of an entry that holds of its rows the sectors that these masks have.
pub(crate) fn spelled_held(id: &[u8; 16], number: u8, rows: [u16; 2], masks: [u8; 2]) -> Sector {
    let mut sector = spelled(id, number, rows);
    sector[7] = 0x32;
    sector[168] = masks[0];
    sector[169] = masks[1];
    sector[504] = 0x32;
    sector
}

const RUNS_FIRST_MARK: [u8; 8] = [0x52, 0x41, 0x49, 0x44, 0x35, 0x4a, 0x45, 0x33];

const RUNS_LAST_MARK: [u8; 8] = [0x33, 0x45, 0x4a, 0x35, 0x44, 0x49, 0x41, 0x52];

/// The sector of the seal of form Runs of an entry of this number, with runs of these bytes, of which it takes the
/// first 58.
pub(crate) fn spelled_runs(number: u64, runs: &[[u8; 8]]) -> Sector {
    let mut sector = BLANK;
    sector[..8].copy_from_slice(&RUNS_FIRST_MARK);
    sector[8..24].copy_from_slice(&ID);
    sector[24..32].copy_from_slice(&number.to_le_bytes());
    for i in 0..runs.len().min(58) {
        sector[32] = i as u8 + 1;
        sector[40 + 8 * i..48 + 8 * i].copy_from_slice(&runs[i]);
    }
    sector[504..].copy_from_slice(&RUNS_LAST_MARK);
    sector
}

/// The seal that a sector spells.
pub(crate) fn read_seal(rt: &impl Abort, sector: &Sector) -> Seal {
    seal_decode(sector).expect(rt, "the sector is a seal")
}

/// Whether it is the seal of this number with these rows, or, where the number is 0, there is none.
pub(crate) fn is_seal(found: &Option<Seal>, number: u64, rows: &[u32]) -> bool {
    match found {
        Some(seal) => seal.number == number && seal.form.rows() == rows,
        None => number == 0,
    }
}

/// What stands in a seal place: zeros, or the seal of an entry with this id, number, one row, and its mask, 0 where the
/// entry holds the whole row.
pub(crate) type Place = Option<(&'static [u8; 16], u8, u16, u8)>;

pub(crate) fn sector_of(place: Place) -> Sector {
    match place {
        Some((id, number, row, 0)) => spelled(id, number, [row, 0]),
        Some((id, number, row, mask)) => spelled_held(id, number, [row, 0], [mask, 0]),
        None => BLANK,
    }
}

/// What stands in the even and the odd seal place of a journal, and the number and rows of its last seal; number 0
/// where there is none.
pub(crate) type LastRow = (Place, Place, u64, &'static [u32]);

/// The seal of entry 3 in its place, where other sectors do not count beside it.
const GOOD: Place = Some((&ID, 3, 255, 0));

/// Beside the good seal, and alone: zeros, the seal of another set, of an entry that belongs in the other place, of a
/// row after the last, 255, and with masks that lack the parity's member, 1, that have a member that the set lacks, or
/// that have one bit.
pub(crate) const THAT_DO_NOT_COUNT: &[LastRow] = &[
    (None, GOOD, 3, &[255]),
    (None, None, 0, &[]),
    (Some((&OTHER_ID, 4, 255, 0)), GOOD, 3, &[255]),
    (Some((&OTHER_ID, 4, 255, 6)), None, 0, &[]),
    (Some((&ID, 5, 255, 0)), GOOD, 3, &[255]),
    (Some((&ID, 5, 255, 6)), None, 0, &[]),
    (Some((&ID, 4, 256, 0)), GOOD, 3, &[255]),
    (Some((&ID, 4, 256, 6)), None, 0, &[]),
    (Some((&ID, 4, 255, 5)), GOOD, 3, &[255]),
    (Some((&ID, 4, 255, 0x0e)), GOOD, 3, &[255]),
    (Some((&ID, 4, 255, 0x82)), None, 0, &[]),
    (Some((&ID, 4, 255, 2)), GOOD, 3, &[255]),
];

/// The slots with the two journals; the others have no device.
pub(crate) const FROM: u8 = 3;

pub(crate) const TO: u8 = 4;

/// A bank with two blank journals of a set of format 1.
pub(crate) fn blank_journals(rt: &(impl Abort + AllocGlobal), plan: Plan) -> MemBank {
    journals_of(rt, plan, 520)
}

/// A bank with two blank journals of so many sectors.
pub(crate) fn journals_of(rt: &(impl Abort + AllocGlobal), plan: Plan, sectors: usize) -> MemBank {
    let alloc = rt.alloc();
    let mut slots = Vec::new(alloc);
    for slot in 0..5 {
        let journal = match slot {
            FROM | TO => Some(vec![in alloc; BLANK; sectors].expect(rt, "memory")),
            _ => None,
        };
        slots.push(journal).expect(rt, "memory");
    }
    assert!(rt; slots.len() == 5);
    MemBank::new(alloc, Image { slots }, plan, 4_000).expect(rt, "memory")
}

/// A set with 3 members and 256 rows.
pub(crate) fn set(rt: &impl Abort) -> Geometry {
    Geometry::new(3, 8, 32).ok().expect(rt, "it is a geometry")
}

/// Checks that a journal is there, and has so many sectors while it is up.
pub(crate) fn check_room(rt: &impl Abort, bank: &MemBank, dev: u8, sectors: u32)
    ensures device { dev < (⟦<MemBank as Bank>⟧.panel bank.now).devices }
    ensures within { (⟦<MemBank as Bank>⟧.panel bank.now).down dev ≡ false
        → sectors ≤ (⟦<MemBank as Bank>⟧.panel bank.now).sectors dev }
{
    assert!(rt; dev < bank.devices() && (bank.is_down(dev) || sectors <= bank.sectors(dev)));
}

/// Adds a row to an entry that has fewer than 32, all below it.
pub(crate) fn push(rt: &impl Abort, entry: &mut Entry, row: u32, mask: u8) {
    assert!(rt; entry.len() < 32 && entry.end() <= u64::from(row) && mask.count_ones() >= 2);
    entry.push(row, mask);
}

/// Fills the sector of a member in a row, which the row's mask has, with one byte.
pub(crate) fn fill(rt: &impl Abort, entry: &mut Entry, i: usize, member: u8, byte: u8) {
    assert!(rt; i < entry.len() && member < 8);
    assert!(rt; entry.view(i).member(member).is_some());
    *entry.sector_mut(i, member) = [byte; 512];
}

/// An entry with rows 32 and 33, of which it has what these masks have, two bits each at least. Each sector of the
/// first is full of 0x10 and its member's number, and of the second of 0x20 and its member's number.
pub(crate) fn two_rows(rt: &(impl Abort + AllocGlobal), masks: [u8; 2]) -> Entry {
    let mut entry = Entry::new(rt.alloc()).ok().expect(rt, "memory");
    push(rt, &mut entry, 32, masks[0]);
    push(rt, &mut entry, 33, masks[1]);
    for member in 0..8 {
        fill_held(rt, &mut entry, 0, member, 0x10 + member);
        fill_held(rt, &mut entry, 1, member, 0x20 + member);
    }
    entry
}

// Fills the sector of a member in a row with one byte, where the row's mask has it.
fn fill_held(rt: &impl Abort, entry: &mut Entry, i: usize, member: u8, byte: u8) {
    assert!(rt; i < entry.len() && member < 8);
    if entry.view(i).member(member).is_some() {
        fill(rt, entry, i, member, byte);
    }
}

/// Writes the body of `two_rows` to the first journal, as that of the entry of this number.
pub(crate) fn put_body(
    rt: &(impl Abort + AllocGlobal),
    bank: &mut MemBank,
    number: u64,
    masks: [u8; 2],
) -> Result<(), Stop> {
    let geometry = set(rt);
    let entry = two_rows(rt, masks);
    check_room(rt, bank, FROM, geometry.format.journal_sectors());
    assert!(rt; entry.body_len(geometry.members) <= geometry.format.body_sectors());
    write_body(bank, FROM, number, &entry, &geometry)
}

/// Writes the seal that a sector spells to the first journal.
pub(crate) fn put_seal(rt: &impl Abort, bank: &mut MemBank, sector: &Sector) -> Result<(), Stop> {
    check_room(rt, bank, FROM, FIRST_BODY);
    write_seal(bank, FROM, &read_seal(rt, sector))
}

/// A sector of a journal has these bytes.
pub(crate) fn check_sector(rt: &impl Abort, bank: &mut MemBank, dev: u8, at: u32, want: &Sector) {
    let mut sector = [0xee; 512];
    assert!(rt; at < 8_200);
    check_room(rt, bank, dev, at + 1);
    let answer = read_sector(bank, dev, at, &mut sector);
    same(rt, (dev, at, answer, sector), (dev, at, Ok(()), *want));
}

/// What stands on a journal from the sector before a body of `two_rows` on, to a sector after it, by the byte that each
/// sector is full of.
pub(crate) type Body = &'static [u8];

/// Whole rows of three members.
pub(crate) const WHOLE_ROWS: Body = &[0, 0x10, 0x11, 0x12, 0x20, 0x21, 0x22, 0];

/// Of the second row the parity, on member 1, and member 2.
pub(crate) const HELD_ROWS: Body = &[0, 0x10, 0x11, 0x12, 0x21, 0x22, 0, 0];

/// This body stands on a journal. The sector before it has this number.
pub(crate) fn check_body(rt: &impl Abort, bank: &mut MemBank, dev: u8, before: u32, body: Body) {
    assert!(rt; before < 500 && body.len() <= 8);
    for i in 0..body.len() {
        check_sector(rt, bank, dev, before + i as u32, &[body[i]; 512]);
    }
}

/// Whether the last seal of a journal is that of this number with these rows, or, where the number is 0, there is none.
pub(crate) fn is_last(
    rt: &impl Abort,
    bank: &mut MemBank,
    dev: u8,
    number: u64,
    rows: &[u32],
) -> Result<bool, Stop> {
    let geometry = set(rt);
    check_room(rt, bank, dev, geometry.format.journal_sectors());
    let found = last_sealed(bank, dev, &ID, &geometry)?;
    Ok(is_seal(&found, number, rows))
}
