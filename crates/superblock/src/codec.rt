//! Superblocks as sectors: each has one spelling, and nothing else is read as it.
ghost use Rattle.std.specs.Prelude.{◌≡◌, ◌++◌, ◌↔◌, take, IfSome, IsTrue};
ghost use Rattle.superblock.specs.declared.table.Superblock.{Superblock};
ghost use Rattle.superblock.specs.Spelling.{entries_bytes, head_bytes, superblock_sector, tail_bytes};

use crate::fields::read_fields;
use crate::marks::{begin_mark_of, end_mark_of};
use crate::rules::judge;
use crate::{State, Superblock};
use byteorder::{ByteOrder, LittleEndian};
use sector_model::Sector;

/// Spells the superblock: the sector becomes its one spelling, whatever it held before. The marks at its ends are those
/// of the set's format; all else is spelled alike in both.
pub fn encode(superblock: &Superblock, to: &mut Sector)
    ensures { to.new ≡ superblock_sector superblock.now }
{
    write_head(superblock, to);
    write_entries(&superblock.table.states, &superblock.table.incarnations, to);
    write_tail(superblock, to);
}

/// The superblock that the sector spells, or `None` where it spells none: exactly the sectors that `encode` writes are
/// accepted.
///
/// Refused are marks that are not both of one format, a filler byte that is not zero, a role that is no slot, a state
/// byte above 2, an own incarnation other than that of the role's slot, a geometry that is none of the marks' format,
/// and numbers and states that `Table` and `Superblock` do not allow.
pub fn decode(from: &Sector) -> Option<Superblock>
    ensures some { IfSome result (λ superblock. from.now ≡ superblock_sector superblock) }
    ensures exact { (superblock : Superblock) → from.now ≡ superblock_sector superblock → result ≡ Some superblock }
{
    let superblock = judge(&read_fields(from)?)?;
    if spells(from, &superblock) {
        Some(superblock)
    } else {
        None
    }
}

// Whether the sector is the spelling of the superblock, in each byte.
fn spells(sector: &Sector, superblock: &Superblock) -> bool
    ensures { IsTrue result ↔ (sector.now ≡ superblock_sector superblock.now) }
{
    let mut spelling = [0; 512];
    encode(superblock, &mut spelling);
    spelling == *sector
}

// Writes the 40 bytes before the entries.
fn write_head(superblock: &Superblock, to: &mut Sector)
    ensures { take 40 to.new ≡ head_bytes superblock.now }
{
    let table = &superblock.table;
    to[..8].copy_from_slice(&begin_mark_of(table.geometry.format));
    to[8..24].copy_from_slice(&table.id);
    LittleEndian::write_u64(&mut to[24..], table.generation);
    to[32] = table.geometry.members;
    to[33] = superblock.role;
    LittleEndian::write_u16(&mut to[34..], table.geometry.chunk);
    LittleEndian::write_u32(&mut to[36..], table.geometry.stripes);
}

// Writes the ten entries after the head.
fn write_entries(states: &[State; 10], incarnations: &[u64; 10], to: &mut Sector)
    ensures { take 200 to.new ≡ take 40 to.old ++ entries_bytes 10 states.now incarnations.now }
{
    for slot in 0..10 {
        let at = 40 + 16 * slot;
        to[at] = states[slot].byte();
        to[at + 1..at + 8].fill(0);
        LittleEndian::write_u64(&mut to[at + 8..], incarnations[slot]);
    }
}

// Writes the 312 bytes after the entries.
fn write_tail(superblock: &Superblock, to: &mut Sector)
    ensures { to.new ≡ take 200 to.old ++ tail_bytes superblock.now }
{
    let table = &superblock.table;
    LittleEndian::write_u64(&mut to[200..], table.position);
    LittleEndian::write_u64(&mut to[208..], table.incarnations[superblock.role as usize]);
    to[216..504].fill(0);
    to[504..].copy_from_slice(&end_mark_of(table.geometry.format));
}
