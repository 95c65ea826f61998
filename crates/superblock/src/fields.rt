//! The fields of a superblock, as they stand in a sector.
ghost use Rattle.std.specs.Prelude.{◌≡◌, ◌<◌};
ghost use Rattle.superblock.specs.declared.table.Superblock.{Superblock};
ghost use Rattle.superblock.specs.Reading.{fields_of};
ghost use Rattle.superblock.specs.Spelling.{superblock_sector};
ghost use Rattle.superblock.specs.Tables.{state_at, incarnation_at};

use crate::State;
use crate::marks::format_of_digit;
use byteorder::{ByteOrder, LittleEndian};
use layout_map::Format;
use sector_model::Sector;

// What a sector says at the places of a superblock's fields, whether or not it is allowed.
#[derive(Clone, Copy)]
pub(crate) struct Fields {
    pub format: Format,
    pub id: [u8; 16],
    pub generation: u64,
    pub members: u8,
    pub role: u8,
    pub chunk: u16,
    pub stripes: u32,
    pub states: [State; 10],
    pub incarnations: [u64; 10],
    pub position: u64,
}

// The fields as the sector has them: for the sector of a superblock those of the superblock. `None` where the first
// mark's digit is of no format, or a byte for a state spells none.
pub(crate) fn read_fields(from: &Sector) -> Option<Fields>
    ensures { (superblock : Superblock) → from.now ≡ superblock_sector superblock
        → result ≡ Some (fields_of superblock) }
{
    let format = format_of_digit(from[7])?;
    let (states, incarnations) = read_entries(from)?;
    let mut id = [0; 16];
    id.copy_from_slice(&from[8..24]);
    Some(Fields {
        format,
        id,
        generation: LittleEndian::read_u64(&from[24..]),
        members: from[32],
        role: from[33],
        chunk: LittleEndian::read_u16(&from[34..]),
        stripes: LittleEndian::read_u32(&from[36..]),
        states,
        incarnations,
        position: LittleEndian::read_u64(&from[200..]),
    })
}

// The states and incarnations of the ten entries.
fn read_entries(from: &Sector) -> Option<([State; 10], [u64; 10])>
    ensures { (superblock : Superblock) → from.now ≡ superblock_sector superblock
        → result ≡ Some (superblock.table.states, superblock.table.incarnations) }
{
    let mut states = [State::Missing; 10];
    let mut incarnations = [0; 10];
    for slot in 0..10 {
        let (state, incarnation) = read_entry(from, slot)?;
        states[slot] = state;
        incarnations[slot] = incarnation;
    }
    Some((states, incarnations))
}

// The state and incarnation of one entry.
fn read_entry(from: &Sector, slot: usize) -> Option<(State, u64)>
    requires { slot < 10 }
    ensures { (superblock : Superblock) → from.now ≡ superblock_sector superblock
        → result ≡ Some (state_at superblock.table.states slot, incarnation_at superblock.table.incarnations slot) }
{
    let at = 40 + 16 * slot;
    let state = State::from_byte(from[at])?;
    Some((state, LittleEndian::read_u64(&from[at + 8..])))
}
