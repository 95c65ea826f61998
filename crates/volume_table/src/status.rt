//! What a set says of itself to its user.
ghost use Rattle.std.specs.Prelude.{◌≤◌};
ghost use Rattle.layout_map.specs.declared.sizes.TheConstants.{MOST_MEMBERS};

use layout_map::Format;
use superblock::State;

/// A set's shape, how much of it is in use, and the state of each slot. Slots 0 to members - 1 are members, the next
/// two are journals.
#[derive(Clone, Copy)]
pub struct Status {
    /// The set's id.
    pub id: [u8; 16],
    /// The format of the set.
    pub format: Format,
    /// How many members there are, at most 8.
    pub members: u8,
    /// The sectors of a chunk.
    pub chunk: u16,
    /// The stripes of the set.
    pub stripes: u32,
    /// The rows of a member.
    pub rows: u64,
    /// The number of the set's table.
    pub generation: u64,
    /// The rows of the rebuilding member that count; 0 where no member is rebuilding.
    pub position: u64,
    /// The blocks of an extent.
    pub extent_blocks: u64,
    /// The extents for volumes, those in use and those free.
    pub extents: u32,
    /// The extents that no volume has.
    pub free: u32,
    /// How many volumes there are.
    pub volumes: u32,
    /// The version of the table of volumes: 1 or 2, in format 2 always 3.
    pub version: u8,
    /// The state of each slot; after the second journal nothing is read.
    pub states: [State; 10],
    /// How often each slot was given a device; after the second journal nothing is read.
    pub incarnations: [u64; 10],
    pub ghost few: { members ≤ MOST_MEMBERS },
}
