//! The table of a set, and the superblock that carries it.
ghost use Rattle.std.specs.Prelude.{◌≡◌, ◌≢◌, ◌<◌, ◌+◌, length};
ghost use Rattle.superblock.specs.declared.state.State.TheVariants.{Missing};
ghost use Rattle.superblock.specs.Tables.{IsTable, state_at};

use crate::State;
use layout_map::Geometry;

/// What a set says of itself: its shape, and the state of each slot. Slots 0 to members - 1 are members, the next two
/// are journals.
#[derive(Clone, Copy, Debug, PartialEq, Eq)]
pub struct Table {
    /// The set's id.
    pub id: [u8; 16],
    /// The number of the table, 1 to 2^62: each table that a set publishes has the number after the one before.
    pub generation: u64,
    /// The format, the members, the chunk and the stripes.
    pub geometry: Geometry,
    /// The state of each slot; `Missing` after the second journal. At most one slot is not in sync, and only a member
    /// is rebuilding.
    pub states: [State; 10],
    /// How often each slot was given a device, 1 to 2^62; 0 after the second journal.
    pub incarnations: [u64; 10],
    /// The rows of the rebuilding member that count, below the number of rows; 0 where no member is rebuilding.
    pub position: u64,
    pub ghost id_long: { length id ≡ 16 },
    pub ghost allowed: { IsTable generation geometry states incarnations position },
}

/// A table, as the device of one slot carries it.
#[derive(Clone, Copy)]
pub struct Superblock {
    /// The table.
    pub table: Table,
    /// The slot of the device: one of the set's, which the table does not call missing.
    pub role: u8,
    pub ghost of_set: { role < table.geometry.members + 2 },
    pub ghost there: { state_at table.states role ≢ Missing },
}
