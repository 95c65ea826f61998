//! What one row has in memory.
ghost use Rattle.std.specs.Prelude.{◌≤◌};
ghost use Rattle.layout_map.specs.declared.sizes.TheConstants.{MOST_MEMBERS};

use sector_model::Sector;

/// What one row has of each member. What the arrays have from place `members` on doesn't count.
#[derive(Clone, Copy)]
pub struct RowSources {
    /// The members, at most 8.
    pub members: u8,
    /// The sector that the last entry has for the member in this row, if it has one.
    pub entry: [Option<Sector>; 8],
    /// Whether the member's own sector counts: it is live and, when it is rebuilding, the row is below its position.
    pub trusted: [bool; 8],
    /// The member's own sector.
    pub own: [Sector; 8],
    pub ghost limit: { members ≤ MOST_MEMBERS },
}
