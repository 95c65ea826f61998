//! What the table of volumes says of one volume.
ghost use Rattle.std.specs.Prelude.{◌≤◌};
ghost use Rattle.extents.specs.declared.record.TheConstants.{MOST_BLOCKS};

use crate::Name;

/// The most blocks of a volume in any set; of which each has its own most, `ExtentLayout::most_blocks`.
pub const MOST_BLOCKS: u32 = 4_294_967_295;

/// What the table says of one volume.
#[derive(Drop)]
pub struct Record {
    /// The volume's name.
    pub name: Name,
    /// The volume's length in blocks of 512 bytes, 1 at least.
    pub blocks: u32,
    ghost some: { 1 ≤ blocks },
    ghost most: { blocks ≤ MOST_BLOCKS },
}
