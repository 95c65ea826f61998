//! Where the extents of a set lie.
ghost use Rattle.extents.specs.Layouts.{IsExtentLayout};

use layout_map::Format;

/// Where the extents of a set lie: one after another, each of as many blocks, from a logical sector on; and of which
/// format the set is.
#[derive(Clone, Copy, Debug, PartialEq, Eq)]
pub struct ExtentLayout {
    /// The format of the set, which says which versions its table of volumes may have.
    pub format: Format,
    /// The logical sector with which the first extent begins, 64 at least.
    pub first: u64,
    /// The blocks of an extent, each in a logical sector, 1 at least.
    pub blocks: u64,
    /// The extents, at most 1,024.
    pub count: u32,
    pub ghost limits: { IsExtentLayout first blocks count },
}
