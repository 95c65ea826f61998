//! The extents of a set.
ghost use Rattle.std.specs.Prelude.{◌≡◌};
ghost use Rattle.extents.specs.SetExtents.{extents_in};
ghost use Rattle.extents.specs.VolumeTables.{extents_for, most_blocks};

use crate::{ExtentLayout, MOST_BLOCKS};
use layout_map::{Geometry, MOST_EXTENTS};

impl ExtentLayout {
    /// Where the extents of a set of this geometry lie.
    pub fn of(geometry: &Geometry) -> ExtentLayout
        ensures { result ≡ extents_in geometry.now }
    {
        ExtentLayout {
            format: geometry.format,
            first: geometry.first_extent(),
            blocks: geometry.extent_blocks(),
            count: geometry.extents(),
        }
    }

    /// The most blocks of a volume: those of 1,024 extents, whether the set has as many or not, and 4,294,967,295 where
    /// they would be more.
    pub fn most_blocks(&self) -> u32
        ensures { result ≡ most_blocks self.now.blocks }
    {
        (self.blocks * MOST_EXTENTS).min(u64::from(MOST_BLOCKS)) as u32
    }

    /// The extents that so many blocks take, the last of them in part where the blocks don't fill it.
    pub fn extents_for(&self, blocks: u32) -> u32
        ensures { result ≡ extents_for self.now.blocks blocks }
    {
        u64::from(blocks).div_ceil(self.blocks) as u32
    }
}
