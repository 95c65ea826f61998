//! How long the devices of a set have to be.
ghost use Rattle.std.specs.Prelude.{◌≡◌, ◌<◌, ◌^◌};
ghost use Rattle.superblock.specs.Counted.{least_sectors};

use layout_map::{FIRST_ROW, Geometry};

/// The least number of sectors of the device of a slot of a set of this geometry: a member's rows stand from sector 8
/// on, a journal's bodies end before sector 520, in format 2 before sector 8,200.
pub fn least_of(geometry: &Geometry, slot: u8) -> u32
    ensures least { result ≡ least_sectors geometry.now slot }
    ensures fits { result < 2 ^ 32 }
{
    if slot < geometry.members {
        FIRST_ROW + geometry.rows() as u32
    } else {
        geometry.format.journal_sectors()
    }
}
