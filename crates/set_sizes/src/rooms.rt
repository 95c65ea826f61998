//! How many blocks the volumes of a set can have, and how many data sectors are left over.
ghost use Rattle.std.specs.Prelude.{◌≡◌, ◌+◌, ◌^◌, ◌<◌};
ghost use Rattle.layout_map.specs.Placement.{data_sectors_of, first_extent};
ghost use Rattle.set_sizes.specs.Rooms.{room_of};

use layout_map::Geometry;

/// The blocks that all volumes of a set of this geometry can have together: those of its extents, 64 to 65,536, in
/// format 2 16 to 30,035,410,944.
pub fn room(geometry: &Geometry) -> u64
    ensures room { result ≡ room_of geometry.now.format geometry.now.members geometry.now.chunk geometry.now.stripes }
    ensures most { result < 2 ^ 35 }
{
    u64::from(geometry.extents()) * geometry.extent_blocks()
}

/// The data sectors after the last extent. No volume has a block in them, as it has none in those before the first
/// extent, which do not count here.
pub fn unused(geometry: &Geometry) -> u64
    ensures { first_extent geometry.now.format geometry.now.members geometry.now.chunk
        + room_of geometry.now.format geometry.now.members geometry.now.chunk geometry.now.stripes + result
        ≡ data_sectors_of geometry.now.members geometry.now.chunk geometry.now.stripes }
{
    geometry.data_sectors() - geometry.first_extent() - room(geometry)
}
