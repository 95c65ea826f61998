//! The extents of each volume by place.
ghost use Rattle.std.specs.Prelude.{◌≡◌, ℕ, ◌+◌, ◌<◌, length, slice_index};
ghost use Rattle.extents.specs.ExtentMaps.{IsExtentMap, count_of};
ghost use Rattle.extents.specs.ExtentIndexes.{AreStarts, ArePacked, IsIndex};

use crate::Owned;
use crate::extent_map::MAX_EXTENTS;
use crate::volume_table::MOST_VOLUMES;

/// The extents that are not free, one volume's after the other's, each volume's in order of place.
#[derive(Drop)]
pub struct ExtentIndex {
    /// Where the extents of each volume begin in `packed`, and after the last volume's where all end.
    pub starts: [u16; MOST_VOLUMES + 1],
    /// The extents of volume 0 in order of place, then those of volume 1, and so on; what is after them says nothing.
    pub packed: [u16; MAX_EXTENTS],
}

impl ExtentIndex {
    /// The index of the extents with these owners. It goes over the owners twice.
    pub fn of(owners: &[Option<Owned>]) -> ExtentIndex
        requires { IsExtentMap owners.now }
        ensures { IsIndex owners.now result }
    {
        let starts = starts_of(owners);
        let packed = packed_of(owners, &starts);
        ExtentIndex { starts, packed }
    }
}

// How many extents each volume has, one place after the volume's own; 0 at place 0.
fn counts_of(owners: &[Option<Owned>]) -> [u16; MOST_VOLUMES + 1]
    requires { IsExtentMap owners.now }
    ensures long { length result ≡ MOST_VOLUMES + 1 }
    ensures first { slice_index result 0 ≡ 0 }
    ensures counts { (volume : ℕ) → volume < MOST_VOLUMES
        → slice_index result (volume + 1) ≡ count_of owners.now volume }
{
    let mut counts = [0; MOST_VOLUMES + 1];
    for owner in owners {
        if let Some(owned) = owner {
            counts[usize::from(owned.volume) + 1] += 1;
        }
    }
    counts
}

// Where the extents of each volume begin in the index: how many the volumes below it have.
fn starts_of(owners: &[Option<Owned>]) -> [u16; MOST_VOLUMES + 1]
    requires { IsExtentMap owners.now }
    ensures { AreStarts owners.now result }
{
    let mut starts = counts_of(owners);
    for volume in 0..MOST_VOLUMES {
        starts[volume + 1] += starts[volume];
    }
    starts
}

// The extents that are not free, each at its place in the index.
fn packed_of(owners: &[Option<Owned>], starts: &[u16; MOST_VOLUMES + 1]) -> [u16; MAX_EXTENTS]
    requires map { IsExtentMap owners.now }
    requires starts { AreStarts owners.now starts.now }
    ensures { ArePacked owners.now result }
{
    let mut packed = [0; MAX_EXTENTS];
    for (extent, owner) in owners.iter().enumerate() {
        if let Some(owned) = owner {
            let first = usize::from(starts[usize::from(owned.volume)]);
            packed[first + usize::from(owned.place)] = extent as u16;
        }
    }
    packed
}
