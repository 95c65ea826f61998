//! The table of volumes.
ghost use Rattle.std.specs.Prelude.{◌≡◌, ◌≤◌, ◌<◌, length, slice_set, MatchOption};
ghost use Rattle.extents.specs.VolumeTables.{AreFlags, HasRecord, IsMarked, IsRecordFor, IsVolumeTable, owners_padded};
ghost use Rattle.extents.specs.Versions.{upgraded_version};

use crate::extent_map::MAX_EXTENTS;
use crate::version::upgraded_version;
use crate::{ExtentMap, Owned, Record};
use layout_map::MOST_EXTENTS;

/// The most sectors that a table of volumes fills: those of the greatest version.
pub const TABLE_SECTORS: usize = 25;
/// The most volumes of a set with a table of the greatest version, and so the records that a table has.
pub const MOST_VOLUMES: usize = 64;

/// Which volumes there are, and who has each extent.
///
/// The names of the records are distinct, and the extents are a map: each volume's have the places from 0 on, without
/// gap or repeat. In a set's table a volume has as many of the set's extents as its blocks take.
#[derive(Drop)]
pub struct VolumeTable {
    /// The version, 1 or 2, or 3 in a set of format 2.
    pub version: u8,
    /// The volumes; None for a record that is not used, as each is from the most volumes of the version on.
    pub records: [Option<Record>; MOST_VOLUMES],
    /// Who has the extent of each number; None for a free one.
    pub extents: [Option<Owned>; MAX_EXTENTS],
    /// Whether the extent of each number is dirty: whether it may hold something else than zeros where no volume has a
    /// block. Each is in versions 1 and 2.
    pub dirty: [bool; MAX_EXTENTS],
    ghost is_table: { ∥ IsVolumeTable version records extents ∥₁ },
    ghost flags: { AreFlags version dirty },
}

/// A record in use.
#[derive(Clone, Copy)]
pub struct Found {
    /// The record's number, below 64 in a table.
    pub number: usize,
    /// How many blocks its volume has.
    pub count: u32,
}

impl VolumeTable {
    /// The record of a name. `None` where no record is used for it.
    pub fn record_named(&self, name: &[u8]) -> Option<Found>
        ensures { MatchOption result (HasRecord self.now.records name.now → ⊥)
            (λ found. IsRecordFor self.now.records name.now found.number found.count) }
    {
        found_in(&self.records, name)
    }

    /// Changes the record of a volume, below 64, and the owners of the extents to those of a map of at most 1,024, so
    /// that they are a table again (conditions). The extents after the map are free.
    pub fn set(&mut self, volume: u8, entry: Option<Record>, map: &ExtentMap)
        requires of_table { volume < MOST_VOLUMES }
        requires most { length map.now ≤ MOST_EXTENTS }
        requires is_table { ∥ IsVolumeTable self.old.version (slice_set self.old.records volume entry)
            (owners_padded map.now) ∥₁ }
        ensures version { self.new.version ≡ self.old.version }
        ensures records { self.new.records ≡ slice_set self.old.records volume entry }
        ensures extents { self.new.extents ≡ owners_padded map.now }
        ensures dirty { self.new.dirty ≡ self.old.dirty }
    {
        self.records[volume as usize] = entry;
        copy_owners(map, &mut self.extents);
    }

    /// Makes the extents that a volume has dirty.
    pub fn mark_dirty(&mut self, volume: u8)
        ensures version { self.new.version ≡ self.old.version }
        ensures records { self.new.records ≡ self.old.records }
        ensures extents { self.new.extents ≡ self.old.extents }
        ensures dirty { IsMarked self.old.extents volume self.old.dirty self.new.dirty }
    {
        mark_extents(&self.extents, volume, &mut self.dirty);
    }

    /// Makes a table of version 1 one of version 2, and leaves any other. Records and extents keep their numbers.
    pub fn upgrade(&mut self)
        ensures version { self.new.version ≡ upgraded_version self.old.version }
        ensures records { self.new.records ≡ self.old.records }
        ensures extents { self.new.extents ≡ self.old.extents }
        ensures dirty { self.new.dirty ≡ self.old.dirty }
    {
        self.version = upgraded_version(self.version);
    }
}

// The record of a name among these. None where no record is used for it.
fn found_in(records: &[Option<Record>], name: &[u8]) -> Option<Found>
    ensures { MatchOption result (HasRecord records.now name.now → ⊥)
        (λ found. IsRecordFor records.now name.now found.number found.count) }
{
    for (number, record) in records.iter().enumerate() {
        if let Some(record) = record {
            if record.name.bytes() == name {
                let count = record.blocks;
                return Some(Found { number, count });
            }
        }
    }
    None
}

// Writes the owners of a map's extents; those after it are free.
fn copy_owners(map: &ExtentMap, to: &mut [Option<Owned>])
    requires most { length map.now ≤ MOST_EXTENTS }
    requires long { length to.old ≡ MOST_EXTENTS }
    ensures { to.new ≡ owners_padded map.now }
{
    for (extent, owner) in to.iter_mut().enumerate() {
        *owner = map.entry(extent as u32);
    }
}

// Makes the extents of the volume among these dirty.
fn mark_extents(extents: &[Option<Owned>], volume: u8, dirty: &mut [bool])
    ensures { IsMarked extents.now volume dirty.old dirty.new }
{
    for (extent, flag) in dirty.iter_mut().enumerate() {
        if let Some(Some(owned)) = extents.get(extent) {
            if owned.volume == volume {
                *flag = true;
            }
        }
    }
}
