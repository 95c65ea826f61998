//! Whether what was read of a table keeps its rules.
ghost use Rattle.std.specs.Prelude.{◌≡◌, ◌↔◌, ℕ, IsTrue, MatchOption};
ghost use Rattle.extents.specs.Owners.{IsAt};
ghost use Rattle.extents.specs.VolumeTables.{record_of, extents_of, AreDistinct, AreOfVersion, HaveTheirPlaces};
ghost use Rattle.extents.specs.VolumeTables.{IsVolumeTable};
ghost use Rattle.extents.specs.Versions.{IsVersion};
ghost use Rattle.extents.specs.Checks.{IsNamed, IsFirstNamed, IsFirstAt, OwnersFit, PlacesOccur, AllPlacesOccur};
ghost use Rattle.extents.specs.Checks.{AreCleanBeyond, AreCleanFrom, AreFreeFrom};

use crate::extent_map::MAX_EXTENTS;
use crate::version::tells_dirty;
use crate::volume_table::MOST_VOLUMES;
use crate::{ExtentLayout, Name, Owned, Record};

// The number of the first record with this name. None where there is none.
fn first_named(records: &[Option<Record>], name: &Name) -> Option<usize>
    ensures { MatchOption result ((i : ℕ) → IsNamed records.now i name.now.bytes.items → ⊥)
        (λ i. IsFirstNamed records.now name.now.bytes.items i) }
{
    for (number, record) in records.iter().enumerate() {
        if let Some(record) = record {
            if record.name.bytes() == name.bytes() {
                return Some(number);
            }
        }
    }
    None
}

// Whether no two used records have the same name.
fn are_distinct(records: &[Option<Record>]) -> bool
    ensures { IsTrue result ↔ AreDistinct records.now }
{
    for (number, record) in records.iter().enumerate() {
        if let Some(record) = record {
            if first_named(records, &record.name) != Some(number) {
                return false;
            }
        }
    }
    true
}

// The first extent that a volume has at this place. None where it has none there.
fn first_at(extents: &[Option<Owned>], volume: u8, place: u32) -> Option<usize>
    ensures { MatchOption result ((e : ℕ) → IsAt extents.now e volume place → ⊥)
        (λ e. IsFirstAt extents.now volume place e) }
{
    for (extent, owner) in extents.iter().enumerate() {
        if let Some(owner) = owner
            && owner.volume == volume
            && u32::from(owner.place) == place
        {
            return Some(extent);
        }
    }
    None
}

// How many extents the record of this number takes; none where it is not used or there is no such record.
fn extents_of_volume(layout: &ExtentLayout, records: &[Option<Record>], volume: u8) -> u32
    ensures { result ≡ extents_of layout.now.blocks (record_of records.now volume) }
{
    match records.get(usize::from(volume)) {
        Some(Some(record)) => layout.extents_for(record.blocks),
        _ => 0,
    }
}

// Whether each extent that is not free has a place that its volume's length takes, and no extent before it has the
// same.
fn owners_fit(layout: &ExtentLayout, records: &[Option<Record>], extents: &[Option<Owned>]) -> bool
    ensures { IsTrue result ↔ OwnersFit layout.now.blocks records.now extents.now }
{
    for (extent, owner) in extents.iter().enumerate() {
        if let Some(owner) = owner {
            let place = u32::from(owner.place);
            let within = place < extents_of_volume(layout, records, owner.volume);
            if !within || first_at(extents, owner.volume, place) != Some(extent) {
                return false;
            }
        }
    }
    true
}

// Whether the first n places of a volume occur.
fn places_occur(extents: &[Option<Owned>], volume: u8, n: u32) -> bool
    ensures { IsTrue result ↔ PlacesOccur extents.now volume n }
{
    for place in 0..n {
        if first_at(extents, volume, place).is_none() {
            return false;
        }
    }
    true
}

// Whether all places that the records' lengths take occur.
fn all_places_occur(
    layout: &ExtentLayout,
    records: &[Option<Record>],
    extents: &[Option<Owned>],
) -> bool
    ensures { IsTrue result ↔ AllPlacesOccur layout.now.blocks records.now extents.now }
{
    for volume in 0..MOST_VOLUMES as u8 {
        if !places_occur(extents, volume, extents_of_volume(layout, records, volume)) {
            return false;
        }
    }
    true
}

/// Whether these records and owners are a table of this version, which the records are of (condition), and each record
/// has exactly the extents that its blocks take in a set whose extents lie so.
pub fn is_table(
    layout: &ExtentLayout,
    version: u8,
    records: &[Option<Record>; MOST_VOLUMES],
    extents: &[Option<Owned>; MAX_EXTENTS],
) -> bool
    requires is_version { IsVersion version }
    requires of_version { AreOfVersion version records.now }
    ensures { IsTrue result ↔ (∥ IsVolumeTable version records.now extents.now ∥₁
        × ∥ HaveTheirPlaces layout.now.blocks records.now extents.now ∥₁) }
{
    if !are_distinct(records) {
        return false;
    }
    if !owners_fit(layout, records, extents) {
        return false;
    }
    all_places_occur(layout, records, extents)
}

/// Whether each extent from this one on is free.
pub fn are_free_from(extents: &[Option<Owned>], first: u32) -> bool
    ensures { IsTrue result ↔ AreFreeFrom extents.now first }
{
    for (extent, owner) in extents.iter().enumerate() {
        if first as usize <= extent && owner.is_some() {
            return false;
        }
    }
    true
}

/// Whether each extent from this one on is clean, where a table of this version tells so.
pub fn are_clean_beyond(version: u8, dirty: &[bool; MAX_EXTENTS], first: u32) -> bool
    ensures { IsTrue result ↔ AreCleanBeyond version dirty.now first }
{
    !tells_dirty(version) || are_clean_from(dirty, first)
}

// Whether each extent from this one on is clean.
fn are_clean_from(dirty: &[bool; MAX_EXTENTS], first: u32) -> bool
    ensures { IsTrue result ↔ AreCleanFrom dirty.now first }
{
    for (extent, flag) in dirty.iter().enumerate() {
        if first as usize <= extent && *flag {
            return false;
        }
    }
    true
}
