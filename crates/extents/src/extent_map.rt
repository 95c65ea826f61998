//! Which volume has which extents, and where the blocks of a volume lie.
ghost use Rattle.std.specs.Prelude.{◌≡◌, ℕ, ◌+◌, ◌<◌, ◌≤◌, min, length, slice_index};
ghost use Rattle.extents.specs.Owners.{owner_of, HasPlaces};
ghost use Rattle.extents.specs.ExtentMaps.{IsExtentMap, free_of, is_of, count_of, IsTaken, IsGivenBack};
ghost use Rattle.extents.specs.ExtentMaps.{is_wanted, free_below, AreAppended};
ghost use Rattle.extents.specs.ExtentMaps.{HasPlace, IsWhere, place_of};
ghost use Rattle.extents.specs.ExtentIndexes.{AreExtentsOf};
ghost use Rattle.extents.specs.ExtentLaws.{EachExtentIsCounted, TakingKeepsMaps, GivingBackKeepsMaps, BlocksAreWithin};
ghost use Rattle.extents.specs.ExtentLaws.{NoSectorIsShared};

use crate::extent_index::ExtentIndex;
use crate::volume_table::MOST_VOLUMES;
use crate::{ExtentLayout, Owned};
use arrayvec::ArrayVec;
use layout_map::MOST_EXTENTS;
use std::marker::Model;

/// The most extents that a map has, as the length of a list.
pub(crate) const MAX_EXTENTS: usize = MOST_EXTENTS as usize;

/// The owner of each extent of a set: at most 1,024 extents, of volumes 0 to 63.
///
/// An extent has one owner at most. The extents of a volume have the places from 0 on in it, without gap or repeat. The
/// map is of fixed size and takes no memory.
///
/// An index of the owners has the extents by volume and place, so that no question looks through the owners. Taking and
/// giving back go over the owners once for the change and twice for the index.
#[derive(Drop)]
pub struct ExtentMap {
    owners: ArrayVec<Option<Owned>, MAX_EXTENTS>,
    index: ExtentIndex,
}

impl Model for ExtentMap {
    ghost use Rattle.std.specs.Prelude.{List, Option};
    ghost use Rattle.extents.specs.declared.owned.Owned.{Owned};
    ghost use Rattle.extents.specs.ExtentIndexes.{IsIndexedMap};

    ghost Value = { List (Option Owned) };

    ghost view = { λ map. map.owners.items };

    ghost invariant = { λ map. IsIndexedMap map.owners.items map.index };
}

impl ExtentMap {
    /// The map of these owners, which stand in the order of the extents: at most 1,024, of volumes below 64, and the
    /// places of each volume are counted from 0, without gap or repeat.
    pub fn new(owners: &[Option<Owned>]) -> ExtentMap
        requires { IsExtentMap owners.now }
        ensures { result ≡ owners.now }
    {
        match ArrayVec::try_from(owners) {
            Ok(owners) => ExtentMap::indexed(owners),
            Err(_) => unreachable!(),
        }
    }

    // The map of these owners, with their index.
    fn indexed(owners: ArrayVec<Option<Owned>, MAX_EXTENTS>) -> ExtentMap
        requires { IsExtentMap owners.items }
        ensures { result ≡ owners.items }
    {
        let index = ExtentIndex::of(&owners);
        ExtentMap { owners, index }
    }

    /// Who has an extent: `None` for a free one, and for one beyond the map.
    pub fn entry(&self, extent: u32) -> Option<Owned>
        ensures { result ≡ owner_of self.now extent }
    {
        self.owners.get(extent as usize).copied().flatten()
    }

    /// How many extents are free, 0 to 1,024.
    pub fn free_count(&self) -> u32
        ensures { result ≡ free_of self.now }
    {
        self.owners.len() as u32 - u32::from(self.index.starts[MOST_VOLUMES])
    }

    /// How many extents a volume has, 0 to 1,024. They are at the places below this.
    pub fn count(&self, volume: u8) -> u32
        ensures number { result ≡ count_of self.now volume }
        ensures places { HasPlaces self.now volume result }
    {
        self.extents_of(volume).len() as u32
    }

    /// The extents of a volume in order of place, each below 1,024: the one at place 0 first. Empty where the volume
    /// has none.
    pub fn extents_of(&self, volume: u8) -> &[u16]
        ensures extents { AreExtentsOf self.now volume result.now }
        ensures below { (place : ℕ) → place < length result.now → slice_index result.now place < MOST_EXTENTS }
        ensures most { length result.now ≤ MOST_EXTENTS }
    {
        let index = &self.index;
        let volume = usize::from(volume);
        if volume >= MOST_VOLUMES {
            return &[];
        }
        let first = usize::from(index.starts[volume]);
        let end = usize::from(index.starts[volume + 1]);
        &index.packed[first..end]
    }

    /// Appends `n` free extents to a volume: the lowest clean ones first, and then the lowest dirty ones, each in
    /// rising order. An extent is dirty where its flag says so, and where it has none. The volume is below 64, and `n`
    /// extents at least are free.
    pub fn take(&mut self, dirty: &[bool], volume: u8, n: u32)
        requires volume { volume < MOST_VOLUMES }
        requires free { n ≤ free_of self.old }
        ensures { IsTaken dirty.now self.old self.new volume n }
    {
        let first = self.count(volume);
        let owners = self.owners.as_mut_slice();
        let clean = append_lowest(owners, dirty, false, volume, first, n);
        append_lowest(owners, dirty, true, volume, first + clean, n - clean);
        self.index = ExtentIndex::of(&self.owners);
    }

    /// Makes all extents of a volume free. Those of the others stay.
    pub fn give_back(&mut self, volume: u8)
        ensures { IsGivenBack self.old self.new volume }
    {
        free_all(self.owners.as_mut_slice(), volume);
        self.index = ExtentIndex::of(&self.owners);
    }

    /// The logical sector of a block of a volume in a set whose extents lie so. The volume has an extent at the block's
    /// place, the block divided by the blocks of an extent (condition).
    pub fn where_is(&self, extents: &ExtentLayout, volume: u8, block: u32) -> u64
        requires { HasPlace self.now volume (place_of extents.now block) }
        ensures { IsWhere extents.now self.now volume block result }
    {
        let block = u64::from(block);
        let extent = self.extents_of(volume)[(block / extents.blocks) as usize];
        extents.first + u64::from(extent) * extents.blocks + block % extents.blocks
    }
}

// Whether an extent with this owner is the volume's.
fn is_of(owner: &Option<Owned>, volume: u8) -> bool
    ensures { result ≡ is_of volume owner.now }
{
    matches!(owner, Some(owned) if owned.volume == volume)
}

// Whether an extent is wanted: each is where all are, and otherwise a clean one.
fn is_wanted(all: bool, dirty: &[bool], extent: usize) -> bool
    ensures { result ≡ is_wanted all dirty.now extent }
{
    all || !dirty.get(extent).copied().unwrap_or(true)
}

// Gives the n lowest of the wanted free extents to the volume, in rising order, at the places from `first` on, or all
// of them where there are fewer. Answers how many they were.
fn append_lowest(
    owners: &mut [Option<Owned>],
    dirty: &[bool],
    all: bool,
    volume: u8,
    first: u32,
    n: u32,
) -> u32
    requires { first + n ≤ 65536 }
    ensures appended { AreAppended (is_wanted all dirty.now) owners.old owners.new volume first n }
    ensures given { result ≡ min n (free_below (is_wanted all dirty.now) owners.old (length owners.old)) }
{
    let mut taken = 0;
    for (extent, owner) in owners.iter_mut().enumerate() {
        if taken < n && owner.is_none() && is_wanted(all, dirty, extent) {
            *owner = Some(Owned {
                volume,
                place: (first + taken) as u16,
            });
            taken += 1;
        }
    }
    taken
}

// Makes the extents of the volume free.
fn free_all(owners: &mut [Option<Owned>], volume: u8)
    ensures { IsGivenBack owners.old owners.new volume }
{
    for entry in owners.iter_mut() {
        if is_of(entry, volume) {
            *entry = None;
        }
    }
}

/// The laws of maps of extents. It computes nothing: its promises are what it is for.
///
/// Each extent is free or counted for one volume. Taking and giving back make a map of a map, and leave the other
/// volumes their extents; each has one outcome. The extents that are taken come before those that are left: clean ones
/// before dirty ones, and of a kind the lower ones first. Wherever the extents of a set lie, no two blocks share a
/// logical sector, and each lies in one of the extents.
pub fn extent_map_law()
    ensures counted { EachExtentIsCounted }
    ensures taking { TakingKeepsMaps }
    ensures giving_back { GivingBackKeepsMaps }
    ensures within { BlocksAreWithin }
    ensures apart { NoSectorIsShared }
{}

#[cfg(test)]
mod tests;
