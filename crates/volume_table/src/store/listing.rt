//! The volumes of a store.
ghost use Rattle.std.specs.Prelude.{◌≡◌, ◌≢◌, ◌↔◌, ◌<◌, ◌≤◌, ℕ, List, IfOk, OnOk, length, slice_index_or};
ghost use Rattle.std.specs.declared.cmp.Ordering.TheVariants.{Less};
ghost use Rattle.array_io.specs.Believed.OpenArray.{IsHonest};
ghost use Rattle.extents.specs.declared.extent_layout.ExtentLayout.{ExtentLayout};
ghost use Rattle.volume_table.specs.Admission.{ShowsBy};
ghost use Rattle.volume_table.specs.Listing.{IsPutInto, lengths_of, told};
ghost use Rattle.volume_table.specs.Names.{name_order};
ghost use Rattle.volume_table.specs.StoreFunctions.{ListsVolumes, listed_of};
ghost use Rattle.volume_table.specs.Volumes.{Block, VolumeMap};
ghost use Rattle.volume_table.specs.declared.listed.Listed.{Listed};
ghost use Rattle.volume_table.specs.OpenStore.{store_view};

use super::Store;
use crate::Listed;
use extents::{MOST_VOLUMES, Name, Record, VolumeTable, most_volumes};
use sector_model::{Bank, Refusal};
use std::alloc::{AllocError, Global};

impl<B: Bank> Store<B> {
    /// All volumes, in rising byte order of names.
    ///
    /// Refused with `Memory` where there is none for the list. A store that was ended answers the refusal that ended
    /// it.
    pub fn list(&mut self, alloc: Global) -> Result<Vec<Listed>, Refusal>
        ensures honest { IsHonest self.old.array ↔ IsHonest self.new.array }
        ensures lists { ListsVolumes (IsHonest self.old.array) (store_view self.old) (store_view self.new)
            (listed_of result) }
    {
        if let Some(refusal) = self.ended {
            return Err(refusal);
        }
        Ok(volumes_of(alloc, &self.table)?)
    }
}

// The volumes of the used records, in rising order of names. It takes its memory at once.
fn volumes_of(alloc: Global, table: &VolumeTable) -> Result<Vec<Listed>, AllocError>
    ensures { IfOk result (λ listed. (extents : ExtentLayout) (sectors : List Block) (volumes : VolumeMap)
        → ShowsBy extents table.now sectors volumes → told listed.items ≡ lengths_of volumes.volumes) }
{
    let mut volumes = Vec::with_capacity(alloc, most_volumes(table.version))?;
    for number in (0..MOST_VOLUMES).rev() {
        if let Some(entry) = &table.records[number] {
            put(&mut volumes, listed_as(entry))?;
        }
    }
    Ok(volumes)
}

// What a list says of the volume of a record.
fn listed_as(entry: &Record) -> Listed
    ensures name { result.name.bytes.items ≡ entry.now.name.bytes.items }
    ensures as_long { result.blocks ≡ entry.now.blocks }
{
    let Some(name) = Name::new(entry.name.bytes()) else {
        unreachable!()
    };
    Listed {
        name,
        blocks: entry.blocks,
    }
}

// Puts a volume at its place in the order of names.
fn put(volumes: &mut Vec<Listed>, one: Listed) -> Result<(), AllocError>
    ensures { OnOk result (IsPutInto volumes.old.items volumes.new.items one) }
{
    let place = place_of(volumes, one.name.bytes());
    volumes.insert(place, one)?;
    Ok(())
}

// The place of the first of these volumes whose name is greater than this one; their number where there is none.
fn place_of(volumes: &[Listed], name: &[u8]) -> usize
    ensures within { result ≤ length volumes.now }
    ensures not_before { (k : ℕ) (blank : Listed) → k < result
        → name_order name.now (slice_index_or volumes.now k blank).name.bytes.items ≢ Less }
    ensures before { (blank : Listed) → result < length volumes.now
        → name_order name.now (slice_index_or volumes.now result blank).name.bytes.items ≡ Less }
{
    for (place, volume) in volumes.iter().enumerate() {
        if name.cmp(volume.name.bytes()).is_lt() {
            return place;
        }
    }
    volumes.len()
}
