//! A volume is removed.
ghost use Rattle.std.specs.Prelude.{◌≡◌, ◌≢◌, ◌↔◌, ◌<◌, None, slice_set};
ghost use Rattle.array_io.specs.Believed.OpenArray.{IsHonest, array_view};
ghost use Rattle.extents.specs.ExtentMaps.{IsGivenBack};
ghost use Rattle.extents.specs.VolumeTables.{IsMarked};
ghost use Rattle.volume_table.specs.Admission.{AreKept};
ghost use Rattle.volume_table.specs.ListChanges.{ChangesList};
ghost use Rattle.extents.specs.SetExtents.{extents_in};
ghost use Rattle.volume_table.specs.StoreChanges.{MayPutTable, PutsTable};
ghost use Rattle.volume_table.specs.StoreFunctions.{RemovesVolume};
ghost use Rattle.volume_table.specs.OpenStore.{store_view};
ghost use Rattle.extents.specs.declared.volume_table.TheConstants.{MOST_VOLUMES};

use super::Store;
use super::admission::admit_removal;
use super::saving::{put_table, spelled};
use array_io::Array;
use extents::{ExtentMap, VolumeTable};
use sector_model::{Bank, Refusal};

impl<B: Bank> Store<B> {
    /// Removes the volume of this name, by one commit: its blocks are gone, and its extents are free, and
    /// dirty.
    ///
    /// Refused with `NoVolume` where no volume has the name; nothing was then done. `TwoLost` and `Worn` end the store.
    pub fn remove(&mut self, name: &[u8]) -> Result<(), Refusal>
        ensures honest { IsHonest self.old.array ↔ IsHonest self.new.array }
        ensures removes { RemovesVolume (IsHonest self.old.array) name.now (store_view self.old) (store_view self.new)
            result }
    {
        if let Some(refusal) = self.ended {
            return Err(refusal);
        }
        let volume = admit_removal(&self.table, name)?;
        let answer = shrink(&mut self.array, &mut self.table, &mut self.map, volume);
        self.end(answer)
    }
}

// Makes the extents of a volume free, and puts the table without its record. Refused as a commit is; the map and the
// table in memory are then without it.
fn shrink<B: Bank>(
    array: &mut Array<B>,
    table: &mut VolumeTable,
    map: &mut ExtentMap,
    volume: u8,
) -> Result<(), Refusal>
    requires kept { AreKept (extents_in array.old.table.geometry) table.old map.old }
    requires of_table { volume < MOST_VOLUMES }
    ensures honest { IsHonest array.old ↔ IsHonest array.new }
    ensures kept { AreKept (extents_in array.new.table.geometry) table.new map.new }
    ensures version { table.new.version ≡ table.old.version }
    ensures records { table.new.records ≡ slice_set table.old.records volume None }
    ensures marked { IsMarked table.old.extents volume table.old.dirty table.new.dirty }
    ensures given_back { IsGivenBack map.old map.new volume }
    ensures changes { ChangesList (IsHonest array.old) 1 (MayPutTable table.old table.new)
        (PutsTable table.old table.new)
        (array_view array.old) (array_view array.new) result }
{
    let before = spelled(table);
    table.mark_dirty(volume);
    map.give_back(volume);
    table.set(volume, None, map);
    put_table(array, &before, table)
}
