//! A volume gets another name.
ghost use Rattle.std.specs.Prelude.{◌≡◌, ◌↔◌, ◌+◌, OnOk, Ok, Some, slice_set};
ghost use Rattle.array_io.specs.Believed.OpenArray.{IsHonest, array_view};
ghost use Rattle.volume_table.specs.Admission.{AreKept, MayRename};
ghost use Rattle.volume_table.specs.KeptTables.{RenamesKept};
ghost use Rattle.volume_table.specs.ListChanges.{ChangesList};
ghost use Rattle.extents.specs.SetExtents.{extents_in};
ghost use Rattle.volume_table.specs.StoreChanges.{MayPutTable, PutsTable};
ghost use Rattle.volume_table.specs.StoreFunctions.{RenamesVolume};
ghost use Rattle.volume_table.specs.OpenStore.{store_view};

use super::Store;
use super::admission::admit_rename;
use super::saving::{put_table, spelled};
use array_io::Array;
use extents::{ExtentMap, Record, VolumeTable};
use sector_model::{Bank, Refusal};

/// The record of a renamed volume, and its number.
#[derive(Drop)]
pub struct Renaming {
    /// The record's number.
    pub volume: u8,
    /// The record, with the new name.
    pub entry: Record,
}

impl<B: Bank> Store<B> {
    /// Gives the volume of this name another, by one commit: at each moment a crash leaves the volumes as they were, or
    /// with the new name in place of the old one. The volume keeps its record's number, its extents and its blocks,
    /// none of which is written. It takes no memory.
    ///
    /// Refused, in this order, with `NoVolume` where no volume has the old name; `BadName` where the new one is not a
    /// good name by the table's version, as for `create`; and `Exists` where a volume has the new name, be it this one.
    /// Nothing was then done. `TwoLost` and `Worn` end the store.
    pub fn rename(&mut self, old: &[u8], new: &[u8]) -> Result<(), Refusal>
        ensures honest { IsHonest self.old.array ↔ IsHonest self.new.array }
        ensures renames { RenamesVolume (IsHonest self.old.array) old.now new.now (store_view self.old)
            (store_view self.new) result }
        ensures kept { OnOk result (RenamesKept old.now new.now (store_view self.old) (store_view self.new)) }
    {
        if let Some(refusal) = self.ended {
            return Err(refusal);
        }
        let renaming = admit_rename(&self.table, old, new)?;
        let answer = put_name(&mut self.array, &mut self.table, &self.map, renaming);
        self.end(answer)
    }
}

// Puts the table with the record of another name. Refused as a commit is; the table in memory then has it.
fn put_name<B: Bank>(
    array: &mut Array<B>,
    table: &mut VolumeTable,
    map: &ExtentMap,
    renaming: Renaming,
) -> Result<(), Refusal>
    requires kept { AreKept (extents_in array.old.table.geometry) table.old map.now }
    requires may { MayRename table.old.version table.old.records renaming.volume renaming.entry }
    ensures honest { IsHonest array.old ↔ IsHonest array.new }
    ensures kept { AreKept (extents_in array.new.table.geometry) table.new map.now }
    ensures version { table.new.version ≡ table.old.version }
    ensures records { table.new.records ≡ slice_set table.old.records renaming.volume (Some renaming.entry) }
    ensures dirty { table.new.dirty ≡ table.old.dirty }
    ensures changes { ChangesList (IsHonest array.old) 1 (MayPutTable table.old table.new)
        (PutsTable table.old table.new)
        (array_view array.old) (array_view array.new) result }
    ensures entry { result ≡ Ok tt → (array_view array.new).number ≡ (array_view array.old).number + 1 }
{
    let before = spelled(table);
    let Renaming { volume, entry } = renaming;
    table.set(volume, Some(entry), map);
    put_table(array, &before, table)
}
