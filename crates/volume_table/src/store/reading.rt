//! Blocks of a volume are read.
ghost use Rattle.std.specs.Prelude.{◌≡◌, ◌≤◌, ◌+◌, ◌↔◌, List, Option, OnOk, length};
ghost use Rattle.sector_model.specs.History.{Bytes};
ghost use Rattle.superblock.specs.Cases.{Lost};
ghost use Rattle.extents.specs.declared.record.TheConstants.{MOST_BLOCKS};
ghost use Rattle.array_io.specs.Believed.Views.{RestsOn};
ghost use Rattle.array_io.specs.Believed.OpenArray.{IsHonest, array_view};
ghost use Rattle.volume_table.specs.ListChanges.{ChangesList, IsSame};
ghost use Rattle.extents.specs.SetExtents.{extents_in};
ghost use Rattle.volume_table.specs.StoreChanges.{AllPlaced, AreReadFrom};
ghost use Rattle.volume_table.specs.StoreFunctions.{ReadsBlocks};
ghost use Rattle.volume_table.specs.OpenStore.{store_view};

use super::Store;
use super::admission::admit_within;
use crate::event::MOST_BLOCKS_AT_ONCE;
use array_io::Array;
use extents::{ExtentLayout, ExtentMap};
use sector_model::{Bank, Refusal, Sector};

impl<B: Bank> Store<B> {
    /// Reads blocks of the volume of this name, from block `at` on: as many as `to` has places, 1 to 32. Each is one
    /// read of the array, and the table is not read.
    ///
    /// Refused, in this order, with `NoVolume` where no volume has the name, `BadCount` where `to` has 0 places or more
    /// than 32, and `OutOfRange` where the volume has not so many blocks. `TwoLost` and `Worn` end the store. After a
    /// refusal `to` may hold anything.
    pub fn read(&mut self, name: &[u8], at: u32, to: &mut [Sector]) -> Result<(), Refusal>
        ensures honest { IsHonest self.old.array ↔ IsHonest self.new.array }
        ensures few { OnOk result (length to.old ≤ MOST_BLOCKS_AT_ONCE) }
        ensures table { self.new.table ≡ self.old.table }
        ensures reads { ReadsBlocks (IsHonest self.old.array) name.now at to.old to.new (store_view self.old)
            (store_view self.new) result }
    {
        if let Some(refusal) = self.ended {
            return Err(refusal);
        }
        let volume = admit_within(&self.table, name, at, to.len())?;
        let answer = read_blocks(&mut self.array, &self.map, volume, at, to);
        self.end(answer)
    }
}

// Reads blocks of a volume from block `at` on. The map is that of the set's extents, and each of the blocks has an
// extent of the volume (conditions). Refused as a read of the array is.
fn read_blocks<B: Bank>(
    array: &mut Array<B>,
    map: &ExtentMap,
    volume: u8,
    at: u32,
    to: &mut [Sector],
) -> Result<(), Refusal>
    requires sized { length map.now ≤ (extents_in array.old.table.geometry).count }
    requires within { at + length to.old ≤ MOST_BLOCKS }
    requires placed { AllPlaced (extents_in array.old.table.geometry) map.now volume at (at + length to.old) }
    ensures honest { IsHonest array.old ↔ IsHonest array.new }
    ensures changes { ChangesList (IsHonest array.old) 0 IsSame IsSame (array_view array.old) (array_view array.new)
        result }
    ensures long { length to.new ≡ length to.old }
    ensures gives { IsHonest array.old → OnOk result ((lost : Option Lost) (V : List Bytes)
        → RestsOn (array_view array.old) lost V
        → AreReadFrom (extents_in array.old.table.geometry) map.now volume at to.new V) }
{
    let extents = ExtentLayout::of(&array.table.geometry);
    for (i, place) in to.iter_mut().enumerate() {
        array.read(map.where_is(&extents, volume, at + i as u32), place)?;
    }
    Ok(())
}
