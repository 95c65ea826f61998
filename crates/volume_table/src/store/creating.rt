//! A volume is created.
ghost use Rattle.std.specs.Prelude.{◌↔◌, OnOk};
ghost use Rattle.array_io.specs.Believed.OpenArray.{IsHonest};
ghost use Rattle.volume_table.specs.Admission.{TakesLowest};
ghost use Rattle.volume_table.specs.StoreFunctions.{CreatesVolume};
ghost use Rattle.volume_table.specs.OpenStore.{store_view};

use super::Store;
use super::admission::admit_creation;
use super::growing::grow;
use extents::ExtentLayout;
use sector_model::{Bank, Refusal};

impl<B: Bank> Store<B> {
    /// Makes a volume of this name with so many zero blocks, from 1 to the most blocks of the set (65,536 in a set of
    /// format 1). The blocks are made zero while no volume shows them, and then one commit changes the table: at each
    /// moment a crash leaves the volumes as they were, or with the new one. Its record is the lowest one that was not
    /// used.
    ///
    /// Refused, in this order, with `BadName` where the name is not 1 to 24 bytes (63 with a table of version 2), the
    /// first `a` to `z`, the others `a` to `z`, `0` to `9`, `-` or `_`; `BadSize` where the number of blocks is 0 or
    /// above the most blocks of the set; `Exists` where a volume has the name; `TooManyVolumes` where there are 32 (64
    /// with a table of version 2); and `NoSpace` where the volumes would need more extents than the set has. Nothing
    /// was then done. `TwoLost` and `Worn` end the store.
    pub fn create(&mut self, name: &[u8], blocks: u32) -> Result<(), Refusal>
        ensures honest { IsHonest self.old.array ↔ IsHonest self.new.array }
        ensures lowest { OnOk result ∥ TakesLowest self.old.table.version self.old.table.records self.new.table.records
            name.now ∥₁ }
        ensures creates { CreatesVolume (IsHonest self.old.array) name.now blocks (store_view self.old)
            (store_view self.new) result }
    {
        if let Some(refusal) = self.ended {
            return Err(refusal);
        }
        let extents = ExtentLayout::of(&self.array.table.geometry);
        let growth = admit_creation(&self.table, &self.map, &extents, name, blocks)?;
        let answer = grow(&mut self.array, &mut self.table, &mut self.map, growth);
        self.end(answer)
    }
}
