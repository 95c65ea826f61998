//! A volume is extended.
ghost use Rattle.std.specs.Prelude.{◌↔◌};
ghost use Rattle.array_io.specs.Believed.OpenArray.{IsHonest};
ghost use Rattle.volume_table.specs.StoreFunctions.{ExtendsVolume};
ghost use Rattle.volume_table.specs.OpenStore.{store_view};

use super::Store;
use super::admission::admit_extension;
use super::growing::grow;
use extents::ExtentLayout;
use sector_model::{Bank, Refusal};

impl<B: Bank> Store<B> {
    /// Appends so many zero blocks to the volume of this name. They are made zero while no volume shows them, those
    /// after its end in an extent that it has already among them, and then one commit changes the table: at each moment
    /// a crash leaves the volume as it was, or extended.
    ///
    /// Refused, in this order, with `NoVolume` where no volume has the name; `BadSize` where the growth is 0, or the
    /// volume would have more than the most blocks of the set (65,536 in a set of format 1); and `NoSpace` where the
    /// volumes would need more extents than the set has. Nothing was then done. `TwoLost` and `Worn` end the store.
    pub fn extend(&mut self, name: &[u8], by: u32) -> Result<(), Refusal>
        ensures honest { IsHonest self.old.array ↔ IsHonest self.new.array }
        ensures extends { ExtendsVolume (IsHonest self.old.array) name.now by (store_view self.old)
            (store_view self.new) result }
    {
        if let Some(refusal) = self.ended {
            return Err(refusal);
        }
        let extents = ExtentLayout::of(&self.array.table.geometry);
        let growth = admit_extension(&self.table, &self.map, &extents, name, by)?;
        let answer = grow(&mut self.array, &mut self.table, &mut self.map, growth);
        self.end(answer)
    }
}
