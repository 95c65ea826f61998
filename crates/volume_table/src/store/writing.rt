//! Blocks of a volume are written.
ghost use Rattle.std.specs.Prelude.{◌≡◌, ◌↔◌, ◌≤◌, OnOk, length};
ghost use Rattle.array_io.specs.Believed.OpenArray.{IsHonest};
ghost use Rattle.volume_table.specs.StoreFunctions.{WritesBlocks};
ghost use Rattle.volume_table.specs.OpenStore.{store_view};

use super::Store;
use super::admission::admit_within;
use super::placing::write_blocks;
use crate::event::MOST_BLOCKS_AT_ONCE;
use sector_model::{Bank, Refusal, Sector};

impl<B: Bank> Store<B> {
    /// Writes 1 to 32 blocks of the volume of this name, from block `at` on, by one commit: at each moment a crash
    /// leaves all of them as they were, or all as given.
    ///
    /// Refused, in this order, with `NoVolume` where no volume has the name, `BadCount` where there are 0 blocks or
    /// more than 32, and `OutOfRange` where the volume has not so many. Nothing was then done. `TwoLost` and `Worn` end
    /// the store.
    pub fn write(&mut self, name: &[u8], at: u32, from: &[Sector]) -> Result<(), Refusal>
        ensures honest { IsHonest self.old.array ↔ IsHonest self.new.array }
        ensures few { OnOk result (length from.now ≤ MOST_BLOCKS_AT_ONCE) }
        ensures table { self.new.table ≡ self.old.table }
        ensures writes { WritesBlocks (IsHonest self.old.array) name.now at from.now (store_view self.old)
            (store_view self.new) result }
    {
        if let Some(refusal) = self.ended {
            return Err(refusal);
        }
        let volume = admit_within(&self.table, name, at, from.len())?;
        let answer = write_blocks(&mut self.array, &self.map, volume, at, from);
        self.end(answer)
    }
}
