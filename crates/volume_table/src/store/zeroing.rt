//! Blocks of a volume are made zero.
ghost use Rattle.std.specs.Prelude.{◌≡◌, ◌↔◌};
ghost use Rattle.array_io.specs.Believed.OpenArray.{IsHonest};
ghost use Rattle.volume_table.specs.OpenStore.{store_view};
ghost use Rattle.volume_table.specs.Zeroing.{Zeroes};

use super::Store;
use super::admission::admit_zeroing;
use super::zero_ranges::zero_range;
use sector_model::{Bank, Refusal};

impl<B: Bank> Store<B> {
    /// Makes 1 to 65,536 blocks of the volume of this name zero, from block `at` on: as writes of up to 32 zero blocks
    /// in rising order of blocks do, of which many are committed together. At each moment a crash leaves the first of
    /// these writes, none or all of them among these, and after `Ok` all.
    ///
    /// Up to 32 blocks are one write. More are cut into those before the first whole stripe, the whole stripes, and
    /// those after them. In a set of format 2 a commit makes up to 2,048 blocks beside whole stripes zero, or up to 58
    /// runs of whole stripes, for which no data are written to the journals. In a set of format 1 it makes 32 zero.
    ///
    /// Refused, in this order, with `NoVolume` where no volume has the name, `BadCount` where `count` is 0 or above
    /// 65,536, and `OutOfRange` where the volume has not so many blocks. Nothing was then done. `TwoLost` and `Worn`
    /// end the store; the first of the writes may then be committed.
    pub fn zero(&mut self, name: &[u8], at: u32, count: u32) -> Result<(), Refusal>
        ensures honest { IsHonest self.old.array ↔ IsHonest self.new.array }
        ensures table { self.new.table ≡ self.old.table }
        ensures zeroes { Zeroes (IsHonest self.old.array) name.now at count (store_view self.old) (store_view self.new)
            result }
    {
        if let Some(refusal) = self.ended {
            return Err(refusal);
        }
        let volume = admit_zeroing(&self.table, name, at, count)?;
        let answer = zero_range(&mut self.array, &self.map, volume, at, at + count);
        self.end(answer)
    }
}
