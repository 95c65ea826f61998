//! A missing slot of a set is given a device.
ghost use Rattle.std.specs.Prelude.{◌↔◌};
ghost use Rattle.array_io.specs.Believed.OpenArray.{IsHonest};
ghost use Rattle.volume_table.specs.StoreFunctions.{ReplacesDevice};
ghost use Rattle.volume_table.specs.OpenStore.{store_view};

use super::Store;
use rebuild::replace;
use sector_model::{Bank, Refusal};

impl<B: Bank> Store<B> {
    /// Takes whatever device the bank has in a missing slot into the set: a member is rebuilding from then on, with no
    /// row done, and a journal is in sync. The slot's incarnation goes up by one.
    ///
    /// Refused with `NotMissing` where the set has no such slot, or the slot is not missing, and nothing was then done;
    /// with `NotUsable` where its device is down, goes down in the call, or is too short: the slot is then missing
    /// still. `TwoLost` and `Worn` end the store.
    pub fn replace(&mut self, slot: u8) -> Result<(), Refusal>
        ensures honest { IsHonest self.old.array ↔ IsHonest self.new.array }
        ensures replaces { ReplacesDevice (IsHonest self.old.array) slot (store_view self.old) (store_view self.new)
            result }
    {
        if let Some(refusal) = self.ended {
            return Err(refusal);
        }
        let answer = replace(&mut self.array, slot);
        self.end_by(answer)
    }
}
