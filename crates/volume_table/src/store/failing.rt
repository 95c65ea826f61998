//! A slot of a set is given up.
ghost use Rattle.std.specs.Prelude.{◌≡◌, ◌↔◌, not, slice_set};
ghost use Rattle.superblock.specs.declared.state.State.TheVariants.{InSync};
ghost use Rattle.superblock.specs.States.{is_complete};
ghost use Rattle.array_io.specs.Believed.OpenArray.{IsHonest};
ghost use Rattle.volume_table.specs.StoreCalls.{set_of};
ghost use Rattle.volume_table.specs.StoreFunctions.{FailsSlot};
ghost use Rattle.volume_table.specs.OpenStore.{store_view};

use super::Store;
use array_io::{is_other_out, mark_slot};
use sector_model::{Bank, Refusal};
use superblock::Table;

impl<B: Bank> Store<B> {
    /// Gives a slot of the set up: it is missing from now on. Of a slot that is missing already nothing changes.
    ///
    /// Refused with `WouldLose` where another slot is not in sync, and then with `NotMissing` where the set has no such
    /// slot; nothing was then done. `TwoLost` and `Worn` end the store.
    pub fn fail(&mut self, slot: u8) -> Result<(), Refusal>
        ensures honest { IsHonest self.old.array ↔ IsHonest self.new.array }
        ensures fails { FailsSlot (IsHonest self.old.array) slot (store_view self.old) (store_view self.new) result }
    {
        if let Some(refusal) = self.ended {
            return Err(refusal);
        }
        if would_lose(&self.array.table, slot) {
            return Err(Refusal::WouldLose);
        }
        if slot >= self.array.table.geometry.members + 2 {
            return Err(Refusal::NotMissing);
        }
        let answer = mark_slot(&mut self.array.bank, &mut self.array.table, slot);
        self.end(answer)
    }
}

// Whether giving a slot of the set up would lose data: another one is not in sync.
fn would_lose(table: &Table, slot: u8) -> bool
    ensures { result ≡ not (is_complete (slice_set (set_of table.now).states slot InSync)) }
{
    is_other_out(table, slot)
}
