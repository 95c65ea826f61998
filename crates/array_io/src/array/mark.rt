//! A slot is marked missing.
ghost use Rattle.std.specs.Prelude.{◌≡◌, ◌≢◌, ◌<◌, ◌^◌, ◌↔◌, ℕ, IfErr, false, true};
ghost use Rattle.sector_model.specs.declared.calls.TheConstants.{GREATEST_COUNT};
ghost use Rattle.array_io.specs.Believed.ArrayCalls.{MarksMissing};
ghost use Rattle.array_io.specs.Steps.MarkingOn.{AreOthersInSync, HasOtherSlots, IsOutBeside, MarksOn};
ghost use Rattle.array_io.specs.Believed.Views.{EndsIt};
ghost use Rattle.array_io.specs.Believed.OpenArray.{IsHonest, array_view};
ghost use Rattle.superblock.specs.declared.state.State.TheVariants.{InSync};
ghost use Rattle.superblock.specs.NextTables.{IsMarked, slots_of};
ghost use Rattle.superblock.specs.Tables.{state_at};

use crate::Array;
use sector_model::{Bank, GREATEST_COUNT, Refusal, Stop};
use superblock::{State, Table, publish};

impl<B: Bank> Array<B> {
    /// Marks a slot of the set (its condition) missing, in the table and on the devices that are in sync. Of a slot
    /// that is missing already nothing changes, and no device is called.
    ///
    /// Refused with `TwoLost` where another slot is not in sync or its device goes down, and with `Worn` where the
    /// table's generation, or the count of device calls, stands at 2^62. From the first device call on the table in
    /// memory has the slot missing, whatever the answer.
    pub fn mark_missing(&mut self, dev: u8) -> Result<(), Refusal>
        requires { dev < slots_of self.old.table }
        ensures honest { IsHonest self.old ↔ IsHonest self.new }
        ensures marks { MarksMissing (IsHonest self.old) dev (array_view self.old) (array_view self.new) result }
        ensures refused { IfErr result (λ refusal. EndsIt refusal) }
    {
        mark_slot(&mut self.bank, &mut self.table, dev)
    }
}

/// Marks a slot of the set missing, in this table of the set on a bank and on the devices that are in sync: what
/// `Array::mark_missing` does, where the marked slot's own device may be too short for the set. Refused as that is.
///
/// The set's slots are slots of the bank, and each other slot that the table does not call missing is long enough,
/// where its device is up (conditions).
pub fn mark_slot<B: Bank>(bank: &mut B, table: &mut Table, slot: u8) -> Result<(), Refusal>
    requires of_set { slot < slots_of table.old }
    requires others { HasOtherSlots slot table.old (B.panel bank.old) }
    ensures honest { B.honest bank.old ↔ B.honest bank.new }
    ensures marks { MarksOn (B.honest bank.old) slot (B.panel bank.old) (B.panel bank.new) table.old table.new
        (B.history bank.old) (B.history bank.new) result }
{
    let state = table.states[slot as usize];
    if state == State::Missing {
        return Ok(());
    }
    if is_other_out(table, slot) {
        return Err(Refusal::TwoLost);
    }
    if table.generation >= GREATEST_COUNT {
        return Err(Refusal::Worn);
    }
    *table = without(table, slot);
    match publish(bank, table, None) {
        Ok(()) => Ok(()),
        Err(Stop::Down(_)) => Err(Refusal::TwoLost),
        Err(Stop::Worn) => Err(Refusal::Worn),
    }
}

/// Whether a slot of the set other than this one is not in sync, by its table.
pub fn is_other_out(table: &Table, slot: u8) -> bool
    ensures out { result ≡ true → IsOutBeside table.now slot }
    ensures in_sync { result ≡ false → AreOthersInSync table.now slot }
{
    for other in 0..table.geometry.members + 2 {
        if other != slot && table.states[other as usize] != State::InSync {
            return true;
        }
    }
    false
}

// The next table, with this slot missing. No other is rebuilding, so there is no position.
fn without(table: &Table, dev: u8) -> Table
    requires of_set { dev < slots_of table.now }
    requires generation { table.now.generation < GREATEST_COUNT }
    requires others { (slot : ℕ) → slot < slots_of table.now → slot ≢ dev → state_at table.now.states slot ≡ InSync }
    ensures { IsMarked table.now dev result }
{
    let mut states = table.states;
    states[dev as usize] = State::Missing;
    Table {
        id: table.id,
        generation: table.generation + 1,
        geometry: table.geometry,
        states,
        incarnations: table.incarnations,
        position: 0,
    }
}

#[cfg(test)]
pub(crate) mod tests;
