//! A table that differs from the one before in one slot, which is written last.
ghost use Rattle.std.specs.Prelude.{◌≡◌, ◌≢◌, ◌≤◌, ◌<◌, ◌+◌, ◌↔◌, ℕ, false};
ghost use Rattle.sector_model.specs.declared.calls.TheConstants.{GREATEST_COUNT};
ghost use Rattle.layout_map.specs.Placement.{rows_of};
ghost use Rattle.superblock.specs.declared.state.State.TheVariants.{InSync, Missing, Rebuilding};
ghost use Rattle.superblock.specs.Counted.{least_sectors};
ghost use Rattle.superblock.specs.NextTables.{IsJoined, IsMoved, IsRebuilt, slots_of};
ghost use Rattle.superblock.specs.SlotSteps.{IsStepAt};
ghost use Rattle.superblock.specs.Tables.{incarnation_at, state_at};
ghost use Rattle.array_io.specs.Believed.Views.{HasItsSlots};
ghost use Rattle.array_io.specs.Believed.OpenArray.{array_on};
ghost use Rattle.rebuild.specs.Joining.{PublishesLast};
ghost use Rattle.rebuild.specs.Rebuilding.{IsRebuilding};

use array_io::mark_slot;
use sector_model::{Bank, Refusal, Stop};
use superblock::{State, Table, publish};

/// Publishes the next table, which differs in this slot alone, the slot's device last. `false` where that device went
/// down when the others had the table: its slot is then marked missing. Refused with `TwoLost` where another device
/// goes down, with the table that was before, or in marking; and with `Worn` where the count of device calls, or in
/// marking the table's generation, stands at 2^62.
pub(crate) fn publish_last<B: Bank>(
    bank: &mut B,
    table: &mut Table,
    next: &Table,
    slot: u8,
) -> Result<bool, Refusal>
    requires step { IsStepAt table.old next.now slot }
    requires out { state_at table.old.states slot ≢ InSync }
    requires there { state_at next.now.states slot ≢ Missing }
    requires its_slots { HasItsSlots table.old (B.panel bank.old) }
    requires up { (B.panel bank.old).down slot ≡ false }
    requires fits { least_sectors table.old.geometry slot ≤ (B.panel bank.old).sectors slot }
    ensures honest { B.honest bank.old ↔ B.honest bank.new }
    ensures publishes { (number : ℕ) → PublishesLast (B.honest bank.old) next.now slot
        (array_on B.Bank bank.old table.old number) (array_on B.Bank bank.new table.new number) result }
{
    match publish(bank, next, Some(slot)) {
        Ok(()) => {
            *table = *next;
            Ok(true)
        }
        Err(Stop::Worn) => Err(Refusal::Worn),
        Err(Stop::Down(device)) if device == slot => {
            *table = *next;
            mark_slot(bank, table, slot)?;
            Ok(false)
        }
        Err(Stop::Down(_)) => Err(Refusal::TwoLost),
    }
}

/// The next table, in which a slot has a new device: a member is rebuilding with no row that counts, a journal is in
/// sync.
pub(crate) fn joined(table: &Table, slot: u8) -> Table
    requires of_set { slot < slots_of table.now }
    requires missing { state_at table.now.states slot ≡ Missing }
    requires generation { table.now.generation < GREATEST_COUNT }
    requires incarnation { incarnation_at table.now.incarnations slot < GREATEST_COUNT }
    ensures { IsJoined table.now slot result }
{
    let mut states = table.states;
    states[slot as usize] = if slot < table.geometry.members {
        State::Rebuilding
    } else {
        State::InSync
    };
    let mut incarnations = table.incarnations;
    incarnations[slot as usize] += 1;
    Table {
        id: table.id,
        generation: table.generation + 1,
        geometry: table.geometry,
        states,
        incarnations,
        position: 0,
    }
}

/// The next table, in which the rebuilding member's rows below this one count.
pub(crate) fn moved(table: &Table, position: u64) -> Table
    requires rebuilding { (member : ℕ) × IsRebuilding table.now member }
    requires below { position < rows_of table.now.geometry.chunk table.now.geometry.stripes }
    requires generation { table.now.generation < GREATEST_COUNT }
    ensures { IsMoved table.now position result }
{
    Table {
        id: table.id,
        generation: table.generation + 1,
        geometry: table.geometry,
        states: table.states,
        incarnations: table.incarnations,
        position,
    }
}

/// The next table, in which the rebuilding member is in sync.
pub(crate) fn rebuilt(table: &Table, member: u8) -> Table
    requires rebuilding { IsRebuilding table.now member }
    requires generation { table.now.generation < GREATEST_COUNT }
    ensures { IsRebuilt table.now member result }
{
    let mut states = table.states;
    states[member as usize] = State::InSync;
    Table {
        id: table.id,
        generation: table.generation + 1,
        geometry: table.geometry,
        states,
        incarnations: table.incarnations,
        position: 0,
    }
}
