//! Rows of a member that is rebuilding are written.
ghost use Rattle.std.specs.Prelude.{◌≡◌, ◌≤◌, ◌<◌, ◌+◌, ◌↔◌, ℕ};
ghost use Rattle.superblock.specs.declared.state.State.TheVariants.{Rebuilding};
ghost use Rattle.superblock.specs.NextTables.{slots_of};
ghost use Rattle.superblock.specs.Tables.{state_at};
ghost use Rattle.array_io.specs.Believed.Holds.{row_count};
ghost use Rattle.array_io.specs.Believed.Views.{HasItsSlots};
ghost use Rattle.array_io.specs.Believed.OpenArray.{array_on};
ghost use Rattle.rebuild.specs.RowSteps.{CanFill, EndsOrFails, FillsOrFailsSlot};
ghost use Rattle.rebuild.specs.RowsWritten.{WritesRows};

use array_io::{mark_slot, value_or_fail_slot};
use layout_map::FIRST_ROW;
use sector_model::{Bank, Refusal, Stop, flush_device, write_sector};
use superblock::Table;

/// Writes the rebuilding member's rows from one up to another, each from the other members' sectors, and flushes the
/// member (`true`). `false` where the member's device goes down: its slot is then marked missing. Refused with
/// `TwoLost` where another device goes down, and with `Worn` where the count of device calls, or in marking the table's
/// generation, stands at 2^62.
///
/// The table calls the member rebuilding, the rows are rows of the set at or after its position, in order, and the
/// set's slots are slots of the bank, each that the table does not call missing long enough where it is up
/// (conditions).
pub(crate) fn write_rows<B: Bank>(
    bank: &mut B,
    table: &mut Table,
    member: u8,
    from: u64,
    end: u64,
) -> Result<bool, Refusal>
    requires its_slots { HasItsSlots table.old (B.panel bank.old) }
    requires of_members { member < table.old.geometry.members }
    requires rebuilding { state_at table.old.states member ≡ Rebuilding }
    requires beyond { table.old.position ≤ from }
    requires ordered { from ≤ end }
    requires of_set { end ≤ row_count table.old }
    ensures honest { B.honest bank.old ↔ B.honest bank.new }
    ensures its_slots { HasItsSlots table.new (B.panel bank.new) }
    ensures writes { (number : ℕ) → WritesRows (B.honest bank.old) member from end
        (array_on B.Bank bank.old table.old number) (array_on B.Bank bank.new table.new number) result }
{
    if !fill_rows(bank, table, member, from, end)? {
        return Ok(false);
    }
    let done = flush_device(bank, member);
    done_or_fail_slot(bank, table, member, done)
}

// The same without the flush.
fn fill_rows<B: Bank>(
    bank: &mut B,
    table: &mut Table,
    member: u8,
    from: u64,
    end: u64,
) -> Result<bool, Refusal>
    requires can { CanFill table.old member from end (B.panel bank.old) }
    ensures honest { B.honest bank.old ↔ B.honest bank.new }
    ensures its_slots { HasItsSlots table.new (B.panel bank.new) }
    ensures fills { FillsOrFailsSlot (B.honest bank.old) table.old table.new member from end (B.panel bank.old)
        (B.panel bank.new)
        (B.history bank.old) (B.history bank.new) result }
{
    for row in from..end {
        if !fill_row(bank, table, member, row)? {
            return Ok(false);
        }
    }
    Ok(true)
}

// One row of the member: its value by the other members' sectors is written.
fn fill_row<B: Bank>(bank: &mut B, table: &mut Table, member: u8, row: u64) -> Result<bool, Refusal>
    requires can { CanFill table.old member row (row + 1) (B.panel bank.old) }
    ensures honest { B.honest bank.old ↔ B.honest bank.new }
    ensures its_slots { HasItsSlots table.new (B.panel bank.new) }
    ensures fills { FillsOrFailsSlot (B.honest bank.old) table.old table.new member row (row + 1) (B.panel bank.old)
        (B.panel bank.new)
        (B.history bank.old) (B.history bank.new) result }
{
    let mut sector = [0; 512];
    if !value_or_fail_slot(bank, table, member, row, &mut sector)? {
        return Ok(false);
    }
    let done = write_sector(bank, member, FIRST_ROW + row as u32, &sector);
    done_or_fail_slot(bank, table, member, done)
}

// Takes over how the calls of the member's device ended: where it went down, its slot is marked missing (`false`).
fn done_or_fail_slot<B: Bank>(
    bank: &mut B,
    table: &mut Table,
    member: u8,
    done: Result<(), Stop>,
) -> Result<bool, Refusal>
    requires its_slots { HasItsSlots table.old (B.panel bank.old) }
    requires of_set { member < slots_of table.old }
    ensures honest { B.honest bank.old ↔ B.honest bank.new }
    ensures its_slots { HasItsSlots table.new (B.panel bank.new) }
    ensures ends { EndsOrFails (B.honest bank.old) member (B.panel bank.old) (B.panel bank.new) table.old table.new
        (B.history bank.old) (B.history bank.new) done result }
{
    match done {
        Ok(()) => Ok(true),
        Err(Stop::Worn) => Err(Refusal::Worn),
        Err(Stop::Down(_)) => {
            mark_slot(bank, table, member)?;
            Ok(false)
        }
    }
}
