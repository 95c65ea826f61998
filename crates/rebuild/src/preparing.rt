//! A device is prepared for a missing slot, before the slot's table speaks of it.
ghost use Rattle.std.specs.Prelude.{◌≡◌, ◌⊎◌, ◌≤◌, ◌<◌, ◌-◌, ◌↔◌, ℕ, false, is_ok, IfErr, OnOk};
ghost use Rattle.sector_model.specs.Bank.{IsCauseOf, IsLater};
ghost use Rattle.sector_model.specs.Calls.{Made, writes_from};
ghost use Rattle.layout_map.specs.Formats.{journal_sectors};
ghost use Rattle.superblock.specs.Counted.{least_sectors};
ghost use Rattle.superblock.specs.NextTables.{slots_of};
ghost use Rattle.superblock.specs.Tables.{state_at};
ghost use Rattle.array_io.specs.Believed.Views.{HasItsSlots};
ghost use Rattle.array_io.specs.Believed.OpenArray.{array_on};
ghost use Rattle.rebuild.specs.Preparing.{IsJournalBeside, Prepares};
ghost use Rattle.rebuild.specs.PreparingCalls.{PreparesJournal, clear_calls, zeros};

use layout_map::{FIRST_SEAL, HALVES, SUPERBLOCK_PLACES};
use sector_model::{Bank, Stop, flush_device, write_sector};
use stripe_journal::{copy_entry, last_sealed};
use superblock::{State, Table};

/// Prepares the device of a missing slot: clears its superblock places, of a journal also both seals, and flushes it;
/// then a journal gets the last entry of the other journal, flushed too. No other device is written. `Stop::Down` names
/// the slot's device, or the other journal, which is down; `Stop::Worn` says that the count of device calls stands at
/// 2^62.
///
/// The slot is one of the set that the table calls missing, its device is up and long enough, and the set's slots are
/// slots of the bank, each other long enough where it is up (conditions).
pub(crate) fn prepare<B: Bank>(bank: &mut B, table: &Table, slot: u8) -> Result<(), Stop>
    requires of_set { slot < slots_of table.now }
    requires missing { state_at table.now.states slot ≡ State.Missing }
    requires its_slots { HasItsSlots table.now (B.panel bank.old) }
    requires up { (B.panel bank.old).down slot ≡ false }
    requires room { least_sectors table.now.geometry slot ≤ (B.panel bank.old).sectors slot }
    ensures honest { B.honest bank.old ↔ B.honest bank.new }
    ensures prepares { (number : ℕ) → Prepares (B.honest bank.old) slot (array_on B.Bank bank.old table.now number)
        (array_on B.Bank bank.new table.now number) result }
{
    if slot < table.geometry.members {
        clear_front(bank, slot, SUPERBLOCK_PLACES)
    } else {
        prepare_journal(bank, table, slot)
    }
}

// The same of a journal: the other one's last seal is read, both seals are cleared with the superblock places, and its
// entry is copied, if there is one.
fn prepare_journal<B: Bank>(bank: &mut B, table: &Table, journal: u8) -> Result<(), Stop>
    requires beyond { table.now.geometry.members ≤ journal }
    requires of_set { journal < slots_of table.now }
    requires missing { state_at table.now.states journal ≡ State.Missing }
    requires its_slots { HasItsSlots table.now (B.panel bank.old) }
    requires room { journal_sectors table.now.geometry.format ≤ (B.panel bank.old).sectors journal }
    ensures honest { B.honest bank.old ↔ B.honest bank.new }
    ensures prepares { PreparesJournal (B.honest bank.old) table.now journal (B.panel bank.old) (B.panel bank.new)
        (B.history bank.old) (B.history bank.new) result }
{
    let source = journal_beside(table, journal);
    let last = last_sealed(bank, source, &table.id, &table.geometry)?;
    clear_front(bank, journal, FIRST_SEAL + HALVES)?;
    match last {
        Some(seal) => copy_entry(bank, source, journal, &seal, &table.geometry),
        None => Ok(()),
    }
}

// The other journal of the set.
fn journal_beside(table: &Table, journal: u8) -> u8
    requires beyond { table.now.geometry.members ≤ journal }
    requires of_set { journal < slots_of table.now }
    ensures { IsJournalBeside table.now journal result }
{
    let first = table.geometry.members;
    if journal == first { first + 1 } else { first }
}

// Clears the first so many sectors of a device, and flushes it.
fn clear_front<B: Bank>(bank: &mut B, slot: u8, end: u32) -> Result<(), Stop>
    requires device { slot < (B.panel bank.old).devices }
    requires within { end ≤ (B.panel bank.old).sectors slot }
    ensures panel { IsLater (B.panel bank.old) (B.panel bank.new) }
    ensures honest { B.honest bank.old ↔ B.honest bank.new }
    ensures made { B.honest bank.old
        → Made (clear_calls slot end) (is_ok result) (B.history bank.old) (B.history bank.new) }
    ensures up { OnOk result ((B.panel bank.new).down slot ≡ false) }
    ensures err { IfErr result (λ stop. IsCauseOf (B.panel bank.new) stop
        × ((stop ≡ Stop.Worn) ⊎ (stop ≡ Stop.Down slot))) }
{
    clear_sectors(bank, slot, 0, end)?;
    flush_device(bank, slot)
}

// Writes zeros to the sectors of a device from one up to another. It flushes nothing.
fn clear_sectors<B: Bank>(bank: &mut B, slot: u8, from: u32, end: u32) -> Result<(), Stop>
    requires device { slot < (B.panel bank.old).devices }
    requires within { end ≤ (B.panel bank.old).sectors slot }
    ensures panel { IsLater (B.panel bank.old) (B.panel bank.new) }
    ensures honest { B.honest bank.old ↔ B.honest bank.new }
    ensures made { B.honest bank.old
        → Made (writes_from slot from (zeros (end - from))) (is_ok result) (B.history bank.old) (B.history bank.new) }
    ensures err { IfErr result (λ stop. IsCauseOf (B.panel bank.new) stop
        × ((stop ≡ Stop.Worn) ⊎ (stop ≡ Stop.Down slot))) }
{
    let zero = [0; 512];
    for at in from..end {
        write_sector(bank, slot, at, &zero)?;
    }
    Ok(())
}
