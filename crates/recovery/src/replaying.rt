//! The last entry of a set is brought onto the journal and the members that lack it.
ghost use Rattle.std.specs.Prelude.{◌≡◌, ◌↔◌, ℕ};
ghost use Rattle.stripe_journal.specs.Entries.{body_of};
ghost use Rattle.array_io.specs.Believed.Views.{HasItsSlots};
ghost use Rattle.array_io.specs.Believed.OpenArray.{array_on};
ghost use Rattle.array_io.specs.Steps.Putting.{Copied, IsComing, IsPutBefore};
ghost use Rattle.array_io.specs.Steps.PuttingSteps.{Brings, FitsAHalf};
ghost use Rattle.recovery.specs.Replaying.{IsLatestOf, SettlesEntry, progress_of};

use crate::latest::{Latest, latest_entry, stale_journal};
use array_io::{put_on_journal, put_on_members};
use sector_model::{Bank, Refusal};
use stripe_journal::Entry;
use superblock::Table;

/// Brings the last entry of a set onto the journal that lacks it, if one does, body before seal, and then its rows onto
/// the members; gives its number, 0 where there is none. A slot whose device goes down is marked missing, and it goes
/// on without it. `entry` is where the entry is held meanwhile.
///
/// Refused with `TwoLost` where a second slot is lost, and with `Worn` where the count of device calls, or the table's
/// generation, stands at 2^62. The set's slots are slots of the bank, and each that the table does not call missing is
/// long enough where it is up (condition).
pub(crate) fn settle_entry<B: Bank>(
    bank: &mut B,
    table: &mut Table,
    entry: &mut Entry,
) -> Result<u64, Refusal>
    requires its_slots { HasItsSlots table.old (B.panel bank.old) }
    ensures honest { B.honest bank.old ↔ B.honest bank.new }
    ensures its_slots { HasItsSlots table.new (B.panel bank.new) }
    ensures settles { SettlesEntry (B.honest bank.old) (array_on B.Bank bank.old table.old 0)
        (array_on B.Bank bank.new table.new 0) result }
{
    let Some(latest) = latest_entry(bank, table, entry)? else {
        return Ok(0);
    };
    copy_to_stale_journal(bank, table, &latest, entry)?;
    put_on_members(bank, table, &latest.seal, entry)?;
    Ok(latest.seal.number)
}

// Puts the last entry, whose body fits a half of a journal (condition), on the stale journal, if there is one. Refused
// as `settle_entry` is.
fn copy_to_stale_journal<B: Bank>(
    bank: &mut B,
    table: &mut Table,
    latest: &Latest,
    entry: &Entry,
) -> Result<(), Refusal>
    requires its_slots { HasItsSlots table.old (B.panel bank.old) }
    requires latest { IsLatestOf table.old latest.now }
    requires fits { FitsAHalf table.old entry.now }
    ensures honest { B.honest bank.old ↔ B.honest bank.new }
    ensures its_slots { HasItsSlots table.new (B.panel bank.new) }
    ensures geometry { table.new.geometry ≡ table.old.geometry }
    ensures copies { (number : ℕ) → Brings (B.honest bank.old)
        (IsComing Copied latest.now.seal (body_of table.old.geometry.members entry.now) (progress_of latest.now))
        (IsPutBefore 0 latest.now.seal (body_of table.old.geometry.members entry.now))
        (array_on B.Bank bank.old table.old number) (array_on B.Bank bank.new table.new number) result }
{
    match stale_journal(table, latest) {
        Some(journal) => put_on_journal(bank, table, &latest.seal, entry, journal),
        None => Ok(()),
    }
}
