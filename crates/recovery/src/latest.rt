//! The last entry of a set, by what its journals say.
ghost use Rattle.std.specs.Prelude.{◌≡◌, ◌≢◌, ◌↔◌, ◌≤◌, ◌<◌, ℕ, IfOk, Ok, true, false};
ghost use Rattle.layout_map.specs.declared.sizes.TheConstants.{MOST_MEMBERS};
ghost use Rattle.stripe_journal.specs.Entries.{body_of};
ghost use Rattle.superblock.specs.NextTables.{IsMarked, slots_of};
ghost use Rattle.superblock.specs.Tables.{state_at};
ghost use Rattle.array_io.specs.Believed.OpenArray.{array_on};
ghost use Rattle.array_io.specs.Believed.Views.{HasItsSlots};
ghost use Rattle.array_io.specs.Steps.MarkingOn.{AreOthersInSync, IsOutBeside};
ghost use Rattle.array_io.specs.Steps.Putting.{MayWrite};
ghost use Rattle.array_io.specs.Steps.PuttingSteps.{HasItsRows};
ghost use Rattle.recovery.specs.Replaying.{BringsTo, IsFound, IsFoundIn, IsFoundOn, IsStaleJournal, IsLaterOf};
ghost use Rattle.recovery.specs.Replaying.{IsLatestBeside, IsLatestBy, IsLatestOf, IsLatestOn, IsLoaded};
ghost use Rattle.recovery.specs.Replaying.{IsOtherJournal, Known, KnowsSeals, also_known, is_on_both};

use array_io::{done_or_fail_slot, load_entry};
use sector_model::{Bank, Refusal};
use stripe_journal::{Entry, Seal, last_sealed};
use superblock::{State, Table};

/// The last entry of a set.
#[derive(Drop)]
pub(crate) struct Latest {
    /// Its seal.
    pub seal: Seal,
    /// The slot of the journal that has it; of both that have it the lower one.
    pub source: u8,
    /// The last seal of the other journal, where the table counts on that and a seal counts there.
    pub beside: Option<Seal>,
}

/// Finds the last entry by reads of the journals on which the table counts, the one with the greater number, and loads
/// it into `entry`. `None` where no seal counts. A journal whose device goes down is marked missing: what is known of
/// the other one then decides, so no seal is read twice.
///
/// Refused as `mark_slot` is, and with `Worn` where the count of device calls stands at 2^62. The set's slots are slots
/// of the bank, and each that the table does not call missing is long enough where it is up (condition).
pub(crate) fn latest_entry<B: Bank>(
    bank: &mut B,
    table: &mut Table,
    entry: &mut Entry,
) -> Result<Option<Latest>, Refusal>
    requires its_slots { HasItsSlots table.old (B.panel bank.old) }
    ensures honest { B.honest bank.old ↔ B.honest bank.new }
    ensures its_slots { HasItsSlots table.new (B.panel bank.new) }
    ensures geometry { table.new.geometry ≡ table.old.geometry }
    ensures of_set { IfOk result (λ found. IsFoundIn table.new entry.new found) }
    ensures finds { (number : ℕ) → BringsTo (B.honest bank.old) MayWrite
        (IsFound (body_of table.old.geometry.members entry.new))
        (array_on B.Bank bank.old table.old number) (array_on B.Bank bank.new table.new number) result }
{
    let first = table.geometry.members;
    let lower = seal_or_fail_slot(bank, table, first)?;
    let upper = seal_or_fail_slot(bank, table, first + 1)?;
    match latest_of(first, lower, upper) {
        Some(latest) => load_latest(bank, table, latest, entry),
        None => Ok(None),
    }
}

/// The slot of the journal that lacks the last entry, if one does on which the table counts.
pub(crate) fn stale_journal(table: &Table, latest: &Latest) -> Option<u8>
    requires { IsLatestOf table.now latest.now }
    ensures { IsStaleJournal table.now latest.now result }
{
    let other = journal_beside(table, latest.source);
    if table.states[other as usize] == State::Missing || has_it_too(latest) {
        None
    } else {
        Some(other)
    }
}

// Whether both journals have the last entry.
fn has_it_too(latest: &Latest) -> bool
    ensures { result ≡ is_on_both latest.now }
{
    match &latest.beside {
        Some(seal) => seal.number == latest.seal.number,
        None => false,
    }
}

// The journal of the set that is not this one.
fn journal_beside(table: &Table, journal: u8) -> u8
    ensures { IsOtherJournal table.now journal result }
{
    let first = table.geometry.members;
    if journal == first { first + 1 } else { first }
}

// The last seal of a journal, by reads; `None` where none counts, where the table calls the journal missing, or where
// its device goes down and it is marked missing. Refused as `latest_entry` is.
fn seal_or_fail_slot<B: Bank>(
    bank: &mut B,
    table: &mut Table,
    journal: u8,
) -> Result<Option<Seal>, Refusal>
    requires its_slots { HasItsSlots table.old (B.panel bank.old) }
    requires of_set { journal < slots_of table.old }
    requires beyond { table.old.geometry.members ≤ journal }
    ensures honest { B.honest bank.old ↔ B.honest bank.new }
    ensures its_slots { HasItsSlots table.new (B.panel bank.new) }
    ensures geometry { table.new.geometry ≡ table.old.geometry }
    ensures others_stay { (other : ℕ) → other ≢ journal
        → state_at table.new.states other ≡ state_at table.old.states other }
    ensures of_set { IfOk result (λ last. IsFoundOn table.new journal last) }
    ensures finds { (number : ℕ) (known : Known)
        → BringsTo (B.honest bank.old) (KnowsSeals known) (λ last. KnowsSeals (also_known known journal last))
        (array_on B.Bank bank.old table.old number) (array_on B.Bank bank.new table.new number) result }
{
    let state = table.states[journal as usize];
    if state == State::Missing {
        return Ok(None);
    }
    let (id, geometry) = (table.id, table.geometry);
    match last_sealed(bank, journal, &id, &geometry) {
        Ok(last) => Ok(last),
        Err(stop) => {
            done_or_fail_slot(bank, table, journal, Err(stop))?;
            Ok(None)
        }
    }
}

// The last entry, by the last seals of the lower and the upper journal.
fn latest_of(first: u8, lower: Option<Seal>, upper: Option<Seal>) -> Option<Latest>
    requires { first ≤ MOST_MEMBERS }
    ensures { IsLatestBy first lower upper result }
{
    match (lower, upper) {
        (None, None) => None,
        (Some(seal), None) => Some(Latest {
            seal,
            source: first,
            beside: None,
        }),
        (None, Some(seal)) => Some(Latest {
            seal,
            source: first + 1,
            beside: None,
        }),
        (Some(lower), Some(upper)) => Some(later_of(first, lower, upper)),
    }
}

// The later of two entries: that of the lower journal, where both have the same.
fn later_of(first: u8, lower: Seal, upper: Seal) -> Latest
    requires { first ≤ MOST_MEMBERS }
    ensures { IsLaterOf first lower upper result }
{
    if upper.number > lower.number {
        Latest {
            seal: upper,
            source: first + 1,
            beside: Some(lower),
        }
    } else {
        Latest {
            seal: lower,
            source: first,
            beside: Some(upper),
        }
    }
}

// Loads the last entry. Where its journal goes down and is marked missing, that of the other journal is the last.
// Refused as `latest_entry` is.
fn load_latest<B: Bank>(
    bank: &mut B,
    table: &mut Table,
    latest: Latest,
    entry: &mut Entry,
) -> Result<Option<Latest>, Refusal>
    requires its_slots { HasItsSlots table.old (B.panel bank.old) }
    requires latest { IsLatestOf table.old latest }
    ensures honest { B.honest bank.old ↔ B.honest bank.new }
    ensures its_slots { HasItsSlots table.new (B.panel bank.new) }
    ensures geometry { table.new.geometry ≡ table.old.geometry }
    ensures of_set { IfOk result (λ found. IsFoundIn table.new entry.new found) }
    ensures loads { (number : ℕ) → BringsTo (B.honest bank.old) (IsLatestOn latest)
        (IsFound (body_of table.old.geometry.members entry.new))
        (array_on B.Bank bank.old table.old number) (array_on B.Bank bank.new table.new number) result }
{
    if load_or_fail_slot(bank, table, &latest, entry)? {
        return Ok(Some(latest));
    }
    match latest_beside(table, latest) {
        Some(latest) => load_alone(bank, table, latest, entry),
        None => Ok(None),
    }
}

// The last entry where the journal that has it is missing: the last one of the other journal.
fn latest_beside(table: &Table, latest: Latest) -> Option<Latest>
    ensures { IsLatestBeside table.now latest result }
{
    let source = journal_beside(table, latest.source);
    match latest.beside {
        Some(seal) => Some(Latest {
            seal,
            source,
            beside: None,
        }),
        None => None,
    }
}

// Loads the last entry from the only journal that is left. Refused as `latest_entry` is, so with `TwoLost` where it
// goes down.
fn load_alone<B: Bank>(
    bank: &mut B,
    table: &mut Table,
    latest: Latest,
    entry: &mut Entry,
) -> Result<Option<Latest>, Refusal>
    requires its_slots { HasItsSlots table.old (B.panel bank.old) }
    requires latest { IsLatestOf table.old latest }
    requires alone { IsOutBeside table.old latest.source }
    ensures honest { B.honest bank.old ↔ B.honest bank.new }
    ensures its_slots { HasItsSlots table.new (B.panel bank.new) }
    ensures geometry { table.new.geometry ≡ table.old.geometry }
    ensures of_set { IfOk result (λ found. IsFoundIn table.new entry.new found) }
    ensures loads { (number : ℕ) → BringsTo (B.honest bank.old) (IsLatestOn latest)
        (IsFound (body_of table.old.geometry.members entry.new))
        (array_on B.Bank bank.old table.old number) (array_on B.Bank bank.new table.new number) result }
{
    if load_or_fail_slot(bank, table, &latest, entry)? {
        Ok(Some(latest))
    } else {
        Err(Refusal::TwoLost)
    }
}

// Loads the last entry from the journal that has it; `false` where that goes down and is marked missing. Refused as
// `latest_entry` is.
fn load_or_fail_slot<B: Bank>(
    bank: &mut B,
    table: &mut Table,
    latest: &Latest,
    entry: &mut Entry,
) -> Result<bool, Refusal>
    requires its_slots { HasItsSlots table.old (B.panel bank.old) }
    requires latest { IsLatestOf table.old latest.now }
    ensures honest { B.honest bank.old ↔ B.honest bank.new }
    ensures its_slots { HasItsSlots table.new (B.panel bank.new) }
    ensures geometry { table.new.geometry ≡ table.old.geometry }
    ensures loaded { result ≡ Ok true → (table.new ≡ table.old) × HasItsRows table.old latest.now.seal entry.new }
    ensures marked { result ≡ Ok false → IsMarked table.old latest.now.source table.new
        × AreOthersInSync table.old latest.now.source }
    ensures loads { (number : ℕ) → BringsTo (B.honest bank.old) (IsLatestOn latest.now)
        (IsLoaded latest.now (body_of table.old.geometry.members entry.new))
        (array_on B.Bank bank.old table.old number) (array_on B.Bank bank.new table.new number) result }
{
    let geometry = table.geometry;
    match load_entry(bank, latest.source, &geometry, &latest.seal, entry) {
        Ok(()) => Ok(true),
        Err(stop) => {
            done_or_fail_slot(bank, table, latest.source, Err(stop))?;
            Ok(false)
        }
    }
}
