//! An entry is put on a set, part by part: each on one slot, or the slot is marked missing.
ghost use Rattle.std.specs.Prelude.{◌≡◌, ◌≢◌, ◌<◌, ◌≤◌, ◌+◌, ◌++◌, ◌↔◌, ℕ, [], ◌∷◌, false, length};
ghost use Rattle.sector_model.specs.Bank.{IsLater};
ghost use Rattle.sector_model.specs.Calls.{Flush, Write, writes_from};
ghost use Rattle.layout_map.specs.Formats.{body_sectors, journal_sectors};
ghost use Rattle.layout_map.specs.declared.sizes.TheConstants.{FIRST_BODY};
ghost use Rattle.stripe_journal.specs.Body.{seal_place};
ghost use Rattle.stripe_journal.specs.Entries.{body_of, half_start, numbers_of};
ghost use Rattle.stripe_journal.specs.Spelling.{seal_sector};
ghost use Rattle.superblock.specs.NextTables.{slots_of};
ghost use Rattle.array_io.specs.Believed.OpenArray.{array_on};
ghost use Rattle.array_io.specs.Believed.Views.{HasItsSlots};
ghost use Rattle.array_io.specs.Steps.Bringing.{CountsOn};
ghost use Rattle.array_io.specs.Steps.PuttingSteps.{EndsOrFailsSlot, FitsAHalf, FitsPart, HasItsRows};
ghost use Rattle.array_io.specs.Steps.PuttingSteps.{PutsCalls, PutsPart};
ghost use Rattle.array_io.specs.Steps.PuttingSteps.{StepsJournal, StepsJournals, StepsMembers, StepsPart};

use super::mark_slot;
use crate::member_rows::put_member;
use layout_map::Geometry;
use sector_model::{Bank, Refusal, Stop, flush_device};
use stripe_journal::{Entry, Seal, write_body, write_seal};
use superblock::{State, Table};

/// A part of an entry, which is put on one slot and made safe there.
#[derive(Clone, Copy)]
pub(crate) enum Part {
    /// The body, on a journal.
    Body,
    /// The seal, on a journal that has the body.
    Seal,
    /// The rows, on a member.
    Rows,
}

/// Puts an entry on both journals of a set that lack it: its body on each, and, once it is safe there, its seal. A
/// journal whose device goes down is marked missing, and one that the table calls missing is passed over. Refused as
/// `part_or_fail_slot` is.
///
/// The set's slots are as `part_or_fail_slot` asks, and the body fits a half of a journal (conditions).
pub(crate) fn put_on_journals<B: Bank>(
    bank: &mut B,
    table: &mut Table,
    seal: &Seal,
    entry: &Entry,
) -> Result<(), Refusal>
    requires its_slots { HasItsSlots table.old (B.panel bank.old) }
    requires fits { FitsAHalf table.old entry.now }
    ensures honest { B.honest bank.old ↔ B.honest bank.new }
    ensures its_slots { HasItsSlots table.new (B.panel bank.new) }
    ensures geometry { table.new.geometry ≡ table.old.geometry }
    ensures steps { (number : ℕ) → StepsJournals (B.honest bank.old) seal.now
        (body_of table.old.geometry.members entry.now) table.old.geometry.members
        (array_on B.Bank bank.old table.old number) (array_on B.Bank bank.new table.new number) result }
{
    let first = table.geometry.members;
    part_or_fail_slot(bank, table, seal, entry, first, Part::Body)?;
    part_or_fail_slot(bank, table, seal, entry, first + 1, Part::Body)?;
    part_or_fail_slot(bank, table, seal, entry, first, Part::Seal)?;
    part_or_fail_slot(bank, table, seal, entry, first + 1, Part::Seal)
}

/// Puts an entry on one journal that lacks it, while the other one has it: its body, and, once it is safe there, its
/// seal. Where its device goes down, or the table calls it missing, it goes as with `part_or_fail_slot`, and that says
/// how this is refused.
///
/// The slot is a journal of the set, the body fits a half of it, and the set's slots are as `part_or_fail_slot` asks
/// (conditions).
pub fn put_on_journal<B: Bank>(
    bank: &mut B,
    table: &mut Table,
    seal: &Seal,
    entry: &Entry,
    journal: u8,
) -> Result<(), Refusal>
    requires its_slots { HasItsSlots table.old (B.panel bank.old) }
    requires of_set { journal < slots_of table.old }
    requires beyond { table.old.geometry.members ≤ journal }
    requires fits { FitsAHalf table.old entry.now }
    ensures honest { B.honest bank.old ↔ B.honest bank.new }
    ensures its_slots { HasItsSlots table.new (B.panel bank.new) }
    ensures geometry { table.new.geometry ≡ table.old.geometry }
    ensures steps { (number : ℕ) → StepsJournal (B.honest bank.old) seal.now
        (body_of table.old.geometry.members entry.now) journal
        (array_on B.Bank bank.old table.old number) (array_on B.Bank bank.new table.new number) result }
{
    part_or_fail_slot(bank, table, seal, entry, journal, Part::Body)?;
    part_or_fail_slot(bank, table, seal, entry, journal, Part::Seal)
}

/// Puts the rows of an entry that is safe on the journals on each member in turn: of a commit, and of the last entry
/// when a set is assembled. A member whose device goes down is marked missing, and one that the table calls missing is
/// passed over. Refused as `part_or_fail_slot` is.
///
/// The entry's rows are those of the seal, and rows of the set, and the set's slots are as `part_or_fail_slot` asks
/// (conditions).
pub fn put_on_members<B: Bank>(
    bank: &mut B,
    table: &mut Table,
    seal: &Seal,
    entry: &Entry,
) -> Result<(), Refusal>
    requires its_slots { HasItsSlots table.old (B.panel bank.old) }
    requires its_rows { HasItsRows table.old seal.now entry.now }
    ensures honest { B.honest bank.old ↔ B.honest bank.new }
    ensures its_slots { HasItsSlots table.new (B.panel bank.new) }
    ensures steps { (number : ℕ) → StepsMembers (B.honest bank.old) seal.now
        (body_of table.old.geometry.members entry.now)
        (array_on B.Bank bank.old table.old number) (array_on B.Bank bank.new table.new number) result }
{
    for member in 0..table.geometry.members {
        part_or_fail_slot(bank, table, seal, entry, member, Part::Rows)?;
    }
    Ok(())
}

/// Puts a part of an entry on a slot, or marks the slot missing where its device goes down. Nothing is done where the
/// table calls it missing already. Refused as `mark_slot` is, and with `Worn` where the count of device calls stands at
/// 2^62.
///
/// The slot is a journal, for the body one that it fits, or for the rows a member; the entry's rows are then those of
/// the seal, and rows of the set. The set's slots are slots of the bank, each long enough where it is up, and where the
/// table does not call it missing (conditions).
pub(crate) fn part_or_fail_slot<B: Bank>(
    bank: &mut B,
    table: &mut Table,
    seal: &Seal,
    entry: &Entry,
    slot: u8,
    part: Part,
) -> Result<(), Refusal>
    requires its_slots { HasItsSlots table.old (B.panel bank.old) }
    requires of_set { slot < slots_of table.old }
    requires fits { FitsPart part table.old seal.now entry.now slot }
    ensures honest { B.honest bank.old ↔ B.honest bank.new }
    ensures its_slots { HasItsSlots table.new (B.panel bank.new) }
    ensures geometry { table.new.geometry ≡ table.old.geometry }
    ensures step { (number : ℕ) → StepsPart (B.honest bank.old) part seal.now
        (body_of table.old.geometry.members entry.now) slot
        (array_on B.Bank bank.old table.old number) (array_on B.Bank bank.new table.new number) result }
{
    let state = table.states[slot as usize];
    if state == State::Missing {
        return Ok(());
    }
    let done = put_part(bank, table, seal, entry, slot, part);
    done_or_fail_slot(bank, table, slot, done)
}

// Puts a part of an entry on a slot, and makes it safe there by one flush. `Stop::Down` names the slot, `Stop::Worn`
// says that the count of device calls stands at 2^62. The table does not call the slot missing; else the conditions are
// as of `part_or_fail_slot`.
fn put_part<B: Bank>(
    bank: &mut B,
    table: &Table,
    seal: &Seal,
    entry: &Entry,
    slot: u8,
    part: Part,
) -> Result<(), Stop>
    requires its_slots { HasItsSlots table.now (B.panel bank.old) }
    requires counted { CountsOn table.now slot }
    requires fits { FitsPart part table.now seal.now entry.now slot }
    ensures panel { IsLater (B.panel bank.old) (B.panel bank.new) }
    ensures honest { B.honest bank.old ↔ B.honest bank.new }
    ensures puts { PutsPart (B.honest bank.old) part table.now seal.now entry.now slot (B.panel bank.old)
        (B.panel bank.new) (B.history bank.old) (B.history bank.new) result }
{
    match part {
        Part::Body => put_body(bank, slot, seal, entry, &table.geometry),
        Part::Seal => put_seal(bank, slot, seal),
        Part::Rows => put_member(bank, table, entry, slot),
    }
}

/// Takes over how calls of one slot's device ended: where it went down, its slot is marked missing, or that is refused
/// as `mark_slot` is; `Worn` where no further call could be counted.
///
/// The slot is one of the set, and the set's slots are as `part_or_fail_slot` asks (conditions).
pub fn done_or_fail_slot<B: Bank>(
    bank: &mut B,
    table: &mut Table,
    slot: u8,
    done: Result<(), Stop>,
) -> Result<(), Refusal>
    requires its_slots { HasItsSlots table.old (B.panel bank.old) }
    requires of_set { slot < slots_of table.old }
    ensures honest { B.honest bank.old ↔ B.honest bank.new }
    ensures its_slots { HasItsSlots table.new (B.panel bank.new) }
    ensures geometry { table.new.geometry ≡ table.old.geometry }
    ensures ends { EndsOrFailsSlot (B.honest bank.old) slot (B.panel bank.old) (B.panel bank.new) table.old table.new
        (B.history bank.old) (B.history bank.new) done result }
{
    match done {
        Ok(()) => Ok(()),
        Err(Stop::Worn) => Err(Refusal::Worn),
        Err(Stop::Down(_)) => mark_slot(bank, table, slot),
    }
}

// Writes the body of an entry, which fits a half of a journal, to a journal, a slot of the bank with as many sectors as
// a journal of the set's format has at least where its device is up (conditions), sector after sector, and makes it
// safe by one flush. `Stop::Down` names the journal, `Stop::Worn` says that the count of device calls stands at 2^62.
fn put_body<B: Bank>(
    bank: &mut B,
    journal: u8,
    seal: &Seal,
    entry: &Entry,
    geometry: &Geometry,
) -> Result<(), Stop>
    requires device { journal < (B.panel bank.old).devices }
    requires within { (B.panel bank.old).down journal ≡ false
        → journal_sectors geometry.now.format ≤ (B.panel bank.old).sectors journal }
    requires fits { length (body_of geometry.now.members entry.now) ≤ body_sectors geometry.now.format }
    ensures honest { B.honest bank.old ↔ B.honest bank.new }
    ensures puts { PutsCalls (B.honest bank.old) journal
        (writes_from journal (half_start geometry.now.format seal.now.number) (body_of geometry.now.members entry.now)
        ++ Flush journal ∷ [])
        (B.panel bank.old) (B.panel bank.new) (B.history bank.old) (B.history bank.new) result }
{
    write_body(bank, journal, seal.number, entry, geometry)?;
    flush_device(bank, journal)
}

// Writes a seal to a journal, a slot of the bank with more sectors than its seals' where its device is up (conditions),
// and makes it safe by one flush. Errors as of `put_body`.
fn put_seal<B: Bank>(bank: &mut B, journal: u8, seal: &Seal) -> Result<(), Stop>
    requires device { journal < (B.panel bank.old).devices }
    requires within { (B.panel bank.old).down journal ≡ false → FIRST_BODY ≤ (B.panel bank.old).sectors journal }
    ensures honest { B.honest bank.old ↔ B.honest bank.new }
    ensures puts { PutsCalls (B.honest bank.old) journal
        (Write journal (seal_place seal.now.number) (seal_sector seal.now) ∷ Flush journal ∷ [])
        (B.panel bank.old) (B.panel bank.new) (B.history bank.old) (B.history bank.new) result }
{
    write_seal(bank, journal, seal)?;
    flush_device(bank, journal)
}
