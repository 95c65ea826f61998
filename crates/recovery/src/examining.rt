//! Inspecting a set without a write.
ghost use Rattle.std.specs.Prelude.{◌≡◌, ◌≢◌, ◌↔◌, ◌≤◌, ◌<◌, ◌+◌, ℕ, length, IfErr, IfOk};
ghost use Rattle.sector_model.specs.Bank.{IsLater};
ghost use Rattle.sector_model.specs.Reads.{HasRead};
ghost use Rattle.sector_model.specs.declared.calls.TheConstants.{GREATEST_COUNT};
ghost use Rattle.sector_model.specs.declared.refusal.Refusal.TheVariants as refusal;
ghost use Rattle.layout_map.specs.Formats.{journal_sectors};
ghost use Rattle.superblock.specs.NextTables.{slots_of};
ghost use Rattle.stripe_journal.specs.LastEntry.{number_of};
ghost use Rattle.recovery.specs.Examining.{AreExaminedSlots, AreLastNumbers, Examines, IsExaminedSlot, IsLastNumber};
ghost use Rattle.recovery.specs.Examining.{IsOutlook, IsOutlookBy, IsReason, IsStanding, ReadsLast};
ghost use Rattle.recovery.specs.Surveying.{IsGone, IsSurveyOf};
ghost use Rattle.recovery.specs.SeenBank.{bank_seen};

use crate::survey::{Out, Survey, is_gone, missing_slots, presence_of, survey_bank};
use crate::{Examined, ExaminedSlot, Outlook, Presence, Standing};
use sector_model::{Bank, Refusal, Stop};
use stripe_journal::{Seal, last_sealed};
use superblock::{State, Table};

// A slot of which nothing is said.
const UNEXAMINED: ExaminedSlot = ExaminedSlot {
    presence: Presence::Absent,
    generation: 0,
    incarnation: 0,
    standing: Standing::NotThere,
};

/// Inspects the set of this id, by reads of superblocks and seals alone: which table its superblocks choose, what each
/// of its slots has, and what assembling it would do now. `None` where no superblock of this id counts; `Worn` where
/// the count of device calls stands at 2^62.
pub fn examine<B: Bank>(bank: &mut B, id: &[u8; 16]) -> Result<Option<Examined>, Refusal>
    ensures honest { B.honest bank.old ↔ B.honest bank.new }
    ensures examines { Examines (B.honest bank.old) id.now (bank_seen B.Bank bank.old) (bank_seen B.Bank bank.new)
        result }
{
    let Some(survey) = survey_bank(bank, id)? else {
        return Ok(None);
    };
    let slots = examined_slots(bank, &survey);
    let outlook = outlook_of(bank, &survey);
    let last = last_numbers(bank, &survey.table)?;
    Ok(Some(Examined {
        table: survey.table,
        slots,
        last,
        outlook,
    }))
}

// What each slot of the surveyed set has.
fn examined_slots<B: Bank>(bank: &B, survey: &Survey) -> [ExaminedSlot; 10]
    requires { IsSurveyOf (B.honest bank.now) (bank_seen B.Bank bank.now) survey.now }
    ensures { AreExaminedSlots (B.honest bank.now) (bank_seen B.Bank bank.now) survey.now.table result }
{
    let mut slots = [UNEXAMINED; 10];
    for slot in 0..survey.table.geometry.members + 2 {
        slots[slot as usize] = examined_slot(bank, survey, slot);
    }
    slots
}

// What a slot of the surveyed set has.
fn examined_slot<B: Bank>(bank: &B, survey: &Survey, slot: u8) -> ExaminedSlot
    requires of_set { slot < slots_of survey.now.table }
    requires surveyed { IsSurveyOf (B.honest bank.now) (bank_seen B.Bank bank.now) survey.now }
    ensures { IsExaminedSlot (B.honest bank.now) (bank_seen B.Bank bank.now) survey.now.table slot result }
{
    ExaminedSlot {
        presence: presence_of(bank, &survey.table, slot),
        generation: survey.generations[slot as usize],
        incarnation: survey.own[slot as usize],
        standing: standing_of(bank, survey, slot),
    }
}

// What a slot of the surveyed set is to its table.
fn standing_of<B: Bank>(bank: &B, survey: &Survey, slot: u8) -> Standing
    requires of_set { slot < slots_of survey.now.table }
    requires surveyed { IsSurveyOf (B.honest bank.now) (bank_seen B.Bank bank.now) survey.now }
    ensures { IsStanding (B.honest bank.now) (bank_seen B.Bank bank.now) survey.now.table slot result }
{
    if is_gone(bank, survey, slot) {
        return why_gone(bank, survey, slot);
    }
    match survey.table.states[slot as usize] {
        State::InSync => Standing::Live,
        State::Rebuilding => Standing::Rebuilding(survey.table.position),
        State::Missing => Standing::CalledMissing,
    }
}

// Why a slot on which the surveyed table counts is not live.
fn why_gone<B: Bank>(bank: &B, survey: &Survey, slot: u8) -> Standing
    requires gone { IsGone (B.honest bank.now) (bank_seen B.Bank bank.now) survey.now.table slot }
    requires surveyed { IsSurveyOf (B.honest bank.now) (bank_seen B.Bank bank.now) survey.now }
    ensures { IsStanding (B.honest bank.now) (bank_seen B.Bank bank.now) survey.now.table slot result }
{
    match presence_of(bank, &survey.table, slot) {
        Presence::Absent => Standing::NotThere,
        Presence::TooShort => Standing::NotThere,
        Presence::There => reason_of(
            survey.generations[slot as usize],
            survey.table.generation,
            survey.own[slot as usize],
            survey.table.incarnations[slot as usize],
        ),
    }
}

// Why a slot is not live that is there, by its own generation and incarnation and those of the table.
fn reason_of(own_generation: u64, generation: u64, own: u64, incarnation: u64) -> Standing
    ensures { IsReason own_generation generation own incarnation result }
{
    if own_generation == 0 {
        Standing::NoSuperblock
    } else if own_generation < generation {
        Standing::OlderGeneration
    } else if own < incarnation {
        Standing::LowerIncarnation
    } else {
        Standing::HigherIncarnation
    }
}

// What assembling the surveyed set would do.
fn outlook_of<B: Bank>(bank: &B, survey: &Survey) -> Outlook
    requires { IsSurveyOf (B.honest bank.now) (bank_seen B.Bank bank.now) survey.now }
    ensures { IsOutlook (B.honest bank.now) (bank_seen B.Bank bank.now) survey.now.table result }
{
    match missing_slots(bank, survey) {
        Out::Nobody => outlook_by(&survey.table),
        Out::One(slot) => Outlook::WouldMark(slot),
        Out::Two(_, _) => Outlook::TwoLost,
    }
}

// What a table says by itself of assembling its set.
fn outlook_by(table: &Table) -> Outlook
    ensures { IsOutlookBy table.now result }
{
    for slot in 0..table.geometry.members + 2 {
        match table.states[slot as usize] {
            State::InSync => {}
            State::Missing => return Outlook::Missing(slot),
            State::Rebuilding => return Outlook::Rebuilding(slot, table.position),
        }
    }
    Outlook::Complete
}

// The numbers of the last entries of a set's journals, by reads.
fn last_numbers<B: Bank>(bank: &mut B, table: &Table) -> Result<[Option<u64>; 2], Refusal>
    requires { slots_of table.now ≤ (B.panel bank.old).devices }
    ensures honest { B.honest bank.old ↔ B.honest bank.new }
    ensures reads { ReadsLast (B.honest bank.old) (bank_seen B.Bank bank.old) (bank_seen B.Bank bank.new) result
        (λ last.
        AreLastNumbers (B.honest bank.old) (bank_seen B.Bank bank.new) table.now last) }
{
    let first = table.geometry.members;
    let lower = last_number(bank, table, first)?;
    let upper = last_number(bank, table, first + 1)?;
    Ok([lower, upper])
}

// The number of the last entry of a journal of the set, by reads: 0 where it has none, `None` where its seals can't be
// read.
fn last_number<B: Bank>(bank: &mut B, table: &Table, journal: u8) -> Result<Option<u64>, Refusal>
    requires beyond { table.now.geometry.members ≤ journal }
    requires of_set { journal < slots_of table.now }
    requires device { journal < (B.panel bank.old).devices }
    ensures honest { B.honest bank.old ↔ B.honest bank.new }
    ensures reads { ReadsLast (B.honest bank.old) (bank_seen B.Bank bank.old) (bank_seen B.Bank bank.new) result
        (λ last.
        IsLastNumber (B.honest bank.old) (bank_seen B.Bank bank.new) table.now journal last) }
{
    match presence_of(bank, table, journal) {
        Presence::Absent => Ok(None),
        Presence::TooShort => Ok(None),
        Presence::There => last_sealed_number(bank, table, journal),
    }
}

// The same of a journal that is there.
fn last_sealed_number<B: Bank>(
    bank: &mut B,
    table: &Table,
    journal: u8,
) -> Result<Option<u64>, Refusal>
    requires device { journal < (B.panel bank.old).devices }
    requires within { journal_sectors table.now.geometry.format ≤ (B.panel bank.old).sectors journal }
    ensures honest { B.honest bank.old ↔ B.honest bank.new }
    ensures reads { ReadsLast (B.honest bank.old) (bank_seen B.Bank bank.old) (bank_seen B.Bank bank.new) result
        (λ last.
        IsLastNumber (B.honest bank.old) (bank_seen B.Bank bank.new) table.now journal last) }
{
    match last_sealed(bank, journal, &table.id, &table.geometry) {
        Ok(last) => Ok(Some(number_in(&last))),
        Err(Stop::Down(_)) => Ok(None),
        Err(Stop::Worn) => Err(Refusal::Worn),
    }
}

// The number of an entry by its seal, 0 where there is none.
fn number_in(last: &Option<Seal>) -> u64
    ensures { result ≡ number_of last.now }
{
    match last {
        Some(seal) => seal.number,
        None => 0,
    }
}

#[cfg(test)]
mod tests;
