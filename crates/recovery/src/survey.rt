//! What the superblocks of a set's devices say.
ghost use Rattle.std.specs.Prelude.{◌≡◌, ◌≢◌, ◌↔◌, ◌<◌, ◌^◌, ℕ, true, false, IfSome, IsNone};
ghost use Rattle.superblock.specs.declared.state.State.TheVariants.{InSync, Missing};
ghost use Rattle.superblock.specs.NextTables.{slots_of};
ghost use Rattle.superblock.specs.Tables.{state_at};
ghost use Rattle.recovery.specs.Examining.{IsPresence};
ghost use Rattle.recovery.specs.Surveying.{FindsLeft, IsDead, IsGone, IsNotFull, IsOutOf, IsSurveyOf, IsThere, Surveys};
ghost use Rattle.recovery.specs.Surveying.{generation_by, own_by};
ghost use Rattle.recovery.specs.SeenBank.{bank_seen};

use crate::Presence;
use crate::find::newest_at;
use crate::stale_superblocks::is_in;
use sector_model::{Bank, Refusal};
use superblock::{State, Superblock, Table, least_of, newer};

/// The table that the superblocks of a bank choose, and what each slot's device is to it.
#[derive(Clone, Copy)]
pub(crate) struct Survey {
    /// The chosen table.
    pub table: Table,
    /// The own incarnation of each slot's device: that of its newest counted superblock, 0 where none counts.
    pub own: [u64; 10],
    /// The own generation of each slot's device: that of its newest counted superblock, 0 where none counts.
    pub generations: [u64; 10],
}

/// Which slots that a table counts on are not there.
#[derive(Clone, Copy)]
pub(crate) enum Out {
    /// Each one is there.
    Nobody,
    /// This one is not, and each other slot is there and in sync.
    One(u8),
    /// Two slots are not there, or not in sync.
    Two(u8, u8),
}

/// Reads each superblock place once, slot by slot from 0, place 0 first. `None` where no superblock of this id counts;
/// `Worn` where the count of device calls stands at 2^62. What a device holds that is down, that goes down here, or
/// that is too short for a place, does not count.
pub(crate) fn survey_bank<B: Bank>(bank: &mut B, id: &[u8; 16]) -> Result<Option<Survey>, Refusal>
    ensures honest { B.honest bank.old ↔ B.honest bank.new }
    ensures surveyed { Surveys (B.honest bank.old) id.now (bank_seen B.Bank bank.old) (bank_seen B.Bank bank.new)
        result }
{
    let mut best = None;
    let mut own = [0; 10];
    let mut generations = [0; 10];
    for slot in 0..bank.devices() {
        let next = newest_left(bank, slot, id)?;
        own[slot as usize] = own_in(&next, slot);
        generations[slot as usize] = generation_in(&next);
        best = newer(best, next);
    }
    match best {
        Some(best) => Ok(Some(Survey {
            table: best.table,
            own,
            generations,
        })),
        None => Ok(None),
    }
}

// The newest superblock of this id that counts in a slot; none where the device is down, or goes down here.
fn newest_left<B: Bank>(
    bank: &mut B,
    slot: u8,
    id: &[u8; 16],
) -> Result<Option<Superblock>, Refusal>
    requires { slot < (B.panel bank.old).devices }
    ensures honest { B.honest bank.old ↔ B.honest bank.new }
    ensures found { FindsLeft (B.honest bank.old) id.now (B.panel bank.old).devices slot (bank_seen B.Bank bank.old)
        (bank_seen B.Bank bank.new) result }
{
    let newest = newest_at(bank, slot, id)?;
    if bank.is_down(slot) {
        return Ok(None);
    }
    Ok(newest)
}

// The own incarnation of a slot by its newest superblock, 0 where it has none.
fn own_in(newest: &Option<Superblock>, slot: u8) -> u64
    requires { slot < 10 }
    ensures { result ≡ own_by newest.now slot }
{
    match newest {
        Some(superblock) => superblock.table.incarnations[slot as usize],
        None => 0,
    }
}

// The own generation of a slot by its newest superblock, 0 where it has none.
fn generation_in(newest: &Option<Superblock>) -> u64
    ensures { result ≡ generation_by newest.now }
{
    match newest {
        Some(superblock) => superblock.table.generation,
        None => 0,
    }
}

/// Which slots that the surveyed table counts on are not there: down, too short, or of another incarnation.
pub(crate) fn missing_slots<B: Bank>(bank: &B, survey: &Survey) -> Out
    requires surveyed { IsSurveyOf (B.honest bank.now) (bank_seen B.Bank bank.now) survey.now }
    ensures { IsOutOf (B.honest bank.now) (bank_seen B.Bank bank.now) survey.now.table result }
{
    match first_gone(bank, survey) {
        Some(first) => match other_out(bank, survey, first) {
            Some(second) => Out::Two(first, second),
            None => Out::One(first),
        },
        None => Out::Nobody,
    }
}

// The lowest slot that is gone.
fn first_gone<B: Bank>(bank: &B, survey: &Survey) -> Option<u8>
    requires surveyed { IsSurveyOf (B.honest bank.now) (bank_seen B.Bank bank.now) survey.now }
    ensures some { IfSome result
        (λ slot. IsGone (B.honest bank.now) (bank_seen B.Bank bank.now) survey.now.table slot) }
    ensures none { IsNone result → (slot : ℕ) → slot < slots_of survey.now.table
        → state_at survey.now.table.states slot ≢ Missing
        → IsThere (B.honest bank.now) (bank_seen B.Bank bank.now) survey.now.table slot }
{
    for slot in 0..survey.table.geometry.members + 2 {
        if is_gone(bank, survey, slot) {
            return Some(slot);
        }
    }
    None
}

// The lowest other slot that is gone or not in sync.
fn other_out<B: Bank>(bank: &B, survey: &Survey, first: u8) -> Option<u8>
    requires surveyed { IsSurveyOf (B.honest bank.now) (bank_seen B.Bank bank.now) survey.now }
    ensures some { IfSome result
        (λ slot. (first ≢ slot) × IsNotFull (B.honest bank.now) (bank_seen B.Bank bank.now) survey.now.table slot) }
    ensures none { IsNone result → (slot : ℕ) → slot < slots_of survey.now.table → slot ≢ first
        → (state_at survey.now.table.states slot ≡ InSync)
        × IsThere (B.honest bank.now) (bank_seen B.Bank bank.now) survey.now.table slot }
{
    for slot in 0..survey.table.geometry.members + 2 {
        if slot != first && !is_full(bank, survey, slot) {
            return Some(slot);
        }
    }
    None
}

/// Whether a slot is not there, though the table does not call it missing.
pub(crate) fn is_gone<B: Bank>(bank: &B, survey: &Survey, slot: u8) -> bool
    requires of_set { slot < slots_of survey.now.table }
    requires surveyed { IsSurveyOf (B.honest bank.now) (bank_seen B.Bank bank.now) survey.now }
    ensures gone { result ≡ true → IsGone (B.honest bank.now) (bank_seen B.Bank bank.now) survey.now.table slot }
    ensures there { result ≡ false → state_at survey.now.table.states slot ≢ Missing
        → IsThere (B.honest bank.now) (bank_seen B.Bank bank.now) survey.now.table slot }
{
    if is_in(&survey.table, slot, State::Missing) {
        return false;
    }
    is_dead(bank, survey, slot)
}

// Whether a slot is there and in sync.
fn is_full<B: Bank>(bank: &B, survey: &Survey, slot: u8) -> bool
    requires of_set { slot < slots_of survey.now.table }
    requires surveyed { IsSurveyOf (B.honest bank.now) (bank_seen B.Bank bank.now) survey.now }
    ensures full { result ≡ true → (state_at survey.now.table.states slot ≡ InSync)
        × IsThere (B.honest bank.now) (bank_seen B.Bank bank.now) survey.now.table slot }
    ensures out { result ≡ false → IsNotFull (B.honest bank.now) (bank_seen B.Bank bank.now) survey.now.table slot }
{
    survey.table.states[slot as usize] == State::InSync && !is_dead(bank, survey, slot)
}

// Whether a slot's device is down, too short, or not the one that the table says the slot was last given.
fn is_dead<B: Bank>(bank: &B, survey: &Survey, slot: u8) -> bool
    requires of_set { slot < slots_of survey.now.table }
    requires surveyed { IsSurveyOf (B.honest bank.now) (bank_seen B.Bank bank.now) survey.now }
    ensures dead { result ≡ true → IsDead (B.honest bank.now) (bank_seen B.Bank bank.now) survey.now.table slot }
    ensures there { result ≡ false → state_at survey.now.table.states slot ≢ Missing
        → IsThere (B.honest bank.now) (bank_seen B.Bank bank.now) survey.now.table slot }
{
    match presence_of(bank, &survey.table, slot) {
        Presence::Absent => true,
        Presence::TooShort => true,
        Presence::There => { survey.own[slot as usize] != survey.table.incarnations[slot as usize] }
    }
}

/// Whether the device of a slot of a table is there: up, and long enough.
pub(crate) fn presence_of<B: Bank>(bank: &B, table: &Table, slot: u8) -> Presence
    requires { slot < (B.panel bank.now).devices }
    ensures { IsPresence (bank_seen B.Bank bank.now) table.now slot result }
{
    if bank.is_down(slot) {
        return Presence::Absent;
    }
    if bank.sectors(slot) < least_of(&table.geometry, slot) {
        return Presence::TooShort;
    }
    Presence::There
}
