//! Assembling a set after a crash.
ghost use Rattle.std.specs.Prelude.{◌≡◌, ◌↔◌, ◌≤◌, ◌<◌, IfOk, IfErr};
ghost use Rattle.array_io.specs.Believed.Views.{HasItsSlots};
ghost use Rattle.array_io.specs.Believed.OpenArray.{IsHonest};
ghost use Rattle.recovery.specs.Assembling.{Assembles, open_outcome_of, outcome_of};
ghost use Rattle.recovery.specs.PuttingInOrder.{PutsInOrder};
ghost use Rattle.recovery.specs.SeenBank.{bank_seen, ended_as, given_back_as, opened_as};
ghost use Rattle.recovery.specs.Unwritten.{RefusesUnwritten};

use crate::Returned;
use crate::replaying::settle_entry;
use crate::stale_superblocks::bring_up;
use crate::survey::{Out, missing_slots, survey_bank};
use array_io::{Array, mark_slot};
use sector_model::{Bank, Refusal, Stop};
use stripe_journal::Entry;
use superblock::Table;

/// Assembles the set of this id: reads which table its superblocks choose, and which slots that table counts on are
/// there; marks the one missing that is not; brings up stale superblocks where all are there; and then brings the last
/// entry of the journals onto the journal and the members that lack it. A slot whose device goes down meanwhile is
/// marked missing too. `entry` is where the array holds entries.
///
/// `NoSet` where no superblock of this id counts; nothing was written then. `TwoLost` where two slots of the set are
/// lost, by a table that was chosen at some moment of the call; nothing was written where both were lost before it
/// wrote. `Worn` where the count of device calls, or the generation of the table, stands at 2^62. The bank is then
/// given back as it stands, and the entry is given up.
pub fn assemble<B: Bank>(
    mut bank: B,
    mut entry: Entry,
    id: [u8; 16],
) -> Result<Array<B>, Returned<B>>
    ensures honest_array { IfOk result (λ array. B.honest bank ↔ IsHonest array) }
    ensures honest_bank { IfErr result (λ returned. B.honest bank ↔ B.honest returned.bank) }
    ensures assembled { IfOk result (λ array. Assembles (B.honest bank) id (bank_seen B.Bank bank) (opened_as array)) }
    ensures refused { IfErr result
        (λ returned. Assembles (B.honest bank) id (bank_seen B.Bank bank) (given_back_as B.Bank returned)) }
    ensures unwritten { RefusesUnwritten (B.honest bank) id (bank_seen B.Bank bank) (ended_as B.Bank result) }
{
    match open_set(&mut bank, &mut entry, &id) {
        Ok((table, number)) => Ok(Array {
            bank,
            table,
            entry: number,
            buffer: entry,
        }),
        Err(refusal) => Err(Returned { bank, refusal }),
    }
}

// The table of the set and the number of its last entry, once its superblocks are in order, and that entry stands on
// each journal and its rows on the members.
fn open_set<B: Bank>(
    bank: &mut B,
    entry: &mut Entry,
    id: &[u8; 16],
) -> Result<(Table, u64), Refusal>
    ensures honest { B.honest bank.old ↔ B.honest bank.new }
    ensures its_slots { IfOk result (λ opening. HasItsSlots opening.0 (B.panel bank.new)) }
    ensures assembles { Assembles (B.honest bank.old) id.now (bank_seen B.Bank bank.old)
        (open_outcome_of (B.panel bank.new) (B.history bank.new) result) }
    ensures unwritten { RefusesUnwritten (B.honest bank.old) id.now (bank_seen B.Bank bank.old)
        (open_outcome_of (B.panel bank.new) (B.history bank.new) result) }
{
    let mut table = put_in_order(bank, id)?;
    let number = settle_entry(bank, &mut table, entry)?;
    Ok((table, number))
}

// The table of the set, once its superblocks are in order.
fn put_in_order<B: Bank>(bank: &mut B, id: &[u8; 16]) -> Result<Table, Refusal>
    ensures honest { B.honest bank.old ↔ B.honest bank.new }
    ensures its_slots { IfOk result (λ table. HasItsSlots table (B.panel bank.new)) }
    ensures puts { PutsInOrder (B.honest bank.old) id.now (bank_seen B.Bank bank.old)
        (outcome_of (B.panel bank.new) (B.history bank.new) result) }
{
    let Some(survey) = survey_bank(bank, id)? else {
        return Err(Refusal::NoSet);
    };
    let mut table = survey.table;
    match missing_slots(bank, &survey) {
        Out::Nobody => match bring_up(bank, &table) {
            Ok(()) => Ok(table),
            Err(Stop::Worn) => Err(Refusal::Worn),
            Err(Stop::Down(slot)) => match mark_slot(bank, &mut table, slot) {
                Ok(()) => Ok(table),
                Err(refusal) => Err(refusal),
            },
        },
        Out::One(slot) => match mark_slot(bank, &mut table, slot) {
            Ok(()) => Ok(table),
            Err(refusal) => Err(refusal),
        },
        Out::Two(_, _) => Err(Refusal::TwoLost),
    }
}

#[cfg(test)]
mod crashes;
#[cfg(test)]
mod forged;
#[cfg(test)]
mod tests;
