//! Which table the devices of a set choose.
ghost use Rattle.std.specs.Prelude.{◌≡◌, ◌↔◌, ◌<◌};
ghost use Rattle.recovery.specs.Finding.{Finds, FoundAt, NewestFound, OthersStay, ReadsPlace};
ghost use Rattle.recovery.specs.Making.{FindsTable};
ghost use Rattle.recovery.specs.SeenBank.{bank_seen};

use crate::survey::survey_bank;
use sector_model::{Bank, Refusal, Sector, Stop, read_sector};
use superblock::{Superblock, Table, counted, newer};

/// The table that the superblocks of this id choose, by reads alone: that of the counted superblock with the greatest
/// generation, of several in the lowest slot; `None` where none counts. Places are read slot by slot from 0, place 0
/// first; what a device holds that is down, that goes down here, or that is too short, does not count. `Worn` where the
/// count of device calls stands at 2^62.
pub fn chosen_table<B: Bank>(bank: &mut B, id: [u8; 16]) -> Result<Option<Table>, Refusal>
    ensures honest { B.honest bank.old ↔ B.honest bank.new }
    ensures found { FindsTable (B.honest bank.old) id (bank_seen B.Bank bank.old) (bank_seen B.Bank bank.new) result }
{
    match survey_bank(bank, &id)? {
        Some(survey) => Ok(Some(survey.table)),
        None => Ok(None),
    }
}

/// The newest superblock of this id that counts in a slot of the bank (condition), place 0 being read first; of two of
/// the same generation that of place 0. `None` where none counts; what a device holds that is down, that goes down
/// here, or that is too short, does not count. No call is made of another slot's device. `Worn` where the count of
/// device calls stands at 2^62.
pub fn newest_at<B: Bank>(
    bank: &mut B,
    slot: u8,
    id: &[u8; 16],
) -> Result<Option<Superblock>, Refusal>
    requires { slot < (B.panel bank.old).devices }
    ensures honest { B.honest bank.old ↔ B.honest bank.new }
    ensures found { Finds (B.honest bank.old) id.now (B.panel bank.old).devices
        (NewestFound id.now (B.panel bank.old).devices slot) (bank_seen B.Bank bank.old) (bank_seen B.Bank bank.new)
        result }
    ensures others { B.honest bank.old → OthersStay slot (B.history bank.old) (B.history bank.new) }
{
    let even = counted_at(bank, slot, 0, id)?;
    let odd = counted_at(bank, slot, 1, id)?;
    Ok(newer(even, odd))
}

// The superblock of this id that counts in a place of a slot. No call is made of a device that is down or too short,
// and none of another slot's device.
fn counted_at<B: Bank>(
    bank: &mut B,
    slot: u8,
    place: u8,
    id: &[u8; 16],
) -> Result<Option<Superblock>, Refusal>
    requires { slot < (B.panel bank.old).devices }
    ensures honest { B.honest bank.old ↔ B.honest bank.new }
    ensures found { Finds (B.honest bank.old) id.now (B.panel bank.old).devices
        (FoundAt id.now (B.panel bank.old).devices slot place) (bank_seen B.Bank bank.old) (bank_seen B.Bank bank.new)
        result }
    ensures others { B.honest bank.old → OthersStay slot (B.history bank.old) (B.history bank.new) }
{
    match read_place(bank, slot, place)? {
        Some(sector) => Ok(counted(&sector, id, bank.devices() as usize, slot as usize, place)),
        None => Ok(None),
    }
}

/// What stands in a superblock place of a slot (condition: of the bank), by a read. No call is made of a device that is
/// down or too short, and none of another slot's device.
pub(crate) fn read_place<B: Bank>(
    bank: &mut B,
    slot: u8,
    place: u8,
) -> Result<Option<Sector>, Refusal>
    requires { slot < (B.panel bank.old).devices }
    ensures honest { B.honest bank.old ↔ B.honest bank.new }
    ensures reads { ReadsPlace (B.honest bank.old) slot place (bank_seen B.Bank bank.old) (bank_seen B.Bank bank.new)
        result }
    ensures others { B.honest bank.old → OthersStay slot (B.history bank.old) (B.history bank.new) }
{
    if bank.is_down(slot) {
        return Ok(None);
    }
    let at = u32::from(place);
    if bank.sectors(slot) <= at {
        return Ok(None);
    }
    let mut sector = [0; 512];
    match read_sector(bank, slot, at, &mut sector) {
        Ok(()) => Ok(Some(sector)),
        Err(Stop::Down(_)) => Ok(None),
        Err(Stop::Worn) => Err(Refusal::Worn),
    }
}

#[cfg(test)]
mod tests;
