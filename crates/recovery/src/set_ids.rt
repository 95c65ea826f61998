//! Of which sets a bank has superblocks.
ghost use Rattle.std.specs.Prelude.{◌≡◌, ◌↔◌, ◌<◌, IsTrue};
ghost use Rattle.std.specs.Int.{from_be_bytes, w128};
ghost use Rattle.recovery.specs.SetIds.{FindsIdAbove, FindsLeast, InPlace, InSlot, IsAbove, IsAtMost, IsIdOf, IsLesser};
ghost use Rattle.recovery.specs.SetIds.{ReadsId};
ghost use Rattle.recovery.specs.SeenBank.{bank_seen};

use crate::find::read_place;
use sector_model::{Bank, Refusal, Sector};
use superblock::{counted, decode};

/// An id of a set.
type Id = [u8; 16];

/// The least id above this one of all of which a superblock counts on the bank, by reads alone: the least of all where
/// none is given, and `None` where there is none above. Ids are in the order of their texts. What a device holds that
/// is down, that goes down here, or that is too short, does not count; `Worn` where the count of device calls stands at
/// 2^62.
pub fn id_above<B: Bank>(bank: &mut B, above: &Option<Id>) -> Result<Option<Id>, Refusal>
    ensures honest { B.honest bank.old ↔ B.honest bank.new }
    ensures finds { FindsIdAbove (B.honest bank.old) above.now (bank_seen B.Bank bank.old) (bank_seen B.Bank bank.new)
        result }
{
    let mut best = None;
    for slot in 0..bank.devices() {
        best = least_in_slot(bank, slot, best, above)?;
    }
    Ok(best)
}

// The least of the best id so far and those in a slot that are above this one.
fn least_in_slot<B: Bank>(
    bank: &mut B,
    slot: u8,
    best: Option<Id>,
    above: &Option<Id>,
) -> Result<Option<Id>, Refusal>
    requires { slot < (B.panel bank.old).devices }
    ensures honest { B.honest bank.old ↔ B.honest bank.new }
    ensures finds { FindsLeast (B.honest bank.old) above.now best (InSlot (B.panel bank.old).devices slot)
        (bank_seen B.Bank bank.old)
        (bank_seen B.Bank bank.new) result }
{
    let best = least_in_place(bank, slot, 0, best, above)?;
    least_in_place(bank, slot, 1, best, above)
}

// The least of the best id so far and the one in a place of a slot, where that is above this one.
fn least_in_place<B: Bank>(
    bank: &mut B,
    slot: u8,
    place: u8,
    best: Option<Id>,
    above: &Option<Id>,
) -> Result<Option<Id>, Refusal>
    requires { slot < (B.panel bank.old).devices }
    ensures honest { B.honest bank.old ↔ B.honest bank.new }
    ensures finds { FindsLeast (B.honest bank.old) above.now best (InPlace (B.panel bank.old).devices slot place)
        (bank_seen B.Bank bank.old)
        (bank_seen B.Bank bank.new) result }
{
    let further = id_at(bank, slot, place)?;
    Ok(lesser(above, best, further))
}

// The id of the superblock that counts in a place of a slot, whichever set it is of.
fn id_at<B: Bank>(bank: &mut B, slot: u8, place: u8) -> Result<Option<Id>, Refusal>
    requires { slot < (B.panel bank.old).devices }
    ensures honest { B.honest bank.old ↔ B.honest bank.new }
    ensures reads { ReadsId (B.honest bank.old) (B.panel bank.old).devices slot place (bank_seen B.Bank bank.old)
        (bank_seen B.Bank bank.new)
        result }
{
    match read_place(bank, slot, place)? {
        Some(sector) => Ok(id_in(&sector, bank.devices() as usize, slot as usize, place)),
        None => Ok(None),
    }
}

// The id of the superblock that a sector spells, where it counts in this place of this slot.
fn id_in(sector: &Sector, devices: usize, slot: usize, place: u8) -> Option<Id>
    ensures { IsIdOf devices slot place sector.now result }
{
    let superblock = decode(sector)?;
    match counted(sector, &superblock.table.id, devices, slot, place) {
        Some(own) => Some(own.table.id),
        None => None,
    }
}

// The lesser of the best id so far and a further one, where that is above this one.
fn lesser(above: &Option<Id>, best: Option<Id>, further: Option<Id>) -> Option<Id>
    ensures { IsLesser above.now best further result }
{
    match further {
        Some(id) => lesser_of(above, best, id),
        None => best,
    }
}

// The same of a further one that there is.
fn lesser_of(above: &Option<Id>, best: Option<Id>, id: Id) -> Option<Id>
    ensures { IsLesser above.now best (Some id) result }
{
    if is_above(above, &id) && !is_at_most(&best, &id) {
        Some(id)
    } else {
        best
    }
}

// Whether an id is above this one, if one is given.
fn is_above(above: &Option<Id>, id: &Id) -> bool
    ensures { IsTrue result ↔ IsAbove above.now id.now }
{
    match above {
        Some(other) => u128::from_be_bytes(*other) < u128::from_be_bytes(*id),
        None => true,
    }
}

// Whether one was found that is not above this one.
fn is_at_most(found: &Option<Id>, id: &Id) -> bool
    ensures { IsTrue result ↔ IsAtMost found.now id.now }
{
    match found {
        Some(other) => u128::from_be_bytes(*other) <= u128::from_be_bytes(*id),
        None => false,
    }
}

#[cfg(test)]
mod tests;
