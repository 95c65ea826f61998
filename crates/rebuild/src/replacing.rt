//! A missing slot gets a device.
ghost use Rattle.std.specs.Prelude.{◌↔◌, IfErr, OnOk};
ghost use Rattle.array_io.specs.Believed.Views.{HasItsSlots};
ghost use Rattle.array_io.specs.Believed.OpenArray.{IsHonest, array_view};
ghost use Rattle.rebuild.specs.Rebuilding.{Replaces};
ghost use Rattle.rebuild.specs.Replacing.{CanReplace, IsWhyNot};

use crate::joining::{joined, publish_last};
use crate::preparing::prepare;
use array_io::Array;
use sector_model::{Bank, GREATEST_COUNT, Refusal, Stop};
use superblock::{State, Table, least_of};

/// Takes whatever device the bank has in a missing slot into the set: clears its superblock places, and joins it. A
/// member joins as rebuilding, with no row that counts. A journal gets both seals cleared and the last entry copied
/// from the other journal, and joins in sync. Its incarnation goes up by one.
///
/// Refused with `NotMissing` where the slot is none of the set or not missing, with nothing done; with `NotUsable`
/// where its device is down, goes down in the call, or is too short: the slot then stands as missing; with `TwoLost`
/// where another device goes down; and with `Worn` where the count of device calls, the table's generation or the
/// slot's incarnation stands at 2^62.
pub fn replace<B: Bank>(array: &mut Array<B>, slot: u8) -> Result<(), Refusal>
    ensures honest { IsHonest array.old ↔ IsHonest array.new }
    ensures replaces { Replaces (IsHonest array.old) slot (array_view array.old) (array_view array.new) result }
{
    check_slot(&array.bank, &array.table, slot)?;
    match prepare(&mut array.bank, &array.table, slot) {
        Ok(()) => {}
        Err(Stop::Worn) => return Err(Refusal::Worn),
        Err(Stop::Down(device)) if device == slot => return Err(Refusal::NotUsable),
        Err(Stop::Down(_)) => return Err(Refusal::TwoLost),
    }
    let next = joined(&array.table, slot);
    if publish_last(&mut array.bank, &mut array.table, &next, slot)? {
        Ok(())
    } else {
        Err(Refusal::NotUsable)
    }
}

// Why a slot can't be given its device, if so: it is none of the set or not missing; its device is down or too short;
// or a counter stands at 2^62.
fn check_slot<B: Bank>(bank: &B, table: &Table, slot: u8) -> Result<(), Refusal>
    requires { HasItsSlots table.now (B.panel bank.now) }
    ensures may { OnOk result (CanReplace (B.panel bank.now) table.now slot) }
    ensures why { IfErr result (IsWhyNot (B.panel bank.now) table.now slot) }
{
    if slot >= table.geometry.members + 2 || table.states[slot as usize] != State::Missing {
        return Err(Refusal::NotMissing);
    }
    if bank.is_down(slot) || bank.sectors(slot) < least_of(&table.geometry, slot) {
        return Err(Refusal::NotUsable);
    }
    if table.generation >= GREATEST_COUNT || table.incarnations[slot as usize] >= GREATEST_COUNT {
        return Err(Refusal::Worn);
    }
    Ok(())
}
