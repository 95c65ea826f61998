//! Making a set.
ghost use Rattle.std.specs.Prelude.{◌≡◌, ◌↔◌, ◌≤◌, ◌<◌, ◌+◌, ℕ, None, IfOk, IfErr, OnOk};
ghost use Rattle.sector_model.specs.Bank.{IsLater};
ghost use Rattle.array_io.specs.Believed.Fresh.{zeros_of};
ghost use Rattle.array_io.specs.Believed.Settled.{IsSettled};
ghost use Rattle.array_io.specs.Believed.Views.{HasItsSlots};
ghost use Rattle.array_io.specs.Believed.OpenArray.{IsHonest};
ghost use Rattle.superblock.specs.NextTables.{slots_of};
ghost use Rattle.recovery.specs.Clearing.{IsStopIn, IsUsable};
ghost use Rattle.recovery.specs.Making.{IsFirstTable, IsNoMake, IsQuietBeyond, Makes};
ghost use Rattle.recovery.specs.SeenBank.{bank_seen, given_back_as, opened_as};

mod clearing;

use self::clearing::{clear_slots, flush_slots};
use crate::Returned;
use array_io::Array;
use layout_map::Geometry;
use sector_model::{Bank, Refusal, Stop};
use stripe_journal::Entry;
use superblock::{State, Table, least_of, publish};

/// Makes a set of this id and geometry on the bank's first `members + 2` slots, whatever they held: clears both
/// superblock places of each, both seals of each journal and all rows of each member, flushes, and publishes
/// generation 1 with all slots in sync and incarnation 1. The new set's logical sectors are all zero. Each sector that
/// is cleared is read once, and is written only where it is not zero.
///
/// `BadGeometry` where the bank has fewer slots; `NotUsable` where one of
/// the set's devices is down, goes down in the call, or is too short; `Worn` where the count of device calls stands at
/// 2^62. After a refusal, as after a crash within the call, nothing is promised of a set on these devices; the bank is
/// given back as it stands, and the entry is given up.
pub fn make<B: Bank>(
    mut bank: B,
    entry: Entry,
    id: [u8; 16],
    geometry: Geometry,
) -> Result<Array<B>, Returned<B>>
    ensures honest_array { IfOk result (λ array. B.honest bank ↔ IsHonest array) }
    ensures honest_bank { IfErr result (λ returned. B.honest bank ↔ B.honest returned.bank) }
    ensures made { IfOk result (λ array. Makes (B.honest bank) id geometry (bank_seen B.Bank bank) (opened_as array)) }
    ensures refused { IfErr result
        (λ returned. Makes (B.honest bank) id geometry (bank_seen B.Bank bank) (given_back_as B.Bank returned)) }
{
    let table = first_table(id, geometry);
    match put_set(&mut bank, &table) {
        Ok(()) => Ok(Array {
            bank,
            table,
            entry: 0,
            buffer: entry,
        }),
        Err(refusal) => Err(Returned { bank, refusal }),
    }
}

// The first table of a set.
fn first_table(id: [u8; 16], geometry: Geometry) -> Table
    ensures { IsFirstTable id geometry result }
{
    let mut states = [State::Missing; 10];
    let mut incarnations = [0; 10];
    for slot in 0..geometry.members + 2 {
        states[slot as usize] = State::InSync;
        incarnations[slot as usize] = 1;
    }
    Table {
        id,
        generation: 1,
        geometry,
        states,
        incarnations,
        position: 0,
    }
}

// Puts a new set with this first table on the bank.
fn put_set<B: Bank>(bank: &mut B, table: &Table) -> Result<(), Refusal>
    requires first { IsFirstTable table.now.id table.now.geometry table.now }
    ensures panel { IsLater (B.panel bank.old) (B.panel bank.new) }
    ensures honest { B.honest bank.old ↔ B.honest bank.new }
    ensures its_slots { OnOk result (HasItsSlots table.now (B.panel bank.new)) }
    ensures rests { B.honest bank.old → IsQuietBeyond table.now.id (slots_of table.now) (bank_seen B.Bank bank.old)
        → OnOk result
        (IsSettled (B.panel bank.new).devices table.now 0 (B.history bank.new) None (zeros_of table.now.geometry)) }
    ensures cause { IfErr result (IsNoMake table.now.geometry (B.panel bank.new)) }
{
    check_devices(bank, &table.geometry)?;
    match write_set(bank, table) {
        Ok(()) => Ok(()),
        Err(Stop::Down(_)) => Err(Refusal::NotUsable),
        Err(Stop::Worn) => Err(Refusal::Worn),
    }
}

// Why no set of this geometry can be made on the bank, if so.
fn check_devices<B: Bank>(bank: &B, geometry: &Geometry) -> Result<(), Refusal>
    ensures usable { OnOk result (IsUsable geometry.now (B.panel bank.now)) }
    ensures cause { IfErr result (IsNoMake geometry.now (B.panel bank.now)) }
{
    let slots = geometry.members + 2;
    if bank.devices() < slots {
        return Err(Refusal::BadGeometry);
    }
    for slot in 0..slots {
        if bank.is_down(slot) || bank.sectors(slot) < least_of(geometry, slot) {
            return Err(Refusal::NotUsable);
        }
    }
    Ok(())
}

// Clears the set's devices, flushes them, and publishes the first table on them.
fn write_set<B: Bank>(bank: &mut B, table: &Table) -> Result<(), Stop>
    requires first { IsFirstTable table.now.id table.now.geometry table.now }
    requires usable { IsUsable table.now.geometry (B.panel bank.old) }
    ensures panel { IsLater (B.panel bank.old) (B.panel bank.new) }
    ensures honest { B.honest bank.old ↔ B.honest bank.new }
    ensures rests { B.honest bank.old → IsQuietBeyond table.now.id (slots_of table.now) (bank_seen B.Bank bank.old)
        → OnOk result
        (IsSettled (B.panel bank.new).devices table.now 0 (B.history bank.new) None (zeros_of table.now.geometry)) }
    ensures err { IfErr result (IsStopIn (slots_of table.now) (B.panel bank.new)) }
{
    clear_slots(bank, &table.geometry)?;
    flush_slots(bank, table.geometry.members + 2)?;
    publish(bank, table, None)
}

#[cfg(test)]
mod tests;
