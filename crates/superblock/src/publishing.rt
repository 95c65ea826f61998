//! How a table is published: its superblocks go to the devices of the set.
ghost use Rattle.std.specs.Prelude.{◌≡◌, ◌≢◌, ◌⊎◌, ◌≤◌, ◌<◌, ◌+◌, ◌&&◌, ◌↔◌, ℕ, false, not, map, [], ◌∷◌, Contains};
ghost use Rattle.std.specs.Prelude.{Err, IfErr, OnOk, is_ok};
ghost use Rattle.sector_model.specs.declared.sector.Stop.TheVariants.{Down};
ghost use Rattle.sector_model.specs.Bank.{IsCauseOf, IsLater};
ghost use Rattle.sector_model.specs.Calls.{Flush, Made, Write};
ghost use Rattle.sector_model.specs.History.{Bytes};
ghost use Rattle.layout_map.specs.declared.sizes.TheConstants.{SUPERBLOCK_PLACES};
ghost use Rattle.superblock.specs.declared.state.State.TheVariants.{Missing};
ghost use Rattle.superblock.specs.NextTables.{slots_of};
ghost use Rattle.superblock.specs.Publishing.{CanPublish, Publishes, StandsAt, first_slots, is_last, place_of};
ghost use Rattle.superblock.specs.States.{is_in_sync};
ghost use Rattle.superblock.specs.Tables.{state_at};

use crate::{State, Superblock, Table, encode};
use layout_map::SUPERBLOCK_PLACES;
use sector_model::{Bank, Sector, Stop, flush_device, write_sector};

/// Publishes a table: writes its superblocks to place `generation mod 2` of each device in sync but `last`, flushes
/// these, and only then writes and flushes `last`, the device that is rebuilding, newly joined or newly complete. A
/// missing device gets nothing. `Stop::Down` names the device at which it ended, `Stop::Worn` says that the count of
/// device calls stands at 2^62.
///
/// The set's slots are slots of the bank, `last` is a slot of the set that the table does not call missing, and each
/// device that is up, and that the table does not call missing, has two sectors at least (conditions).
pub fn publish<B: Bank>(bank: &mut B, new: &Table, last: Option<u8>) -> Result<(), Stop>
    requires { CanPublish (B.panel bank.old) new.now last }
    ensures honest { B.honest bank.old ↔ B.honest bank.new }
    ensures publishes { Publishes (B.honest bank.old) new.now last (B.panel bank.old) (B.panel bank.new)
        (B.history bank.old) (B.history bank.new) result }
{
    write_first(bank, new, last)?;
    flush_first(bank, new, last)?;
    match last {
        Some(slot) => write_last(bank, new, slot),
        None => Ok(()),
    }
}

// Writes the table's superblocks to the devices in sync but the last. It flushes nothing.
fn write_first<B: Bank>(bank: &mut B, new: &Table, last: Option<u8>) -> Result<(), Stop>
    requires { CanPublish (B.panel bank.old) new.now last }
    ensures panel { IsLater (B.panel bank.old) (B.panel bank.new) }
    ensures honest { B.honest bank.old ↔ B.honest bank.new }
    ensures made { (sectors : ℕ → Bytes) → B.honest bank.old
        → ((slot : ℕ) → slot < slots_of new.now → state_at new.now.states slot ≢ Missing
        → StandsAt new.now slot (sectors slot))
        → Made (map (λ slot. Write slot (place_of new.now) (sectors slot)) (first_slots new.now last)) (is_ok result)
        (B.history bank.old) (B.history bank.new) }
    ensures cause { IfErr result (IsCauseOf (B.panel bank.new)) }
    ensures named { (device : ℕ) → result ≡ Err (Down device) → Contains (first_slots new.now last) device }
{
    for slot in 0..new.geometry.members + 2 {
        if is_first(new, last, slot) {
            write_superblock(bank, new, slot)?;
        }
    }
    Ok(())
}

// Flushes the devices in sync but the last.
fn flush_first<B: Bank>(bank: &mut B, new: &Table, last: Option<u8>) -> Result<(), Stop>
    requires { CanPublish (B.panel bank.old) new.now last }
    ensures panel { IsLater (B.panel bank.old) (B.panel bank.new) }
    ensures honest { B.honest bank.old ↔ B.honest bank.new }
    ensures made { B.honest bank.old → Made (map (λ slot. Flush slot) (first_slots new.now last)) (is_ok result)
        (B.history bank.old) (B.history bank.new) }
    ensures cause { IfErr result (IsCauseOf (B.panel bank.new)) }
    ensures named { (device : ℕ) → result ≡ Err (Down device) → Contains (first_slots new.now last) device }
{
    for slot in 0..new.geometry.members + 2 {
        if is_first(new, last, slot) {
            flush_device(bank, slot)?;
        }
    }
    Ok(())
}

// Writes the table's superblock to the last device, and flushes it.
fn write_last<B: Bank>(bank: &mut B, new: &Table, slot: u8) -> Result<(), Stop>
    requires of_set { slot < slots_of new.now }
    requires there { state_at new.now.states slot ≢ Missing }
    requires device { slot < (B.panel bank.old).devices }
    requires within { (B.panel bank.old).down slot ≡ false → SUPERBLOCK_PLACES ≤ (B.panel bank.old).sectors slot }
    ensures panel { IsLater (B.panel bank.old) (B.panel bank.new) }
    ensures honest { B.honest bank.old ↔ B.honest bank.new }
    ensures made { (sectors : ℕ → Bytes) → B.honest bank.old → StandsAt new.now slot (sectors slot)
        → Made (Write slot (place_of new.now) (sectors slot) ∷ Flush slot ∷ []) (is_ok result) (B.history bank.old)
        (B.history bank.new) }
    ensures up { OnOk result ((B.panel bank.new).down slot ≡ false) }
    ensures err { IfErr result (λ stop. IsCauseOf (B.panel bank.new) stop
        × ((stop ≡ Stop.Worn) ⊎ (stop ≡ Stop.Down slot))) }
{
    write_superblock(bank, new, slot)?;
    flush_device(bank, slot)
}

// Writes the table's superblock of a slot to its place. It flushes nothing.
fn write_superblock<B: Bank>(bank: &mut B, new: &Table, slot: u8) -> Result<(), Stop>
    requires of_set { slot < slots_of new.now }
    requires there { state_at new.now.states slot ≢ Missing }
    requires device { slot < (B.panel bank.old).devices }
    requires within { (B.panel bank.old).down slot ≡ false → SUPERBLOCK_PLACES ≤ (B.panel bank.old).sectors slot }
    ensures panel { IsLater (B.panel bank.old) (B.panel bank.new) }
    ensures honest { B.honest bank.old ↔ B.honest bank.new }
    ensures made { (sector : Bytes) → B.honest bank.old → StandsAt new.now slot sector
        → Made (Write slot (place_of new.now) sector ∷ []) (is_ok result) (B.history bank.old) (B.history bank.new) }
    ensures err { IfErr result (λ stop. IsCauseOf (B.panel bank.new) stop
        × ((stop ≡ Stop.Worn) ⊎ (stop ≡ Stop.Down slot))) }
{
    let sector = own_sector(new, slot);
    let place = (new.generation % SUPERBLOCK_PLACES as u64) as u32;
    write_sector(bank, slot, place, &sector)
}

/// The sector with the table's superblock of a slot, which is one of the set's and not called missing (conditions).
pub fn own_sector(table: &Table, slot: u8) -> Sector
    requires of_set { slot < slots_of table.now }
    requires there { state_at table.now.states slot ≢ Missing }
    ensures { (sector : Bytes) → StandsAt table.now slot sector → result ≡ sector }
{
    let superblock = Superblock {
        table: *table,
        role: slot,
    };
    let mut sector = [0; 512];
    encode(&superblock, &mut sector);
    sector
}

// Whether the slot is in sync, and not the last one.
fn is_first(new: &Table, last: Option<u8>, slot: u8) -> bool
    requires { slot < slots_of new.now }
    ensures { result ≡ (is_in_sync (state_at new.now.states slot) && not (is_last last slot)) }
{
    new.states[slot as usize] == State::InSync && last != Some(slot)
}
