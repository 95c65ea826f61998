//! Clearing the devices of a set before it is made.
ghost use Rattle.std.specs.Prelude.{◌≡◌, ◌⊎◌, ◌≤◌, ◌<◌, ◌+◌, ◌↔◌, ℕ, IfErr, OnOk};
ghost use Rattle.sector_model.specs.Bank.{IsCauseOf, IsLater};
ghost use Rattle.superblock.specs.Counted.{least_sectors};
ghost use Rattle.recovery.specs.Clearing.{AreZero, HasCleared, HasRoom, IsClearedSlot, IsFlushed, IsStopIn, IsZeroAt};

use layout_map::{FIRST_ROW, FIRST_SEAL, Geometry, HALVES, SUPERBLOCK_PLACES};
use parity::is_zero;
use sector_model::{Bank, Sector, Stop, flush_device, read_sector, write_sector};

// Reads a sector, and writes zeros to it where it is not zero. It flushes nothing.
fn clear_sector<B: Bank>(bank: &mut B, dev: u8, at: u32, held: &mut Sector) -> Result<(), Stop>
    requires device { dev < (B.panel bank.old).devices }
    requires within { at < (B.panel bank.old).sectors dev }
    ensures panel { IsLater (B.panel bank.old) (B.panel bank.new) }
    ensures honest { B.honest bank.old ↔ B.honest bank.new }
    ensures cleared { B.honest bank.old → (slots : ℕ) → dev < slots
        → OnOk result (HasCleared slots (B.history bank.old) (B.history bank.new)) }
    ensures zero { B.honest bank.old → OnOk result (IsZeroAt (B.history bank.new) dev at) }
    ensures err { IfErr result (λ stop. IsCauseOf (B.panel bank.new) stop
        × ((stop ≡ Stop.Worn) ⊎ (stop ≡ Stop.Down dev))) }
{
    read_sector(bank, dev, at, held)?;
    if is_zero(held) {
        return Ok(());
    }
    write_sector(bank, dev, at, &[0; 512])
}

// The same for the sectors of a device from one up to another.
fn clear_sectors<B: Bank>(bank: &mut B, dev: u8, from: u32, end: u32) -> Result<(), Stop>
    requires device { dev < (B.panel bank.old).devices }
    requires within { end ≤ (B.panel bank.old).sectors dev }
    ensures panel { IsLater (B.panel bank.old) (B.panel bank.new) }
    ensures honest { B.honest bank.old ↔ B.honest bank.new }
    ensures cleared { B.honest bank.old → (slots : ℕ) → dev < slots
        → OnOk result (HasCleared slots (B.history bank.old) (B.history bank.new)) }
    ensures zeros { B.honest bank.old → OnOk result (AreZero (B.history bank.new) dev from end) }
    ensures err { IfErr result (λ stop. IsCauseOf (B.panel bank.new) stop
        × ((stop ≡ Stop.Worn) ⊎ (stop ≡ Stop.Down dev))) }
{
    let mut held = [0; 512];
    for at in from..end {
        clear_sector(bank, dev, at, &mut held)?;
    }
    Ok(())
}

// Clears both superblock places of a slot, both seals of a journal, and all rows of a member.
fn clear_slot<B: Bank>(bank: &mut B, slot: u8, geometry: &Geometry) -> Result<(), Stop>
    requires room { HasRoom geometry.now (B.panel bank.old) }
    requires of_set { slot < geometry.now.members + 2 }
    ensures panel { IsLater (B.panel bank.old) (B.panel bank.new) }
    ensures honest { B.honest bank.old ↔ B.honest bank.new }
    ensures cleared { B.honest bank.old → OnOk result
        (HasCleared (geometry.now.members + 2) (B.history bank.old) (B.history bank.new)) }
    ensures slot { B.honest bank.old → OnOk result (IsClearedSlot geometry.now (B.history bank.new) slot) }
    ensures err { IfErr result (IsStopIn (geometry.now.members + 2) (B.panel bank.new)) }
{
    if slot < geometry.members {
        let end = FIRST_ROW + geometry.rows() as u32;
        clear_sectors(bank, slot, 0, SUPERBLOCK_PLACES)?;
        clear_sectors(bank, slot, FIRST_ROW, end)
    } else {
        clear_sectors(bank, slot, 0, FIRST_SEAL + HALVES)
    }
}

// The same of all slots of a set.
pub(crate) fn clear_slots<B: Bank>(bank: &mut B, geometry: &Geometry) -> Result<(), Stop>
    requires { HasRoom geometry.now (B.panel bank.old) }
    ensures panel { IsLater (B.panel bank.old) (B.panel bank.new) }
    ensures honest { B.honest bank.old ↔ B.honest bank.new }
    ensures cleared { B.honest bank.old → OnOk result
        (HasCleared (geometry.now.members + 2) (B.history bank.old) (B.history bank.new)) }
    ensures slots { B.honest bank.old → (slot : ℕ) → slot < geometry.now.members + 2
        → OnOk result (IsClearedSlot geometry.now (B.history bank.new) slot) }
    ensures err { IfErr result (IsStopIn (geometry.now.members + 2) (B.panel bank.new)) }
{
    for slot in 0..geometry.members + 2 {
        clear_slot(bank, slot, geometry)?;
    }
    Ok(())
}

// Flushes the first so many slots.
pub(crate) fn flush_slots<B: Bank>(bank: &mut B, slots: u8) -> Result<(), Stop>
    requires { slots ≤ (B.panel bank.old).devices }
    ensures panel { IsLater (B.panel bank.old) (B.panel bank.new) }
    ensures honest { B.honest bank.old ↔ B.honest bank.new }
    ensures cleared { B.honest bank.old → OnOk result (HasCleared slots (B.history bank.old) (B.history bank.new)) }
    ensures flushed { B.honest bank.old → (slot : ℕ) → slot < slots
        → OnOk result (IsFlushed (B.history bank.new) slot) }
    ensures err { IfErr result (IsStopIn slots (B.panel bank.new)) }
{
    for slot in 0..slots {
        flush_device(bank, slot)?;
    }
    Ok(())
}
