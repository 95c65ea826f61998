//! Stale superblocks are brought up: a place is stale where it does not hold exactly the table's superblock of its
//! slot.
ghost use Rattle.std.specs.Prelude.{◌≡◌, ◌≢◌, ◌≤◌, ◌<◌, ◌↔◌, ℕ, true, false, None};
ghost use Rattle.sector_model.specs.History.{Bytes};
ghost use Rattle.layout_map.specs.declared.sizes.TheConstants.{SUPERBLOCK_PLACES};
ghost use Rattle.superblock.specs.declared.state.State.TheVariants.{Missing};
ghost use Rattle.superblock.specs.NextTables.{slots_of};
ghost use Rattle.superblock.specs.Publishing.{CanPublish, StandsAt};
ghost use Rattle.superblock.specs.Tables.{state_at};
ghost use Rattle.recovery.specs.StaleSuperblocks.{AreSpelled, BringsUp, BringsUpSlots, HasState};

use layout_map::SUPERBLOCK_PLACES;
use sector_model::{Bank, Stop, flush_device, read_sector, write_sector};
use superblock::{State, Table, own_sector};

/// Brings up the superblocks of a table: reads place `generation mod 2` of each slot that the table does not call
/// missing, and where it differs from the table's superblock of the slot, writes that and flushes the device. The
/// rebuilding slot comes last. `Stop::Down` names the device at which it ended, `Stop::Worn` says that the count of
/// device calls stands at 2^62.
///
/// The set's slots are slots of the bank, and each device that is up and that the table does not call missing has two
/// sectors at least (conditions).
pub(crate) fn bring_up<B: Bank>(bank: &mut B, table: &Table) -> Result<(), Stop>
    requires { CanPublish (B.panel bank.old) table.now None }
    ensures honest { B.honest bank.old ↔ B.honest bank.new }
    ensures brings { BringsUp (B.honest bank.old) table.now (B.panel bank.old) (B.panel bank.new) (B.history bank.old)
        (B.history bank.new) result }
{
    bring_up_in(bank, table, State::InSync)?;
    bring_up_in(bank, table, State::Rebuilding)
}

// Brings up the superblocks of the slots in this state.
fn bring_up_in<B: Bank>(bank: &mut B, table: &Table, state: State) -> Result<(), Stop>
    requires can { CanPublish (B.panel bank.old) table.now None }
    requires there { state ≢ Missing }
    ensures honest { B.honest bank.old ↔ B.honest bank.new }
    ensures brings { (sectors : ℕ → Bytes) → AreSpelled table.now sectors
        → BringsUpSlots (B.honest bank.old) (HasState table.now state) table.now sectors
        (B.panel bank.old) (B.panel bank.new) (B.history bank.old) (B.history bank.new) result }
{
    for slot in 0..table.geometry.members + 2 {
        if is_in(table, slot, state) {
            bring_up_slot(bank, table, slot)?;
        }
    }
    Ok(())
}

// Brings up the superblock of one slot.
fn bring_up_slot<B: Bank>(bank: &mut B, table: &Table, slot: u8) -> Result<(), Stop>
    requires of_set { slot < slots_of table.now }
    requires there { state_at table.now.states slot ≢ Missing }
    requires device { slot < (B.panel bank.old).devices }
    requires within { (B.panel bank.old).down slot ≡ false → SUPERBLOCK_PLACES ≤ (B.panel bank.old).sectors slot }
    ensures honest { B.honest bank.old ↔ B.honest bank.new }
    ensures brings { (sectors : ℕ → Bytes) → StandsAt table.now slot (sectors slot)
        → BringsUpSlots (B.honest bank.old) (λ s. s ≡ slot) table.now sectors
        (B.panel bank.old) (B.panel bank.new) (B.history bank.old) (B.history bank.new) result }
{
    let own = own_sector(table, slot);
    let place = (table.generation % SUPERBLOCK_PLACES as u64) as u32;
    let mut found = [0; 512];
    read_sector(bank, slot, place, &mut found)?;
    if found == own {
        return Ok(());
    }
    write_sector(bank, slot, place, &own)?;
    flush_device(bank, slot)
}

/// Whether a slot is in this state.
pub(crate) fn is_in(table: &Table, slot: u8, state: State) -> bool
    requires { slot < slots_of table.now }
    ensures { result ≡ true ↔ state_at table.now.states slot ≡ state }
{
    table.states[slot as usize] == state
}
