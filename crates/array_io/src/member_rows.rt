//! The rows of an entry are put on a member.
ghost use Rattle.std.specs.Prelude.{◌≡◌, ◌⊎◌, ◌↔◌, ◌<◌, ℕ, IfErr, IfSome, IsNone, false, length, true};
ghost use Rattle.sector_model.specs.Bank.{IsCauseOf, IsLater};
ghost use Rattle.stripe_journal.specs.Entries.{numbers_of, sector_in_row};
ghost use Rattle.array_io.specs.Steps.PuttingRows.{CanPutRows, IsMemberOn, PutsMember, WritesRows, is_put};
ghost use Rattle.array_io.specs.Steps.PuttingSteps.{rows_held};

use crate::liveness::counts_on;
use layout_map::FIRST_ROW;
use sector_model::{Bank, Sector, Stop, flush_device, write_sector};
use stripe_journal::Entry;
use superblock::Table;

/// Puts what an entry holds on one member: writes each of the member's sectors that the entry holds, and whose row
/// counts on the member by the table, each one if it is in sync, those below the position if it is rebuilding, and then
/// flushes it. Where there is none, the device is not called. `Stop::Down` names the member, `Stop::Worn` says that the
/// count of device calls stands at 2^62.
///
/// The member is one of the set that the table does not call missing, the set's slots are slots of the bank, each
/// member that is up, and that the table does not call missing, has a sector for each row, and the rows rise, and are
/// rows of the set (conditions).
pub(crate) fn put_member<B: Bank>(
    bank: &mut B,
    table: &Table,
    entry: &Entry,
    member: u8,
) -> Result<(), Stop>
    requires can { CanPutRows table.now (numbers_of entry.now) (B.panel bank.old) }
    requires on { IsMemberOn table.now member }
    ensures honest { B.honest bank.old ↔ B.honest bank.new }
    ensures puts { PutsMember (B.honest bank.old) table.now (rows_held entry.now) member (B.panel bank.old)
        (B.panel bank.new)
        (B.history bank.old) (B.history bank.new) result }
{
    if !has_rows_on(table, entry, member) {
        return Ok(());
    }
    write_rows(bank, table, entry, member)?;
    flush_device(bank, member)
}

// Whether an entry holds a sector that is put on a member.
fn has_rows_on(table: &Table, entry: &Entry, member: u8) -> bool
    requires member { member < table.now.geometry.members }
    ensures none { result ≡ false → (i : ℕ) → i < length (numbers_of entry.now)
        → is_put table.now (rows_held entry.now) member i ≡ false }
{
    for i in 0..entry.len() {
        if sector_to_put(table, entry, i, member).is_some() {
            return true;
        }
    }
    false
}

// The sector that the i-th row of an entry puts on a member, if the entry holds one and the member's own counts in the
// row.
fn sector_to_put<'a>(table: &Table, entry: &'a Entry, i: usize, member: u8) -> Option<&'a Sector>
    requires place { i < length (numbers_of entry.now) }
    requires member { member < table.now.geometry.members }
    ensures some { IfSome result (λ sector. (is_put table.now (rows_held entry.now) member i ≡ true)
        × (sector.now ≡ sector_in_row entry.now i member)) }
    ensures none { IsNone result → is_put table.now (rows_held entry.now) member i ≡ false }
{
    if counts_on(table, member, u64::from(entry.row(i))) {
        entry.view(i).held(member)
    } else {
        None
    }
}

// Writes what an entry holds to a member. It flushes nothing.
fn write_rows<B: Bank>(bank: &mut B, table: &Table, entry: &Entry, member: u8) -> Result<(), Stop>
    requires can { CanPutRows table.now (numbers_of entry.now) (B.panel bank.old) }
    requires on { IsMemberOn table.now member }
    ensures panel { IsLater (B.panel bank.old) (B.panel bank.new) }
    ensures honest { B.honest bank.old ↔ B.honest bank.new }
    ensures written { B.honest bank.old → WritesRows table.now (rows_held entry.now) member (B.history bank.old)
        (B.history bank.new) result }
    ensures err { IfErr result (λ stop. IsCauseOf (B.panel bank.new) stop
        × ((stop ≡ Stop.Worn) ⊎ (stop ≡ Stop.Down member))) }
{
    for i in 0..entry.len() {
        let row = entry.row(i);
        if let Some(sector) = sector_to_put(table, entry, i, member) {
            write_sector(bank, member, FIRST_ROW + row, sector)?;
        }
    }
    Ok(())
}
