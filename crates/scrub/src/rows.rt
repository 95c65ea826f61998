//! The rows of a complete set, as their members have them.
ghost use Rattle.std.specs.Prelude.{◌≡◌, ◌<◌, ◌↔◌, IfOk, IfSome, IsTrue};
ghost use Rattle.sector_model.specs.Readable.{readable};
ghost use Rattle.layout_map.specs.Placement.{rows_of};
ghost use Rattle.parity.specs.Xor.{xor_of_all};
ghost use Rattle.superblock.specs.NextTables.{IsComplete};
ghost use Rattle.array_io.specs.Steps.Scanning.{ScansOrFailsSlot};
ghost use Rattle.array_io.specs.Believed.Views.{HasItsSlots};
ghost use Rattle.scrub.specs.Reports.{report_of, were_read};
ghost use Rattle.scrub.specs.Scrubbing.{IsPartReport, row_in};

use crate::ScrubReport;
use array_io::value_or_fail_slot;
use parity::{is_zero, xor_into};
use sector_model::{Bank, Refusal, Sector};
use superblock::Table;

// Reads so many rows of a complete set (its condition), from `first` on and as far as it has them, and tells which are
// not sound; `None` where a device went down, and its slot was marked missing.
pub(crate) fn scrub_rows<B: Bank>(
    bank: &mut B,
    table: &mut Table,
    first: u64,
    rows: u64,
) -> Result<Option<ScrubReport>, Refusal>
    requires its_slots { HasItsSlots table.old (B.panel bank.old) }
    requires complete { IsComplete table.old }
    ensures honest { B.honest bank.old ↔ B.honest bank.new }
    ensures its_slots { HasItsSlots table.new (B.panel bank.new) }
    ensures scans { ScansOrFailsSlot (B.honest bank.old) table.old table.new (B.panel bank.old) (B.panel bank.new)
        (B.history bank.old) (B.history bank.new) (were_read result) }
    ensures told { IfOk result (λ found. IfSome found (λ report.
        IsPartReport (B.honest bank.old) first rows table.old (readable (B.history bank.old)) (report_of report))) }
{
    let mut report = ScrubReport::new();
    let mut sum = [0; 512];
    let count = rows.min(table.geometry.rows().saturating_sub(first));
    for row in first..first + count {
        if !sum_row(bank, table, row, &mut sum)? {
            return Ok(None);
        }
        report.count(row, is_zero(&sum));
    }
    Ok(Some(report))
}

// `sum` becomes the XOR of the members' own sectors in a row (`true`). Where a device goes down meanwhile its slot is
// marked missing (`false`), or that is refused as `value_or_fail_slot` is.
fn sum_row<B: Bank>(
    bank: &mut B,
    table: &mut Table,
    row: u64,
    sum: &mut Sector,
) -> Result<bool, Refusal>
    requires its_slots { HasItsSlots table.old (B.panel bank.old) }
    requires complete { IsComplete table.old }
    requires row { row < rows_of table.old.geometry.chunk table.old.geometry.stripes }
    ensures honest { B.honest bank.old ↔ B.honest bank.new }
    ensures its_slots { HasItsSlots table.new (B.panel bank.new) }
    ensures scans { ScansOrFailsSlot (B.honest bank.old) table.old table.new (B.panel bank.old) (B.panel bank.new)
        (B.history bank.old) (B.history bank.new) result }
    ensures sum { IfOk result (λ was_read. IsTrue was_read → B.honest bank.old
        → sum.new ≡ xor_of_all (row_in table.old (readable (B.history bank.old)) row)) }
{
    *sum = [0; 512];
    let mut own = [0; 512];
    for member in 0..table.geometry.members {
        if !value_or_fail_slot(bank, table, member, row, &mut own)? {
            return Ok(false);
        }
        xor_into(sum, &own);
    }
    Ok(true)
}
