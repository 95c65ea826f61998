//! A logical sector is read.
ghost use Rattle.std.specs.Prelude.{◌≡◌, ◌<◌, ◌↔◌, ℕ, OnOk};
ghost use Rattle.sector_model.specs.Readable.{readable};
ghost use Rattle.layout_map.specs.Placement.{data_sectors_of, rows_of};
ghost use Rattle.degraded.specs.RowValue.{value};
ghost use Rattle.array_io.specs.Believed.ArrayCalls.{Reads};
ghost use Rattle.array_io.specs.Believed.ReadWhole.{NoDeviceFailed, ReadsValue, ReadsWhole};
ghost use Rattle.array_io.specs.Steps.ReadingOn.{KeepsOn, ReadsOrFailsSlot};
ghost use Rattle.array_io.specs.Believed.Settled.{rows_by};
ghost use Rattle.array_io.specs.Believed.Views.{HasItsSlots};
ghost use Rattle.array_io.specs.Believed.OpenArray.{IsHonest, array_view};

use super::mark_slot;
use crate::Array;
use crate::liveness::live_of;
use degraded::read_member;
use sector_model::{Bank, Refusal, Sector, Stop};
use superblock::Table;

impl<B: Bank> Array<B> {
    /// Reads a logical sector of the set, one below its data sectors (condition): the sector of the member on which it
    /// lies, or where that is missing, or has not been rebuilt so far, the XOR of the row's other sectors. A member
    /// whose device goes down is marked missing, and its part is read without it.
    ///
    /// Refused with `TwoLost` where a second slot is lost, and with `Worn` where the count of device calls, or the
    /// table's generation, stands at 2^62; `to` may then hold anything.
    pub fn read(&mut self, logical: u64, to: &mut Sector) -> Result<(), Refusal>
        requires { logical < data_sectors_of self.old.table.geometry.members self.old.table.geometry.chunk
            self.old.table.geometry.stripes }
        ensures honest { IsHonest self.old ↔ IsHonest self.new }
        ensures reads { Reads (IsHonest self.old) logical (array_view self.old) (array_view self.new) to.new result }
        ensures whole { IsHonest self.old → OnOk result (NoDeviceFailed (B.panel self.old.bank) (B.panel self.new.bank)
            → ReadsWhole logical (array_view self.old) (array_view self.new) to.new) }
    {
        let place = self.table.geometry.place(logical);
        read_value(&mut self.bank, &mut self.table, place.member, place.row, to)
    }
}

/// Reads a member's value in a row. A device that goes down meanwhile is marked missing, and the value is read without
/// it. Refused with `TwoLost` where a second slot is lost, and with `Worn` as `value_or_fail_slot` is; `to` may then
/// hold anything. The conditions are those of `value_or_fail_slot`.
pub(crate) fn read_value<B: Bank>(
    bank: &mut B,
    table: &mut Table,
    member: u8,
    row: u64,
    to: &mut Sector,
) -> Result<(), Refusal>
    requires its_slots { HasItsSlots table.old (B.panel bank.old) }
    requires member { member < table.old.geometry.members }
    requires row { row < rows_of table.old.geometry.chunk table.old.geometry.stripes }
    ensures honest { B.honest bank.old ↔ B.honest bank.new }
    ensures its_slots { HasItsSlots table.new (B.panel bank.new) }
    ensures steps { KeepsOn (B.honest bank.old) table.old table.new (B.panel bank.old) (B.panel bank.new)
        (B.history bank.old) (B.history bank.new) result }
    ensures gives { B.honest bank.old → OnOk result
        (to.new ≡ value (rows_by table.new (readable (B.history bank.new))) row member) }
    ensures whole { B.honest bank.old → OnOk result (NoDeviceFailed (B.panel bank.old) (B.panel bank.new)
        → ReadsValue table.old table.new member row (B.history bank.old) (B.history bank.new) to.new) }
{
    if value_or_fail_slot(bank, table, member, row, to)? {
        return Ok(());
    }
    if value_or_fail_slot(bank, table, member, row, to)? {
        return Ok(());
    }
    Err(Refusal::TwoLost)
}

/// Reads a member's value in a row (`true`): its own sector where that counts by the table, by one device call, else
/// the XOR of the other members' sectors. So of a complete set it is the member's own sector as it stands. Where a
/// device that is read goes down, its slot is marked missing, in this table and on the devices that are in sync
/// (`false`); nothing is tried again, and `to` may then hold anything, as after a refusal.
///
/// Refused with `TwoLost` where another slot than the one that went down is not in sync, or its device goes down while
/// the mark is published, and with `Worn` where the count of device calls, or the table's generation at a mark, stands
/// at 2^62.
///
/// The member and the row are of the set; the set's slots are slots of the bank, and each that the table does not call
/// missing is long enough where it is up (conditions).
pub fn value_or_fail_slot<B: Bank>(
    bank: &mut B,
    table: &mut Table,
    member: u8,
    row: u64,
    to: &mut Sector,
) -> Result<bool, Refusal>
    requires its_slots { HasItsSlots table.old (B.panel bank.old) }
    requires member { member < table.old.geometry.members }
    requires row { row < rows_of table.old.geometry.chunk table.old.geometry.stripes }
    ensures honest { B.honest bank.old ↔ B.honest bank.new }
    ensures its_slots { HasItsSlots table.new (B.panel bank.new) }
    ensures reads { ReadsOrFailsSlot (B.honest bank.old) table.old table.new member row (B.panel bank.old)
        (B.panel bank.new)
        (B.history bank.old) (B.history bank.new) to.new result }
{
    match read_member(bank, &live_of(table), member, row, to) {
        Ok(()) => Ok(true),
        Err(Stop::Worn) => Err(Refusal::Worn),
        Err(Stop::Down(device)) => {
            mark_slot(bank, table, device)?;
            Ok(false)
        }
    }
}

#[cfg(test)]
mod tests;
