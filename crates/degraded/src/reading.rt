//! Reading a member's row, also without its device.
ghost use Rattle.std.specs.Prelude.{◌≡◌, ◌<◌, ◌↔◌, true, false};
ghost use Rattle.degraded.specs.LiveView.{CanRead, slots_of};
ghost use Rattle.degraded.specs.ReadMember.{ReadsMember, is_below, is_read};

use super::live::Live;
use layout_map::FIRST_ROW;
use parity::xor_into;
use sector_model::{Bank, Sector, Stop, read_sector};

impl Live {
    /// Whether the member's own sector in a row counts: it is live and, when it is rebuilding, the row is below its
    /// position.
    pub fn is_trusted(&self, member: u8, row: u64) -> bool
        requires { member < self.now.members }
        ensures { result ≡ is_read (slots_of self.now) row member }
    {
        self.live[usize::from(member)] && self.is_rebuilt(member, row)
    }

    // Whether the member isn't the rebuilding one, or the row is below the position.
    fn is_rebuilt(&self, member: u8, row: u64) -> bool
        ensures { result ≡ is_below (slots_of self.now).rebuilding row member }
    {
        match self.rebuilding {
            Some((rebuilding, position)) => rebuilding != member || row < position,
            None => true,
        }
    }
}

/// Reads a member's row: its own sector where that counts, else the XOR of the other members' sectors. In no row may
/// two members be out (condition). `Down` names a member whose sector counts. At an error `to` may hold anything.
pub fn read_member<B: Bank>(
    bank: &mut B,
    live: &Live,
    member: u8,
    row: u64,
    to: &mut Sector,
) -> Result<(), Stop>
    requires member { member < live.now.members }
    requires can { CanRead (slots_of live.now) row (B.panel bank.old) }
    ensures honest { B.honest bank.old ↔ B.honest bank.new }
    ensures reads { ReadsMember (B.honest bank.old) (slots_of live.now) member row
        (B.panel bank.old) (B.panel bank.new) (B.history bank.old) (B.history bank.new) to.new result }
{
    if live.is_trusted(member, row) {
        read_own(bank, live, member, row, to)
    } else {
        xor_others(bank, live, member, row, to)
    }
}

// Reads a member's own sector, which counts in this row.
fn read_own<B: Bank>(
    bank: &mut B,
    live: &Live,
    member: u8,
    row: u64,
    to: &mut Sector,
) -> Result<(), Stop>
    requires member { member < live.now.members }
    requires can { CanRead (slots_of live.now) row (B.panel bank.old) }
    requires own { is_read (slots_of live.now) row member ≡ true }
    ensures honest { B.honest bank.old ↔ B.honest bank.new }
    ensures reads { ReadsMember (B.honest bank.old) (slots_of live.now) member row
        (B.panel bank.old) (B.panel bank.new) (B.history bank.old) (B.history bank.new) to.new result }
{
    read_sector(bank, member, FIRST_ROW + row as u32, to)
}

// Reads the others of a member whose own sector doesn't count in this row, and XORs them.
fn xor_others<B: Bank>(
    bank: &mut B,
    live: &Live,
    member: u8,
    row: u64,
    to: &mut Sector,
) -> Result<(), Stop>
    requires member { member < live.now.members }
    requires can { CanRead (slots_of live.now) row (B.panel bank.old) }
    requires out { is_read (slots_of live.now) row member ≡ false }
    ensures honest { B.honest bank.old ↔ B.honest bank.new }
    ensures reads { ReadsMember (B.honest bank.old) (slots_of live.now) member row
        (B.panel bank.old) (B.panel bank.new) (B.history bank.old) (B.history bank.new) to.new result }
{
    let mut sector = [0; 512];
    to.fill(0);
    for other in 0..live.members {
        if other != member {
            read_own(bank, live, other, row, &mut sector)?;
            xor_into(to, &sector);
        }
    }
    Ok(())
}

#[cfg(test)]
mod tests;
