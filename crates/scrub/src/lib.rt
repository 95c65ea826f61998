//! Comparing the parity of each row of a set with its data.
#![tactic(auto)]

ghost use Rattle.std.specs.Prelude.{◌↔◌, IsTrue};
ghost use Rattle.superblock.specs.NextTables.{IsComplete};
ghost use Rattle.array_io.specs.Believed.OpenArray.{IsHonest, array_view};
ghost use Rattle.scrub.specs.Reports.{told_by};
ghost use Rattle.scrub.specs.Scrubbing.{Scrubs, ScrubsPart};

mod report;
mod rows;

use crate::rows::scrub_rows;
use array_io::Array;
pub use report::ScrubReport;
use sector_model::{Bank, Refusal};
use superblock::{State, Table};

/// Reads each member's own sector of every row of a complete set once, and tells how many rows the set has, how many
/// of them are not sound, and which of these is the first. Nothing is repaired.
///
/// Refused with `Incomplete` where a slot of the set is missing or rebuilding, before any device call; also where a
/// device goes down meanwhile, whose slot is then marked missing. Refused with `TwoLost` where a second slot is lost
/// then, and with `Worn` where the count of device calls, or the table's generation at such a mark, stands at 2^62.
pub fn scrub<B: Bank>(array: &mut Array<B>) -> Result<ScrubReport, Refusal>
    ensures honest { IsHonest array.old ↔ IsHonest array.new }
    ensures scrubs { Scrubs (IsHonest array.old) (array_view array.old) (array_view array.new) (told_by result) }
{
    let rows = array.table.geometry.rows();
    scrub_part(array, 0, rows)
}

/// Reads each member's own sector of so many rows of a complete set once, from row `first` on and as far as the set has
/// them, and tells how many rows these are, how many of them are not sound, and which of these is the first, by its
/// number in the set. Where the set has no row `first` it tells of 0 rows. Nothing is repaired.
///
/// Refused as `scrub` is: with `Incomplete` where a slot of the set is missing or rebuilding, before any device call and
/// whether or not the part has a row, also where a device goes down meanwhile, whose slot is then marked missing; with
/// `TwoLost` and `Worn` as there.
pub fn scrub_part<B: Bank>(
    array: &mut Array<B>,
    first: u64,
    rows: u64,
) -> Result<ScrubReport, Refusal>
    ensures honest { IsHonest array.old ↔ IsHonest array.new }
    ensures scrubs { ScrubsPart (IsHonest array.old) first rows (array_view array.old) (array_view array.new)
        (told_by result) }
{
    if !is_complete(&array.table) {
        return Err(Refusal::Incomplete);
    }
    scrub_rows(&mut array.bank, &mut array.table, first, rows)?.ok_or(Refusal::Incomplete)
}

// Whether all slots of the set are in sync.
fn is_complete(table: &Table) -> bool
    ensures { IsTrue result ↔ IsComplete table.now }
{
    for slot in 0..table.geometry.members + 2 {
        if table.states[slot as usize] != State::InSync {
            return false;
        }
    }
    true
}

#[cfg(test)]
mod tests;
