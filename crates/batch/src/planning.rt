//! The rows that a commit of sectors at some places changes, and the members that it changes there.
ghost use Rattle.std.specs.Prelude.{◌≡◌, ◌≢◌, ◌≤◌, ◌<◌, ℕ, List, length, true, false};
ghost use Rattle.entry_runs.specs.Body.{has_bit};
ghost use Rattle.entry_runs.specs.Built.{runs_in};
ghost use Rattle.entry_runs.specs.Runs.{FitEntry};
ghost use Rattle.entry_runs.specs.WrittenOut.{masks_of_runs, rows_of_runs};
ghost use Rattle.entry_runs.specs.declared.run.Run.{Run};
ghost use Rattle.batch.specs.Places.{AreDataPlaces, ArePlanned, AreRising, placed_at};
ghost use Rattle.batch.specs.Rows.{IsNextRow, StartsRow};

use crate::Placed;
use entry_runs::RunsBuilder;
use layout_map::Geometry;

/// Makes the rows of `runs` those that a commit of sectors at these places changes: each row in which one lies, with
/// the mask of the members on which one lies there and of the one with the row's parity. False where no runs of an
/// entry have these rows; what `runs` has then means nothing. At most 32 places always have runs.
///
/// The places rise, and a data sector of the set lies at each (conditions).
pub fn plan_rows(geometry: &Geometry, places: &[Placed], runs: &mut RunsBuilder) -> bool
    requires rising { AreRising places.now }
    requires data { AreDataPlaces geometry.now places.now }
    ensures planned { result ≡ true → ArePlanned geometry.now places.now (rows_of_runs (runs_in runs.new))
        (masks_of_runs (runs_in runs.new)) }
    ensures few { length places.now ≤ 32 → result ≡ true }
    ensures none { result ≡ false → (fit : List Run) → FitEntry fit
        → ¬ ArePlanned geometry.now places.now (rows_of_runs fit) (masks_of_runs fit) }
{
    runs.clear();
    let mut first = 0;
    while first < places.len() {
        let next = next_row(geometry, places, first);
        if !runs.push(next.row, next.mask) {
            return false;
        }
        first = next.end;
    }
    true
}

// A row in which some of the places lie: the mask of what a commit changes there, and the number of the first place
// after those.
#[derive(Clone, Copy)]
struct NextRow {
    row: u32,
    mask: u8,
    end: usize,
}

// The row of the place of this number, before which all places are in rows below (conditions).
fn next_row(geometry: &Geometry, places: &[Placed], first: usize) -> NextRow
    requires rising { AreRising places.now }
    requires data { AreDataPlaces geometry.now places.now }
    requires starts { StartsRow places.now first }
    ensures { IsNextRow geometry.now places.now first result }
{
    let row = places[first].row;
    let parity = geometry.parity_member(u64::from(row));
    let mut mask = with_bit(with_bit(0, parity), places[first].member);
    for i in first + 1..places.len() {
        if places[i].row != row {
            return NextRow { row, mask, end: i };
        }
        mask = with_bit(mask, places[i].member);
    }
    NextRow {
        row,
        mask,
        end: places.len(),
    }
}

// The mask with the bit of this member too.
fn with_bit(mask: u8, member: u8) -> u8
    requires { member < 8 }
    ensures has { has_bit result member ≡ true }
    ensures others { (other : ℕ) → other ≢ member → has_bit result other ≡ has_bit mask other }
{
    mask | 1 << member
}
