//! A step of a rebuild.
ghost use Rattle.std.specs.Prelude.{◌≡◌, ◌≤◌, ◌<◌, ◌↔◌, ℕ, IfSome, IsNone};
ghost use Rattle.sector_model.specs.declared.calls.TheConstants.{GREATEST_COUNT};
ghost use Rattle.layout_map.specs.Placement.{rows_of};
ghost use Rattle.array_io.specs.Believed.Holds.{row_count};
ghost use Rattle.array_io.specs.Believed.OpenArray.{IsHonest, array_view};
ghost use Rattle.rebuild.specs.Rebuilding.{IsRebuilding, StepsRebuild, end_of_step, steps_left as left_of};
ghost use Rattle.rebuild.specs.Stepping.{IsNextAt, IsProgressAt, answer_by};

use crate::Progress;
use crate::joining::{moved, publish_last, rebuilt};
use crate::rows::write_rows;
use array_io::Array;
use layout_map::{Format, Geometry};
use sector_model::{Bank, GREATEST_COUNT, Refusal};
use superblock::{State, Table};

/// Rebuilds the next rows of the member that is rebuilding: so many, at most those of a step (64, or 4,096 in format
/// 2), and none past the last. They are written from the other members' sectors and flushed, and only then the new
/// position is published, or, after the last row, that the member is in sync (`Complete`). A step of 0 rows changes
/// nothing.
///
/// Refused with `NothingToRebuild` where no member is rebuilding, or the one that is goes down in the call and is then
/// missing; with `TwoLost` where another device goes down; and with `Worn` where the count of device calls, or the
/// table's generation, stands at 2^62.
pub fn rebuild_step<B: Bank>(array: &mut Array<B>, rows: u64) -> Result<Progress, Refusal>
    ensures honest { IsHonest array.old ↔ IsHonest array.new }
    ensures steps { StepsRebuild (IsHonest array.old) rows (array_view array.old) (array_view array.new)
        (answer_by result) }
{
    let Some(member) = rebuilding_in(&array.table) else {
        return Err(Refusal::NothingToRebuild);
    };
    let from = array.table.position;
    let most = array.table.geometry.format.rebuild_rows();
    let end = from + rows.min(most).min(array.table.geometry.rows() - from);
    if end == from {
        return Ok(Progress::Position(from));
    }
    step_to(array, member, end)
}

/// How many steps a rebuild of a set of this format takes from this position on, of so many rows: the last counts where
/// it is not full, and at the end, or past it, none is left.
pub fn steps_left(format: Format, position: u64, rows: u64) -> u64
    ensures { result ≡ left_of format position rows }
{
    let left = rows.saturating_sub(position);
    left.div_ceil(format.rebuild_rows())
}

// Rebuilds the member's rows up to this one, which is past the position.
fn step_to<B: Bank>(array: &mut Array<B>, member: u8, end: u64) -> Result<Progress, Refusal>
    requires rebuilding { IsRebuilding array.old.table member }
    requires further { array.old.table.position < end }
    requires of_set { end ≤ row_count array.old.table }
    ensures honest { IsHonest array.old ↔ IsHonest array.new }
    ensures steps { (rows : ℕ) → end ≡ end_of_step array.old.table rows → 1 ≤ rows
        → StepsRebuild (IsHonest array.old) rows (array_view array.old) (array_view array.new) (answer_by result) }
{
    if array.table.generation >= GREATEST_COUNT {
        return Err(Refusal::Worn);
    }
    let from = array.table.position;
    if !write_rows(&mut array.bank, &mut array.table, member, from, end)? {
        return Err(Refusal::NothingToRebuild);
    }
    let next = next_of(&array.table, member, end);
    if !publish_last(&mut array.bank, &mut array.table, &next, member)? {
        return Err(Refusal::NothingToRebuild);
    }
    Ok(progress_at(&array.table.geometry, end))
}

// The next table, in which the member's rows below this one count.
fn next_of(table: &Table, member: u8, end: u64) -> Table
    requires rebuilding { IsRebuilding table.now member }
    requires of_set { end ≤ row_count table.now }
    requires generation { table.now.generation < GREATEST_COUNT }
    ensures { IsNextAt table.now member end result }
{
    if end == table.geometry.rows() {
        rebuilt(table, member)
    } else {
        moved(table, end)
    }
}

// How far the rebuild is, with the rows below this one rebuilt.
fn progress_at(geometry: &Geometry, end: u64) -> Progress
    requires { end ≤ rows_of geometry.now.chunk geometry.now.stripes }
    ensures { IsProgressAt geometry.now end result }
{
    if end == geometry.rows() {
        Progress::Complete
    } else {
        Progress::Position(end)
    }
}

// The member that is rebuilding, if there is one.
fn rebuilding_in(table: &Table) -> Option<u8>
    ensures some { IfSome result (IsRebuilding table.now) }
    ensures none { IsNone result → (member : ℕ) → IsRebuilding table.now member → ⊥ }
{
    for member in 0..table.geometry.members {
        if table.states[member as usize] == State::Rebuilding {
            return Some(member);
        }
    }
    None
}
