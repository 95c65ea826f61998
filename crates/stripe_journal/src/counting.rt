//! Which seal of a journal counts, and which is the later one.
ghost use Rattle.std.specs.Prelude.{◌≡◌, ◌↔◌, ◌≤◌, ◌<◌, ℕ, IsTrue, IfSome, IsNone, length};
ghost use Rattle.entry_runs.specs.Body.{has_bit};
ghost use Rattle.entry_runs.specs.Runs.{end_of, end_of_runs, run_at};
ghost use Rattle.layout_map.specs.Placement.{rows_of};
ghost use Rattle.layout_map.specs.declared.sizes.TheConstants.{ENTRY_ROWS};
ghost use Rattle.stripe_journal.specs.Forms.{HoldsRow, mask_at, rows_in};
ghost use Rattle.stripe_journal.specs.LastEntry.{later_of};
ghost use Rattle.stripe_journal.specs.declared.seal.Seal.{Seal};
ghost use Rattle.stripe_journal.specs.Spelling.{seal_sector};
ghost use Rattle.stripe_journal.specs.LastSealed.{AreBelow, Belongs, FitsRun, RowsHold};
ghost use Rattle.stripe_journal.specs.Seals.{row_at};

use crate::{Form, Seal, seal_decode};
use entry_runs::{Run, Runs, has_bit};
use layout_map::{ENTRY_ROWS, Geometry, HALVES};
use sector_model::Sector;

/// Whether a seal in a seal place (0 or 1) of a journal counts, for the set with this id and geometry.
pub(crate) fn counts(seal: &Seal, id: &[u8; 16], geometry: &Geometry, place: u64) -> bool
    ensures { IsTrue result ↔ Belongs id.now geometry.now place seal.now }
{
    seal.id == *id
        && seal.number % HALVES as u64 == place
        && seal.form.format() == geometry.format
        && is_of_set(&seal.form, geometry)
}

/// Whether an entry of this form has only rows of the set, and of each holds only sectors of the set's members, that
/// with the parity among them.
fn is_of_set(form: &Form, geometry: &Geometry) -> bool
    ensures { IsTrue result ↔ (AreBelow geometry.now (rows_in form.now)
        × RowsHold geometry.now form.now (rows_in form.now)) }
{
    match form {
        Form::Whole(rows) => are_below(rows.as_slice(), geometry.rows()),
        Form::Held(rows, masks) => are_held_of(rows.as_slice(), masks, geometry),
        Form::Runs(runs) => runs.end() <= geometry.rows() && are_runs_of(runs, geometry),
    }
}

/// Whether each row has a number below this one.
fn are_below(rows: &[u32], row_count: u64) -> bool
    ensures { IsTrue result ↔ ((i : ℕ) → i < length rows.now → row_at rows.now i < row_count) }
{
    rows.iter().all(|row| u64::from(*row) < row_count)
}

/// Whether these rows, at most 32 (condition), are rows of the set, and the mask of each has bits of the set's members
/// only, and that of the row's parity.
fn are_held_of(rows: &[u32], masks: &[u8; ENTRY_ROWS], geometry: &Geometry) -> bool
    requires { length rows.now ≤ ENTRY_ROWS }
    ensures { IsTrue result ↔ (AreBelow geometry.now rows.now × ((i : ℕ) → i < length rows.now
        → HoldsRow geometry.now (row_at rows.now i) (has_bit (mask_at masks.now i)))) }
{
    are_below(rows, geometry.rows()) && are_masks_of(masks, rows, geometry)
}

/// Whether the mask of each row has bits of the set's members only, and that of the row's parity. The rows are at most
/// 32, and rows of the set (conditions).
fn are_masks_of(masks: &[u8; ENTRY_ROWS], rows: &[u32], geometry: &Geometry) -> bool
    requires few { length rows.now ≤ ENTRY_ROWS }
    requires below { AreBelow geometry.now rows.now }
    ensures { IsTrue result ↔ ((i : ℕ) → i < length rows.now
        → HoldsRow geometry.now (row_at rows.now i) (has_bit (mask_at masks.now i))) }
{
    for (i, row) in rows.iter().enumerate() {
        if !is_mask_of(masks[i], u64::from(*row), geometry) {
            return false;
        }
    }
    true
}

/// Whether the masks of runs have bits of the set's members only, and in each of their rows that of the row's parity;
/// those of zeros need none. The rows are rows of the set (condition).
fn are_runs_of(runs: &Runs, geometry: &Geometry) -> bool
    requires { end_of_runs runs.now.list.items ≤ rows_of geometry.now.chunk geometry.now.stripes }
    ensures { IsTrue result ↔ ((i : ℕ) → i < length runs.now.list.items
        → FitsRun geometry.now (run_at runs.now.list.items i)) }
{
    for run in runs.list.as_slice() {
        if !is_run_of(run, geometry) {
            return false;
        }
    }
    true
}

/// Whether the mask of a run has bits of the set's members only, and in each row that of the row's parity, or it is a
/// run of zeros. Its rows are rows of the set (condition).
fn is_run_of(run: &Run, geometry: &Geometry) -> bool
    requires { end_of run.now ≤ rows_of geometry.now.chunk geometry.now.stripes }
    ensures { IsTrue result ↔ FitsRun geometry.now run.now }
{
    if run.mask == 0 {
        return true;
    }
    for row in u64::from(run.first)..run.end() {
        if !is_mask_of(run.mask, row, geometry) {
            return false;
        }
    }
    true
}

/// Whether a mask has bits of the set's members only, and that of the parity of a row, which is a row of the set
/// (condition).
fn is_mask_of(mask: u8, row: u64, geometry: &Geometry) -> bool
    requires { row < rows_of geometry.now.chunk geometry.now.stripes }
    ensures { IsTrue result ↔ HoldsRow geometry.now row (has_bit mask) }
{
    let parity = geometry.parity_member(row);
    u32::from(mask) >> geometry.members == 0 && has_bit(mask, parity)
}

/// The seal with the greater number, of two the first where they have the same.
pub(crate) fn later(first: Option<Seal>, second: Option<Seal>) -> Option<Seal>
    ensures { result ≡ later_of first second }
{
    match (first, second) {
        (Some(first), Some(second)) => {
            if first.number < second.number {
                Some(second)
            } else {
                Some(first)
            }
        }
        (Some(first), None) => Some(first),
        (None, second) => second,
    }
}

/// The seal that a sector spells, where it counts in this place (0 or 1) of a journal.
pub(crate) fn counted(
    sector: &Sector,
    id: &[u8; 16],
    geometry: &Geometry,
    place: u64,
) -> Option<Seal>
    ensures some { IfSome result (λ seal. (sector.now ≡ seal_sector seal) × Belongs id.now geometry.now place seal) }
    ensures none { IsNone result → (seal : Seal) → sector.now ≡ seal_sector seal
        → ¬ Belongs id.now geometry.now place seal }
{
    match seal_decode(sector) {
        Some(seal) if counts(&seal, id, geometry, place) => Some(seal),
        _ => None,
    }
}
