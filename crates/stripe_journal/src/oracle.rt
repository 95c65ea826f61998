//! Which seals count in a journal of an image, which of them is the last, and where its entry has a sector: the
//! definitions, run over an image in memory. It is slow and plain, for tests to compare with; nothing that serves a set
//! uses it.
ghost use Rattle.std.specs.Prelude.{◌≡◌, ◌≤◌, ◌<◌, ◌+◌, ◌-◌, ◌*◌, IfSome, IsNone, None, Some, if◌then◌else◌};
ghost use Rattle.std.specs.Prelude.{length, true};
ghost use Rattle.entry_runs.specs.Body.{bits_below, has_bit, has_row};
ghost use Rattle.entry_runs.specs.declared.sizes.TheConstants.{MOST_HELD};
ghost use Rattle.sector_model.specs.Memory.{sectors_in};
ghost use Rattle.layout_map.specs.Formats.{body_sectors};
ghost use Rattle.layout_map.specs.declared.sizes.TheConstants.{MOST_MEMBERS};
ghost use Rattle.stripe_journal.specs.Body.{place_by_seal, place_in, rank_by_row, zero_by_seal};
ghost use Rattle.stripe_journal.specs.Forms.{IsForm, format_of, rows_in};
ghost use Rattle.stripe_journal.specs.LastEntry.{Counts, CountsNone, IsLastSealed};
ghost use Rattle.stripe_journal.specs.Seals.{AreRows};

use crate::counting::{counted, later};
use crate::form::held_by_masks;
use crate::{Form, Seal, half_start};
use entry_runs::{Run, Runs, bits_below, has_bit};
use layout_map::{FIRST_SEAL, Geometry};
use sector_model::Sector;

/// The seal that counts in a place, 0 or 1, of what a journal's slot has, for the set with this id and geometry.
#[tactic(auto, using(crate::proofs::CountedSeals::counted_there, crate::proofs::CountedSeals::none_counted_there))]
pub fn counted_seal_in(
    content: &Option<Vec<Sector>>,
    id: &[u8; 16],
    geometry: &Geometry,
    place: u8,
) -> Option<Seal>
    ensures some { IfSome result (λ seal. Counts id.now geometry.now (sectors_in content.now) place seal) }
    ensures none { IsNone result → CountsNone id.now geometry.now (sectors_in content.now) place }
{
    match content {
        Some(disk) => match disk.get(FIRST_SEAL as usize + place as usize) {
            Some(sector) => counted(sector, id, geometry, u64::from(place)),
            None => None,
        },
        None => None,
    }
}

/// The last seal of a journal, by what its slot has, for the set with this id and geometry: of the seals that count
/// there the one with the greatest number. `None` where none counts.
pub fn last_sealed_in(
    content: &Option<Vec<Sector>>,
    id: &[u8; 16],
    geometry: &Geometry,
) -> Option<Seal>
    ensures { IsLastSealed id.now geometry.now (sectors_in content.now) result }
{
    let even = counted_seal_in(content, id, geometry, 0);
    let odd = counted_seal_in(content, id, geometry, 1);
    later(even, odd)
}

/// The sector in which the body of a seal's entry has a member's sector of a row, if it has one, in a set with so many
/// members: at most 8, the member among them (conditions).
pub fn place_by_seal(seal: &Seal, members: u8, row: u64, member: u8) -> Option<u32>
    requires members { members ≤ MOST_MEMBERS }
    requires member { member < members }
    ensures { result ≡ place_by_seal members seal.now row member }
{
    let rank = rank_by_row(&seal.form, members, row, member)?;
    Some(half_start(seal.form.format(), seal.number) + rank)
}

/// Whether the entry of a seal says that a member's sector of a row is zero, in a set with so many members.
pub fn zero_by_seal(seal: &Seal, members: u8, row: u64, member: u8) -> bool
    ensures { result ≡ zero_by_seal members seal.now row member }
{
    match &seal.form {
        Form::Whole(_) | Form::Held(_, _) => false,
        Form::Runs(runs) => match runs.run_of(row) {
            Some(run) => run.mask == 0 && member < members,
            None => false,
        },
    }
}

// How many sectors the body of an entry has before a member's sector of a row, if it has that. The form is one that a
// seal may have; else the conditions are as of `place_by_seal`.
fn rank_by_row(form: &Form, members: u8, row: u64, member: u8) -> Option<u32>
    requires formed { IsForm form.now }
    requires rows { AreRows (rows_in form.now) }
    requires members { members ≤ MOST_MEMBERS }
    requires member { member < members }
    ensures rank { result ≡ rank_by_row members form.now row member }
    ensures most { IfSome result (λ rank. rank < body_sectors (format_of form.now)) }
{
    match form {
        Form::Whole(rows) => {
            let i = place_in(rows.as_slice(), row)?;
            Some(i as u32 * u32::from(members) + u32::from(member))
        }
        Form::Held(rows, masks) => {
            let i = place_in(rows.as_slice(), row)?;
            if !has_bit(masks[i], member) {
                return None;
            }
            Some(held_by_masks(&masks[..i], members) + bits_below(masks[i], member))
        }
        Form::Runs(runs) => rank_by_runs(runs, members, row, member),
    }
}

// The same of runs.
fn rank_by_runs(runs: &Runs, members: u8, row: u64, member: u8) -> Option<u32>
    requires members { members ≤ MOST_MEMBERS }
    requires member { member < members }
    ensures { result ≡ rank_by_row members (Form.Runs runs.now) row member }
{
    let mut before = 0;
    for run in runs.list.as_slice() {
        if run.has_row(row) {
            return rank_after(before, run, members, row, member);
        }
        before += u32::from(run.length) * bits_below(run.mask, members);
    }
    None
}

// The same of a row of a run, where so many sectors, at most 4,096, stand before those of the run (condition).
fn rank_after(before: u32, run: &Run, members: u8, row: u64, member: u8) -> Option<u32>
    requires before { before ≤ MOST_HELD }
    requires row { has_row run.now row ≡ true }
    requires members { members ≤ MOST_MEMBERS }
    requires member { member < members }
    ensures { result ≡ (if has_bit run.now.mask member
        then Some (before + (row - run.now.first) * bits_below run.now.mask members + bits_below run.now.mask member)
        else None) }
{
    if !has_bit(run.mask, member) {
        return None;
    }
    let rows = (row - u64::from(run.first)) as u32;
    Some(before + rows * bits_below(run.mask, members) + bits_below(run.mask, member))
}

// The place of a row in a list of rows, if it is there.
fn place_in(rows: &[u32], row: u64) -> Option<usize>
    ensures place { result ≡ place_in rows.now row }
    ensures within { IfSome result (λ place. place < length rows.now) }
{
    for place in 0..rows.len() {
        if u64::from(rows[place]) == row {
            return Some(place);
        }
    }
    None
}

#[cfg(test)]
mod tests;
