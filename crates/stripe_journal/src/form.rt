//! Which sectors of its rows an entry holds.
ghost use Rattle.std.specs.Prelude.{◌≡◌, ◌≤◌, ◌<◌, ◌*◌, ℕ, length};
ghost use Rattle.layout_map.specs.Formats.{body_sectors};
ghost use Rattle.layout_map.specs.declared.format.Format.TheVariants.{One};
ghost use Rattle.layout_map.specs.declared.sizes.TheConstants.{ENTRY_ROWS, MOST_MEMBERS};
ghost use Rattle.entry_runs.specs.declared.sizes.TheConstants.{MOST_HELD};
ghost use Rattle.entry_runs.specs.WrittenOut.{masks_of_runs};
ghost use Rattle.stripe_journal.specs.Forms.{IsForm, format_of, held_before, held_by_masks, rows_in};
ghost use Rattle.stripe_journal.specs.Spelling.{count_in, first_mark, last_mark};

use arrayvec::ArrayVec;
use entry_runs::{Runs, bits_below};
use layout_map::{ENTRY_ROWS, Format};

/// The rows of an entry, and which of their sectors it holds.
#[derive(Drop)]
pub enum Form {
    /// Of each row the sectors of all members. A set of format 1 has entries of this form and of the next.
    Whole(ArrayVec<u32, ENTRY_ROWS>),
    /// Of each row the sectors of some members, at least two: bit m of mask i says that the body holds member m of the
    /// i-th row. The masks after the last row are 0.
    Held(ArrayVec<u32, ENTRY_ROWS>, [u8; ENTRY_ROWS]),
    /// Rows as runs, of each run the sectors of the same members, or rows of zeros. A set of format 2 has entries of
    /// this form alone.
    Runs(Runs),
}

impl Form {
    /// The format of the sets in which a seal of this form may count.
    pub fn format(&self) -> Format
        ensures { result ≡ format_of self.now }
    {
        match self {
            Form::Whole(_) | Form::Held(_, _) => Format::One,
            Form::Runs(_) => Format::Two,
        }
    }

    /// The rows that it lists: those of the entry in a set of format 1, and none where they are runs.
    pub fn rows(&self) -> &[u32]
        ensures listed { format_of self.now ≡ One → result.now ≡ rows_in self.now }
        ensures few { length result.now ≤ ENTRY_ROWS }
    {
        match self {
            Form::Whole(rows) | Form::Held(rows, _) => rows.as_slice(),
            Form::Runs(_) => &[],
        }
    }

    /// How many sectors the body has in a set with at most 8 members: 256 at most, or 4,096 in format 2. The form is
    /// one that a seal may have (conditions).
    pub(crate) fn held(&self, members: u8) -> u32
        requires formed { IsForm self.now }
        requires most { members ≤ MOST_MEMBERS }
        ensures count { result ≡ held_before members self.now (length (rows_in self.now)) }
        ensures most { result ≤ body_sectors (format_of self.now) }
    {
        match self {
            Form::Whole(rows) => rows.len() as u32 * u32::from(members),
            Form::Held(rows, masks) => held_by_masks(&masks[..rows.len()], members),
            Form::Runs(runs) => held_by_runs(runs, members),
        }
    }

    // The mark at the start of a seal of this form.
    pub(crate) fn first_mark(&self) -> &'static [u8; 8]
        ensures { result.now ≡ first_mark self.now }
    {
        match self {
            Form::Whole(_) => b"RAID5JE1",
            Form::Held(_, _) => b"RAID5JE2",
            Form::Runs(_) => b"RAID5JE3",
        }
    }

    // The mark at its end.
    pub(crate) fn last_mark(&self) -> &'static [u8; 8]
        ensures { result.now ≡ last_mark self.now }
    {
        match self {
            Form::Whole(_) => b"1EJ5DIAR",
            Form::Held(_, _) => b"2EJ5DIAR",
            Form::Runs(_) => b"3EJ5DIAR",
        }
    }

    // The count in a seal of this form: of the rows that it lists, or of its runs.
    pub(crate) fn count(&self) -> u32
        ensures { result ≡ count_in self.now }
    {
        match self {
            Form::Whole(rows) | Form::Held(rows, _) => rows.len() as u32,
            Form::Runs(runs) => runs.list.len() as u32,
        }
    }
}

// How many sectors of a body rows with these masks have, at most 32 (condition), in a set with at most 8 members.
pub(crate) fn held_by_masks(masks: &[u8], members: u8) -> u32
    requires few { length masks.now ≤ ENTRY_ROWS }
    requires most { members ≤ MOST_MEMBERS }
    ensures count { result ≡ held_by_masks members masks.now }
    ensures most { result ≤ length masks.now * members }
{
    let mut count = 0;
    for mask in masks {
        count += bits_below(*mask, members);
    }
    count
}

// How many sectors of a body the rows of runs have, in a set with at most 8 members (condition).
fn held_by_runs(runs: &Runs, members: u8) -> u32
    requires { members ≤ MOST_MEMBERS }
    ensures count { result ≡ held_by_masks members (masks_of_runs runs.now.list.items) }
    ensures most { result ≤ MOST_HELD }
{
    let mut count = 0;
    for run in runs.list.as_slice() {
        count += u32::from(run.length) * bits_below(run.mask, members);
    }
    count
}
