//! The rows of runs in their order, a row of zeros among them.
ghost use Rattle.std.specs.Prelude.{◌≡◌, ◌<◌, ◌≤◌, length};
ghost use Rattle.entry_runs.specs.Listed.{IsListed};
ghost use Rattle.entry_runs.specs.Runs.{FitEntry};
ghost use Rattle.entry_runs.specs.WrittenOut.{rows_of_runs};

use crate::Run;

/// A row of an entry, by its place among all rows of its runs.
#[derive(Clone, Copy, Debug, PartialEq, Eq)]
pub struct ListedRow {
    /// The row.
    pub row: u32,
    /// The members that are held: bit m says that member m's sector stands in the body. 0 for a row of zeros.
    pub mask: u8,
    /// How many sectors the body has before those of the row, at most 4,096 with these.
    pub before: u32,
}

/// How many rows these runs have, those of zeros too. They fit an entry (condition).
pub(crate) fn count_rows(runs: &[Run]) -> usize
    requires { FitEntry runs.now }
    ensures { result ≡ length (rows_of_runs runs.now) }
{
    let mut count = 0;
    for run in runs {
        count += usize::from(run.length);
    }
    count
}

/// The i-th row of these runs. They fit an entry, and have more rows than i (conditions).
pub(crate) fn listed_in(runs: &[Run], i: usize) -> ListedRow
    requires fit { FitEntry runs.now }
    requires within { i < length (rows_of_runs runs.now) }
    ensures { IsListed runs.now i result }
{
    let mut before = 0;
    let mut left = i;
    for run in runs {
        let length = usize::from(run.length);
        if left < length {
            return ListedRow {
                row: run.first + left as u32,
                mask: run.mask,
                before: before + left as u32 * run.mask.count_ones(),
            };
        }
        left -= length;
        before += run.held();
    }
    unreachable!()
}
