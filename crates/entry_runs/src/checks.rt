//! Whether runs keep the rules of those of an entry.
ghost use Rattle.std.specs.Prelude.{◌≡◌, ◌↔◌, ◌≤◌, ◌<◌, ℕ, suc, IsTrue, length};
ghost use Rattle.entry_runs.specs.declared.sizes.TheConstants.{MOST_RUNS};
ghost use Rattle.entry_runs.specs.Runs.{AreEach, AreRuns, FitEntry, Follows, IsRun, held_in, masked_in, run_at};

use crate::{MOST_HELD, MOST_ROWS, MOST_RUNS, Run};

/// Whether these are the runs of an entry.
pub(crate) fn are_runs(runs: &[Run]) -> bool
    ensures { IsTrue result ↔ AreRuns runs.now }
{
    !runs.is_empty() && fit_entry(runs)
}

/// Whether these runs fit an entry.
pub(crate) fn fit_entry(runs: &[Run]) -> bool
    ensures { IsTrue result ↔ FitEntry runs.now }
{
    runs.len() <= MOST_RUNS && each_is_run(runs) && each_follows(runs) && are_few(runs)
}

/// Whether each of them is a run.
fn each_is_run(runs: &[Run]) -> bool
    ensures { IsTrue result ↔ AreEach runs.now }
{
    for run in runs {
        if !is_run(run) {
            return false;
        }
    }
    true
}

/// Whether it has rows, each below 2^32, and a mask of two members at least or of none.
fn is_run(run: &Run) -> bool
    ensures { IsTrue result ↔ IsRun run.now }
{
    run.length != 0 && (run.mask == 0 || run.mask.count_ones() >= 2) && run.end() <= 1 << 32
}

/// Whether each of them follows the one before.
fn each_follows(runs: &[Run]) -> bool
    ensures { IsTrue result ↔ ((i : ℕ) → suc i < length runs.now
        → Follows (run_at runs.now i) (run_at runs.now (suc i))) }
{
    for next in 1..runs.len() {
        if !follows(&runs[next - 1], &runs[next]) {
            return false;
        }
    }
    true
}

/// Whether the rows of the next run are above those of this one, and where no row lies between them their masks differ.
fn follows(run: &Run, next: &Run) -> bool
    ensures { IsTrue result ↔ Follows run.now next.now }
{
    let end = run.end();
    let first = u64::from(next.first);
    end < first || (end == first && run.mask != next.mask)
}

/// Whether the rows of these runs, at most 58 (condition), that have a mask and the sectors that they hold are not too
/// many.
fn are_few(runs: &[Run]) -> bool
    requires { length runs.now ≤ MOST_RUNS }
    ensures { IsTrue result ↔ ((masked_in runs.now ≤ MOST_ROWS) × (held_in runs.now ≤ MOST_HELD)) }
{
    masked_in(runs) <= MOST_ROWS && held_in(runs) <= MOST_HELD
}

/// How many rows of these runs, at most 58 (condition), have a mask.
pub(crate) fn masked_in(runs: &[Run]) -> u32
    requires { length runs.now ≤ MOST_RUNS }
    ensures { result ≡ masked_in runs.now }
{
    let mut rows = 0;
    for run in runs {
        rows += run.masked();
    }
    rows
}

/// How many sectors of a body these runs, at most 58 (condition), have.
pub(crate) fn held_in(runs: &[Run]) -> u32
    requires { length runs.now ≤ MOST_RUNS }
    ensures { result ≡ held_in runs.now }
{
    let mut sectors = 0;
    for run in runs {
        sectors += run.held();
    }
    sectors
}
