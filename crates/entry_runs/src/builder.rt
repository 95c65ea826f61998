//! Runs from rows, one after another.
ghost use Rattle.std.specs.Prelude.{◌≡◌, ◌≤◌, ◌<◌, true, false, length};
ghost use Rattle.entry_runs.specs.declared.sizes.TheConstants.{MOST_RUNS};
ghost use Rattle.entry_runs.specs.Joined.{Lengthens, touches, with_run};
ghost use Rattle.entry_runs.specs.Runs.{AreEach, FitEntry, IsRun, held_in, masked_in};

use crate::checks::masked_in;
use crate::listed::{count_rows, listed_in};
use crate::run::end_of_runs;
use crate::{ListedRow, MOST_HELD, MOST_ROWS, MOST_RUNS, Run, Runs};
use arrayvec::ArrayVec;

/// The runs of rows that come in rising order. It has no rows at first.
#[derive(Drop)]
pub struct RunsBuilder {
    list: ArrayVec<Run, MOST_RUNS>,
    rows: u32,
    held: u32,
    ghost fit: { FitEntry list.items },
    ghost rows_are: { rows ≡ masked_in list.items },
    ghost held_is: { held ≡ held_in list.items },
}

impl RunsBuilder {
    ghost use Rattle.std.specs.Prelude.{◌≢◌, ◌+◌, ◌++◌, ◌∷◌, ◌↔◌, [], List, IfSome, IsNone, IsTrue};
    ghost use Rattle.std.specs.Prelude.{count_ones, replicate};
    ghost use Rattle.std.specs.List.{range_with_len};
    ghost use Rattle.entry_runs.specs.declared.run.Run.{Run};
    ghost use Rattle.entry_runs.specs.Built.{runs_in};
    ghost use Rattle.entry_runs.specs.Listed.{IsListed};
    ghost use Rattle.entry_runs.specs.Runs.{end_of_runs};
    ghost use Rattle.entry_runs.specs.WrittenOut.{masks_of_runs, rows_of_runs};

    /// A builder without rows.
    pub fn new() -> RunsBuilder
        ensures { runs_in result ≡ [] }
    {
        RunsBuilder {
            list: ArrayVec::new(),
            rows: 0,
            held: 0,
        }
    }

    /// The row after its last, 0 where it has none.
    pub fn end(&self) -> u64
        ensures { result ≡ end_of_runs (runs_in self.now) }
    {
        end_of_runs(self.list.as_slice())
    }

    /// Adds a row after all that it has, with a mask of two bits at least (conditions). False, with nothing added,
    /// where no runs of an entry have these rows: they would be more than 58 runs, 2,048 rows with a mask or 4,096 held
    /// sectors. A row more than fewer than 32 is always added.
    pub fn push(&mut self, row: u32, mask: u8) -> bool
        requires after { end_of_runs (runs_in self.old) ≤ row }
        requires two { 2 ≤ count_ones mask }
        ensures rows { result ≡ true → rows_of_runs (runs_in self.new) ≡ rows_of_runs (runs_in self.old) ++ row ∷ [] }
        ensures masks { result ≡ true
            → masks_of_runs (runs_in self.new) ≡ masks_of_runs (runs_in self.old) ++ mask ∷ [] }
        ensures ends { result ≡ true → end_of_runs (runs_in self.new) ≡ row + 1 }
        ensures kept { result ≡ false → runs_in self.new ≡ runs_in self.old }
        ensures few { length (rows_of_runs (runs_in self.old)) < 32 → result ≡ true }
        ensures none { result ≡ false → (runs : List Run)
            → rows_of_runs runs ≡ rows_of_runs (runs_in self.old) ++ row ∷ []
            → masks_of_runs runs ≡ masks_of_runs (runs_in self.old) ++ mask ∷ [] → ¬ FitEntry runs }
    {
        self.append(Run {
            first: row,
            length: 1,
            mask,
        })
    }

    /// Adds whole rows of zeros, 1 at least, from a row on that is after all that it has (conditions). False, with
    /// nothing added, where no runs of an entry have these rows: they would be more than 58 runs, a run of zeros of
    /// more than 65,535 rows, or have a row from 2^32 on.
    pub fn push_zeros(&mut self, first: u32, count: u16) -> bool
        requires after { end_of_runs (runs_in self.old) ≤ first }
        requires some { 1 ≤ count }
        ensures rows { result ≡ true
            → rows_of_runs (runs_in self.new) ≡ rows_of_runs (runs_in self.old) ++ range_with_len first count }
        ensures masks { result ≡ true
            → masks_of_runs (runs_in self.new) ≡ masks_of_runs (runs_in self.old) ++ replicate count 0 }
        ensures ends { result ≡ true → end_of_runs (runs_in self.new) ≡ first + count }
        ensures kept { result ≡ false → runs_in self.new ≡ runs_in self.old }
        ensures none { result ≡ false → (runs : List Run)
            → rows_of_runs runs ≡ rows_of_runs (runs_in self.old) ++ range_with_len first count
            → masks_of_runs runs ≡ masks_of_runs (runs_in self.old) ++ replicate count 0 → ¬ FitEntry runs }
    {
        self.append(Run {
            first,
            length: count,
            mask: 0,
        })
    }

    /// The runs of its rows, and `None` where it has none.
    pub fn to_runs(&self) -> Option<Runs>
        ensures some { IfSome result (λ runs. runs.list.items ≡ runs_in self.now) }
        ensures none { IsNone result → runs_in self.now ≡ [] }
    {
        if self.list.is_empty() {
            return None;
        }
        let list = copied(&self.list);
        Some(Runs { list })
    }

    /// Takes all rows out.
    pub fn clear(&mut self)
        ensures { runs_in self.new ≡ [] }
    {
        self.list.clear();
        self.rows = 0;
        self.held = 0;
    }

    /// Makes its rows those of an entry's runs.
    pub fn set(&mut self, runs: &Runs)
        ensures { runs_in self.new ≡ runs.now.list.items }
    {
        self.list = copied(&runs.list);
        self.rows = masked_in(runs.list.as_slice());
        self.held = runs.held();
    }

    /// How many rows it has, those of zeros too.
    pub fn count(&self) -> usize
        ensures { result ≡ length (rows_of_runs (runs_in self.now)) }
    {
        count_rows(self.list.as_slice())
    }

    /// The i-th of its rows, in rising order and those of zeros among them; `i` is below `count()` (condition).
    pub fn listed(&self, i: usize) -> ListedRow
        requires { i < length (rows_of_runs (runs_in self.now)) }
        ensures { IsListed (runs_in self.now) i result }
    {
        listed_in(self.list.as_slice(), i)
    }

    // Adds the rows of a run, 1 at least, after all that it has, with a mask of two bits at least or of none
    // (conditions). False, with nothing added, where the runs with them do not fit an entry.
    fn append(&mut self, next: Run) -> bool
        requires after { end_of_runs (runs_in self.old) ≤ next.first }
        requires some { 1 ≤ next.length }
        requires masked { next.mask ≢ 0 → 2 ≤ count_ones next.mask }
        ensures taken { result ≡ true → runs_in self.new ≡ with_run (runs_in self.old) next }
        ensures kept { result ≡ false → runs_in self.new ≡ runs_in self.old }
        ensures fits { IsTrue result ↔ FitEntry (with_run (runs_in self.old) next) }
    {
        let rows = self.rows + next.masked();
        let held = self.held + next.held();
        if rows > MOST_ROWS || held > MOST_HELD || next.end() > 1 << 32 {
            return false;
        }
        if !add_run(&mut self.list, next) {
            return false;
        }
        self.rows = rows;
        self.held = held;
        true
    }
}

// A copy of the runs of an entry.
fn copied(runs: &ArrayVec<Run, MOST_RUNS>) -> ArrayVec<Run, MOST_RUNS>
    requires { FitEntry runs.now.items }
    ensures { result.items ≡ runs.now.items }
{
    match ArrayVec::try_from(runs.as_slice()) {
        Ok(copy) => copy,
        Err(_) => unreachable!(),
    }
}

// Puts the rows of a run after those of runs that fit an entry (condition): into the last run where they touch it, else
// as one more. False, with nothing changed, where that is a run of more than 65,535 rows or the 59th.
fn add_run(list: &mut ArrayVec<Run, MOST_RUNS>, next: Run) -> bool
    requires fit { FitEntry list.old.items }
    requires one { IsRun next }
    ensures taken { result ≡ true → list.new.items ≡ with_run list.old.items next }
    ensures each { result ≡ true → AreEach list.new.items }
    ensures few { length list.new.items ≤ MOST_RUNS }
    ensures kept { result ≡ false → list.new.items ≡ list.old.items }
    ensures none { result ≡ false → ¬ FitEntry (with_run list.old.items next) }
{
    let runs = list.as_slice();
    let count = runs.len();
    if count > 0 && touches(&runs[count - 1], &next) {
        return lengthen(list, next.length);
    }
    if list.is_full() {
        return false;
    }
    list.push(next);
    true
}

// Whether no row lies between two runs and they have one mask.
fn touches(run: &Run, next: &Run) -> bool
    ensures { result ≡ touches run.now next.now }
{
    run.end() == u64::from(next.first) && run.mask == next.mask
}

// Gives the last of these runs, 1 at least (condition), more rows. False, with nothing changed, where it would have
// more than 65,535.
fn lengthen(list: &mut ArrayVec<Run, MOST_RUNS>, more: u16) -> bool
    requires { 1 ≤ length list.old.items }
    ensures { Lengthens list.old.items more list.new.items result }
{
    let last = list.len() - 1;
    let run = list[last];
    match run.length.checked_add(more) {
        None => false,
        Some(length) => {
            list.truncate(last);
            list.push(Run {
                first: run.first,
                length,
                mask: run.mask,
            });
            true
        }
    }
}
