//! Whole rows that one entry makes zero, as runs.
ghost use Rattle.std.specs.Prelude.{◌≡◌, ◌↔◌, ◌≤◌, ◌<◌, ◌+◌, ◌-◌, ◌^◌, IfSome, IsNone, IsTrue, length};
ghost use Rattle.entry_runs.specs.Runs.{FitEntry, end_of, run_at};
ghost use Rattle.batch.specs.ZeroRows.{AreNew, AreZeroRuns, GoesBetween, IsJoined, JoinsAfter, JoinsBefore};
ghost use Rattle.batch.specs.ZeroRows.{replaced, with_joined};

use arrayvec::ArrayVec;
use entry_runs::{MOST_RUNS, Run, Runs, RunsBuilder};

/// Whole rows that one entry makes zero, as runs that rise: none touches the next.
#[derive(Drop)]
pub struct ZeroRows {
    list: ArrayVec<Run, MOST_RUNS>,
    ghost zero: { AreZeroRuns list.items },
}

impl ZeroRows {
    ghost use Rattle.std.specs.Prelude.{[], false, true};
    ghost use Rattle.entry_runs.specs.Built.{runs_in};
    ghost use Rattle.entry_runs.specs.WrittenOut.{masks_of_runs, rows_of_runs};
    ghost use Rattle.batch.specs.ZeroRows.{AreRowsOf, HasMore, NoneHas};
    ghost use Rattle.batch.specs.ZeroRuns.{zero_runs};

    /// No rows.
    pub fn new() -> ZeroRows
        ensures { zero_runs result ≡ [] }
    {
        ZeroRows {
            list: ArrayVec::new(),
        }
    }

    /// Takes all rows out.
    pub fn clear(&mut self)
        ensures { zero_runs self.new ≡ [] }
    {
        self.list.clear();
    }

    /// Whether there is no row.
    pub fn is_empty(&self) -> bool
        ensures { IsTrue result ↔ (zero_runs self.now ≡ []) }
    {
        self.list.is_empty()
    }

    /// Whether none of the rows from `first` on, so many, 1 at least (condition), is among them.
    pub fn has_none_of(&self, first: u32, count: u32) -> bool
        requires { 1 ≤ count }
        ensures { IsTrue result ↔ AreNew (zero_runs self.now) first count }
    {
        let end = u64::from(first) + u64::from(count);
        for run in self.list.as_slice() {
            if u64::from(run.first) < end && u64::from(first) < run.end() {
                return false;
            }
        }
        true
    }

    /// Adds the rows from `first` on, so many, 1 to 1,024, below 2^32 and none of which is among them (conditions).
    /// False, with nothing changed, where one entry could not have them all: the runs, joined where they touch, would
    /// be more than 58, or one of them more than 65,535 rows. Where there was no row it is never false.
    pub fn add(&mut self, first: u32, count: u32) -> bool
        requires least { 1 ≤ count }
        requires most { count ≤ 1024 }
        requires below { first + count ≤ 2 ^ 32 }
        requires apart { AreNew (zero_runs self.old) first count }
        ensures more { result ≡ true → HasMore (zero_runs self.old) first count (zero_runs self.new) }
        ensures kept { result ≡ false → zero_runs self.new ≡ zero_runs self.old }
        ensures none { result ≡ false → NoneHas (zero_runs self.old) first count }
        ensures at_once { zero_runs self.old ≡ [] → result ≡ true }
    {
        let runs = self.list.as_slice();
        let joined = join(runs, first, count);
        match put_joined(runs, &joined) {
            None => false,
            Some(list) => {
                self.list = list;
                true
            }
        }
    }

    /// Makes the rows of a builder these.
    pub fn put_in(&self, rows: &mut RunsBuilder)
        ensures { AreRowsOf (zero_runs self.now) (rows_of_runs (runs_in rows.new)) (masks_of_runs (runs_in rows.new)) }
    {
        if self.list.is_empty() {
            rows.clear();
            return;
        }
        match ArrayVec::try_from(self.list.as_slice()) {
            Ok(list) => rows.set(&Runs { list }),
            Err(_) => unreachable!(),
        }
    }
}

// The run that rows make together with the runs that they touch.
#[derive(Drop)]
struct Joined {
    // The number of the first run that they touch, or of the run after them.
    from: usize,
    // The number after that of the last run that they touch.
    to: usize,
    // The first row.
    first: u32,
    // The row after the last.
    end: u64,
}

// Joins rows, 1 at least, below 2^32 and none of which these runs have (conditions), with the runs that they touch.
fn join(runs: &[Run], first: u32, count: u32) -> Joined
    requires zero { AreZeroRuns runs.now }
    requires least { 1 ≤ count }
    requires below { first + count ≤ 2 ^ 32 }
    requires apart { AreNew runs.now first count }
    ensures { IsJoined runs.now first count result }
{
    let number = runs_before(runs, first);
    let before = join_before(runs, number, first);
    let after = join_after(runs, number, u64::from(first) + u64::from(count));
    Joined {
        from: before.0,
        to: after.0,
        first: before.1,
        end: after.1,
    }
}

// How many of these runs end by a row.
fn runs_before(runs: &[Run], row: u32) -> usize
    requires { AreZeroRuns runs.now }
    ensures { GoesBetween runs.now row result }
{
    let mut first = 0;
    let mut end = runs.len();
    while first < end {
        let middle = first + (end - first) / 2;
        if runs[middle].end() <= u64::from(row) {
            first = middle + 1;
        } else {
            end = middle;
        }
    }
    first
}

// The run before rows that begin with this one, if they touch it: its number and its first row. Else the number of the
// run after it and the row.
fn join_before(runs: &[Run], number: usize, first: u32) -> (usize, u32)
    requires zero { AreZeroRuns runs.now }
    requires between { GoesBetween runs.now first number }
    ensures { JoinsBefore runs.now number first result }
{
    if ends_at(runs, number, first) {
        (number - 1, runs[number - 1].first)
    } else {
        (number, first)
    }
}

// Whether the run before the one of this number ends right before a row.
fn ends_at(runs: &[Run], number: usize, first: u32) -> bool
    requires { number ≤ length runs.now }
    ensures { IsTrue result ↔ ((1 ≤ number) × (end_of (run_at runs.now (number - 1)) ≡ first)) }
{
    number > 0 && runs[number - 1].end() == u64::from(first)
}

// The number of the run after rows that end before this one, and that row. If they touch the run: the number after its
// own, and the row after its last.
fn join_after(runs: &[Run], number: usize, end: u64) -> (usize, u64)
    requires zero { AreZeroRuns runs.now }
    requires within { number ≤ length runs.now }
    requires above { number < length runs.now → end ≤ (run_at runs.now number).first }
    requires most { end ≤ 2 ^ 32 }
    ensures { JoinsAfter runs.now number end result }
{
    if begins_at(runs, number, end) {
        (number + 1, runs[number].end())
    } else {
        (number, end)
    }
}

// Whether the run of this number begins with a row.
fn begins_at(runs: &[Run], number: usize, end: u64) -> bool
    ensures { IsTrue result ↔ ((number < length runs.now) × ((run_at runs.now number).first ≡ end)) }
{
    number < runs.len() && u64::from(runs[number].first) == end
}

// The runs with the joined one in place of those that it is made from. `None` where they do not fit an entry.
fn put_joined(runs: &[Run], joined: &Joined) -> Option<ArrayVec<Run, MOST_RUNS>>
    requires some { joined.now.first < joined.now.end }
    requires order { joined.now.from ≤ joined.now.to }
    requires within { joined.now.to ≤ length runs.now }
    ensures some { IfSome result (λ list. list.items ≡ with_joined runs.now joined.now) }
    ensures short { IfSome result (λ list. joined.now.end - joined.now.first < 2 ^ 16) }
    ensures few { IfSome result (λ list. length (with_joined runs.now joined.now) ≤ MOST_RUNS) }
    ensures none { IsNone result → ¬ FitEntry (with_joined runs.now joined.now) }
{
    let length = u16::try_from(joined.end - u64::from(joined.first)).ok()?;
    let run = Run {
        first: joined.first,
        length,
        mask: 0,
    };
    replace(runs, joined.from, joined.to, run)
}

// The runs with one in place of those from one number up to another. `None` where they would be more than 58.
fn replace(runs: &[Run], from: usize, to: usize, run: Run) -> Option<ArrayVec<Run, MOST_RUNS>>
    requires order { from ≤ to }
    requires within { to ≤ length runs.now }
    ensures some { IfSome result (λ list. list.items ≡ replaced runs.now from to run) }
    ensures few { IfSome result (λ list. length (replaced runs.now from to run) ≤ MOST_RUNS) }
    ensures none { IsNone result → MOST_RUNS < length (replaced runs.now from to run) }
{
    let mut list = ArrayVec::try_from(&runs[..from]).ok()?;
    list.try_push(run).ok()?;
    list.try_extend_from_slice(&runs[to..]).ok()?;
    Some(list)
}
