//! The runs of an entry.
ghost use Rattle.std.specs.Prelude.{◌≡◌, ◌≤◌, ◌<◌, ◌+◌, ◌^◌, true, if◌then◌else◌};
ghost use Rattle.entry_runs.specs.declared.sizes.TheConstants.{MOST_HELD};
ghost use Rattle.entry_runs.specs.Body.{has_bit, has_row, rank_in_run};
ghost use Rattle.entry_runs.specs.Runs.{AreRuns};

use crate::checks::held_in;
use crate::run::{bits_below, end_of_runs, has_bit};
use crate::{MOST_RUNS, Run};
use arrayvec::ArrayVec;

/// The runs of an entry: 1 to 58 runs with their rows below 2^32, each above the one before and with another mask where
/// no row lies between them. At most 2,048 of the rows have a mask, and those hold at most 4,096 sectors.
#[derive(Drop)]
pub struct Runs {
    /// The runs, in the order of their rows.
    pub list: ArrayVec<Run, MOST_RUNS>,
    pub ghost allowed: { AreRuns list.items },
}

impl Runs {
    ghost use Rattle.entry_runs.specs.Body.{holds, place_in_body, run_of};
    ghost use Rattle.entry_runs.specs.Runs.{end_of_runs, held_in};

    /// The run that has a row, and `None` where none has it.
    pub fn run_of(&self, row: u64) -> Option<Run>
        ensures { result ≡ run_of self.now.list.items row }
    {
        let runs = self.list.as_slice();
        for run in runs {
            if run.has_row(row) {
                return Some(*run);
            }
        }
        None
    }

    /// Whether the entry holds the sector of a member, 0 to 7 (condition), in a row, in a set with so many members. Of
    /// a row of zeros it holds all.
    pub fn holds(&self, members: u8, row: u64, member: u8) -> bool
        requires { member < 8 }
        ensures { result ≡ holds members self.now.list.items row member }
    {
        match self.run_of(row) {
            None => false,
            Some(run) => run.holds(members, member),
        }
    }

    /// The place of the sector of a member, 0 to 7 (condition), of a row in the body, from 0 on, and `None` where the
    /// body has it not: where the row's mask lacks the member's bit, as that of a row of zeros does, and where no run
    /// has the row.
    pub fn place_in_body(&self, row: u64, member: u8) -> Option<u32>
        requires { member < 8 }
        ensures { result ≡ place_in_body self.now.list.items row member }
    {
        let runs = self.list.as_slice();
        let mut before = 0;
        for run in runs {
            if run.has_row(row) {
                return place_after(before, run, row, member);
            }
            before += run.held();
        }
        None
    }

    /// The row after the last that the entry has, at most 2^32.
    pub fn end(&self) -> u64
        ensures row { result ≡ end_of_runs self.now.list.items }
        ensures most { result ≤ 2 ^ 32 }
    {
        end_of_runs(self.list.as_slice())
    }

    /// How many sectors the body has, at most 4,096.
    pub fn held(&self) -> u32
        ensures sectors { result ≡ held_in self.now.list.items }
        ensures most { result ≤ MOST_HELD }
    {
        held_in(self.list.as_slice())
    }
}

/// The place of the sector of a member, 0 to 7, of a row of this run in a body, where so many sectors, at most 4,096,
/// stand before those of the run (conditions). `None` where the body has it not.
fn place_after(before: u32, run: &Run, row: u64, member: u8) -> Option<u32>
    requires before { before ≤ MOST_HELD }
    requires row { has_row run.now row ≡ true }
    requires member { member < 8 }
    ensures { result ≡ (if has_bit run.now.mask member then Some (before + rank_in_run run.now row member) else None) }
{
    if !has_bit(run.mask, member) {
        return None;
    }
    let rows = (row - u64::from(run.first)) as u32;
    Some(before + rows * run.mask.count_ones() + bits_below(run.mask, member))
}
