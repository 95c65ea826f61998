//! Whole rows are made zero, all of them or none.
ghost use Rattle.std.specs.Prelude.{◌≡◌, ◌↔◌};
ghost use Rattle.entry_runs.specs.Built.{runs_in};
ghost use Rattle.entry_runs.specs.WrittenOut.{rows_of_runs};
ghost use Rattle.array_io.specs.Believed.ArrayCalls.{Commits};
ghost use Rattle.array_io.specs.Believed.OpenArray.{IsHonest, array_view};
ghost use Rattle.array_io.specs.Believed.ZeroRows.{MayZero, zeros_in};

use super::commit::next_seal;
use super::put::{put_on_journals, put_on_members};
use crate::Array;
use entry_runs::RunsBuilder;
use sector_model::{Bank, GREATEST_COUNT, Refusal};

impl<B: Bank> Array<B> {
    /// Makes all data of whole rows zero: at each moment a crash leaves all of them as they were or all zero, and after
    /// `Ok` zero. They are one entry of the journal that has no body: its seal alone says which rows are zero. No
    /// sector is read; each member's sector of each row is written once, zero, parity among them. Each journal is
    /// flushed before its seal, as for any entry, though nothing was written there: that is a call of the bank, and no
    /// sync of a file.
    ///
    /// The rows are runs of zeros, with 1 row at least, of a set of format 2 (conditions). Refused as `commit` is.
    pub fn commit_zeros(&mut self, rows: &RunsBuilder) -> Result<(), Refusal>
        requires { MayZero self.old.table (runs_in rows.now) }
        ensures honest { IsHonest self.old ↔ IsHonest self.new }
        ensures commits { Commits (IsHonest self.old)
            (zeros_in self.old.table.geometry (rows_of_runs (runs_in rows.now))) (array_view self.old)
            (array_view self.new) result }
    {
        if self.entry >= GREATEST_COUNT {
            return Err(Refusal::Worn);
        }
        self.buffer.set_rows(rows);
        let seal = next_seal(&self.table, self.entry, &self.buffer);
        put_on_journals(&mut self.bank, &mut self.table, &seal, &self.buffer)?;
        put_on_members(&mut self.bank, &mut self.table, &seal, &self.buffer)?;
        self.entry += 1;
        Ok(())
    }
}
