//! Logical sectors are written, all of them or none.
ghost use Rattle.std.specs.Prelude.{◌≡◌, ◌≤◌, ◌<◌, ◌+◌, ◌^◌, ◌↔◌, ℕ, [], Ok, count_ones, length};
ghost use Rattle.layout_map.specs.declared.format.Format.TheVariants.{One};
ghost use Rattle.layout_map.specs.declared.sizes.TheConstants.{ENTRY_ROWS};
ghost use Rattle.sector_model.specs.declared.calls.TheConstants.{GREATEST_COUNT};
ghost use Rattle.stripe_journal.specs.Entries.{IsFormOf, ListsItsRows, numbers_of};
ghost use Rattle.batch.specs.Batches.{waiting};
ghost use Rattle.batch.specs.Zeroed.{zeroed};
ghost use Rattle.entry_runs.specs.Built.{runs_in};
ghost use Rattle.array_io.specs.Believed.ArrayCalls.{Commits, MayCommit, MayForm};
ghost use Rattle.array_io.specs.Believed.OpenArray.{IsHonest, array_view};
ghost use Rattle.array_io.specs.Steps.FormingRows.{IsPlanned};
ghost use Rattle.array_io.specs.Steps.Contents.{given_of};

use super::put::{put_on_journals, put_on_members};
use crate::Array;
use crate::forming::{Contents, Writes, form_rows};
use batch::{Batch, Places, ZeroSectors, plan_rows};
use entry_runs::RunsBuilder;
use sector_model::{Bank, GREATEST_COUNT, Refusal, Sector};
use stripe_journal::{Entry, Seal};
use superblock::Table;

impl<B: Bank> Array<B> {
    /// Writes these logical sectors, 1 to 32 distinct ones below the set's data sectors (conditions): at each moment a
    /// crash leaves all of them as they were or all as given, and after `Ok` as given. They are one entry of the
    /// journal, which holds of each row the sectors that change, the given ones and the parity: each of these is
    /// written once to each journal and once to its member, each seal once, and each device that was written is flushed
    /// once after its body, once after its seal, or once after its rows. Of each row the old values of what changes are
    /// read, or the other data where those are fewer sectors, each once. A slot whose device goes down is marked
    /// missing, and the sectors are written without it.
    ///
    /// Refused with `TwoLost` where a second slot is lost, and with `Worn` where the count of device calls, the table's
    /// generation or the number of the last entry stands at 2^62. The sectors may then have been written, all or none.
    pub fn commit(&mut self, sectors: &[(u64, Sector)]) -> Result<(), Refusal>
        requires { MayCommit self.old.table sectors.now }
        ensures honest { IsHonest self.old ↔ IsHonest self.new }
        ensures commits { Commits (IsHonest self.old) sectors.now (array_view self.old) (array_view self.new) result }
    {
        let geometry = self.table.geometry;
        let placed = Places::of(&geometry, sectors);
        let places = placed.as_slice();
        let mut rows = RunsBuilder::new();
        if !plan_rows(&geometry, places, &mut rows) {
            unreachable!();
        }
        self.commit_planned(&Writes {
            contents: Contents::Sectors(sectors),
            places,
            rows: &rows,
        })
    }

    /// Writes the sectors of a batch, 1 at least, of a set of this geometry (conditions), by one entry: as `commit`
    /// does those that it is given. Refused as `commit` is.
    pub fn commit_batch(&mut self, batch: &Batch) -> Result<(), Refusal>
        requires some { 1 ≤ length (waiting batch.now) }
        requires same { batch.now.geometry ≡ self.old.table.geometry }
        ensures honest { IsHonest self.old ↔ IsHonest self.new }
        ensures commits { Commits (IsHonest self.old) (waiting batch.now) (array_view self.old) (array_view self.new)
            result }
    {
        self.commit_planned(&Writes {
            contents: Contents::Sectors(batch.sectors()),
            places: batch.places(),
            rows: batch.runs(),
        })
    }

    /// Makes the listed sectors zero, of a set of this geometry (condition), by one entry: as `commit` writes those
    /// that it is given. Of rows that become zero as a whole nothing is read. Where none is listed, no device is
    /// called. Refused as `commit` is.
    pub fn commit_zero_sectors(&mut self, zeros: &ZeroSectors) -> Result<(), Refusal>
        requires same { zeros.now.geometry ≡ self.old.table.geometry }
        ensures honest { IsHonest self.old ↔ IsHonest self.new }
        ensures none { zeroed zeros.now ≡ [] → (result ≡ Ok tt) × (self.new ≡ self.old) }
        ensures commits { 1 ≤ length (zeroed zeros.now) → Commits (IsHonest self.old) (zeroed zeros.now)
            (array_view self.old) (array_view self.new) result }
    {
        if zeros.is_empty() {
            return Ok(());
        }
        self.commit_planned(&Writes {
            contents: Contents::Zeros(zeros.sectors()),
            places: zeros.places(),
            rows: zeros.runs(),
        })
    }

    // Writes logical sectors of the set, 1 at least and none twice, whose rows are planned (conditions), by one entry.
    fn commit_planned(&mut self, writes: &Writes) -> Result<(), Refusal>
        requires may { MayForm self.old.table (given_of writes.now.contents) }
        requires planned { IsPlanned self.old.table.geometry (given_of writes.now.contents) writes.now.places.now
            (runs_in writes.now.rows.now) }
        ensures honest { IsHonest self.old ↔ IsHonest self.new }
        ensures commits { Commits (IsHonest self.old) (given_of writes.now.contents) (array_view self.old)
            (array_view self.new) result }
    {
        if self.entry >= GREATEST_COUNT {
            return Err(Refusal::Worn);
        }
        form_rows(&mut self.bank, &mut self.table, writes, &mut self.buffer)?;
        let seal = next_seal(&self.table, self.entry, &self.buffer);
        put_on_journals(&mut self.bank, &mut self.table, &seal, &self.buffer)?;
        put_on_members(&mut self.bank, &mut self.table, &seal, &self.buffer)?;
        self.entry += 1;
        Ok(())
    }
}

/// The seal of an entry, with the number after this one. The entry has 1 row at least, and in a set of format 1 what
/// `ListsItsRows` says (conditions).
pub(super) fn next_seal(table: &Table, number: u64, entry: &Entry) -> Seal
    requires room { number < GREATEST_COUNT }
    requires least { 1 ≤ length (numbers_of entry.now) }
    requires listed { table.now.geometry.format ≡ One → ListsItsRows entry.now }
    ensures id { result.id ≡ table.now.id }
    ensures number { result.number ≡ number + 1 }
    ensures form { IsFormOf entry.now table.now.geometry.format result.form }
{
    Seal {
        id: table.id,
        number: number + 1,
        form: entry.form(table.geometry.format),
    }
}
