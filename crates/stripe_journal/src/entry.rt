//! An entry in memory, before it is on a journal.
ghost use Rattle.std.specs.Prelude.{◌≡◌, ◌≤◌, ◌<◌, ◌+◌, ◌-◌, ◌*◌, ◌^◌, ◌++◌, ◌∷◌, ◌==◌, [], ℕ, IfOk, IfErr};
ghost use Rattle.std.specs.Prelude.{IfSome, IsNone, count_ones, false, true, length, nat_lt, replicate, slice_index_or};
ghost use Rattle.std.specs.Prelude.{vec_len};
ghost use Rattle.layout_map.specs.declared.sizes.TheConstants.{ENTRY_ROWS, MOST_MEMBERS};
ghost use Rattle.entry_runs.specs.Body.{has_bit};
ghost use Rattle.entry_runs.specs.declared.sizes.TheConstants.{MOST_HELD};

use crate::{Form, Seal};
use arrayvec::ArrayVec;
use entry_runs::{MOST_HELD, Runs, RunsBuilder, bits_below, has_bit};
use layout_map::{ENTRY_ROWS, Format, MOST_MEMBERS};
use sector_model::{Refusal, Sector};
use std::alloc::Global;

/// The rows of one entry, in rising order: numbered rows, of which it has the sectors that the row's mask has: bit m
/// says that it has member m's. They stand by row and then by member, as in the body of an entry. A row with mask 0 is
/// one of zeros: it holds every member's sector, which is zero, and has none. The memory is taken once, by `new`: it is
/// enough for the entries of sets of both formats.
#[derive(Drop)]
pub struct Entry {
    runs: RunsBuilder,
    sectors: Vec<Sector>,
    ghost whole: { vec_len sectors ≡ MOST_HELD },
}

/// One row of an entry, lent without a copy.
#[derive(Clone, Copy)]
pub struct EntryView<'a> {
    mask: u8,
    sectors: &'a [Sector],
}

// What each sector of a row of zeros is.
const ZEROS: &Sector = &[0; 512];

impl Entry {
    ghost use Rattle.std.specs.Borrow.{sem};
    ghost use Rattle.std.specs.List.Sorted.{IsStrictlyIncreasing};
    ghost use Rattle.layout_map.specs.declared.format.Format.TheVariants.{One, Two};
    ghost use Rattle.stripe_journal.specs.Entries.{IsEntryOf, IsFormOf, LendsSector, ListsItsRows, body_of, end_of};
    ghost use Rattle.stripe_journal.specs.Entries.{numbers_of, place_at, row_mask, row_of, sector_at};
    ghost use Rattle.entry_runs.specs.Body.{bits_below};
    ghost use Rattle.entry_runs.specs.Built.{runs_in};
    ghost use Rattle.stripe_journal.specs.Forms.{mask_at};
    ghost use Rattle.stripe_journal.specs.Seals.{row_at};

    /// An entry without rows. `Memory` where there is none for its 4,096 sectors, which are 2 MiB.
    pub fn new(alloc: Global) -> Result<Entry, Refusal>
        ensures empty { IfOk result (λ entry. numbers_of entry ≡ []) }
        ensures end { IfOk result (λ entry. end_of entry ≡ 0) }
        ensures err { IfErr result (λ refusal. refusal ≡ Refusal.Memory) }
    {
        let sectors = vec![in alloc; [0; 512]; MOST_HELD as usize]?;
        Ok(Entry {
            runs: RunsBuilder::new(),
            sectors,
        })
    }

    /// Takes all rows out.
    pub fn clear(&mut self)
        ensures numbers { numbers_of self.new ≡ [] }
        ensures end { end_of self.new ≡ 0 }
    {
        self.runs.clear();
    }

    /// How many rows it has, those of zeros among them.
    pub fn len(&self) -> usize
        ensures { result ≡ length (numbers_of self.now) }
    {
        self.runs.count()
    }

    /// Whether it has no row.
    pub fn is_empty(&self) -> bool
        ensures { result ≡ (length (numbers_of self.now) == 0) }
    {
        self.len() == 0
    }

    /// The row after its last, 0 where it has none.
    pub fn end(&self) -> u64
        ensures { result ≡ end_of self.now }
    {
        self.runs.end()
    }

    /// Adds a row of zero sectors after all that it has, of which there are fewer than 32 (conditions). Bit m of the
    /// mask, which has two bits at least (condition), says that the entry has member m's sector of the row.
    pub fn push(&mut self, row: u32, mask: u8)
        requires few { length (numbers_of self.old) < ENTRY_ROWS }
        requires after { end_of self.old ≤ row }
        requires two { 2 ≤ count_ones mask }
        ensures numbers { numbers_of self.new ≡ numbers_of self.old ++ row ∷ [] }
        ensures end { end_of self.new ≡ row + 1 }
        ensures mask { row_mask self.new (length (numbers_of self.old)) ≡ mask }
        ensures masks { (i : ℕ) → i < length (numbers_of self.old) → row_mask self.new i ≡ row_mask self.old i }
        ensures zeros { (member : ℕ) → member < MOST_MEMBERS → has_bit mask member ≡ true
            → sector_at self.new (length (numbers_of self.old)) member ≡ replicate 512 0 }
        ensures others { (i member : ℕ) → i < length (numbers_of self.old) → member < MOST_MEMBERS
            → sector_at self.new i member ≡ sector_at self.old i member }
    {
        let i = self.len();
        self.runs.push(row, mask);
        let start = self.place(i, 0);
        let count = bits_below(mask, MOST_MEMBERS) as usize;
        put_zeros(&mut self.sectors, start, count);
    }

    /// Makes its rows those of a seal, in a set with 2 to 8 members (conditions). Of their sectors nothing is said.
    pub fn set(&mut self, seal: &Seal, members: u8)
        requires least { 2 ≤ members }
        requires most { members ≤ MOST_MEMBERS }
        ensures { IsEntryOf members seal.now.form self.new }
    {
        match &seal.form {
            Form::Whole(rows) => self.set_listed(
                rows.as_slice(),
                &[whole_mask(members); ENTRY_ROWS],
            ),
            Form::Held(rows, masks) => self.set_listed(rows.as_slice(), masks),
            Form::Runs(runs) => self.runs.set(runs),
        }
    }

    /// Makes its rows those of a builder. Of their sectors nothing is said.
    pub fn set_rows(&mut self, rows: &RunsBuilder)
        ensures { runs_in self.new.runs ≡ runs_in rows.now }
    {
        match rows.to_runs() {
            Some(runs) => self.runs.set(&runs),
            None => self.runs.clear(),
        }
    }

    // Makes its rows these, at most 32 rising rows, with their masks, each of two bits at least (conditions).
    fn set_listed(&mut self, rows: &[u32], masks: &[u8; ENTRY_ROWS])
        requires few { length rows.now ≤ ENTRY_ROWS }
        requires rising { IsStrictlyIncreasing rows.now }
        requires two { (i : ℕ) → i < length rows.now → 2 ≤ count_ones (mask_at masks.now i) }
        ensures numbers { numbers_of self.new ≡ rows.now }
        ensures masks { (i : ℕ) → i < length rows.now → row_mask self.new i ≡ mask_at masks.now i }
    {
        self.clear();
        for (i, row) in rows.iter().enumerate() {
            self.push(*row, masks[i]);
        }
    }

    /// The sector of a member, 0 to 7, in the i-th row, to be written. `i` is below `len()`, and the row's mask has the
    /// member's bit (conditions).
    pub fn sector_mut(&mut self, i: usize, member: u8) -> &mut Sector
        requires row { i < length (numbers_of self.old) }
        requires member { member < MOST_MEMBERS }
        requires held { has_bit (row_mask self.old i) member ≡ true }
        ensures* lends { sem 𝓛 (LendsSector self.entry i member result) }
        ensures value { result.now ≡ sector_at self.old i member }
    {
        let place = self.place(i, member);
        &mut self.sectors[place]
    }

    // How many sectors it has before that of a member, 0 to 7, in the i-th row; `i` is below `len()` (conditions). With
    // those of the row they are at most 4,096.
    fn place(&self, i: usize, member: u8) -> usize
        requires row { i < length (numbers_of self.now) }
        requires member { member < MOST_MEMBERS }
        ensures place { result ≡ place_at self.now i member }
        ensures most { result + bits_below (row_mask self.now i) MOST_MEMBERS
            ≤ MOST_HELD + bits_below (row_mask self.now i) member }
    {
        let row = self.runs.listed(i);
        (row.before + bits_below(row.mask, member)) as usize
    }

    /// How many sectors its body has in a set with so many members, at most 8 (condition): at most 4,096.
    pub fn body_len(&self, members: u8) -> u32
        requires { members ≤ MOST_MEMBERS }
        ensures { result ≡ length (body_of members self.now) }
    {
        let mut count = 0;
        for i in 0..self.len() {
            count += bits_below(self.runs.listed(i).mask, members);
        }
        count
    }

    /// Its rows, 1 at least, and which of their sectors it has, as a seal of a set of this format says it. In format 1
    /// it has at most 32 rows, each with a mask of two bits at least (conditions).
    pub fn form(&self, format: Format) -> Form
        requires some { 1 ≤ length (numbers_of self.now) }
        requires listed { format ≡ One → ListsItsRows self.now }
        ensures { IsFormOf self.now format result }
    {
        match format {
            Format::One => self.listed(),
            Format::Two => self.written_as_runs(),
        }
    }

    // Its rows, at most 32, written out, and their masks, each of two bits at least (conditions).
    fn listed(&self) -> Form
        requires { ListsItsRows self.now }
        ensures { IsFormOf self.now One result }
    {
        let mut numbers = ArrayVec::new();
        let mut masks = [0; ENTRY_ROWS];
        for i in 0..self.len() {
            let row = self.runs.listed(i);
            numbers.push(row.row);
            masks[i] = row.mask;
        }
        Form::Held(numbers, masks)
    }

    // Its rows, 1 at least (condition), as runs.
    fn written_as_runs(&self) -> Form
        requires { 1 ≤ length (numbers_of self.now) }
        ensures { IsFormOf self.now Two result }
    {
        match self.runs.to_runs() {
            Some(runs) => Form::Runs(runs),
            None => unreachable!(),
        }
    }

    /// The number of the i-th row; `i` is below `len()` (condition).
    pub fn row(&self, i: usize) -> u32
        requires { i < length (numbers_of self.now) }
        ensures { result ≡ row_at (numbers_of self.now) i }
    {
        self.runs.listed(i).row
    }

    /// The i-th row; `i` is below `len()` (condition).
    pub fn view(&self, i: usize) -> EntryView
        requires { i < length (numbers_of self.now) }
        ensures mask { result.mask ≡ row_mask self.now i }
        ensures sectors { result.sectors.now ≡ row_of self.now i }
        ensures whole { length result.sectors.now ≡ bits_below result.mask MOST_MEMBERS }
    {
        let first = self.place(i, 0);
        let mask = self.runs.listed(i).mask;
        EntryView {
            mask,
            sectors: &self.sectors[first..first + bits_below(mask, MOST_MEMBERS) as usize],
        }
    }
}

// The mask with the bit of each of 1 to 8 members (conditions).
fn whole_mask(members: u8) -> u8
    requires least { 1 ≤ members }
    requires most { members ≤ MOST_MEMBERS }
    ensures { (member : ℕ) → member < MOST_MEMBERS → has_bit result member ≡ nat_lt member members }
{
    u8::MAX >> (8 - members)
}

// Puts zeros into so many sectors from one on.
fn put_zeros(sectors: &mut [Sector], first: usize, count: usize)
    requires { first + count ≤ length sectors.old }
    ensures long { length sectors.new ≡ length sectors.old }
    ensures zeros { (k : ℕ) → first ≤ k → k < first + count → slice_index_or sectors.new k [] ≡ replicate 512 0 }
    ensures others { (k : ℕ) → k < first → slice_index_or sectors.new k [] ≡ slice_index_or sectors.old k [] }
{
    for sector in &mut sectors[first..first + count] {
        *sector = [0; 512];
    }
}

impl<'a> EntryView<'a> {
    ghost use Rattle.entry_runs.specs.Body.{bits_below};
    ghost use Rattle.stripe_journal.specs.Entries.{mask_holds, sector_of_mask, sector_of_row};

    /// The sector of a member, 0 to 7, that a body has of the row, and `None` where its mask lacks the member's bit.
    /// The row has the sectors that its mask has (conditions).
    pub fn member(&self, member: u8) -> Option<&'a Sector>
        requires member { member < MOST_MEMBERS }
        requires whole { length self.now.sectors.now ≡ bits_below self.now.mask MOST_MEMBERS }
        ensures some { IfSome result (λ sector. (has_bit self.now.mask member ≡ true)
            × (sector.now ≡ sector_of_row self.now.mask self.now.sectors.now member)) }
        ensures none { IsNone result → has_bit self.now.mask member ≡ false }
    {
        if has_bit(self.mask, member) {
            Some(&self.sectors[bits_below(self.mask, member) as usize])
        } else {
            None
        }
    }

    /// The sector of a member, 0 to 7, that the row holds, and `None` where it holds none: of a row of zeros a zero
    /// sector, and of another one what a body has. The row has the sectors that its mask has (conditions).
    pub fn held(&self, member: u8) -> Option<&'a Sector>
        requires member { member < MOST_MEMBERS }
        requires whole { length self.now.sectors.now ≡ bits_below self.now.mask MOST_MEMBERS }
        ensures some { IfSome result (λ sector. (mask_holds self.now.mask member ≡ true) × (sector.now
            ≡ sector_of_mask self.now.mask (sector_of_row self.now.mask self.now.sectors.now member))) }
        ensures none { IsNone result → mask_holds self.now.mask member ≡ false }
    {
        if self.mask == 0 {
            Some(ZEROS)
        } else {
            self.member(member)
        }
    }
}

#[cfg(test)]
mod tests;
