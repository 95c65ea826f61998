//! The rows of a commit, formed in the entry's buffer.
ghost use Rattle.std.specs.Prelude.{◌≡◌, ◌≢◌, ◌≤◌, ◌<◌, ◌-◌, ◌↔◌, ℕ, IsTrue, OnOk, if◌then◌else◌, length};
ghost use Rattle.std.specs.Prelude.{not, true};
ghost use Rattle.layout_map.specs.Placement.{rows_of};
ghost use Rattle.layout_map.specs.declared.sizes.TheConstants.{MOST_MEMBERS};
ghost use Rattle.parity.specs.Xor.{zero_sector};
ghost use Rattle.entry_runs.specs.Built.{runs_in};
ghost use Rattle.stripe_journal.specs.Entries.{form_of, numbers_of, row_mask, sector_at};
ghost use Rattle.stripe_journal.specs.Forms.{has_bit};
ghost use Rattle.stripe_journal.specs.Seals.{row_at};
ghost use Rattle.degraded.specs.LiveView.{slots_of};
ghost use Rattle.degraded.specs.ReadMember.{is_read};
ghost use Rattle.array_io.specs.Believed.ArrayCalls.{MayForm};
ghost use Rattle.array_io.specs.Believed.Views.{HasItsSlots};
ghost use Rattle.array_io.specs.Steps.FillingRows.{FormsRow, SumsRow, reads_below};
ghost use Rattle.array_io.specs.Steps.Contents.{given_of};
ghost use Rattle.batch.specs.Places.{bytes_at};
ghost use Rattle.array_io.specs.Steps.FormingRows.{AreRowsOf, AreRowsOfSet, FormsListed, HasParityOn, HasPut};
ghost use Rattle.array_io.specs.Steps.FormingRows.{HasRoomFor, HasRowFrom, HasSoundRow, HoldsChanged, IsPlanned};
ghost use Rattle.array_io.specs.Steps.ReadingOn.{Between, KeepsFrom, KeepsOn};

use crate::array::read::read_value;
use crate::liveness::live_of;
use batch::Placed;
use degraded::Live;
use entry_runs::RunsBuilder;
use parity::{delta, xor_into};
use sector_model::{Bank, Refusal, Sector};
use stripe_journal::Entry;
use superblock::Table;

/// Logical sectors that a commit writes, and what it writes there.
#[derive(Clone, Copy)]
pub(crate) enum Contents<'a> {
    /// The sectors, each with its data.
    Sectors(&'a [(u64, Sector)]),
    /// The sectors, each of which becomes zero.
    Zeros(&'a [u64]),
}

/// What a commit is given: logical sectors with their data, where they lie, and the rows that change by them.
#[derive(Clone, Copy)]
pub(crate) struct Writes<'a> {
    /// The sectors, each with what is written there.
    pub contents: Contents<'a>,
    /// Where they lie, by row and then by member.
    pub places: &'a [Placed],
    /// The rows that change, with the members whose sectors do.
    pub rows: &'a RunsBuilder,
}

// The row of an entry with this number, which one of its rows from the i-th on has (condition).
fn row_from(entry: &Entry, i: usize, row: u32) -> usize
    requires { HasRowFrom (numbers_of entry.now) i row }
    ensures within { result < length (numbers_of entry.now) }
    ensures is { row_at (numbers_of entry.now) result ≡ row }
{
    for at in i..entry.len() {
        if entry.row(at) == row {
            return at;
        }
    }
    unreachable!()
}

// Puts a sector in place of a member's of the i-th row, which the entry holds.
fn put_sector(sector: &Sector, entry: &mut Entry, i: usize, member: u8)
    requires row { i < length (numbers_of entry.old) }
    requires member { member < MOST_MEMBERS }
    requires held { has_bit (row_mask entry.old i) member ≡ true }
    ensures form { form_of entry.new ≡ form_of entry.old }
    ensures put { sector_at entry.new i member ≡ sector.now }
    ensures others { (k other : ℕ) → other < MOST_MEMBERS → (k ≡ i → other ≢ member)
        → sector_at entry.new k other ≡ sector_at entry.old k other }
{
    *entry.sector_mut(i, member) = *sector;
}

// Puts what is given of the sector of this number in place of a member's of the i-th row, which the entry holds.
fn put_one(contents: &Contents, at: u16, entry: &mut Entry, i: usize, member: u8)
    requires given { at < length (given_of contents.now) }
    requires row { i < length (numbers_of entry.old) }
    requires member { member < MOST_MEMBERS }
    requires held { has_bit (row_mask entry.old i) member ≡ true }
    ensures form { form_of entry.new ≡ form_of entry.old }
    ensures put { sector_at entry.new i member ≡ bytes_at (given_of contents.now) at }
    ensures others { (k other : ℕ) → other < MOST_MEMBERS → (k ≡ i → other ≢ member)
        → sector_at entry.new k other ≡ sector_at entry.old k other }
{
    match *contents {
        Contents::Sectors(sectors) => put_sector(&sectors[usize::from(at)].1, entry, i, member),
        Contents::Zeros(_) => clear_sector(entry, i, member),
    }
}

// Puts each given sector at its place in the entry, which holds it.
fn put_given(contents: &Contents, places: &[Placed], entry: &mut Entry)
    requires { HasRoomFor (given_of contents.now) places.now entry.old }
    ensures form { form_of entry.new ≡ form_of entry.old }
    ensures given { HasPut (given_of contents.now) places.now (length places.now) entry.new }
{
    let mut i = 0;
    for placed in places {
        i = row_from(entry, i, placed.row);
        put_one(contents, placed.at, entry, i, placed.member);
    }
}

// The XOR of the i-th row with what the entry holds of it, and the members' sectors elsewhere. Only the old sectors of
// the members that the entry holds are read: the row with those is sound, and each is taken out and the new one put in.
fn read_modify_write<B: Bank>(
    bank: &mut B,
    table: &mut Table,
    entry: &Entry,
    i: usize,
    row: u32,
    sum: &mut Sector,
) -> Result<(), Refusal>
    requires its_slots { HasItsSlots table.old (B.panel bank.old) }
    requires row { row < rows_of table.old.geometry.chunk table.old.geometry.stripes }
    requires place { i < length (numbers_of entry.now) }
    ensures honest { B.honest bank.old ↔ B.honest bank.new }
    ensures its_slots { HasItsSlots table.new (B.panel bank.new) }
    ensures sums { SumsRow (B.honest bank.old) entry.now i row table.old table.new (B.panel bank.old) (B.panel bank.new)
        (B.history bank.old) (B.history bank.new) sum.new result }
{
    let geometry = table.geometry;
    let view = entry.view(i);
    let mut old = [0; 512];
    *sum = [0; 512];
    for member in 0..geometry.members {
        if let Some(new) = view.member(member) {
            read_value(bank, table, member, u64::from(row), &mut old)?;
            delta(sum, &old, new);
        }
    }
    Ok(())
}

// The same XOR, for which only the sectors of the members that the entry doesn't hold are read.
fn reconstruct_write<B: Bank>(
    bank: &mut B,
    table: &mut Table,
    entry: &Entry,
    i: usize,
    row: u32,
    sum: &mut Sector,
) -> Result<(), Refusal>
    requires its_slots { HasItsSlots table.old (B.panel bank.old) }
    requires row { row < rows_of table.old.geometry.chunk table.old.geometry.stripes }
    requires place { i < length (numbers_of entry.now) }
    ensures honest { B.honest bank.old ↔ B.honest bank.new }
    ensures its_slots { HasItsSlots table.new (B.panel bank.new) }
    ensures sums { SumsRow (B.honest bank.old) entry.now i row table.old table.new (B.panel bank.old) (B.panel bank.new)
        (B.history bank.old) (B.history bank.new) sum.new result }
{
    let geometry = table.geometry;
    let view = entry.view(i);
    let mut old = [0; 512];
    *sum = [0; 512];
    for member in 0..geometry.members {
        if let Some(new) = view.member(member) {
            xor_into(sum, new);
        } else {
            read_value(bank, table, member, u64::from(row), &mut old)?;
            xor_into(sum, &old);
        }
    }
    Ok(())
}

// How many sectors are read for the value of a member in a row: its own where that counts, else those of all others.
fn reads_of(live: &Live, member: u8, row: u32) -> u32
    requires { member < live.now.members }
    ensures { result ≡ (if is_read (slots_of live.now) row member then 1 else live.now.members - 1) }
{
    if live.is_trusted(member, u64::from(row)) {
        1
    } else {
        u32::from(live.members - 1)
    }
}

// Whether the old values of the sectors that the entry holds of the i-th row take no more reads than those of the
// others.
fn prefers_read_modify_write(table: &Table, entry: &Entry, i: usize, row: u32) -> bool
    requires row { row < rows_of table.now.geometry.chunk table.now.geometry.stripes }
    requires place { i < length (numbers_of entry.now) }
    ensures { IsTrue result ↔ (reads_below table.now row (λ member. has_bit (row_mask entry.now i) member)
        table.now.geometry.members
        ≤ reads_below table.now row (λ member. not (has_bit (row_mask entry.now i) member))
        table.now.geometry.members) }
{
    let live = live_of(table);
    let view = entry.view(i);
    let mut held = 0;
    let mut others = 0;
    for member in 0..table.geometry.members {
        let reads = reads_of(&live, member, row);
        if view.member(member).is_some() {
            held += reads;
        } else {
            others += reads;
        }
    }
    held <= others
}

// The XOR of the i-th row with what the entry holds of it, and the members' sectors elsewhere, in the way with fewer
// reads.
fn sum_row<B: Bank>(
    bank: &mut B,
    table: &mut Table,
    entry: &Entry,
    i: usize,
    row: u32,
    sum: &mut Sector,
) -> Result<(), Refusal>
    requires its_slots { HasItsSlots table.old (B.panel bank.old) }
    requires row { row < rows_of table.old.geometry.chunk table.old.geometry.stripes }
    requires place { i < length (numbers_of entry.now) }
    ensures honest { B.honest bank.old ↔ B.honest bank.new }
    ensures its_slots { HasItsSlots table.new (B.panel bank.new) }
    ensures sums { SumsRow (B.honest bank.old) entry.now i row table.old table.new (B.panel bank.old) (B.panel bank.new)
        (B.history bank.old) (B.history bank.new) sum.new result }
{
    if prefers_read_modify_write(table, entry, i, row) {
        read_modify_write(bank, table, entry, i, row, sum)
    } else {
        reconstruct_write(bank, table, entry, i, row, sum)
    }
}

// Makes the sector of a member zero, which the entry holds of the i-th row.
fn clear_sector(entry: &mut Entry, i: usize, member: u8)
    requires row { i < length (numbers_of entry.old) }
    requires member { member < MOST_MEMBERS }
    requires held { has_bit (row_mask entry.old i) member ≡ true }
    ensures form { form_of entry.new ≡ form_of entry.old }
    ensures zero { sector_at entry.new i member ≡ zero_sector }
    ensures others { (k other : ℕ) → other < MOST_MEMBERS → (k ≡ i → other ≢ member)
        → sector_at entry.new k other ≡ sector_at entry.old k other }
{
    let zeros = [0; 512];
    *entry.sector_mut(i, member) = zeros;
}

// Puts the parity of the i-th row in its place in the entry, which holds it.
fn form_row<B: Bank>(
    bank: &mut B,
    table: &mut Table,
    i: usize,
    row: u32,
    entry: &mut Entry,
) -> Result<(), Refusal>
    requires its_slots { HasItsSlots table.old (B.panel bank.old) }
    requires row { row < rows_of table.old.geometry.chunk table.old.geometry.stripes }
    requires place { i < length (numbers_of entry.old) }
    requires held { (member : ℕ) → HasParityOn table.old.geometry row member
        → has_bit (row_mask entry.old i) member ≡ true }
    ensures honest { B.honest bank.old ↔ B.honest bank.new }
    ensures its_slots { HasItsSlots table.new (B.panel bank.new) }
    ensures forms { FormsRow (B.honest bank.old) i row entry.old entry.new table.old table.new
        (B.panel bank.old) (B.panel bank.new) (B.history bank.old) (B.history bank.new) result }
{
    let parity = table.geometry.parity_member(u64::from(row));
    clear_sector(entry, i, parity);
    let mut sum = [0; 512];
    sum_row(bank, table, entry, i, row, &mut sum)?;
    *entry.sector_mut(i, parity) = sum;
    Ok(())
}

// Puts the parity of each row in its place in the entry, which holds it.
fn form_parities<B: Bank>(bank: &mut B, table: &mut Table, entry: &mut Entry) -> Result<(), Refusal>
    requires its_slots { HasItsSlots table.old (B.panel bank.old) }
    requires rows { AreRowsOfSet table.old.geometry (numbers_of entry.old) }
    requires held { (i member : ℕ) → i < length (numbers_of entry.old)
        → HasParityOn table.old.geometry (row_at (numbers_of entry.old) i) member
        → has_bit (row_mask entry.old i) member ≡ true }
    ensures honest { B.honest bank.old ↔ B.honest bank.new }
    ensures its_slots { HasItsSlots table.new (B.panel bank.new) }
    ensures steps { KeepsOn (B.honest bank.old) table.old table.new (B.panel bank.old) (B.panel bank.new)
        (B.history bank.old) (B.history bank.new) result }
    ensures form { form_of entry.new ≡ form_of entry.old }
    ensures sound { (number i : ℕ) (from : KeepsFrom) → B.honest bank.old
        → Between (B.panel bank.old).devices number from table.old (B.history bank.old)
        → i < length (numbers_of entry.old) → OnOk result
        (HasSoundRow table.old.geometry from.logical entry.new i (row_at (numbers_of entry.old) i)) }
    ensures others { (i member : ℕ) → member < MOST_MEMBERS
        → ¬ HasParityOn table.old.geometry (row_at (numbers_of entry.old) i) member
        → sector_at entry.new i member ≡ sector_at entry.old i member }
{
    for i in 0..entry.len() {
        let row = entry.row(i);
        form_row(bank, table, i, row, entry)?;
    }
    Ok(())
}

/// Forms the rows that given logical sectors change, as the rows of the entry. Of each row it holds the given data and
/// the parity, and no other sector. What the parity takes is read in one of two ways, each member's part once: what the
/// members had of the sectors that the entry holds, or of the others, whichever takes fewer reads. One sector is read
/// for a member whose own sector counts by the table, and for another one those of all others. A member whose device
/// goes down meanwhile is marked missing, and its part is read without it.
///
/// The sectors are of the set, 1 at least and none twice, and the rows are planned by where they lie (conditions). The
/// set's slots are slots of the bank, and each that the table does not call missing is long enough where it is up
/// (condition). Refused as `read_value` is, and the entry then means nothing.
pub(crate) fn form_rows<B: Bank>(
    bank: &mut B,
    table: &mut Table,
    writes: &Writes,
    entry: &mut Entry,
) -> Result<(), Refusal>
    requires its_slots { HasItsSlots table.old (B.panel bank.old) }
    requires may { MayForm table.old (given_of writes.now.contents) }
    requires planned { IsPlanned table.old.geometry (given_of writes.now.contents) writes.now.places.now
        (runs_in writes.now.rows.now) }
    ensures honest { B.honest bank.old ↔ B.honest bank.new }
    ensures its_slots { HasItsSlots table.new (B.panel bank.new) }
    ensures steps { KeepsOn (B.honest bank.old) table.old table.new (B.panel bank.old) (B.panel bank.new)
        (B.history bank.old) (B.history bank.new) result }
    ensures rows { OnOk result (AreRowsOf table.old.geometry (given_of writes.now.contents) (numbers_of entry.new)) }
    ensures held { OnOk result (HoldsChanged table.old.geometry (given_of writes.now.contents) entry.new) }
    ensures formed { (number : ℕ) (from : KeepsFrom) → B.honest bank.old
        → Between (B.panel bank.old).devices number from table.old (B.history bank.old)
        → OnOk result (FormsListed table.old.geometry (given_of writes.now.contents) from.logical entry.new) }
{
    entry.set_rows(writes.rows);
    put_given(&writes.contents, writes.places, entry);
    form_parities(bank, table, entry)
}

#[cfg(test)]
mod tests;
