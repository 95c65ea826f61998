//! What one row of a set has in an image in memory.
ghost use Rattle.std.specs.Prelude.{◌≡◌, ◌↔◌, ◌<◌, ℕ, IsTrue, None, Some, if◌then◌else◌, length, replicate, vec_len};
ghost use Rattle.sector_model.specs.History.{disk_of, sector_of};
ghost use Rattle.sector_model.specs.Memory.{slots_of};
ghost use Rattle.stripe_journal.specs.Body.{zero_by_seal};
ghost use Rattle.stripe_journal.specs.LastEntry.{sector_of_last};
ghost use Rattle.degraded.specs.RowValue.{Rows, logical_value, row_values, value};
ghost use Rattle.layout_map.specs.Placement.{data_sectors_of};
ghost use Rattle.parity.specs.Xor.{IsSoundRow};
ghost use Rattle.degraded.specs.Oracle.{rows_of_sources};
ghost use Rattle.array_io.specs.Believed.Holds.{AreRowsOf, row_count};
ghost use Rattle.array_io.specs.Oracle.{HasLastEntry, HaveSameValues, entry_of};

use super::{LastEntry, is_trusted_in, last_entry_in};
use degraded::oracle::RowSources;
use layout_map::FIRST_ROW;
use sector_model::{Image, Sector};
use stripe_journal::Seal;
use stripe_journal::oracle::{place_by_seal, zero_by_seal};
use superblock::Table;

/// What a row has of each member in an image, by this table. The row is below the table's number of rows.
pub fn row_sources_in(image: &Image, table: &Table, row: u64) -> RowSources
    requires { row < row_count table.now }
    ensures members { result.members ≡ table.now.geometry.members }
    ensures values { (rows : Rows) → AreRowsOf (vec_len image.now.slots) table.now (slots_of image.now.slots.items) rows
        → HaveSameValues row (rows_of_sources result) rows }
{
    let last = last_entry_in(image, table);
    let mut entry = [None; 8];
    let mut trusted = [false; 8];
    let mut own = [[0; 512]; 8];
    for member in 0..table.geometry.members as usize {
        entry[member] = entry_sector_in(image, table, &last, row, member);
        trusted[member] = is_trusted_in(image, table, row, member);
        own[member] = sector_at(image, member, FIRST_ROW as usize + row as usize);
    }
    RowSources {
        members: table.geometry.members,
        entry,
        trusted,
        own,
    }
}

/// Puts the value of a member in a row of an image, by this table, into `to`.
pub fn value_in(image: &Image, table: &Table, row: u64, member: u8, to: &mut Sector)
    requires row { row < row_count table.now }
    requires member { member < table.now.geometry.members }
    ensures { (rows : Rows) → AreRowsOf (vec_len image.now.slots) table.now (slots_of image.now.slots.items) rows
        → to.new ≡ value rows row member }
{
    let sources = row_sources_in(image, table, row);
    sources.value_of(member, to);
}

/// Whether a row of an image is sound, by this table: whether its values XOR to zero.
pub fn is_row_sound_in(image: &Image, table: &Table, row: u64) -> bool
    requires { row < row_count table.now }
    ensures { (rows : Rows) → AreRowsOf (vec_len image.now.slots) table.now (slots_of image.now.slots.items) rows
        → IsTrue result ↔ IsSoundRow (row_values rows row) }
{
    let sources = row_sources_in(image, table, row);
    sources.is_sound()
}

/// Puts the value of a logical sector of an image, by this table, into `to`.
pub fn logical_in(image: &Image, table: &Table, logical: u64, to: &mut Sector)
    requires { logical < data_sectors_of table.now.geometry.members table.now.geometry.chunk
        table.now.geometry.stripes }
    ensures { (rows : Rows) → AreRowsOf (vec_len image.now.slots) table.now (slots_of image.now.slots.items) rows
        → to.new ≡ logical_value table.now.geometry rows logical }
{
    let place = table.geometry.place(logical);
    value_in(image, table, place.row, place.member, to);
}

// The sector that the last entry has for a member in a row, if it has one.
fn entry_sector_in(
    image: &Image,
    table: &Table,
    last: &Option<LastEntry>,
    row: u64,
    member: usize,
) -> Option<Sector>
    requires last { HasLastEntry (vec_len image.now.slots) table.now (slots_of image.now.slots.items) last.now }
    requires member { member < table.now.geometry.members }
    ensures { result ≡ sector_of_last table.now.geometry.members (slots_of image.now.slots.items) (entry_of last.now)
        row member }
{
    match last {
        Some(last) => {
            match place_by_seal(&last.seal, table.geometry.members, row, member as u8) {
                Some(at) => Some(sector_at(image, last.journal, at as usize)),
                None => zero_sector_in(&last.seal, table.geometry.members, row, member as u8),
            }
        }
        None => None,
    }
}

// A zero sector, where the entry of a seal says that a member's sector of a row is zero.
fn zero_sector_in(seal: &Seal, members: u8, row: u64, member: u8) -> Option<Sector>
    ensures { result ≡ (if zero_by_seal members seal.now row member then Some (replicate 512 0) else None) }
{
    if zero_by_seal(seal, members, row, member) {
        Some([0; 512])
    } else {
        None
    }
}

// A sector of what stands in a slot; zeros where it has none.
fn sector_at(image: &Image, slot: usize, at: usize) -> Sector
    ensures { at < length (disk_of (slots_of image.now.slots.items slot))
        → result ≡ sector_of (disk_of (slots_of image.now.slots.items slot)) at }
{
    if slot >= image.slots.len() {
        return [0; 512];
    }
    match &image.slots[slot] {
        Some(disk) => { if at < disk.len() { disk[at] } else { [0; 512] } }
        None => [0; 512],
    }
}
