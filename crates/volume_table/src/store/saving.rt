//! The table of volumes is written.
ghost use Rattle.std.specs.Prelude.{◌≡◌, ◌≢◌, ◌↔◌, ◌+◌, Ok};
ghost use Rattle.array_io.specs.Believed.OpenArray.{IsHonest, array_view};
ghost use Rattle.extents.specs.declared.volume_table.VolumeTable.{VolumeTable};
ghost use Rattle.extents.specs.TableSpelling.{Spell};
ghost use Rattle.volume_table.specs.ListChanges.{ChangesList};
ghost use Rattle.volume_table.specs.StoreChanges.{AreAll, AreTheChanged, MayPutTable, PutsTable};

use array_io::Array;
use arrayvec::ArrayVec;
use extents::{TABLE_SECTORS, VolumeTable, table_length};
use sector_model::{Bank, Refusal, Sector};

/// Sectors that begin with the spelling of a table; those after it are zeros.
pub fn spelled(table: &VolumeTable) -> [Sector; TABLE_SECTORS]
    ensures { Spell result table.now }
{
    let mut sectors = [[0; 512]; TABLE_SECTORS];
    table.encode(&mut sectors);
    sectors
}

/// Puts a table in place of another of its version, with whose spelling these sectors begin, by one commit of the
/// sectors that differ. Refused as a commit is.
pub fn put_table<B: Bank>(
    array: &mut Array<B>,
    before: &[Sector; TABLE_SECTORS],
    table: &VolumeTable,
) -> Result<(), Refusal>
    ensures honest { IsHonest array.old ↔ IsHonest array.new }
    ensures changes { (first : VolumeTable) → Spell before.now first → first.version ≡ table.now.version
        → ChangesList (IsHonest array.old) 1 (MayPutTable first table.now) (PutsTable first table.now)
        (array_view array.old) (array_view array.new) result }
    ensures entry { (first : VolumeTable) → Spell before.now first → first.version ≡ table.now.version
        → first ≢ table.now
        → result ≡ Ok tt → (array_view array.new).number ≡ (array_view array.old).number + 1 }
{
    let sectors = changed(table.version, before, &spelled(table));
    if sectors.is_empty() {
        return Ok(());
    }
    array.commit(&sectors)
}

/// Puts a table in place of another, whatever its version, by one commit of all sectors of the new one. Refused as a
/// commit is.
pub fn put_whole_table<B: Bank>(array: &mut Array<B>, table: &VolumeTable) -> Result<(), Refusal>
    ensures honest { IsHonest array.old ↔ IsHonest array.new }
    ensures changes { (first : VolumeTable) → ChangesList (IsHonest array.old) 1 (MayPutTable first table.now)
        (PutsTable first table.now) (array_view array.old) (array_view array.new) result }
    ensures entry { result ≡ Ok tt → (array_view array.new).number ≡ (array_view array.old).number + 1 }
{
    array.commit(&numbered(table.version, &spelled(table)))
}

// Of the sectors of a table of this version those that differ, with their numbers.
fn changed(
    version: u8,
    before: &[Sector; TABLE_SECTORS],
    after: &[Sector; TABLE_SECTORS],
) -> ArrayVec<(u64, Sector), TABLE_SECTORS>
    ensures { AreTheChanged version before.now after.now result.items }
{
    let mut sectors = ArrayVec::new();
    for number in 0..table_length(version) {
        if before[number] != after[number] {
            sectors.push((number as u64, after[number]));
        }
    }
    sectors
}

// All sectors of a table of this version, with their numbers.
fn numbered(version: u8, after: &[Sector; TABLE_SECTORS]) -> ArrayVec<(u64, Sector), TABLE_SECTORS>
    ensures { AreAll version after.now result.items }
{
    let mut sectors = ArrayVec::new();
    for number in 0..table_length(version) {
        sectors.push((number as u64, after[number]));
    }
    sectors
}
