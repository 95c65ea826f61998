//! Which volumes a logical list shows: the definitions, run over a list in memory, plain and slow. Tests compare with
//! it, and nothing else uses it.
ghost use Rattle.std.specs.Prelude.{◌≡◌, ◌<◌, ℕ, length, take, Some, None, IfSome, MatchOption};
ghost use Rattle.extents.specs.SetExtents.{IsOfSet};
ghost use Rattle.extents.specs.Owners.{IsAt};
ghost use Rattle.extents.specs.TableSpelling.{Spell};
ghost use Rattle.volume_table.specs.Volumes.{VolumeMap};
ghost use Rattle.volume_table.specs.Shows.{Shows};
ghost use Rattle.volume_table.specs.Oracle.{block_at, block_count};

use extents::{ExtentLayout, Owned, TABLE_SECTORS, VolumeTable, table_length};
use sector_model::Sector;

/// The table of volumes in the first sectors of a logical list, of a set whose extents lie so.
///
/// `None` where there are fewer sectors than a table of its version has, and where these spell no table
/// of such a set. The list then shows no map of volumes, not even the empty one.
pub fn table_shown(sectors: &[Sector], extents: &ExtentLayout) -> Option<VolumeTable>
    ensures some { IfSome result (λ t. Spell sectors.now t) }
    ensures of_set { IfSome result (λ t. IsOfSet extents.now t) }
    ensures exact { (volumes : VolumeMap) (shows : Shows extents.now sectors.now volumes) → result ≡ Some shows.table }
    ensures none { result ≡ None → (volumes : VolumeMap) → Shows extents.now sectors.now volumes → ⊥ }
{
    let mut first = [[0; 512]; TABLE_SECTORS];
    let there = sectors.len().min(TABLE_SECTORS);
    first[..there].copy_from_slice(&sectors[..there]);
    let table = VolumeTable::decode(&first, extents)?;
    if table_length(table.version) <= there {
        Some(table)
    } else {
        None
    }
}

/// Block `at`, from 0, of the volume of this name in a logical list of a set whose extents lie so.
///
/// Where the list shows a map of volumes: `None` where that has no volume of this name, or the volume `at` blocks or
/// fewer.
pub fn block_shown(
    sectors: &[Sector],
    extents: &ExtentLayout,
    name: &[u8],
    at: u32,
) -> Option<Sector>
    ensures { (volumes : VolumeMap) → Shows extents.now sectors.now volumes → result ≡ block_at name.now at volumes }
{
    let table = table_shown(sectors, extents)?;
    let found = table.record_named(name)?;
    if found.count <= at {
        return None;
    }
    let at = u64::from(at);
    let extent = extent_at(&table.extents, found.number, (at / extents.blocks) as u32)?;
    let sector = extents.first + extent as u64 * extents.blocks + at % extents.blocks;
    sectors.get(sector as usize).copied()
}

/// How many blocks the volume of this name has in a logical list of a set whose extents lie so.
///
/// Where the list shows a map of volumes: `None` where that has no volume of this name.
pub fn blocks_in_volume(sectors: &[Sector], extents: &ExtentLayout, name: &[u8]) -> Option<u32>
    ensures { (volumes : VolumeMap) → Shows extents.now sectors.now volumes → result ≡ block_count name.now volumes }
{
    let table = table_shown(sectors, extents)?;
    let found = table.record_named(name)?;
    Some(found.count)
}

// The extent at a place of the volume of a record. None where it has no extent there.
fn extent_at(owners: &[Option<Owned>], number: usize, place: u32) -> Option<usize>
    ensures at { MatchOption result ((extent : ℕ) → IsAt owners.now extent number place → ⊥)
        (λ extent. IsAt owners.now extent number place) }
    ensures within { IfSome result (λ extent. extent < length owners.now) }
{
    for (extent, owner) in owners.iter().enumerate() {
        if let Some(owned) = owner
            && usize::from(owned.volume) == number
            && u32::from(owned.place) == place
        {
            return Some(extent);
        }
    }
    None
}
