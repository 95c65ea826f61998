//! A volume gets new blocks.
ghost use Rattle.std.specs.Prelude.{◌≡◌, ◌≤◌, ◌↔◌, ◌+◌, ◌-◌, Some, slice_set};
ghost use Rattle.array_io.specs.Believed.OpenArray.{IsHonest, array_view};
ghost use Rattle.extents.specs.ExtentMaps.{IsTaken};
ghost use Rattle.extents.specs.VolumeTables.{extents_for};
ghost use Rattle.volume_table.specs.Admission.{AreKept, MayGrowTo};
ghost use Rattle.volume_table.specs.ListChanges.{ChangesList};
ghost use Rattle.extents.specs.SetExtents.{extents_in};
ghost use Rattle.volume_table.specs.StoreChanges.{Grows, MayGrow};

use super::dirty_blocks::zero_blocks;
use super::saving::{put_table, spelled};
use array_io::Array;
use extents::{ExtentLayout, ExtentMap, Record, VolumeTable};
use sector_model::{Bank, Refusal};

/// New blocks that a volume may have.
#[derive(Drop)]
pub struct Growth {
    /// The number of the volume's record, below the most volumes of the table's version.
    pub volume: u8,
    /// The blocks that the volume has so far, 0 where it is new.
    pub first: u32,
    /// What the table is to say of the volume.
    pub entry: Record,
}

/// Gives a volume new blocks: takes the extents that it lacks, makes those of the new blocks zero that lie in dirty
/// extents, while no volume shows them, and puts the table that says of them, by one commit. Refused as a commit is;
/// the map and the table in memory then have the new blocks.
pub fn grow<B: Bank>(
    array: &mut Array<B>,
    table: &mut VolumeTable,
    map: &mut ExtentMap,
    growth: Growth,
) -> Result<(), Refusal>
    requires kept { AreKept (extents_in array.old.table.geometry) table.old map.old }
    requires may { MayGrowTo (extents_in array.old.table.geometry) table.old.version table.old.records map.old
        growth.volume growth.first growth.entry }
    ensures honest { IsHonest array.old ↔ IsHonest array.new }
    ensures kept { AreKept (extents_in array.new.table.geometry) table.new map.new }
    ensures version { table.new.version ≡ table.old.version }
    ensures records { table.new.records ≡ slice_set table.old.records growth.volume (Some growth.entry) }
    ensures dirty { table.new.dirty ≡ table.old.dirty }
    ensures taken { IsTaken table.old.dirty map.old map.new growth.volume
        (let each = (extents_in array.old.table.geometry).blocks in extents_for each growth.entry.blocks
        - extents_for each growth.first) }
    ensures changes { ChangesList (IsHonest array.old) (growth.entry.blocks - growth.first + 1)
        (MayGrow (extents_in array.old.table.geometry) table.old table.new growth.volume growth.first
        growth.entry.blocks) (Grows (extents_in array.old.table.geometry) table.old table.new growth.volume
        growth.first growth.entry.blocks)
        (array_view array.old) (array_view array.new) result }
{
    let before = spelled(table);
    let Growth {
        volume,
        first,
        entry,
    } = growth;
    let last = entry.blocks;
    let extents = ExtentLayout::of(&array.table.geometry);
    map.take(
        &table.dirty,
        volume,
        extents.extents_for(last) - extents.extents_for(first),
    );
    table.set(volume, Some(entry), map);
    zero_blocks(array, map, &table.dirty, volume, first, last)?;
    put_table(array, &before, table)
}
