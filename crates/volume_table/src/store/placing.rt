//! The blocks of a volume are written where they lie.
ghost use Rattle.std.specs.Prelude.{◌≡◌, ◌≤◌, ◌+◌, ◌↔◌, false, length, true};
ghost use Rattle.batch.specs.Batches.{waiting};
ghost use Rattle.array_io.specs.Believed.OpenArray.{IsHonest, array_view};
ghost use Rattle.extents.specs.declared.record.TheConstants.{MOST_BLOCKS};
ghost use Rattle.volume_table.specs.ListChanges.{ChangesList, IsSameOr};
ghost use Rattle.extents.specs.SetExtents.{extents_in};
ghost use Rattle.volume_table.specs.StoreChanges.{AllPlaced, ArePlaced, IsWrittenAt};
ghost use Rattle.volume_table.specs.StagedBlocks.{StagesBlocks};

use crate::event::MOST_BLOCKS_AT_ONCE;
use array_io::Array;
use arrayvec::ArrayVec;
use batch::Batch;
use extents::{ExtentLayout, ExtentMap};
use sector_model::{Bank, Refusal, Sector};

/// Writes 1 to 32 blocks of a volume from block `at` on, by one commit: all of them or none.
///
/// The map is that of the set's extents, and each of the blocks has an extent of the volume (conditions). Refused as a
/// commit is.
pub fn write_blocks<B: Bank>(
    array: &mut Array<B>,
    map: &ExtentMap,
    volume: u8,
    at: u32,
    blocks: &[Sector],
) -> Result<(), Refusal>
    requires sized { length map.now ≤ (extents_in array.old.table.geometry).count }
    requires least { 1 ≤ length blocks.now }
    requires most { length blocks.now ≤ MOST_BLOCKS_AT_ONCE }
    requires within { at + length blocks.now ≤ MOST_BLOCKS }
    requires placed { AllPlaced (extents_in array.old.table.geometry) map.now volume at (at + length blocks.now) }
    ensures honest { IsHonest array.old ↔ IsHonest array.new }
    ensures changes { ChangesList (IsHonest array.old) 1
        (IsSameOr (IsWrittenAt (extents_in array.old.table.geometry) map.now volume at blocks.now))
        (IsWrittenAt (extents_in array.old.table.geometry) map.now volume at blocks.now)
        (array_view array.old) (array_view array.new) result }
{
    let extents = ExtentLayout::of(&array.table.geometry);
    let sectors = placed(&extents, map, volume, at, blocks);
    array.commit(&sectors)
}

/// Has 1 to 32 blocks of a volume from block `at` on wait in a batch. `false` as `Batch::stage` answers it.
///
/// The map is that of the set's extents, and each of the blocks has an extent of the volume (conditions).
pub fn stage_blocks(
    extents: &ExtentLayout,
    map: &ExtentMap,
    batch: &mut Batch,
    volume: u8,
    at: u32,
    blocks: &[Sector],
) -> bool
    requires of_set { extents.now ≡ extents_in batch.old.geometry }
    requires sized { length map.now ≤ extents.now.count }
    requires least { 1 ≤ length blocks.now }
    requires most { length blocks.now ≤ MOST_BLOCKS_AT_ONCE }
    requires within { at + length blocks.now ≤ MOST_BLOCKS }
    requires placed { AllPlaced extents.now map.now volume at (at + length blocks.now) }
    ensures staged { result ≡ true → StagesBlocks extents.now map.now volume at blocks.now (waiting batch.old)
        (waiting batch.new) }
    ensures kept { result ≡ false → waiting batch.new ≡ waiting batch.old }
    ensures few { length (waiting batch.old) + length blocks.now ≤ 32 → result ≡ true }
    ensures geometry { batch.new.geometry ≡ batch.old.geometry }
{
    let sectors = placed(extents, map, volume, at, blocks);
    batch.stage(&sectors)
}

// The blocks with the logical sectors in which they lie in a set whose extents lie so.
fn placed(
    extents: &ExtentLayout,
    map: &ExtentMap,
    volume: u8,
    at: u32,
    blocks: &[Sector],
) -> ArrayVec<(u64, Sector), MOST_BLOCKS_AT_ONCE>
    requires most { length blocks.now ≤ MOST_BLOCKS_AT_ONCE }
    requires within { at + length blocks.now ≤ MOST_BLOCKS }
    requires placed { AllPlaced extents.now map.now volume at (at + length blocks.now) }
    ensures { ArePlaced extents.now map.now volume at blocks.now result.items }
{
    let mut sectors = ArrayVec::new();
    for (i, bytes) in blocks.iter().enumerate() {
        let sector = map.where_is(extents, volume, at + i as u32);
        sectors.push((sector, *bytes));
    }
    sectors
}
