//! Whole stripes in which blocks of a volume lie are made zero.
ghost use Rattle.std.specs.Prelude.{◌≡◌, ◌≤◌, ◌<◌, ◌%◌, ◌↔◌, length};
ghost use Rattle.layout_map.specs.declared.format.Format.TheVariants.{Two};
ghost use Rattle.layout_map.specs.Placement.{stripe_blocks};
ghost use Rattle.array_io.specs.Believed.OpenArray.{IsHonest, array_view};
ghost use Rattle.batch.specs.ZeroRuns.{zero_runs};
ghost use Rattle.extents.specs.declared.record.TheConstants.{MOST_BLOCKS};
ghost use Rattle.extents.specs.ExtentMaps.{HasPlace, place_of};
ghost use Rattle.extents.specs.SetExtents.{extents_in};
ghost use Rattle.volume_table.specs.StoreChanges.{AllPlaced};
ghost use Rattle.volume_table.specs.WholeStripes.{FillStripe, GathersStripes};
ghost use Rattle.volume_table.specs.ZeroedRanges.{AreWholeStripes, ZeroesInTurn, ZeroesTogether};

use array_io::Array;
use batch::ZeroRows;
use entry_runs::RunsBuilder;
use extents::{ExtentLayout, ExtentMap};
use layout_map::Geometry;
use sector_model::{Bank, Refusal};

/// Makes the blocks `first` to `last` - 1 of a volume zero, which are whole stripes (condition): by one commit as many
/// of them, in rising order of blocks, as one entry has room for.
///
/// The map is that of the set's extents, and each of the blocks has an extent of the volume (conditions). Refused as a
/// commit is; the blocks of the commits before are then zero.
pub(super) fn zero_whole<B: Bank>(
    array: &mut Array<B>,
    map: &ExtentMap,
    volume: u8,
    first: u32,
    last: u32,
) -> Result<(), Refusal>
    requires sized { length map.now ≤ (extents_in array.old.table.geometry).count }
    requires order { first ≤ last }
    requires within { last ≤ MOST_BLOCKS }
    requires placed { AllPlaced (extents_in array.old.table.geometry) map.now volume first last }
    requires whole { AreWholeStripes array.old.table.geometry first last }
    ensures honest { IsHonest array.old ↔ IsHonest array.new }
    ensures zeroes { ZeroesInTurn (IsHonest array.old) (extents_in array.old.table.geometry) map.now volume first last
        (array_view array.old) (array_view array.new) result }
{
    let geometry = array.table.geometry;
    let mut rows = ZeroRows::new();
    let mut at = first;
    while at < last {
        let end = gather_stripes(&geometry, map, volume, at, last, &mut rows);
        zero_stripes(array, map, volume, at, end, &rows)?;
        at = end;
    }
    Ok(())
}

// Gathers the rows of the stripes that blocks of a volume fill from block `at` on, below `last`, whole stripes of a set
// of format 2 and one at least (conditions): as many as one entry has room for. The answer is the block after the last
// of them.
//
// The map is that of the set's extents, and each of the blocks has an extent of the volume (conditions).
fn gather_stripes(
    geometry: &Geometry,
    map: &ExtentMap,
    volume: u8,
    at: u32,
    last: u32,
    rows: &mut ZeroRows,
) -> u32
    requires sized { length map.now ≤ (extents_in geometry.now).count }
    requires order { at < last }
    requires within { last ≤ MOST_BLOCKS }
    requires placed { AllPlaced (extents_in geometry.now) map.now volume at last }
    requires two { geometry.now.format ≡ Two }
    requires first { at % stripe_blocks geometry.now.members geometry.now.chunk ≡ 0 }
    requires whole { last % stripe_blocks geometry.now.members geometry.now.chunk ≡ 0 }
    ensures least { at < result }
    ensures most { result ≤ last }
    ensures rest { result % stripe_blocks geometry.now.members geometry.now.chunk ≡ 0 }
    ensures gathers { GathersStripes geometry.now (extents_in geometry.now) map.now volume at result
        (zero_runs rows.new) }
{
    rows.clear();
    let extents = ExtentLayout::of(geometry);
    let stripe = u32::from(geometry.chunk) * u32::from(geometry.members - 1);
    let mut end = at;
    while end < last {
        let number = stripe_at(geometry, &extents, map, volume, end);
        let first = number * u64::from(geometry.chunk);
        if !rows.add(first as u32, u32::from(geometry.chunk)) {
            break;
        }
        end += stripe;
    }
    end
}

// Makes the blocks `at` to `end` - 1 of a volume zero, 1 at least, which fill the stripes with these rows, by one
// entry.
//
// The set is of format 2, the map is that of its extents, and each of the blocks has an extent of the volume
// (conditions). Refused as a commit is.
fn zero_stripes<B: Bank>(
    array: &mut Array<B>,
    map: &ExtentMap,
    volume: u8,
    at: u32,
    end: u32,
    rows: &ZeroRows,
) -> Result<(), Refusal>
    requires two { array.old.table.geometry.format ≡ Two }
    requires sized { length map.now ≤ (extents_in array.old.table.geometry).count }
    requires some { at < end }
    requires placed { AllPlaced (extents_in array.old.table.geometry) map.now volume at end }
    requires gathers { GathersStripes array.old.table.geometry (extents_in array.old.table.geometry) map.now volume at
        end (zero_runs rows.now) }
    ensures honest { IsHonest array.old ↔ IsHonest array.new }
    ensures zeroes { ZeroesTogether (IsHonest array.old) (extents_in array.old.table.geometry) map.now volume at end
        (array_view array.old) (array_view array.new) result }
{
    let mut builder = RunsBuilder::new();
    rows.put_in(&mut builder);
    array.commit_zeros(&builder)
}

// The stripe that blocks of a volume fill from this one on, as many as it has, one after another: the first block of a
// stripe, in a set of format 2 (conditions), whose extents are whole stripes.
//
// The map has an extent of the volume for the block (condition).
fn stripe_at(
    geometry: &Geometry,
    extents: &ExtentLayout,
    map: &ExtentMap,
    volume: u8,
    block: u32,
) -> u64
    requires of_set { extents.now ≡ extents_in geometry.now }
    requires two { geometry.now.format ≡ Two }
    requires first { block % stripe_blocks geometry.now.members geometry.now.chunk ≡ 0 }
    requires placed { HasPlace map.now volume (place_of extents.now block) }
    ensures { FillStripe geometry.now extents.now map.now volume block result }
{
    let blocks = u64::from(geometry.chunk) * u64::from(geometry.members - 1);
    map.where_is(extents, volume, block) / blocks
}
