//! Blocks of a volume that follow one another are made zero.
ghost use Rattle.std.specs.Prelude.{◌≡◌, ◌≤◌, ◌<◌, ◌+◌, ◌↔◌, length};
ghost use Rattle.array_io.specs.Believed.OpenArray.{IsHonest, array_view};
ghost use Rattle.batch.specs.declared.places.TheConstants.{MOST_PLACES};
ghost use Rattle.batch.specs.Zeroed.{zeroed};
ghost use Rattle.extents.specs.declared.record.TheConstants.{MOST_BLOCKS};
ghost use Rattle.extents.specs.SetExtents.{extents_in};
ghost use Rattle.volume_table.specs.declared.event.TheConstants.{MOST_BLOCKS_AT_ONCE};
ghost use Rattle.volume_table.specs.StoreChanges.{AllPlaced};
ghost use Rattle.volume_table.specs.ZeroedRanges.{AreWholeStripes, GathersBlocks, ZeroesInTurn, ZeroesTogether};

use super::dirty_blocks::end_of_extent;
use super::stripes::zero_whole;
use crate::event::MOST_BLOCKS_AT_ONCE;
use array_io::Array;
use batch::{MOST_PLACES, ZeroSectors};
use extents::{ExtentLayout, ExtentMap};
use layout_map::{Format, Geometry};
use sector_model::{Bank, Refusal};

/// Makes the blocks `first` to `last` - 1 of a volume zero, by commits in rising order of blocks, each of which makes
/// those that follow on those of the one before it zero, all of them or none.
///
/// Up to 32 are one commit. More are cut into those before the first whole stripe, the whole stripes, and those after
/// them; all come before it where there is none, or in a set of format 1. What lies beside whole stripes goes by
/// commits of 2,048 blocks (32 in a set of format 1), and whole stripes by as few as runs of zeros allow.
///
/// The map is that of the set's extents, and each of the blocks has an extent of the volume (conditions). Refused as a
/// commit is; the blocks of the commits before are then zero.
pub fn zero_range<B: Bank>(
    array: &mut Array<B>,
    map: &ExtentMap,
    volume: u8,
    first: u32,
    last: u32,
) -> Result<(), Refusal>
    requires sized { length map.now ≤ (extents_in array.old.table.geometry).count }
    requires order { first ≤ last }
    requires within { last ≤ MOST_BLOCKS }
    requires placed { AllPlaced (extents_in array.old.table.geometry) map.now volume first last }
    ensures honest { IsHonest array.old ↔ IsHonest array.new }
    ensures zeroes { ZeroesInTurn (IsHonest array.old) (extents_in array.old.table.geometry) map.now volume first last
        (array_view array.old) (array_view array.new) result }
{
    let whole = whole_stripes(&array.table.geometry, first, last);
    zero_part(array, map, volume, first, whole.first)?;
    zero_whole(array, map, volume, whole.first, whole.end)?;
    zero_part(array, map, volume, whole.end, last)
}

// Whole stripes, one after another, of blocks of a volume.
#[derive(Clone, Copy)]
struct WholeStripes {
    // The first of the blocks.
    first: u32,
    // The block after the last of them.
    end: u32,
}

// The whole stripes that are made zero as such of the blocks `first` to `last` - 1 of a volume: none, at their end,
// where these are 32 or fewer or have no whole stripe, and in a set of format 1.
fn whole_stripes(geometry: &Geometry, first: u32, last: u32) -> WholeStripes
    requires { first ≤ last }
    ensures least { first ≤ result.first }
    ensures order { result.first ≤ result.end }
    ensures most { result.end ≤ last }
    ensures whole { AreWholeStripes geometry.now result.first result.end }
{
    let stripe = u64::from(geometry.chunk) * u64::from(geometry.members - 1);
    let from = (u64::from(first) + stripe - 1) / stripe * stripe;
    let end = u64::from(last) / stripe * stripe;
    let few = last - first <= MOST_BLOCKS_AT_ONCE as u32;
    if geometry.format == Format::One || few || end <= from {
        return WholeStripes {
            first: last,
            end: last,
        };
    }
    WholeStripes {
        first: from as u32,
        end: end as u32,
    }
}

// Makes the blocks `first` to `last` - 1 of a volume zero, each sector by itself, by commits of up to 2,048 of them, 32
// in a set of format 1.
//
// The conditions are those of `zero_range`, and it is refused as that is.
fn zero_part<B: Bank>(
    array: &mut Array<B>,
    map: &ExtentMap,
    volume: u8,
    first: u32,
    last: u32,
) -> Result<(), Refusal>
    requires sized { length map.now ≤ (extents_in array.old.table.geometry).count }
    requires order { first ≤ last }
    requires within { last ≤ MOST_BLOCKS }
    requires placed { AllPlaced (extents_in array.old.table.geometry) map.now volume first last }
    ensures honest { IsHonest array.old ↔ IsHonest array.new }
    ensures zeroes { ZeroesInTurn (IsHonest array.old) (extents_in array.old.table.geometry) map.now volume first last
        (array_view array.old) (array_view array.new) result }
{
    let geometry = array.table.geometry;
    let mut sectors = ZeroSectors::new(&geometry);
    let mut at = first;
    while at < last {
        let end = gather_blocks(&geometry, map, volume, at, last, &mut sectors);
        zero_sectors(array, map, volume, at, end, &sectors)?;
        at = end;
    }
    Ok(())
}

// Makes the blocks `at` to `end` - 1 of a volume zero, 1 at least, which lie in these sectors, by one entry.
//
// The map is that of the set's extents, and each of the blocks has an extent of the volume (conditions). Refused as a
// commit is.
fn zero_sectors<B: Bank>(
    array: &mut Array<B>,
    map: &ExtentMap,
    volume: u8,
    at: u32,
    end: u32,
    sectors: &ZeroSectors,
) -> Result<(), Refusal>
    requires same { sectors.now.geometry ≡ array.old.table.geometry }
    requires some { at < end }
    requires placed { AllPlaced (extents_in array.old.table.geometry) map.now volume at end }
    requires gathers { GathersBlocks (extents_in array.old.table.geometry) map.now volume at end (zeroed sectors.now) }
    ensures honest { IsHonest array.old ↔ IsHonest array.new }
    ensures zeroes { ZeroesTogether (IsHonest array.old) (extents_in array.old.table.geometry) map.now volume at end
        (array_view array.old) (array_view array.new) result }
{
    array.commit_zero_sectors(sectors)
}

// Gathers the sectors of blocks of a volume from block `at` on, below `last`, as many as one entry has room for: 2,048,
// or 32 in a set of format 1. The answer is the block after the last of them.
//
// The map is that of the set's extents, and each of the blocks has an extent of the volume (conditions).
fn gather_blocks(
    geometry: &Geometry,
    map: &ExtentMap,
    volume: u8,
    at: u32,
    last: u32,
    sectors: &mut ZeroSectors,
) -> u32
    requires same { sectors.old.geometry ≡ geometry.now }
    requires sized { length map.now ≤ (extents_in geometry.now).count }
    requires order { at < last }
    requires within { last ≤ MOST_BLOCKS }
    requires placed { AllPlaced (extents_in geometry.now) map.now volume at last }
    ensures least { at < result }
    ensures most { result ≤ last }
    ensures geometry { sectors.new.geometry ≡ sectors.old.geometry }
    ensures gathers { GathersBlocks (extents_in geometry.now) map.now volume at result (zeroed sectors.new) }
{
    sectors.clear();
    let extents = ExtentLayout::of(geometry);
    let limit = end_of_some(at, last, most_together(geometry.format));
    let mut end = at;
    while end < limit {
        let most = end_of_some(end, limit, MOST_BLOCKS_AT_ONCE);
        let next = end_of_extent(&extents, end, most);
        let first = map.where_is(&extents, volume, end);
        if !sectors.add(first, next - end) {
            break;
        }
        end = next;
    }
    end
}

// The most blocks that one entry of a set of this format makes zero sector by sector.
fn most_together(format: Format) -> usize
    ensures least { MOST_BLOCKS_AT_ONCE ≤ result }
    ensures most { result ≤ MOST_PLACES }
{
    match format {
        Format::One => MOST_BLOCKS_AT_ONCE,
        Format::Two => MOST_PLACES,
    }
}

// The block after the first of those from block `at` on, so many and 1 at least, or `last` where that is below it.
fn end_of_some(at: u32, last: u32, most: usize) -> u32
    requires order { at < last }
    requires least { 1 ≤ most }
    requires most { most ≤ MOST_PLACES }
    ensures least { at < result }
    ensures within { result ≤ last }
    ensures few { result ≤ at + most }
{
    at + (last - at).min(most as u32)
}
