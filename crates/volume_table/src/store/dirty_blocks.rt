//! Blocks of a volume that lie in dirty extents are made zero.
ghost use Rattle.std.specs.Prelude.{◌≡◌, ◌≤◌, ◌<◌, ◌-◌, ◌↔◌, ℕ, length};
ghost use Rattle.array_io.specs.Believed.OpenArray.{IsHonest, array_view};
ghost use Rattle.extents.specs.declared.record.TheConstants.{MOST_BLOCKS};
ghost use Rattle.extents.specs.ExtentMaps.{HasPlace, place_of};
ghost use Rattle.extents.specs.SetExtents.{extents_in};
ghost use Rattle.volume_table.specs.ListChanges.{ChangesList};
ghost use Rattle.volume_table.specs.StoreChanges.{AllPlaced, IsPartlyZero, IsZeroed};
ghost use Rattle.volume_table.specs.Stretches.{IsDirtyBlock, IsStretch};

use super::zero_ranges::zero_range;
use array_io::Array;
use extents::{ExtentLayout, ExtentMap};
use sector_model::{Bank, Refusal};

/// Makes those of the blocks `first` to `last` - 1 of a volume zero that lie in dirty extents: those that follow one
/// another as `zero_range` does. The others are not written.
///
/// The map is that of the set's extents, and each of the blocks has an extent of the volume (conditions). Refused as a
/// commit is; some of the blocks may then be zero.
pub fn zero_blocks<B: Bank>(
    array: &mut Array<B>,
    map: &ExtentMap,
    dirty: &[bool],
    volume: u8,
    first: u32,
    last: u32,
) -> Result<(), Refusal>
    requires sized { length map.now ≤ (extents_in array.old.table.geometry).count }
    requires order { first ≤ last }
    requires within { last ≤ MOST_BLOCKS }
    requires placed { AllPlaced (extents_in array.old.table.geometry) map.now volume first last }
    ensures honest { IsHonest array.old ↔ IsHonest array.new }
    ensures changes { ChangesList (IsHonest array.old) (last - first)
        (IsPartlyZero (extents_in array.old.table.geometry) map.now volume first last)
        (IsZeroed (extents_in array.old.table.geometry) dirty.now map.now volume first last) (array_view array.old)
        (array_view array.new) result }
{
    let extents = ExtentLayout::of(&array.table.geometry);
    let mut at = first;
    while at < last {
        let stretch = next_stretch(&extents, map, dirty, volume, at, last);
        if stretch.dirty {
            zero_range(array, map, volume, at, stretch.end)?;
        }
        at = stretch.end;
    }
    Ok(())
}

// Blocks of a volume, one after another, that lie in dirty extents, or in a clean one.
#[derive(Clone, Copy)]
struct Stretch {
    // The block after the last of them.
    end: u32,
    // Whether they lie in dirty extents.
    dirty: bool,
}

// The next blocks of a volume from block `at` on, below `last`: all that follow in dirty extents, or those of a clean
// one.
fn next_stretch(
    extents: &ExtentLayout,
    map: &ExtentMap,
    dirty: &[bool],
    volume: u8,
    at: u32,
    last: u32,
) -> Stretch
    requires order { at < last }
    requires within { last ≤ MOST_BLOCKS }
    requires placed { AllPlaced extents.now map.now volume at last }
    ensures { IsStretch extents.now dirty.now map.now volume at last result.end result.dirty }
{
    if is_dirty_block(extents, map, dirty, volume, at) {
        let end = end_of_dirty(extents, map, dirty, volume, at, last);
        Stretch { end, dirty: true }
    } else {
        let end = end_of_extent(extents, at, last);
        Stretch { end, dirty: false }
    }
}

// The first block after this one, below `last`, whose extent is clean, or `last`: this one lies in a dirty extent.
fn end_of_dirty(
    extents: &ExtentLayout,
    map: &ExtentMap,
    dirty: &[bool],
    volume: u8,
    at: u32,
    last: u32,
) -> u32
    requires order { at < last }
    requires placed { AllPlaced extents.now map.now volume at last }
    ensures least { at < result }
    ensures most { result ≤ last }
{
    let mut end = end_of_extent(extents, at, last);
    while end < last && is_dirty_block(extents, map, dirty, volume, end) {
        end = end_of_extent(extents, end, last);
    }
    end
}

// Whether a block of a volume lies in a dirty extent.
fn is_dirty_block(
    extents: &ExtentLayout,
    map: &ExtentMap,
    dirty: &[bool],
    volume: u8,
    block: u32,
) -> bool
    requires { HasPlace map.now volume (place_of extents.now block) }
    ensures { IsDirtyBlock extents.now dirty.now map.now volume block result }
{
    let place = (u64::from(block) / extents.blocks) as usize;
    let extent = map.extents_of(volume)[place];
    match dirty.get(usize::from(extent)) {
        Some(flag) => *flag,
        None => true,
    }
}

/// The block with which the extent after that of block `at` begins, or `last` where that is below it.
pub(super) fn end_of_extent(extents: &ExtentLayout, at: u32, last: u32) -> u32
    requires { at < last }
    ensures least { at < result }
    ensures most { result ≤ last }
    ensures one { (block : ℕ) → at ≤ block → block < result → place_of extents.now block ≡ place_of extents.now at }
{
    let next = (u64::from(at) / extents.blocks + 1) * extents.blocks;
    next.min(u64::from(last)) as u32
}
