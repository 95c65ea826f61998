//! Blocks at the far end of large sets.
use super::*;
use layout_map::Geometry;
use sector_model::Refusal;

// The map of 1,024 extents of which volume 0 has those below this one, and volume 1 has this one at its place 0.
fn map_with(rt: &impl Abort, extent: u32) -> ExtentMap {
    let mut map = free_map::<1024>();
    take(rt, &mut map, ALL_DIRTY, 0, extent);
    take(rt, &mut map, ALL_DIRTY, 1, 1);
    map
}

// Checks that the block of this number in an extent of a set of format 2 lies at this logical sector.
fn check_far(
    rt: &impl Abort,
    set: Result<Geometry, Refusal>,
    extent: u32,
    number: u32,
    sector: u64,
) {
    let extents = ExtentLayout::of(&set.expect(rt, "the set's numbers are within their limits"));
    let map = map_with(rt, extent);
    check_block_in(rt, &extents, &map, (1, number), extent, sector);
}

#[test]
fn blocks_at_the_far_end(rt: HostRuntime) {
    let greatest = || Geometry::large(8, 8, 536_870_910);
    let broad = || Geometry::large(8, 1_024, 4_194_303);
    check_far(&rt, Geometry::large(3, 8, 32), 27, 15, 511);
    check_far(&rt, Geometry::large(5, 128, 2_049), 1_023, 1_023, 1_049_087);
    check_far(&rt, greatest(), 0, 0, 112);
    check_far(&rt, greatest(), 146, 8_388_606, 4_294_967_406);
    check_far(&rt, greatest(), 146, 8_388_495, 4_294_967_295);
    check_far(&rt, greatest(), 146, 8_388_496, 4_294_967_296);
    check_far(&rt, greatest(), 1_022, 0, 30_006_050_928);
    check_far(&rt, greatest(), 1_022, 29_360_127, 30_035_411_055);
    check_far(&rt, broad(), 1_022, 0, 30_006_057_984);
    check_far(&rt, broad(), 1_022, 29_360_127, 30_035_418_111);
}

// A volume of 4,294,967,295 blocks in the extents 0 to 146 of the greatest set, which has 1,023.
#[test]
fn last_block_of_the_largest_volume(rt: HostRuntime) {
    let set = Geometry::large(8, 8, 536_870_910).expect(&rt, "the greatest set");
    let extents = ExtentLayout::of(&set);
    let mut map = free_map::<1023>();
    let n = extents.extents_for(4_294_967_295);
    take(&rt, &mut map, ALL_DIRTY, 0, n);
    same(&rt, (map.count(0), map.free_count()), (147, 876));
    check_block_in(&rt, &extents, &map, (0, 4_294_967_294), 146, 4_294_967_406);
}

// The first and the last block of a set with the most extents of one stripe.
#[test]
fn ends_of_1024_extents(rt: HostRuntime) {
    let set = Geometry::large(3, 8, 1_028).expect(&rt, "a set of 1,024 extents");
    let extents = ExtentLayout::of(&set);
    let mut map = free_map::<1024>();
    take(&rt, &mut map, ALL_DIRTY, 0, 1_024);
    check_block_in(&rt, &extents, &map, (0, 0), 0, 64);
    check_block_in(&rt, &extents, &map, (0, 16_383), 1_023, 16_447);
}
