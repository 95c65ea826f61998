//! Maps that are worked out by hand.
ghost use Rattle.std.specs.Prelude.{◌≡◌, ◌≤◌};
ghost use Rattle.extents.specs.ExtentMaps.{free_of};

use super::*;
use crate::testing::{extents_of_64, same};
use std::process::Abort;

mod far_end;

// The map of this many free extents.
fn free_map<const N: usize>() -> ExtentMap
    requires { N ≤ 1024 }
    ensures { free_of result ≡ N }
{
    ExtentMap::new(&[None; N])
}

// The flags of 1,024 extents that are dirty.
const ALL_DIRTY: &[bool] = &[true; 1024];

// Appends so many extents to a volume, where these are dirty.
fn take(rt: &impl Abort, map: &mut ExtentMap, dirty: &[bool], volume: u8, n: u32) {
    assert!(rt; volume < 64 && n <= map.free_count());
    map.take(dirty, volume, n);
}

// Checks that a block of a volume lies in this extent, at this logical sector, where extents lie so.
fn check_block_in(
    rt: &impl Abort,
    extents: &ExtentLayout,
    map: &ExtentMap,
    (volume, block): (u8, u32),
    extent: u32,
    sector: u64,
) {
    let place = u64::from(block) / extents.blocks;
    assert!(rt; place < 1_024);
    let place = place as u16;
    assert!(rt; map.entry(extent) == Some(Owned { volume, place }));
    same(rt, map.where_is(extents, volume, block), sector);
}

// Checks it in a set of format 1.
fn check_block(rt: &impl Abort, map: &ExtentMap, volume: u8, block: u32, extent: u32, sector: u64) {
    let extents = extents_of_64(1_024);
    check_block_in(rt, &extents, map, (volume, block), extent, sector);
}

// Checks that a volume has these extents, in order of place.
fn check_extents(rt: &impl Abort, map: &ExtentMap, volume: u8, extents: &[u16]) {
    let got = (map.extents_of(volume), map.count(volume) as usize);
    same(rt, (volume, got), (volume, (extents, extents.len())));
}

// What is done with a map, and what it then shows.
#[derive(Clone, Copy)]
enum Step {
    /// The volume gets so many extents, where all are dirty.
    Takes(u8, u32),
    /// The volume gets so many extents, where these are dirty.
    TakesOf(&'static [bool], u8, u32),
    /// The volume gives back its extents.
    GivesBack(u8),
    /// The volume has these extents.
    Has(u8, &'static [u16]),
    /// The block of the volume lies in this extent, at this logical sector.
    Lies(u8, u32, u32, u64),
    /// The extent is free, or there is none of this number.
    IsFree(u32),
    /// So many extents are free.
    Free(u32),
}

use Step::{Free, GivesBack, Has, IsFree, Lies, Takes, TakesOf};

fn take_step(rt: &impl Abort, map: &mut ExtentMap, step: Step) {
    match step {
        Takes(volume, n) => take(rt, map, ALL_DIRTY, volume, n),
        TakesOf(dirty, volume, n) => take(rt, map, dirty, volume, n),
        GivesBack(volume) => map.give_back(volume),
        Has(volume, extents) => check_extents(rt, map, volume, extents),
        Lies(volume, block, extent, sector) => check_block(rt, map, volume, block, extent, sector),
        IsFree(extent) => same(rt, (extent, map.entry(extent)), (extent, None)),
        Free(n) => same(rt, map.free_count(), n),
    }
}

// Takes the steps in order.
fn play(rt: &impl Abort, map: &mut ExtentMap, steps: &[Step]) {
    for number in 0..steps.len() {
        take_step(rt, map, steps[number]);
    }
}

#[test]
fn three_volumes(rt: HostRuntime) {
    // Volumes of 64, 128 and 64 blocks.
    const STEPS: &[Step] = &[
        Free(7),
        Takes(0, 1),
        Takes(1, 2),
        Takes(2, 1),
        Lies(0, 63, 0, 127),
        Lies(1, 0, 1, 128),
        Lies(1, 127, 2, 255),
        Lies(2, 0, 3, 256),
        IsFree(4),
        Has(1, &[1, 2]),
        Free(3),
    ];
    play(&rt, &mut free_map::<7>(), STEPS)
}

#[test]
fn lowest_free_first(rt: HostRuntime) {
    const STEPS: &[Step] = &[
        Takes(0, 1),
        Takes(1, 2),
        Takes(2, 1),
        GivesBack(1),
        IsFree(1),
        Has(1, &[]),
        Free(5),
        Lies(2, 0, 3, 256),
        // A new volume gets the extents 1, 2 and 4, and the first one grows by extent 5.
        Takes(3, 3),
        Lies(3, 0, 1, 128),
        Lies(3, 127, 2, 255),
        Lies(3, 130, 4, 322),
        Takes(0, 1),
        Lies(0, 63, 0, 127),
        Lies(0, 64, 5, 384),
        Free(1),
    ];
    play(&rt, &mut free_map::<7>(), STEPS)
}

#[test]
fn none_are_taken(rt: HostRuntime) {
    const OF_TWO: &[Step] = &[Takes(63, 0), Free(2), Has(63, &[])];
    const OF_NONE: &[Step] = &[Takes(0, 0), GivesBack(0), Free(0), IsFree(0)];
    play(&rt, &mut free_map::<2>(), OF_TWO);
    play(&rt, &mut free_map::<0>(), OF_NONE);
}

#[test]
fn all_are_taken(rt: HostRuntime) {
    const STEPS: &[Step] = &[
        Takes(5, 1_024),
        Free(0),
        Lies(5, 65_535, 1_023, 65_599),
        IsFree(1_024),
        IsFree(4_294_967_295),
    ];
    play(&rt, &mut free_map::<1024>(), STEPS);
    extent_map_law();
}

#[test]
fn extents_reused(rt: HostRuntime) {
    // Volumes of 64, 128 and 64 blocks.
    const STEPS: &[Step] = &[
        Takes(0, 1),
        Takes(1, 2),
        Takes(2, 1),
        Has(0, &[0]),
        Has(1, &[1, 2]),
        Has(2, &[3]),
        Has(3, &[]),
        Has(255, &[]),
        GivesBack(1),
        Has(1, &[]),
        Takes(3, 3),
        Has(3, &[1, 2, 4]),
        Has(0, &[0]),
        Has(2, &[3]),
        Lies(3, 130, 4, 322),
    ];
    play(&rt, &mut free_map::<7>(), STEPS)
}

#[test]
fn clean_before_dirty(rt: HostRuntime) {
    // Of seven extents the third, the fifth and the sixth are clean.
    const DIRTY: &[bool] = &[true, true, false, true, false, false, true];
    const STEPS: &[Step] = &[
        // Both are clean, and lie above two dirty ones.
        TakesOf(DIRTY, 0, 2),
        Has(0, &[2, 4]),
        // The last clean one, and then the lowest dirty ones.
        TakesOf(DIRTY, 1, 3),
        Has(1, &[5, 0, 1]),
        Lies(1, 0, 5, 384),
        Lies(1, 64, 0, 64),
        // Only dirty ones are left.
        TakesOf(DIRTY, 0, 1),
        Has(0, &[2, 4, 3]),
        IsFree(6),
        Free(1),
        // A clean one that was given back comes first again.
        GivesBack(1),
        TakesOf(DIRTY, 2, 4),
        Has(2, &[5, 0, 1, 6]),
    ];
    play(&rt, &mut free_map::<7>(), STEPS)
}

#[test]
fn extents_without_flags_are_dirty(rt: HostRuntime) {
    const TWO: &[bool] = &[true, false];
    const STEPS: &[Step] = &[
        TakesOf(TWO, 0, 3),
        Has(0, &[1, 0, 2]),
        TakesOf(&[], 1, 1),
        Has(1, &[3]),
        Free(1),
    ];
    play(&rt, &mut free_map::<5>(), STEPS)
}

#[test]
fn all_of_one_kind(rt: HostRuntime) {
    const STEPS: &[Step] = &[
        TakesOf(&[false; 5], 0, 1),
        TakesOf(&[false; 5], 1, 2),
        GivesBack(0),
        TakesOf(&[false; 5], 2, 2),
        Has(1, &[1, 2]),
        Has(2, &[0, 3]),
        GivesBack(2),
        TakesOf(&[true; 5], 2, 2),
        Has(2, &[0, 3]),
        Free(1),
        // More flags than extents.
        TakesOf(&[false; 9], 0, 1),
        Has(0, &[4]),
    ];
    play(&rt, &mut free_map::<5>(), STEPS)
}

// The first extent with this owner, found by looking at each.
fn found(owners: &[Option<Owned>; 1024], wanted: Option<Owned>) -> Option<usize> {
    for (extent, owner) in owners.iter().enumerate() {
        if *owner == wanted {
            return Some(extent);
        }
    }
    None
}

// The first free extent whose flag is this one, found by looking at each.
fn free_of_kind(owners: &[Option<Owned>; 1024], dirty: &[bool; 1024], kind: bool) -> Option<usize> {
    for (extent, owner) in owners.iter().enumerate() {
        if owner.is_none() && dirty[extent] == kind {
            return Some(extent);
        }
    }
    None
}

// Appends free extents to a volume, each found by looking at all: the first clean one, or where there is none the
// first dirty one.
fn take_plainly(
    rt: &impl Abort,
    owners: &mut [Option<Owned>; 1024],
    dirty: &[bool; 1024],
    volume: u8,
    n: u32,
) {
    let mut left = n;
    for place in 0..1024 {
        let owner = Some(Owned { volume, place });
        if left > 0 && found(owners, owner).is_none() {
            let clean = free_of_kind(owners, dirty, false);
            let free = clean.or(free_of_kind(owners, dirty, true)).unwrap_or(1024);
            assert!(rt; free < 1024);
            owners[free] = owner;
            left -= 1;
        }
    }
    same(rt, left, 0);
}

// Checks what the map says of a volume against what is found in the owners, place by place.
fn check_volume(rt: &impl Abort, map: &ExtentMap, owners: &[Option<Owned>; 1024], volume: u8) {
    let mut places = 0;
    for place in 0..1024 {
        let Some(extent) = found(owners, Some(Owned { volume, place })) else {
            break;
        };
        assert!(rt; extent < 1024);
        let indexed = map.extents_of(volume).get(usize::from(place));
        same(rt, indexed, Some(&(extent as u16)));
        let within = u32::from(place) % 64;
        let block = 64 * u32::from(place) + within;
        let sector = 64 + 64 * extent as u64 + u64::from(within);
        check_block(rt, map, volume, block, extent as u32, sector);
        places = place + 1;
    }
    let counts = (map.extents_of(volume).len(), map.count(volume));
    same(rt, counts, (usize::from(places), u32::from(places)));
}

// Checks what the map says of all extents against the owners.
fn check_all(rt: &impl Abort, map: &ExtentMap, owners: &[Option<Owned>; 1024]) {
    let mut free = 0u32;
    for (extent, owner) in owners.iter().enumerate() {
        same(rt, (extent, map.entry(extent as u32)), (extent, *owner));
        if owner.is_none() {
            free = free.wrapping_add(1);
        }
    }
    same(rt, map.free_count(), free);
    for volume in 0..64 {
        check_volume(rt, map, owners, volume);
    }
}

// Takes extents from both, and gives back the extents of another volume before that.
fn change_both(
    rt: &impl Abort,
    map: &mut ExtentMap,
    owners: &mut [Option<Owned>; 1024],
    dirty: &[bool; 1024],
    (given, taking): (u8, u8),
    n: u32,
) {
    map.give_back(given);
    for owner in owners.iter_mut() {
        if matches!(owner, Some(owned) if owned.volume == given) {
            *owner = None;
        }
    }
    take(rt, map, dirty, taking, n);
    take_plainly(rt, owners, dirty, taking, n);
}

#[test]
fn as_a_plain_search(rt: HostRuntime) {
    let mut map = free_map::<1024>();
    let mut owners = [None; 1024];

    // Every third extent is clean, and those from 700 to 799 too.
    let mut dirty = [true; 1024];
    for (extent, flag) in dirty.iter_mut().enumerate() {
        *flag = extent % 3 != 0 && (extent < 700 || 800 <= extent);
    }

    // Each volume has 16 extents, in two parts.
    for step in 0u32..128 {
        let volume = (step * 11 % 64) as u8;
        let n = if step < 64 {
            step % 17
        } else {
            16 - (step - 64) % 17
        };
        change_both(&rt, &mut map, &mut owners, &dirty, (255, volume), n);
    }
    same(&rt, map.free_count(), 0);
    check_all(&rt, &map, &owners);

    // The volumes are given back in another order, and those in a third one have half of what is free then.
    for step in 0u32..32 {
        let given = ((step * 13 + 3) % 64) as u8;
        let taking = (step * 5 % 64) as u8;
        let n = map.free_count() / 2;
        change_both(&rt, &mut map, &mut owners, &dirty, (given, taking), n);
        check_all(&rt, &map, &owners);
    }
}
