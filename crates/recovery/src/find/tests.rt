//! Banks made by hand: which table is found on their devices, and by how many calls: two reads of each device that is
//! up.
use super::chosen_table;
use crate::testing::{
    ID, OTHER_ID, bank_of, devices, fails_at, put_sector, same, shorten, superblock, take,
};
use sector_model::{Bank, Image, MemBank, Plan, Refusal, Sector};
use std::process::Abort;

// The generation of a table and its stripes, which tell tables of one generation apart.
type Shown = (u64, u32);

// A superblock of a set with another id.
fn of_another_set(generation: u8, stripes: u8, role: u8) -> Sector {
    let mut sector = superblock(generation, stripes, role);
    sector[8..24].copy_from_slice(&OTHER_ID);
    sector
}

// The superblock of a set of 4 members, which has six slots.
fn of_six_slots(generation: u8, stripes: u8, role: u8) -> Sector {
    let mut sector = superblock(generation, stripes, role);
    sector[32] = 4;
    sector[120] = 1;
    sector[128] = 1;
    sector
}

// So many devices of two sectors, onto which sectors are put: the slot, the place and the sector of each. The first
// ones, `of_set` of them, have the superblocks of a set that was just made, of 32 stripes.
fn image_of(
    rt: &(impl Abort + AllocGlobal),
    count: usize,
    of_set: u8,
    puts: &[(u8, usize, Sector)],
) -> Image {
    assert!(rt; count <= 10);
    let mut image = devices(rt, &[2; 10][..count], 0);
    for slot in 0..of_set {
        put_sector(rt, &mut image, slot as usize, 1, &superblock(1, 32, slot));
    }
    for (slot, at, sector) in puts {
        put_sector(rt, &mut image, *slot as usize, *at, sector);
    }
    image
}

// What is found on a bank.
fn found_on(bank: &mut MemBank) -> Result<Option<Shown>, Refusal> {
    match chosen_table(bank, ID)? {
        Some(table) => Ok(Some((table.generation, table.geometry.stripes))),
        None => Ok(None),
    }
}

// Asks that this is found on a bank, on which so many calls are made then.
fn check_on(rt: &impl Abort, bank: &mut MemBank, wanted: Option<Shown>, calls: u64) {
    let found = found_on(bank);
    same(rt, (found, bank.now()), (Ok(wanted), calls));
}

// Asks that this is found on these devices, which stay up, by so many calls.
fn check(rt: &(impl Abort + AllocGlobal), image: Image, wanted: Option<Shown>, calls: u64) {
    check_on(rt, &mut bank_of(rt, image, Plan::NONE, 0), wanted, calls);
}

// The same of the five devices of a set that was just made, which stay up, with these sectors put onto them.
fn check_fresh(rt: &(impl Abort + AllocGlobal), puts: &[(u8, usize, Sector)], wanted: Shown) {
    check(rt, image_of(rt, 5, 5, puts), Some(wanted), 2 * 5);
}

#[test]
fn a_set_that_was_just_made(rt: HostRuntime) {
    check_fresh(&rt, &[], (1, 32));
}

#[test]
fn the_greatest_generation_in_any_slot(rt: HostRuntime) {
    for slot in 0..5u8 {
        check_fresh(&rt, &[(slot, 0, superblock(2, 16, slot))], (2, 16));
        check_fresh(&rt, &[(slot, 1, superblock(3, 16, slot))], (3, 16));
    }
}

#[test]
fn of_equal_generations_the_lowest_slot(rt: HostRuntime) {
    let two = [(3, 0, superblock(2, 16, 3)), (4, 0, superblock(2, 64, 4))];
    check_fresh(&rt, &two, (2, 16));
    check_fresh(&rt, &[(0, 1, superblock(1, 64, 0))], (1, 64));
}

#[test]
fn ten_slots_with_a_set_of_five(rt: HostRuntime) {
    let other = of_another_set(3, 16, 0);
    let others = [
        (5, 1, other),
        (6, 1, other),
        (7, 1, other),
        (8, 1, other),
        (9, 1, other),
    ];
    check(&rt, image_of(&rt, 10, 5, &others), Some((1, 32)), 2 * 10);
}

#[test]
fn superblocks_that_do_not_count(rt: HostRuntime) {
    check(&rt, image_of(&rt, 5, 0, &[]), None, 2 * 5);
    for (at, sector) in [
        (1, of_another_set(1, 32, 2)),
        (0, superblock(1, 32, 2)),
        (1, superblock(2, 32, 2)),
        (1, superblock(1, 32, 3)),
        (1, of_six_slots(1, 32, 2)),
    ] {
        check(&rt, image_of(&rt, 5, 0, &[(2, at, sector)]), None, 2 * 5);
    }
    let six = image_of(&rt, 6, 0, &[(2, 1, of_six_slots(1, 32, 2))]);
    check(&rt, six, Some((1, 32)), 2 * 6);
}

#[test]
fn no_device_and_short_ones(rt: HostRuntime) {
    let mut none = image_of(&rt, 5, 5, &[]);
    take(&rt, &mut none, 0);
    check(&rt, none, Some((1, 32)), 2 * 4);
    let mut short = image_of(&rt, 5, 5, &[(1, 0, superblock(2, 16, 1))]);
    shorten(&rt, &mut short, 1);
    // It has no place 1.
    check(&rt, short, Some((2, 16)), 2 * 4 + 1);
    let mut empty = image_of(&rt, 5, 5, &[]);
    shorten(&rt, &mut empty, 4);
    shorten(&rt, &mut empty, 4);
    check(&rt, empty, Some((1, 32)), 2 * 4);
}

#[test]
fn a_device_that_goes_down(rt: HostRuntime) {
    let newer = [(1, 0, superblock(2, 16, 1)), (1, 1, superblock(3, 64, 1))];
    // Where the first read of the slot fails, there is no second one.
    for (down, wanted, calls) in [
        (2, (1, 32), 2 * 4 + 1),
        (3, (1, 32), 2 * 5),
        (4, (3, 64), 2 * 5),
    ] {
        let plan = fails_at(&rt, &[1], down);
        let mut bank = bank_of(&rt, image_of(&rt, 5, 5, &newer), plan, 0);
        check_on(&rt, &mut bank, Some(wanted), calls);
    }
}

#[test]
fn all_devices_go_down(rt: HostRuntime) {
    let plan = Plan {
        down: [None; 10],
        stop: Some(0),
    };
    let mut bank = bank_of(&rt, image_of(&rt, 5, 5, &[]), plan, 0);
    check_on(&rt, &mut bank, None, 5);
    check_on(&rt, &mut bank, None, 5);
}
