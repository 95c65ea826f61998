//! A volume that has each of the most extents of a set gets another name.
use super::super::Answer::Done;
use super::super::Call::{Rename, Upgrade};
use super::super::Step::{Do, Owner, Record, Version};
use super::super::every_call::begun;
use super::super::{
    ID, Shape, Step, TestStore, blank_devices, check, geometry_of, image_now, next_run,
};
use crate::testing::same;
use layout_map::{Format, Geometry};
use parity::xor_into;
use recovery::make;
use sector_model::{Image, MemBank, Plan, Sector};
use std::process::Abort;
use stripe_journal::Entry;

// 9,376 rows of seven data sectors each: 65,632 of these, and 1,024 extents.
const LARGEST: Shape = (Format::One, 8, 8, 1_172);

// The devices of such a set as `make` leaves them: it writes each row of each member.
fn largest_image(rt: &(impl Abort + AllocGlobal), geometry: Geometry) -> Image {
    let blank = blank_devices(rt, &geometry);
    assert!(rt; blank.slots.len() >= 5 && blank.slots.len() <= 10);
    let bank = MemBank::new(rt.alloc(), blank, Plan::NONE, 90_000).expect(rt, "memory");
    let entry = Entry::new(rt.alloc()).expect(rt, "memory");
    let array = make(bank, entry, ID, geometry);
    let array = array.ok().expect(rt, "the set is made");
    image_now(rt, &array.bank)
}

// Changes the sector of a member in a row by XOR with these bytes.
fn turn(rt: &impl Abort, image: &mut Image, member: u8, row: u64, by: &Sector) {
    let (slot, at) = (member as usize, (row as usize).saturating_add(8));
    assert!(rt; slot < image.slots.len());
    let disk = image.slots[slot].as_deref_mut();
    let disk = disk.expect(rt, "there is a device");
    assert!(rt; at < disk.len());
    xor_into(&mut disk[at], by);
}

// Changes a logical sector by XOR with these bytes, and the parity of its row with it.
fn forge(rt: &impl Abort, image: &mut Image, geometry: &Geometry, logical: u64, by: &Sector) {
    assert!(rt; logical < geometry.data_sectors());
    let place = geometry.place(logical);
    let parity = geometry.parity_member(place.row);
    turn(rt, image, place.member, place.row, by);
    turn(rt, image, parity, place.row, by);
}

// Record 0: the volume `a` of 65,536 blocks.
fn record_sector() -> Sector {
    let mut sector = [0; 512];
    sector[0] = 1;
    sector[1] = b'a';
    sector[30] = 1;
    sector
}

// A sector of owners: record 0 has 128 extents from this one on, at the places of their numbers.
fn owners_sector(first: u16) -> Sector {
    let mut sector = [0; 512];
    for at in 0..128usize {
        let place = first.saturating_add(at as u16).to_le_bytes();
        sector[4 * at] = 1;
        sector[4 * at + 2] = place[0];
        sector[4 * at + 3] = place[1];
    }
    sector
}

// The devices of a set with that volume.
fn with_largest_volume(rt: &(impl Abort + AllocGlobal)) -> Image {
    let geometry = geometry_of(rt, LARGEST);
    let mut image = largest_image(rt, geometry);
    forge(rt, &mut image, &geometry, 1, &record_sector());
    for number in 0..8u8 {
        let owners = owners_sector(u16::from(number) * 128);
        forge(rt, &mut image, &geometry, 3 + u64::from(number), &owners);
    }
    image
}

// Asks that the volume of this name is listed, with all blocks, and no other.
fn check_listed(rt: &(impl Abort + AllocGlobal), store: &mut TestStore, name: &[u8]) {
    let listed = store.list(rt.alloc()).expect(rt, "volumes are listed");
    same(rt, listed.len(), 1);
    for volume in &listed {
        let is_so = volume.name.bytes() == name && volume.blocks == 65_536;
        same(rt, is_so, true);
    }
}

const OF_63: &[u8] = b"a-name-of-twenty-four-bytes-and-of-thirty-nine-more-behind-them";

#[test]
fn rename_of_the_largest_volume(rt: HostRuntime) {
    static STEPS: [Step; 6] = [
        Do(Rename(b"a", b"b"), Done),
        Do(Upgrade, Done),
        Do(Rename(b"b", OF_63), Done),
        Record(OF_63, 0, 65_536),
        Owner(0, Some((0, 0))),
        Owner(1_023, Some((0, 1_023))),
    ];
    let mut store = begun(&rt, with_largest_volume(&rt));
    check_listed(&rt, &mut store, b"a");
    check(&rt, &mut store, &STEPS);
    check_listed(&rt, &mut store, OF_63);
    let mut later = next_run(&rt, store.bank());
    check(&rt, &mut later, &[Version(2)]);
    check(&rt, &mut later, &STEPS[3..]);
    check_listed(&rt, &mut later, OF_63);
}
