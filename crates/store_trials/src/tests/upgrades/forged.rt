//! Tables whose version was changed on the devices, and bytes that stood where the table of version 2 comes to lie.
use super::super::Answer::{Done, Scrubbed};
use super::super::Call::{Create, Scrub, Upgrade, Write};
use super::super::Step::{Do, Holds, Logical, Shows, Version};
use super::super::every_call::{begun, fresh_image};
use super::super::{
    SET_A, Step, Volumes, assembled, check, fresh_store, geometry_of, image_now, next_run,
};
use super::{ONE, ONE_VOLUME, SPELLED, check_spelled};
use crate::testing::{all, front, same};
use parity::xor_into;
use scrub::ScrubReport;
use sector_model::{Bank, Image, Refusal, Sector};
use std::process::Abort;
use volume_table::Store;

// Changes the sector of a member in a row by XOR with these bytes.
fn turn(rt: &impl Abort, image: &mut Image, member: u8, row: u64, by: &Sector) {
    let (slot, at) = (member as usize, (row as usize).saturating_add(8));
    assert!(rt; slot < image.slots.len());
    let disk = image.slots[slot].as_deref_mut();
    let disk = disk.expect(rt, "there is a device");
    assert!(rt; at < disk.len());
    xor_into(&mut disk[at], by);
}

// Changes a logical sector of set A by XOR with these bytes, and the parity of its row with it: each row stays sound.
fn forge(rt: &impl Abort, image: &mut Image, logical: u64, by: &Sector) {
    let geometry = geometry_of(rt, SET_A);
    assert!(rt; logical < geometry.data_sectors());
    let place = geometry.place(logical);
    let parity = geometry.parity_member(place.row);
    turn(rt, image, place.member, place.row, by);
    turn(rt, image, parity, place.row, by);
}

/// The devices of set A as `make` left them, but for the sectors between the table of volumes and the first extent:
/// each byte of those is 0xc3. In version 1 these are sectors that are neither read nor written.
pub(crate) fn with_old_bytes(rt: &(impl Abort + AllocGlobal)) -> Image {
    let mut image = fresh_image(rt);
    for logical in 11..64u64 {
        forge(rt, &mut image, logical, &all(0xc3));
    }
    image
}

// What stood in sectors 11 to 24 does not matter, and sectors 25 to 63 stay.
#[test]
fn upgrade_over_old_bytes(rt: HostRuntime) {
    static STEPS: [Step; 7] = [
        Logical(11, &[0xc3; 53]),
        Version(1),
        Holds(ONE_VOLUME),
        Do(Upgrade, Done),
        Version(2),
        Logical(25, &[0xc3; 39]),
        Shows(ONE_VOLUME),
    ];
    static AGAIN: [Step; 4] = [
        Version(2),
        Holds(ONE_VOLUME),
        Logical(25, &[0xc3; 39]),
        Do(
            Scrub,
            Scrubbed(ScrubReport {
                rows: 256,
                bad: 0,
                first_bad: None,
            }),
        ),
    ];
    let mut store = begun(&rt, with_old_bytes(&rt));
    check(&rt, &mut store, &ONE);
    check(&rt, &mut store, &STEPS);
    check_spelled(&rt, store.bank(), &SPELLED);
    check(&rt, &mut next_run(&rt, store.bank()), &AGAIN);
}

// The devices with the first byte of the table changed.
fn with_first_byte(rt: &impl Abort, mut image: Image, by: u8) -> Image {
    forge(rt, &mut image, 0, &front(&[by]));
    image
}

// Checks the set on these devices: the version of its table, or that it is refused after a read of so many sectors of
// the table, without a write.
fn check_opened(rt: &(impl Abort + AllocGlobal), image: Image, byte: u8, wanted: Result<u8, u64>) {
    let array = assembled(rt, image);
    let (now, room) = (array.bank.now(), array.bank.room);
    match Store::open(array) {
        Ok(store) => same(rt, (byte, Ok(store.table.version)), (byte, wanted)),
        Err(returned) => {
            let calls = returned.bank.now().saturating_sub(now);
            same(rt, (byte, Err(calls)), (byte, wanted));
            let got = (byte, returned.refusal, returned.bank.room);
            same(rt, got, (byte, Refusal::BadTable, room));
        }
    }
}

// What has to be there where the first byte of the table has each value: what is wanted where it is 0, and where it is
// 1. Else it is no version, and the sectors after it are not read.
fn check_versions(
    rt: &(impl Abort + AllocGlobal),
    steps: &[Step],
    byte: u8,
    wanted: [Result<u8, u64>; 2],
) {
    let mut store = fresh_store(rt, SET_A);
    check(rt, &mut store, steps);
    for first in 0..=255u8 {
        let want = if first < 2 {
            wanted[first as usize]
        } else {
            Err(1)
        };
        let image = with_first_byte(rt, image_now(rt, store.bank()), first ^ byte);
        check_opened(rt, image, first, want);
    }
}

// Record 0 of version 1 has its number of blocks where a name of version 2 ends with zeros.
#[test]
fn first_bytes_of_version_1(rt: HostRuntime) {
    check_versions(&rt, &ONE, 0, [Ok(1), Err(25)]);
}

// Record 0 of version 2 has no blocks where version 1 has them. A block is written after the upgrade, so that the last
// entry is of row 32 alone, and assembling puts no sector of the table on its member again.
#[test]
fn first_bytes_of_version_2(rt: HostRuntime) {
    static STEPS: [Step; 3] = [
        Do(Create(b"a", 64), Done),
        Do(Upgrade, Done),
        Do(Write(b"a", 0, &[0x11]), Done),
    ];
    check_versions(&rt, &STEPS, 1, [Err(11), Ok(2)]);
}

// Sectors of zeros are a table without volumes in both versions.
#[test]
fn first_bytes_of_no_volumes(rt: HostRuntime) {
    check_versions(&rt, &[], 0, [Ok(1), Ok(2)]);
}
