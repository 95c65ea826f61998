//! A set whose generation stands at its limit: no slot can be given up, and what was written stays.
use super::Answer::{Blocks, Done, Refused};
use super::Call::{Create, Fail, Read, Write};
use super::Step::{Do, Ended, Shows, Slot, Status};
use super::every_call::{begun, fresh_image};
use super::{Step, check, next_run};
use crate::testing::all;
use sector_model::{Image, Refusal, Sector};
use std::process::Abort;
use superblock::State;

// The greatest generation, which stands in place 0.
const LIMIT: u64 = 1 << 62;

// What is in place 1 of a device.
fn superblock_of(rt: &impl Abort, disk: &[Sector]) -> Sector {
    assert!(rt; disk.len() >= 2);
    disk[1]
}

// Puts the superblock of a device into place 0 with the greatest generation, and zeros into place 1.
fn wear(rt: &impl Abort, image: &mut Image, slot: usize) {
    assert!(rt; slot < image.slots.len());
    if let Some(disk) = image.slots[slot].as_deref_mut() {
        assert!(rt; disk.len() >= 2);
        let mut sector = superblock_of(rt, disk);
        sector[24..32].copy_from_slice(&LIMIT.to_le_bytes());
        disk[0] = sector;
        disk[1] = all(0);
    }
}

// The devices of set A as `make` left them, but for the generation.
fn worn_image(rt: &(impl Abort + AllocGlobal)) -> Image {
    let mut image = fresh_image(rt);
    for slot in 0..5 {
        wear(rt, &mut image, slot);
    }
    image
}

// The set is assembled with all slots in sync. Commits are done, since no table is published for them. A slot that is
// given up would need a table of the next generation: the call is refused, so is every later one, and the set is as it
// was when it is assembled again.
#[test]
fn worn_out(rt: HostRuntime) {
    static STEPS: &[Step] = &[
        Status([256, LIMIT, 7, 7, 0]),
        Do(Create(b"a", 2), Done),
        Do(Write(b"a", 1, &[0x77]), Done),
        Do(Fail(0), Refused(Refusal::Worn)),
        Ended(Refusal::Worn),
        Shows(&[(b"a", &[0, 0x77])]),
    ];
    static AGAIN: &[Step] = &[
        Status([256, LIMIT, 7, 6, 1]),
        Slot(0, State::InSync, 1),
        Do(Read(b"a", 0, 2), Blocks(&[0, 0x77])),
    ];
    let mut store = begun(&rt, worn_image(&rt));
    check(&rt, &mut store, STEPS);
    check(&rt, &mut next_run(&rt, store.bank()), AGAIN);
}
