//! Images of crashes, sector by sector.
use super::{EMPTY, played};
use crate::memory::{Image, MemBank};
use crate::testing::Step::{Flushes, NoFlush, NoWrite, Reads, Writes};
use crate::testing::{Step, play, same};
use crate::{Bank, Choice, Plan, Sector};
use std::process::Abort;

/// A choice, a number of calls, a slot, a sector of it, and the bytes of which the sector is full in the images of
/// that choice: after so many calls, after one more, and so on.
type Left = (Choice, u64, usize, usize, &'static [u8]);

fn image_after(
    rt: &(impl Abort + AllocGlobal),
    bank: &MemBank,
    call: u64,
    choice: Choice,
) -> Image {
    assert!(rt; call <= bank.now());
    bank.image_after(rt.alloc(), call, choice)
        .expect(rt, "memory")
}

/// What the image has in a sector: `None` where there is none.
fn sector_in(image: &Image, dev: usize, at: usize) -> Option<Sector> {
    match image.slots.get(dev) {
        Some(Some(disk)) => disk.get(at).copied(),
        _ => None,
    }
}

fn check_row(rt: &(impl Abort + AllocGlobal), bank: &MemBank, row: usize, left: Left) {
    let (choice, first, dev, at, want) = left;
    for k in 0..want.len() {
        let image = image_after(rt, bank, first.wrapping_add(k as u64), choice);
        let is_so = sector_in(&image, dev, at) == Some([want[k]; 512]);
        assert!(rt; is_so, "byte {k} of row {row}");
    }
}

/// The images that a crash may leave of a bank have in these sectors what is said.
fn check_left(rt: &(impl Abort + AllocGlobal), bank: &MemBank, rows: &[Left]) {
    for row in 0..rows.len() {
        check_row(rt, bank, row, rows[row]);
    }
}

#[test]
fn each_choice_takes_its_candidate_after_each_call(rt: HostRuntime) {
    const STEPS: &[Step] = &[
        Writes(0, 1, 10),
        Writes(0, 1, 11),
        Flushes(1),
        Writes(0, 1, 12),
        Flushes(0),
        Writes(0, 1, 13),
        Reads(0, 1, 13),
    ];
    const LEFT: &[Left] = &[
        (Choice::Oldest, 0, 0, 1, &[0, 0, 0, 0, 0, 12, 12, 12]),
        (Choice::Newest, 0, 0, 1, &[0, 10, 11, 11, 12, 12, 13, 13]),
        (Choice::Mixed(0), 0, 0, 1, &[0, 10, 10, 10, 10, 12, 13, 13]),
        (Choice::Mixed(5), 0, 0, 1, &[0, 0, 0, 0, 11, 12, 12, 12]),
        // 2^64 mod 3 is 1
        (
            Choice::Mixed(u64::MAX),
            0,
            0,
            1,
            &[0, 0, 10, 10, 0, 12, 12, 12],
        ),
        // the sectors beside it
        (Choice::Oldest, 0, 0, 0, &[0; 8]),
        (Choice::Newest, 0, 0, 0, &[0; 8]),
        (Choice::Mixed(0), 0, 0, 0, &[0; 8]),
        (Choice::Mixed(5), 0, 0, 0, &[0; 8]),
        (Choice::Mixed(u64::MAX), 0, 0, 0, &[0; 8]),
        (Choice::Oldest, 0, 1, 1, &[1; 8]),
        (Choice::Newest, 0, 1, 1, &[1; 8]),
        (Choice::Mixed(0), 0, 1, 1, &[1; 8]),
        (Choice::Mixed(5), 0, 1, 1, &[1; 8]),
        (Choice::Mixed(u64::MAX), 0, 1, 1, &[1; 8]),
    ];
    let bank = played(&rt, Plan::NONE, 10, 0, STEPS);
    check_left(&rt, &bank, LEFT)
}

/// What mixed choices leave of two writes to each of four sectors of two devices.
const MIXED: &[Left] = &[
    (Choice::Mixed(0), 16, 1, 0, &[80]),
    (Choice::Mixed(0), 16, 1, 1, &[81]),
    (Choice::Mixed(0), 16, 1, 2, &[1]),
    (Choice::Mixed(0), 16, 1, 3, &[80]),
    (Choice::Mixed(0), 16, 2, 0, &[81]),
    (Choice::Mixed(0), 16, 2, 1, &[2]),
    (Choice::Mixed(0), 16, 2, 2, &[80]),
    (Choice::Mixed(0), 16, 2, 3, &[81]),
    (Choice::Mixed(1), 16, 1, 0, &[81]),
    (Choice::Mixed(1), 16, 1, 1, &[1]),
    (Choice::Mixed(1), 16, 1, 2, &[80]),
    (Choice::Mixed(1), 16, 1, 3, &[81]),
    (Choice::Mixed(2), 16, 2, 0, &[80]),
    (Choice::Mixed(2), 16, 2, 1, &[81]),
    (Choice::Mixed(2), 16, 2, 2, &[2]),
    (Choice::Mixed(2), 16, 2, 3, &[80]),
];

#[test]
fn a_mixed_choice_differs_from_sector_to_sector(rt: HostRuntime) {
    const STEPS: &[Step] = &[
        Writes(1, 0, 80),
        Writes(1, 1, 80),
        Writes(1, 2, 80),
        Writes(1, 3, 80),
        Writes(1, 0, 81),
        Writes(1, 1, 81),
        Writes(1, 2, 81),
        Writes(1, 3, 81),
        Writes(2, 0, 80),
        Writes(2, 1, 80),
        Writes(2, 2, 80),
        Writes(2, 3, 80),
        Writes(2, 0, 81),
        Writes(2, 1, 81),
        Writes(2, 2, 81),
        Writes(2, 3, 81),
    ];
    let bank = played(&rt, Plan::NONE, 20, 0, STEPS);
    check_left(&rt, &bank, MIXED)
}

#[test]
fn a_write_at_which_the_device_goes_down_is_a_candidate(rt: HostRuntime) {
    const STEPS: &[Step] = &[
        Writes(2, 5, 8),
        NoWrite(2, 5, 9),
        NoWrite(2, 5, 10),
        NoFlush(2),
    ];
    const LEFT: &[Left] = &[
        (Choice::Oldest, 0, 2, 5, &[2; 5]),
        (Choice::Newest, 0, 2, 5, &[2, 8, 9, 9, 9]),
        (Choice::Mixed(0), 0, 2, 5, &[2, 8, 8, 8, 8]),
    ];
    let mut plan = Plan::NONE;
    plan.down[2] = Some(1);
    let bank = played(&rt, plan, 10, 0, STEPS);
    check_left(&rt, &bank, LEFT)
}

#[test]
fn a_write_that_finds_the_log_full_is_no_candidate(rt: HostRuntime) {
    const STEPS: &[Step] = &[
        Writes(0, 0, 8),
        Flushes(1),
        NoWrite(0, 0, 9),
        NoWrite(4, 7, 9),
    ];
    const LEFT: &[Left] = &[
        (Choice::Newest, 0, 0, 0, &[0, 8, 8, 8, 8]),
        (Choice::Newest, 0, 4, 7, &[4; 5]),
    ];
    let bank = played(&rt, Plan::NONE, 2, 0, STEPS);
    check_left(&rt, &bank, LEFT)
}

/// How many sectors the slot has, where it has a device.
fn len_of(image: &Image, slot: usize) -> Option<usize> {
    image.slots.get(slot)?.as_ref().map(|disk| disk.len())
}

#[test]
fn an_image_has_the_devices_that_the_bank_began_with(rt: HostRuntime) {
    const STEPS: &[Step] = &[NoWrite(4, 0, 9), NoWrite(EMPTY, 0, 9)];
    const LENGTHS: [Option<usize>; 5] = [Some(4), Some(5), Some(6), None, Some(8)];
    let mut plan = Plan::NONE;
    plan.down[4] = Some(0);
    let bank = played(&rt, plan, 10, 0, STEPS);
    for choice in [Choice::Oldest, Choice::Newest, Choice::Mixed(3)] {
        let image = image_after(&rt, &bank, 2, choice);
        same(&rt, image.slots.len(), 5);
        for slot in 0..5 {
            same(&rt, len_of(&image, slot), LENGTHS[slot]);
        }
    }
}

#[test]
fn a_bank_goes_on_from_an_image(rt: HostRuntime) {
    const STEPS: &[Step] = &[Writes(1, 3, 20), Flushes(1), Writes(1, 3, 21)];
    let mut bank = played(&rt, Plan::NONE, 10, 0, STEPS);
    let image = image_after(&rt, &bank, 3, Choice::Oldest);
    assert!(rt; image.slots.len() == 5);
    let mut again = MemBank::new(rt.alloc(), image, Plan::NONE, 10).expect(&rt, "memory");
    play(&rt, &mut again, 1, &[Reads(1, 3, 20)]);
    play(&rt, &mut bank, 2, &[Reads(1, 3, 21)]);
    check_left(&rt, &again, &[(Choice::Newest, 0, 1, 3, &[20, 20])])
}
