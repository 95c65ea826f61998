use super::{Image, MemBank};
use crate::testing::Step::{Flushes, NoFlush, NoRead, NoWrite, Now, Reads, Shows, Writes};
use crate::testing::{Step, image_of, play, same};
use crate::{Bank, Plan, Refusal};
use std::process::Abort;

mod after_crash;

/// The slot without a device.
const EMPTY: u8 = 3;

/// Five slots, one of them empty. Each other has 4 sectors more than its number, all full of its number.
const SMALL: &[&[u8]] = &[&[0; 4], &[1; 5], &[2; 6], &[], &[4; 8]];

/// A bank of the small image, once these steps are made. `row` is their number in the test.
fn played(
    rt: &(impl Abort + AllocGlobal),
    plan: Plan,
    room: usize,
    row: u64,
    steps: &[Step],
) -> MemBank {
    let image = image_of(rt, SMALL);
    let mut bank = MemBank::new(rt.alloc(), image, plan, room).expect(rt, "memory");
    assert!(rt; bank.devices() == 5);
    play(rt, &mut bank, row, steps);
    bank
}

#[test]
fn a_new_bank_shows_its_slots(rt: HostRuntime) {
    const STEPS: &[Step] = &[
        Shows(0, 4, false),
        Shows(1, 5, false),
        Shows(2, 6, false),
        Shows(EMPTY, 0, true),
        Shows(4, 8, false),
        Now(0),
    ];
    let _ = played(&rt, Plan::NONE, 0, 0, STEPS);
}

#[test]
fn a_bank_for_which_there_is_no_memory_is_refused(rt: HostRuntime) {
    let image = image_of(&rt, SMALL);
    let bank = MemBank::new(rt.alloc(), image, Plan::NONE, usize::MAX);
    same(&rt, bank.err(), Some(Refusal::Memory));
}

#[test]
fn a_sector_holds_what_was_written(rt: HostRuntime) {
    const STEPS: &[Step] = &[
        Writes(4, 2, 0xa5),
        Writes(4, 7, 0x5a),
        Flushes(4),
        Reads(4, 2, 0xa5),
        Reads(4, 7, 0x5a),
        Reads(4, 1, 4),
        Reads(4, 3, 4),
        Reads(2, 2, 2),
        Reads(0, 0, 0),
        Now(9),
    ];
    let _ = played(&rt, Plan::NONE, 10, 0, STEPS);
}

#[test]
fn a_device_goes_down_at_its_first_call_from_its_moment_on(rt: HostRuntime) {
    const STEPS: &[Step] = &[
        Reads(1, 0, 1),
        Reads(0, 0, 0),
        Reads(0, 0, 0),
        Reads(0, 0, 0),
        Shows(1, 5, false),
        NoWrite(1, 0, 9),
        Shows(1, 5, true),
        NoRead(1, 0),
        NoFlush(1),
        Writes(0, 3, 9),
        Flushes(0),
        Writes(2, 3, 9),
        Flushes(2),
        Writes(4, 3, 9),
        Flushes(4),
        Now(13),
    ];
    let mut plan = Plan::NONE;
    plan.down[1] = Some(2);
    let _ = played(&rt, plan, 10, 0, STEPS);
}

#[test]
fn calls_are_numbered_from_0(rt: HostRuntime) {
    const GOOD: Step = Reads(2, 5, 2);
    const BAD: Step = NoRead(2, 5);
    // In row r the device is down from call r on.
    const ROWS: [[Step; 5]; 4] = [
        [BAD, BAD, BAD, BAD, BAD],
        [GOOD, BAD, BAD, BAD, BAD],
        [GOOD, GOOD, BAD, BAD, BAD],
        [GOOD, GOOD, GOOD, BAD, BAD],
    ];
    for first in 0..4 {
        let mut plan = Plan::NONE;
        plan.down[2] = Some(first);
        let mut bank = played(&rt, plan, 10, first, &[]);
        for call in 0..5 {
            let steps = [Now(call), ROWS[first as usize][call as usize]];
            play(&rt, &mut bank, first, &steps);
        }
    }
}

#[test]
fn a_crash_takes_each_device_down_at_its_next_call(rt: HostRuntime) {
    const STEPS: &[Step] = &[
        Writes(0, 0, 9),
        Flushes(0),
        NoWrite(0, 1, 9),
        NoFlush(1),
        NoRead(2, 0),
        Shows(4, 8, false),
        NoRead(4, 0),
        Shows(0, 4, true),
        Shows(1, 5, true),
        Shows(2, 6, true),
        Shows(EMPTY, 0, true),
        Shows(4, 8, true),
    ];
    let plan = Plan {
        stop: Some(2),
        ..Plan::NONE
    };
    let _ = played(&rt, plan, 10, 0, STEPS);
}

#[test]
fn a_full_log_takes_the_device_that_writes_down(rt: HostRuntime) {
    const FILLING: &[Step] = &[Writes(0, 0, 8), Reads(0, 0, 8), Writes(0, 1, 9)];
    const FULL: &[Step] = &[
        NoWrite(0, 2, 10),
        Shows(0, 4, true),
        Reads(1, 0, 1),
        NoFlush(1),
        Reads(2, 0, 2),
    ];
    let mut bank = played(&rt, Plan::NONE, 2, 0, FILLING);
    same(&rt, bank.room, 0);
    play(&rt, &mut bank, 1, FULL);
}

#[test]
fn a_slot_without_a_device_is_down_and_its_calls_count(rt: HostRuntime) {
    const STEPS: &[Step] = &[
        NoRead(EMPTY, 0),
        NoWrite(EMPTY, 0, 1),
        NoFlush(EMPTY),
        Now(3),
    ];
    let bank = played(&rt, Plan::NONE, 10, 0, STEPS);
    same(&rt, bank.room, 10);
}
