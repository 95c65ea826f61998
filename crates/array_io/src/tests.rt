//! Images of a crash, made by hand: what they say of the logical sectors, by the definitions.
use super::*;
use crate::testing::{Slots, WHOLE, WITHOUT_2};

mod batches;
mod calls;
mod commit;
mod copied_entry;
mod crashes;
mod publish;
mod rebuild_step;
mod steps;

use steps::{Ask, Put, Step, run};

const FRESH: &[Step] = &[
    Step::Ask(Ask::Table(1, WHOLE)),
    Step::Ask(Ask::Reading([true, true, true, false, false, false, false, false])),
    Step::Ask(Ask::Sound),
    Step::Ask(Ask::Logical(0, 0)),
    Step::Ask(Ask::Logical(63, 0)),
    Step::Ask(Ask::Logical(64, 0)),
    Step::Ask(Ask::Logical(511, 0)),
    Step::Put(Put::Gone(1)),
    Step::Ask(Ask::Logical(64, 0)),
];

#[test]
fn a_fresh_set_is_zero(rt: HostRuntime) {
    run(&rt, FRESH);
}

// Entry 3 is on both journals, and entry 4 with its body, but on slot 3 alone with its seal.
const BETWEEN_SEALS: &[Step] = &[
    Step::Put(Put::Entry(3, 32, [0, 0x11, 0x11, 0])),
    Step::Put(Put::Body(3, 4, [0, 0x22, 0x22, 0])),
    Step::Put(Put::Body(4, 4, [0, 0x22, 0x22, 0])),
    Step::Put(Put::Seal(3, 4, 32)),
    Step::Ask(Ask::Logical(64, 0x22)),
    Step::Ask(Ask::Sound),
    Step::Put(Put::Gone(3)),
    Step::Ask(Ask::Logical(64, 0x11)),
    Step::Ask(Ask::Sound),
];

#[test]
fn stop_between_seals(rt: HostRuntime) {
    run(&rt, BETWEEN_SEALS);
}

// The parity of row 32 is that of entry 4, and the data is not; row 33 stands beside it. Then the member with the
// parity is lost, or the one with the data.
const WITHOUT_PARITY: &[Step] = &[
    Step::Put(Put::Row(32, [0, 0x22, 0x11, 0])),
    Step::Put(Put::Row(33, [0, 0x77, 0x77, 0])),
    Step::Put(Put::Body(3, 4, [0, 0x22, 0x22, 0])),
    Step::Put(Put::Body(4, 4, [0, 0x22, 0x22, 0])),
    Step::Put(Put::Seal(3, 4, 32)),
    Step::Put(Put::Seal(4, 4, 32)),
    Step::Ask(Ask::Sound),
    Step::Put(Put::Gone(1)),
    Step::Ask(Ask::Logical(64, 0x22)),
    Step::Ask(Ask::Logical(65, 0x77)),
    Step::Ask(Ask::Sound),
];

const WITHOUT_DATA: &[Step] = &[
    Step::Put(Put::Row(32, [0, 0x22, 0x11, 0])),
    Step::Put(Put::Row(33, [0, 0x77, 0x77, 0])),
    Step::Put(Put::Body(3, 4, [0, 0x22, 0x22, 0])),
    Step::Put(Put::Body(4, 4, [0, 0x22, 0x22, 0])),
    Step::Put(Put::Seal(3, 4, 32)),
    Step::Put(Put::Seal(4, 4, 32)),
    Step::Ask(Ask::Sound),
    Step::Put(Put::Gone(2)),
    Step::Ask(Ask::Logical(64, 0x22)),
    Step::Ask(Ask::Logical(65, 0x77)),
    Step::Ask(Ask::Sound),
];

#[test]
fn stop_after_first_member_write(rt: HostRuntime) {
    run(&rt, WITHOUT_PARITY);
    run(&rt, WITHOUT_DATA);
}

// Entry 4 holds of row 32 the parity, on member 1, and member 2's sector, and no third one. Then member 0 is lost,
// whose own sector counts there, or member 2, whose value the entry has.
const HELD_WITHOUT_0: &[Step] = &[
    Step::Put(Put::Row(32, [0x05, 0x14, 0x11, 0])),
    Step::Put(Put::Body(3, 4, [0x27, 0x22, 0xee, 0])),
    Step::Put(Put::Body(4, 4, [0x27, 0x22, 0xee, 0])),
    Step::Put(Put::Held(4, 32, 0x06)),
    Step::Ask(Ask::Logical(72, 0x05)),
    Step::Ask(Ask::Logical(64, 0x22)),
    Step::Ask(Ask::Sound),
    Step::Put(Put::Gone(0)),
    Step::Ask(Ask::Logical(72, 0x05)),
    Step::Ask(Ask::Logical(64, 0x22)),
    Step::Ask(Ask::Sound),
];

const HELD_WITHOUT_2: &[Step] = &[
    Step::Put(Put::Row(32, [0x05, 0x14, 0x11, 0])),
    Step::Put(Put::Body(3, 4, [0x27, 0x22, 0xee, 0])),
    Step::Put(Put::Body(4, 4, [0x27, 0x22, 0xee, 0])),
    Step::Put(Put::Held(4, 32, 0x06)),
    Step::Put(Put::Gone(2)),
    Step::Ask(Ask::Logical(72, 0x05)),
    Step::Ask(Ask::Logical(64, 0x22)),
    Step::Ask(Ask::Sound),
];

// The member with the parity is lost, whose value the entry has.
const HELD_WITHOUT_1: &[Step] = &[
    Step::Put(Put::Row(32, [0x05, 0x14, 0x11, 0])),
    Step::Put(Put::Body(3, 4, [0x27, 0x22, 0xee, 0])),
    Step::Put(Put::Body(4, 4, [0x27, 0x22, 0xee, 0])),
    Step::Put(Put::Held(4, 32, 0x06)),
    Step::Put(Put::Gone(1)),
    Step::Ask(Ask::Logical(72, 0x05)),
    Step::Ask(Ask::Logical(64, 0x22)),
    Step::Ask(Ask::Sound),
];

#[test]
fn an_entry_that_holds_two_sectors(rt: HostRuntime) {
    run(&rt, HELD_WITHOUT_0);
    run(&rt, HELD_WITHOUT_1);
    run(&rt, HELD_WITHOUT_2);
}

// Entry 3 holds the whole row; entry 4, of two sectors, has its seal on slot 4 alone, which is lost then.
const WHOLE_AND_HELD: &[Step] = &[
    Step::Put(Put::Entry(3, 32, [0x05, 0x14, 0x11, 0])),
    Step::Put(Put::Body(3, 4, [0x27, 0x22, 0xee, 0])),
    Step::Put(Put::Body(4, 4, [0x27, 0x22, 0xee, 0])),
    Step::Put(Put::HeldOn(4, 4, 32, 0x06)),
    Step::Ask(Ask::Logical(72, 0x05)),
    Step::Ask(Ask::Logical(64, 0x22)),
    Step::Ask(Ask::Sound),
    Step::Put(Put::Gone(4)),
    Step::Ask(Ask::Logical(72, 0x05)),
    Step::Ask(Ask::Logical(64, 0x11)),
    Step::Ask(Ask::Sound),
];

#[test]
fn a_whole_and_a_held_entry(rt: HostRuntime) {
    run(&rt, WHOLE_AND_HELD);
}

// Slot 2 has its second device, which is rebuilding.
const REBUILDING: Slots = Slots {
    members: 3,
    odd: 2,
    state: 2,
    incarnation: 2,
    position: 64,
};

// Row 40 has logical 80 on member 1 and 88 on member 2; row 200 has 408 on member 0 and 400 on member 2.
const TO_64: &[Step] = &[
    Step::Put(Put::Table(3, REBUILDING)),
    Step::Put(Put::Row(40, [0x11, 0x44, 0x55, 0])),
    Step::Put(Put::Row(200, [0x66, 0x33, 0xff, 0])),
    Step::Ask(Ask::Table(3, REBUILDING)),
    Step::Ask(Ask::Trusted(63, 2, true)),
    Step::Ask(Ask::Trusted(64, 2, false)),
    Step::Ask(Ask::Logical(80, 0x44)),
    Step::Ask(Ask::Logical(88, 0x55)),
    Step::Ask(Ask::Logical(400, 0x55)),
    Step::Ask(Ask::Logical(408, 0x66)),
    Step::Ask(Ask::Sound),
];

#[test]
fn a_member_rebuilding_at_64(rt: HostRuntime) {
    run(&rt, TO_64);
}

// Entry 4 holds of row 40 the parity, on member 0, and member 1's sector: the rebuilding member's own sector counts
// there.
const HELD_BELOW_64: &[Step] = &[
    Step::Put(Put::Table(3, REBUILDING)),
    Step::Put(Put::Row(40, [0x11, 0x44, 0x55, 0])),
    Step::Put(Put::Body(3, 4, [0x77, 0x22, 0xee, 0])),
    Step::Put(Put::Body(4, 4, [0x77, 0x22, 0xee, 0])),
    Step::Put(Put::Held(4, 40, 0x03)),
    Step::Ask(Ask::Logical(80, 0x22)),
    Step::Ask(Ask::Logical(88, 0x55)),
    Step::Ask(Ask::Sound),
];

// It holds of row 200 member 0's sector and the parity, on member 1: the rebuilding member has their XOR.
const HELD_FROM_64: &[Step] = &[
    Step::Put(Put::Table(3, REBUILDING)),
    Step::Put(Put::Row(200, [0x66, 0x33, 0xff, 0])),
    Step::Put(Put::Body(3, 4, [0x10, 0x45, 0xee, 0])),
    Step::Put(Put::Body(4, 4, [0x10, 0x45, 0xee, 0])),
    Step::Put(Put::Held(4, 200, 0x03)),
    Step::Ask(Ask::Logical(408, 0x10)),
    Step::Ask(Ask::Logical(400, 0x55)),
    Step::Ask(Ask::Sound),
];

// It holds of row 200 the parity and the rebuilding member's sector.
const HELD_OF_THE_REBUILDING: &[Step] = &[
    Step::Put(Put::Table(3, REBUILDING)),
    Step::Put(Put::Row(200, [0x66, 0x33, 0x01, 0])),
    Step::Put(Put::Body(3, 4, [0xff, 0x99, 0xee, 0])),
    Step::Put(Put::Body(4, 4, [0xff, 0x99, 0xee, 0])),
    Step::Put(Put::Held(4, 200, 0x06)),
    Step::Ask(Ask::Logical(408, 0x66)),
    Step::Ask(Ask::Logical(400, 0x99)),
    Step::Ask(Ask::Sound),
];

#[test]
fn an_entry_over_a_rebuilding_member(rt: HostRuntime) {
    run(&rt, HELD_BELOW_64);
    run(&rt, HELD_FROM_64);
    run(&rt, HELD_OF_THE_REBUILDING);
}

const OLD_DEVICE: &[Step] = &[
    Step::Put(Put::Table(2, WITHOUT_2)),
    Step::Put(Put::Row(32, [0, 0x99, 0x66, 0])),
    Step::Ask(Ask::Table(2, WITHOUT_2)),
    Step::Ask(Ask::Trusted(32, 2, false)),
    Step::Ask(Ask::Reading([true, true, false, false, false, false, false, false])),
    Step::Ask(Ask::Logical(64, 0x99)),
];

#[test]
fn an_old_device_back(rt: HostRuntime) {
    run(&rt, OLD_DEVICE);
}

const PARITY_ALONE: &[Step] = &[
    Step::Put(Put::Row(32, [0, 0x22, 0x11, 0])),
    Step::Ask(Ask::Unsound(32)),
];

#[test]
fn an_unsound_row(rt: HostRuntime) {
    run(&rt, PARITY_ALONE);
}
