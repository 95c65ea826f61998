//! Crashes in the device calls of a step of 64 rows of a rebuild: the logical sectors stay.
use super::calls::{Asked, Call, check};
use super::crashes::{Logical, Wanted};
use super::steps::Put;
use crate::testing::{Slots, WITHOUT_0};

// Slot 0 with its second device, rebuilding: no row of it counts, or the first 64.
const TO_0: Slots = Slots {
    members: 3,
    odd: 0,
    state: 2,
    incarnation: 2,
    position: 0,
};

const TO_64: Slots = Slots {
    members: 3,
    odd: 0,
    state: 2,
    incarnation: 2,
    position: 64,
};

// A set with a new device in slot 0.
const NEW_MEMBER: &[Put] = &[Put::Table(2, WITHOUT_0), Put::Table(3, TO_0), Put::Rows];

const NOT_0: Wanted = Wanted {
    out: [true, false, false, false, false],
    logical: Logical::Rebuilt,
};

// The reads before each write are left out: they change nothing. The others of the set have the position before slot 0.
const STEP: &[Call] = &[
    Call::Rows,
    Call::Flush(0),
    Call::Table(1, 4, TO_64),
    Call::Table(2, 4, TO_64),
    Call::Table(3, 4, TO_64),
    Call::Table(4, 4, TO_64),
    Call::Flush(1),
    Call::Flush(2),
    Call::Flush(3),
    Call::Flush(4),
    Call::Table(0, 4, TO_64),
    Call::Flush(0),
];

const STEP_ASKS: &[Asked] = &[Asked::Calls(75), Asked::FirstBad(NOT_0, None)];

#[test]
fn rebuild_step_publishes_after_its_rows(rt: HostRuntime) {
    check(&rt, NEW_MEMBER, STEP, STEP_ASKS);
}

// The device of slot 0 is the one of the new table, which counts rows of it that were not written.
const POSITION_FIRST: &[Call] = &[
    Call::Table(1, 4, TO_64),
    Call::Table(2, 4, TO_64),
    Call::Table(3, 4, TO_64),
    Call::Table(4, 4, TO_64),
    Call::Flush(1),
    Call::Flush(2),
    Call::Flush(3),
    Call::Flush(4),
    Call::Table(0, 4, TO_64),
    Call::Flush(0),
    Call::Rows,
    Call::Flush(0),
];

const POSITION_FIRST_ASKS: &[Asked] = &[Asked::FirstBad(NOT_0, Some(1))];

#[test]
fn position_before_its_rows_fails(rt: HostRuntime) {
    check(&rt, NEW_MEMBER, POSITION_FIRST, POSITION_FIRST_ASKS);
}

// The position landed on slot 2, and not all of the rows.
const UNFLUSHED_ROWS: &[Call] = &[
    Call::Rows,
    Call::Table(1, 4, TO_64),
    Call::Table(2, 4, TO_64),
    Call::Table(3, 4, TO_64),
    Call::Table(4, 4, TO_64),
    Call::Flush(1),
    Call::Flush(2),
    Call::Flush(3),
    Call::Flush(4),
    Call::Table(0, 4, TO_64),
    Call::Flush(0),
];

const UNFLUSHED_ROWS_ASKS: &[Asked] = &[Asked::FirstBad(NOT_0, Some(66))];

#[test]
fn position_before_the_flush_of_its_rows_fails(rt: HostRuntime) {
    check(&rt, NEW_MEMBER, UNFLUSHED_ROWS, UNFLUSHED_ROWS_ASKS);
}
