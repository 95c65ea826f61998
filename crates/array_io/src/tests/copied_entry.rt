//! Crashes in the device calls that bring an entry from one journal to the other and then to the members, as after a
//! crash between two seals.
use super::calls::{Asked, Call, check};
use super::commit::{ALL_NEW, EITHER};
use super::crashes::{Logical, Wanted};
use super::steps::Put;
use crate::testing::WITHOUT_0;

// A set with two entries, in which the entry of the new row stands on slot 3 alone, body and seal.
const ON_ONE: &[Put] = &[
    Put::Entry(1, 32, [0x05, 0x14, 0x11, 0]),
    Put::Entry(2, 33, [0, 0x77, 0x77, 0]),
    Put::Body(3, 3, [0x05, 0x27, 0x22, 0]),
    Put::Seal(3, 3, 32),
];

// The logical sectors are the new ones, where any slot but slot 3 may be out, slot 3 alone, or slot 0 alone.
const BUT_3: Wanted = Wanted {
    out: [true, true, true, false, true],
    logical: Logical::New,
};

const NOT_3: Wanted = Wanted {
    out: [false, false, false, true, false],
    logical: Logical::New,
};

const NOT_0: Wanted = Wanted {
    out: [true, false, false, false, false],
    logical: Logical::New,
};

// Until the copy is sealed, slot 3 alone has the entry: without it the old row shows.
const COPY: &[Call] = &[
    Call::Body(4),
    Call::Flush(4),
    Call::Seal(4),
    Call::Flush(4),
    Call::Row(0, 0x05),
    Call::Row(1, 0x27),
    Call::Row(2, 0x22),
    Call::Flush(0),
    Call::Flush(1),
    Call::Flush(2),
];

const COPY_ASKS: &[Asked] = &[
    Asked::Calls(12),
    Asked::FirstBad(BUT_3, None),
    Asked::FirstBad(EITHER, None),
    Asked::Stop(5, NOT_3, false),
    Asked::Stop(6, ALL_NEW, true),
    Asked::Stop(7, ALL_NEW, true),
    Asked::Stop(8, ALL_NEW, true),
    Asked::Stop(9, ALL_NEW, true),
    Asked::Stop(10, ALL_NEW, true),
    Asked::Stop(11, ALL_NEW, true),
    Asked::Stop(12, ALL_NEW, true),
    Asked::Members(ALL_NEW, true),
];

#[test]
fn copied_entry_is_last_at_each_crash(rt: HostRuntime) {
    check(&rt, ON_ONE, COPY, COPY_ASKS);
}

// What slot 0 has counts for nothing, and so does its own sector of the row.
const ON_ONE_WITHOUT_0: &[Put] = &[
    Put::Entry(1, 32, [0x05, 0x14, 0x11, 0]),
    Put::Entry(2, 33, [0, 0x77, 0x77, 0]),
    Put::Body(3, 3, [0x05, 0x27, 0x22, 0]),
    Put::Seal(3, 3, 32),
    Put::Table(2, WITHOUT_0),
    Put::Full(0, 40, 0xee),
];

const COPY_WITHOUT_0: &[Call] = &[
    Call::Body(4),
    Call::Flush(4),
    Call::Seal(4),
    Call::Flush(4),
    Call::Row(1, 0x27),
    Call::Row(2, 0x22),
    Call::Flush(1),
    Call::Flush(2),
];

const COPY_WITHOUT_0_ASKS: &[Asked] = &[Asked::FirstBad(NOT_0, None), Asked::Members(NOT_0, true)];

#[test]
fn copied_entry_is_last_without_a_member(rt: HostRuntime) {
    check(&rt, ON_ONE_WITHOUT_0, COPY_WITHOUT_0, COPY_WITHOUT_0_ASKS);
}

// The parity is written, the data is not, and slot 3 has the only seal.
const REPLAY_FIRST: &[Call] = &[
    Call::Row(0, 0x05),
    Call::Row(1, 0x27),
    Call::Row(2, 0x22),
    Call::Flush(0),
    Call::Flush(1),
    Call::Flush(2),
    Call::Body(4),
    Call::Flush(4),
    Call::Seal(4),
    Call::Flush(4),
];

const REPLAY_FIRST_ASKS: &[Asked] = &[Asked::FirstBad(EITHER, Some(2))];

#[test]
fn replay_before_the_copy_fails(rt: HostRuntime) {
    check(&rt, ON_ONE, REPLAY_FIRST, REPLAY_FIRST_ASKS);
}
