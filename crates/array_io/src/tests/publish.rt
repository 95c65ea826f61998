//! Crashes in the device calls that publish a table: each case chooses the old table, or the new one.
use super::calls::{Asked, Call, check};
use super::commit::USED;
use super::crashes::{Logical, Wanted};
use super::steps::Put;
use crate::testing::{Slots, WHOLE, WITHOUT_2, WITHOUT_4};
use sector_model::Choice;

// Slot 4 is lost, or slot 2. In each image it has what it had, and in the weakened one nothing.
const NOT_4: Wanted = Wanted {
    out: [false, false, false, false, true],
    logical: Logical::Old,
};

const NOT_2: Wanted = Wanted {
    out: [false, false, true, false, false],
    logical: Logical::Old,
};

// The table of generation 1 is the old one, and that of generation 2 the new one.
const PUBLISH: &[Call] = &[
    Call::Table(0, 2, WITHOUT_4),
    Call::Table(1, 2, WITHOUT_4),
    Call::Table(2, 2, WITHOUT_4),
    Call::Table(3, 2, WITHOUT_4),
    Call::Flush(0),
    Call::Flush(1),
    Call::Flush(2),
    Call::Flush(3),
];

const PUBLISH_ASKS: &[Asked] = &[
    Asked::Calls(8),
    Asked::FirstBad(NOT_4, None),
    Asked::Table(0, Choice::Oldest, 1, WHOLE),
    Asked::Table(0, Choice::Newest, 1, WHOLE),
    Asked::Table(1, Choice::Oldest, 1, WHOLE),
    Asked::Table(1, Choice::Newest, 2, WITHOUT_4),
    Asked::Table(4, Choice::Oldest, 1, WHOLE),
    Asked::Table(4, Choice::Newest, 2, WITHOUT_4),
    Asked::Table(5, Choice::Oldest, 2, WITHOUT_4),
    Asked::Table(5, Choice::Newest, 2, WITHOUT_4),
    Asked::Table(8, Choice::Oldest, 2, WITHOUT_4),
    Asked::Table(8, Choice::Newest, 2, WITHOUT_4),
];

#[test]
fn publish_chooses_one_table_at_each_crash(rt: HostRuntime) {
    check(&rt, USED, PUBLISH, PUBLISH_ASKS);
}

// The set lacks slot 2, whose device is a blank one.
const BLANK_MEMBER: &[Put] = &[
    Put::Entry(1, 32, [0x05, 0x14, 0x11, 0]),
    Put::Entry(2, 33, [0, 0x77, 0x77, 0]),
    Put::Table(2, WITHOUT_2),
    Put::Blank(2),
];

// By this table it joins.
const JOINED: Slots = Slots {
    members: 3,
    odd: 2,
    state: 2,
    incarnation: 2,
    position: 0,
};

const JOINING: &[Call] = &[
    Call::Table(0, 3, JOINED),
    Call::Table(1, 3, JOINED),
    Call::Table(3, 3, JOINED),
    Call::Table(4, 3, JOINED),
    Call::Flush(0),
    Call::Flush(1),
    Call::Flush(3),
    Call::Flush(4),
    Call::Table(2, 3, JOINED),
    Call::Flush(2),
];

const JOINING_ASKS: &[Asked] = &[
    Asked::FirstBad(NOT_2, None),
    Asked::Calls(10),
    Asked::Table(10, Choice::Oldest, 3, JOINED),
];

#[test]
fn publish_of_a_joining_member_chooses_one_table(rt: HostRuntime) {
    check(&rt, BLANK_MEMBER, JOINING, JOINING_ASKS);
}

// With slot 2 there the new table is chosen, and without it the old one.
const JOINING_FIRST: &[Call] = &[
    Call::Table(2, 3, JOINED),
    Call::Flush(2),
    Call::Table(0, 3, JOINED),
    Call::Table(1, 3, JOINED),
    Call::Table(3, 3, JOINED),
    Call::Table(4, 3, JOINED),
    Call::Flush(0),
    Call::Flush(1),
    Call::Flush(3),
    Call::Flush(4),
];

const JOINING_FIRST_ASKS: &[Asked] = &[
    Asked::FirstBad(NOT_2, Some(1)),
    Asked::Table(1, Choice::Newest, 3, JOINED),
    Asked::TableWithout2(1, Choice::Newest, 2, WITHOUT_2),
];

#[test]
fn publish_to_the_joining_member_first_fails(rt: HostRuntime) {
    check(&rt, BLANK_MEMBER, JOINING_FIRST, JOINING_FIRST_ASKS);
}
