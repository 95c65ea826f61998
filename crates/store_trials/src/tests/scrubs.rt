//! Scrubs of the set under a store: set A of 3 members. The tests of the crate `scrub` have rows that are bad, and
//! members that fail.
use super::Answer::{Done, Refused, Scrubbed};
use super::Call::{Create, Fail, Scrub, ScrubRows, Write};
use super::Step::{Apply, Do, Makes};
use super::calls::MEMBERS;
use super::every_call::{begun, fresh_image};
use super::{Answer, SET_A, Step, check, fresh_store};
use crate::testing::same;
use array_io::Array;
use scrub::{ScrubReport, scrub};
use sector_model::{Bank, Image, MemBank, Refusal};
use std::process::Abort;

// One entry of 32 blocks in 16 rows, and one of a block.
const WRITTEN: &[Step] = &[
    Do(Create(b"a", 64), Done),
    Do(Write(b"a", 0, &[0x11; 32]), Done),
    Do(Write(b"a", 3, &[0x22]), Done),
];

// Scrubs a set, and asks for the answer, for how many calls it made, and for how many of them were writes or flushes.
fn check_scrub(
    rt: &impl Abort,
    array: &mut Array<MemBank>,
    want: Result<ScrubReport, Refusal>,
    made: [u64; 2],
) {
    let before = (array.bank.now(), array.bank.room);
    same(rt, scrub(array), want);
    let calls = array.bank.now().saturating_sub(before.0);
    let writes = before.1.saturating_sub(array.bank.room) as u64;
    same(rt, [calls, writes], made);
}

// 256 rows of each member.
const READS: [u64; 2] = [256 * MEMBERS, 0];

#[test]
fn written_rows_are_sound(rt: HostRuntime) {
    let mut store = fresh_store(&rt, SET_A);
    check(&rt, &mut store, WRITTEN);
    let sound = ScrubReport {
        rows: 256,
        bad: 0,
        first_bad: None,
    };
    check_scrub(&rt, &mut store.array, Ok(sound), READS);
}

// A set that lacks a slot is refused at once.
#[test]
fn set_without_a_slot(rt: HostRuntime) {
    let mut store = fresh_store(&rt, SET_A);
    check(&rt, &mut store, &[Do(Fail(0), Done)]);
    check_scrub(&rt, &mut store.array, Err(Refusal::Incomplete), [0, 0]);
}

// The first byte of a member's own sector in a row is another.
fn turn(rt: &impl Abort, image: &mut Image, member: usize, row: usize) {
    assert!(rt; member < image.slots.len() && row < 256);
    if let Some(device) = &mut image.slots[member] {
        assert!(rt; row + 8 < device.len());
        device[row + 8][0] ^= 1;
    }
}

// Of 256 rows rows 40, 200 and 255 are bad. All of them, three parts that meet, and the rows between two bad ones.
const WHOLE: ScrubReport = ScrubReport {
    rows: 256,
    bad: 3,
    first_bad: Some(40),
};

const FRONT: ScrubReport = ScrubReport {
    rows: 100,
    bad: 1,
    first_bad: Some(40),
};

const MIDDLE: ScrubReport = ScrubReport {
    rows: 100,
    bad: 0,
    first_bad: None,
};

const BACK: ScrubReport = ScrubReport {
    rows: 56,
    bad: 2,
    first_bad: Some(200),
};

const BETWEEN: ScrubReport = ScrubReport {
    rows: 159,
    bad: 0,
    first_bad: None,
};

// The last six rows, and none.
const LAST: ScrubReport = ScrubReport {
    rows: 6,
    bad: 1,
    first_bad: Some(255),
};

const NO_ROW: ScrubReport = ScrubReport {
    rows: 0,
    bad: 0,
    first_bad: None,
};

// Parts that meet find each bad row once, by its number in the set.
#[test]
fn set_in_parts(rt: HostRuntime) {
    static STEPS: [Step; 8] = [
        Makes(ScrubRows(0, 100), Scrubbed(FRONT), [300, 0, 0]),
        Makes(ScrubRows(100, 100), Scrubbed(MIDDLE), [300, 0, 0]),
        Apply(ScrubRows(200, 56), Scrubbed(BACK)),
        Makes(ScrubRows(250, 10), Scrubbed(LAST), [18, 0, 0]),
        Makes(ScrubRows(256, 1), Scrubbed(NO_ROW), [0, 0, 0]),
        Do(ScrubRows(0, u64::MAX), Scrubbed(WHOLE)),
        Do(Scrub, Scrubbed(WHOLE)),
        Apply(ScrubRows(41, 159), Scrubbed(BETWEEN)),
    ];
    let mut image = fresh_image(&rt);
    turn(&rt, &mut image, 0, 40);
    turn(&rt, &mut image, 2, 200);
    turn(&rt, &mut image, 1, 255);
    check(&rt, &mut begun(&rt, image), &STEPS);
}

// A part of a set that lacks a slot is refused at once, also one that has no row.
#[test]
fn part_of_a_set_without_a_slot(rt: HostRuntime) {
    const REFUSED: Answer = Refused(Refusal::Incomplete);
    static STEPS: [Step; 4] = [
        Do(Fail(1), Done),
        Makes(ScrubRows(0, 8), REFUSED, [0, 0, 0]),
        Apply(ScrubRows(0, 8), REFUSED),
        Makes(ScrubRows(300, 0), REFUSED, [0, 0, 0]),
    ];
    check(&rt, &mut fresh_store(&rt, SET_A), &STEPS);
}
