//! Readers and writers that fail, and devices that go down.
use super::{Part, cut, ends, first, joined, made, serves, since, with_volume};
use crate::testing::streams::WHOLE;
use crate::testing::{fail_at, same};
use sector_model::{Bank, Refusal};
use std::process::Abort;

// 12 + 512 + 11 + 5 bytes.
const INPUT: &[Part] = &[
    (b"write v 3 1\n", 1),
    (b"a", 512),
    (b"read v 3 1\nlist\n", 1),
];

// 3 + 9 + 512 + 15 bytes.
const TEXT: &[Part] = &[
    (b"ok\nblocks 1\n", 1),
    (b"a", 512),
    (b"volumes 1\nv 64\n", 1),
];

// Serves the input, cut off by its reader or its writer, and asks for what is written: so many bytes of the text.
// Then it asks what block 3 is.
fn breaks_off(
    rt: &(impl Abort + AllocGlobal),
    fails: (usize, usize),
    end: Refusal,
    left: usize,
    written: usize,
    byte: &'static [u8],
) {
    let mut store = with_volume(rt);
    let input = joined(rt, INPUT);
    let text = joined(rt, TEXT);
    let text = first(rt, &text, written);
    cut(rt, &mut store, &input, fails, Err(end), left, text);
    serves(
        rt,
        &mut store,
        &[(b"read v 3 1\n", 1)],
        &[(b"blocks 1\n", 1), (byte, 512)],
    );
}

// Where a reader fails: how many bytes are written, and what block 3 is then. The three lines end at the bytes 524, 535
// and 540.
#[test]
fn a_reader_that_fails(rt: HostRuntime) {
    for read in [0usize, 1, 11, 12, 13, 523] {
        let left = 540usize.saturating_sub(read);
        breaks_off(&rt, (read, WHOLE), Refusal::ReadFault, left, 0, b"\0");
    }
    for (read, written) in [(524usize, 3), (534, 3), (535, 524), (539, 524), (540, 539)] {
        let left = 540usize.saturating_sub(read);
        breaks_off(&rt, (read, WHOLE), Refusal::ReadFault, left, written, b"a");
    }
}

// Where a writer fails: how many bytes of the input are left. The command whose reply broke off was done, and no later
// one is read.
#[test]
fn a_writer_that_fails(rt: HostRuntime) {
    for (room, left) in [
        (0, 16),
        (1, 16),
        (2, 16),
        (3, 5),
        (11, 5),
        (12, 5),
        (523, 5),
        (524, 0),
        (534, 0),
        (538, 0),
    ] {
        breaks_off(&rt, (WHOLE, room), Refusal::WriteFault, left, room, b"a");
    }
}

const TWO: &[Part] = &[
    (b"together 2\nwrite v 0 1\n", 1),
    (b"a", 512),
    (b"write v 1 1\n", 1),
    (b"b", 512),
    (b"list\n", 1),
];

const ARE_TWO: &[Part] = &[(b"blocks 2\n", 1), (b"a", 512), (b"b", 512)];

// The writer fails after so many bytes. Both were done as one, before the first reply.
fn breaks_off_in_replies(rt: &(impl Abort + AllocGlobal), room: usize) {
    let mut store = with_volume(rt);
    let input = joined(rt, TWO);
    let text = first(rt, b"ok\nok\n", room);
    let end = Err(Refusal::WriteFault);
    cut(rt, &mut store, &input, (WHOLE, room), end, 5, text);
    serves(rt, &mut store, &[(b"read v 0 2\n", 1)], ARE_TWO);
}

#[test]
fn a_writer_that_fails_in_replies_to_lines_together(rt: HostRuntime) {
    for room in 0..6 {
        breaks_off_in_replies(&rt, room);
    }
}

// The reader fails after so many bytes, in the second of the two.
fn breaks_off_in_lines(rt: &(impl Abort + AllocGlobal), read: usize) {
    let mut store = with_volume(rt);
    let input = joined(rt, TWO);
    let left = input.len().saturating_sub(read);
    let end = Err(Refusal::ReadFault);
    cut(rt, &mut store, &input, (read, WHOLE), end, left, b"ok\n");
    serves(
        rt,
        &mut store,
        &[(b"read v 0 2\n", 1)],
        &[(b"blocks 2\n", 1), (b"a", 512), (b"\0", 512)],
    );
}

#[test]
fn a_reader_that_fails_in_lines_together(rt: HostRuntime) {
    for read in [535, 536, 547, 600, 1_058] {
        breaks_off_in_lines(&rt, read);
    }
}

// A line that ends the server, and `list` after it. The writer fails after so many bytes of its refusal.
fn breaks_off_in_refusal(
    rt: &(impl Abort + AllocGlobal),
    input: &'static [u8],
    text: &'static [u8],
    room: usize,
) {
    let mut store = with_volume(rt);
    let text = first(rt, text, room);
    let end = Err(Refusal::WriteFault);
    cut(rt, &mut store, input, (WHOLE, room), end, 5, text);
    serves(
        rt,
        &mut store,
        &[(b"list\n", 1)],
        &[(b"volumes 1\nv 64\n", 1)],
    );
}

#[test]
fn a_writer_that_fails_in_the_last_refusal(rt: HostRuntime) {
    for room in [0, 1, 18] {
        breaks_off_in_refusal(&rt, b"LIST\nlist\n", b"refused 20 BadLine\n", room);
        breaks_off_in_refusal(&rt, b"together 0\nlist\n", b"refused 7 BadCount\n", room);
    }
}

// ---- devices

// The device in this slot goes down, and the set goes on.
fn goes_on(rt: &(impl Abort + AllocGlobal), slot: usize) {
    let mut store = with_volume(rt);
    fail_at(rt, &mut store, &[slot], 0);
    serves(rt, &mut store, TWO, &[(b"ok\nok\nvolumes 1\nv 64\n", 1)]);
    serves(rt, &mut store, &[(b"read v 0 2\n", 1)], ARE_TWO);
}

#[test]
fn one_device_that_goes_down(rt: HostRuntime) {
    for slot in 0..5 {
        goes_on(&rt, slot);
    }
}

// A line that ends a store two of whose devices go down: its refusal is written once, and nothing is read after it.
fn loses(rt: &(impl Abort + AllocGlobal), slots: &[usize], input: &[Part]) {
    let mut store = with_volume(rt);
    fail_at(rt, &mut store, slots, 0);
    let text: &[Part] = &[(b"refused 15 TwoLost\n", 1)];
    ends(rt, &mut store, input, Err(Refusal::TwoLost), 5, text);
}

#[test]
fn two_devices_that_go_down(rt: HostRuntime) {
    for slots in [[0, 1], [0, 2], [1, 2], [0, 3], [2, 4], [3, 4]] {
        loses(&rt, &slots, TWO);
    }
    loses(
        &rt,
        &[0, 1],
        &[(b"write v 0 1\n", 1), (b"a", 512), (b"list\n", 1)],
    );
    loses(&rt, &[0, 1], &[(b"read v 0 32\nlist\n", 1)]);
    loses(&rt, &[0, 1], &[(b"scrub 1\nlist\n", 1)]);
    loses(&rt, &[3, 4], &[(b"create w 1\nlist\n", 1)]);
}

const BOTH: &[Part] = &[
    (b"together 2\nwrite v 0 32\n", 1),
    (b"a", 32 * 512),
    (b"write v 32 32\n", 1),
    (b"b", 32 * 512),
    (b"list\n", 1),
];

// How many device calls the first commit of these two makes.
fn calls_of_first(rt: &(impl Abort + AllocGlobal)) -> u64 {
    let mut store = with_volume(rt);
    let before = made(&store);
    let first: &[Part] = &[(b"write v 0 32\n", 1), (b"a", 32 * 512)];
    serves(rt, &mut store, first, &[(b"ok\n", 1)]);
    since(&store, before).1
}

// Each fills an entry of format 1. The first is committed and answered before two devices go down, and the second is
// not.
#[test]
fn two_devices_that_go_down_after_the_first_commit(rt: HostRuntime) {
    let first = calls_of_first(&rt);
    let mut store = with_volume(&rt);
    let call = store.bank().now().saturating_add(first);
    fail_at(&rt, &mut store, &[0, 1], call);
    let text: &[Part] = &[(b"ok\nrefused 15 TwoLost\n", 1)];
    ends(&rt, &mut store, BOTH, Err(Refusal::TwoLost), 5, text);
    same(&rt, store.ended, Some(Refusal::TwoLost));
}

// The first commit fails, since its members can't be written, when the second write no longer fits: the second is
// answered nothing.
#[test]
fn two_devices_that_go_down_in_the_first_commit(rt: HostRuntime) {
    let mut store = with_volume(&rt);
    let call = store.bank().now().saturating_add(10);
    fail_at(&rt, &mut store, &[0, 1], call);
    let text: &[Part] = &[(b"refused 15 TwoLost\n", 1)];
    ends(&rt, &mut store, BOTH, Err(Refusal::TwoLost), 5, text);
}
