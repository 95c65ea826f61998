//! Crashes while blocks are made zero: assembling and opening the set again finds those of the first commits zero, all
//! others as they were, and after `Ok` all.
//!
//! The set has 3 members with chunk 8, so that a stripe has 16 blocks, as an extent does. The volume `v` has extents 0
//! and 2 to 6, and `w` has extent 1.
use super::bytes_of;
use super::sets::{LARGE_SMALL, NO_SLOT, TestStore, again, fresh_store, next_run, write_bytes};
use crate::testing::same;
use sector_model::{Bank, Choice, MemBank};
use std::process::Abort;

/// How many blocks `v` has.
pub(crate) const BLOCKS: u32 = 96;

/// The byte of which each block of `v` is full, none of them zero.
pub(crate) fn block_byte(block: u32) -> u8 {
    1 + (block % 96) as u8
}

/// The byte of which each block of `w` is full.
const BESIDE: u8 = 0xbb;

// The bytes of 32 blocks of `v` from one on.
fn bytes_from(first: u32) -> [u8; 32] {
    let mut bytes = [0; 32];
    let mut block = first;
    for byte in &mut bytes {
        *byte = block_byte(block);
        block = block.wrapping_add(1);
    }
    bytes
}

/// The set with both volumes written, in a run that began after that.
pub(crate) fn written(rt: &(impl Abort + AllocGlobal)) -> TestStore {
    let mut store = fresh_store(rt, LARGE_SMALL);
    same(rt, store.create(b"v", 16), Ok(()));
    same(rt, store.create(b"w", 16), Ok(()));
    same(rt, store.extend(b"v", 80), Ok(()));
    write_bytes(rt, &mut store, b"w", 0, &[BESIDE; 16]);
    for part in 0..3u32 {
        let first = part.saturating_mul(32);
        write_bytes(rt, &mut store, b"v", first, &bytes_from(first));
    }
    next_run(rt, store.bank())
}

/// A range of blocks of `v`: the first, and how many.
pub(crate) type Range = (u32, u32);

/// Where the commits of a range end, each as the block after its last, in rising order: up to 32 blocks are one. Else
/// the whole stripes of the range are one, the blocks before the first of them another, and so are those after the
/// last; without a whole stripe all are one. Where there are fewer than three, the last stands again.
pub(crate) fn ends_of((at, count): Range) -> [u32; 3] {
    let end = at.saturating_add(count);
    let first = at.saturating_add(15) / 16 * 16;
    let last = end / 16 * 16;
    if count <= 32 || last <= first {
        return [end; 3];
    }
    if first == at {
        return [last, end, end];
    }
    [first, last, end]
}

// The block up to which those from block `at` on are zero.
fn zero_up_to(bytes: &[u8], at: u32) -> u32 {
    let mut end = at;
    let mut block = 0u32;
    for byte in bytes {
        if block == end && *byte == 0 {
            end = end.saturating_add(1);
        }
        block = block.saturating_add(1);
    }
    end
}

/// The block up to which those of a range are zero. All others have to be as they were, and so those of `w`.
pub(crate) fn zeroed_in(
    rt: &(impl Abort + AllocGlobal),
    store: &mut TestStore,
    number: u64,
    (at, count): Range,
) -> u32 {
    let bytes = bytes_of(rt, store, b"v", BLOCKS);
    let end = zero_up_to(&bytes, at);
    same(
        rt,
        (number, end <= at.saturating_add(count)),
        (number, true),
    );
    let mut block = 0u32;
    for byte in &bytes {
        let is_zero = at <= block && block < end;
        let wanted = if is_zero { 0 } else { block_byte(block) };
        same(rt, (number, block, *byte), (number, block, wanted));
        block = block.wrapping_add(1);
    }
    for byte in &bytes_of(rt, store, b"w", 16) {
        same(rt, (number, *byte), (number, BESIDE));
    }
    end
}

/// A range that was made zero: the bank, and the number of the first call of that.
pub(crate) type Zeroed<'a> = (Range, &'a MemBank, u64);

/// Checks a crash after so many calls of making a range zero, without a slot if it is one of the set's: the blocks up
/// to the end of a commit are zero, none before the first call and all after the last one.
pub(crate) fn check_crash(
    rt: &(impl Abort + AllocGlobal),
    (range, bank, from): Zeroed,
    call: u64,
    (choice, absent): (Choice, usize),
) -> u32 {
    let place = from.saturating_add(call);
    let mut store = again(rt, bank, place, choice, absent);
    let end = zeroed_in(rt, &mut store, call, range);
    let (at, count) = range;
    let last = at.saturating_add(count);
    let is_end = end == at || ends_of(range).contains(&end);
    same(rt, (range, call, end, is_end), (range, call, end, true));
    if call == 0 {
        same(rt, (range, end), (range, at));
    }
    if place == bank.now() {
        same(rt, (range, end), (range, last));
    }
    end
}

/// Makes a range zero on what this bank holds. The store after it, and the number of its first call.
pub(crate) fn zeroed(
    rt: &(impl Abort + AllocGlobal),
    before: &MemBank,
    range: Range,
) -> (TestStore, u64) {
    let mut store = next_run(rt, before);
    let from = store.bank().now();
    let answer = store.zero(b"v", range.0, range.1);
    same(rt, (range, answer), (range, Ok(())));
    (store, from)
}

/// How many of the crashes in a range's commits are tried: this many, which are evenly apart. They begin with another
/// call for each next number, and with the same one again after 16.
#[derive(Clone, Copy)]
pub(crate) struct Thinned {
    pub tried: u64,
    pub number: u64,
}

impl Thinned {
    // The number of calls after which a crash is tried, where there are so many calls.
    fn call(&self, crash: u64, calls: u64) -> u64 {
        let place = crash.saturating_mul(16).saturating_add(self.number % 16);
        place.saturating_mul(calls) / self.tried.saturating_mul(16).max(1)
    }
}

// Makes a range zero, and checks crashes in it, each without what was not flushed and with all that was written, and
// one after the end.
fn check_range(rt: &(impl Abort + AllocGlobal), before: &MemBank, range: Range, thinned: &Thinned) {
    let (store, from) = zeroed(rt, before, range);
    let place = (range, store.bank(), from);
    let calls = store.bank().now().saturating_sub(from);
    for crash in 0..thinned.tried {
        let call = thinned.call(crash, calls);
        for choice in [Choice::Oldest, Choice::Newest] {
            check_crash(rt, place, call, (choice, NO_SLOT));
        }
    }
    check_crash(rt, place, calls, (Choice::Oldest, NO_SLOT));
}

// Checks the ranges that begin with one of these blocks and have one of these counts, with so many crashes each. How
// many ranges there were.
fn check_ranges(
    rt: &(impl Abort + AllocGlobal),
    (first, last): (u32, u32),
    (least, most): (u32, u32),
    tried: u64,
) -> u64 {
    let before = written(rt);
    let mut number = 0u64;
    for at in first..last {
        for count in least..most {
            check_range(rt, before.bank(), (at, count), &Thinned { tried, number });
            number = number.saturating_add(1);
        }
    }
    number
}

// Ranges of up to 32 blocks are one write.
#[test]
fn crashes_of_1_to_16_blocks_from_blocks_0_to_7(rt: HostRuntime) {
    same(&rt, check_ranges(&rt, (0, 8), (1, 17), 2), 8 * 16);
}

#[test]
fn crashes_of_1_to_16_blocks_from_blocks_8_to_15(rt: HostRuntime) {
    same(&rt, check_ranges(&rt, (8, 16), (1, 17), 2), 8 * 16);
}

#[test]
fn crashes_of_1_to_16_blocks_from_blocks_16_to_23(rt: HostRuntime) {
    same(&rt, check_ranges(&rt, (16, 24), (1, 17), 2), 8 * 16);
}

#[test]
fn crashes_of_1_to_16_blocks_from_blocks_24_to_31(rt: HostRuntime) {
    same(&rt, check_ranges(&rt, (24, 32), (1, 17), 2), 8 * 16);
}

#[test]
fn crashes_of_17_to_32_blocks_from_blocks_0_to_7(rt: HostRuntime) {
    same(&rt, check_ranges(&rt, (0, 8), (17, 33), 2), 8 * 16);
}

#[test]
fn crashes_of_17_to_32_blocks_from_blocks_8_to_15(rt: HostRuntime) {
    same(&rt, check_ranges(&rt, (8, 16), (17, 33), 2), 8 * 16);
}

#[test]
fn crashes_of_17_to_32_blocks_from_blocks_16_to_23(rt: HostRuntime) {
    same(&rt, check_ranges(&rt, (16, 24), (17, 33), 2), 8 * 16);
}

#[test]
fn crashes_of_17_to_32_blocks_from_blocks_24_to_31(rt: HostRuntime) {
    same(&rt, check_ranges(&rt, (24, 32), (17, 33), 2), 8 * 16);
}

// Ranges of 33 to 64 blocks have one to three whole stripes.
#[test]
fn crashes_of_33_to_48_blocks_from_blocks_0_to_7(rt: HostRuntime) {
    same(&rt, check_ranges(&rt, (0, 8), (33, 49), 2), 8 * 16);
}

#[test]
fn crashes_of_33_to_48_blocks_from_blocks_8_to_15(rt: HostRuntime) {
    same(&rt, check_ranges(&rt, (8, 16), (33, 49), 2), 8 * 16);
}

#[test]
fn crashes_of_33_to_48_blocks_from_blocks_16_to_23(rt: HostRuntime) {
    same(&rt, check_ranges(&rt, (16, 24), (33, 49), 2), 8 * 16);
}

#[test]
fn crashes_of_33_to_48_blocks_from_blocks_24_to_31(rt: HostRuntime) {
    same(&rt, check_ranges(&rt, (24, 32), (33, 49), 2), 8 * 16);
}

#[test]
fn crashes_of_49_to_64_blocks_from_blocks_0_to_7(rt: HostRuntime) {
    same(&rt, check_ranges(&rt, (0, 8), (49, 65), 2), 8 * 16);
}

#[test]
fn crashes_of_49_to_64_blocks_from_blocks_8_to_15(rt: HostRuntime) {
    same(&rt, check_ranges(&rt, (8, 16), (49, 65), 2), 8 * 16);
}

#[test]
fn crashes_of_49_to_64_blocks_from_blocks_16_to_23(rt: HostRuntime) {
    same(&rt, check_ranges(&rt, (16, 24), (49, 65), 2), 8 * 16);
}

#[test]
fn crashes_of_49_to_64_blocks_from_blocks_24_to_31(rt: HostRuntime) {
    same(&rt, check_ranges(&rt, (24, 32), (49, 65), 2), 8 * 16);
}

// Checks the crashes after each number of calls, without what was not flushed, with all that was written, and with some
// of it and each one slot absent in turn, or none. The blocks up to which those of the range are zero, in rising order.
fn check_each(rt: &(impl Abort + AllocGlobal), before: &MemBank, range: Range) -> Vec<u32> {
    let (store, from) = zeroed(rt, before, range);
    let place = (range, store.bank(), from);
    let mut ends = Vec::new(rt.alloc());
    let mut last = 0u32;
    for call in 0..store.bank().now().saturating_sub(from).saturating_add(1) {
        let oldest = check_crash(rt, place, call, (Choice::Oldest, NO_SLOT));
        let newest = check_crash(rt, place, call, (Choice::Newest, NO_SLOT));
        check_crash(rt, place, call, (Choice::Mixed(3), (call % 6) as usize));
        assert!(rt; last <= oldest && oldest <= newest);
        if ends.is_empty() || last < oldest {
            ends.push(oldest).expect(rt, "memory");
        }
        last = oldest;
    }
    ends
}

// A crash leaves the blocks of each of the first commits zero, and nothing else. There are so many calls.
fn check_ends(rt: &(impl Abort + AllocGlobal), range: Range, calls: u64, wanted: &[u32]) {
    let before = written(rt);
    let (store, from) = zeroed(rt, before.bank(), range);
    same(rt, store.bank().now().saturating_sub(from), calls);
    let ends = check_each(rt, before.bank(), range);
    same(rt, ends.len(), wanted.len());
    for at in 0..ends.len().min(wanted.len()) {
        same(rt, (at, ends[at]), (at, wanted[at]));
    }
}

// The first part reads five sectors and holds 19: rows 32 to 36 of two members and rows 37 to 39 of three. The whole
// stripes are 24 rows of three members, without a body. The last block is a row of two, and reads one.
#[test]
fn crashes_at_each_call_of_three_parts(rt: HostRuntime) {
    let calls = (5 + 2 * 20 + 4 + 19 + 3) + (2 + 4 + 72 + 3) + (1 + 2 * 3 + 4 + 2 + 2);
    check_ends(&rt, (5, 60), calls, &[5, 16, 64, 65]);
}

// Three stripes, of which two follow one another: 24 rows of three members.
#[test]
fn crashes_at_each_call_of_whole_stripes(rt: HostRuntime) {
    check_ends(&rt, (0, 48), 2 + 4 + 72 + 3, &[0, 48]);
}

// Seven rows of stripe 4 and seven of stripe 7 are of two members and read the third, and nine are of three.
#[test]
fn crashes_at_each_call_of_one_write(rt: HostRuntime) {
    check_ends(&rt, (9, 32), 14 + 2 * 56 + 4 + 55 + 3, &[9, 41]);
}
