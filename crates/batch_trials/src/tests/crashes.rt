//! Crashes in the commit of a batch: assembling and opening the set again finds the volumes before it or those after
//! all of it, also without any one slot, and a further batch is then committed.
use super::sets::{SMALL, Shape, again, next_run};
use super::steps::{Step, Volumes, opened_after, unlike};
use super::{LARGE_SMALL, SEAL_CALLS, TestWaiting, Waiting, Write, staged};
use crate::testing::same;
use sector_model::{Bank, Choice, MemBank};
use std::process::Abort;

/// The choice at a crash with a slot absent, or none: each of three in turn.
pub(crate) fn each_in_turn(call: u64, absent: usize) -> Choice {
    match (call % 3 + (absent % 3) as u64 * 2) % 3 {
        0 => Choice::Oldest,
        2 => Choice::Newest,
        _ => Choice::Mixed(3),
    }
}

/// Each one slot of a set of five absent, and none.
pub(crate) const ABSENT: &[usize] = &[0, 1, 2, 3, 4, 5];

/// Two volumes on a set of 3 members with chunk 8.
pub(crate) const BEFORE: &[Step] = &[
    Step::Create(b"a", 12),
    Step::Create(b"b", 2),
    Step::Write(b"a", 0, &[0x11; 12]),
    Step::Write(b"b", 0, &[0xb0, 0xb1]),
];

/// They before the batch.
pub(crate) const OLD: Volumes = &[(b"a", &[0x11; 12]), (b"b", &[0xb0, 0xb1])];

/// Three writes, each of which overlaps one before. Blocks 5, 6 and 7 are logical sectors 69 to 71, in rows 37 to 39 on
/// member 2; blocks 8, 9 and 10 are sectors 72 to 74, in rows 32 to 34 on member 0. The parity of these rows is on
/// member 1.
pub(crate) const WRITES: &[Write] = &[
    (b"a", 5, &[0x22; 4]),
    (b"a", 7, &[0x33; 4]),
    (b"a", 6, &[0x44; 2]),
];

/// The volumes after all of it.
pub(crate) const NEW: Volumes = &[
    (
        b"a",
        &[
            0x11, 0x11, 0x11, 0x11, 0x11, 0x22, 0x44, 0x44, 0x33, 0x33, 0x33, 0x11,
        ],
    ),
    (b"b", &[0xb0, 0xb1]),
];

/// The rows of the entry: of each one sector is given, one is the parity, and the third is read.
pub(crate) const ROWS: u64 = 6;

/// The calls before the first seal: the reads, and a body of two sectors a row and a flush of each journal.
pub(crate) const BEFORE_SEALS: u64 = ROWS + 2 * (2 * ROWS + 1);

/// All calls: after the seals each sector of the entry is written to its member, and each member flushed.
pub(crate) const CALLS: u64 = BEFORE_SEALS + SEAL_CALLS + 2 * ROWS + 3;

// A further batch, of blocks that the first had and others.
const FURTHER: &[Write] = &[
    (b"b", 1, &[0x55]),
    (b"a", 7, &[0x66; 2]),
    (b"a", 8, &[0x77; 3]),
];

// The volumes after it, where the first was not committed, and where it was.
const FURTHER_OLD: Volumes = &[
    (
        b"a",
        &[
            0x11, 0x11, 0x11, 0x11, 0x11, 0x11, 0x11, 0x66, 0x77, 0x77, 0x77, 0x11,
        ],
    ),
    (b"b", &[0xb0, 0x55]),
];

const FURTHER_NEW: Volumes = &[
    (
        b"a",
        &[
            0x11, 0x11, 0x11, 0x11, 0x11, 0x22, 0x44, 0x66, 0x77, 0x77, 0x77, 0x11,
        ],
    ),
    (b"b", &[0xb0, 0x55]),
];

// The store of a set of this shape after the batch was committed, and the number of the first call of that.
fn committed(rt: &(impl Abort + AllocGlobal), shape: Shape) -> (TestWaiting, u64) {
    let mut waiting = staged(rt, opened_after(rt, shape, BEFORE), WRITES);
    waiting.check_volumes(rt, OLD);
    let from = waiting.store.bank().now();
    same(rt, waiting.commit(), Ok(()));
    let calls = waiting.store.bank().now().saturating_sub(from);
    same(rt, calls, CALLS);
    waiting.check_volumes(rt, NEW);
    (waiting, from)
}

// Whether a store that is opened after a crash, with a slot absent if it is one of the set's, shows the volumes after
// the batch, and else those before it, as has to be. It then commits a further batch.
fn shows_new(
    rt: &(impl Abort + AllocGlobal),
    bank: &MemBank,
    call: u64,
    (choice, absent): (Choice, usize),
) -> bool {
    let mut store = again(rt, bank, call, choice, absent);
    let is_new = unlike(rt, &mut store, NEW).is_none();
    if !is_new {
        let place = unlike(rt, &mut store, OLD);
        same(rt, (call, absent, place), (call, absent, None));
    }
    let mut waiting = staged(rt, store, FURTHER);
    same(rt, (call, absent, waiting.commit()), (call, absent, Ok(())));
    let further = if is_new { FURTHER_NEW } else { FURTHER_OLD };
    waiting.check_holds(rt, call as usize, further);
    is_new
}

// Whether a crash is tried with this slot absent, or none, after so many calls of the commit: around the seals each is,
// and else each second one, other ones after the next call.
fn is_tried(call: u64, absent: usize) -> bool {
    (BEFORE_SEALS <= call && call <= BEFORE_SEALS + SEAL_CALLS) || call % 2 == absent as u64 % 2
}

// Checks the crashes at each device call of the commit, with slots absent, and none: no seal is written before the
// calls of the seals, and both are safe after them. How many images there were.
fn check_crashes(rt: &(impl Abort + AllocGlobal), shape: Shape, choice: Option<Choice>) -> u64 {
    let (waiting, from) = committed(rt, shape);
    let mut images = 0u64;
    for call in 0..CALLS + 1 {
        for absent in ABSENT {
            if !is_tried(call, *absent) {
                continue;
            }
            let choice = choice.unwrap_or(each_in_turn(call, *absent));
            let place = from.saturating_add(call);
            let is_new = shows_new(rt, waiting.store.bank(), place, (choice, *absent));
            let want = call >= BEFORE_SEALS + SEAL_CALLS || (call > BEFORE_SEALS && is_new);
            same(rt, (call, *absent, is_new), (call, *absent, want));
            images = images.saturating_add(1);
        }
    }
    images
}

// 52 crashes, of which the five at the seals are tried with each of five slots absent and none, and the others with
// three of these six.
const IMAGES: u64 = 5 * 6 + 47 * 3;

#[test]
fn crashes_in_a_batch_oldest(rt: HostRuntime) {
    same(&rt, check_crashes(&rt, SMALL, Some(Choice::Oldest)), IMAGES);
}

#[test]
fn crashes_in_a_batch_newest(rt: HostRuntime) {
    same(&rt, check_crashes(&rt, SMALL, Some(Choice::Newest)), IMAGES);
}

#[test]
fn crashes_in_a_batch_mixed(rt: HostRuntime) {
    same(
        &rt,
        check_crashes(&rt, SMALL, Some(Choice::Mixed(3))),
        IMAGES,
    );
}

#[test]
fn crashes_in_a_batch_of_format_2(rt: HostRuntime) {
    same(&rt, check_crashes(&rt, LARGE_SMALL, None), IMAGES);
}

// Commits the further batch on what this bank holds, and checks the crashes in it, each by a choice in turn.
fn check_second(rt: &(impl Abort + AllocGlobal), bank: &MemBank) {
    let mut waiting = staged(rt, next_run(rt, bank), FURTHER);
    let from = waiting.store.bank().now();
    same(rt, waiting.commit(), Ok(()));
    let bank = waiting.store.bank();
    for call in from..bank.now().saturating_add(1) {
        for absent in &[1usize, 3, 5] {
            let choice = each_in_turn(call, *absent);
            let mut store = again(rt, bank, call, choice, *absent);
            let is_new = unlike(rt, &mut store, FURTHER_NEW).is_none();
            let is_old = unlike(rt, &mut store, NEW).is_none();
            same(rt, (call, *absent, is_new), (call, *absent, !is_old));
            let is_end = call == bank.now();
            assert!(rt; !is_end || is_new);
            assert!(rt; call > from || is_old);
        }
    }
}

// The same where the crash comes in a further batch, whose first rows the one before had.
#[test]
fn crashes_in_the_second_batch(rt: HostRuntime) {
    let (first, _) = committed(&rt, SMALL);
    check_second(&rt, first.store.bank());
}
