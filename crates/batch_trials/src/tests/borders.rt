//! Crashes in the commit of a batch of writes over a border of extents and to two volumes: assembling and opening the
//! set again finds the volumes before it or those after all of it, also without any one slot.
//!
//! The set has 3 members with chunk 8, and its extents are stripes of 16 blocks, from stripe 4 on. The volume `a` has
//! extents 0 and 2, and `b` has extent 1.
use super::crashes::{ABSENT, each_in_turn};
use super::sets::{NO_SLOT, again};
use super::steps::{Step, Volumes, opened_after, unlike};
use super::{LARGE_SMALL, SEAL_CALLS, TestWaiting, Write, staged};
use crate::testing::same;
use sector_model::{Bank, Choice, MemBank};
use std::process::Abort;

const BEFORE: &[Step] = &[
    Step::Create(b"a", 16),
    Step::Create(b"b", 16),
    Step::Extend(b"a", 2),
    Step::Write(b"a", 0, &[0xaa; 18]),
    Step::Write(b"b", 0, &[0xbb; 16]),
];

const OLD: Volumes = &[(b"a", &[0xaa; 18]), (b"b", &[0xbb; 16])];

// Blocks 14 and 15 of `a` are in rows 38 and 39 of member 0, with the parity on member 1; blocks 16 and 17 in rows 48
// and 49 of member 0, with the parity on member 2; and block 0 of `b` in row 40 of member 1, with the parity on member
// 0.
const WRITES: &[Write] = &[(b"a", 14, &[0xe0, 0xe1, 0xe2, 0xe3]), (b"b", 0, &[0xb0])];

const NEW: Volumes = &[
    (
        b"a",
        &[
            0xaa, 0xaa, 0xaa, 0xaa, 0xaa, 0xaa, 0xaa, 0xaa, 0xaa, 0xaa, 0xaa, 0xaa, 0xaa, 0xaa,
            0xe0, 0xe1, 0xe2, 0xe3,
        ],
    ),
    (
        b"b",
        &[
            0xb0, 0xbb, 0xbb, 0xbb, 0xbb, 0xbb, 0xbb, 0xbb, 0xbb, 0xbb, 0xbb, 0xbb, 0xbb, 0xbb,
            0xbb, 0xbb,
        ],
    ),
];

// The calls before the first seal: a read of each of five rows, and a body of ten sectors and a flush of each journal.
const BEFORE_SEALS: u64 = 5 + 2 * (10 + 1);

// All calls: after the seals member 0 gets five sectors, member 1 three and member 2 two, each with a flush after them.
const CALLS: u64 = BEFORE_SEALS + SEAL_CALLS + (5 + 1) + (3 + 1) + (2 + 1);

// The store after the batch was committed, and the number of the first call of that.
fn committed(rt: &(impl Abort + AllocGlobal)) -> (TestWaiting, u64) {
    let mut waiting = staged(rt, opened_after(rt, LARGE_SMALL, BEFORE), WRITES);
    waiting.check_volumes(rt, OLD);
    let from = waiting.store.bank().now();
    same(rt, waiting.commit(), Ok(()));
    let calls = waiting.store.bank().now().saturating_sub(from);
    same(rt, calls, CALLS);
    waiting.check_volumes(rt, NEW);
    (waiting, from)
}

// Checks a crash after so many calls, with a slot absent, if it is one of the set's.
fn check_crash(
    rt: &(impl Abort + AllocGlobal),
    (bank, from): (&MemBank, u64),
    call: u64,
    (choice, absent): (Choice, usize),
) {
    let mut store = again(rt, bank, from.saturating_add(call), choice, absent);
    let is_new = unlike(rt, &mut store, NEW).is_none();
    let is_old = unlike(rt, &mut store, OLD).is_none();
    same(rt, (call, absent, is_new), (call, absent, !is_old));
    let want = call >= BEFORE_SEALS + SEAL_CALLS || (call > BEFORE_SEALS && is_new);
    same(rt, (call, absent, is_new), (call, absent, want));
}

// After each call each slot is absent in turn, or none, and once more none.
#[test]
fn crashes_over_borders_and_in_two_volumes(rt: HostRuntime) {
    let (waiting, from) = committed(&rt);
    let place = (waiting.store.bank(), from);
    for call in 0..CALLS + 1 {
        for absent in ABSENT {
            if call % 3 == *absent as u64 % 3 {
                let choice = each_in_turn(call, *absent);
                check_crash(&rt, place, call, (choice, *absent));
            }
        }
        let choice = each_in_turn(call, NO_SLOT);
        check_crash(&rt, place, call, (choice, NO_SLOT));
    }
}
