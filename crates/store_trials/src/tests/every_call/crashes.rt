//! A crash after each number of device calls of the list: the set is assembled and opened, also without any one slot,
//! and shows the volumes after a number of events that is not below the number of those that were acknowledged.
use super::super::Answer::{Blocks, Done, Listed, Scrubbed};
use super::super::Call::{List, Read, Scrub};
use super::super::Step::{Do, Holds, Shows, Version};
use super::super::{NO_SLOT, Step, TestStore, again, check, check_missing};
use super::{AFTER, EVENTS, begun, fresh_image, is_after, shown, wanted};
use crate::testing::same;
use scrub::ScrubReport;
use sector_model::{Bank, Choice, MemBank};
use std::process::Abort;

/// The calls of assembling set A as `make` left it, and of opening it: two reads of each of five devices, one of each
/// for whether its table is stale, four of seals, none of which counts, and eleven of the table of volumes.
pub(crate) const OPENED: u64 = 2 * 5 + 5 + 4 + 11;

/// The number of calls after each event. After the assembly's 30 calls a commit that holds b sectors makes its reads, 3
/// × b + 6 writes and flushes of sectors, seals and journals, and a flush of each member that it writes:
/// - Create a 10: 91. Blocks 0 to 9 fill rows 32 and 33 and lie one each in 34 to 39, whose third member is read: 6 +
///   (3 × 18 + 6) + 3. The table's sectors 1 and 3 lie in rows of their own: 2 + (3 × 4 + 6) + 2.
/// - Write a 9: 15, of one row: 1 + (3 × 2 + 6) + 2.
/// - Extend a 10: 93. Blocks 10 to 19 lie one each in rows 34 to 43, on members 0 and 1 with their parity on the other:
///   10 + (3 × 20 + 6) + 2. Of the table sector 1 changes alone: 15.
/// - Write a 0 of three blocks: 29, of rows 32 to 34: 3 + (3 × 6 + 6) + 2.
/// - Create b 3: 51. Its blocks lie in rows 64 to 66: 29, and 22 for the table.
/// - Remove a: 22, of the table.
/// - Create c 20: 131. Its blocks take the place of those of a, and fill rows 32 to 39 and lie one each in 40 to 43: 4
///   + (3 × 32 + 6) + 3, and 22.
/// - Rename c d: 15. Record 0, which was that of a, gets the name: of the table sector 1 changes alone.
/// - Upgrade: 139. The table's sectors 0 to 24 lie in rows 0 to 15. Rows 0 to 7 have two of them and row 8 has two, 16
///   and 24, so these are written whole; of rows 9 to 15, which have one each, member 0 is read: 7 + (3 × 41 + 6) + 3,
///   where 41 = 9 × 3 + 7 × 2.
pub(crate) static ACKS: [u64; 9] = [121, 136, 229, 258, 309, 331, 462, 477, 616];

/// All calls.
const CALLS: u64 = 616;

/// The crashes that are followed by another one, or by a replacement: at each multiple of 16, from 0 to 608.
pub(crate) const FIRST_CRASHES: u64 = 39;

// The first call of the seals of each event's last commit, which makes the event's change. These are four calls, and
// after them the commit writes its sectors on two members and flushes each: 4 calls for two sectors, 6 for four, and 8
// for six; and 44 for the 41 of the upgrade, on three members. So it lies so many calls before the event's ack.
static SEALED: [u64; 9] = [111, 128, 221, 246, 299, 321, 452, 469, 568];

/// No row of set A is unsound.
pub(crate) const SOUND: ScrubReport = ScrubReport {
    rows: 256,
    bad: 0,
    first_bad: None,
};

/// The store after all events, whose bank began with the assembly.
pub(crate) fn all_done(rt: &(impl Abort + AllocGlobal)) -> TestStore {
    let mut store = begun(rt, fresh_image(rt));
    same(rt, store.bank().now(), OPENED);
    let mut acks = Vec::new(rt.alloc());
    same(rt, store.run(rt.alloc(), &EVENTS, &mut acks), Ok(()));
    same(rt, acks.as_slice(), &ACKS);
    same(rt, store.bank().now(), CALLS);
    store
}

// Block 9 of `d`, which was made by the name `c`, lies where that of `a` did, which was written.
#[test]
fn list_of_events_unstopped(rt: HostRuntime) {
    const STEPS: &[Step] = &[
        Do(List, Listed(&[(b"b", &[0; 3]), (b"d", &[0; 20])])),
        Do(Read(b"d", 9, 1), Blocks(&[0])),
        Holds(&[(b"b", &[0; 3]), (b"d", &[0; 20])]),
        Shows(&[(b"b", &[0; 3]), (b"d", &[0; 20])]),
        Version(2),
        Do(Scrub, Scrubbed(SOUND)),
    ];
    check(&rt, &mut all_done(&rt), STEPS);
}

// How many of these calls, which rise, are at most so many.
fn count_to(calls: &[u64], most: u64) -> usize {
    let mut count = 0usize;
    for call in calls {
        if *call <= most {
            count = count.saturating_add(1);
        }
    }
    count
}

// Asks that the store shows the volumes after so many events, in a table of the version after them. What fails is named
// by the call of the crash and the slot that is absent.
fn check_shown(
    rt: &(impl Abort + AllocGlobal),
    store: &mut TestStore,
    crash: (u64, usize),
    events: usize,
) {
    let got = shown(rt, store, events);
    same(rt, (crash, got), (crash, wanted(rt, events)));
}

/// How many events a store shows that is opened after a crash: as many as were acknowledged, or one more. It is not
/// more where no seal of the next one's last commit was written, and is one more where both are safe. By the volumes
/// alone one could not tell the last event from the one before.
pub(crate) fn events_shown(
    rt: &(impl Abort + AllocGlobal),
    store: &mut TestStore,
    crash: (u64, usize),
) -> usize {
    let done = count_to(&ACKS, crash.0);
    let most = count_to(&SEALED, crash.0.saturating_sub(1));
    let safe = count_to(&SEALED, crash.0.saturating_sub(4));
    let is_so = done <= safe && most <= done.saturating_add(1);
    same(rt, (crash, is_so), (crash, true));
    assert!(rt; most < AFTER.len());
    if safe == most || is_after(rt, store, most) {
        check_shown(rt, store, crash, most);
        return most;
    }
    check_shown(rt, store, crash, safe);
    safe
}

// Checks a crash at a call by a choice, with a slot absent if it is one of the set's.
fn check_crash(
    rt: &(impl Abort + AllocGlobal),
    bank: &MemBank,
    crash: (u64, usize),
    choice: Choice,
) {
    let mut store = again(rt, bank, crash.0, choice, crash.1);
    check_missing(rt, &store, crash.0 as usize, crash.1);
    events_shown(rt, &mut store, crash);
    if crash.1 == NO_SLOT {
        same(rt, (crash, store.scrub()), (crash, Ok(SOUND)));
    }
}

// Checks the crashes after each number of calls by a choice, with this slot absent if it is one of the set's. Gives how
// many there are.
fn check_each_call(
    rt: &(impl Abort + AllocGlobal),
    bank: &MemBank,
    choice: Choice,
    absent: usize,
) -> u64 {
    let mut images = 0u64;
    for call in 0..CALLS + 1 {
        check_crash(rt, bank, (call, absent), choice);
        images = images.saturating_add(1);
    }
    images
}

// The crashes after 0 to 616 calls, each with no slot absent and with each one of five: 617 × 6.
const IMAGES: u64 = 3_702;

// Checks the crashes by a choice.
fn check_crashes(rt: &(impl Abort + AllocGlobal), choice: Choice) {
    let store = all_done(rt);
    let mut images = 0u64;
    for absent in [NO_SLOT, 0, 1, 2, 3, 4] {
        images = images.saturating_add(check_each_call(rt, store.bank(), choice, absent));
    }
    same(rt, images, IMAGES);
}

#[test]
fn stop_at_every_call_oldest(rt: HostRuntime) {
    check_crashes(&rt, Choice::Oldest);
}

#[test]
fn stop_at_every_call_newest(rt: HostRuntime) {
    check_crashes(&rt, Choice::Newest);
}

#[test]
fn stop_at_every_call_mixed(rt: HostRuntime) {
    check_crashes(&rt, Choice::Mixed(3));
}
