//! A crash in the list after which a slot has a device of zeros: the slot is replaced, a member's rows are rebuilt, and
//! the set is whole and shows the volumes that it showed without the slot.
use super::super::Answer::{Done, Refused, Scrubbed, Stepped};
use super::super::Call::{RebuildStep, Replace, Scrub};
use super::super::Step::{Do, Holds, Shows, Version};
use super::super::{
    NO_SLOT, Step, TestStore, again, assembled, check_from, check_missing, crashed, opened,
};
use super::crashes::{FIRST_CRASHES, SOUND, all_done, events_shown};
use super::{AFTER, version_after};
use crate::testing::same;
use rebuild::Progress::{Complete, Position};
use sector_model::{Bank, Choice, Image, MemBank, Refusal, Sector};
use std::mem;
use std::process::Abort;

// A device of zeros, as long as the slot needs it: 8 sectors and 256 rows of a member, 8 sectors and two entries of 256
// sectors of a journal.
fn blank(rt: &(impl Abort + AllocGlobal), slot: usize) -> Vec<Sector> {
    let sectors = if slot < 3 { 264 } else { 520 };
    vec![in rt.alloc(); [0; 512]; sectors].expect(rt, "memory")
}

// The devices at a crash by Newest, with one of zeros in this slot.
fn with_blank(rt: &(impl Abort + AllocGlobal), bank: &MemBank, call: u64, slot: usize) -> Image {
    let mut image = crashed(rt, bank, call, Choice::Newest);
    assert!(rt; slot < image.slots.len());
    let _ = mem::replace(&mut image.slots[slot], Some(blank(rt, slot)));
    image
}

// The steps of 64 rows that rebuild a member.
static REBUILT: [Step; 4] = [
    Do(RebuildStep(64), Stepped(Position(64))),
    Do(RebuildStep(64), Stepped(Position(128))),
    Do(RebuildStep(64), Stepped(Position(192))),
    Do(RebuildStep(64), Stepped(Complete)),
];

// Replaces a slot, and rebuilds a member's rows. What fails is named by the call of the crash.
fn make_whole(rt: &(impl Abort + AllocGlobal), store: &mut TestStore, number: usize, slot: u8) {
    check_from(rt, store, number, &[Do(Replace(slot), Done)]);
    if slot < 3 {
        check_from(rt, store, number, &REBUILT);
    }
    let none = Refused(Refusal::NothingToRebuild);
    check_from(rt, store, number, &[Do(RebuildStep(64), none)]);
}

// Asks that the set is whole, no row of it is bad, and the volumes are those after so many events, as is the version of
// their table.
fn check_whole(
    rt: &(impl Abort + AllocGlobal),
    store: &mut TestStore,
    number: usize,
    events: usize,
) {
    assert!(rt; events < AFTER.len());
    check_missing(rt, store, number, NO_SLOT);
    let (volumes, version) = (AFTER[events], version_after(rt, events));
    check_from(
        rt,
        store,
        number,
        &[
            Do(Scrub, Scrubbed(SOUND)),
            Holds(volumes),
            Shows(volumes),
            Version(version),
        ],
    );
}

// Checks a crash at a call with a device of zeros in a slot.
fn check_crash(rt: &(impl Abort + AllocGlobal), bank: &MemBank, call: u64, slot: u8) {
    let (number, lost) = (call as usize, slot as usize);
    let mut store = opened(rt, assembled(rt, with_blank(rt, bank, call, lost)));
    check_missing(rt, &store, number, lost);
    let events = events_shown(rt, &mut store, (call, lost));
    make_whole(rt, &mut store, number, slot);
    check_whole(rt, &mut store, number, events);
    check_later(rt, store.bank(), number, lost, events);
}

// Asks the same of a later run, in which the slot's device stands in for another member, which is absent.
fn check_later(
    rt: &(impl Abort + AllocGlobal),
    bank: &MemBank,
    number: usize,
    slot: usize,
    events: usize,
) {
    assert!(rt; events < AFTER.len());
    let other = if slot == 0 { 1 } else { 0 };
    let mut store = again(rt, bank, bank.now(), Choice::Oldest, other);
    check_missing(rt, &store, number, other);
    let version = version_after(rt, events);
    check_from(
        rt,
        &mut store,
        number,
        &[Holds(AFTER[events]), Version(version)],
    );
}

// Checks the crashes at each multiple of 16, from 0 to 608, with a device of zeros in a slot: 39, each with a later
// run.
fn check_crashes(rt: &(impl Abort + AllocGlobal), slot: u8) {
    let store = all_done(rt);
    let mut images = 0u64;
    for step in 0..FIRST_CRASHES {
        check_crash(rt, store.bank(), 16 * step, slot);
        images = images.saturating_add(1);
    }
    same(rt, images, FIRST_CRASHES);
}

#[test]
fn crash_and_replace_each_member(rt: HostRuntime) {
    for slot in [0u8, 1, 2] {
        check_crashes(&rt, slot);
    }
}

#[test]
fn crash_and_replace_each_journal(rt: HostRuntime) {
    for slot in [3u8, 4] {
        check_crashes(&rt, slot);
    }
}
