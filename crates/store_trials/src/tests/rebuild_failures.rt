//! Devices that go down in the event that gives a slot a device, or rebuilds rows: what the event answers, and what its
//! store and a later run show.
use super::Answer::{Done, Refused, Stepped};
use super::Call::{Create, Fail, RebuildStep, Replace, Write};
use super::Step::Do;
use super::calls::{MEMBERS, PUBLISH_CALLS};
use super::failures::check_ended;
use super::{
    Answer, Call, NO_SLOT, SET_A, SMALL, Shape, Step, TestStore, Volumes, again, check_event,
    fail_devices, next_run, opened_after, unlike,
};
use crate::testing::same;
use rebuild::Progress::{Complete, Position};
use sector_model::{Bank, Choice, MemBank, Refusal};
use std::process::Abort;
use superblock::State;

// An event on the device of a slot in a set of this shape, and what was done before it. It makes so many device calls:
// the last give each slot the new table, the event's own slot after the others.
#[derive(Clone, Copy)]
struct Case<'a> {
    shape: Shape,
    before: &'a [Step<'a>],
    slot: usize,
    event: Call<'a>,
    calls: u64,
    answer: Answer<'a>,
    /// The state of the slot where it is answered so.
    state: State,
    /// What it is refused with where the slot's own device goes down.
    at_failure: Refusal,
    /// How many tables more there are where that device goes down before the table is published.
    marks: u64,
}

// The rows in which the blocks of the volume lie.
const ROWS: u64 = 3;

// The volumes at all times: their blocks are logical sectors 64 to 66, in rows 32 to 34.
const VOLUMES: Volumes = &[(b"a", &[0x11, 0x22, 0x33])];

// The last call to a slot, counted from the first: the four other slots are written before each of them is flushed.
fn last_call(case: &Case, slot: usize) -> u64 {
    if slot == case.slot {
        return case.calls.saturating_sub(1);
    }
    let before = if slot > case.slot {
        slot.saturating_sub(1)
    } else {
        slot
    };
    let published = case.calls.saturating_sub(PUBLISH_CALLS);
    let flushes = published.saturating_add(MEMBERS + 1);
    flushes.saturating_add(before as u64)
}

// What has to be answered where a slot goes down at its first call from one on.
fn wanted<'a>(case: &Case<'a>, slot: usize, call: u64) -> Answer<'a> {
    if call > last_call(case, slot) {
        return case.answer;
    }
    if slot == case.slot {
        Refused(case.at_failure)
    } else {
        Refused(Refusal::TwoLost)
    }
}

// Asks that a store shows the volumes.
fn check_volumes(rt: &(impl Abort + AllocGlobal), store: &mut TestStore, number: (usize, u64)) {
    let place = unlike(rt, store, VOLUMES);
    same(rt, (number, place), (number, None));
}

// Asks that the event's slot has this state, and each other one is in sync, and that a store shows the volumes.
fn check_held(
    rt: &(impl Abort + AllocGlobal),
    mut store: TestStore,
    number: (usize, u64),
    slot: usize,
    state: State,
) {
    for other in 0..5usize {
        let wanted = if other == slot { state } else { State::InSync };
        let got = store.array.table.states[other];
        same(rt, (number, other, got), (number, other, wanted));
    }
    check_volumes(rt, &mut store, number);
}

// Checks what is left where the slot's own device failed: the slot is missing, and the generation is so much higher;
// also in the next run, with that device and without it.
fn check_own(
    rt: &(impl Abort + AllocGlobal),
    case: &Case,
    store: TestStore,
    call: u64,
    generation: u64,
) {
    let number = (case.slot, call);
    let is_last = call >= case.calls.saturating_sub(PUBLISH_CALLS);
    let further = if is_last { 2 } else { case.marks };
    let raised = store.array.table.generation.saturating_sub(generation);
    same(rt, (number, raised), (number, further));
    let now = store.bank().now();
    for (choice, absent) in [(Choice::Oldest, NO_SLOT), (Choice::Newest, case.slot)] {
        let later = again(rt, store.bank(), now, choice, absent);
        check_held(rt, later, number, case.slot, State::Missing);
    }
    check_held(rt, store, number, case.slot, State::Missing);
}

// Checks what is left where another device failed: the store answers that to every call, and the next run with that
// device shows the volumes.
fn check_other(rt: &(impl Abort + AllocGlobal), mut store: TestStore, slot: usize, call: u64) {
    check_ended(rt, &mut store, call as usize, Refusal::TwoLost);
    let now = store.bank().now();
    let mut later = again(rt, store.bank(), now, Choice::Oldest, NO_SLOT);
    check_volumes(rt, &mut later, (slot, call));
}

// Checks the event on what this bank holds, where a slot goes down at its first call from one on.
fn check_failure(
    rt: &(impl Abort + AllocGlobal),
    case: &Case,
    bank: &MemBank,
    slot: u8,
    call: u64,
) {
    let number = slot as usize;
    let mut store = next_run(rt, bank);
    let generation = store.array.table.generation;
    let from = store.bank().now();
    fail_devices(rt, &mut store, &[slot], call);
    check_event(
        rt,
        &mut store,
        call as usize,
        case.event,
        wanted(case, number, call),
    );
    fail_devices(rt, &mut store, &[], 0);
    let failed = call <= last_call(case, number);
    assert!(rt; slot < store.bank().devices());
    let is_down = store.bank().is_down(slot);
    same(rt, (number, call, is_down), (number, call, failed));
    if !failed {
        let calls = store.bank().now().saturating_sub(from);
        same(rt, (number, calls), (number, case.calls));
        check_held(rt, store, (number, call), case.slot, case.state);
    } else if number == case.slot {
        check_own(rt, case, store, call, generation);
    } else {
        check_other(rt, store, number, call);
    }
}

// Checks the failures of each slot at each device call of a case, and none in it.
fn check_failures(rt: &(impl Abort + AllocGlobal), case: &Case) {
    let store = opened_after(rt, case.shape, case.before);
    for slot in 0..5u8 {
        for call in 0..case.calls.saturating_add(1) {
            check_failure(rt, case, store.bank(), slot, call);
        }
    }
}

// Two writes that clear its superblock places, and a flush; then the table.
static MEMBER: Case = Case {
    shape: SET_A,
    before: &[
        Do(Create(b"a", 3), Done),
        Do(Write(b"a", 0, &[0x11, 0x22, 0x33]), Done),
        Do(Fail(2), Done),
    ],
    slot: 2,
    event: Replace(2),
    calls: 2 + 1 + PUBLISH_CALLS,
    answer: Done,
    state: State::Rebuilding,
    at_failure: Refusal::NotUsable,
    marks: 0,
};

#[test]
fn down_in_replace(rt: HostRuntime) {
    check_failures(&rt, &MEMBER);
}

// The last entry has three rows, and holds two sectors of each. Two reads of seals, four writes that clear places and
// seals, and a flush; six reads and six writes of its body, and a flush; a seal and a flush; then the table.
static JOURNAL: Case = Case {
    shape: SMALL,
    before: &[
        Do(Create(b"a", 3), Done),
        Do(Write(b"a", 0, &[0x11, 0x22, 0x33]), Done),
        Do(Fail(3), Done),
    ],
    slot: 3,
    event: Replace(3),
    calls: 2 + (4 + 1) + (2 * ROWS * 2 + 1) + 2 + PUBLISH_CALLS,
    answer: Done,
    state: State::InSync,
    at_failure: Refusal::NotUsable,
    marks: 0,
};

#[test]
fn each_slot_down_in_replacing_a_journal(rt: HostRuntime) {
    check_failures(&rt, &JOURNAL);
}

// Rows 32 to 95, in which the volume's are: each is two reads and a write; then a flush, and the table.
static MIDDLE_STEP: Case = Case {
    shape: SET_A,
    before: &[
        Do(Create(b"a", 3), Done),
        Do(Write(b"a", 0, &[0x11, 0x22, 0x33]), Done),
        Do(Fail(2), Done),
        Do(Replace(2), Done),
        Do(RebuildStep(32), Stepped(Position(32))),
    ],
    slot: 2,
    event: RebuildStep(64),
    calls: 64 * MEMBERS + 1 + PUBLISH_CALLS,
    answer: Stepped(Position(96)),
    state: State::Rebuilding,
    at_failure: Refusal::NothingToRebuild,
    marks: 1,
};

#[test]
fn down_in_rebuild(rt: HostRuntime) {
    check_failures(&rt, &MIDDLE_STEP);
}

// The last two of 96 rows.
static LAST_STEP: Case = Case {
    shape: SMALL,
    before: &[
        Do(Create(b"a", 3), Done),
        Do(Write(b"a", 0, &[0x11, 0x22, 0x33]), Done),
        Do(Fail(0), Done),
        Do(Replace(0), Done),
        Do(RebuildStep(64), Stepped(Position(64))),
        Do(RebuildStep(30), Stepped(Position(94))),
    ],
    slot: 0,
    event: RebuildStep(64),
    calls: 2 * MEMBERS + 1 + PUBLISH_CALLS,
    answer: Stepped(Complete),
    state: State::InSync,
    at_failure: Refusal::NothingToRebuild,
    marks: 1,
};

#[test]
fn each_slot_down_in_the_last_step(rt: HostRuntime) {
    check_failures(&rt, &LAST_STEP);
}
