//! Each one device goes down at each call of the list, also of the assembly in front of it, and is back in the run
//! after it.
use super::super::{
    ID, NO_SLOT, SET_A, TestStore, again, bank_of, fail_devices, fresh_store, image_now, opened,
};
use super::{EVENTS, begun, fresh_image, shown, wanted};
use crate::testing::same;
use recovery::assemble;
use sector_model::{Bank, Choice, Image, MemBank, Plan};
use std::process::Abort;
use stripe_journal::Entry;
use superblock::State;
use volume_table::{Event, Reply};

// The calls that assemble and open the set where no device fails: two superblock places of each of five slots, the
// place of the table in each, two seals of each journal, and the eleven sectors of the table of volumes.
const OPEN_CALLS: u64 = 10 + 5 + 4 + 11;

// The calls of each event where no device fails. Each sector that an entry holds is written three times, seals and
// journals make 6 calls, and each member that is written is flushed. Ten new blocks lie in 8 rows, of which 2 are
// whole; those of the extension in 10 rows, on two members with the parity; and twenty new ones in 12 rows, of which 8
// are whole. Then comes the table, in two rows, or in one where only a length changes. A new name is one row of the
// table, and an upgrade 16 rows, of which 9 are whole and 7 have two sectors.
const EVENT_CALLS: [u64; 9] = [
    (6 + 3 * 18 + 6 + 3) + 22,
    15,
    (10 + 3 * 20 + 6 + 2) + 15,
    29,
    29 + 22,
    22,
    (4 + 3 * 32 + 6 + 3) + 22,
    15,
    7 + 3 * (9 * 3 + 7 * 2) + 6 + 3,
];

// All of them.
const CALLS: u64 = 616;

// The first call of the seals of the upgrade, after the first eight events, seven reads and two bodies with a flush
// each.
const UPGRADE_SEALS: u64 = 477 + 7 + 2 * 42;

// The last call to a slot, counted from the first: it is in the commit of the upgrade. Each journal gets a seal and a
// flush, and after these four calls the members 0 to 2 get 9, 16 and 16 sectors and a flush, one after the other.
fn last_call(slot: u8) -> u64 {
    match slot {
        0 => UPGRADE_SEALS + 4 + 9,
        1 => UPGRADE_SEALS + 4 + 10 + 16,
        2 => UPGRADE_SEALS + 4 + 10 + 17 + 16,
        3 => UPGRADE_SEALS + 1,
        _ => UPGRADE_SEALS + 3,
    }
}

// Where a slot goes down: at its first call from one on, counted from the first of the assembly.
#[derive(Clone, Copy)]
struct Failure {
    slot: u8,
    call: u64,
}

impl Failure {
    // What fails is named so.
    fn number(&self) -> (u8, u64) {
        (self.slot, self.call)
    }

    // Whether there is such a call.
    fn happens(&self) -> bool {
        self.call <= last_call(self.slot)
    }
}

// A store over these devices, of which one fails.
fn begun_with(rt: &(impl Abort + AllocGlobal), image: Image, failure: Failure) -> TestStore {
    let mut bank = bank_of(rt, image);
    let mut plan = Plan::NONE;
    assert!(rt; failure.slot < 10);
    plan.down[failure.slot as usize] = Some(failure.call);
    bank.plan = plan;
    let entry = Entry::new(rt.alloc()).expect(rt, "memory");
    let array = assemble(bank, entry, ID);
    opened(rt, array.ok().expect(rt, "the set is assembled"))
}

// Does the events, each of which has to be answered that it was done.
fn do_all(rt: &(impl Abort + AllocGlobal), store: &mut TestStore, at: Failure) {
    for event in &EVENTS {
        let is_done = matches!(store.apply(rt.alloc(), event), Reply::Done);
        same(rt, (at.slot, at.call, is_done), (at.slot, at.call, true));
    }
}

// Asks that the status of a store tells that the slot is missing, in the second table, where it failed, and else that
// all are in sync, in the first; and that the table of volumes has version 2.
fn check_told(rt: &impl Abort, store: &TestStore, failure: Failure) {
    let status = store.status().expect(rt, "the status is told");
    let generation = if failure.happens() { 2 } else { 1 };
    let number = failure.number();
    let told = (status.generation, status.version);
    same(rt, (number, told), (number, (generation, 2)));
    for slot in 0..5usize {
        let is_missing = slot == failure.slot as usize && failure.happens();
        let state = if is_missing {
            State::Missing
        } else {
            State::InSync
        };
        same(
            rt,
            (number, slot, status.states[slot]),
            (number, slot, state),
        );
    }
}

// Asks that a store tells the slot missing where it failed, and shows the volumes after all events.
fn check_shown(rt: &(impl Abort + AllocGlobal), store: &mut TestStore, failure: Failure) {
    check_told(rt, store, failure);
    let number = failure.number();
    let got = shown(rt, store, EVENTS.len());
    same(rt, (number, got), (number, wanted(rt, EVENTS.len())));
}

// Asks the same of a later run with all devices, of which those hold what the choice takes.
fn check_later(rt: &(impl Abort + AllocGlobal), bank: &MemBank, choice: Choice, failure: Failure) {
    let mut store = again(rt, bank, bank.now(), choice, NO_SLOT);
    check_shown(rt, &mut store, failure);
}

// Asks that the slot went down where it has a call, and that there are as many calls as there have to be where it has
// none.
fn check_down(rt: &impl Abort, bank: &MemBank, at: Failure) {
    let number = at.number();
    assert!(rt; at.slot < bank.devices());
    same(rt, (number, bank.is_down(at.slot)), (number, at.happens()));
    if !at.happens() {
        same(rt, (number, bank.now()), (number, CALLS));
    }
}

// Does the list on these devices, of which one fails, and assembles them twice again. How often they were assembled
// then.
fn check_failure(rt: &(impl Abort + AllocGlobal), image: Image, at: Failure) -> u64 {
    let mut store = begun_with(rt, image, at);
    do_all(rt, &mut store, at);
    fail_devices(rt, &mut store, &[], 0);
    check_down(rt, store.bank(), at);
    let mut later = 0u64;
    for choice in [Choice::Oldest, Choice::Newest] {
        check_later(rt, store.bank(), choice, at);
        later = later.saturating_add(1);
    }
    check_shown(rt, &mut store, at);
    later
}

// Does events, of which each has to make so many device calls. How many there are then.
fn calls_of(
    rt: &(impl Abort + AllocGlobal),
    store: &mut TestStore,
    events: &[Event],
    wanted: &[u64],
) -> u64 {
    for at in 0..events.len().min(wanted.len()) {
        let before = store.bank().now();
        let _ = store.apply(rt.alloc(), &events[at]);
        let calls = store.bank().now().saturating_sub(before);
        same(rt, (at, calls), (at, wanted[at]));
    }
    store.bank().now()
}

// How many device calls there are where no device fails.
fn calls_of_all(rt: &(impl Abort + AllocGlobal)) -> u64 {
    let mut store = begun(rt, fresh_image(rt));
    same(rt, store.bank().now(), OPEN_CALLS);
    calls_of(rt, &mut store, &EVENTS, &EVENT_CALLS)
}

// Checks the failures of a slot from each call on, and from the end on, where it does not fail: there are so many
// failures in 617 runs, and two later runs after each.
fn check_slot(rt: &(impl Abort + AllocGlobal), slot: u8, failures: u64) {
    let store = fresh_store(rt, SET_A);
    let (mut runs, mut failed, mut later) = (0u64, 0u64, 0u64);
    for call in 0..calls_of_all(rt).saturating_add(1) {
        let at = Failure { slot, call };
        runs = runs.saturating_add(1);
        failed = failed.saturating_add(u64::from(at.happens()));
        later = later.saturating_add(check_failure(rt, image_now(rt, store.bank()), at));
    }
    same(rt, (runs, failed, later), (617, failures, 1_234));
}

// The last event is the upgrade, from call 477 on: a read of each of seven rows of member 0, to 483; 41 writes and a
// flush of bodies on each journal, to 525 and 567; the seals with a flush each, 568 to 571; and 9, 16 and 16 writes and
// a flush on members 0, 1 and 2, to 581, 598 and 615. A slot fails from call 0 to its last call on.
#[test]
fn member_0_down_at_every_call(rt: HostRuntime) {
    check_slot(&rt, 0, 582);
}

#[test]
fn member_1_down_at_every_call(rt: HostRuntime) {
    check_slot(&rt, 1, 599);
}

#[test]
fn member_2_down_at_every_call(rt: HostRuntime) {
    check_slot(&rt, 2, 616);
}

#[test]
fn journal_3_down_at_every_call(rt: HostRuntime) {
    check_slot(&rt, 3, 570);
}

#[test]
fn journal_4_down_at_every_call(rt: HostRuntime) {
    check_slot(&rt, 4, 572);
}
