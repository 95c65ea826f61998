//! An upgrade after each number of the events of one list: each event is answered as without it, and the volumes are
//! the same.
use super::super::every_call::{AFTER, EVENTS};
use super::super::{SET_A, TestStore, fresh_store, next_run, unlike, version_of};
use crate::testing::same;
use sector_model::Bank;
use std::process::Abort;
use volume_table::{Event, Reply};

// Applies an event, which has to be answered that it was done.
fn apply(rt: &(impl Abort + AllocGlobal), store: &mut TestStore, event: &Event, number: usize) {
    let is_done = matches!(store.apply(rt.alloc(), event), Reply::Done);
    same(rt, (number, is_done), (number, true));
}

// Asks that a store shows the volumes after so many events, in a table of this version.
fn check_after(rt: &(impl Abort + AllocGlobal), store: &mut TestStore, events: usize, version: u8) {
    assert!(rt; events < AFTER.len());
    let place = unlike(rt, store, AFTER[events]);
    let got = (events, place, version_of(rt, store));
    same(rt, got, (events, None, version));
}

// Does the events from one to another.
fn apply_each(
    rt: &(impl Abort + AllocGlobal),
    store: &mut TestStore,
    from: usize,
    to: usize,
    version: u8,
) {
    for at in from..to.min(EVENTS.len()) {
        apply(rt, store, &EVENTS[at], at);
        check_after(rt, store, at.saturating_add(1), version);
    }
}

// Does the list with an upgrade after so many events. The last one, which is another upgrade, then changes nothing.
fn check_upgraded_after(rt: &(impl Abort + AllocGlobal), events: usize) {
    let mut store = fresh_store(rt, SET_A);
    apply_each(rt, &mut store, 0, events, 1);
    apply(rt, &mut store, &Event::Upgrade, events);
    check_after(rt, &mut store, events, 2);
    apply_each(rt, &mut store, events, EVENTS.len(), 2);
    check_after(rt, &mut next_run(rt, store.bank()), EVENTS.len(), 2);
}

#[test]
fn upgrade_after_each_event(rt: HostRuntime) {
    for events in 0..9usize {
        check_upgraded_after(&rt, events);
    }
}
