//! A device that is away in a run, and back in the next one.
use super::rows::{member_down, tells};
use super::{MEMBER_DOWN, REBUILDING, answers, bank_of, image_now, without};
use crate::open_on;
use crate::testing::{ID, same};
use sector_model::{Image, MemBank};
use std::mem;
use std::process::Abort;
use volume_table::Store;

// A store over the set on these devices, in a run of its own.
fn opened(rt: &(impl Abort + AllocGlobal), image: Image) -> Store<MemBank> {
    let (bank, entry) = bank_of(rt, image);
    open_on(bank, entry, ID).expect(rt, "a store")
}

// The next run's devices, with that of slot 2 from an old image.
fn returned(rt: &impl Abort, mut image: Image, mut old: Image) -> Image {
    assert!(rt; image.slots.len() > 2 && old.slots.len() > 2);
    mem::swap(&mut image.slots[2], &mut old.slots[2]);
    image
}

// Slot 2 is away in the next run, and its old device is back in the one after that, where it is taken as a new one.
#[test]
fn old_member_returns(rt: HostRuntime) {
    let store = member_down(&rt);
    let old = image_now(&rt, &store);
    let image = without(&rt, image_now(&rt, &store), 2);
    let mut store = opened(&rt, image);
    answers(&rt, &mut store, b"write a 0 99*512\n", b"ok\n");
    let image = returned(&rt, image_now(&rt, &store), old);
    let mut store = opened(&rt, image);
    tells(&rt, &store, MEMBER_DOWN);
    answers(&rt, &mut store, b"read a 0 1\n", b"99*512\n");
    same(&rt, store.replace(2), Ok(()));
    tells(&rt, &store, REBUILDING);
    answers(&rt, &mut store, b"read a 0 1\n", b"99*512\n");
}
