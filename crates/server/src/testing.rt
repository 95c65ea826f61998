//! What this crate's tests share.

pub(crate) mod streams;

use layout_map::Geometry;
use recovery::make;
use sector_model::{Image, MemBank, Plan, Refusal};
use std::fmt::Debug;
use std::process::Abort;
use stripe_journal::Entry;
use volume_table::Store;

/// The id of each set.
pub(crate) const ID: [u8; 16] = [0, 1, 2, 3, 4, 5, 6, 7, 8, 9, 10, 11, 12, 13, 14, 15];

/// The status of the set of `fresh_store`, as it is told: a line, and 484 bytes.
pub(crate) const STATUS: &str = "\
status 484
{\"chunk\":8,\"extents\":7,\"free\":7,\"generation\":1,\"id\":\"000102030405060708090a0b0c0d0e0f\",\
\"left\":0,\"members\":3,\"position\":0,\"rows\":256,\"slots\":[\
{\"incarnation\":1,\"role\":\"member\",\"slot\":0,\"state\":\"in-sync\"},\
{\"incarnation\":1,\"role\":\"member\",\"slot\":1,\"state\":\"in-sync\"},\
{\"incarnation\":1,\"role\":\"member\",\"slot\":2,\"state\":\"in-sync\"},\
{\"incarnation\":1,\"role\":\"journal\",\"slot\":3,\"state\":\"in-sync\"},\
{\"incarnation\":1,\"role\":\"journal\",\"slot\":4,\"state\":\"in-sync\"}],\
\"stripes\":32,\"table\":1,\"volumes\":0}";

/// Ends the test where `got` is not `want`. As a call it leaves the test a fraction of what `assert_eq!` would
/// put into it, and so of the time that the test is checked in.
pub(crate) fn same<T: PartialEq + Debug + Drop>(rt: &impl Abort, got: T, want: T) {
    assert_eq!(rt; got, want);
}

/// A store over a set of 3 members, chunk 8 and 32 stripes that was just made: it has 7 extents of 64 blocks.
pub(crate) fn fresh_store(rt: &(impl Abort + AllocGlobal)) -> Store<MemBank> {
    made_store(rt, Geometry::new(3, 8, 32), 8_000)
}

/// A store over a set of 3 members and this geometry that was just made. Its devices take so many writes and flushes.
pub(crate) fn made_store(
    rt: &(impl Abort + AllocGlobal),
    geometry: Result<Geometry, Refusal>,
    room: usize,
) -> Store<MemBank> {
    let geometry = geometry.expect(rt, "a geometry");
    let member = geometry.rows() as usize + 8;
    let journal = geometry.format.journal_sectors() as usize;
    let mut slots = Vec::new(rt.alloc());
    for sectors in [member, member, member, journal, journal] {
        let disk = vec![in rt.alloc(); [0; 512]; sectors].expect(rt, "memory");
        slots.push(Some(disk)).expect(rt, "memory");
    }
    let image = Image { slots };
    assert!(rt; image.slots.len() >= 5 && image.slots.len() <= 10);
    let bank = MemBank::new(rt.alloc(), image, Plan::NONE, room).expect(rt, "memory");
    let entry = Entry::new(rt.alloc()).expect(rt, "memory");
    let array = make(bank, entry, ID, geometry).ok().expect(rt, "a set");
    Store::open(array).ok().expect(rt, "a store")
}

/// From the call of this number on the devices in these slots go down.
pub(crate) fn fail_at(rt: &impl Abort, store: &mut Store<MemBank>, slots: &[usize], call: u64) {
    let mut plan = Plan::NONE;
    for slot in slots {
        assert!(rt; *slot < 10);
        plan.down[*slot] = Some(call);
    }
    store.array.bank.plan = plan;
}
