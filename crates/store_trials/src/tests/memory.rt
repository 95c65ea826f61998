//! Which calls take memory. One that is refused for want of it is made again, and has to be answered then, as each
//! other one has. `.ci/refused_allocations` runs these tests with each allocation refused in turn, and compares how
//! many there are in them.
use super::{ID, SET_A, TestStore, Volumes, geometry_of, is_list, opened, unlike_block};
use crate::testing::same;
use array_io::Array;
use recovery::{assemble, make};
use sector_model::{Bank, Image, MemBank, Plan, Refusal};
use std::alloc::{AllocError, Global};
use std::process::Abort;
use stripe_journal::Entry;
use volume_table::Event;

// Blank devices, as long as set A needs them.
fn blank(alloc: Global) -> Result<Image, AllocError> {
    let mut slots = Vec::with_capacity(alloc, 5)?;
    for sectors in [264, 264, 264, 520, 520] {
        let disk = vec![in alloc; [0; 512]; sectors]?;
        slots.push(Some(disk))?;
    }
    Ok(Image { slots })
}

// A bank with these.
fn blank_bank(rt: &(impl Abort + AllocGlobal)) -> Result<MemBank, Refusal> {
    let image = blank(rt.alloc())?;
    assert!(rt; image.slots.len() >= 5 && image.slots.len() <= 10);
    MemBank::new(rt.alloc(), image, Plan::NONE, 2_000)
}

// The same, once there is memory.
fn some_bank(rt: &(impl Abort + AllocGlobal)) -> MemBank {
    match blank_bank(rt) {
        Ok(bank) => bank,
        Err(refusal) => {
            same(rt, refusal, Refusal::Memory);
            blank_bank(rt).ok().expect(rt, "memory")
        }
    }
}

// A place for entries, once there is memory.
fn some_entry(rt: &(impl Abort + AllocGlobal)) -> Entry {
    match Entry::new(rt.alloc()) {
        Ok(entry) => entry,
        Err(refusal) => {
            same(rt, refusal, Refusal::Memory);
            Entry::new(rt.alloc()).expect(rt, "memory")
        }
    }
}

// A store over set A, which was just made.
fn made(rt: &(impl Abort + AllocGlobal)) -> TestStore {
    let geometry = geometry_of(rt, SET_A);
    let array = make(some_bank(rt), some_entry(rt), ID, geometry);
    opened(rt, array.ok().expect(rt, "the set is made"))
}

// The set on what a bank holds.
fn assembled(rt: &(impl Abort + AllocGlobal), bank: MemBank) -> Array<MemBank> {
    let array = assemble(bank, some_entry(rt), ID);
    array.ok().expect(rt, "the set is assembled")
}

#[test]
fn a_bank_and_two_entries(rt: HostRuntime) {
    let _ = some_bank(&rt);
    let _ = some_entry(&rt);
    let _ = some_entry(&rt);
}

// Each of these calls is done. Slot 1 is given up, replaced and rebuilt in part. The journals hold an entry then, which
// an assembly puts on the members again.
fn change(rt: &impl Abort, store: &mut TestStore) {
    let answers = [
        store.create(b"a", 4),
        store.scrub().map(|_| ()),
        store.fail(1),
        store.write(b"a", 3, &[[0xab; 512]]),
        store.replace(1),
        store.rebuild_step(64).map(|_| ()),
        store.extend(b"a", 64),
        store.read(b"a", 3, &mut [[0; 512]]),
        store.create(b"b", 1),
        store.remove(b"a"),
        store.rename(b"b", b"c"),
        store.upgrade(),
        store.rename(b"c", b"b"),
        store.status().map(|_| ()),
    ];
    same(rt, answers, [Ok(()); 14]);
}

// Making, changing, assembling and opening a set takes no memory but that of its bank and of two entries.
#[test]
fn a_set_on_a_bank_with_two_entries(rt: HostRuntime) {
    let mut store = made(&rt);
    change(&rt, &mut store);
    let mut again = opened(&rt, assembled(&rt, store.into_bank()));
    same(&rt, unlike_block(&rt, &mut again, b"b", &[0]), None);
}

// A list that is refused for want of memory is an event that was answered.
static EVENTS: [Event; 4] = [
    Event::Create {
        name: b"a",
        blocks: 4,
    },
    Event::List,
    Event::Write {
        name: b"a",
        at: 3,
        blocks: &[[0xab; 512]],
    },
    Event::Remove { name: b"b" },
];

const VOLUMES: Volumes = &[(b"a", &[0, 0, 0, 0xab])];

// The list and the removal, which is refused, make no device call.
fn check_acks(rt: &impl Abort, acks: &[u64], now: u64) {
    assert!(rt; acks.len() == 4);
    same(rt, (acks[0], acks[2]), (acks[1], now));
    assert!(rt; acks[1] < acks[2]);
    same(rt, acks[3], now);
}

// Where the events are refused, none of them is done.
fn run(rt: &(impl Abort + AllocGlobal), store: &mut TestStore) {
    let mut acks = Vec::new(rt.alloc());
    let before = store.bank().now();
    if let Err(refusal) = store.run(rt.alloc(), &EVENTS, &mut acks) {
        let left = (refusal, acks.len(), store.bank().now());
        same(rt, left, (Refusal::Memory, 0, before));
        same(rt, store.run(rt.alloc(), &EVENTS, &mut acks), Ok(()));
    }
    check_acks(rt, &acks, store.bank().now());
}

fn list(rt: &(impl Abort + AllocGlobal), store: &mut TestStore) {
    let listed = match store.list(rt.alloc()) {
        Ok(listed) => listed,
        Err(refusal) => {
            same(rt, refusal, Refusal::Memory);
            store.list(rt.alloc()).expect(rt, "memory")
        }
    };
    same(rt, is_list(&listed, VOLUMES), true);
}

// A run and a list: the run takes memory for its acks, and each list for its volumes.
#[test]
fn a_run_and_a_list(rt: HostRuntime) {
    let mut store = made(&rt);
    run(&rt, &mut store);
    list(&rt, &mut store);
    let unlike = unlike_block(&rt, &mut store, b"a", &[0, 0, 0, 0xab]);
    same(&rt, unlike, None);
}
