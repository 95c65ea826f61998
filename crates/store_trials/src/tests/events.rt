//! Events that are applied one by one, and runs of them with their acks.
use super::Answer::{Blocks, Done, Listed, Refused};
use super::Call::{Create, Extend, Fail, List, Read, Remove, Rename, Write};
use super::Step::{Apply, Holds};
use super::calls::OF_TABLE;
use super::{
    SET_A, SMALL, Step, TestStore, Volumes, again, check, check_new, fail_devices, fresh_store,
    unlike,
};
use crate::testing::same;
use sector_model::{Bank, Choice, MemBank, Refusal};
use std::process::Abort;
use volume_table::Event;

// Runs these events on a store. Its acks have to be these, counted from the call that is now the next, and the last of
// them that after the run.
fn run(
    rt: &(impl Abort + AllocGlobal),
    store: &mut TestStore,
    events: &[Event],
    wanted: &[u64],
) -> Vec<u64> {
    let from = store.bank().now();
    let mut acks = Vec::new(rt.alloc());
    same(rt, store.run(rt.alloc(), events, &mut acks), Ok(()));
    same(rt, acks.len(), wanted.len());
    let mut last = from;
    for at in 0..acks.len().min(wanted.len()) {
        last = acks[at];
        same(rt, (at, last.saturating_sub(from)), (at, wanted[at]));
    }
    same(rt, store.bank().now(), last);
    acks
}

// The making of 64 blocks is two commits of 32 sectors in 16 rows, of 153 calls each, and one of 2 rows of the table,
// of 22. The write of a block is one of 15.
#[test]
fn acks(rt: HostRuntime) {
    const EVENTS: &[Event] = &[
        Event::Create {
            name: b"a",
            blocks: 64,
        },
        Event::Write {
            name: b"a",
            at: 0,
            blocks: &[[0x5a; 512]],
        },
    ];
    const STEPS: &[Step] = &[Apply(List, Listed(&[(b"a", &[0; 64])]))];
    let mut store = fresh_store(&rt, SET_A);
    run(&rt, &mut store, EVENTS, &[328, 343]);
    check(&rt, &mut store, STEPS);
}

#[test]
fn each_kind_is_done_or_refused(rt: HostRuntime) {
    const STEPS: &[Step] = &[
        Apply(Create(b"a", 40), Done),
        Apply(Create(b"a", 40), Refused(Refusal::Exists)),
        Apply(Create(b"A", 40), Refused(Refusal::BadName)),
        Apply(Create(b"b", 0), Refused(Refusal::BadSize)),
        Apply(Extend(b"a", 1), Done),
        Apply(Extend(b"b", 1), Refused(Refusal::NoVolume)),
        Apply(Write(b"a", 39, &[0x11; 3]), Refused(Refusal::OutOfRange)),
        Apply(Write(b"a", 38, &[0x11; 3]), Done),
        Apply(Write(b"a", 0, &[0x11; 32]), Done),
        Apply(Write(b"a", 0, &[0x11; 33]), Refused(Refusal::BadCount)),
        Apply(Write(b"a", 0, &[]), Refused(Refusal::BadCount)),
        Apply(Create(b"b", 1), Done),
        Apply(Rename(b"b", b"a"), Refused(Refusal::Exists)),
        Apply(Rename(b"b", b"c"), Done),
        Apply(Rename(b"b", b"d"), Refused(Refusal::NoVolume)),
        Apply(Remove(b"b"), Refused(Refusal::NoVolume)),
        Apply(Remove(b"c"), Done),
        Apply(Fail(5), Refused(Refusal::NotMissing)),
        Apply(Fail(4), Done),
        Apply(Fail(0), Refused(Refusal::WouldLose)),
        Holds(&[(
            b"a",
            &[
                0x11, 0x11, 0x11, 0x11, 0x11, 0x11, 0x11, 0x11, 0x11, 0x11, 0x11, 0x11, 0x11, 0x11,
                0x11, 0x11, 0x11, 0x11, 0x11, 0x11, 0x11, 0x11, 0x11, 0x11, 0x11, 0x11, 0x11, 0x11,
                0x11, 0x11, 0x11, 0x11, 0, 0, 0, 0, 0, 0, 0x11, 0x11, 0x11,
            ],
        )]),
    ];
    check_new(&rt, SET_A, STEPS);
}

// Each block of `a` has its number from 1 in each byte.
#[test]
fn reads_of_each_length(rt: HostRuntime) {
    const STEPS: &[Step] = &[
        Apply(Create(b"a", 40), Done),
        Apply(
            Write(
                b"a",
                0,
                &[
                    1, 2, 3, 4, 5, 6, 7, 8, 9, 10, 11, 12, 13, 14, 15, 16, 17, 18, 19, 20, 21, 22,
                    23, 24, 25, 26, 27, 28, 29, 30, 31, 32,
                ],
            ),
            Done,
        ),
        Apply(Write(b"a", 32, &[33, 34, 35, 36, 37, 38, 39, 40]), Done),
        Apply(Read(b"a", 0, 1), Blocks(&[1])),
        Apply(Read(b"a", 39, 1), Blocks(&[40])),
        Apply(
            Read(b"a", 0, 32),
            Blocks(&[
                1, 2, 3, 4, 5, 6, 7, 8, 9, 10, 11, 12, 13, 14, 15, 16, 17, 18, 19, 20, 21, 22, 23,
                24, 25, 26, 27, 28, 29, 30, 31, 32,
            ]),
        ),
        Apply(
            Read(b"a", 8, 32),
            Blocks(&[
                9, 10, 11, 12, 13, 14, 15, 16, 17, 18, 19, 20, 21, 22, 23, 24, 25, 26, 27, 28, 29,
                30, 31, 32, 33, 34, 35, 36, 37, 38, 39, 40,
            ]),
        ),
        Apply(Read(b"a", 5, 2), Blocks(&[6, 7])),
        Apply(Read(b"a", 0, 0), Refused(Refusal::BadCount)),
        Apply(Read(b"b", 0, 0), Refused(Refusal::NoVolume)),
        Apply(Read(b"a", 0, 33), Refused(Refusal::BadCount)),
        Apply(Read(b"b", 0, 33), Refused(Refusal::NoVolume)),
        Apply(Read(b"a", 0, 34), Refused(Refusal::BadCount)),
        Apply(Read(b"b", 0, 34), Refused(Refusal::NoVolume)),
        Apply(Read(b"a", 0, 65_536), Refused(Refusal::BadCount)),
        Apply(Read(b"b", 0, 65_536), Refused(Refusal::NoVolume)),
        Apply(Read(b"a", 0, 4_294_967_295), Refused(Refusal::BadCount)),
        Apply(Read(b"b", 0, 4_294_967_295), Refused(Refusal::NoVolume)),
        Apply(Read(b"a", 40, 1), Refused(Refusal::OutOfRange)),
        Apply(Read(b"a", 9, 32), Refused(Refusal::OutOfRange)),
        Apply(Read(b"a", 4_294_967_295, 1), Refused(Refusal::OutOfRange)),
        Apply(Read(b"a", 4_294_967_295, 32), Refused(Refusal::OutOfRange)),
    ];
    check_new(&rt, SET_A, STEPS);
}

// Events, of which the third is refused.
const EVENTS: &[Event] = &[
    Event::Create {
        name: b"b",
        blocks: 1,
    },
    Event::Write {
        name: b"b",
        at: 0,
        blocks: &[[0x11; 512]],
    },
    Event::Create {
        name: b"b",
        blocks: 1,
    },
    Event::Create {
        name: b"a",
        blocks: 3,
    },
    Event::Write {
        name: b"a",
        at: 1,
        blocks: &[[0x22; 512], [0x33; 512]],
    },
    Event::Read {
        name: b"a",
        at: 0,
        count: 3,
    },
    Event::Remove { name: b"b" },
    Event::Extend { name: b"a", by: 2 },
    Event::List,
];

// Their acks. A commit of a block makes 15 calls, one of two sectors in two rows 22, as that of the table where a
// volume is made or removed, and one of three in three 29. A read of 3 blocks makes 3 calls. What is refused makes
// none, and the events after it are done.
const ACKS: &[u64] = &[37, 52, 52, 103, 125, 128, 150, 187, 187];

// The volumes after each of them.
const AFTER: &[Volumes] = &[
    &[(b"b", &[0])],
    &[(b"b", &[0x11])],
    &[(b"b", &[0x11])],
    &[(b"a", &[0; 3]), (b"b", &[0x11])],
    &[(b"a", &[0, 0x22, 0x33]), (b"b", &[0x11])],
    &[(b"a", &[0, 0x22, 0x33]), (b"b", &[0x11])],
    &[(b"a", &[0, 0x22, 0x33])],
    &[(b"a", &[0, 0x22, 0x33, 0, 0])],
    &[(b"a", &[0, 0x22, 0x33, 0, 0])],
];

// What is refused gets an ack too.
#[test]
fn refused_in_a_run(rt: HostRuntime) {
    const STEPS: &[Step] = &[Holds(&[(b"a", &[0, 0x22, 0x33, 0, 0])])];
    let mut store = fresh_store(&rt, SMALL);
    run(&rt, &mut store, EVENTS, ACKS);
    check(&rt, &mut store, STEPS);
}

// Checks crashes at these calls, with each one slot absent or none: the volumes have to be these.
fn check_crashes(
    rt: &(impl Abort + AllocGlobal),
    bank: &MemBank,
    calls: &[u64],
    after: &[Volumes],
) {
    same(rt, calls.len(), after.len());
    for at in 0..calls.len().min(after.len()) {
        for choice in [Choice::Oldest, Choice::Newest, Choice::Mixed(3)] {
            for absent in 0..6usize {
                let mut store = again(rt, bank, calls[at], choice, absent);
                let place = unlike(rt, &mut store, after[at]);
                same(rt, (at, absent, place), (at, absent, None));
            }
        }
    }
}

// A crash at the call of an ack keeps the event, without any one slot too.
#[test]
fn crashes_at_acks(rt: HostRuntime) {
    let mut store = fresh_store(&rt, SMALL);
    let acks = run(&rt, &mut store, EVENTS, ACKS);
    check_crashes(&rt, store.bank(), &acks, AFTER);
}

// Runs events on a store that was ended or ends after the first of them. The acks have to be 7, which was there before,
// and that one's.
fn check_ended_run(
    rt: &(impl Abort + AllocGlobal),
    store: &mut TestStore,
    events: &[Event],
    acks: &mut Vec<u64>,
    done: u64,
) {
    let answer = store.run(rt.alloc(), events, acks);
    same(rt, answer, Err(Refusal::TwoLost));
    same(rt, acks.as_slice(), &[7, done]);
}

// Two devices go down after the first of three events, which makes two commits of two sectors. Acks that were there
// stay.
#[test]
fn run_that_ends_the_store(rt: HostRuntime) {
    const STEPS: &[Step] = &[
        Apply(Create(b"a", 2), Refused(Refusal::TwoLost)),
        Apply(Extend(b"a", 1), Refused(Refusal::TwoLost)),
        Apply(Remove(b"a"), Refused(Refusal::TwoLost)),
        Apply(Read(b"a", 0, 1), Refused(Refusal::TwoLost)),
        Apply(Read(b"a", 0, 33), Refused(Refusal::TwoLost)),
        Apply(Write(b"a", 0, &[0x11]), Refused(Refusal::TwoLost)),
        Apply(List, Refused(Refusal::TwoLost)),
        Apply(Fail(0), Refused(Refusal::TwoLost)),
    ];
    const EVENTS: &[Event] = &[
        Event::Create {
            name: b"a",
            blocks: 2,
        },
        Event::Extend { name: b"a", by: 1 },
        Event::List,
    ];
    let mut store = fresh_store(&rt, SET_A);
    let made = 2 * OF_TABLE.calls();
    let done = store.bank().now().saturating_add(made);
    fail_devices(&rt, &mut store, &[1, 3], made);
    let mut acks = Vec::new(rt.alloc());
    acks.push(7).expect(&rt, "memory");
    check_ended_run(&rt, &mut store, EVENTS, &mut acks, done);
    let last = store.bank().now();
    check(&rt, &mut store, STEPS);
    check_ended_run(&rt, &mut store, EVENTS, &mut acks, done);
    same(&rt, store.bank().now(), last);
}
