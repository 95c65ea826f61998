//! A set that gets whole again by the calls of its store, and by the events of these.
use super::Answer::{Blocks, Done, Refused, Scrubbed, Stepped};
use super::Call::{Create, Fail, Read, RebuildStep, Replace, Scrub, Write};
use super::Step::{Apply, Do, Ended, Failure, Slot, Status};
use super::calls::OF_ONE;
use super::{
    NO_SLOT, SET_A, SMALL, Step, TestStore, again, assembled, check, check_missing, check_new,
    fresh_store, image_now, opened,
};
use crate::testing::same;
use rebuild::Progress::{Complete, Position};
use scrub::ScrubReport;
use sector_model::{Bank, Choice, Image, MemBank, Refusal};
use std::mem;
use std::process::Abort;
use superblock::State;
use volume_table::Event;

// No row of set A is unsound.
const SOUND: ScrubReport = ScrubReport {
    rows: 256,
    bad: 0,
    first_bad: None,
};

// Block 16 is logical sector 80, in row 40, and block 336 is logical sector 400, in row 200: one is rebuilt when it is
// written, the other is not.
#[test]
fn rebuild_under_writes(rt: HostRuntime) {
    check_new(
        &rt,
        SET_A,
        &[
            Apply(Create(b"a", 448), Done),
            Apply(Fail(2), Done),
            Apply(Replace(2), Done),
            Apply(RebuildStep(64), Stepped(Position(64))),
            Apply(Write(b"a", 16, &[0x44]), Done),
            Apply(Write(b"a", 336, &[0x55]), Done),
            Apply(RebuildStep(64), Stepped(Position(128))),
            Apply(RebuildStep(64), Stepped(Position(192))),
            Apply(RebuildStep(64), Stepped(Complete)),
            Apply(Scrub, Scrubbed(SOUND)),
            Apply(Read(b"a", 15, 3), Blocks(&[0, 0x44, 0])),
            Apply(Read(b"a", 335, 3), Blocks(&[0, 0x55, 0])),
        ],
    );
}

// The same by a run: what ends nothing gets an ack, also where it is refused.
#[test]
fn run_rebuilds_a_set(rt: HostRuntime) {
    const EVENTS: &[Event] = &[
        Event::Fail { slot: 0 },
        Event::Scrub,
        Event::Replace { slot: 0 },
        Event::Replace { slot: 0 },
        Event::RebuildStep { rows: 64 },
        Event::RebuildStep { rows: 64 },
        Event::RebuildStep { rows: 64 },
        Event::Scrub,
    ];
    let mut store = fresh_store(&rt, SMALL);
    let mut acks = Vec::new(rt.alloc());
    same(&rt, store.run(rt.alloc(), EVENTS, &mut acks), Ok(()));
    same(&rt, acks.len(), EVENTS.len());
    check_missing(&rt, &store, 0, NO_SLOT);
}

#[test]
fn replies_of_the_set(rt: HostRuntime) {
    check_new(
        &rt,
        SET_A,
        &[
            Apply(Fail(5), Refused(Refusal::NotMissing)),
            Apply(Replace(0), Refused(Refusal::NotMissing)),
            Apply(RebuildStep(64), Refused(Refusal::NothingToRebuild)),
            Apply(Scrub, Scrubbed(SOUND)),
            Apply(Fail(0), Done),
            Apply(Fail(1), Refused(Refusal::WouldLose)),
            Apply(Fail(0), Done),
            Apply(Fail(5), Refused(Refusal::WouldLose)),
            Apply(Scrub, Refused(Refusal::Incomplete)),
            Apply(RebuildStep(64), Refused(Refusal::NothingToRebuild)),
            Apply(Replace(1), Refused(Refusal::NotMissing)),
            Apply(Replace(5), Refused(Refusal::NotMissing)),
            Apply(Replace(0), Done),
            Apply(Replace(0), Refused(Refusal::NotMissing)),
            Apply(Scrub, Refused(Refusal::Incomplete)),
            Apply(RebuildStep(0), Stepped(Position(0))),
            Apply(RebuildStep(1000), Stepped(Position(64))),
            Apply(RebuildStep(1), Stepped(Position(65))),
            Apply(RebuildStep(64), Stepped(Position(129))),
            Apply(RebuildStep(64), Stepped(Position(193))),
            Apply(RebuildStep(64), Stepped(Complete)),
            Apply(Scrub, Scrubbed(SOUND)),
        ],
    );
}

// The device of slot 2 goes down at its flush, which is the last call of a write of one block. A run without it writes
// again, and the next one has it back.
#[test]
fn old_member_returns(rt: HostRuntime) {
    let mut store = fresh_store(&rt, SET_A);
    check(
        &rt,
        &mut store,
        &[
            Do(Create(b"a", 64), Done),
            Failure(&[2], OF_ONE.last_call(2)),
        ],
    );
    check(
        &rt,
        &mut store,
        &[
            Do(Write(b"a", 0, &[0x66]), Done),
            Do(Read(b"a", 0, 1), Blocks(&[0x66])),
        ],
    );
    check(
        &rt,
        &mut store,
        &[Slot(2, State::Missing, 1), Status([256, 2, 7, 6, 1])],
    );
    let old = image_now(&rt, store.bank());
    let now = store.bank().now();
    let mut store = again(&rt, store.bank(), now, Choice::Newest, 2);
    check(&rt, &mut store, &[Do(Write(b"a", 0, &[0x99]), Done)]);
    let mut image = image_now(&rt, store.bank());
    put_back(&rt, &mut image, old, 2);
    let mut store = opened(&rt, assembled(&rt, image));
    check(
        &rt,
        &mut store,
        &[
            Slot(2, State::Missing, 1),
            Status([256, 2, 7, 6, 1]),
            Do(Read(b"a", 0, 1), Blocks(&[0x99])),
            Do(Replace(2), Done),
            Slot(2, State::Rebuilding, 2),
            Status([256, 3, 7, 6, 1]),
            Do(Read(b"a", 0, 1), Blocks(&[0x99])),
        ],
    );
}

// What the status of a store tells of the set and of slot 2: the generation and the position, and the slot's state and
// incarnation.
fn told(rt: &impl Abort, store: &TestStore) -> (u64, u64, State, u64) {
    let status = store.status().expect(rt, "the status is told");
    (
        status.generation,
        status.position,
        status.states[2],
        status.incarnations[2],
    )
}

// A store of set A on which these steps were taken, in a run that began with the devices of this bank and a blank one
// in slot 2, of 264 sectors as each member has.
fn replaced(rt: &(impl Abort + AllocGlobal), bank: &MemBank, steps: &[Step]) -> TestStore {
    let mut image = image_now(rt, bank);
    let blank = vec![in rt.alloc(); [0; 512]; 264].expect(rt, "memory");
    assert!(rt; image.slots.len() == 5);
    let _ = mem::replace(&mut image.slots[2], Some(blank));
    let mut store = opened(rt, assembled(rt, image));
    check(rt, &mut store, steps);
    store
}

// A store whose slot 2 is missing, since its replacement was given up as the first device was.
fn given_up_twice(rt: &(impl Abort + AllocGlobal)) -> TestStore {
    const WITH_THE_FIRST: &[Step] = &[
        Do(Create(b"a", 64), Done),
        Do(Write(b"a", 0, &[0x66]), Done),
        Do(Fail(2), Done),
    ];
    const WITH_THE_SECOND: &[Step] = &[Do(Replace(2), Done), Do(Fail(2), Done)];
    let mut store = fresh_store(rt, SET_A);
    check(rt, &mut store, WITH_THE_FIRST);
    replaced(rt, store.bank(), WITH_THE_SECOND)
}

// A store over the devices of a bank, with that of slot 2 as it is on an earlier one.
fn with_earlier(rt: &(impl Abort + AllocGlobal), bank: &MemBank, earlier: &MemBank) -> TestStore {
    let mut image = image_now(rt, bank);
    put_back(rt, &mut image, image_now(rt, earlier), 2);
    opened(rt, assembled(rt, image))
}

// A replacement that was given up is not what the table counts on, by its incarnation, when it returns after the next
// one. The table is the first when the set is made, and a further one by each `fail` and `replace`, by the step, and by
// the start with the old device.
#[test]
fn returned_replacement(rt: HostRuntime) {
    const WITH_THE_THIRD: &[Step] = &[
        Do(Replace(2), Done),
        Do(RebuildStep(64), Stepped(Position(64))),
    ];
    let second = given_up_twice(&rt);
    same(&rt, told(&rt, &second), (4, 0, State::Missing, 2));
    let third = replaced(&rt, second.bank(), WITH_THE_THIRD);
    same(&rt, told(&rt, &third), (6, 64, State::Rebuilding, 3));
    let mut last = with_earlier(&rt, third.bank(), second.bank());
    same(&rt, told(&rt, &last), (7, 0, State::Missing, 3));
    check(&rt, &mut last, &[Do(Read(b"a", 0, 1), Blocks(&[0x66]))]);
}

// The device of a slot as it was in an earlier image.
fn put_back(rt: &impl Abort, image: &mut Image, mut earlier: Image, slot: usize) {
    assert!(rt; slot < image.slots.len() && slot < earlier.slots.len());
    let device = mem::replace(&mut earlier.slots[slot], None);
    assert!(rt; device.is_some());
    let _ = mem::replace(&mut image.slots[slot], device);
}

// A device of no use leaves its slot missing, and its store open; that of another slot ends it.
#[test]
fn failures_in_a_replace(rt: HostRuntime) {
    let mut store = fresh_store(&rt, SMALL);
    check(
        &rt,
        &mut store,
        &[
            Do(Fail(0), Done),
            Failure(&[0], 0),
            Do(Replace(0), Refused(Refusal::NotUsable)),
            Do(Replace(0), Refused(Refusal::NotUsable)),
        ],
    );
    check_missing(&rt, &store, 4, 0);
    check_new(
        &rt,
        SMALL,
        &[
            Do(Fail(0), Done),
            Failure(&[1], 0),
            Apply(Replace(0), Refused(Refusal::TwoLost)),
            Ended(Refusal::TwoLost),
        ],
    );
}

// The rebuilding member is missing once its device is down; another slot's failure ends the store.
#[test]
fn failures_in_a_step(rt: HostRuntime) {
    let mut store = fresh_store(&rt, SMALL);
    check(
        &rt,
        &mut store,
        &[
            Do(Fail(0), Done),
            Do(Replace(0), Done),
            Failure(&[0], 0),
            Do(RebuildStep(64), Refused(Refusal::NothingToRebuild)),
            Do(RebuildStep(64), Refused(Refusal::NothingToRebuild)),
        ],
    );
    check_missing(&rt, &store, 5, 0);
    check_new(
        &rt,
        SMALL,
        &[
            Do(Fail(0), Done),
            Do(Replace(0), Done),
            Failure(&[1], 0),
            Apply(RebuildStep(64), Refused(Refusal::TwoLost)),
            Ended(Refusal::TwoLost),
        ],
    );
}

// A member that fails in a scrub is missing, and the store goes on.
#[test]
fn failure_in_a_scrub(rt: HostRuntime) {
    let mut store = fresh_store(&rt, SMALL);
    check(
        &rt,
        &mut store,
        &[
            Failure(&[1], 0),
            Apply(Scrub, Refused(Refusal::Incomplete)),
            Apply(Create(b"a", 1), Done),
        ],
    );
    check_missing(&rt, &store, 3, 1);
}
