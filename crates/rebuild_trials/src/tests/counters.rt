//! Counters at their limit, 2^62: what would raise them is refused.
use super::device_calls::calls_of;
use super::refusals::{Answer, check_asked};
use super::{
    Case, Device, Job, Known, OF_3, assembled, before, call, check_list, image_now, journal,
    last_step, member, middle_step, take, told, told_when_done, wanted,
};
use crate::testing::{all, same};
use rebuild::Progress;
use sector_model::{Bank, Image, MemBank, Plan, Refusal, Sector};
use std::process::Abort;
use superblock::State;

const LIMIT: u64 = 1 << 62;

// A generation for the table of a set, and an incarnation for a slot of it, if any.
#[derive(Clone, Copy)]
struct Counters {
    generation: u64,
    incarnation: Option<(u8, u64)>,
}

// Puts a number into a sector, from this byte on.
fn put_number(rt: &impl Abort, sector: &mut Sector, first: usize, number: u64) {
    let bytes = number.to_le_bytes();
    assert!(rt; first <= 504);
    for at in 0..8usize {
        sector[first + at] = bytes[at];
    }
}

// Gives the superblock of a device that the table counts on this generation and incarnation, by its bytes.
fn put_counters(rt: &impl Abort, image: &mut Image, slot: u8, old: u64, counters: Counters) {
    let at = slot as usize;
    assert!(rt; at < image.slots.len());
    let disk = image.slots[at].as_deref_mut();
    let disk = disk.expect(rt, "there is a device");
    let (from, to) = ((old % 2) as usize, (counters.generation % 2) as usize);
    assert!(rt; disk.len() > 2);
    let mut sector = disk[from];
    put_number(rt, &mut sector, 24, counters.generation);
    if let Some((of, incarnation)) = counters.incarnation {
        assert!(rt; of < 10);
        put_number(rt, &mut sector, 48 + 16 * of as usize, incarnation);
        if of == slot {
            put_number(rt, &mut sector, 208, incarnation);
        }
    }
    disk[from] = all(0);
    disk[1 - from] = all(0);
    disk[to] = sector;
}

// The set of a case before its call, with such counters.
fn with_counters(rt: &(impl Abort + AllocGlobal), case: &Case, counters: Counters) -> Known {
    let known = before(rt, case);
    let table = &known.array.table;
    let mut image = image_now(rt, &known.array.bank);
    for slot in 0..table.geometry.members.saturating_add(2) {
        assert!(rt; slot < 10);
        if table.states[slot as usize] != State::Missing {
            put_counters(rt, &mut image, slot, table.generation, counters);
        }
    }
    let array = assembled(rt, image);
    same(rt, array.table.generation, counters.generation);
    Known {
        array,
        list: known.list,
    }
}

const WORN: Answer = Err(Refusal::Worn);

const NOT_MISSING: Answer = Err(Refusal::NotMissing);

const NOT_USABLE: Answer = Err(Refusal::NotUsable);

// Checks a slot that could be replaced but for a counter of these. What is refused for another reason is refused so,
// and the list is what it was.
fn check_worn(rt: &(impl Abort + AllocGlobal), case: &Case, counters: Counters) {
    let mut known = with_counters(rt, case, counters);
    let asked = [
        (case.slot, Job::Replace, WORN),
        (0, Job::Replace, NOT_MISSING),
        (5, Job::Replace, NOT_MISSING),
    ];
    check_asked(rt, 0, &mut known.array, &asked);
    check_list(rt, (0, 0), &mut known.array, &known.list);
    let mut image = image_now(rt, &known.array.bank);
    take(rt, &mut image, case.slot);
    let asked = [(case.slot, Job::Replace, NOT_USABLE)];
    check_asked(rt, 1, &mut assembled(rt, image), &asked);
}

#[test]
fn replacing_with_a_counter_at_its_limit(rt: HostRuntime) {
    for case in [
        member(OF_3, 1, Device::Own),
        journal(OF_3, 3, Device::Own, true),
        journal(OF_3, 4, Device::Blank, false),
    ] {
        let generation = Counters {
            generation: LIMIT,
            incarnation: None,
        };
        check_worn(&rt, &case, generation);
        let incarnation = Counters {
            generation: 9,
            incarnation: Some((case.slot, LIMIT)),
        };
        check_worn(&rt, &case, incarnation);
    }
}

#[test]
fn a_step_with_a_counter_at_its_limit(rt: HostRuntime) {
    for case in [
        middle_step(OF_3, 1, Device::Own),
        last_step(OF_3, 0, Device::Blank),
    ] {
        let limit = Counters {
            generation: LIMIT,
            incarnation: Some((case.slot, LIMIT)),
        };
        let mut known = with_counters(&rt, &case, limit);
        let asked = [
            (case.slot, case.job, WORN),
            (case.slot, Job::Step(1), WORN),
            (
                case.slot,
                Job::Step(0),
                Ok(Some(Progress::Position(case.position))),
            ),
            (case.slot, Job::Replace, NOT_MISSING),
        ];
        check_asked(&rt, 2, &mut known.array, &asked);
        check_list(&rt, (2, 0), &mut known.array, &known.list);
    }
}

// Cases of which each raises a counter.
const CASES: usize = 4;

fn case_of(number: usize) -> Case {
    match number {
        0 => member(OF_3, 1, Device::Own),
        1 => journal(OF_3, 3, Device::Ahead, true),
        2 => middle_step(OF_3, 2, Device::Own),
        _ => last_step(OF_3, 0, Device::Own),
    }
}

// A counter may reach its limit, and another slot's may stand there.
#[test]
fn counters_reach_their_limit(rt: HostRuntime) {
    for number in 0..CASES {
        let case = case_of(number);
        let raised = Counters {
            generation: LIMIT - 1,
            incarnation: Some((case.slot, LIMIT - 1)),
        };
        check_done(&rt, &case, raised);
        let other = Counters {
            generation: 8,
            incarnation: Some((case.slot.wrapping_add(1) % 3, LIMIT)),
        };
        check_done(&rt, &case, other);
    }
}

// Checks a call with such counters.
fn check_done(rt: &(impl Abort + AllocGlobal), case: &Case, counters: Counters) {
    let mut known = with_counters(rt, case, counters);
    let old = told(&known.array.table);
    same(rt, call(&mut known.array, case), Ok(wanted(case)));
    let new = told_when_done(rt, case, old);
    same(rt, told(&known.array.table), new);
    let mut again = assembled(rt, image_now(rt, &known.array.bank));
    same(rt, told(&again.table), new);
    check_list(rt, (3, 0), &mut again, &known.list);
}

// The own device fails as the last that gets the table with the last generation, so its slot can't be marked missing.
fn check_failure_as_last(rt: &(impl Abort + AllocGlobal), case: &Case) {
    let last = Counters {
        generation: LIMIT - 1,
        incarnation: None,
    };
    let mut known = with_counters(rt, case, last);
    let old = told(&known.array.table);
    let at = calls_of(rt, case).len() as u64;
    let mut plan = Plan::NONE;
    assert!(rt; case.slot < 10);
    let call_of_last = known.array.bank.now().saturating_add(at.saturating_sub(2));
    plan.down[case.slot as usize] = Some(call_of_last);
    known.array.bank.plan = plan;
    same(rt, call(&mut known.array, case), WORN);
    let new = told_when_done(rt, case, old);
    same(rt, told(&known.array.table), new);
    check_afterwards(rt, &known.array.bank, &known.list);
}

// What is assembled after that: the set, where its superblock landed, and else what is lost can't be marked.
fn check_afterwards(rt: &(impl Abort + AllocGlobal), bank: &MemBank, list: &[u8]) {
    let mut landed = assembled(rt, image_now(rt, bank));
    check_list(rt, (4, 0), &mut landed, list);
}

#[test]
fn a_failure_at_the_last_generation(rt: HostRuntime) {
    for number in 0..CASES {
        check_failure_as_last(&rt, &case_of(number));
    }
}
