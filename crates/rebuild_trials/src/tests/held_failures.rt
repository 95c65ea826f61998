//! A device goes down in a commit to a set that rebuilds a member: the rows below its position have their sectors on
//! it, and those above have not.
use super::rebuilt::shows;
use super::{
    Case, Device, Job, Known, OF_3, answer_of_write, assembled, before, check_list, check_states,
    check_whole, crashed, image_now, in_turn, take,
};
use crate::testing::same;
use array_io::Array;
use rebuild::{Progress, rebuild_step, replace};
use sector_model::{Bank, Image, MemBank, Plan, Refusal};
use std::process::Abort;
use superblock::State;

// How many rows are rebuilt.
const POSITION: u64 = 40;

// A set of 3 members of which one is rebuilding, and the logical sectors of rows 32 to 47 that are committed.
#[derive(Drop)]
struct Failures<'a> {
    case: Case,
    known: Known,
    numbers: &'a [u64],
}

// Both sectors of each of these rows.
const BOTH: &[u64] = &[
    64, 65, 66, 67, 68, 69, 70, 71, 72, 73, 74, 75, 76, 77, 78, 79, 80, 81, 82, 83, 84, 85, 86, 87,
    88, 89, 90, 91, 92, 93, 94, 95,
];

// The first of each: rows 32 to 39 have it on member 2 and the parity on member 1, rows 40 to 47 on member 1 and on
// member 0.
const FIRST: &[u64] = &[
    64, 65, 66, 67, 68, 69, 70, 71, 80, 81, 82, 83, 84, 85, 86, 87,
];

// What is left where a device failed or none did: the answer, and the lists before and after.
#[derive(Drop)]
struct Left<'a> {
    answer: Result<(), Refusal>,
    old: &'a [u8],
    new: &'a [u8],
}

// Asks that a set shows the new list, where the commit was answered with Ok, and else the new or the old. Gives that
// one.
fn list_shown<'a>(
    rt: &impl Abort,
    number: (u64, u64),
    array: &mut Array<MemBank>,
    left: &Left<'a>,
) -> &'a [u8] {
    let is_new = left.answer.is_ok() || shows(rt, array, left.new);
    let list = if is_new { left.new } else { left.old };
    check_list(rt, number, array, list);
    list
}

// Goes on with a set that was assembled: it shows a list, and does when its member is rebuilt, so it is replaced before
// if it is missing.
fn check_goes_on(
    rt: &(impl Abort + AllocGlobal),
    slot: u8,
    number: (u64, u64),
    image: Image,
    left: &Left,
) {
    let mut array = assembled(rt, image);
    let list = list_shown(rt, number, &mut array, left);
    assert!(rt; slot < 10);
    let state = array.table.states[slot as usize];
    if state == State::Missing {
        same(rt, (number, replace(&mut array, slot)), (number, Ok(())));
    }
    let progress = rebuild_step(&mut array, 64);
    same(rt, (number, progress), (number, Ok(Progress::Complete)));
    check_whole(rt, number, &array, list);
}

// Checks what is left: the set goes on in the next run, and shows a list without the member that is rebuilding.
fn check_left(
    rt: &(impl Abort + AllocGlobal),
    slot: u8,
    number: (u64, u64),
    bank: &MemBank,
    left: &Left,
) {
    let choice = in_turn(number.1);
    check_goes_on(
        rt,
        slot,
        number,
        crashed(rt, bank, bank.now(), choice),
        left,
    );
    let choice = in_turn(number.1.wrapping_add(1));
    let mut image = crashed(rt, bank, bank.now(), choice);
    take(rt, &mut image, slot);
    let mut without = assembled(rt, image);
    check_states(rt, number, &without.table, slot, State::Missing);
    let _ = list_shown(rt, number, &mut without, left);
}

// Checks the commit in which a slot goes down at its first call from one on. Tells whether it did, and how many calls
// there were.
fn check_failure(
    rt: &(impl Abort + AllocGlobal),
    failures: &Failures,
    slot: u8,
    call: u64,
) -> (bool, u64) {
    let number = (u64::from(slot), call);
    let old = &failures.known.list;
    let mut failed_set = Known {
        array: assembled(rt, image_now(rt, &failures.known.array.bank)),
        list: Vec::from_slice(rt.alloc(), old).expect(rt, "memory"),
    };
    let from = failed_set.array.bank.now();
    let mut plan = Plan::NONE;
    assert!(rt; slot < 10);
    plan.down[slot as usize] = Some(from.saturating_add(call));
    failed_set.array.bank.plan = plan;
    let answer = answer_of_write(rt, &mut failed_set, failures.numbers, 0x91);
    failed_set.array.bank.plan = Plan::NONE;
    let calls = failed_set.array.bank.now().saturating_sub(from);
    assert!(rt; slot < failed_set.array.bank.devices());
    let failed = failed_set.array.bank.is_down(slot);
    let is_lost = failed && slot != failures.case.slot;
    let wanted = if is_lost {
        Err(Refusal::TwoLost)
    } else {
        Ok(())
    };
    same(rt, (number, answer), (number, wanted));
    if answer.is_ok() {
        let state = if failed {
            State::Missing
        } else {
            State::Rebuilding
        };
        check_states(
            rt,
            number,
            &failed_set.array.table,
            failures.case.slot,
            state,
        );
        check_list(rt, number, &mut failed_set.array, &failed_set.list);
    }
    let left = Left {
        answer,
        old,
        new: &failed_set.list,
    };
    check_left(
        rt,
        failures.case.slot,
        number,
        &failed_set.array.bank,
        &left,
    );
    (failed, calls)
}

// Calls that go one after the other to one slot: the slot, and how many.
type Calls = (u8, u64);

// Checks the failures of each slot at each of its calls in a commit to a set that rebuilds a member, and none: it makes
// these calls. A slot that goes down at another's call does so at its own next one.
fn check_failures(rt: &(impl Abort + AllocGlobal), member: u8, numbers: &[u64], calls: &[Calls]) {
    let case = Case {
        shape: OF_3,
        slot: member,
        device: Device::Own,
        is_used: true,
        position: POSITION,
        job: Job::Step(1),
    };
    let failures = Failures {
        case,
        known: before(rt, &case),
        numbers,
    };
    let mut call = 0u64;
    for (slot, count) in calls {
        for _ in 0..*count {
            let (failed, _) = check_failure(rt, &failures, *slot, call);
            same(rt, (*slot, call, failed), (*slot, call, true));
            call = call.wrapping_add(1);
        }
    }
    for slot in 0..5u8 {
        let wanted = (slot, false, call);
        let (failed, made) = check_failure(rt, &failures, slot, call);
        same(rt, (slot, failed, made), wanted);
    }
}

// Member 0 has the other data of the rows below its position, and the parity of those above, which it is not given: for
// these member 2 is read. Each journal gets 32 sectors.
#[test]
fn each_slot_down_over_rebuilding_member_0(rt: HostRuntime) {
    const CALLS: &[Calls] = &[
        (0, 8),
        (2, 8),
        (3, 32 + 1),
        (4, 32 + 1),
        (3, 2),
        (4, 2),
        (1, 16 + 1),
        (2, 8 + 1),
    ];
    check_failures(&rt, 0, FIRST, CALLS);
}

// Member 1 is given the parity of the rows below its position, and not the data above.
#[test]
fn each_slot_down_over_rebuilding_member_1(rt: HostRuntime) {
    const CALLS: &[Calls] = &[
        (0, 8),
        (2, 8),
        (3, 32 + 1),
        (4, 32 + 1),
        (3, 2),
        (4, 2),
        (0, 8 + 1),
        (1, 8 + 1),
        (2, 8 + 1),
    ];
    check_failures(&rt, 1, FIRST, CALLS);
}

// Member 2 has the other data of the rows above its position: there the old parity, on member 0, and the old data, on
// member 1, are read.
#[test]
fn each_slot_down_over_rebuilding_member_2(rt: HostRuntime) {
    const CALLS: &[Calls] = &[
        (0, 8),
        (0, 1),
        (1, 1),
        (0, 1),
        (1, 1),
        (0, 1),
        (1, 1),
        (0, 1),
        (1, 1),
        (0, 1),
        (1, 1),
        (0, 1),
        (1, 1),
        (0, 1),
        (1, 1),
        (0, 1),
        (1, 1),
        (3, 32 + 1),
        (4, 32 + 1),
        (3, 2),
        (4, 2),
        (0, 8 + 1),
        (1, 16 + 1),
        (2, 8 + 1),
    ];
    check_failures(&rt, 2, FIRST, CALLS);
}

// Nothing is read for whole rows. Each journal gets 48 sectors, and member 1 those below its position.
#[test]
fn each_slot_down_in_whole_rows(rt: HostRuntime) {
    const CALLS: &[Calls] = &[
        (3, 48 + 1),
        (4, 48 + 1),
        (3, 2),
        (4, 2),
        (0, 16 + 1),
        (1, 8 + 1),
        (2, 16 + 1),
    ];
    check_failures(&rt, 1, BOTH, CALLS);
}
