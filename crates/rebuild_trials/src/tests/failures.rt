//! A device goes down at a call of replacing one, or of a step of a rebuild.
use super::device_calls::calls_of;
use super::{
    Case, Device, ID, Job, Known, OF_3, OF_4, OF_8, Told, assembled, assembling, before, call,
    check_list, check_states, crashed, image_now, in_turn, journal, last_step, member, middle_step,
    take, told, told_after, told_when_done, wanted,
};
use crate::testing::same;
use array_io::Array;
use rebuild::Progress;
use recovery::Returned;
use sector_model::{Bank, Image, MemBank, Plan, Refusal};
use std::process::Abort;
use superblock::State;

// A device that fails in a call: its slot, and the number of the device call at which it does, counted from the first.
#[derive(Clone, Copy)]
struct Failure {
    slot: u8,
    call: u64,
}

// How many calls of the case come before the first of those that publish its table, of so many calls.
fn before_table(case: &Case, calls: u64) -> u64 {
    calls.saturating_sub(2 * (u64::from(case.shape.members) + 2))
}

// Makes the call of a case, in which a device fails.
fn call_with(
    rt: &impl Abort,
    array: &mut Array<MemBank>,
    case: &Case,
    failure: Failure,
) -> Result<Option<Progress>, Refusal> {
    let mut plan = Plan::NONE;
    assert!(rt; failure.slot < 10);
    plan.down[failure.slot as usize] = Some(array.bank.now().saturating_add(failure.call));
    array.bank.plan = plan;
    let answer = call(array, case);
    array.bank.plan = Plan::NONE;
    assert!(rt; failure.slot < array.bank.devices());
    same(
        rt,
        (failure.call, array.bank.is_down(failure.slot)),
        (failure.call, true),
    );
    answer
}

// What the table tells after the slot's own device failed: it is missing, and the others are in sync. Where it failed
// as the last one that gets the table of the call, that table came before; and where its slot had been missing, nothing
// else came.
fn told_without(rt: &impl Abort, case: &Case, old: Told, is_last: bool) -> Told {
    let further = match (case.job, is_last) {
        (Job::Replace, false) => (0, 0),
        (Job::Replace, true) => (2, 1),
        (Job::Step(_), false) => (1, 0),
        (Job::Step(_), true) => (2, 0),
    };
    told_after(rt, old, case.slot, State::Missing, further, 0)
}

// Asks that the set which is assembled on these devices shows this list, with the own slot missing.
fn check_missing(
    rt: &(impl Abort + AllocGlobal),
    case: &Case,
    number: (u64, u64),
    image: Image,
    list: &[u8],
) {
    let mut again = assembled(rt, image);
    check_states(rt, number, &again.table, case.slot, State::Missing);
    check_list(rt, number, &mut again, list);
}

// Checks what is left where the own device failed: the slot is missing, in memory and when the set is assembled again,
// and the list is what it was.
fn check_own(
    rt: &(impl Abort + AllocGlobal),
    case: &Case,
    number: u64,
    array: &mut Array<MemBank>,
    list: &[u8],
) {
    check_list(rt, (number, 0), array, list);
    let bank = &array.bank;
    let image = crashed(rt, bank, bank.now(), in_turn(number));
    check_missing(rt, case, (number, 1), image, list);
    let mut image = crashed(rt, bank, bank.now(), in_turn(number.wrapping_add(1)));
    take(rt, &mut image, case.slot);
    check_missing(rt, case, (number, 2), image, list);
}

// Asks that the set which is assembled with the other device has the old table or the new one, and that a slot that was
// missing is.
fn check_either(rt: &impl Abort, case: &Case, number: u64, array: &Array<MemBank>, old: Told) {
    if let Job::Replace = case.job {
        check_states(rt, (number, 3), &array.table, case.slot, State::Missing);
        return;
    }
    let got = told(&array.table);
    if got != old {
        let new = told_when_done(rt, case, old);
        same(rt, (number, got), (number, new));
    }
}

// Checks what is left where another device failed: with that device, also without the own one, the list is what it was,
// and without it two are lost, but where all the others already have the table in which the own one is in sync again.
fn check_other(
    rt: &(impl Abort + AllocGlobal),
    case: &Case,
    failure: Failure,
    bank: &MemBank,
    old: Told,
    list: &[u8],
) {
    let number = failure.call;
    let mut again = assembled(rt, crashed(rt, bank, bank.now(), in_turn(number)));
    check_either(rt, case, number, &again, old);
    check_list(rt, (number, 3), &mut again, list);
    let mut image = crashed(rt, bank, bank.now(), in_turn(number.wrapping_add(1)));
    take(rt, &mut image, case.slot);
    check_missing(rt, case, (number, 4), image, list);
    let mut image = crashed(rt, bank, bank.now(), in_turn(number.wrapping_add(2)));
    take(rt, &mut image, failure.slot);
    check_two_lost(
        rt,
        case,
        failure,
        assembling(rt, image, Plan::NONE, ID),
        list,
    );
}

// Checks what is assembled without the device that failed and was not the own one.
fn check_two_lost(
    rt: &impl Abort,
    case: &Case,
    failure: Failure,
    again: Result<Array<MemBank>, Returned<MemBank>>,
    list: &[u8],
) {
    match again {
        Ok(mut again) => {
            let completes = wanted(case) == Some(Progress::Complete);
            same(rt, (failure.call, completes), (failure.call, true));
            check_states(
                rt,
                (failure.call, 5),
                &again.table,
                failure.slot,
                State::Missing,
            );
            check_list(rt, (failure.call, 5), &mut again, list);
        }
        Err(returned) => same(
            rt,
            (failure.call, returned.refusal),
            (failure.call, Refusal::TwoLost),
        ),
    }
}

// Asks that the own slot is not in sync in memory, and each other is: so two are lost where another failed.
fn check_not_in_sync(rt: &impl Abort, case: &Case, number: u64, array: &Array<MemBank>) {
    assert!(rt; case.slot < 10);
    let state = array.table.states[case.slot as usize];
    assert!(rt; state != State::InSync);
    check_states(rt, (number, 6), &array.table, case.slot, state);
}

// Checks the call of a case in which a device fails at a call of its own.
fn check_failure(
    rt: &(impl Abort + AllocGlobal),
    case: &Case,
    known: &Known,
    failure: Failure,
    is_last: bool,
) {
    let mut array = assembled(rt, image_now(rt, &known.array.bank));
    let old = told(&array.table);
    let answer = call_with(rt, &mut array, case, failure);
    let refusal = match (failure.slot == case.slot, case.job) {
        (false, _) => Refusal::TwoLost,
        (true, Job::Replace) => Refusal::NotUsable,
        (true, Job::Step(_)) => Refusal::NothingToRebuild,
    };
    same(rt, (failure.call, answer), (failure.call, Err(refusal)));
    if failure.slot == case.slot {
        let wanted = told_without(rt, case, old, is_last);
        same(
            rt,
            (failure.call, told(&array.table)),
            (failure.call, wanted),
        );
        check_own(rt, case, failure.call, &mut array, &known.list);
    } else {
        check_not_in_sync(rt, case, failure.call, &array);
        check_other(rt, case, failure, &array.bank, old, &known.list);
    }
}

// Checks the failures at each device call of a case.
fn check_failures(rt: &(impl Abort + AllocGlobal), case: &Case) {
    let known = before(rt, case);
    let calls = calls_of(rt, case);
    let mut call = 0u64;
    let published = before_table(case, calls.len() as u64);
    for made in &calls {
        let slot = made.slot;
        let failure = Failure { slot, call };
        check_failure(rt, case, &known, failure, call >= published);
        call = call.wrapping_add(1);
    }
}

#[test]
fn each_device_down_in_replacing_a_member(rt: HostRuntime) {
    check_failures(&rt, &member(OF_3, 1, Device::Own));
    check_failures(&rt, &member(OF_8, 7, Device::Blank));
}

#[test]
fn each_device_down_in_replacing_a_journal(rt: HostRuntime) {
    check_failures(&rt, &journal(OF_3, 3, Device::Filled, false));
    check_failures(&rt, &journal(OF_3, 4, Device::Ahead, true));
    check_failures(&rt, &journal(OF_4, 4, Device::Own, true));
}

#[test]
fn each_device_down_in_a_step(rt: HostRuntime) {
    check_failures(&rt, &middle_step(OF_3, 2, Device::Foreign));
    check_failures(&rt, &middle_step(OF_4, 0, Device::Blank));
}

#[test]
fn each_device_down_in_the_last_step(rt: HostRuntime) {
    check_failures(&rt, &last_step(OF_3, 0, Device::Filled));
    check_failures(&rt, &last_step(OF_4, 3, Device::Blank));
}
