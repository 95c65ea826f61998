//! What is refused before a device is called: nothing is done then.
use super::{
    Case, Device, ID, Job, Known, OF_3, assembled, assembling, before, call, image_now, journal,
    made, mark, member, middle_step, take, without,
};
use crate::testing::same;
use array_io::Array;
use rebuild::Progress;
use sector_model::{Bank, Image, MemBank, Plan, Refusal};
use std::process::Abort;

/// What a call answers.
pub(crate) type Answer = Result<Option<Progress>, Refusal>;

/// A slot and a call, and what it answers.
pub(crate) type Asked = (u8, Job, Answer);

/// Asks that calls answer so without a device call, and leave the table as it is.
pub(crate) fn check_asked(
    rt: &impl Abort,
    number: u64,
    array: &mut Array<MemBank>,
    asked: &[Asked],
) {
    for (slot, job, answer) in asked {
        let case = Case {
            slot: *slot,
            job: *job,
            ..member(OF_3, 0, Device::Own)
        };
        let before = (array.table, array.bank.now(), array.bank.room);
        let got = call(array, &case);
        same(rt, (number, *slot, got), (number, *slot, *answer));
        let after = (array.table, array.bank.now(), array.bank.room);
        same(rt, (number, after), (number, before));
    }
}

const NOT_MISSING: Answer = Err(Refusal::NotMissing);

const NOT_USABLE: Answer = Err(Refusal::NotUsable);

const NOTHING: Answer = Err(Refusal::NothingToRebuild);

// No slot is missing or rebuilding.
#[test]
fn refusals_of_a_whole_set(rt: HostRuntime) {
    let mut known = made(&rt, ID, OF_3);
    let asked = [
        (0, Job::Replace, NOT_MISSING),
        (2, Job::Replace, NOT_MISSING),
        (3, Job::Replace, NOT_MISSING),
        (4, Job::Replace, NOT_MISSING),
        (5, Job::Replace, NOT_MISSING),
        (9, Job::Replace, NOT_MISSING),
        (10, Job::Replace, NOT_MISSING),
        (255, Job::Replace, NOT_MISSING),
        (0, Job::Step(0), NOTHING),
        (0, Job::Step(1), NOTHING),
        (0, Job::Step(u64::MAX), NOTHING),
    ];
    check_asked(&rt, 0, &mut known.array, &asked);
}

// A member or a journal is missing, and its device is there.
#[test]
fn refusals_beside_a_missing_slot(rt: HostRuntime) {
    let mut member = without(&rt, &member(OF_3, 1, Device::Blank));
    let mut journal = without(&rt, &journal(OF_3, 4, Device::Own, true));
    let asked = [
        (0, Job::Replace, NOT_MISSING),
        (3, Job::Replace, NOT_MISSING),
        (5, Job::Replace, NOT_MISSING),
        (0, Job::Step(0), NOTHING),
        (0, Job::Step(64), NOTHING),
    ];
    check_asked(&rt, 1, &mut member.array, &asked);
    check_asked(&rt, 2, &mut journal.array, &asked);
}

// A member is rebuilding: it is not missing. A step of no rows is none.
#[test]
fn refusals_beside_a_rebuilding_member(rt: HostRuntime) {
    let case = middle_step(OF_3, 1, Device::Blank);
    let mut known = before(&rt, &case);
    let asked = [
        (1, Job::Replace, NOT_MISSING),
        (0, Job::Replace, NOT_MISSING),
        (4, Job::Replace, NOT_MISSING),
        (5, Job::Replace, NOT_MISSING),
        (0, Job::Step(0), Ok(Some(Progress::Position(5)))),
    ];
    check_asked(&rt, 3, &mut known.array, &asked);
}

// Takes the last sector of a device away.
fn shorten(rt: &impl Abort, image: &mut Image, slot: u8) {
    let slot = slot as usize;
    assert!(rt; slot < image.slots.len());
    if let Some(disk) = &mut image.slots[slot] {
        let _ = disk.pop();
    }
}

// Checks a slot whose device is not there, too short by a sector, or down.
fn check_unusable(rt: &(impl Abort + AllocGlobal), case: &Case) {
    let known = without(rt, case);
    let asked = [
        (case.slot, Job::Replace, NOT_USABLE),
        (0, Job::Step(1), NOTHING),
    ];
    let mut image = image_now(rt, &known.array.bank);
    take(rt, &mut image, case.slot);
    check_asked(rt, 4, &mut assembled(rt, image), &asked);
    let mut image = image_now(rt, &known.array.bank);
    shorten(rt, &mut image, case.slot);
    check_asked(rt, 5, &mut assembled(rt, image), &asked);
    check_down(rt, case, known);
}

// Checks a slot whose device goes down as the set is assembled: its places are read then.
fn check_down(rt: &(impl Abort + AllocGlobal), case: &Case, known: Known) {
    let asked = [
        (case.slot, Job::Replace, NOT_USABLE),
        (0, Job::Step(1), NOTHING),
    ];
    let mut plan = Plan::NONE;
    assert!(rt; case.slot < 10);
    plan.down[case.slot as usize] = Some(0);
    let array = assembling(rt, image_now(rt, &known.array.bank), plan, ID).ok();
    let mut array = array.expect(rt, "the set is assembled");
    check_asked(rt, 6, &mut array, &asked);
}

#[test]
fn refusals_for_a_device(rt: HostRuntime) {
    check_unusable(&rt, &member(OF_3, 0, Device::Own));
    check_unusable(&rt, &member(OF_3, 2, Device::Blank));
    check_unusable(&rt, &journal(OF_3, 3, Device::Own, true));
    let mut known = made(&rt, ID, OF_3);
    mark(&rt, &mut known.array, 4);
    let step = [(0, Job::Step(1), NOTHING)];
    check_asked(&rt, 7, &mut known.array, &step);
}
