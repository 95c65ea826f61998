//! Crashes in the device calls of replacing a device, and of a step of a rebuild: the logical list stays, with the
//! device there, and with another one in its place, or none.
use super::device_calls::calls_of;
use super::replaced::check_entries;
use super::{
    Case, Device, ID, Job, Known, OF_3, OF_4, OF_8, Told, assembled, before, call, check_complete,
    check_list, check_states, check_whole, crashed, devices, disk, image_now, in_turn, journal,
    last_step, member, middle_step, most_rows, put_copy, put_from, take, told, told_when_done,
    wanted, without,
};
use crate::testing::same;
use array_io::Array;
use layout_map::Format;
use rebuild::{Progress, rebuild_step, replace};
use sector_model::{Bank, Choice, Image, MemBank};
use std::process::Abort;
use superblock::State;
use superblock::oracle::{chosen_table_in, is_live_in};

// What stands in the slot after the crash.
#[derive(Clone, Copy)]
enum Left {
    // The device, as the crash left it.
    There,
    // A device of zeros.
    Blank,
    // The device that the slot had before it was replaced.
    Former,
    Gone,
}

// A case whose call was made: the bank after it, and the number of its first device call, of the first that publishes
// its table, and of the next one after it. What its table told before and after.
#[derive(Drop)]
struct Called {
    known: Known,
    former: Image,
    from: u64,
    published: u64,
    end: u64,
    old: Told,
    new: Told,
}

// Makes the call of a case.
fn call_made(rt: &(impl Abort + AllocGlobal), case: &Case) -> Called {
    let former = Case {
        device: Device::Own,
        ..*case
    };
    let former = image_now(rt, &without(rt, &former).array.bank);
    let mut known = before(rt, case);
    let old = told(&known.array.table);
    let from = known.array.bank.now();
    same(rt, call(&mut known.array, case), Ok(wanted(case)));
    let end = known.array.bank.now();
    let new = told_when_done(rt, case, old);
    same(rt, told(&known.array.table), new);
    check_list(rt, (end, 0), &mut known.array, &known.list);
    Called {
        known,
        former,
        from,
        published: end.saturating_sub(2 * (u64::from(case.shape.members) + 2)),
        end,
        old,
        new,
    }
}

// Whether the set that is assembled after a crash, with the device there, has the new table. None where the choice
// decides.
fn is_new(case: &Case, done: &Called, call: u64, choice: Choice) -> Option<bool> {
    let (least, most) = match case.job {
        // A slot that was missing is so until its own device, which is the last, has the table.
        Job::Replace => (done.end.saturating_sub(2), done.end),
        // One that was not is live by the old table and the new one: the first device that has that decides.
        Job::Step(_) => {
            let others = u64::from(case.shape.members) + 1;
            (done.published, done.published.saturating_add(others + 1))
        }
    };
    match choice {
        Choice::Oldest => Some(call >= most),
        Choice::Newest => Some(call > least),
        Choice::Mixed(_) => if call > least && call < most {
            None
        } else {
            Some(call >= most)
        },
    }
}

// Asks that a table tells the new or the old, as it has to.
fn check_told(
    rt: &impl Abort,
    case: &Case,
    done: &Called,
    array: &Array<MemBank>,
    crash: (u64, Choice),
) {
    let (call, choice) = crash;
    let got = told(&array.table);
    let is_new = is_new(case, done, call, choice).unwrap_or(got == done.new);
    if is_new {
        same(rt, (call, got), (call, done.new));
    } else if let Job::Replace = case.job {
        check_states(rt, (call, 0), &array.table, case.slot, State::Missing);
    } else {
        same(rt, (call, got), (call, done.old));
    }
}

// The devices after a crash, with this one left in the slot.
fn image_left(
    rt: &(impl Abort + AllocGlobal),
    case: &Case,
    done: &Called,
    crash: (u64, Choice),
    left: Left,
) -> Image {
    let mut image = crashed(rt, &done.known.array.bank, crash.0, crash.1);
    match left {
        Left::There => {}
        Left::Blank => {
            let blank = devices(rt, &done.known.array.table.geometry, 0);
            put_from(rt, &mut image, case.slot, blank);
        }
        Left::Former => put_copy(rt, &mut image, case.slot, disk(rt, &done.former, case.slot)),
        Left::Gone => take(rt, &mut image, case.slot),
    }
    image
}

// Asks that a journal which was replaced has the last entry, where it is live.
fn check_journal(rt: &(impl Abort + AllocGlobal), case: &Case, image: &Image) {
    let slot = case.slot as usize;
    assert!(rt; slot < image.slots.len());
    let table = chosen_table_in(image, &ID).expect(rt, "a table is chosen");
    let is_live = is_live_in(&image.slots[slot], image.slots.len(), &table, slot);
    if is_live && case.slot >= case.shape.members {
        check_entries(rt, case, image);
    }
}

// Checks a crash: the list is what it was, and the table the old one or the new one where the device is there; else the
// slot is missing.
fn check_crash(
    rt: &(impl Abort + AllocGlobal),
    case: &Case,
    done: &Called,
    crash: (u64, Choice),
    left: Left,
) -> Array<MemBank> {
    let image = image_left(rt, case, done, crash, left);
    check_journal(rt, case, &image);
    let mut array = assembled(rt, image);
    if let Left::There = left {
        check_told(rt, case, done, &array, crash);
    } else {
        check_states(rt, (crash.0, 1), &array.table, case.slot, State::Missing);
    }
    check_list(rt, crash_number(crash, left), &mut array, &done.known.list);
    array
}

// The number of a crash and of what is left, by which what fails is named.
fn crash_number(crash: (u64, Choice), left: Left) -> (u64, u64) {
    let choice = match crash.1 {
        Choice::Oldest => 0u64,
        Choice::Newest => 1,
        Choice::Mixed(_) => 2,
    };
    let left = match left {
        Left::There => 0x10u64,
        Left::Blank => 0x20,
        Left::Former => 0x30,
        Left::Gone => 0x40,
    };
    (crash.0, left | choice)
}

// Goes on from a crash until the set is complete: what the table calls missing is replaced, and what is not rebuilt is.
fn check_goes_on(
    rt: &(impl Abort + AllocGlobal),
    case: &Case,
    number: u64,
    mut array: Array<MemBank>,
    list: &[u8],
) {
    assert!(rt; case.slot < 10);
    let state = array.table.states[case.slot as usize];
    if state == State::Missing {
        same(
            rt,
            (number, replace(&mut array, case.slot)),
            (number, Ok(())),
        );
    }
    let state = array.table.states[case.slot as usize];
    if state == State::Rebuilding {
        let answer = rebuild_step(&mut array, most_rows(case.shape));
        same(rt, (number, answer), (number, Ok(Progress::Complete)));
    }
    check_whole(rt, (number, 9), &array, list);
}

// Checks the crashes at a device call of a case: with the device there by each choice, and with each other that may be
// left in its slot by each choice in turn. From one of them the set goes on.
fn check_call(rt: &(impl Abort + AllocGlobal), case: &Case, done: &Called, call: u64) {
    for choice in [Choice::Oldest, Choice::Newest] {
        check_crash(rt, case, done, (call, choice), Left::There);
    }
    let array = check_crash(rt, case, done, (call, Choice::Mixed(3)), Left::There);
    check_goes_on(rt, case, call, array, &done.known.list);
    check_crash(rt, case, done, (call, in_turn(call)), Left::Blank);
    check_crash(
        rt,
        case,
        done,
        (call, in_turn(call.wrapping_add(1))),
        Left::Former,
    );
    check_crash(
        rt,
        case,
        done,
        (call, in_turn(call.wrapping_add(2))),
        Left::Gone,
    );
}

// Checks the crash at a device call by one choice with the device there, and by one with another that may be left in
// its slot.
fn check_call_in_turn(rt: &(impl Abort + AllocGlobal), case: &Case, done: &Called, call: u64) {
    let array = check_crash(rt, case, done, (call, in_turn(call)), Left::There);
    check_goes_on(rt, case, call, array, &done.known.list);
    let left = match call % 4 {
        0 => Left::Blank,
        1 => Left::Former,
        _ => Left::Gone,
    };
    check_crash(rt, case, done, (call, in_turn(call.wrapping_add(1))), left);
}

/// Checks the crashes before the first device call of a case, and after each that is no read: of a set of format 1 and
/// 3 members by each choice.
pub(crate) fn check_crashes(rt: &(impl Abort + AllocGlobal), case: &Case) {
    let done = call_made(rt, case);
    assert!(rt; done.from < done.published);
    let mut call = done.from;
    check_call(rt, case, &done, call);
    for made in &calls_of(rt, case) {
        call = call.wrapping_add(1);
        if made.is_read {
            continue;
        }
        if case.shape.format == Format::One && case.shape.members == 3 {
            check_call(rt, case, &done, call);
        } else {
            check_call_in_turn(rt, case, &done, call);
        }
    }
    same(rt, call, done.end);
    if told_is_complete(case) {
        check_complete(rt, (call, 8), &done.known.array, &done.known.list);
    }
}

// Whether the set is complete after the call of a case.
fn told_is_complete(case: &Case) -> bool {
    match wanted(case) {
        Some(progress) => progress == Progress::Complete,
        None => case.slot >= case.shape.members,
    }
}

#[test]
fn crashes_in_replacing_a_member(rt: HostRuntime) {
    check_crashes(&rt, &member(OF_3, 2, Device::Own));
    check_crashes(&rt, &member(OF_4, 1, Device::Filled));
    check_crashes(&rt, &member(OF_8, 0, Device::Foreign));
}

#[test]
fn crashes_in_replacing_a_journal(rt: HostRuntime) {
    check_crashes(&rt, &journal(OF_3, 3, Device::Ahead, true));
    check_crashes(&rt, &journal(OF_4, 5, Device::Own, false));
    check_crashes(&rt, &journal(OF_8, 8, Device::Ahead, true));
}

#[test]
fn crashes_in_a_step(rt: HostRuntime) {
    check_crashes(&rt, &middle_step(OF_3, 1, Device::Filled));
    check_crashes(&rt, &middle_step(OF_8, 3, Device::Foreign));
}

#[test]
fn crashes_in_the_last_step(rt: HostRuntime) {
    check_crashes(&rt, &last_step(OF_3, 2, Device::Blank));
    check_crashes(&rt, &last_step(OF_4, 0, Device::Filled));
}
