//! Sets of format 2 with small numbers, by the calls of a set: commits, a member replaced and rebuilt, a journal
//! replaced, and crashes in them.
use super::crashes::check_crashes;
use super::rebuilt::shows;
use super::{
    Case, Device, ID, Job, Known, Shape, assembled, check_list, check_states, check_whole, crashed,
    image_now, in_turn, journal, made, member, take, write,
};
use crate::testing::same;
use layout_map::Format;
use sector_model::Bank;
use std::process::Abort;
use superblock::State;

// 72 rows, more than a step has in a set of format 1, and 144 data sectors: logical sectors 0 to 15 are the data of
// rows 0 to 7, on members 0 and 1, 16 to 31 that of rows 8 to 15, on members 2 and 0, and so on.
const LARGE: Shape = Shape {
    format: Format::Two,
    members: 3,
    stripes: 9,
};

// How many slots such a set has.
const SLOTS: u64 = 5;

// A set of format 2 in a run that just began, whose last entry has this number, 1 or 2, after which the next one takes
// the other half of the journals.
fn after_entry(rt: &(impl Abort + AllocGlobal), number: u64) -> Known {
    let mut known = made(rt, ID, LARGE);
    if number > 1 {
        write(rt, &mut known, &[8, 17, 143], 0x51);
    }
    write(rt, &mut known, &[0, 15, 16, 40], 0x11);
    same(rt, known.array.entry, number);
    Known {
        array: assembled(rt, image_now(rt, &known.array.bank)),
        list: known.list,
    }
}

// What a commit does: the array after it, the lists of before and after, its first call, and those from which on the
// list may be new, and is.
#[derive(Drop)]
struct Written {
    known: Known,
    old: Vec<u8>,
    from: u64,
    unsealed: u64,
    sealed: u64,
}

// Makes a commit of these logical sectors, which ends with so many calls of members, after four of seals.
fn commit_made(
    rt: &(impl Abort + AllocGlobal),
    mut known: Known,
    numbers: &[u64],
    member_calls: u64,
) -> Written {
    let old = Vec::from_slice(rt.alloc(), &known.list).expect(rt, "memory");
    let from = known.array.bank.now();
    write(rt, &mut known, numbers, 0x81);
    let sealed = known.array.bank.now().saturating_sub(member_calls);
    let unsealed = sealed.saturating_sub(4);
    assert!(rt; from < unsealed);
    Written {
        known,
        old,
        from,
        unsealed,
        sealed,
    }
}

// Checks a crash in a commit, with this slot taken away, or none: the list is the new one or the old one, the former
// once both seals are safe, and the latter before one is written.
fn check_crash(rt: &(impl Abort + AllocGlobal), done: &Written, call: u64, away: Option<u8>) {
    let bank = &done.known.array.bank;
    let mut image = crashed(rt, bank, call, in_turn(call));
    if let Some(slot) = away {
        take(rt, &mut image, slot);
    }
    let mut array = assembled(rt, image);
    let state = if away.is_some() {
        State::Missing
    } else {
        State::InSync
    };
    check_states(rt, (call, 0), &array.table, away.unwrap_or(0), state);
    let is_new = shows(rt, &mut array, &done.known.list);
    let may_be = if is_new {
        call > done.unsealed
    } else {
        call < done.sealed
    };
    same(rt, (call, is_new, may_be), (call, is_new, true));
    let list = if is_new { &done.known.list } else { &done.old };
    check_list(rt, (call, 1), &mut array, list);
    if away.is_none() {
        check_whole(rt, (call, 2), &array, list);
    }
}

// Checks the crashes after each call of a commit: with no slot taken away, and with one of them in turn.
fn check_commit(rt: &(impl Abort + AllocGlobal), known: Known, numbers: &[u64], member_calls: u64) {
    let done = commit_made(rt, known, numbers, member_calls);
    for call in done.from..done.known.array.bank.now().saturating_add(1) {
        check_crash(rt, &done, call, None);
        check_crash(rt, &done, call, Some((call % SLOTS) as u8));
    }
}

// Checks the crashes after each call of a commit: with no slot taken away, or with one of them, in turn.
fn check_commit_in_turn(
    rt: &(impl Abort + AllocGlobal),
    known: Known,
    numbers: &[u64],
    member_calls: u64,
) {
    let done = commit_made(rt, known, numbers, member_calls);
    for call in done.from..done.known.array.bank.now().saturating_add(1) {
        let slot = call % (SLOTS + 1);
        let away = if slot < SLOTS { Some(slot as u8) } else { None };
        check_crash(rt, &done, call, away);
    }
}

// The entry is of one run: logical sector 64 is in row 32, on member 2, with the parity on member 1. Each of them gets
// a sector and a flush.
#[test]
fn crashes_in_a_commit_of_1(rt: HostRuntime) {
    check_commit(&rt, after_entry(&rt, 1), &[64], 4);
    check_commit(&rt, after_entry(&rt, 2), &[64], 4);
}

// The entry is of two runs: logical sectors 64 and 74 are in rows 32 and 34, on members 2 and 0, with the parity on
// member 1.
#[test]
fn crashes_in_a_commit_of_2_apart(rt: HostRuntime) {
    check_commit(&rt, after_entry(&rt, 1), &[64, 74], 2 + 2 + 3);
    check_commit(&rt, after_entry(&rt, 2), &[64, 74], 2 + 2 + 3);
}

// The entry is of three runs, over three stripes: logical sectors 36 to 67 are those of rows 20 to 23 on member 1 and
// of rows 16 to 23 on member 2, with the parity on member 0; of rows 24 to 31 on members 0 and 1, with the parity on
// member 2; and of rows 32 to 35 on member 2, with the parity on member 1.
#[test]
fn crashes_in_a_commit_of_32(rt: HostRuntime) {
    let mut numbers = [0; 32];
    for i in 0..32usize {
        numbers[i] = 36 + i as u64;
    }
    let member_calls = (8 + 8 + 1) + (4 + 8 + 4 + 1) + (8 + 8 + 4 + 1);
    check_commit_in_turn(&rt, after_entry(&rt, 1), &numbers, member_calls);
}

#[test]
fn crashes_in_replacing_a_member_of_format_2(rt: HostRuntime) {
    check_crashes(&rt, &member(LARGE, 2, Device::Own));
}

#[test]
fn crashes_in_replacing_a_journal_of_format_2(rt: HostRuntime) {
    check_crashes(&rt, &journal(LARGE, 3, Device::Ahead, true));
}

// Rebuilding all 72 rows of a member by one step.
fn whole_step(slot: u8, device: Device) -> Case {
    Case {
        position: 0,
        job: Job::Step(4_096),
        ..member(LARGE, slot, device)
    }
}

#[test]
fn crashes_in_a_step_of_all_rows_of_format_2(rt: HostRuntime) {
    check_crashes(&rt, &whole_step(1, Device::Filled));
}
