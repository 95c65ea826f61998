//! Members are rebuilt whole, with writes between the steps, and crashes in such a write.
use super::{
    Device, Known, OF_3, OF_4, OF_8, Shape, assembled, before, check_complete, check_list,
    check_published, check_whole, crashed, in_turn, member, middle_step, read, rows_of, take,
    without, write,
};
use crate::testing::{all, same};
use array_io::Array;
use rebuild::{Progress, rebuild_step, replace};
use sector_model::{Bank, Choice, MemBank};
use std::process::Abort;

// Puts the numbers of a row's logical sectors after these.
fn push_row(rt: &(impl Abort + AllocGlobal), known: &Known, row: u64, numbers: &mut Vec<u64>) {
    let geometry = &known.array.table.geometry;
    for member in 0..geometry.members {
        assert!(rt; row < geometry.rows());
        if let Some(number) = geometry.logical_of(member, row) {
            numbers.push(number).expect(rt, "memory");
        }
    }
}

// Writes the row below a position, the row at it, the one above it and the last, all of them in one commit, and then
// again the first and the last sector of each of them by itself. A row that is there twice, or not of the set, is left
// out.
fn write_around(rt: &(impl Abort + AllocGlobal), known: &mut Known, position: u64, byte: u8) {
    let last = known.array.table.geometry.rows().saturating_sub(1);
    let mut around = Vec::new(rt.alloc());
    for row in position.saturating_sub(1)..position.saturating_add(2).min(last) {
        let mut numbers = Vec::new(rt.alloc());
        push_row(rt, known, row, &mut numbers);
        write_ends(rt, known, &numbers, byte);
        push_row(rt, known, row, &mut around);
    }
    push_row(rt, known, last, &mut around);
    write(rt, known, &around, byte);
}

// Writes the first and the last of these logical sectors, each by itself.
fn write_ends(rt: &(impl Abort + AllocGlobal), known: &mut Known, numbers: &[u64], byte: u8) {
    let count = numbers.len();
    assert!(rt; count >= 2);
    write(rt, known, &[numbers[0]], byte.wrapping_add(101));
    write(rt, known, &[numbers[count - 1]], byte.wrapping_add(102));
}

// Rebuilds a member by steps of 5, 1, 7 and none rows and one over the rest, with writes before each step and after the
// last.
fn check_rebuilt(rt: &(impl Abort + AllocGlobal), shape: Shape, slot: u8, device: Device) {
    let mut known = without(rt, &member(shape, slot, device));
    same(rt, replace(&mut known.array, slot), Ok(()));
    let mut from = 0u64;
    let mut byte = 0x31u8;
    for (rows, to) in [(5, 5), (1, 6), (7, 13), (0, 13), (64, rows_of(shape))] {
        write_around(rt, &mut known, from, byte);
        check_list(rt, (from, 0), &mut known.array, &known.list);
        let progress = if to < rows_of(shape) {
            Progress::Position(to)
        } else {
            Progress::Complete
        };
        same(rt, rebuild_step(&mut known.array, rows), Ok(progress));
        check_published(rt, (to, 1), &known.array);
        check_list(rt, (to, 1), &mut known.array, &known.list);
        from = to;
        byte = byte.wrapping_mul(3);
    }
    check_complete(rt, (from, 2), &known.array, &known.list);
    write_around(rt, &mut known, 7, 0x66);
    check_whole(rt, (from, 3), &known.array, &known.list);
}

#[test]
fn members_of_3_are_rebuilt_under_writes(rt: HostRuntime) {
    check_rebuilt(&rt, OF_3, 0, Device::Blank);
    check_rebuilt(&rt, OF_3, 1, Device::Own);
    check_rebuilt(&rt, OF_3, 2, Device::Filled);
}

#[test]
fn members_of_4_and_8_are_rebuilt_under_writes(rt: HostRuntime) {
    check_rebuilt(&rt, OF_4, 2, Device::Own);
    check_rebuilt(&rt, OF_4, 3, Device::Filled);
    check_rebuilt(&rt, OF_8, 5, Device::Foreign);
    check_rebuilt(&rt, OF_8, 7, Device::Own);
}

/// Whether reads of an array give this list.
pub(crate) fn shows(rt: &impl Abort, array: &mut Array<MemBank>, list: &[u8]) -> bool {
    let mut logical = 0u64;
    for byte in list {
        if read(rt, array, logical) != all(*byte) {
            return false;
        }
        logical = logical.wrapping_add(1);
    }
    true
}

// Checks a crash in a write while a member is rebuilding, with its device there: all of it is shown, or nothing, and so
// it is on the members when that one has been rebuilt.
fn check_crash(
    rt: &(impl Abort + AllocGlobal),
    known: &Known,
    old: &[u8],
    call: u64,
    choice: Choice,
) {
    let mut array = assembled(rt, crashed(rt, &known.array.bank, call, choice));
    same(rt, (call, array.table.position), (call, POSITION));
    let is_new = shows(rt, &mut array, &known.list);
    let list = if is_new { &known.list } else { old };
    let step = rebuild_step(&mut array, 64);
    same(rt, (call, step), (call, Ok(Progress::Complete)));
    check_whole(rt, (call, 0), &array, list);
}

// Checks the same with the device gone.
fn check_crash_without(
    rt: &(impl Abort + AllocGlobal),
    known: &Known,
    old: &[u8],
    call: u64,
    choice: Choice,
) {
    let mut image = crashed(rt, &known.array.bank, call, choice);
    take(rt, &mut image, MEMBER);
    let mut array = assembled(rt, image);
    let is_new = shows(rt, &mut array, &known.list);
    let is_old = !is_new && shows(rt, &mut array, old);
    same(rt, (call, is_new || is_old), (call, true));
}

// The member that is rebuilding, and how many rows it has.
const MEMBER: u8 = 1;

const POSITION: u64 = 5;

// One entry writes the row below the position, the row at it, the one above it and the last.
#[test]
fn crashes_in_a_write_around_the_position(rt: HostRuntime) {
    let case = middle_step(OF_3, MEMBER, Device::Own);
    let mut known = before(&rt, &case);
    let old = Vec::from_slice(rt.alloc(), &known.list).expect(&rt, "memory");
    let mut numbers = Vec::new(rt.alloc());
    for row in [POSITION - 1, POSITION, POSITION + 1, 63] {
        push_row(&rt, &known, row, &mut numbers);
    }
    let from = known.array.bank.now();
    write(&rt, &mut known, &numbers, 0x77);
    for call in from..known.array.bank.now().saturating_add(1) {
        for choice in [Choice::Oldest, Choice::Newest, Choice::Mixed(3)] {
            check_crash(&rt, &known, &old, call, choice);
        }
        check_crash_without(&rt, &known, &old, call, in_turn(call));
    }
}
