//! Commits to sets that lack a slot or rebuild a member: their entries hold what changes, also where the member of it
//! is out.
use super::rebuilt::shows;
use super::{
    Case, Device, ID, Job, Known, OF_3, OF_4, OF_5, OF_8, SET_A, Shape, assembled, before,
    check_list, check_whole, crashed, disk, image_now, in_turn, made, mark, read, take, write,
};
use crate::testing::{all, same};
use array_io::Array;
use rebuild::{Progress, rebuild_step, replace};
use sector_model::{Bank, Choice, Image, MemBank};
use std::process::Abort;
use superblock::{State, Table};

// Asks that a journal has the entry of number 2, which holds members 0 and 1 of one row, with these bytes. Its seal is
// sector 2, and its body begins at sector 8.
fn check_entry(rt: &impl Abort, image: &Image, journal: u8, bytes: [u8; 2]) {
    let sectors = disk(rt, image, journal);
    assert!(rt; sectors.len() == 520);
    let seal = &sectors[2];
    let is_held = seal.starts_with(b"RAID5JE2") && seal.ends_with(b"2EJ5DIAR");
    let mut masks = [0; 32];
    masks.copy_from_slice(&seal[168..200]);
    let mut wanted = [0; 32];
    wanted[0] = 0x03;
    same(rt, (journal, is_held, masks), (journal, true, wanted));
    let body = [sectors[8], sectors[9], sectors[10]];
    let is_body = body == [all(bytes[0]), all(bytes[1]), all(0)];
    same(rt, (journal, is_body), (journal, true));
}

// Asks for the list after the first write to a member, also where no device is in slot 0.
fn check_first_member_write(rt: &(impl Abort + AllocGlobal), known: &Known, choice: Choice) {
    let bank = &known.array.bank;
    let call = bank.now().saturating_sub(1);
    let mut array = assembled(rt, crashed(rt, bank, call, choice));
    check_list(rt, (call, 0), &mut array, &known.list);
    let mut image = crashed(rt, bank, call, choice);
    take(rt, &mut image, 0);
    check_list(rt, (call, 1), &mut assembled(rt, image), &known.list);
}

// Logical sectors 64 and 72 are the data of row 32, on members 2 and 0, and member 1 has the parity. The commit of 72
// reads member 2, writes two sectors and a seal to each journal, and ends with a write and a flush of member 1.
#[test]
fn held_while_degraded(rt: HostRuntime) {
    let mut known = made(&rt, ID, SET_A);
    write(&rt, &mut known, &[64], 0x11);
    mark(&rt, &mut known.array, 0);
    let from = known.array.bank.now();
    write(&rt, &mut known, &[72], 0x5c);
    let calls = known.array.bank.now().saturating_sub(from);
    same(&rt, calls, 1 + 2 * (2 + 1) + 2 * 2 + 2);
    let is_so = read(&rt, &mut known.array, 72) == all(0x5c);
    same(&rt, is_so, true);
    check_list(&rt, (0, 0), &mut known.array, &known.list);
    let image = image_now(&rt, &known.array.bank);
    check_entry(&rt, &image, 3, [0x5c, 0x4d]);
    check_entry(&rt, &image, 4, [0x5c, 0x4d]);
    for choice in [Choice::Oldest, Choice::Newest, Choice::Mixed(3)] {
        check_first_member_write(&rt, &known, choice);
    }
}

// Logical sectors that are committed together: how many, the first, and the step from each to the next.
type Run = (u64, u64, u64);

// Of each number of members here they give one sector of a row, some, and all data of one.
const RUNS: &[Run] = &[
    (1, 64, 1),
    (2, 64, 8),
    (32, 60, 1),
    (3, 72, 8),
    (32, 3, 3),
    (7, 56, 8),
    (1, 20, 1),
];

// The numbers of a run.
fn numbers_of(rt: &(impl Abort + AllocGlobal), run: Run) -> Vec<u64> {
    let (count, first, step) = run;
    let mut numbers = Vec::new(rt.alloc());
    let mut number = first;
    for _ in 0..count {
        numbers.push(number).expect(rt, "memory");
        number = number.saturating_add(step);
    }
    numbers
}

// What a commit makes: how many reads, how many sectors the entry holds, and how many each member is given.
#[derive(Drop)]
struct Makes {
    reads: u64,
    held: u64,
    put: [u64; 10],
}

// The member whose own sector does not count in a row, if there is one.
fn out_in(table: &Table, row: u64) -> Option<usize> {
    for slot in 0..10usize {
        let state = table.states[slot];
        let is_beyond = state == State::Rebuilding && row >= table.position;
        if slot < table.geometry.members as usize && (state == State::Missing || is_beyond) {
            return Some(slot);
        }
    }
    None
}

// Counts what a commit of these logical sectors makes in a row. The old values of the given ones and of the parity are
// read, or the other data where those are fewer; where a member is out, what does without its sector.
fn count_row(rt: &impl Abort, table: &Table, numbers: &[u64], row: u64, makes: &mut Makes) {
    let geometry = &table.geometry;
    let mut held = [false; 10];
    let mut given = 0u64;
    for number in numbers {
        assert!(rt; *number < geometry.data_sectors());
        let place = geometry.place(*number);
        if place.row == row {
            assert!(rt; place.member < 10);
            held[place.member as usize] = true;
            given = given.saturating_add(1);
        }
    }
    if given == 0 {
        return;
    }
    assert!(rt; row < geometry.rows());
    let parity = geometry.parity_member(row) as usize;
    assert!(rt; parity < 10);
    held[parity] = true;
    let changed = given.saturating_add(1);
    let others = u64::from(geometry.members).saturating_sub(changed);
    let mut reads = changed.min(others);
    if let Some(out) = out_in(table, row) {
        assert!(rt; out < 10);
        reads = if held[out] { others } else { changed };
        held[out] = false;
    }
    makes.reads = makes.reads.saturating_add(reads);
    makes.held = makes.held.saturating_add(changed);
    for slot in 0..10usize {
        if held[slot] {
            makes.put[slot] = makes.put[slot].saturating_add(1);
        }
    }
}

// How many reads a commit of these logical sectors makes, and how many writes and flushes: each journal that is there
// gets the sectors that are held and a seal, and is flushed twice, and each member gets its own of them, and is flushed
// where there are any.
fn counts_of(rt: &impl Abort, table: &Table, numbers: &[u64]) -> [u64; 2] {
    let mut makes = Makes {
        reads: 0,
        held: 0,
        put: [0; 10],
    };
    for row in 0..table.geometry.rows() {
        count_row(rt, table, numbers, row, &mut makes);
    }
    let first = table.geometry.members as usize;
    let mut calls = 0u64;
    for slot in 0..10usize {
        let is_journal = slot >= first && slot < first.saturating_add(2);
        if is_journal && table.states[slot] != State::Missing {
            calls = calls.saturating_add(makes.held).saturating_add(1 + 2);
        } else if makes.put[slot] > 0 {
            calls = calls.saturating_add(makes.put[slot]).saturating_add(1);
        }
    }
    [makes.reads, calls]
}

// Commits a run, and asks for its calls and for the list.
fn check_commit(rt: &(impl Abort + AllocGlobal), known: &mut Known, number: u64, run: Run) {
    let numbers = numbers_of(rt, run);
    let wanted = counts_of(rt, &known.array.table, &numbers);
    let before = (known.array.bank.now(), known.array.bank.room);
    write(rt, known, &numbers, ((number % 256) as u8).wrapping_mul(37));
    let bank = &known.array.bank;
    let calls = bank.now().saturating_sub(before.0);
    let writes = before.1.saturating_sub(bank.room) as u64;
    let got = [calls.saturating_sub(writes), writes];
    same(rt, (number, run, got), (number, run, wanted));
    check_list(rt, (number, run.0), &mut known.array, &known.list);
}

// Gives the slot a device if it has none, and rebuilds it: the list stays.
fn check_whole_again(
    rt: &(impl Abort + AllocGlobal),
    slot: u8,
    mut array: Array<MemBank>,
    list: &[u8],
) {
    assert!(rt; slot < 10);
    let state = array.table.states[slot as usize];
    if state == State::Missing {
        same(rt, replace(&mut array, slot), Ok(()));
    }
    let state = array.table.states[slot as usize];
    if state == State::Rebuilding {
        same(rt, rebuild_step(&mut array, 64), Ok(Progress::Complete));
    }
    check_whole(rt, (u64::from(slot), 9), &array, list);
}

// A set of which a slot is missing, or is a member with so many rows rebuilt.
fn lacking(shape: Shape, slot: u8, rows: Option<u64>) -> Case {
    Case {
        shape,
        slot,
        device: Device::Own,
        is_used: true,
        position: rows.unwrap_or(0),
        job: if rows.is_some() {
            Job::Step(1)
        } else {
            Job::Replace
        },
    }
}

// Commits runs to such a set, and has it whole again in the next run.
fn check_commits(rt: &(impl Abort + AllocGlobal), case: &Case) {
    let mut known = before(rt, case);
    let mut number = 100 * u64::from(case.slot);
    for run in RUNS {
        number = number.saturating_add(1);
        check_commit(rt, &mut known, number, *run);
    }
    let mut again = assembled(rt, image_now(rt, &known.array.bank));
    check_list(rt, (number, 1_000), &mut again, &known.list);
    check_whole_again(rt, case.slot, again, &known.list);
}

// Commits to a set of this shape without each slot, and with each member in rebuilding, up to this row.
fn check_shape(rt: &(impl Abort + AllocGlobal), shape: Shape, row: u64) {
    for slot in 0..shape.members.saturating_add(2) {
        check_commits(rt, &lacking(shape, slot, None));
        if slot < shape.members {
            check_commits(rt, &lacking(shape, slot, Some(row)));
        }
    }
}

#[test]
fn commits_that_lack_a_slot_of_4(rt: HostRuntime) {
    check_shape(&rt, OF_4, 20);
}

#[test]
fn commits_that_lack_a_slot_of_5(rt: HostRuntime) {
    check_shape(&rt, OF_5, 20);
}

#[test]
fn commits_that_lack_a_slot_of_8(rt: HostRuntime) {
    check_shape(&rt, OF_8, 12);
}

// Checks a crash in a commit: it shows the new list or the old one, and the new one once the seals are safe.
fn check_crash(
    rt: &(impl Abort + AllocGlobal),
    case: &Case,
    known: &Known,
    old: &[u8],
    crash: (u64, Option<bool>),
) {
    let (call, is_wanted) = crash;
    let mut array = assembled(rt, crashed(rt, &known.array.bank, call, in_turn(call)));
    let is_new = shows(rt, &mut array, &known.list);
    let is_wanted = is_wanted.unwrap_or(is_new);
    same(rt, (call, is_new), (call, is_wanted));
    let list = if is_new { &known.list } else { old };
    check_list(rt, (call, 2), &mut array, list);
    check_whole_again(rt, case.slot, array, list);
}

// Checks the crashes at each call of a commit to a set that lacks a slot. The calls of members are the last, so many,
// and those of seals before them are four, or two where a journal is missing.
fn check_crashes(
    rt: &(impl Abort + AllocGlobal),
    case: &Case,
    numbers: &[u64],
    member_calls: u64,
    seal_calls: u64,
) {
    let mut known = before(rt, case);
    let old = Vec::from_slice(rt.alloc(), &known.list).expect(rt, "memory");
    let from = known.array.bank.now();
    write(rt, &mut known, numbers, 0x77);
    let end = known.array.bank.now();
    let sealed = end.saturating_sub(member_calls);
    let unsealed = sealed.saturating_sub(seal_calls);
    assert!(rt; from < unsealed);
    for call in from..end.saturating_add(1) {
        let is_new = if call >= sealed {
            Some(true)
        } else if call <= unsealed {
            Some(false)
        } else {
            None
        };
        check_crash(rt, case, &known, &old, (call, is_new));
    }
}

// Of 3 members logical sector 4 is in row 4 on member 0, with the parity on member 2. Of 4 members 20 is in row 4 on
// member 2, with the parity on 3. Of 5 members 64 and 72 are in row 16 on members 3 and 4, with the parity on 2. Of 8
// members 64 is in row 8 on member 0, with the parity on 6.
#[test]
fn crashes_in_commits_that_lack_a_slot(rt: HostRuntime) {
    check_crashes(&rt, &lacking(OF_3, 0, None), &[4], 2, 4);
    check_crashes(&rt, &lacking(OF_3, 1, None), &[4], 4, 4);
    check_crashes(&rt, &lacking(OF_3, 4, None), &[4], 4, 2);
    check_crashes(&rt, &lacking(OF_4, 3, None), &[20], 2, 4);
    check_crashes(&rt, &lacking(OF_4, 2, Some(4)), &[20], 2, 4);
    check_crashes(&rt, &lacking(OF_4, 2, Some(5)), &[20], 4, 4);
    check_crashes(&rt, &lacking(OF_5, 4, None), &[64, 72], 4, 4);
    check_crashes(&rt, &lacking(OF_5, 0, Some(16)), &[64, 72], 6, 4);
    check_crashes(&rt, &lacking(OF_8, 5, None), &[64], 4, 4);
    check_crashes(&rt, &lacking(OF_8, 0, Some(8)), &[64], 2, 4);
}
