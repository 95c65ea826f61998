//! The worked examples of a rebuild.
use super::{
    ID, Known, SET_A, assembled, check_list, crashed, image_now, in_turn, made, mark, told, write,
};
use crate::testing::same;
use rebuild::{Progress, rebuild_step, replace};
use sector_model::{Bank, Choice, Refusal};
use std::process::Abort;
use superblock::State;

// Set A with a new device in this slot.
fn replaced(rt: &(impl Abort + AllocGlobal), slot: u8) -> Known {
    let mut known = made(rt, ID, SET_A);
    mark(rt, &mut known.array, slot);
    same(rt, replace(&mut known.array, slot), Ok(()));
    known
}

// The state and the incarnation of slot 0.
fn first_slot(known: &Known) -> (State, u64) {
    let table = &known.array.table;
    (table.states[0], table.incarnations[0])
}

#[test]
fn rebuild_positions(rt: HostRuntime) {
    let mut known = replaced(&rt, 0);
    same(&rt, first_slot(&known), (State::Rebuilding, 2));
    for (rows, progress) in [
        (0, Progress::Position(0)),
        (1000, Progress::Position(64)),
        (1, Progress::Position(65)),
        (64, Progress::Position(129)),
        (64, Progress::Position(193)),
        (64, Progress::Complete),
    ] {
        same(&rt, rebuild_step(&mut known.array, rows), Ok(progress));
    }
    same(&rt, first_slot(&known), (State::InSync, 2));
    let step = rebuild_step(&mut known.array, 64);
    same(&rt, step, Err(Refusal::NothingToRebuild));
}

#[test]
fn replaced_journal(rt: HostRuntime) {
    let mut known = replaced(&rt, 3);
    let table = &known.array.table;
    same(&rt, table.generation, 3);
    same(
        &rt,
        (table.states[3], table.incarnations[3]),
        (State::InSync, 2),
    );
    let step = rebuild_step(&mut known.array, 64);
    same(&rt, step, Err(Refusal::NothingToRebuild));
    let again = replace(&mut known.array, 3);
    same(&rt, again, Err(Refusal::NotMissing));
}

// Slot 2 is replaced and its first 64 rows are rebuilt; then a row below the position is written, and one above it.
fn under_writes(rt: &(impl Abort + AllocGlobal)) -> Known {
    let mut known = replaced(rt, 2);
    let step = rebuild_step(&mut known.array, 64);
    same(rt, step, Ok(Progress::Position(64)));
    write(rt, &mut known, &[80], 0x44);
    write(rt, &mut known, &[400], 0x55);
    Known {
        array: assembled(rt, image_now(rt, &known.array.bank)),
        list: known.list,
    }
}

// Asks that the set stands at 64 or 128 after a crash in the second step, and shows what was written.
fn check_crash(rt: &(impl Abort + AllocGlobal), known: &Known, call: u64, choice: Choice) {
    let mut array = assembled(rt, crashed(rt, &known.array.bank, call, choice));
    let position = array.table.position;
    let is_either = position == 64 || position == 128;
    same(rt, (call, position, is_either), (call, position, true));
    same(rt, (call, array.table.states[2]), (call, State::Rebuilding));
    check_list(rt, (call, position), &mut array, &known.list);
}

// The step makes for each of 64 rows two reads and a write, a flush, and five writes and flushes of superblocks. A
// crash after a read leaves what one before it does.
#[test]
fn stops_in_rebuild(rt: HostRuntime) {
    let mut known = under_writes(&rt);
    same(&rt, told(&known.array.table).3, 64);
    let from = known.array.bank.now();
    let step = rebuild_step(&mut known.array, 64);
    same(&rt, step, Ok(Progress::Position(128)));
    let end = known.array.bank.now();
    same(&rt, end.saturating_sub(from), 64 * 3 + 1 + 10);
    for row in 0..64u64 {
        check_crash(&rt, &known, from.saturating_add(3 * row), in_turn(row));
    }
    for call in from.saturating_add(64 * 3)..end.saturating_add(1) {
        for choice in [Choice::Oldest, Choice::Newest, Choice::Mixed(3)] {
            check_crash(&rt, &known, call, choice);
        }
    }
}
