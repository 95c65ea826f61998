//! Copies of an entry with two rows, from one journal to the other.
use super::copy_entry;
use crate::testing::{
    Body, FROM, HELD_ROWS, ID, TO, WHOLE_ROWS, blank_journals, check_body, check_room, is_last,
    put_body, put_seal, read_seal, same, set, spelled, spelled_held,
};
use sector_model::{Bank, MemBank, Plan, Sector, Stop};
use std::process::Abort;

mod of_runs;

/// What the rows of the entry hold in a whole entry of three members.
const WHOLE: [u8; 2] = [7, 7];

/// What they hold in one that leaves member 0 of the second row out.
const HELD: [u8; 2] = [7, 6];

/// The device calls that put the whole entry on the first journal.
const BEFORE: u64 = 7;

/// The device calls of a copy: 6 reads and 6 writes, a flush, the seal's write, and a flush.
const CALLS: u64 = 15;

// Copies the entry of the seal that a sector spells from the first journal to the second.
fn copy(rt: &impl Abort, bank: &mut MemBank, sector: &Sector) -> Result<(), Stop> {
    let geometry = set(rt);
    check_room(rt, bank, FROM, geometry.format.journal_sectors());
    check_room(rt, bank, TO, geometry.format.journal_sectors());
    let seal = read_seal(rt, sector);
    assert!(rt; seal.form.format() == geometry.format);
    copy_entry(bank, FROM, TO, &seal, &geometry)
}

// Two journals, of which the first has the entry of this number, once the entry was copied to the second: the copy
// gives this answer after so many calls of the bank, and then the last entry of one journal is that of the number
// beside it, none where that is 0. `case` is the number of the copy in its test.
fn copied(
    rt: &(impl Abort + AllocGlobal),
    case: u64,
    plan: Plan,
    number: u8,
    want: (Result<(), Stop>, u64),
    (dev, last): (u8, u64),
) -> MemBank {
    let sector = spelled(&ID, number, [32, 33]);
    let mut bank = blank_journals(rt, plan);
    same(
        rt,
        put_body(rt, &mut bank, u64::from(number), WHOLE),
        Ok(()),
    );
    same(rt, put_seal(rt, &mut bank, &sector), Ok(()));
    same(rt, bank.now(), BEFORE);
    let answer = copy(rt, &mut bank, &sector);
    assert!(rt; (answer, bank.now()) == want, "copy {case}");
    let is_so = is_last(rt, &mut bank, dev, last, &[32, 33]) == Ok(true);
    assert!(rt; is_so, "last entry after copy {case}");
    bank
}

#[test]
fn a_copy_has_the_body_and_the_seal(rt: HostRuntime) {
    // The number of an entry, and the sector before its body.
    const ROWS: [(u8, u32); 2] = [(1, 263), (2, 7)];
    let want = (Ok(()), BEFORE + CALLS);
    for k in 0..2 {
        let (number, before) = ROWS[k];
        let last = u64::from(number);
        let mut bank = copied(&rt, last, Plan::NONE, number, want, (FROM, last));
        check_body(&rt, &mut bank, TO, before, WHOLE_ROWS);
        let is_so = is_last(&rt, &mut bank, TO, last, &[32, 33]) == Ok(true);
        assert!(rt; is_so, "entry {number}");
    }
}

// A copy of the entry of this number that doesn't hold all of its rows: a read, a write for each sector that it holds,
// and three calls more.
fn check_held(rt: &(impl Abort + AllocGlobal), number: u8, before: u32, body: Body) {
    let sector = spelled_held(&ID, number, [32, 33], HELD);
    let mut bank = blank_journals(rt, Plan::NONE);
    same(rt, put_body(rt, &mut bank, u64::from(number), HELD), Ok(()));
    same(rt, put_seal(rt, &mut bank, &sector), Ok(()));
    same(rt, bank.now(), 6);
    let answer = copy(rt, &mut bank, &sector);
    same(rt, (answer, bank.now()), (Ok(()), 6 + 13));
    check_body(rt, &mut bank, TO, before, body);
    let is_so = is_last(rt, &mut bank, TO, u64::from(number), &[32, 33]) == Ok(true);
    assert!(rt; is_so, "entry {number}");
}

#[test]
fn a_copy_has_what_the_entry_holds(rt: HostRuntime) {
    check_held(&rt, 1, 263, HELD_ROWS);
    check_held(&rt, 2, 7, HELD_ROWS);
}

// How many calls a copy makes, whether it is answered, and the number of the last entry of the other journal then.
type Failure = (u64, bool, u64);

// Copies over a journal that goes down: in row r it is down from call r of the copy on.
fn check_failures(
    rt: &(impl Abort + AllocGlobal),
    (dev, other): (u8, u8),
    number: u8,
    failures: &[Failure; 15],
) {
    assert!(rt; dev < 10);
    for row in 0..15u8 {
        let call = u64::from(row);
        let (made, is_answered, last) = failures[row as usize];
        let answer = if is_answered {
            Ok(())
        } else {
            Err(Stop::Down(dev))
        };
        let mut plan = Plan::NONE;
        plan.down[dev as usize] = Some(BEFORE + call);
        let want = (answer, BEFORE.wrapping_add(made));
        let _ = copied(rt, call, plan, number, want, (other, last));
    }
}

#[test]
fn a_copy_whose_source_goes_down(rt: HostRuntime) {
    // Each second call is a read, and the last of them call 10, from 0.
    const FAILURES: [Failure; 15] = [
        (1, false, 0),
        (3, false, 0),
        (3, false, 0),
        (5, false, 0),
        (5, false, 0),
        (7, false, 0),
        (7, false, 0),
        (9, false, 0),
        (9, false, 0),
        (11, false, 0),
        (11, false, 0),
        (CALLS, true, 1),
        (CALLS, true, 1),
        (CALLS, true, 1),
        (CALLS, true, 1),
    ];
    check_failures(&rt, (FROM, TO), 1, &FAILURES)
}

#[test]
fn a_copy_whose_target_goes_down(rt: HostRuntime) {
    // Below call 12 it is only written, at each second call.
    const FAILURES: [Failure; 15] = [
        (2, false, 2),
        (2, false, 2),
        (4, false, 2),
        (4, false, 2),
        (6, false, 2),
        (6, false, 2),
        (8, false, 2),
        (8, false, 2),
        (10, false, 2),
        (10, false, 2),
        (12, false, 2),
        (12, false, 2),
        (13, false, 2),
        (14, false, 2),
        (15, false, 2),
    ];
    check_failures(&rt, (TO, FROM), 2, &FAILURES)
}
