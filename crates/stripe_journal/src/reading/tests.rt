//! Entries on a journal: where their sectors stand, and which seal is the last.
use crate::testing::{
    BLANK, Body, FROM, HELD_ROWS, ID, LastRow, Place, THAT_DO_NOT_COUNT, WHOLE_ROWS,
    blank_journals, check_body, check_room, check_sector, is_last, put_body, put_seal, same,
    sector_of, spelled,
};
use sector_model::{Bank, MemBank, Plan, Stop, write_sector};
use std::process::Abort;

// Writes the body of the entry of this number, whose rows hold what these masks have: the bank has made so many calls
// then, and it stands after the sector `before`.
fn check_put(
    rt: &(impl Abort + AllocGlobal),
    bank: &mut MemBank,
    (number, before, calls): (u64, u32, u64),
    (masks, body): ([u8; 2], Body),
) {
    let put = put_body(rt, bank, number, masks);
    same(rt, (number, put, bank.now()), (number, Ok(()), calls));
    check_body(rt, bank, FROM, before, body);
}

#[test]
fn bodies_stand_in_two_halves(rt: HostRuntime) {
    // A body is six sectors, and eight are read after it.
    let mut bank = blank_journals(&rt, Plan::NONE);
    let whole = ([0xff, 0xff], WHOLE_ROWS);
    check_put(&rt, &mut bank, (1, 263, 6), whole);
    check_put(&rt, &mut bank, (2, 7, 20), whole);
    check_sector(&rt, &mut bank, FROM, 264, &[0x10; 512]);
}

// Rows 32 and 33 with the masks 07 and 06: five sectors.
#[test]
fn held_two_rows(rt: HostRuntime) {
    // A body is five sectors, and eight are read after it.
    let mut bank = blank_journals(&rt, Plan::NONE);
    check_put(&rt, &mut bank, (1, 263, 5), ([0x07, 0x06], HELD_ROWS));
    check_put(&rt, &mut bank, (2, 7, 18), ([0x07, 0xf6], HELD_ROWS));
}

// Writes the seal of an entry with one row: it stands in this sector, and is the last.
fn check_seal(rt: &impl Abort, bank: &mut MemBank, (number, row, at): (u8, u16, u32)) {
    let sector = spelled(&ID, number, [row, 0]);
    let put = put_seal(rt, bank, &sector);
    check_sector(rt, bank, FROM, at, &sector);
    let is_so = is_last(rt, bank, FROM, u64::from(number), &[u32::from(row)]);
    same(rt, (number, put, is_so), (number, Ok(()), Ok(true)));
}

#[test]
fn seals_stand_in_two_places(rt: HostRuntime) {
    let mut bank = blank_journals(&rt, Plan::NONE);
    check_seal(&rt, &mut bank, (1, 32, 3));
    check_seal(&rt, &mut bank, (2, 40, 2));
    check_seal(&rt, &mut bank, (3, 255, 3));
    check_sector(&rt, &mut bank, FROM, 2, &spelled(&ID, 2, [40, 0]));
    check_sector(&rt, &mut bank, FROM, 4, &BLANK);
}

fn put(rt: &impl Abort, bank: &mut MemBank, at: u32, place: Place) -> Result<(), Stop> {
    assert!(rt; at < 520);
    check_room(rt, bank, FROM, at + 1);
    write_sector(bank, FROM, at, &sector_of(place))
}

// With these in the seal places of a journal, the last seal is as each row says.
fn check_last(rt: &impl Abort, bank: &mut MemBank, rows: &[LastRow]) {
    for row in 0..rows.len() {
        let (even, odd, number, numbers) = rows[row];
        let before = bank.now();
        let written = (put(rt, bank, 2, even), put(rt, bank, 3, odd));
        let is_so = is_last(rt, bank, FROM, number, numbers);
        let got = (written, is_so, bank.now().wrapping_sub(before));
        same(rt, (row, got), (row, ((Ok(()), Ok(())), Ok(true), 4)));
    }
}

#[test]
fn seals_that_do_not_count(rt: HostRuntime) {
    const OTHERS: &[LastRow] = &[
        (Some((&ID, 2, 7, 0)), Some((&ID, 3, 255, 6)), 3, &[255]),
        (Some((&ID, 4, 7, 5)), Some((&ID, 3, 255, 0)), 4, &[7]),
    ];
    let mut bank = blank_journals(&rt, Plan::NONE);
    check_last(&rt, &mut bank, THAT_DO_NOT_COUNT);
    check_last(&rt, &mut bank, OTHERS);
}

// The journal is down from this call on: writing a body, a seal and reading the last seal end there.
fn check_down(rt: &(impl Abort + AllocGlobal), down: u64) {
    let stop = Stop::Down(FROM);
    let mut plan = Plan::NONE;
    plan.down[FROM as usize] = Some(down);
    let mut bank = blank_journals(rt, plan);
    let body = (put_body(rt, &mut bank, 1, [7, 7]), bank.now());
    let seal = put_seal(rt, &mut bank, &spelled(&ID, 1, [32, 0]));
    let last = is_last(rt, &mut bank, FROM, 0, &[]);
    let got = (body, seal, last, bank.now());
    let want = (Err(stop), down.wrapping_add(1));
    same(rt, got, (want, Err(stop), Err(stop), down.wrapping_add(3)));
}

#[test]
fn a_journal_that_is_down(rt: HostRuntime) {
    for down in 0..6 {
        check_down(&rt, down);
    }
}
