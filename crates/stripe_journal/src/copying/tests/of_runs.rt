//! Copies of an entry of form Runs, in a set of format 2: what stands in its body, and nothing of its rows of zeros.
use crate::testing::{
    FROM, ID, TO, check_room, check_sector, is_seal, journals_of, put_seal, read_seal, same,
    spelled_runs,
};
use crate::{copy_entry, last_sealed};
use layout_map::Geometry;
use sector_model::{Bank, MemBank, Plan, write_sector};
use std::process::Abort;

/// Members 1 and 2 of rows 32 and 33, and rows 40 to 47 of zeros.
const RUNS: &[[u8; 8]] = &[
    [0x20, 0x00, 0x00, 0x00, 0x00, 0x02, 0x00, 0x06],
    [0x28, 0x00, 0x00, 0x00, 0x00, 0x08, 0x00, 0x00],
];

/// What the first journal has from the first sector of the body on: its four sectors, and one after them.
const HAS: [u8; 5] = [0x11, 0x12, 0x21, 0x22, 0x77];

/// What the other journal has there after the copy.
const COPIED: [u8; 5] = [0x11, 0x12, 0x21, 0x22, 0];

// Fills sectors of the first journal, from one on.
fn put_sectors(rt: &impl Abort, bank: &mut MemBank, first: u32) {
    assert!(rt; first < 8_000);
    for i in 0..5u32 {
        check_room(rt, bank, FROM, first + i + 1);
        let answer = write_sector(bank, FROM, first + i, &[HAS[i as usize]; 512]);
        same(rt, answer, Ok(()));
    }
}

// Copies the entry of this number, whose body begins with this sector: a read and a write for each sector of its body,
// and three calls more.
fn check_copy(rt: &(impl Abort + AllocGlobal), number: u64, first: u32) {
    let geometry = Geometry::large(3, 8, 32).expect(rt, "a geometry");
    let sector = spelled_runs(number, RUNS);
    let mut bank = journals_of(rt, Plan::NONE, 8_200);
    put_sectors(rt, &mut bank, first);
    same(rt, put_seal(rt, &mut bank, &sector), Ok(()));
    same(rt, bank.now(), 6);
    check_room(rt, &bank, FROM, geometry.format.journal_sectors());
    check_room(rt, &bank, TO, geometry.format.journal_sectors());
    let seal = read_seal(rt, &sector);
    assert!(rt; seal.form.format() == geometry.format);
    let answer = copy_entry(&mut bank, FROM, TO, &seal, &geometry);
    same(rt, (answer, bank.now()), (Ok(()), 6 + 11));
    check_copied(rt, &mut bank, &geometry, number, first);
}

// The other journal has the body, and its last entry is that of this number.
fn check_copied(rt: &impl Abort, bank: &mut MemBank, geometry: &Geometry, number: u64, first: u32) {
    assert!(rt; first < 8_000);
    for i in 0..5u32 {
        check_sector(rt, bank, TO, first + i, &[COPIED[i as usize]; 512]);
    }
    check_room(rt, bank, TO, geometry.format.journal_sectors());
    let found = last_sealed(bank, TO, &ID, geometry)
        .ok()
        .expect(rt, "it is up");
    assert!(rt; is_seal(&found, number, &[]));
}

#[test]
fn a_copy_of_runs_begins_at_4104(rt: HostRuntime) {
    check_copy(&rt, 1, 4_104);
}

#[test]
fn a_copy_of_runs_begins_at_8(rt: HostRuntime) {
    check_copy(&rt, 2, 8);
}
