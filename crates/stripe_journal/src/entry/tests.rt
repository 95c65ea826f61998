//! Entries in memory: their rows and sectors.
use super::Entry;
use crate::testing::{fill, push, same, two_rows};
use sector_model::Sector;
use std::process::Abort;

mod of_runs;

// Of a row the sectors that its mask has, each full of its byte, and none where there is none.
fn check_row(rt: &impl Abort, entry: &Entry, i: usize, bytes: &[Option<u8>; 8]) {
    assert!(rt; i < entry.len());
    let row = entry.view(i);
    for member in 0..8u8 {
        let want = bytes[member as usize];
        assert!(rt; is_full(row.member(member), want), "member {member}");
    }
}

// Whether a sector is full of this byte, or neither is there.
pub(crate) fn is_full(sector: Option<&Sector>, byte: Option<u8>) -> bool {
    match (sector, byte) {
        (Some(sector), Some(byte)) => *sector == [byte; 512],
        (None, None) => true,
        _ => false,
    }
}

#[test]
fn rows_stand_apart(rt: HostRuntime) {
    let mut entry = Entry::new(rt.alloc()).expect(&rt, "memory");
    push(&rt, &mut entry, 7, 0xff);
    push(&rt, &mut entry, 9, 0x05);
    assert!(rt; entry.len() == 2);
    fill(&rt, &mut entry, 0, 7, 0x17);
    fill(&rt, &mut entry, 1, 0, 0x20);
    fill(&rt, &mut entry, 1, 2, 0x22);
    let zero = Some(0);
    check_row(
        &rt,
        &entry,
        0,
        &[zero, zero, zero, zero, zero, zero, zero, Some(0x17)],
    );
    let none = None;
    check_row(
        &rt,
        &entry,
        1,
        &[Some(0x20), none, Some(0x22), none, none, none, none, none],
    );
}

#[test]
fn a_pushed_row_is_zero(rt: HostRuntime) {
    // Both rows have bytes in each sector.
    let mut entry = two_rows(&rt, [0xff, 0xff]);
    let was_empty = entry.is_empty();
    entry.clear();
    same(&rt, (was_empty, entry.is_empty()), (false, true));
    push(&rt, &mut entry, 8, 0xff);
    assert!(rt; entry.len() == 1);
    check_row(&rt, &entry, 0, &[Some(0); 8]);
}

// Pushes 32 rows that hold members 0 and 7, and fills the last sector of each with its number.
fn fill_rows(rt: &impl Abort, entry: &mut Entry) {
    for row in 0..32u8 {
        assert!(rt; entry.len() == row as usize);
        push(rt, entry, u32::from(row), 0x81);
        fill(rt, entry, row as usize, 7, row);
    }
}

#[test]
fn an_entry_has_32_rows(rt: HostRuntime) {
    let mut entry = Entry::new(rt.alloc()).expect(&rt, "memory");
    fill_rows(&rt, &mut entry);
    same(&rt, entry.len(), 32);
    let none = None;
    for row in 0..32u8 {
        let bytes = [Some(0), none, none, none, none, none, none, Some(row)];
        check_row(&rt, &entry, row as usize, &bytes);
    }
}
