//! Rows that are worked out by hand.
ghost use Rattle.std.specs.Prelude.{◌≡◌, ◌≤◌};

use super::*;
use crate::oracle::RowSources;
use crate::testing::same;
use sector_model::Sector;
use std::process::Abort;

// A sector of one value.
fn all_of(byte: u8) -> Sector {
    [byte; 512]
}

// A row of so many members with these own sectors, each of which counts, and with no entry.
fn row_of(members: u8, bytes: &[u8; 8]) -> RowSources
    requires { members ≤ 8 }
    ensures { result.members ≡ members }
{
    let mut own = [all_of(0); 8];
    for member in 0..8 {
        own[member] = all_of(bytes[member]);
    }
    RowSources {
        members,
        entry: [None; 8],
        trusted: [true; 8],
        own,
    }
}

fn row_of_three(first: u8, second: u8, third: u8) -> RowSources {
    row_of(3, &[first, second, third, 0xee, 0xee, 0xee, 0xee, 0xee])
}

// Checks whether a row of three members is sound, and the value of each of them.
fn check_values(rt: &impl Abort, row: &RowSources, is_sound: bool, values: [u8; 3]) {
    assert!(rt; row.members == 3);
    same(rt, row.is_sound(), is_sound);
    let mut sector = all_of(0xa5);
    for member in 0..3u8 {
        row.value_of(member, &mut sector);
        let value = all_of(values[usize::from(member)]);
        same(rt, (member, sector), (member, value));
    }
}

// 11 xor 22 is 33.
#[test]
fn any_one_member_may_go(rt: HostRuntime) {
    let whole = row_of_three(0x11, 0x22, 0x33);
    check_values(&rt, &whole, true, [0x11, 0x22, 0x33]);
    for gone in 0..3 {
        let mut row = whole;
        row.trusted[gone] = false;
        row.own[gone] = all_of(0xdd);
        check_values(&rt, &row, true, [0x11, 0x22, 0x33]);
    }
    degraded_law();
}

#[test]
fn two_members_may_not_go(rt: HostRuntime) {
    let mut row = row_of_three(0x11, 0x22, 0x33);
    row.trusted[0] = false;
    row.trusted[1] = false;
    // What isn't known counts as zero, so both get the sector of the third.
    check_values(&rt, &row, false, [0x33, 0x33, 0x33]);
}

// 11 xor 22 xor 34 is 07, and 22 xor 34 is 16.
#[test]
fn wrong_parity_gives_another_value(rt: HostRuntime) {
    let mut row = row_of_three(0x11, 0x22, 0x34);
    check_values(&rt, &row, false, [0x11, 0x22, 0x34]);
    row.trusted[0] = false;
    check_values(&rt, &row, true, [0x16, 0x22, 0x34]);
}

#[test]
fn a_wrong_last_byte_is_seen(rt: HostRuntime) {
    let mut row = row_of_three(0x11, 0x22, 0x33);
    row.own[2][511] = 0x32;
    assert!(rt; !row.is_sound());
}

// 44 xor 77 is 33, so the row is sound with the entry's sectors, and its own sectors alone aren't: 11 xor 77 is 66.
#[test]
fn the_entry_wins(rt: HostRuntime) {
    let mut row = row_of_three(0x11, 0x77, 0x33);
    check_values(&rt, &row, false, [0x11, 0x77, 0x33]);
    row.entry[0] = Some(all_of(0x44));
    check_values(&rt, &row, true, [0x44, 0x77, 0x33]);
    // It wins also where the own sector doesn't count, and serves another member that is gone.
    row.trusted[0] = false;
    check_values(&rt, &row, true, [0x44, 0x77, 0x33]);
    row.trusted[0] = true;
    row.trusted[1] = false;
    check_values(&rt, &row, true, [0x44, 0x77, 0x33]);
}

// Member 1 is rebuilding, and has been rebuilt up to row 64. Above that it has 99 in each sector.
fn row_while_rebuilding(row: u64) -> RowSources {
    let position = 64;
    let mut sources = row_of_three(0x11, 0x99, 0x33);
    sources.trusted[1] = row < position;
    sources
}

#[test]
fn a_rebuilding_member_counts_below_its_position(rt: HostRuntime) {
    // 11 xor 33 is 22.
    check_values(&rt, &row_while_rebuilding(63), false, [0x11, 0x99, 0x33]);
    check_values(&rt, &row_while_rebuilding(64), true, [0x11, 0x22, 0x33]);
}

#[test]
fn a_row_has_up_to_eight_members(rt: HostRuntime) {
    // 1 xor 2 xor .. xor 6 is 7, and 7 xor 8 is 15.
    let mut row = row_of(8, &[8, 1, 2, 3, 4, 5, 6, 15]);
    let is_sound = row.is_sound();
    row.trusted[7] = false;
    let mut sector = all_of(0);
    row.value_of(7, &mut sector);
    row.members = 0;
    same(
        &rt,
        (is_sound, sector, row.is_sound()),
        (true, all_of(15), true),
    );
}
