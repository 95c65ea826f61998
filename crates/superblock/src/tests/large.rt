//! Superblocks of sets of format 2 by their bytes, and sectors that are none of theirs.
use super::changed;
use crate::testing::{ID, read, same};
use crate::*;
use layout_map::Format;
use sector_model::Sector;
use std::process::Abort;

const FIRST_MARK: [u8; 8] = [0x52, 0x41, 0x49, 0x44, 0x35, 0x4a, 0x56, 0x32];

const LAST_MARK: [u8; 8] = [0x32, 0x56, 0x4a, 0x35, 0x44, 0x49, 0x41, 0x52];

// What stands between the id and the entries: the generation, the members, the role, the sectors of a chunk and the
// stripes.
type Head = [u8; 16];

// 3 members, chunk 8 and 32 stripes, of generation 1 in slot 0.
const EXAMPLE: Head = [1, 0, 0, 0, 0, 0, 0, 0, 3, 0, 8, 0, 32, 0, 0, 0];

// 8 members, chunk 1,024 and 4,194,303 stripes, of generation 6 in slot 9.
const BROAD: Head = [6, 0, 0, 0, 0, 0, 0, 0, 8, 9, 0, 4, 0xff, 0xff, 0x3f, 0];

// The sector with this head in which so many slots are in sync, each with incarnation 1.
fn in_sync(rt: &impl Abort, head: &Head, slots: usize) -> Sector {
    assert!(rt; slots <= 10);
    let mut sector = [0; 512];
    sector[..8].copy_from_slice(&FIRST_MARK);
    sector[8..24].copy_from_slice(&ID);
    sector[24..40].copy_from_slice(head);
    for slot in 0..slots {
        sector[40 + 16 * slot] = 1;
        sector[48 + 16 * slot] = 1;
    }
    sector[208] = 1;
    sector[504..].copy_from_slice(&LAST_MARK);
    sector
}

// The broad set, of which member 2 is rebuilding with incarnation 3 at its last row, 4,294,966,271.
fn broad(rt: &impl Abort) -> Sector {
    let rebuilding = [
        (72, 2),
        (80, 3),
        (200, 0xff),
        (201, 0xfb),
        (202, 0xff),
        (203, 0xff),
    ];
    changed(rt, in_sync(rt, &BROAD, 10), &rebuilding)
}

// What a superblock says of its set and of itself: the members, the sectors of a chunk, the stripes, the generation,
// the position and the role.
type Said = (u8, u16, u32, u64, u64, u8);

// The sector spells a superblock of format 2 that says this, and it is that superblock's spelling.
fn check_said(rt: &impl Abort, sector: &Sector, said: Said) -> Table {
    let superblock = read(rt, sector);
    let table = superblock.table;
    let geometry = table.geometry;
    let got = (
        geometry.members,
        geometry.chunk,
        geometry.stripes,
        table.generation,
        table.position,
        superblock.role,
    );
    same(rt, (geometry.format, got), (Format::Two, said));
    let mut spelling = [0xa5; 512];
    encode(&superblock, &mut spelling);
    same(rt, spelling, *sector);
    table
}

// The table says this of each of the ten places.
fn check_slots(rt: &impl Abort, table: &Table, states: [State; 10], incarnations: [u64; 10]) {
    let said = table.states;
    same(rt, said, states);
    let numbers = table.incarnations;
    same(rt, numbers, incarnations);
}

#[test]
fn example_set_fresh(rt: HostRuntime) {
    const STATES: [State; 10] = [
        State::InSync,
        State::InSync,
        State::InSync,
        State::InSync,
        State::InSync,
        State::Missing,
        State::Missing,
        State::Missing,
        State::Missing,
        State::Missing,
    ];
    for role in 0..5 {
        let mut sector = in_sync(&rt, &EXAMPLE, 5);
        sector[33] = role;
        let table = check_said(&rt, &sector, (3, 8, 32, 1, 0, role));
        check_slots(&rt, &table, STATES, [1, 1, 1, 1, 1, 0, 0, 0, 0, 0]);
    }
}

#[test]
fn broad_set_with_member_2_rebuilding(rt: HostRuntime) {
    const STATES: [State; 10] = [
        State::InSync,
        State::InSync,
        State::Rebuilding,
        State::InSync,
        State::InSync,
        State::InSync,
        State::InSync,
        State::InSync,
        State::InSync,
        State::InSync,
    ];
    let said = (8, 1_024, 4_194_303, 6, 4_294_966_271, 9);
    let table = check_said(&rt, &broad(&rt), said);
    check_slots(&rt, &table, STATES, [1, 1, 3, 1, 1, 1, 1, 1, 1, 1]);
}

// With these bytes at their places the broad set's sector spells no superblock.
fn check_none(rt: &impl Abort, changes: &[(usize, u8)]) {
    let sector = changed(rt, broad(rt), changes);
    assert!(rt; decode(&sector).is_none());
}

#[test]
fn first_mark_of_format_1(rt: HostRuntime) {
    check_none(&rt, &[(7, 0x31)]);
}

#[test]
fn last_mark_of_format_1(rt: HostRuntime) {
    check_none(&rt, &[(504, 0x31)]);
}

// Its chunk is above the limit of format 1.
#[test]
fn both_marks_of_format_1(rt: HostRuntime) {
    check_none(&rt, &[(7, 0x31), (504, 0x31)]);
}

#[test]
fn chunk_of_2048(rt: HostRuntime) {
    check_none(&rt, &[(35, 8)]);
}

// 4,194,304: row 0 is in sector 8, and the last one would be in sector 2^32 + 7.
#[test]
fn a_stripe_too_many(rt: HostRuntime) {
    check_none(&rt, &[(36, 0), (37, 0), (38, 0x40)]);
}

#[test]
fn number_of_rows_as_the_position(rt: HostRuntime) {
    check_none(&rt, &[(200, 0), (201, 0xfc)]);
}

#[test]
fn position_2_32_more(rt: HostRuntime) {
    check_none(&rt, &[(204, 1)]);
}

#[test]
fn role_10(rt: HostRuntime) {
    check_none(&rt, &[(33, 10)]);
}

#[test]
fn own_incarnation_2(rt: HostRuntime) {
    check_none(&rt, &[(208, 2)]);
}

#[test]
fn slot_0_missing_too(rt: HostRuntime) {
    check_none(&rt, &[(40, 0)]);
}

#[test]
fn generation_0(rt: HostRuntime) {
    check_none(&rt, &[(24, 0)]);
}

#[test]
fn byte_216_not_zero(rt: HostRuntime) {
    check_none(&rt, &[(216, 1)]);
}
