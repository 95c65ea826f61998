//! The bytes of a superblock as docs/FORMATS.md has them, sectors that spell none, and the choice among several.
mod large;

use crate::fields::Fields;
use crate::rules::judge;
use crate::testing::{FRESH, ID, read, same, spelled};
use crate::*;
use layout_map::{Format, Geometry};
use sector_model::Sector;
use std::process::Abort;

// A fresh set of 3 members, chunk 8 and 32 stripes: the sector of the device in this slot.
fn vector(role: u8) -> Sector {
    spelled(&ID, 1, role, &FRESH)
}

// The sector with these bytes, each at its place.
fn changed(rt: &impl Abort, sector: Sector, changes: &[(usize, u8)]) -> Sector {
    let mut changed = sector;
    for (at, byte) in changes {
        assert!(rt; *at < 512 && changed[*at] != *byte);
        changed[*at] = *byte;
    }
    changed
}

// A fresh set's superblock of slot 0, with the bytes of `good` at their places, is one. Each of the other bytes, put
// into it at its place alone, makes a sector that spells none.
fn check_refused(rt: &impl Abort, good: &[(usize, u8)], refused: &[(usize, u8)]) {
    let good = changed(rt, vector(0), good);
    assert!(rt; decode(&good).is_some());
    for (at, byte) in refused {
        let is_one = decode(&changed(rt, good, &[(*at, *byte)])).is_some();
        same(rt, (*at, *byte, is_one), (*at, *byte, false));
    }
}

#[test]
fn superblock_vector(rt: HostRuntime) {
    const STATES: [State; 10] = [
        State::InSync,
        State::InSync,
        State::InSync,
        State::InSync,
        State::InSync,
        State::Missing,
        State::Missing,
        State::Missing,
        State::Missing,
        State::Missing,
    ];
    for role in 0..5 {
        let fields = Fields {
            format: Format::One,
            id: ID,
            generation: 1,
            members: 3,
            role,
            chunk: 8,
            stripes: 32,
            states: STATES,
            incarnations: [1, 1, 1, 1, 1, 0, 0, 0, 0, 0],
            position: 0,
        };
        let superblock = judge(&fields).expect(&rt, "it is a superblock");
        let table = superblock.table;
        let mut sector = [0xa5; 512];
        encode(&superblock, &mut sector);
        let decoded = read(&rt, &vector(role));
        let geometry = table.geometry;
        let shape = (geometry.members, geometry.chunk, geometry.stripes);
        let got = (sector, decoded.role, decoded.table, shape);
        same(&rt, got, (vector(role), role, table, (3, 8, 32)));
        same(&rt, geometry.format, Format::One);
    }
    superblock_law();
}

// Bytes of a fresh set's superblock of slot 0, each of which makes it none.
const REFUSED: &[(usize, u8)] = &[
    // A byte of each mark, and of each run of zeros.
    (0, 0x53),
    (7, 0x32),
    (504, 0x32),
    (511, 0x53),
    (216, 1),
    (300, 0x80),
    (503, 1),
    (41, 1),
    (47, 1),
    (57, 1),
    (111, 1),
    // Generations 0 and 2^62 + 1.
    (24, 0),
    (31, 0x40),
    // 2 and 9 members, chunks of 9 and 264 sectors, 7 and 0 stripes.
    (32, 2),
    (32, 9),
    (34, 9),
    (35, 1),
    (36, 7),
    (36, 0),
    // The slot after the last.
    (33, 5),
    // A state without a meaning, incarnations 0 and 2^62 + 1, and entries after the last slot.
    (40, 3),
    (56, 3),
    (56, 0xff),
    (64, 0),
    (71, 0x40),
    (120, 1),
    (120, 2),
    (121, 1),
    (128, 1),
    (184, 1),
    (199, 1),
    // A journal that is rebuilding.
    (88, 2),
    (104, 2),
    // The own slot missing, and an own incarnation that is not the entry's.
    (40, 0),
    (48, 2),
    (208, 0),
    (208, 2),
    (215, 1),
    // A position with no member rebuilding.
    (200, 1),
    (207, 1),
];

#[test]
fn refused_sectors(rt: HostRuntime) {
    check_refused(&rt, &[], REFUSED);
}

#[test]
fn refused_with_a_slot_out(rt: HostRuntime) {
    // With slot 1 missing: a second one out, and a position.
    const BESIDE_MISSING: &[(usize, u8)] = &[
        (72, 0),
        (72, 2),
        (88, 0),
        (104, 0),
        (200, 1),
        (33, 1),
    ];
    // With slot 1 rebuilding: a second one out, and the number of rows as the position.
    const BESIDE_REBUILDING: &[(usize, u8)] = &[(72, 0), (72, 2), (104, 0), (201, 1), (207, 1)];
    check_refused(&rt, &[(56, 0)], BESIDE_MISSING);
    check_refused(&rt, &[(56, 2)], BESIDE_REBUILDING);
    // The last row as the position, and the rebuilding member's own superblock.
    check_refused(&rt, &[(56, 2), (200, 255)], &[]);
    check_refused(&rt, &[(56, 2), (200, 255), (33, 1)], &[]);
}

#[test]
fn greatest_numbers(rt: HostRuntime) {
    // Generation 2^62, and incarnation 2^62 of slot 1.
    let often = changed(&rt, vector(0), &[(24, 0), (31, 0x40), (64, 0), (71, 0x40)]);
    let superblock = read(&rt, &often);
    let table = superblock.table;
    let mut sector = [0; 512];
    encode(&superblock, &mut sector);
    let got = (table.generation, table.incarnations[1], sector);
    same(
        &rt,
        got,
        (4_611_686_018_427_387_904, 4_611_686_018_427_387_904, often),
    );
}

fn table_of(superblock: Option<Superblock>) -> Option<Table> {
    Some(superblock?.table)
}

// Of a list of superblocks the first that is there, the first after them, and the place in the list of one that has
// the table chosen among them.
const CHOICES: &[(usize, usize, usize)] = &[
    // None at all, and two empty slots.
    (0, 0, 0),
    (0, 2, 0),
    // The first superblock and an empty slot.
    (7, 9, 7),
    // The first and the second with an empty slot, in either order.
    (1, 4, 3),
    (5, 8, 5),
    // The second before another one of its generation, and after it.
    (2, 5, 3),
    (4, 6, 4),
];

fn check_choices(rt: &impl Abort, list: &[Option<Superblock>; 9], rows: &[(usize, usize, usize)]) {
    for (start, end, want) in rows {
        assert!(rt; start <= end && *end <= 9 && *want < 9);
        let chosen = choose(&list[*start..*end]);
        same(
            rt,
            (*start, *end, chosen),
            (*start, *end, table_of(list[*want])),
        );
    }
}

#[test]
fn choice(rt: HostRuntime) {
    let sector = changed(&rt, vector(1), &[(24, 2)]);
    let first = Some(read(&rt, &vector(0)));
    let second = Some(read(&rt, &sector));
    let other = Some(read(&rt, &changed(&rt, sector, &[(8, 0xff)])));
    assert!(rt; table_of(second) != table_of(other));
    let list = [None, None, first, second, other, second, None, first, None];
    check_choices(&rt, &list, CHOICES)
}

// Sets of format 1 and 2: whether they are of format 2, their members, the sectors of a chunk and the stripes, and the
// least sectors of a member and of a journal.
const LENGTHS: &[(bool, u8, u16, u32, u32, u32)] = &[
    (false, 3, 8, 32, 264, 520),
    (false, 8, 128, 65_536, 8_388_616, 520),
    (true, 3, 8, 32, 264, 8_200),
    (true, 8, 8, 536_870_910, 4_294_967_288, 8_200),
    (true, 8, 1_024, 4_194_303, 4_294_966_280, 8_200),
];

#[test]
fn least_lengths(rt: HostRuntime) {
    for (is_large, members, chunk, stripes, member, journal) in LENGTHS {
        let format = if *is_large { Format::Two } else { Format::One };
        let geometry = Geometry::of_format(format, *members, *chunk, *stripes).expect(
            &rt,
            "it is made",
        );
        let got = (least_of(&geometry, 0), least_of(&geometry, *members));
        same(&rt, (*stripes, got), (*stripes, (*member, *journal)));
    }
}
