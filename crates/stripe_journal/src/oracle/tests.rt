//! Journals made by hand: which seals count in them, and which is the last.
use super::{last_sealed_in, place_by_seal, zero_by_seal};
use crate::testing::{
    BLANK, ID, LastRow, Place, THAT_DO_NOT_COUNT, is_seal, read_seal, same, sector_of, set,
    spelled, spelled_held, spelled_runs,
};
use crate::tests::runs::{APART, BESIDE_ZEROS, NOT_ALIGNED};
use sector_model::Sector;
use std::process::Abort;

// A journal with these in its seal places.
fn journal(rt: &(impl Abort + AllocGlobal), even: Place, odd: Place) -> Option<Vec<Sector>> {
    let alloc = rt.alloc();
    let mut journal = vec![in alloc; BLANK; 4].expect(rt, "memory");
    journal[2] = sector_of(even);
    journal[3] = sector_of(odd);
    Some(journal)
}

// Whether a row is as it says.
fn is_so(rt: &(impl Abort + AllocGlobal), (even, odd, number, numbers): LastRow) -> bool {
    let content = journal(rt, even, odd);
    is_seal(&last_sealed_in(&content, &ID, &set(rt)), number, numbers)
}

fn check_last(rt: &(impl Abort + AllocGlobal), rows: &[LastRow]) {
    for row in 0..rows.len() {
        same(rt, (row, is_so(rt, rows[row])), (row, true));
    }
}

#[test]
fn last_seals(rt: HostRuntime) {
    const LAST: &[LastRow] = &[
        (None, None, 0, &[]),
        (None, Some((&ID, 1, 32, 0)), 1, &[32]),
        (Some((&ID, 2, 7, 0)), None, 2, &[7]),
        (Some((&ID, 2, 7, 0)), Some((&ID, 1, 32, 0)), 2, &[7]),
        (Some((&ID, 2, 7, 0)), Some((&ID, 3, 0, 6)), 3, &[0]),
        (Some((&ID, 2, 7, 5)), Some((&ID, 3, 0, 0)), 3, &[0]),
        (Some((&ID, 4, 7, 5)), Some((&ID, 3, 0, 6)), 4, &[7]),
    ];
    assert!(rt; last_sealed_in(&None, &ID, &set(&rt)).is_none());
    check_last(&rt, LAST)
}

#[test]
fn seals_that_do_not_count(rt: HostRuntime) {
    check_last(&rt, THAT_DO_NOT_COUNT)
}

// A row, a member, and the sector in which a body has that, if it has it.
type Part = (u64, u8, Option<u32>);

// The places of a set of so many members.
fn check_places_of(rt: &impl Abort, sector: &Sector, members: u8, parts: &[Part]) {
    let seal = read_seal(rt, sector);
    assert!(rt; members <= 8);
    for (row, member, want) in parts {
        assert!(rt; *member < members);
        let place = place_by_seal(&seal, members, *row, *member);
        same(rt, (*row, *member, place), (*row, *member, *want));
    }
}

// The places of a set of three members.
fn check_places(rt: &impl Abort, sector: &Sector, parts: &[Part]) {
    check_places_of(rt, sector, 3, parts)
}

#[test]
fn places_of_held_rows(rt: HostRuntime) {
    const PARTS: &[Part] = &[
        (32, 0, Some(264)),
        (32, 1, Some(265)),
        (32, 2, Some(266)),
        (33, 0, None),
        (33, 1, Some(267)),
        (33, 2, Some(268)),
        (34, 1, None),
    ];
    check_places(&rt, &spelled_held(&ID, 1, [32, 33], [7, 6]), PARTS);
}

#[test]
fn places_of_one_held_row(rt: HostRuntime) {
    const PARTS: &[Part] = &[(32, 0, None), (32, 1, Some(264)), (32, 2, Some(265))];
    check_places(&rt, &spelled_held(&ID, 1, [32, 0], [6, 0]), PARTS);
}

#[test]
fn places_of_whole_rows(rt: HostRuntime) {
    const PARTS: &[Part] = &[
        (32, 0, Some(8)),
        (32, 2, Some(10)),
        (33, 0, Some(11)),
        (33, 1, Some(12)),
        (31, 0, None),
    ];
    check_places(&rt, &spelled(&ID, 2, [32, 33]), PARTS);
}

#[test]
fn places_of_runs_not_aligned(rt: HostRuntime) {
    const PARTS: &[Part] = &[
        (128, 1, Some(4104)),
        (187, 3, Some(4283)),
        (188, 0, Some(4284)),
        (255, 3, Some(4555)),
        (256, 0, Some(4556)),
        (639, 4, Some(6475)),
        (640, 0, Some(6476)),
        (699, 4, Some(6655)),
        (700, 0, Some(6656)),
        (767, 4, Some(6791)),
        (128, 0, None),
        (128, 2, Some(4105)),
        (640, 2, None),
        (768, 0, None),
    ];
    check_places_of(&rt, &spelled_runs(7, NOT_ALIGNED), 5, PARTS);
}

#[test]
fn places_of_runs_apart(rt: HostRuntime) {
    const PARTS: &[Part] = &[
        (32, 0, None),
        (32, 1, Some(4104)),
        (32, 2, Some(4105)),
        (34, 0, Some(4106)),
        (34, 1, Some(4107)),
    ];
    check_places(&rt, &spelled_runs(3, APART), PARTS);
}

#[test]
fn places_beside_zeros(rt: HostRuntime) {
    const PARTS: &[Part] = &[
        (32, 0, None),
        (40, 0, Some(8)),
        (40, 1, Some(9)),
        (41, 0, Some(11)),
        (47, 2, Some(31)),
        (48, 1, None),
        (64, 0, None),
    ];
    check_places(&rt, &spelled_runs(2, BESIDE_ZEROS), PARTS);
}

#[test]
fn sectors_that_are_zero(rt: HostRuntime) {
    // A row, a member, and whether the entry says that it is zero.
    const PARTS: &[(u64, u8, bool)] = &[
        (32, 0, true),
        (40, 0, false),
        (47, 2, false),
        (48, 1, true),
        (63, 2, true),
        (63, 3, false),
        (64, 0, false),
    ];
    let seal = read_seal(&rt, &spelled_runs(2, BESIDE_ZEROS));
    for (row, member, want) in PARTS {
        let is_zero = zero_by_seal(&seal, 3, *row, *member);
        same(&rt, (*row, *member, is_zero), (*row, *member, *want));
    }
}
