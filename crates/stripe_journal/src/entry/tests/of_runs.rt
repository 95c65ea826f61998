//! Bodies of entries whose rows are runs, in sets of format 2.
use super::is_full;
use crate::testing::{
    FROM, check_room, check_sector, fill, journals_of, read_seal, same, spelled_runs,
};
use crate::{Entry, write_body};
use layout_map::Geometry;
use sector_model::{MemBank, Plan};
use std::process::Abort;

/// Where a journal has a sector of an entry.
#[derive(Clone, Copy, Debug, PartialEq, Eq)]
enum Stands {
    /// In this sector.
    At(u32),
    /// Nowhere: the entry holds it, and it is zero.
    IsZero,
    /// Nowhere: the entry does not hold it.
    NotHeld,
}

/// A row, a member, and where its sector stands.
type Place = (u32, u8, Stands);

// The place of a row among those of an entry.
fn place_of(entry: &Entry, row: u32) -> Option<usize> {
    (0..entry.len()).find(|i| entry.row(*i) == row)
}

// Fills the sector of a member in a row with one byte, where the entry has it.
fn fill_at(rt: &impl Abort, entry: &mut Entry, row: u32, member: u8, byte: u8) {
    let Some(i) = place_of(entry, row) else {
        return;
    };
    assert!(rt; i < entry.len() && member < 8);
    if entry.view(i).member(member).is_some() {
        fill(rt, entry, i, member, byte);
    }
}

// The sector, of which the entry has this byte if it has it, stands where it should.
fn check_at(rt: &impl Abort, bank: &mut MemBank, entry: &Entry, place: &Place, byte: u8) {
    let (row, member, stands) = *place;
    let Some(i) = place_of(entry, row) else {
        same(rt, stands, Stands::NotHeld);
        return;
    };
    assert!(rt; i < entry.len() && member < 8);
    let view = entry.view(i);
    match stands {
        Stands::At(sector) => {
            assert!(rt; is_full(view.held(member), Some(byte)), "{place:?}");
            check_sector(rt, bank, FROM, sector, &[byte; 512]);
        }
        Stands::IsZero => {
            let in_body = view.member(member).is_some();
            assert!(rt;
                !in_body && is_full(view.held(member), Some(0)),
                "{place:?}"
            );
        }
        Stands::NotHeld => assert!(rt; view.held(member).is_none(), "{place:?}"),
    }
}

// The body of the entry of this number with these runs, once it is written, has each sector in its place.
fn check_body_of(
    rt: &(impl Abort + AllocGlobal),
    geometry: &Geometry,
    number: u64,
    runs: &[[u8; 8]],
    places: &[Place],
) {
    let seal = read_seal(rt, &spelled_runs(number, runs));
    let mut entry = Entry::new(rt.alloc()).expect(rt, "memory");
    entry.set(&seal, geometry.members);
    for k in 0..places.len().min(100) {
        fill_at(rt, &mut entry, places[k].0, places[k].1, k as u8 + 1);
    }
    let mut bank = journals_of(rt, Plan::NONE, 8_200);
    check_room(rt, &bank, FROM, geometry.format.journal_sectors());
    assert!(rt; entry.body_len(geometry.members) <= geometry.format.body_sectors());
    let answer = write_body(&mut bank, FROM, number, &entry, geometry);
    same(rt, answer, Ok(()));
    for k in 0..places.len().min(100) {
        check_at(rt, &mut bank, &entry, &places[k], k as u8 + 1);
    }
}

#[test]
fn many_blocks_in_order_not_aligned(rt: HostRuntime) {
    const RUNS: &[[u8; 8]] = &[
        [0x80, 0x00, 0, 0, 0, 60, 0, 0x0e],
        [0xbc, 0x00, 0, 0, 0, 68, 0, 0x0f],
        [0x00, 0x01, 0, 0, 0, 0x80, 1, 0x1f],
        [0x80, 0x02, 0, 0, 0, 60, 0, 0x13],
        [0xbc, 0x02, 0, 0, 0, 68, 0, 0x11],
    ];
    const PLACES: &[Place] = &[
        (128, 1, Stands::At(4_104)),
        (187, 3, Stands::At(4_283)),
        (188, 0, Stands::At(4_284)),
        (255, 3, Stands::At(4_555)),
        (256, 0, Stands::At(4_556)),
        (639, 4, Stands::At(6_475)),
        (640, 0, Stands::At(6_476)),
        (699, 4, Stands::At(6_655)),
        (700, 0, Stands::At(6_656)),
        (767, 4, Stands::At(6_791)),
        (128, 0, Stands::NotHeld),
        (128, 2, Stands::At(4_105)),
        (640, 2, Stands::NotHeld),
        (768, 0, Stands::NotHeld),
    ];
    let geometry = Geometry::large(5, 128, 2_049).expect(&rt, "a geometry");
    check_body_of(&rt, &geometry, 7, RUNS, PLACES);
}

#[test]
fn runs_of_zeros_beside_a_run_with_a_mask(rt: HostRuntime) {
    const RUNS: &[[u8; 8]] = &[
        [32, 0, 0, 0, 0, 8, 0, 0x00],
        [40, 0, 0, 0, 0, 8, 0, 0x07],
        [48, 0, 0, 0, 0, 16, 0, 0x00],
    ];
    const PLACES: &[Place] = &[
        (32, 0, Stands::IsZero),
        (40, 0, Stands::At(8)),
        (40, 1, Stands::At(9)),
        (41, 0, Stands::At(11)),
        (47, 2, Stands::At(31)),
        (48, 1, Stands::IsZero),
        (64, 0, Stands::NotHeld),
    ];
    let geometry = Geometry::large(3, 8, 32).expect(&rt, "a geometry");
    check_body_of(&rt, &geometry, 2, RUNS, PLACES);
}

#[test]
fn two_blocks_apart_in_one_row(rt: HostRuntime) {
    const RUNS: &[[u8; 8]] = &[[32, 0, 0, 0, 0, 1, 0, 0x06], [34, 0, 0, 0, 0, 1, 0, 0x03]];
    const PLACES: &[Place] = &[
        (32, 0, Stands::NotHeld),
        (32, 1, Stands::At(4_104)),
        (32, 2, Stands::At(4_105)),
        (34, 0, Stands::At(4_106)),
        (34, 1, Stands::At(4_107)),
    ];
    let geometry = Geometry::large(3, 8, 32).expect(&rt, "a geometry");
    check_body_of(&rt, &geometry, 3, RUNS, PLACES);
}

#[test]
fn one_run_and_58(rt: HostRuntime) {
    let mut runs = [[0, 0, 0, 0, 0, 1, 0, 0x06]; 58];
    for i in 0..58usize {
        runs[i][0] = 32 + 2 * i as u8;
    }
    let geometry = Geometry::large(3, 8, 32).expect(&rt, "a geometry");
    let first: Place = (32, 2, Stands::At(9));
    check_body_of(&rt, &geometry, 4, &runs[..1], &[first]);
    let last: Place = (146, 1, Stands::At(122));
    let between: Place = (145, 1, Stands::NotHeld);
    check_body_of(&rt, &geometry, 4, &runs, &[first, last, between]);
}
