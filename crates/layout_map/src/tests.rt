//! Places that are worked out by hand, and the limits of a geometry.
mod large;

use super::*;
use crate::testing::same;
use sector_model::Refusal;
use std::process::Abort;

// The cell of a table: data chunk `D(c)`, or the stripe's parity `P`.
#[derive(Clone, Copy)]
enum Cell {
    D(u64),
    P,
}

use Cell::{D, P};

// Checks both maps at a row of a member that has this logical sector, or the parity where that is none.
fn check_row(rt: &impl Abort, geometry: &Geometry, member: u8, row: u64, logical: Option<u64>) {
    assert!(rt; member < geometry.members && row < geometry.rows());
    let got = (
        geometry.logical_of(member, row),
        geometry.parity_member(row) == member,
    );
    same(rt, (row, got), (row, (logical, logical.is_none())));
    if let Some(logical) = logical {
        assert!(rt; logical < geometry.data_sectors());
        same(rt, geometry.place(logical), Place { member, row });
    }
}

// Checks both maps at every row of a stripe on one member.
fn check_cell(rt: &impl Abort, geometry: &Geometry, stripe: u32, member: u8, cell: Cell) {
    let sectors = u64::from(geometry.chunk);
    for sector in 0..sectors {
        let row = u64::from(stripe) * sectors + sector;
        let logical = match cell {
            P => None,
            D(chunk) => Some(chunk.wrapping_mul(sectors).wrapping_add(sector)),
        };
        check_row(rt, geometry, member, row, logical);
    }
}

// Checks a line of a table for each stripe, from stripe 0 on.
fn check_table(rt: &impl Abort, geometry: &Geometry, table: &[&[Cell]; 4]) {
    for stripe in 0..4u32 {
        let line = table[stripe as usize];
        assert!(rt; line.len() == geometry.members as usize);
        for member in 0..geometry.members {
            check_cell(rt, geometry, stripe, member, line[member as usize]);
        }
    }
}

#[test]
fn place_of_24_and_32(rt: HostRuntime) {
    let geometry = Geometry::new(4, 8, 32).expect(&rt, "it is made");
    assert!(rt; 32 < geometry.data_sectors() && 8 < geometry.rows() && 2 < geometry.members);
    let got = (
        geometry.place(24),
        geometry.place(32),
        geometry.parity_member(8),
        geometry.logical_of(2, 8),
    );
    let want = (
        Place { member: 3, row: 8 },
        Place { member: 0, row: 8 },
        2,
        None,
    );
    same(&rt, got, want);
}

#[test]
fn parity_of_24_and_32(rt: HostRuntime) {
    let geometry = Geometry::new(4, 8, 32).expect(&rt, "it is made");
    assert!(rt; 32 < geometry.rows());
    same(
        &rt,
        (geometry.parity_member(24), geometry.parity_member(32)),
        (0, 3),
    );
}

// The rows, the data sectors and the extents of a geometry, or why there is none.
type Sizes = Result<(u64, u64, u32), Refusal>;

fn sizes_of(members: u8, chunk: u16, stripes: u32) -> Sizes {
    let geometry = Geometry::new(members, chunk, stripes)?;
    Ok((geometry.rows(), geometry.data_sectors(), geometry.extents()))
}

#[test]
fn geometry_bounds(rt: HostRuntime) {
    const BAD: Sizes = Err(Refusal::BadGeometry);
    const ROWS: &[(u8, u16, u32, Sizes)] = &[
        (3, 8, 7, BAD),
        // The smallest, the largest, and that of the example set.
        (3, 8, 8, Ok((64, 128, 1))),
        (8, 128, 65_536, Ok((8_388_608, 58_720_256, 1_024))),
        (3, 8, 32, Ok((256, 512, 7))),
        (2, 8, 32, BAD),
        (9, 8, 32, BAD),
        (3, 9, 32, BAD),
        (3, 256, 32, BAD),
        (3, 128, 1, BAD),
        (3, 8, 65_537, BAD),
    ];
    for row in 0..ROWS.len() {
        let (members, chunk, stripes, want) = ROWS[row];
        same(&rt, (row, sizes_of(members, chunk, stripes)), (row, want));
    }
}

#[test]
fn address_tables(rt: HostRuntime) {
    const OF_THREE: &[&[Cell]; 4] = &[
        &[D(0), D(1), P],
        &[D(3), P, D(2)],
        &[P, D(4), D(5)],
        &[D(6), D(7), P],
    ];
    const OF_FOUR: &[&[Cell]; 4] = &[
        &[D(0), D(1), D(2), P],
        &[D(4), D(5), P, D(3)],
        &[D(8), P, D(6), D(7)],
        &[P, D(9), D(10), D(11)],
    ];
    let three = Geometry::new(3, 8, 32).expect(&rt, "it is made");
    let four = Geometry::new(4, 8, 32).expect(&rt, "it is made");
    check_table(&rt, &three, OF_THREE);
    check_table(&rt, &four, OF_FOUR);
}
