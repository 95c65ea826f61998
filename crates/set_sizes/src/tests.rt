//! Rooms that are worked out by hand, and a search of all stripes of a small range.
use crate::{least_for, most_for, room, unused};
use layout_map::Geometry;
use sector_model::Refusal;
use std::fmt::Debug;
use std::process::Abort;

// Ends the test where `got` is not `want`.
fn same<T: PartialEq + Debug + Drop>(rt: &impl Abort, got: T, want: T) {
    assert_eq!(rt; got, want);
}

// A set of format 2: its members, the sectors of its chunk and its stripes.
type Set = (u8, u16, u32);

const GREATEST: u32 = 536_870_910;

#[test]
fn rooms_of_sets(rt: HostRuntime) {
    // The extents, the blocks of one, and the data sectors after the last one.
    const ROWS: &[(Set, u64, u64, u64)] = &[
        ((3, 8, 5), 1, 16, 0),
        ((3, 8, 32), 28, 16, 0),
        ((3, 8, 1_028), 1_024, 16, 0),
        // A stripe more takes extents of two stripes, and the odd one is left over.
        ((3, 8, 1_029), 512, 32, 16),
        ((3, 8, 2_053), 1_024, 32, 16),
        ((3, 8, 2_054), 512, 64, 32),
        ((5, 128, 2_049), 1_024, 1_024, 0),
        ((4, 128, 15_261_915), 931, 6_291_456, 3_229_440),
        ((8, 8, GREATEST), 1_023, 29_360_128, 29_359_904),
    ];
    for row in 0..ROWS.len() {
        let ((members, chunk, stripes), extents, extent_blocks, left) = ROWS[row];
        let geometry = Geometry::large(members, chunk, stripes).expect(&rt, "it is made");
        let got = (room(&geometry), unused(&geometry));
        same(
            &rt,
            (row, got),
            (row, (extents.wrapping_mul(extent_blocks), left)),
        );
    }
}

#[test]
fn room_of_format_1(rt: HostRuntime) {
    let geometry = Geometry::new(3, 8, 33).expect(&rt, "it is made");
    // 528 data sectors: 64 of the reserve, 7 extents of 64, and 16.
    same(&rt, (room(&geometry), unused(&geometry)), (448, 16));
}

// The stripes of a geometry, or why there is none.
fn stripes_of(geometry: Result<Geometry, Refusal>) -> Result<u32, Refusal> {
    Ok(geometry?.stripes)
}

const BAD: Result<u32, Refusal> = Err(Refusal::BadGeometry);

#[test]
fn stripes_for_blocks(rt: HostRuntime) {
    const ROWS: &[(u8, u16, u64, Result<u32, Refusal>)] = &[
        (3, 8, 0, Ok(5)),
        (3, 8, 1, Ok(5)),
        (3, 8, 16, Ok(5)),
        (3, 8, 17, Ok(6)),
        (3, 8, 16_384, Ok(1_028)),
        // 513 extents of 2 stripes, after the 4 stripes of the reserve.
        (3, 8, 16_385, Ok(1_030)),
        (8, 8, 0, Ok(3)),
        (3, 32, 64, Ok(2)),
        (3, 32, 65, Ok(3)),
        (2, 8, 1, BAD),
        (9, 8, 1, BAD),
        (3, 0, 1, BAD),
        (3, 24, 1, BAD),
        (3, 2_048, 1, BAD),
        (8, 8, 30_035_410_944, Ok(536_346_626)),
        (8, 8, 30_035_410_945, BAD),
        (8, 1_024, u64::MAX, BAD),
    ];
    for row in 0..ROWS.len() {
        let (members, chunk, blocks, want) = ROWS[row];
        same(
            &rt,
            (row, stripes_of(least_for(members, chunk, blocks))),
            (row, want),
        );
    }
}

#[test]
fn stripes_on_members(rt: HostRuntime) {
    const ROWS: &[(u8, u16, u32, Result<u32, Refusal>)] = &[
        (3, 8, 0, BAD),
        (3, 8, 7, BAD),
        (3, 8, 47, BAD),
        (3, 8, 48, Ok(5)),
        (3, 8, 264, Ok(32)),
        (3, 8, 271, Ok(32)),
        (3, 8, 272, Ok(33)),
        (8, 8, u32::MAX, Ok(GREATEST)),
        (2, 8, 264, BAD),
        (9, 8, 264, BAD),
        (3, 0, 264, BAD),
    ];
    for row in 0..ROWS.len() {
        let (members, chunk, sectors, want) = ROWS[row];
        same(
            &rt,
            (row, stripes_of(most_for(members, chunk, sectors))),
            (row, want),
        );
    }
}

// The room of 3 members with chunk 8 and so many stripes, by the words of the definition: 4 stripes are the reserve,
// an extent is 2^s stripes, s the least of which the others have at most 1,024.
fn room_by_definition(stripes: u64) -> u64 {
    let others = stripes.wrapping_sub(4);
    let mut extent = 1u64;
    for _ in 0..32 {
        if others.wrapping_div(extent.max(1)) > 1024 {
            extent = extent.wrapping_mul(2);
        }
    }
    others
        .wrapping_div(extent.max(1))
        .wrapping_mul(extent)
        .wrapping_mul(16)
}

#[test]
fn all_stripes_of_a_range(rt: HostRuntime) {
    let mut greatest = 0;
    for stripes in 5..2_200u32 {
        let blocks = room_by_definition(u64::from(stripes));
        // Stripes that have no more room than fewer ones are the fewest for no number of blocks.
        if blocks > greatest {
            for wished in [greatest.wrapping_add(1), blocks] {
                let got = stripes_of(least_for(3, 8, wished));
                same(&rt, (wished, got), (wished, Ok(stripes)));
            }
            greatest = blocks;
        }
    }
}
