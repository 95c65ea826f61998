//! Sets of format 2: their sizes, those that are refused, and where blocks at the far end of a set lie.
use crate::testing::same;
use crate::{FIRST_ROW, Geometry, Place};
use sector_model::Refusal;
use std::process::Abort;

// What a set of format 2 comes to.
#[derive(Clone, Copy, Debug, PartialEq, Eq)]
struct Sizes {
    rows: u64,
    data_sectors: u64,
    first_extent: u64,
    extent_blocks: u64,
    extents: u32,
}

// A set: its name, its members, the sectors of its chunk and its stripes.
type Set = (&'static str, u8, u16, u32);

// What a set comes to: its rows, its data sectors, the first sector of its extents, how often the blocks of a stripe
// are doubled to those of an extent, these, and the extents.
type Row = (Set, u64, u64, u64, u32, u64, u32);

const EXAMPLE: Set = ("the example set", 3, 8, 32);

const FIVE: Set = ("the set of five", 5, 128, 2_049);

const GREATEST: Set = ("the greatest set", 8, 8, 536_870_910);

const BROAD: Set = ("the broad set", 8, 1_024, 4_194_303);

// The sizes of the set, or why there is none.
fn sizes_of(set: Set) -> Result<Sizes, Refusal> {
    let (_, members, chunk, stripes) = set;
    let geometry = Geometry::large(members, chunk, stripes)?;
    Ok(Sizes {
        rows: geometry.rows(),
        data_sectors: geometry.data_sectors(),
        first_extent: geometry.first_extent(),
        extent_blocks: geometry.extent_blocks(),
        extents: geometry.extents(),
    })
}

// Checks what a set comes to.
fn check_sizes(rt: &impl Abort, row: Row) {
    let (set, rows, data_sectors, first_extent, doublings, extent_blocks, extents) = row;
    let (name, members, chunk, _) = set;
    let stripe = u64::from(chunk).wrapping_mul(u64::from(members).wrapping_sub(1));
    same(
        rt,
        (name, stripe.wrapping_shl(doublings)),
        (name, extent_blocks),
    );
    let want = Sizes {
        rows,
        data_sectors,
        first_extent,
        extent_blocks,
        extents,
    };
    same(rt, (name, sizes_of(set)), (name, Ok(want)));
}

#[test]
fn rows_and_extents(rt: HostRuntime) {
    const ROWS: &[Row] = &[
        (EXAMPLE, 256, 512, 64, 0, 16, 28),
        (("least of 3 members", 3, 8, 5), 40, 80, 64, 0, 16, 1),
        (("fewest rows", 8, 8, 3), 24, 168, 112, 0, 56, 1),
        (("least of two stripes", 3, 32, 2), 64, 128, 64, 0, 64, 1),
        (("a reserve of 72", 4, 8, 4), 32, 96, 72, 0, 24, 1),
        (("the set of four", 4, 8, 200), 1_600, 4_800, 72, 0, 24, 197),
        (
            ("most extents of one stripe", 3, 8, 1_028),
            8_224,
            16_448,
            64,
            0,
            16,
            1_024,
        ),
        (
            ("a stripe more than one takes", 3, 8, 1_029),
            8_232,
            16_464,
            64,
            1,
            32,
            512,
        ),
        (
            ("most extents of two stripes", 3, 8, 2_053),
            16_424,
            32_848,
            64,
            1,
            32,
            1_024,
        ),
        (
            ("a stripe more than two take", 3, 8, 2_054),
            16_432,
            32_864,
            64,
            2,
            64,
            512,
        ),
        (FIVE, 262_272, 1_049_088, 512, 1, 1_024, 1_024),
        (
            ("a terabyte a member", 4, 128, 15_261_915),
            1_953_525_120,
            5_860_575_360,
            384,
            14,
            6_291_456,
            931,
        ),
        (
            ("1,024 extents of 2^22 blocks", 3, 128, 16_777_217),
            2_147_483_776,
            4_294_967_552,
            256,
            14,
            4_194_304,
            1_024,
        ),
        (
            ("greatest of 3", 3, 8, 536_870_910),
            4_294_967_280,
            8_589_934_560,
            64,
            19,
            8_388_608,
            1_023,
        ),
        (
            GREATEST,
            4_294_967_280,
            30_064_770_960,
            112,
            19,
            29_360_128,
            1_023,
        ),
        (
            ("greatest, chunk 16", 8, 16, 268_435_455),
            4_294_967_280,
            30_064_770_960,
            112,
            18,
            29_360_128,
            1_023,
        ),
        (
            ("greatest, chunk 128", 8, 128, 33_554_431),
            4_294_967_168,
            30_064_770_176,
            896,
            15,
            29_360_128,
            1_023,
        ),
        (
            BROAD,
            4_294_966_272,
            30_064_763_904,
            7_168,
            12,
            29_360_128,
            1_023,
        ),
    ];
    for row in ROWS {
        check_sizes(&rt, *row);
    }
}

#[test]
fn refused_sets(rt: HostRuntime) {
    const SETS: &[Set] = &[
        ("2 members", 2, 8, 32),
        ("9 members", 9, 8, 32),
        ("a chunk of 4", 3, 4, 32),
        ("a chunk of 24", 3, 24, 32),
        ("a chunk of 2,048", 3, 2_048, 32),
        ("one stripe", 3, 32, 1),
        ("no extent, of 64 data sectors and 3 members", 3, 8, 4),
        ("no extent, of 64 data sectors in two stripes", 3, 16, 2),
        ("no extent, of 112 data sectors", 8, 8, 2),
        ("rows up to 2^32", 3, 8, 536_870_911),
        ("rows up to 2^32, chunk 16", 8, 16, 268_435_456),
        ("rows up to 2^32, chunk 128", 8, 128, 33_554_432),
        ("rows up to 2^32, chunk 1,024", 3, 1_024, 4_194_304),
        ("most stripes that a number says", 3, 8, 4_294_967_295),
    ];
    for set in SETS {
        same(
            &rt,
            (set.0, sizes_of(*set)),
            (set.0, Err(Refusal::BadGeometry)),
        );
    }
}

// A block of a set: its extent, its number within it, the logical sector, the member and row, the sector on the
// member, and the member with the parity of the row.
type Block = (Set, u64, u64, u64, (u8, u64), u64, u8);

// Checks where a logical sector lies: on which member in which row, and on the member in which sector; and which member
// has the parity of the row.
fn check_sector(
    rt: &impl Abort,
    (name, members, chunk, stripes): Set,
    logical: u64,
    (member, row): (u8, u64),
    sector: u64,
    parity: u8,
) {
    let geometry = Geometry::large(members, chunk, stripes).expect(rt, "it is made");
    assert!(rt; logical < geometry.data_sectors());
    same(
        rt,
        (name, geometry.place(logical)),
        (name, Place { member, row }),
    );
    same(
        rt,
        (name, row.wrapping_add(u64::from(FIRST_ROW))),
        (name, sector),
    );
    assert!(rt; row < geometry.rows() && member < geometry.members);
    let got = (
        geometry.parity_member(row),
        geometry.logical_of(member, row),
    );
    same(rt, (name, got), (name, (parity, Some(logical))));
}

// Checks where a block lies.
fn check_block(rt: &impl Abort, block: Block) {
    let (set, extent, number, logical, place, sector, parity) = block;
    let (name, members, chunk, stripes) = set;
    let geometry = Geometry::large(members, chunk, stripes).expect(rt, "it is made");
    let begins = geometry
        .first_extent()
        .wrapping_add(extent.wrapping_mul(geometry.extent_blocks()));
    same(rt, (name, begins.wrapping_add(number)), (name, logical));
    check_sector(rt, set, logical, place, sector, parity);
}

#[test]
fn far_blocks(rt: HostRuntime) {
    const BLOCKS: &[Block] = &[
        (EXAMPLE, 27, 15, 511, (0, 255), 263, 1),
        (FIVE, 1_023, 1_023, 1_049_087, (0, 262_271), 262_279, 1),
        (GREATEST, 0, 0, 112, (6, 16), 24, 5),
        (
            GREATEST,
            146,
            8_388_606,
            4_294_967_406,
            (5, 613_566_774),
            613_566_782,
            1,
        ),
        (
            GREATEST,
            146,
            8_388_495,
            4_294_967_295,
            (7, 613_566_759),
            613_566_767,
            3,
        ),
        (
            GREATEST,
            146,
            8_388_496,
            4_294_967_296,
            (0, 613_566_752),
            613_566_760,
            3,
        ),
        (
            GREATEST,
            1_022,
            0,
            30_006_050_928,
            (6, 4_286_578_704),
            4_286_578_712,
            5,
        ),
        (
            GREATEST,
            1_022,
            29_360_127,
            30_035_411_055,
            (5, 4_290_773_007),
            4_290_773_015,
            6,
        ),
        (
            BROAD,
            1_022,
            0,
            30_006_057_984,
            (7, 4_286_579_712),
            4_286_579_720,
            6,
        ),
        (
            BROAD,
            1_022,
            29_360_127,
            30_035_418_111,
            (6, 4_290_774_015),
            4_290_774_023,
            7,
        ),
    ];
    for block in BLOCKS {
        check_block(&rt, *block);
    }
}

// Checks where the last logical sector of a set lies, which no extent has.
fn check_last(rt: &impl Abort, set: Set, logical: u64, place: (u8, u64), sector: u64, parity: u8) {
    let (name, members, chunk, stripes) = set;
    let geometry = Geometry::large(members, chunk, stripes).expect(rt, "it is made");
    let extents = u64::from(geometry.extents());
    let end = geometry
        .first_extent()
        .wrapping_add(extents.wrapping_mul(geometry.extent_blocks()));
    let is_last = logical.wrapping_add(1) == geometry.data_sectors();
    same(rt, (name, is_last, end <= logical), (name, true, true));
    check_sector(rt, set, logical, place, sector, parity);
}

#[test]
fn last_sectors(rt: HostRuntime) {
    let greatest = (1, 4_294_967_279);
    let broad = (0, 4_294_966_271);
    check_last(&rt, GREATEST, 30_064_770_959, greatest, 4_294_967_287, 2);
    check_last(&rt, BROAD, 30_064_763_903, broad, 4_294_966_279, 1);
}

// Where a logical sector of a set lies, and the member with the parity of its row, in numbers of 128 bits: the parity
// of stripe 0 is on the last member, and moves one down from stripe to stripe; the chunks of a stripe lie on the
// members after it.
fn place_in_128_bits(geometry: &Geometry, logical: u64) -> (Place, u8) {
    let members = u128::from(geometry.members.max(2));
    let sectors = u128::from(geometry.chunk.max(1));
    let data = members.wrapping_sub(1).max(1);
    let chunk = u128::from(logical) / sectors;
    let stripe = chunk / data;
    let parity = data.wrapping_sub(stripe % members);
    let after = parity.wrapping_add(1).wrapping_add(chunk % data);
    let row = stripe.wrapping_mul(sectors);
    let place = Place {
        member: (after % members) as u8,
        row: row.wrapping_add(u128::from(logical) % sectors) as u64,
    };
    (place, parity as u8)
}

// Checks where a logical sector lies, both ways.
fn check_place(rt: &impl Abort, name: &'static str, geometry: &Geometry, logical: u64) {
    assert!(rt; logical < geometry.data_sectors());
    let place = geometry.place(logical);
    let parity = geometry.parity_member(place.row);
    let wanted = place_in_128_bits(geometry, logical);
    same(
        rt,
        (name, logical, (place, parity)),
        (name, logical, wanted),
    );
    let found = geometry.logical_of(place.member, place.row);
    same(rt, (name, found), (name, Some(logical)));
    let none = geometry.logical_of(parity, place.row);
    same(rt, (name, logical, none), (name, logical, None));
}

// The next number of a sequence that looks random.
fn next_of(number: u64) -> u64 {
    number
        .wrapping_mul(6_364_136_223_846_793_005)
        .wrapping_add(1_442_695_040_888_963_407)
}

// Checks a set: its first and its last sectors, and a hundred others.
fn check_places(rt: &impl Abort, set: Set) {
    let (name, members, chunk, stripes) = set;
    let geometry = Geometry::large(members, chunk, stripes).expect(rt, "it is made");
    let sectors = geometry.data_sectors();
    for from_end in 1..10u64 {
        check_place(rt, name, &geometry, from_end);
        check_place(rt, name, &geometry, sectors.wrapping_sub(from_end));
    }
    let mut number = sectors;
    for _ in 0..100 {
        number = next_of(number);
        check_place(rt, name, &geometry, number / 2 % sectors.max(1));
    }
}

#[test]
fn places_in_128_bits(rt: HostRuntime) {
    const SETS: &[Set] = &[
        EXAMPLE,
        FIVE,
        GREATEST,
        ("greatest of 3", 3, 8, 536_870_910),
        ("greatest, chunk 128", 8, 128, 33_554_431),
        BROAD,
        ("a terabyte a member", 4, 128, 15_261_915),
    ];
    for set in SETS {
        check_places(&rt, *set);
    }
}
