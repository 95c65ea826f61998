//! Worked rows of sets of many sectors: what each commit of a zeroing holds, and where a crash leaves the blocks.
use super::rows::{Commit, Made, Row, check_row, check_seals};
use super::sets::Shape;
use super::{OF_FIVE, end_of_zeros, filled, later, new_set};
use crate::testing::same;
use layout_map::Format;
use sector_model::Plan;

// The set of five, 5 members with chunk 128, as far as its first 131 stripes. The stripes from 2 on are one run of
// zeros.
#[test]
fn blocks_65536_aligned(rt: HostRuntime) {
    let row = Row {
        shape: OF_FIVE,
        made: Made::InOrder(66_560),
        at: 512,
        count: 65_536,
        commits: &[(66_048, &[(256, 16_384, 0)])],
    };
    check_row(&rt, &row);
}

// The broad set, 8 members with chunk 1,024, as far as its first 11 stripes: with so few an extent is one stripe, and
// extents 0 to 9 are where the others begin that has extent 0 of the set with 4,194,303 stripes. Stripe 0 lies before
// them. The blocks, and so the rows and the cuts, are the same.
const BROAD: Shape = (Format::Two, 8, 1_024, 12);

// Ten of its extents.
const BROAD_VOLUME: Made = Made::InOrder(71_680);

// Stripe 1 has its parity on member 6, and stripe 10 on member 5.
#[test]
fn blocks_65536_with_long_parts(rt: HostRuntime) {
    let commits: &[Commit] = &[
        (2_049, &[(1_024, 1, 0x43), (1_025, 1_023, 0xc1)]),
        (4_097, &[(1_024, 1, 0x4c), (1_025, 1_023, 0x46)]),
        (6_145, &[(1_024, 1, 0x70), (1_025, 1_023, 0x58)]),
        (7_168, &[(1_025, 1_023, 0x60)]),
        (64_512, &[(2_048, 8_192, 0)]),
        (65_537, &[(10_240, 1, 0xe0), (10_241, 1_023, 0x60)]),
    ];
    let row = Row {
        shape: BROAD,
        made: BROAD_VOLUME,
        at: 1,
        count: 65_536,
        commits,
    };
    check_row(&rt, &row);
}

// Neither of stripes 1 and 2 is whole.
#[test]
fn no_whole_stripe_long(rt: HostRuntime) {
    let commits: &[Commit] = &[
        (
            9_048,
            &[(1_880, 168, 0x60), (2_048, 856, 0xe0), (2_904, 168, 0x60)],
        ),
        (11_096, &[(2_048, 856, 0x23), (2_904, 168, 0xa1)]),
        (13_144, &[(2_048, 856, 0x2c), (2_904, 168, 0x26)]),
        (14_000, &[(2_048, 688, 0x30), (2_904, 168, 0x28)]),
    ];
    let row = Row {
        shape: BROAD,
        made: BROAD_VOLUME,
        at: 7_000,
        count: 7_000,
        commits,
    };
    check_row(&rt, &row);
}

// 65,696 rows and 513 extents of 256 blocks, stripes 4 to 8,211. In the set of 20,004 stripes an extent has 512 blocks,
// of which each is where it is here.
const OF_THREE: Shape = (Format::Two, 3, 8, 8_212);

// All 513 extents are dirty. Of 131,200 blocks, which are 8,200 stripes, 8,191 are one run of 65,528 rows, which is the
// most with chunk 8; the table's commit comes after them.
#[test]
fn create_of_131200_blocks_in_dirty_extents(rt: HostRuntime) {
    let mut store = new_set(&rt, OF_THREE);
    same(&rt, store.create(b"p", 131_328), Ok(()));
    same(&rt, store.remove(b"p"), Ok(()));
    let before = filled(&rt, store, 131_328);
    let mut store = later(&rt, &before, Plan::NONE);
    let last = store.array.entry;
    same(&rt, store.create(b"v", 131_200), Ok(()));
    let commits: &[Commit] = &[(131_056, &[(32, 65_528, 0)]), (131_200, &[(65_560, 72, 0)])];
    check_seals(&rt, &store, last, (commits, 1));
    for member in 0..3u8 {
        let end = end_of_zeros(&rt, &store, member, (32, 65_696));
        same(&rt, (member, end), (member, Some(65_632)));
    }
    same(&rt, store.array.bank.notes.mixed, false);
}
