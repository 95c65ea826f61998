//! Logical lists that were spelled out by hand, and the volumes in them.
use crate::testing::{all, front, same};
use extents::ExtentLayout;
use layout_map::Format;
use sector_model::Sector;
use std::process::Abort;
use volume_table::oracle::{block_shown, blocks_in_volume, table_shown};

// The logical sectors of a set with two extents of 64 blocks, which are sectors 64 to 127 and 128 to 191.
type Logical = [Sector; 192];

// The record of the volume `a` of 65 blocks.
const RECORD: &[u8] =
    b"\x01\x61\x00\x00\x00\x00\x00\x00\x00\x00\x00\x00\x00\x00\x00\x00\x00\x00\x00\x00\
      \x00\x00\x00\x00\x00\x00\x00\x00\x41\x00\x00\x00";

// Extent 0 is at place 1 of the volume of record 0, and extent 1 at place 0.
const ENTRIES: &[u8] = b"\x01\x00\x01\x00\x01\x00\x00\x00";

// So many extents of 64 blocks each, from sector 64 on.
fn of_64(count: u8) -> ExtentLayout {
    ExtentLayout {
        format: Format::One,
        first: 64,
        blocks: 64,
        count: u32::from(count),
    }
}

// The extents of a set in which they are smaller: 8 of 16 blocks each, from sector 64 on.
fn eight_of_16() -> ExtentLayout {
    ExtentLayout {
        format: Format::One,
        first: 64,
        blocks: 16,
        count: 8,
    }
}

// No volume: each sector of an extent has its own number in each byte, and all others are zero.
fn no_volume() -> Logical {
    let mut logical = [[0; 512]; 192];
    for number in 64u8..192 {
        logical[usize::from(number)].fill(number);
    }
    logical
}

// The volume `a` of 65 blocks, with extent 1 before extent 0.
fn one_volume() -> Logical {
    let mut logical = no_volume();
    logical[1] = front(RECORD);
    logical[3] = front(ENTRIES);
    logical
}

// A block of a volume, and the number of the sector that it is, or that there is no such block.
type Block<'a> = (&'a [u8], u32, Option<u8>);

// Checks that a list shows a table, with `a` of so many blocks, and these blocks.
fn check_list(rt: &impl Abort, logical: &[Sector], count: Option<u32>, blocks: &[Block]) {
    let got = (
        table_shown(logical, &of_64(2)).is_some(),
        blocks_in_volume(logical, &of_64(2), b"a"),
    );
    same(rt, got, (true, count));
    check_blocks(rt, logical, &of_64(2), blocks);
}

#[test]
fn list_without_volumes(rt: HostRuntime) {
    check_list(&rt, &no_volume(), None, &[(b"a", 0, None)]);
}

const BLOCKS: &[Block] = &[
    (b"a", 0, Some(128)),
    (b"a", 63, Some(191)),
    (b"a", 64, Some(64)),
    (b"a", 65, None),
    (b"b", 0, None),
];

#[test]
fn list_with_one_volume(rt: HostRuntime) {
    let logical = one_volume();
    check_list(&rt, &logical, Some(65), BLOCKS);
    same(&rt, blocks_in_volume(&logical, &of_64(2), b"b"), None);
}

// Ten sectors are too few, the set has one extent alone, or the volume does not have a place of an extent.
#[test]
fn lists_without_table(rt: HostRuntime) {
    let logical = one_volume();
    let mut damaged = one_volume();
    damaged[3][2] = 2;
    let is_shown = [
        table_shown(&logical[..11], &of_64(2)).is_some(),
        table_shown(&logical[..10], &of_64(2)).is_some(),
        table_shown(&logical, &of_64(1)).is_some(),
        table_shown(&damaged, &of_64(2)).is_some(),
        block_shown(&damaged, &of_64(2), b"a", 0).is_some(),
        blocks_in_volume(&damaged, &of_64(2), b"a").is_some(),
    ];
    same(&rt, is_shown, [true, false, false, false, false, false]);
}

// Checks the blocks that a list of a set with these extents shows.
fn check_blocks(rt: &impl Abort, logical: &[Sector], extents: &ExtentLayout, blocks: &[Block]) {
    for (name, at, number) in blocks {
        let is_so = block_shown(logical, extents, name, *at) == number.map(all);
        same(rt, (*name, *at, is_so), (*name, *at, true));
    }
}

const BLOCKS_IN_16: &[Block] = &[
    (b"a", 0, Some(80)),
    (b"a", 15, Some(95)),
    (b"a", 16, Some(64)),
    (b"a", 17, None),
];

// The volume `a` of 17 blocks has extent 1 before extent 0 where each has 16 blocks. It takes one extent of 64.
#[test]
fn list_of_smaller_extents(rt: HostRuntime) {
    let mut logical = one_volume();
    logical[1][28] = 17;
    let extents = eight_of_16();
    same(&rt, blocks_in_volume(&logical, &extents, b"a"), Some(17));
    check_blocks(&rt, &logical, &extents, BLOCKS_IN_16);
    same(&rt, shows_table(&logical, 192, 2), false);
}

// The record of the volume `a` of 65 blocks in version 2: 63 bytes for the name, and the number of blocks after them.
const LONG_RECORD: &[u8] = &[
    0x01, 0x61, 0, 0, 0, 0, 0, 0, 0, 0, 0, 0, 0, 0, 0, 0, 0, 0, 0, 0, 0, 0, 0, 0, 0, 0, 0, 0, 0, 0,
    0, 0, 0, 0, 0, 0, 0, 0, 0, 0, 0, 0, 0, 0, 0, 0, 0, 0, 0, 0, 0, 0, 0, 0, 0, 0, 0, 0, 0, 0, 0, 0,
    0, 0, 0x41, 0, 0, 0,
];

// The same volume in a table of version 2.
fn one_volume_of_version_2() -> Logical {
    let mut logical = no_volume();
    logical[0] = front(&[1]);
    logical[1] = front(LONG_RECORD);
    logical[17] = front(ENTRIES);
    logical
}

#[test]
fn list_of_version_2(rt: HostRuntime) {
    let logical = one_volume_of_version_2();
    check_list(&rt, &logical, Some(65), BLOCKS);
    same(&rt, blocks_in_volume(&logical, &of_64(2), b"b"), None);
}

// Twenty-four sectors are too few, and the set has one extent alone; the records and extents are those of version 1
// after the sector 0 of version 2, or the other way round; and there is no version 3.
#[test]
fn lists_without_table_of_version_2(rt: HostRuntime) {
    let logical = one_volume_of_version_2();
    let mut of_version_1 = one_volume();
    of_version_1[0][0] = 1;
    let mut of_version_2 = one_volume_of_version_2();
    of_version_2[0][0] = 0;
    let mut of_version_3 = one_volume_of_version_2();
    of_version_3[0][0] = 2;
    let is_shown = [
        shows_table(&logical, 25, 2),
        shows_table(&logical, 24, 2),
        shows_table(&logical, 192, 1),
        shows_table(&of_version_1, 192, 2),
        shows_table(&of_version_2, 192, 2),
        shows_table(&of_version_3, 192, 2),
    ];
    same(&rt, is_shown, [true, false, false, false, false, false]);
}

// Whether so many sectors of a list show a table of a set with so many extents of 64 blocks.
fn shows_table(logical: &[Sector], sectors: usize, extents: u8) -> bool {
    let sectors = sectors.min(logical.len());
    table_shown(&logical[..sectors], &of_64(extents)).is_some()
}

// The volume in a table of version 1, with other bytes in the reserved sectors after that.
fn one_volume_before_other_bytes() -> Logical {
    let mut logical = one_volume();
    for number in 11..64usize {
        logical[number] = all(0xc3);
    }
    logical
}

// In version 1 the sectors after the eleventh are not looked at.
#[test]
fn list_with_other_bytes_after_the_table(rt: HostRuntime) {
    let logical = one_volume_before_other_bytes();
    check_list(&rt, &logical, Some(65), BLOCKS);
}
