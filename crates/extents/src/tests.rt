//! The sectors of tables byte by byte, and sectors that are no table's.
use super::*;
use crate::testing::{extents_of_64, same};
use layout_map::{Format, Geometry};
use sector_model::{Refusal, Sector};
use std::process::Abort;

mod full;
mod marked;
mod refused;

// In version 1, the name `a`, with 64 blocks and with 65.
const A_64: &[u8] =
    b"\x01\x61\x00\x00\x00\x00\x00\x00\x00\x00\x00\x00\x00\x00\x00\x00\x00\x00\x00\x00\
      \x00\x00\x00\x00\x00\x00\x00\x00\x40\x00\x00\x00";

const A_65: &[u8] =
    b"\x01\x61\x00\x00\x00\x00\x00\x00\x00\x00\x00\x00\x00\x00\x00\x00\x00\x00\x00\x00\
      \x00\x00\x00\x00\x00\x00\x00\x00\x41\x00\x00\x00";

// What the sectors after those of version 1 hold: no table, so that whoever looks at them or changes them is seen.
const LEFT: u8 = 0xa5;

// Writes bytes into a sector, from this place on.
fn put(sector: &mut Sector, at: usize, bytes: &[u8]) {
    for (to, byte) in sector.iter_mut().skip(at).zip(bytes) {
        *to = *byte;
    }
}

// The sectors of version 1, all zero but for the first bytes of the records and of the extents' entries.
fn sectors_of(records: &[u8], entries: &[u8]) -> [Sector; 25] {
    let mut sectors = [[0; 512]; 25];
    put(&mut sectors[1], 0, records);
    put(&mut sectors[3], 0, entries);
    for sector in sectors.iter_mut().skip(11) {
        *sector = [LEFT; 512];
    }
    sectors
}

// The sectors of version 2, all zero but for the record of `a` with so many blocks, below 256, and the first bytes of
// the extents' entries.
fn second_sectors_of(blocks: u8, entries: &[u8]) -> [Sector; 25] {
    let mut sectors = [[0; 512]; 25];
    sectors[0][0] = 1;
    put(&mut sectors[1], 0, b"\x01\x61");
    put(&mut sectors[1], 64, &[blocks, 0, 0, 0]);
    put(&mut sectors[17], 0, entries);
    sectors
}

// The first extents are those of the blocks of record 0.
fn owners_of(rt: &impl Abort, blocks: u32) -> [Option<Owned>; 1024] {
    let mut extents = [None; 1024];
    assert!(rt; blocks <= 65_536);
    for place in 0..((blocks + 63) / 64) as u16 {
        extents[usize::from(place)] = Some(Owned { volume: 0, place });
    }
    extents
}

// Whether it is the record of `a` with so many blocks, or none where that is none.
fn is_record(record: &Option<Record>, blocks: u32) -> bool {
    match record {
        Some(record) => {
            blocks > 0 && record.blocks == blocks && record.name.bytes() == b"a".as_slice()
        }
        None => blocks == 0,
    }
}

// Checks that record 0 is `a` with so many blocks, or unused where that is none, and that the others are unused.
fn check_records(rt: &impl Abort, records: &[Option<Record>; 64], blocks: u32) {
    for number in 0..64usize {
        let want = if number == 0 { blocks } else { 0 };
        let is_so = is_record(&records[number], want);
        same(rt, (number, is_so), (number, true));
    }
}

// Checks that the table is of this version, with `a` of so many blocks alone, or none where that is none.
fn check_table(rt: &impl Abort, table: &VolumeTable, version: u8, blocks: u32) {
    same(rt, table.version, version);
    same(rt, table.extents, owners_of(rt, blocks));
    check_records(rt, &table.records, blocks);
}

// Checks that the table has these sectors, and leaves those after them.
fn check_sectors(rt: &impl Abort, table: &VolumeTable, expected: &[Sector; 25]) {
    let mut sectors = [[LEFT; 512]; 25];
    table.encode(&mut sectors);
    same(rt, sectors, *expected);
}

// Checks that these sectors are the table of this version and of `a` with so many blocks.
fn check_vector(rt: &impl Abort, sectors: &[Sector; 25], version: u8, blocks: u32) {
    let table = VolumeTable::decode(sectors, &extents_of_64(7)).expect(
        rt,
        "the sectors are a table's",
    );
    check_table(rt, &table, version, blocks);
    check_sectors(rt, &table, sectors);
}

#[test]
fn table_vectors(rt: HostRuntime) {
    let entries = b"\x01\x00\x00\x00\x01\x00\x01\x00";
    check_vector(&rt, &sectors_of(A_64, &entries[..4]), 1, 64);
    check_vector(&rt, &sectors_of(A_65, entries), 1, 65);
    check_vector(&rt, &sectors_of(&[], &[]), 1, 0);
    check_vector(&rt, &second_sectors_of(64, &entries[..4]), 2, 64);
    check_vector(&rt, &second_sectors_of(65, entries), 2, 65);
    volume_table_law();
}

// The table of version 1 of `a` with 64 blocks: after sector 0, which is `01` and 511 zeros, sector 1 of version 2
// begins with `0161`, 62 zeros and `40000000`, and sector 17 with `01000000`. All else is zero.
#[test]
fn upgraded_vector(rt: HostRuntime) {
    let sectors = sectors_of(A_64, b"\x01\x00\x00\x00");
    let mut table = VolumeTable::decode(&sectors, &extents_of_64(7)).expect(
        &rt,
        "the sectors are a table's",
    );
    let expected = second_sectors_of(64, b"\x01\x00\x00\x00");

    table.upgrade();
    check_table(&rt, &table, 2, 64);
    check_sectors(&rt, &table, &expected);

    table.upgrade();
    check_sectors(&rt, &table, &expected);
}

#[test]
fn blank_sectors(rt: HostRuntime) {
    let table = VolumeTable::decode(&[[0; 512]; 25], &extents_of_64(0)).expect(
        &rt,
        "blank sectors are a table",
    );
    check_table(&rt, &table, 1, 0);
}

#[test]
fn numbers_of_versions(rt: HostRuntime) {
    let first = (most_volumes(1), most_name_bytes(1), table_length(1));
    let second = (most_volumes(2), most_name_bytes(2), table_length(2));
    same(&rt, (first, second), ((32, 24, 11), (64, 63, 25)));
}

// Checks where the extents of a set lie: with which sector they begin, the blocks of each, and how many there are.
fn check_layout(rt: &impl Abort, set: Result<Geometry, Refusal>, layout: (u64, u64, u32)) {
    let extents = ExtentLayout::of(&set.expect(rt, "the set's numbers are within their limits"));
    same(rt, (extents.first, extents.blocks, extents.count), layout);
}

// Checks the most blocks of a volume in a set.
fn check_most(rt: &impl Abort, set: Result<Geometry, Refusal>, most: u32) {
    let extents = ExtentLayout::of(&set.expect(rt, "the set's numbers are within their limits"));
    same(rt, extents.most_blocks(), most);
}

#[test]
fn blocks_of_volumes(rt: HostRuntime) {
    check_most(&rt, Geometry::new(3, 8, 32), 65_536);
    check_most(&rt, Geometry::new(8, 128, 65_536), 65_536);
    // Sets of format 2: members, sectors of a chunk, stripes, and the most blocks.
    const SETS: &[(u8, u16, u32, u32)] = &[
        (3, 8, 32, 16_384),
        (3, 8, 5, 16_384),
        (8, 8, 3, 57_344),
        (3, 32, 2, 65_536),
        (4, 8, 4, 24_576),
        (4, 8, 200, 24_576),
        (3, 8, 1_028, 16_384),
        (3, 8, 1_029, 32_768),
        (3, 8, 2_053, 32_768),
        (3, 8, 2_054, 65_536),
        (5, 128, 2_049, 1_048_576),
        (4, 128, 15_261_915, 4_294_967_295),
        (3, 128, 16_777_217, 4_294_967_295),
        (3, 8, 536_870_910, 4_294_967_295),
        (8, 8, 536_870_910, 4_294_967_295),
        (8, 16, 268_435_455, 4_294_967_295),
        (8, 1_024, 4_194_303, 4_294_967_295),
    ];
    for (members, chunk, stripes, most) in SETS {
        check_most(&rt, Geometry::large(*members, *chunk, *stripes), *most);
    }
}

#[test]
fn extents_of_sets(rt: HostRuntime) {
    check_layout(&rt, Geometry::new(3, 8, 32), (64, 64, 7));
    check_layout(&rt, Geometry::new(8, 128, 65_536), (64, 64, 1_024));
    check_layout(&rt, Geometry::large(3, 8, 32), (64, 16, 28));
    check_layout(&rt, Geometry::large(4, 8, 200), (72, 24, 197));
    check_layout(&rt, Geometry::large(5, 128, 2_049), (512, 1_024, 1_024));
    let greatest = Geometry::large(8, 8, 536_870_910);
    check_layout(&rt, greatest, (112, 29_360_128, 1_023));
}

// Checks how many extents so many blocks take.
fn check_taken(rt: &impl Abort, extents: &ExtentLayout, rows: &[(u32, u32)]) {
    for (blocks, taken) in rows {
        let got = extents.extents_for(*blocks);
        same(rt, (*blocks, got), (*blocks, *taken));
    }
}

#[test]
fn extents_for_blocks(rt: HostRuntime) {
    let rows = [(0, 0), (1, 1), (64, 1), (65, 2), (65_536, 1_024)];
    check_taken(&rt, &extents_of_64(7), &rows);
    let set = Geometry::large(8, 8, 536_870_910).expect(&rt, "the greatest set");
    let extents = ExtentLayout::of(&set);
    let rows = [
        (1, 1),
        (29_360_128, 1),
        (29_360_129, 2),
        (4_294_967_295, 147),
    ];
    check_taken(&rt, &extents, &rows);
}
