//! Tables of version 3, of sets of format 2.
use super::*;

// The extents of the example set: 28 of 16 blocks, from sector 64 on.
fn example(rt: &impl Abort) -> ExtentLayout {
    ExtentLayout::of(&Geometry::large(3, 8, 32).expect(rt, "the example set"))
}

// The sectors of `a` with 40 blocks in extents 0 to 2, and these bytes of the entries after them.
fn third_sectors(entries: &[u8]) -> [Sector; 25] {
    let mut sectors = [[0; 512]; 25];
    put(&mut sectors[1], 0, b"\x01\x61");
    put(&mut sectors[1], 64, &[40]);
    put(
        &mut sectors[17],
        0,
        b"\x01\x00\x00\x00\x01\x00\x01\x00\x01\x00\x02\x00",
    );
    put(&mut sectors[17], 12, entries);
    sectors
}

// How many extents are dirty, and the first and last of them.
fn dirty_in(table: &VolumeTable) -> (usize, Option<usize>, Option<usize>) {
    let count = table.dirty.iter().filter(|dirty| **dirty).count();
    let first = table.dirty.iter().position(|dirty| *dirty);
    let last = table.dirty.iter().rposition(|dirty| *dirty);
    (count, first, last)
}

// Checks that the sectors are a table of version 3 of a set whose extents lie so, with these of them dirty, and that it
// has these sectors.
fn check_third_in(
    rt: &impl Abort,
    extents: &ExtentLayout,
    sectors: &[Sector; 25],
    dirty: (usize, Option<usize>, Option<usize>),
) -> VolumeTable {
    let table = VolumeTable::decode(sectors, extents).expect(rt, "the sectors are a table's");
    same(rt, (table.version, dirty_in(&table)), (3, dirty));
    check_sectors(rt, &table, sectors);
    table
}

// Checks it in the example set.
fn check_third(
    rt: &impl Abort,
    sectors: &[Sector; 25],
    dirty: (usize, Option<usize>, Option<usize>),
) {
    let _ = check_third_in(rt, &example(rt), sectors, dirty);
}

#[test]
fn third_vectors(rt: HostRuntime) {
    check_third(&rt, &[[0; 512]; 25], (0, None, None));
    check_third(&rt, &third_sectors(&[]), (0, None, None));
    let free = b"\x00\x00\x00\x80\x00\x00\x00\x80";
    check_third(&rt, &third_sectors(free), (2, Some(3), Some(4)));
}

#[test]
fn third_marked(rt: HostRuntime) {
    let mut table = VolumeTable::decode(&third_sectors(&[]), &example(&rt)).expect(
        &rt,
        "the sectors are a table's",
    );
    table.mark_dirty(0);
    same(&rt, dirty_in(&table), (3, Some(0), Some(2)));
    let mut sectors = third_sectors(&[]);
    put(
        &mut sectors[17],
        0,
        b"\x01\x00\x00\x80\x01\x00\x01\x80\x01\x00\x02\x80",
    );
    check_sectors(&rt, &table, &sectors);
}

#[test]
fn third_upgraded(rt: HostRuntime) {
    let sectors = third_sectors(&[]);
    let mut table = VolumeTable::decode(&sectors, &example(&rt)).expect(
        &rt,
        "the sectors are a table's",
    );
    table.upgrade();
    same(&rt, table.version, 3);
    check_sectors(&rt, &table, &sectors);
}

// The sectors of `a` with these bytes from a place of a sector on.
fn changed(rt: &impl Abort, number: usize, at: usize, bytes: &[u8]) -> [Sector; 25] {
    let mut sectors = third_sectors(&[]);
    assert!(rt; number < 25);
    put(&mut sectors[number], at, bytes);
    sectors
}

#[test]
fn third_dirty(rt: HostRuntime) {
    let third = changed(&rt, 17, 8, b"\x01\x00\x02\x80");
    check_third(&rt, &third, (1, Some(2), Some(2)));
    let last = changed(&rt, 17, 108, b"\x00\x00\x00\x80");
    check_third(&rt, &last, (1, Some(27), Some(27)));
}

// Writes the entries of the extents below this one: each is of record 0, at the place of its number, with this mark in
// its last byte.
fn put_in_order(sectors: &mut [Sector; 25], extents: u16, mark: u8) {
    for place in 0..1024u16 {
        if place < extents {
            let entry = [1, 0, (place % 256) as u8, (place / 256) as u8 | mark];
            let at = usize::from(place);
            put(&mut sectors[17 + at / 128], 4 * (at % 128), &entry);
        }
    }
}

// The volume `big` of 4,294,967,295 blocks, in extents 0 to 146 of the greatest set: 876 of 1,023 are free.
#[test]
fn largest_volume(rt: HostRuntime) {
    let set = Geometry::large(8, 8, 536_870_910).expect(&rt, "the greatest set");
    let mut sectors = [[0; 512]; 25];
    put(&mut sectors[1], 0, b"\x03big");
    put(&mut sectors[1], 64, b"\xff\xff\xff\xff");
    put_in_order(&mut sectors, 146, 0);
    put(&mut sectors[18], 72, b"\x01\x00\x92\x00");
    let extents = ExtentLayout::of(&set);
    let table = check_third_in(&rt, &extents, &sectors, (0, None, None));
    let found = table.record_named(b"big").expect(&rt, "there is a record");
    same(&rt, (found.number, found.count), (0, 4_294_967_295));
    let owners = (table.extents[146], table.extents[147]);
    let last = Owned {
        volume: 0,
        place: 146,
    };
    same(&rt, owners, (Some(last), None));
    let owners = &table.extents[..1_023];
    let free = owners.iter().filter(|owner| owner.is_none()).count();
    same(&rt, free, 876);
}

// The volume `a` of 16,384 blocks, which are all that 1,024 extents have: each extent at the place of its number, with
// this mark in its last byte, and of the last one these bytes.
fn in_all_extents(mark: u8, last: &[u8]) -> [Sector; 25] {
    let mut sectors = [[0; 512]; 25];
    put(&mut sectors[1], 0, b"\x01a");
    put(&mut sectors[1], 64, b"\x00\x40");
    put_in_order(&mut sectors, 1_023, mark);
    put(&mut sectors[24], 508, last);
    sectors
}

// No volume, and 1,024 extents that are dirty.
fn all_dirty() -> [Sector; 25] {
    let mut sectors = [[0; 512]; 25];
    for extent in 0..1024usize {
        let sector = &mut sectors[17 + extent / 128];
        put(sector, 4 * (extent % 128), b"\x00\x00\x00\x80");
    }
    sectors
}

// The greatest place stands beside the mark: as a volume has all extents of a set, once it is removed, and as another
// one has them.
#[test]
fn last_place_beside_the_mark(rt: HostRuntime) {
    let set = Geometry::large(3, 8, 1_028).expect(&rt, "a set of 1,024 extents");
    let extents = ExtentLayout::of(&set);
    let last = Owned {
        volume: 0,
        place: 1_023,
    };
    let clean = in_all_extents(0, b"\x01\x00\xff\x03");
    let mut table = check_third_in(&rt, &extents, &clean, (0, None, None));
    same(&rt, table.extents[1_023], Some(last));

    let all = (1_024, Some(0), Some(1_023));
    let removed = check_third_in(&rt, &extents, &all_dirty(), all);
    same(&rt, removed.extents[1_023], None);

    let dirty = in_all_extents(0x80, b"\x01\x00\xff\x83");
    let again = check_third_in(&rt, &extents, &dirty, all);
    same(&rt, again.extents[1_023], Some(last));

    table.mark_dirty(0);
    check_sectors(&rt, &table, &dirty);
}

// Bytes of the sectors of `a`, from a place of a sector on, with which they are no table's.
const THIRD_REFUSED: &[(&str, usize, usize, &[u8])] = &[
    ("the first byte of sector 0", 0, 0, &[1]),
    ("the last byte of sector 0", 0, 511, &[1]),
    ("16,385 blocks", 1, 64, &[1, 0x40]),
    ("2^32 blocks more", 1, 68, &[1]),
    ("no block", 1, 64, &[0]),
    ("byte 72 of a record", 1, 72, &[1]),
    ("49 blocks", 1, 64, &[49]),
    ("a dirty extent at a place twice", 17, 8, &[1, 0, 1, 0x80]),
    ("a place of a free extent", 17, 12, &[0, 0, 1, 0]),
    ("a place of a free, dirty extent", 17, 12, &[0, 0, 1, 0x80]),
    ("an entry of an unused record", 17, 12, &[2, 0, 0, 0]),
    (
        "a dirty extent that the set has not",
        17,
        112,
        &[0, 0, 0, 0x80],
    ),
];

#[test]
fn refused_third_tables(rt: HostRuntime) {
    for (why, number, at, bytes) in THIRD_REFUSED {
        let sectors = changed(&rt, *number, *at, bytes);
        let table = VolumeTable::decode(&sectors, &example(&rt));
        same(&rt, (*why, table.is_some()), (*why, false));
    }
}

// Checks that the sectors are no table's of a set of the other format.
#[test]
fn tables_of_the_other_format(rt: HostRuntime) {
    let first = sectors_of(A_64, b"\x01\x00\x00\x00");
    same(
        &rt,
        VolumeTable::decode(&first, &example(&rt)).is_some(),
        false,
    );
    let second = second_sectors_of(64, b"\x01\x00\x00\x00");
    same(
        &rt,
        VolumeTable::decode(&second, &example(&rt)).is_some(),
        false,
    );
    let third = third_sectors(&[]);
    same(
        &rt,
        VolumeTable::decode(&third, &extents_of_64(7)).is_some(),
        false,
    );
}
