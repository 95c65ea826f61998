//! Sectors that are no table's.
use super::*;

// Two volumes in version 1: `a` of 65 blocks has extents 0 and 1, `b` of 64 blocks has extent 2.
fn two_volumes() -> [Sector; 25] {
    let mut sectors = sectors_of(A_65, b"\x01\x00\x00\x00\x01\x00\x01\x00\x02\x00\x00\x00");
    put(&mut sectors[1], 32, A_64);
    put(&mut sectors[1], 33, b"b");
    sectors
}

// The same volumes in version 2.
fn two_second_volumes() -> [Sector; 25] {
    let mut sectors = second_sectors_of(65, b"\x01\x00\x00\x00\x01\x00\x01\x00\x02\x00\x00\x00");
    put(&mut sectors[1], 128, b"\x01b");
    put(&mut sectors[1], 192, b"\x40");
    sectors
}

// Bytes of the two volumes' sectors, from a place of a sector on, with which they are no table's.
type Refused = (&'static str, usize, usize, &'static [u8]);

const REFUSED: &[Refused] = &[
    ("version 2, with records of version 1", 0, 0, &[1]),
    ("the second byte of sector 0", 0, 1, &[1]),
    ("the last byte of sector 0", 0, 511, &[1]),
    ("a name with a capital", 1, 1, b"A"),
    ("a name of 25 bytes", 1, 0, b"\x19aaaaaaaaaaaaaaaaaaaaaaaaa"),
    ("no block", 1, 28, &[0]),
    ("65,537 blocks", 1, 28, &[1, 0, 1, 0]),
    ("the first byte behind a name", 1, 2, &[1]),
    ("the last byte behind a name", 1, 24, &[1]),
    ("the first of the three zeros", 1, 25, &[1]),
    ("the second of the three zeros", 1, 26, &[1]),
    ("the last of the three zeros", 1, 27, &[1]),
    ("equal names", 1, 33, b"a"),
    ("blocks of an unused record", 1, 92, &[1]),
    ("the last byte of the records", 2, 511, &[1]),
    ("an entry of an unused record", 3, 12, &[3]),
    ("an entry of record 32", 3, 12, &[33]),
    ("an entry of record 256", 3, 12, &[1, 1]),
    ("a place of a free extent", 3, 14, &[1]),
    ("a place twice", 3, 12, &[1, 0, 1, 0]),
    ("a place missing", 3, 4, &[0, 0, 0, 0]),
    ("a place too many", 3, 12, &[1, 0, 2, 0]),
];

// Of version 2. The last byte of a name of 64 bytes would stand where the blocks begin.
const SECOND_REFUSED: &[Refused] = &[
    ("version 1, with records of version 2", 0, 0, &[0]),
    ("the second byte of sector 0", 0, 1, &[1]),
    ("the last byte of sector 0", 0, 511, &[1]),
    ("a name with a capital", 1, 1, b"A"),
    (
        "a name of 64 bytes",
        1,
        0,
        b"\x40aaaaaaaaaaaaaaaaaaaaaaaaaaaaaaaaaaaaaaaaaaaaaaaaaaaaaaaaaaaaaaaa",
    ),
    ("no block", 1, 64, &[0]),
    ("65,537 blocks", 1, 64, &[1, 0, 1, 0]),
    ("the first byte behind a name", 1, 2, &[1]),
    ("the last byte behind a name", 1, 63, &[1]),
    ("the first of the sixty zeros", 1, 68, &[1]),
    ("the last of the sixty zeros", 1, 127, &[1]),
    ("equal names", 1, 129, b"a"),
    ("blocks of an unused record", 1, 320, &[1]),
    ("the last byte of the records", 16, 511, &[1]),
    ("an entry of an unused record", 17, 12, &[3]),
    ("an entry of record 64", 17, 12, &[65]),
    ("an entry of record 256", 17, 12, &[1, 1]),
    ("a place of a free extent", 17, 14, &[1]),
    ("a place twice", 17, 12, &[1, 0, 1, 0]),
    ("a place missing", 17, 4, &[0, 0, 0, 0]),
    ("a place too many", 17, 12, &[1, 0, 2, 0]),
];

// Checks that the sectors are a table's, and no more with the bytes of each row.
fn check_refused(rt: &impl Abort, good: &[Sector; 25], rows: &[Refused]) {
    same(
        rt,
        VolumeTable::decode(good, &extents_of_64(7)).is_some(),
        true,
    );
    for (why, number, at, bytes) in rows {
        let mut sectors = *good;
        assert!(rt; *number < 25);
        put(&mut sectors[*number], *at, bytes);
        same(
            rt,
            (
                *why,
                VolumeTable::decode(&sectors, &extents_of_64(7)).is_some(),
            ),
            (*why, false),
        );
    }
}

#[test]
fn refused_tables(rt: HostRuntime) {
    check_refused(&rt, &two_volumes(), REFUSED)
}

#[test]
fn refused_second_tables(rt: HostRuntime) {
    check_refused(&rt, &two_second_volumes(), SECOND_REFUSED)
}

// Checks that the sectors are no table's with any first byte from 2 on.
fn check_versions(rt: &impl Abort, good: &[Sector; 25]) {
    let mut sectors = *good;
    for byte in 2..256u16 {
        sectors[0][0] = byte as u8;
        same(
            rt,
            (
                byte,
                VolumeTable::decode(&sectors, &extents_of_64(7)).is_some(),
            ),
            (byte, false),
        );
    }
}

#[test]
fn other_versions(rt: HostRuntime) {
    check_versions(&rt, &two_volumes());
    check_versions(&rt, &two_second_volumes());
}

// A name of 25 bytes, which no volume has in version 1.
#[test]
fn longer_name(rt: HostRuntime) {
    let mut sectors = two_second_volumes();
    put(&mut sectors[1], 0, b"\x19aaaaaaaaaaaaaaaaaaaaaaaaa");
    same(
        &rt,
        VolumeTable::decode(&sectors, &extents_of_64(7)).is_some(),
        true,
    );
}

// Checks which sets have the extents: the two volumes' are 0 to 2, and of the other table's the last is number 1,023.
fn check_extents(rt: &impl Abort, two: &[Sector; 25], last: &[Sector; 25]) {
    let are_tables = (
        VolumeTable::decode(two, &extents_of_64(3)).is_some(),
        VolumeTable::decode(two, &extents_of_64(2)).is_some(),
        VolumeTable::decode(last, &extents_of_64(1024)).is_some(),
        VolumeTable::decode(last, &extents_of_64(1023)).is_some(),
    );
    same(rt, are_tables, (true, false, true, false));
}

#[test]
fn extents_of_the_set(rt: HostRuntime) {
    // Place 0 of `a` lies at extent 0, and place 1 at extent 1,023.
    let mut sectors = sectors_of(A_65, &[1]);
    put(&mut sectors[10], 508, &[1, 0, 1, 0]);
    check_extents(&rt, &two_volumes(), &sectors);
}

#[test]
fn extents_of_the_set_in_the_second(rt: HostRuntime) {
    let mut sectors = second_sectors_of(65, &[1]);
    put(&mut sectors[24], 508, &[1, 0, 1, 0]);
    check_extents(&rt, &two_second_volumes(), &sectors);
}
