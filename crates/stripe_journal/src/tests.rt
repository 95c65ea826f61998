//! A seal's sector byte by byte, and sectors that are no seal's.
use super::*;
use crate::counting::counts;
use crate::testing::{ID, read_seal, same, spelled, spelled_held};
use arrayvec::ArrayVec;
use layout_map::Geometry;
use sector_model::Sector;
use std::process::Abort;

mod following;
pub(crate) mod runs;

// The sector of entry 1 with row 32 alone.
fn vector() -> Sector {
    spelled(&ID, 1, [32, 0])
}

// The sector of the same entry, where it holds member 1, which has the row's parity, and member 2.
fn held_vector() -> Sector {
    spelled_held(&ID, 1, [32, 0], [6, 0])
}

// The sector with these bytes from this place on.
fn changed(rt: &impl Abort, from: &Sector, at: usize, bytes: &[u8]) -> Sector {
    let mut sector = *from;
    for i in 0..bytes.len() {
        assert!(rt; at < 512 && i < 512 - at);
        sector[at + i] = bytes[i];
    }
    sector
}

// The sector of entry 2^62 with 32 rows: 1 to 31 and 2^32 - 1.
fn full() -> Sector {
    let mut sector = vector();
    sector[24] = 0;
    sector[31] = 0x40;
    sector[32] = 32;
    for i in 0..31usize {
        sector[40 + 4 * i] = i as u8 + 1;
    }
    sector[164..168].fill(0xff);
    sector
}

#[test]
fn seal_vector(rt: HostRuntime) {
    let mut rows = ArrayVec::new();
    rows.push(32);
    let mut sector = [0xff; 512];
    let number = 1;
    let id = ID;
    let form = Form::Whole(rows);
    let given = Seal { id, number, form };
    seal_encode(&given, &mut sector);
    let seal = read_seal(&rt, &vector());
    let got = (sector, seal.id, seal.number, seal.form.rows());
    same(&rt, got, (vector(), ID, 1, [32].as_slice()));
    seal_law();
}

// The bytes of a sector from a place on.
fn check_bytes(rt: &impl Abort, sector: &Sector, at: usize, want: &[u8]) {
    for i in 0..want.len() {
        assert!(rt; at < 512 && i < 512 - at);
        assert!(rt; sector[at + i] == want[i], "byte {i} from {at} on");
    }
}

#[test]
fn held_seal_vector(rt: HostRuntime) {
    let seal = read_seal(&rt, &held_vector());
    let got = (seal.id, seal.number, seal.form.rows(), mask_of(&seal, 0));
    same(&rt, got, (ID, 1, [32].as_slice(), Some(6)));
    let mut sector = [0xff; 512];
    seal_encode(&seal, &mut sector);
    check_bytes(
        &rt,
        &sector,
        0,
        &[0x52, 0x41, 0x49, 0x44, 0x35, 0x4a, 0x45, 0x32],
    );
    check_bytes(&rt, &sector, 168, &[6, 0, 0, 0]);
    check_bytes(
        &rt,
        &sector,
        504,
        &[0x32, 0x45, 0x4a, 0x35, 0x44, 0x49, 0x41, 0x52],
    );
    same(&rt, sector, held_vector());
}

// The mask of a row in a seal, if it names the members.
fn mask_of(seal: &Seal, i: usize) -> Option<u8> {
    match &seal.form {
        Form::Whole(_) => None,
        Form::Held(_, masks) => masks.get(i).copied(),
        Form::Runs(_) => None,
    }
}

#[test]
fn full_sector(rt: HostRuntime) {
    let seal = read_seal(&rt, &full());
    let mut sector = [0xff; 512];
    seal_encode(&seal, &mut sector);
    let rows = seal.form.rows();
    assert!(rt; rows.len() == 32);
    let got = (seal.number, rows[0], rows[31], sector);
    same(
        &rt,
        got,
        (4_611_686_018_427_387_904, 1, 4_294_967_295, full()),
    );
}

#[test]
fn refused_sectors(rt: HostRuntime) {
    // Bytes of the vector from a place on, with which it is no seal.
    const ROWS: &[(&str, usize, &[u8])] = &[
        ("the mark at the start", 0, &[0x53]),
        ("the mark at the end", 511, &[0x53]),
        ("number 0", 24, &[0]),
        ("number 2^62 + 1", 24, &[1, 0, 0, 0, 0, 0, 0, 0x40]),
        ("no row", 32, &[0, 0, 0, 0, 0, 0, 0, 0, 0]),
        ("the first zero", 36, &[1]),
        ("the last zero", 39, &[0x80]),
        (
            "falling rows",
            32,
            &[2, 0, 0, 0, 0, 0, 0, 0, 32, 0, 0, 0, 31],
        ),
        ("equal rows", 32, &[2, 0, 0, 0, 0, 0, 0, 0, 32, 0, 0, 0, 32]),
        ("a row past the count", 44, &[33]),
        ("the last row past the count", 167, &[1]),
        ("the first filler", 168, &[1]),
        ("the last filler", 503, &[1]),
        ("a blank sector", 0, &[0; 512]),
    ];
    for (why, at, bytes) in ROWS {
        let is_seal = seal_decode(&changed(&rt, &vector(), *at, bytes)).is_some();
        same(&rt, (*why, is_seal), (*why, false));
    }
    let mut more = full();
    more[32] = 33;
    same(
        &rt,
        ("33 rows", seal_decode(&more).is_some()),
        ("33 rows", false),
    );
}

#[test]
fn refused_held_sectors(rt: HostRuntime) {
    // Bytes of the held vector from a place on, with which it is no seal.
    const ROWS: &[(&str, usize, &[u8])] = &[
        ("the mark at the start of a whole one", 7, &[0x31]),
        ("the mark at the end of a whole one", 504, &[0x31]),
        ("no bit", 168, &[0]),
        ("one bit", 168, &[2]),
        ("a mask past the count", 169, &[6]),
        ("the last mask past the count", 199, &[1]),
        ("the first filler", 200, &[1]),
        ("the last filler", 503, &[1]),
    ];
    for (why, at, bytes) in ROWS {
        let is_seal = seal_decode(&changed(&rt, &held_vector(), *at, bytes)).is_some();
        same(&rt, (*why, is_seal), (*why, false));
    }
}

// Whether the seal of entry 1 with row 32 and this mask counts in a set with so many members.
fn is_counted(rt: &impl Abort, members: u8, mask: u8) -> bool {
    let set = Geometry::new(members, 8, 32).expect(rt, "a geometry");
    let seal = read_seal(rt, &spelled_held(&ID, 1, [32, 0], [mask, 0]));
    counts(&seal, &ID, &set, 1)
}

#[test]
fn masks_that_count(rt: HostRuntime) {
    // The parity of row 32 is on member 1 of three, on member 3 of four, and on member 3 of eight.
    const ROWS: &[(u8, u8, bool)] = &[
        (3, 0x06, true),
        (3, 0x07, true),
        (3, 0x05, false),
        (3, 0x0e, false),
        (3, 0x86, false),
        (4, 0x0e, true),
        (4, 0x06, false),
        (8, 0x88, true),
        (8, 0xff, true),
        (8, 0xf7, false),
    ];
    for (members, mask, want) in ROWS {
        let found = is_counted(&rt, *members, *mask);
        same(&rt, (*members, *mask, found), (*members, *mask, *want));
    }
}

#[test]
fn counted_seals(rt: HostRuntime) {
    let mut other = ID;
    other[15] = 0;
    let seal = read_seal(&rt, &vector());
    // A set with 256 rows, and one with 32, which has no row 32.
    let sets = [
        Geometry::new(3, 8, 32).expect(&rt, "a geometry"),
        Geometry::new(8, 16, 2).expect(&rt, "a geometry"),
    ];
    let found = [
        counts(&seal, &ID, &sets[0], 1),
        counts(&seal, &other, &sets[0], 1),
        counts(&seal, &ID, &sets[0], 0),
        counts(&seal, &ID, &sets[1], 1),
    ];
    same(&rt, found, [true, false, false, false]);
}
