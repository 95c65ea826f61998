//! Places and batches of small sets. In the set of 4 members with chunks of 8 sectors, logical sectors 0 to 23 are the
//! data of rows 0 to 7, on members 0 to 2, with the parity on member 3; sectors 24 to 31 lie on member 3 in rows 8 to
//! 15, with the parity on member 2. In the set of 3 members, sectors 16 s to 16 s + 7 are rows 8 s to 8 s + 7 of one
//! member.
ghost use Rattle.std.specs.Prelude.{◌↔◌, ◌≡◌, ◌≤◌, IsTrue, length};
ghost use Rattle.batch.specs.Places.{AreApart, AreOfSet};
ghost use Rattle.batch.specs.Staging.{HasLogical};

use super::*;
use entry_runs::RunsBuilder;
use layout_map::Geometry;
use sector_model::Sector;
use std::fmt::Debug;
use std::process::Abort;

mod zero_rows;
mod zero_sectors;

// Ends the test where `got` is not `want`.
fn same<T: PartialEq + Debug + Drop>(rt: &impl Abort, got: T, want: T) {
    assert_eq!(rt; got, want);
}

// Whether this logical sector is one of those given.
fn is_given(sectors: &[(u64, Sector)], logical: u64) -> bool
    ensures { IsTrue result ↔ HasLogical sectors.now (length sectors.now) logical }
{
    for sector in sectors {
        if sector.0 == logical {
            return true;
        }
    }
    false
}

// The sectors are 1 to 32 of the set, none twice.
fn check_sectors(rt: &impl Abort, geometry: &Geometry, sectors: &[(u64, Sector)])
    ensures least { 1 ≤ length sectors.now }
    ensures most { length sectors.now ≤ 32 }
    ensures of_set { AreOfSet geometry.now sectors.now }
    ensures apart { AreApart sectors.now }
{
    assert!(rt; matches!(sectors.len(), 1..=32));
    for (i, sector) in sectors.iter().enumerate() {
        assert!(rt; sector.0 < geometry.data_sectors());
        assert!(rt; !is_given(&sectors[..i], sector.0));
    }
}

// So many logical sectors, each this much below the one before, from one on.
fn falling(
    rt: &(impl Abort + AllocGlobal),
    first: u64,
    step: u64,
    count: u8,
) -> Vec<(u64, Sector)> {
    let mut sectors = Vec::new(rt.alloc());
    let mut logical = first;
    for _ in 0..count {
        sectors.push((logical, [0; 512])).expect(rt, "memory");
        logical = logical.wrapping_sub(step);
    }
    sectors
}

// So many, each this much above the one before, each full of one byte.
fn rising(
    rt: &(impl Abort + AllocGlobal),
    first: u64,
    step: u64,
    count: u8,
    byte: u8,
) -> Vec<(u64, Sector)> {
    let mut sectors = Vec::new(rt.alloc());
    let mut logical = first;
    for _ in 0..count {
        sectors.push((logical, [byte; 512])).expect(rt, "memory");
        logical = logical.wrapping_add(step);
    }
    sectors
}

// The rows of runs, each with its mask.
fn rows_in(rt: &(impl Abort + AllocGlobal), runs: &RunsBuilder) -> Vec<(u32, u8)> {
    let mut rows = Vec::new(rt.alloc());
    for i in 0..runs.count() {
        let row = runs.listed(i);
        rows.push((row.row, row.mask)).expect(rt, "memory");
    }
    rows
}

// The set of 4 members of format 1, and that of 3 members of format 2.
fn four(rt: &impl Abort) -> Geometry {
    Geometry::new(4, 8, 32).expect(rt, "a set of 4 members")
}

fn three(rt: &impl Abort) -> Geometry {
    Geometry::large(3, 8, 200).expect(rt, "a large set of 3 members")
}

fn batch_of(rt: &(impl Abort + AllocGlobal), geometry: &Geometry) -> Batch {
    Batch::new(geometry, rt.alloc()).expect(rt, "memory")
}

// Stages sectors.
fn stage(rt: &impl Abort, batch: &mut Batch, sectors: &[(u64, Sector)]) -> bool {
    check_sectors(rt, batch.geometry(), sectors);
    batch.stage(sectors)
}

// The logical sectors that wait, each with its first byte.
fn waiting(rt: &(impl Abort + AllocGlobal), batch: &Batch) -> Vec<(u64, u8)> {
    let mut found = Vec::new(rt.alloc());
    for sector in batch.sectors() {
        found.push((sector.0, sector.1[0])).expect(rt, "memory");
    }
    found
}

#[test]
fn places_of_falling_sectors_rise(rt: HostRuntime) {
    let geometry = four(&rt);
    let sectors = falling(&rt, 31, 1, 32);
    check_sectors(&rt, &geometry, &sectors);
    let places = Places::of(&geometry, &sectors);
    let mut want = Vec::new(rt.alloc());
    for row in 0..8u32 {
        for member in 0..3u8 {
            let at = 31 - row as u16 - 8 * u16::from(member);
            want.push(Placed { row, member, at }).expect(&rt, "memory");
        }
    }
    for row in 8..16u32 {
        let at = 15 - row as u16;
        want.push(Placed { row, member: 3, at })
            .expect(&rt, "memory");
    }
    assert!(rt; places.as_slice() == &want[..]);
    same(&rt, places.find(3, 2), Some(12));
    same(&rt, places.find(8, 2), None);
}

#[test]
fn rows_have_their_members(rt: HostRuntime) {
    let mut batch = batch_of(&rt, &four(&rt));
    assert!(rt; stage(&rt, &mut batch, &falling(&rt, 30, 7, 5)));
    // Sectors 30, 23, 16, 9 and 2 lie in rows 14, 7, 0, 1 and 2, on members 3, 2, 2, 1 and 0.
    let want = [
        (0, 0b1100),
        (1, 0b1010),
        (2, 0b1001),
        (7, 0b1100),
        (14, 0b1100),
    ];
    assert!(rt; &rows_in(&rt, batch.runs())[..] == &want[..]);
}

#[test]
fn a_later_write_counts(rt: HostRuntime) {
    let mut batch = batch_of(&rt, &four(&rt));
    assert!(rt; stage(&rt, &mut batch, &rising(&rt, 5, 1, 2, 1)));
    assert!(rt; stage(&rt, &mut batch, &rising(&rt, 4, 1, 2, 2)));
    let want = [(5, 2), (6, 1), (4, 2)];
    assert!(rt; &waiting(&rt, &batch)[..] == &want[..]);
    batch.clear();
    assert!(rt; batch.is_empty());
}

#[test]
fn a_batch_is_full_at_2048(rt: HostRuntime) {
    let mut batch = batch_of(&rt, &three(&rt));
    for i in 0..64u64 {
        assert!(rt; stage(&rt, &mut batch, &rising(&rt, 32 * i, 1, 32, 7)));
    }
    same(&rt, batch.len(), 2048);
    assert!(rt; !stage(&rt, &mut batch, &rising(&rt, 2047, 1, 2, 9)));
    same(&rt, batch.len(), 2048);
    assert!(rt; stage(&rt, &mut batch, &rising(&rt, 2047, 1, 1, 8)));
    assert!(rt; waiting(&rt, &batch).last() == Some(&(2047, 8)));
    same(&rt, batch.runs().count(), 1024);
}

#[test]
fn rows_of_59_runs_are_refused(rt: HostRuntime) {
    let mut batch = batch_of(&rt, &three(&rt));
    assert!(rt; stage(&rt, &mut batch, &rising(&rt, 0, 16, 32, 1)));
    assert!(rt; stage(&rt, &mut batch, &rising(&rt, 512, 16, 26, 1)));
    assert!(rt; !stage(&rt, &mut batch, &rising(&rt, 912, 16, 2, 2)));
    same(&rt, batch.len(), 58);
    assert!(rt; waiting(&rt, &batch).last() == Some(&(912, 1)));
    same(&rt, batch.runs().count(), 58);
    same(&rt, batch.places().len(), 58);
}

#[test]
fn format_1_refuses_the_33rd(rt: HostRuntime) {
    let mut batch = batch_of(&rt, &four(&rt));
    assert!(rt; stage(&rt, &mut batch, &rising(&rt, 0, 1, 32, 1)));
    assert!(rt; !stage(&rt, &mut batch, &rising(&rt, 32, 1, 1, 2)));
    same(&rt, batch.len(), 32);
    assert!(rt; stage(&rt, &mut batch, &rising(&rt, 31, 1, 1, 2)));
    assert!(rt; waiting(&rt, &batch).last() == Some(&(31, 2)));
}
