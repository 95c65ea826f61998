//! Single sectors that become zero: where they lie, the rows that change, and what one entry has no room for.
use super::*;

// Adds sectors of the set.
fn add(rt: &impl Abort, zeros: &mut ZeroSectors, first: u64, count: u32) -> bool {
    let end = first.checked_add(u64::from(count)).expect(rt, "a number");
    assert!(rt; end <= zeros.geometry().data_sectors());
    zeros.add(first, count)
}

fn placed(row: u32, member: u8, at: u16) -> Placed {
    Placed { row, member, at }
}

// Asks for these sectors, in this order.
fn has_sectors(rt: &impl Abort, zeros: &ZeroSectors, want: &[u64]) {
    assert!(rt; zeros.sectors() == want);
    same(rt, zeros.len(), want.len());
    same(rt, zeros.is_empty(), want.len() == 0);
}

// Sectors 22 to 25 lie on member 2 in rows 6 and 7, and on member 3 in rows 8 and 9; the parity is on member 3, and
// then on member 2.
#[test]
fn sectors_over_a_border_of_stripes(rt: HostRuntime) {
    let mut zeros = ZeroSectors::new(&four(&rt));
    has_sectors(&rt, &zeros, &[]);
    assert!(rt; add(&rt, &mut zeros, 22, 4));
    has_sectors(&rt, &zeros, &[22, 23, 24, 25]);
    let want = [
        placed(6, 2, 0),
        placed(7, 2, 1),
        placed(8, 3, 2),
        placed(9, 3, 3),
    ];
    assert!(rt; zeros.places() == &want[..]);
    let want = [(6, 0b1100), (7, 0b1100), (8, 0b1100), (9, 0b1100)];
    assert!(rt; &rows_in(&rt, zeros.runs())[..] == &want[..]);
}

#[test]
fn sectors_that_are_there_stay(rt: HostRuntime) {
    let mut zeros = ZeroSectors::new(&four(&rt));
    assert!(rt; add(&rt, &mut zeros, 10, 3));
    assert!(rt; add(&rt, &mut zeros, 8, 6));
    has_sectors(&rt, &zeros, &[10, 11, 12, 8, 9, 13]);
    assert!(rt; add(&rt, &mut zeros, 9, 2));
    assert!(rt; add(&rt, &mut zeros, 5, 0));
    has_sectors(&rt, &zeros, &[10, 11, 12, 8, 9, 13]);
    zeros.clear();
    has_sectors(&rt, &zeros, &[]);
    same(&rt, zeros.runs().count(), 0);
    assert!(rt; add(&rt, &mut zeros, 13, 1));
    has_sectors(&rt, &zeros, &[13]);
}

#[test]
fn zeros_are_full_at_2048(rt: HostRuntime) {
    let mut zeros = ZeroSectors::new(&three(&rt));
    assert!(rt; add(&rt, &mut zeros, 5, 2047));
    assert!(rt; !add(&rt, &mut zeros, 2052, 2));
    same(&rt, zeros.len(), 2047);
    assert!(rt; add(&rt, &mut zeros, 2052, 1));
    assert!(rt; !add(&rt, &mut zeros, 4, 1));
    assert!(rt; add(&rt, &mut zeros, 5, 2048));
    same(&rt, zeros.len(), 2048);
    assert!(rt; zeros.sectors().last() == Some(&2052));
}

// Each sector 16 s begins row 8 s, of one run.
#[test]
fn zeros_in_59_runs_are_refused(rt: HostRuntime) {
    let mut zeros = ZeroSectors::new(&three(&rt));
    for i in 0..58u64 {
        assert!(rt; add(&rt, &mut zeros, 16 * i, 1));
    }
    assert!(rt; !add(&rt, &mut zeros, 928, 1));
    same(&rt, zeros.len(), 58);
    same(&rt, zeros.runs().count(), 58);
    assert!(rt; add(&rt, &mut zeros, 913, 1));
    same(&rt, zeros.runs().count(), 59);
}

#[test]
fn zeros_of_format_1_are_32(rt: HostRuntime) {
    let mut zeros = ZeroSectors::new(&four(&rt));
    assert!(rt; !add(&rt, &mut zeros, 3, 33));
    has_sectors(&rt, &zeros, &[]);
    assert!(rt; add(&rt, &mut zeros, 3, 32));
    assert!(rt; !add(&rt, &mut zeros, 2, 2));
    same(&rt, zeros.len(), 32);
}
