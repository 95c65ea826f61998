//! Whole rows that are made zero, as runs.
use super::*;
use entry_runs::Run;

// Adds rows that are not there.
fn add(rt: &impl Abort, rows: &mut ZeroRows, first: u32, count: u32) -> bool {
    assert!(rt; count >= 1);
    assert!(rt; count <= 1024);
    assert!(rt; u64::from(first) + u64::from(count) <= 1 << 32);
    assert!(rt; rows.has_none_of(first, count));
    rows.add(first, count)
}

// Rows of zeros from one on, as many.
fn zeros(first: u32, length: u16) -> Run {
    Run {
        first,
        length,
        mask: 0,
    }
}

// The runs that an entry of these rows has; there is one row at least.
fn has_runs(rt: &impl Abort, rows: &ZeroRows, want: &[Run]) {
    let mut builder = RunsBuilder::new();
    rows.put_in(&mut builder);
    let runs = builder.to_runs().expect(rt, "there are rows");
    assert!(rt; runs.list.as_slice() == want);
}

// Rows 0 to 65,527.
fn rows_to_65528(rt: &impl Abort) -> ZeroRows {
    let mut rows = ZeroRows::new();
    for i in 0..63u32 {
        assert!(rt; add(rt, &mut rows, 1024 * i, 1024));
    }
    assert!(rt; add(rt, &mut rows, 64512, 1016));
    rows
}

#[test]
fn falling_stripes_are_one_run(rt: HostRuntime) {
    let mut rows = ZeroRows::new();
    assert!(rt; rows.is_empty());
    for i in 0..20u32 {
        assert!(rt; add(&rt, &mut rows, 8 * (19 - i), 8));
    }
    has_runs(&rt, &rows, &[zeros(0, 160)]);
    assert!(rt; !rows.is_empty());
    rows.clear();
    assert!(rt; rows.is_empty());
    assert!(rt; rows.has_none_of(0, 160));
}

#[test]
fn a_gap_of_one_row_stays(rt: HostRuntime) {
    let mut rows = ZeroRows::new();
    assert!(rt; add(&rt, &mut rows, 9, 8));
    assert!(rt; add(&rt, &mut rows, 0, 8));
    assert!(rt; add(&rt, &mut rows, 18, 8));
    has_runs(&rt, &rows, &[zeros(0, 8), zeros(9, 8), zeros(18, 8)]);
    assert!(rt; rows.has_none_of(8, 1));
    assert!(rt; !rows.has_none_of(8, 2));
    assert!(rt; !rows.has_none_of(7, 2));
    assert!(rt; !rows.has_none_of(4, 1024));
}

#[test]
fn what_lies_between_joins_two_runs(rt: HostRuntime) {
    let mut rows = ZeroRows::new();
    assert!(rt; add(&rt, &mut rows, 16, 8));
    assert!(rt; add(&rt, &mut rows, 0, 8));
    assert!(rt; add(&rt, &mut rows, 32, 8));
    assert!(rt; add(&rt, &mut rows, 8, 8));
    has_runs(&rt, &rows, &[zeros(0, 24), zeros(32, 8)]);
}

#[test]
fn the_59th_run_is_refused(rt: HostRuntime) {
    let mut rows = ZeroRows::new();
    let mut want = Vec::new(rt.alloc());
    for i in 0..58u32 {
        assert!(rt; add(&rt, &mut rows, 16 * i, 8));
        want.push(zeros(16 * i, 8)).expect(&rt, "memory");
    }
    assert!(rt; !add(&rt, &mut rows, 928, 8));
    assert!(rt; !add(&rt, &mut rows, 9, 1));
    has_runs(&rt, &rows, &want);
    assert!(rt; add(&rt, &mut rows, 8, 8));
    assert!(rt; add(&rt, &mut rows, 928, 8));
}

#[test]
fn a_run_of_65536_rows_is_refused(rt: HostRuntime) {
    let mut rows = rows_to_65528(&rt);
    assert!(rt; !add(&rt, &mut rows, 65528, 8));
    has_runs(&rt, &rows, &[zeros(0, 65528)]);
    assert!(rt; add(&rt, &mut rows, 65529, 8));
    has_runs(&rt, &rows, &[zeros(0, 65528), zeros(65529, 8)]);
    assert!(rt; !add(&rt, &mut rows, 65528, 1));
    has_runs(&rt, &rows, &[zeros(0, 65528), zeros(65529, 8)]);
}

#[test]
fn a_run_of_65535_rows_is_taken(rt: HostRuntime) {
    let mut rows = rows_to_65528(&rt);
    assert!(rt; add(&rt, &mut rows, 65528, 7));
    has_runs(&rt, &rows, &[zeros(0, 65535)]);
}

#[test]
fn a_builder_has_these_rows_alone(rt: HostRuntime) {
    let mut builder = RunsBuilder::new();
    assert!(rt; builder.push_zeros(3, 2));
    let mut rows = ZeroRows::new();
    rows.put_in(&mut builder);
    assert!(rt; builder.to_runs().is_none());
    assert!(rt; add(&rt, &mut rows, u32::MAX - 1, 2));
    assert!(rt; add(&rt, &mut rows, 5, 1));
    rows.put_in(&mut builder);
    let want = [(5, 0), (u32::MAX - 1, 0), (u32::MAX, 0)];
    assert!(rt; &rows_in(&rt, &builder)[..] == &want[..]);
}
