//! Runs at the edges of the rules.
use super::*;

#[test]
fn rows_2048_with_a_mask(rt: HostRuntime) {
    let runs = runs_of(&rt, &[bytes_of(0, 2048, 0x3)]);
    same(&rt, runs.list.as_slice(), &[run(0, 2048, 0x3)]);
}

#[test]
fn held_sectors_4096(rt: HostRuntime) {
    let runs = runs_of(&rt, &[bytes_of(0, 512, 0xff)]);
    same(&rt, runs.list.as_slice(), &[run(0, 512, 0xff)]);
}

#[test]
fn held_sectors_4095(rt: HostRuntime) {
    let runs = runs_of(&rt, &[bytes_of(0, 1365, 0x7)]);
    same(&rt, runs.list.as_slice(), &[run(0, 1365, 0x7)]);
}

#[test]
fn zeros_touch_a_mask(rt: HostRuntime) {
    let runs = runs_of(&rt, &[bytes_of(0, 65_535, 0x0), bytes_of(65_535, 1, 0x3)]);
    same(
        &rt,
        runs.list.as_slice(),
        &[run(0, 65_535, 0x0), run(65_535, 1, 0x3)],
    );
}

#[test]
fn zeros_a_row_apart(rt: HostRuntime) {
    let runs = runs_of(
        &rt,
        &[bytes_of(0, 65_535, 0x0), bytes_of(65_536, 65_535, 0x0)],
    );
    same(
        &rt,
        runs.list.as_slice(),
        &[run(0, 65_535, 0x0), run(65_536, 65_535, 0x0)],
    );
}

#[test]
fn the_last_row(rt: HostRuntime) {
    let runs = runs_of(&rt, &[bytes_of(4_294_967_295, 1, 0x3)]);
    same(&rt, runs.list.as_slice(), &[run(4_294_967_295, 1, 0x3)]);
}

#[test]
fn runs_58(rt: HostRuntime) {
    let bytes = each_third();
    let runs = decoded(&rt, &bytes, 58);
    same(&rt, runs.list.len(), 58);
    same(&rt, runs.run_of(171), Some(run(171, 1, 3)));
    same(&rt, runs.held(), 116);
    same(&rt, runs.end(), 172);
    let mut written = [0xff; RUNS_BYTES];
    encode_runs(&runs, &mut written);
    same(&rt, written, bytes);
}
