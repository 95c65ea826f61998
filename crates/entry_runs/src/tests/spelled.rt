//! Runs of whole seals: their bytes and their count, and what they hold.
use super::*;

// These bytes spell these runs, which hold so many sectors in the body, and they are what is written of them.
fn check(rt: &impl Abort, bytes: &[[u8; 8]], want: &[Run], held: u32) {
    let runs = runs_of(rt, bytes);
    same(rt, runs.list.as_slice(), want);
    same(rt, runs.held(), held);
    let mut written = [0xff; RUNS_BYTES];
    encode_runs(&runs, &mut written);
    same(rt, written, bytes_with(rt, bytes));
}

#[test]
fn one_block(rt: HostRuntime) {
    let bytes = [[0x20, 0x00, 0x00, 0x00, 0x00, 0x01, 0x00, 0x06]];
    let runs = [run(32, 1, 0x6)];
    check(&rt, &bytes, &runs, 2);
}

#[test]
fn eight_blocks_aligned(rt: HostRuntime) {
    let bytes = [[0x20, 0x00, 0x00, 0x00, 0x00, 0x08, 0x00, 0x06]];
    let runs = [run(32, 8, 0x6)];
    check(&rt, &bytes, &runs, 16);
}

#[test]
fn a_whole_stripe(rt: HostRuntime) {
    let bytes = [[0x20, 0x00, 0x00, 0x00, 0x00, 0x08, 0x00, 0x07]];
    let runs = [run(32, 8, 0x7)];
    check(&rt, &bytes, &runs, 24);
}

#[test]
fn two_whole_stripes(rt: HostRuntime) {
    let bytes = [[0x20, 0x00, 0x00, 0x00, 0x00, 0x10, 0x00, 0x07]];
    let runs = [run(32, 16, 0x7)];
    check(&rt, &bytes, &runs, 48);
}

#[test]
fn blocks_in_order_over_5_members_aligned(rt: HostRuntime) {
    let bytes = [[0x80, 0x00, 0x00, 0x00, 0x00, 0x00, 0x02, 0x1f]];
    let runs = [run(128, 512, 0x1f)];
    check(&rt, &bytes, &runs, 2560);
}

#[test]
fn blocks_in_order_not_aligned(rt: HostRuntime) {
    let bytes = [
        [0x80, 0x00, 0x00, 0x00, 0x00, 0x3c, 0x00, 0x0e],
        [0xbc, 0x00, 0x00, 0x00, 0x00, 0x44, 0x00, 0x0f],
        [0x00, 0x01, 0x00, 0x00, 0x00, 0x80, 0x01, 0x1f],
        [0x80, 0x02, 0x00, 0x00, 0x00, 0x3c, 0x00, 0x13],
        [0xbc, 0x02, 0x00, 0x00, 0x00, 0x44, 0x00, 0x11],
    ];
    let runs = [
        run(128, 60, 0xe),
        run(188, 68, 0xf),
        run(256, 384, 0x1f),
        run(640, 60, 0x13),
        run(700, 68, 0x11),
    ];
    check(&rt, &bytes, &runs, 2688);
}

#[test]
fn two_blocks_apart_in_one_row(rt: HostRuntime) {
    let bytes = [
        [0x20, 0x00, 0x00, 0x00, 0x00, 0x01, 0x00, 0x06],
        [0x22, 0x00, 0x00, 0x00, 0x00, 0x01, 0x00, 0x03],
    ];
    let runs = [run(32, 1, 0x6), run(34, 1, 0x3)];
    check(&rt, &bytes, &runs, 4);
}

#[test]
fn runs_of_zeros_beside_a_run_with_a_mask(rt: HostRuntime) {
    let bytes = [
        [0x20, 0x00, 0x00, 0x00, 0x00, 0x08, 0x00, 0x00],
        [0x28, 0x00, 0x00, 0x00, 0x00, 0x08, 0x00, 0x07],
        [0x30, 0x00, 0x00, 0x00, 0x00, 0x10, 0x00, 0x00],
    ];
    let runs = [run(32, 8, 0x0), run(40, 8, 0x7), run(48, 16, 0x0)];
    check(&rt, &bytes, &runs, 24);
}

#[test]
fn the_longest_run_of_zeros(rt: HostRuntime) {
    let bytes = [[0xf1, 0xff, 0xfe, 0xff, 0x00, 0xff, 0xff, 0x00]];
    let runs = [run(4_294_901_745, 65_535, 0x0)];
    check(&rt, &bytes, &runs, 0);
}

#[test]
fn one_block_at_the_greatest_sets_last_row(rt: HostRuntime) {
    let bytes = [[0xef, 0xff, 0xff, 0xff, 0x00, 0x01, 0x00, 0x06]];
    let runs = [run(4_294_967_279, 1, 0x6)];
    check(&rt, &bytes, &runs, 2);
}

// The laws of runs and of bodies, which the bytes above are examples of.
#[test]
fn laws() {
    runs_law();
    body_law();
}
