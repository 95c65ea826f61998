//! Bytes and counts that are no runs of an entry.
use super::*;

// These bytes with this count spell no runs.
fn refused(rt: &impl Abort, runs: &[[u8; 8]], count: u32) {
    let bytes = bytes_with(rt, runs);
    assert!(rt; decode_runs(&bytes, count).is_none());
}

#[test]
fn count_0(rt: HostRuntime) {
    refused(&rt, &[], 0);
}

#[test]
fn count_59(rt: HostRuntime) {
    let bytes = each_third();
    assert!(rt; decode_runs(&bytes, 59).is_none());
}

#[test]
fn runs_after_the_count_are_not_zero(rt: HostRuntime) {
    refused(&rt, &[bytes_of(32, 8, 0x6), bytes_of(48, 8, 0x6)], 1);
}

#[test]
fn a_length_of_0(rt: HostRuntime) {
    refused(&rt, &[bytes_of(32, 0, 0x6)], 1);
}

#[test]
fn a_mask_of_one_bit(rt: HostRuntime) {
    refused(&rt, &[bytes_of(32, 8, 0x4)], 1);
}

#[test]
fn runs_do_not_rise(rt: HostRuntime) {
    refused(&rt, &[bytes_of(40, 8, 0x6), bytes_of(32, 8, 0x3)], 2);
}

#[test]
fn runs_overlap(rt: HostRuntime) {
    refused(&rt, &[bytes_of(32, 8, 0x6), bytes_of(39, 8, 0x3)], 2);
}

#[test]
fn runs_touch_with_one_mask(rt: HostRuntime) {
    refused(&rt, &[bytes_of(32, 4, 0x6), bytes_of(36, 4, 0x6)], 2);
}

#[test]
fn runs_of_zeros_touch(rt: HostRuntime) {
    refused(
        &rt,
        &[bytes_of(0, 65_535, 0x0), bytes_of(65_535, 1, 0x0)],
        2,
    );
}

#[test]
fn a_row_at_2_32_of_two(rt: HostRuntime) {
    refused(&rt, &[bytes_of(4_294_967_295, 2, 0x3)], 1);
}

#[test]
fn a_first_row_of_2_32(rt: HostRuntime) {
    refused(&rt, &[[0x00, 0x00, 0x00, 0x00, 0x01, 0x01, 0x00, 0x00]], 1);
}

#[test]
fn rows_2049_with_a_mask(rt: HostRuntime) {
    refused(&rt, &[bytes_of(0, 2048, 0x3), bytes_of(4096, 1, 0x3)], 2);
}

#[test]
fn held_sectors_4098(rt: HostRuntime) {
    refused(&rt, &[bytes_of(0, 512, 0xff), bytes_of(4096, 1, 0x3)], 2);
}

#[test]
fn held_sectors_4097(rt: HostRuntime) {
    refused(&rt, &[bytes_of(0, 1365, 0x7), bytes_of(4096, 1, 0x3)], 2);
}
