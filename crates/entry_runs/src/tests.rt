//! Runs byte by byte, and what they hold.
use super::*;
use std::fmt::Debug;
use std::process::Abort;

mod body;
mod built;
mod edges;
mod refused;
mod spelled;

// Ends the test where `got` is not `want`.
fn same<T: PartialEq + Debug + Drop>(rt: &impl Abort, got: T, want: T) {
    assert_eq!(rt; got, want);
}

// Rows from one on, as many, with this mask.
fn run(first: u32, length: u16, mask: u8) -> Run {
    Run {
        first,
        length,
        mask,
    }
}

// The bytes of a run whose first row may be 2^32 or more.
fn bytes_of(first: u64, length: u16, mask: u8) -> [u8; 8] {
    let first = first.to_le_bytes();
    let length = length.to_le_bytes();
    [
        first[0], first[1], first[2], first[3], first[4], length[0], length[1], mask,
    ]
}

// The bytes of these runs, and zeros after them.
fn bytes_with(rt: &impl Abort, runs: &[[u8; 8]]) -> [u8; RUNS_BYTES] {
    let mut bytes = [0; RUNS_BYTES];
    for number in 0..runs.len() {
        assert!(rt; number < MOST_RUNS);
        bytes[8 * number..8 * number + 8].copy_from_slice(&runs[number]);
    }
    bytes
}

// The runs that these bytes spell.
fn decoded(rt: &impl Abort, bytes: &[u8; RUNS_BYTES], count: u32) -> Runs {
    decode_runs(bytes, count).expect(rt, "the bytes are runs")
}

// The runs that are spelled with these bytes each.
fn runs_of(rt: &impl Abort, runs: &[[u8; 8]]) -> Runs {
    let count = runs.len();
    assert!(rt; count <= MOST_RUNS);
    decoded(rt, &bytes_with(rt, runs), count as u32)
}

// The bytes of 58 runs of one row with members 0 and 1: rows 0, 3, 6 .. 171.
fn each_third() -> [u8; RUNS_BYTES] {
    let mut bytes = [0; RUNS_BYTES];
    for number in 0..MOST_RUNS {
        bytes[8 * number] = 3 * number as u8;
        bytes[8 * number + 5] = 1;
        bytes[8 * number + 7] = 3;
    }
    bytes
}
