//! Commits to sets from which one slot is missing.
use super::entries::{Run, check_commits};

// What is committed.
static RUNS: [Run; 5] = [
    (1, 64, 1, 0x11),
    (2, 64, 8, 0x22),
    (32, 60, 1, 0x33),
    (3, 72, 8, 0x44),
    (32, 3, 3, 0x55),
];

#[test]
fn commits_without_a_slot_of_3(rt: HostRuntime) {
    for slot in 0..5 {
        check_commits(&rt, (3, 8, 8), slot, &RUNS);
    }
}

#[test]
fn commits_without_a_slot_of_5(rt: HostRuntime) {
    for slot in 0..7 {
        check_commits(&rt, (5, 8, 4), slot, &RUNS);
    }
}
