//! How many runs, rows and sectors an entry may have, and how long the spelling of runs is.

/// The most runs of an entry.
pub const MOST_RUNS: usize = 58;

/// The most rows with a mask that the runs of an entry have; rows of zeros come on top of them.
pub const MOST_ROWS: u32 = 2048;

/// The most sectors that the runs of an entry hold in its body.
pub const MOST_HELD: u32 = 4096;

/// The bytes that spell a run.
pub const RUN_BYTES: usize = 8;

/// The bytes that spell the runs of an entry: those of 58 runs.
pub const RUNS_BYTES: usize = RUN_BYTES * MOST_RUNS;
