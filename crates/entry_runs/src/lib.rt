//! The rows of an entry as runs: their spelling, which sectors they hold, and where those stand in a body.
#![tactic(auto)]

mod builder;
mod checks;
mod codec;
mod law;
mod listed;
mod run;
mod runs;
mod sizes;

pub use builder::RunsBuilder;
pub use codec::{decode_runs, encode_runs};
pub use law::{body_law, runs_law};
pub use listed::ListedRow;
pub use run::{Run, bits_below, has_bit};
pub use runs::Runs;
pub use sizes::{MOST_HELD, MOST_ROWS, MOST_RUNS, RUN_BYTES, RUNS_BYTES};

#[cfg(test)]
mod tests;
