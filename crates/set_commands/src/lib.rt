//! What the program's commands do with the set on a bank of devices, scripts over a store of volumes, and a bank that
//! shows how far a command is.
#![tactic(auto)]

mod law;
mod progress;
mod script;
mod serving;

pub use law::{headline_of_the_program, law_of_invocations, law_of_scripts};
pub use progress::{Left, Meter, ProgressBank, Speed, average_speed, in_words, percent, time_left};
pub use script::run_script;
pub use serving::fresh::serve_fresh;
pub use serving::{
    Health, apply_on, examine_on, open_on, rebuild_on, rebuild_rows, rebuild_with_progress,
    scrub_with_progress, serve_on, tell_on,
};

#[cfg(test)]
mod testing;
#[cfg(test)]
mod tests;
