//! A missing slot gets a device, and a member that is rebuilding its rows.
#![tactic(auto)]

mod joining;
mod preparing;
mod progress;
mod replacing;
mod rows;
mod stepping;

pub use progress::Progress;
pub use replacing::replace;
pub use stepping::{rebuild_step, steps_left};
