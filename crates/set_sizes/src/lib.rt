//! The room of a set for volumes, and the set that a wished room or the devices' sizes ask for.
#![tactic(auto)]

mod choice;
mod rooms;

pub use choice::{least_for, most_for};
pub use rooms::{room, unused};

#[cfg(test)]
mod tests;
