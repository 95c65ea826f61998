//! Finding the table of a set on its devices, making one, and assembling one after a crash.
#![tactic(auto)]

mod assembling;
mod examination;
mod examining;
mod find;
mod latest;
mod law;
mod making;
mod replaying;
mod returned;
mod set_ids;
mod stale_superblocks;
mod survey;

pub use assembling::assemble;
pub use examination::{Examined, ExaminedSlot, Outlook, Presence, Standing};
pub use examining::examine;
pub use find::{chosen_table, newest_at};
pub use law::{inspection_law, outlook_law};
pub use making::make;
pub use returned::Returned;
pub use set_ids::id_above;

#[cfg(test)]
mod testing;
#[cfg(test)]
mod tests;
