//! The table of a set, and the superblock that carries it: its rules, its one spelling, and which of several counts.
#![tactic(auto)]

mod chosen;
mod codec;
mod counting;
mod fields;
mod law;
mod lengths;
mod marks;
pub mod oracle;
mod publishing;
mod rules;
mod state;
mod table;

pub use chosen::choose;
pub use codec::{decode, encode};
pub use counting::{counted, newer};
pub use law::superblock_law;
pub use lengths::least_of;
pub use publishing::{own_sector, publish};
pub use state::State;
pub use table::{Superblock, Table};

#[cfg(test)]
mod testing;
#[cfg(test)]
mod tests;
