//! The values of a set's rows: what a row says of each member, also of one whose sectors are gone.
#![tactic(auto)]

mod law;
mod live;
pub mod oracle;
mod reading;

pub use law::degraded_law;
pub use live::Live;
pub use reading::read_member;

#[cfg(test)]
mod testing;
#[cfg(test)]
mod tests;
