//! Logical sectors that are written together, by one entry: where they lie, the rows that change, and a batch of them.
//! And whole rows, or single sectors, that one entry makes zero.
#![tactic(auto)]

mod batch;
mod placed;
mod places;
mod planning;
mod staging;
mod zero_rows;
mod zero_sectors;

pub use batch::{Batch, MOST_AT_ONCE};
pub use placed::Placed;
pub use places::{MOST_PLACES, Places};
pub use planning::plan_rows;
pub use zero_rows::ZeroRows;
pub use zero_sectors::ZeroSectors;

#[cfg(test)]
mod tests;
