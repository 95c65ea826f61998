//! Requests are served over a store of volumes: blocks are bytes, and writes that are sent together are committed
//! together.
#![tactic(auto)]

mod answering;
mod counts;
mod ending;
mod kinds;
mod law;
mod on_bank;
mod serving;
mod telling;
#[cfg(test)]
mod testing;
#[cfg(test)]
mod tests;
mod waiting;

pub use counts::{MOST_LINES_TOGETHER, MOST_WRITTEN_AT_ONCE};
pub use ending::Ending;
pub use law::{law_of_served_sets, law_of_serving};
pub use on_bank::{serve_replaced, serve_set, write_last};
pub use serving::serve_requests;
