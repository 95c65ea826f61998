//! The stripe journal: seals of entries and the bodies beside them, and which entry is the last.
#![tactic(auto)]

mod codec;
mod copying;
mod counting;
mod entry;
mod form;
mod half;
mod law;
pub mod oracle;
mod reading;
mod seal;
mod writing;

pub use codec::{seal_decode, seal_encode};
pub use copying::copy_entry;
pub use entry::{Entry, EntryView};
pub use form::Form;
pub use half::half_start;
pub use law::{entry_law, seal_law};
pub use reading::last_sealed;
pub use seal::Seal;
pub use writing::{write_body, write_seal};

#[cfg(test)]
mod testing;
#[cfg(test)]
mod tests;
