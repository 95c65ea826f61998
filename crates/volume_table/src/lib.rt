//! The volumes of a set: what each command on them answers, and what it leaves; and the store that serves them.
#![tactic(auto)]

mod event;
mod law;
mod listed;
pub mod oracle;
mod status;
mod store;

pub use event::{Event, MOST_BLOCKS_AT_ONCE, MOST_ZEROED_AT_ONCE, Reply};
pub use law::{
    fresh_set_has_no_volume, headline, law_of_commands, law_of_events, law_of_set_commands,
    law_of_shown_volumes, law_of_zeroing, rebuilds_end, safe_and_total, volumes_after_a_run,
    volumes_after_a_start, worked_rows,
};
pub use listed::Listed;
pub use status::Status;
pub use store::Store;
