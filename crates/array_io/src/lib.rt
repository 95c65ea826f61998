//! A set of members and journals as a list of logical sectors that survives a crash and the loss of a device.
#![tactic(auto)]

mod array;
mod forming;
mod law;
mod liveness;
mod loading;
mod member_rows;
pub mod oracle;

pub use array::{
    Array, done_or_fail_slot, is_other_out, mark_slot, put_on_journal, put_on_members,
    value_or_fail_slot,
};
pub use law::{
    a_crash_then_a_start, a_run_begins, a_start_is_one_of, fresh_set_holds, holds_from_core,
    one_member_may_go, settled_begins, stale_counts_as_absent, tables_go_on,
};
pub use loading::load_entry;

#[cfg(test)]
mod testing;
#[cfg(test)]
mod tests;
