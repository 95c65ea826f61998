//! What stays true of a set between two runs. Each law stands on a function without a body: its promise is what it is
//! for.

mod between_runs;
mod device_rules;
mod first_run;
mod fresh_set;
mod later_tables;
mod lost_member;
mod run_begins;
mod small_core;
mod stale_content;

pub use between_runs::a_crash_then_a_start;
pub use device_rules::a_start_is_one_of;
pub use first_run::settled_begins;
pub use fresh_set::fresh_set_holds;
pub use later_tables::tables_go_on;
pub use lost_member::one_member_may_go;
pub use run_begins::a_run_begins;
pub use small_core::holds_from_core;
pub use stale_content::stale_counts_as_absent;
