//! What the words on volumes keep.
mod all_runs;
mod commands;
mod events;
mod fresh;
mod rebuilds;
mod rows;
mod run;
mod runs;
mod safe;
mod set;
mod shown;
mod zeroing;

pub use all_runs::headline;
pub use commands::law_of_commands;
pub use events::law_of_events;
pub use fresh::fresh_set_has_no_volume;
pub use rebuilds::rebuilds_end;
pub use rows::worked_rows;
pub use run::volumes_after_a_run;
pub use runs::volumes_after_a_start;
pub use safe::safe_and_total;
pub use set::law_of_set_commands;
pub use shown::law_of_shown_volumes;
pub use zeroing::law_of_zeroing;
