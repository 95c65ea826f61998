//! What an image says of a set's rows: the definitions, run over an image in memory, plain and slow. Tests compare with
//! it, and nothing else uses it.

mod image_rows;
mod last_entry;
mod one_row;
mod trusted;

pub use self::image_rows::{Reading, reading_of};
pub use self::last_entry::{LastEntry, last_entry_in};
pub use self::one_row::{is_row_sound_in, logical_in, row_sources_in, value_in};
pub use self::trusted::{is_live_at, is_trusted_in};
