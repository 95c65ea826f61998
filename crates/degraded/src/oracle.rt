//! The values of one row by their definition, plain and slow. Tests compare with them, and nothing else uses them.

mod sources;
mod values;

pub use self::sources::RowSources;
