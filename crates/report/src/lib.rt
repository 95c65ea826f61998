//! What a set and its program say as text: a status, the lines of scripts, and the replies to these.
#![tactic(auto)]

mod inspection_values;
mod inspections;
mod left;
pub mod lines;
pub mod parse;
pub mod replies;
mod text;
mod value;

pub use inspection_values::examined_to_json;
pub use inspections::examined_text;
pub use text::table_text;
pub use value::to_json;

#[cfg(test)]
mod testing;
#[cfg(test)]
mod tests;
