//! The lines that a server of blocks reads, and the blocks that follow them.
#![tactic(auto)]

mod blocks;
mod parse;
mod words;

pub use blocks::{read_blocks, skip_blocks};
pub use parse::{Request, Stretch, a_line_demands_one_thing, parse_request};

#[cfg(test)]
mod testing;
