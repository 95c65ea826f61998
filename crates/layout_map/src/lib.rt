//! Where each data sector of a set with single parity lies: the left-symmetric layout.
#![tactic(auto)]

mod format;
mod geometry;
mod law;
mod sizes;

pub use format::Format;
pub use geometry::{Geometry, Place};
pub use law::layout_law;
pub use sizes::{
    BODY_SECTORS, ENTRY_ROWS, EXTENT_SECTORS, FIRST_BODY, FIRST_ROW, FIRST_SEAL, HALVES,
    LARGE_BODY_SECTORS, LARGE_REBUILD_ROWS, MOST_EXTENTS, MOST_MEMBERS, REBUILD_ROWS,
    RESERVED_SECTORS, SUPERBLOCK_PLACES,
};

#[cfg(test)]
mod testing;
#[cfg(test)]
mod tests;
