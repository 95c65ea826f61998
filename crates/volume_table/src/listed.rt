//! A volume in a list of volumes.

use extents::Name;

/// A volume's name, and how many blocks it has.
#[derive(Drop)]
pub struct Listed {
    /// The name.
    pub name: Name,
    /// The number of blocks, from 1 to the most blocks of the set (65,536 in a set of format 1).
    pub blocks: u32,
}
