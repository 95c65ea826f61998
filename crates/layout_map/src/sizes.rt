//! The numbers of the format: limits of a set, and what stands in which sectors of its devices.

/// The most members of a set, and so the sectors that an entry has room for in each of its rows.
pub const MOST_MEMBERS: u8 = 8;

/// The data sectors below the first extent: the table of volumes, and a reserve after it. In a set of format 2 as many
/// whole stripes as hold these.
pub const RESERVED_SECTORS: u64 = 64;
/// The data sectors of an extent of a set of format 1, each a block of a volume.
pub const EXTENT_SECTORS: u64 = 64;
/// The most extents that a set has, however large it is.
pub const MOST_EXTENTS: u64 = 1024;

/// The superblock places of a device, which are its first sectors.
pub const SUPERBLOCK_PLACES: u32 = 2;
/// The sector of a member that holds its row 0.
pub const FIRST_ROW: u32 = 8;

/// The halves of a journal: one for the entries with even numbers, and one for those with odd numbers.
pub const HALVES: u32 = 2;
/// The sector of a journal with the seal of half 0, after which that of half 1 stands.
pub const FIRST_SEAL: u32 = 2;
/// The sector of a journal with which the body of half 0 begins, after which that of half 1 stands.
pub const FIRST_BODY: u32 = 8;
/// The most rows of an entry.
pub const ENTRY_ROWS: usize = 32;
/// The sectors of a half's body in a set of format 1: as many as the most rows of the most members.
pub const BODY_SECTORS: u32 = 256;
/// The rows of a step of a rebuild of a set of format 1.
pub const REBUILD_ROWS: u64 = 64;

/// The sectors of a half's body in a set of format 2.
pub const LARGE_BODY_SECTORS: u32 = 4096;
/// The rows of a step of a rebuild of a set of format 2.
pub const LARGE_REBUILD_ROWS: u64 = 4096;
