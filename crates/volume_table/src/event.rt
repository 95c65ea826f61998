//! What a store is asked, and what it answers.

use crate::Listed;
use arrayvec::ArrayVec;
use rebuild::Progress;
use scrub::ScrubReport;
use sector_model::{Refusal, Sector};

/// The most blocks of a read or a write.
pub const MOST_BLOCKS_AT_ONCE: usize = 32;

/// The most blocks that are made zero by one call.
pub const MOST_ZEROED_AT_ONCE: u32 = 65_536;

/// A command on the volumes of a store, or on its set. Names and blocks are lent; a name may be any bytes, and whether
/// it is a good one is decided by the command.
#[derive(Clone, Copy)]
pub enum Event<'a> {
    /// A new volume of so many zero blocks.
    Create {
        name: &'a [u8],
        blocks: u32,
    },
    /// So many zero blocks more for a volume.
    Extend {
        name: &'a [u8],
        by: u32,
    },
    /// No volume of this name any more.
    Remove {
        name: &'a [u8],
    },
    /// So many blocks of a volume, from block `at` on.
    Read {
        name: &'a [u8],
        at: u32,
        count: u32,
    },
    /// These blocks in place of those of a volume from block `at` on.
    Write {
        name: &'a [u8],
        at: u32,
        blocks: &'a [Sector],
    },
    /// Another name for a volume.
    Rename {
        old: &'a [u8],
        new: &'a [u8],
    },
    /// The names of all volumes, with their numbers of blocks.
    List,
    /// The table of volumes gets version 2.
    Upgrade,
    /// A slot of the set is given up.
    Fail {
        slot: u8,
    },
    /// A missing slot of the set is given a device.
    Replace {
        slot: u8,
    },
    /// So many rows more of the rebuilding member: 64 at most, or 4,096 in a set of format 2.
    RebuildStep {
        rows: u64,
    },
    /// The rows of the set are looked at.
    Scrub,
    /// So many rows of the set are looked at, from row `first` on.
    ScrubRows {
        first: u64,
        rows: u64,
    },
}

/// What an event is answered.
#[derive(Drop)]
pub enum Reply {
    /// It was done.
    Done,
    /// The blocks that were read, 1 to 32.
    Blocks(ArrayVec<Sector, MOST_BLOCKS_AT_ONCE>),
    /// All volumes, in rising byte order of names.
    Volumes(Vec<Listed>),
    /// How far the rebuild is.
    Progress(Progress),
    /// What was found in the rows of the set, or of a part of it.
    Scrubbed(ScrubReport),
    /// It was refused.
    Refused(Refusal),
}
