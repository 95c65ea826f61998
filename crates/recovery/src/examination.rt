//! What an inspection of a set finds.
ghost use Rattle.std.specs.Prelude.{◌≡◌, ◌≤◌, ◌<◌, ◌+◌, length};

use superblock::Table;

/// Whether a slot has a device that can be one of the set.
#[derive(Clone, Copy, Debug, PartialEq, Eq)]
pub enum Presence {
    /// It has none, or one that is down.
    Absent,
    /// Its device has fewer sectors than the set needs there.
    TooShort,
    /// Its device is up and long enough.
    There,
}

/// What a slot's device is to the set's table.
#[derive(Clone, Copy, Debug, PartialEq, Eq)]
pub enum Standing {
    /// It is live and in sync.
    Live,
    /// It is live, and this many of its rows count.
    Rebuilding(u64),
    /// The table does without the slot, whatever device is there.
    CalledMissing,
    /// There is no device, or it is too short.
    NotThere,
    /// No superblock of the set counts there.
    NoSuperblock,
    /// Its newest superblock is older than the table, and of another incarnation.
    OlderGeneration,
    /// Its newest superblock is as new as the table, and of a lower incarnation.
    LowerIncarnation,
    /// Its newest superblock is as new as the table, and of a higher incarnation.
    HigherIncarnation,
}

/// What an inspection finds in a slot.
#[derive(Clone, Copy, Debug, PartialEq, Eq)]
pub struct ExaminedSlot {
    /// Whether its device is there.
    pub presence: Presence,
    /// The generation of the newest superblock of the set that counts there, 0 where none does.
    pub generation: u64,
    /// The incarnation of the slot by that superblock, 0 where none counts.
    pub incarnation: u64,
    /// What it is to the table.
    pub standing: Standing,
}

/// What assembling the set would do now.
#[derive(Clone, Copy, Debug, PartialEq, Eq)]
pub enum Outlook {
    /// Assemble it, with each slot in sync.
    Complete,
    /// Assemble it without this slot, which the table calls missing already.
    Missing(u8),
    /// Assemble it with this slot rebuilding, of which this many rows count.
    Rebuilding(u8, u64),
    /// Mark this slot missing, and assemble it without that.
    WouldMark(u8),
    /// Refuse it with 15: two slots are not there, or not in sync.
    TwoLost,
}

/// What an inspection of a set finds.
#[derive(Clone, Copy)]
pub struct Examined {
    /// The table that its superblocks choose.
    pub table: Table,
    /// What each slot of the set has; after the second journal nothing is read.
    pub slots: [ExaminedSlot; 10],
    /// The number of the last entry of each journal, 0 where it has none; `None` where its seals can't be read.
    pub last: [Option<u64>; 2],
    /// What assembling it would do now.
    pub outlook: Outlook,
}
