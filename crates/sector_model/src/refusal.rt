//! The refusals of all crates.
ghost use Rattle.std.specs.Prelude.{◌≡◌, Some};
ghost use Rattle.sector_model.specs.Refusals.{number_of, name_of, text_of};

use std::alloc::AllocError;
use std::fmt;
use thiserror::Error;

/// Why a call did nothing, or gave up. Numbers and names are those of docs/FORMATS.md, "Refusals".
#[derive(Clone, Copy, Debug, PartialEq, Eq, Drop, Error)]
pub enum Refusal {
    BadName,
    BadSize,
    Exists,
    TooManyVolumes,
    NoSpace,
    NoVolume,
    BadCount,
    OutOfRange,
    WouldLose,
    NotMissing,
    NotUsable,
    NothingToRebuild,
    Incomplete,
    Memory,
    TwoLost,
    Worn,
    NoSet,
    BadTable,
    BadGeometry,
    BadLine,
    ReadFault,
    WriteFault,
}

impl Refusal {
    /// The number of the refusal, 1 to 22.
    pub fn number(&self) -> u8
        ensures { result ≡ number_of self.now }
    {
        match self {
            Refusal::BadName => 1,
            Refusal::BadSize => 2,
            Refusal::Exists => 3,
            Refusal::TooManyVolumes => 4,
            Refusal::NoSpace => 5,
            Refusal::NoVolume => 6,
            Refusal::BadCount => 7,
            Refusal::OutOfRange => 8,
            Refusal::WouldLose => 9,
            Refusal::NotMissing => 10,
            Refusal::NotUsable => 11,
            Refusal::NothingToRebuild => 12,
            Refusal::Incomplete => 13,
            Refusal::Memory => 14,
            Refusal::TwoLost => 15,
            Refusal::Worn => 16,
            Refusal::NoSet => 17,
            Refusal::BadTable => 18,
            Refusal::BadGeometry => 19,
            Refusal::BadLine => 20,
            Refusal::ReadFault => 21,
            Refusal::WriteFault => 22,
        }
    }

    /// The name of the refusal, as replies and errors print it.
    pub fn name(&self) -> &'static str
        ensures { result.now ≡ name_of self.now }
    {
        match self {
            Refusal::BadName => "BadName",
            Refusal::BadSize => "BadSize",
            Refusal::Exists => "Exists",
            Refusal::TooManyVolumes => "TooManyVolumes",
            Refusal::NoSpace => "NoSpace",
            Refusal::NoVolume => "NoVolume",
            Refusal::BadCount => "BadCount",
            Refusal::OutOfRange => "OutOfRange",
            Refusal::WouldLose => "WouldLose",
            Refusal::NotMissing => "NotMissing",
            Refusal::NotUsable => "NotUsable",
            Refusal::NothingToRebuild => "NothingToRebuild",
            Refusal::Incomplete => "Incomplete",
            Refusal::Memory => "Memory",
            Refusal::TwoLost => "TwoLost",
            Refusal::Worn => "Worn",
            Refusal::NoSet => "NoSet",
            Refusal::BadTable => "BadTable",
            Refusal::BadGeometry => "BadGeometry",
            Refusal::BadLine => "BadLine",
            Refusal::ReadFault => "ReadFault",
            Refusal::WriteFault => "WriteFault",
        }
    }

    /// What the refusal says, in words: what `Display` shows.
    pub fn text(&self) -> &'static str
        ensures { result.now ≡ text_of self.now }
    {
        match self {
            Refusal::BadName => {
                "the name is not 1 to 24 (63 in a table of version 2) of a-z, 0-9, - and _, beginning with a letter"
            }
            Refusal::BadSize => {
                "the blocks or the growth is 0, or the volume would exceed 65536 blocks"
            }
            Refusal::Exists => "a volume has this name",
            Refusal::TooManyVolumes => "32 volumes (64 in a table of version 2) are there",
            Refusal::NoSpace => "the volumes would need more extents than there are",
            Refusal::NoVolume => "no volume has this name",
            Refusal::BadCount => "the number of blocks is 0 or above 32",
            Refusal::OutOfRange => "the blocks reach past the end of the volume",
            Refusal::WouldLose => "another slot is not in sync",
            Refusal::NotMissing => "the number is no slot of the set, or the slot is not missing",
            Refusal::NotUsable => "the device is down or too short",
            Refusal::NothingToRebuild => "no member is rebuilding",
            Refusal::Incomplete => "the set is not complete",
            Refusal::Memory => "an allocation was refused",
            Refusal::TwoLost => "two slots are lost",
            Refusal::Worn => "a counter stands at 2^62",
            Refusal::NoSet => "no valid superblock of the set is found",
            Refusal::BadTable => "the reserved sectors hold no volume table",
            Refusal::BadGeometry => {
                "the geometry is outside the limits, or the bank has too few slots"
            }
            Refusal::BadLine => "the line is not of the grammar",
            Refusal::ReadFault => "the script could not be read",
            Refusal::WriteFault => "the reply could not be written",
        }
    }
}

impl fmt::Display for Refusal {
    ghost output = { λ refusal. Some (text_of refusal) };

    fn fmt<W: fmt::Write>(&self, f: &mut fmt::Formatter<W>) -> fmt::Result {
        f.write_str(self.text())
    }
}

impl From<AllocError> for Refusal {
    ghost use Rattle.sector_model.specs.declared.refusal.Refusal.TheVariants.{Memory};

    ghost from_gives = { λ _ refusal. refusal ≡ Memory };

    fn from(_: AllocError) -> Refusal {
        Refusal::Memory
    }
}

#[cfg(test)]
mod tests;
