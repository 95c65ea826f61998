//! The formats of a set, and what each decides.
ghost use Rattle.std.specs.Prelude.{◌≡◌};
ghost use Rattle.layout_map.specs.Formats.{body_sectors, is_chunk_size, journal_sectors};
ghost use Rattle.layout_map.specs.Formats.{rebuild_rows, stripes_limit};

use crate::sizes::{
    BODY_SECTORS, FIRST_BODY, HALVES, LARGE_BODY_SECTORS, LARGE_REBUILD_ROWS, REBUILD_ROWS,
};

/// The format of a set: what decides its limits. It is part of the set's geometry.
#[derive(Clone, Copy, Debug, PartialEq, Eq)]
pub enum Format {
    /// Format 1, of up to 8,388,608 rows.
    One,
    /// Format 2, of up to 4,294,967,280 rows: a large set.
    Two,
}

impl Format {
    /// Whether a chunk of a set may have so many sectors: 8, 16, 32, 64 or 128, in format 2 also 256, 512 or 1,024.
    pub fn is_chunk(self, chunk: u16) -> bool
        ensures { result ≡ is_chunk_size self chunk }
    {
        match self {
            Format::One => matches!(chunk, 8 | 16 | 32 | 64 | 128),
            Format::Two => matches!(chunk, 8 | 16 | 32 | 64 | 128 | 256 | 512 | 1024),
        }
    }

    /// The most stripes of a set: 65,536, or in format 2 as many as their number has room for. There, it is the rows
    /// that limit them.
    pub fn most_stripes(self) -> u32
        ensures { result ≡ stripes_limit self }
    {
        match self {
            Format::One => 65_536,
            Format::Two => u32::MAX,
        }
    }

    /// The sectors of the body of each half of a journal: 256, or 4,096 in format 2.
    pub fn body_sectors(self) -> u32
        ensures { result ≡ body_sectors self }
    {
        match self {
            Format::One => BODY_SECTORS,
            Format::Two => LARGE_BODY_SECTORS,
        }
    }

    /// The least sectors of a journal, since its bodies end there: 520, or 8,200 in format 2.
    pub fn journal_sectors(self) -> u32
        ensures { result ≡ journal_sectors self }
    {
        FIRST_BODY + HALVES * self.body_sectors()
    }

    /// The rows of a step of a rebuild: 64, or 4,096 in format 2.
    pub fn rebuild_rows(self) -> u64
        ensures { result ≡ rebuild_rows self }
    {
        match self {
            Format::One => REBUILD_ROWS,
            Format::Two => LARGE_REBUILD_ROWS,
        }
    }
}
