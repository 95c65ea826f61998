//! Limits of requests.

/// The most blocks of one read or write.
pub const MOST_WRITTEN_AT_ONCE: usize = 2_048;

/// The most lines that one `together` announces.
pub const MOST_LINES_TOGETHER: usize = 256;
