//! How far a rebuild is.

/// How far a rebuild is: what a step answers.
#[derive(Clone, Copy, Debug, PartialEq, Eq)]
pub enum Progress {
    /// The rows below this one are rebuilt, and not all rows of the set.
    Position(u64),
    /// All rows are rebuilt: the member is in sync, and the set complete.
    Complete,
}
