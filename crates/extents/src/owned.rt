//! Who has an extent.

/// The volume that has an extent, and which of the volume's extents it is.
#[derive(Clone, Copy, Debug, PartialEq, Eq)]
pub struct Owned {
    /// The number of the volume's record, from 0.
    pub volume: u8,
    /// The extent's place in the volume, from 0: it has the volume's blocks from 64 times this on.
    pub place: u16,
}
