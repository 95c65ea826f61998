//! Where one of some logical sectors lies.

/// Where one of some logical sectors lies, and which of them it is.
#[derive(Clone, Copy, Debug, Default, PartialEq, Eq)]
pub struct Placed {
    /// The row.
    pub row: u32,
    /// The member, 0 to 7.
    pub member: u8,
    /// Which of the sectors it is, from 0 on.
    pub at: u16,
}
