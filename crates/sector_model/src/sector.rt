//! Sectors, and what a device call answers when it fails.

/// The 512 bytes of a sector. A sector lands whole.
pub type Sector = [u8; 512];

/// The device answers no more in this run.
#[derive(Clone, Copy, Debug, PartialEq, Eq)]
pub struct Down;

/// Why a row of device calls ended before its last call.
#[derive(Clone, Copy, Debug, PartialEq, Eq)]
pub enum Stop {
    /// This device went down, or was down already.
    Down(u8),
    /// The count of device calls stands at 2^62, so no further call was made.
    Worn,
}
