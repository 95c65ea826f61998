//! How serving ends.

/// Why a server ended without a refusal.
#[derive(Clone, Copy, Debug, PartialEq, Eq)]
pub enum Ending {
    /// All lines of the input are served.
    Input,
    /// A device is asked for, for this slot, which is missing. The reply to its line isn't written.
    Replace(u8),
}
