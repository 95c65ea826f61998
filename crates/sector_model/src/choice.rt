//! Which image a crash is taken to leave.

/// Which of the values that a crash may leave in a sector is taken. The candidates of a sector are its safe
/// value, which is that of the device's last good flush, and the values written to it since, in order. The
/// value of a write at which the device went down is among them, unless the write found the log full.
#[derive(Clone, Copy)]
pub enum Choice {
    /// The first candidate: nothing written since the last good flush has landed.
    Oldest,
    /// The last candidate: all that was written has landed.
    Newest,
    /// Of k candidates, counted from 0, number `(m + 7*dev + at) mod k` of sector `at` of device `dev`.
    Mixed(u64),
}
