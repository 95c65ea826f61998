//! What this crate's tests compare values with.

use sector_model::Sector;
use std::fmt::Debug;
use std::process::Abort;

/// Ends the test where `got` is not `want`. As a call it leaves the test a fraction of what `assert_eq!` would
/// put into it, and so of the time that the test is checked in.
pub(crate) fn same<T: PartialEq + Debug + Drop>(rt: &impl Abort, got: T, want: T) {
    assert_eq!(rt; got, want);
}

/// A sector of one byte.
pub(crate) fn all(byte: u8) -> Sector {
    [byte; 512]
}
