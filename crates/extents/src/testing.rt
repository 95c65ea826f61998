//! What this crate's tests compare values with.

ghost use Rattle.std.specs.Prelude.{◌≡◌, ◌≤◌};

use crate::ExtentLayout;
use layout_map::Format;
use std::fmt::Debug;
use std::process::Abort;

/// Ends the test where `got` is not `want`. As a call it leaves the test a fraction of what `assert_eq!` would
/// put into it, and so of the time that the test is checked in.
pub(crate) fn same<T: PartialEq + Debug + Drop>(rt: &impl Abort, got: T, want: T) {
    assert_eq!(rt; got, want);
}

/// So many extents, at most 1,024, of 64 blocks each, from sector 64 on: those of a set of format 1.
pub(crate) fn extents_of_64(count: u32) -> ExtentLayout
    requires { count ≤ 1024 }
    ensures { result.count ≡ count }
{
    ExtentLayout {
        format: Format::One,
        first: 64,
        blocks: 64,
        count,
    }
}
