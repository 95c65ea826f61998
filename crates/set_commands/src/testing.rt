//! What this crate's tests share: the id of their sets, and the texts of long scripts.

pub(crate) mod streams;

use std::fmt::Debug;
use std::process::Abort;

/// The id of each set.
pub(crate) const ID: [u8; 16] = [0, 1, 2, 3, 4, 5, 6, 7, 8, 9, 10, 11, 12, 13, 14, 15];

/// Ends the test where `got` is not `want`. As a call it leaves the test a fraction of what `assert_eq!` would
/// put into it, and so of the time that the test is checked in.
pub(crate) fn same<T: PartialEq + Debug + Drop>(rt: &impl Abort, got: T, want: T) {
    assert_eq!(rt; got, want);
}

/// A text of these parts, each so many times.
pub(crate) fn joined(rt: &(impl Abort + AllocGlobal), parts: &[(&[u8], usize)]) -> Vec<u8> {
    let mut all = Vec::new(rt.alloc());
    for (part, count) in parts {
        for _ in 0..*count {
            all.extend_from_slice(part).expect(rt, "memory");
        }
    }
    all
}
