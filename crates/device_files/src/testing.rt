//! What this crate's tests compare values with, and a writer that fails in the middle.

use std::fmt::Debug;
use std::io::{self, ErrorKind, Write};
use std::process::Abort;

/// Where a file takes all that it is given, and a writer never fails.
pub(crate) const WHOLE: usize = usize::MAX;

/// Ends the test where `got` is not `want`. As a call it leaves the test a fraction of what `assert_eq!` would
/// put into it, and so of the time that the test is checked in.
pub(crate) fn same<T: PartialEq + Debug + Drop>(rt: &impl Abort, got: T, want: T) {
    assert_eq!(rt; got, want);
}

/// Takes so many bytes, and then fails. It can't be flushed.
#[derive(Drop)]
pub(crate) struct Full {
    pub(crate) text: Vec<u8>,
    pub(crate) room: usize,
}

impl Write for Full {
    fn write(&mut self, buf: &[u8]) -> io::Result<usize> {
        let count = buf.len().min(self.room);
        if count == 0 {
            return Err(io::Error::from(ErrorKind::BrokenPipe));
        }
        self.text.extend_from_slice(&buf[..count])?;
        self.room -= count;
        Ok(count)
    }

    fn flush(&mut self) -> io::Result<()> {
        Err(io::Error::from(ErrorKind::Unsupported))
    }
}
