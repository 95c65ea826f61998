//! Readers for this crate's tests, and what they compare values with.

use std::fmt::Debug;
use std::io::{self, BufRead, ErrorKind, Read};
use std::process::Abort;

/// Ends the test where `got` is not `want`.
pub(crate) fn same<T: PartialEq + Debug + Drop>(rt: &impl Abort, got: T, want: T) {
    assert_eq!(rt; got, want);
}

/// Shows at most `step` bytes of an input at a time, is interrupted before each time, and fails once `left`
/// bytes were taken.
#[derive(Drop)]
pub(crate) struct Pieces<'a> {
    pub(crate) input: &'a [u8],
    step: usize,
    left: usize,
    was_interrupted: bool,
}

impl<'a> Pieces<'a> {
    pub(crate) fn new(input: &'a [u8], step: usize, left: usize) -> Pieces<'a> {
        Pieces {
            input,
            step,
            left,
            was_interrupted: false,
        }
    }
}

impl Read for Pieces<'_> {
    fn read(&mut self, _buf: &mut [u8]) -> io::Result<usize> {
        Ok(0)
    }
}

impl BufRead for Pieces<'_> {
    fn fill_buf(&mut self) -> io::Result<&[u8]> {
        self.was_interrupted = !self.was_interrupted;
        if self.was_interrupted {
            return Err(io::Error::from(ErrorKind::Interrupted));
        }
        if self.left == 0 {
            return Err(io::Error::from(ErrorKind::BrokenPipe));
        }
        let shown = self.input.len().min(self.step).min(self.left);
        Ok(&self.input[..shown])
    }

    fn consume(&mut self, amount: usize) {
        let amount = amount.min(self.input.len());
        self.input = &self.input[amount..];
        self.left = self.left.saturating_sub(amount);
    }
}
