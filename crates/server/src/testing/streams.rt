//! Readers and writers that fail in the middle.
use std::io::{self, BufRead, ErrorKind, Read, Write};

/// Where a reader or a writer never fails.
pub(crate) const WHOLE: usize = usize::MAX;

/// Gives a script, at most `step` bytes at a time, and fails once `left` bytes were taken.
#[derive(Drop)]
pub(crate) struct Script<'a> {
    pub(crate) text: &'a [u8],
    pub(crate) left: usize,
    pub(crate) step: usize,
}

impl<'a> Script<'a> {
    /// A script that is given whole, or byte by byte up to where the reader fails.
    pub(crate) fn new(text: &'a [u8], left: usize) -> Script<'a> {
        let step = if left == WHOLE { WHOLE } else { 1 };
        Script { text, left, step }
    }
}

impl Read for Script<'_> {
    fn read(&mut self, _buf: &mut [u8]) -> io::Result<usize> {
        Ok(0)
    }
}

impl BufRead for Script<'_> {
    fn fill_buf(&mut self) -> io::Result<&[u8]> {
        if self.left == 0 {
            return Err(io::Error::from(ErrorKind::BrokenPipe));
        }
        Ok(&self.text[..self.text.len().min(self.step)])
    }

    fn consume(&mut self, amount: usize) {
        let amount = amount.min(self.text.len());
        self.text = &self.text[amount..];
        self.left = self.left.saturating_sub(amount);
    }
}

/// Takes so many bytes, and then fails. It can't be flushed.
#[derive(Drop)]
pub(crate) struct Full {
    pub(crate) text: Vec<u8>,
    pub(crate) room: usize,
}

impl Write for Full {
    fn write(&mut self, buf: &[u8]) -> io::Result<usize> {
        let count = buf.len().min(self.room);
        if count == 0 {
            return Err(io::Error::from(ErrorKind::BrokenPipe));
        }
        self.text.extend_from_slice(&buf[..count])?;
        self.room -= count;
        Ok(count)
    }

    fn flush(&mut self) -> io::Result<()> {
        Err(io::Error::from(ErrorKind::Unsupported))
    }
}
