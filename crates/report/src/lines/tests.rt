//! Readers that show few bytes at a time, and ones that fail.
use super::{LONGEST_LINE, next_line};
use crate::testing::same;
use sector_model::Refusal;
use std::io::{self, BufRead, ErrorKind, Read};
use std::process::Abort;

// Shows at most `step` bytes of a script at a time, is interrupted before each time,
// and fails once `left` bytes were taken.
#[derive(Drop)]
struct Pieces<'a> {
    script: &'a [u8],
    step: usize,
    left: usize,
    was_interrupted: bool,
}

impl<'a> Pieces<'a> {
    fn new(script: &'a [u8], step: usize, left: usize) -> Pieces<'a> {
        Pieces {
            script,
            step,
            left,
            was_interrupted: false,
        }
    }
}

impl Read for Pieces<'_> {
    fn read(&mut self, _buf: &mut [u8]) -> io::Result<usize> {
        Ok(0)
    }
}

impl BufRead for Pieces<'_> {
    fn fill_buf(&mut self) -> io::Result<&[u8]> {
        self.was_interrupted = !self.was_interrupted;
        if self.was_interrupted {
            return Err(io::Error::from(ErrorKind::Interrupted));
        }
        if self.left == 0 {
            return Err(io::Error::from(ErrorKind::BrokenPipe));
        }
        let shown = self.script.len().min(self.step).min(self.left);
        Ok(&self.script[..shown])
    }

    fn consume(&mut self, amount: usize) {
        let amount = amount.min(self.script.len());
        self.script = &self.script[amount..];
        self.left = self.left.saturating_sub(amount);
    }
}

const NEVER: usize = usize::MAX;

const STEPS: [usize; 4] = [1, 7, 4_096, NEVER];

// The reader gives these lines.
fn gives_first<R: BufRead>(rt: &impl Abort, reader: &mut R, line: &mut Vec<u8>, lines: &[&[u8]]) {
    for wanted in lines {
        assert!(rt; line.capacity() == LONGEST_LINE + 1);
        same(rt, next_line(reader, line), Ok(true));
        same(rt, line.as_slice(), *wanted);
    }
}

// A place for a line.
fn room(rt: &(impl Abort + AllocGlobal)) -> Vec<u8> {
    Vec::with_capacity(rt.alloc(), LONGEST_LINE + 1).expect(rt, "memory")
}

// The reader gives these lines and no more.
fn gives<R: BufRead>(rt: &(impl Abort + AllocGlobal), reader: &mut R, lines: &[&[u8]]) {
    let mut line = room(rt);
    gives_first(rt, reader, &mut line, lines);
    assert!(rt; line.capacity() == LONGEST_LINE + 1);
    same(rt, next_line(reader, &mut line), Ok(false));
    same(rt, line.len(), 0);
}

// The script gives these lines and no more, however few bytes are shown at a time.
fn gives_in_steps(rt: &(impl Abort + AllocGlobal), script: &[u8], lines: &[&[u8]]) {
    for step in STEPS {
        gives(rt, &mut Pieces::new(script, step, NEVER), lines);
    }
}

const SCRIPTS: &[(&[u8], &[&[u8]])] = &[
    (b"", &[]),
    (b"\n", &[b""]),
    (b"\n\n", &[b"", b""]),
    (b"list\n", &[b"list"]),
    (b"list", &[b"list"]),
    (
        b"list\n\nread a 0 1\nlist",
        &[b"list", b"", b"read a 0 1", b"list"],
    ),
    (b"a\r\n b \n\x00", &[b"a\r", b" b ", b"\x00"]),
];

#[test]
fn ends_each_line_at_its_end(rt: HostRuntime) {
    for (script, lines) in SCRIPTS {
        gives_in_steps(&rt, script, lines);
        let mut rest = *script;
        gives(&rt, &mut rest, lines);
    }
}

// So many bytes `x`.
fn long(rt: &(impl Abort + AllocGlobal), length: usize) -> Vec<u8> {
    vec![in rt.alloc(); b'x'; length].expect(rt, "memory")
}

// Of a line of so many bytes so many are kept, also where another follows.
fn keeps(rt: &(impl Abort + AllocGlobal), length: usize, kept: usize) {
    let mut script = long(rt, length);
    let first = long(rt, kept);
    let mut reader = Pieces::new(&script, 4_096, NEVER);
    gives(rt, &mut reader, &[&first]);
    script.extend_from_slice(b"\nlist\n").expect(rt, "memory");
    gives_in_steps(rt, &script, &[&first, b"list"]);
}

// The lengths of lines, and how many bytes of them are kept.
const LENGTHS: &[(usize, usize)] = &[
    (65_534, 65_534),
    (65_535, 65_535),
    (65_536, 65_536),
    (65_537, 65_536),
    (200_000, 65_536),
];

#[test]
fn keeps_a_beginning_of_an_overlong_line(rt: HostRuntime) {
    for (length, kept) in LENGTHS {
        keeps(&rt, *length, *kept);
    }
}

// How many lines of the script end within so many bytes.
const WHOLE: &[usize] = &[0, 0, 0, 0, 0, 1, 2, 2, 2, 2, 2, 2, 2, 2, 2, 2, 2];

const LINES: &[&[u8]] = &[b"list", b""];

// A reader that fails after so many bytes gives the lines that end before, and then the fault.
fn is_cut(rt: &(impl Abort + AllocGlobal), step: usize, left: usize, count: usize) {
    assert!(rt; count <= LINES.len());
    let mut line = room(rt);
    let mut reader = Pieces::new(b"list\n\nread a 0 1", step, left);
    gives_first(rt, &mut reader, &mut line, &LINES[..count]);
    assert!(rt; line.capacity() == LONGEST_LINE + 1);
    let fault = Err(Refusal::ReadFault);
    same(rt, next_line(&mut reader, &mut line), fault);
}

#[test]
fn gives_no_line_that_a_fault_cuts(rt: HostRuntime) {
    for step in STEPS {
        for (left, count) in WHOLE.iter().enumerate() {
            is_cut(&rt, step, left, *count);
        }
    }
}
