//! The texts of replies, and writers that take few bytes at a time or fail.
mod set;

use super::{Answer, write_reply};
use crate::testing::same;
use extents::Name;
use sector_model::{Refusal, Sector};
use std::alloc::Global;
use std::io::{self, ErrorKind, Write};
use std::process::Abort;
use volume_table::Listed;

// What a writer does once it has no room.
#[derive(Clone, Copy, PartialEq, Eq)]
enum Full {
    Fails,
    TakesNothing,
}

// Takes at most `step` bytes a call, is interrupted before each call, and is full at `room` bytes.
#[derive(Drop)]
struct Narrow {
    text: Vec<u8>,
    step: usize,
    room: usize,
    full: Full,
    was_interrupted: bool,
    flushes: u8,
}

impl Narrow {
    fn new(alloc: Global, step: usize, room: usize, full: Full) -> Narrow {
        Narrow {
            text: Vec::new(alloc),
            step,
            room,
            full,
            was_interrupted: false,
            flushes: 0,
        }
    }
}

impl Write for Narrow {
    fn write(&mut self, buf: &[u8]) -> io::Result<usize> {
        self.was_interrupted = !self.was_interrupted;
        if self.was_interrupted {
            return Err(io::Error::from(ErrorKind::Interrupted));
        }
        let count = buf.len().min(self.step).min(self.room);
        if count == 0 && self.full == Full::Fails {
            return Err(io::Error::from(ErrorKind::BrokenPipe));
        }
        self.text.extend_from_slice(&buf[..count])?;
        self.room -= count;
        Ok(count)
    }

    fn flush(&mut self) -> io::Result<()> {
        self.flushes = self.flushes.saturating_add(1);
        Ok(())
    }
}

const NEVER: usize = usize::MAX;

// The answer has this text, whatever a writer takes a call, and no writer is flushed.
fn is_written(rt: &(impl Abort + AllocGlobal), answer: &Answer<'_>, text: &[u8]) {
    let mut whole = Vec::new(rt.alloc());
    same(rt, write_reply(&mut whole, answer), Ok(()));
    same(rt, whole.as_slice(), text);
    for step in [1, 7, NEVER] {
        is_written_in_steps(rt, answer, text, step);
    }
}

fn is_written_in_steps(
    rt: &(impl Abort + AllocGlobal),
    answer: &Answer<'_>,
    text: &[u8],
    step: usize,
) {
    let mut writer = Narrow::new(rt.alloc(), step, NEVER, Full::Fails);
    same(rt, write_reply(&mut writer, answer), Ok(()));
    same(rt, writer.text.as_slice(), text);
    same(rt, writer.flushes, 0);
}

// A writer that is full after so many bytes holds so many of the text, and the answer is refused.
fn is_cut(rt: &(impl Abort + AllocGlobal), answer: &Answer<'_>, text: &[u8]) {
    for full in [Full::Fails, Full::TakesNothing] {
        for room in 0..text.len() {
            is_cut_at(rt, answer, &text[..room], full);
        }
        let mut writer = Narrow::new(rt.alloc(), 5, text.len(), full);
        same(rt, write_reply(&mut writer, answer), Ok(()));
    }
}

fn is_cut_at(rt: &(impl Abort + AllocGlobal), answer: &Answer<'_>, part: &[u8], full: Full) {
    let mut writer = Narrow::new(rt.alloc(), 5, part.len(), full);
    let fault = Err(Refusal::WriteFault);
    same(rt, write_reply(&mut writer, answer), fault);
    same(rt, writer.text.as_slice(), part);
}

// The text of an answer, which is also refused where it is cut.
fn has_text(rt: &(impl Abort + AllocGlobal), answer: &Answer<'_>, text: &[u8]) {
    is_written(rt, answer, text);
    is_cut(rt, answer, text);
}

// A block of these two bytes in turn.
fn striped(first: u8, second: u8) -> Sector {
    let mut block = [first; 512];
    for at in 0..256 {
        block[2 * at + 1] = second;
    }
    block
}

// These texts, each so many times.
fn joined(rt: &(impl Abort + AllocGlobal), parts: &[(&str, usize)]) -> Vec<u8> {
    let mut all = Vec::new(rt.alloc());
    for (text, count) in parts {
        for _ in 0..*count {
            all.extend_from_slice(text.as_bytes()).expect(rt, "memory");
        }
    }
    all
}

// Takes each call whole, and notes where it ended.
#[derive(Drop)]
struct Noted {
    text: Vec<u8>,
    ends: Vec<usize>,
}

impl Write for Noted {
    fn write(&mut self, buf: &[u8]) -> io::Result<usize> {
        self.text.extend_from_slice(buf)?;
        self.ends.push(self.text.len())?;
        Ok(buf.len())
    }

    fn flush(&mut self) -> io::Result<()> {
        Ok(())
    }
}

// Where the lines of a text end.
fn line_ends(rt: &(impl Abort + AllocGlobal), text: &[u8]) -> Vec<usize> {
    let mut ends = Vec::new(rt.alloc());
    for (at, byte) in text.iter().enumerate() {
        if *byte == b'\n' {
            ends.push(at + 1).expect(rt, "memory");
        }
    }
    ends
}

// Each line of the answer is written in one call.
fn is_written_by_lines(rt: &(impl Abort + AllocGlobal), answer: &Answer<'_>) {
    let mut writer = Noted {
        text: Vec::new(rt.alloc()),
        ends: Vec::new(rt.alloc()),
    };
    same(rt, write_reply(&mut writer, answer), Ok(()));
    let ends = line_ends(rt, &writer.text);
    same(rt, writer.ends.as_slice(), ends.as_slice());
}

// A block of zeros, one of two bytes, and one of another byte.
fn blocks() -> [Sector; 3] {
    [[0; 512], striped(0x01, 0xef), [0xff; 512]]
}

#[test]
fn writes_a_line_in_one_call(rt: HostRuntime) {
    is_written_by_lines(&rt, &Answer::Done);
    is_written_by_lines(&rt, &Answer::Refused(Refusal::NothingToRebuild));
    is_written_by_lines(&rt, &Answer::Volumes(&listed(&rt, VOLUMES)));
    is_written_by_lines(&rt, &Answer::Blocks(&blocks()));
}

const REFUSALS: &[(Refusal, &str)] = &[
    (Refusal::BadName, "refused 1 BadName\n"),
    (Refusal::OutOfRange, "refused 8 OutOfRange\n"),
    (Refusal::NothingToRebuild, "refused 12 NothingToRebuild\n"),
    (Refusal::BadLine, "refused 20 BadLine\n"),
    (Refusal::WriteFault, "refused 22 WriteFault\n"),
];

#[test]
fn writes_done_and_refusals(rt: HostRuntime) {
    is_written(&rt, &Answer::Done, b"ok\n");
    for (refusal, text) in REFUSALS {
        is_written(&rt, &Answer::Refused(*refusal), text.as_bytes());
    }
    is_cut(
        &rt,
        &Answer::Refused(Refusal::BadLine),
        b"refused 20 BadLine\n",
    );
}

// Volumes with these names and numbers of blocks.
fn listed(rt: &(impl Abort + AllocGlobal), volumes: &[(&str, u32)]) -> Vec<Listed> {
    let mut list = Vec::new(rt.alloc());
    for (name, blocks) in volumes {
        let name = Name::new(name.as_bytes()).expect(rt, "the name is good");
        let blocks = *blocks;
        list.push(Listed { name, blocks }).expect(rt, "memory");
    }
    list
}

const VOLUMES: &[(&str, u32)] = &[
    ("a", 64),
    ("large-volume_01234567890", 4_294_967_295),
    ("z", 0),
];

fn are_listed(rt: &(impl Abort + AllocGlobal), volumes: &[(&str, u32)], text: &[u8]) {
    has_text(rt, &Answer::Volumes(&listed(rt, volumes)), text);
}

#[test]
fn writes_volumes(rt: HostRuntime) {
    are_listed(&rt, &[], b"");
    are_listed(&rt, &VOLUMES[..1], b"a 64\n");
    are_listed(
        &rt,
        VOLUMES,
        b"a 64\nlarge-volume_01234567890 4294967295\nz 0\n",
    );
}

const BLOCKS_TEXT: &[(&str, usize)] = &[("00*512\n", 1), ("01ef", 256), ("\nff*512\n", 1)];

#[test]
fn writes_blocks(rt: HostRuntime) {
    is_written(&rt, &Answer::Blocks(&[]), b"");
    is_written(&rt, &Answer::Blocks(&[[0x5a; 512]]), b"5a*512\n");
    let text = joined(&rt, BLOCKS_TEXT);
    has_text(&rt, &Answer::Blocks(&blocks()), &text);
}

const OTHER_LAST: &[(&str, usize)] = &[("ab", 511), ("cd\n", 1)];

#[test]
fn a_block_with_one_other_byte_has_all_digits(rt: HostRuntime) {
    let mut block = [0xab; 512];
    block[511] = 0xcd;
    let text = joined(&rt, OTHER_LAST);
    is_written(&rt, &Answer::Blocks(&[block]), &text);
}
