//! The texts of replies.
use super::write_told;
use crate::answering::Outcome;
use crate::testing::same;
use extents::Name;
use layout_map::Format;
use rebuild::Progress;
use sector_model::{Refusal, Sector};
use std::process::Abort;
use volume_table::Listed;

// A buffer of three blocks, of which the second has a byte 10 alone.
const BLOCKS: [Sector; 3] = [[0x61; 512], [10; 512], [0x63; 512]];

// An outcome has this text, and then, where blocks are told, so many bytes 61 and as many bytes 10.
fn is_told(
    rt: &(impl Abort + AllocGlobal),
    outcome: &Outcome,
    text: &[u8],
    first: usize,
    second: usize,
) {
    let mut out = Vec::new(rt.alloc());
    same(rt, write_told(&mut out, outcome, &BLOCKS), Ok(()));
    let mut want = Vec::from_slice(rt.alloc(), text).expect(rt, "memory");
    for _ in 0..first {
        want.push(0x61).expect(rt, "memory");
    }
    for _ in 0..second {
        want.push(10).expect(rt, "memory");
    }
    same(rt, out.as_slice(), want.as_slice());
}

fn listed(rt: &impl Abort, name: &[u8], blocks: u32) -> Listed {
    let name = Name::new(name).expect(rt, "a name");
    Listed { name, blocks }
}

#[test]
fn outcomes_have_their_texts(rt: HostRuntime) {
    is_told(&rt, &Outcome::Done, b"ok\n", 0, 0);
    is_told(&rt, &Outcome::Read(1), b"blocks 1\n", 512, 0);
    is_told(&rt, &Outcome::Read(2), b"blocks 2\n", 512, 512);
    let refused = Outcome::Refused(Refusal::OutOfRange);
    is_told(&rt, &refused, b"refused 8 OutOfRange\n", 0, 0);
    let status = String::from_str(rt.alloc(), "{\"a\":1}").expect(&rt, "memory");
    is_told(&rt, &Outcome::Status(status), b"status 7\n{\"a\":1}", 0, 0);
}

#[test]
fn lists_have_their_texts(rt: HostRuntime) {
    let mut volumes = Vec::new(rt.alloc());
    is_told(
        &rt,
        &Outcome::Listed(Vec::new(rt.alloc())),
        b"volumes 0\n",
        0,
        0,
    );
    volumes.push(listed(&rt, b"ab", 5)).expect(&rt, "memory");
    volumes
        .push(listed(&rt, b"c", 4_294_967_295))
        .expect(&rt, "memory");
    let text = b"volumes 2\nab 5\nc 4294967295\n";
    is_told(&rt, &Outcome::Listed(volumes), text, 0, 0);
}

#[test]
fn rebuilds_have_their_texts(rt: HostRuntime) {
    let halfway = Outcome::Progress(Progress::Position(64), Format::One, 256);
    is_told(&rt, &halfway, b"position 64 of 256, 3 left\n", 0, 0);
    let all = Outcome::Progress(Progress::Complete, Format::One, 256);
    is_told(&rt, &all, b"complete\n", 0, 0);
}
