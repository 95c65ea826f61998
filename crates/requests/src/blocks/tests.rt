//! Blocks of readers that show few bytes at a time, and of ones that end or fail.
use super::{read_blocks, skip_blocks};
use crate::testing::{Pieces, same};
use sector_model::Refusal;
use std::process::Abort;

const NEVER: usize = usize::MAX;

const STEPS: [usize; 6] = [1, 7, 512, 513, 1_000, NEVER];

// So many bytes, which tell where they stand: byte k is k modulo 251.
fn numbered(rt: &(impl Abort + AllocGlobal), count: usize) -> Vec<u8> {
    let mut bytes = Vec::with_capacity(rt.alloc(), count).expect(rt, "memory");
    for k in 0..count {
        bytes.push((k % 251) as u8).expect(rt, "memory");
    }
    bytes
}

// Three blocks that are as they were where they are not read.
fn unread() -> [[u8; 512]; 3] {
    [[255; 512]; 3]
}

// Three blocks are read of an input that has two bytes more, and these are left.
fn reads_three(rt: &impl Abort, input: &[u8], step: usize) {
    let mut reader = Pieces::new(input, step, NEVER);
    let mut blocks = unread();
    same(rt, read_blocks(&mut reader, &mut blocks), Ok(true));
    for (block, wanted) in blocks.iter().zip(input.chunks(512)) {
        same(rt, block.as_slice(), wanted);
    }
    assert!(rt; input.len() >= 1_536);
    same(rt, reader.input, &input[1_536..]);
}

#[test]
fn fills_blocks_in_parts(rt: HostRuntime) {
    let input = numbered(&rt, 1_538);
    let three = numbered(&rt, 1_536);
    for step in STEPS {
        reads_three(&rt, &input, step);
        reads_three(&rt, &three, step);
    }
}

// What is asked of an input, and how many bytes are then left of it.
fn skips(rt: &impl Abort, input: &[u8], step: usize, count: u32, want: bool, left: usize) {
    let mut reader = Pieces::new(input, step, NEVER);
    same(rt, skip_blocks(&mut reader, count), Ok(want));
    same(rt, reader.input.len(), left);
}

#[test]
fn skips_whole_blocks(rt: HostRuntime) {
    let input = numbered(&rt, 1_538);
    let three = numbered(&rt, 1_536);
    for step in STEPS {
        skips(&rt, &input, step, 0, true, 1_538);
        skips(&rt, &input, step, 1, true, 1_026);
        skips(&rt, &input, step, 3, true, 2);
        skips(&rt, &three, step, 3, true, 0);
        skips(&rt, &input, step, 4, false, 0);
        skips(&rt, &input, step, 4_294_967_295, false, 0);
    }
}

#[test]
fn reads_no_block_that_the_input_cuts(rt: HostRuntime) {
    let input = numbered(&rt, 1_535);
    for step in STEPS {
        for length in [0, 1, 511, 512, 513, 1_024, 1_535] {
            assert!(&rt; length <= input.len());
            let mut reader = Pieces::new(&input[..length], step, NEVER);
            let mut blocks = unread();
            same(&rt, read_blocks(&mut reader, &mut blocks), Ok(false));
            same(&rt, reader.input.len(), 0);
        }
    }
}

#[test]
fn tells_a_fault(rt: HostRuntime) {
    let input = numbered(&rt, 2_000);
    for step in STEPS {
        for left in [0, 1, 511, 512, 1_535] {
            let mut blocks = unread();
            let mut reader = Pieces::new(&input, step, left);
            same(
                &rt,
                read_blocks(&mut reader, &mut blocks),
                Err(Refusal::ReadFault),
            );
            let mut other = Pieces::new(&input, step, left);
            same(&rt, skip_blocks(&mut other, 3), Err(Refusal::ReadFault));
        }
    }
}

#[test]
fn asks_nothing_for_no_block(rt: HostRuntime) {
    let mut reader = Pieces::new(b"", 1, 0);
    same(&rt, read_blocks(&mut reader, &mut []), Ok(true));
    same(&rt, skip_blocks(&mut reader, 0), Ok(true));
}
