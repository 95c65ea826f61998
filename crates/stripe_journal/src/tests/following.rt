//! Blocks that follow one another in the logical list lie in rows of at most five runs.
use super::*;

// A set with so many members and sectors of a chunk.
#[derive(Clone, Copy)]
struct Shape {
    members: u64,
    chunk: u64,
}

// Blocks of a set that follow one another: the first, and the one after the last.
#[derive(Clone, Copy)]
struct Blocks {
    first: u64,
    end: u64,
}

// The blocks of a stripe.
fn stripe_blocks(shape: Shape) -> u64 {
    shape.members.wrapping_sub(1).wrapping_mul(shape.chunk)
}

// The bit of a member, 0 to 7, in a mask.
fn bit(member: u64) -> u8 {
    1u8.wrapping_shl(member.min(7) as u32)
}

// The mask of what these blocks change in a row, which is that of a stripe's with this number: 0 where they change
// nothing. Chunk c lies on member c mod N, and parity moves down by one member from stripe to stripe.
fn mask_of(shape: Shape, stripe: u64, number: u64, blocks: Blocks) -> u8 {
    let data = shape.members.wrapping_sub(1);
    let mut chunk = stripe.wrapping_mul(data);
    let mut mask = 0;
    for place in 0..data {
        let logical = chunk.wrapping_mul(shape.chunk).wrapping_add(number);
        if blocks.first <= logical && logical < blocks.end && shape.members > 0 {
            mask |= bit(chunk % shape.members);
        }
        chunk = chunk.wrapping_add(1);
    }
    if mask == 0 || shape.members == 0 {
        return 0;
    }
    mask | bit(data.wrapping_sub(stripe % shape.members))
}

// The numbers of a stripe's rows with which other blocks begin than those of the row before: the first row's, and those
// at which the blocks begin and end in their chunks.
fn changes(shape: Shape, blocks: Blocks) -> [u64; 3] {
    if shape.chunk == 0 {
        return [0; 3];
    }
    let begin = blocks.first % shape.chunk;
    let end = blocks.end % shape.chunk;
    [0, begin.min(end), begin.max(end)]
}

// Adds the rows of a stripe to runs: what is answered is how many runs there are, and the mask of the stripe's last
// row.
fn runs_in_stripe(shape: Shape, stripe: u64, blocks: Blocks, before: (u64, u8)) -> (u64, u8) {
    let (mut runs, mut last) = before;
    for number in changes(shape, blocks) {
        let mask = mask_of(shape, stripe, number, blocks);
        if mask != 0 && mask != last {
            runs = runs.wrapping_add(1);
        }
        last = mask;
    }
    (runs, last)
}

// How many runs there are of the rows in which the blocks lie.
fn runs_of(shape: Shape, blocks: Blocks) -> u64 {
    let each = stripe_blocks(shape);
    let mut runs = (0, 0);
    if each == 0 {
        return 0;
    }
    for stripe in blocks.first / each..=blocks.end.wrapping_sub(1) / each {
        runs = runs_in_stripe(shape, stripe, blocks, runs);
    }
    runs.0
}

// The most runs of so many blocks from any one of the first stripes on, of as many stripes as there are members.
fn most_runs(shape: Shape, count: u64) -> u64 {
    let mut most = 0;
    for first in 0..stripe_blocks(shape).wrapping_mul(shape.members) {
        let end = first.wrapping_add(count);
        most = most.max(runs_of(shape, Blocks { first, end }));
    }
    most
}

// The most runs of so many blocks in any set.
fn most_in_any(count: u64) -> u64 {
    let mut most = 0;
    for members in 3..=8 {
        for chunk in [8, 16, 32, 64, 128, 256, 512, 1024] {
            most = most.max(most_runs(Shape { members, chunk }, count));
        }
    }
    most
}

#[test]
fn blocks_in_order_are_at_most_5_runs(rt: HostRuntime) {
    same(&rt, most_in_any(1), 1);
    same(&rt, most_in_any(2), 2);
    same(&rt, most_in_any(41), 4);
    same(&rt, most_in_any(42), 5);
    same(&rt, most_in_any(2048), 5);
}

#[test]
fn blocks_in_order_not_aligned_are_5_runs(rt: HostRuntime) {
    let shape = Shape {
        members: 5,
        chunk: 128,
    };
    let first = 700;
    let end = 2_748;
    same(&rt, runs_of(shape, Blocks { first, end }), 5);
    same(&rt, mask_of(shape, 1, 0, Blocks { first, end }), 0x0e);
    same(&rt, mask_of(shape, 1, 60, Blocks { first, end }), 0x0f);
    same(&rt, mask_of(shape, 2, 0, Blocks { first, end }), 0x1f);
    same(&rt, mask_of(shape, 5, 0, Blocks { first, end }), 0x13);
    same(&rt, mask_of(shape, 5, 60, Blocks { first, end }), 0x11);
}
