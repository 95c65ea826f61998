//! Batches as large as an entry has room for: one of 58 runs, and one of 2,048 rows in the extents of two volumes.
//!
//! Their sets have 3 members with chunk 128. Stripe 0 lies before the extents, each of which is a stripe of 256 blocks.
//! Stripe s has its first 128 blocks on member 2 s mod 3, and its parity on member (2 - s) mod 3.
ghost use Rattle.batch_trials.specs.Waiting.{Waits};

use super::sets::{Shape, TestStore, fresh_store, next_run};
use super::steps::{Step, Volume, take};
use super::{SEAL_CALLS, TestWaiting, Write, staged};
use layout_map::Format;
use sector_model::Choice;
use std::process::Abort;

mod crashes;
mod failures;
mod replaced;

/// Volumes, and a batch that writes the first `each` of each `apart` of their blocks. Each row of its entry has one
/// given sector and the parity.
#[derive(Clone, Copy)]
pub(crate) struct Size<'a> {
    pub shape: Shape,
    /// The names of the volumes, which are made in this order.
    pub names: &'a [&'a [u8]],
    /// How many blocks each of them has.
    pub blocks: u32,
    pub each: u32,
    pub apart: u32,
    /// How many sectors of each member the entry holds.
    pub held: [u64; 3],
}

/// Blocks 0, 2, 4 and so on to 114 of an extent, which are 58 rows of member 2, each a run. Their parity is on member
/// 1, and member 0 is read.
pub(crate) const RUNS_58: Size = Size {
    shape: (Format::Two, 3, 128, 2),
    names: &[b"a"],
    blocks: 116,
    each: 1,
    apart: 2,
    held: [0, 58, 58],
};

/// The first half of each extent of two volumes, which are stripes 1 to 8 and 9 to 16. Stripes 1, 4, 7, 10, 13 and 16
/// are held on members 2 and 1, stripes 2, 5, 8, 11 and 14 on 1 and 0, and the other five on 0 and 2.
pub(crate) const ROWS_2048: Size = Size {
    shape: (Format::Two, 3, 128, 18),
    names: &[b"a", b"b"],
    blocks: 2_048,
    each: 128,
    apart: 256,
    held: [10 * 128, 11 * 128, 11 * 128],
};

impl Size<'_> {
    /// How many sectors the entry holds.
    pub(crate) fn sectors(&self) -> u64 {
        let [lower, middle, upper] = self.held;
        lower.saturating_add(middle).saturating_add(upper)
    }

    /// How many reads the commit makes: one a row, of the member that the entry does not hold.
    pub(crate) fn reads(&self) -> u64 {
        self.sectors() / 2
    }

    /// How many calls come before the first seal: the reads, and the body and a flush of each journal.
    pub(crate) fn unsealed(&self) -> u64 {
        let body = self.sectors().saturating_add(1);
        self.reads().saturating_add(body.saturating_mul(2))
    }

    /// How many calls come before the first write to a member.
    pub(crate) fn sealed(&self) -> u64 {
        self.unsealed().saturating_add(SEAL_CALLS)
    }

    /// How many calls put the entry on the members below this one: a write of each sector and a flush.
    pub(crate) fn put_below(&self, member: usize) -> u64 {
        let mut calls = 0u64;
        for held in &self.held[..member.min(3)] {
            if *held > 0 {
                calls = calls.saturating_add(*held).saturating_add(1);
            }
        }
        calls
    }

    /// How many calls the commit makes.
    pub(crate) fn calls(&self) -> u64 {
        self.sealed().saturating_add(self.put_below(3))
    }
}

/// A large batch, and the bytes of all blocks of its volumes, one volume after the other, each block full of one.
#[derive(Drop)]
pub(crate) struct Large<'a> {
    pub size: Size<'a>,
    old: Vec<u8>,
    new: Vec<u8>,
}

impl<'a> Large<'a> {
    /// The batch of this size. Before it no block is zero, and none is like the one beside it; what it writes is none
    /// of these bytes.
    pub(crate) fn of(rt: &(impl Abort + AllocGlobal), size: Size<'a>) -> Large<'a> {
        assert!(rt; size.apart > 0);
        let mut old = Vec::new(rt.alloc());
        let mut new = Vec::new(rt.alloc());
        for volume in 0..size.names.len() {
            for block in 0..size.blocks {
                let byte = 1 + (block % 71) as u8;
                let given = byte + if volume == 0 { 71 } else { 142 };
                let is_given = block % size.apart < size.each;
                old.push(byte).expect(rt, "memory");
                new.push(if is_given { given } else { byte })
                    .expect(rt, "memory");
            }
        }
        Large { size, old, new }
    }

    /// The volumes before the batch.
    pub(crate) fn old(&self, rt: &(impl Abort + AllocGlobal)) -> Vec<Volume<'_>> {
        volumes_of(rt, &self.size, &self.old)
    }

    /// The volumes after it.
    pub(crate) fn new(&self, rt: &(impl Abort + AllocGlobal)) -> Vec<Volume<'_>> {
        volumes_of(rt, &self.size, &self.new)
    }

    /// This store, with the batch waiting.
    pub(crate) fn staged(&self, rt: &(impl Abort + AllocGlobal), store: TestStore) -> TestWaiting
        ensures held { Waits result.store result.batch }
    {
        let volumes = self.new(rt);
        staged(rt, store, &writes_of(rt, &self.size, &volumes))
    }

    /// A store over the set with the volumes before the batch, in a run that began after they were made.
    pub(crate) fn store(&self, rt: &(impl Abort + AllocGlobal)) -> TestStore {
        let mut store = fresh_store(rt, self.size.shape);
        for (name, bytes) in &self.old(rt) {
            take(rt, &mut store, &[Step::Create(*name, self.size.blocks)]);
            let mut at = 0u32;
            for blocks in bytes.chunks(32) {
                take(rt, &mut store, &[Step::Write(*name, at, blocks)]);
                at = at.saturating_add(32);
            }
        }
        next_run(rt, store.bank())
    }
}

// The volumes of a batch of this size, with these bytes.
fn volumes_of<'a>(
    rt: &(impl Abort + AllocGlobal),
    size: &Size<'a>,
    bytes: &'a [u8],
) -> Vec<Volume<'a>> {
    let mut volumes = Vec::new(rt.alloc());
    let mut left = bytes;
    for name in size.names {
        assert!(rt; size.blocks as usize <= left.len());
        let (front, rest) = left.split_at(size.blocks as usize);
        volumes.push((*name, front)).expect(rt, "memory");
        left = rest;
    }
    volumes
}

// The writes of a batch of this size, each of at most 32 blocks, by the volumes after it.
fn writes_of<'a>(
    rt: &(impl Abort + AllocGlobal),
    size: &Size,
    volumes: &[Volume<'a>],
) -> Vec<Write<'a>> {
    assert!(rt; size.apart > 0);
    let mut writes = Vec::new(rt.alloc());
    for (name, bytes) in volumes {
        for at in 0..size.blocks {
            let within = at % size.apart;
            if within < size.each && within % 32 == 0 {
                let end = (at as usize).saturating_add(size.each.min(32) as usize);
                assert!(rt; end <= bytes.len());
                let write = (*name, at, &bytes[at as usize..end]);
                writes.push(write).expect(rt, "memory");
            }
        }
    }
    writes
}

/// What a crash leaves, and the slot that is absent after it, if it is one of the set's: each of three choices with
/// each of six slots, in turn.
pub(crate) fn in_turn(number: u64) -> (Choice, usize) {
    let choice = match number / 6 % 3 {
        0 => Choice::Oldest,
        1 => Choice::Newest,
        _ => Choice::Mixed(3),
    };
    (choice, (number % 6) as usize)
}
