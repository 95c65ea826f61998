//! How many device calls a commit and a read make, by what they do.
ghost use Rattle.std.specs.Prelude.{◌≡◌};

use super::{List, commit, list_of, read};
use crate::assemble;
use crate::testing::{
    CommitSize, ID, ROOM, SET_A, Shape, array_of, bank_of, check_missing, left, made, same,
};
use array_io::Array;
use sector_model::{Bank, Choice, Down, MemBank, Plan, Sector};
use std::process::Abort;
use stripe_journal::Entry;

/// A bank that counts what is done with each of its devices.
#[derive(Drop)]
struct Tally<B: Bank> {
    bank: B,
    reads: [u64; 10],
    writes: [u64; 10],
    flushes: [u64; 10],
}

impl<B: Bank> Bank for Tally<B> {
    ghost honest = { λ tally. B.honest tally.bank };

    ghost history = { λ tally. B.history tally.bank };

    ghost panel = { λ tally. B.panel tally.bank };

    ghost true_to = { λ tally honest. B.true_to tally.bank honest };

    fn devices(&self) -> u8 {
        self.bank.devices()
    }

    fn sectors(&self, dev: u8) -> u32 {
        self.bank.sectors(dev)
    }

    fn is_down(&self, dev: u8) -> bool {
        self.bank.is_down(dev)
    }

    fn now(&self) -> u64 {
        self.bank.now()
    }

    fn read(&mut self, dev: u8, at: u32, to: &mut Sector) -> Result<(), Down> {
        count(&mut self.reads, dev);
        self.bank.read(dev, at, to)
    }

    fn write(&mut self, dev: u8, at: u32, from: &Sector) -> Result<(), Down> {
        count(&mut self.writes, dev);
        self.bank.write(dev, at, from)
    }

    fn flush(&mut self, dev: u8) -> Result<(), Down> {
        count(&mut self.flushes, dev);
        self.bank.flush(dev)
    }
}

impl<B: Bank> Tally<B> {
    // Counts anew.
    fn reset(&mut self)
        ensures { self.new.bank ≡ self.old.bank }
    {
        self.reads = [0; 10];
        self.writes = [0; 10];
        self.flushes = [0; 10];
    }
}

// A bank in memory whose calls are counted.
type Counted = Tally<MemBank>;

// One call more of a device.
fn count(calls: &mut [u64; 10], dev: u8) {
    if dev < 10 {
        let slot = dev as usize;
        calls[slot] = calls[slot].saturating_add(1);
    }
}

// The calls of all devices.
fn sum(calls: &[u64]) -> u64 {
    let mut all = 0u64;
    for of_slot in calls {
        all = all.saturating_add(*of_slot);
    }
    all
}

// An array of a set of this shape that was just made, and of which a slot is missing, if it is one of the set's.
fn tallied(rt: &(impl Abort + AllocGlobal), shape: Shape, missing: usize) -> Array<Counted> {
    let bank = made(rt, shape).into_bank();
    let image = left(rt, &bank, bank.now(), Choice::Newest, missing);
    let bank = Tally {
        bank: bank_of(rt, image, Plan::NONE, ROOM),
        reads: [0; 10],
        writes: [0; 10],
        flushes: [0; 10],
    };
    let entry = Entry::new(rt.alloc()).expect(rt, "memory");
    let array = array_of(rt, assemble(bank, entry, ID));
    check_missing(rt, &array.table, missing);
    array
}

// The reads, writes and flushes of a commit to such an array.
fn calls_of(rt: &(impl Abort + AllocGlobal), array: &mut Array<Counted>, list: List) -> [u64; 3] {
    array.bank.reset();
    let before = array.bank.now();
    commit(rt, array, list);
    let bank = &array.bank;
    let counts = [sum(&bank.reads), sum(&bank.writes), sum(&bank.flushes)];
    same(rt, bank.now().checked_sub(before), Some(sum(&counts)));
    counts
}

// Asks that a commit to an array that is all there makes as many reads, writes and flushes as it takes, where these
// masks say what it changes in its rows.
fn check_calls(
    rt: &(impl Abort + AllocGlobal),
    array: &mut Array<Counted>,
    list: List,
    masks: &[u8],
) {
    let size = CommitSize {
        members: array.table.geometry.members,
        masks,
    };
    same(rt, calls_of(rt, array, list), size.counts());
}

// Of 3 members, the 32 sectors fill rows 32 to 47. Of 8 members, 64 and 72 lie in row 8, and the sectors from 60 to 91
// in rows 8 to 15, four in each: the parity is on member 6.
#[test]
fn calls_of_commits(rt: HostRuntime) {
    let mut array = tallied(&rt, SET_A, 5);
    check_calls(&rt, &mut array, &[(64, 0x11)], &[0x06]);
    check_calls(&rt, &mut array, &[(64, 0x22), (72, 0x33)], &[0x07]);
    check_calls(&rt, &mut array, &list_of(64, 1, 0x44), &[0x07; 16]);
    same(&rt, array.bank.writes, [16, 16, 16, 49, 49, 0, 0, 0, 0, 0]);
    same(&rt, array.bank.flushes, [1, 1, 1, 2, 2, 0, 0, 0, 0, 0]);

    let mut array = tallied(&rt, (8, 8, 4), 10);
    check_calls(&rt, &mut array, &[(64, 0x11), (72, 0x22)], &[0x43]);
    let masks = [0x4f, 0x4f, 0x4f, 0x4f, 0xc7, 0xc7, 0xc7, 0xc7];
    check_calls(&rt, &mut array, &list_of(60, 1, 0x44), &masks);
}

// Asks that one read of a logical sector of such an array makes so many reads of each device, and no other calls.
fn check_reads(
    rt: &(impl Abort + AllocGlobal),
    shape: Shape,
    missing: usize,
    logical: u64,
    reads: [u64; 10],
) {
    let mut array = tallied(rt, shape, missing);
    array.bank.reset();
    let before = array.bank.now();
    let _ = read(rt, &mut array, logical);
    same(rt, array.bank.reads, reads);
    same(rt, array.bank.now().checked_sub(before), Some(sum(&reads)));
}

// Of 5 members, logical sectors 64, 72, 80 and 88 are the data of row 16, on members 3, 4, 0 and 1, with the parity on
// member 2.
#[test]
fn calls_of_reads(rt: HostRuntime) {
    check_reads(&rt, (5, 8, 4), 7, 64, [0, 0, 0, 1, 0, 0, 0, 0, 0, 0]);
    check_reads(&rt, (5, 8, 4), 3, 64, [1, 1, 1, 0, 1, 0, 0, 0, 0, 0]);
    check_reads(&rt, (5, 8, 4), 3, 72, [0, 0, 0, 0, 1, 0, 0, 0, 0, 0]);
    check_reads(&rt, SET_A, 2, 64, [1, 1, 0, 0, 0, 0, 0, 0, 0, 0]);
}

// Asks that a commit of sectors to a set of 5 members without a slot makes so many reads of each member, and the calls
// that belong to these, where these masks say what it changes in its rows.
fn check_without(
    rt: &(impl Abort + AllocGlobal),
    missing: u8,
    list: List,
    masks: &[u8],
    members: &[u64; 5],
) {
    let size = CommitSize { members: 5, masks };
    let mut array = tallied(rt, (5, 8, 4), missing as usize);
    let counts = size.counts_without(missing, sum(members));
    same(rt, calls_of(rt, &mut array, list), counts);
    let mut of_slots = [0; 10];
    of_slots[..5].copy_from_slice(members);
    same(rt, (missing, array.bank.reads), (missing, of_slots));
}

// Of members 2 and 3, which change, and the three others, those are read of which none is missing; where a journal is,
// the fewer. So no other member is read for one that is missing.
#[test]
fn calls_of_commits_without_a_slot(rt: HostRuntime) {
    let one = [(64, 0x11)];
    let mask = [0x0c];
    check_without(&rt, 0, &one, &mask, &[0, 0, 1, 1, 0]);
    check_without(&rt, 1, &one, &mask, &[0, 0, 1, 1, 0]);
    check_without(&rt, 2, &one, &mask, &[1, 1, 0, 0, 1]);
    check_without(&rt, 3, &one, &mask, &[1, 1, 0, 0, 1]);
    check_without(&rt, 4, &one, &mask, &[0, 0, 1, 1, 0]);
    check_without(&rt, 5, &one, &mask, &[0, 0, 1, 1, 0]);
    check_without(&rt, 6, &one, &mask, &[0, 0, 1, 1, 0]);
    // Of rows 16 and 17 members 2, 3 and 4 change: they are read without member 0, and else the two others are.
    let list = [(64, 0x11), (72, 0x22), (65, 0x33), (73, 0x44)];
    check_without(&rt, 0, &list, &[0x1c, 0x1c], &[0, 0, 2, 2, 2]);
    check_without(&rt, 5, &list, &[0x1c, 0x1c], &[2, 2, 0, 0, 0]);
}
