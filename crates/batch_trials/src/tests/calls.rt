//! How many device calls a commit of a batch makes, device by device.
//!
//! A commit of r rows with g given sectors in each holds r × (g + 1) sectors, each of which is written to both journals
//! and to its member. It writes two seals, flushes each journal twice and each member that it writes once, and reads of
//! each row the old values of what it holds, or the other data where these are fewer sectors.
ghost use Rattle.batch_trials.specs.Waiting.{Waits};

use super::sets::{ID, Shape, bank_of, image_now};
use super::steps::{Step, opened_after};
use super::{LARGE, OF_FIVE, Waiting, Write};
use crate::testing::same;
use recovery::assemble;
use sector_model::{Bank, Down, MemBank, Sector};
use std::process::Abort;
use stripe_journal::Entry;
use volume_table::Store;

/// A bank that counts what is done with each of its devices.
#[derive(Drop)]
struct Tally<B: Bank> {
    bank: B,
    counts: Counts,
}

// Of each device: reads, writes from sector 8 on, writes below it, and flushes. A journal has its seals below sector 8,
// and its bodies from there on.
type Counts = [[u64; 4]; 10];

// One call more of a device.
fn count(counts: &mut Counts, dev: u8, kind: usize) {
    if dev < 10 && kind < 4 {
        let slot = dev as usize;
        counts[slot][kind] = counts[slot][kind].saturating_add(1);
    }
}

impl<B: Bank> Bank for Tally<B> {
    ghost honest = { λ tally. B.honest tally.bank };

    ghost history = { λ tally. B.history tally.bank };

    ghost panel = { λ tally. B.panel tally.bank };

    ghost true_to = { λ tally honest. B.true_to tally.bank honest };

    fn devices(&self) -> u8 {
        self.bank.devices()
    }

    fn sectors(&self, dev: u8) -> u32 {
        self.bank.sectors(dev)
    }

    fn is_down(&self, dev: u8) -> bool {
        self.bank.is_down(dev)
    }

    fn now(&self) -> u64 {
        self.bank.now()
    }

    fn read(&mut self, dev: u8, at: u32, to: &mut Sector) -> Result<(), Down> {
        count(&mut self.counts, dev, 0);
        self.bank.read(dev, at, to)
    }

    fn write(&mut self, dev: u8, at: u32, from: &Sector) -> Result<(), Down> {
        let kind = if at < 8 { 2 } else { 1 };
        count(&mut self.counts, dev, kind);
        self.bank.write(dev, at, from)
    }

    fn flush(&mut self, dev: u8) -> Result<(), Down> {
        count(&mut self.counts, dev, 3);
        self.bank.flush(dev)
    }
}

// A store with a volume `a` of so many blocks over a set of this shape, whose calls are counted, with nothing that
// waits.
fn counted(rt: &(impl Abort + AllocGlobal), shape: Shape, blocks: u32) -> Waiting<Tally<MemBank>>
    ensures held { Waits result.store result.batch }
{
    let store = opened_after(rt, shape, &[Step::Create(b"a", blocks)]);
    let bank = Tally {
        bank: bank_of(rt, image_now(rt, store.bank())),
        counts: [[0; 4]; 10],
    };
    let entry = Entry::new(rt.alloc()).expect(rt, "memory");
    let array = assemble(bank, entry, ID);
    let array = array.ok().expect(rt, "the set is assembled");
    let store = Store::open(array);
    Waiting::new(rt, store.ok().expect(rt, "the store is opened"))
}

// Commits what waits, which has to make these calls of the devices from slot 0 on, and none of others.
fn check_commit(
    rt: &(impl Abort + AllocGlobal),
    waiting: &mut Waiting<Tally<MemBank>>,
    wanted: &[[u64; 4]],
)
    requires held { Waits waiting.old.store waiting.old.batch }
    ensures held { Waits waiting.new.store waiting.new.batch }
{
    let before = waiting.store.array.bank.counts;
    same(rt, waiting.commit(), Ok(()));
    let after = waiting.store.array.bank.counts;
    for slot in 0..10usize {
        let mut made = [0; 4];
        for kind in 0..4usize {
            made[kind] = after[slot][kind].saturating_sub(before[slot][kind]);
        }
        let want = if slot < wanted.len() {
            wanted[slot]
        } else {
            [0; 4]
        };
        same(rt, (slot, made), (slot, want));
    }
}

// Sixteen writes of 8 blocks, 256 blocks apart, each of a chunk: write i begins with logical sector 64 + 256 i, in
// chunk 8 + 32 i, which is of stripe 2 + 8 i and lies on member (3 + 2 i) mod 5, with the parity on the member that is
// (2 + 3 i) mod 5 before member 4. So 4 of the chunks are on member 3 and 3 on each other one, and 4 of the parity on
// member 2 and 3 on each other one. The entry has 16 × 8 rows, each of two sectors, whose old values are read.
#[test]
fn calls_of_writes_far_apart(rt: HostRuntime) {
    let mut waiting = counted(&rt, OF_FIVE, 4_096);
    for number in 0..16u32 {
        waiting.stage_all(&rt, &[(b"a", 256 * number, &[0x77; 8])]);
    }
    let members = [6 * 8, 6 * 8, 7 * 8, 7 * 8, 6 * 8];
    let mut wanted = [[0, 256, 1, 2]; 7];
    for member in 0..5usize {
        wanted[member] = [members[member], members[member], 0, 1];
    }
    check_commit(&rt, &mut waiting, &wanted);
}

// A batch of 2,048 blocks from the start of a stripe on fills 64 stripes of 8 rows: nothing is read, and each of the
// 512 rows has its five sectors held.
#[test]
fn calls_of_a_full_batch(rt: HostRuntime) {
    let mut waiting = counted(&rt, OF_FIVE, 2_048);
    for number in 0..64u32 {
        waiting.stage_all(&rt, &[(b"a", 32 * number, &[0x55; 32])]);
    }
    let member = [0, 512, 0, 1];
    let journal = [0, 5 * 512, 1, 2];
    let wanted = [member, member, member, member, member, journal, journal];
    check_commit(&rt, &mut waiting, &wanted);
}

// Members that have none of the sectors are neither read, written nor flushed. Blocks 0 to 7 are chunk 8, of stripe 4
// on 3 members, on member 2 with the parity on member 1, and the third member is read, one sector a row. Of the same
// blocks written twice, each is in the entry once.
#[test]
fn calls_of_overlapping_writes(rt: HostRuntime) {
    const WRITES: &[Write] = &[
        (b"a", 0, &[0x11; 5]),
        (b"a", 2, &[0x22; 6]),
        (b"a", 0, &[0x33; 8]),
    ];
    let mut waiting = counted(&rt, LARGE, 16);
    waiting.stage_all(&rt, WRITES);
    let wanted = [
        [8, 0, 0, 0],
        [0, 8, 0, 1],
        [0, 8, 0, 1],
        [0, 16, 1, 2],
        [0, 16, 1, 2],
    ];
    check_commit(&rt, &mut waiting, &wanted);
    // Nothing waits.
    check_commit(&rt, &mut waiting, &[]);
}
