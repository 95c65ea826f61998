//! How many device calls replacing a device and a step of a rebuild make, and to which slots.
ghost use Rattle.std.specs.Prelude.{◌≡◌};

use super::{
    Case, Device, ID, Job, OF_3, OF_4, OF_8, Shape, bank_of, before, call, image_now, journal,
    member, rows_of, wanted,
};
use crate::testing::same;
use array_io::Array;
use recovery::assemble;
use sector_model::{Bank, Down, MemBank, Plan, Sector};
use std::process::Abort;
use stripe_journal::Entry;

/// How many calls a tally tells of.
const MOST: usize = 512;

/// A device call: its slot, and whether it reads. A crash after a read leaves what one before it does.
#[derive(Clone, Copy)]
pub(crate) struct Made {
    pub slot: u8,
    pub is_read: bool,
}

/// A bank that counts the reads, writes and flushes, and keeps each call.
#[derive(Drop)]
pub(crate) struct Tally<B: Bank> {
    bank: B,
    reads: u64,
    writes: u64,
    flushes: u64,
    calls: [Made; MOST],
    made: usize,
}

impl<B: Bank> Bank for Tally<B> {
    ghost honest = { λ tally. B.honest tally.bank };

    ghost history = { λ tally. B.history tally.bank };

    ghost panel = { λ tally. B.panel tally.bank };

    ghost true_to = { λ tally honest. B.true_to tally.bank honest };

    fn devices(&self) -> u8 {
        self.bank.devices()
    }

    fn sectors(&self, dev: u8) -> u32 {
        self.bank.sectors(dev)
    }

    fn is_down(&self, dev: u8) -> bool {
        self.bank.is_down(dev)
    }

    fn now(&self) -> u64 {
        self.bank.now()
    }

    fn read(&mut self, dev: u8, at: u32, to: &mut Sector) -> Result<(), Down> {
        self.reads = self.reads.saturating_add(1);
        self.keep(dev, true);
        self.bank.read(dev, at, to)
    }

    fn write(&mut self, dev: u8, at: u32, from: &Sector) -> Result<(), Down> {
        self.writes = self.writes.saturating_add(1);
        self.keep(dev, false);
        self.bank.write(dev, at, from)
    }

    fn flush(&mut self, dev: u8) -> Result<(), Down> {
        self.flushes = self.flushes.saturating_add(1);
        self.keep(dev, false);
        self.bank.flush(dev)
    }
}

impl<B: Bank> Tally<B> {
    // Keeps a call, if there is room.
    fn keep(&mut self, slot: u8, is_read: bool)
        ensures { self.new.bank ≡ self.old.bank }
    {
        if self.made < MOST {
            self.calls[self.made] = Made { slot, is_read };
            self.made = self.made.saturating_add(1);
        }
    }

    // Counts anew.
    fn reset(&mut self)
        ensures { self.new.bank ≡ self.old.bank }
    {
        self.reads = 0;
        self.writes = 0;
        self.flushes = 0;
        self.made = 0;
    }
}

// The set of a case on which its call was made, with the device calls of that.
fn tallied(rt: &(impl Abort + AllocGlobal), case: &Case) -> Array<Tally<MemBank>> {
    let known = before(rt, case);
    let bank = Tally {
        bank: bank_of(rt, image_now(rt, &known.array.bank), Plan::NONE),
        reads: 0,
        writes: 0,
        flushes: 0,
        calls: [Made {
            slot: 0,
            is_read: false,
        }; MOST],
        made: 0,
    };
    let entry = Entry::new(rt.alloc()).expect(rt, "memory");
    let array = assemble(bank, entry, ID);
    let mut array = array.ok().expect(rt, "the set is assembled");
    array.bank.reset();
    same(rt, call(&mut array, case), Ok(wanted(case)));
    array
}

/// The device calls that the call of a case makes, in their order.
pub(crate) fn calls_of(rt: &(impl Abort + AllocGlobal), case: &Case) -> Vec<Made> {
    let array = tallied(rt, case);
    assert!(rt; array.bank.made < MOST);
    let calls = Vec::from_slice(rt.alloc(), &array.bank.calls[..array.bank.made]);
    calls.expect(rt, "memory")
}

// Asks that the call of a case makes so many reads, writes and flushes.
fn check_calls(rt: &(impl Abort + AllocGlobal), case: &Case, counts: [u64; 3]) {
    let array = tallied(rt, case);
    let bank = &array.bank;
    let got = [bank.reads, bank.writes, bank.flushes];
    same(
        rt,
        (case.shape.members, case.slot, got),
        (case.shape.members, case.slot, counts),
    );
}

// A set of each number of members, and one of its members.
const SETS: &[(Shape, u8)] = &[(OF_3, 1), (OF_4, 3), (OF_8, 0)];

// The device's two superblock places are cleared and flushed, and a table is published.
#[test]
fn calls_of_replacing_a_member(rt: HostRuntime) {
    for (shape, slot) in SETS {
        let case = member(*shape, *slot, Device::Own);
        let members = u64::from(shape.members);
        check_calls(&rt, &case, [0, members + 4, members + 3]);
    }
}

// Both places and both seals are cleared and flushed, the other journal's two seals are read, and a table is published.
// Where there is an entry, here of two rows with one given sector each, its body of two sectors a row is copied and
// flushed, and then its seal.
#[test]
fn calls_of_replacing_a_journal(rt: HostRuntime) {
    for (shape, _) in SETS {
        let members = u64::from(shape.members);
        let unused = journal(*shape, shape.members, Device::Filled, false);
        check_calls(&rt, &unused, [2, members + 6, members + 3]);
        let used = journal(*shape, shape.members.saturating_add(1), Device::Own, true);
        let body = 2 * 2;
        let counts = [body + 2, members + 6 + body + 1, members + 5];
        check_calls(&rt, &used, counts);
    }
}

// So many rows of which each other member's sector is read, and one is written; the member is flushed, and a table is
// published.
#[test]
fn calls_of_a_step(rt: HostRuntime) {
    for (shape, slot) in SETS {
        for (asked, rows) in [(1, 1), (7, 7), (64, 16)] {
            let case = Case {
                shape: *shape,
                slot: *slot,
                device: Device::Blank,
                is_used: true,
                position: rows_of(*shape).saturating_sub(16),
                job: Job::Step(asked),
            };
            let members = u64::from(shape.members);
            let others = members.saturating_sub(1);
            let writes = members.saturating_add(rows).saturating_add(2);
            let counts = [others.saturating_mul(rows), writes, members + 3];
            check_calls(&rt, &case, counts);
        }
    }
}
