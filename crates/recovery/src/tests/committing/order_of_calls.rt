//! The order in which a commit writes and flushes: the body on each live journal, then the seal on each, then the
//! members.
ghost use Rattle.std.specs.Prelude.{◌≡◌};

use super::{List, commit};
use crate::assemble;
use crate::testing::{ID, ROOM, SET_A, array_of, bank_of, check_missing, left, made, same};
use array_io::Array;
use sector_model::{Bank, Choice, Down, MemBank, Plan, Sector};
use std::process::Abort;
use stripe_journal::Entry;

/// A device call that changes something: the write of a sector of a slot, or its flush.
#[derive(Clone, Copy, PartialEq, Eq, Debug)]
enum Done {
    Nothing,
    Write(u8, u32),
    Flush(u8),
}

/// How many of them are noted.
const NOTED: usize = 24;

/// A bank that notes, in their order, the calls that change something.
#[derive(Drop)]
struct Noted<B: Bank> {
    bank: B,
    done: [Done; NOTED],
    count: usize,
}

impl<B: Bank> Bank for Noted<B> {
    ghost honest = { λ noted. B.honest noted.bank };

    ghost history = { λ noted. B.history noted.bank };

    ghost panel = { λ noted. B.panel noted.bank };

    ghost true_to = { λ noted honest. B.true_to noted.bank honest };

    fn devices(&self) -> u8 {
        self.bank.devices()
    }

    fn sectors(&self, dev: u8) -> u32 {
        self.bank.sectors(dev)
    }

    fn is_down(&self, dev: u8) -> bool {
        self.bank.is_down(dev)
    }

    fn now(&self) -> u64 {
        self.bank.now()
    }

    fn read(&mut self, dev: u8, at: u32, to: &mut Sector) -> Result<(), Down> {
        self.bank.read(dev, at, to)
    }

    fn write(&mut self, dev: u8, at: u32, from: &Sector) -> Result<(), Down> {
        note(&mut self.done, &mut self.count, Done::Write(dev, at));
        self.bank.write(dev, at, from)
    }

    fn flush(&mut self, dev: u8) -> Result<(), Down> {
        note(&mut self.done, &mut self.count, Done::Flush(dev));
        self.bank.flush(dev)
    }
}

impl<B: Bank> Noted<B> {
    // Notes anew.
    fn reset(&mut self)
        ensures { self.new.bank ≡ self.old.bank }
    {
        self.done = [Done::Nothing; NOTED];
        self.count = 0;
    }
}

// Notes a call; the count tells where there are more than are noted.
fn note(calls: &mut [Done; NOTED], count: &mut usize, done: Done) {
    if *count < NOTED {
        calls[*count] = done;
    }
    *count = count.saturating_add(1);
}

// An array of set A that was just made, and of which a slot is missing, if it is one of the set's.
fn array_without(rt: &(impl Abort + AllocGlobal), missing: usize) -> Array<Noted<MemBank>> {
    let bank = made(rt, SET_A).into_bank();
    let image = left(rt, &bank, bank.now(), Choice::Newest, missing);
    let bank = Noted {
        bank: bank_of(rt, image, Plan::NONE, ROOM),
        done: [Done::Nothing; NOTED],
        count: 0,
    };
    let entry = Entry::new(rt.alloc()).expect(rt, "memory");
    let mut array = array_of(rt, assemble(bank, entry, ID));
    check_missing(rt, &array.table, missing);
    array.bank.reset();
    array
}

// Asks that the first commit to set A without a slot, where it is one of the set's, makes these calls in this order,
// and no others that change something.
fn check_order(rt: &(impl Abort + AllocGlobal), missing: usize, list: List, order: &[Done]) {
    let mut array = array_without(rt, missing);
    commit(rt, &mut array, list);
    same(rt, array.bank.count, order.len());
    assert!(rt; order.len() <= NOTED);
    let mut wanted = [Done::Nothing; NOTED];
    wanted[..order.len()].copy_from_slice(order);
    same(rt, array.bank.done, wanted);
}

// Entry 1 has its seal in sector 3 of each journal and its body from sector 264 on; of row 32, in sector 40 of the
// members, it holds the parity of member 1 and the data of member 2.
#[test]
fn both_bodies_before_a_seal(rt: HostRuntime) {
    let order = [
        Done::Write(3, 264),
        Done::Write(3, 265),
        Done::Flush(3),
        Done::Write(4, 264),
        Done::Write(4, 265),
        Done::Flush(4),
        Done::Write(3, 3),
        Done::Flush(3),
        Done::Write(4, 3),
        Done::Flush(4),
        Done::Write(1, 40),
        Done::Flush(1),
        Done::Write(2, 40),
        Done::Flush(2),
    ];
    check_order(&rt, 5, &[(64, 0x22)], &order);
}

// Of row 33 members 1 and 2 are held, too, and of row 32 all three: five sectors.
#[test]
fn both_bodies_of_two_rows_before_a_seal(rt: HostRuntime) {
    let order = [
        Done::Write(3, 264),
        Done::Write(3, 265),
        Done::Write(3, 266),
        Done::Write(3, 267),
        Done::Write(3, 268),
        Done::Flush(3),
        Done::Write(4, 264),
        Done::Write(4, 265),
        Done::Write(4, 266),
        Done::Write(4, 267),
        Done::Write(4, 268),
        Done::Flush(4),
        Done::Write(3, 3),
        Done::Flush(3),
        Done::Write(4, 3),
        Done::Flush(4),
        Done::Write(0, 40),
        Done::Flush(0),
        Done::Write(1, 40),
        Done::Write(1, 41),
        Done::Flush(1),
        Done::Write(2, 40),
        Done::Write(2, 41),
        Done::Flush(2),
    ];
    check_order(&rt, 5, &[(64, 0x22), (65, 0x33), (72, 0x44)], &order);
}

// The calls of a commit of logical 64 where this journal alone is live.
fn order_on(journal: u8) -> [Done; 9] {
    [
        Done::Write(journal, 264),
        Done::Write(journal, 265),
        Done::Flush(journal),
        Done::Write(journal, 3),
        Done::Flush(journal),
        Done::Write(1, 40),
        Done::Flush(1),
        Done::Write(2, 40),
        Done::Flush(2),
    ]
}

#[test]
fn body_before_seal_on_the_only_journal(rt: HostRuntime) {
    check_order(&rt, 3, &[(64, 0x22)], &order_on(4));
    check_order(&rt, 4, &[(64, 0x22)], &order_on(3));
}
