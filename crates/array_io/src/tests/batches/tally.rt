//! A bank that counts what is done with each of its devices.
ghost use Rattle.std.specs.Prelude.{◌≡◌};

use crate::testing::same;
use sector_model::{Bank, Down, Sector};
use std::process::Abort;

/// Device calls, slot by slot.
#[derive(Clone, Copy)]
pub(crate) struct Calls {
    pub reads: [u64; 10],
    pub writes: [u64; 10],
    pub flushes: [u64; 10],
}

/// A bank, and the calls that were made of it.
#[derive(Drop)]
pub(crate) struct Tally<B: Bank> {
    pub bank: B,
    pub calls: Calls,
}

impl<B: Bank> Bank for Tally<B> {
    ghost honest = { λ tally. B.honest tally.bank };

    ghost history = { λ tally. B.history tally.bank };

    ghost panel = { λ tally. B.panel tally.bank };

    ghost true_to = { λ tally honest. B.true_to tally.bank honest };

    fn devices(&self) -> u8 {
        self.bank.devices()
    }

    fn sectors(&self, dev: u8) -> u32 {
        self.bank.sectors(dev)
    }

    fn is_down(&self, dev: u8) -> bool {
        self.bank.is_down(dev)
    }

    fn now(&self) -> u64 {
        self.bank.now()
    }

    fn read(&mut self, dev: u8, at: u32, to: &mut Sector) -> Result<(), Down> {
        count(&mut self.calls.reads, dev);
        self.bank.read(dev, at, to)
    }

    fn write(&mut self, dev: u8, at: u32, from: &Sector) -> Result<(), Down> {
        count(&mut self.calls.writes, dev);
        self.bank.write(dev, at, from)
    }

    fn flush(&mut self, dev: u8) -> Result<(), Down> {
        count(&mut self.calls.flushes, dev);
        self.bank.flush(dev)
    }
}

// One call more of a device.
fn count(calls: &mut [u64; 10], dev: u8) {
    if dev < 10 {
        let slot = dev as usize;
        calls[slot] = calls[slot].saturating_add(1);
    }
}

/// The bank, with no call counted so far.
pub(crate) fn tallied<B: Bank>(bank: B) -> Tally<B> {
    Tally {
        bank,
        calls: Calls {
            reads: [0; 10],
            writes: [0; 10],
            flushes: [0; 10],
        },
    }
}

/// Asks that these calls were made, and no others.
pub(crate) fn check_calls(rt: &impl Abort, calls: &Calls, want: &Calls) {
    same(rt, ("reads", calls.reads), ("reads", want.reads));
    same(rt, ("writes", calls.writes), ("writes", want.writes));
    same(rt, ("flushes", calls.flushes), ("flushes", want.flushes));
}
