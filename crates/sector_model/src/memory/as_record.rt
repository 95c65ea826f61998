//! A bank in memory that keeps the run of another bank. Its plan is not asked.
ghost use Rattle.std.specs.Prelude.{true, ◌==◌};
ghost use Rattle.sector_model.specs.Memory.{run_of, slots_of};

use super::MemBank;
use crate::{Event, RunRecord, Sector};

impl RunRecord for MemBank {
    ghost tells = { true };

    ghost run = { λ m. run_of (slots_of m.start.items) m.log.items m.calls };

    ghost is_full = { λ m. m.room == 0 };

    fn note_quiet(&mut self) {
        self.pass();
    }

    fn note_write(&mut self, dev: u8, at: u32, value: &Sector) -> bool {
        if self.room == 0 {
            return false;
        }
        self.put(dev, at, value);
        true
    }

    fn note_flush(&mut self, dev: u8) -> bool {
        if self.room == 0 {
            return false;
        }
        self.settle(dev);
        true
    }

    fn note_failure(&mut self, dev: u8) {
        self.fail_device(dev as usize, Event::DeviceFailed { device: dev });
    }

    fn note_loss(&mut self, dev: u8, at: u32, value: &Sector) {
        let value = *value;
        self.fail_device(
            dev as usize,
            Event::Lost {
                device: dev,
                at,
                value,
            },
        );
    }
}
