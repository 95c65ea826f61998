//! What is kept of the run of a bank over files.
ghost use Rattle.std.specs.Prelude.{◌≡◌, ◌<◌, None, Bool, IsTrue, false, not, length, if◌then◌else◌};
ghost use Rattle.sector_model.specs.declared.event.Event.TheVariants.{Quiet, Wrote, Lost, Flushed, DeviceFailed};
ghost use Rattle.sector_model.specs.History.{History, Began, After, calls_of, seen, is_down};
ghost use Rattle.sector_model.specs.declared.calls.TheConstants.{GREATEST_COUNT};

use crate::Sector;

/// The calls of a run, noted one by one. A record that tells its run has only so much room: where it has none,
/// a write or a flush is not noted, and the bank then takes the call as one at which its device went down.
pub trait RunRecord {
    /// Records of this type tell the run.
    ghost tells: { Bool };

    /// The run so far.
    ghost run: { Self → History };

    /// There is no room for a further write or flush.
    ghost is_full: { Self → Bool };

    /// Notes a call that changed nothing.
    fn note_quiet(&mut self)
        requires { IsTrue tells → calls_of (run self.old) < GREATEST_COUNT }
        ensures { IsTrue tells → run self.new ≡ After Quiet (run self.old) };

    /// Notes a write that was answered. Where there is no room nothing is noted, and the answer is no.
    fn note_write(&mut self, dev: u8, at: u32, value: &Sector) -> bool
        requires calls { IsTrue tells → calls_of (run self.old) < GREATEST_COUNT }
        requires up { IsTrue tells → is_down (run self.old) dev ≡ false }
        requires within { IsTrue tells → at < length (seen (run self.old) dev) }
        ensures room { result ≡ not (is_full self.old) }
        ensures noted { IsTrue tells → run
            self.new ≡ (if result then After (Wrote dev at value.now) (run self.old) else run self.old) };

    /// Notes a flush that was answered. Where there is no room nothing is noted, and the answer is no.
    fn note_flush(&mut self, dev: u8) -> bool
        requires calls { IsTrue tells → calls_of (run self.old) < GREATEST_COUNT }
        requires up { IsTrue tells → is_down (run self.old) dev ≡ false }
        ensures room { result ≡ not (is_full self.old) }
        ensures noted { IsTrue tells → run
            self.new ≡ (if result then After (Flushed dev) (run self.old) else run self.old) };

    /// Notes a read or a flush at which the device went down.
    fn note_failure(&mut self, dev: u8)
        requires calls { IsTrue tells → calls_of (run self.old) < GREATEST_COUNT }
        requires up { IsTrue tells → is_down (run self.old) dev ≡ false }
        ensures { IsTrue tells → run self.new ≡ After (DeviceFailed dev) (run self.old) };

    /// Notes a write at which the device went down.
    fn note_loss(&mut self, dev: u8, at: u32, value: &Sector)
        requires calls { IsTrue tells → calls_of (run self.old) < GREATEST_COUNT }
        requires up { IsTrue tells → is_down (run self.old) dev ≡ false }
        ensures { IsTrue tells → run self.new ≡ After (Lost dev at value.now) (run self.old) };
}

/// Keeps nothing of the run.
#[derive(Clone, Copy)]
pub struct NoRecord;

impl RunRecord for NoRecord {
    ghost tells = { false };

    ghost run = { λ _. Began (λ _. None) };

    ghost is_full = { λ _. false };

    fn note_quiet(&mut self) {}

    fn note_write(&mut self, _dev: u8, _at: u32, _value: &Sector) -> bool {
        true
    }

    fn note_flush(&mut self, _dev: u8) -> bool {
        true
    }

    fn note_failure(&mut self, _dev: u8) {}

    fn note_loss(&mut self, _dev: u8, _at: u32, _value: &Sector) {}
}
