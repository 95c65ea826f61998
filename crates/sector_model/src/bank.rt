//! A bank of devices, and the laws that an honest one keeps.
ghost use Rattle.std.specs.Prelude.{◌≡◌, ◌≤◌, ◌<◌, ◌↔◌, ℕ, false, is_ok, OnOk};
ghost use Rattle.sector_model.specs.History.{History, sector_of, seen};
ghost use Rattle.sector_model.specs.Bank.{Panel, CanCall, AfterCall, IsTrueTo, after_read, after_write, after_flush};

use crate::{Down, Sector};

/// Slots numbered from 0, each with a device or without one, called one sector at a time.
///
/// Each device call (a read, a write or a flush) adds one to `now`, also one that fails. A device that
/// answers a fault is down: it answers only faults as long as the bank lives. A slot without a device
/// is down from the start. The atomic step is one device call; a crash may come before or within any of
/// them, and what it may leave is `MayLeave` of specs/History.antt. Of a bank that is not honest only
/// the counts are known: its bytes may be any.
pub trait Bank {
    /// The devices do what the run says. A bank over files is not known to be honest.
    ghost honest: { Self → Type 0 };

    /// What the run began with, and what each device call did since.
    ghost history: { Self → History };

    /// What the calls without an effect answer.
    ghost panel: { Self → Panel };

    /// The number of slots, 5 to 10.
    fn devices(&self) -> u8
        ensures count { result ≡ (panel self.now).devices }
        ensures least { 5 ≤ result }
        ensures most { result ≤ 10 };

    /// The number of sectors of a device, 0 for a slot without one.
    fn sectors(&self, dev: u8) -> u32
        requires { dev < (panel self.now).devices }
        ensures { result ≡ (panel self.now).sectors dev };

    /// Whether the device is down, or the slot has none.
    fn is_down(&self, dev: u8) -> bool
        requires { dev < (panel self.now).devices }
        ensures { result ≡ (panel self.now).down dev };

    /// The number of device calls made so far.
    fn now(&self) -> u64
        ensures { result ≡ (panel self.now).calls };

    /// Reads a sector. At an error `to` may hold anything.
    fn read(&mut self, dev: u8, at: u32, to: &mut Sector) -> Result<(), Down>
        requires call { CanCall dev (panel self.old) }
        requires within { (panel self.old).down dev ≡ false → at < (panel self.old).sectors dev }
        ensures panel { AfterCall dev (is_ok result) (panel self.old) (panel self.new) }
        ensures honest { honest self.old ↔ honest self.new }
        ensures history { honest self.old → history self.new ≡ after_read dev (is_ok result) (history self.old) }
        ensures bytes { honest self.old → OnOk result (to.new ≡ sector_of (seen (history self.old) dev) at) };

    /// Writes a sector. It is safe only after a flush of the device that is answered.
    fn write(&mut self, dev: u8, at: u32, from: &Sector) -> Result<(), Down>
        requires call { CanCall dev (panel self.old) }
        requires within { (panel self.old).down dev ≡ false → at < (panel self.old).sectors dev }
        ensures panel { AfterCall dev (is_ok result) (panel self.old) (panel self.new) }
        ensures honest { honest self.old ↔ honest self.new }
        ensures history { honest self.old
            → history self.new ≡ after_write dev at from.now (is_ok result) (history self.old) };

    /// Makes all that was written to the device safe.
    fn flush(&mut self, dev: u8) -> Result<(), Down>
        requires call { CanCall dev (panel self.old) }
        ensures panel { AfterCall dev (is_ok result) (panel self.old) (panel self.new) }
        ensures honest { honest self.old ↔ honest self.new }
        ensures history { honest self.old → history self.new ≡ after_flush dev (is_ok result) (history self.old) };

    /// An honest bank shows what its run says.
    ghost true_to: { (bank : Self) → honest bank → IsTrueTo (panel bank) (history bank) };
}
