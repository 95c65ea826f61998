//! Device calls that first ask whether a further call can be counted.
ghost use Rattle.std.specs.Prelude.{◌≡◌, ◌⊎◌, ◌≤◌, ◌<◌, ◌↔◌, ◌^◌, ℕ, false, is_ok, OnOk, IfErr};
ghost use Rattle.sector_model.specs.History.{sector_of, seen};
ghost use Rattle.sector_model.specs.Bank.{IsLater, IsCauseOf, after_try, after_read, after_write, after_flush};

use crate::{Bank, Sector, Stop};

/// The greatest value of each counter: of device calls, at which no further call is made, of generations,
/// incarnations and numbers of entries.
pub const GREATEST_COUNT: u64 = 1 << 62;

/// Reads a sector. `Stop::Down` names the device where it is down; `Stop::Worn` where the count of calls
/// stands at 2^62, with no call made. At an error `to` may hold anything.
#[tactic(auto, using(crate::proofs::Panels::later_same, crate::proofs::Panels::later_call))]
pub fn read_sector<B: Bank>(bank: &mut B, dev: u8, at: u32, to: &mut Sector) -> Result<(), Stop>
    requires device { dev < (B.panel bank.old).devices }
    requires within { (B.panel bank.old).down dev ≡ false → at < (B.panel bank.old).sectors dev }
    ensures panel { IsLater (B.panel bank.old) (B.panel bank.new) }
    ensures honest { B.honest bank.old ↔ B.honest bank.new }
    ensures history { B.honest bank.old → B.history bank.new ≡ after_try (after_read dev) result (B.history bank.old) }
    ensures bytes { B.honest bank.old → OnOk result (to.new ≡ sector_of (seen (B.history bank.old) dev) at) }
    ensures up { OnOk result ((B.panel bank.new).down dev ≡ false) }
    ensures err { IfErr result (λ stop. IsCauseOf (B.panel bank.new) stop
        × ((stop ≡ Stop.Worn) ⊎ (stop ≡ Stop.Down dev))) }
{
    if bank.now() >= GREATEST_COUNT {
        return Err(Stop::Worn);
    }
    match bank.read(dev, at, to) {
        Ok(()) => Ok(()),
        Err(_) => Err(Stop::Down(dev)),
    }
}

/// Writes a sector; errors as of `read_sector`. It is safe only after a flush that is answered.
#[tactic(auto, using(crate::proofs::Panels::later_same, crate::proofs::Panels::later_call))]
pub fn write_sector<B: Bank>(bank: &mut B, dev: u8, at: u32, from: &Sector) -> Result<(), Stop>
    requires device { dev < (B.panel bank.old).devices }
    requires within { (B.panel bank.old).down dev ≡ false → at < (B.panel bank.old).sectors dev }
    ensures panel { IsLater (B.panel bank.old) (B.panel bank.new) }
    ensures honest { B.honest bank.old ↔ B.honest bank.new }
    ensures history { B.honest bank.old → B.history bank.new ≡ after_try (after_write dev at from.now) result
        (B.history bank.old) }
    ensures up { OnOk result ((B.panel bank.new).down dev ≡ false) }
    ensures err { IfErr result (λ stop. IsCauseOf (B.panel bank.new) stop
        × ((stop ≡ Stop.Worn) ⊎ (stop ≡ Stop.Down dev))) }
{
    if bank.now() >= GREATEST_COUNT {
        return Err(Stop::Worn);
    }
    match bank.write(dev, at, from) {
        Ok(()) => Ok(()),
        Err(_) => Err(Stop::Down(dev)),
    }
}

/// Flushes a device; errors as of `read_sector`.
#[tactic(auto, using(crate::proofs::Panels::later_same, crate::proofs::Panels::later_call))]
pub fn flush_device<B: Bank>(bank: &mut B, dev: u8) -> Result<(), Stop>
    requires { dev < (B.panel bank.old).devices }
    ensures panel { IsLater (B.panel bank.old) (B.panel bank.new) }
    ensures honest { B.honest bank.old ↔ B.honest bank.new }
    ensures history { B.honest bank.old → B.history bank.new ≡ after_try (after_flush dev) result (B.history bank.old) }
    ensures up { OnOk result ((B.panel bank.new).down dev ≡ false) }
    ensures err { IfErr result (λ stop. IsCauseOf (B.panel bank.new) stop
        × ((stop ≡ Stop.Worn) ⊎ (stop ≡ Stop.Down dev))) }
{
    if bank.now() >= GREATEST_COUNT {
        return Err(Stop::Worn);
    }
    match bank.flush(dev) {
        Ok(()) => Ok(()),
        Err(_) => Err(Stop::Down(dev)),
    }
}
