//! A copy of an entry, from one journal to the other.
ghost use Rattle.std.specs.Prelude.{◌≡◌, ◌≢◌, ◌⊎◌, ◌≤◌, ◌<◌, ◌↔◌, false, is_ok, IfErr, OnOk};
ghost use Rattle.layout_map.specs.Formats.{journal_sectors};
ghost use Rattle.sector_model.specs.Bank.{IsCauseOf, IsLater};
ghost use Rattle.sector_model.specs.Calls.{Made};
ghost use Rattle.sector_model.specs.History.{seen};
ghost use Rattle.stripe_journal.specs.Copying.{CopiesEntry, body_in, copied_from};
ghost use Rattle.stripe_journal.specs.Entries.{body_start};
ghost use Rattle.stripe_journal.specs.Forms.{format_of};

use crate::{Seal, half_start, write_seal};
use layout_map::Geometry;
use sector_model::{Bank, Stop, flush_device, read_sector, write_sector};

/// Copies the entry of this seal from the journal `from` to the journal `to`: the body first, sector after sector, and
/// only when it is flushed the seal, which is flushed too. What the body of `from` holds it does not check. The
/// journals are two slots of the bank, each where it is up with as many sectors as a journal of the set's format has at
/// least, and the seal's form is one of that format (conditions). `Down` names the one that is down; `Worn` where the
/// count of device calls stands at 2^62.
pub fn copy_entry<B: Bank>(
    bank: &mut B,
    from: u8,
    to: u8,
    seal: &Seal,
    geometry: &Geometry,
) -> Result<(), Stop>
    requires from { from < (B.panel bank.old).devices }
    requires to { to < (B.panel bank.old).devices }
    requires apart { from ≢ to }
    requires format { format_of seal.now.form ≡ geometry.now.format }
    requires from_within { (B.panel bank.old).down from ≡ false
        → journal_sectors geometry.now.format ≤ (B.panel bank.old).sectors from }
    requires to_within { (B.panel bank.old).down to ≡ false
        → journal_sectors geometry.now.format ≤ (B.panel bank.old).sectors to }
    ensures honest { B.honest bank.old ↔ B.honest bank.new }
    ensures up { OnOk result ((B.panel bank.new).down to ≡ false) }
    ensures copies { CopiesEntry (B.honest bank.old) geometry.now.members from to seal.now (B.panel bank.old)
        (B.panel bank.new) (B.history bank.old) (B.history bank.new) result }
{
    copy_body(bank, from, to, seal, geometry)?;
    flush_device(bank, to)?;
    write_seal(bank, to, seal)?;
    flush_device(bank, to)
}

// Copies the body of the entry of this seal, and flushes nothing; conditions and errors as of `copy_entry`.
fn copy_body<B: Bank>(
    bank: &mut B,
    from: u8,
    to: u8,
    seal: &Seal,
    geometry: &Geometry,
) -> Result<(), Stop>
    requires from { from < (B.panel bank.old).devices }
    requires to { to < (B.panel bank.old).devices }
    requires apart { from ≢ to }
    requires format { format_of seal.now.form ≡ geometry.now.format }
    requires from_within { (B.panel bank.old).down from ≡ false
        → journal_sectors geometry.now.format ≤ (B.panel bank.old).sectors from }
    requires to_within { (B.panel bank.old).down to ≡ false
        → journal_sectors geometry.now.format ≤ (B.panel bank.old).sectors to }
    ensures panel { IsLater (B.panel bank.old) (B.panel bank.new) }
    ensures honest { B.honest bank.old ↔ B.honest bank.new }
    ensures made { B.honest bank.old → Made
        (copied_from from to (body_start seal.now)
        (body_in geometry.now.members (seen (B.history bank.old) from) seal.now)) (is_ok result) (B.history bank.old)
        (B.history bank.new) }
    ensures err { IfErr result (λ stop. IsCauseOf (B.panel bank.new) stop
        × ((stop ≡ Stop.Worn) ⊎ (stop ≡ Stop.Down from) ⊎ (stop ≡ Stop.Down to))) }
{
    let first = half_start(geometry.format, seal.number);
    let count = seal.form.held(geometry.members);
    let mut sector = [0; 512];
    for i in 0..count {
        read_sector(bank, from, first + i, &mut sector)?;
        write_sector(bank, to, first + i, &sector)?;
    }
    Ok(())
}

#[cfg(test)]
mod tests;
