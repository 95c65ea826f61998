//! The last seal of a journal, by what reads give.
ghost use Rattle.std.specs.Prelude.{◌≡◌, ◌⊎◌, ◌≤◌, ◌<◌, ◌↔◌, ◌+◌, [], ◌∷◌, false, is_ok, IfErr, IfOk, IfSome, Some};
ghost use Rattle.std.specs.Prelude.{◌%◌};
ghost use Rattle.layout_map.specs.declared.sizes.TheConstants.{FIRST_SEAL, HALVES};
ghost use Rattle.layout_map.specs.Formats.{journal_sectors};
ghost use Rattle.sector_model.specs.Bank.{IsCauseOf, IsLater};
ghost use Rattle.sector_model.specs.Calls.{Made, Read};
ghost use Rattle.sector_model.specs.History.{seen};
ghost use Rattle.stripe_journal.specs.LastSealed.{Belongs};
ghost use Rattle.stripe_journal.specs.LastEntry.{IsLastSealed};

use crate::Seal;
use crate::counting::{counted, later};
use layout_map::{FIRST_SEAL, Geometry};
use sector_model::{Bank, Sector, Stop, read_sector};

/// The last seal of a journal of the set with this id: of the seals that count there the one with the greater number,
/// `None` where none counts. The journal is a slot of the bank, where it is up with as many sectors as a
/// journal of the set's format has at least (conditions). `Down` names it where it is down; `Worn` where the count of
/// device calls stands at 2^62.
pub fn last_sealed<B: Bank>(
    bank: &mut B,
    dev: u8,
    id: &[u8; 16],
    geometry: &Geometry,
) -> Result<Option<Seal>, Stop>
    requires device { dev < (B.panel bank.old).devices }
    requires within { (B.panel bank.old).down dev ≡ false
        → journal_sectors geometry.now.format ≤ (B.panel bank.old).sectors dev }
    ensures panel { IsLater (B.panel bank.old) (B.panel bank.new) }
    ensures honest { B.honest bank.old ↔ B.honest bank.new }
    ensures made { B.honest bank.old → Made (Read dev FIRST_SEAL ∷ Read dev (FIRST_SEAL + 1) ∷ []) (is_ok result)
        (B.history bank.old) (B.history bank.new) }
    ensures last { B.honest bank.old → IfOk result
        (λ last. IsLastSealed id.now geometry.now (Some (seen (B.history bank.old) dev)) last) }
    ensures belongs { IfOk result (λ last.
        IfSome last (λ seal. Belongs id.now geometry.now (seal.number % HALVES) seal)) }
    ensures err { IfErr result (λ stop. IsCauseOf (B.panel bank.new) stop
        × ((stop ≡ Stop.Worn) ⊎ (stop ≡ Stop.Down dev))) }
{
    let mut even = [0; 512];
    read_sector(bank, dev, FIRST_SEAL, &mut even)?;
    let mut odd = [0; 512];
    read_sector(bank, dev, FIRST_SEAL + 1, &mut odd)?;
    let even = counted(&even, id, geometry, 0);
    let odd = counted(&odd, id, geometry, 1);
    Ok(later(even, odd))
}

#[cfg(test)]
mod tests;
