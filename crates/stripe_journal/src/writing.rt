//! The device calls that put an entry on a journal.
ghost use Rattle.std.specs.Prelude.{◌≡◌, ◌⊎◌, ◌≤◌, ◌<◌, ◌+◌, ◌↔◌, [], ◌∷◌, false, is_ok, length, IfErr, IfOk};
ghost use Rattle.layout_map.specs.Formats.{body_sectors, journal_sectors};
ghost use Rattle.layout_map.specs.declared.sizes.TheConstants.{FIRST_BODY, MOST_MEMBERS};
ghost use Rattle.sector_model.specs.Bank.{IsCauseOf, IsLater};
ghost use Rattle.sector_model.specs.Calls.{Made, Write, writes_from};
ghost use Rattle.stripe_journal.specs.Body.{seal_place};
ghost use Rattle.stripe_journal.specs.Entries.{body_of, half_start, held_of};
ghost use Rattle.entry_runs.specs.Body.{bits_below, count_held, has_bit};
ghost use Rattle.stripe_journal.specs.Spelling.{seal_sector};

use crate::{Entry, EntryView, Seal, half_start, seal_encode};
use layout_map::{FIRST_SEAL, Geometry, HALVES};
use sector_model::{Bank, Stop, write_sector};

/// Writes the body of the entry of this number to a journal: of each row the sectors that its mask has, of the set's
/// members. It flushes nothing. The journal is a slot of the bank, where it is up with as many sectors as a journal of
/// the set's format has at least, and the body fits a half there (conditions). `Down` names it where it is down; `Worn`
/// where the count of device calls stands at 2^62.
pub fn write_body<B: Bank>(
    bank: &mut B,
    dev: u8,
    number: u64,
    entry: &Entry,
    geometry: &Geometry,
) -> Result<(), Stop>
    requires device { dev < (B.panel bank.old).devices }
    requires within { (B.panel bank.old).down dev ≡ false
        → journal_sectors geometry.now.format ≤ (B.panel bank.old).sectors dev }
    requires fits { length (body_of geometry.now.members entry.now) ≤ body_sectors geometry.now.format }
    ensures panel { IsLater (B.panel bank.old) (B.panel bank.new) }
    ensures honest { B.honest bank.old ↔ B.honest bank.new }
    ensures made { B.honest bank.old → Made
        (writes_from dev (half_start geometry.now.format number) (body_of geometry.now.members entry.now))
        (is_ok result) (B.history bank.old) (B.history bank.new) }
    ensures err { IfErr result (λ stop. IsCauseOf (B.panel bank.new) stop
        × ((stop ≡ Stop.Worn) ⊎ (stop ≡ Stop.Down dev))) }
{
    let mut at = half_start(geometry.format, number);
    for i in 0..entry.len() {
        at = write_row(bank, dev, at, &entry.view(i), geometry)?;
    }
    Ok(())
}

// Writes the sectors that a row's mask has, of the set's members, to a journal, from a sector on, up to the end of its
// bodies at most. It answers the sector after them.
fn write_row<B: Bank>(
    bank: &mut B,
    dev: u8,
    first: u32,
    row: &EntryView,
    geometry: &Geometry,
) -> Result<u32, Stop>
    requires device { dev < (B.panel bank.old).devices }
    requires within { (B.panel bank.old).down dev ≡ false
        → journal_sectors geometry.now.format ≤ (B.panel bank.old).sectors dev }
    requires whole { length row.now.sectors.now ≡ bits_below row.now.mask MOST_MEMBERS }
    requires end { first + count_held
        (has_bit row.now.mask) geometry.now.members ≤ journal_sectors geometry.now.format }
    ensures panel { IsLater (B.panel bank.old) (B.panel bank.new) }
    ensures honest { B.honest bank.old ↔ B.honest bank.new }
    ensures beyond { IfOk result (λ at. at ≡ first + count_held (has_bit row.now.mask) geometry.now.members) }
    ensures made { B.honest bank.old → Made (writes_from dev first
        (held_of geometry.now.members row.now.mask row.now.sectors.now)) (is_ok result) (B.history bank.old)
        (B.history bank.new) }
    ensures err { IfErr result (λ stop. IsCauseOf (B.panel bank.new) stop
        × ((stop ≡ Stop.Worn) ⊎ (stop ≡ Stop.Down dev))) }
{
    let mut at = first;
    for member in 0..geometry.members {
        if let Some(sector) = row.member(member) {
            write_sector(bank, dev, at, sector)?;
            at += 1;
        }
    }
    Ok(at)
}

/// Writes a seal to its place on a journal, a slot of the bank where it is up with more sectors than its seals'
/// (conditions). It flushes nothing; errors as of `write_body`.
pub fn write_seal<B: Bank>(bank: &mut B, dev: u8, seal: &Seal) -> Result<(), Stop>
    requires device { dev < (B.panel bank.old).devices }
    requires within { (B.panel bank.old).down dev ≡ false → FIRST_BODY ≤ (B.panel bank.old).sectors dev }
    ensures panel { IsLater (B.panel bank.old) (B.panel bank.new) }
    ensures honest { B.honest bank.old ↔ B.honest bank.new }
    ensures made { B.honest bank.old → Made (Write dev (seal_place seal.now.number) (seal_sector seal.now) ∷ [])
        (is_ok result) (B.history bank.old) (B.history bank.new) }
    ensures err { IfErr result (λ stop. IsCauseOf (B.panel bank.new) stop
        × ((stop ≡ Stop.Worn) ⊎ (stop ≡ Stop.Down dev))) }
{
    let mut sector = [0; 512];
    seal_encode(seal, &mut sector);
    let place = FIRST_SEAL + (seal.number % HALVES as u64) as u32;
    write_sector(bank, dev, place, &sector)
}
