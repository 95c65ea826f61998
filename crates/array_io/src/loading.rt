//! An entry is loaded from a journal.
ghost use Rattle.std.specs.Prelude.{◌≡◌, ◌≢◌, ◌⊎◌, ◌≤◌, ◌<◌, ◌+◌, ◌↔◌, ℕ, false, true, OnOk, IfErr, IfOk, length};
ghost use Rattle.sector_model.specs.Bank.{IsCauseOf, IsLater};
ghost use Rattle.sector_model.specs.History.{is_down, seen, sector_of};
ghost use Rattle.sector_model.specs.Reads.{HasRead};
ghost use Rattle.layout_map.specs.Formats.{journal_sectors};
ghost use Rattle.layout_map.specs.declared.sizes.TheConstants.{MOST_MEMBERS};
ghost use Rattle.stripe_journal.specs.Entries.{IsEntryOf, body_start, form_of, numbers_of, row_mask, sector_at};
ghost use Rattle.stripe_journal.specs.Forms.{count_held, format_of, has_bit, in_body, rank, rows_in};

use layout_map::Geometry;
use sector_model::{Bank, Stop, read_sector};
use stripe_journal::{Entry, Seal, half_start};

/// Reads the entry of a seal of the set's format from this journal, a slot of the bank with as many sectors as a
/// journal of that format has at least where its device is up (conditions): its rows, and of each the sectors that the
/// seal says the body has. `Stop::Down` names the journal's device, `Stop::Worn` says that the count of
/// device calls stands at 2^62.
pub fn load_entry<B: Bank>(
    bank: &mut B,
    journal: u8,
    geometry: &Geometry,
    seal: &Seal,
    entry: &mut Entry,
) -> Result<(), Stop>
    requires slot { journal < (B.panel bank.old).devices }
    requires of_format { format_of seal.now.form ≡ geometry.now.format }
    requires within { (B.panel bank.old).down journal ≡ false
        → journal_sectors geometry.now.format ≤ (B.panel bank.old).sectors journal }
    ensures panel { IsLater (B.panel bank.old) (B.panel bank.new) }
    ensures honest { B.honest bank.old ↔ B.honest bank.new }
    ensures read { B.honest bank.old → HasRead (B.history bank.old) (B.history bank.new) }
    ensures entry { OnOk result (IsEntryOf geometry.now.members seal.now.form entry.new) }
    ensures loaded { (i member : ℕ) → B.honest bank.old → i < length (rows_in seal.now.form)
        → member < geometry.now.members
        → in_body geometry.now.members seal.now.form i member ≡ true
        → OnOk result (sector_at entry.new i member
        ≡ sector_of (seen (B.history bank.old) journal)
        (body_start seal.now + rank geometry.now.members seal.now.form i member)) }
    ensures others_stay { (other : ℕ) → B.honest bank.old → other ≢ journal
        → is_down (B.history bank.new) other ≡ is_down (B.history bank.old) other }
    ensures none_failed { (device : ℕ) → B.honest bank.old
        → OnOk result (is_down (B.history bank.new) device ≡ is_down (B.history bank.old) device) }
    ensures err { IfErr result (λ stop. IsCauseOf (B.panel bank.new) stop
        × ((stop ≡ Stop.Worn) ⊎ (stop ≡ Stop.Down journal))) }
{
    let mut at = half_start(seal.form.format(), seal.number);
    entry.set(seal, geometry.members);
    for i in 0..entry.len() {
        at = load_row(bank, journal, geometry, at, i, entry)?;
    }
    Ok(())
}

// Reads the sectors that the mask of the entry's i-th row has, of the set's members, from the journal into that row.
// They stand from a sector on, up to the end of the journal's bodies at most; it answers the sector after them.
fn load_row<B: Bank>(
    bank: &mut B,
    journal: u8,
    geometry: &Geometry,
    first: u32,
    i: usize,
    entry: &mut Entry,
) -> Result<u32, Stop>
    requires slot { journal < (B.panel bank.old).devices }
    requires row { i < length (numbers_of entry.old) }
    requires end { first + count_held (has_bit (row_mask entry.old i)) geometry.now.members
        ≤ journal_sectors geometry.now.format }
    requires within { (B.panel bank.old).down journal ≡ false
        → journal_sectors geometry.now.format ≤ (B.panel bank.old).sectors journal }
    ensures panel { IsLater (B.panel bank.old) (B.panel bank.new) }
    ensures honest { B.honest bank.old ↔ B.honest bank.new }
    ensures read { B.honest bank.old → HasRead (B.history bank.old) (B.history bank.new) }
    ensures beyond { IfOk result (λ at. at
        ≡ first + count_held (has_bit (row_mask entry.old i)) geometry.now.members) }
    ensures numbers { numbers_of entry.new ≡ numbers_of entry.old }
    ensures form { form_of entry.new ≡ form_of entry.old }
    ensures loaded { (member : ℕ) → B.honest bank.old → member < geometry.now.members
        → has_bit (row_mask entry.old i) member ≡ true
        → OnOk result (sector_at entry.new i member ≡ sector_of (seen (B.history bank.old) journal)
        (first + count_held (has_bit (row_mask entry.old i)) member)) }
    ensures others { (other member : ℕ) → other ≢ i → member < MOST_MEMBERS
        → sector_at entry.new other member ≡ sector_at entry.old other member }
    ensures others_stay { (other : ℕ) → B.honest bank.old → other ≢ journal
        → is_down (B.history bank.new) other ≡ is_down (B.history bank.old) other }
    ensures none_failed { (device : ℕ) → B.honest bank.old
        → OnOk result (is_down (B.history bank.new) device ≡ is_down (B.history bank.old) device) }
    ensures err { IfErr result (λ stop. IsCauseOf (B.panel bank.new) stop
        × ((stop ≡ Stop.Worn) ⊎ (stop ≡ Stop.Down journal))) }
{
    let mut at = first;
    for member in 0..geometry.members {
        if entry.view(i).member(member).is_some() {
            read_sector(bank, journal, at, entry.sector_mut(i, member))?;
            at += 1;
        }
    }
    Ok(at)
}
