//! A seal as a sector, and a sector as a seal.
ghost use Rattle.std.specs.Prelude.{◌≡◌, ◌↔◌, ◌≤◌, ◌<◌, ℕ, List, IsTrue, IfSome, Some, count_ones, drop, length};
ghost use Rattle.std.specs.Prelude.{slice_index, take};
ghost use Rattle.std.specs.List.Sorted.{IsStrictlyIncreasing};
ghost use Rattle.layout_map.specs.declared.sizes.TheConstants.{ENTRY_ROWS};
ghost use Rattle.stripe_journal.specs.declared.form.Form.{Form};
ghost use Rattle.stripe_journal.specs.declared.form.Form.TheVariants.{Held};
ghost use Rattle.stripe_journal.specs.declared.seal.Seal.{Seal};
ghost use Rattle.stripe_journal.specs.Forms.{AreMasks, IsForm, mask_at, rows_in};
ghost use Rattle.stripe_journal.specs.Seals.{AreRows};
ghost use Rattle.stripe_journal.specs.Spelling.{count_in, first_mark, held_bytes, listed_bytes, seal_sector};

use crate::{Form, Seal};
use arrayvec::ArrayVec;
use byteorder::{ByteOrder, LittleEndian};
use entry_runs::{RUNS_BYTES, decode_runs, encode_runs};
use layout_map::ENTRY_ROWS;
use sector_model::{GREATEST_COUNT, Sector};

/// Writes the one spelling of a seal, over whatever the sector held.
pub fn seal_encode(seal: &Seal, to: &mut Sector)
    ensures { to.new ≡ seal_sector seal.now }
{
    to.fill(0);
    to[..8].copy_from_slice(seal.form.first_mark());
    to[8..24].copy_from_slice(&seal.id);
    LittleEndian::write_u64(&mut to[24..32], seal.number);
    LittleEndian::write_u32(&mut to[32..36], seal.form.count());
    to[40..504].copy_from_slice(&encode_held(&seal.form));
    to[504..].copy_from_slice(seal.form.last_mark());
}

/// The bytes of what an entry holds, in a form that a seal may have (condition).
fn encode_held(form: &Form) -> [u8; RUNS_BYTES]
    requires { IsForm form.now }
    ensures { result ≡ held_bytes form.now }
{
    let mut bytes = [0; RUNS_BYTES];
    match form {
        Form::Whole(rows) => encode_listed(rows.as_slice(), &[0; ENTRY_ROWS], &mut bytes),
        Form::Held(rows, masks) => encode_listed(rows.as_slice(), masks, &mut bytes),
        Form::Runs(runs) => encode_runs(runs, &mut bytes),
    }
    bytes
}

/// Writes the bytes of rows, at most 32 (condition), and of masks, over whatever the bytes held.
fn encode_listed(rows: &[u32], masks: &[u8; ENTRY_ROWS], to: &mut [u8; RUNS_BYTES])
    requires { length rows.now ≤ ENTRY_ROWS }
    ensures { to.new ≡ listed_bytes rows.now masks.now }
{
    to.fill(0);
    LittleEndian::write_u32_into(rows, &mut to[..4 * rows.len()]);
    to[128..160].copy_from_slice(masks);
}

/// The seal that a sector spells, or `None` where it spells none: where a mark is missing, a byte between the fields is
/// not 0, or the number is not 1 to 2^62. Where it lists rows, also where they are not 1 to 32 or do not rise, a row or
/// a mask past the count is not 0, or the mask of a row has fewer than two bits; and where it has runs, where those
/// are not the runs of an entry.
pub fn seal_decode(from: &Sector) -> Option<Seal>
    ensures some { IfSome result (λ s. from.now ≡ seal_sector s) }
    ensures exact { (s : Seal) → from.now ≡ seal_sector s → result ≡ Some s }
{
    let seal = read_seal(from)?;
    let mut again = [0; 512];
    seal_encode(&seal, &mut again);
    if again == *from { Some(seal) } else { None }
}

/// The seal whose fields stand in a sector, if they are a seal's. It looks at no byte outside the fields.
fn read_seal(from: &Sector) -> Option<Seal>
    ensures { (s : Seal) → from.now ≡ seal_sector s → result ≡ Some s }
{
    let number = LittleEndian::read_u64(&from[24..32]);
    let count = LittleEndian::read_u32(&from[32..36]);
    let mut held = [0; RUNS_BYTES];
    held.copy_from_slice(&from[40..504]);
    let form = read_form(from[7], count, &held)?;
    if number == 0 || number > GREATEST_COUNT {
        return None;
    }
    let mut id = [0; 16];
    id.copy_from_slice(&from[8..24]);
    Some(Seal { id, number, form })
}

/// The form whose fields stand in these bytes, if they are a seal's, by the last byte of the mark at its start and the
/// count.
fn read_form(mark: u8, count: u32, held: &[u8; RUNS_BYTES]) -> Option<Form>
    ensures formed { IfSome result (λ form. IsForm form × AreRows (rows_in form)) }
    ensures exact { (form : Form) → IsForm form → AreRows (rows_in form) → mark ≡ slice_index (first_mark form) 7
        → count ≡ count_in form → held.now ≡ held_bytes form → result ≡ Some form }
{
    if mark == b'3' {
        return match decode_runs(held, count) {
            Some(runs) => Some(Form::Runs(runs)),
            None => None,
        };
    }
    let rows = read_rows(count, held);
    if !are_rows(rows.as_slice()) {
        return None;
    }
    if mark == b'2' {
        read_masks(rows, held)
    } else {
        Some(Form::Whole(rows))
    }
}

/// The form of these rows with the masks that stand in these bytes, if they may be those of the rows.
fn read_masks(rows: ArrayVec<u32, ENTRY_ROWS>, held: &[u8; RUNS_BYTES]) -> Option<Form>
    ensures formed { IfSome result (λ form. IsForm form × (rows_in form ≡ rows.items)) }
    ensures exact { AreMasks (take 32 (drop 128 held.now)) (length rows.items)
        → result ≡ Some (Held rows (take 32 (drop 128 held.now))) }
{
    let mut masks = [0; ENTRY_ROWS];
    masks.copy_from_slice(&held[128..160]);
    if are_masks(&masks, rows.len()) {
        Some(Form::Held(rows, masks))
    } else {
        None
    }
}

/// The row numbers in these bytes, as many as the count says, and 32 where it says more.
fn read_rows(count: u32, held: &[u8; RUNS_BYTES]) -> ArrayVec<u32, ENTRY_ROWS>
    ensures few { length result.items ≤ ENTRY_ROWS }
    ensures exact { (rows masks : List ℕ) → AreRows rows → length rows ≤ ENTRY_ROWS → count ≡ length rows
        → held.now ≡ listed_bytes rows masks → result.items ≡ rows }
{
    let mut numbers = [0; ENTRY_ROWS];
    LittleEndian::read_u32_into(&held[..128], &mut numbers);
    let mut rows = ArrayVec::from_array_in((), numbers);
    rows.truncate(count as usize);
    rows
}

/// Whether an entry may have these rows.
fn are_rows(rows: &[u32]) -> bool
    ensures { IsTrue result ↔ AreRows rows.now }
{
    !rows.is_empty() && is_rising(rows)
}

/// Whether each row is below the next.
fn is_rising(rows: &[u32]) -> bool
    ensures { IsTrue result ↔ IsStrictlyIncreasing rows.now }
{
    rows.is_sorted_by(|low, high| low < high)
}

/// Whether an entry with so many rows, at most 32 (condition), may have these masks.
fn are_masks(masks: &[u8; ENTRY_ROWS], count: usize) -> bool
    requires { count ≤ ENTRY_ROWS }
    ensures { IsTrue result ↔ AreMasks masks.now count }
{
    hold_two(&masks[..count]) && are_zero(&masks[count..])
}

/// Whether each mask has at least two bits.
fn hold_two(masks: &[u8]) -> bool
    ensures { IsTrue result ↔ ((i : ℕ) → i < length masks.now → 2 ≤ count_ones (mask_at masks.now i)) }
{
    masks.iter().all(|mask| mask.count_ones() >= 2)
}

/// Whether each mask is 0.
fn are_zero(masks: &[u8]) -> bool
    ensures { IsTrue result ↔ ((i : ℕ) → i < length masks.now → mask_at masks.now i ≡ 0) }
{
    masks.iter().all(|mask| *mask == 0)
}
