//! Sizes, as texts spell them.
ghost use Rattle.std.specs.Prelude.{◌≡◌, ◌∷◌, ◌++◌, ◌<◌, ◌^◌, ℕ, IfErr, IfOk, IfSome, [], decimal};
ghost use Rattle.command_line.specs.Sizes.{IsAmount, IsExtent, IsRoom, SpellsUnits, unit_blocks};

use crate::{InvocationFault, Size};

/// Reads how much room the volumes of a new set are to have.
pub(crate) fn read_room(text: &str) -> Result<Size, InvocationFault>
    ensures ok { IfOk result (IsRoom text.now) }
    ensures err { IfErr result (λ fault. (fault ≡ InvocationFault.BadSize) × ((size : Size) → ¬ IsRoom text.now size)) }
{
    if text == "max" {
        return Ok(Size::Most);
    }
    match units(text) {
        Some((letter, blocks)) if letter != b'K' && blocks > 0 => Ok(Size::Blocks(blocks)),
        _ => Err(InvocationFault::BadSize),
    }
}

/// Reads how many blocks of 512 bytes a volume is to have, or to get.
pub(crate) fn read_extent(text: &str) -> Result<u32, InvocationFault>
    ensures ok { IfOk result (IsExtent text.now) }
    ensures err { IfErr result (λ fault. (fault ≡ InvocationFault.BadSize)
        × ((blocks : ℕ) → ¬ IsExtent text.now blocks)) }
{
    match amount(text) {
        Some(blocks) if blocks <= u64::from(u32::MAX) => Ok(blocks as u32),
        _ => Err(InvocationFault::BadSize),
    }
}

// How many blocks of 512 bytes a text is, by a number alone or with a unit. None where it is
// neither, or these are more than a `u64` counts.
fn amount(text: &str) -> Option<u64>
    ensures said { IfSome result (λ blocks. IsAmount text.now blocks × (blocks < 2 ^ 64)) }
    ensures unsaid { result ≡ None → (blocks : ℕ) → IsAmount text.now blocks → blocks < 2 ^ 64 → ⊥ }
{
    if let Some(blocks) = number(text) {
        return Some(blocks);
    }
    let (_, blocks) = units(text)?;
    Some(blocks)
}

// The letter of the unit after a number, and how many blocks of 512 bytes both are. None where the
// text is no number with a unit, or these are more than a `u64` counts.
fn units(text: &str) -> Option<(u8, u64)>
    ensures said { IfSome result (λ read. SpellsUnits text.now read.0 read.1 × (read.1 < 2 ^ 64)) }
    ensures unsaid { result ≡ None → (letter blocks : ℕ) → SpellsUnits text.now letter blocks → blocks < 2 ^ 64 → ⊥ }
{
    let (digits, unit) = text.split_at_checked(text.len().checked_sub(1)?)?;
    let letter = unit.as_bytes()[0];
    let blocks = number(digits)?.checked_mul(unit_blocks(letter)?)?;
    Some((letter, blocks))
}

// How many blocks of 512 bytes the unit of this letter is.
fn unit_blocks(letter: u8) -> Option<u64>
    ensures { result ≡ unit_blocks letter }
{
    match letter {
        b'K' => Some(2),
        b'M' => Some(2048),
        b'G' => Some(1 << 21),
        b'T' => Some(1 << 31),
        _ => None,
    }
}

// The number that a text spells in decimal digits, without a sign or a leading zero. None where it
// spells none, or a larger one than a `u64` holds.
fn number(text: &str) -> Option<u64>
    ensures said { IfSome result (λ n. text.now ≡ decimal n) }
    ensures unsaid { result ≡ None → (n : ℕ) → n < 2 ^ 64 → text.now ≡ decimal n → ⊥ }
{
    if text.starts_with('+') || (text.len() > 1 && text.starts_with('0')) {
        return None;
    }
    text.parse().ok()
}
