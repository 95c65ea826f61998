//! Numbers in decimal.
ghost use Rattle.std.specs.Prelude.{◌≡◌, ℕ, IfSome, None};
ghost use Rattle.report.specs.Grammar.{IsNumber};

/// The number that a field spells in decimal, at most 4,294,967,295. None where the field is no
/// number: it is empty, has another byte than a digit, begins with a zero that is not all of it, or
/// spells a larger number.
pub fn number(field: &[u8]) -> Option<u32>
    ensures said { IfSome result (λ n. IsNumber field.now n) }
    ensures unsaid { result ≡ None → (n : ℕ) → IsNumber field.now n → ⊥ }
{
    if field.is_empty() || (field.len() > 1 && field[0] == b'0') {
        return None;
    }
    let mut value: u32 = 0;
    'digits: for digit in field {
        if !digit.is_ascii_digit() {
            return None;
        }
        value = value
            .checked_mul(10)?
            .checked_add(u32::from(*digit - b'0'))?;
    }
    Some(value)
}
