//! The fields of a line, and what they spell: names, which are any bytes but none, and numbers.
ghost use Rattle.std.specs.Prelude.{◌≡◌, ℕ, List, [], ◌∷◌, ◌==◌, IfSome, OnSome, None};
ghost use Rattle.std.specs.Iterator.{YieldsFirstRef, item_count};
ghost use Rattle.std.specs.List.{position};
ghost use Rattle.report.specs.Fields.{AreReadFields, AreUnsized, BeginsWithName, BeginsWithNames, BeginsWithNumber};
ghost use Rattle.report.specs.Fields.{IsOneNumber, fields_left, fields_of, fields_of_rest};

use super::number::number;

/// The fields of a line that are still to be read. One space stands between two fields; a field is
/// empty where two spaces meet, and where a line begins or ends with a space.
#[derive(Drop)]
pub struct Fields<'a> {
    rest: Option<&'a [u8]>,
}

impl<'a> Fields<'a> {
    /// All fields of a line, at least one.
    pub fn of(line: &'a [u8]) -> Self
        ensures { fields_left result ≡ fields_of line.now }
    {
        Fields { rest: Some(line) }
    }
}

impl<'a> Iterator for Fields<'a> {
    type Item = &'a [u8];

    ghost next_gives = { YieldsFirstRef (λ fields. fields_left fields) };

    ghost remaining = { item_count (λ fields. fields_left fields) };

    fn next(&mut self) -> Option<&'a [u8]> {
        let (field, rest) = split_first(self.rest?);
        self.rest = rest;
        Some(field)
    }
}

// The first field of a text, and what follows the space after it, if there is a space.
fn split_first(text: &[u8]) -> (&[u8], Option<&[u8]>)
    ensures { fields_of text.now ≡ result.0.now ∷ fields_of_rest result.1 }
{
    match first_space(text) {
        Some(space) => (&text[..space], Some(&text[space + 1..])),
        None => (text, None),
    }
}

fn first_space(text: &[u8]) -> Option<usize>
    ensures { result ≡ position (λ byte. byte == 32) text.now }
{
    text.iter().position(|byte| *byte == b' ')
}

/// Takes the name of a volume from the fields. None where there is no field, or an empty one.
pub fn next_name<'a>(fields: &mut Fields<'a>) -> Option<&'a [u8]>
    ensures said { IfSome result (λ name. BeginsWithName (fields_left fields.old) name.now (fields_left fields.new)) }
    ensures unsaid { result ≡ None → (name : List ℕ) → (after : List (List ℕ))
        → BeginsWithName (fields_left fields.old) name after → ⊥ }
{
    let name = fields.next()?;
    if name.is_empty() {
        return None;
    }
    Some(name)
}

/// Takes the name of a volume and a number from the fields. None where they begin with no such two.
pub fn next_number<'a>(fields: &mut Fields<'a>) -> Option<(&'a [u8], u32)>
    ensures said { IfSome result (λ read. BeginsWithNumber (fields_left fields.old) read.0.now read.1
        (fields_left fields.new)) }
    ensures unsaid { result ≡ None → (name : List ℕ) → (n : ℕ) → (after : List (List ℕ))
        → BeginsWithNumber (fields_left fields.old) name n after → ⊥ }
{
    let name = next_name(fields)?;
    let n = number(fields.next()?)?;
    Some((name, n))
}

/// Reads no field: None where there is one.
pub fn no_field(mut fields: Fields<'_>) -> Option<()>
    ensures said { OnSome result (fields_left fields.entry ≡ []) }
    ensures unsaid { result ≡ None → fields_left fields.entry ≡ [] → ⊥ }
{
    match fields.next() {
        None => Some(()),
        Some(_) => None,
    }
}

/// Reads fields that are the name of a volume alone. None where they are not.
pub fn one_name<'a>(mut fields: Fields<'a>) -> Option<&'a [u8]>
    ensures said { IfSome result (λ name. BeginsWithName (fields_left fields.entry) name.now []) }
    ensures unsaid { result ≡ None → (name : List ℕ) → BeginsWithName (fields_left fields.entry) name [] → ⊥ }
{
    let name = next_name(&mut fields)?;
    match fields.next() {
        None => Some(name),
        Some(_) => None,
    }
}

/// Reads fields that are the names of two volumes alone. None where they are not.
pub fn two_names<'a>(mut fields: Fields<'a>) -> Option<(&'a [u8], &'a [u8])>
    ensures said { IfSome result (λ names. BeginsWithNames (fields_left fields.entry) names.0.now names.1.now []) }
    ensures unsaid { result ≡ None → (first second : List ℕ)
        → BeginsWithNames (fields_left fields.entry) first second [] → ⊥ }
{
    let first = next_name(&mut fields)?;
    let second = next_name(&mut fields)?;
    match fields.next() {
        None => Some((first, second)),
        Some(_) => None,
    }
}

/// Reads fields that are a number alone. None where they are not.
pub fn one_number(mut fields: Fields<'_>) -> Option<u32>
    ensures said { IfSome result (λ n. IsOneNumber (fields_left fields.entry) n) }
    ensures unsaid { result ≡ None → (n : ℕ) → IsOneNumber (fields_left fields.entry) n → ⊥ }
{
    let n = number(fields.next()?)?;
    match fields.next() {
        None => Some(n),
        Some(_) => None,
    }
}

/// Reads fields that are the name of a volume and a number alone. None where they are not.
pub fn name_and_number<'a>(mut fields: Fields<'a>) -> Option<(&'a [u8], u32)>
    ensures said { IfSome result (λ sized. BeginsWithNumber (fields_left fields.entry) sized.0.now sized.1 []) }
    ensures unsaid { result ≡ None → AreUnsized (fields_left fields.entry) }
{
    let sized = next_number(&mut fields)?;
    match fields.next() {
        None => Some(sized),
        Some(_) => None,
    }
}

/// Reads fields that are the name of a volume and two numbers alone. None where they are not.
pub fn name_and_two_numbers<'a>(mut fields: Fields<'a>) -> Option<(&'a [u8], u32, u32)>
    ensures said { IfSome result
        (λ read. AreReadFields (fields_left fields.entry) read.0.now read.1 read.2) }
    ensures unsaid { result ≡ None → (name : List ℕ) → (at count : ℕ)
        → AreReadFields (fields_left fields.entry) name at count → ⊥ }
{
    let (name, at) = next_number(&mut fields)?;
    let count = number(fields.next()?)?;
    match fields.next() {
        None => Some((name, at, count)),
        Some(_) => None,
    }
}
