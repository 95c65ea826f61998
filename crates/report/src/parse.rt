//! The lines of a script.
ghost use Rattle.std.specs.Prelude.{◌≡◌, ℕ, List, [], IfSome, None};
ghost use Rattle.volume_table.specs.Volumes.{Block};
ghost use Rattle.volume_table.specs.VolumeStep.{Command, Create, Extend, Names, Read, Remove, Rename, Write};
ghost use Rattle.report.specs.Fields.{AreReadFields, AreUnsized, AreWriteFields, BeginsWithName, BeginsWithNames};
ghost use Rattle.report.specs.Fields.{fields_left};
ghost use Rattle.report.specs.Grammar.{Says};
ghost use Rattle.report.specs.Kept.{IsKept, IsSizedEvent, SaysOneCommand};

use sector_model::Sector;
use volume_table::{Event, MOST_BLOCKS_AT_ONCE};

mod block;
pub mod fields;
mod keyword;
pub mod number;

use block::keep_blocks;
use fields::{
    Fields, name_and_number, name_and_two_numbers, next_number, no_field, one_name, two_names,
};
use keyword::Keyword;

/// The most blocks of a write that are kept: one more than a write may have, so that a longer one
/// is still seen as too long.
pub const KEPT_BLOCKS: usize = MOST_BLOCKS_AT_ONCE + 1;

/// Reads a line (without its end): what a store is asked, a command on volumes. Names lie in the line, and the blocks
/// of a write in the buffer. None where the line is no command; the buffer then holds anything. The first `KEPT_BLOCKS`
/// of a write are kept, and the others are only checked to be blocks.
pub fn parse<'a>(line: &'a [u8], blocks: &'a mut [Sector; KEPT_BLOCKS]) -> Option<Event<'a>>
    ensures said { IfSome result (λ event. (command : Command) × Says line.now command × IsKept command event) }
    ensures unsaid { result ≡ None → (command : Command) → Says line.now command → ⊥ }
{
    let mut fields = Fields::of(line);
    match Keyword::of(fields.next()?)? {
        Keyword::List => parse_list(fields),
        Keyword::Create => parse_create(fields),
        Keyword::Extend => parse_extend(fields),
        Keyword::Remove => parse_remove(fields),
        Keyword::Rename => parse_rename(fields),
        Keyword::Read => parse_read(fields),
        Keyword::Write => parse_write(fields, blocks),
    }
}

/// No line says two commands.
pub fn a_line_says_one_command()
    ensures { SaysOneCommand }
{}

// Reads what follows the word `list`: nothing.
fn parse_list<'a>(fields: Fields<'a>) -> Option<Event<'a>>
    ensures said { IfSome result (λ event. (fields_left fields.entry ≡ []) × IsKept Names event) }
    ensures unsaid { result ≡ None → fields_left fields.entry ≡ [] → ⊥ }
{
    no_field(fields)?;
    Some(Event::List)
}

// Reads what follows the word `create`.
fn parse_create<'a>(fields: Fields<'a>) -> Option<Event<'a>>
    ensures said { IfSome result (IsSizedEvent Create (fields_left fields.entry)) }
    ensures unsaid { result ≡ None → AreUnsized (fields_left fields.entry) }
{
    let (name, blocks) = name_and_number(fields)?;
    Some(Event::Create { name, blocks })
}

// Reads what follows the word `extend`.
fn parse_extend<'a>(fields: Fields<'a>) -> Option<Event<'a>>
    ensures said { IfSome result (IsSizedEvent Extend (fields_left fields.entry)) }
    ensures unsaid { result ≡ None → AreUnsized (fields_left fields.entry) }
{
    let (name, by) = name_and_number(fields)?;
    Some(Event::Extend { name, by })
}

// Reads what follows the word `remove`: a name.
fn parse_remove<'a>(fields: Fields<'a>) -> Option<Event<'a>>
    ensures said { IfSome result (λ event. (name : List ℕ)
        × BeginsWithName (fields_left fields.entry) name []
        × IsKept (Remove name) event) }
    ensures unsaid { result ≡ None → (name : List ℕ) → BeginsWithName (fields_left fields.entry) name [] → ⊥ }
{
    let name = one_name(fields)?;
    Some(Event::Remove { name })
}

// Reads what follows the word `rename`: two names.
fn parse_rename<'a>(fields: Fields<'a>) -> Option<Event<'a>>
    ensures said { IfSome result (λ event. (first : List ℕ) × (second : List ℕ)
        × BeginsWithNames (fields_left fields.entry) first second []
        × IsKept (Rename first second) event) }
    ensures unsaid { result ≡ None → (first second : List ℕ)
        → BeginsWithNames (fields_left fields.entry) first second [] → ⊥ }
{
    let (old, new) = two_names(fields)?;
    Some(Event::Rename { old, new })
}

// Reads what follows the word `read`.
fn parse_read<'a>(fields: Fields<'a>) -> Option<Event<'a>>
    ensures said { IfSome result (λ event. (name : List ℕ) × (at : ℕ) × (count : ℕ)
        × AreReadFields (fields_left fields.entry) name at count
        × IsKept (Read name at count) event) }
    ensures unsaid { result ≡ None → (name : List ℕ) → (at count : ℕ)
        → AreReadFields (fields_left fields.entry) name at count → ⊥ }
{
    let (name, at, count) = name_and_two_numbers(fields)?;
    Some(Event::Read { name, at, count })
}

// Reads what follows the word `write`.
fn parse_write<'a>(
    mut fields: Fields<'a>,
    blocks: &'a mut [Sector; KEPT_BLOCKS],
) -> Option<Event<'a>>
    ensures said { IfSome result (λ event. (name : List ℕ) × (at : ℕ) × (all : List Block)
        × AreWriteFields (fields_left fields.entry) name at all
        × IsKept (Write name at all) event) }
    ensures unsaid { result ≡ None → (name : List ℕ) → (at : ℕ) → (all : List Block)
        → AreWriteFields (fields_left fields.entry) name at all → ⊥ }
{
    let (name, at) = next_number(&mut fields)?;
    let kept = keep_blocks(fields, blocks)?;
    Some(Event::Write {
        name,
        at,
        blocks: &blocks[..kept],
    })
}

#[cfg(test)]
mod tests;
