//! Lines, and what they ask for.
ghost use Rattle.std.specs.Prelude.{◌≡◌, ℕ, List, IfSome, None};
ghost use Rattle.report.specs.Fields.{AreReadFields, fields_left};
ghost use Rattle.requests.specs.Arguments.{AreArguments, HasNoArguments};
ghost use Rattle.requests.specs.Demands.{Demands, DemandsNothing, DemandsOneThing, demand_of};

#[cfg(test)]
mod tests;

use crate::words::{BlocksWord, SetWord, VolumesWord, Word};
use report::parse::fields::{
    Fields, name_and_number, name_and_two_numbers, no_field, one_name, one_number, two_names,
};

/// What a line asks for. Names lie in the line; a name is any bytes but none here, and whether it is a good one is
/// told by whoever does what is asked, as the limits of counts and of slots are.
#[derive(Clone, Copy)]
pub enum Request<'a> {
    /// Blocks of a volume are to be read: `read NAME AT COUNT`.
    Read(Stretch<'a>),
    /// The blocks that follow the line are to be put on a volume: `write NAME AT COUNT`.
    Write(Stretch<'a>),
    /// Blocks of a volume are to be zero: `zero NAME AT COUNT`.
    Zero(Stretch<'a>),
    /// So many lines that follow go together: `together K`.
    Together(u32),
    /// A new volume of so many zero blocks: `create NAME BLOCKS`.
    Create { name: &'a [u8], blocks: u32 },
    /// So many zero blocks more for a volume: `extend NAME BLOCKS`.
    Extend { name: &'a [u8], by: u32 },
    /// No volume of this name any more: `remove NAME`.
    Remove { name: &'a [u8] },
    /// Another name for a volume: `rename OLD NEW`.
    Rename { old: &'a [u8], new: &'a [u8] },
    /// The names of all volumes, with their numbers of blocks: `list`.
    List,
    /// How the set stands: `status`.
    Status,
    /// This slot of the set is given up: `fail K`.
    Fail(u32),
    /// This missing slot of the set is given a device: `replace K`.
    Replace(u32),
    /// So many steps of the rebuild: `rebuild STEPS`.
    Rebuild(u32),
    /// So many rows more are to be looked at: `scrub ROWS`.
    Scrub(u32),
}

/// Blocks of a volume: `count` of them, from block `at` on.
#[derive(Clone, Copy, Debug, PartialEq, Eq)]
pub struct Stretch<'a> {
    /// The name of the volume.
    pub name: &'a [u8],
    /// The first block.
    pub at: u32,
    /// How many blocks.
    pub count: u32,
}

/// Reads a line, without its end. None where it is none of the lines that a server knows.
pub fn parse_request<'a>(line: &'a [u8]) -> Option<Request<'a>>
    ensures said { IfSome result (λ request. Demands line.now (demand_of request)) }
    ensures unsaid { result ≡ None → DemandsNothing line.now }
{
    let mut fields = Fields::of(line);
    match Word::of(fields.next()?)? {
        Word::OnBlocks(word) => parse_on_blocks(word, fields),
        Word::OnVolumes(word) => parse_on_volumes(word, fields),
        Word::OnSet(word) => parse_on_set(word, fields),
    }
}

/// No line demands two things.
pub fn a_line_demands_one_thing()
    ensures { DemandsOneThing }
{}

// Reads what follows a word on blocks.
fn parse_on_blocks<'a>(word: BlocksWord, fields: Fields<'a>) -> Option<Request<'a>>
    ensures said { IfSome result
        (λ request. AreArguments (Word.OnBlocks word) (fields_left fields.entry) (demand_of request)) }
    ensures unsaid { result ≡ None → HasNoArguments (Word.OnBlocks word) (fields_left fields.entry) }
{
    match word {
        BlocksWord::Read => Some(Request::Read(parse_stretch(fields)?)),
        BlocksWord::Write => Some(Request::Write(parse_stretch(fields)?)),
        BlocksWord::Zero => Some(Request::Zero(parse_stretch(fields)?)),
        BlocksWord::Together => Some(Request::Together(one_number(fields)?)),
    }
}

// Reads which blocks are meant.
fn parse_stretch<'a>(fields: Fields<'a>) -> Option<Stretch<'a>>
    ensures said { IfSome result
        (λ blocks. AreReadFields (fields_left fields.entry) blocks.name.now blocks.at blocks.count) }
    ensures unsaid { result ≡ None → (name : List ℕ) → (at count : ℕ)
        → AreReadFields (fields_left fields.entry) name at count → ⊥ }
{
    let (name, at, count) = name_and_two_numbers(fields)?;
    Some(Stretch { name, at, count })
}

// Reads what follows a word on volumes.
fn parse_on_volumes<'a>(word: VolumesWord, fields: Fields<'a>) -> Option<Request<'a>>
    ensures said { IfSome result
        (λ request. AreArguments (Word.OnVolumes word) (fields_left fields.entry) (demand_of request)) }
    ensures unsaid { result ≡ None → HasNoArguments (Word.OnVolumes word) (fields_left fields.entry) }
{
    match word {
        VolumesWord::List => {
            no_field(fields)?;
            Some(Request::List)
        }
        VolumesWord::Create => {
            let (name, blocks) = name_and_number(fields)?;
            Some(Request::Create { name, blocks })
        }
        VolumesWord::Extend => {
            let (name, by) = name_and_number(fields)?;
            Some(Request::Extend { name, by })
        }
        VolumesWord::Remove => {
            let name = one_name(fields)?;
            Some(Request::Remove { name })
        }
        VolumesWord::Rename => {
            let (old, new) = two_names(fields)?;
            Some(Request::Rename { old, new })
        }
    }
}

// Reads what follows a word on the set.
fn parse_on_set<'a>(word: SetWord, fields: Fields<'a>) -> Option<Request<'a>>
    ensures said { IfSome result
        (λ request. AreArguments (Word.OnSet word) (fields_left fields.entry) (demand_of request)) }
    ensures unsaid { result ≡ None → HasNoArguments (Word.OnSet word) (fields_left fields.entry) }
{
    match word {
        SetWord::Status => {
            no_field(fields)?;
            Some(Request::Status)
        }
        SetWord::Fail => Some(Request::Fail(one_number(fields)?)),
        SetWord::Replace => Some(Request::Replace(one_number(fields)?)),
        SetWord::Rebuild => Some(Request::Rebuild(one_number(fields)?)),
        SetWord::Scrub => Some(Request::Scrub(one_number(fields)?)),
    }
}
