//! What an inspection of a set finds, as lines of text.
ghost use Rattle.std.specs.Prelude.{◌≡◌, ◌+◌, ◌<◌, ◌++◌, codes, IfOk, IfErr, OnOk, string_bytes};
ghost use Rattle.sector_model.specs.declared.refusal.Refusal.TheVariants.{Memory};
ghost use Rattle.volume_table.specs.declared.status.Status.{Status};
ghost use Rattle.report.specs.Inspections.{IsStatusOf, entry_text, examined_line, examined_lines, last_in};
ghost use Rattle.report.specs.Inspections.{inspection_text, outlook_text, own_text, place_text};
ghost use Rattle.report.specs.Inspections.{presence_word as word_of_presence, standing_text};

use crate::text::{role_word, set_text};
use recovery::{Examined, ExaminedSlot, Outlook, Presence, Standing};
use sector_model::Refusal;
use std::alloc::{AllocError, Global};
use superblock::Table;
use volume_table::Status;

/// What an inspection of a set found as lines of text, each ended by byte 0A, as docs/FORMATS.md, "An inspection" has
/// them.
///
/// The only refusal is `Refusal::Memory`, where an allocation was refused.
pub fn examined_text(alloc: Global, examined: &Examined) -> Result<String, Refusal>
    ensures text { IfOk result (λ text. (status : Status) → IsStatusOf examined.now.table status
        → string_bytes text ≡ inspection_text status examined.now) }
    ensures err { IfErr result (λ refusal. refusal ≡ Memory) }
{
    let status = status_of(&examined.table);
    let mut text = set_text(alloc, &status)?;
    write_slots(&mut text, examined)?;
    write_outlook(&mut text, examined.outlook)?;
    text.push_str("\n")?;
    Ok(text)
}

/// The status of a set of which its table alone is known.
pub(crate) fn status_of(table: &Table) -> Status
    ensures { IsStatusOf table.now result }
{
    Status {
        id: table.id,
        format: table.geometry.format,
        members: table.geometry.members,
        chunk: table.geometry.chunk,
        stripes: table.geometry.stripes,
        rows: table.geometry.rows(),
        generation: table.generation,
        position: table.position,
        extent_blocks: table.geometry.extent_blocks(),
        extents: 0,
        free: 0,
        volumes: 0,
        version: 0,
        states: table.states,
        incarnations: table.incarnations,
    }
}

// Appends the line of each slot.
fn write_slots(text: &mut String, examined: &Examined) -> Result<(), AllocError>
    ensures { OnOk result (string_bytes text.new ≡ string_bytes text.old
        ++ examined_lines examined.now (examined.now.table.geometry.members + 2)) }
{
    for slot in 0..examined.table.geometry.members + 2 {
        write_slot(text, examined, slot)?;
    }
    Ok(())
}

// Appends the line of a slot.
fn write_slot(text: &mut String, examined: &Examined, slot: u8) -> Result<(), AllocError>
    requires { slot < examined.now.table.geometry.members + 2 }
    ensures { OnOk result (string_bytes text.new ≡ string_bytes text.old ++ examined_line examined.now slot) }
{
    let members = examined.table.geometry.members;
    write_place(text, members, slot)?;
    write_own(text, &examined.slots[slot as usize])?;
    write_entry(text, last_of(examined, slot))?;
    end_slot(text, examined.slots[slot as usize].standing)
}

// Appends the number and the role of a slot.
fn write_place(text: &mut String, members: u8, slot: u8) -> Result<(), AllocError>
    requires { slot < 10 }
    ensures { OnOk result (string_bytes text.new ≡ string_bytes text.old ++ place_text members slot) }
{
    let role = role_word(members, slot);
    write!(text, "{slot:>2} {role:<8} ")
}

// Appends whether the device of a slot is there, and its own generation and incarnation.
fn write_own(text: &mut String, found: &ExaminedSlot) -> Result<(), AllocError>
    ensures { OnOk result (string_bytes text.new ≡ string_bytes text.old ++ own_text found.now) }
{
    let presence = presence_word(found.presence);
    let generation = found.generation;
    let incarnation = found.incarnation;
    write!(
        text,
        "{presence} generation {generation} incarnation {incarnation}"
    )
}

/// The number of the last entry of a slot, where that is a journal and the number is known.
pub(crate) fn last_of(examined: &Examined, slot: u8) -> Option<u64>
    requires { slot < examined.now.table.geometry.members + 2 }
    ensures { result ≡ last_in examined.now.table.geometry.members slot examined.now.last }
{
    let members = examined.table.geometry.members;
    if slot < members {
        None
    } else {
        examined.last[(slot - members) as usize]
    }
}

// Appends the number of a last entry, where it is known.
fn write_entry(text: &mut String, last: Option<u64>) -> Result<(), AllocError>
    ensures { OnOk result (string_bytes text.new ≡ string_bytes text.old ++ entry_text last) }
{
    match last {
        Some(number) => write!(text, " entry {number}"),
        None => Ok(()),
    }
}

// Appends what a slot is to its table, and ends the line.
fn end_slot(text: &mut String, standing: Standing) -> Result<(), AllocError>
    ensures { OnOk result (string_bytes text.new
        ≡ string_bytes text.old ++ codes " " ++ standing_text standing ++ codes "\n") }
{
    text.push_str(" ")?;
    write_standing(text, standing)?;
    text.push_str("\n")
}

/// Appends what a slot is to its table.
pub(crate) fn write_standing(text: &mut String, standing: Standing) -> Result<(), AllocError>
    ensures { OnOk result (string_bytes text.new ≡ string_bytes text.old ++ standing_text standing) }
{
    match standing {
        Standing::Live => text.push_str("live"),
        Standing::Rebuilding(position) => write!(text, "rebuilding at {position}"),
        Standing::CalledMissing => text.push_str("called missing"),
        Standing::NotThere => text.push_str("not there"),
        Standing::NoSuperblock => text.push_str("no superblock"),
        Standing::OlderGeneration => text.push_str("older generation"),
        Standing::LowerIncarnation => text.push_str("lower incarnation"),
        Standing::HigherIncarnation => text.push_str("higher incarnation"),
    }
}

/// Whether a device is there.
pub(crate) fn presence_word(presence: Presence) -> &'static str
    ensures { result.now ≡ word_of_presence presence }
{
    match presence {
        Presence::Absent => "absent",
        Presence::TooShort => "too short",
        Presence::There => "there",
    }
}

/// Appends what assembling would do.
pub(crate) fn write_outlook(text: &mut String, outlook: Outlook) -> Result<(), AllocError>
    ensures { OnOk result (string_bytes text.new ≡ string_bytes text.old ++ outlook_text outlook) }
{
    match outlook {
        Outlook::Complete => text.push_str("would assemble: complete"),
        Outlook::Missing(slot) => write!(text, "would assemble: slot {slot} missing"),
        Outlook::Rebuilding(slot, position) => {
            write!(text, "would assemble: slot {slot} rebuilding at {position}")
        }
        Outlook::WouldMark(slot) => write!(text, "would mark slot {slot} missing"),
        Outlook::TwoLost => text.push_str("refused 15 TwoLost"),
    }
}

#[cfg(test)]
mod tests;
