//! The status of a set, as lines of text.
ghost use Rattle.std.specs.Prelude.{◌≡◌, ◌+◌, ◌<◌, ◌++◌, IfOk, IfErr, OnOk, string_bytes};
ghost use Rattle.sector_model.specs.declared.refusal.Refusal.TheVariants.{Memory};
ghost use Rattle.report.specs.Report.{role_word as word_of_role, state_word as word_of_state, format_text};
ghost use Rattle.report.specs.Report.{head_lines, set_lines};
ghost use Rattle.report.specs.Report.{shape_line, table_line, use_line, slot_line, slot_lines, status_text};

use crate::left::left_of;
use layout_map::Format;
use sector_model::Refusal;
use std::alloc::{AllocError, Global};
use superblock::State;
use volume_table::Status;

/// The status as lines of text, each ended by byte 0A, as docs/FORMATS.md, "Status" has them.
///
/// The only refusal is `Refusal::Memory`, where an allocation was refused.
pub fn table_text(alloc: Global, status: &Status) -> Result<String, Refusal>
    ensures text { IfOk result (λ text. string_bytes text ≡ status_text status.now) }
    ensures err { IfErr result (λ refusal. refusal ≡ Memory) }
{
    let mut text = head_text(alloc, status)?;
    write_slots(&mut text, status)?;
    Ok(text)
}

// The lines of the set as a whole.
fn head_text(alloc: Global, status: &Status) -> Result<String, AllocError>
    ensures { IfOk result (λ text. string_bytes text ≡ head_lines status.now) }
{
    let mut text = set_text(alloc, status)?;
    write_use(&mut text, status)?;
    Ok(text)
}

/// The first lines of a status: the set's id, its shape and its table.
pub(crate) fn set_text(alloc: Global, status: &Status) -> Result<String, AllocError>
    ensures { IfOk result (λ text. string_bytes text ≡ set_lines status.now) }
{
    let id = hex::encode(alloc, status.id)?;
    let mut text = format!(in alloc; "set {id}\n")?;
    write_shape(&mut text, status)?;
    write_table(&mut text, status)?;
    Ok(text)
}

// Appends the line of the set's shape.
fn write_shape(text: &mut String, status: &Status) -> Result<(), AllocError>
    ensures { OnOk result (string_bytes text.new ≡ string_bytes text.old ++ shape_line status.now) }
{
    let members = status.members;
    let chunk = status.chunk;
    let stripes = status.stripes;
    let rows = status.rows;
    let format = format_word(status.format);
    writeln!(
        text,
        "members {members} chunk {chunk} stripes {stripes} rows {rows}{format}"
    )
}

// What is said of the format of a set.
fn format_word(format: Format) -> &'static str
    ensures { result.now ≡ format_text format }
{
    match format {
        Format::One => "",
        Format::Two => " format 2",
    }
}

// Appends the line of the set's table.
fn write_table(text: &mut String, status: &Status) -> Result<(), AllocError>
    ensures { OnOk result (string_bytes text.new ≡ string_bytes text.old ++ table_line status.now) }
{
    let generation = status.generation;
    let position = status.position;
    let left = left_of(status);
    writeln!(
        text,
        "generation {generation} position {position} left {left}"
    )
}

// Appends the line of what is in use.
fn write_use(text: &mut String, status: &Status) -> Result<(), AllocError>
    ensures { OnOk result (string_bytes text.new ≡ string_bytes text.old ++ use_line status.now) }
{
    let extents = status.extents;
    let free = status.free;
    let volumes = status.volumes;
    let version = status.version;
    writeln!(
        text,
        "extents {extents} free {free} volumes {volumes} table {version}"
    )
}

// Appends the line of each slot.
fn write_slots(text: &mut String, status: &Status) -> Result<(), AllocError>
    ensures { OnOk result
        (string_bytes text.new ≡ string_bytes text.old ++ slot_lines status.now (status.now.members + 2)) }
{
    for slot in 0..status.members + 2 {
        write_slot(text, status, slot)?;
    }
    Ok(())
}

// Appends the line of a slot.
fn write_slot(text: &mut String, status: &Status, slot: u8) -> Result<(), AllocError>
    requires { slot < status.now.members + 2 }
    ensures { OnOk result (string_bytes text.new ≡ string_bytes text.old ++ slot_line status.now slot) }
{
    let role = role_word(status.members, slot);
    let state = state_word(status.states[slot as usize]);
    let incarnation = status.incarnations[slot as usize];
    writeln!(text, "{slot:>2} {role:<8} {state:<10} {incarnation}")
}

// What the device of a slot is for.
pub(crate) fn role_word(members: u8, slot: u8) -> &'static str
    ensures { result.now ≡ word_of_role members slot }
{
    if slot < members { "member" } else { "journal" }
}

// The word of a state.
pub(crate) fn state_word(state: State) -> &'static str
    ensures { result.now ≡ word_of_state state }
{
    match state {
        State::Missing => "missing",
        State::InSync => "in-sync",
        State::Rebuilding => "rebuilding",
    }
}
