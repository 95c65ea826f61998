//! The status of a set, as a JSON value.
ghost use Rattle.std.specs.Prelude.{◌≡◌, ℕ, ◌+◌, ◌<◌, List, [], ◌∷◌, map, fold, codes, IfOk, IfErr, OnOk};
ghost use Rattle.std.specs.Borrow.{Bor};
ghost use Rattle.sector_model.specs.declared.refusal.Refusal.TheVariants.{Memory};
ghost use Rattle.serde_json.specs.Data.{Members, put as with_member};
ghost use Rattle.serde_json.specs.View.{view, members_view};
ghost use Rattle.report.specs.Report.{format_put, left, slot_json, slots_json, status_json, whole};

use crate::left::left_of;
use crate::text::{role_word, state_word};
use layout_map::Format;
use sector_model::Refusal;
use serde_json::{Map, Value, json, put};
use std::alloc::{AllocError, Global};
use volume_table::Status;

/// The status as a JSON object, with an array of the slots, as docs/FORMATS.md, "Status" has it.
///
/// The only refusal is `Refusal::Memory`, where an allocation was refused.
pub fn to_json(alloc: Global, status: &Status) -> Result<Value, Refusal>
    ensures value { IfOk result (λ value. view value ≡ status_json status.now) }
    ensures err { IfErr result (λ refusal. refusal ≡ Memory) }
{
    let value = status_value(alloc, status)?;
    Ok(value)
}

// The object of a status.
fn status_value(alloc: Global, status: &Status) -> Result<Value, AllocError>
    ensures { IfOk result (λ value. view value ≡ status_json status.now) }
{
    let mut object = Map::new(alloc);
    put_numbers(&mut object, alloc, &numbers(status))?;
    put_format(&mut object, alloc, status)?;
    let id = hex::encode(alloc, status.id)?;
    put(&mut object, alloc, "id", Value::String(id))?;
    let slots = slot_values(alloc, status)?;
    put(&mut object, alloc, "slots", Value::Array(slots))?;
    Ok(Value::Object(object))
}

// The numbers of a status, each with its key.
fn numbers(status: &Status) -> [(&'static str, u64); 11]
    ensures { map {B = List ℕ × ℕ} (λ (number : Bor (List ℕ) × ℕ). (number.0.now, number.1)) result
        ≡ (codes "chunk", status.now.chunk) ∷ (codes "stripes", status.now.stripes) ∷ (codes "rows", status.now.rows)
        ∷ (codes "members", status.now.members) ∷ (codes "generation", status.now.generation)
        ∷ (codes "position", status.now.position) ∷ (codes "left", left status.now)
        ∷ (codes "extents", status.now.extents) ∷ (codes "free", status.now.free) ∷ (codes "table", status.now.version)
        ∷ (codes "volumes", status.now.volumes) ∷ [] }
{
    [
        ("chunk", status.chunk as u64),
        ("stripes", status.stripes as u64),
        ("rows", status.rows),
        ("members", status.members as u64),
        ("generation", status.generation),
        ("position", status.position),
        ("left", left_of(status)),
        ("extents", status.extents as u64),
        ("free", status.free as u64),
        ("table", status.version as u64),
        ("volumes", status.volumes as u64),
    ]
}

/// Puts numbers into an object, each at its key.
pub(crate) fn put_numbers(
    object: &mut Map<String, Value>,
    alloc: Global,
    numbers: &[(&str, u64)],
) -> Result<(), AllocError>
    ensures { OnOk result (members_view object.new.entries
        ≡ fold (λ (done : Members) (number : Bor (List ℕ) × ℕ). with_member number.0.now (whole number.1) done)
        (members_view object.old.entries) numbers.now) }
{
    for (key, number) in numbers {
        put(object, alloc, key, Value::from(*number))?;
    }
    Ok(())
}

/// Puts what an object says of a set of format 2 alone into it: the format and the blocks of an extent.
pub(crate) fn put_format(
    object: &mut Map<String, Value>,
    alloc: Global,
    status: &Status,
) -> Result<(), AllocError>
    ensures { OnOk result (members_view object.new.entries
        ≡ format_put status.now.format status.now.extent_blocks (members_view object.old.entries)) }
{
    match status.format {
        Format::One => Ok(()),
        Format::Two => put_numbers(
            object,
            alloc,
            &[("extent_blocks", status.extent_blocks), ("format", 2)],
        ),
    }
}

// The objects of all slots, in order.
fn slot_values(alloc: Global, status: &Status) -> Result<Vec<Value>, AllocError>
    ensures { IfOk result (λ values. map view values.items ≡ slots_json status.now (status.now.members + 2)) }
{
    let mut values = Vec::new(alloc);
    for slot in 0..status.members + 2 {
        values.push(slot_value(alloc, status, slot)?)?;
    }
    Ok(values)
}

// The object of a slot.
fn slot_value(alloc: Global, status: &Status, slot: u8) -> Result<Value, AllocError>
    requires { slot < status.now.members + 2 }
    ensures { IfOk result (λ value. view value ≡ slot_json status.now slot) }
{
    let role = role_word(status.members, slot);
    let state = state_word(status.states[slot as usize]);
    let incarnation = status.incarnations[slot as usize];
    json!(in alloc; {"incarnation": incarnation, "role": role, "slot": slot, "state": state})
}
