//! What an inspection of a set finds, as a JSON value.
ghost use Rattle.std.specs.Prelude.{◌≡◌, ℕ, ◌+◌, ◌<◌, List, [], ◌∷◌, map, codes, IfOk, IfErr, string_bytes};
ghost use Rattle.std.specs.Borrow.{Bor};
ghost use Rattle.sector_model.specs.declared.refusal.Refusal.TheVariants.{Memory};
ghost use Rattle.serde_json.specs.Data.{string};
ghost use Rattle.serde_json.specs.View.{view};
ghost use Rattle.volume_table.specs.declared.status.Status.{Status};
ghost use Rattle.report.specs.Inspections.{IsStatusOf, entry_json, inspection_json, inspection_slot_json};
ghost use Rattle.report.specs.Inspections.{inspection_slots_json, outlook_text, standing_text};
ghost use Rattle.report.specs.Report.{left};

use crate::inspections::{last_of, presence_word, status_of, write_outlook, write_standing};
use crate::left::left_of;
use crate::text::role_word;
use crate::value::{put_format, put_numbers};
use recovery::{Examined, ExaminedSlot, Outlook, Standing};
use sector_model::Refusal;
use serde_json::{Map, Value, put};
use std::alloc::{AllocError, Global};
use volume_table::Status;

/// What an inspection of a set found as a JSON object, with an array of the slots, as docs/FORMATS.md, "An inspection"
/// has it.
///
/// The only refusal is `Refusal::Memory`, where an allocation was refused.
pub fn examined_to_json(alloc: Global, examined: &Examined) -> Result<Value, Refusal>
    ensures value { IfOk result (λ value. (status : Status) → IsStatusOf examined.now.table status
        → view value ≡ inspection_json status examined.now) }
    ensures err { IfErr result (λ refusal. refusal ≡ Memory) }
{
    let status = status_of(&examined.table);
    let value = inspection_value(alloc, &status, examined)?;
    Ok(value)
}

// The object of an inspection, with what a status says of the set's table.
fn inspection_value(
    alloc: Global,
    status: &Status,
    examined: &Examined,
) -> Result<Value, AllocError>
    ensures { IfOk result (λ value. view value ≡ inspection_json status.now examined.now) }
{
    let mut object = Map::new(alloc);
    put_numbers(&mut object, alloc, &set_numbers(status))?;
    put_format(&mut object, alloc, status)?;
    let id = hex::encode(alloc, status.id)?;
    put(&mut object, alloc, "id", Value::String(id))?;
    let outlook = outlook_string(alloc, examined.outlook)?;
    put(&mut object, alloc, "outlook", Value::String(outlook))?;
    let slots = slot_values(alloc, examined)?;
    put(&mut object, alloc, "slots", Value::Array(slots))?;
    Ok(Value::Object(object))
}

// The numbers of a set, each with its key.
fn set_numbers(status: &Status) -> [(&'static str, u64); 7]
    ensures { map {B = List ℕ × ℕ} (λ (number : Bor (List ℕ) × ℕ). (number.0.now, number.1)) result
        ≡ (codes "chunk", status.now.chunk) ∷ (codes "stripes", status.now.stripes) ∷ (codes "rows", status.now.rows)
        ∷ (codes "members", status.now.members) ∷ (codes "generation", status.now.generation)
        ∷ (codes "position", status.now.position)
        ∷ (codes "left", left status.now) ∷ [] }
{
    [
        ("chunk", status.chunk as u64),
        ("stripes", status.stripes as u64),
        ("rows", status.rows),
        ("members", status.members as u64),
        ("generation", status.generation),
        ("position", status.position),
        ("left", left_of(status)),
    ]
}

// What assembling would do, as a text.
fn outlook_string(alloc: Global, outlook: Outlook) -> Result<String, AllocError>
    ensures { IfOk result (λ text. string_bytes text ≡ outlook_text outlook) }
{
    let mut text = String::new(alloc);
    write_outlook(&mut text, outlook)?;
    Ok(text)
}

// What a slot is to its table, as a text.
fn standing_string(alloc: Global, standing: Standing) -> Result<String, AllocError>
    ensures { IfOk result (λ text. string_bytes text ≡ standing_text standing) }
{
    let mut text = String::new(alloc);
    write_standing(&mut text, standing)?;
    Ok(text)
}

// The objects of all slots, in order.
fn slot_values(alloc: Global, examined: &Examined) -> Result<Vec<Value>, AllocError>
    ensures { IfOk result (λ values. map view values.items ≡ inspection_slots_json examined.now
        (examined.now.table.geometry.members + 2)) }
{
    let mut values = Vec::new(alloc);
    for slot in 0..examined.table.geometry.members + 2 {
        values.push(slot_value(alloc, examined, slot)?)?;
    }
    Ok(values)
}

// The object of a slot.
fn slot_value(alloc: Global, examined: &Examined, slot: u8) -> Result<Value, AllocError>
    requires { slot < examined.now.table.geometry.members + 2 }
    ensures { IfOk result (λ value. view value ≡ inspection_slot_json examined.now slot) }
{
    let found = examined.slots[slot as usize];
    let presence = presence_word(found.presence);
    let role = role_word(examined.table.geometry.members, slot);
    let mut object = Map::new(alloc);
    put_numbers(&mut object, alloc, &slot_numbers(&found, slot))?;
    put(
        &mut object,
        alloc,
        "entry",
        entry_value(last_of(examined, slot)),
    )?;
    let presence = text_value(alloc, presence)?;
    put(&mut object, alloc, "presence", presence)?;
    let role = text_value(alloc, role)?;
    put(&mut object, alloc, "role", role)?;
    let standing = standing_string(alloc, found.standing)?;
    put(&mut object, alloc, "standing", Value::String(standing))?;
    Ok(Value::Object(object))
}

// A text as a value.
fn text_value(alloc: Global, text: &str) -> Result<Value, AllocError>
    ensures { IfOk result (λ value. view value ≡ string text.now) }
{
    let text = String::from_str(alloc, text)?;
    Ok(Value::String(text))
}

// The numbers of a slot, each with its key.
fn slot_numbers(found: &ExaminedSlot, slot: u8) -> [(&'static str, u64); 3]
    ensures { map {B = List ℕ × ℕ} (λ (number : Bor (List ℕ) × ℕ). (number.0.now, number.1)) result
        ≡ (codes "generation", found.now.generation) ∷ (codes "incarnation", found.now.incarnation)
        ∷ (codes "slot", slot) ∷ [] }
{
    [
        ("generation", found.generation),
        ("incarnation", found.incarnation),
        ("slot", u64::from(slot)),
    ]
}

// The number of a last entry, where it is known.
fn entry_value(last: Option<u64>) -> Value
    ensures { view result ≡ entry_json last }
{
    match last {
        Some(number) => Value::from(number),
        None => Value::Null,
    }
}
