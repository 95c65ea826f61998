//! The rules of a superblock's fields.
ghost use Rattle.std.specs.Prelude.{◌≡◌, ◌≤◌, ◌↔◌, IsTrue};
ghost use Rattle.superblock.specs.declared.table.Superblock.{Superblock};
ghost use Rattle.superblock.specs.Reading.{fields_of};
ghost use Rattle.superblock.specs.Rules.{AreMissingBeyond, AreNumbered, AreOutOnce, IsPositionOf};
ghost use Rattle.superblock.specs.Tables.{IsTable};

use crate::fields::Fields;
use crate::{State, Superblock, Table};
use layout_map::Geometry;
use sector_model::GREATEST_COUNT;

// The superblock that has these fields, or `None` where a rule forbids them.
pub(crate) fn judge(fields: &Fields) -> Option<Superblock>
    ensures { (superblock : Superblock) → fields.now ≡ fields_of superblock → result ≡ Some superblock }
{
    let geometry = Geometry::of_format(
        fields.format,
        fields.members,
        fields.chunk,
        fields.stripes,
    ).ok()?;
    if !is_table(fields, &geometry) {
        return None;
    }
    let table = Table {
        id: fields.id,
        generation: fields.generation,
        geometry,
        states: fields.states,
        incarnations: fields.incarnations,
        position: fields.position,
    };
    let role = fields.role;
    if role >= geometry.members + 2 || fields.states[role as usize] == State::Missing {
        return None;
    }
    Some(Superblock { table, role })
}

// Whether a set of this geometry may say what the fields say.
fn is_table(fields: &Fields, geometry: &Geometry) -> bool
    ensures { IsTrue result ↔ IsTable fields.now.generation geometry.now fields.now.states fields.now.incarnations
        fields.now.position }
{
    let slots = geometry.members + 2;
    if !matches!(fields.generation, 1..=GREATEST_COUNT)
        || !are_numbered(&fields.incarnations, slots)
        || !are_missing_beyond(&fields.states, slots)
        || !are_out_once(&fields.states, slots)
    {
        return false;
    }
    is_position(&fields.states, fields.position, geometry)
}

// Whether the slots have incarnations 1 to 2^62, and the places after them 0.
fn are_numbered(incarnations: &[u64; 10], slots: u8) -> bool
    requires { slots ≤ 10 }
    ensures { IsTrue result ↔ AreNumbered slots incarnations.now }
{
    for slot in 0..10 {
        let incarnation = incarnations[slot as usize];
        let is_allowed = if slot < slots {
            matches!(incarnation, 1..=GREATEST_COUNT)
        } else {
            incarnation == 0
        };
        if !is_allowed {
            return false;
        }
    }
    true
}

// Whether the places after the slots have no state of their own.
fn are_missing_beyond(states: &[State; 10], slots: u8) -> bool
    requires { slots ≤ 10 }
    ensures { IsTrue result ↔ AreMissingBeyond slots states.now }
{
    for slot in slots..10 {
        if states[slot as usize] != State::Missing {
            return false;
        }
    }
    true
}

// Whether at most one slot is not in sync.
fn are_out_once(states: &[State; 10], slots: u8) -> bool
    requires { slots ≤ 10 }
    ensures { IsTrue result ↔ AreOutOnce slots states.now }
{
    let mut is_one_out = false;
    for slot in 0..slots {
        if states[slot as usize] != State::InSync {
            if is_one_out {
                return false;
            }
            is_one_out = true;
        }
    }
    true
}

// Whether only a member is rebuilding, with a position below the number of rows, and there is none where none is.
fn is_position(states: &[State; 10], position: u64, geometry: &Geometry) -> bool
    ensures { IsTrue result ↔ IsPositionOf geometry.now states.now position }
{
    let mut is_rebuilding = false;
    for slot in 0..10u8 {
        if states[slot as usize] == State::Rebuilding {
            if slot >= geometry.members || position >= geometry.rows() {
                return false;
            }
            is_rebuilding = true;
        }
    }
    is_rebuilding || position == 0
}
