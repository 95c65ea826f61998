//! What a set tells of itself, and what is done with its slots.
ghost use Rattle.std.specs.Prelude.{◌≡◌, ◌<◌, ◌↔◌, IsTrue, List, None, IfOk, IfErr};
ghost use Rattle.std.specs.String.{string_bytes};
ghost use Rattle.array_io.specs.Believed.OpenArray.{IsHonest};
ghost use Rattle.superblock.specs.NextTables.{slots_of};
ghost use Rattle.superblock.specs.Tables.{state_at};
ghost use Rattle.volume_table.specs.OpenStore.{store_view};
ghost use Rattle.volume_table.specs.Volumes.{Block};
ghost use Rattle.requests.specs.Demands.{FailSlot, RebuildSteps, ReplaceSlot, Status as AsksStatus};
ghost use Rattle.server.specs.Answers.{IsMissingSlot, IsServed, StatusIsTold, TellsStatus, slot_of};
ghost use Rattle.server.specs.Outcomes.{told_in};

use super::{Outcome, outcome_of};
use report::to_json;
use sector_model::{Bank, Refusal};
use set_commands::rebuild_rows;
use std::alloc::Global;
use superblock::{State, Table};
use volume_table::Store;

// Tells how the set stands.
pub(super) fn answer_status<B: Bank>(store: &Store<B>, alloc: Global) -> Outcome
    ensures { (buffer : List Block) → store.now.ended ≡ None → IsServed (IsHonest store.now.array) AsksStatus
        (store_view store.now) (store_view store.now) (told_in result buffer) }
{
    match status_text(store, alloc) {
        Ok(text) => Outcome::Status(text),
        Err(refusal) => Outcome::Refused(refusal),
    }
}

// The status as a JSON object in one line, without the line's end. `Memory` where there is none for it.
fn status_text<B: Bank>(store: &Store<B>, alloc: Global) -> Result<String, Refusal>
    ensures text { store.now.ended ≡ None → IfOk result (λ text. StatusIsTold (store_view store.now)
        (TellsStatus (string_bytes text))) }
    ensures memory { store.now.ended ≡ None → IfErr result (λ refusal. refusal ≡ Refusal.Memory) }
{
    let status = store.status()?;
    let value = to_json(alloc, &status)?;
    let text = value.to_string(alloc)?;
    Ok(text)
}

// Gives the slot up that a number says.
pub(super) fn answer_fail<B: Bank>(store: &mut Store<B>, number: u32) -> Outcome
    ensures honest { IsHonest store.old.array ↔ IsHonest store.new.array }
    ensures served { (buffer : List Block) → store.old.ended ≡ None → IsServed (IsHonest store.old.array)
        (FailSlot number) (store_view store.old) (store_view store.new) (told_in result buffer) }
{
    outcome_of(store.fail(said_slot(number)))
}

// Refuses to replace a slot that is not a missing one of the set (condition).
pub(super) fn answer_replace<B: Bank>(store: &Store<B>, number: u32) -> Outcome
    requires { ¬ IsMissingSlot store.now.array.table (slot_of number) }
    ensures { (buffer : List Block) → store.now.ended ≡ None → IsServed (IsHonest store.now.array)
        (ReplaceSlot number) (store_view store.now) (store_view store.now) (told_in result buffer) }
{
    Outcome::Refused(Refusal::NotMissing)
}

// Makes so many steps of the rebuild, one at least.
pub(super) fn answer_rebuild<B: Bank>(store: &mut Store<B>, steps: u32) -> Outcome
    ensures honest { IsHonest store.old.array ↔ IsHonest store.new.array }
    ensures served { (buffer : List Block) → store.old.ended ≡ None → IsServed (IsHonest store.old.array)
        (RebuildSteps steps) (store_view store.old) (store_view store.new) (told_in result buffer) }
{
    match rebuild_rows(store, Some(steps as u64)) {
        Ok(progress) => {
            let geometry = store.array.table.geometry;
            Outcome::Progress(progress, geometry.format, geometry.rows())
        }
        Err(refusal) => Outcome::Refused(refusal),
    }
}

/// Whether the slot that a number says is one of the set and has no device.
pub(crate) fn is_missing_slot<B: Bank>(store: &Store<B>, number: u32) -> bool
    ensures { IsTrue result ↔ IsMissingSlot store.now.array.table (slot_of number) }
{
    let slot = said_slot(number);
    if slot >= store.array.table.geometry.members + 2 {
        return false;
    }
    is_missing(&store.array.table, slot)
}

// Whether a slot of the set has no device.
fn is_missing(table: &Table, slot: u8) -> bool
    requires { slot < slots_of table.now }
    ensures { IsTrue result ↔ (state_at table.now.states slot ≡ State.Missing) }
{
    match table.states[slot as usize] {
        State::Missing => true,
        State::InSync | State::Rebuilding => false,
    }
}

/// The slot that a number says: 255, which no set has, for each number above.
pub(crate) fn said_slot(number: u32) -> u8
    ensures { result ≡ slot_of number }
{
    number.min(255) as u8
}
