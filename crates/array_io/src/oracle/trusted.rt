//! What counts in an image in memory: which slots are live, and in which rows a member's own sector counts.
ghost use Rattle.std.specs.Prelude.{◌≡◌, ◌↔◌, ◌<◌, ℕ, IsTrue, vec_len};
ghost use Rattle.sector_model.specs.Memory.{slots_of};
ghost use Rattle.superblock.specs.Counted.{IsLive};
ghost use Rattle.superblock.specs.Tables.{state_at};
ghost use Rattle.superblock.specs.declared.state.State.TheVariants.{Rebuilding};
ghost use Rattle.array_io.specs.Believed.Holds.{IsTrusted};

use sector_model::Image;
use superblock::oracle::is_live_in;
use superblock::{State, Table};

/// Whether a member's own sector counts in a row by this table: the member is live and, when it is rebuilding, the row
/// is below the table's position.
pub fn is_trusted_in(image: &Image, table: &Table, row: u64, member: usize) -> bool
    ensures { IsTrue result ↔ IsTrusted (vec_len image.now.slots) table.now (slots_of image.now.slots.items) row
        member }
{
    if !is_live_at(image, table, member) {
        return false;
    }
    is_rebuilt_in(table, row, member)
}

// Whether the member isn't rebuilding by this table, or the row is below the table's position.
fn is_rebuilt_in(table: &Table, row: u64, member: usize) -> bool
    ensures { IsTrue result ↔ (state_at table.now.states member ≡ Rebuilding → row < table.now.position) }
{
    row < table.position || member >= 10 || table.states[member] != State::Rebuilding
}

/// Whether what stands in a slot is live by this table.
pub fn is_live_at(image: &Image, table: &Table, slot: usize) -> bool
    ensures { IsTrue result ↔ IsLive (vec_len image.now.slots) table.now slot (slots_of image.now.slots.items slot) }
{
    let devices = image.slots.len();
    if slot < devices {
        is_live_in(&image.slots[slot], devices, table, slot)
    } else {
        false
    }
}
