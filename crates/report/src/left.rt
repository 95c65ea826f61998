//! How many steps of a rebuild are left.
ghost use Rattle.std.specs.Prelude.{◌≡◌, ℕ, IfSome, IsNone};
ghost use Rattle.report.specs.Report.{IsRebuildingSlot, left};

use rebuild::steps_left;
use superblock::State;
use volume_table::Status;

/// How many steps are left of the rebuild of a set: none where no slot is rebuilding.
pub(crate) fn left_of(status: &Status) -> u64
    ensures { result ≡ left status.now }
{
    match rebuilding_in(status) {
        Some(_) => steps_left(status.format, status.position, status.rows),
        None => 0,
    }
}

// The slot that is rebuilding, if there is one.
fn rebuilding_in(status: &Status) -> Option<u8>
    ensures some { IfSome result (IsRebuildingSlot status.now) }
    ensures none { IsNone result → (slot : ℕ) → IsRebuildingSlot status.now slot → ⊥ }
{
    for slot in 0..status.members + 2 {
        if status.states[slot as usize] == State::Rebuilding {
            return Some(slot);
        }
    }
    None
}
