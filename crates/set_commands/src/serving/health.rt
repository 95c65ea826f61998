//! How well a set is, as an exit status tells it.
ghost use Rattle.std.specs.Prelude.{◌≡◌, ◌≢◌, false, true};
ghost use Rattle.set_commands.specs.Healths.{AreAllInSync, IsHealthIn, health_by, worse_of};

use recovery::Outlook;
use superblock::State;
use volume_table::Status;

/// How well a set is.
#[derive(Clone, Copy, Debug, PartialEq, Eq)]
pub enum Health {
    /// It is assembled, or would be, with each slot in sync.
    Complete,
    /// It is assembled, or would be, and a slot is missing, or rebuilding.
    Incomplete,
    /// It would not be assembled.
    Unassembled,
}

/// The worse of two.
pub fn worse(one: Health, other: Health) -> Health
    ensures { result ≡ worse_of one other }
{
    match (one, other) {
        (Health::Unassembled, _) => Health::Unassembled,
        (Health::Incomplete, Health::Unassembled) => Health::Unassembled,
        (Health::Incomplete, _) => Health::Incomplete,
        (Health::Complete, other) => other,
    }
}

/// How well a set is of which assembling would do this.
pub fn foreseen(outlook: &Outlook) -> Health
    ensures { result ≡ health_by outlook.now }
{
    match outlook {
        Outlook::Complete => Health::Complete,
        Outlook::Missing(_) | Outlook::Rebuilding(_, _) | Outlook::WouldMark(_) =>
            Health::Incomplete,
        Outlook::TwoLost => Health::Unassembled,
    }
}

/// How well a set is that was assembled, by its status.
pub fn assembled(status: &Status) -> Health
    ensures { IsHealthIn status.now result }
{
    if are_all_in_sync(status) {
        Health::Complete
    } else {
        Health::Incomplete
    }
}

// Whether each slot of a set is in sync.
fn are_all_in_sync(status: &Status) -> bool
    ensures yes { result ≡ true → AreAllInSync status.now }
    ensures no { result ≡ false → ¬ AreAllInSync status.now }
{
    for slot in 0..status.members + 2 {
        if status.states[slot as usize] != State::InSync {
            return false;
        }
    }
    true
}
