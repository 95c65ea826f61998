//! Which members of an open array are live, by its table.
ghost use Rattle.std.specs.Prelude.{◌≡◌, ◌<◌, ℕ};
ghost use Rattle.superblock.specs.Tables.{state_at};
ghost use Rattle.degraded.specs.LiveView.{AtMostOneOut, slots_of};
ghost use Rattle.degraded.specs.ReadMember.{is_read};
ghost use Rattle.array_io.specs.Steps.LiveByTable.{AreThere, IsRebuildingBy, is_there};
ghost use Rattle.array_io.specs.Believed.Settled.{trusts};

use degraded::Live;
use superblock::{State, Table};

/// Which members are live by a table, and which is rebuilding below which row. A member's own sector counts in the rows
/// in which the table trusts it, and at most one member is out.
pub(crate) fn live_of(table: &Table) -> Live
    ensures members { result.members ≡ table.now.geometry.members }
    ensures there { (member : ℕ) → member < table.now.geometry.members
        → (slots_of result).live member ≡ is_there (state_at table.now.states member) }
    ensures reads { (row member : ℕ) → member < table.now.geometry.members
        → is_read (slots_of result) row member ≡ trusts (state_at table.now.states member) row table.now.position }
    ensures one_out { AtMostOneOut (slots_of result) }
{
    Live {
        members: table.geometry.members,
        live: members_there(table),
        rebuilding: rebuilding_in(table),
    }
}

/// Whether a member's own sector counts in a row, by the table: all of a member in sync, of one that is rebuilding
/// those below the position. The member is one of the set (condition).
pub(crate) fn counts_on(table: &Table, member: u8, row: u64) -> bool
    requires { member < table.now.geometry.members }
    ensures { result ≡ trusts (state_at table.now.states member) row table.now.position }
{
    match table.states[member as usize] {
        State::Missing => false,
        State::InSync => true,
        State::Rebuilding => row < table.position,
    }
}

// Which members the table doesn't call missing.
#[tactic(auto, using(crate::proofs::Reading::LiveRows::none_there, crate::proofs::Reading::LiveRows::one_more_there))]
fn members_there(table: &Table) -> [bool; 10]
    ensures { AreThere table.now table.now.geometry.members result }
{
    let mut live = [false; 10];
    for member in 0..table.geometry.members as usize {
        live[member] = is_there(table.states[member]);
    }
    live
}

// Whether a slot in this state is live.
fn is_there(state: State) -> bool
    ensures { result ≡ is_there state }
{
    match state {
        State::Missing => false,
        State::InSync | State::Rebuilding => true,
    }
}

// The member that is rebuilding, if there is one, with the table's position.
fn rebuilding_in(table: &Table) -> Option<(u8, u64)>
    ensures { IsRebuildingBy table.now result }
{
    for member in 0..table.geometry.members {
        if table.states[member as usize] == State::Rebuilding {
            return Some((member, table.position));
        }
    }
    None
}
