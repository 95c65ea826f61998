//! The state of a slot.
ghost use Rattle.std.specs.Prelude.{◌≡◌};
ghost use Rattle.superblock.specs.declared.state.State.{State};
ghost use Rattle.superblock.specs.Spelling.{state_byte};

/// What a slot's device is to its set.
#[derive(Clone, Copy, Debug, PartialEq, Eq)]
pub enum State {
    /// The set does without it. Whatever device is there counts for nothing.
    Missing,
    /// All of it counts.
    InSync,
    /// A member of which the rows below the table's position count.
    Rebuilding,
}

impl State {
    // The byte by which a superblock spells the state.
    pub(crate) fn byte(self) -> u8
        ensures { result ≡ state_byte self }
    {
        match self {
            State::Missing => 0,
            State::InSync => 1,
            State::Rebuilding => 2,
        }
    }

    // The state that this byte spells, if any.
    pub(crate) fn from_byte(byte: u8) -> Option<State>
        ensures { (state : State) → byte ≡ state_byte state → result ≡ Some state }
    {
        match byte {
            0 => Some(State::Missing),
            1 => Some(State::InSync),
            2 => Some(State::Rebuilding),
            _ => None,
        }
    }
}
