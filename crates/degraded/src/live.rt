//! Which devices of a set are live.
ghost use Rattle.std.specs.Prelude.{◌≤◌};
ghost use Rattle.layout_map.specs.declared.sizes.TheConstants.{MOST_MEMBERS};

/// Which devices of a set are live, and which member is rebuilding.
#[derive(Clone, Copy)]
pub struct Live {
    /// The members, 3 to 8.
    pub members: u8,
    /// Whether the device of a slot is live. Places from `members` on don't count.
    pub live: [bool; 10],
    /// The member that is rebuilding, if there is one, and how many of its rows count.
    pub rebuilding: Option<(u8, u64)>,
    pub ghost least: { 3 ≤ members },
    pub ghost most: { members ≤ MOST_MEMBERS },
}
