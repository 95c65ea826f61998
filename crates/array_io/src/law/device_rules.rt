//! The rules on devices alone.
ghost use Rattle.array_io.specs.Laws.Law.{AStartIsOneOf};

/// Where each device that was replaced is stale under the table, each start that the rules on devices allow is one
/// after which what held still holds. These rules know of no table: they speak of slots, of devices that were there,
/// and of superblocks of the set.
pub fn a_start_is_one_of()
    ensures { AStartIsOneOf }
{}
