//! What the calls on the set keep.
ghost use Rattle.volume_table.specs.SetLaw.{SlotsStay, FaultIsMissing, PositionIsZero, VolumesLeaveSet};
ghost use Rattle.volume_table.specs.SetLaw.{RefusedLeavesSet, RebuildGoesOn, RebuildIsCounted};
ghost use Rattle.volume_table.specs.SetLaw.{RebuildGoesOnAmongOthers, RebuildIsCountedAmongOthers, TablesHaveOneOut};

/// The laws of the calls on the set. It computes nothing: its promises are what it is for.
///
/// A set keeps its slots. A slot whose device answered a fault in a call is missing after it, and where no fault came,
/// commands on volumes and refused ones change neither a state nor the position. The position is 0 where no member is
/// rebuilding. A rebuild is complete after exactly as many steps of 64 rows as its rows left make, the last counting
/// where it is not full; whatever other calls stand between the steps, while no device answers a fault and no slot is
/// given up.
pub fn law_of_set_commands()
    ensures slots { SlotsStay }
    ensures faults { FaultIsMissing }
    ensures position { PositionIsZero }
    ensures volumes { VolumesLeaveSet }
    ensures refused { RefusedLeavesSet }
    ensures goes_on { RebuildGoesOn }
    ensures counted { RebuildIsCounted }
    ensures one_out { TablesHaveOneOut }
    ensures goes_on_among_others { RebuildGoesOnAmongOthers }
    ensures counted_among_others { RebuildIsCountedAmongOthers }
{}
