//! A set that was just made.
ghost use Rattle.array_io.specs.Laws.RunLaw.{FreshSetHolds};

/// What making a set leaves (zeros, and superblocks of generation 1 with every slot in sync) holds for the list of
/// zeros.
pub fn fresh_set_holds()
    ensures { FreshSetHolds }
{}
