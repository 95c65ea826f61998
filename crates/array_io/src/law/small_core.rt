//! What is enough for a case to hold.
ghost use Rattle.array_io.specs.Laws.Law.{HoldsFromCore};

/// A case holds for some logical lists where its small core does: what a slot may lose besides, and what may be back in
/// it, need no look at each image.
pub fn holds_from_core()
    ensures { HoldsFromCore }
{}
