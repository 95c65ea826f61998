//! What a run begins with.
ghost use Rattle.array_io.specs.Laws.RunLaw.{ARunBegins};

/// A run that begins with the image of a case that holds has nothing pending, and each case that a crash then may leave
/// holds, with the same slot lost; where none was lost and a device of the set is absent, also with its slot lost.
pub fn a_run_begins()
    ensures { ARunBegins }
{}
