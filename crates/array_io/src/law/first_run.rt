//! The first run of a set.
ghost use Rattle.array_io.specs.Laws.RunLaw.{SettledBegins};

/// The run that begins with a set that was just made is settled on zeros: no slot is lost, and no entry was made yet.
pub fn settled_begins()
    ensures { SettledBegins }
{}
