//! The theorem over all runs of a set.
ghost use Rattle.volume_table.specs.Headline.{Headline};

/// From a set that making has answered, over any list of runs, each ended by a crash at any moment, with one device
/// lost at most: each run that is opened gives volumes that are those after a prefix of the events of the last run that
/// was opened, with every acknowledged one; each command on volumes is answered as the volume machine does; and a scrub
/// of a complete set finds no row whose parity is not the XOR of its data. It follows from the contracts of the calls
/// alone (specs/Headline.antt).
pub fn headline()
    ensures { Headline }
{}
