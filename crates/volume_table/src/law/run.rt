//! What a run of events keeps of the volumes.
ghost use Rattle.volume_table.specs.RunLaw.{ChainKeepsVolumes, EachEventStands, LastEventStands};

/// The law of runs. It computes nothing: its promises are what it is for.
///
/// Events that are done one after another on an honest bank, none of which ended the store, leave it settled on the
/// volumes after all of them, and there is one acknowledgement for each. At each moment of one of them each case that a
/// crash may leave stands for the volumes before it or those after it; and so in an event that ends the store, or in
/// which the crash comes. What is lost goes from event to event by what the table then lacks.
pub fn volumes_after_a_run()
    ensures settled { ChainKeepsVolumes }
    ensures stands { EachEventStands }
    ensures last { LastEventStands }
{}
