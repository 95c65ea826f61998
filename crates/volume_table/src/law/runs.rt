//! From a crash to the next start.
ghost use Rattle.volume_table.specs.Stands.{StandsAfterAStart};

/// The volumes that a case stands for when a run crashes are those that it stands for when the next run begins, with
/// the same devices, one of them away, one that was away back in its slot, or a blank or stale one there.
pub fn volumes_after_a_start()
    ensures { StandsAfterAStart }
{}
