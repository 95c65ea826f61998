//! A set that was just made.
ghost use Rattle.volume_table.specs.Stands.{FreshSetShowsNone, FreshSetStandsForNone};

/// What making a set leaves shows no volume, and stands for no volume.
pub fn fresh_set_has_no_volume()
    ensures shows { FreshSetShowsNone }
    ensures stands { FreshSetStandsForNone }
{}
