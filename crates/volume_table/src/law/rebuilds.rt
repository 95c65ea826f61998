//! What becomes of a rebuild.
ghost use Rattle.volume_table.specs.RebuildLaw.{RebuildAdvances, RebuildCounts, RebuildEnds, RebuildResumes};

/// The laws of the rebuild of a member. It computes nothing: its promises are what it is for.
///
/// After a crash the rebuild goes on from where it was: assembling gives a set in which the member is rebuilding at the
/// same position. At position p of R rows it is complete after exactly ceil((R - p) / 64) steps of 64 rows: each before
/// the last brings it 64 rows on, and the last is answered with `Complete`; whatever other events stand between the
/// steps, while no device is down at a return, the member is not given up and no counter stands at 2^62. Each step that
/// is answered with a position leaves one step fewer.
pub fn rebuilds_end()
    ensures resumes { RebuildResumes }
    ensures advances { RebuildAdvances }
    ensures ends { RebuildEnds }
    ensures counts { RebuildCounts }
{}
