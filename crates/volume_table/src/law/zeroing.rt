//! What making blocks of a volume zero means.
ghost use Rattle.volume_table.specs.ZeroingLaw.{ZeroIsDone, ZeroIsInterrupted, ZeroLeavesZeros};

/// The laws of making blocks zero. It computes nothing: its promises are what it is for.
///
/// Its writes together make exactly these blocks of the volume zero: no other block changes, and no other volume. Where
/// it is answered it is in a session what its writes are, done one after another, each with its acknowledgement. A
/// crash in it comes in a commit of some of these writes, after those before them were done: so the theorem over all
/// runs of a set says of each crash in it that the volumes are those after a prefix of its writes.
pub fn law_of_zeroing()
    ensures leaves { ZeroLeavesZeros }
    ensures done { ZeroIsDone }
    ensures interrupted { ZeroIsInterrupted }
{}
