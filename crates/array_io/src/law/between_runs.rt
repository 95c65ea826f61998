//! From a crash to the next start.
ghost use Rattle.array_io.specs.Laws.Law.{ACrashThenAStart};

/// What a crash leaves is what the next run begins with. Where a case holds for some logical lists, each case with
/// which the next run may begin holds for them: the same devices; one of them away; and, in the slot that may be out, a
/// device that was away, or another one that is blank or stale.
pub fn a_crash_then_a_start()
    ensures { ACrashThenAStart }
{}
