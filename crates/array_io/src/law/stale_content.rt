//! What is stale counts for nothing.
ghost use Rattle.array_io.specs.Laws.Law.{StaleCountsAsAbsent};

/// What a slot has that is stale counts for no more than no device there: the same table is chosen, the same entry is
/// the last, and each row value and the logical list are the same.
pub fn stale_counts_as_absent()
    ensures { StaleCountsAsAbsent }
{}
