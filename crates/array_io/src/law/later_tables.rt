//! Tables that go on.
ghost use Rattle.array_io.specs.Laws.RunLaw.{AwayIsStale, StaleGoesOn};

/// What is stale under a table is stale under each later one. And where a set is complete again, whatever of the lost
/// slot was away is stale: it was replaced, and never counts again.
pub fn tables_go_on()
    ensures stale { StaleGoesOn }
    ensures away { AwayIsStale }
{}
