//! What the loss of a member leaves.
ghost use Rattle.degraded.specs.Law.{OneMemberMayGo};

/// The law of single parity, for every set. It computes nothing: its promise is what it is for.
///
/// Where the rows are sound and each other member is known directly, all values stay the same when one member's own
/// sectors no longer count.
pub fn degraded_law()
    ensures one_member_may_go { OneMemberMayGo }
{}
