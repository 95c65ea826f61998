//! One member may go.
ghost use Rattle.array_io.specs.Laws.Law.{OneMemberMayGo};

/// Of a set with all slots live and in sync and sound rows any one member may go: the row values and the logical list
/// stay.
pub fn one_member_may_go()
    ensures { OneMemberMayGo }
{}
