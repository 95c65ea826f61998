//! What a list of events keeps of the volumes.
ghost use Rattle.volume_table.specs.Law.{AfterNone, AfterOneMore, AfterInParts, AfterOfPrefix, AfterRefused};
ghost use Rattle.volume_table.specs.Law.{AfterOnSet, EventsKeepLimits};

/// The laws of a list of events on the volumes. It computes nothing: its promises are what it is for.
///
/// What the first events leave is said event by event and in any two parts, and later events count for nothing. An
/// event that is refused, or that is on the set itself, changes nothing. The volumes stay within the limits.
pub fn law_of_events()
    ensures none { AfterNone }
    ensures one_more { AfterOneMore }
    ensures parts { AfterInParts }
    ensures prefix { AfterOfPrefix }
    ensures refused { AfterRefused }
    ensures on_set { AfterOnSet }
    ensures limits { EventsKeepLimits }
{}
