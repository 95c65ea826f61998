//! What the layout keeps.
ghost use Rattle.layout_map.specs.Law.{PlacesAreWithin, NoPlaceIsShared, EachIsDataOrParity, NoneIsBoth};

/// The law of the layout, for every set within the limits. It computes nothing: its promises are what it is for.
///
/// Each logical sector lies on one of the members, in one of the rows. No two logical sectors share a place. Each
/// sector of each member holds exactly one logical sector or is its row's parity, and never both.
pub fn layout_law()
    ensures within { PlacesAreWithin }
    ensures apart { NoPlaceIsShared }
    ensures covered { EachIsDataOrParity }
    ensures never_both { NoneIsBoth }
{}
