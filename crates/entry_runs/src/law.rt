//! What the spelling of runs and the places in a body keep.
ghost use Rattle.entry_runs.specs.Law.{FillsItsBytes, SpellsOneList, AreOfOneList};
ghost use Rattle.entry_runs.specs.Law.{RowsRise, RowsEnd, RowsHaveTheirMasks, RowsAreWrittenOut};
ghost use Rattle.entry_runs.specs.Law.{RunsAreFound, RowsStandByRun};
ghost use Rattle.entry_runs.specs.Law.{BodiesAreHeld, RanksAreWithin, RanksRise, RanksLieApart, RanksFill};
ghost use Rattle.entry_runs.specs.Law.{RanksStandByRun, BodiesFollowMasks, RanksFollowMasks};

/// The law of runs, for all that are those of an entry. It computes nothing: its promises are what it is for.
///
/// Their spelling has 464 bytes, and no bytes and count spell two lists. No two lists have the same rows with the same
/// masks, so an entry's runs are found in one way alone. The rows that are written out rise, and end with the
/// last run; each has the mask of its run, and they are the rows of the runs, run after run.
pub fn runs_law()
    ensures filled { FillsItsBytes }
    ensures one { SpellsOneList }
    ensures alone { AreOfOneList }
    ensures rising { RowsRise }
    ensures ends { RowsEnd }
    ensures masks { RowsHaveTheirMasks }
    ensures rows { RowsAreWrittenOut }
    ensures found { RunsAreFound }
    ensures stand { RowsStandByRun }
{}

/// The law of bodies, for all runs of an entry. It computes nothing: its promises are what it is for.
///
/// What a body has is held. A sector's place in it is below the count of what the runs hold, and lower than that of
/// each sector with a higher row, or a higher member in the same row. No two sectors have one place, and each place is
/// a sector's. It is what the runs before the row's hold, and what comes before it in its run; over the masks that are
/// written out it is the bits of those before its row's, and those of the members below.
pub fn body_law()
    ensures held { BodiesAreHeld }
    ensures within { RanksAreWithin }
    ensures rising { RanksRise }
    ensures apart { RanksLieApart }
    ensures filled { RanksFill }
    ensures stand { RanksStandByRun }
    ensures bits { BodiesFollowMasks }
    ensures masks { RanksFollowMasks }
{}
