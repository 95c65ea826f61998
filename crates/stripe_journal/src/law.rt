//! What seals and the places of bodies keep, and what a crash leaves of an entry.
ghost use Rattle.stripe_journal.specs.Law.{FillsASector, FieldsAreInPlace, FieldsSpellTheSeal, SpellsOneSeal};
ghost use Rattle.stripe_journal.specs.Law.{BodiesAreInPlace, BodiesAreWithin, BodiesLieApart, HalvesLieApart};
ghost use Rattle.stripe_journal.specs.Law.{WholeRowsFollow};
ghost use Rattle.stripe_journal.specs.OneEntry.{ACrashLeavesEither};

/// The law of seals and of the bodies beside them, for every entry. It computes nothing: its promises are what it is
/// for.
///
/// The spelling of a seal fills a sector, each field in its place, and a sector with each field in its place is a
/// spelling. No sector spells two seals. A body lies in sectors 8 to 519 of its journal, and no sector of it is one of
/// the body of the entry before or after it. Each of its sectors is one member's of one row; where the seal names no
/// members, it has those of all, row after row. What is written of an entry in memory stands where its seal says.
pub fn seal_law()
    ensures filled { FillsASector }
    ensures fields { FieldsAreInPlace }
    ensures spelled { FieldsSpellTheSeal }
    ensures one { SpellsOneSeal }
    ensures within { BodiesAreWithin }
    ensures halves { HalvesLieApart }
    ensures apart { BodiesLieApart }
    ensures rows { WholeRowsFollow }
    ensures in_place { BodiesAreInPlace }
{}

/// The law of one entry, for every journal. It computes nothing: its promise is what it is for.
///
/// At each stage of putting the next entry on a journal, what may stand there has the entry before as its last, or this
/// one with its body: until its seal is written the entry before, and once its seal is safe this one. With the entry
/// before, each sector outside of this entry's half and seal place is as it was.
pub fn entry_law()
    ensures either { ACrashLeavesEither }
{}
