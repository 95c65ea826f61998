//! What a logical list shows.
ghost use Rattle.volume_table.specs.ShowsLaw.{GoodNamesAreTheTables, ShownAreOne, ListShowsOne, EmptyIsShown};
ghost use Rattle.volume_table.specs.ShowsLaw.{AbsentIsShown, LengthIsShown, ReadIsShown, WriteIsShown, UnusedMayChange};
ghost use Rattle.volume_table.specs.ShowsLaw.{CreateIsShown, ExtendIsShown, RemoveIsShown, RenameIsShown};
ghost use Rattle.volume_table.specs.ShowsLaw.{UpgradeIsShown, RecordsAreCounted, TableIsExtentMap, FreeIsNotNeeded};

/// The laws of what a logical list shows. It computes nothing: its promises are what it is for.
///
/// By one table a list shows one map of volumes, by an empty one none. A name without a record is the name of no
/// volume, a record says its volume's length, and a read answers the blocks that stand in the volume's extents. Where
/// the blocks of a write are put in their sectors and nothing else is changed, the list shows the volumes after that
/// write. Blocks that no volume has may change freely. A list with a new table, which differs in the record of one
/// volume alone, shows the volumes after the create, extend, remove or rename of it, and one whose new table is of
/// version 2 and says the same shows the volumes after an upgrade. As many volumes are shown as records are used, and
/// they need the extents that the records take: the others are free.
pub fn law_of_shown_volumes()
    ensures names { GoodNamesAreTheTables }
    ensures one { ShownAreOne }
    ensures one_of_list { ListShowsOne }
    ensures empty { EmptyIsShown }
    ensures absent { AbsentIsShown }
    ensures length { LengthIsShown }
    ensures read { ReadIsShown }
    ensures write { WriteIsShown }
    ensures unused { UnusedMayChange }
    ensures create { CreateIsShown }
    ensures extend { ExtendIsShown }
    ensures remove { RemoveIsShown }
    ensures rename { RenameIsShown }
    ensures upgrade { UpgradeIsShown }
    ensures counted { RecordsAreCounted }
    ensures map { TableIsExtentMap }
    ensures free { FreeIsNotNeeded }
{}
