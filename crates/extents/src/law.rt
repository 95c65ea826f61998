//! What the spelling of tables of volumes keeps.
ghost use Rattle.extents.specs.TableLaw.{FillsItsSectors, SpellsOneTable, EmptyTableIsZeros, EmptyTableExists};

/// The law of the sectors of tables of volumes, for every table. It computes nothing: its promises are what it is for.
///
/// A table fills the sectors of its version, and no sectors begin with the spellings of two tables. There is a table of
/// version 1 with no record and no extent in use, and its sectors are all zero; no other table has these.
pub fn volume_table_law()
    ensures filled { FillsItsSectors }
    ensures one { SpellsOneTable }
    ensures zeros { EmptyTableIsZeros }
    ensures empty { EmptyTableExists }
{}
