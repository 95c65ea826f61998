//! Small runs of commands.
ghost use Rattle.volume_table.specs.Rows.{FillThenNoSpace, OneBlockTooMany, ExtendIntoNewExtent, ExtendKeepsAndZeroes};
ghost use Rattle.volume_table.specs.Rows.{ReusedIsZero, ThirtyTwoBlocks, WriteOutOfRange, RefusedCommands};
ghost use Rattle.volume_table.specs.Rows.{LargestVolume, ReadsAtTheLimits, NamesAtTheLimits, ThirtyTwoVolumes};
ghost use Rattle.volume_table.specs.Rows.{SixtyFourVolumes, LongNames, RenameScript, ListRises, FailRefusals};
ghost use Rattle.volume_table.specs.Rows.{SmallerExtents, RebuildInSteps, RebuildPositions, JournalJoins};
ghost use Rattle.volume_table.specs.Rows.{ScrubInParts, PartRefusals};

/// Small runs of commands, worked out by hand: what the laws leave open of the numbers, the order of the refusals and
/// the list. It computes nothing.
pub fn worked_rows()
    ensures full { FillThenNoSpace }
    ensures one_too_many { OneBlockTooMany }
    ensures smaller_extents { SmallerExtents }
    ensures new_extent { ExtendIntoNewExtent }
    ensures extend { ExtendKeepsAndZeroes }
    ensures reused { ReusedIsZero }
    ensures thirty_two_blocks { ThirtyTwoBlocks }
    ensures out_of_range { WriteOutOfRange }
    ensures refused { RefusedCommands }
    ensures largest { LargestVolume }
    ensures reads { ReadsAtTheLimits }
    ensures names { NamesAtTheLimits }
    ensures thirty_two_volumes { ThirtyTwoVolumes }
    ensures sixty_four_volumes { SixtyFourVolumes }
    ensures long_names { LongNames }
    ensures rename_script { RenameScript }
    ensures list { ListRises }
    ensures fail { FailRefusals }
    ensures rebuild { RebuildInSteps }
    ensures positions { RebuildPositions }
    ensures journal { JournalJoins }
    ensures parts { ScrubInParts }
    ensures part_refusals { PartRefusals }
{}
