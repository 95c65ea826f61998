//! What one command on the volumes keeps.
ghost use Rattle.volume_table.specs.Law.{CommandsKeepLimits, RefusedChangesNothing, ReadChangesNothing};
ghost use Rattle.volume_table.specs.Law.{ListChangesNothing, OthersStay, WrittenIsRead, WriteChangesItsBlocks};
ghost use Rattle.volume_table.specs.Law.{CreatedIsZero, ListIsExact, FoundIsListed, CreatedIsListed, ExtendedHasZeros};
ghost use Rattle.volume_table.specs.Law.{RemovedIsGone, RenamedHasBlocks, RenamedIsListed, UpgradeKeepsVolumes};
ghost use Rattle.volume_table.specs.Law.{VersionStays, KnownByBlocks};

/// The laws of one command on the volumes. It computes nothing: its promises are what it is for.
///
/// Each command leaves volumes within the limits, and what is refused, a read and a list change nothing. A command
/// changes no volume but those that it names: a created one has zero blocks and is listed, an extended one keeps its
/// blocks before zero ones, a removed one is gone, a written one has the blocks written where they were written, and
/// all others as they were, and a renamed one has its blocks under the new name, is listed by it, and no volume has the
/// old one. An upgrade makes the table one of version 2, and nothing else does. A list has each volume with its length,
/// and nothing else.
pub fn law_of_commands()
    ensures limits { CommandsKeepLimits }
    ensures refused { RefusedChangesNothing }
    ensures read { ReadChangesNothing }
    ensures list { ListChangesNothing }
    ensures others { OthersStay }
    ensures written_is_read { WrittenIsRead }
    ensures write { WriteChangesItsBlocks }
    ensures created { CreatedIsZero }
    ensures exact { ListIsExact }
    ensures listed { FoundIsListed }
    ensures created_is_listed { CreatedIsListed }
    ensures extended { ExtendedHasZeros }
    ensures removed { RemovedIsGone }
    ensures renamed { RenamedHasBlocks }
    ensures renamed_is_listed { RenamedIsListed }
    ensures upgrade { UpgradeKeepsVolumes }
    ensures version { VersionStays }
    ensures known { KnownByBlocks }
{}
