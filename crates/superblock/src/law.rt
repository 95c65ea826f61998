//! What superblocks keep.
ghost use Rattle.superblock.specs.Law.{FirstGreatestIsOne, OneSectorSpellsOne, SpellingsAreSectors};

/// The law of superblocks. It computes nothing: its promises are what it is for.
///
/// No sector spells two superblocks. Every spelling has 512 bytes. Of the superblocks in a list, only one is the first
/// with the greatest generation.
pub fn superblock_law()
    ensures one { OneSectorSpellsOne }
    ensures sector { SpellingsAreSectors }
    ensures first { FirstGreatestIsOne }
{}
