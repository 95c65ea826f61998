//! Blocks in hexadecimal.
ghost use Rattle.std.specs.Prelude.{◌≡◌, List, IfSome, OnSome, None};
ghost use Rattle.volume_table.specs.Volumes.{Block};
ghost use Rattle.report.specs.Fields.{fields_left};
ghost use Rattle.report.specs.Grammar.{AreBlocks, IsBlock};
ghost use Rattle.report.specs.Kept.{AreKept};

use super::KEPT_BLOCKS;
use super::fields::Fields;
use hex::FromHex;
use sector_model::Sector;

// What follows the two digits of a block that is one byte over and over.
const REPEATED: &[u8] = b"*512";

/// Reads fields that spell one block each, and keeps the first `KEPT_BLOCKS` in `to`: how many
/// these are. None where a field is no block, and `to` then holds anything.
pub fn keep_blocks(fields: Fields<'_>, to: &mut [Sector; KEPT_BLOCKS]) -> Option<usize>
    ensures said { IfSome result (λ kept. (blocks : List Block) × AreBlocks (fields_left fields.entry) blocks
        × AreKept blocks kept to.new) }
    ensures unsaid { result ≡ None → (blocks : List Block) → AreBlocks (fields_left fields.entry) blocks → ⊥ }
{
    let mut unkept: Sector = [0; 512];
    let mut kept = 0;
    'fields: for field in fields {
        if kept < KEPT_BLOCKS {
            read_block(field, &mut to[kept])?;
            kept += 1;
        } else {
            read_block(field, &mut unkept)?;
        }
    }
    Some(kept)
}

/// Reads a field that spells a block into `to`: 1,024 hexadecimal digits of either case, or two of
/// them and `*512`. None where the field is no block, and `to` then holds anything.
pub fn read_block(field: &[u8], to: &mut Sector) -> Option<()>
    ensures said { OnSome result (IsBlock field.now to.new) }
    ensures unsaid { result ≡ None → (block : Block) → IsBlock field.now block → ⊥ }
{
    if let Some(digits) = field.strip_suffix(REPEATED) {
        let [byte] = <[u8; 1]>::from_hex(digits).ok()?;
        *to = [byte; 512];
        return Some(());
    }
    hex::decode_to_slice(field, to).ok()
}
