//! Which of several superblocks decides.
ghost use Rattle.std.specs.Prelude.{◌≡◌, ◌<◌, ◌↔◌, ℕ, IfSome, IsNone, IsTrue};
ghost use Rattle.superblock.specs.Chosen.{IsFirstGreatest, found_at};
ghost use Rattle.superblock.specs.declared.table.Superblock.{Superblock};

use crate::{Superblock, Table};

/// The table of the superblock with the greatest generation; of several such, of the first in the slice. `None` where
/// there is no superblock at all.
pub fn choose(found: &[Option<Superblock>]) -> Option<Table>
    ensures some { IfSome result (λ table. (best : Superblock) × IsFirstGreatest found.now best
        × (best.table ≡ table)) }
    ensures none { IsNone result → (place : ℕ) → found_at found.now place ≡ None }
{
    let mut best: Option<&Superblock> = None;
    for place in found {
        if let Some(superblock) = place {
            if is_below(best, superblock.table.generation) {
                best = Some(superblock);
            }
        }
    }
    match best {
        Some(superblock) => Some(superblock.table),
        None => None,
    }
}

// Whether the superblock has a smaller generation than this one, as none at all has.
fn is_below(superblock: Option<&Superblock>, generation: u64) -> bool
    ensures { IsTrue result ↔ IfSome superblock.entry (λ superblock. superblock.now.table.generation < generation) }
{
    match superblock {
        Some(superblock) => superblock.table.generation < generation,
        None => true,
    }
}
