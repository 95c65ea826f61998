//! Which superblock counts in a sector, and which of two is the newer one.
ghost use Rattle.std.specs.Prelude.{◌≡◌, ◌↔◌, IfSome, IsNone, IsTrue};
ghost use Rattle.superblock.specs.declared.table.Superblock.{Superblock};
ghost use Rattle.superblock.specs.Newest.{BelongsAt, CountsIn, IsOfSet, newer_of};

use crate::{Superblock, decode};
use layout_map::SUPERBLOCK_PLACES;
use sector_model::Sector;

/// The superblock that a sector spells, where it counts in this place, 0 or 1, of this slot, for the set with this id.
/// The bank has this many slots.
pub fn counted(
    sector: &Sector,
    id: &[u8; 16],
    devices: usize,
    slot: usize,
    place: u8,
) -> Option<Superblock>
    ensures some { IfSome result (λ superblock. CountsIn id.now devices slot place sector.now superblock) }
    ensures none { IsNone result → (superblock : Superblock)
        → ¬ CountsIn id.now devices slot place sector.now superblock }
{
    let superblock = decode(sector)?;
    if is_of_set(&superblock, id, devices) && belongs_at(&superblock, slot, place) {
        Some(superblock)
    } else {
        None
    }
}

/// The newer of two superblocks: that with the greater generation, and of two equally new ones the first.
pub fn newer(first: Option<Superblock>, second: Option<Superblock>) -> Option<Superblock>
    ensures { result ≡ newer_of first second }
{
    match (first, second) {
        (Some(old), Some(new)) if old.table.generation < new.table.generation => second,
        (Some(_), _) => first,
        (None, _) => second,
    }
}

// Whether a superblock is of the set, and the bank has the set's slots.
#[tactic(auto, using(crate::proofs::Newest::set_iff))]
fn is_of_set(superblock: &Superblock, id: &[u8; 16], devices: usize) -> bool
    ensures { IsTrue result ↔ IsOfSet id.now devices superblock.now }
{
    superblock.table.id == *id && superblock.table.geometry.members as usize + 2 <= devices
}

// Whether a superblock belongs into a place of a slot.
#[tactic(auto, using(crate::proofs::Newest::place_iff))]
fn belongs_at(superblock: &Superblock, slot: usize, place: u8) -> bool
    ensures { IsTrue result ↔ BelongsAt slot place superblock.now }
{
    superblock.role as usize == slot
        && superblock.table.generation % SUPERBLOCK_PLACES as u64 == u64::from(place)
}
