//! The last entry of an image in memory.
ghost use Rattle.std.specs.Prelude.{vec_len};
ghost use Rattle.sector_model.specs.Memory.{slots_of};
ghost use Rattle.array_io.specs.Oracle.{HasLastEntry, IsSealedAt};

use super::is_live_at;
use sector_model::Image;
use stripe_journal::Seal;
use stripe_journal::oracle::last_sealed_in;
use superblock::Table;

/// The last entry of a set: the slot of the journal in which it stands, and its seal.
#[derive(Drop)]
pub struct LastEntry {
    /// The slot of the journal.
    pub journal: usize,
    /// The seal of the entry.
    pub seal: Seal,
}

/// The last entry of an image by this table: that with the greatest number on a live journal, and of two with the same
/// number the one in the lower slot. `None` where no seal counts on a live journal.
pub fn last_entry_in(image: &Image, table: &Table) -> Option<LastEntry>
    ensures { HasLastEntry (vec_len image.now.slots) table.now (slots_of image.now.slots.items) result }
{
    let journal = table.geometry.members as usize;
    let lower = sealed_at(image, table, journal);
    let upper = sealed_at(image, table, journal + 1);
    match (lower, upper) {
        (Some(lower), Some(upper)) => {
            if lower.number < upper.number {
                Some(LastEntry {
                    journal: journal + 1,
                    seal: upper,
                })
            } else {
                Some(LastEntry {
                    journal,
                    seal: lower,
                })
            }
        }
        (Some(seal), None) => Some(LastEntry { journal, seal }),
        (None, Some(seal)) => Some(LastEntry {
            journal: journal + 1,
            seal,
        }),
        (None, None) => None,
    }
}

// The last seal of what stands in a slot, if that is live.
fn sealed_at(image: &Image, table: &Table, slot: usize) -> Option<Seal>
    ensures { IsSealedAt (vec_len image.now.slots) table.now (slots_of image.now.slots.items) slot result }
{
    if !is_live_at(image, table, slot) {
        return None;
    }
    if slot < image.slots.len() {
        last_sealed_in(&image.slots[slot], &table.id, &table.geometry)
    } else {
        None
    }
}
