//! Which superblocks of an image count, which table decides and which devices are live: the definitions, run over an
//! image in memory. It is slow and plain, for tests to compare with; nothing that serves a set uses it.
ghost use Rattle.std.specs.Prelude.{◌≡◌, ◌↔◌, ◌≤◌, IfSome, IsNone, IsTrue, length, vec_len};
ghost use Rattle.sector_model.specs.History.{disk_of};
ghost use Rattle.sector_model.specs.Memory.{sectors_in, slots_of};
ghost use Rattle.superblock.specs.declared.state.State.TheVariants.{Missing};
ghost use Rattle.superblock.specs.Counted.{Counts, HasIncarnation, IsChosen, IsLive, least_sectors};
ghost use Rattle.superblock.specs.Newest.{CountsNone, ImageCountsNone, IsNewest, SlotCountsNone};
ghost use Rattle.superblock.specs.Tables.{incarnation_at, state_at};

use crate::counting::{counted, newer};
use crate::{State, Superblock, Table};
use layout_map::{FIRST_ROW, Geometry};
use sector_model::{Image, Sector};

/// The superblock of the set that counts in a place, 0 or 1, of what a slot has. The bank has this many slots.
#[tactic(auto, using(crate::proofs::Newest::counted_there, crate::proofs::Newest::none_counted_there))]
pub fn counted_in(
    content: &Option<Vec<Sector>>,
    id: &[u8; 16],
    devices: usize,
    slot: usize,
    place: u8,
) -> Option<Superblock>
    ensures some { IfSome result (λ superblock. Counts id.now devices slot (sectors_in content.now) place superblock) }
    ensures none { IsNone result → CountsNone id.now devices slot (sectors_in content.now) place }
{
    match content {
        Some(disk) => match disk.get(place as usize) {
            Some(sector) => counted(sector, id, devices, slot, place),
            None => None,
        },
        None => None,
    }
}

/// How often the slot had been given a device when it was given the one it has: what the newest superblock says that
/// counts in what the slot has. `None` where none counts. The bank has this many slots.
#[tactic(auto, using(crate::proofs::Newest::own_of_newest, crate::proofs::Newest::newest_within))]
pub fn own_incarnation_in(
    content: &Option<Vec<Sector>>,
    id: &[u8; 16],
    devices: usize,
    slot: usize,
) -> Option<u64>
    ensures some { IfSome result (λ incarnation. HasIncarnation id.now devices slot (sectors_in content.now)
        incarnation) }
    ensures none { IsNone result → SlotCountsNone id.now devices slot (sectors_in content.now) }
{
    let newest = newest_in(content, id, devices, slot)?;
    Some(newest.table.incarnations[slot])
}

/// Whether what a slot has is live by this table: it is long enough, the table does not call it missing, and it is the
/// device that the slot was last given. The bank has this many slots.
pub fn is_live_in(content: &Option<Vec<Sector>>, devices: usize, table: &Table, slot: usize) -> bool
    ensures { IsTrue result ↔ IsLive devices table.now slot (sectors_in content.now) }
{
    if !is_long_enough(content, &table.geometry, slot) {
        return false;
    }
    if is_missing(&table.states, slot) {
        return false;
    }
    is_of_incarnation(content, devices, table, slot)
}

/// The table that decides in an image: that of the newest superblock of the set that counts in any slot, and of several
/// equally new ones that in the lowest slot. `None` where none counts.
pub fn chosen_table_in(image: &Image, id: &[u8; 16]) -> Option<Table>
    ensures some { IfSome result (λ table. IsChosen id.now (vec_len image.now.slots) (slots_of image.now.slots.items)
        table) }
    ensures none { IsNone result → ImageCountsNone id.now (vec_len image.now.slots) (slots_of image.now.slots.items) }
{
    let devices = image.slots.len();
    let mut best: Option<Superblock> = None;
    for slot in 0..devices {
        best = newer(best, newest_in(&image.slots[slot], id, devices, slot));
    }
    Some(best?.table)
}

// The newest superblock of the set that counts in what a slot has.
fn newest_in(
    content: &Option<Vec<Sector>>,
    id: &[u8; 16],
    devices: usize,
    slot: usize,
) -> Option<Superblock>
    ensures some { IfSome result (λ newest. IsNewest id.now devices slot (sectors_in content.now) newest) }
    ensures none { IsNone result → SlotCountsNone id.now devices slot (sectors_in content.now) }
{
    let even = counted_in(content, id, devices, slot, 0);
    let odd = counted_in(content, id, devices, slot, 1);
    newer(even, odd)
}

// Whether what a slot has is as long as the slot's device must be.
fn is_long_enough(content: &Option<Vec<Sector>>, geometry: &Geometry, slot: usize) -> bool
    ensures { IsTrue result ↔ least_sectors geometry.now slot ≤ length (disk_of (sectors_in content.now)) }
{
    let sectors = match content {
        Some(disk) => disk.len() as u64,
        None => 0,
    };
    let least = if slot < geometry.members as usize {
        FIRST_ROW as u64 + geometry.rows()
    } else {
        geometry.format.journal_sectors() as u64
    };
    least <= sectors
}

// Whether the states call a slot missing.
fn is_missing(states: &[State; 10], slot: usize) -> bool
    ensures { IsTrue result ↔ state_at states.now slot ≡ Missing }
{
    slot >= 10 || states[slot] == State::Missing
}

// Whether what a slot has is the device that the table says it was last given.
#[tactic(auto, using(crate::proofs::Newest::incarnation_within))]
fn is_of_incarnation(
    content: &Option<Vec<Sector>>,
    devices: usize,
    table: &Table,
    slot: usize,
) -> bool
    ensures { IsTrue result ↔ HasIncarnation table.now.id devices slot (sectors_in content.now)
        (incarnation_at table.now.incarnations slot) }
{
    match own_incarnation_in(content, &table.id, devices, slot) {
        Some(own) => own == table.incarnations[slot],
        None => false,
    }
}

#[cfg(test)]
mod tests;
