//! The way to the rows of an image in memory. Every image has one.
ghost use Rattle.std.specs.Prelude.{◌≡◌, ◌<◌, ℕ, vec_len};
ghost use Rattle.sector_model.specs.Memory.{slots_of};
ghost use Rattle.array_io.specs.Believed.Holds.{AreRowsOf};
ghost use Rattle.array_io.specs.Oracle.{AreLive, rows_by};

use super::{LastEntry, is_live_at, last_entry_in};
use sector_model::Image;
use superblock::Table;

/// What has to be known of an image, besides its sectors and the table, to say what its rows are.
#[derive(Drop)]
pub struct Reading {
    /// Which members are live, from member 0 on.
    pub live: [bool; 8],
    /// The last entry, if there is one.
    pub last: Option<LastEntry>,
}

/// Reads an image by a table. With what it answers the image's rows are known: each image in memory has its rows, so
/// what is said of all ways to them is said of one at least.
#[tactic(auto, using(crate::proofs::Oracles::Readings::rows_are_read))]
pub fn reading_of(image: &Image, table: &Table) -> Reading
    ensures { AreRowsOf (vec_len image.now.slots) table.now (slots_of image.now.slots.items)
        (rows_by table.now (slots_of image.now.slots.items) result) }
{
    Reading {
        live: live_members(image, table),
        last: last_entry_in(image, table),
    }
}

// Which members are live.
#[tactic(auto, using(crate::proofs::Oracles::Readings::none_live, crate::proofs::Oracles::Readings::one_more_live))]
fn live_members(image: &Image, table: &Table) -> [bool; 8]
    ensures { AreLive (vec_len image.now.slots) table.now (slots_of image.now.slots.items) table.now.geometry.members
        result }
{
    let mut live = [false; 8];
    for member in 0..table.geometry.members as usize {
        live[member] = is_live_at(image, table, member);
    }
    live
}
