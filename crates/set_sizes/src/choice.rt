//! The number of stripes of a set of format 2: the fewest for a wished room, the most for the sizes of its members.
ghost use Rattle.std.specs.Prelude.{◌≡◌, ◌↔◌, ℕ, IsTrue, IfOk, IfErr};
ghost use Rattle.layout_map.specs.declared.format.Format.TheVariants.{Two};
ghost use Rattle.set_sizes.specs.Rooms.{HasRoom, IsLeastFor, IsMostFor, LiesOn};

use crate::rooms::room;
use layout_map::{FIRST_ROW, Format, Geometry};
use sector_model::Refusal;

/// The geometry of format 2 of so many members and sectors of a chunk with the fewest stripes whose room is at least
/// so many blocks. With 0 blocks it is the smallest set.
///
/// Refused with `BadGeometry` where none has that room: also where the members are not 3 to 8, or the chunk is not of
/// 8, 16, 32, 64, 128, 256, 512 or 1,024 sectors.
pub fn least_for(members: u8, chunk: u16, blocks: u64) -> Result<Geometry, Refusal>
    ensures format { IfOk result (λ geometry. geometry.format ≡ Two) }
    ensures members { IfOk result (λ geometry. geometry.members ≡ members) }
    ensures chunk { IfOk result (λ geometry. geometry.chunk ≡ chunk) }
    ensures least { IfOk result (λ geometry. IsLeastFor members chunk blocks geometry.stripes) }
    ensures none { IfErr result (λ refusal. (stripes : ℕ) → ¬ HasRoom members chunk blocks stripes) }
    ensures refusal { IfErr result (λ refusal. refusal ≡ Refusal.BadGeometry) }
{
    let most = most_for(members, chunk, u32::MAX)?;
    if !has_room(members, chunk, most.stripes, blocks) {
        return Err(Refusal::BadGeometry);
    }
    let stripes = least_below(members, chunk, blocks, most.stripes);
    Geometry::large(members, chunk, stripes)
}

/// The geometry of format 2 of so many members and sectors of a chunk with the most stripes that have all their rows on
/// members of so many sectors each. A row has one sector of every member, and row 0 is sector 8.
///
/// Refused with `BadGeometry` where no geometry has its rows there: also where the members are not 3 to 8, or the chunk
/// is not of 8, 16, 32, 64, 128, 256, 512 or 1,024 sectors.
pub fn most_for(members: u8, chunk: u16, sectors: u32) -> Result<Geometry, Refusal>
    ensures format { IfOk result (λ geometry. geometry.format ≡ Two) }
    ensures members { IfOk result (λ geometry. geometry.members ≡ members) }
    ensures chunk { IfOk result (λ geometry. geometry.chunk ≡ chunk) }
    ensures most { IfOk result (λ geometry. IsMostFor members chunk sectors geometry.stripes) }
    ensures none { IfErr result (λ refusal. (stripes : ℕ) → ¬ LiesOn members chunk sectors stripes) }
    ensures refusal { IfErr result (λ refusal. refusal ≡ Refusal.BadGeometry) }
{
    if !Format::Two.is_chunk(chunk) {
        return Err(Refusal::BadGeometry);
    }
    let rows = sectors.saturating_sub(FIRST_ROW);
    Geometry::large(members, chunk, rows / u32::from(chunk))
}

// The fewest stripes that have room for so many blocks. The given ones have.
fn least_below(members: u8, chunk: u16, blocks: u64, most: u32) -> u32
    requires { HasRoom members chunk blocks most }
    ensures { IsLeastFor members chunk blocks result }
{
    let mut too_few = 0;
    let mut enough = most;
    while enough - too_few > 1 {
        let middle = too_few + (enough - too_few) / 2;
        if has_room(members, chunk, middle, blocks) {
            enough = middle;
        } else {
            too_few = middle;
        }
    }
    enough
}

// Whether so many stripes make a set of format 2, and it has room for so many blocks.
fn has_room(members: u8, chunk: u16, stripes: u32, blocks: u64) -> bool
    ensures { IsTrue result ↔ HasRoom members chunk blocks stripes }
{
    match Geometry::large(members, chunk, stripes) {
        Ok(geometry) => room(&geometry) >= blocks,
        Err(_) => false,
    }
}
