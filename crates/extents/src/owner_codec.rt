//! What a table says of an extent as 4 bytes, and 4 bytes as what it says: docs/FORMATS.md, "Volume table".
ghost use Rattle.std.specs.Prelude.{◌≡◌, ◌&&◌, Bool, length, IfSome, Some, List, Option};
ghost use Rattle.std.specs.List.{flat_map};
ghost use Rattle.extents.specs.declared.owned.Owned.{Owned};
ghost use Rattle.extents.specs.Cells.{IsSaid, OwnerHasRoom, OwnersHaveRoom, is_marked};
ghost use Rattle.extents.specs.TableSpelling.{entries_of, entry_bytes, mark, number_in, place_in};

use crate::Owned;
use crate::version::tells_dirty;
use byteorder::{ByteOrder, LittleEndian};
use sector_model::Sector;

/// What is added to the place of an extent that is marked as dirty.
pub const DIRTY_MARK: u16 = 32_768;

// The number that stands for the record that has an extent.
fn number_in(owner: Option<Owned>) -> u16
    ensures { result ≡ number_in owner }
{
    match owner {
        None => 0,
        Some(owned) => u16::from(owned.volume) + 1,
    }
}

// The place that stands for that of an extent.
fn place_in(owner: Option<Owned>) -> u16
    ensures { result ≡ place_in owner }
{
    match owner {
        None => 0,
        Some(owned) => owned.place,
    }
}

// What is added to it.
fn mark(marked: bool) -> u16
    ensures { result ≡ mark marked }
{
    if marked { DIRTY_MARK } else { 0 }
}

// Writes who has an extent, and whether it is marked, over whatever the 4 bytes held.
fn write_entry(owner: Option<Owned>, marked: bool, to: &mut [u8])
    requires long { length to.old ≡ 4 }
    requires room { OwnerHasRoom owner }
    ensures { to.new ≡ entry_bytes (owner, marked) }
{
    LittleEndian::write_u16(&mut to[..2], number_in(owner));
    LittleEndian::write_u16(&mut to[2..4], place_in(owner) + mark(marked));
}

// Who has an extent by the numbers in 4 bytes. It judges no more than that the record's number fits.
fn owner_in(from: &[u8]) -> Option<Option<Owned>>
    requires { length from.now ≡ 4 }
    ensures room { IfSome result OwnerHasRoom }
    ensures exact { (o : Option Owned) (marked : Bool) → OwnerHasRoom o → from.now ≡ entry_bytes (o, marked)
        → result ≡ Some o }
{
    let number = LittleEndian::read_u16(&from[..2]);
    let place = LittleEndian::read_u16(&from[2..4]) % DIRTY_MARK;
    if number == 0 {
        return Some(None);
    }
    if number > 256 {
        return None;
    }
    Some(Some(Owned {
        volume: (number - 1) as u8,
        place,
    }))
}

/// Whether these 4 bytes are marked.
pub fn is_marked(from: &[u8]) -> bool
    requires { length from.now ≡ 4 }
    ensures { result ≡ is_marked from.now }
{
    LittleEndian::read_u16(&from[2..4]) >= DIRTY_MARK
}

/// Who has an extent by these 4 bytes, None in it for a free one. None where they spell neither, or are marked in a
/// version without marks.
pub fn read_owner(marks: bool, from: &[u8]) -> Option<Option<Owned>>
    requires { length from.now ≡ 4 }
    ensures some { IfSome result (IsSaid marks from.now) }
    ensures exact { (o : Option Owned) → OwnerHasRoom o → IsSaid marks from.now o → result ≡ Some o }
{
    let owner = owner_in(from)?;
    let marked = is_marked(from);
    if marked && !marks {
        return None;
    }
    let mut again = [0; 4];
    write_entry(owner, marked, &mut again);
    if again.as_slice() == from {
        Some(owner)
    } else {
        None
    }
}

// Whether an extent is marked, in a version that has marks or not.
fn marked_by(marks: bool, dirty: bool) -> bool
    ensures { result ≡ (marks && dirty) }
{
    marks && dirty
}

/// Writes a sector of 128 extents, of which these are dirty, over whatever the sector held.
pub fn write_entries(version: u8, extents: &[Option<Owned>], dirty: &[bool], to: &mut Sector)
    requires long { length extents.now ≡ 128 }
    requires as_many { length dirty.now ≡ 128 }
    requires room { OwnersHaveRoom extents.now }
    ensures { to.new ≡ flat_map entry_bytes (entries_of version extents.now dirty.now) }
{
    let marks = tells_dirty(version);
    for (number, owner) in extents.iter().enumerate() {
        let at = 4 * number;
        let marked = marked_by(marks, dirty[number]);
        write_entry(*owner, marked, &mut to[at..at + 4]);
    }
}
