//! Where logical sectors lie that are written together, by row and then by member.
ghost use Rattle.std.specs.Prelude.{◌≡◌, ◌↔◌, ◌≤◌, ◌<◌, IsTrue, length};
ghost use Rattle.batch.specs.Among.{GoesTo, spot};
ghost use Rattle.batch.specs.Places.{AreRising, IsBefore, placed_at};
ghost use Rattle.batch.specs.Rising.{AreRising-prop};

use crate::Placed;
use arrayvec::ArrayVec;
use layout_map::Geometry;
use sector_model::Sector;

/// The most logical sectors that one entry writes.
pub const MOST_PLACES: usize = 2048;

/// Where logical sectors that are written together lie, in the order in which a body has them: by row, and in a row by
/// member. No two have one place.
#[derive(Drop)]
pub struct Places {
    list: ArrayVec<Placed, MOST_PLACES>,
    ghost rising: { AreRising list.items } by { AreRising-prop list.items },
}

impl Places {
    ghost use Rattle.std.specs.Prelude.{◌⊎◌, ◌+◌, ℕ, [], IfSome, IsNone};
    ghost use Rattle.layout_map.specs.declared.geometry.Geometry.{Geometry};
    ghost use Rattle.batch.specs.declared.placed.Placed.{Placed};
    ghost use Rattle.batch.specs.Among.{HasPlaced, IsPlacedAs};
    ghost use Rattle.batch.specs.Listed.{places_in};
    ghost use Rattle.batch.specs.Places.{AreApart, AreOfSet, ArePlacesOf, IsPlaced};

    /// No places.
    pub fn new() -> Places
        ensures { places_in result ≡ [] }
    {
        Places {
            list: ArrayVec::new(),
        }
    }

    /// The places of these logical sectors of a set, of which there are at most 2,048 and none is given twice
    /// (conditions). `at` of each says which sector it is.
    pub fn of(geometry: &Geometry, sectors: &[(u64, Sector)]) -> Places
        requires few { length sectors.now ≤ MOST_PLACES }
        requires of_set { AreOfSet geometry.now sectors.now }
        requires apart { AreApart sectors.now }
        ensures { ArePlacesOf geometry.now sectors.now (places_in result) }
    {
        let mut places = Places::new();
        for (at, sector) in sectors.iter().enumerate() {
            let place = geometry.place(sector.0);
            places.insert(Placed {
                row: place.row as u32,
                member: place.member,
                at: at as u16,
            });
        }
        places
    }

    /// The same places once more.
    pub fn copy(&self) -> Places
        ensures { places_in result ≡ places_in self.now }
    {
        match ArrayVec::try_from(self.list.as_slice()) {
            Ok(list) => Places { list },
            Err(_) => unreachable!(),
        }
    }

    /// Takes all places out.
    pub fn clear(&mut self)
        ensures { places_in self.new ≡ [] }
    {
        self.list.clear();
    }

    /// How many places there are, at most 2,048.
    pub fn len(&self) -> usize
        ensures count { result ≡ length (places_in self.now) }
        ensures most { result ≤ MOST_PLACES }
    {
        self.list.len()
    }

    /// Whether there is no place.
    pub fn is_empty(&self) -> bool
        ensures { IsTrue result ↔ (places_in self.now ≡ []) }
    {
        self.list.is_empty()
    }

    /// The places, each before the next by row and then by member.
    pub fn as_slice(&self) -> &[Placed]
        ensures { result.now ≡ places_in self.now }
    {
        self.list.as_slice()
    }

    /// Which of the sectors lies on this member in this row, or `None` where none does.
    pub fn find(&self, row: u32, member: u8) -> Option<u16>
        ensures some { IfSome result (λ at. IsPlacedAs (places_in self.now) row member at) }
        ensures none { IsNone result → ¬ IsPlaced (places_in self.now) row member }
    {
        let places = self.list.as_slice();
        let number = number_of(places, row, member);
        if is_at(places, number, row, member) {
            Some(places[number].at)
        } else {
            None
        }
    }

    /// Puts one more place where it belongs. There is room for it, and none of the places is that member's in that row
    /// (conditions).
    pub fn insert(&mut self, placed: Placed)
        requires room { length (places_in self.old) < MOST_PLACES }
        requires apart { ¬ IsPlaced (places_in self.old) placed.row placed.member }
        ensures more { length (places_in self.new) ≡ length (places_in self.old) + 1 }
        ensures has { HasPlaced (places_in self.new) placed }
        ensures keeps { (other : Placed) → HasPlaced (places_in self.old) other
            → HasPlaced (places_in self.new) other }
        ensures only { (j : ℕ) → j < length (places_in self.new)
            → HasPlaced (places_in self.old) (placed_at (places_in self.new) j)
            ⊎ (placed_at (places_in self.new) j ≡ placed) }
    {
        let number = number_of(self.list.as_slice(), placed.row, placed.member);
        self.list.insert(number, placed);
    }
}

// Whether a place comes before a member's sector of a row.
fn comes_before(place: &Placed, row: u32, member: u8) -> bool
    ensures { IsTrue result ↔ IsBefore place.now (spot row member) }
{
    place.row < row || place.row == row && place.member < member
}

// How many of these places come before a member's sector of a row.
fn number_of(places: &[Placed], row: u32, member: u8) -> usize
    requires { AreRising places.now }
    ensures { GoesTo places.now row member result }
{
    let mut first = 0;
    let mut end = places.len();
    while first < end {
        let middle = first + (end - first) / 2;
        if comes_before(&places[middle], row, member) {
            first = middle + 1;
        } else {
            end = middle;
        }
    }
    first
}

// Whether the place of this number is a member's in a row.
fn is_at(places: &[Placed], number: usize, row: u32, member: u8) -> bool
    ensures { IsTrue result ↔ ((number < length places.now) × ((placed_at places.now number).row ≡ row)
        × ((placed_at places.now number).member ≡ member)) }
{
    number < places.len() && places[number].row == row && places[number].member == member
}
