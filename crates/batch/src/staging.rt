//! Sectors put among those that wait, and their data.
ghost use Rattle.std.specs.Prelude.{◌≡◌, ◌≢◌, ◌+◌, ◌≤◌, ◌<◌, ℕ, false, length, true};
ghost use Rattle.layout_map.specs.Placement.{data_sectors_of};
ghost use Rattle.batch.specs.Listed.{places_in};
ghost use Rattle.batch.specs.Places.{AreApart, AreOfSet, bytes_at, logical_at};
ghost use Rattle.batch.specs.Claims.{IsClaimed};
ghost use Rattle.batch.specs.Staging.{AreAdded, AreHeld, ArePut, HasLogical, IsAdded, IsFull};
ghost use Rattle.batch.specs.Staging.{IsPut, most_of, sector_at};

use crate::{MOST_PLACES, Placed, Places};
use layout_map::{Format, Geometry};
use sector_model::Sector;

// The most sectors of an entry of a set of this format.
pub(crate) fn most_places(format: Format) -> usize
    ensures { result ≡ most_of format }
{
    match format {
        Format::One => 32,
        Format::Two => MOST_PLACES,
    }
}

// The place that a logical sector gets.
#[derive(Clone, Copy)]
pub(crate) enum Claim {
    // None, since it has one already.
    Has,
    // None, since so many have one.
    Full,
    // One after those that have one: this number of the sectors is its.
    At(usize),
}

// Gives a logical sector a place after those that have one, unless it has one already, or so many have one.
pub(crate) fn claim_place(
    geometry: &Geometry,
    most: usize,
    places: &mut Places,
    logical: u64,
) -> Claim
    requires most { most ≤ MOST_PLACES }
    requires of_set { logical < data_sectors_of geometry.now.members geometry.now.chunk geometry.now.stripes }
    ensures { IsClaimed geometry.now most logical (places_in places.old) (places_in places.new) result }
{
    let place = geometry.place(logical);
    let row = place.row as u32;
    if places.find(row, place.member).is_some() {
        return Claim::Has;
    }
    let at = places.len();
    if at >= most {
        return Claim::Full;
    }
    places.insert(Placed {
        row,
        member: place.member,
        at: at as u16,
    });
    Claim::At(at)
}

// Puts a sector after those that have a place, unless it has one already. False, with nothing changed, where so many
// have one.
fn place_one(
    geometry: &Geometry,
    most: usize,
    all: &mut [(u64, Sector)],
    places: &mut Places,
    sector: &(u64, Sector),
) -> bool
    requires long { length all.old ≡ MOST_PLACES }
    requires most { most ≤ MOST_PLACES }
    requires held { AreHeld geometry.now all.old (places_in places.old) }
    requires of_set { sector.now.0 < data_sectors_of geometry.now.members geometry.now.chunk geometry.now.stripes }
    ensures { IsAdded geometry.now most sector.now all.old all.new (places_in places.old) (places_in places.new)
        result }
{
    match claim_place(geometry, most, places, sector.0) {
        Claim::Has => true,
        Claim::Full => false,
        Claim::At(at) => {
            all[at] = *sector;
            true
        }
    }
}

// Puts each given sector after those that have a place, unless it has one already. False where there would be more than
// so many; those that had a place are unchanged then.
pub(crate) fn place_all(
    geometry: &Geometry,
    most: usize,
    all: &mut [(u64, Sector)],
    places: &mut Places,
    sectors: &[(u64, Sector)],
) -> bool
    requires long { length all.old ≡ MOST_PLACES }
    requires most { most ≤ MOST_PLACES }
    requires held { AreHeld geometry.now all.old (places_in places.old) }
    requires of_set { AreOfSet geometry.now sectors.now }
    ensures added { result ≡ true → AreAdded geometry.now most sectors.now (length sectors.now) all.old all.new
        (places_in places.old) (places_in places.new) }
    ensures kept { (k : ℕ) → k < length (places_in places.old) → sector_at all.new k ≡ sector_at all.old k }
    ensures full { result ≡ false → IsFull geometry.now most sectors.now all.old (places_in places.old) }
    ensures few { length (places_in places.old) + length sectors.now ≤ most → result ≡ true }
{
    for sector in sectors {
        if !place_one(geometry, most, all, places, sector) {
            return false;
        }
    }
    true
}

// Makes the data of a sector that has a place (condition) the given data.
fn put_one(geometry: &Geometry, places: &Places, sector: &(u64, Sector), all: &mut [(u64, Sector)])
    requires held { AreHeld geometry.now all.old (places_in places.now) }
    requires has { HasLogical all.old (length (places_in places.now)) sector.now.0 }
    ensures { IsPut sector.now (length (places_in places.now)) all.old all.new }
{
    let place = geometry.place(sector.0);
    if let Some(at) = places.find(place.row as u32, place.member) {
        all[usize::from(at)] = *sector;
    }
}

// Makes the data of sectors that have places, none of which is given twice (conditions), the given data.
pub(crate) fn put_all(
    geometry: &Geometry,
    places: &Places,
    sectors: &[(u64, Sector)],
    all: &mut [(u64, Sector)],
)
    requires held { AreHeld geometry.now all.old (places_in places.now) }
    requires has { (i : ℕ) → i < length sectors.now
        → HasLogical all.old (length (places_in places.now)) (logical_at sectors.now i) }
    requires apart { AreApart sectors.now }
    ensures { ArePut sectors.now (length sectors.now) (length (places_in places.now)) all.old all.new }
{
    for sector in sectors {
        put_one(geometry, places, sector, all);
    }
}
