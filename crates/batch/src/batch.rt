//! Logical sectors that wait to be written together.
ghost use Rattle.std.specs.Prelude.{◌≡◌, ◌≤◌, length};
ghost use Rattle.entry_runs.specs.WrittenOut.{masks_of_runs, rows_of_runs};
ghost use Rattle.batch.specs.Staging.{KeepsPlaces, KeepsPlan};

use crate::staging::{most_places, place_all, put_all};
use crate::{MOST_PLACES, Placed, Places, plan_rows};
use entry_runs::RunsBuilder;
use layout_map::Geometry;
use sector_model::{Refusal, Sector};
use std::alloc::Global;

/// The most sectors that are staged at once.
pub const MOST_AT_ONCE: usize = 32;

/// Logical sectors of a set that wait to be written by one entry, no sector twice, each with what is written there
/// last. They stand in the order in which they came. The memory is taken once, by `new`.
#[derive(Drop)]
pub struct Batch {
    geometry: Geometry,
    sectors: Vec<(u64, Sector)>,
    places: Places,
    runs: RunsBuilder,
    ghost held: { KeepsPlaces geometry sectors.items places.list.items },
    ghost planned: { KeepsPlan geometry places.list.items (rows_of_runs runs.list.items)
        (masks_of_runs runs.list.items) },
}

impl Batch {
    ghost use Rattle.std.specs.Prelude.{◌+◌, ◌↔◌, [], IfErr, IfOk, IsTrue, false, true};
    ghost use Rattle.entry_runs.specs.Built.{runs_in};
    ghost use Rattle.batch.specs.Batches.{waiting};
    ghost use Rattle.batch.specs.Listed.{places_in};
    ghost use Rattle.batch.specs.Places.{AreApart, AreOfSet};
    ghost use Rattle.batch.specs.Staging.{IsStaged, NoneFits, most_of};

    /// A batch in which no sector waits, of a set of this geometry. `Memory` where there is none for its 2,048 sectors,
    /// which are 1 MiB.
    pub fn new(geometry: &Geometry, alloc: Global) -> Result<Batch, Refusal>
        ensures empty { IfOk result (λ batch. waiting batch ≡ []) }
        ensures geometry { IfOk result (λ batch. batch.geometry ≡ geometry.now) }
        ensures err { IfErr result (λ refusal. refusal ≡ Refusal.Memory) }
    {
        let sectors = vec![in alloc; (0, [0; 512]); MOST_PLACES]?;
        Ok(Batch {
            geometry: *geometry,
            sectors,
            places: Places::new(),
            runs: RunsBuilder::new(),
        })
    }

    /// The geometry of the set.
    pub fn geometry(&self) -> &Geometry
        ensures { result.now ≡ self.now.geometry }
    {
        &self.geometry
    }

    /// How many sectors wait, at most 2,048.
    pub fn len(&self) -> usize
        ensures { result ≡ length (waiting self.now) }
    {
        self.places.len()
    }

    /// Whether no sector waits.
    pub fn is_empty(&self) -> bool
        ensures { IsTrue result ↔ (waiting self.now ≡ []) }
    {
        self.places.is_empty()
    }

    /// The sectors that wait, in the order in which they came.
    pub fn sectors(&self) -> &[(u64, Sector)]
        ensures { result.now ≡ waiting self.now }
    {
        &self.sectors[..self.places.len()]
    }

    /// Where they lie, by row and then by member.
    pub fn places(&self) -> &[Placed]
        ensures { result.now ≡ places_in self.now.places }
    {
        self.places.as_slice()
    }

    /// The rows that a commit of them changes, each with its mask.
    pub fn runs(&self) -> &RunsBuilder
        ensures { result.now ≡ self.now.runs }
    {
        &self.runs
    }

    /// Takes all sectors out.
    pub fn clear(&mut self)
        ensures empty { waiting self.new ≡ [] }
        ensures geometry { self.new.geometry ≡ self.old.geometry }
    {
        self.places.clear();
        self.runs.clear();
    }

    /// Has sectors of the set wait, 1 to 32 and none twice (conditions); of one that waits already the new data counts.
    /// False, with nothing changed, where one entry could not have all those that would wait: more than 32, or 2,048 of
    /// a set of format 2, or rows that are more than 58 runs. Where few enough wait, at most 32 with the given ones,
    /// it is never false.
    pub fn stage(&mut self, sectors: &[(u64, Sector)]) -> bool
        requires least { 1 ≤ length sectors.now }
        requires most { length sectors.now ≤ MOST_AT_ONCE }
        requires of_set { AreOfSet self.old.geometry sectors.now }
        requires apart { AreApart sectors.now }
        ensures staged { result ≡ true → IsStaged (waiting self.old) sectors.now (waiting self.new) }
        ensures most { result ≡ true → length (waiting self.new) ≤ most_of self.old.geometry.format }
        ensures kept { result ≡ false → waiting self.new ≡ waiting self.old }
        ensures places { result ≡ false → self.new.places ≡ self.old.places }
        ensures runs { result ≡ false → self.new.runs ≡ self.old.runs }
        ensures geometry { self.new.geometry ≡ self.old.geometry }
        ensures none { result ≡ false → NoneFits self.old.geometry (waiting self.old) sectors.now }
        ensures few { length (waiting self.old) + length sectors.now ≤ 32 → result ≡ true }
    {
        let most = most_places(self.geometry.format);
        let mut places = self.places.copy();
        if !place_all(
            &self.geometry,
            most,
            &mut self.sectors,
            &mut places,
            sectors,
        ) {
            return false;
        }
        let mut runs = RunsBuilder::new();
        if !plan_rows(&self.geometry, places.as_slice(), &mut runs) {
            return false;
        }
        put_all(&self.geometry, &places, sectors, &mut self.sectors);
        self.places = places;
        self.runs = runs;
        true
    }
}
