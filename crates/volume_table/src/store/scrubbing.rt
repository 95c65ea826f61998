//! The rows of a set are looked at.
ghost use Rattle.std.specs.Prelude.{◌↔◌};
ghost use Rattle.array_io.specs.Believed.OpenArray.{IsHonest};
ghost use Rattle.scrub.specs.Reports.{told_by};
ghost use Rattle.volume_table.specs.StoreFunctions.{ScrubsRows, ScrubsSet};
ghost use Rattle.volume_table.specs.OpenStore.{store_view};

use super::Store;
use scrub::{ScrubReport, scrub, scrub_part};
use sector_model::{Bank, Refusal};

impl<B: Bank> Store<B> {
    /// Tells how many rows the set has, how many of them are not sound, and which of these is the first. Nothing is
    /// repaired.
    ///
    /// Refused with `Incomplete` where a slot of the set is not in sync, also where a device goes down meanwhile, whose
    /// slot is then missing. `TwoLost` and `Worn` end the store.
    pub fn scrub(&mut self) -> Result<ScrubReport, Refusal>
        ensures honest { IsHonest self.old.array ↔ IsHonest self.new.array }
        ensures scrubs { ScrubsSet (IsHonest self.old.array) (store_view self.old) (store_view self.new)
            (told_by result) }
    {
        if let Some(refusal) = self.ended {
            return Err(refusal);
        }
        let answer = scrub(&mut self.array);
        self.end_by(answer)
    }

    /// Tells of so many rows of the set, from row `first` on and as far as it has them, how many these are, how many of
    /// them are not sound, and which of these is the first, by its number in the set. Where the set has no row `first`
    /// it tells of 0 rows. Nothing is repaired. So a set may be scrubbed in parts, with other calls between them.
    ///
    /// Refused as `scrub` is, whether or not the part has a row.
    pub fn scrub_rows(&mut self, first: u64, rows: u64) -> Result<ScrubReport, Refusal>
        ensures honest { IsHonest self.old.array ↔ IsHonest self.new.array }
        ensures scrubs { ScrubsRows (IsHonest self.old.array) first rows (store_view self.old) (store_view self.new)
            (told_by result) }
    {
        if let Some(kept) = self.ended {
            return Err(kept);
        }
        let answer = scrub_part(&mut self.array, first, rows);
        self.end_by(answer)
    }
}
