//! An open store: the volumes of a set, by their table and the map of their extents.
ghost use Rattle.std.specs.Prelude.{◌≡◌, ◌↔◌, IsTrue, Ok, Err, Some};
ghost use Rattle.sector_model.specs.declared.refusal.Refusal.{Refusal};
ghost use Rattle.array_io.specs.Believed.Views.{EndsIt, HasEnded};
ghost use Rattle.volume_table.specs.Admission.{AreKept};
ghost use Rattle.extents.specs.SetExtents.{extents_in};

use array_io::Array;
use extents::{ExtentMap, VolumeTable};
use sector_model::{Bank, Refusal};

mod admission;
mod applying;
mod creating;
mod dirty_blocks;
mod extending;
mod failing;
mod growing;
mod listing;
mod opening;
mod placing;
mod reading;
mod rebuilding;
mod removing;
mod renaming;
mod replacing;
mod running;
mod saving;
mod scrubbing;
mod staging;
mod status;
mod stripes;
mod upgrading;
mod writing;
mod zero_ranges;
mod zeroing;

/// The volumes of a set that was made or assembled.
///
/// It keeps the table of volumes in memory, as the set's first logical sectors spell it, and the map of its extents.
/// Both are of fixed size. A call that is refused with `TwoLost` or `Worn` ends the store: it answers the same to every
/// later call, and makes no device call any more. The set is then assembled again, in a new run. The fields are open to
/// those who say what a call does.
#[derive(Drop)]
pub struct Store<B: Bank> {
    /// The set, on whose logical sectors the volumes lie.
    pub array: Array<B>,
    /// The table of volumes.
    pub table: VolumeTable,
    /// Which volume has which of the set's extents, as the table says.
    pub map: ExtentMap,
    /// The refusal that ended the store, 15 or 16, if one did.
    pub ended: Option<Refusal>,
    pub ghost kept: { AreKept (extents_in array.table.geometry) table map },
}

impl<B: Bank> Store<B> {
    /// The bank, to be looked at.
    pub fn bank(&self) -> &B
        ensures { result.now ≡ self.now.array.bank }
    {
        &self.array.bank
    }

    /// Gives the store up, and the bank back.
    pub fn into_bank(self) -> B
        ensures { result ≡ self.array.bank }
    {
        self.array.bank
    }

    // Keeps the refusal of a call that ends the store, if it was refused, and answers as the call did.
    fn end(&mut self, answer: Result<(), Refusal>) -> Result<(), Refusal>
        ensures array { self.new.array ≡ self.old.array }
        ensures table { self.new.table ≡ self.old.table }
        ensures map { self.new.map ≡ self.old.map }
        ensures done { answer ≡ Ok tt → self.new.ended ≡ self.old.ended }
        ensures ended { (refusal : Refusal) → answer ≡ Err refusal → self.new.ended ≡ Some refusal }
        ensures same { result ≡ answer }
    {
        if let Err(refusal) = answer {
            self.ended = Some(refusal);
        }
        answer
    }

    // Keeps the refusal of a call where it is one that ends the store, and answers as the call did.
    fn end_by<T>(&mut self, answer: Result<T, Refusal>) -> Result<T, Refusal>
        ensures array { self.new.array ≡ self.old.array }
        ensures table { self.new.table ≡ self.old.table }
        ensures map { self.new.map ≡ self.old.map }
        ensures going_on { ¬ HasEnded answer → self.new.ended ≡ self.old.ended }
        ensures ended { (refusal : Refusal) → answer ≡ Err refusal → EndsIt refusal → self.new.ended ≡ Some refusal }
        ensures same { result ≡ answer }
    {
        if let Err(refusal) = &answer {
            if ends_it(*refusal) {
                self.ended = Some(*refusal);
            }
        }
        answer
    }
}

// Whether a refusal ends a store.
fn ends_it(refusal: Refusal) -> bool
    ensures { IsTrue result ↔ EndsIt refusal }
{
    refusal == Refusal::TwoLost || refusal == Refusal::Worn
}
