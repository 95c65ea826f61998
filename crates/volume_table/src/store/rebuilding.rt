//! Rows of the rebuilding member of a set are rebuilt.
ghost use Rattle.std.specs.Prelude.{◌↔◌};
ghost use Rattle.array_io.specs.Believed.OpenArray.{IsHonest};
ghost use Rattle.rebuild.specs.Stepping.{answer_by};
ghost use Rattle.volume_table.specs.StoreFunctions.{RebuildsRows};
ghost use Rattle.volume_table.specs.OpenStore.{store_view};

use super::Store;
use rebuild::{Progress, rebuild_step};
use sector_model::{Bank, Refusal};

impl<B: Bank> Store<B> {
    /// Rebuilds the next rows of the member that is rebuilding: so many, at most the rows of a step (64, or 4,096 in
    /// format 2), and none past the last. A step of 0 rows changes nothing.
    ///
    /// Refused with `NothingToRebuild` where no member is rebuilding, or the one that is goes down in the call and is
    /// then missing. `TwoLost` and `Worn` end the store.
    pub fn rebuild_step(&mut self, rows: u64) -> Result<Progress, Refusal>
        ensures honest { IsHonest self.old.array ↔ IsHonest self.new.array }
        ensures rebuilds { RebuildsRows (IsHonest self.old.array) rows (store_view self.old) (store_view self.new)
            (answer_by result) }
    {
        if let Some(refusal) = self.ended {
            return Err(refusal);
        }
        let answer = rebuild_step(&mut self.array, rows);
        self.end_by(answer)
    }
}
