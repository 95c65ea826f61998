//! Writes wait in a batch, and are committed together.
ghost use Rattle.std.specs.Prelude.{◌≡◌, ◌≤◌, ◌↔◌, ℕ, [], List, length};
ghost use Rattle.array_io.specs.Believed.OpenArray.{IsHonest};
ghost use Rattle.batch.specs.Batches.{waiting};
ghost use Rattle.extents.specs.SetExtents.{extents_in};
ghost use Rattle.volume_table.specs.Admission.{IsWithinVolume};
ghost use Rattle.volume_table.specs.OpenStore.{store_view};
ghost use Rattle.volume_table.specs.Staging.{CommitsStaged, HoldSome, HoldsWrites, Stages};
ghost use Rattle.volume_table.specs.StagedParts.{Admits, StagesPart};
ghost use Rattle.volume_table.specs.VolumeStep.{Command};

use super::Store;
use super::admission::{admit_within, admit_zeroing};
use super::placing::stage_blocks;
use batch::Batch;
use extents::ExtentLayout;
use sector_model::{Bank, Refusal, Sector};

impl<B: Bank> Store<B> {
    /// Has a write of 1 to 32 blocks to the volume of this name, from block `at` on, wait in a batch of a set of this
    /// geometry (condition), after the writes that wait there: of two to one block the later counts. `false`, with
    /// nothing changed, where one entry could not have all that would wait: more than 2,048 blocks, 32 in a set of
    /// format 1, or rows of more than 58 runs. No device is called.
    ///
    /// Refused, in this order, with the refusal that ended the store, with `NoVolume` where no volume has the name,
    /// `BadCount` where there are 0 blocks or more than 32, and `OutOfRange` where the volume has not so many.
    pub fn stage(
        &self,
        batch: &mut Batch,
        name: &[u8],
        at: u32,
        from: &[Sector],
    ) -> Result<bool, Refusal>
        requires { batch.old.geometry ≡ self.now.array.table.geometry }
        ensures stages { Stages (store_view self.now) name.now at from.now (waiting batch.old) (waiting batch.new)
            result }
        ensures geometry { batch.new.geometry ≡ batch.old.geometry }
    {
        if let Some(refusal) = self.ended {
            return Err(refusal);
        }
        let volume = admit_within(&self.table, name, at, from.len())?;
        Ok(self.stage_part(batch, volume, at, from))
    }

    /// The number of the volume of this name, which has `count` blocks, 1 to 65,536, from block `at` on: parts of a
    /// longer write are staged by it. No device is called.
    ///
    /// Refused, in this order, with the refusal that ended the store, with `NoVolume` where no volume has the name,
    /// `BadCount` where `count` is 0 or above 65,536, and `OutOfRange` where the volume has not so many blocks.
    pub fn admit(&self, name: &[u8], at: u32, count: u32) -> Result<u8, Refusal>
        ensures { Admits (store_view self.now) name.now at count result }
    {
        if let Some(refusal) = self.ended {
            return Err(refusal);
        }
        admit_zeroing(&self.table, name, at, count)
    }

    /// Has 1 to 32 blocks of the volume of this number, from block `at` on, wait in a batch of a set of this geometry,
    /// as `stage` does. They are the volume's (condition): `admit` gave its number, for these blocks among others, and
    /// no volume was created, made longer, removed or renamed since. `false` as `stage` answers it.
    pub fn stage_part(&self, batch: &mut Batch, volume: u8, at: u32, from: &[Sector]) -> bool
        requires of_set { batch.old.geometry ≡ self.now.array.table.geometry }
        requires within { (name : List ℕ)
            × ∥ IsWithinVolume self.now.table.records name volume at (length from.now) ∥₁ }
        ensures stages { StagesPart (store_view self.now) volume at from.now (waiting batch.old) (waiting batch.new)
            result }
        ensures geometry { batch.new.geometry ≡ batch.old.geometry }
    {
        let extents = ExtentLayout::of(&self.array.table.geometry);
        stage_blocks(&extents, &self.map, batch, volume, at, from)
    }

    /// Commits the writes that wait in a batch of a set of this geometry, together: at each moment a crash leaves none
    /// of them or all, and after `Ok` all. They wait by the table of volumes that the store has (condition): no volume
    /// was created, made longer, removed or renamed since the first of them. After it nothing waits, whatever it
    /// answered; where nothing waits it makes no device call. `TwoLost` and `Worn` end the store.
    pub fn commit_staged(&mut self, batch: &mut Batch) -> Result<(), Refusal>
        requires same { batch.old.geometry ≡ self.old.array.table.geometry }
        requires held { HoldSome (extents_in self.old.array.table.geometry) self.old.table (waiting batch.old) }
        ensures honest { IsHonest self.old.array ↔ IsHonest self.new.array }
        ensures commits { (writes : List Command)
            → HoldsWrites (extents_in self.old.array.table.geometry) self.old.table writes (waiting batch.old)
            → CommitsStaged (IsHonest self.old.array) writes (store_view self.old) (store_view self.new) result }
        ensures empty { waiting batch.new ≡ [] }
        ensures table { self.new.table ≡ self.old.table }
        ensures geometry { batch.new.geometry ≡ batch.old.geometry }
    {
        if let Some(refusal) = self.ended {
            batch.clear();
            return Err(refusal);
        }
        if batch.is_empty() {
            return Ok(());
        }
        let answer = self.array.commit_batch(batch);
        batch.clear();
        self.end(answer)
    }
}
