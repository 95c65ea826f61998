//! Writes that wait in a batch, and are committed together.
//!
//! In each of these sets the extents begin with logical sector 64. In those of format 1 they have 64 blocks, in those
//! of format 2 one stripe: 16 blocks on 3 members with chunk 8, 32 on 5 members.
ghost use Rattle.std.specs.Prelude.{◌≡◌};
ghost use Rattle.batch_trials.specs.Waiting.{Waits};

use crate::testing::same;
use batch::Batch;
use layout_map::Format;
use sector_model::{Bank, MemBank, Refusal};
use std::process::Abort;
use volume_table::Store;

mod borders;
mod calls;
mod contents;
mod crashes;
mod ended;
mod failures;
mod fits;
mod large;
mod refusals;
mod replaced;
mod sets;
mod steps;

use sets::{Shape, TestStore, blocks_of, check_ended, fail_devices, next_run};
use steps::{Volumes, check_holds, check_shown, unlike_volume};

/// The calls of an entry's seals: a write and a flush of each of two journals.
pub(crate) const SEAL_CALLS: u64 = 2 * 2;

/// A write: the name of the volume, its first block, and for each block the byte of which that is full.
pub(crate) type Write<'a> = (&'a [u8], u32, &'a [u8]);

/// 256 rows, 512 data sectors and 28 extents of 16 blocks.
pub(crate) const LARGE: Shape = (Format::Two, 3, 8, 32);

/// 96 rows, 192 data sectors and 8 extents of 16 blocks.
pub(crate) const LARGE_SMALL: Shape = (Format::Two, 3, 8, 12);

/// 1,056 rows, 4,224 data sectors and 130 extents of 32 blocks.
pub(crate) const OF_FIVE: Shape = (Format::Two, 5, 8, 132);

/// A store, and a batch of its set with the writes that wait for a commit.
#[derive(Drop)]
pub(crate) struct Waiting<B: Bank> {
    pub store: Store<B>,
    pub batch: Batch,
    ghost same: { batch.geometry ≡ store.array.table.geometry },
}

impl<B: Bank> Waiting<B> {
    /// This store, with nothing that waits.
    pub(crate) fn new(rt: &(impl Abort + AllocGlobal), store: Store<B>) -> Waiting<B>
        ensures held { Waits result.store result.batch }
    {
        let batch = Batch::new(&store.array.table.geometry, rt.alloc()).expect(rt, "memory");
        Waiting { store, batch }
    }

    /// Has a write wait.
    pub(crate) fn stage(
        &mut self,
        rt: &(impl Abort + AllocGlobal),
        write: Write,
    ) -> Result<bool, Refusal>
        requires held { Waits self.old.store self.old.batch }
        ensures held { Waits self.new.store self.new.batch }
    {
        let (name, at, bytes) = write;
        let blocks = blocks_of(rt, bytes);
        self.store.stage(&mut self.batch, name, at, &blocks)
    }

    /// Has each of these writes wait, which fit.
    pub(crate) fn stage_all(&mut self, rt: &(impl Abort + AllocGlobal), writes: &[Write])
        requires held { Waits self.old.store self.old.batch }
        ensures held { Waits self.new.store self.new.batch }
    {
        for number in 0..writes.len() {
            let staged = self.stage(rt, writes[number]);
            same(rt, (number, staged), (number, Ok(true)));
        }
    }

    /// Commits what waits.
    pub(crate) fn commit(&mut self) -> Result<(), Refusal>
        requires held { Waits self.old.store self.old.batch }
        ensures held { Waits self.new.store self.new.batch }
        ensures volumes { self.new.store.table ≡ self.old.store.table }
        ensures set { self.new.store.array.table.geometry ≡ self.old.store.array.table.geometry }
    {
        self.store.commit_staged(&mut self.batch)
    }

    // Another batch, with this write alone.
    fn another(&self, rt: &(impl Abort + AllocGlobal), write: Write) -> Batch
        ensures same { result.geometry ≡ self.now.store.array.table.geometry }
        ensures held { Waits self.now.store result }
    {
        let (name, at, bytes) = write;
        let geometry = self.store.array.table.geometry;
        let mut batch = Batch::new(&geometry, rt.alloc()).expect(rt, "memory");
        let blocks = blocks_of(rt, bytes);
        let staged = self.store.stage(&mut batch, name, at, &blocks);
        same(rt, staged, Ok(true));
        batch
    }

    /// Commits what waits, and then a second batch, of this write, which waited as well: what both answered. After the
    /// first one no device is called any more.
    pub(crate) fn commit_both(
        &mut self,
        rt: &(impl Abort + AllocGlobal),
        write: Write,
    ) -> [Result<(), Refusal>; 2]
        requires held { Waits self.old.store self.old.batch }
        ensures held { Waits self.new.store self.new.batch }
    {
        let second = self.another(rt, write);
        let first = self.commit();
        self.batch = second;
        same(rt, self.batch.len(), write.2.len());
        let before = self.store.bank().now();
        let answers = [first, self.commit()];
        same(rt, (self.batch.len(), self.batch.is_empty()), (0, true));
        same(rt, self.store.bank().now(), before);
        answers
    }

    /// The logical sectors that wait, in the order in which they came, each with its first byte.
    pub(crate) fn listed(&self, rt: &(impl Abort + AllocGlobal)) -> Vec<(u64, u8)> {
        let mut found = Vec::new(rt.alloc());
        for sector in self.batch.sectors() {
            found.push((sector.0, sector.1[0])).expect(rt, "memory");
        }
        found
    }

    /// The store, where nothing waits.
    pub(crate) fn into_store(self, rt: &impl Abort) -> Store<B> {
        same(rt, self.batch.len(), 0);
        self.store
    }
}

/// A store over a set in memory, and a batch of that set.
pub(crate) type TestWaiting = Waiting<MemBank>;

impl Waiting<MemBank> {
    /// Asks that the store, where nothing waits, has these volumes and no other. What fails is named by a number.
    pub(crate) fn check_holds(
        &mut self,
        rt: &(impl Abort + AllocGlobal),
        number: usize,
        volumes: Volumes,
    )
        ensures held { Waits self.new.store self.new.batch }
    {
        assert!(rt; self.batch.is_empty());
        check_holds(rt, &mut self.store, number, volumes);
        let geometry = self.store.array.table.geometry;
        let batch = Batch::new(&geometry, rt.alloc()).expect(rt, "memory");
        self.batch = batch;
    }

    /// Asks that the store, where nothing waits, answers this refusal to every call.
    pub(crate) fn check_ended(&mut self, rt: &(impl Abort + AllocGlobal), refusal: Refusal)
        ensures held { Waits self.new.store self.new.batch }
    {
        assert!(rt; self.batch.is_empty());
        check_ended(rt, &mut self.store, refusal);
        let geometry = self.store.array.table.geometry;
        let batch = Batch::new(&geometry, rt.alloc()).expect(rt, "memory");
        self.batch = batch;
    }

    /// Asks that the volumes are these: by the definitions, as the store reads them, and in a run that begins now. What
    /// waits stays so.
    pub(crate) fn check_volumes(&mut self, rt: &(impl Abort + AllocGlobal), volumes: Volumes)
        requires held { Waits self.old.store self.old.batch }
        ensures held { Waits self.new.store self.new.batch }
    {
        check_shown(rt, self.store.bank(), volumes);
        same(rt, unlike_volume(rt, &mut self.store, volumes), None);
        let mut later = next_run(rt, self.store.bank());
        check_holds(rt, &mut later, 0, volumes);
    }

    /// From now on these slots go down at their first call after so many, and no other.
    pub(crate) fn fail(&mut self, rt: &impl Abort, slots: &[u8], after: u64)
        requires held { Waits self.old.store self.old.batch }
        ensures held { Waits self.new.store self.new.batch }
    {
        fail_devices(rt, &mut self.store, slots, after);
    }
}

/// This store, with these writes waiting, which fit.
pub(crate) fn staged(
    rt: &(impl Abort + AllocGlobal),
    store: TestStore,
    writes: &[Write],
) -> TestWaiting
    ensures held { Waits result.store result.batch }
{
    let mut waiting = Waiting::new(rt, store);
    waiting.stage_all(rt, writes);
    waiting
}
