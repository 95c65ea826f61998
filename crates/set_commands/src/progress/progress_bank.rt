//! A bank of devices that shows how far a command over it is.
ghost use Rattle.std.specs.Prelude.{◌≡◌, ◌≢◌, ◌≤◌, ◌<◌, ◌+◌, ◌*◌, ◌-◌, ◌^◌, IfSome, IsNone, IsSomeAnd, None, Some, min};
ghost use Rattle.std.specs.Option.{option_map};
ghost use Rattle.layout_map.specs.Placement.{rows_of};
ghost use Rattle.superblock.specs.Spelling.{superblock_sector};
ghost use Rattle.superblock.specs.declared.table.Superblock.{Superblock};
ghost use Rattle.set_commands.specs.Progress.{left_of, sectors_of};

use super::{Left, Meter, average_speed, in_words, percent, time_left};
use crate::serving::most_rows;
use layout_map::{FIRST_ROW, Geometry, SUPERBLOCK_PLACES};
use sector_model::{Bank, Down, Sector};
use superblock::{Table, decode};

/// The clock is looked at once in so many calls of rows.
const CALLS: u64 = 64;

/// So many milliseconds lie between what is shown and what is shown next, at least.
const PAUSE: u64 = 200;

// A set whose shape is not known until its superblocks are read.
#[derive(Clone, Copy)]
struct Sought {
    id: [u8; 16],
    // The steps of a rebuild that the command makes; all rows are gone over where none are given.
    steps: Option<u64>,
    // Of the superblock that told the shape so far; 0 where none did.
    generation: u64,
}

// The sectors of members' rows that a command calls.
#[derive(Clone, Copy)]
struct Work {
    members: u8,
    done: u64,
    total: u64,
    // The device and the place of the one that was called last.
    last: Option<(u8, u32)>,
}

/// A bank of devices that shows on a meter how far a command over it is. Each call is passed on as it is, and its
/// answer is that bank's.
///
/// The sectors of rows of the set's members that are called are counted, one that is read and then written once. What
/// was shown is taken away when the bank is dropped.
pub struct ProgressBank<'a, B: Bank + Drop, M: Meter> {
    /// The bank that each call is passed on to.
    pub bank: B,
    meter: &'a M,
    sought: Option<Sought>,
    work: Work,
    // When it began, where somebody watches, and when it was shown last.
    began: Option<u64>,
    shown: Option<u64>,
    ghost began_is: { ∥ M.reads meter.now began ∥₁ },
}

impl<'a, B: Bank + Drop, M: Meter> ProgressBank<'a, B, M> {
    /// Watches a command that goes over all rows of the members of a set of this geometry once.
    pub fn over(bank: B, meter: &'a M, geometry: &Geometry) -> ProgressBank<'a, B, M>
        ensures bank { result.bank ≡ bank }
        ensures members { result.work.members ≡ geometry.now.members }
        ensures total { result.work.total
            ≡ min (geometry.now.members * rows_of geometry.now.chunk geometry.now.stripes) (2 ^ 64 - 1) }
        ensures undone { (result.work.done ≡ 0) × (result.work.last ≡ None) }
        ensures known { IsNone result.sought }
        ensures unshown { IsNone result.shown }
    {
        let members = geometry.members;
        let total = calls_of(members, geometry.rows());
        ProgressBank {
            bank,
            meter,
            sought: None,
            work: Work {
                members,
                done: 0,
                total,
                last: None,
            },
            began: meter.millis(),
            shown: None,
        }
    }

    /// Watches a command that assembles the set of this id and looks at all rows of its members once.
    pub(crate) fn of_scrub(bank: B, meter: &'a M, id: [u8; 16]) -> ProgressBank<'a, B, M>
        ensures bank { result.bank ≡ bank }
        ensures sought { IsSomeAnd result.sought
            (λ sought. (sought.id ≡ id) × (sought.steps ≡ None) × (sought.generation ≡ 0)) }
        ensures uncounted { (result.work.members ≡ 0) × (result.work.done ≡ 0) × (result.work.total ≡ 0) }
        ensures unshown { IsNone result.shown }
    {
        ProgressBank::of_set(bank, meter, id, None)
    }

    /// Watches a command that assembles the set of this id and makes so many steps of its rebuild, or as many as it
    /// takes.
    pub(crate) fn of_rebuild(
        bank: B,
        meter: &'a M,
        id: [u8; 16],
        steps: Option<u64>,
    ) -> ProgressBank<'a, B, M>
        ensures bank { result.bank ≡ bank }
        ensures sought { IsSomeAnd result.sought
            (λ sought. (sought.id ≡ id) × (sought.steps ≡ steps) × (sought.generation ≡ 0)) }
        ensures uncounted { (result.work.members ≡ 0) × (result.work.done ≡ 0) × (result.work.total ≡ 0) }
        ensures unshown { IsNone result.shown }
    {
        ProgressBank::of_set(bank, meter, id, steps)
    }

    // Watches a command that assembles the set of this id and goes over its members' rows once, from the position that
    // the set is rebuilt to and in so many steps at most. The shape of the set is told by its superblocks, as the
    // command reads them.
    fn of_set(bank: B, meter: &'a M, id: [u8; 16], steps: Option<u64>) -> ProgressBank<'a, B, M>
        ensures bank { result.bank ≡ bank }
        ensures sought { IsSomeAnd result.sought
            (λ sought. (sought.id ≡ id) × (sought.steps ≡ steps) × (sought.generation ≡ 0)) }
        ensures uncounted { (result.work.members ≡ 0) × (result.work.done ≡ 0) × (result.work.total ≡ 0) }
        ensures unshown { IsNone result.shown }
    {
        ProgressBank {
            bank,
            meter,
            sought: Some(Sought {
                id,
                steps,
                generation: 0,
            }),
            work: Work {
                members: 0,
                done: 0,
                total: 0,
                last: None,
            },
            began: meter.millis(),
            shown: None,
        }
    }

    // Counts a call of a sector, but not of the one that was counted last, and shows how far the command is where it is
    // time.
    fn count(&mut self, dev: u8, at: u32)
        ensures bank { self.new.bank ≡ self.old.bank }
        ensures counted { self.old.began ≢ None → dev < self.old.work.members → FIRST_ROW ≤ at
            → self.old.work.last ≢ Some (dev, at) → self.new.work.done ≡ min (self.old.work.done + 1) (2 ^ 64 - 1) }
        ensures once { self.old.work.last ≡ Some (dev, at) → self.new.work.done ≡ self.old.work.done }
        ensures last { self.old.began ≢ None → dev < self.old.work.members → FIRST_ROW ≤ at
            → self.new.work.last ≡ Some (dev, at) }
        ensures total { self.new.work.total ≡ self.old.work.total }
    {
        if self.began.is_none() || dev >= self.work.members || at < FIRST_ROW {
            return;
        }
        if self.work.last == Some((dev, at)) {
            return;
        }
        self.work.last = Some((dev, at));
        self.work.done = self.work.done.saturating_add(1);
        if self.work.done % CALLS == 0 || self.work.done == self.work.total {
            self.show_if_due();
        }
    }

    // Shows how far the command is, where it was not just shown or is done.
    fn show_if_due(&mut self)
        ensures bank { self.new.bank ≡ self.old.bank }
        ensures work { self.new.work ≡ self.old.work }
    {
        let (Some(began), Some(now)) = (self.began, self.meter.millis()) else {
            return;
        };
        let Work { done, total, .. } = self.work;
        let before = self.shown.unwrap_or(began);
        if done != total && now.saturating_sub(before) < PAUSE {
            return;
        }
        self.shown = Some(now);
        let elapsed = now.saturating_sub(began);
        let speed = average_speed(elapsed, done);
        let left = time_left(elapsed, done, total);
        self.meter.show(percent(done, total), speed, told(left));
    }

    // Learns the shape of the set from the newest superblock of it that was read.
    fn learn(&mut self, sector: &Sector)
        ensures bank { self.new.bank ≡ self.old.bank }
        ensures total { IfSome self.old.sought (λ sought. (superblock : Superblock)
            → sector.now ≡ superblock_sector superblock → superblock.table.id ≡ sought.id
            → sought.generation < superblock.table.generation
            → self.new.work.total ≡ sectors_of superblock.table sought.steps) }
    {
        let Some(sought) = self.sought else {
            return;
        };
        let Some(superblock) = decode(sector) else {
            return;
        };
        let table = &superblock.table;
        if table.id != sought.id || table.generation <= sought.generation {
            return;
        }
        self.sought = Some(Sought {
            generation: table.generation,
            ..sought
        });
        self.work.members = table.geometry.members;
        let most = most_rows(table.geometry.format, sought.steps);
        self.work.total = calls_of(table.geometry.members, rows_left(table, most));
    }
}

// A time that is left, in the unit that suits it, where there is one.
fn told(left: Option<u64>) -> Option<Left>
    ensures { result ≡ option_map left_of left }
{
    match left {
        Some(millis) => Some(in_words(millis)),
        None => None,
    }
}

// The calls of so many rows.
fn calls_of(members: u8, rows: u64) -> u64
    ensures { result ≡ min (members * rows) (2 ^ 64 - 1) }
{
    u64::from(members).saturating_mul(rows)
}

// The rows of a set from its position on, so many at most.
fn rows_left(table: &Table, most_rows: u64) -> u64
    ensures { result ≡ min (rows_of table.now.geometry.chunk table.now.geometry.stripes - table.now.position)
        most_rows }
{
    table
        .geometry
        .rows()
        .saturating_sub(table.position)
        .min(most_rows)
}

impl<B: Bank + Drop, M: Meter> Drop for ProgressBank<'_, B, M> {
    fn drop(self) {
        let Self {
            bank: _,
            meter,
            sought: _,
            work: _,
            began: _,
            shown,
        } = self;
        if shown.is_some() {
            meter.clear();
        }
    }
}

impl<B: Bank + Drop, M: Meter> Bank for ProgressBank<'_, B, M> {
    ghost honest = { λ progress_bank. B.honest progress_bank.bank };

    ghost history = { λ progress_bank. B.history progress_bank.bank };

    ghost panel = { λ progress_bank. B.panel progress_bank.bank };

    ghost true_to = { λ progress_bank honest. B.true_to progress_bank.bank honest };

    fn devices(&self) -> u8 {
        self.bank.devices()
    }

    fn sectors(&self, dev: u8) -> u32 {
        self.bank.sectors(dev)
    }

    fn is_down(&self, dev: u8) -> bool {
        self.bank.is_down(dev)
    }

    fn now(&self) -> u64 {
        self.bank.now()
    }

    fn read(&mut self, dev: u8, at: u32, to: &mut Sector) -> Result<(), Down> {
        let answer = self.bank.read(dev, at, to);
        if at < SUPERBLOCK_PLACES && answer.is_ok() {
            self.learn(to);
        }
        self.count(dev, at);
        answer
    }

    fn write(&mut self, dev: u8, at: u32, from: &Sector) -> Result<(), Down> {
        let answer = self.bank.write(dev, at, from);
        self.count(dev, at);
        answer
    }

    fn flush(&mut self, dev: u8) -> Result<(), Down> {
        self.bank.flush(dev)
    }
}
