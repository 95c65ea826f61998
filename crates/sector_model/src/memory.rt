//! A bank in memory, which goes down as a plan says.
ghost use Rattle.std.specs.Prelude.{◌≡◌, ◌≤◌, ◌<◌, ◌+◌, ◌-◌, ◌^◌, ◌||◌, ℕ, min, [], ◌∷◌, ◌++◌, slice_set, true, false};
ghost use Rattle.std.specs.Prelude.{not, ◌==◌, ◌↔◌, if◌then◌else◌, nat_le, is_ok, length, vec_len, vec_capacity, IfOk};
ghost use Rattle.std.specs.Prelude.{IfErr, OnOk};
ghost use Rattle.sector_model.specs.History.{Began, After, disk_of, sector_of, seen};
ghost use Rattle.sector_model.specs.Bank.{Panel, CanCall, AfterCall, IsTrueTo, after_read, after_write, after_flush};
ghost use Rattle.sector_model.specs.Memory.{run_of, slots_of, contents_of, down_at, IsReplayed, IsInOrder, ups};
ghost use Rattle.sector_model.specs.Memory.{IsFaultOf, sectors_in, AreSectors, AreCopies, AreAbsences};
ghost use Rattle.sector_model.specs.MemoryLaw.{replayed_is_true};
ghost use Rattle.sector_model.specs.Plans.{fails_at};
ghost use Rattle.std.proofs.Common.{sym};
ghost use Rattle.sector_model.specs.declared.calls.TheConstants.{GREATEST_COUNT};

mod after_crash;
mod as_record;

use crate::{Bank, Down, Event, Plan, Refusal, Sector};
use std::alloc::{AllocError, Global};

/// What stands in each slot: no device, or the sectors of one.
#[derive(Drop)]
pub struct Image {
    pub slots: Vec<Option<Vec<Sector>>>,
}

/// What a device call changed, and the number of the call.
#[derive(Clone, Copy)]
pub struct Entry {
    pub call: u64,
    pub event: Event,
}

/// A bank in memory, honest. A device goes down only by the plan, where the log of writes and flushes is
/// full, or because its slot is empty.
#[derive(Drop)]
pub struct MemBank {
    /// When devices go down.
    pub plan: Plan,
    /// How many writes and flushes the log still has room for.
    pub room: usize,
    calls: u64,
    start: Vec<Option<Vec<Sector>>>,
    log: Vec<Entry>,
    disks: Vec<Vec<Sector>>,
    down: Vec<bool>,
    ghost least: { 5 ≤ vec_len down },
    ghost most: { vec_len down ≤ 10 },
    ghost whole: { vec_len disks ≡ vec_len down },
    ghost slots: { vec_len start ≡ vec_len down },
    ghost space: { vec_len log + room + ups down.items ≤ vec_capacity log },
    ghost in_order: { IsInOrder log.items },
    ghost replayed: { IsReplayed start.items log.items calls disks.items down.items },
}

// A copy of a device's sectors.
fn copy_of(alloc: Global, disk: &[Sector]) -> Result<Vec<Sector>, AllocError>
    ensures copied { IfOk result (λ copy. copy.items ≡ disk.now) }
    ensures whole { IfOk result (λ copy. AreSectors copy.items) }
{
    Vec::from_slice(alloc, disk)
}

// A copy of the sectors in a slot, none of an empty one.
fn disk_in(alloc: Global, slot: &Option<Vec<Sector>>) -> Result<Vec<Sector>, AllocError>
    ensures copied { IfOk result (λ disk. disk.items ≡ disk_of (sectors_in slot.now)) }
    ensures whole { IfOk result (λ disk. AreSectors disk.items) }
{
    match slot {
        Some(disk) => copy_of(alloc, disk),
        None => Ok(Vec::new(alloc)),
    }
}

// Copies of the sectors in all slots.
fn copies(alloc: Global, slots: &[Option<Vec<Sector>>]) -> Result<Vec<Vec<Sector>>, AllocError>
    ensures each { IfOk result (λ disks. AreCopies (length slots.now) slots.now disks.items) }
    ensures len { IfOk result (λ disks. vec_len disks ≡ length slots.now) }
{
    let mut disks = Vec::new(alloc);
    for slot in slots {
        disks.push(disk_in(alloc, slot)?)?;
    }
    Ok(disks)
}

// Which slots have no device.
fn absences(alloc: Global, slots: &[Option<Vec<Sector>>]) -> Result<Vec<bool>, AllocError>
    ensures each { IfOk result (λ flags. AreAbsences (length slots.now) slots.now flags.items) }
    ensures len { IfOk result (λ flags. vec_len flags ≡ length slots.now) }
{
    let mut flags = Vec::new(alloc);
    for slot in slots {
        flags.push(slot.is_none())?;
    }
    Ok(flags)
}

impl MemBank {
    /// A bank with this image in its slots, of which there are 5 to 10 (condition). Its log has room for `room`
    /// writes and flushes: a write or flush that finds the log full makes its device go down. `Memory` where an
    /// allocation was refused.
    pub fn new(alloc: Global, image: Image, plan: Plan, room: usize) -> Result<MemBank, Refusal>
        requires least { 5 ≤ vec_len image.slots }
        requires most { vec_len image.slots ≤ 10 }
        ensures history { IfOk result (λ bank. ⟦<MemBank as Bank>⟧.history bank ≡ Began (slots_of image.slots.items)) }
        ensures devices { IfOk result (λ bank. (⟦<MemBank as Bank>⟧.panel bank).devices ≡ vec_len image.slots) }
        ensures calls { IfOk result (λ bank. (⟦<MemBank as Bank>⟧.panel bank).calls ≡ 0) }
        ensures plan { IfOk result (λ bank. bank.plan ≡ plan) }
        ensures room { IfOk result (λ bank. bank.room ≡ min room (2 ^ 64 - 11)) }
        ensures err { IfErr result (λ refusal. refusal ≡ Refusal.Memory) }
    {
        let start = image.slots;
        let disks = copies(alloc, &start)?;
        let down = absences(alloc, &start)?;
        let most = room.saturating_add(10);
        let log = Vec::with_capacity(alloc, most)?;
        Ok(MemBank {
            plan,
            room: most - 10,
            calls: 0,
            start,
            log,
            disks,
            down,
        })
    }

    // A call that changes nothing.
    fn pass(&mut self)
        requires { self.old.calls < GREATEST_COUNT }
        ensures run { run_of (slots_of self.new.start.items) self.new.log.items self.new.calls
            ≡ After Event.Quiet (run_of (slots_of self.old.start.items) self.old.log.items self.old.calls) }
        ensures calls { self.new.calls ≡ self.old.calls + 1 }
        ensures disks { self.new.disks ≡ self.old.disks }
        ensures down { self.new.down ≡ self.old.down }
        ensures plan { self.new.plan ≡ self.old.plan }
        ensures room { self.new.room ≡ self.old.room }
    {
        self.calls += 1;
    }

    // A device goes down.
    fn fail_device(&mut self, slot: usize, event: Event)
        requires calls { self.old.calls < GREATEST_COUNT }
        requires slot { slot < vec_len self.old.down }
        requires up { down_at self.old.down.items slot ≡ false }
        requires fault { IsFaultOf slot event }
        ensures run { run_of (slots_of self.new.start.items) self.new.log.items self.new.calls
            ≡ After event (run_of (slots_of self.old.start.items) self.old.log.items self.old.calls) }
        ensures calls { self.new.calls ≡ self.old.calls + 1 }
        ensures down { self.new.down.items ≡ slice_set self.old.down.items slot true }
        ensures disks { self.new.disks ≡ self.old.disks }
        ensures plan { self.new.plan ≡ self.old.plan }
        ensures room { self.new.room ≡ self.old.room }
    {
        let call = self.calls;
        let _ = self.log.push(Entry { call, event });
        self.down[slot] = true;
        self.calls += 1;
    }

    // A flush is answered.
    fn settle(&mut self, dev: u8)
        requires calls { self.old.calls < GREATEST_COUNT }
        requires room { 0 < self.old.room }
        ensures run { run_of (slots_of self.new.start.items) self.new.log.items self.new.calls
            ≡ After (Event.Flushed dev) (run_of (slots_of self.old.start.items) self.old.log.items self.old.calls) }
        ensures calls { self.new.calls ≡ self.old.calls + 1 }
        ensures down { self.new.down ≡ self.old.down }
        ensures disks { self.new.disks ≡ self.old.disks }
        ensures plan { self.new.plan ≡ self.old.plan }
        ensures room { self.new.room + 1 ≡ self.old.room }
    {
        let call = self.calls;
        let event = Event::Flushed { device: dev };
        let _ = self.log.push(Entry { call, event });
        self.room -= 1;
        self.calls += 1;
    }

    // A write is answered.
    fn put(&mut self, dev: u8, at: u32, value: &Sector)
        requires calls { self.old.calls < GREATEST_COUNT }
        requires room { 0 < self.old.room }
        requires slot { dev < vec_len self.old.down }
        requires within { at < length (contents_of self.old.disks.items dev) }
        ensures run { run_of (slots_of self.new.start.items) self.new.log.items self.new.calls
            ≡ After (Event.Wrote dev at value.now)
            (run_of (slots_of self.old.start.items) self.old.log.items self.old.calls) }
        ensures calls { self.new.calls ≡ self.old.calls + 1 }
        ensures down { self.new.down ≡ self.old.down }
        ensures sizes { (d : ℕ) → length (contents_of self.new.disks.items d) ≡ length
            (contents_of self.old.disks.items d) }
        ensures plan { self.new.plan ≡ self.old.plan }
        ensures room { self.new.room + 1 ≡ self.old.room }
    {
        let call = self.calls;
        let event = Event::Wrote {
            device: dev,
            at,
            value: *value,
        };
        let _ = self.log.push(Entry { call, event });
        self.disks[dev as usize][at as usize] = *value;
        self.room -= 1;
        self.calls += 1;
    }
}

impl Bank for MemBank {
    ghost honest = { λ _. Unit {0} };

    ghost history = { λ m. run_of (slots_of m.start.items) m.log.items m.calls };

    ghost panel = { λ m. record {
      devices = vec_len m.down;
      sectors =
          λ d. min (length (contents_of m.disks.items d)) (2 ^ 32 - 1);
      down = λ d. down_at m.down.items d;
      calls =
          m.calls;
    } };

    ghost true_to = { λ m _. replayed_is_true m.start.items m.log.items m.calls m.disks.items m.down.items
        (vec_len m.down) (sym (m.down.ok.0)) m.replayed };

    fn devices(&self) -> u8 {
        self.down.len() as u8
    }

    fn sectors(&self, dev: u8) -> u32 {
        let count = self.disks[dev as usize].len().min(u32::MAX as usize);
        count as u32
    }

    fn is_down(&self, dev: u8) -> bool {
        self.down[dev as usize]
    }

    fn now(&self) -> u64 {
        self.calls
    }

    fn read(&mut self, dev: u8, at: u32, to: &mut Sector) -> Result<(), Down>
        requires call { CanCall dev (⟦<MemBank as Bank>⟧.panel self.old) }
        requires within { (⟦<MemBank as Bank>⟧.panel self.old).down dev ≡ false
            → at < (⟦<MemBank as Bank>⟧.panel self.old).sectors dev }
        ensures panel { AfterCall dev (is_ok result) (⟦<MemBank as Bank>⟧.panel self.old)
            (⟦<MemBank as Bank>⟧.panel self.new) }
        ensures honest { ⟦<MemBank as Bank>⟧.honest self.old ↔ ⟦<MemBank as Bank>⟧.honest self.new }
        ensures history { ⟦<MemBank as Bank>⟧.honest self.old
            → ⟦<MemBank as Bank>⟧.history self.new ≡ after_read dev (is_ok result)
            (⟦<MemBank as Bank>⟧.history self.old) }
        ensures bytes { ⟦<MemBank as Bank>⟧.honest self.old
            → OnOk result (to.new ≡ sector_of (seen (⟦<MemBank as Bank>⟧.history self.old) dev) at) }
        ensures cause { is_ok result ≡ not
            ((⟦<MemBank as Bank>⟧.panel self.old).down dev
            || fails_at self.old.plan dev (⟦<MemBank as Bank>⟧.panel self.old).calls) }
        ensures plan { self.new.plan ≡ self.old.plan }
        ensures room { self.new.room ≡ self.old.room }
    {
        let slot = dev as usize;
        if self.down[slot] {
            self.pass();
            return Err(Down);
        }
        if self.plan.fails(dev, self.calls) {
            self.fail_device(slot, Event::DeviceFailed { device: dev });
            return Err(Down);
        }
        *to = self.disks[slot][at as usize];
        self.pass();
        Ok(())
    }

    fn write(&mut self, dev: u8, at: u32, from: &Sector) -> Result<(), Down>
        requires call { CanCall dev (⟦<MemBank as Bank>⟧.panel self.old) }
        requires within { (⟦<MemBank as Bank>⟧.panel self.old).down dev ≡ false
            → at < (⟦<MemBank as Bank>⟧.panel self.old).sectors dev }
        ensures panel { AfterCall dev (is_ok result) (⟦<MemBank as Bank>⟧.panel self.old)
            (⟦<MemBank as Bank>⟧.panel self.new) }
        ensures honest { ⟦<MemBank as Bank>⟧.honest self.old ↔ ⟦<MemBank as Bank>⟧.honest self.new }
        ensures history { ⟦<MemBank as Bank>⟧.honest self.old
            → ⟦<MemBank as Bank>⟧.history self.new ≡ after_write dev at from.now (is_ok result)
            (⟦<MemBank as Bank>⟧.history self.old) }
        ensures cause { is_ok result ≡ not
            ((⟦<MemBank as Bank>⟧.panel self.old).down dev
            || (self.old.room == 0 || fails_at self.old.plan dev (⟦<MemBank as Bank>⟧.panel self.old).calls)) }
        ensures plan { self.new.plan ≡ self.old.plan }
        ensures room { self.old.room ≡ self.new.room + (if is_ok result then 1 else 0) }
    {
        let slot = dev as usize;
        if self.down[slot] {
            self.pass();
            return Err(Down);
        }
        if self.room == 0 || self.plan.fails(dev, self.calls) {
            let value = *from;
            self.fail_device(
                slot,
                Event::Lost {
                    device: dev,
                    at,
                    value,
                },
            );
            return Err(Down);
        }
        self.put(dev, at, from);
        Ok(())
    }

    fn flush(&mut self, dev: u8) -> Result<(), Down>
        requires call { CanCall dev (⟦<MemBank as Bank>⟧.panel self.old) }
        ensures panel { AfterCall dev (is_ok result) (⟦<MemBank as Bank>⟧.panel self.old)
            (⟦<MemBank as Bank>⟧.panel self.new) }
        ensures honest { ⟦<MemBank as Bank>⟧.honest self.old ↔ ⟦<MemBank as Bank>⟧.honest self.new }
        ensures history { ⟦<MemBank as Bank>⟧.honest self.old
            → ⟦<MemBank as Bank>⟧.history self.new ≡ after_flush dev (is_ok result)
            (⟦<MemBank as Bank>⟧.history self.old) }
        ensures cause { is_ok result ≡ not
            ((⟦<MemBank as Bank>⟧.panel self.old).down dev
            || (self.old.room == 0 || fails_at self.old.plan dev (⟦<MemBank as Bank>⟧.panel self.old).calls)) }
        ensures plan { self.new.plan ≡ self.old.plan }
        ensures room { self.old.room ≡ self.new.room + (if is_ok result then 1 else 0) }
    {
        let slot = dev as usize;
        if self.down[slot] {
            self.pass();
            return Err(Down);
        }
        if self.room == 0 || self.plan.fails(dev, self.calls) {
            self.fail_device(slot, Event::DeviceFailed { device: dev });
            return Err(Down);
        }
        self.settle(dev);
        Ok(())
    }
}

#[cfg(test)]
mod tests;
