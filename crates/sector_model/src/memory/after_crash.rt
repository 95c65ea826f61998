//! Images that a crash might have left.
ghost use Rattle.std.specs.Prelude.{◌≡◌, ◌≤◌, ◌<◌, ◌+◌, ◌-◌, ◌^◌, ℕ, [], ◌∷◌, ◌++◌, ◌==◌, if◌then◌else◌, length};
ghost use Rattle.std.specs.Prelude.{vec_len, take, count_by, slice_index, slice_index_or, slice_set, Some, MatchOption};
ghost use Rattle.std.specs.Prelude.{IfOk, IfErr};
ghost use Rattle.std.specs.List.{IsAfterLastMatch};
ghost use Rattle.sector_model.specs.History.{Slots, Began, MayLeave, Bytes, disk_of, sector_of, cut_at};
ghost use Rattle.sector_model.specs.Candidates.{logged, number_taken, taken, IsTaken, IsImageOf};
ghost use Rattle.sector_model.specs.Memory.{slots_of, sectors_in, IsInOrder, log_before, run_on, is_answered};
ghost use Rattle.sector_model.specs.Memory.{room_after, put_by, put_by_all, written, all_written, flushes};

use super::{Entry, Image, MemBank, copy_of};
use crate::{Bank, Choice, Event, Refusal, Sector};
use std::alloc::{AllocError, Global};

impl MemBank {
    /// The image that a crash after the first `call` calls might have left, where `call` is at most `now()`
    /// (condition): in each sector the candidate that the choice takes. A slot has a device of as many sectors
    /// where the bank began with one, also if the device is down, and no device elsewhere. `Memory` where an
    /// allocation was refused.
    pub fn image_after(&self, alloc: Global, call: u64, choice: Choice) -> Result<Image, Refusal>
        requires { call ≤ (⟦<MemBank as Bank>⟧.panel self.now).calls }
        ensures slots { IfOk result (λ image. vec_len image.slots ≡ (⟦<MemBank as Bank>⟧.panel self.now).devices) }
        ensures choice { IfOk result (λ image. IsImageOf choice
            (self.now.room + logged (⟦<MemBank as Bank>⟧.history self.now))
            (cut_at call (⟦<MemBank as Bank>⟧.history self.now)) (slots_of image.slots.items)) }
        ensures allowed { IfOk result (λ image. MayLeave (cut_at call (⟦<MemBank as Bank>⟧.history self.now))
            (slots_of image.slots.items)) }
        ensures err { IfErr result (λ refusal. refusal ≡ Refusal.Memory) }
    {
        let room = self.room + answered(&self.log);
        let log = entries_before(&self.log, call);
        let slots = slots_after(alloc, &self.start, log, room, choice)?;
        Ok(Image { slots })
    }
}

// The entries of the calls before this one.
fn entries_before(log: &[Entry], call: u64) -> &[Entry]
    requires { IsInOrder log.now }
    ensures { result.now ≡ log_before call log.now }
{
    let count = log.partition_point(|entry| entry.call < call);
    &log[..count]
}

// What the choice leaves in each slot, after the calls of these entries.
fn slots_after(
    alloc: Global,
    start: &[Option<Vec<Sector>>],
    log: &[Entry],
    room: usize,
    choice: Choice,
) -> Result<Vec<Option<Vec<Sector>>>, AllocError>
    requires { length start.now ≤ 10 }
    ensures len { IfOk result (λ slots. vec_len slots ≡ length start.now) }
    ensures taken { IfOk result (λ slots. (d : ℕ) → d < length start.now
        → IsTaken choice room (run_on (Began (slots_of start.now)) log.now) d (slots_of start.now d)
        (slots_of slots.items d)) }
{
    let mut slots = Vec::new(alloc);
    for (dev, slot) in start.iter().enumerate() {
        slots.push(slot_after(alloc, slot, dev as u8, log, room, choice)?)?;
    }
    Ok(slots)
}

// What the choice leaves in a slot, after the calls of these entries.
fn slot_after(
    alloc: Global,
    slot: &Option<Vec<Sector>>,
    dev: u8,
    log: &[Entry],
    room: usize,
    choice: Choice,
) -> Result<Option<Vec<Sector>>, AllocError>
    ensures { IfOk result (λ chosen. (start : Slots) → start dev ≡ sectors_in slot.now
        → IsTaken choice room (run_on (Began start) log.now) dev (sectors_in slot.now) (sectors_in chosen)) }
{
    match slot {
        Some(began) => Ok(Some(disk_after(alloc, began, dev, log, room, choice)?)),
        None => Ok(None),
    }
}

// The sectors of a device that began with these, by the choice.
fn disk_after(
    alloc: Global,
    began: &[Sector],
    dev: u8,
    log: &[Entry],
    room: usize,
    choice: Choice,
) -> Result<Vec<Sector>, AllocError>
    ensures len { IfOk result (λ disk. length disk.items ≡ length began.now) }
    ensures taken { IfOk result (λ disk. (start : Slots) → start dev ≡ Some began.now → (a : ℕ) → a < length began.now
        → sector_of disk.items a ≡ taken choice room (run_on (Began start) log.now) dev a) }
{
    let (safe, since) = log.split_at(after_last_flush(log, dev));
    let room = room.saturating_sub(answered(safe));
    let mut disk = copy_of(alloc, began)?;
    write_again(&mut disk, safe, dev);
    let mut numbers = vec![in alloc; 1; disk.len()]?;
    put_by_choice(&mut disk, &mut numbers, dev, since, room, choice);
    Ok(disk)
}

// Puts into each sector its candidate by the choice. What stands there is the first, and these entries put the others.
fn put_by_choice(
    disk: &mut [Sector],
    numbers: &mut [usize],
    dev: u8,
    log: &[Entry],
    room: usize,
    choice: Choice,
)
    requires len { length numbers.old ≡ length disk.old }
    requires ones { (a : ℕ) → a < length numbers.old → slice_index numbers.old a ≡ 1 }
    ensures { (a : ℕ) → a < length disk.old → sector_of disk.new a
        ≡ slice_index_or (sector_of disk.old a ∷ put_by_all log.now room dev a)
        (number_taken choice dev a (1 + length (put_by_all log.now room dev a))) [] }
{
    count_candidates(numbers, log, dev, room);
    choose(numbers, dev, choice);
    put_chosen(disk, numbers, log, dev, room);
}

// How many writes and flushes were answered.
fn answered(log: &[Entry]) -> usize
    ensures { result ≡ count_by (λ entry. is_answered entry.event) log.now }
{
    log.iter().filter(|entry| is_answered(&entry.event)).count()
}

fn is_answered(event: &Event) -> bool
    ensures { result ≡ is_answered event.now }
{
    matches!(event, Event::Wrote { .. } | Event::Flushed { .. })
}

// Where the entries after the last flush of the device begin.
fn after_last_flush(log: &[Entry], dev: u8) -> usize
    ensures within { result ≤ length log.now }
    ensures last { IsAfterLastMatch (λ entry. flushes entry.event dev) log.now result }
{
    log.iter()
        .rposition(|entry| flushes(&entry.event, dev))
        .map_or(0, |index| index + 1)
}

fn flushes(event: &Event, dev: u8) -> bool
    ensures { result ≡ flushes event.now dev }
{
    matches!(event, Event::Flushed { device } if *device == dev)
}

// Writes what the entries say was written to the device.
fn write_again(disk: &mut [Sector], log: &[Entry], dev: u8)
    ensures { disk.new ≡ all_written log.now dev disk.old }
{
    for entry in log {
        if let Event::Wrote { device, at, value } = &entry.event {
            if *device == dev && (*at as usize) < disk.len() {
                disk[*at as usize] = *value;
            }
        }
    }
}

// The candidate that an event puts into a sector of the device, where the log had this much room.
fn candidate(event: &Event, dev: u8, room: usize) -> Option<(usize, &Sector)>
    ensures { (a : ℕ) → MatchOption result (put_by event.now room dev a ≡ [])
        (λ put. put_by event.now room dev a ≡ (if a == put.0 then put.1.now ∷ [] else [])) }
{
    match event {
        Event::Wrote { device, at, value } if *device == dev => Some((*at as usize, value)),
        Event::Lost { device, at, value } if *device == dev && room > 0 => {
            Some((*at as usize, value))
        }
        _ => None,
    }
}

// Adds to the number of each sector how many candidates the entries put there.
fn count_candidates(numbers: &mut [usize], log: &[Entry], dev: u8, mut room: usize)
    requires { (a : ℕ) → a < length numbers.old → slice_index numbers.old a ≤ 1 }
    ensures { (a : ℕ) → a < length numbers.old
        → slice_index numbers.new a ≡ slice_index numbers.old a + length (put_by_all log.now room dev a) }
{
    for entry in log {
        if let Some((at, _)) = candidate(&entry.event, dev, room) {
            if at < numbers.len() {
                numbers[at] += 1;
            }
        }
        room = room_after(&entry.event, room);
    }
}

// The room of the log after an event.
fn room_after(event: &Event, room: usize) -> usize
    ensures { result ≡ room_after event.now room }
{
    match event {
        Event::Wrote { .. } | Event::Flushed { .. } => room.saturating_sub(1),
        _ => room,
    }
}

// The number of the candidate that is taken, in place of how many there are.
fn choose(numbers: &mut [usize], dev: u8, choice: Choice)
    requires { (a : ℕ) → a < length numbers.old → 0 < slice_index numbers.old a }
    ensures { (a : ℕ) → a < length numbers.old
        → slice_index numbers.new a ≡ number_taken choice dev a (slice_index numbers.old a) }
{
    for (at, number) in numbers.iter_mut().enumerate() {
        *number = number_of(choice, dev, at, *number);
    }
}

// Which of so many candidates is taken.
fn number_of(choice: Choice, dev: u8, at: usize, count: usize) -> usize
    requires { 0 < count }
    ensures { result ≡ number_taken choice dev at count }
{
    match choice {
        Choice::Oldest => 0,
        Choice::Newest => count - 1,
        Choice::Mixed(m) => {
            let sum = u128::from(m) + 7 * u128::from(dev) + at as u128;
            (sum % count as u128) as usize
        }
    }
}

// Puts into each sector the candidate of its number. What stands there is number 0, and the entries put the others.
fn put_chosen(disk: &mut [Sector], numbers: &mut [usize], log: &[Entry], dev: u8, mut room: usize)
    requires len { length numbers.old ≡ length disk.old }
    requires numbers { (a : ℕ) → a < length disk.old
        → slice_index numbers.old a ≤ length (put_by_all log.now room dev a) }
    ensures { (a : ℕ) → a < length disk.old
        → sector_of disk.new a ≡ slice_index_or (sector_of disk.old a ∷ put_by_all log.now room dev a)
        (slice_index numbers.old a) [] }
{
    for entry in log {
        if let Some((at, value)) = candidate(&entry.event, dev, room) {
            put_if_chosen(disk, numbers, at, value);
        }
        room = room_after(&entry.event, room);
    }
}

// One more candidate of a sector: the number counts down, and at 0 the value is put.
fn put_if_chosen(disk: &mut [Sector], numbers: &mut [usize], at: usize, value: &Sector)
    requires { length numbers.old ≡ length disk.old }
    ensures numbers { numbers.new ≡ slice_set numbers.old at (slice_index numbers.old at - 1) }
    ensures disk { disk.new ≡ (if slice_index numbers.old at == 1 then slice_set disk.old at value.now else disk.old) }
{
    if at < disk.len() && numbers[at] > 0 {
        numbers[at] -= 1;
        if numbers[at] == 0 {
            disk[at] = *value;
        }
    }
}
