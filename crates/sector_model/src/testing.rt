//! What this crate's tests have in common: images and rows of calls made by hand, and what they compare values with.
ghost use Rattle.std.specs.Prelude.{◌≤◌, vec_len};

use crate::{Bank, Image, Sector, Stop, flush_device, read_sector, write_sector};
use std::alloc::{AllocError, Global};
use std::fmt::Debug;
use std::process::Abort;

/// Ends the test where `got` is not `want`. As a call it leaves the test a fraction of what `assert_eq!` would
/// put into it, and so of the time that the test is checked in.
pub(crate) fn same<T: PartialEq + Debug + Drop>(rt: &impl Abort, got: T, want: T) {
    assert_eq!(rt; got, want);
}

/// A call of a bank with its answer, or what a bank shows. Numbers are those of the device and the sector, and a
/// byte is that of which the sector is full.
#[derive(Clone, Copy)]
pub(crate) enum Step {
    /// The read is answered, with a sector full of this byte.
    Reads(u8, u32, u8),
    /// The write of this byte is answered.
    Writes(u8, u32, u8),
    /// The flush is answered.
    Flushes(u8),
    /// The read finds the device down.
    NoRead(u8, u32),
    /// The write finds the device down.
    NoWrite(u8, u32, u8),
    /// The flush finds the device down.
    NoFlush(u8),
    /// The read and the write of a sector in which each byte is its place on the device mod 251.
    ReadsRising(u8, u32),
    WritesRising(u8, u32),
    /// How many sectors the device has, and whether it is down.
    Shows(u8, u32, bool),
    /// How many calls were made.
    Now(u64),
}

/// An image: of each slot the bytes of which its sectors are full, one for each. A slot with none has no device.
pub(crate) fn image_of(rt: &(impl Abort + AllocGlobal), disks: &[&[u8]]) -> Image
    ensures least { 5 ≤ vec_len result.slots }
    ensures most { vec_len result.slots ≤ 10 }
{
    let mut slots = Vec::new(rt.alloc());
    for slot in 0..disks.len() {
        slots
            .push(slot_of(rt.alloc(), disks[slot]).expect(rt, "memory"))
            .expect(rt, "memory");
    }
    assert!(rt; slots.len() >= 5 && slots.len() <= 10);
    Image { slots }
}

fn slot_of(alloc: Global, bytes: &[u8]) -> Result<Option<Vec<Sector>>, AllocError> {
    if bytes.is_empty() {
        return Ok(None);
    }
    let mut disk = Vec::new(alloc);
    for byte in bytes {
        disk.push([*byte; 512])?;
    }
    Ok(Some(disk))
}

fn read<B: Bank>(rt: &impl Abort, bank: &mut B, dev: u8, at: u32) -> Result<Sector, Stop> {
    assert!(rt; dev < bank.devices());
    assert!(rt; bank.is_down(dev) || at < bank.sectors(dev));
    let mut sector = [0xee; 512];
    read_sector(bank, dev, at, &mut sector)?;
    Ok(sector)
}

fn write<B: Bank>(
    rt: &impl Abort,
    bank: &mut B,
    dev: u8,
    at: u32,
    from: &Sector,
) -> Result<(), Stop> {
    assert!(rt; dev < bank.devices());
    assert!(rt; bank.is_down(dev) || at < bank.sectors(dev));
    write_sector(bank, dev, at, from)
}

fn flush<B: Bank>(rt: &impl Abort, bank: &mut B, dev: u8) -> Result<(), Stop> {
    assert!(rt; dev < bank.devices());
    flush_device(bank, dev)
}

fn shown<B: Bank>(rt: &impl Abort, bank: &B, dev: u8) -> (u32, bool) {
    assert!(rt; dev < bank.devices());
    (bank.sectors(dev), bank.is_down(dev))
}

fn rising(at: u32) -> Sector {
    let mut sector = [0; 512];
    for k in 0..512 {
        sector[k as usize] = ((512 * u64::from(at) + k) % 251) as u8;
    }
    sector
}

// Whether the step goes as it says.
fn holds<B: Bank>(rt: &impl Abort, bank: &mut B, step: Step) -> bool {
    match step {
        Step::Reads(dev, at, byte) => read(rt, bank, dev, at) == Ok([byte; 512]),
        Step::Writes(dev, at, byte) => write(rt, bank, dev, at, &[byte; 512]) == Ok(()),
        Step::Flushes(dev) => flush(rt, bank, dev) == Ok(()),
        Step::NoRead(dev, at) => read(rt, bank, dev, at) == Err(Stop::Down(dev)),
        Step::NoWrite(dev, at, byte) => {
            write(rt, bank, dev, at, &[byte; 512]) == Err(Stop::Down(dev))
        }
        Step::NoFlush(dev) => flush(rt, bank, dev) == Err(Stop::Down(dev)),
        Step::ReadsRising(dev, at) => read(rt, bank, dev, at) == Ok(rising(at)),
        Step::WritesRising(dev, at) => write(rt, bank, dev, at, &rising(at)) == Ok(()),
        Step::Shows(dev, sectors, is_down) => shown(rt, bank, dev) == (sectors, is_down),
        Step::Now(calls) => bank.now() == calls,
    }
}

/// Takes the steps in order, and ends the test at the first that goes another way than it says. `row` is the
/// number of these steps in the test.
pub(crate) fn play<B: Bank>(rt: &impl Abort, bank: &mut B, row: u64, steps: &[Step]) {
    for number in 0..steps.len() {
        let is_so = holds(rt, bank, steps[number]);
        assert!(rt; is_so, "step {number} of row {row}");
    }
}
