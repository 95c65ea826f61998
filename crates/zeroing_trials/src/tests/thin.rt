//! A bank of devices on which most sectors are full of one byte, and of which a test is told the seals.
ghost use Rattle.std.specs.Prelude.{is_ok};
ghost use Rattle.sector_model.specs.Bank.{AfterCall, CanCall};

use crate::testing::all;
use sector_model::{Bank, Down, Sector};

/// A seal that was written to the lower journal.
#[derive(Clone, Copy)]
pub(crate) struct Sealed {
    /// The number of the call that wrote it.
    pub call: u64,
    pub sector: Sector,
}

/// What was done with the devices of a bank.
#[derive(Drop)]
pub(crate) struct Notes {
    /// The slot of the lower journal. The upper one comes after it, and the members before it.
    pub journal: u8,
    pub seals: Vec<Sealed>,
    /// How many reads there were, writes to members, and writes to journals from sector 8 on, where bodies are.
    pub reads: u64,
    pub to_members: u64,
    pub to_bodies: u64,
    /// How many flushes there were of devices that had been written since the one before. Only these are a sync of a
    /// file.
    pub syncs: u64,
    /// Which devices were written since their last flush.
    written: [bool; 10],
    /// Whether each call is noted.
    pub each: bool,
    /// Each of them: what was done (0 to 2, a read, a write, a flush), the slot and the sector.
    pub calls: Vec<(u8, u8, u32)>,
    /// Whether a sector that is kept as one byte was written with more than one.
    pub mixed: bool,
}

impl Notes {
    /// Those of a bank of which nothing was done.
    pub(crate) fn new(rt: &impl AllocGlobal, journal: u8) -> Notes {
        Notes {
            journal,
            seals: Vec::new(rt.alloc()),
            reads: 0,
            to_members: 0,
            to_bodies: 0,
            syncs: 0,
            written: [false; 10],
            each: false,
            calls: Vec::new(rt.alloc()),
            mixed: false,
        }
    }

    fn note_call(&mut self, kind: u8, dev: u8, at: u32) {
        if self.each {
            let _ = self.calls.push((kind, dev, at));
        }
    }

    fn count_read(&mut self, dev: u8, at: u32) {
        self.reads = self.reads.saturating_add(1);
        self.note_call(0, dev, at);
    }

    fn count_write(&mut self, call: u64, dev: u8, at: u32, from: &Sector) {
        self.note_call(1, dev, at);
        if dev < 10 {
            self.written[dev as usize] = true;
        }
        if dev < self.journal {
            self.to_members = self.to_members.saturating_add(1);
        } else if at >= 8 {
            self.to_bodies = self.to_bodies.saturating_add(1);
        } else if dev == self.journal && at >= 2 {
            let sector = *from;
            let _ = self.seals.push(Sealed { call, sector });
        }
    }

    fn count_flush(&mut self, dev: u8) {
        self.note_call(2, dev, 0);
        if dev < 10 && self.written[dev as usize] {
            self.written[dev as usize] = false;
            self.syncs = self.syncs.saturating_add(1);
        }
    }
}

/// A bank over one that has the first sectors of each device. Each further sector is kept as the byte of which it is
/// full.
#[derive(Drop)]
pub(crate) struct Thin<B: Bank> {
    pub bank: B,
    /// How many sectors each device has.
    pub size: u32,
    /// A byte for each sector of each device, one device after the other.
    pub bytes: Vec<u8>,
    pub notes: Notes,
}

// A call of a device that changes nothing.
fn pass<B: Bank>(bank: &mut B, dev: u8) -> Result<(), Down>
    requires call { CanCall dev (B.panel bank.old) }
    ensures panel { AfterCall dev (is_ok result) (B.panel bank.old) (B.panel bank.new) }
{
    if bank.sectors(dev) == 0 {
        return bank.flush(dev);
    }
    let mut held = [0; 512];
    bank.read(dev, 0, &mut held)
}

/// The place of a device's sector in a list of those of all, which have so many each.
pub(crate) fn place_of(size: u32, dev: u8, at: u32) -> usize {
    let before = (size as usize).saturating_mul(dev as usize);
    before.saturating_add(at as usize)
}

// The byte at a place, 0 after the last.
fn byte_at(bytes: &[u8], place: usize) -> u8 {
    if place < bytes.len() { bytes[place] } else { 0 }
}

// Keeps the first byte of a sector at a place. Whether the sector is full of it.
fn keep(bytes: &mut [u8], place: usize, from: &Sector) -> bool {
    let byte = from[0];
    if place < bytes.len() {
        bytes[place] = byte;
    }
    *from == all(byte)
}

impl<B: Bank> Thin<B> {
    /// The byte of which a sector of a device is full, where it is kept so.
    pub(crate) fn byte(&self, dev: u8, at: u32) -> u8 {
        byte_at(&self.bytes, place_of(self.size, dev, at))
    }
}

impl<B: Bank> Bank for Thin<B> {
    ghost honest = { λ _. ⊥ };

    ghost history = { λ thin. B.history thin.bank };

    ghost panel = { λ thin. record {
      devices = (B.panel thin.bank).devices;
      sectors = λ _. thin.size;
      down = (B.panel thin.bank).down;
      calls = (B.panel thin.bank).calls;
    } };

    ghost true_to = { λ _ never. absurd never };

    fn devices(&self) -> u8 {
        self.bank.devices()
    }

    fn sectors(&self, dev: u8) -> u32 {
        self.size
    }

    fn is_down(&self, dev: u8) -> bool {
        self.bank.is_down(dev)
    }

    fn now(&self) -> u64 {
        self.bank.now()
    }

    fn read(&mut self, dev: u8, at: u32, to: &mut Sector) -> Result<(), Down> {
        self.notes.count_read(dev, at);
        if at < self.bank.sectors(dev) {
            return self.bank.read(dev, at, to);
        }
        pass(&mut self.bank, dev)?;
        *to = all(byte_at(&self.bytes, place_of(self.size, dev, at)));
        Ok(())
    }

    fn write(&mut self, dev: u8, at: u32, from: &Sector) -> Result<(), Down> {
        self.notes.count_write(self.bank.now(), dev, at, from);
        if at < self.bank.sectors(dev) {
            return self.bank.write(dev, at, from);
        }
        pass(&mut self.bank, dev)?;
        if !keep(&mut self.bytes, place_of(self.size, dev, at), from) {
            self.notes.mixed = true;
        }
        Ok(())
    }

    fn flush(&mut self, dev: u8) -> Result<(), Down> {
        self.notes.count_flush(dev);
        self.bank.flush(dev)
    }
}
