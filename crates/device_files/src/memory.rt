//! Device files in memory, which tell what they hold.
ghost use Rattle.std.specs.Prelude.{◌≡◌, ◌≤◌, ◌<◌, ◌+◌, ◌*◌, ℕ, IfOk, None, OnOk, length, slice_index_or, vec_len};
ghost use Rattle.device_files.specs.DeviceFiles.{file_in};
ghost use Rattle.device_files.specs.HeldFiles.{AreSectorsOf, IsDiskOf};
ghost use Rattle.sector_model.specs.DeviceFiles.{AreAt};

use super::growing::Growing;
use super::lending::BankFile;
use sector_model::{Image, MemBank, Plan, Sector};
use std::alloc::{AllocError, Global};
use std::io;

const SECTOR_BYTES: usize = 512;

// What a record of a run has room for: so many writes and flushes.
const ROOM: usize = 8_192;

/// A file in memory. It tells what it holds, and what a power cut leaves of that.
#[derive(Drop)]
pub struct HeldFile {
    /// Its bytes.
    pub bytes: Vec<u8>,
    // Its bytes as they were at the last sync.
    safe: Vec<u8>,
}

impl HeldFile {
    /// A file that holds these bytes, all of them safe. `AllocError` where an allocation was refused.
    pub fn new(alloc: Global, bytes: &[u8]) -> Result<HeldFile, AllocError>
        ensures told { IfOk result (λ file. file.bytes.items ≡ bytes.now) }
        ensures safe { IfOk result (λ file. file.safe.items ≡ bytes.now) }
    {
        let safe = Vec::from_slice(alloc, bytes)?;
        let bytes = Vec::from_slice(alloc, bytes)?;
        Ok(HeldFile { bytes, safe })
    }

    // Makes safe what it holds.
    fn make_safe(&mut self) -> Result<(), AllocError>
        ensures told { self.new.bytes ≡ self.old.bytes }
        ensures safe { OnOk result (self.new.safe.items ≡ self.new.bytes.items) }
    {
        self.safe.clear();
        self.safe.extend_from_slice(&self.bytes)
    }
}

impl Growing for HeldFile {
    ghost use Rattle.std.specs.Prelude.{◌≡◌, true, ⊤};

    ghost tells = { true };

    ghost told = { λ file. file.bytes.items };

    ghost is_safe = { λ file. file.safe.items ≡ file.bytes.items };

    ghost is_locked = { λ _. ⊤ };

    ghost has_failed = { λ _. ⊤ };

    ghost sync_failed = { λ _ _. ⊤ };

    fn size(&self) -> io::Result<u64> {
        Ok(self.bytes.len() as u64)
    }

    fn append(&mut self, bytes: &[u8]) -> io::Result<usize> {
        self.bytes.extend_from_slice(bytes)?;
        Ok(bytes.len())
    }

    fn stretch(&mut self, bytes: u64) -> io::Result<()> {
        if self.bytes.len() < bytes as usize {
            self.bytes.resize(bytes as usize, 0)?;
        }
        Ok(())
    }

    fn cut(&mut self, bytes: u64) -> io::Result<()> {
        self.bytes.truncate(bytes as usize);
        Ok(())
    }

    fn sync(&mut self) -> io::Result<()> {
        self.make_safe()?;
        Ok(())
    }
}

impl BankFile for HeldFile {
    type Record = MemBank;

    ghost left = { λ file. file.safe.items };

    fn read_part(&self, place: u64, to: &mut [u8]) -> io::Result<usize> {
        let start = place as usize;
        to.copy_from_slice(&self.bytes[start..start + to.len()]);
        Ok(to.len())
    }

    fn write_part(&mut self, place: u64, from: &[u8]) -> io::Result<usize> {
        let start = place as usize;
        self.bytes[start..start + from.len()].copy_from_slice(from);
        Ok(from.len())
    }

    fn sync_written(&mut self) -> io::Result<()> {
        self.make_safe()?;
        Ok(())
    }

    fn record(alloc: Global, files: &[Option<HeldFile>]) -> Result<MemBank, AllocError> {
        let slots = disks_of(alloc, files)?;
        match MemBank::new(alloc, Image { slots }, Plan::NONE, ROOM) {
            Ok(notes) => Ok(notes),
            Err(_) => Err(AllocError),
        }
    }
}

// A sector of a file.
fn sector_of(bytes: &[u8], number: usize) -> Sector
    requires { 512 * number + 512 ≤ length bytes.now }
    ensures len { length result ≡ 512 }
    ensures bytes { AreAt (λ p. slice_index_or bytes.now p 0) (512 * number) 512 result }
{
    let mut sector = [0; SECTOR_BYTES];
    let start = SECTOR_BYTES * number;
    sector.copy_from_slice(&bytes[start..start + SECTOR_BYTES]);
    sector
}

// The sectors of a file.
fn sectors_of(alloc: Global, bytes: &[u8]) -> Result<Vec<Sector>, AllocError>
    ensures { IfOk result (λ disk. AreSectorsOf bytes.now disk.items) }
{
    let mut disk = Vec::new(alloc);
    for number in 0..bytes.len() / SECTOR_BYTES {
        disk.push(sector_of(bytes, number))?;
    }
    Ok(disk)
}

// The sectors of a file, where there is one.
fn disk_of(alloc: Global, file: &Option<HeldFile>) -> Result<Option<Vec<Sector>>, AllocError>
    ensures { IfOk result (IsDiskOf (λ file. file.bytes.items) file.now) }
{
    match file {
        Some(file) => Ok(Some(sectors_of(alloc, &file.bytes)?)),
        None => Ok(None),
    }
}

// The sectors of each file.
fn disks_of(
    alloc: Global,
    files: &[Option<HeldFile>],
) -> Result<Vec<Option<Vec<Sector>>>, AllocError>
    ensures len { IfOk result (λ slots. vec_len slots ≡ length files.now) }
    ensures each { IfOk result (λ slots. (slot : ℕ) → slot < length files.now
        → IsDiskOf (λ file. file.bytes.items) (file_in files.now slot) (slice_index_or slots.items slot None)) }
{
    let mut slots = Vec::with_capacity(alloc, files.len())?;
    for file in files {
        slots.push(disk_of(alloc, file)?)?;
    }
    Ok(slots)
}
