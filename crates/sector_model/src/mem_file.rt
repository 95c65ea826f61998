//! A device file in memory.
ghost use Rattle.std.specs.Prelude.{◌≡◌, ◌*◌, ◌<◌, ℕ, IfOk, true, length, vec_len};
ghost use Rattle.sector_model.specs.Files.{HoldsDisk};
ghost use Rattle.sector_model.specs.Memory.{AreSectors};

use crate::{DeviceFile, Sector};
use std::alloc::{AllocError, Global};
use std::io;

/// A file in memory, which tells what it holds. It keeps its length.
#[derive(Drop)]
pub struct MemFile {
    bytes: Vec<u8>,
    // The bytes as they were at the last sync.
    safe: Vec<u8>,
    ghost same: { vec_len safe ≡ vec_len bytes },
}

impl MemFile {
    ghost use Rattle.sector_model.specs.MemFiles.{contents_in};

    /// A file with these sectors, one after the other, all of them synced. The only error is that an
    /// allocation was refused.
    pub fn new(alloc: Global, disk: &[Sector]) -> Result<MemFile, AllocError>
        ensures size { IfOk result (λ file. (contents_in file).size ≡ 512 * length disk.now) }
        ensures holds { IfOk result (λ file. HoldsDisk (contents_in file).byte disk.now) }
        ensures synced { IfOk result (λ file. (p : ℕ) → (contents_in file).safe p ≡ (contents_in file).byte p) }
        ensures whole { IfOk result (λ _. AreSectors disk.now) }
    {
        let mut bytes = Vec::new(alloc);
        for sector in disk {
            bytes.extend_from_slice(sector)?;
        }
        let safe = Vec::from_slice(alloc, &bytes)?;
        Ok(MemFile { bytes, safe })
    }
}

impl DeviceFile for MemFile {
    ghost use Rattle.sector_model.specs.MemFiles.{contents_in};

    ghost tells = { true };

    ghost told = { contents_in };

    fn size(&self) -> io::Result<u64> {
        Ok(self.bytes.len() as u64)
    }

    fn read_part(&mut self, place: u64, to: &mut [u8]) -> io::Result<usize> {
        let start = place as usize;
        to.copy_from_slice(&self.bytes[start..start + to.len()]);
        Ok(to.len())
    }

    fn write_part(&mut self, place: u64, from: &[u8]) -> io::Result<usize> {
        let start = place as usize;
        self.bytes[start..start + from.len()].copy_from_slice(from);
        Ok(from.len())
    }

    fn sync(&mut self) -> io::Result<()> {
        self.safe.copy_from_slice(&self.bytes);
        Ok(())
    }
}
