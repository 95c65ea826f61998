//! Of which set a superblock stands in device files.
ghost use Rattle.std.specs.Prelude.{◌≡◌, ◌+◌, ◌*◌, ◌≤◌, ◌<◌, ◌⊎◌, ◌^◌, IfOk, IfSome, IsNone, IsTrue, OnErr, drop};
ghost use Rattle.std.specs.Prelude.{length};
ghost use Rattle.std.specs.Prelude.{Ok, slice_index_or, take, ℕ};
ghost use Rattle.device_files.specs.BankFiles.{contents_by};
ghost use Rattle.device_files.specs.Superblocks.{FindsSet, HasSector, IsSetAt, IsSetIn, IsSetInSlot};

use super::{BankFile, SECTOR_BYTES};
use sector_model::Sector;
use std::io::{self, ErrorKind};
use superblock::decode;

/// The id of the set of which a superblock stands in sector 0 or 1 (bytes 0 to 511, and 512 to 1,023) of the file of a
/// slot, whatever its format, its role and the place that it belongs to: the first one, by slots, and in a slot by
/// sectors. `None` where there is none. A sector that a file does not reach, or that can't be read, is passed over.
pub fn find_set<F: BankFile>(files: &[Option<F>]) -> Option<[u8; 16]>
    ensures { FindsSet F.tells F.told F.has_failed files.now result }
{
    for file in files {
        let found = set_in_slot(file);
        if found.is_some() {
            return found;
        }
    }
    None
}

// The same of the file of one slot, where there is one.
fn set_in_slot<F: BankFile>(file: &Option<F>) -> Option<[u8; 16]>
    ensures { IsSetInSlot F.tells F.told F.has_failed file.now result }
{
    match file {
        Some(file) => set_in(file),
        None => None,
    }
}

// The same of a file.
fn set_in<F: BankFile>(file: &F) -> Option<[u8; 16]>
    ensures { IsSetIn F.tells F.told F.has_failed file.now result }
{
    let first = set_at(file, 0);
    if first.is_some() {
        return first;
    }
    set_at(file, 1)
}

// The id of the set of which a superblock stands in a sector of a file.
fn set_at<F: BankFile>(file: &F, number: u64) -> Option<[u8; 16]>
    requires { number ≤ 1 }
    ensures { IsSetAt F.tells F.told F.has_failed file.now number result }
{
    let sector = sector_at(file, number)?;
    let superblock = decode(&sector)?;
    Some(superblock.table.id)
}

// A sector of a file. None where the file does not reach so far, or it can't be read.
fn sector_at<F: BankFile>(file: &F, number: u64) -> Option<Sector>
    requires { number ≤ 1 }
    ensures some { IsTrue F.tells → IfSome result (λ sector. HasSector (F.told file.now) number sector) }
    ensures none { IsNone result → F.has_failed file.now
        ⊎ (IsTrue F.tells → length (F.told file.now) < 512 * number + 512) }
{
    let place = SECTOR_BYTES * number;
    if file.size().ok()? < place + SECTOR_BYTES {
        return None;
    }
    read_whole(file, place).ok()
}

// Reads a sector at a byte place, whole, or it is a fault. A read that is interrupted is made again, and one that gives
// no byte is a fault.
fn read_whole<F: BankFile>(file: &F, place: u64) -> io::Result<Sector>
    requires place { place + 512 < 2 ^ 64 }
    requires within { IsTrue F.tells → place + 512 ≤ length (F.told file.now) }
    ensures read { IsTrue F.tells → IfOk result (λ sector. sector ≡ take 512 (drop place (F.told file.now))) }
    ensures failed { OnErr result (F.has_failed file.now) }
{
    let mut sector = [0; SECTOR_BYTES as usize];
    let mut done = 0;
    for _ in 0..u64::MAX {
        if done >= SECTOR_BYTES as usize {
            return Ok(sector);
        }
        match read_rest(file, place, &mut sector, done) {
            Ok(0) => return Err(ErrorKind::UnexpectedEof.into()),
            Ok(count) => done += count,
            Err(error) => {
                if error.kind() != ErrorKind::Interrupted {
                    return Err(error);
                }
            }
        }
    }
    Err(ErrorKind::TimedOut.into())
}

// One read into the rest of a sector.
fn read_rest<F: BankFile>(file: &F, place: u64, to: &mut Sector, done: usize) -> io::Result<usize>
    requires place { place + 512 < 2 ^ 64 }
    requires done { done ≤ 512 }
    requires within { IsTrue F.tells → place + 512 ≤ length (F.told file.now) }
    ensures bound { IfOk result (λ n. done + n ≤ 512) }
    ensures front { (k : ℕ) → k < done → slice_index_or to.new k 0 ≡ slice_index_or to.old k 0 }
    ensures read { IsTrue F.tells → IfOk result (λ n. (k : ℕ) → k < n
        → slice_index_or to.new (done + k) 0 ≡ (contents_by F.told F.left file.now).byte (place + done + k)) }
    ensures failed { OnErr result (F.has_failed file.now) }
    ensures ended { result ≡ Ok 0 → done < 512 → F.has_failed file.now }
{
    file.read_part(place + done as u64, &mut to[done..])
}
