//! What a device file does, and sectors that are read and written whole.
ghost use Rattle.std.specs.Prelude.{IsTrue, Bool, false, ◌≡◌, ◌≢◌, ◌≤◌, ◌<◌, ◌+◌, ◌^◌, ℕ, Ok, length, slice_index_or};
ghost use Rattle.std.specs.Prelude.{IfOk, IfErr, OnOk};
ghost use Rattle.std.specs.IoError.{error_kind};
ghost use Rattle.sector_model.specs.DeviceFiles.{Contents, AreAt, IsWritten, IsSynced};

use crate::Sector;
use std::fs::OpenFile;
use std::io;
use std::io::ErrorKind;
use std::os::unix::fs::FileExt;

const SECTOR_BYTES: usize = 512;

/// A file that is read and written at byte places, and synced.
///
/// A type of files tells what its files hold, or nothing of it. Of the system's files nothing is known: what
/// they hold, and what a sync makes safe, is the system's word.
pub trait DeviceFile {
    /// The files of this type tell what they hold.
    ghost tells: { Bool };

    /// What a file tells.
    ghost told: { Self → Contents };

    /// The number of bytes.
    fn size(&self) -> io::Result<u64>
        ensures { IsTrue tells → result ≡ Ok (told self.now).size };

    /// Reads from a byte place on, at most as many bytes as `to` has, and says how many. No file changes.
    fn read_part(&mut self, place: u64, to: &mut [u8]) -> io::Result<usize>
        requires place { place + length to.old < 2 ^ 64 }
        requires within { IsTrue tells → place + length to.old ≤ (told self.old).size }
        ensures bound { IfOk result (λ n. n ≤ length to.new) }
        ensures read { IsTrue tells → IfOk result (λ n. AreAt (told self.old).byte place n to.new) }
        ensures same { IsTrue tells → told self.new ≡ told self.old };

    /// Writes bytes from a byte place on, the first of them or all, and says how many. An interrupted call
    /// wrote none; after another fault of the file's bytes nothing is known. No call changes its length.
    fn write_part(&mut self, place: u64, from: &[u8]) -> io::Result<usize>
        requires place { place + length from.now < 2 ^ 64 }
        requires within { IsTrue tells → place + length from.now ≤ (told self.old).size }
        ensures bound { IfOk result (λ n. n ≤ length from.now) }
        ensures written { IsTrue tells → IfOk result (λ n. IsWritten place n from.now (told self.old) (told self.new)) }
        ensures interrupted { IsTrue tells
            → IfErr result (λ e. error_kind e ≡ ErrorKind.Interrupted → told self.new ≡ told self.old) }
        ensures length { IsTrue tells → (told self.new).size ≡ (told self.old).size };

    /// Makes safe all that was written.
    fn sync(&mut self) -> io::Result<()>
        ensures synced { IsTrue tells → OnOk result (IsSynced (told self.old) (told self.new)) }
        ensures length { IsTrue tells → (told self.new).size ≡ (told self.old).size };
}

/// What has an open file of the system: the file itself, or a reference to it.
pub trait HasFile {
    /// The open file.
    type File: OpenFile + FileExt;

    /// The file that it has.
    ghost has: { Self → Self.File };

    /// Lends the file.
    fn file(&self) -> &Self::File
        ensures { result.now ≡ has self.now };
}

/// An open file that is closed with this value.
#[derive(Drop)]
pub struct OwnedFile<F> {
    /// The file.
    pub file: F,
}

impl<F: OpenFile + FileExt> HasFile for OwnedFile<F> {
    type File = F;

    ghost has = { λ owned. owned.file };

    fn file(&self) -> &F {
        &self.file
    }
}

impl<F: OpenFile + FileExt> HasFile for &F {
    type File = F;

    ghost has = { λ reference. reference.now };

    fn file(&self) -> &F {
        self
    }
}

/// A file of the system, which tells nothing.
#[derive(Drop)]
pub struct SystemFile<O> {
    /// What has the file.
    pub of: O,
}

impl<O: HasFile> DeviceFile for SystemFile<O> {
    ghost tells = { false };

    ghost told = { λ _. record { size = 0; byte = λ _. 0; safe = λ _. 0 } };

    fn size(&self) -> io::Result<u64> {
        Ok(self.of.file().metadata()?.len())
    }

    fn read_part(&mut self, place: u64, to: &mut [u8]) -> io::Result<usize> {
        self.of.file().read_at(to, place)
    }

    fn write_part(&mut self, place: u64, from: &[u8]) -> io::Result<usize> {
        self.of.file().write_at(from, place)
    }

    fn sync(&mut self) -> io::Result<()> {
        self.of.file().sync_data()
    }
}

// One read into the rest of a sector.
fn read_rest<F: DeviceFile>(
    file: &mut F,
    place: u64,
    to: &mut Sector,
    done: usize,
) -> io::Result<usize>
    requires place { place + 512 < 2 ^ 64 }
    requires done { done ≤ 512 }
    requires within { IsTrue F.tells → place + 512 ≤ (F.told file.old).size }
    ensures bound { IfOk result (λ n. done + n ≤ 512) }
    ensures front { (k : ℕ) → k < done → slice_index_or to.new k 0 ≡ slice_index_or to.old k 0 }
    ensures read { IsTrue F.tells → IfOk result
        (λ n. (k : ℕ) → k < n → slice_index_or to.new (done + k) 0 ≡ (F.told file.old).byte (place + done + k)) }
    ensures same { IsTrue F.tells → F.told file.new ≡ F.told file.old }
{
    file.read_part(place + done as u64, &mut to[done..])
}

/// Reads a sector at a byte place, whole, or it is a fault. A read that is interrupted is made again, and one
/// that gives no byte is a fault.
pub(crate) fn read_whole<F: DeviceFile>(file: &mut F, place: u64, to: &mut Sector) -> io::Result<()>
    requires place { place + 512 < 2 ^ 64 }
    requires within { IsTrue F.tells → place + 512 ≤ (F.told file.old).size }
    ensures read { IsTrue F.tells → OnOk result (AreAt (F.told file.old).byte place 512 to.new) }
    ensures same { IsTrue F.tells → F.told file.new ≡ F.told file.old }
    ensures retried { IfErr result (λ e. error_kind e ≢ ErrorKind.Interrupted) }
{
    let mut done = 0;
    for _ in 0..u64::MAX {
        if done >= SECTOR_BYTES {
            return Ok(());
        }
        match read_rest(file, place, to, done) {
            Ok(0) => return Err(ErrorKind::UnexpectedEof.into()),
            Ok(count) => done += count,
            Err(fault) => {
                if fault.kind() != ErrorKind::Interrupted {
                    return Err(fault);
                }
            }
        }
    }
    Err(ErrorKind::TimedOut.into())
}

// The bytes of a slice from one on.
fn rest_of(from: &[u8], done: usize) -> &[u8]
    requires { done ≤ length from.now }
    ensures len { done + length result.now ≡ length from.now }
    ensures each { (k : ℕ) → k < length result.now
        → slice_index_or result.now k 0 ≡ slice_index_or from.now (done + k) 0 }
{
    &from[done..]
}

/// Writes bytes at a byte place, all of them, or it is a fault. A write that is interrupted is made again, and
/// one that takes no byte is a fault.
pub(crate) fn write_whole<F: DeviceFile>(file: &mut F, place: u64, from: &[u8]) -> io::Result<()>
    requires place { place + length from.now < 2 ^ 64 }
    requires within { IsTrue F.tells → place + length from.now ≤ (F.told file.old).size }
    ensures written { IsTrue F.tells → OnOk result (IsWritten place (length from.now) from.now (F.told file.old)
        (F.told file.new)) }
    ensures length { IsTrue F.tells → (F.told file.new).size ≡ (F.told file.old).size }
    ensures retried { IfErr result (λ e. error_kind e ≢ ErrorKind.Interrupted) }
{
    let mut done = 0;
    for _ in 0..u64::MAX {
        if done >= from.len() {
            return Ok(());
        }
        match file.write_part(place + done as u64, rest_of(from, done)) {
            Ok(0) => return Err(ErrorKind::WriteZero.into()),
            Ok(count) => done += count,
            Err(error) => {
                if error.kind() != ErrorKind::Interrupted {
                    return Err(error);
                }
            }
        }
    }
    Err(ErrorKind::TimedOut.into())
}
