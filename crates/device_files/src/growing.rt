//! Device files get the bytes that they lack: zero bytes are appended, so that their room is theirs before a set lies
//! there; or their length alone is set, which takes no room yet.
ghost use Rattle.std.specs.Prelude.{◌≡◌, ◌<◌, ◌≤◌, ◌++◌, Bool, IsTrue, IfErr, IfOk, List, Ok, OnErr, OnOk, length};
ghost use Rattle.std.specs.Prelude.{replicate, take, true, ℕ};
ghost use Rattle.std.specs.declared.io.Error.{Error};
ghost use Rattle.device_files.specs.DeviceFiles.{Begins, lengthened};

use super::{Lock, Locked};
use sector_model::{DeviceFile, SystemFile};
use std::fs::OpenFile;
use std::io::{self, ErrorKind};
use std::os::unix::fs::FileExt;

// So many zero bytes are appended at once.
const PART: usize = 65_536;

/// A file that grows at its end. An error of its calls is that of the system.
///
/// A type of files tells what its files hold, or nothing of it. Of the system's files nothing is known.
pub trait Growing {
    /// The files of this type tell what they hold.
    ghost tells: { Bool };

    /// The bytes that a file tells.
    ghost told: { Self → List ℕ };

    /// What a file holds, and how long it is, is safe.
    ghost is_safe: { Self → Type 0 };

    /// A file is locked to whoever opened it, or lies on a file system without locks.
    ghost is_locked: { Self → Type 0 };

    /// A call of the file answered a fault, took none of the bytes that it was given, or gave none of those that it was
    /// asked for.
    ghost has_failed: { Self → Type 0 };

    /// A sync of the file answered this fault.
    ghost sync_failed: { Self → Error → Type 0 };

    /// The number of bytes.
    fn size(&self) -> io::Result<u64>
        ensures told { IsTrue tells → result ≡ Ok (length (told self.now)) }
        ensures failed { OnErr result (has_failed self.now) };

    /// Appends bytes, the first of them or all, and says how many.
    fn append(&mut self, bytes: &[u8]) -> io::Result<usize>
        ensures bound { IfOk result (λ n. n ≤ length bytes.now) }
        ensures grown { IsTrue tells → IfOk result (λ n. told self.new ≡ told self.old ++ take n bytes.now) }
        ensures fault { IsTrue tells → OnErr result (told self.new ≡ told self.old) }
        ensures failed { OnErr result (has_failed self.new) }
        ensures full { result ≡ Ok 0 → 0 < length bytes.now → has_failed self.new };

    /// Makes the file so many bytes long where it is shorter: those after its end are zero, and take no room yet. No
    /// byte that is there is changed, also where that fails.
    fn stretch(&mut self, bytes: u64) -> io::Result<()>
        ensures told { IsTrue tells → OnOk result (told self.new ≡ lengthened bytes (told self.old)) }
        ensures kept { IsTrue tells → Begins (told self.old) (told self.new) }
        ensures locked { is_locked self.old → is_locked self.new }
        ensures failed { OnErr result (has_failed self.new) };

    /// Cuts the file to so many bytes.
    fn cut(&mut self, bytes: u64) -> io::Result<()>
        ensures told { IsTrue tells → OnOk result (told self.new ≡ take bytes (told self.old)) }
        ensures failed { OnErr result (has_failed self.new) };

    /// Makes safe what the file holds, and how long it is.
    fn sync(&mut self) -> io::Result<()>
        ensures told { IsTrue tells → told self.new ≡ told self.old }
        ensures safe { OnOk result (is_safe self.new) }
        ensures locked { is_locked self.old → is_locked self.new }
        ensures failed { OnErr result (has_failed self.new) }
        ensures answered { IfErr result (sync_failed self.new) };
}

/// A file of the system tells nothing. It is safe where it was synced after it was locked, and not lengthened, cut or
/// written since.
impl<F: OpenFile + FileExt + Lock> Growing for Locked<F> {
    ghost use Rattle.std.specs.Prelude.{false, [], ⊤};

    ghost tells = { false };

    ghost told = { λ _. [] };

    ghost is_safe = { λ locked. locked.is_synced ≡ true };

    ghost is_locked = { λ locked. ∥ F.is_ours locked.file ∥₁ };

    ghost has_failed = { λ _. ⊤ };

    ghost sync_failed = { λ _ _. ⊤ };

    fn size(&self) -> io::Result<u64> {
        SystemFile { of: &self.file }.size()
    }

    fn append(&mut self, bytes: &[u8]) -> io::Result<usize> {
        self.is_synced = false;
        let end = self.file.metadata()?.len();
        self.file.write_at(bytes, end)
    }

    fn stretch(&mut self, bytes: u64) -> io::Result<()> {
        self.is_synced = false;
        if self.file.metadata()?.len() < bytes {
            self.file.set_len(bytes)?;
        }
        Ok(())
    }

    fn cut(&mut self, bytes: u64) -> io::Result<()> {
        self.is_synced = false;
        self.file.set_len(bytes)
    }

    fn sync(&mut self) -> io::Result<()> {
        self.is_synced = false;
        self.file.sync_held()?;
        self.is_synced = true;
        Ok(())
    }
}

/// Lengthens a file that is too short by zero bytes, and syncs it: with `reserve` they are appended, so that they have
/// their room, else its length is set. No byte that is there is changed, also where that fails.
pub(super) fn lengthen<F: Growing>(file: &mut F, bytes: u64, reserve: bool) -> io::Result<()>
    ensures long { IsTrue F.tells → OnOk result (F.told file.new ≡ lengthened bytes (F.told file.old)) }
    ensures safe { OnOk result (F.is_safe file.new) }
    ensures kept { IsTrue F.tells → Begins (F.told file.old) (F.told file.new) }
    ensures failed { OnErr result (F.has_failed file.new) }
{
    if reserve {
        let size = file.size()?;
        append_zeros(file, bytes.saturating_sub(size))?;
    } else {
        file.stretch(bytes)?;
    }
    sync_whole(file)
}

/// Makes safe what a file holds, and how long it is. A call that is interrupted is made again.
pub(super) fn sync_whole<F: Growing>(file: &mut F) -> io::Result<()>
    ensures told { IsTrue F.tells → F.told file.new ≡ F.told file.old }
    ensures safe { OnOk result (F.is_safe file.new) }
    ensures locked { F.is_locked file.old → F.is_locked file.new }
    ensures failed { OnErr result (F.has_failed file.new) }
    ensures answered { IfErr result (F.sync_failed file.new) }
{
    for _ in 0..u64::MAX {
        match file.sync() {
            Ok(()) => return Ok(()),
            Err(error) => {
                if error.kind() != ErrorKind::Interrupted {
                    return Err(error);
                }
            }
        }
    }
    file.sync()
}

/// Empties a file that is too short, appends zero bytes, and syncs it. One that is long enough is not changed.
pub(super) fn renew<F: Growing>(file: &mut F, bytes: u64) -> io::Result<()>
    ensures long { IsTrue F.tells → bytes ≤ length (F.told file.old) → OnOk result (F.told file.new ≡ F.told file.old) }
    ensures short { IsTrue F.tells → length (F.told file.old) < bytes
        → OnOk result (F.told file.new ≡ replicate bytes 0) }
    ensures safe { OnOk result (F.is_safe file.new) }
    ensures failed { OnErr result (F.has_failed file.new) }
{
    if file.size()? >= bytes {
        return sync_whole(file);
    }
    file.cut(0)?;
    append_zeros(file, bytes)?;
    sync_whole(file)
}

// Appends so many zero bytes.
fn append_zeros<F: Growing>(file: &mut F, bytes: u64) -> io::Result<()>
    ensures grown { IsTrue F.tells → OnOk result (F.told file.new ≡ F.told file.old ++ replicate bytes 0) }
    ensures kept { IsTrue F.tells → Begins (F.told file.old) (F.told file.new) }
    ensures failed { OnErr result (F.has_failed file.new) }
{
    let mut left = bytes;
    while left > 0 {
        left -= append_some(file, left)?;
    }
    Ok(())
}

// Appends one zero byte or more, at most so many, and says how many. A call that is interrupted is made again, and one
// that takes no byte is a fault.
fn append_some<F: Growing>(file: &mut F, most: u64) -> io::Result<u64>
    requires { 0 < most }
    ensures some { IfOk result (λ n. 0 < n) }
    ensures bound { IfOk result (λ n. n ≤ most) }
    ensures grown { IsTrue F.tells → IfOk result (λ n. F.told file.new ≡ F.told file.old ++ replicate n 0) }
    ensures fault { IsTrue F.tells → OnErr result (F.told file.new ≡ F.told file.old) }
    ensures failed { OnErr result (F.has_failed file.new) }
{
    let zeros = [0; PART];
    let part = &zeros[..most.min(PART as u64) as usize];
    for _ in 0..u64::MAX {
        match file.append(part) {
            Ok(0) => return Err(ErrorKind::WriteZero.into()),
            Ok(count) => return Ok(count as u64),
            Err(error) => {
                if error.kind() != ErrorKind::Interrupted {
                    return Err(error);
                }
            }
        }
    }
    Err(ErrorKind::TimedOut.into())
}
