//! A bank over device files that stay with whoever opened them, who so holds their locks to the end; and one that only
//! reads them.
ghost use Rattle.std.specs.Prelude.{◌≡◌, ◌≤◌, ◌<◌, ◌+◌, ◌^◌, IfErr, IfOk, IsTrue, List, Ok, OnErr, OnOk, length, map};
ghost use Rattle.std.specs.Prelude.{ℕ};
ghost use Rattle.std.specs.IoError.{error_kind};
ghost use Rattle.std.specs.Option.{option_map};
ghost use Rattle.sector_model.specs.DeviceFiles.{AreAt, IsSynced, IsWritten};
ghost use Rattle.sector_model.specs.declared.refusal.Refusal.TheVariants.{Memory};
ghost use Rattle.device_files.specs.BankFiles.{AreAllSafe, BeginsWithFiles, contents_by};

use super::growing::Growing;
use super::{DeviceFiles, Lock, Locked};
use sector_model::{Bank, DeviceFile, FileBank, NoRecord, Refusal, RunRecord, SystemFile};
use std::alloc::{AllocError, Global};
use std::fs::OpenFile;
use std::io::{self, ErrorKind};
use std::os::unix::fs::FileExt;

/// A file over which a bank can be put.
///
/// A type of files that tells what its files hold also tells what a power cut leaves of it, and gives a record that
/// tells the run over its files. Of the system's files nothing is known.
pub trait BankFile: Growing + Drop + 'static {
    /// What is kept of a run over files of this type.
    type Record: RunRecord + Drop + 'static;

    /// The bytes that a power cut leaves of a file.
    ghost left: { Self → List ℕ };

    /// Reads from a byte place on, at most as many bytes as `to` has, and says how many.
    fn read_part(&self, place: u64, to: &mut [u8]) -> io::Result<usize>
        requires place { place + length to.old < 2 ^ 64 }
        requires within { IsTrue Self.tells → place + length to.old ≤ length (Self.told self.now) }
        ensures bound { IfOk result (λ n. n ≤ length to.new) }
        ensures read { IsTrue Self.tells
            → IfOk result (λ n. AreAt (contents_by Self.told left self.now).byte place n to.new) }
        ensures failed { OnErr result (Self.has_failed self.now) }
        ensures ended { result ≡ Ok 0 → 0 < length to.new → Self.has_failed self.now };

    /// Writes bytes from a byte place on, the first of them or all, and says how many. An interrupted call wrote none;
    /// after another fault nothing is known of the file.
    fn write_part(&mut self, place: u64, from: &[u8]) -> io::Result<usize>
        requires place { place + length from.now < 2 ^ 64 }
        requires within { IsTrue Self.tells → place + length from.now ≤ length (Self.told self.old) }
        ensures bound { IfOk result (λ n. n ≤ length from.now) }
        ensures written { IsTrue Self.tells → IfOk result (λ n. IsWritten place n from.now
            (contents_by Self.told left self.old) (contents_by Self.told left self.new)) }
        ensures interrupted { IsTrue Self.tells → IfErr result (λ error. error_kind error ≡ ErrorKind.Interrupted
            → contents_by Self.told left self.new ≡ contents_by Self.told left self.old) }
        ensures length { IsTrue Self.tells → length (Self.told self.new) ≡ length (Self.told self.old) }
        ensures failed { OnErr result (Self.has_failed self.new) }
        ensures full { result ≡ Ok 0 → 0 < length from.now → Self.has_failed self.new };

    /// Makes safe all that was written.
    fn sync_written(&mut self) -> io::Result<()>
        ensures synced { IsTrue Self.tells → OnOk result
            (IsSynced (contents_by Self.told left self.old) (contents_by Self.told left self.new)) }
        ensures length { IsTrue Self.tells → length (Self.told self.new) ≡ length (Self.told self.old) };

    /// A record of a run that begins with the files of ten slots (condition). `AllocError` where an allocation was
    /// refused.
    fn record(alloc: Global, files: &[Option<Self>]) -> Result<Self::Record, AllocError>
        requires ten { length files.now ≡ 10 }
        ensures paired { Self.Record.tells ≡ Self.tells }
        ensures begun { AreAllSafe Self.is_safe files.now → IfOk result
            (λ notes. BeginsWithFiles Self.tells Self.told left files.now (Self.Record.run notes)) };
}

/// A file of the system tells nothing, and nothing is kept of a run over it. Once it is written it is no longer known
/// to be safe, also when it was synced after that.
impl<F: OpenFile + FileExt + Lock + Drop + 'static> BankFile for Locked<F> {
    ghost use Rattle.std.specs.Prelude.{[]};

    type Record = NoRecord;

    ghost left = { λ _. [] };

    fn read_part(&self, place: u64, to: &mut [u8]) -> io::Result<usize> {
        SystemFile { of: &self.file }.read_part(place, to)
    }

    fn write_part(&mut self, place: u64, from: &[u8]) -> io::Result<usize> {
        self.is_synced = false;
        SystemFile { of: &self.file }.write_part(place, from)
    }

    fn sync_written(&mut self) -> io::Result<()> {
        SystemFile { of: &self.file }.sync()
    }

    fn record(_alloc: Global, _files: &[Option<Self>]) -> Result<NoRecord, AllocError> {
        Ok(NoRecord)
    }
}

/// A file on loan from whoever opened it. It tells what that file does.
#[derive(Drop)]
pub struct LentFile<'a, F> {
    file: &'a mut F,
}

impl<F: BankFile> DeviceFile for LentFile<'_, F> {
    ghost tells = { F.tells };

    ghost told = { λ lent. contents_by F.told F.left lent.file.now };

    fn size(&self) -> io::Result<u64> {
        self.file.size()
    }

    fn read_part(&mut self, place: u64, to: &mut [u8]) -> io::Result<usize> {
        self.file.read_part(place, to)
    }

    fn write_part(&mut self, place: u64, from: &[u8]) -> io::Result<usize> {
        self.file.write_part(place, from)
    }

    fn sync(&mut self) -> io::Result<()> {
        self.file.sync_written()
    }
}

/// A file that is read, and never written, and stays with whoever opened it. It tells what that file does.
#[derive(Drop)]
pub struct ReadOnlyFile<'a, F> {
    file: &'a F,
}

impl<F: BankFile> DeviceFile for ReadOnlyFile<'_, F> {
    ghost tells = { F.tells };

    ghost told = { λ read. contents_by F.told F.left read.file.now };

    fn size(&self) -> io::Result<u64> {
        self.file.size()
    }

    fn read_part(&mut self, place: u64, to: &mut [u8]) -> io::Result<usize> {
        self.file.read_part(place, to)
    }

    fn write_part(&mut self, _place: u64, _from: &[u8]) -> io::Result<usize> {
        Err(io::Error::from(ErrorKind::PermissionDenied))
    }

    fn sync(&mut self) -> io::Result<()> {
        Err(io::Error::from(ErrorKind::PermissionDenied))
    }
}

// The file of a slot, on loan.
fn lend_one<'a, F>(slot: &'a mut Option<F>) -> Option<LentFile<'a, F>>
    ensures { option_map (λ lent. lent.file.now) result ≡ slot.old }
{
    match slot {
        Some(file) => Some(LentFile { file }),
        None => None,
    }
}

// The files of the slots, on loan.
fn lend_all<'a, F: Drop>(
    alloc: Global,
    files: &'a mut [Option<F>],
) -> Result<Vec<Option<LentFile<'a, F>>>, AllocError>
    ensures { IfOk result (λ lent. map (option_map (λ one. one.file.now)) lent.items ≡ files.old) }
{
    let mut lent = Vec::with_capacity(alloc, files.len())?;
    for slot in files {
        lent.push(lend_one(slot))?;
    }
    Ok(lent)
}

/// A bank over the files of ten slots (condition), each of which is safe (condition); they stay open and locked when
/// their device goes down. It has no device in a slot that has no file, or whose file can't tell its length. Where the
/// files tell what they hold, the bank is honest, and its run begins with that. What they hold when it is dropped is
/// not known.
///
/// `Memory` where an allocation was refused.
pub fn bank_on<'a, F: BankFile>(
    alloc: Global,
    files: &'a mut [Option<F>],
) -> Result<FileBank<LentFile<'a, F>, F::Record>, Refusal>
    requires ten { length files.old ≡ 10 }
    requires safe { AreAllSafe F.is_safe files.old }
    ensures honest { IsTrue F.tells → IfOk result (λ bank.
        ⟦<FileBank<LentFile<'a, F>, F::Record> as Bank>⟧.honest bank) }
    ensures begins { IfOk result (λ bank. BeginsWithFiles F.tells F.told F.left files.old
        (⟦<FileBank<LentFile<'a, F>, F::Record> as Bank>⟧.history bank)) }
    ensures devices { IfOk result (λ bank.
        (⟦<FileBank<LentFile<'a, F>, F::Record> as Bank>⟧.panel bank).devices ≡ 10) }
    ensures err { IfErr result (λ refusal. refusal ≡ Memory) }
{
    let notes = F::record(alloc, files)?;
    FileBank::over(alloc, lend_all(alloc, files)?, notes)
}

// The file of a slot, to be read.
fn read_one<'a, F>(slot: &'a Option<F>) -> Option<ReadOnlyFile<'a, F>>
    ensures { option_map (λ read. read.file.now) result ≡ slot.now }
{
    match slot {
        Some(file) => Some(ReadOnlyFile { file }),
        None => None,
    }
}

// The files of the slots, to be read.
fn read_all<'a, F: Drop>(
    alloc: Global,
    files: &'a [Option<F>],
) -> Result<Vec<Option<ReadOnlyFile<'a, F>>>, AllocError>
    ensures { IfOk result (λ read. map (option_map (λ one. one.file.now)) read.items ≡ files.now) }
{
    let mut read = Vec::with_capacity(alloc, files.len())?;
    for slot in files {
        read.push(read_one(slot))?;
    }
    Ok(read)
}

/// A bank over the files of a folder, each of which is safe (condition), as `bank_on` puts over them, but one that only
/// reads: a write or a sync of a file is a fault.
///
/// `Memory` where an allocation was refused.
pub fn bank_to_inspect<'a, F: BankFile>(
    alloc: Global,
    files: &'a DeviceFiles<F>,
) -> Result<FileBank<ReadOnlyFile<'a, F>, F::Record>, Refusal>
    requires safe { AreAllSafe F.is_safe files.now.files.items }
    ensures honest { IsTrue F.tells → IfOk result (λ bank.
        ⟦<FileBank<ReadOnlyFile<'a, F>, F::Record> as Bank>⟧.honest bank) }
    ensures begins { IfOk result (λ bank. BeginsWithFiles F.tells F.told F.left files.now.files.items
        (⟦<FileBank<ReadOnlyFile<'a, F>, F::Record> as Bank>⟧.history bank)) }
    ensures devices { IfOk result (λ bank.
        (⟦<FileBank<ReadOnlyFile<'a, F>, F::Record> as Bank>⟧.panel bank).devices ≡ 10) }
    ensures err { IfErr result (λ refusal. refusal ≡ Memory) }
{
    let notes = F::record(alloc, &files.files)?;
    FileBank::over(alloc, read_all(alloc, &files.files)?, notes)
}

#[cfg(test)]
mod tests;
