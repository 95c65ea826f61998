//! The superblock places of device files are cleared, so that they have no set's superblock.
ghost use Rattle.std.specs.Prelude.{◌≡◌, ◌≤◌, ◌<◌, ◌+◌, ◌^◌, ◌++◌, IfErr, IfOk, IfSome, IsSomeAnd, IsTrue, OnErr};
ghost use Rattle.std.specs.Prelude.{OnOk, drop, length};
ghost use Rattle.sector_model.specs.DeviceFiles.{IsWritten};
ghost use Rattle.device_files.specs.declared.FolderFault.{FolderFault};
ghost use Rattle.device_files.specs.BankFiles.{contents_by};
ghost use Rattle.device_files.specs.DeviceFiles.{AreOthersKept, IsStillOpen, file_in};
ghost use Rattle.device_files.specs.Superblocks.{without_places};
ghost use Rattle.device_files.specs.SlotCalls.{ClearsPlaces};

use super::growing::sync_whole;
use super::{BankFile, FolderFault, SLOTS};
use std::io::{self, ErrorKind};

// The bytes of the two superblock places, sectors 0 and 1.
const PLACES: usize = 1_024;

/// Clears the superblock places of the files of the slots from `first` on, which are among ten (condition): bytes 0 to
/// 1,023, as far as a file reaches, become zero, and then the file is synced. No file is made longer or shorter. A slot
/// without a file is passed over.
///
/// `NoFile` names the first slot whose file could not be written or synced; those after it are as they were then.
pub fn clear_places<F: BankFile>(first: u8, files: &mut [Option<F>]) -> Result<(), FolderFault>
    requires { length files.old ≡ 10 }
    ensures { ClearsPlaces F.tells F.told F.is_safe F.has_failed first files.old files.new result }
{
    for slot in first..SLOTS as u8 {
        clear_slot(slot, files)?;
    }
    Ok(())
}

// Clears the superblock places of the file of a slot, where there is one.
fn clear_slot<F: BankFile>(slot: u8, files: &mut [Option<F>]) -> Result<(), FolderFault>
    requires { slot < length files.old }
    ensures cleared { IsTrue F.tells → OnOk result (IsStillOpen (file_in files.old slot) (file_in files.new slot)
        (λ old new. F.told new ≡ without_places (F.told old))) }
    ensures safe { OnOk result (IfSome (file_in files.new slot) F.is_safe) }
    ensures open { IsStillOpen (file_in files.old slot) (file_in files.new slot)
        (λ old new. IsTrue F.tells → length (F.told new) ≡ length (F.told old)) }
    ensures others { AreOthersKept files.old files.new slot }
    ensures long { length files.new ≡ length files.old }
    ensures fault { IfErr result (λ fault. fault ≡ FolderFault.NoFile slot) }
    ensures failed { OnErr result (IsSomeAnd (file_in files.new slot) F.has_failed) }
{
    clear_one(slot, &mut files[slot as usize])
}

// The same of a file that may be there.
fn clear_one<F: BankFile>(slot: u8, file: &mut Option<F>) -> Result<(), FolderFault>
    ensures cleared { IsTrue F.tells → OnOk result
        (IsStillOpen file.old file.new (λ old new. F.told new ≡ without_places (F.told old))) }
    ensures safe { OnOk result (IfSome file.new F.is_safe) }
    ensures open { IsStillOpen file.old file.new
        (λ old new. IsTrue F.tells → length (F.told new) ≡ length (F.told old)) }
    ensures fault { IfErr result (λ fault. fault ≡ FolderFault.NoFile slot) }
    ensures failed { OnErr result (IsSomeAnd file.new F.has_failed) }
{
    match file {
        Some(file) => clear_file(file).map_err(|_| FolderFault::NoFile(slot)),
        None => Ok(()),
    }
}

// Clears the superblock places of a file, and syncs it.
fn clear_file<F: BankFile>(file: &mut F) -> io::Result<()>
    ensures cleared { IsTrue F.tells → OnOk result (F.told file.new ≡ without_places (F.told file.old)) }
    ensures safe { OnOk result (F.is_safe file.new) }
    ensures length { IsTrue F.tells → length (F.told file.new) ≡ length (F.told file.old) }
    ensures failed { OnErr result (F.has_failed file.new) }
{
    let size = file.size()?;
    let zeros = [0; PLACES];
    write_front(file, &zeros[..size.min(PLACES as u64) as usize])?;
    sync_whole(file)
}

// Writes bytes at the beginning of a file, all of them, or it is a fault.
fn write_front<F: BankFile>(file: &mut F, from: &[u8]) -> io::Result<()>
    requires few { length from.now ≤ 1024 }
    requires within { IsTrue F.tells → length from.now ≤ length (F.told file.old) }
    ensures written { IsTrue F.tells → OnOk result
        (F.told file.new ≡ from.now ++ drop (length from.now) (F.told file.old)) }
    ensures length { IsTrue F.tells → length (F.told file.new) ≡ length (F.told file.old) }
    ensures failed { OnErr result (F.has_failed file.new) }
{
    let mut done = 0;
    while done < from.len() {
        done += write_some(file, done as u64, &from[done..])?;
    }
    Ok(())
}

// Writes one byte or more at a byte place, and says how many. A call that is interrupted is made again, and one that
// takes no byte is a fault.
fn write_some<F: BankFile>(file: &mut F, place: u64, from: &[u8]) -> io::Result<usize>
    requires some { 0 < length from.now }
    requires place { place + length from.now < 2 ^ 64 }
    requires within { IsTrue F.tells → place + length from.now ≤ length (F.told file.old) }
    ensures some { IfOk result (λ n. 0 < n) }
    ensures bound { IfOk result (λ n. n ≤ length from.now) }
    ensures written { IsTrue F.tells → IfOk result (λ n. IsWritten place n from.now
        (contents_by F.told F.left file.old) (contents_by F.told F.left file.new)) }
    ensures length { IsTrue F.tells → length (F.told file.new) ≡ length (F.told file.old) }
    ensures failed { OnErr result (F.has_failed file.new) }
{
    for _ in 0..u64::MAX {
        match file.write_part(place, from) {
            Ok(0) => return Err(ErrorKind::WriteZero.into()),
            Ok(count) => return Ok(count),
            Err(error) => {
                if error.kind() != ErrorKind::Interrupted {
                    return Err(error);
                }
            }
        }
    }
    Err(ErrorKind::TimedOut.into())
}
