//! How long the device files of the first slots are.
ghost use Rattle.std.specs.Prelude.{◌≡◌, ◌≤◌, ◌<◌, ℕ, IfErr, IfOk, IsSome, IsSomeAnd, IsTrue, OnOk, length};
ghost use Rattle.device_files.specs.DeviceFiles.{IsShortest, file_in};
ghost use Rattle.device_files.specs.Faults.{IsLengthFault, IsNoLength};

use super::FolderFault;
use super::growing::Growing;

/// The least number of bytes that the file of one of the first slots has, of so many (1 to 10, condition) among ten
/// (condition).
///
/// Refused is the first slot whose length can't be told: as `Absent` where it has no file, and as `NoFile` where the
/// call for its length failed.
pub fn shortest_of<F: Growing>(files: &[Option<F>], slots: u8) -> Result<u64, FolderFault>
    requires some { 1 ≤ slots }
    requires most { slots ≤ 10 }
    requires ten { length files.now ≡ 10 }
    ensures there { OnOk result ((slot : ℕ) → slot < slots → IsSome (file_in files.now slot)) }
    ensures least { IsTrue F.tells → IfOk result (IsShortest F.told files.now slots) }
    ensures fault { IfErr result (IsLengthFault F.has_failed files.now slots) }
{
    let mut least = length_of(0, &files[0])?;
    for slot in 1..slots {
        least = least.min(length_of(slot, &files[slot as usize])?);
    }
    Ok(least)
}

// The number of bytes of the file of a slot.
fn length_of<F: Growing>(slot: u8, file: &Option<F>) -> Result<u64, FolderFault>
    ensures told { IsTrue F.tells → IfOk result (λ bytes. IsSomeAnd file.now (λ it. length (F.told it) ≡ bytes)) }
    ensures there { OnOk result (IsSome file.now) }
    ensures fault { IfErr result (IsNoLength F.has_failed slot file.now) }
{
    match file {
        Some(file) => file.size().map_err(|_| FolderFault::NoFile(slot)),
        None => Err(FolderFault::Absent(slot)),
    }
}
