//! The file of a slot is opened anew, while those of the others stay open.
ghost use Rattle.std.specs.Prelude.{◌≡◌, ◌≢◌, ◌<◌, IfErr, IfSome, IsTrue, Ok, OnOk, OnErr, None, ℕ, length};
ghost use Rattle.sector_model.specs.declared.refusal.Refusal.{Refusal};
ghost use Rattle.device_files.specs.BankFiles.{AreAllSafe};
ghost use Rattle.device_files.specs.DeviceFiles.{AreOthersKept, IsKeptOrClosed, IsReopened, file_in, slot_path};

use super::growing::Growing;
use super::opening::sync_open;
use super::slot_files::SlotFiles;
use super::{SLOTS, path_of};
use sector_model::Refusal;
use std::alloc::Global;

/// Closes the file of a slot, if there is one, opens and locks the one to which its path leads now, and makes the files
/// of all ten slots (condition) safe again, as a bank over them needs it. The slot has no device where no file can be
/// opened and locked; and none has a slot whose file's sync fails, which is closed.
///
/// `Memory` where an allocation was refused.
pub fn reopen_slot<D: SlotFiles>(
    alloc: Global,
    disk: &D,
    folder: &str,
    slot: u8,
    files: &mut [Option<D::File>],
) -> Result<(), Refusal>
    requires ten { length files.old ≡ 10 }
    ensures ten { length files.new ≡ 10 }
    ensures safe { OnOk result (AreAllSafe D.File.is_safe files.new) }
    ensures opened { OnOk result (IsReopened D.File.tells D.File.told (D.opens disk.now (slot_path folder.now slot))
        (file_in files.new slot)) }
    ensures others { (other : ℕ) → other ≢ slot → IsKeptOrClosed D.File.tells D.File.told
        (file_in files.old other) (file_in files.new other) }
    ensures err { IfErr result (λ refusal. refusal ≡ Refusal.Memory) }
{
    open_anew(alloc, disk, folder, slot, files)?;
    close_unsynced(files);
    Ok(())
}

// Closes the file of a slot, and opens and locks the one to which its path leads now.
fn open_anew<D: SlotFiles>(
    alloc: Global,
    disk: &D,
    folder: &str,
    slot: u8,
    files: &mut [Option<D::File>],
) -> Result<(), Refusal>
    requires ten { length files.old ≡ 10 }
    ensures ten { length files.new ≡ 10 }
    ensures opened { OnOk result (IsReopened D.File.tells D.File.told (D.opens disk.now (slot_path folder.now slot))
        (file_in files.new slot)) }
    ensures others { AreOthersKept files.old files.new slot }
    ensures err { IfErr result (λ refusal. refusal ≡ Refusal.Memory) }
{
    let at = slot as usize;
    if at >= SLOTS {
        return Ok(());
    }
    files[at] = None;
    let path = path_of(alloc, folder, slot)?;
    if let Ok(file) = disk.open(path.as_str()) {
        files[at] = file;
    }
    Ok(())
}

// Syncs each file, and closes those whose sync fails.
fn close_unsynced<G: Growing + Drop>(files: &mut [Option<G>])
    requires ten { length files.old ≡ 10 }
    ensures ten { length files.new ≡ 10 }
    ensures safe { AreAllSafe G.is_safe files.new }
    ensures kept { (slot : ℕ) → IsKeptOrClosed G.tells G.told
        (file_in files.old slot) (file_in files.new slot) }
{
    for slot in 0..SLOTS {
        close_if_unsynced(slot as u8, files);
    }
}

// Syncs the file of a slot, and closes it where that fails.
fn close_if_unsynced<G: Growing + Drop>(slot: u8, files: &mut [Option<G>])
    requires ten { length files.old ≡ 10 }
    requires within { slot < 10 }
    ensures ten { length files.new ≡ 10 }
    ensures safe { IfSome (file_in files.new slot) G.is_safe }
    ensures kept { IsKeptOrClosed G.tells G.told
        (file_in files.old slot) (file_in files.new slot) }
    ensures others { AreOthersKept files.old files.new slot }
{
    let at = slot as usize;
    if sync_open(&mut files[at]).is_err() {
        files[at] = None;
    }
}
