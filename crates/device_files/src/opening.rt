//! The device files of a folder are opened, each once, and locked; when all are, each is synced.
ghost use Rattle.std.specs.Prelude.{◌≡◌, ◌≢◌, ◌<◌, ◌≤◌, ◌↔◌, ◌⊎◌, Err, IfErr, IfOk, IfSome, IsNone, OnOk, OnErr};
ghost use Rattle.std.specs.Prelude.{IsSomeAnd, IsTrue, false, pos, replicate, true, ℕ};
ghost use Rattle.std.specs.IoError.{raw_os_error};
ghost use Rattle.device_files.specs.declared.Reason.{Reason};
ghost use Rattle.device_files.specs.declared.Shortage.{Shortage};
ghost use Rattle.device_files.specs.DeviceFiles.{AreMadeSafe, AreOtherFlagsKept, AreOthersKept, IsMadeSafe, IsOpenedAs};
ghost use Rattle.device_files.specs.DeviceFiles.{IsSince, IsStillOpen, WereMadeSafe, barred_in, file_in, flag_in};
ghost use Rattle.device_files.specs.DeviceFiles.{slot_path};
ghost use Rattle.device_files.specs.Faults.{IsFailedOpening, IsOpenFault, IsOpenFaultOf, IsGivenUp, IsOpening, IsShort};
ghost use Rattle.device_files.specs.Faults.{IsUnclaimed, IsUnsafe, IsUnsafeSlot, IsUnsyncedIn, LeadsElsewhere, LeadsTo};
ghost use Rattle.device_files.specs.Faults.{SaysAbsent, SaysNoShortage, SaysShort, WasAbsent, WasNotAbsent, code_of};

use super::growing::{Growing, sync_whole};
use super::paths::Paths;
use super::slot_files::{OpenFault, SlotFiles};
use super::{Before, DeviceFiles, FolderFault, Lock, Locked, Reason, SLOTS, Shortage, path_of};
use sector_model::Refusal;
use std::alloc::Global;
use std::io::{self, ErrorKind};

/// Opens the files of a folder for reading and writing, each once, and locks each without waiting; when all ten are
/// locked, syncs each, before any of them is read. None is created or cut. A file that is absent, to which a link leads
/// nowhere, that can't be opened for a fault of its own, or whose sync fails leaves a slot without a device. So does
/// one that is there and can't be opened for want of rights, of a file system that can be written, or of file numbers,
/// which is noted (`barred`).
///
/// An earlier program that was killed may have left writes in the system's memory. What would be read of them is no
/// disk's yet, and a power cut would take it back after this program has gone on from it: so it is made safe first. The
/// system tells only once that a write could not be made safe, so a file whose sync fails is not used, nor synced
/// again.
///
/// `InUse` names the first slot whose file another open file has, be it another slot's, or to whose path another file
/// came before it was locked; `NotRegular` the first in whose file's place something else stands; `NotSafe` the first
/// whose sync says that there is no room (ENOSPC, EDQUOT). `Memory` where an allocation was refused. All files are
/// closed then.
pub fn open_folder<D: SlotFiles>(
    alloc: Global,
    disk: &D,
    folder: &str,
) -> Result<DeviceFiles<D::File>, FolderFault>
    ensures safe { IfOk result (λ files. WereMadeSafe D.File.tells D.File.told D.File.is_safe
        (IsGivenUp D.File.has_failed D.File.sync_failed)
        (λ slot. D.opens disk.now (slot_path folder.now slot)) files.files.items files.unsynced files.barred) }
    ensures locked { IfOk result (λ files. (slot : ℕ) → slot < 10
        → IfSome (file_in files.files.items slot) D.File.is_locked) }
    ensures noted { IfOk result (λ files. files.before ≡ replicate 10 Before.Same) }
    ensures fault { IfErr result IsOpenFault }
    ensures blamed { IfErr result (IsFailedOpening (λ slot. D.opens disk.now (slot_path folder.now slot))
        (IsSince D.File.tells D.File.told D.File.has_failed)) }
    ensures short { IfErr result (IsShort D.File.sync_failed) }
{
    let mut files = open_all(alloc, disk, folder)?;
    make_safe(&mut files)?;
    Ok(files)
}

// Opens and locks the files of a folder.
fn open_all<D: SlotFiles>(
    alloc: Global,
    disk: &D,
    folder: &str,
) -> Result<DeviceFiles<D::File>, FolderFault>
    ensures opened { IfOk result (λ files. (slot : ℕ) → slot < 10
        → IsOpenedAs (D.opens disk.now (slot_path folder.now slot)) (file_in files.files.items slot)
        (barred_in files.barred slot)) }
    ensures locked { IfOk result (λ files. (slot : ℕ) → slot < 10
        → IfSome (file_in files.files.items slot) D.File.is_locked) }
    ensures noted { IfOk result (λ files. files.before ≡ replicate 10 Before.Same) }
    ensures fault { IfErr result IsOpenFault }
    ensures blamed { IfErr result (IsFailedOpening (λ slot. D.opens disk.now (slot_path folder.now slot))
        (IsSince D.File.tells D.File.told D.File.has_failed)) }
    ensures short { IfErr result (IsShort D.File.sync_failed) }
{
    let mut files = Vec::with_capacity(alloc, SLOTS)?;
    let mut barred = [None; SLOTS];
    for slot in 0..SLOTS {
        let (file, reason) = open_slot(alloc, disk, folder, slot as u8)?;
        barred[slot] = reason;
        if files.push(file).is_err() {
            return Err(FolderFault::Refused(Refusal::Memory));
        }
    }
    Ok(DeviceFiles {
        files,
        before: [Before::Same; SLOTS],
        unsynced: [false; SLOTS],
        barred,
    })
}

// Opens and locks the file of a slot, or says why one that is there could not be opened.
fn open_slot<D: SlotFiles>(
    alloc: Global,
    disk: &D,
    folder: &str,
    slot: u8,
) -> Result<(Option<D::File>, Option<Reason>), FolderFault>
    ensures opened { IfOk result (λ found. IsOpenedAs (D.opens disk.now (slot_path folder.now slot)) found.0 found.1) }
    ensures locked { IfOk result (λ found. IfSome found.0 D.File.is_locked) }
    ensures fault { IfErr result (IsOpenFaultOf slot) }
    ensures blamed { IfErr result (IsFailedOpening (λ other. D.opens disk.now (slot_path folder.now other))
        (IsSince D.File.tells D.File.told D.File.has_failed)) }
    ensures short { IfErr result (IsShort D.File.sync_failed) }
{
    let path = path_of(alloc, folder, slot)?;
    match disk.open(path.as_str()) {
        Ok(file) => Ok((file, None)),
        Err(OpenFault::Busy) => Err(FolderFault::InUse(slot)),
        Err(OpenFault::Barred(reason)) => Ok((None, Some(reason))),
        Err(OpenFault::NotRegular) => Err(FolderFault::NotRegular(slot)),
    }
}

/// Syncs each file. One whose sync fails is closed, and its slot is marked; one for which there is no room stops that.
pub(super) fn make_safe<G: Growing + Drop>(files: &mut DeviceFiles<G>) -> Result<(), FolderFault>
    ensures safe { OnOk result (AreMadeSafe G.tells G.told G.is_safe (IsGivenUp G.has_failed G.sync_failed)
        files.old.files.items files.new.files.items files.new.unsynced) }
    ensures locked { ((slot : ℕ) → slot < 10 → IfSome (file_in files.old.files.items slot) G.is_locked)
        → (slot : ℕ) → slot < 10 → IfSome (file_in files.new.files.items slot) G.is_locked }
    ensures noted { files.new.before ≡ files.old.before }
    ensures barred { files.new.barred ≡ files.old.barred }
    ensures fault { IfErr result (IsUnsafe (IsSince G.tells G.told G.has_failed) files.old.files.items) }
    ensures short { IfErr result (IsShort G.sync_failed) }
{
    for slot in 0..SLOTS {
        make_slot_safe(slot as u8, files)?;
    }
    Ok(())
}

// Syncs the file of a slot.
fn make_slot_safe<G: Growing + Drop>(
    slot: u8,
    files: &mut DeviceFiles<G>,
) -> Result<(), FolderFault>
    requires { slot < 10 }
    ensures safe { OnOk result (IsMadeSafe G.tells G.told G.is_safe (IsGivenUp G.has_failed G.sync_failed)
        (file_in files.old.files.items slot)
        (file_in files.new.files.items slot) (flag_in files.new.unsynced slot)) }
    ensures locked { IfSome (file_in files.old.files.items slot) G.is_locked
        → IfSome (file_in files.new.files.items slot) G.is_locked }
    ensures others { AreOthersKept files.old.files.items files.new.files.items slot }
    ensures other_flags { AreOtherFlagsKept files.old.unsynced files.new.unsynced slot }
    ensures noted { files.new.before ≡ files.old.before }
    ensures barred { files.new.barred ≡ files.old.barred }
    ensures fault { IfErr result (IsUnsafeSlot (IsSince G.tells G.told G.has_failed) slot
        (file_in files.old.files.items slot)) }
    ensures short { IfErr result (IsShort G.sync_failed) }
{
    let at = slot as usize;
    let synced = sync_open(&mut files.files[at]);
    files.unsynced[at] = synced.is_err();
    let Err(error) = synced else {
        return Ok(());
    };
    if let Some(shortage) = shortage_of(&error) {
        return Err(FolderFault::NotSafe(slot, shortage));
    }
    files.files[at] = None;
    Ok(())
}

/// Syncs a file, where there is one.
pub(super) fn sync_open<G: Growing>(file: &mut Option<G>) -> io::Result<()>
    ensures kept { IsStillOpen file.old file.new
        (λ old new. (IsTrue G.tells → G.told new ≡ G.told old) × (G.is_locked old → G.is_locked new)) }
    ensures safe { OnOk result (IfSome file.new G.is_safe) }
    ensures failed { OnErr result (IsSomeAnd file.new G.has_failed) }
    ensures answered { IfErr result (λ error. IsSomeAnd file.new (λ it. G.sync_failed it error)) }
{
    match file {
        Some(file) => sync_whole(file),
        None => Ok(()),
    }
}

/// Refuses the first slot from `first` on, below `end` and below 10, whose file's sync failed when it was opened, as
/// `NoFile`.
pub fn refuse_unsynced<G: Drop>(
    files: &DeviceFiles<G>,
    first: u8,
    end: u8,
) -> Result<(), FolderFault>
    ensures none { OnOk result ((slot : ℕ) → first ≤ slot → slot < end → slot < 10
        → flag_in files.now.unsynced slot ≡ false) }
    ensures fault { IfErr result (IsUnsyncedIn files.now.unsynced first end) }
{
    for slot in first..end.min(SLOTS as u8) {
        if files.unsynced[slot as usize] {
            return Err(FolderFault::NoFile(slot));
        }
    }
    Ok(())
}

/// Opens a file, where there is one that can be, for reading and writing, and locks it. What is known to be no regular
/// file is not opened, and what is seen to be none when it is open is not taken: `NotRegular`.
pub(super) fn open_claimed<P: Paths>(
    paths: &P,
    path: &str,
) -> Result<Option<Locked<P::Open>>, OpenFault>
where
    P::Open: Lock,
    ensures ours { IfOk result (λ file. IfSome file (λ locked. P.Open.is_ours locked.file)) }
    ensures inspected { OnOk result (P.leading_other paths.now path.now false) }
    ensures regular { IfOk result (λ file. IfSome file (λ locked. P.other locked.file false)) }
    ensures other { result ≡ Err OpenFault.NotRegular → P.leading_other paths.now path.now true
        ⊎ ((locked : P.Open) × P.other locked true) }
{
    if paths.leads_to_other(path) {
        return Err(OpenFault::NotRegular);
    }
    match open_file(paths, path) {
        Ok(Some(file)) => claim(paths, path, file).map(Some),
        Ok(None) => Ok(None),
        Err(reason) => Err(OpenFault::Barred(reason)),
    }
}

/// Opens a file, where there is one that can be, for reading and writing.
pub(super) fn open_file<P: Paths>(paths: &P, path: &str) -> Result<Option<P::Open>, Reason>
    ensures { IsOpening (P.opening paths.now path.now) (P.leading paths.now path.now) result }
{
    let opened = paths.open_there(path);
    file_or_reason(paths, path, opened)
}

/// The file that was opened at a path; none where the device is taken for lost. The reason for which it could not be
/// opened is the caller's, and says nothing of the device.
pub(super) fn file_or_reason<P: Paths>(
    paths: &P,
    path: &str,
    opened: io::Result<P::Open>,
) -> Result<Option<P::Open>, Reason>
    ensures { IsOpening (λ it. it ≡ opened) (P.leading paths.now path.now) result }
{
    let error = match opened {
        Ok(file) => return Ok(Some(file)),
        Err(error) => error,
    };
    let Some(reason) = reason_of(&error) else {
        return Ok(None);
    };
    if is_absent(paths, path) {
        return Ok(None);
    }
    Err(reason)
}

/// Whether a path leads to no file, so far as the system tells.
pub(super) fn is_absent<P: Paths>(paths: &P, path: &str) -> bool
    ensures absent { result ≡ true → WasAbsent (P.leading paths.now path.now) }
    ensures there { result ≡ false → WasNotAbsent (P.leading paths.now path.now) }
{
    match paths.place_at(path) {
        Ok(_) => false,
        Err(error) => says_absent(&error),
    }
}

/// Whether a fault says that a path leads to no file.
pub(super) fn says_absent(error: &io::Error) -> bool
    ensures { result ≡ true ↔ SaysAbsent error.now }
{
    matches!(error.kind(), ErrorKind::NotFound | ErrorKind::NotADirectory)
}

// Whether a fault of a sync says that there is no room, and of which kind.
fn shortage_of(error: &io::Error) -> Option<Shortage>
    ensures some { IfSome result (SaysShort error.now) }
    ensures none { IsNone result → SaysNoShortage error.now }
{
    match error.raw_os_error()? {
        28 => Some(Shortage::Space),
        122 => Some(Shortage::Quota),
        _ => None,
    }
}

// Whether a fault of opening comes of the caller's rights or limits, and of which.
fn reason_of(error: &io::Error) -> Option<Reason>
    ensures some { IfSome result (λ reason. raw_os_error error.now ≡ Some (pos (code_of reason))) }
    ensures none { IsNone result → (reason : Reason) → raw_os_error error.now ≢ Some (pos (code_of reason)) }
{
    match error.raw_os_error()? {
        1 => Some(Reason::NotPermitted),
        13 => Some(Reason::Permission),
        23 => Some(Reason::TooManyFilesInSystem),
        24 => Some(Reason::TooManyFiles),
        30 => Some(Reason::ReadOnly),
        _ => None,
    }
}

/// Locks an open file, and looks again whether the path leads to it: else another program may have put another file
/// there meanwhile. `Busy` where that is so or another open file has the lock, and `NotRegular` where it is no regular
/// file.
pub(super) fn claim<P: Paths>(
    paths: &P,
    path: &str,
    file: P::Open,
) -> Result<Locked<P::Open>, OpenFault>
where
    P::Open: Lock,
    ensures ours { IfOk result (λ locked. P.Open.is_ours locked.file) }
    ensures there { IfOk result (λ locked. LeadsTo (P.leading paths.now path.now) (P.lying locked.file)) }
    ensures regular { IfOk result (λ locked. P.other locked.file false) }
    ensures fault { IfErr result (IsUnclaimed (P.Open.is_theirs file
        ⊎ ((locked : P.Open) × LeadsElsewhere (P.leading paths.now path.now) (P.lying locked)))
        ((locked : P.Open) × P.other locked true)) }
{
    let Some(locked) = Locked::over(file) else {
        return Err(OpenFault::Busy);
    };
    if paths.is_other(&locked.file) {
        return Err(OpenFault::NotRegular);
    }
    if leads_to(paths, path, &locked.file) {
        Ok(locked)
    } else {
        Err(OpenFault::Busy)
    }
}

// Whether a path leads to an open file.
fn leads_to<P: Paths>(paths: &P, path: &str, file: &P::Open) -> bool
    ensures same { result ≡ true → LeadsTo (P.leading paths.now path.now) (P.lying file.now) }
    ensures apart { result ≡ false → LeadsElsewhere (P.leading paths.now path.now) (P.lying file.now) }
{
    let (Ok(there), Ok(here)) = (paths.place_at(path), paths.place_of(file)) else {
        return false;
    };
    there == here
}
