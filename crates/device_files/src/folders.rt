//! The names of device files are made safe.
ghost use Rattle.std.specs.Prelude.{◌≡◌, ◌≢◌, ◌<◌, ◌≤◌, ◌↔◌, ◌⊎◌, IfErr, IfOk, IfSome, IsNone, IsOk, List, OnOk};
ghost use Rattle.std.specs.Prelude.{true, ℕ};
ghost use Rattle.std.specs.IoError.{error_kind};
ghost use Rattle.std.specs.Option.{option_map};
ghost use Rattle.std.specs.Path.{path_buf_bytes, path_parent};
ghost use Rattle.device_files.specs.DeviceFiles.{IsLinkSynced, slot_path};
ghost use Rattle.device_files.specs.Faults.{IsSyncFault, SaysAbsent, SaysNever};

use super::opening::says_absent;
use super::{FolderFault, path_of};
use sector_model::Refusal;
use std::alloc::Global;
use std::fs::{self, OpenFile};
use std::io::{self, ErrorKind};
use std::path::PathBuf;
use std::rt::Files;

/// A disk whose folders can be synced, and on which links lead to other folders. Of the system's disks nothing is
/// known.
pub trait FolderSync {
    /// The names in a folder are safe.
    ghost is_safe: { Self → (folder : List ℕ) → Type 0 };

    /// A folder can't be opened, or synced, at all.
    ghost is_never: { Self → (folder : List ℕ) → Type 0 };

    /// A path is a link, which makes its file in this folder.
    ghost leads_to: { Self → (path folder : List ℕ) → Type 0 };

    /// A path is no link, or leads nowhere.
    ghost is_no_link: { Self → (path : List ℕ) → Type 0 };

    /// Makes safe the names in a folder. The error is that of the system, also where there is no such folder.
    fn sync_names(&self, folder: &str) -> io::Result<()>
        ensures safe { OnOk result (is_safe self.now folder.now) }
        ensures never { IfErr result (λ error. SaysNever error → is_never self.now folder.now) };

    /// The folder in which a link makes its file; none where the path is no link, or leads nowhere. The error is that
    /// of the system where looking at the path failed otherwise: nothing is known of it then.
    fn linked_folder(&self, path: &str) -> io::Result<Option<PathBuf>>
        ensures some { IfOk result (λ found.
            IfSome found (λ folder. leads_to self.now path.now (path_buf_bytes folder))) }
        ensures none { IfOk result (λ found. IsNone found → is_no_link self.now path.now) };
}

/// The folders of the system.
#[derive(Drop)]
pub struct SystemFolders<'a, S> {
    /// The system.
    pub rt: &'a S,
}

impl<S: Files + AllocGlobal> FolderSync for SystemFolders<'_, S> {
    ghost use Rattle.std.specs.Prelude.{⊤};

    ghost is_safe = { λ _ _. ⊤ };

    ghost is_never = { λ _ _. ⊤ };

    ghost leads_to = { λ _ _ _. ⊤ };

    ghost is_no_link = { λ _ _. ⊤ };

    fn sync_names(&self, folder: &str) -> io::Result<()> {
        fs::open(self.rt, folder)?.sync_all()
    }

    fn linked_folder(&self, path: &str) -> io::Result<Option<PathBuf>> {
        match fs::symlink_metadata(self.rt, path) {
            Ok(found) if found.is_symlink() => folder_of_target(fs::canonicalize(self.rt, path)),
            Ok(_) => Ok(None),
            Err(error) => none_if_absent(error),
        }
    }
}

// The folder of the file to which a link leads; none where it leads nowhere.
fn folder_of_target(file: io::Result<PathBuf>) -> io::Result<Option<PathBuf>>
    ensures nowhere { IfErr file (λ error. SaysAbsent error → result ≡ Ok None) }
    ensures fault { IfErr file (λ error. ¬ SaysAbsent error → result ≡ Err error) }
    ensures there { OnOk file (IsOk result) }
    ensures folder { IfOk file (λ path. IfOk result (λ folder. option_map path_buf_bytes folder ≡ path_parent
        (path_buf_bytes path))) }
{
    match file {
        Ok(mut file) => Ok(if file.pop() { Some(file) } else { None }),
        Err(error) => none_if_absent(error),
    }
}

// No link, where a fault of the system says that the path leads to no file; another fault says nothing of it.
fn none_if_absent(error: io::Error) -> io::Result<Option<PathBuf>>
    ensures nowhere { SaysAbsent error → result ≡ Ok None }
    ensures fault { ¬ SaysAbsent error → result ≡ Err error }
{
    if says_absent(&error) {
        return Ok(None);
    }
    Err(error)
}

/// Syncs a folder of a disk and, where the path of a slot from `first` on and below `end` is a link, the folder in
/// which the link makes its file. A folder that can't be opened or synced at all (EACCES, EINVAL) is passed over.
///
/// `NotSynced` where a sync fails otherwise, or looking at such a path does; `Memory` where an allocation was refused.
pub fn sync_folders<D: FolderSync>(
    alloc: Global,
    disk: &D,
    folder: &str,
    first: u8,
    end: u8,
) -> Result<(), FolderFault>
    ensures synced { OnOk result (D.is_safe disk.now folder.now ⊎ D.is_never disk.now folder.now) }
    ensures linked { OnOk result ((slot : ℕ) → first ≤ slot → slot < end
        → IsLinkSynced (D.is_no_link disk.now) (D.leads_to disk.now)
        (λ folder. D.is_safe disk.now folder ⊎ D.is_never disk.now folder) (slot_path folder.now slot)) }
    ensures fault { IfErr result IsSyncFault }
{
    sync_folder(disk, folder)?;
    for slot in first..end {
        let path = path_of(alloc, folder, slot)?;
        sync_linked(disk, path.as_str())?;
    }
    Ok(())
}

// Syncs the folder in which a link makes its file; does nothing where the path is no link, or leads nowhere.
fn sync_linked<D: FolderSync>(disk: &D, path: &str) -> Result<(), FolderFault>
    ensures linked { OnOk result (IsLinkSynced (D.is_no_link disk.now) (D.leads_to disk.now)
        (λ folder. D.is_safe disk.now folder ⊎ D.is_never disk.now folder) path.now) }
    ensures fault { IfErr result IsSyncFault }
{
    match disk.linked_folder(path) {
        Ok(Some(folder)) => sync_folder(disk, folder.as_str()),
        Ok(None) => Ok(()),
        Err(error) => Err(unsynced(&error)),
    }
}

// What stops the sync of a folder that is not found, since looking for it failed so.
fn unsynced(error: &io::Error) -> FolderFault
    ensures fault { IsSyncFault result }
    ensures memory { error_kind error.now ≡ ErrorKind.OutOfMemory → result ≡ FolderFault.Refused Refusal.Memory }
    ensures other { error_kind error.now ≢ ErrorKind.OutOfMemory → result ≡ FolderFault.NotSynced }
{
    match error.kind() {
        ErrorKind::OutOfMemory => FolderFault::Refused(Refusal::Memory),
        _ => FolderFault::NotSynced,
    }
}

// Syncs a folder.
fn sync_folder<D: FolderSync>(disk: &D, folder: &str) -> Result<(), FolderFault>
    ensures synced { OnOk result (D.is_safe disk.now folder.now ⊎ D.is_never disk.now folder.now) }
    ensures fault { IfErr result (λ fault. fault ≡ FolderFault.NotSynced) }
{
    match disk.sync_names(folder) {
        Err(error) if !is_never_synced(&error) => Err(FolderFault::NotSynced),
        _ => Ok(()),
    }
}

// Whether a fault says that a folder can't be opened, or synced, at all.
fn is_never_synced(error: &io::Error) -> bool
    ensures { result ≡ true ↔ SaysNever error.now }
{
    matches!(error.raw_os_error(), Some(13 | 22))
}
