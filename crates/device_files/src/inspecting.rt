//! The device files of a folder are opened for reading alone, and without a lock.
ghost use Rattle.std.specs.Prelude.{◌<◌, IfErr, IfOk, IfSome, IsErr, List, Ok, Option, Result, ℕ};
ghost use Rattle.device_files.specs.declared.slot_files.OpenFault.{OpenFault};
ghost use Rattle.device_files.specs.BankFiles.{AreAllSafe};
ghost use Rattle.device_files.specs.DeviceFiles.{file_in, slot_path};
ghost use Rattle.device_files.specs.Faults.{IsFailedOpening, IsOpenFault, IsOpenFaultOf};

use super::growing::Growing;
use super::lending::BankFile;
use super::opening::file_or_reason;
use super::paths::Paths;
use super::slot_files::OpenFault;
use super::{Before, DeviceFiles, FolderFault, SLOTS, SystemFolders, path_of};
use sector_model::{DeviceFile, NoRecord, Refusal, SystemFile};
use std::alloc::{AllocError, Global};
use std::fs::{OpenFile, OpenOptions};
use std::io::{self, ErrorKind};
use std::os::unix::fs::FileExt;
use std::rt::Files;

/// A disk on which files are opened for reading alone, by their paths.
pub trait InspectFiles {
    /// A file that is open for reading.
    type InspectedFile: BankFile;

    /// What the opening of the file at a path came to.
    ghost inspects: { Self → (path : List ℕ) → Result (Option Self.InspectedFile) OpenFault → Type 0 };

    /// Opens a file for reading alone, without a lock; none where the file is absent, a link leads nowhere, something
    /// else stands in its place, or the device has a fault of its own. No file is created or cut. What a file that
    /// tells holds is safe.
    fn inspect(&self, path: &str) -> Result<Option<Self::InspectedFile>, OpenFault>
        ensures inspected { inspects self.now path.now result }
        ensures safe { IfOk result (λ file. IfSome file Self.InspectedFile.is_safe) };
}

/// A file of the system that is open for reading alone. It tells nothing, and each call that would change it is a
/// fault.
#[derive(Drop)]
pub struct InspectedFile<F> {
    file: F,
}

// What a call that would change such a file answers.
fn not_permitted<T>() -> io::Result<T>
    ensures { IsErr result }
{
    Err(io::Error::from(ErrorKind::PermissionDenied))
}

impl<F: OpenFile + FileExt> Growing for InspectedFile<F> {
    ghost use Rattle.std.specs.Prelude.{false, [], ⊤};

    ghost tells = { false };

    ghost told = { λ _. [] };

    ghost is_safe = { λ _. ⊤ };

    ghost is_locked = { λ _. ⊤ };

    ghost has_failed = { λ _. ⊤ };

    ghost sync_failed = { λ _ _. ⊤ };

    fn size(&self) -> io::Result<u64> {
        SystemFile { of: &self.file }.size()
    }

    fn append(&mut self, _bytes: &[u8]) -> io::Result<usize> {
        not_permitted()
    }

    fn stretch(&mut self, _bytes: u64) -> io::Result<()> {
        not_permitted()
    }

    fn cut(&mut self, _bytes: u64) -> io::Result<()> {
        not_permitted()
    }

    fn sync(&mut self) -> io::Result<()> {
        not_permitted()
    }
}

impl<F: OpenFile + FileExt + Drop + 'static> BankFile for InspectedFile<F> {
    ghost use Rattle.std.specs.Prelude.{[]};

    type Record = NoRecord;

    ghost left = { λ _. [] };

    fn read_part(&self, place: u64, to: &mut [u8]) -> io::Result<usize> {
        SystemFile { of: &self.file }.read_part(place, to)
    }

    fn write_part(&mut self, _place: u64, _from: &[u8]) -> io::Result<usize> {
        not_permitted()
    }

    fn sync_written(&mut self) -> io::Result<()> {
        not_permitted()
    }

    fn record(_alloc: Global, _files: &[Option<Self>]) -> Result<NoRecord, AllocError> {
        Ok(NoRecord)
    }
}

impl<S> InspectFiles for SystemFolders<'_, S>
where
    S: Files + AllocGlobal,
    S::File: FileExt + 'static,
{
    ghost use Rattle.std.specs.Prelude.{⊤};

    type InspectedFile = InspectedFile<S::File>;

    ghost inspects = { λ _ _ _. ⊤ };

    fn inspect(&self, path: &str) -> Result<Option<InspectedFile<S::File>>, OpenFault> {
        if self.leads_to_other(path) {
            return Ok(None);
        }
        let opened = OpenOptions::new().read(true).open(self.rt, path);
        match file_or_reason(self, path, opened) {
            Ok(Some(file)) => Ok(Some(InspectedFile { file })),
            Ok(None) => Ok(None),
            Err(reason) => Err(OpenFault::Barred(reason)),
        }
    }
}

/// Opens the ten files of a folder for reading alone, each once, without a lock, and neither syncs nor creates any. A
/// file that is absent, to which a link leads nowhere, in whose place something else stands, or that can't be opened
/// for a fault of its own leaves a slot without a device.
///
/// `NotOpened` names the first slot whose file is there and can't be opened for want of rights or of file numbers;
/// `InUse` and `NotRegular` one where opening its path came to that, as it never does on a disk of the system. `Memory`
/// where an allocation was refused.
pub fn inspect_folder<D: InspectFiles>(
    alloc: Global,
    disk: &D,
    folder: &str,
) -> Result<DeviceFiles<D::InspectedFile>, FolderFault>
    ensures inspected { IfOk result (λ files. (slot : ℕ) → slot < 10
        → D.inspects disk.now (slot_path folder.now slot) (Ok (file_in files.files.items slot))) }
    ensures safe { IfOk result (λ files. AreAllSafe D.InspectedFile.is_safe files.files.items) }
    ensures fault { IfErr result IsOpenFault }
    ensures blamed { IfErr result (IsFailedOpening (λ slot. D.inspects disk.now (slot_path folder.now slot)) (λ _. ⊥)) }
{
    let mut files = Vec::with_capacity(alloc, SLOTS)?;
    for slot in 0..SLOTS {
        let file = inspect_slot(alloc, disk, folder, slot as u8)?;
        if files.push(file).is_err() {
            return Err(FolderFault::Refused(Refusal::Memory));
        }
    }
    Ok(DeviceFiles {
        files,
        before: [Before::Same; SLOTS],
        unsynced: [false; SLOTS],
        barred: [None; SLOTS],
    })
}

// Opens the file of a slot for reading alone.
fn inspect_slot<D: InspectFiles>(
    alloc: Global,
    disk: &D,
    folder: &str,
    slot: u8,
) -> Result<Option<D::InspectedFile>, FolderFault>
    ensures inspected { IfOk result (λ file. D.inspects disk.now (slot_path folder.now slot) (Ok file)) }
    ensures safe { IfOk result (λ file. IfSome file D.InspectedFile.is_safe) }
    ensures fault { IfErr result (IsOpenFaultOf slot) }
    ensures blamed { IfErr result (IsFailedOpening (λ other. D.inspects disk.now (slot_path folder.now other))
        (λ _. ⊥)) }
{
    let path = path_of(alloc, folder, slot)?;
    match disk.inspect(path.as_str()) {
        Ok(file) => Ok(file),
        Err(OpenFault::Busy) => Err(FolderFault::InUse(slot)),
        Err(OpenFault::Barred(reason)) => Err(FolderFault::NotOpened(slot, reason)),
        Err(OpenFault::NotRegular) => Err(FolderFault::NotRegular(slot)),
    }
}
