//! Device files that a command makes, and takes back where it is not done.
ghost use Rattle.std.specs.Prelude.{◌≡◌, ◌≢◌, ◌<◌, IfErr, IfOk, IsSome, IsSomeAnd, IsTrue, None, OnOk, Ok, length, map};
ghost use Rattle.std.specs.Prelude.{string_bytes, vec_len, ℕ};
ghost use Rattle.device_files.specs.declared.FolderFault.{FolderFault};
ghost use Rattle.device_files.specs.declared.locked.Before.{Before};
ghost use Rattle.device_files.specs.DeviceFiles.{AreOtherNotesKept, AreOthersKept, Begins, HasFile, IsCutBack};
ghost use Rattle.device_files.specs.DeviceFiles.{IsCutOrFailed, IsNoted, IsNotedOf, IsRenewedTo, IsTakenBack};
ghost use Rattle.device_files.specs.DeviceFiles.{IsTakenBackOrFailed, IsThere, StaysThere, before_in, file_in};
ghost use Rattle.device_files.specs.DeviceFiles.{lengthened, path_in, slot_path};
ghost use Rattle.device_files.specs.Faults.{IsFailedCreating, IsFileFaultOf};
ghost use Rattle.device_files.specs.SlotCalls.{LengthensSlot, RenewsSlot, TakesBack};

use super::growing::{Growing, lengthen, renew};
use super::slot_files::{CreateFault, SlotFiles};
use super::{Before, DeviceFiles, FolderFault, SLOTS, UndoLog, path_of};
use std::alloc::{AllocError, Global};
use std::io;

/// Creates the file of a slot (below 10, condition) where it was not opened, lengthens it by zero bytes where it is
/// shorter than so many, and syncs it. With `reserve` the zero bytes are appended, so that they have their room on the
/// device; without it the length is set, and they take room once they are written. No byte that is there is changed,
/// also where that fails, and what the file was is noted, so that `undo` takes it back.
///
/// `NoFile` where the file could not be created, lengthened or synced, `InUse` where another program has locked it,
/// each with this slot, and `Memory` where an allocation was refused.
pub fn lengthen_slot<D: SlotFiles>(
    alloc: Global,
    disk: &D,
    folder: &str,
    slot: u8,
    bytes: u64,
    files: &mut DeviceFiles<D::File>,
    reserve: bool,
) -> Result<(), FolderFault>
    requires { slot < 10 }
    ensures { LengthensSlot D.File.tells D.File.told D.File.is_safe D.File.has_failed (D.creates disk.now)
        folder.now slot bytes files.old.files.items files.new.files.items files.old.before files.new.before result }
{
    create_absent(alloc, disk, folder, slot, files)?;
    let at = slot as usize;
    files.before[at] = noted(files.before[at], bytes, &files.files[at]);
    lengthen_file(slot, bytes, &mut files.files[at], reserve)
}

// Lengthens the file of a slot, and syncs it. `NoFile` where that failed, or there is none.
fn lengthen_file<G: Growing>(
    slot: u8,
    bytes: u64,
    file: &mut Option<G>,
    reserve: bool,
) -> Result<(), FolderFault>
    ensures long { IsTrue G.tells → OnOk result
        (HasFile file.old file.new (λ old new. G.told new ≡ lengthened bytes (G.told old))) }
    ensures kept { IsTrue G.tells → StaysThere file.old file.new (λ old new. Begins (G.told old) (G.told new)) }
    ensures safe { OnOk result (IsSomeAnd file.new G.is_safe) }
    ensures fault { IfErr result (λ fault. fault ≡ FolderFault.NoFile slot) }
    ensures failed { IsSome file.old → IfErr result (λ _. IsSomeAnd file.new G.has_failed) }
{
    let Some(file) = file else {
        return Err(FolderFault::NoFile(slot));
    };
    lengthen(file, bytes, reserve).map_err(|_| FolderFault::NoFile(slot))
}

/// Creates the file of a slot (below 10, condition) where it was not opened, and syncs it. Where it was shorter than so
/// many bytes, it has so many then, all of them zero; one that is long enough is not changed. Only that it was created
/// is noted.
///
/// Refused as `lengthen_slot` is; the file may be empty or shorter then.
pub fn renew_slot<D: SlotFiles>(
    alloc: Global,
    disk: &D,
    folder: &str,
    slot: u8,
    bytes: u64,
    files: &mut DeviceFiles<D::File>,
) -> Result<(), FolderFault>
    requires { slot < 10 }
    ensures made { RenewsSlot D.File.tells D.File.told D.File.is_safe D.File.has_failed (D.creates disk.now)
        folder.now slot bytes files.old.files.items files.new.files.items result }
    ensures noted { IsNotedOf D.File.told (D.creates disk.now (slot_path folder.now slot)) 0
        (before_in files.old.before slot) (file_in files.old.files.items slot) (file_in files.new.files.items slot)
        (before_in files.new.before slot) }
    ensures other_notes { AreOtherNotesKept files.old.before files.new.before slot }
    ensures fault { IfErr result (IsFileFaultOf slot) }
    ensures blamed { IfErr result (λ fault. fault ≢ FolderFault.NoFile slot
        → IsFailedCreating (λ other. D.creates disk.now (slot_path folder.now other)) fault) }
{
    create_absent(alloc, disk, folder, slot, files)?;
    renew_file(slot, bytes, &mut files.files[slot as usize])
}

// Makes the file of a slot anew where it is too short, and syncs it. `NoFile` where that failed, or there is none.
fn renew_file<G: Growing>(slot: u8, bytes: u64, file: &mut Option<G>) -> Result<(), FolderFault>
    ensures renewed { IsTrue G.tells → OnOk result
        (HasFile file.old file.new (λ old new. IsRenewedTo bytes (G.told old) (G.told new))) }
    ensures safe { OnOk result (IsSomeAnd file.new G.is_safe) }
    ensures fault { IfErr result (λ fault. fault ≡ FolderFault.NoFile slot) }
    ensures failed { IsSome file.old → IfErr result (λ _. IsSomeAnd file.new G.has_failed) }
{
    let Some(file) = file else {
        return Err(FolderFault::NoFile(slot));
    };
    renew(file, bytes).map_err(|_| FolderFault::NoFile(slot))
}

// Creates and locks the file of a slot where it was not opened.
fn create_absent<D: SlotFiles>(
    alloc: Global,
    disk: &D,
    folder: &str,
    slot: u8,
    files: &mut DeviceFiles<D::File>,
) -> Result<(), FolderFault>
    requires { slot < 10 }
    ensures there { OnOk result (IsThere (λ made. D.creates disk.now (slot_path folder.now slot)
        (Ok (made, before_in files.new.before slot)))
        (file_in files.old.files.items slot) (file_in files.new.files.items slot)) }
    ensures opened { IsSome (file_in files.old.files.items slot) → files.new ≡ files.old }
    ensures others { AreOthersKept files.old.files.items files.new.files.items slot }
    ensures other_notes { AreOtherNotesKept files.old.before files.new.before slot }
    ensures absent { IfErr result (λ _. file_in files.old.files.items slot ≡ None) }
    ensures untouched { IfErr result (λ _. files.new ≡ files.old) }
    ensures fault { IfErr result (IsFileFaultOf slot) }
    ensures blamed { IfErr result (IsFailedCreating (λ other. D.creates disk.now (slot_path folder.now other))) }
{
    if files.files[slot as usize].is_some() {
        return Ok(());
    }
    let (file, before) = create(alloc, disk, folder, slot)?;
    files.files[slot as usize] = Some(file);
    files.before[slot as usize] = before;
    Ok(())
}

// Creates and locks the file of a slot, and says what it was before.
fn create<D: SlotFiles>(
    alloc: Global,
    disk: &D,
    folder: &str,
    slot: u8,
) -> Result<(D::File, Before), FolderFault>
    ensures created { IfOk result (λ made. D.creates disk.now (slot_path folder.now slot) (Ok made)) }
    ensures fault { IfErr result (IsFileFaultOf slot) }
    ensures blamed { IfErr result (IsFailedCreating (λ other. D.creates disk.now (slot_path folder.now other))) }
{
    let path = path_of(alloc, folder, slot)?;
    match disk.create(path.as_str()) {
        Ok(made) => Ok(made),
        Err(CreateFault::Failed) => Err(FolderFault::NoFile(slot)),
        Err(CreateFault::Busy) => Err(FolderFault::InUse(slot)),
    }
}

// What is noted of a file that is to be lengthened to so many bytes: how long it is, where nothing was noted of it and
// it is shorter.
fn noted<G: Growing>(before: Before, bytes: u64, file: &Option<G>) -> Before
    ensures { IsTrue G.tells → IsNoted G.told before bytes file.now result }
{
    if before != Before::Same {
        return before;
    }
    let Some(file) = file else {
        return before;
    };
    match file.size() {
        Ok(size) if size < bytes => Before::Shorter(size),
        _ => before,
    }
}

/// The paths of the files of a folder's ten slots. Who has them can take back what was made without memory.
#[derive(Drop)]
pub struct SlotPaths {
    paths: Vec<String>,
    ghost ten: { vec_len paths ≡ 10 },
}

/// The paths of the files of a folder. `AllocError` where an allocation was refused.
pub fn slot_paths(alloc: Global, folder: &str) -> Result<SlotPaths, AllocError>
    ensures { IfOk result (λ paths. (slot : ℕ) → slot < 10
        → path_in (map string_bytes paths.paths.items) slot ≡ slot_path folder.now slot) }
{
    let mut paths = Vec::with_capacity(alloc, SLOTS)?;
    for slot in 0..SLOTS as u8 {
        paths.push(path_of(alloc, folder, slot)?)?;
    }
    Ok(SlotPaths { paths })
}

/// Takes back what a command that was not done made of the files of a folder's slots, as it was noted: each that it
/// created is removed and closed, and each that it lengthened is cut to the bytes that it had. Where that can't be done
/// with one, it is done with the others all the same, and the error is the first one of the system's.
pub fn undo<D: SlotFiles>(
    disk: &D,
    paths: &SlotPaths,
    log: UndoLog,
    files: &mut [Option<D::File>],
) -> io::Result<()>
    ensures { TakesBack D.File.tells D.File.told D.File.has_failed (D.removes disk.now)
        (map string_bytes paths.now.paths.items) files.old files.new log.before result }
{
    let mut done = Ok(());
    for slot in 0..SLOTS {
        let path = paths.paths[slot].as_str();
        done = done.and(undo_slot(disk, path, slot, log.before[slot], files));
    }
    done
}

// The same of the file of a slot, which has this path, and of which this was noted.
fn undo_slot<D: SlotFiles>(
    disk: &D,
    path: &str,
    slot: usize,
    before: Before,
    files: &mut [Option<D::File>],
) -> io::Result<()>
    ensures undone { IsTrue D.File.tells → OnOk result (IsTakenBack D.File.told
        (D.removes disk.now path.now (Ok tt)) before (file_in files.old slot) (file_in files.new slot)) }
    ensures each { IsTakenBackOrFailed D.File.tells D.File.told D.File.has_failed (D.removes disk.now path.now)
        before (file_in files.old slot) (file_in files.new slot) }
    ensures same { before ≡ Before.Same → file_in files.new slot ≡ file_in files.old slot }
    ensures others { AreOthersKept files.old files.new slot }
    ensures long { length files.new ≡ length files.old }
{
    if slot >= files.len() {
        return undo_file(disk, path, before, &mut None);
    }
    undo_file(disk, path, before, &mut files[slot])
}

// The same of a file.
fn undo_file<D: SlotFiles>(
    disk: &D,
    path: &str,
    before: Before,
    file: &mut Option<D::File>,
) -> io::Result<()>
    ensures undone { IsTrue D.File.tells → OnOk result (IsTakenBack D.File.told
        (D.removes disk.now path.now (Ok tt)) before file.old file.new) }
    ensures each { IsTakenBackOrFailed D.File.tells D.File.told D.File.has_failed (D.removes disk.now path.now)
        before file.old file.new }
    ensures same { before ≡ Before.Same → file.new ≡ file.old }
    ensures none { file.old ≡ None → file.new ≡ None }
{
    if before == Before::Absent {
        *file = None;
        return disk.remove(path);
    }
    cut_back(before, file)
}

// Cuts a file that was lengthened to the bytes that it had.
fn cut_back<G: Growing>(before: Before, file: &mut Option<G>) -> io::Result<()>
    ensures cut { IsTrue G.tells → OnOk result (IsCutBack G.told before file.old file.new) }
    ensures each { IsCutOrFailed G.tells G.told G.has_failed before file.old file.new }
    ensures same { before ≡ Before.Same → file.new ≡ file.old }
    ensures none { file.old ≡ None → file.new ≡ None }
{
    match (before, file) {
        (Before::Shorter(bytes), Some(file)) => file.cut(bytes),
        _ => Ok(()),
    }
}
