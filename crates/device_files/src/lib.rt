//! The device files of a folder: opened and locked, made safe, searched for superblocks and cleared of them, lengthened
//! and taken back, lent to a bank, or read alone; and what stops that, with the line and the exit status of a program
//! that it stops.
#![tactic(auto)]

ghost use Rattle.std.specs.Prelude.{◌≡◌, ◌≤◌, ◌*◌, ◌++◌, [], ◌∷◌, IfErr, IfOk, OnOk, if◌then◌else◌, is_ok, length};
ghost use Rattle.std.specs.Prelude.{string_bytes};
ghost use Rattle.hex.specs.Hex.{encode_lower};
ghost use Rattle.superblock.specs.Counted.{least_sectors};
ghost use Rattle.device_files.specs.DeviceFiles.{slot_path};
ghost use Rattle.report.specs.Written.{WritesText};
ghost use Rattle.device_files.specs.Faults.{IsFaultTold, fault_line, set_there_line, shortage_words, unsynced_line};
ghost use Rattle.device_files.specs.Faults.{words_for};

mod clearing;
mod finding;
mod folders;
mod growing;
mod inspecting;
mod lending;
mod lengths;
mod locked;
mod memory;
mod opening;
mod passing;
mod paths;
mod reopening;
mod reserving;
mod slot_files;

pub use clearing::clear_places;
pub use finding::find_set;
pub use folders::{FolderSync, SystemFolders, sync_folders};
pub use growing::Growing;
pub use inspecting::{InspectFiles, InspectedFile, inspect_folder};
use layout_map::Geometry;
pub use lending::{BankFile, LentFile, ReadOnlyFile, bank_on, bank_to_inspect};
pub use lengths::shortest_of;
pub use locked::{Before, DeviceFiles, Lock, Locked, UndoLog};
pub use memory::HeldFile;
pub use opening::{open_folder, refuse_unsynced};
pub use passing::{pass_over, refuse_barred};
pub use reopening::reopen_slot;
use report::replies::{Answer, write_reply, write_slot_line, write_text};
pub use reserving::{SlotPaths, lengthen_slot, renew_slot, slot_paths, undo};
use sector_model::Refusal;
pub use slot_files::{CreateFault, OpenFault, SlotFiles};
use std::alloc::{AllocError, Global};
use std::io::Write;
use superblock::least_of;

const SECTOR_BYTES: u64 = 512;

/// The number of slots of a folder, whose device files are `dev0.img` to `dev9.img`.
pub const SLOTS: usize = 10;

/// Why a file that is there could not be opened, though its device may be well.
#[derive(Clone, Copy, Debug, PartialEq, Eq)]
pub enum Reason {
    /// The caller lacks a right (EACCES).
    Permission,
    /// The system forbids it (EPERM).
    NotPermitted,
    /// The file system can't be written (EROFS).
    ReadOnly,
    /// The caller has as many open files as he may have (EMFILE).
    TooManyFiles,
    /// The system has (ENFILE).
    TooManyFilesInSystem,
}

/// Why what a file holds could not be made safe, though its device may be well.
#[derive(Clone, Copy, Debug, PartialEq, Eq)]
pub enum Shortage {
    /// The device is full (ENOSPC).
    Space,
    /// The caller's quota is used up (EDQUOT).
    Quota,
}

/// Why a command over the device files of a folder was not done. A slot is below 10.
#[derive(Clone, Copy, Drop)]
pub enum FolderFault {
    /// The file of this slot could not be created, lengthened, cleared or synced, also where its sync failed when it
    /// was opened, or its length could not be told.
    NoFile(u8),
    /// Another program, or another slot, has the lock of this slot's file, or its path leads elsewhere since it was
    /// opened.
    InUse(u8),
    /// The file of this slot is there, and could not be opened for this reason.
    NotOpened(u8, Reason),
    /// What stands in the place of this slot's file is neither absent nor a regular file.
    NotRegular(u8),
    /// The file of this slot could not be synced when it was opened, for want of this.
    NotSafe(u8, Shortage),
    /// This slot, after those of the set that was to be made, has a superblock of the same id.
    OtherSet(u8),
    /// The file of this slot is not there, and is needed.
    Absent(u8),
    /// A superblock of the set of this id is there, where no set may be.
    SetThere([u8; 16]),
    /// The folder, or one to which a link in it leads, could not be synced.
    NotSynced,
    /// The command was refused.
    Refused(Refusal),
}

impl From<Refusal> for FolderFault {
    ghost use Rattle.std.specs.Prelude.{◌≡◌};
    ghost use Rattle.device_files.specs.declared.FolderFault.TheVariants.{Refused};

    ghost from_gives = { λ refusal fault. fault ≡ Refused refusal };

    fn from(refusal: Refusal) -> FolderFault {
        FolderFault::Refused(refusal)
    }
}

impl From<AllocError> for FolderFault {
    ghost use Rattle.std.specs.Prelude.{◌≡◌};
    ghost use Rattle.device_files.specs.declared.FolderFault.TheVariants.{Refused};
    ghost use Rattle.sector_model.specs.declared.refusal.Refusal.TheVariants.{Memory};

    ghost from_gives = { λ _ fault. fault ≡ Refused Memory };

    fn from(_: AllocError) -> FolderFault {
        FolderFault::Refused(Refusal::Memory)
    }
}

/// The exit status of what was done over the files of a folder: 0, with nothing written, or 1, with the line of the
/// fault written to `err` or a beginning of it, since a fault of `err` has no place to be told. That line is one of
///
/// - `cannot make dev3.img` and `in use dev3.img`
/// - `cannot open dev3.img: permission denied`, or `operation not permitted`, `read-only file system`,
///   `too many open files`, `too many open files in system`
/// - `not a regular file: dev3.img`
/// - `cannot sync dev3.img: no space left on device`, or `disk quota exceeded`
/// - `another set with this id: dev5.img`
/// - `no file: dev2.img`
/// - `there is a set: ` and the id in 32 lower case hexadecimal digits
/// - `cannot sync FOLDER`
/// - a refusal, as `refused 11 NotUsable`
pub fn folder_status<E: Write>(done: Result<(), FolderFault>, folder: &str, err: &mut E) -> u8
    ensures status { result ≡ (if is_ok done then 0 else 1) }
    ensures quiet { OnOk done (err.new ≡ err.old) }
    ensures told { IfErr done (λ fault. IsFaultTold folder.now fault (E.contents err.old) (E.contents err.new)) }
{
    let Err(fault) = done else {
        return 0;
    };
    let _ = write_fault(err, folder, fault);
    1
}

// Writes the line of a fault.
fn write_fault<E: Write>(err: &mut E, folder: &str, fault: FolderFault) -> Result<(), Refusal>
    ensures { WritesText (E.contents err.old) (E.contents err.new) (fault_line folder.now fault) result }
{
    match fault {
        FolderFault::NoFile(slot) => write_slot_line(err, b"cannot make ", slot, b""),
        FolderFault::InUse(slot) => write_slot_line(err, b"in use ", slot, b""),
        FolderFault::NotOpened(slot, reason) => {
            write_slot_line(err, b"cannot open ", slot, words_of(reason))
        }
        FolderFault::NotRegular(slot) => write_slot_line(err, b"not a regular file: ", slot, b""),
        FolderFault::NotSafe(slot, shortage) => {
            write_slot_line(err, b"cannot sync ", slot, words_of_shortage(shortage))
        }
        FolderFault::OtherSet(slot) => {
            write_slot_line(err, b"another set with this id: ", slot, b"")
        }
        FolderFault::Absent(slot) => write_slot_line(err, b"no file: ", slot, b""),
        FolderFault::SetThere(id) => write_set_there(err, &id),
        FolderFault::NotSynced => write_unsynced(err, folder),
        FolderFault::Refused(refusal) => write_reply(err, &Answer::Refused(refusal)),
    }
}

// What stands after the name of a file that could not be opened.
fn words_of(reason: Reason) -> &'static [u8]
    ensures words { result.now ≡ words_for reason }
    ensures most { length result.now ≤ 31 }
{
    match reason {
        Reason::Permission => b": permission denied",
        Reason::NotPermitted => b": operation not permitted",
        Reason::ReadOnly => b": read-only file system",
        Reason::TooManyFiles => b": too many open files",
        Reason::TooManyFilesInSystem => b": too many open files in system",
    }
}

// What stands after the name of a file that could not be synced.
fn words_of_shortage(shortage: Shortage) -> &'static [u8]
    ensures words { result.now ≡ shortage_words shortage }
    ensures most { length result.now ≤ 31 }
{
    match shortage {
        Shortage::Space => b": no space left on device",
        Shortage::Quota => b": disk quota exceeded",
    }
}

// Writes `there is a set: `, the digits of an id and a newline.
fn write_set_there<E: Write>(err: &mut E, id: &[u8; 16]) -> Result<(), Refusal>
    ensures { WritesText (E.contents err.old) (E.contents err.new) (set_there_line id.now) result }
{
    write_text(err, b"there is a set: ")?;
    write_text(err, &id_line(id))
}

// The digits of an id and a newline.
fn id_line(id: &[u8; 16]) -> [u8; 33]
    ensures { result ≡ encode_lower id.now ++ 10 ∷ [] }
{
    let mut line = [b'\n'; 33];
    let _ = hex::encode_to_slice(id, &mut line[..32]);
    line
}

// Writes `cannot sync FOLDER` and a newline.
fn write_unsynced<E: Write>(err: &mut E, folder: &str) -> Result<(), Refusal>
    ensures { WritesText (E.contents err.old) (E.contents err.new) (unsynced_line folder.now) result }
{
    write_text(err, b"cannot sync ")?;
    write_text(err, folder.as_bytes())?;
    write_text(err, b"\n")
}

/// The least bytes that the file of a slot has in a set of this geometry: those of a member's device for a slot below
/// the number of members, and those of a journal's for any other. It is a multiple of 512.
pub fn bytes_of(geometry: &Geometry, slot: u8) -> u64
    ensures { result ≡ 512 * least_sectors geometry.now slot }
{
    SECTOR_BYTES * u64::from(least_of(geometry, slot))
}

// The path of the file in a slot. `AllocError` where an allocation was refused.
pub(crate) fn path_of(alloc: Global, folder: &str, slot: u8) -> Result<String, AllocError>
    ensures { IfOk result (λ path. string_bytes path ≡ slot_path folder.now slot) }
{
    format!(in alloc; "{folder}/dev{slot}.img")
}

#[cfg(test)]
mod testing;
#[cfg(test)]
mod tests;
