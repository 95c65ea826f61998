//! Device files that are open, and locked against other programs, and what of them is safe.
ghost use Rattle.std.specs.Prelude.{◌≡◌, IfSome, IsNone, OnOk, false, true, vec_len};

use super::{Reason, SLOTS};
use std::fs::{File, TryLockError};
use std::io;

/// A file that can be locked against other programs, and made safe.
pub trait Lock: 'static {
    /// The file is locked to whoever opened it, until it is closed, or lies on a file system without locks.
    ghost is_ours: { Self → Type 0 };

    /// Another open file has the lock of the file.
    ghost is_theirs: { Self → Type 0 };

    /// What the file holds, and how long it is, is safe: a power cut leaves it as it is.
    ghost is_safe: { Self → Type 0 };

    /// Locks the file without waiting. `false` where another open file has the lock.
    fn lock(&mut self) -> bool
        ensures ours { result ≡ true → is_ours self.new }
        ensures theirs { result ≡ false → is_theirs self.old };

    /// Makes safe what the file holds, and how long it is. The error is that of the system, and of what is safe nothing
    /// is known then.
    fn sync_held(&mut self) -> io::Result<()>
        ensures safe { OnOk result (is_safe self.new) }
        ensures ours { ∥ is_ours self.old ∥₁ → ∥ is_ours self.new ∥₁ };
}

impl Lock for File {
    ghost use Rattle.std.specs.Prelude.{⊤};

    ghost is_ours = { λ _. ⊤ };

    ghost is_theirs = { λ _. ⊤ };

    ghost is_safe = { λ _. ⊤ };

    fn lock(&mut self) -> bool {
        !matches!(self.try_lock(), Err(TryLockError::WouldBlock))
    }

    fn sync_held(&mut self) -> io::Result<()> {
        self.sync_all()
    }
}

/// A file of the system that is open, and locked to whoever opened it.
#[derive(Drop)]
pub struct Locked<F: Lock> {
    /// The file. Its lock is given up when it is closed.
    pub file: F,
    /// It was synced after it was locked, and was not lengthened or cut since.
    pub(super) is_synced: bool,
    ghost ours: { ∥ F.is_ours file ∥₁ },
    ghost safe: { is_synced ≡ true → ∥ F.is_safe file ∥₁ },
}

impl<F: Lock + Drop> Locked<F> {
    /// Locks a file, without waiting; `None` where another open file has the lock. It is not synced.
    pub fn over(file: F) -> Option<Locked<F>>
        ensures ours { IfSome result (λ locked. F.is_ours locked.file) }
        ensures theirs { IsNone result → F.is_theirs file }
    {
        let mut file = file;
        if file.lock() {
            Some(Locked {
                file,
                is_synced: false,
            })
        } else {
            None
        }
    }
}

/// What a device file was before a command made it longer.
#[derive(Clone, Copy, PartialEq, Eq)]
pub enum Before {
    /// The command did nothing to it, or emptied it.
    Same,
    /// It was not there.
    Absent,
    /// It had so many bytes, all of which it still has.
    Shorter(u64),
}

/// The files of a folder's ten slots, and what each was before a command made it longer.
#[derive(Drop)]
pub struct DeviceFiles<F: Drop> {
    /// The file of each slot, where its device is there.
    pub files: Vec<Option<F>>,
    // What each was.
    pub(super) before: [Before; SLOTS],
    /// Whether the sync of a slot's file failed when it was opened, so that it is used no more.
    pub unsynced: [bool; SLOTS],
    /// Why the file of a slot, which is there, could not be opened.
    pub barred: [Option<Reason>; SLOTS],
    ghost ten: { vec_len files ≡ 10 },
}

impl<F: Drop> DeviceFiles<F> {
    /// The files of the slots, of which there are ten, and what each was before.
    pub fn into_parts(self) -> (Vec<Option<F>>, UndoLog)
        ensures files { result.0 ≡ self.files }
        ensures log { result.1.before ≡ self.before }
    {
        let DeviceFiles { files, before, .. } = self;
        (files, UndoLog { before })
    }
}

/// What each file of a folder's slots was before a command made it longer. There is one, which `undo` consumes: who
/// still has it has taken nothing back.
#[derive(Drop)]
pub struct UndoLog {
    pub(super) before: [Before; SLOTS],
}
