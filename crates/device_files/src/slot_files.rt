//! The files of slots are opened and created by their paths, and locked.
ghost use Rattle.std.specs.Prelude.{◌≡◌, ◌≢◌, IfOk, IfSome, IsTrue, List, Option, Result, length, true, ℕ};
ghost use Rattle.std.specs.declared.io.Error.{Error};
ghost use Rattle.device_files.specs.declared.locked.Before.{Before};
ghost use Rattle.device_files.specs.declared.slot_files.CreateFault.{CreateFault};
ghost use Rattle.device_files.specs.declared.slot_files.OpenFault.{OpenFault};

use super::growing::Growing;
use super::opening::{claim, is_absent, open_claimed};
use super::paths::Paths;
use super::{Before, Lock, Locked, Reason, SystemFolders};
use std::os::unix::fs::FileExt;
use std::rt::Files;
use std::{fs, io};

/// Why a file was not opened, though its device may be well.
#[derive(Clone, Copy, Drop)]
pub enum OpenFault {
    /// Another open file has its lock, or another file was found at its path once it was locked.
    Busy,
    /// It is there, and could not be opened for this reason.
    Barred(Reason),
    /// What is there is not a regular file.
    NotRegular,
}

/// Why a file was not created.
#[derive(Clone, Copy, Drop)]
pub enum CreateFault {
    /// Another open file has its lock, or another file was found at its path once it was locked.
    Busy,
    /// It could not be created, or opened.
    Failed,
}

/// A disk on which files are opened and created by their paths. Of the system's disks it is known that the files are
/// locked, and nothing else.
pub trait SlotFiles {
    /// A file that is open.
    type File: Growing + Drop;

    /// What the opening of the file at a path came to.
    ghost opens: { Self → (path : List ℕ) → Result (Option Self.File) OpenFault → Type 0 };

    /// What the creating of the file at a path came to, with what it was before.
    ghost creates: { Self → (path : List ℕ) → Result (Self.File × Before) CreateFault → Type 0 };

    /// What the removing of the file at a path came to; where the path is a link, of that to which it leads.
    ghost removes: { Self → (path : List ℕ) → Result (Unit {0}) Error → Type 0 };

    /// Opens a file for reading and writing, and locks it without waiting; none where the file is absent, a link leads
    /// nowhere, or the device has a fault of its own. No file is created or cut, and nothing is opened that is not a
    /// regular file.
    fn open(&self, path: &str) -> Result<Option<Self::File>, OpenFault>
        ensures opened { opens self.now path.now result }
        ensures locked { IfOk result (λ file. IfSome file Self.File.is_locked) };

    /// Creates a file where it is absent, opens it and locks it without waiting, and says whether it was absent.
    fn create(&self, path: &str) -> Result<(Self::File, Before), CreateFault>
        ensures created { creates self.now path.now result }
        ensures locked { IfOk result (λ made. Self.File.is_locked made.0) };

    /// Removes the file at a path; where the path is a link, the file to which that leads, and not the link. The error
    /// is that of the system.
    fn remove(&self, path: &str) -> io::Result<()>
        ensures { removes self.now path.now result };
}

impl<S> SlotFiles for SystemFolders<'_, S>
where
    S: Files + AllocGlobal,
    S::File: FileExt + Lock,
{
    ghost use Rattle.std.specs.Prelude.{⊤};

    type File = Locked<S::File>;

    ghost opens = { λ _ _ _. ⊤ };

    ghost creates = { λ _ _ _. ⊤ };

    ghost removes = { λ _ _ _. ⊤ };

    fn open(&self, path: &str) -> Result<Option<Locked<S::File>>, OpenFault> {
        open_claimed(self, path)
    }

    // A file that was there, and could not be opened before, is not this command's to remove.
    fn create(&self, path: &str) -> Result<(Locked<S::File>, Before), CreateFault> {
        let was_absent = is_absent(self, path);
        let Ok(file) = self.create_there(path) else {
            return Err(CreateFault::Failed);
        };
        match claim(self, path, file) {
            Ok(file) => {
                let before = before_of(was_absent, &file);
                Ok((file, before))
            }
            Err(OpenFault::Busy) => Err(CreateFault::Busy),
            Err(_) => Err(CreateFault::Failed),
        }
    }

    fn remove(&self, path: &str) -> io::Result<()> {
        let file = fs::canonicalize(self.rt, path)?;
        fs::remove_file(self.rt, &file)
    }
}

/// What a file was before it was locked: one whose path led to none was created, unless it has bytes. Then another
/// program made it meanwhile.
pub(super) fn before_of<G: Growing>(was_absent: bool, file: &G) -> Before
    ensures absent { result ≡ Before.Absent → was_absent ≡ true }
    ensures created { IsTrue G.tells → was_absent ≡ true → length (G.told file.now) ≡ 0 → result ≡ Before.Absent }
    ensures others { IsTrue G.tells → length (G.told file.now) ≢ 0 → result ≡ Before.Same }
{
    if was_absent && matches!(file.size(), Ok(0)) {
        Before::Absent
    } else {
        Before::Same
    }
}
