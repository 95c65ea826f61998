//! What is asked of the system about paths: each call is one of the system's.
ghost use Rattle.std.specs.Prelude.{Bool, List, Result, ℕ};
ghost use Rattle.std.specs.declared.io.Error.{Error};
ghost use Rattle.device_files.specs.declared.paths.Place.{Place};

use super::SystemFolders;
use std::fs::{self, Metadata, OpenFile, OpenOptions};
use std::io;
use std::os::unix::fs::MetadataExt;
use std::rt::Files;

/// Where a file lies: two paths lead to one file where these are the same.
#[derive(Clone, Copy, PartialEq, Eq)]
pub(super) struct Place {
    /// The number of the device.
    pub device: u64,
    /// The number of the file on it.
    pub inode: u64,
}

/// Paths at which files are opened, created and looked for. Of the system's paths nothing is known.
pub(super) trait Paths {
    /// A file that is open.
    type Open: Drop;

    /// What the opening of the file at a path came to.
    ghost opening: { Self → (path : List ℕ) → Result Self.Open Error → Type 0 };

    /// What the creating of a file at a path came to, or its opening where it was there.
    ghost creating: { Self → (path : List ℕ) → Result Self.Open Error → Type 0 };

    /// What looking for the file to which a path leads came to.
    ghost leading: { Self → (path : List ℕ) → Result Place Error → Type 0 };

    /// What looking where an open file lies came to.
    ghost lying: { Self.Open → Result Place Error → Type 0 };

    /// What looking whether an open file is known to be no regular one came to.
    ghost other: { Self.Open → Bool → Type 0 };

    /// What looking whether a path is known to lead to no regular file came to.
    ghost leading_other: { Self → (path : List ℕ) → Bool → Type 0 };

    /// Opens the file at a path for reading and writing. None is created or cut.
    fn open_there(&self, path: &str) -> io::Result<Self::Open>
        ensures { opening self.now path.now result };

    /// Creates a file where it is absent, and opens it for reading and writing. None is cut.
    fn create_there(&self, path: &str) -> io::Result<Self::Open>
        ensures { creating self.now path.now result };

    /// Where the file lies to which a path leads.
    fn place_at(&self, path: &str) -> io::Result<Place>
        ensures { leading self.now path.now result };

    /// Where an open file lies.
    fn place_of(&self, file: &Self::Open) -> io::Result<Place>
        ensures { lying file.now result };

    /// Whether an open file is known to be no regular one, but a device, a pipe or the like.
    fn is_other(&self, file: &Self::Open) -> bool
        ensures { other file.now result };

    /// Whether a path is known to lead to what is no regular file: a folder, a device, or a pipe, whose opening would
    /// wait for a writer.
    fn leads_to_other(&self, path: &str) -> bool
        ensures { leading_other self.now path.now result };
}

impl<S: Files> Paths for SystemFolders<'_, S> {
    ghost use Rattle.std.specs.Prelude.{⊤};

    type Open = S::File;

    ghost opening = { λ _ _ _. ⊤ };

    ghost creating = { λ _ _ _. ⊤ };

    ghost leading = { λ _ _ _. ⊤ };

    ghost lying = { λ _ _. ⊤ };

    ghost other = { λ _ _. ⊤ };

    ghost leading_other = { λ _ _ _. ⊤ };

    fn open_there(&self, path: &str) -> io::Result<S::File> {
        OpenOptions::new()
            .read(true)
            .write(true)
            .open(self.rt, path)
    }

    fn create_there(&self, path: &str) -> io::Result<S::File> {
        OpenOptions::new()
            .read(true)
            .write(true)
            .create(true)
            .open(self.rt, path)
    }

    fn place_at(&self, path: &str) -> io::Result<Place> {
        Ok(place_in(&fs::metadata(self.rt, path)?))
    }

    fn place_of(&self, file: &S::File) -> io::Result<Place> {
        Ok(place_in(&file.metadata()?))
    }

    fn is_other(&self, file: &S::File) -> bool {
        match file.metadata() {
            Ok(found) => !found.is_file(),
            Err(_) => false,
        }
    }

    fn leads_to_other(&self, path: &str) -> bool {
        match fs::metadata(self.rt, path) {
            Ok(found) => !found.is_file(),
            Err(_) => false,
        }
    }
}

// The place that the system tells of a file.
fn place_in(metadata: &Metadata) -> Place {
    Place {
        device: metadata.dev(),
        inode: metadata.ino(),
    }
}
