//! The file of a slot is opened anew, over files in memory.
ghost use Rattle.std.specs.Prelude.{◌≡◌, length};

use super::{Bytes, Fault, ten_files};
use crate::testing::{WHOLE, same};
use crate::{Before, CreateFault, OpenFault, SLOTS, SlotFiles, reopen_slot};
use std::alloc::{AllocError, Global};
use std::io::{self, ErrorKind};

// A disk with files of one byte for slots 2 and 5, of which that for slot 5 can't be synced; that for slot 3 is busy.
#[derive(Drop)]
struct Disk {
    alloc: Global,
}

// A file of one byte, of whose calls the one of this number fails, where they are counted from 1; 0 is none.
fn new_file(alloc: Global, left: u64) -> Result<Bytes, AllocError> {
    let kind = ErrorKind::Other;
    Ok(Bytes {
        bytes: Vec::from_slice(alloc, &[9])?,
        most: WHOLE,
        fault: Fault { left, kind },
        is_synced: false,
    })
}

impl SlotFiles for Disk {
    ghost use Rattle.std.specs.Prelude.{⊤};

    type File = Bytes;

    ghost opens = { λ _ _ _. ⊤ };

    ghost creates = { λ _ _ _. ⊤ };

    ghost removes = { λ _ _ _. ⊤ };

    fn open(&self, path: &str) -> Result<Option<Bytes>, OpenFault> {
        if path == "a/dev2.img" {
            return Ok(new_file(self.alloc, 0).ok());
        }
        if path == "a/dev5.img" {
            return Ok(new_file(self.alloc, 1).ok());
        }
        if path == "a/dev3.img" {
            return Err(OpenFault::Busy);
        }
        Ok(None)
    }

    fn create(&self, _path: &str) -> Result<(Bytes, Before), CreateFault> {
        Err(CreateFault::Failed)
    }

    fn remove(&self, _path: &str) -> io::Result<()> {
        Ok(())
    }
}

// The slot whose file is opened anew, the fault of the first sync of slot 9's, and how many bytes each file has then,
// where it is there: two of each that was there before, and one of the file that was opened.
static REOPENED: &[(u8, Option<ErrorKind>, [usize; SLOTS])] = &[
    (2, None, [2, 2, 1, 2, 2, 2, 2, 2, 2, 2]),
    (3, None, [2, 2, 2, 0, 2, 2, 2, 2, 2, 2]),
    (4, None, [2, 2, 2, 2, 0, 2, 2, 2, 2, 2]),
    (5, None, [2, 2, 2, 2, 2, 0, 2, 2, 2, 2]),
    (9, None, [2, 2, 2, 2, 2, 2, 2, 2, 2, 0]),
    (10, None, [2, 2, 2, 2, 2, 2, 2, 2, 2, 2]),
    (
        2,
        Some(ErrorKind::Interrupted),
        [2, 2, 1, 2, 2, 2, 2, 2, 2, 2],
    ),
    (2, Some(ErrorKind::Other), [2, 2, 1, 2, 2, 2, 2, 2, 2, 0]),
];

// How many bytes a file has, where it is there.
fn length_of(file: &Option<Bytes>) -> usize {
    match file {
        Some(file) => file.bytes.len(),
        None => 0,
    }
}

// A file that is there was synced.
fn is_safe(file: &Option<Bytes>) -> bool {
    match file {
        Some(file) => file.is_synced,
        None => true,
    }
}

#[test]
fn a_file_is_opened_anew(rt: HostRuntime) {
    let disk = Disk { alloc: rt.alloc() };
    for (slot, fault, lengths) in REOPENED {
        let mut files = ten_files(&rt, *fault).files;
        assert!(&rt; files.len() == SLOTS);
        let done = reopen_slot(rt.alloc(), &disk, "a", *slot, &mut files);
        same(&rt, done, Ok(()));
        same(&rt, files.iter().all(is_safe), true);
        for (file, length) in files.iter().zip(lengths) {
            same(&rt, (*slot, length_of(file)), (*slot, *length));
        }
    }
}
