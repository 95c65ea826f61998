//! Files in memory, which tell what they hold, as those of a set and of a replacement are made; and the lines of
//! faults.
ghost use Rattle.std.specs.Prelude.{◌≡◌, true};

mod reopening;
mod superblocks;
mod system_files;

use super::growing::{Growing, lengthen, renew};
use super::opening::make_safe;
use super::slot_files::before_of;
use super::{Before, DeviceFiles, FolderFault, Reason, SLOTS, Shortage, folder_status};
use crate::testing::{Full, WHOLE, same};
use sector_model::Refusal;
use std::io::{self, ErrorKind};
use std::process::Abort;

// Lets so many calls pass, and then fails one.
#[derive(Clone, Copy, Drop)]
struct Fault {
    left: u64,
    kind: ErrorKind,
}

impl Fault {
    // Counts a call, which may be the one that fails.
    fn pass(&mut self) -> io::Result<()> {
        let left = self.left;
        self.left = left.saturating_sub(1);
        if left == 1 {
            return Err(self.kind.into());
        }
        Ok(())
    }
}

// A file that takes at most so many bytes a call, and of whose calls that change or sync it one fails.
#[derive(Drop)]
struct Bytes {
    bytes: Vec<u8>,
    most: usize,
    fault: Fault,
    is_synced: bool,
}

impl Growing for Bytes {
    ghost use Rattle.std.specs.Prelude.{◌≡◌, true, ⊤};

    ghost tells = { true };

    ghost told = { λ file. file.bytes.items };

    ghost is_safe = { λ file. file.is_synced ≡ true };

    ghost is_locked = { λ _. ⊤ };

    ghost has_failed = { λ _. ⊤ };

    ghost sync_failed = { λ _ _. ⊤ };

    fn size(&self) -> io::Result<u64> {
        Ok(self.bytes.len() as u64)
    }

    fn append(&mut self, bytes: &[u8]) -> io::Result<usize> {
        self.fault.pass()?;
        let count = bytes.len().min(self.most);
        self.bytes.extend_from_slice(&bytes[..count])?;
        self.is_synced = false;
        Ok(count)
    }

    fn stretch(&mut self, bytes: u64) -> io::Result<()> {
        self.fault.pass()?;
        if self.bytes.len() < bytes as usize {
            self.bytes.resize(bytes as usize, 0)?;
            self.is_synced = false;
        }
        Ok(())
    }

    fn cut(&mut self, bytes: u64) -> io::Result<()> {
        self.fault.pass()?;
        self.bytes.truncate(bytes as usize);
        self.is_synced = false;
        Ok(())
    }

    fn sync(&mut self) -> io::Result<()> {
        self.fault.pass()?;
        self.is_synced = true;
        Ok(())
    }
}

// A file of two bytes, of whose calls the one of this number fails, where they are counted from 1; 0 is none.
fn file_of(rt: &(impl Abort + AllocGlobal), most: usize, left: u64, kind: ErrorKind) -> Bytes {
    Bytes {
        bytes: vec![in rt.alloc(); 7, 8].expect(rt, "memory"),
        most,
        fault: Fault { left, kind },
        is_synced: false,
    }
}

// What a file of two bytes holds once it is lengthened, and once it is renewed.
static MADE: &[(u64, &[u8], &[u8])] = &[
    (0, &[7, 8], &[7, 8]),
    (1, &[7, 8], &[7, 8]),
    (2, &[7, 8], &[7, 8]),
    (3, &[7, 8, 0], &[0, 0, 0]),
    (6, &[7, 8, 0, 0, 0, 0], &[0, 0, 0, 0, 0, 0]),
];

#[test]
fn a_file_that_is_too_short(rt: HostRuntime) {
    for (bytes, longer, newer) in MADE {
        for most in [1, 3, WHOLE] {
            for reserve in [true, false] {
                let mut file = file_of(&rt, most, 0, ErrorKind::Other);
                same(&rt, lengthen(&mut file, *bytes, reserve).is_ok(), true);
                let found = (*bytes, most, file.is_synced, file.bytes.as_slice());
                same(&rt, found, (*bytes, most, true, *longer));
            }
            let mut file = file_of(&rt, most, 0, ErrorKind::Other);
            same(&rt, renew(&mut file, *bytes).is_ok(), true);
            let found = (*bytes, most, file.is_synced, file.bytes.as_slice());
            same(&rt, found, (*bytes, most, true, *newer));
        }
    }
}

// What a file of two bytes that gets five holds where the call of this number fails: of those that lengthen it, three
// append a byte and one syncs it.
static LENGTHENED: &[(u64, bool, &[u8])] = &[
    (1, false, &[7, 8]),
    (2, false, &[7, 8, 0]),
    (3, false, &[7, 8, 0, 0]),
    (4, false, &[7, 8, 0, 0, 0]),
    (5, true, &[7, 8, 0, 0, 0]),
];

#[test]
fn no_byte_is_lost_where_a_file_cannot_be_lengthened(rt: HostRuntime) {
    for (call, is_done, bytes) in LENGTHENED {
        let mut file = file_of(&rt, 1, *call, ErrorKind::StorageFull);
        let kind = lengthen(&mut file, 5, true).err().map(|error| error.kind());
        let fault = if *is_done {
            None
        } else {
            Some(ErrorKind::StorageFull)
        };
        let found = (*call, kind, file.is_synced, file.bytes.as_slice());
        same(&rt, found, (*call, fault, *is_done, *bytes));
    }
}

// The same of one whose length is set by one call, and that another one syncs.
static STRETCHED: &[(u64, bool, &[u8])] = &[
    (1, false, &[7, 8]),
    (2, false, &[7, 8, 0, 0, 0]),
    (3, true, &[7, 8, 0, 0, 0]),
];

#[test]
fn a_file_whose_length_cannot_be_set(rt: HostRuntime) {
    for (call, is_done, bytes) in STRETCHED {
        let mut file = file_of(&rt, 1, *call, ErrorKind::StorageFull);
        same(&rt, lengthen(&mut file, 5, false).is_ok(), *is_done);
        let found = (*call, file.is_synced, file.bytes.as_slice());
        same(&rt, found, (*call, *is_done, *bytes));
    }
}

// The same of one that is renewed: one call empties it, five append a byte, and one syncs it.
static RENEWED: &[(u64, bool, &[u8])] = &[
    (1, false, &[7, 8]),
    (2, false, &[]),
    (3, false, &[0]),
    (6, false, &[0, 0, 0, 0]),
    (7, false, &[0, 0, 0, 0, 0]),
    (8, true, &[0, 0, 0, 0, 0]),
];

#[test]
fn a_file_that_cannot_be_renewed(rt: HostRuntime) {
    for (call, is_done, bytes) in RENEWED {
        let mut file = file_of(&rt, 1, *call, ErrorKind::StorageFull);
        same(&rt, renew(&mut file, 5).is_ok(), *is_done);
        let found = (*call, file.is_synced, file.bytes.as_slice());
        same(&rt, found, (*call, *is_done, *bytes));
    }
}

#[test]
fn a_call_that_is_interrupted(rt: HostRuntime) {
    for call in [1, 2, 3] {
        let mut file = file_of(&rt, 1, call, ErrorKind::Interrupted);
        same(&rt, lengthen(&mut file, 5, true).is_ok(), true);
        let found = (call, file.is_synced, file.bytes.as_slice());
        same(&rt, found, (call, true, &[7, 8, 0, 0, 0]));
    }
}

#[test]
fn a_file_that_takes_no_byte(rt: HostRuntime) {
    let mut file = file_of(&rt, 0, 0, ErrorKind::Other);
    let kind = lengthen(&mut file, 3, true).err().map(|error| error.kind());
    same(&rt, kind, Some(ErrorKind::WriteZero));
    same(&rt, file.bytes.as_slice(), &[7, 8]);
    same(&rt, lengthen(&mut file, 2, true).is_ok(), true);
}

// So many bytes are appended at once.
const PART: usize = 65_536;

// Two parts and one byte are appended by three calls, and a fourth one syncs the file.
#[test]
fn a_file_that_gets_many_bytes(rt: HostRuntime) {
    for (call, length) in [(3, 2 * PART + 2), (4, 2 * PART + 3), (5, 2 * PART + 3)] {
        let mut file = file_of(&rt, WHOLE, call, ErrorKind::StorageFull);
        let is_done = lengthen(&mut file, 2 * PART as u64 + 3, true).is_ok();
        same(&rt, (call, is_done), (call, call == 5));
        same(&rt, (call, file.bytes.len()), (call, length));
        let zeros = file.bytes.iter().filter(|byte| **byte == 0).count();
        same(&rt, zeros, length - 2);
    }
}

// Ten files, of which that of slot 9 answers its first sync with this fault, if with any.
fn ten_files(rt: &(impl Abort + AllocGlobal), fault: Option<ErrorKind>) -> DeviceFiles<Bytes> {
    let mut files = Vec::new(rt.alloc());
    for slot in 0..SLOTS {
        let left = if slot == 9 && fault.is_some() { 1 } else { 0 };
        let kind = fault.unwrap_or(ErrorKind::Other);
        files
            .push(Some(file_of(rt, WHOLE, left, kind)))
            .expect(rt, "memory");
    }
    assert!(rt; files.len() == SLOTS);
    DeviceFiles {
        files,
        before: [Before::Same; SLOTS],
        unsynced: [false; SLOTS],
        barred: [None; SLOTS],
    }
}

// How many of the files are there and were synced, and whether the last one is marked.
fn synced(files: &DeviceFiles<Bytes>) -> (usize, bool) {
    let there = files.files.iter().flatten();
    (
        there.filter(|file| file.is_synced).count(),
        files.unsynced[9],
    )
}

// All ten files are synced. One whose sync fails is used no more; a sync that is interrupted is made again.
#[test]
fn files_that_are_opened(rt: HostRuntime) {
    for (fault, found) in [
        (None, (10, false)),
        (Some(ErrorKind::Interrupted), (10, false)),
        (Some(ErrorKind::Other), (9, true)),
    ] {
        let mut files = ten_files(&rt, fault);
        same(&rt, make_safe(&mut files).is_ok(), true);
        same(&rt, synced(&files), found);
    }
}

// A file of two bytes was made by another program, also where its path led to none before; an empty one was created.
#[test]
fn a_file_that_another_program_made_meanwhile(rt: HostRuntime) {
    let mut file = file_of(&rt, WHOLE, 0, ErrorKind::Other);
    same(&rt, before_of(true, &file) == Before::Same, true);
    same(&rt, before_of(false, &file) == Before::Same, true);
    file.bytes.truncate(0);
    same(&rt, before_of(true, &file) == Before::Absent, true);
    same(&rt, before_of(false, &file) == Before::Same, true);
}

// The line of each fault over the folder `a/b`.
static LINES: &[(FolderFault, &str)] = &[
    (FolderFault::NoFile(3), "cannot make dev3.img\n"),
    (FolderFault::InUse(9), "in use dev9.img\n"),
    (
        FolderFault::NotOpened(3, Reason::Permission),
        "cannot open dev3.img: permission denied\n",
    ),
    (
        FolderFault::NotOpened(0, Reason::NotPermitted),
        "cannot open dev0.img: operation not permitted\n",
    ),
    (
        FolderFault::NotOpened(4, Reason::ReadOnly),
        "cannot open dev4.img: read-only file system\n",
    ),
    (
        FolderFault::NotOpened(5, Reason::TooManyFiles),
        "cannot open dev5.img: too many open files\n",
    ),
    (
        FolderFault::NotOpened(6, Reason::TooManyFilesInSystem),
        "cannot open dev6.img: too many open files in system\n",
    ),
    (FolderFault::NotRegular(7), "not a regular file: dev7.img\n"),
    (
        FolderFault::NotSafe(3, Shortage::Space),
        "cannot sync dev3.img: no space left on device\n",
    ),
    (
        FolderFault::NotSafe(8, Shortage::Quota),
        "cannot sync dev8.img: disk quota exceeded\n",
    ),
    (
        FolderFault::OtherSet(5),
        "another set with this id: dev5.img\n",
    ),
    (FolderFault::Absent(2), "no file: dev2.img\n"),
    (
        FolderFault::SetThere(*b"0123456789\xab\xcd\xef\x00\xff\x10"),
        "there is a set: 30313233343536373839abcdef00ff10\n",
    ),
    (FolderFault::NotSynced, "cannot sync a/b\n"),
    (
        FolderFault::Refused(Refusal::NotUsable),
        "refused 11 NotUsable\n",
    ),
];

// The status, and what a writer that takes so many bytes got.
fn tells(
    rt: &(impl Abort + AllocGlobal),
    done: Result<(), FolderFault>,
    room: usize,
    (status, text): (u8, &str),
) {
    let mut err = Full {
        text: Vec::new(rt.alloc()),
        room,
    };
    let found = folder_status(done, "a/b", &mut err);
    same(rt, (found, err.text.as_slice()), (status, text.as_bytes()));
}

#[test]
fn lines_of_faults(rt: HostRuntime) {
    tells(&rt, Ok(()), WHOLE, (0, ""));
    for (fault, text) in LINES {
        tells(&rt, Err(*fault), WHOLE, (1, text));
        tells(&rt, Err(*fault), 0, (1, ""));
        tells(&rt, Err(*fault), 5, (1, &text[..5]));
    }
}
