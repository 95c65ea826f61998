//! Superblocks in the first two sectors of files: they are found, and cleared, also where calls of a file fail.
ghost use Rattle.std.specs.Prelude.{◌≡◌, ◌≤◌, vec_len};

use crate::growing::Growing;
use crate::testing::{WHOLE, same};
use crate::{
    BankFile, Before, DeviceFiles, FolderFault, HeldFile, SLOTS, clear_places, find_set,
    shortest_of,
};
use sector_model::{NoRecord, Sector};
use std::alloc::{AllocError, Global};
use std::cell::Cell;
use std::io::{self, ErrorKind};

/// The superblock of a slot in generation 1 of the set whose id is all this byte: format 1, three members, chunk 8, 32
/// stripes, all slots in sync.
pub(crate) fn superblock_of(id: u8, role: u8) -> Sector {
    let mut sector = [0; 512];
    sector[..8].copy_from_slice(b"RAID5JV1");
    sector[8..24].fill(id);
    sector[24] = 1;
    sector[32] = 3;
    sector[33] = role;
    sector[34] = 8;
    sector[36] = 32;
    for slot in 0..5 {
        sector[40 + 16 * slot] = 1;
        sector[48 + 16 * slot] = 1;
    }
    sector[208] = 1;
    sector[504..].copy_from_slice(b"1VJ5DIAR");
    sector
}

// Two superblocks, one after the other.
fn two_superblocks(first: u8, second: u8) -> [u8; 1_024] {
    let mut bytes = [0; 1_024];
    bytes[..512].copy_from_slice(&superblock_of(first, 4));
    bytes[512..].copy_from_slice(&superblock_of(second, 0));
    bytes
}

// The file of a slot, where it has one. That of slot 4 has a superblock in sector 1, that of slot 6 in both, and more
// bytes; that of slot 1 ends in sector 1.
fn file_of(alloc: Global, slot: usize) -> Result<Option<HeldFile>, AllocError> {
    match slot {
        1 => Ok(Some(HeldFile::new(alloc, &[7; 600])?)),
        4 => {
            let mut bytes = [7; 1_024];
            bytes[512..].copy_from_slice(&superblock_of(0xa4, 3));
            Ok(Some(HeldFile::new(alloc, &bytes)?))
        }
        6 => {
            let mut bytes = [7; 1_100];
            bytes[..1_024].copy_from_slice(&two_superblocks(0xb6, 0xc6));
            Ok(Some(HeldFile::new(alloc, &bytes)?))
        }
        _ => Ok(None),
    }
}

// Ten files.
fn folder_of<F: Drop>(files: Vec<Option<F>>) -> DeviceFiles<F>
    requires { vec_len files ≡ 10 }
{
    DeviceFiles {
        files,
        before: [Before::Same; SLOTS],
        unsynced: [false; SLOTS],
        barred: [None; SLOTS],
    }
}

fn files_of(alloc: Global) -> Result<DeviceFiles<HeldFile>, AllocError> {
    let mut files = Vec::with_capacity(alloc, SLOTS)?;
    for slot in 0..SLOTS {
        files.push(file_of(alloc, slot)?)?;
    }
    Ok(folder_of(files))
}

// How many bytes the file of a slot has, how many of the first 1,024 are zero, and how many are 7 in all.
fn seen(files: &DeviceFiles<HeldFile>, slot: usize) -> (usize, usize, usize) {
    match files.files.get(slot) {
        Some(Some(file)) => (
            file.bytes.len(),
            file.bytes
                .iter()
                .take(1_024)
                .filter(|byte| **byte == 0)
                .count(),
            file.bytes.iter().filter(|byte| **byte == 7).count(),
        ),
        _ => (0, 0, 0),
    }
}

#[test]
fn a_set_is_found_until_it_is_cleared(rt: HostRuntime) {
    let mut files = files_of(rt.alloc()).expect(&rt, "memory");
    same(&rt, find_set(&files.files), Some([0xa4; 16]));
    same(&rt, clear_places(5, &mut files.files).is_ok(), true);
    same(&rt, find_set(&files.files), Some([0xa4; 16]));
    same(&rt, seen(&files, 6), (1_100, 1_024, 76));
    same(&rt, clear_places(2, &mut files.files).is_ok(), true);
    same(&rt, find_set(&files.files), None);
    same(&rt, seen(&files, 4), (1_024, 1_024, 0));
    same(&rt, seen(&files, 1), (600, 0, 600));
    same(&rt, clear_places(0, &mut files.files).is_ok(), true);
    same(&rt, seen(&files, 1), (600, 600, 0));
}

// A file of which each call takes or gives at most so many bytes, and of whose reads, writes and syncs the one of this
// number fails, where they are counted from 1; 0 is none.
#[derive(Drop)]
struct Failing {
    bytes: Vec<u8>,
    most: usize,
    left: Cell<u64>,
    kind: ErrorKind,
}

impl Failing {
    // Counts a call, which may be the one that fails.
    fn pass(&self) -> io::Result<()> {
        let left = self.left.get();
        self.left.set(left.saturating_sub(1));
        if left == 1 {
            return Err(self.kind.into());
        }
        Ok(())
    }
}

impl Growing for Failing {
    ghost use Rattle.std.specs.Prelude.{false, [], ⊤};

    ghost tells = { false };

    ghost told = { λ _. [] };

    ghost is_safe = { λ _. ⊤ };

    ghost is_locked = { λ _. ⊤ };

    ghost has_failed = { λ _. ⊤ };

    ghost sync_failed = { λ _ _. ⊤ };

    fn size(&self) -> io::Result<u64> {
        Ok(self.bytes.len() as u64)
    }

    fn append(&mut self, _bytes: &[u8]) -> io::Result<usize> {
        Ok(0)
    }

    fn stretch(&mut self, _bytes: u64) -> io::Result<()> {
        Ok(())
    }

    fn cut(&mut self, _bytes: u64) -> io::Result<()> {
        Ok(())
    }

    fn sync(&mut self) -> io::Result<()> {
        self.pass()
    }
}

impl BankFile for Failing {
    ghost use Rattle.std.specs.Prelude.{[]};

    type Record = NoRecord;

    ghost left = { λ _. [] };

    fn read_part(&self, place: u64, to: &mut [u8]) -> io::Result<usize> {
        self.pass()?;
        let start = (place as usize).min(self.bytes.len());
        let part = &self.bytes[start..];
        let count = part.len().min(to.len()).min(self.most);
        to[..count].copy_from_slice(&part[..count]);
        Ok(count)
    }

    fn write_part(&mut self, place: u64, from: &[u8]) -> io::Result<usize> {
        self.pass()?;
        let start = (place as usize).min(self.bytes.len());
        let part = &mut self.bytes[start..];
        let count = part.len().min(from.len()).min(self.most);
        part[..count].copy_from_slice(&from[..count]);
        Ok(count)
    }

    fn sync_written(&mut self) -> io::Result<()> {
        self.pass()
    }

    fn record(_alloc: Global, _files: &[Option<Self>]) -> Result<NoRecord, AllocError> {
        Ok(NoRecord)
    }
}

// A file with two superblocks, of whose calls this one fails.
fn file_that_fails(
    alloc: Global,
    most: usize,
    call: u64,
    kind: ErrorKind,
) -> Result<Failing, AllocError> {
    Ok(Failing {
        bytes: Vec::from_slice(alloc, &two_superblocks(0xa0, 0xc1))?,
        most,
        left: Cell::new(call),
        kind,
    })
}

// Which set is found where this call fails: the set in sector 0 where that is read, else the one in sector 1.
static FOUND: &[(usize, u64, ErrorKind, Option<u8>)] = &[
    (WHOLE, 0, ErrorKind::Other, Some(0xa0)),
    (100, 2, ErrorKind::Interrupted, Some(0xa0)),
    (WHOLE, 1, ErrorKind::Other, Some(0xc1)),
    (200, 3, ErrorKind::Other, Some(0xc1)),
    (0, 0, ErrorKind::Other, None),
];

#[test]
fn a_sector_that_cannot_be_read_is_passed_over(rt: HostRuntime) {
    for (most, call, kind, id) in FOUND {
        let file = file_that_fails(rt.alloc(), *most, *call, *kind).expect(&rt, "memory");
        let found = find_set(&[None, Some(file)]).map(|id| id[7]);
        same(&rt, (*most, *call, found), (*most, *call, *id));
    }
}

// What clearing comes to where this call of slot 3's file fails: two calls write, and a third one syncs it.
static CLEARED: &[(u64, ErrorKind, bool)] = &[
    (0, ErrorKind::Other, true),
    (2, ErrorKind::Interrupted, true),
    (3, ErrorKind::Interrupted, true),
    (1, ErrorKind::Other, false),
    (2, ErrorKind::Other, false),
    (3, ErrorKind::Other, false),
    (4, ErrorKind::Other, true),
];

#[test]
fn places_that_cannot_be_cleared(rt: HostRuntime) {
    for (call, kind, is_done) in CLEARED {
        let mut files = Vec::new(rt.alloc());
        for slot in 0..SLOTS {
            let call = if slot == 3 { *call } else { 0 };
            let file = file_that_fails(rt.alloc(), 600, call, *kind).expect(&rt, "memory");
            files.push(Some(file)).expect(&rt, "memory");
        }
        assert!(&rt; files.len() == SLOTS);
        let mut files = folder_of(files);
        let done = match clear_places(3, &mut files.files) {
            Ok(()) => Some(true),
            Err(FolderFault::NoFile(3)) => Some(false),
            Err(_) => None,
        };
        same(&rt, (*call, done), (*call, Some(*is_done)));
    }
}

// The length of the shortest of so many files, or the slot that has none.
fn shortest(files: &DeviceFiles<HeldFile>, slots: u8) -> Result<u64, u8>
    requires some { 1 ≤ slots }
    requires most { slots ≤ 10 }
{
    match shortest_of(&files.files, slots) {
        Ok(bytes) => Ok(bytes),
        Err(FolderFault::Absent(slot)) => Err(slot),
        Err(_) => Err(100),
    }
}

#[test]
fn the_shortest_file(rt: HostRuntime) {
    let mut files = Vec::new(rt.alloc());
    for length in [900, 600, 1_024, 500] {
        let bytes = [7; 1_024];
        let file = HeldFile::new(rt.alloc(), &bytes[..length.min(1_024)]).expect(&rt, "memory");
        files.push(Some(file)).expect(&rt, "memory");
    }
    for _ in 4..SLOTS {
        files.push(None).expect(&rt, "memory");
    }
    assert!(&rt; files.len() == SLOTS);
    let files = folder_of(files);
    same(&rt, shortest(&files, 1), Ok(900));
    same(&rt, shortest(&files, 3), Ok(600));
    same(&rt, shortest(&files, 4), Ok(500));
    same(&rt, shortest(&files, 6), Err(4));
}
