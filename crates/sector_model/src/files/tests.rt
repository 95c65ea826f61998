mod recorded;
mod runs;

use super::FileBank;
use crate::testing::Step::{
    Flushes, NoFlush, NoRead, NoWrite, Now, Reads, ReadsRising, Shows, Writes, WritesRising,
};
use crate::testing::{Step, image_of, play, same};
use crate::{Bank, NoRecord, OwnedFile, SystemFile};
use std::cell::Cell;
use std::fs::{File, Metadata, OpenFile, OpenOptions};
use std::os::unix::fs::FileExt;
use std::path::PathBuf;
use std::process::Abort;
use std::rt::{Env, Files, Process};
use std::{env, fs, io, process};

/// What fake files do, and how often they were called. Calls are numbered from 0.
#[derive(Drop)]
struct Fake {
    /// The call of this number fails.
    fails: u32,
    /// The byte at place p is p mod 251, and each second call, from the first on, is interrupted. Other files are all
    /// zeros.
    is_slow: bool,
    /// A call takes at most this many bytes.
    most: usize,
    calls: Cell<u32>,
    syncs: Cell<u32>,
    /// How many bytes were written, and how many of them are not those of the file.
    bytes: Cell<u64>,
    wrong: Cell<u64>,
}

impl Fake {
    fn new(fails: u32, is_slow: bool) -> Fake {
        Fake {
            fails,
            is_slow,
            most: if is_slow { 100 } else { usize::MAX },
            calls: Cell::new(0),
            syncs: Cell::new(0),
            bytes: Cell::new(0),
            wrong: Cell::new(0),
        }
    }

    fn next(&self) -> io::Result<()> {
        let number = self.calls.get();
        self.calls.set(number.wrapping_add(1));
        if self.is_slow && number % 2 == 0 {
            return Err(io::ErrorKind::Interrupted.into());
        }
        if number == self.fails {
            return Err(io::ErrorKind::Other.into());
        }
        Ok(())
    }

    fn byte_at(&self, start: u64, k: usize) -> u8 {
        let place = start.wrapping_add(k as u64);
        if self.is_slow { (place % 251) as u8 } else { 0 }
    }
}

/// A file of 8 sectors that keeps no write.
#[derive(Drop)]
struct FakeFile<'a> {
    fake: &'a Fake,
}

impl FileExt for FakeFile<'_> {
    fn read_at(&self, buf: &mut [u8], offset: u64) -> io::Result<usize> {
        self.fake.next()?;
        let count = buf.len().min(self.fake.most);
        for k in 0..count {
            buf[k] = self.fake.byte_at(offset, k);
        }
        Ok(count)
    }

    fn write_at(&self, buf: &[u8], offset: u64) -> io::Result<usize> {
        self.fake.next()?;
        let count = buf.len().min(self.fake.most);
        for k in 0..count {
            if buf[k] != self.fake.byte_at(offset, k) {
                self.fake.wrong.set(self.fake.wrong.get().wrapping_add(1));
            }
        }
        self.fake
            .bytes
            .set(self.fake.bytes.get().wrapping_add(count as u64));
        Ok(count)
    }
}

impl OpenFile for FakeFile<'_> {
    fn metadata(&self) -> io::Result<Metadata> {
        Ok(Metadata::of_file(8 * 512))
    }

    fn set_len(&self, _size: u64) -> io::Result<()> {
        Ok(())
    }

    fn sync_all(&self) -> io::Result<()> {
        Ok(())
    }

    fn sync_data(&self) -> io::Result<()> {
        self.fake.syncs.set(self.fake.syncs.get().wrapping_add(1));
        self.fake.next()
    }
}

/// Ten devices of 8 sectors.
fn fake_bank<'a>(
    rt: &(impl Abort + AllocGlobal),
    fake: &'a Fake,
) -> FileBank<SystemFile<OwnedFile<FakeFile<'a>>>> {
    let mut files = Vec::new(rt.alloc());
    for _ in 0..10 {
        let file = FakeFile { fake };
        files
            .push(Some(SystemFile {
                of: OwnedFile { file },
            }))
            .expect(rt, "memory");
    }
    assert!(rt; files.len() == 10);
    FileBank::over(rt.alloc(), files, NoRecord).expect(rt, "memory")
}

/// Steps over fake files, and how many calls and how many syncs the files have seen after them.
type Row = (&'static [Step], u32, u32);

/// Takes the steps of rows, of which the first has this number in the test.
fn play_fake(rt: &(impl Abort + AllocGlobal), fake: &Fake, first: u64, rows: &[Row]) {
    let mut bank = fake_bank(rt, fake);
    let mut number = first;
    for (steps, calls, syncs) in rows {
        play(rt, &mut bank, number, steps);
        assert!(rt; fake.calls.get() == *calls, "calls after row {number}");
        assert!(rt; fake.syncs.get() == *syncs, "syncs after row {number}");
        number = number.wrapping_add(1);
    }
}

/// What device 3 does once a read of its file fails, once a write does that the one of the bank after it calls
/// for, once a write that its flush calls for does, and once the sync does.
const FAILED_READ: &[Step] = &[
    NoRead(3, 7),
    NoWrite(3, 7, 1),
    NoFlush(3),
    NoRead(3, 7),
    NoFlush(3),
];

const FAILED_WRITE: &[Step] = &[
    Reads(3, 7, 0),
    Writes(3, 7, 1),
    NoWrite(3, 5, 1),
    NoRead(3, 7),
    NoFlush(3),
];

const FAILED_FLUSH: &[Step] = &[
    Reads(3, 7, 0),
    Writes(3, 7, 1),
    NoFlush(3),
    NoRead(3, 7),
    NoFlush(3),
];

/// What the devices beside device 3 still do once it is down.
const OTHERS: &[Step] = &[
    Reads(2, 7, 0),
    Writes(2, 7, 1),
    Flushes(2),
    Shows(2, 8, false),
    Reads(4, 7, 0),
    Writes(4, 7, 1),
    Flushes(4),
    Shows(4, 8, false),
    Shows(3, 8, true),
    Now(11),
];

#[test]
fn a_fault_takes_one_device_down_for_good(rt: HostRuntime) {
    // The number of the call that fails, and the rows.
    const CASES: [(u32, [Row; 2]); 4] = [
        (0, [(FAILED_READ, 1, 0), (OTHERS, 7, 2)]),
        (1, [(FAILED_WRITE, 2, 0), (OTHERS, 8, 2)]),
        (1, [(FAILED_FLUSH, 2, 0), (OTHERS, 8, 2)]),
        (2, [(FAILED_FLUSH, 3, 1), (OTHERS, 9, 3)]),
    ];
    for case in 0..4usize {
        let (fails, rows) = &CASES[case];
        let fake = Fake::new(*fails, false);
        play_fake(&rt, &fake, 2 * case as u64, rows);
    }
}

#[test]
fn a_flush_syncs_what_was_written_once(rt: HostRuntime) {
    const ROWS: &[Row] = &[
        (&[Reads(6, 0, 0), Flushes(6)], 1, 0),
        (&[Writes(6, 0, 1), Writes(6, 1, 1), Flushes(5)], 1, 0),
        (&[Flushes(6), Flushes(6)], 3, 1),
        (&[Writes(6, 0, 2), Flushes(6)], 5, 2),
    ];
    play_fake(&rt, &Fake::new(u32::MAX, false), 0, ROWS)
}

#[test]
fn an_interrupted_or_short_call_is_no_fault(rt: HostRuntime) {
    // Six calls of at most 100 bytes each, and as many that are interrupted. What waits is written by the write that
    // does not follow.
    const ROWS: &[Row] = &[
        (&[ReadsRising(0, 7)], 12, 0),
        (&[WritesRising(0, 7)], 12, 0),
        (&[WritesRising(0, 5)], 24, 0),
    ];
    let fake = Fake::new(u32::MAX, true);
    play_fake(&rt, &fake, 0, ROWS);
    same(&rt, (fake.bytes.get(), fake.wrong.get()), (512, 0));
}

/// What is done at a path, or found there.
#[derive(Clone, Copy)]
enum Deed {
    /// A file is put there, of so many times the byte.
    Put(u8, usize),
    /// A folder is made there.
    Make,
    /// A bank of ten slots is opened over the files of the folder there, and takes these steps.
    Play(&'static [Step]),
    /// The same, but the file of device 0 is cut off after so many bytes before the steps.
    PlayCut(u64, &'static [Step]),
    /// The file there has so many bytes, all of them this one but in the sectors that are named, which are full of
    /// another.
    Holds(usize, u8, &'static [(usize, u8)]),
    /// Nothing is there.
    IsAbsent,
}

/// A new folder, for one test.
fn fresh_folder(
    rt: &(impl Files + Env + AllocGlobal + Abort),
    process: Process,
    test: &str,
) -> PathBuf {
    let id = process::id(process);
    let name = format!(in rt.alloc(); "sector_model_{test}_{id}").expect(rt, "memory");
    let folder = env::temp_dir(rt)
        .expect(rt, "the files")
        .join(rt.alloc(), name)
        .expect(rt, "the files");
    let _ = fs::remove_dir_all(rt, folder.as_str());
    fs::create_dir(rt, folder.as_str()).expect(rt, "the files");
    folder
}

/// Does these deeds in a new folder, each at the path with its name.
fn run(
    rt: &(impl Files<File = File> + Env + AllocGlobal + Abort),
    process: Process,
    test: &str,
    deeds: &[(&str, Deed)],
) {
    let folder = fresh_folder(rt, process, test);
    for (name, deed) in deeds {
        let path = folder.join(rt.alloc(), name).expect(rt, "memory");
        act(rt, path.as_str(), *deed);
    }
    fs::remove_dir_all(rt, folder.as_str()).expect(rt, "the files");
}

fn act(rt: &(impl Files<File = File> + AllocGlobal + Abort), path: &str, deed: Deed) {
    match deed {
        Deed::Put(byte, count) => fs::write(
            rt,
            path,
            vec![in rt.alloc(); byte; count].expect(rt, "memory"),
        )
        .expect(rt, "the files"),
        Deed::Make => fs::create_dir(rt, path).expect(rt, "the files"),
        Deed::Play(steps) => play_in(rt, path, None, steps),
        Deed::PlayCut(count, steps) => play_in(rt, path, Some(count), steps),
        Deed::Holds(count, byte, others) => check_file(rt, path, count, byte, others),
        Deed::IsAbsent => assert!(rt; !fs::exists(rt, path).expect(rt, "the files"), "{path}"),
    }
}

fn play_in(
    rt: &(impl Files<File = File> + AllocGlobal + Abort),
    folder: &str,
    cut: Option<u64>,
    steps: &[Step],
) {
    let mut bank = FileBank::open(rt, folder).expect(rt, "the files");
    assert!(rt; bank.devices() == 10, "{folder}");
    if let Some(count) = cut {
        cut_first(rt, folder, count);
    }
    play(rt, &mut bank, 0, steps);
}

fn cut_first(rt: &(impl Files<File = File> + AllocGlobal + Abort), folder: &str, count: u64) {
    let path = format!(in rt.alloc(); "{folder}/dev0.img").expect(rt, "memory");
    let file = OpenOptions::new()
        .write(true)
        .open(rt, path.as_str())
        .expect(rt, "the files");
    file.set_len(count).expect(rt, "the files");
}

fn byte_of(at: usize, byte: u8, others: &[(usize, u8)]) -> u8 {
    for (sector, other) in others {
        if at / 512 == *sector {
            return *other;
        }
    }
    byte
}

fn check_file(
    rt: &(impl Files + AllocGlobal + Abort),
    path: &str,
    count: usize,
    byte: u8,
    others: &[(usize, u8)],
) {
    let bytes = fs::read(rt, path).expect(rt, "the files");
    same(rt, bytes.len(), count);
    for at in 0..bytes.len() {
        assert!(rt; bytes[at] == byte_of(at, byte, others), "at {at}");
    }
}

#[test]
fn a_file_holds_what_was_written(rt: HostRuntime) {
    const STEPS: &[Step] = &[
        Shows(4, 264, false),
        Writes(4, 5, 0xa5),
        Writes(4, 263, 0x5a),
        Flushes(4),
        Reads(4, 5, 0xa5),
        Reads(4, 6, 0),
        Reads(4, 263, 0x5a),
        Now(6),
    ];
    const DEEDS: &[(&str, Deed)] = &[
        ("dev4.img", Deed::Put(0, 135_168)),
        ("", Deed::Play(STEPS)),
        (
            "dev4.img",
            Deed::Holds(135_168, 0, &[(5, 0xa5), (263, 0x5a)]),
        ),
    ];
    run(&rt, rt.process(), "holds", DEEDS)
}

#[test]
fn a_slot_has_the_whole_sectors_of_its_file(rt: HostRuntime) {
    const STEPS: &[Step] = &[
        Shows(0, 263, false),
        Shows(1, 0, false),
        Shows(2, 0, true),
        Shows(3, 0, true),
        Shows(4, 0, true),
        Shows(5, 0, true),
        Shows(6, 0, true),
        Shows(7, 0, true),
        Shows(8, 0, true),
        Shows(9, 2, false),
    ];
    const DEEDS: &[(&str, Deed)] = &[
        ("dev0.img", Deed::Put(0, 135_167)),
        ("dev1.img", Deed::Put(0, 511)),
        ("dev3.img", Deed::Make),
        ("dev9.img", Deed::Put(0, 1024)),
        ("", Deed::Play(STEPS)),
        ("dev2.img", Deed::IsAbsent),
    ];
    run(&rt, rt.process(), "sectors", DEEDS)
}

/// Ten slots without a device, whose calls count.
const WITHOUT_DEVICES: &[Step] = &[
    Shows(0, 0, true),
    NoRead(0, 0),
    NoWrite(0, 0, 1),
    NoFlush(0),
    Shows(1, 0, true),
    NoRead(1, 0),
    NoWrite(1, 0, 1),
    NoFlush(1),
    Shows(2, 0, true),
    NoRead(2, 0),
    NoWrite(2, 0, 1),
    NoFlush(2),
    Shows(3, 0, true),
    NoRead(3, 0),
    NoWrite(3, 0, 1),
    NoFlush(3),
    Shows(4, 0, true),
    NoRead(4, 0),
    NoWrite(4, 0, 1),
    NoFlush(4),
    Shows(5, 0, true),
    NoRead(5, 0),
    NoWrite(5, 0, 1),
    NoFlush(5),
    Shows(6, 0, true),
    NoRead(6, 0),
    NoWrite(6, 0, 1),
    NoFlush(6),
    Shows(7, 0, true),
    NoRead(7, 0),
    NoWrite(7, 0, 1),
    NoFlush(7),
    Shows(8, 0, true),
    NoRead(8, 0),
    NoWrite(8, 0, 1),
    NoFlush(8),
    Shows(9, 0, true),
    NoRead(9, 0),
    NoWrite(9, 0, 1),
    NoFlush(9),
    Now(30),
];

#[test]
fn a_folder_without_files_has_ten_slots_that_are_down(rt: HostRuntime) {
    run(
        &rt,
        rt.process(),
        "empty",
        &[
            ("", Deed::Play(WITHOUT_DEVICES)),
            ("missing", Deed::Play(WITHOUT_DEVICES)),
        ],
    )
}

#[test]
fn a_file_that_was_cut_takes_its_device_down(rt: HostRuntime) {
    const STEPS: &[Step] = &[
        Reads(0, 0, 0),
        NoRead(0, 1),
        NoRead(0, 0),
        Shows(0, 8, true),
        Reads(1, 7, 0),
    ];
    const DEEDS: &[(&str, Deed)] = &[
        ("dev0.img", Deed::Put(0, 4096)),
        ("dev1.img", Deed::Put(0, 4096)),
        ("", Deed::PlayCut(1000, STEPS)),
    ];
    run(&rt, rt.process(), "cut", DEEDS)
}

#[test]
fn opening_cuts_no_file_and_creates_none(rt: HostRuntime) {
    const DEEDS: &[(&str, Deed)] = &[
        ("dev3.img", Deed::Put(0xc3, 1300)),
        ("", Deed::Play(&[Shows(3, 2, false)])),
        ("dev3.img", Deed::Holds(1300, 0xc3, &[])),
        ("dev0.img", Deed::IsAbsent),
        ("dev1.img", Deed::IsAbsent),
        ("dev2.img", Deed::IsAbsent),
        ("dev4.img", Deed::IsAbsent),
        ("dev5.img", Deed::IsAbsent),
        ("dev6.img", Deed::IsAbsent),
        ("dev7.img", Deed::IsAbsent),
        ("dev8.img", Deed::IsAbsent),
        ("dev9.img", Deed::IsAbsent),
        ("missing", Deed::Play(&[])),
        ("missing", Deed::IsAbsent),
    ];
    run(&rt, rt.process(), "opening", DEEDS)
}

#[test]
fn files_in_memory_hold_an_image(rt: HostRuntime) {
    const STEPS: &[Step] = &[
        Shows(0, 2, false),
        Shows(1, 0, true),
        Reads(0, 1, 2),
        Writes(0, 1, 9),
        Flushes(0),
        Reads(0, 0, 1),
        Reads(0, 1, 9),
        NoFlush(0),
        Shows(0, 2, true),
        Now(6),
    ];
    let image = image_of(&rt, &[&[1, 2], &[], &[], &[], &[], &[]]);
    let mut bank = FileBank::in_memory(rt.alloc(), image, 2).expect(&rt, "memory");
    play(&rt, &mut bank, 0, STEPS);
}
