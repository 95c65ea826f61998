//! What a killed program left unsynced, and a power cut in the next one: device files that remember what was synced.
ghost use Rattle.device_files.specs.BankFiles.{AreAllSafe};

use crate::testing::folder::Step::Line;
use crate::testing::folder::{MAKE, RUN, SCRUB, Step, UNREAD, all_go, empty_folder, path_of};
use crate::testing::streams::{Full, Script, WHOLE};
use crate::testing::texts::{MADE, OK, SOUND};
use crate::testing::{ID, same, words_in};
use crate::tool::tool;
use device_files::{
    BankFile, Before, CreateFault, DeviceFiles, Lock, Locked, OpenFault, SlotFiles, SystemFolders,
    bank_on, open_folder,
};
use set_commands::{Meter, serve_on};
use std::cell::Cell;
use std::fs::{self, Metadata, OpenFile, OpenOptions};
use std::io::{self, ErrorKind};
use std::os::unix::fs::FileExt;
use std::path::PathBuf;
use std::process::Abort;
use std::rc::Rc;
use std::rt::Files;
use stripe_journal::Entry;

// A device file, and beside it a file that has what a power cut would leave of it.
#[derive(Drop)]
struct Remembering<F> {
    file: F,
    safe: F,
    // So many calls that change or sync a file are made before the program is killed, whatever file they are of.
    left: Rc<Cell<u64>>,
    // The sync of a start is made. Else it is only said to have been.
    is_made_safe: bool,
}

impl<F> Remembering<F> {
    // A call of a program that was not killed yet.
    fn live(&self) -> io::Result<()> {
        if self.left.get() == 0 {
            return Err(io::Error::from(ErrorKind::Other));
        }
        Ok(())
    }

    // The same, of a call that changes or syncs a file.
    fn pass(&self) -> io::Result<()> {
        self.live()?;
        self.left.set(self.left.get().saturating_sub(1));
        Ok(())
    }
}

// So many bytes are copied at once, and no file of these tests has more than so many parts of them.
const PART: usize = 8_192;

const PARTS: u64 = 64;

impl<F: OpenFile + FileExt> Remembering<F> {
    // What the file holds is safe from now on.
    fn remember(&self) -> io::Result<()> {
        let mut bytes = [0; PART];
        for part in 0..PARTS {
            let place = part * PART as u64;
            let count = self.file.read_at(&mut bytes, place)?;
            self.safe.write_all_at(&bytes[..count], place)?;
        }
        Ok(())
    }
}

impl<F: OpenFile + FileExt> OpenFile for Remembering<F> {
    fn metadata(&self) -> io::Result<Metadata> {
        self.live()?;
        self.file.metadata()
    }

    fn set_len(&self, _size: u64) -> io::Result<()> {
        Err(io::Error::from(ErrorKind::Unsupported))
    }

    fn sync_all(&self) -> io::Result<()> {
        self.pass()?;
        self.remember()
    }

    fn sync_data(&self) -> io::Result<()> {
        self.sync_all()
    }
}

impl<F: FileExt> FileExt for Remembering<F> {
    fn read_at(&self, buf: &mut [u8], offset: u64) -> io::Result<usize> {
        self.live()?;
        self.file.read_at(buf, offset)
    }

    fn write_at(&self, buf: &[u8], offset: u64) -> io::Result<usize> {
        self.pass()?;
        self.file.write_at(buf, offset)
    }
}

impl<F: OpenFile + FileExt + 'static> Lock for Remembering<F> {
    ghost use Rattle.std.specs.Prelude.{⊤};

    ghost is_ours = { λ _. ⊤ };

    ghost is_theirs = { λ _. ⊤ };

    ghost is_safe = { λ _. ⊤ };

    fn lock(&mut self) -> bool {
        true
    }

    fn sync_held(&mut self) -> io::Result<()> {
        if self.is_made_safe {
            self.sync_all()
        } else {
            Ok(())
        }
    }
}

// A disk of such files: what is safe of `dev1.img` is in `dev1.img.safe`.
#[derive(Drop)]
struct Disk<'a, S> {
    rt: &'a S,
    left: Rc<Cell<u64>>,
    is_made_safe: bool,
}

impl<S> SlotFiles for Disk<'_, S>
where
    S: Files + AllocGlobal,
    S::File: FileExt + 'static,
{
    ghost use Rattle.std.specs.Prelude.{⊤};

    type File = Locked<Remembering<S::File>>;

    ghost opens = { λ _ _ _. ⊤ };

    ghost creates = { λ _ _ _. ⊤ };

    ghost removes = { λ _ _ _. ⊤ };

    fn open(&self, path: &str) -> Result<Option<Locked<Remembering<S::File>>>, OpenFault> {
        let Ok(safe) = format!(in self.rt.alloc(); "{path}.safe") else {
            return Ok(None);
        };
        let (Ok(file), Ok(safe)) = (opened(self.rt, path), opened(self.rt, safe.as_str())) else {
            return Ok(None);
        };
        let Ok(left) = self.left.clone() else {
            return Ok(None);
        };
        Ok(Locked::over(Remembering {
            file,
            safe,
            left,
            is_made_safe: self.is_made_safe,
        }))
    }

    fn create(&self, _path: &str) -> Result<(Locked<Remembering<S::File>>, Before), CreateFault> {
        Err(CreateFault::Failed)
    }

    fn remove(&self, _path: &str) -> io::Result<()> {
        Err(io::Error::from(ErrorKind::Unsupported))
    }
}

fn opened<S: Files>(rt: &S, path: &str) -> io::Result<S::File> {
    OpenOptions::new().read(true).write(true).open(rt, path)
}

// Serves a script over such files, and is killed after so many calls. How many of them are left, which is none where it
// was killed.
fn served<Host>(rt: &Host, folder: &PathBuf, script: &str, calls: u64, is_made_safe: bool) -> u64
where
    Host: Files + AllocGlobal + Abort,
    Host::File: FileExt + 'static,
{
    let left = Rc::new(rt.alloc(), Cell::new(calls)).expect(rt, "memory");
    let disk = Disk {
        rt,
        left: left.clone().expect(rt, "memory"),
        is_made_safe,
    };
    if let Ok(files) = open_folder(rt.alloc(), &disk, folder.as_str()) {
        serve_over(rt, files, script);
    }
    left.get()
}

// Serves a script over the files of a folder.
fn serve_over<F: BankFile>(rt: &(impl AllocGlobal + Abort), files: DeviceFiles<F>, script: &str)
    requires safe { AreAllSafe F.is_safe files.files.items }
{
    let mut reader = Script::new(script.as_bytes(), WHOLE);
    let mut out = Full {
        text: Vec::new(rt.alloc()),
        room: WHOLE,
    };
    let entry = Entry::new(rt.alloc()).expect(rt, "memory");
    let mut open = files.files;
    if let Ok(bank) = bank_on(rt.alloc(), &mut open) {
        let _ = serve_on(rt.alloc(), bank, entry, ID, &mut reader, &mut out);
    }
}

// Copies the file of each slot that has one of these endings to that with the other one.
fn copy_all(rt: &(impl Files + AllocGlobal + Abort), folder: &PathBuf, from: &str, to: &str) {
    for slot in 0..5 {
        let bytes = bytes_of(rt, folder, slot, from);
        fs::write(rt, file_of(rt, folder, slot, to), &bytes).expect(rt, "a file");
    }
}

fn file_of(rt: &(impl AllocGlobal + Abort), folder: &PathBuf, slot: u8, ending: &str) -> PathBuf {
    let name = format!(in rt.alloc(); "dev{slot}.img{ending}").expect(rt, "memory");
    path_of(rt, folder, name.as_str())
}

fn bytes_of(
    rt: &(impl Files + AllocGlobal + Abort),
    folder: &PathBuf,
    slot: u8,
    ending: &str,
) -> Vec<u8> {
    fs::read(rt, file_of(rt, folder, slot, ending)).expect(rt, "a file")
}

// What a line of the program writes.
fn said<Host>(rt: &Host, folder: &PathBuf, words: &str, script: &str) -> Vec<u8>
where
    Host: Files + Meter + AllocGlobal + Abort,
    Host::File: FileExt + Lock + 'static,
{
    let words = words_in(rt, words, folder.as_str());
    let mut reader = Script::new(script.as_bytes(), WHOLE);
    let mut out = Full {
        text: Vec::new(rt.alloc()),
        room: WHOLE,
    };
    let mut err = Full {
        text: Vec::new(rt.alloc()),
        room: WHOLE,
    };
    let disk = SystemFolders { rt };
    tool(rt, &disk, &words, &mut reader, &mut out, &mut err);
    out.text
}

static ACKNOWLEDGED: &[Step] = &[
    Line(MAKE, UNREAD, 0, MADE),
    Line(RUN, "create a 64\n", 0, OK),
    Line(RUN, "write a 0 11*512\n", 0, OK),
    Line(RUN, "write a 8 33*512\n", 0, OK),
    Line(RUN, "write a 40 44*512\n", 0, OK),
];

const READ: &str = "read a 8 1\nread a 40 1\n";

const READS: &[u8] = b"33*512\n44*512\n";

const REPLACE_4: &str = "replace|@|--id|H|--slot|4";

// Whether what was acknowledged is there when the device of slot 4 is lost with the power: once it is replaced each row
// is sound, and then the device of slot 0 may be lost.
fn is_kept<Host>(rt: &Host, folder: &PathBuf) -> bool
where
    Host: Files + Meter + AllocGlobal + Abort,
    Host::File: FileExt + Lock + 'static,
{
    fs::remove_file(rt, file_of(rt, folder, 4, "")).expect(rt, "a file");
    let is_there = said(rt, folder, RUN, READ).as_slice() == READS;
    let is_replaced = said(rt, folder, REPLACE_4, UNREAD).as_slice() == OK.as_bytes();
    let is_sound = said(rt, folder, SCRUB, UNREAD).as_slice() == SOUND.as_bytes();
    fs::remove_file(rt, file_of(rt, folder, 0, "")).expect(rt, "a file");
    let is_there_without = said(rt, folder, RUN, READ).as_slice() == READS;
    is_there && is_replaced && is_sound && is_there_without
}

// The calls of a write up to that of its first seal: the start puts the last entry on two members again and syncs
// these, then a body of two sectors is written on each journal by one call and synced, and the seal is written.
const TO_THE_SEAL: u64 = 2 * 2 + 2 * 2 + 1;

// More calls than a start makes.
const MANY: u64 = 200;

// Where a journal's seals end.
const SEALS: usize = 4 * 512;

// A set whose program was killed so: the seal is on the file of slot 3, unsynced, and each other file is safe.
fn kill<Host>(rt: &Host, folder: &PathBuf)
where
    Host: Files + Meter + AllocGlobal + Abort + Clone + Drop,
    Host::File: FileExt + Lock + 'static,
{
    all_go(rt, folder, ACKNOWLEDGED);
    copy_all(rt, folder, "", ".safe");
    let left = served(rt, folder, "write a 0 22*512\n", TO_THE_SEAL, false);
    same(rt, left, 0);
    for slot in 0..5 {
        let is_safe = bytes_of(rt, folder, slot, "") == bytes_of(rt, folder, slot, ".safe");
        same(rt, (slot, is_safe), (slot, slot != 3));
    }
    let (held, safe) = (
        bytes_of(rt, folder, 3, ""),
        bytes_of(rt, folder, 3, ".safe"),
    );
    assert!(rt; held.len() > SEALS && safe.len() > SEALS);
    same(rt, held[SEALS..] == safe[SEALS..], true);
    copy_all(rt, folder, "", ".killed");
    copy_all(rt, folder, ".safe", ".killed.safe");
}

// After how many calls of the next start a power cut loses something that was acknowledged, and how many calls it
// makes.
fn losses<Host>(rt: &Host, folder: &PathBuf, is_made_safe: bool) -> (u64, u64)
where
    Host: Files + Meter + AllocGlobal + Abort + Clone + Drop,
    Host::File: FileExt + Lock + 'static,
{
    let mut lost: u64 = 0;
    for calls in 0..MANY {
        copy_all(rt, folder, ".killed", "");
        copy_all(rt, folder, ".killed.safe", ".safe");
        let left = served(rt, folder, "list\n", calls, is_made_safe);
        copy_all(rt, folder, ".safe", "");
        if !is_kept(rt, folder) {
            lost = lost.saturating_add(1);
        }
        if left > 0 {
            return (lost, calls);
        }
    }
    (lost, MANY)
}

// A start that goes on from what it finds without making it safe loses a block that was acknowledged; one that makes it
// safe first loses none, wherever the power cut comes.
#[test]
fn a_power_cut_after_a_kill(rt: HostRuntime) {
    let folder = empty_folder(&rt, rt.process(), "unsynced");
    kill(&rt, &folder);
    let (lost, calls) = losses(&rt, &folder, false);
    assert!(&rt; lost > 0 && calls > 5 && calls < MANY);
    let (lost, calls) = losses(&rt, &folder, true);
    assert!(&rt; lost == 0 && calls > 10 && calls < MANY);
    fs::remove_dir_all(&rt, &folder).expect(&rt, "a folder");
}
