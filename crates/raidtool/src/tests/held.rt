//! Lines of the program over copies in memory of the files of a folder: files that tell what they hold.
use crate::choosing::{DrawIds, Id};
use crate::testing::folder::Step::{Keep, Kept, Line};
use crate::testing::folder::{
    FAIL_2, MAKE, REPLACE_2, RUN, SCRUB, Step, UNREAD, all_go, empty_folder,
};
use crate::testing::streams::{Full, Script, WHOLE};
use crate::testing::texts::{MADE, OK, SOUND};
use crate::testing::{same, words_in};
use crate::tool::tool;
use device_files::{
    Before, CreateFault, FolderSync, HeldFile, InspectFiles, Lock, OpenFault, SlotFiles,
};
use set_commands::Meter;
use std::os::unix::fs::FileExt;
use std::path::PathBuf;
use std::process::Abort;
use std::rt::Files;
use std::{fs, io};

// A disk that opens a copy of each file of the system's, and keeps nothing of it.
#[derive(Drop)]
struct Copies<'a, S> {
    rt: &'a S,
}

impl<S> SlotFiles for Copies<'_, S>
where
    S: Files + AllocGlobal,
{
    ghost use Rattle.std.specs.Prelude.{⊤};

    type File = HeldFile;

    ghost opens = { λ _ _ _. ⊤ };

    ghost creates = { λ _ _ _. ⊤ };

    ghost removes = { λ _ _ _. ⊤ };

    fn open(&self, path: &str) -> Result<Option<HeldFile>, OpenFault> {
        let Ok(bytes) = fs::read(self.rt, path) else {
            return Ok(None);
        };
        Ok(HeldFile::new(self.rt.alloc(), &bytes).ok())
    }

    fn create(&self, _path: &str) -> Result<(HeldFile, Before), CreateFault> {
        match HeldFile::new(self.rt.alloc(), &[]) {
            Ok(file) => Ok((file, Before::Absent)),
            Err(_) => Err(CreateFault::Failed),
        }
    }

    fn remove(&self, _path: &str) -> io::Result<()> {
        Ok(())
    }
}

impl<S> InspectFiles for Copies<'_, S>
where
    S: Files + AllocGlobal,
{
    ghost use Rattle.std.specs.Prelude.{⊤};

    type InspectedFile = HeldFile;

    ghost inspects = { λ _ _ _. ⊤ };

    fn inspect(&self, path: &str) -> Result<Option<HeldFile>, OpenFault> {
        let Ok(bytes) = fs::read(self.rt, path) else {
            return Ok(None);
        };
        Ok(HeldFile::new(self.rt.alloc(), &bytes).ok())
    }
}

impl<S> DrawIds for Copies<'_, S> {
    ghost use Rattle.std.specs.Prelude.{⊤};

    ghost draws = { λ _ _. ⊤ };

    fn draw(&self) -> io::Result<Id> {
        Ok([0; 16])
    }
}

impl<S> FolderSync for Copies<'_, S> {
    ghost use Rattle.std.specs.Prelude.{⊤};

    ghost is_safe = { λ _ _. ⊤ };

    ghost is_never = { λ _ _. ⊤ };

    ghost leads_to = { λ _ _ _. ⊤ };

    ghost is_no_link = { λ _ _. ⊤ };

    fn sync_names(&self, _folder: &str) -> io::Result<()> {
        Ok(())
    }

    fn linked_folder(&self, _path: &str) -> io::Result<Option<PathBuf>> {
        Ok(None)
    }
}

// The status of a line over copies of a folder's files, and what it writes.
fn said<Host>(rt: &Host, folder: &PathBuf, words: &str, script: &str) -> (u8, Vec<u8>)
where
    Host: Files + Meter + AllocGlobal + Abort,
    Host::File: FileExt + Lock,
{
    let words = words_in(rt, words, folder.as_str());
    let mut reader = Script::new(script.as_bytes(), WHOLE);
    let mut out = Full {
        text: Vec::new(rt.alloc()),
        room: WHOLE,
    };
    let mut err = Full {
        text: Vec::new(rt.alloc()),
        room: WHOLE,
    };
    let disk = Copies { rt };
    let status = tool(rt, &disk, &words, &mut reader, &mut out, &mut err);
    (status, out.text)
}

// A line over copies ends with 0 and writes this.
fn is_said<Host>(rt: &Host, folder: &PathBuf, words: &str, script: &str, text: &str)
where
    Host: Files + Meter + AllocGlobal + Abort,
    Host::File: FileExt + Lock,
{
    let (status, said) = said(rt, folder, words, script);
    same(rt, (words, status), (words, 0));
    same(rt, said.as_slice(), text.as_bytes());
}

// The 64 blocks of a volume are zeroed by two entries, a third one has the table, and a fourth one the block that is
// written.
const INSPECTED: &str = "\
set 000102030405060708090a0b0c0d0e0f
members 3 chunk 8 stripes 32 rows 256
generation 1 position 0 left 0
 0 member   there generation 1 incarnation 1 live
 1 member   there generation 1 incarnation 1 live
 2 member   there generation 1 incarnation 1 live
 3 journal  there generation 1 incarnation 1 entry 4 live
 4 journal  there generation 1 incarnation 1 entry 4 live
would assemble: complete
";

static A_SET: &[Step] = &[
    Line(MAKE, UNREAD, 0, MADE),
    Line(RUN, "create a 64\nwrite a 8 33*512\n", 0, "ok\nok\n"),
    Keep,
];

static WITHOUT_A_MEMBER: &[Step] = &[Kept, Line(FAIL_2, UNREAD, 0, OK)];

#[test]
fn lines_over_files_in_memory(rt: HostRuntime) {
    let folder = empty_folder(&rt, rt.process(), "copies");
    all_go(&rt, &folder, A_SET);
    is_said(&rt, &folder, RUN, "read a 8 1\n", "33*512\n");
    is_said(&rt, &folder, SCRUB, UNREAD, SOUND);
    is_said(&rt, &folder, "examine|@", UNREAD, INSPECTED);
    is_said(&rt, &folder, MAKE, UNREAD, MADE);
    all_go(&rt, &folder, WITHOUT_A_MEMBER);
    is_said(&rt, &folder, REPLACE_2, UNREAD, OK);
    fs::remove_dir_all(&rt, &folder).expect(&rt, "a folder");
}
