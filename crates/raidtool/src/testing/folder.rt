//! Lines of the program, and sets in the files of a folder: lines over them, and their bytes.
use super::streams::{Full, Script, WHOLE};
use super::{same, words_in};
use crate::tool::tool;
use device_files::{Lock, SystemFolders};
use set_commands::Meter;
use std::os::unix::fs::{FileExt, symlink};
use std::path::PathBuf;
use std::process::{Abort, Process};
use std::rt::{Env, Files};
use std::{env, fs, process};

/// A script that no command but `run` reads.
pub(crate) const UNREAD: &str = "list\n";

/// The words of the lines that most tests write. The folder is `@`, and the id `H`.
pub(crate) const MAKE: &str = "make|@|--id|H|--members|3|--chunk|8|--stripes|32";

pub(crate) const RUN: &str = "run|@|--id|H";

pub(crate) const STATUS: &str = "status|@|--id|H";

pub(crate) const FAIL_0: &str = "fail|@|--id|H|--slot|0";

pub(crate) const FAIL_1: &str = "fail|@|--id|H|--slot|1";

pub(crate) const FAIL_2: &str = "fail|@|--id|H|--slot|2";

pub(crate) const REPLACE_0: &str = "replace|@|--id|H|--slot|0";

pub(crate) const REPLACE_1: &str = "replace|@|--id|H|--slot|1";

pub(crate) const REPLACE_2: &str = "replace|@|--id|H|--slot|2";

pub(crate) const REBUILD: &str = "rebuild|@|--id|H";

pub(crate) const SCRUB: &str = "scrub|@|--id|H";

pub(crate) const UPGRADE: &str = "upgrade|@|--id|H";

/// The bytes of the devices of set A.
pub(crate) const MEMBER_BYTES: usize = 135_168;

pub(crate) const JOURNAL_BYTES: usize = 266_240;

/// The bytes of a member's file that is longer than it has to be, and of one that lacks a sector.
pub(crate) const LONG: usize = MEMBER_BYTES + 1_000;

pub(crate) const SHORT: usize = MEMBER_BYTES - 512;

/// Any text but none.
pub(crate) const SOME_TEXT: &str = "(some text)";

/// What a line of the program comes to: its exit status, how many bytes of the script are left, and what it writes
/// to the two outputs.
pub(crate) type End = (u8, usize, &'static str, &'static str);

/// One line of the program over this script. The reader and the two outputs fail after so many bytes.
pub(crate) fn line<Host>(
    rt: &Host,
    words: &[&str],
    script: &[u8],
    (read, room, error_room): (usize, usize, usize),
    (status, left, text, error): (u8, usize, &[u8], &[u8]),
)
where
    Host: Files + Meter + AllocGlobal + Abort,
    Host::File: FileExt + Lock + 'static,
{
    let mut reader = Script::new(script, read);
    let mut out = Full {
        text: Vec::new(rt.alloc()),
        room,
    };
    let mut err = Full {
        text: Vec::new(rt.alloc()),
        room: error_room,
    };
    let disk = SystemFolders { rt };
    let found = tool(rt, &disk, words, &mut reader, &mut out, &mut err);
    same(
        rt,
        (words, found, reader.text.len(), out.text.as_slice()),
        (words, status, left, text),
    );
    if error == SOME_TEXT.as_bytes() {
        assert!(rt; !err.text.is_empty());
    } else {
        same(rt, (words, err.text.as_slice()), (words, error));
    }
}

/// One line of the program over this script: it ends with 0 and writes this text, or it ends with this status and
/// writes the text to standard error. Only `run` and the line without words read the script, and where they end with
/// 0 to its end.
pub(crate) fn says<Host>(
    rt: &Host,
    folder: &str,
    (words, script): (&str, &str),
    status: u8,
    text: &str,
)
where
    Host: Files + Meter + AllocGlobal + Abort,
    Host::File: FileExt + Lock + 'static,
{
    let is_run = words.is_empty() || words.starts_with("run|");
    let words = words_in(rt, words, folder);
    let (script, text) = (script.as_bytes(), text.as_bytes());
    let whole = (WHOLE, WHOLE, WHOLE);
    if status == 0 {
        let left = if is_run { 0 } else { script.len() };
        line(rt, &words, script, whole, (0, left, text, b""));
    } else {
        let left = script.len();
        line(rt, &words, script, whole, (status, left, b"", text));
    }
}

/// What is done with a folder, one after another, and what has to be found there.
#[derive(Clone, Copy)]
pub(crate) enum Step {
    /// A line of the program over a script ends and writes as `says` has it.
    Line(&'static str, &'static str, u8, &'static str),
    /// A line of the program over a script whose reader and the two outputs fail after so many bytes.
    Cut(&'static str, &'static str, (usize, usize, usize), End),
    /// A file has so many bytes, of which those from one on up to another are all this byte.
    Holds(&'static str, usize, (usize, usize), u8),
    /// A file gets so many bytes, new ones of 0x5a, and in the byte of this place other bits.
    Put(&'static str, usize, (usize, u8)),
    /// A file is copied to another.
    Copy(&'static str, &'static str),
    /// A file gets a second name.
    Link(&'static str, &'static str),
    /// A link to this path stands in a file's place.
    Lead(&'static str, &'static str),
    /// A folder stands in a file's place.
    Folder(&'static str),
    /// Two files have the same bytes.
    Same(&'static str, &'static str),
    /// A file is removed.
    Take(&'static str),
    /// The bytes of the files of all ten slots are kept.
    Keep,
    /// They are those that were kept.
    Kept,
    /// There are so many files and folders.
    Count(usize),
}

/// Does these steps over an empty folder of its own.
pub(crate) fn over_folder<Host>(rt: &Host, process: Process, name: &str, steps: &[Step])
where
    Host: Files + Meter + Env + AllocGlobal + Abort + Clone + Drop,
    Host::File: FileExt + Lock + 'static,
{
    let folder = empty_folder(rt, process, name);
    all_go(rt, &folder, steps);
    fs::remove_dir_all(rt, &folder).expect(rt, "a folder");
}

/// Does these steps over a folder.
pub(crate) fn all_go<Host>(rt: &Host, folder: &PathBuf, steps: &[Step])
where
    Host: Files + Meter + AllocGlobal + Abort + Clone + Drop,
    Host::File: FileExt + Lock + 'static,
{
    for step in steps {
        goes(rt, folder, step);
    }
}

fn goes<Host>(rt: &Host, folder: &PathBuf, step: &Step)
where
    Host: Files + Meter + AllocGlobal + Abort + Clone + Drop,
    Host::File: FileExt + Lock + 'static,
{
    match step {
        Step::Line(words, script, status, text) => {
            says(rt, folder.as_str(), (words, script), *status, text);
        }
        Step::Cut(words, script, limits, end) => cut(rt, folder, (words, script), *limits, *end),
        Step::Holds(file, length, range, byte) => {
            holds(rt, folder, (file, *length), *range, *byte);
        }
        Step::Put(file, length, change) => put(rt, folder, file, *length, *change),
        Step::Copy(from, to) => copies(rt, folder, from, to),
        Step::Link(from, to) => links(rt, folder, from, to),
        Step::Lead(to, name) => {
            let link = path_of(rt, folder, name);
            symlink(rt, to, &link).expect(rt, name)
        }
        Step::Folder(name) => fs::create_dir(rt, path_of(rt, folder, name)).expect(rt, name),
        Step::Same(one, other) => is_copy(rt, folder, one, other),
        Step::Take(file) => takes(rt, folder, file),
        Step::Keep => write(rt, folder, KEPT, &devices(rt, folder)),
        Step::Kept => same(rt, devices(rt, folder) == bytes_in(rt, folder, KEPT), true),
        Step::Count(count) => counts(rt, folder, *count),
    }
}

fn cut<Host>(
    rt: &Host,
    folder: &PathBuf,
    (words, script): (&str, &str),
    limits: (usize, usize, usize),
    (status, left, text, error): End,
)
where
    Host: Files + Meter + AllocGlobal + Abort,
    Host::File: FileExt + Lock + 'static,
{
    let words = words_in(rt, words, folder.as_str());
    let end = (status, left, text.as_bytes(), error.as_bytes());
    line(rt, &words, script.as_bytes(), limits, end);
}

// The file in which the bytes of all devices are kept.
const KEPT: &str = "kept";

/// An empty folder for one test.
pub(crate) fn empty_folder(
    rt: &(impl Files + Env + AllocGlobal + Abort),
    process: Process,
    name: &str,
) -> PathBuf {
    let id = process::id(process);
    let name = format!(in rt.alloc(); "raidtool_{name}_{id}").expect(rt, "memory");
    let folder = env::temp_dir(rt).expect(rt, "a folder");
    let folder = folder.join(rt.alloc(), name.as_str());
    let folder = folder.expect(rt, "memory");
    fs::create_dir(rt, &folder).expect(rt, "a folder");
    folder
}

/// The path of a file in a folder.
pub(crate) fn path_of(rt: &(impl AllocGlobal + Abort), folder: &PathBuf, file: &str) -> PathBuf {
    folder.join(rt.alloc(), file).expect(rt, "memory")
}

// The bytes of a file, none of one that is not there.
fn bytes_in(rt: &(impl Files + AllocGlobal + Abort), folder: &PathBuf, file: &str) -> Vec<u8> {
    match fs::read(rt, path_of(rt, folder, file)) {
        Ok(bytes) => bytes,
        Err(_) => Vec::new(rt.alloc()),
    }
}

// Writes a file of these bytes.
fn write(rt: &(impl Files + AllocGlobal + Abort), folder: &PathBuf, file: &str, bytes: &[u8]) {
    fs::write(rt, path_of(rt, folder, file), bytes).expect(rt, file);
}

fn holds(
    rt: &(impl Files + AllocGlobal + Abort),
    folder: &PathBuf,
    (file, length): (&str, usize),
    (from, to): (usize, usize),
    byte: u8,
) {
    let bytes = bytes_in(rt, folder, file);
    same(rt, (file, bytes.len()), (file, length));
    assert!(rt; from <= to && to <= bytes.len());
    for found in &bytes[from..to] {
        same(rt, (file, *found), (file, byte));
    }
}

fn put(
    rt: &(impl Files + AllocGlobal + Abort),
    folder: &PathBuf,
    file: &str,
    length: usize,
    (at, bits): (usize, u8),
) {
    let mut bytes = bytes_in(rt, folder, file);
    bytes.truncate(length);
    for _ in bytes.len()..length {
        bytes.push(0x5a).expect(rt, "memory");
    }
    if bits != 0 {
        assert!(rt; at < bytes.len());
        bytes[at] ^= bits;
    }
    write(rt, folder, file, &bytes);
}

fn copies(rt: &(impl Files + AllocGlobal + Abort), folder: &PathBuf, from: &str, to: &str) {
    let bytes = bytes_in(rt, folder, from);
    assert!(rt; !bytes.is_empty());
    write(rt, folder, to, &bytes);
}

fn links(rt: &(impl Files + AllocGlobal + Abort), folder: &PathBuf, from: &str, to: &str) {
    fs::hard_link(rt, path_of(rt, folder, from), path_of(rt, folder, to)).expect(rt, to);
}

fn is_copy(rt: &(impl Files + AllocGlobal + Abort), folder: &PathBuf, one: &str, other: &str) {
    assert!(rt;
        bytes_in(rt, folder, one) == bytes_in(rt, folder, other),
        "{one}"
    );
}

fn takes(rt: &(impl Files + AllocGlobal + Abort), folder: &PathBuf, file: &str) {
    fs::remove_file(rt, path_of(rt, folder, file)).expect(rt, file);
}

// How long the file of each slot is, and its bytes, one after another.
fn devices(rt: &(impl Files + AllocGlobal + Abort), folder: &PathBuf) -> Vec<u8> {
    let mut all = Vec::new(rt.alloc());
    for slot in 0..10 {
        let file = format!(in rt.alloc(); "dev{slot}.img").expect(rt, "memory");
        let bytes = bytes_in(rt, folder, file.as_str());
        let length = bytes.len() as u64;
        all.extend_from_slice(&length.to_le_bytes())
            .expect(rt, "memory");
        all.extend_from_slice(&bytes).expect(rt, "memory");
    }
    all
}

fn counts<Host>(rt: &Host, folder: &PathBuf, count: usize)
where
    Host: Files + AllocGlobal + Abort + Clone + Drop,
{
    let found = fs::read_dir(rt, folder).expect(rt, "a folder");
    same(rt, found.count(), count);
}
