//! Lines that are commands, and lines that are none.
use super::*;
use crate::testing::same;
use std::process::Abort;

const ROOM: [Sector; KEPT_BLOCKS] = [[0; 512]; KEPT_BLOCKS];

// What a line asks for: its word, the name, and the numbers after it, or how many blocks are kept. No word where it
// asks for nothing.
type Told<'a> = (&'a str, &'a [u8], u32, usize);

const NOTHING: Told<'static> = ("", b"", 0, 0);

fn told<'a>(event: Option<Event<'a>>) -> Told<'a> {
    match event {
        Some(Event::List) => ("list", b"", 0, 0),
        Some(Event::Create { name, blocks }) => ("create", name, blocks, 0),
        Some(Event::Extend { name, by }) => ("extend", name, by, 0),
        Some(Event::Remove { name }) => ("remove", name, 0, 0),
        Some(Event::Rename { old, new }) => ("rename", old, 0, new.len()),
        Some(Event::Read { name, at, count }) => ("read", name, at, count as usize),
        Some(Event::Write { name, at, blocks }) => ("write", name, at, blocks.len()),
        Some(Event::Upgrade) => ("upgrade", b"", 0, 0),
        Some(_) => ("a command on the set", b"", 0, 0),
        None => NOTHING,
    }
}

fn asks(rt: &impl Abort, line: &[u8], want: Told<'_>) {
    let mut blocks = ROOM;
    same(rt, (line, told(parse(line, &mut blocks))), (line, want));
}

// Lines with what they ask for.
const COMMANDS: &[(&[u8], &str, &[u8], u32, usize)] = &[
    (b"list", "list", b"", 0, 0),
    (b"create a 64", "create", b"a", 64, 0),
    (b"create A 0", "create", b"A", 0, 0),
    (
        b"create data-1 4294967295",
        "create",
        b"data-1",
        4_294_967_295,
        0,
    ),
    (b"create create 65537", "create", b"create", 65_537, 0),
    (b"create \xff\r 1", "create", b"\xff\r", 1, 0),
    (b"extend a 1", "extend", b"a", 1, 0),
    (b"extend 7 0", "extend", b"7", 0, 0),
    (
        b"extend remove 4294967295",
        "extend",
        b"remove",
        4_294_967_295,
        0,
    ),
    (b"remove a", "remove", b"a", 0, 0),
    (b"remove 064", "remove", b"064", 0, 0),
    (b"remove remove", "remove", b"remove", 0, 0),
    (b"remove \x00", "remove", b"\x00", 0, 0),
    (b"rename a b", "rename", b"a", 0, 1),
    (b"rename data-1 d", "rename", b"data-1", 0, 1),
    (b"rename rename rename", "rename", b"rename", 0, 6),
    (b"rename 7 064", "rename", b"7", 0, 3),
    (b"rename \x00 \xff\r", "rename", b"\x00", 0, 2),
    (b"read a 0 1", "read", b"a", 0, 1),
    (b"read data-1 48 32", "read", b"data-1", 48, 32),
    (b"read a 4294967295 10", "read", b"a", 4_294_967_295, 10),
    (b"read 7 7 4294967295", "read", b"7", 7, 4_294_967_295),
    (b"read read 0 0", "read", b"read", 0, 0),
    (b"read \xc3\xa9\x00 1 2", "read", b"\xc3\xa9\x00", 1, 2),
    (b"write a 0", "write", b"a", 0, 0),
    (b"write a 48 5a*512", "write", b"a", 48, 1),
    (b"write a 48 5A*512 c3*512 fF*512", "write", b"a", 48, 3),
    (b"write list 4294967295", "write", b"list", 4_294_967_295, 0),
];

#[test]
fn lines_of_the_grammar(rt: HostRuntime) {
    for (line, word, name, first, second) in COMMANDS {
        asks(&rt, line, (word, name, *first, *second));
    }
}

#[test]
fn both_names_of_a_rename(rt: HostRuntime) {
    let mut blocks = ROOM;
    let names: (&[u8], &[u8]) = match parse(b"rename data-1 d2", &mut blocks) {
        Some(Event::Rename { old, new }) => (old, new),
        _ => (b"", b""),
    };
    same(&rt, names, (b"data-1", b"d2"));
}

// None of the lines asks for anything.
fn ask_nothing(rt: &impl Abort, lines: &[&str]) {
    for line in lines {
        asks(rt, line.as_bytes(), NOTHING);
    }
}

const OTHER_LINES: &[&str] = &[
    "",
    " ",
    "list ",
    " list",
    "list\r",
    "list a",
    "lis",
    "List",
    "LIST",
    "read",
    "read ",
    "read a",
    "read a 0",
    "read a 0 ",
    "read a 0 1 ",
    "read a 0 1 2",
    "read a  0 1",
    "read  0 1",
    "read  a 0 1",
    " read a 0 1",
    "read a 00 1",
    "read a 01 1",
    "read a 1 01",
    "read a 4294967296 1",
    "read a 1 4294967296",
    "read a 42949672950 1",
    "read a 18446744073709551616 1",
    "read a +1 1",
    "read a -1 1",
    "read a 1a 1",
    "Read a 0 1",
    "reads a 0 1",
    "create",
    "create ",
    "create a",
    "create a ",
    "create a 064",
    "create a 00",
    "create a 64 ",
    "create a  64",
    "create  a 64",
    "create  64",
    "create a 64 1",
    "create a 4294967296",
    "create a +1",
    "Create a 64",
    "created a 64",
    "extend a",
    "extend a 4294967296",
    "extend a 01",
    "extend a  1",
    "extend a 1 ",
    "remove",
    "remove ",
    "remove a ",
    "remove  a",
    "remove a 1",
    "removes a",
    "rename",
    "rename ",
    "rename a",
    "rename a ",
    "rename  b",
    "rename a  b",
    "rename a b ",
    "rename a b c",
    "Rename a b",
    "renames a b",
    "write",
    "write a",
    "write a 0 ",
    "write  0",
    "writea 0",
    "read\ta 0 1",
];

#[test]
fn other_lines(rt: HostRuntime) {
    ask_nothing(&rt, OTHER_LINES);
    asks(&rt, b"read a \xb2 1", NOTHING);
    asks(&rt, b"re\xe1d a 0 1", NOTHING);
}

// A command of its own asks for an upgrade, and no line does.
#[test]
fn no_line_upgrades(rt: HostRuntime) {
    let lines = [
        "upgrade",
        "upgrade ",
        "upgrade 2",
        "upgrade a",
        "Upgrade",
        "UPGRADE",
    ];
    ask_nothing(&rt, &lines);
}

const OTHER_BLOCKS: &[&str] = &[
    "write a 0 *512",
    "write a 0 5*512",
    "write a 0 5g*512",
    "write a 0 5a*513",
    "write a 0 5a*51",
    "write a 0 5a*5120",
    "write a 0 5a5a*512",
    "write a 0 5a",
    "write a 0 5a*512 ",
    "write a 0 5a*512  5a*512",
    "write a 0 5a*512 5a",
];

#[test]
fn other_blocks(rt: HostRuntime) {
    ask_nothing(&rt, OTHER_BLOCKS);
}

// A line that begins like this, with so many fields of these digits and this ending after it.
fn line_of(
    rt: &(impl Abort + AllocGlobal),
    front: &str,
    digits: &str,
    times: usize,
    end: &str,
) -> String {
    let mut line = String::from_str(rt.alloc(), front).expect(rt, "memory");
    for _ in 0..times {
        line.push_str(digits).expect(rt, "memory");
    }
    line.push_str(end).expect(rt, "memory");
    line
}

// The line asks for a write of so many kept blocks to volume a, and the buffer then has these.
fn keeps(rt: &impl Abort, line: &str, at: u32, kept: usize, those: &[(usize, Sector)]) {
    let mut blocks = ROOM;
    let got = told(parse(line.as_bytes(), &mut blocks));
    same(rt, got, ("write", b"a", at, kept));
    for (number, block) in those {
        same(rt, (*number, blocks.get(*number)), (*number, Some(block)));
    }
}

// None of the lines that have these parts asks for anything.
fn longer_ask_nothing(rt: &(impl Abort + AllocGlobal), lines: &[(&str, &str, usize, &str)]) {
    for (front, digits, times, end) in lines {
        let line = line_of(rt, front, digits, *times, end);
        asks(rt, line.as_bytes(), NOTHING);
    }
}

const FIRST_KEPT: &[(usize, Sector)] = &[(0, [0; 512]), (1, [0x5a; 512]), (31, [0x5a; 512])];

const BAD_AFTER_FORTY: &[(&str, &str, usize, &str)] = &[
    ("write a 48", " 5a*512", 40, " 5a*51"),
    ("write a 48", " 5a*512", 40, " 5a"),
    ("write a 48", " 5a*512", 40, " "),
];

#[test]
fn the_first_blocks_are_kept(rt: HostRuntime) {
    for (times, kept) in [(31, 32), (32, 33), (39, 33)] {
        let line = line_of(&rt, "write a 48 00*512", " 5A*512", times, "");
        keeps(&rt, line.as_str(), 48, kept, FIRST_KEPT);
    }
    longer_ask_nothing(&rt, BAD_AFTER_FORTY);
}

// A block of these four bytes over and over.
fn fours(bytes: [u8; 4]) -> Sector {
    let mut block = [0; 512];
    for at in 0..512 {
        block[at] = bytes[at % 4];
    }
    block
}

const OTHER_DIGITS: &[(&str, &str, usize, &str)] = &[
    ("write a 7 ", "0", 1023, ""),
    ("write a 7 ", "0", 1025, ""),
    ("write a 7 ", "0", 1023, "g"),
    ("write a 7 ", "0", 1020, "*512"),
    ("write a 7 ", "0", 1022, ""),
];

#[test]
fn blocks_of_all_digits(rt: HostRuntime) {
    let line = line_of(&rt, "write a 7 09aFfA5c", "09aFfA5c", 127, "");
    let block = fours([0x09, 0xaf, 0xfa, 0x5c]);
    keeps(&rt, line.as_str(), 7, 1, &[(0, block)]);
    longer_ask_nothing(&rt, OTHER_DIGITS);
}
