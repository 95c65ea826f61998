//! Requests to a server over real files.
use crate::testing::folder::Step::{Holds, Line, Put, Take};
use crate::testing::folder::{
    MAKE, MEMBER_BYTES, STATUS, Step, UNREAD, all_go, empty_folder, line, over_folder,
};
use crate::testing::streams::WHOLE;
use crate::testing::texts::{MADE, MEMBER_DOWN, NO_SET, TWO_LOST};
use crate::testing::{joined, words_in};
use device_files::Lock;
use set_commands::Meter;
use std::fs;
use std::os::unix::fs::FileExt;
use std::process::{Abort, Process};
use std::rt::{Env, Files};

const SERVE: &str = "serve|@|--id|H";

// A text so many times.
type Part = (&'static [u8], usize);

// After some steps over an empty folder, an input is read to its end, and this is written; then these steps follow.
struct Served {
    before: &'static [Step],
    input: &'static [Part],
    text: &'static [Part],
    after: &'static [Step],
}

// Serves so, with this status and this on standard error.
fn serves<Host>(
    rt: &Host,
    process: Process,
    name: &str,
    served: &Served,
    (status, error): (u8, &str),
)
where
    Host: Files + Meter + Env + AllocGlobal + Abort + Clone + Drop,
    Host::File: FileExt + Lock + 'static,
{
    let folder = empty_folder(rt, process, name);
    all_go(rt, &folder, served.before);
    let words = words_in(rt, SERVE, folder.as_str());
    let (input, text) = (joined(rt, served.input), joined(rt, served.text));
    let end = (status, 0, text.as_slice(), error.as_bytes());
    line(rt, &words, &input, (WHOLE, WHOLE, WHOLE), end);
    all_go(rt, &folder, served.after);
    fs::remove_dir_all(rt, &folder).expect(rt, "a folder");
}

// The bytes of sector 40, which is row 32: block 0 of the first volume is there on member 2, its parity on member 1.
const ROW_32: (usize, usize) = (20_480, 20_992);

static REQUESTS: Served = Served {
    before: &[Line(MAKE, UNREAD, 0, MADE)],
    input: &[
        (b"create a 64\nwrite a 0 1\n", 1),
        (b"Z", 512),
        (b"read a 0 2\nlist\nzero a 0 1\nread a 0 1\n", 1),
        (b"write a 63 2\n", 1),
        (b"y", 1_024),
        (b"write a 0 1\n", 1),
        (b"y", 512),
        (b"read b 0 1\n", 1),
    ],
    text: &[
        (b"ok\nok\nblocks 2\n", 1),
        (b"Z", 512),
        (b"\0", 512),
        (b"volumes 1\na 64\nok\nblocks 1\n", 1),
        (b"\0", 512),
        (b"refused 8 OutOfRange\nok\nrefused 6 NoVolume\n", 1),
    ],
    after: &[
        Holds("dev0.img", MEMBER_BYTES, ROW_32, 0),
        Holds("dev1.img", MEMBER_BYTES, ROW_32, b'y'),
        Holds("dev2.img", MEMBER_BYTES, ROW_32, b'y'),
    ],
};

#[test]
fn requests_over_files(rt: HostRuntime) {
    serves(&rt, rt.process(), "requests", &REQUESTS, (0, ""));
}

// Slot 2 is given up, gets its file as its new device, and is rebuilt; then any other member may go.
static GIVEN_UP_AND_REPLACED: Served = Served {
    before: &[Line(MAKE, UNREAD, 0, MADE)],
    input: &[
        (b"create a 64\nwrite a 0 1\n", 1),
        (b"Z", 512),
        (b"fail 2\nreplace 2\nread a 0 1\nreplace 2\nrebuild 1\n", 1),
        (b"write a 8 1\n", 1),
        (b"y", 512),
        (b"rebuild 1000\nscrub 256\n", 1),
    ],
    text: &[
        (b"ok\nok\nok\nok\nblocks 1\n", 1),
        (b"Z", 512),
        (b"refused 10 NotMissing\nposition 64 of 256, 3 left\n", 1),
        (b"ok\ncomplete\n256 rows, 0 bad\n", 1),
    ],
    after: &[
        Holds("dev2.img", MEMBER_BYTES, ROW_32, b'Z'),
        Take("dev0.img"),
        Line(
            "run|@|--id|H",
            "read a 0 1\nread a 8 1\n",
            0,
            "5a*512\n79*512\n",
        ),
    ],
};

// The file of slot 2 was away when the set was opened before, and another one is there.
static LOST_AND_REPLACED: Served = Served {
    before: &[
        Line(MAKE, UNREAD, 0, MADE),
        Line(
            "run|@|--id|H",
            "create a 64\nwrite a 0 5a*512\n",
            0,
            "ok\nok\n",
        ),
        Take("dev2.img"),
        Line(STATUS, UNREAD, 0, MEMBER_DOWN),
        Put("dev2.img", MEMBER_BYTES, (0, 0)),
    ],
    input: &[(b"replace 2\nrebuild 4\nread a 0 1\n", 1)],
    text: &[(b"ok\ncomplete\nblocks 1\n", 1), (b"Z", 512)],
    after: &[
        Holds("dev2.img", MEMBER_BYTES, ROW_32, b'Z'),
        Take("dev1.img"),
        Line("run|@|--id|H", "read a 0 1\n", 0, "5a*512\n"),
    ],
};

#[test]
fn a_slot_replaced_while_serving(rt: HostRuntime) {
    serves(
        &rt,
        rt.process(),
        "given_up",
        &GIVEN_UP_AND_REPLACED,
        (0, ""),
    );
    serves(&rt, rt.process(), "lost", &LOST_AND_REPLACED, (0, ""));
}

// Slot 2 has no file. Each `replace` is refused, and what is after it is served.
static ABSENT: Served = Served {
    before: &[Line(MAKE, UNREAD, 0, MADE), Take("dev2.img")],
    input: &[(
        b"create a 64\nreplace 2\nlist\nreplace 2\nreplace 2\nrebuild 1\nlist\n",
        1,
    )],
    text: &[
        (b"ok\nrefused 11 NotUsable\nvolumes 1\na 64\n", 1),
        (b"refused 11 NotUsable\n", 2),
        (b"refused 12 NothingToRebuild\nvolumes 1\na 64\n", 1),
    ],
    after: &[Line(STATUS, UNREAD, 0, MEMBER_DOWN)],
};

#[test]
fn a_slot_whose_file_is_absent(rt: HostRuntime) {
    serves(&rt, rt.process(), "absent", &ABSENT, (0, ""));
}

const READ_FAULT: &str = "refused 21 ReadFault\n";

// The input ends within the blocks of the second write, which is not done.
static WITHIN_BLOCKS: Served = Served {
    before: &[Line(MAKE, UNREAD, 0, MADE)],
    input: &[
        (b"create a 64\nwrite a 0 1\n", 1),
        (b"Z", 512),
        (b"write a 0 2\n", 1),
        (b"y", 1_023),
    ],
    text: &[(b"ok\nok\n", 1)],
    after: &[Line("run|@|--id|H", "read a 0 2\n", 0, "5a*512\n00*512\n")],
};

// The input ends within a line, after a slot was replaced.
static WITHIN_A_LINE: Served = Served {
    before: &[Line(MAKE, UNREAD, 0, MADE)],
    input: &[(b"create a 64\nfail 2\nreplace 2\nremove a", 1)],
    text: &[(b"ok\nok\nok\n", 1)],
    after: &[Line("run|@|--id|H", "list\n", 0, "a 64\n")],
};

#[test]
fn requests_that_are_cut(rt: HostRuntime) {
    serves(
        &rt,
        rt.process(),
        "blocks_cut",
        &WITHIN_BLOCKS,
        (1, READ_FAULT),
    );
    serves(
        &rt,
        rt.process(),
        "line_cut",
        &WITHIN_A_LINE,
        (1, READ_FAULT),
    );
}

// No input is read where there is no set, or where it can't be assembled.
static NOT_SERVED: &[Step] = &[
    Line(SERVE, UNREAD, 1, NO_SET),
    Line(MAKE, UNREAD, 0, MADE),
    Take("dev2.img"),
    Take("dev3.img"),
    Line(SERVE, UNREAD, 1, TWO_LOST),
];

#[test]
fn requests_over_no_set(rt: HostRuntime) {
    over_folder(&rt, rt.process(), "not_served", NOT_SERVED);
}
