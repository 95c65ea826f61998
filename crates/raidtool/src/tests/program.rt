//! Lines of the program over real files.
use crate::answer;
use crate::testing::folder::Step::{Copy, Cut, Holds, Keep, Kept, Line, Put, Same, Take};
use crate::testing::folder::{
    FAIL_0, FAIL_1, FAIL_2, JOURNAL_BYTES, MAKE, MEMBER_BYTES, RUN, SOME_TEXT, STATUS, Step,
    UNREAD, line, over_folder,
};
use crate::testing::streams::{CLOSED, WHOLE};
use crate::testing::texts::{
    BAD_ID, MADE, MEMBER_DOWN, NO_SET, OK, TWO_LOST, WOULD_LOSE, WRITE_FAULT,
};
use crate::testing::{joined, same, words_in};
use std::io;
use std::process::ExitCode;

// The status of set A once it is made.
const FRESH: &str = "\
set 000102030405060708090a0b0c0d0e0f
members 3 chunk 8 stripes 32 rows 256
generation 1 position 0 left 0
extents 7 free 7 volumes 0 table 1
 0 member   in-sync    1
 1 member   in-sync    1
 2 member   in-sync    1
 3 journal  in-sync    1
 4 journal  in-sync    1
";

// The same as JSON.
const FRESH_JSON: &str = "{\"chunk\":8,\"extents\":7,\"free\":7,\"generation\":1,\
\"id\":\"000102030405060708090a0b0c0d0e0f\",\"left\":0,\"members\":3,\"position\":0,\"rows\":256,\"slots\":[\
{\"incarnation\":1,\"role\":\"member\",\"slot\":0,\"state\":\"in-sync\"},\
{\"incarnation\":1,\"role\":\"member\",\"slot\":1,\"state\":\"in-sync\"},\
{\"incarnation\":1,\"role\":\"member\",\"slot\":2,\"state\":\"in-sync\"},\
{\"incarnation\":1,\"role\":\"journal\",\"slot\":3,\"state\":\"in-sync\"},\
{\"incarnation\":1,\"role\":\"journal\",\"slot\":4,\"state\":\"in-sync\"}],\
\"stripes\":32,\"table\":1,\"volumes\":0}\n";

const FAIL_255: &str = "fail|@|--id|H|--slot|255";

const JSON: &str = "status|@|--id|H|--json";

static SET_A_NUMBERS: &[Step] = &[
    Line(MAKE, UNREAD, 0, MADE),
    Holds("dev0.img", MEMBER_BYTES, (0, 0), 0),
    Holds("dev1.img", MEMBER_BYTES, (0, 0), 0),
    Holds("dev2.img", MEMBER_BYTES, (0, 0), 0),
    Holds("dev3.img", JOURNAL_BYTES, (0, 0), 0),
    Holds("dev4.img", JOURNAL_BYTES, (0, 0), 0),
    Line(RUN, "list\n", 0, ""),
    Line(STATUS, UNREAD, 0, FRESH),
];

#[test]
fn set_a_numbers(rt: HostRuntime) {
    over_folder(&rt, rt.process(), "numbers", SET_A_NUMBERS);
}

// The bytes of sector 40, which is row 32.
const ROW_32: (usize, usize) = (20_480, 20_992);

static FIRST_WRITE_AND_READ: &[Step] = &[
    Line(MAKE, UNREAD, 0, MADE),
    Line(
        RUN,
        "create a 64\nwrite a 0 5a*512\nread a 0 1\n",
        0,
        "ok\nok\n5a*512\n",
    ),
    Holds("dev0.img", MEMBER_BYTES, ROW_32, 0x00),
    Holds("dev1.img", MEMBER_BYTES, ROW_32, 0x5a),
    Holds("dev2.img", MEMBER_BYTES, ROW_32, 0x5a),
    Line(
        RUN,
        "list\nread a 0 2\nread a 63 2\nread b 0 1\nread a 0 0\n",
        0,
        "a 64\n5a*512\n00*512\nrefused 8 OutOfRange\nrefused 6 NoVolume\nrefused 7 BadCount\n",
    ),
];

#[test]
fn first_write_and_read(rt: HostRuntime) {
    over_folder(&rt, rt.process(), "first_rows", FIRST_WRITE_AND_READ);
}

static BYTES_ON_MEMBERS: &[Step] = &[
    Line(MAKE, UNREAD, 0, MADE),
    Line(
        RUN,
        "create a 64\nwrite a 0 0f*512\nwrite a 8 33*512\n",
        0,
        "ok\nok\nok\n",
    ),
    Holds("dev0.img", MEMBER_BYTES, ROW_32, 0x33),
    Holds("dev1.img", MEMBER_BYTES, ROW_32, 0x3c),
    Holds("dev2.img", MEMBER_BYTES, ROW_32, 0x0f),
];

#[test]
fn bytes_on_members(rt: HostRuntime) {
    over_folder(&rt, rt.process(), "bytes", BYTES_ON_MEMBERS);
}

static LAST_LINE_WITHOUT_NEWLINE: &[Step] = &[
    Line(MAKE, UNREAD, 0, MADE),
    Line(RUN, "create a 6", 0, OK),
    Line(RUN, "list\n", 0, "a 6\n"),
];

#[test]
fn last_line_without_newline(rt: HostRuntime) {
    over_folder(&rt, rt.process(), "last_line", LAST_LINE_WITHOUT_NEWLINE);
}

static STATUS_TEXT: &[Step] = &[
    Line(MAKE, UNREAD, 0, MADE),
    Line(JSON, UNREAD, 0, FRESH_JSON),
    Line(RUN, "create a 64\n", 0, OK),
    Line(FAIL_2, UNREAD, 0, OK),
    Line(STATUS, UNREAD, 0, MEMBER_DOWN),
];

#[test]
fn status_text(rt: HostRuntime) {
    over_folder(&rt, rt.process(), "status", STATUS_TEXT);
}

// A script with lines that are refused is done.
static EXIT_STATUSES: &[Step] = &[
    Line(MAKE, UNREAD, 0, MADE),
    Line(FAIL_0, UNREAD, 0, OK),
    Line(FAIL_1, UNREAD, 1, WOULD_LOSE),
    Line("fail|@|--slot|1", UNREAD, 2, SOME_TEXT),
    Line(
        RUN,
        "lists\nremove a\n",
        0,
        "refused 20 BadLine\nrefused 6 NoVolume\n",
    ),
];

#[test]
fn exit_statuses(rt: HostRuntime) {
    over_folder(&rt, rt.process(), "exit_statuses", EXIT_STATUSES);
}

static TWO_LOST_AND_NO_SET: &[Step] = &[
    Line(MAKE, UNREAD, 0, MADE),
    Line(FAIL_0, UNREAD, 0, OK),
    Take("dev3.img"),
    Line(RUN, UNREAD, 1, TWO_LOST),
    Line(STATUS, UNREAD, 1, TWO_LOST),
    Line(FAIL_0, UNREAD, 1, TWO_LOST),
    Line(FAIL_255, UNREAD, 1, TWO_LOST),
];

#[test]
fn two_lost_and_no_set(rt: HostRuntime) {
    over_folder(&rt, rt.process(), "two_lost", TWO_LOST_AND_NO_SET);
    over_folder(&rt, rt.process(), "no_set", NO_SET_STEPS);
}

// The set that is made there has another id.
const NO_SET_STEPS: &[Step] = &[
    Line(RUN, UNREAD, 1, NO_SET),
    Line(STATUS, UNREAD, 1, NO_SET),
    Line(FAIL_0, UNREAD, 1, NO_SET),
    Line(FAIL_255, UNREAD, 1, NO_SET),
    Line(
        "make|@|--id|ff0102030405060708090a0b0c0d0e0f|--members|3|--chunk|8|--stripes|32",
        UNREAD,
        0,
        MADE,
    ),
    Keep,
    Line(RUN, UNREAD, 1, NO_SET),
    Line(STATUS, UNREAD, 1, NO_SET),
    Line(FAIL_0, UNREAD, 1, NO_SET),
    Line(FAIL_255, UNREAD, 1, NO_SET),
    Kept,
];

// The status of set A without a volume, once slot 4 is missing.
const JOURNAL_AWAY: &str = "\
set 000102030405060708090a0b0c0d0e0f
members 3 chunk 8 stripes 32 rows 256
generation 2 position 0 left 0
extents 7 free 7 volumes 0 table 1
 0 member   in-sync    1
 1 member   in-sync    1
 2 member   in-sync    1
 3 journal  in-sync    1
 4 journal  missing    1
";

// Nothing is published where that was done before.
static JOURNAL_AWAY_AND_BACK: &[Step] = &[
    Line(MAKE, UNREAD, 0, MADE),
    Copy("dev4.img", "old"),
    Take("dev4.img"),
    Line(STATUS, UNREAD, 0, JOURNAL_AWAY),
    Keep,
    Line(RUN, "list\n", 0, ""),
    Line(STATUS, UNREAD, 0, JOURNAL_AWAY),
    Kept,
    Copy("old", "dev4.img"),
    Line(STATUS, UNREAD, 0, JOURNAL_AWAY),
    Same("dev4.img", "old"),
];

#[test]
fn journal_away_and_back(rt: HostRuntime) {
    over_folder(&rt, rt.process(), "journal_away", JOURNAL_AWAY_AND_BACK);
}

// The status of set A with a volume of one extent, once slot 1 is missing.
const MEMBER_AWAY: &str = "\
set 000102030405060708090a0b0c0d0e0f
members 3 chunk 8 stripes 32 rows 256
generation 2 position 0 left 0
extents 7 free 6 volumes 1 table 1
 0 member   in-sync    1
 1 member   missing    1
 2 member   in-sync    1
 3 journal  in-sync    1
 4 journal  in-sync    1
";

// Slot 1 is too short by a byte, then away, and then its old device is there, which is not taken back.
static A_MEMBER_THAT_IS_AWAY_OR_TOO_SHORT: &[Step] = &[
    Line(MAKE, UNREAD, 0, MADE),
    Line(
        RUN,
        "create a 64\nwrite a 0 0f*512\nwrite a 8 33*512\n",
        0,
        "ok\nok\nok\n",
    ),
    Copy("dev1.img", "old"),
    Put("dev1.img", MEMBER_BYTES - 1, (0, 0)),
    Line(STATUS, UNREAD, 0, MEMBER_AWAY),
    Take("dev1.img"),
    Line(
        RUN,
        "read a 0 1\nread a 8 1\nwrite a 0 66*512\nread a 0 1\n",
        0,
        "0f*512\n33*512\nok\n66*512\n",
    ),
    Copy("old", "dev1.img"),
    Line(RUN, "read a 0 1\nread a 8 1\n", 0, "66*512\n33*512\n"),
    Line(STATUS, UNREAD, 0, MEMBER_AWAY),
    Same("dev1.img", "old"),
];

#[test]
fn a_member_that_is_away_or_too_short(rt: HostRuntime) {
    over_folder(
        &rt,
        rt.process(),
        "member_away",
        A_MEMBER_THAT_IS_AWAY_OR_TOO_SHORT,
    );
}

// The status of set A without a volume, once slot 0 is missing.
const MEMBER_0_AWAY: &str = "\
set 000102030405060708090a0b0c0d0e0f
members 3 chunk 8 stripes 32 rows 256
generation 2 position 0 left 0
extents 7 free 7 volumes 0 table 1
 0 member   missing    1
 1 member   in-sync    1
 2 member   in-sync    1
 3 journal  in-sync    1
 4 journal  in-sync    1
";

// The same of slot 3.
const JOURNAL_3_AWAY: &str = "\
set 000102030405060708090a0b0c0d0e0f
members 3 chunk 8 stripes 32 rows 256
generation 2 position 0 left 0
extents 7 free 7 volumes 0 table 1
 0 member   in-sync    1
 1 member   in-sync    1
 2 member   in-sync    1
 3 journal  missing    1
 4 journal  in-sync    1
";

// A file is too short by a byte: that of a member, that of a journal, both. The set is made anew for each.
static SHORT_FILES: &[Step] = &[
    Line(MAKE, UNREAD, 0, MADE),
    Put("dev0.img", 135_167, (0, 0)),
    Line(STATUS, UNREAD, 0, MEMBER_0_AWAY),
    Line(MAKE, UNREAD, 0, MADE),
    Put("dev3.img", 266_239, (0, 0)),
    Line(STATUS, UNREAD, 0, JOURNAL_3_AWAY),
    Line(MAKE, UNREAD, 0, MADE),
    Put("dev0.img", 135_167, (0, 0)),
    Put("dev3.img", 266_239, (0, 0)),
    Line(STATUS, UNREAD, 1, TWO_LOST),
];

#[test]
fn short_files(rt: HostRuntime) {
    over_folder(&rt, rt.process(), "short_files", SHORT_FILES);
}

const BAD_TABLE: &str = "refused 18 BadTable\n";

// Logical sector 3 is row 3 of member 0, which is sector 11 and begins at byte 5,632. It says that extent 0 is of the
// first record, and then of the second, which is unused.
static FORGED_TABLE: &[Step] = &[
    Line(MAKE, UNREAD, 0, MADE),
    Line(RUN, "create a 64\nwrite a 0 11*512\n", 0, "ok\nok\n"),
    Holds("dev0.img", MEMBER_BYTES, (5_632, 5_633), 0x01),
    Put("dev0.img", MEMBER_BYTES, (5_632, 0x03)),
    Holds("dev0.img", MEMBER_BYTES, (5_632, 5_633), 0x02),
    Line(RUN, UNREAD, 1, BAD_TABLE),
];

#[test]
fn forged_table(rt: HostRuntime) {
    over_folder(&rt, rt.process(), "forged_table", FORGED_TABLE);
}

// Logical sector 0, of which the first byte is the version less one, is row 0 of member 0, and the parity of the row is
// on member 2. Row 0 is sector 8, which begins at byte 4,096.
static A_TABLE_THAT_IS_NONE: &[Step] = &[
    Line(MAKE, UNREAD, 0, MADE),
    Put("dev0.img", MEMBER_BYTES, (4_096, 2)),
    Put("dev2.img", MEMBER_BYTES, (4_096, 2)),
    Line(RUN, UNREAD, 1, BAD_TABLE),
    Line(STATUS, UNREAD, 1, BAD_TABLE),
    Line(FAIL_0, UNREAD, 1, BAD_TABLE),
    Line(FAIL_255, UNREAD, 1, BAD_TABLE),
];

#[test]
fn a_table_that_is_none(rt: HostRuntime) {
    over_folder(&rt, rt.process(), "bad_table", A_TABLE_THAT_IS_NONE);
}

// An output that takes nothing.
// The volume is created and the slot given up, though that cannot be told.
static AN_OUTPUT_THAT_IS_CLOSED: &[Step] = &[
    Line(MAKE, UNREAD, 0, MADE),
    Cut(RUN, "create a 64\nlist\n", CLOSED, (1, 5, "", WRITE_FAULT)),
    Cut(STATUS, UNREAD, CLOSED, (1, 5, "", WRITE_FAULT)),
    Cut(JSON, UNREAD, CLOSED, (1, 5, "", WRITE_FAULT)),
    Cut(FAIL_2, UNREAD, CLOSED, (1, 5, "", WRITE_FAULT)),
    Line(STATUS, UNREAD, 0, MEMBER_DOWN),
];

#[test]
fn an_output_that_is_closed(rt: HostRuntime) {
    over_folder(&rt, rt.process(), "closed_output", AN_OUTPUT_THAT_IS_CLOSED);
}

// The reader fails after two lines and a part of the third, of which the newline is left with the line after it, and
// the output within the second reply, where the third line is left.
static FAULTS_IN_THE_MIDDLE_OF_A_SCRIPT: &[Step] = &[
    Line(MAKE, UNREAD, 0, MADE),
    Cut(
        RUN,
        "create a 4\nwrite a 3 ab*512\ncreate b 4\nlist\n",
        (38, WHOLE, WHOLE),
        (1, 6, "ok\nok\n", "refused 21 ReadFault\n"),
    ),
    Line(RUN, "list\nread a 3 1\n", 0, "a 4\nab*512\n"),
    Cut(
        RUN,
        "list\nextend a 2\nremove a\n",
        (WHOLE, 5, WHOLE),
        (1, 9, "a 4\no", WRITE_FAULT),
    ),
    Line(RUN, "list\n", 0, "a 6\n"),
];

#[test]
fn faults_in_the_middle_of_a_script(rt: HostRuntime) {
    over_folder(
        &rt,
        rt.process(),
        "cut_off",
        FAULTS_IN_THE_MIDDLE_OF_A_SCRIPT,
    );
}

// A standard error that takes nothing.
const UNTOLD: (usize, usize, usize) = (WHOLE, WHOLE, 0);

static ERRORS_THAT_CANNOT_BE_TOLD: &[Step] = &[
    Cut("run|/nowhere|--id|H", UNREAD, UNTOLD, (1, 5, "", "")),
    Cut("status|/nowhere|--id|H", UNREAD, UNTOLD, (1, 5, "", "")),
    Cut("run|/nowhere|--id|00", UNREAD, UNTOLD, (2, 5, "", "")),
    Cut("fail", UNREAD, UNTOLD, (2, 5, "", "")),
];

#[test]
fn errors_that_cannot_be_told(rt: HostRuntime) {
    over_folder(&rt, rt.process(), "untold", ERRORS_THAT_CANNOT_BE_TOLD);
}

const NAME_AND_VERSION: &str = "raidtool 0.5.0\n";

static LINES_OF_THE_PROGRAM: &[Step] = &[
    Line("run|/nowhere|--id|00", UNREAD, 2, BAD_ID),
    Line("status|--json|/nowhere|--id|00", UNREAD, 2, BAD_ID),
    Line("fail|/nowhere|--slot|9|--id|00", UNREAD, 2, BAD_ID),
    Line("run", UNREAD, 2, SOME_TEXT),
    Line("run|/nowhere", UNREAD, 2, SOME_TEXT),
    Line("list", UNREAD, 2, SOME_TEXT),
    Line("status|/nowhere", UNREAD, 2, SOME_TEXT),
    Line("fail|/nowhere|--id|H", UNREAD, 2, SOME_TEXT),
    Line("fail|/nowhere|--id|H|--slot|256", UNREAD, 2, SOME_TEXT),
    Line("run|/nowhere|--id|H|--json", UNREAD, 2, SOME_TEXT),
    Line("raidtool|run|/nowhere|--id|H", UNREAD, 2, SOME_TEXT),
    Line("--version", UNREAD, 2, NAME_AND_VERSION),
    Line("-V", UNREAD, 2, NAME_AND_VERSION),
    Line("run|/nowhere|--id|H|--version", UNREAD, 2, SOME_TEXT),
];

#[test]
fn lines_of_the_program(rt: HostRuntime) {
    over_folder(&rt, rt.process(), "lines", LINES_OF_THE_PROGRAM);
}

// What the process ends with, where these are its arguments.
pub(super) fn code_of(rt: &HostRuntime, args: &[&str]) -> io::Result<ExitCode> {
    let mut all = Vec::new(rt.alloc());
    for arg in args {
        all.push(String::from_str(rt.alloc(), arg)?)?;
    }
    answer(rt, &all)
}

static STATUSES: &[(&str, u8)] = &[
    ("raidtool|run|/nowhere|--id|H", 1),
    ("raidtool|status|/nowhere|--id|H", 1),
    ("raidtool|run|/nowhere|--id|00", 2),
    ("raidtool|raidtool", 2),
    ("raidtool|--help", 2),
    ("raidtool|--version", 2),
    ("raidtool|-V", 2),
];

#[test]
fn exit_statuses_of_the_process(rt: HostRuntime) {
    for (line, status) in STATUSES {
        let code = code_of(&rt, &words_in(&rt, line, "")).expect(&rt, line);
        same(&rt, (*line, code), (*line, ExitCode::from(*status)));
    }
}

static A_SET_IN_MEMORY: &[Step] = &[
    Line("", "list\n", 0, ""),
    Line(
        "",
        "create a 64\nwrite a 0 5a*512\nread a 0 1\n",
        0,
        "ok\nok\n5a*512\n",
    ),
    Line(
        "",
        "create a 448\ncreate b 1\nlist",
        0,
        "ok\nrefused 5 NoSpace\na 448\n",
    ),
];

#[test]
fn a_set_in_memory(rt: HostRuntime) {
    over_folder(&rt, rt.process(), "memory", A_SET_IN_MEMORY);
}

// A commit makes 3 writes of each sector that it holds, on two journals and on its member, and 2 of seals; it flushes
// each journal twice, and each member that it writes. With 32 blocks that fill 16 rows these are 153, and with one
// block 14. The set is made by 15, its volume by 326: two commits of 16 rows with zeros, and one of 2 rows with the
// table, of 20. 128 writes of 16 rows and five of a block leave 5 of the 20,000, which are too few for a sixth.
#[test]
fn memory_ends_after_20_000_writes_and_flushes(rt: HostRuntime) {
    let block_line = joined(&rt, &[(b"write a 0", 1), (b" 5a*512", 32), (b"\n", 1)]);
    let script = joined(
        &rt,
        &[
            (b"create a 64\n", 1),
            (&block_line, 128),
            (b"write a 0 66*512\n", 4),
            (b"write a 63 77*512\n", 1),
            (b"read a 0 1\nread a 1 1\nread a 63 1\n", 1),
        ],
    );
    let text = joined(&rt, &[(b"ok\n", 134), (b"66*512\n5a*512\n77*512\n", 1)]);
    let whole = (WHOLE, WHOLE, WHOLE);
    line(&rt, &[], &script, whole, (0, 0, &text, b""));
    let script = joined(&rt, &[(&script, 1), (b"write a 1 88*512\nlist\n", 1)]);
    let text = joined(&rt, &[(&text, 1), (TWO_LOST.as_bytes(), 1)]);
    line(&rt, &[], &script, whole, (1, 5, &text, TWO_LOST.as_bytes()));
}
