//! A device that is lost, replaced and rebuilt, and the rows compared with their parity.
use crate::testing::folder::Step::{Copy, Holds, Keep, Kept, Line, Take};
use crate::testing::folder::{
    FAIL_0, FAIL_1, JOURNAL_BYTES, MAKE, MEMBER_BYTES, REBUILD, REPLACE_0, REPLACE_2, RUN, SCRUB,
    SOME_TEXT, STATUS, Step, UNREAD, over_folder,
};
use crate::testing::texts::{
    BAD_ID, COMPLETE, INCOMPLETE, MADE, NO_SET, NOT_MISSING, NOTHING_TO_REBUILD, OK, SOUND,
    TWO_LOST, WOULD_LOSE,
};

const REPLACE_3: &str = "replace|@|--id|H|--slot|3";

// The bytes of sector 208, which is row 200.
const ROW_200: (usize, usize) = (106_496, 107_008);

const FAIL_5: &str = "fail|@|--id|H|--slot|5";

// No refusal changes a byte.
static FAIL_REFUSALS: &[Step] = &[
    Line(MAKE, UNREAD, 0, MADE),
    Keep,
    Line(FAIL_5, UNREAD, 1, NOT_MISSING),
    Line(REPLACE_0, UNREAD, 1, NOT_MISSING),
    Line(REBUILD, UNREAD, 1, NOTHING_TO_REBUILD),
    Kept,
    Line(FAIL_0, UNREAD, 0, OK),
    Keep,
    Line(FAIL_1, UNREAD, 1, WOULD_LOSE),
    Line(FAIL_0, UNREAD, 0, OK),
    Line(FAIL_5, UNREAD, 1, WOULD_LOSE),
    Line(REPLACE_2, UNREAD, 1, NOT_MISSING),
    Line(REBUILD, UNREAD, 1, NOTHING_TO_REBUILD),
    Line(SCRUB, UNREAD, 1, INCOMPLETE),
    Kept,
];

#[test]
fn fail_refusals(rt: HostRuntime) {
    over_folder(&rt, rt.process(), "fail_refusals", FAIL_REFUSALS);
}

// The status of set A once its first journal was replaced.
const JOURNAL_REPLACED: &str = "\
set 000102030405060708090a0b0c0d0e0f
members 3 chunk 8 stripes 32 rows 256
generation 3 position 0 left 0
extents 7 free 7 volumes 0 table 1
 0 member   in-sync    1
 1 member   in-sync    1
 2 member   in-sync    1
 3 journal  in-sync    2
 4 journal  in-sync    1
";

// The journal's file is gone, and `replace` makes a new one.
static REPLACED_JOURNAL: &[Step] = &[
    Line(MAKE, UNREAD, 0, MADE),
    Take("dev3.img"),
    Line(REPLACE_3, UNREAD, 0, OK),
    Line(STATUS, UNREAD, 0, JOURNAL_REPLACED),
    Holds("dev3.img", JOURNAL_BYTES, (0, 512), 0),
    Line(REBUILD, UNREAD, 1, NOTHING_TO_REBUILD),
    Line(REPLACE_3, UNREAD, 1, NOT_MISSING),
    Line(SCRUB, UNREAD, 0, SOUND),
];

#[test]
fn replaced_journal(rt: HostRuntime) {
    over_folder(&rt, rt.process(), "replaced_journal", REPLACED_JOURNAL);
}

// The file of slot 2 is gone. A member is rebuilt by all steps that it takes, and then any other may go.
static A_FILE_THAT_IS_GONE: &[Step] = &[
    Line(MAKE, UNREAD, 0, MADE),
    Line(
        RUN,
        "create a 448\nwrite a 0 11*512\nwrite a 336 22*512\nwrite a 447 33*512\n",
        0,
        "ok\nok\nok\nok\n",
    ),
    Take("dev2.img"),
    Line(REPLACE_2, UNREAD, 0, OK),
    Holds("dev2.img", MEMBER_BYTES, ROW_200, 0),
    Line(REBUILD, UNREAD, 0, COMPLETE),
    Holds("dev2.img", MEMBER_BYTES, ROW_200, 0x22),
    Line(SCRUB, UNREAD, 0, SOUND),
    Take("dev0.img"),
    Line(
        RUN,
        "read a 0 1\nread a 336 1\nread a 447 1\n",
        0,
        "11*512\n22*512\n33*512\n",
    ),
];

#[test]
fn a_file_that_is_gone(rt: HostRuntime) {
    over_folder(&rt, rt.process(), "file_gone", A_FILE_THAT_IS_GONE);
}

// Slot 3 is away beside slot 0, which is missing. No file is made and none is changed, until slot 3 is back.
static EXIT_STATUSES: &[Step] = &[
    Line(REPLACE_0, UNREAD, 1, NO_SET),
    Line(REBUILD, UNREAD, 1, NO_SET),
    Line(SCRUB, UNREAD, 1, NO_SET),
    Line("replace|@|--id|H", UNREAD, 2, SOME_TEXT),
    Line("replace|@|--id|0|--slot|0", UNREAD, 2, BAD_ID),
    Line("rebuild|@|--id|H|--steps|0", UNREAD, 2, SOME_TEXT),
    Line("rebuild|@|--id|0", UNREAD, 2, BAD_ID),
    Line("scrub|@|--id|H|--slot|0", UNREAD, 2, SOME_TEXT),
    Line("scrub|@|--id|0", UNREAD, 2, BAD_ID),
    Line(MAKE, UNREAD, 0, MADE),
    Line(FAIL_0, UNREAD, 0, OK),
    Copy("dev3.img", "away"),
    Take("dev3.img"),
    Keep,
    Line(REPLACE_0, UNREAD, 1, TWO_LOST),
    Line(REPLACE_3, UNREAD, 1, TWO_LOST),
    Line(REBUILD, UNREAD, 1, TWO_LOST),
    Line(SCRUB, UNREAD, 1, TWO_LOST),
    Kept,
    Copy("away", "dev3.img"),
    Line(REPLACE_0, UNREAD, 0, OK),
    Line(REBUILD, UNREAD, 0, COMPLETE),
    Line(SCRUB, UNREAD, 0, SOUND),
];

#[test]
fn exit_statuses(rt: HostRuntime) {
    over_folder(&rt, rt.process(), "whole_statuses", EXIT_STATUSES);
}
