//! The file of a slot whose device is replaced, over real files.
use crate::testing::folder::Step::{Count, Cut, Folder, Holds, Keep, Kept, Lead, Line, Put, Take};
use crate::testing::folder::{
    FAIL_0, FAIL_1, JOURNAL_BYTES, LONG, MAKE, MEMBER_BYTES, REBUILD, REPLACE_0, REPLACE_1, RUN,
    SHORT, STATUS, Step, UNREAD, over_folder,
};
use crate::testing::streams::CLOSED;
use crate::testing::texts::{COMPLETE, MADE, NO_SET, NOT_MISSING, OK, TWO_LOST, WRITE_FAULT};

const REPLACE_4: &str = "replace|@|--id|H|--slot|4";

// A volume of which two blocks are written: row 32 is not all zeros on any member.
const WRITTEN: &str = "create a 64\nwrite a 0 0f*512\nwrite a 8 33*512\n";

// The bytes of sectors 2 to 7, which belong to nothing, and those of the rows.
const BETWEEN: (usize, usize) = (1_024, 4_096);

const ROWS: (usize, usize) = (4_096, MEMBER_BYTES);

// The status of that set once slot 1 has a new device.
const REPLACED: &str = "\
set 000102030405060708090a0b0c0d0e0f
members 3 chunk 8 stripes 32 rows 256
generation 3 position 0 left 4
extents 7 free 6 volumes 1 table 1
 0 member   in-sync    1
 1 member   rebuilding 2
 2 member   in-sync    1
 3 journal  in-sync    1
 4 journal  in-sync    1
";

static A_FILE_THAT_IS_ABSENT: &[Step] = &[
    Line(MAKE, UNREAD, 0, MADE),
    Line(RUN, WRITTEN, 0, "ok\nok\nok\n"),
    Take("dev1.img"),
    Line(REPLACE_1, UNREAD, 0, OK),
    Count(5),
    Holds("dev1.img", MEMBER_BYTES, ROWS, 0),
    Line(STATUS, UNREAD, 0, REPLACED),
];

static A_FILE_THAT_IS_EMPTY: &[Step] = &[
    Line(MAKE, UNREAD, 0, MADE),
    Line(RUN, WRITTEN, 0, "ok\nok\nok\n"),
    Put("dev1.img", 0, (0, 0)),
    Line(REPLACE_1, UNREAD, 0, OK),
    Holds("dev1.img", MEMBER_BYTES, ROWS, 0),
    Line(STATUS, UNREAD, 0, REPLACED),
];

#[test]
fn a_file_that_is_absent_or_empty(rt: HostRuntime) {
    over_folder(&rt, rt.process(), "replace_absent", A_FILE_THAT_IS_ABSENT);
    over_folder(&rt, rt.process(), "replace_empty", A_FILE_THAT_IS_EMPTY);
}

// Its superblock would make the slot live again, with zeros in place of what was cut off.
static A_FILE_A_SECTOR_SHORT: &[Step] = &[
    Line(MAKE, UNREAD, 0, MADE),
    Line(RUN, WRITTEN, 0, "ok\nok\nok\n"),
    Put("dev1.img", MEMBER_BYTES - 512, (2_000, 1)),
    Line(REPLACE_1, UNREAD, 0, OK),
    Holds("dev1.img", MEMBER_BYTES, BETWEEN, 0),
    Holds("dev1.img", MEMBER_BYTES, ROWS, 0),
    Line(STATUS, UNREAD, 0, REPLACED),
];

// The last sector of member 0 is logical sector 511, which is block 447 of a volume over all extents.
static THE_LAST_BLOCK_OF_A_MEMBER: &[Step] = &[
    Line(MAKE, UNREAD, 0, MADE),
    Line(RUN, "create a 448\nwrite a 447 77*512\n", 0, "ok\nok\n"),
    Holds(
        "dev0.img",
        MEMBER_BYTES,
        (MEMBER_BYTES - 512, MEMBER_BYTES),
        0x77,
    ),
    Put("dev0.img", MEMBER_BYTES - 512, (0, 0)),
    Line(REPLACE_0, UNREAD, 0, OK),
    Line(RUN, "read a 447 1\n", 0, "77*512\n"),
    Line(REBUILD, UNREAD, 0, COMPLETE),
    Line(RUN, "read a 447 1\n", 0, "77*512\n"),
    Holds(
        "dev0.img",
        MEMBER_BYTES,
        (MEMBER_BYTES - 512, MEMBER_BYTES),
        0x77,
    ),
];

static A_FILE_A_BYTE_SHORT: &[Step] = &[
    Line(MAKE, UNREAD, 0, MADE),
    Line(RUN, WRITTEN, 0, "ok\nok\nok\n"),
    Put("dev1.img", MEMBER_BYTES - 1, (2_000, 1)),
    Line(REPLACE_1, UNREAD, 0, OK),
    Holds("dev1.img", MEMBER_BYTES, BETWEEN, 0),
    Holds("dev1.img", MEMBER_BYTES, ROWS, 0),
    Line(STATUS, UNREAD, 0, REPLACED),
];

#[test]
fn a_file_that_is_too_short_is_emptied(rt: HostRuntime) {
    over_folder(&rt, rt.process(), "replace_sector", A_FILE_A_SECTOR_SHORT);
    over_folder(&rt, rt.process(), "replace_byte", A_FILE_A_BYTE_SHORT);
    over_folder(
        &rt,
        rt.process(),
        "replace_last",
        THE_LAST_BLOCK_OF_A_MEMBER,
    );
}

static A_JOURNAL_A_BYTE_SHORT: &[Step] = &[
    Line(MAKE, UNREAD, 0, MADE),
    Line(RUN, WRITTEN, 0, "ok\nok\nok\n"),
    Put("dev4.img", JOURNAL_BYTES - 1, (2_500, 1)),
    Line(REPLACE_4, UNREAD, 0, OK),
    Holds("dev4.img", JOURNAL_BYTES, (2_048, 4_096), 0),
    Count(5),
];

#[test]
fn a_journal_that_is_too_short(rt: HostRuntime) {
    over_folder(&rt, rt.process(), "replace_journal", A_JOURNAL_A_BYTE_SHORT);
}

// The bytes after the sectors of the set stay, and so do those that belong to nothing.
static FILES_THAT_ARE_LONG_ENOUGH: &[Step] = &[
    Line(MAKE, UNREAD, 0, MADE),
    Keep,
    Line(REPLACE_1, UNREAD, 1, NOT_MISSING),
    Kept,
    Line(FAIL_1, UNREAD, 0, OK),
    Put("dev1.img", 1_024, (0, 0)),
    Put("dev1.img", LONG, (0, 0)),
    Line(REPLACE_1, UNREAD, 0, OK),
    Holds("dev1.img", LONG, BETWEEN, 0x5a),
    Holds("dev1.img", LONG, (MEMBER_BYTES, LONG), 0x5a),
];

#[test]
fn files_that_are_long_enough(rt: HostRuntime) {
    over_folder(
        &rt,
        rt.process(),
        "replace_long",
        FILES_THAT_ARE_LONG_ENOUGH,
    );
}

// What slot 1 has may still be wanted, where another slot is not in sync or not there.
static ANOTHER_SLOT_IS_MISSING: &[Step] = &[
    Line(MAKE, UNREAD, 0, MADE),
    Line(FAIL_0, UNREAD, 0, OK),
    Put("dev1.img", SHORT, (2_000, 1)),
    Keep,
    Line(REPLACE_1, UNREAD, 1, TWO_LOST),
    Kept,
    Take("dev1.img"),
    Line(REPLACE_1, UNREAD, 1, TWO_LOST),
    Count(5),
];

static ANOTHER_SLOT_IS_REBUILDING: &[Step] = &[
    Line(MAKE, UNREAD, 0, MADE),
    Line(FAIL_0, UNREAD, 0, OK),
    Line(REPLACE_0, UNREAD, 0, OK),
    Put("dev1.img", SHORT, (2_000, 1)),
    Keep,
    Line(REPLACE_1, UNREAD, 1, TWO_LOST),
    Kept,
];

static ANOTHER_FILE_IS_ABSENT: &[Step] = &[
    Line(MAKE, UNREAD, 0, MADE),
    Take("dev3.img"),
    Put("dev1.img", SHORT, (2_000, 1)),
    Keep,
    Line(REPLACE_1, UNREAD, 1, TWO_LOST),
    Kept,
];

static ANOTHER_FILE_IS_TOO_SHORT: &[Step] = &[
    Line(MAKE, UNREAD, 0, MADE),
    Put("dev2.img", SHORT, (0, 0)),
    Put("dev1.img", SHORT, (2_000, 1)),
    Keep,
    Line(REPLACE_1, UNREAD, 1, TWO_LOST),
    Kept,
];

#[test]
fn no_file_is_touched_where_another_slot_is_lost(rt: HostRuntime) {
    over_folder(
        &rt,
        rt.process(),
        "replace_missing",
        ANOTHER_SLOT_IS_MISSING,
    );
    over_folder(
        &rt,
        rt.process(),
        "replace_rebuilding",
        ANOTHER_SLOT_IS_REBUILDING,
    );
    over_folder(&rt, rt.process(), "replace_away", ANOTHER_FILE_IS_ABSENT);
    over_folder(
        &rt,
        rt.process(),
        "replace_short",
        ANOTHER_FILE_IS_TOO_SHORT,
    );
}

static SLOTS_THAT_THE_SET_HAS_NOT: &[Step] = &[
    Line("replace|@|--id|H|--slot|0", UNREAD, 1, NO_SET),
    Count(0),
    Line(MAKE, UNREAD, 0, MADE),
    Keep,
    Line("replace|@|--id|H|--slot|5", UNREAD, 1, NOT_MISSING),
    Line("replace|@|--id|H|--slot|255", UNREAD, 1, NOT_MISSING),
    Kept,
    Count(6),
];

#[test]
fn slots_that_the_set_has_not(rt: HostRuntime) {
    over_folder(
        &rt,
        rt.process(),
        "replace_no_slot",
        SLOTS_THAT_THE_SET_HAS_NOT,
    );
}

const BAD_TABLE: &str = "refused 18 BadTable\n";

// The volumes' table, whose first byte is that of row 0 on member 0 and has its parity on member 2, has no version that
// there is. It is looked at once slot 1 has a file: one that was created is removed again, and one that was emptied
// stays.
static A_SET_THAT_IS_REFUSED: &[Step] = &[
    Line(MAKE, UNREAD, 0, MADE),
    Put("dev0.img", MEMBER_BYTES, (4_096, 2)),
    Put("dev2.img", MEMBER_BYTES, (4_096, 2)),
    Take("dev1.img"),
    Line(REPLACE_1, UNREAD, 1, BAD_TABLE),
    Count(4),
    Holds("dev1.img", 0, (0, 0), 0),
    Put("dev1.img", SHORT, (0, 0)),
    Line(REPLACE_1, UNREAD, 1, BAD_TABLE),
    Count(5),
    Holds("dev1.img", MEMBER_BYTES, (0, MEMBER_BYTES), 0),
];

#[test]
fn a_set_that_is_refused(rt: HostRuntime) {
    over_folder(&rt, rt.process(), "replace_refused", A_SET_THAT_IS_REFUSED);
}

// The slot has its device, though that cannot be told.
static A_FILE_THAT_IS_NOT_TOLD: &[Step] = &[
    Line(MAKE, UNREAD, 0, MADE),
    Line(RUN, WRITTEN, 0, "ok\nok\nok\n"),
    Take("dev1.img"),
    Cut(REPLACE_1, UNREAD, CLOSED, (1, 5, "", WRITE_FAULT)),
    Holds("dev1.img", MEMBER_BYTES, ROWS, 0),
    Line(STATUS, UNREAD, 0, REPLACED),
];

#[test]
fn a_file_that_is_not_told(rt: HostRuntime) {
    over_folder(&rt, rt.process(), "replace_untold", A_FILE_THAT_IS_NOT_TOLD);
}

// A link to a file in no folder stands in the file's place, and then a folder.
static A_FILE_THAT_CANNOT_BE_MADE: &[Step] = &[
    Line(MAKE, UNREAD, 0, MADE),
    Take("dev1.img"),
    Lead("nowhere/disk.img", "dev1.img"),
    Line(REPLACE_1, UNREAD, 1, "cannot make dev1.img\n"),
    Take("dev1.img"),
    Folder("dev1.img"),
    Line(REPLACE_1, UNREAD, 1, "not a regular file: dev1.img\n"),
];

#[test]
fn a_file_that_cannot_be_made(rt: HostRuntime) {
    over_folder(
        &rt,
        rt.process(),
        "replace_blocked",
        A_FILE_THAT_CANNOT_BE_MADE,
    );
}
