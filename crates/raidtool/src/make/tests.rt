//! The command `make` over real files.
use crate::testing::folder::Step::{Count, Folder, Holds, Keep, Kept, Lead, Line, Put, Take};
use crate::testing::folder::{
    JOURNAL_BYTES, LONG, MAKE, MEMBER_BYTES, REPLACE_1, RUN, SHORT, STATUS, Step, UNREAD,
    empty_folder, over_folder, says,
};
use crate::testing::same;
use crate::testing::texts::{BAD_ID, MADE};
use std::fs;

static A_SET_IN_AN_EMPTY_FOLDER: &[Step] = &[
    Line(MAKE, UNREAD, 0, MADE),
    Count(5),
    Holds("dev0.img", MEMBER_BYTES, (0, 0), 0),
    Holds("dev1.img", MEMBER_BYTES, (0, 0), 0),
    Holds("dev2.img", MEMBER_BYTES, (0, 0), 0),
    Holds("dev3.img", JOURNAL_BYTES, (0, 0), 0),
    Holds("dev4.img", JOURNAL_BYTES, (0, 0), 0),
];

#[test]
fn a_set_in_an_empty_folder(rt: HostRuntime) {
    over_folder(&rt, rt.process(), "make_empty", A_SET_IN_AN_EMPTY_FOLDER);
}

// Both files are of the byte 0x5a. Sectors 2 to 7 of a member belong to nothing.
static FILES_THAT_ARE_THERE_ARE_NEVER_CUT: &[Step] = &[
    Put("dev1.img", LONG, (0, 0)),
    Put("dev2.img", SHORT, (0, 0)),
    Line(MAKE, UNREAD, 0, MADE),
    Holds("dev1.img", LONG, (MEMBER_BYTES, LONG), 0x5a),
    Holds("dev1.img", LONG, (1_024, 4_096), 0x5a),
    Holds("dev2.img", MEMBER_BYTES, (SHORT, MEMBER_BYTES), 0),
    Holds("dev2.img", MEMBER_BYTES, (1_024, 4_096), 0x5a),
];

#[test]
fn files_that_are_there_are_never_cut(rt: HostRuntime) {
    over_folder(
        &rt,
        rt.process(),
        "make_there",
        FILES_THAT_ARE_THERE_ARE_NEVER_CUT,
    );
}

// The journal in slot 4 and slot 0 are absent, slot 1 is too short, and a link to a file in no folder stands in the
// place of slot 3.
static A_FILE_THAT_CANNOT_BE_MADE: &[Step] = &[
    Put("dev1.img", SHORT, (2_000, 1)),
    Put("dev2.img", LONG, (0, 0)),
    Lead("nowhere/disk.img", "dev3.img"),
    Keep,
    Line(MAKE, UNREAD, 1, "cannot make dev3.img\n"),
    Kept,
    Count(4),
    Holds("dev1.img", SHORT, (2_001, SHORT), 0x5a),
];

#[test]
fn what_was_made_is_taken_back(rt: HostRuntime) {
    over_folder(&rt, rt.process(), "make_undone", A_FILE_THAT_CANNOT_BE_MADE);
}

const MAKE_8: &str = "make|@|--id|H|--members|8|--chunk|8|--stripes|32";

const MAKE_ANOTHER: &str =
    "make|@|--id|ff0102030405060708090a0b0c0d0e0f|--members|3|--chunk|8|--stripes|32";

const OTHER_5: &str = "another set with this id: dev5.img\n";

const OTHER_9: &str = "another set with this id: dev9.img\n";

// A set of 8 members has ten slots, and one of 3 members five.
static ANOTHER_SET_WITH_THE_ID: &[Step] = &[
    Line(MAKE_8, UNREAD, 0, MADE),
    Count(10),
    Keep,
    Line(MAKE, UNREAD, 1, OTHER_5),
    Kept,
    Put("dev1.img", SHORT, (0, 0)),
    Take("dev3.img"),
    Keep,
    Line(MAKE, UNREAD, 1, OTHER_5),
    Kept,
    Count(10),
    Line(MAKE_ANOTHER, UNREAD, 0, MADE),
    Line(MAKE, UNREAD, 1, OTHER_5),
    Take("dev5.img"),
    Take("dev6.img"),
    Take("dev7.img"),
    Take("dev8.img"),
    Line(MAKE, UNREAD, 1, OTHER_9),
    Take("dev9.img"),
    Line(MAKE, UNREAD, 0, MADE),
    Line(MAKE_8, UNREAD, 0, MADE),
];

#[test]
fn another_set_with_the_id(rt: HostRuntime) {
    over_folder(&rt, rt.process(), "make_other", ANOTHER_SET_WITH_THE_ID);
}

// A folder stands in the place of a file, be it one of the set's or not: nothing is made, also before.
static A_FOLDER_IN_THE_PLACE_OF_A_FILE: &[Step] = &[
    Put("dev1.img", SHORT, (2_000, 1)),
    Folder("dev9.img"),
    Keep,
    Line(MAKE, UNREAD, 1, "not a regular file: dev9.img\n"),
    Line(RUN, UNREAD, 1, "not a regular file: dev9.img\n"),
    Line(STATUS, UNREAD, 1, "not a regular file: dev9.img\n"),
    Line(REPLACE_1, UNREAD, 1, "not a regular file: dev9.img\n"),
    Folder("dev3.img"),
    Line(MAKE, UNREAD, 1, "not a regular file: dev3.img\n"),
    Kept,
    Count(4),
];

#[test]
fn a_folder_in_the_place_of_a_file(rt: HostRuntime) {
    over_folder(
        &rt,
        rt.process(),
        "make_folder",
        A_FOLDER_IN_THE_PLACE_OF_A_FILE,
    );
}

// The folder itself is away.
#[test]
fn files_that_cannot_be_made(rt: HostRuntime) {
    let folder = empty_folder(&rt, rt.process(), "make_blocked");
    let line = (MAKE, UNREAD);
    fs::remove_dir_all(&rt, &folder).expect(&rt, "a folder");
    says(&rt, folder.as_str(), line, 1, "cannot make dev0.img\n");
    same(&rt, fs::exists(&rt, &folder).ok(), Some(false));
}

static NOTHING_IS_CREATED_FOR_A_BAD_LINE: &[Step] = &[
    Line(
        "make|@|--id|H|--members|3|--chunk|9|--stripes|32",
        UNREAD,
        1,
        "refused 19 BadGeometry\n",
    ),
    Line(
        "make|@|--id|00|--members|3|--chunk|9|--stripes|32",
        UNREAD,
        2,
        BAD_ID,
    ),
    Count(0),
];

#[test]
fn nothing_is_created_for_a_bad_line(rt: HostRuntime) {
    over_folder(
        &rt,
        rt.process(),
        "make_bad",
        NOTHING_IS_CREATED_FOR_A_BAD_LINE,
    );
}
