//! Device files that another program has locked, or another slot has.
use crate::testing::folder::Step::{Copy, Count, Keep, Kept, Line, Link, Put, Take};
use crate::testing::folder::{
    FAIL_2, MAKE, REBUILD, REPLACE_2, RUN, SCRUB, SHORT, STATUS, Step, UNREAD, all_go,
    empty_folder, over_folder, path_of,
};
use crate::testing::same;
use crate::testing::texts::{COMPLETE, MADE, MEMBER_DOWN, OK, SOUND};
use std::fs;

const IN_USE_1: &str = "in use dev1.img\n";

const IN_USE_2: &str = "in use dev2.img\n";

const IN_USE_7: &str = "in use dev7.img\n";

static A_SET: &[Step] = &[Line(MAKE, UNREAD, 0, MADE), Keep];

// Nothing of the script is read, and no byte is changed.
static LOCKED: &[Step] = &[
    Line(MAKE, UNREAD, 1, IN_USE_1),
    Line(RUN, UNREAD, 1, IN_USE_1),
    Line(STATUS, UNREAD, 1, IN_USE_1),
    Line(FAIL_2, UNREAD, 1, IN_USE_1),
    Line(REPLACE_2, UNREAD, 1, IN_USE_1),
    Line(REBUILD, UNREAD, 1, IN_USE_1),
    Line(SCRUB, UNREAD, 1, IN_USE_1),
    Kept,
    Count(6),
];

static GIVEN_BACK: &[Step] = &[
    Line(RUN, "create a 64\n", 0, OK),
    Line(FAIL_2, UNREAD, 0, OK),
    Line(STATUS, UNREAD, 0, MEMBER_DOWN),
    Line(REPLACE_2, UNREAD, 0, OK),
    Line(REBUILD, UNREAD, 0, COMPLETE),
    Line(SCRUB, UNREAD, 0, SOUND),
    Line(MAKE, UNREAD, 0, MADE),
    Line(RUN, "list\n", 0, ""),
];

#[test]
fn a_file_that_another_program_has_locked(rt: HostRuntime) {
    let folder = empty_folder(&rt, rt.process(), "held");
    all_go(&rt, &folder, A_SET);
    let file = fs::open(&rt, path_of(&rt, &folder, "dev1.img")).expect(&rt, "a file");
    same(&rt, file.try_lock().is_ok(), true);
    all_go(&rt, &folder, LOCKED);
    drop(file);
    all_go(&rt, &folder, GIVEN_BACK);
    fs::remove_dir_all(&rt, &folder).expect(&rt, "a folder");
}

static A_SET_WITHOUT_A_MEMBER: &[Step] = &[
    Line(MAKE, UNREAD, 0, MADE),
    Take("dev1.img"),
    Put("dev7.img", 3, (0, 0)),
    Keep,
];

// The file of slot 7 belongs to no slot of the set. No file is created in slot 1.
static LOCKED_AFTER_THE_SET: &[Step] = &[
    Line(MAKE, UNREAD, 1, IN_USE_7),
    Line(RUN, UNREAD, 1, IN_USE_7),
    Line("replace|@|--id|H|--slot|1", UNREAD, 1, IN_USE_7),
    Kept,
    Count(6),
];

#[test]
fn a_file_after_the_set_that_another_program_has_locked(rt: HostRuntime) {
    let folder = empty_folder(&rt, rt.process(), "held_behind");
    all_go(&rt, &folder, A_SET_WITHOUT_A_MEMBER);
    let file = fs::open(&rt, path_of(&rt, &folder, "dev7.img")).expect(&rt, "a file");
    same(&rt, file.try_lock().is_ok(), true);
    all_go(&rt, &folder, LOCKED_AFTER_THE_SET);
    drop(file);
    all_go(&rt, &folder, &[Line(MAKE, UNREAD, 0, MADE), Count(7)]);
    fs::remove_dir_all(&rt, &folder).expect(&rt, "a folder");
}

// Slot 2 has the file of slot 1, and then slot 7 has that of slot 1.
static ONE_FILE_IN_TWO_SLOTS: &[Step] = &[
    Line(MAKE, UNREAD, 0, MADE),
    Copy("dev2.img", "away"),
    Take("dev2.img"),
    Link("dev1.img", "dev2.img"),
    Keep,
    Line(MAKE, UNREAD, 1, IN_USE_2),
    Line(RUN, UNREAD, 1, IN_USE_2),
    Line(STATUS, UNREAD, 1, IN_USE_2),
    Line(FAIL_2, UNREAD, 1, IN_USE_2),
    Line(REPLACE_2, UNREAD, 1, IN_USE_2),
    Line(REBUILD, UNREAD, 1, IN_USE_2),
    Line(SCRUB, UNREAD, 1, IN_USE_2),
    Kept,
    Take("dev2.img"),
    Copy("away", "dev2.img"),
    Line(SCRUB, UNREAD, 0, SOUND),
    Link("dev1.img", "dev7.img"),
    Line(SCRUB, UNREAD, 1, IN_USE_7),
    Take("dev7.img"),
    Line(SCRUB, UNREAD, 0, SOUND),
];

#[test]
fn one_file_in_two_slots(rt: HostRuntime) {
    over_folder(&rt, rt.process(), "two_slots", ONE_FILE_IN_TWO_SLOTS);
}

// A file that is too short is not lengthened before the others are looked at.
static NO_FILE_IS_MADE_FOR_TWO_SLOTS: &[Step] = &[
    Put("dev0.img", SHORT, (0, 0)),
    Link("dev0.img", "dev1.img"),
    Keep,
    Line(MAKE, UNREAD, 1, IN_USE_1),
    Kept,
    Count(3),
];

#[test]
fn no_file_is_made_for_two_slots(rt: HostRuntime) {
    over_folder(
        &rt,
        rt.process(),
        "two_slots_unmade",
        NO_FILE_IS_MADE_FOR_TWO_SLOTS,
    );
}
