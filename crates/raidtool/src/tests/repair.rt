//! Lines that replace a slot's device, rebuild a member and scrub a set, over real files.
use crate::testing::folder::Step::{Copy, Cut, Keep, Kept, Line, Put, Take};
use crate::testing::folder::{
    FAIL_0, FAIL_2, MAKE, MEMBER_BYTES, REBUILD, REPLACE_0, REPLACE_2, RUN, SCRUB, STATUS, Step,
    UNREAD, over_folder,
};
use crate::testing::streams::{CLOSED, WHOLE};
use crate::testing::texts::{
    COMPLETE, INCOMPLETE, MADE, MEMBER_DOWN, NO_SET, NOT_MISSING, NOTHING_TO_REBUILD, OK,
    REBUILDING, SOUND, WRITE_FAULT,
};

const STEPS_1: &str = "rebuild|@|--id|H|--steps|1";

const JSON: &str = "status|@|--id|H|--json";

const STEPS_2: &str = "rebuild|@|--id|H|--steps|2";

// Logical sectors 80 and 400 lie in rows 40 and 200: after the first step's rows and before them.
static REBUILD_UNDER_WRITES: &[Step] = &[
    Line(MAKE, UNREAD, 0, MADE),
    Line(RUN, "create a 448\n", 0, OK),
    Line(FAIL_2, UNREAD, 0, OK),
    Line(REPLACE_2, UNREAD, 0, OK),
    Line(STEPS_1, UNREAD, 0, "position 64 of 256, 3 left\n"),
    Line(
        RUN,
        "write a 16 44*512\nwrite a 336 55*512\n",
        0,
        "ok\nok\n",
    ),
    Line(STEPS_2, UNREAD, 0, "position 192 of 256, 1 left\n"),
    Line(REBUILD, UNREAD, 0, COMPLETE),
    Line(SCRUB, UNREAD, 0, SOUND),
    Line(RUN, "read a 16 1\nread a 336 1\n", 0, "44*512\n55*512\n"),
];

#[test]
fn rebuild_under_writes(rt: HostRuntime) {
    over_folder(&rt, rt.process(), "rebuild_writes", REBUILD_UNDER_WRITES);
}

// Slot 2 of set A while none of its rows is done, and once 64 are.
const LEFT_4: &str = "\
set 000102030405060708090a0b0c0d0e0f
members 3 chunk 8 stripes 32 rows 256
generation 3 position 0 left 4
extents 7 free 7 volumes 0 table 1
 0 member   in-sync    1
 1 member   in-sync    1
 2 member   rebuilding 2
 3 journal  in-sync    1
 4 journal  in-sync    1
";

const LEFT_3: &str = "\
set 000102030405060708090a0b0c0d0e0f
members 3 chunk 8 stripes 32 rows 256
generation 4 position 64 left 3
extents 7 free 7 volumes 0 table 1
 0 member   in-sync    1
 1 member   in-sync    1
 2 member   rebuilding 2
 3 journal  in-sync    1
 4 journal  in-sync    1
";

const LEFT_3_JSON: &str = "{\"chunk\":8,\"extents\":7,\"free\":7,\"generation\":4,\
\"id\":\"000102030405060708090a0b0c0d0e0f\",\"left\":3,\"members\":3,\"position\":64,\"rows\":256,\"slots\":[\
{\"incarnation\":1,\"role\":\"member\",\"slot\":0,\"state\":\"in-sync\"},\
{\"incarnation\":1,\"role\":\"member\",\"slot\":1,\"state\":\"in-sync\"},\
{\"incarnation\":2,\"role\":\"member\",\"slot\":2,\"state\":\"rebuilding\"},\
{\"incarnation\":1,\"role\":\"journal\",\"slot\":3,\"state\":\"in-sync\"},\
{\"incarnation\":1,\"role\":\"journal\",\"slot\":4,\"state\":\"in-sync\"}],\
\"stripes\":32,\"table\":1,\"volumes\":0}\n";

// The set is at rest again: no step is left, though its position is 0.
const LEFT_0: &str = "\
set 000102030405060708090a0b0c0d0e0f
members 3 chunk 8 stripes 32 rows 256
generation 7 position 0 left 0
extents 7 free 7 volumes 0 table 1
 0 member   in-sync    1
 1 member   in-sync    1
 2 member   in-sync    2
 3 journal  in-sync    1
 4 journal  in-sync    1
";

static STEPS_LEFT_TEXTS: &[Step] = &[
    Line(MAKE, UNREAD, 0, MADE),
    Line(FAIL_2, UNREAD, 0, OK),
    Line(REPLACE_2, UNREAD, 0, OK),
    Line(STATUS, UNREAD, 0, LEFT_4),
    Line(STEPS_1, UNREAD, 0, "position 64 of 256, 3 left\n"),
    Line(STATUS, UNREAD, 0, LEFT_3),
    Line(JSON, UNREAD, 0, LEFT_3_JSON),
    Line(REBUILD, UNREAD, 0, COMPLETE),
    Line(STATUS, UNREAD, 0, LEFT_0),
];

// The last step counts where it is not full: 200 rows are three of 64, and one of 8.
static STEPS_LEFT_OF_200_ROWS: &[Step] = &[
    Line(
        "make|@|--id|H|--members|3|--chunk|8|--stripes|25",
        UNREAD,
        0,
        MADE,
    ),
    Line(FAIL_2, UNREAD, 0, OK),
    Line(REPLACE_2, UNREAD, 0, OK),
    Line(STEPS_1, UNREAD, 0, "position 64 of 200, 3 left\n"),
    Line(STEPS_2, UNREAD, 0, "position 192 of 200, 1 left\n"),
    Line(STEPS_1, UNREAD, 0, COMPLETE),
];

#[test]
fn steps_left_texts(rt: HostRuntime) {
    over_folder(&rt, rt.process(), "steps_left", STEPS_LEFT_TEXTS);
    over_folder(&rt, rt.process(), "steps_of_200", STEPS_LEFT_OF_200_ROWS);
}

// Byte 6,656 is the first of sector 13, which is row 5.
static CHANGED_PARITY_BYTE: &[Step] = &[
    Line(MAKE, UNREAD, 0, MADE),
    Put("dev2.img", MEMBER_BYTES, (6_656, 1)),
    Keep,
    Line(SCRUB, UNREAD, 0, "256 rows, 1 bad, first 5\n"),
    Kept,
];

#[test]
fn changed_parity_byte(rt: HostRuntime) {
    over_folder(&rt, rt.process(), "changed_parity", CHANGED_PARITY_BYTE);
}

// The old device holds 66 in block 0.
static OLD_MEMBER_RETURNS: &[Step] = &[
    Line(MAKE, UNREAD, 0, MADE),
    Line(RUN, "create a 64\nwrite a 0 66*512\n", 0, "ok\nok\n"),
    Copy("dev2.img", "old"),
    Take("dev2.img"),
    Line(RUN, "write a 0 99*512\n", 0, OK),
    Copy("old", "dev2.img"),
    Line(STATUS, UNREAD, 0, MEMBER_DOWN),
    Line(RUN, "read a 0 1\n", 0, "99*512\n"),
    Line(REPLACE_2, UNREAD, 0, OK),
    Line(STATUS, UNREAD, 0, REBUILDING),
    Line(REBUILD, UNREAD, 0, COMPLETE),
    Line(SCRUB, UNREAD, 0, SOUND),
    Line(RUN, "read a 0 1\n", 0, "99*512\n"),
];

#[test]
fn old_member_returns(rt: HostRuntime) {
    over_folder(&rt, rt.process(), "old_member", OLD_MEMBER_RETURNS);
}

static REPAIRS_THAT_ARE_REFUSED: &[Step] = &[
    Line(SCRUB, UNREAD, 1, NO_SET),
    Line(REBUILD, UNREAD, 1, NO_SET),
    Line(MAKE, UNREAD, 0, MADE),
    Keep,
    Line(REPLACE_0, UNREAD, 1, NOT_MISSING),
    Line(REBUILD, UNREAD, 1, NOTHING_TO_REBUILD),
    Line(STEPS_1, UNREAD, 1, NOTHING_TO_REBUILD),
    Kept,
    Line(FAIL_0, UNREAD, 0, OK),
    Keep,
    Line(SCRUB, UNREAD, 1, INCOMPLETE),
    Line(REBUILD, UNREAD, 1, NOTHING_TO_REBUILD),
    Kept,
    Line(REPLACE_0, UNREAD, 0, OK),
    Line(SCRUB, UNREAD, 1, INCOMPLETE),
    Line(REBUILD, UNREAD, 0, COMPLETE),
    Line(SCRUB, UNREAD, 0, SOUND),
];

#[test]
fn repairs_that_are_refused(rt: HostRuntime) {
    over_folder(
        &rt,
        rt.process(),
        "repairs_refused",
        REPAIRS_THAT_ARE_REFUSED,
    );
}

// An output that takes three bytes.
const SHORT: (usize, usize, usize) = (WHOLE, 3, WHOLE);

// What was asked for is done, though that cannot be told.
static REPAIRS_THAT_CANNOT_BE_TOLD: &[Step] = &[
    Line(MAKE, UNREAD, 0, MADE),
    Line(FAIL_2, UNREAD, 0, OK),
    Cut(REPLACE_2, UNREAD, CLOSED, (1, 5, "", WRITE_FAULT)),
    Cut(STEPS_1, UNREAD, SHORT, (1, 5, "pos", WRITE_FAULT)),
    Line(STEPS_1, UNREAD, 0, "position 128 of 256, 2 left\n"),
    Cut(REBUILD, UNREAD, SHORT, (1, 5, "com", WRITE_FAULT)),
    Cut(SCRUB, UNREAD, SHORT, (1, 5, "256", WRITE_FAULT)),
    Line(SCRUB, UNREAD, 0, SOUND),
];

#[test]
fn repairs_that_cannot_be_told(rt: HostRuntime) {
    over_folder(
        &rt,
        rt.process(),
        "repairs_untold",
        REPAIRS_THAT_CANNOT_BE_TOLD,
    );
}
