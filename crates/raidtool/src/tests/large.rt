//! Lines over sets of format 2, and lines on volumes.
use crate::testing::folder::Step::{Count, Holds, Keep, Kept, Line, Take};
use crate::testing::folder::{Step, UNREAD, over_folder};
use crate::testing::texts::{BAD_ID, MADE, NO_SET, OK};

// 2,048 blocks are 128 stripes of 16, after the 4 of the reserve: 1,056 rows of a member.
const MAKE_LARGE: &str = "make|@|--id|H|--members|3|--chunk|8|--size|1M";

const MAKE_MOST: &str = "make|@|--id|H|--members|3|--chunk|8|--size|max";

const LARGE_MEMBER_BYTES: usize = 544_768;

const LARGE_JOURNAL_BYTES: usize = 4_198_400;

const LIST: &str = "list|@|--id|auto";

const THERE: &str = "there is a set: 000102030405060708090a0b0c0d0e0f\n";

const BAD_SIZE: &str = "bad size\n";

static VOLUMES_BY_LINES: &[Step] = &[
    Line(LIST, UNREAD, 1, NO_SET),
    Line(MAKE_LARGE, UNREAD, 0, MADE),
    Count(5),
    Holds(
        "dev2.img",
        LARGE_MEMBER_BYTES,
        (1_024, LARGE_MEMBER_BYTES),
        0,
    ),
    Holds(
        "dev4.img",
        LARGE_JOURNAL_BYTES,
        (1_024, LARGE_JOURNAL_BYTES),
        0,
    ),
    Line("create|@|a|100K|--id|auto", UNREAD, 0, OK),
    Line("create|@|a|1|--id|H", UNREAD, 1, "refused 3 Exists\n"),
    Line("create|@|b|1849|--id|H", UNREAD, 1, "refused 5 NoSpace\n"),
    Line("create|@|b|1G|--id|H", UNREAD, 1, "refused 2 BadSize\n"),
    Line("create|@|b|2T|--id|H", UNREAD, 2, BAD_SIZE),
    Line("create|@|b|064|--id|H", UNREAD, 2, BAD_SIZE),
    Line("extend|@|a|4K|--id|H", UNREAD, 0, OK),
    Line("rename|@|a|b|--id|H", UNREAD, 0, OK),
    Line("create|@|a|1840|--id|H", UNREAD, 0, OK),
    Line(LIST, UNREAD, 0, "a 1840\nb 208\n"),
    Line("remove|@|a|--id|auto", UNREAD, 0, OK),
    Line("remove|@|a|--id|auto", UNREAD, 1, "refused 6 NoVolume\n"),
    Line(LIST, UNREAD, 0, "b 208\n"),
];

#[test]
fn volumes_by_lines(rt: HostRuntime) {
    over_folder(&rt, rt.process(), "large_volumes", VOLUMES_BY_LINES);
}

// What is there is looked at first, also the superblocks of slots after the set's.
static A_SET_OVER_ANOTHER: &[Step] = &[
    Line(
        "make|@|--id|H|--members|4|--chunk|8|--stripes|32",
        UNREAD,
        0,
        MADE,
    ),
    Keep,
    Line(MAKE_LARGE, UNREAD, 1, THERE),
    Line(MAKE_MOST, UNREAD, 1, THERE),
    Kept,
    Take("dev0.img"),
    Take("dev1.img"),
    Take("dev2.img"),
    Take("dev3.img"),
    Take("dev4.img"),
    Line(MAKE_LARGE, UNREAD, 1, THERE),
    Count(2),
    Line(
        "make|@|--id|H|--members|3|--chunk|8|--size|1M|--over",
        UNREAD,
        0,
        MADE,
    ),
    Holds("dev5.img", 266_240, (0, 1_024), 0),
    Line(LIST, UNREAD, 0, ""),
    Line("status|@|--id|auto", UNREAD, 0, STATUS_LARGE),
];

const STATUS_LARGE: &str = "\
set 000102030405060708090a0b0c0d0e0f
members 3 chunk 8 stripes 132 rows 1056 format 2
generation 1 position 0 left 0
extents 128 free 128 volumes 0 table 3
 0 member   in-sync    1
 1 member   in-sync    1
 2 member   in-sync    1
 3 journal  in-sync    1
 4 journal  in-sync    1
";

#[test]
fn a_set_over_another(rt: HostRuntime) {
    over_folder(&rt, rt.process(), "large_over", A_SET_OVER_ANOTHER);
}

// The sets are of five and of ten slots, so superblocks of both are left.
static SEVERAL_SETS: &[Step] = &[
    Line(
        "make|@|--id|H|--members|8|--chunk|8|--stripes|32",
        UNREAD,
        0,
        MADE,
    ),
    Line(
        "make|@|--id|ff0102030405060708090a0b0c0d0e0f|--members|3|--chunk|8|--stripes|32",
        UNREAD,
        0,
        MADE,
    ),
    Line(
        LIST,
        UNREAD,
        1,
        "several sets: 000102030405060708090a0b0c0d0e0f ff0102030405060708090a0b0c0d0e0f\n",
    ),
    Line(
        "list|@|--id|ff0102030405060708090a0b0c0d0e0f",
        UNREAD,
        0,
        "",
    ),
];

#[test]
fn several_sets(rt: HostRuntime) {
    over_folder(&rt, rt.process(), "large_several", SEVERAL_SETS);
}

// All that the members have: 1,064 sectors of the shortest hold 132 stripes, one sector less 131.
static ALL_THAT_THERE_IS: &[Step] = &[
    Line(MAKE_MOST, UNREAD, 1, "no file: dev0.img\n"),
    Count(0),
    Step::Put("dev0.img", LARGE_MEMBER_BYTES, (0, 0)),
    Step::Put("dev1.img", LARGE_MEMBER_BYTES - 1, (0, 0)),
    Line(MAKE_MOST, UNREAD, 1, "no file: dev2.img\n"),
    Step::Put("dev2.img", LARGE_MEMBER_BYTES, (0, 0)),
    Line(MAKE_MOST, UNREAD, 0, "made\nunused 0 blocks\n"),
    Holds("dev1.img", LARGE_MEMBER_BYTES - 1, (4_096, 540_672), 0),
    Line("create|@|a|2032|--id|H", UNREAD, 0, OK),
];

#[test]
fn all_that_there_is(rt: HostRuntime) {
    over_folder(&rt, rt.process(), "large_most", ALL_THAT_THERE_IS);
}

static LINES_THAT_ARE_NONE: &[Step] = &[
    Line("make|@|--id|auto|--members|3|--size|1M", UNREAD, 2, BAD_ID),
    Line("list|@|--id|new", UNREAD, 2, BAD_ID),
    Line("make|@|--id|H|--members|3|--size|1.5M", UNREAD, 2, BAD_SIZE),
    Line("make|@|--id|H|--members|3|--chunk|8", UNREAD, 2, SHAPE),
    Line(
        "make|@|--id|H|--members|3|--size|1M|--stripes|32",
        UNREAD,
        2,
        SHAPE,
    ),
    Line(
        "make|@|--id|H|--members|9|--size|1M",
        UNREAD,
        1,
        "refused 19 BadGeometry\n",
    ),
    Line(
        "make|@|--id|H|--members|3|--size|9000T",
        UNREAD,
        1,
        "refused 19 BadGeometry\n",
    ),
    Count(0),
];

const SHAPE: &str = "make takes --size, or --chunk and --stripes\n";

#[test]
fn lines_that_are_none(rt: HostRuntime) {
    over_folder(&rt, rt.process(), "large_none", LINES_THAT_ARE_NONE);
}
