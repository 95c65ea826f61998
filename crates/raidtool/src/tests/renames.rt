//! Lines that give a volume another name.
use crate::testing::folder::Step::{Cut, Holds, Keep, Kept, Line, Take};
use crate::testing::folder::{
    FAIL_2, MAKE, MEMBER_BYTES, REBUILD, REPLACE_2, RUN, SCRUB, Step, UNREAD, UPGRADE, over_folder,
};
use crate::testing::streams::CLOSED;
use crate::testing::texts::{COMPLETE, MADE, OK, SOUND, WRITE_FAULT};

// The first record begins at byte 4,608 of member 0: 1, `b`, and zeros up to the blocks, which stand at byte 28 of it.
// A rename that is refused changes no byte.
static A_VOLUME_THAT_IS_RENAMED: &[Step] = &[
    Line(MAKE, UNREAD, 0, MADE),
    Line(RUN, "create a 10\nwrite a 9 5a*512\n", 0, "ok\nok\n"),
    Line(RUN, "rename a b\n", 0, OK),
    Holds("dev0.img", MEMBER_BYTES, (4_608, 4_609), 0x01),
    Holds("dev0.img", MEMBER_BYTES, (4_609, 4_610), 0x62),
    Holds("dev0.img", MEMBER_BYTES, (4_610, 4_636), 0),
    Holds("dev0.img", MEMBER_BYTES, (4_636, 4_637), 0x0a),
    Keep,
    Line(
        RUN,
        "rename a c\nrename b b\nrename b C\nrename b\n",
        0,
        "refused 6 NoVolume\nrefused 3 Exists\nrefused 1 BadName\nrefused 20 BadLine\n",
    ),
    Kept,
    Line(RUN, "list\nread b 9 1\n", 0, "b 10\n5a*512\n"),
    Line(SCRUB, UNREAD, 0, SOUND),
];

#[test]
fn a_volume_that_is_renamed(rt: HostRuntime) {
    over_folder(&rt, rt.process(), "renamed", A_VOLUME_THAT_IS_RENAMED);
}

// Slot 2 is missing, and then rebuilding. Its new device gets the names as well, so that any other may go then.
static RENAMES_WITHOUT_A_MEMBER: &[Step] = &[
    Line(MAKE, UNREAD, 0, MADE),
    Line(RUN, "create a 64\nwrite a 0 5a*512\n", 0, "ok\nok\n"),
    Line(FAIL_2, UNREAD, 0, OK),
    Line(RUN, "rename a b\n", 0, OK),
    Line(REPLACE_2, UNREAD, 0, OK),
    Line(RUN, "rename b c\nread c 0 1\n", 0, "ok\n5a*512\n"),
    Line(REBUILD, UNREAD, 0, COMPLETE),
    Line(SCRUB, UNREAD, 0, SOUND),
    Take("dev0.img"),
    Line(
        RUN,
        "list\nread c 0 1\nrename c d\nlist\n",
        0,
        "c 64\n5a*512\nok\nd 64\n",
    ),
];

#[test]
fn renames_without_a_member(rt: HostRuntime) {
    over_folder(
        &rt,
        rt.process(),
        "renamed_lacking",
        RENAMES_WITHOUT_A_MEMBER,
    );
}

// A name of 25 letters, which only a table of version 2 takes. The last rename is done, though that cannot be told.
static RENAMES_AFTER_AN_UPGRADE: &[Step] = &[
    Line(MAKE, UNREAD, 0, MADE),
    Line(
        RUN,
        "create a 1\nrename a abcdefghijklmnopqrstuvwxy\n",
        0,
        "ok\nrefused 1 BadName\n",
    ),
    Line(UPGRADE, UNREAD, 0, OK),
    Line(
        RUN,
        "rename a abcdefghijklmnopqrstuvwxy\nlist\n",
        0,
        "ok\nabcdefghijklmnopqrstuvwxy 1\n",
    ),
    Cut(
        RUN,
        "rename abcdefghijklmnopqrstuvwxy b\nlist\n",
        CLOSED,
        (1, 5, "", WRITE_FAULT),
    ),
    Line(RUN, "list\n", 0, "b 1\n"),
];

#[test]
fn renames_after_an_upgrade(rt: HostRuntime) {
    over_folder(
        &rt,
        rt.process(),
        "renamed_upgraded",
        RENAMES_AFTER_AN_UPGRADE,
    );
}
