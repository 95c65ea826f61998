//! Lines that make the table of volumes one of version 2, over real files.
use super::program::code_of;
use crate::testing::folder::Step::{Copy, Cut, Holds, Keep, Kept, Line, Put, Take};
use crate::testing::folder::{
    FAIL_0, FAIL_2, MAKE, MEMBER_BYTES, REBUILD, REPLACE_2, RUN, SCRUB, SOME_TEXT, STATUS, Step,
    UNREAD, UPGRADE, over_folder,
};
use crate::testing::streams::CLOSED;
use crate::testing::texts::{BAD_ID, COMPLETE, MADE, NO_SET, OK, SOUND, TWO_LOST, WRITE_FAULT};
use crate::testing::{same, words_in};
use std::process::ExitCode;

const JSON: &str = "status|@|--id|H|--json";

// The status of set A with a volume of one extent, before and after its table gets version 2. Nothing else changes.
const BEFORE: &str = "\
set 000102030405060708090a0b0c0d0e0f
members 3 chunk 8 stripes 32 rows 256
generation 1 position 0 left 0
extents 7 free 6 volumes 1 table 1
 0 member   in-sync    1
 1 member   in-sync    1
 2 member   in-sync    1
 3 journal  in-sync    1
 4 journal  in-sync    1
";

const AFTER: &str = "\
set 000102030405060708090a0b0c0d0e0f
members 3 chunk 8 stripes 32 rows 256
generation 1 position 0 left 0
extents 7 free 6 volumes 1 table 2
 0 member   in-sync    1
 1 member   in-sync    1
 2 member   in-sync    1
 3 journal  in-sync    1
 4 journal  in-sync    1
";

const AFTER_JSON: &str = "{\"chunk\":8,\"extents\":7,\"free\":6,\"generation\":1,\
\"id\":\"000102030405060708090a0b0c0d0e0f\",\"left\":0,\"members\":3,\"position\":0,\"rows\":256,\"slots\":[\
{\"incarnation\":1,\"role\":\"member\",\"slot\":0,\"state\":\"in-sync\"},\
{\"incarnation\":1,\"role\":\"member\",\"slot\":1,\"state\":\"in-sync\"},\
{\"incarnation\":1,\"role\":\"member\",\"slot\":2,\"state\":\"in-sync\"},\
{\"incarnation\":1,\"role\":\"journal\",\"slot\":3,\"state\":\"in-sync\"},\
{\"incarnation\":1,\"role\":\"journal\",\"slot\":4,\"state\":\"in-sync\"}],\
\"stripes\":32,\"table\":2,\"volumes\":1}\n";

// With chunk 8 the first two logical chunks lie in rows 0 to 7 of members 0 and 1. So sectors 0 and 1 are rows 0 and 1
// of member 0, which are sectors 8 and 9 there. Of the record of `a` in version 2 the length is the first byte of
// sector 1, the name follows, and its 64 blocks stand at byte 64. A second upgrade changes no byte of any device.
static A_SET_THAT_IS_UPGRADED: &[Step] = &[
    Line(MAKE, UNREAD, 0, MADE),
    Line(RUN, "create a 64\nwrite a 63 5a*512\n", 0, "ok\nok\n"),
    Line(STATUS, UNREAD, 0, BEFORE),
    Line(UPGRADE, UNREAD, 0, OK),
    Line(STATUS, UNREAD, 0, AFTER),
    Line(JSON, UNREAD, 0, AFTER_JSON),
    Holds("dev0.img", MEMBER_BYTES, (4_096, 4_097), 0x01),
    Holds("dev0.img", MEMBER_BYTES, (4_097, 4_608), 0),
    Holds("dev0.img", MEMBER_BYTES, (4_608, 4_609), 0x01),
    Holds("dev0.img", MEMBER_BYTES, (4_609, 4_610), 0x61),
    Holds("dev0.img", MEMBER_BYTES, (4_610, 4_672), 0),
    Holds("dev0.img", MEMBER_BYTES, (4_672, 4_673), 0x40),
    Keep,
    Line(UPGRADE, UNREAD, 0, OK),
    Kept,
    Line(STATUS, UNREAD, 0, AFTER),
    Kept,
    Line(
        RUN,
        "list\nread a 63 1\nread a 0 1\n",
        0,
        "a 64\n5a*512\n00*512\n",
    ),
    Line(SCRUB, UNREAD, 0, SOUND),
];

#[test]
fn a_set_that_is_upgraded(rt: HostRuntime) {
    over_folder(&rt, rt.process(), "upgraded", A_SET_THAT_IS_UPGRADED);
}

// Names of 25 and of 63 letters, which only a table of version 2 takes, and one of 64, which none does.
static LONGER_NAMES: &[Step] = &[
    Line(MAKE, UNREAD, 0, MADE),
    Line(
        RUN,
        "create abcdefghijklmnopqrstuvwxy 1\n",
        0,
        "refused 1 BadName\n",
    ),
    Line(UPGRADE, UNREAD, 0, OK),
    Line(
        RUN,
        "create abcdefghijklmnopqrstuvwxy 1\n\
create aaaaaaaaaaaaaaaaaaaaaaaaaaaaaaaaaaaaaaaaaaaaaaaaaaaaaaaaaaaaaaa 2\n\
create bbbbbbbbbbbbbbbbbbbbbbbbbbbbbbbbbbbbbbbbbbbbbbbbbbbbbbbbbbbbbbbb 3\n",
        0,
        "ok\nok\nrefused 1 BadName\n",
    ),
    Line(
        RUN,
        "list\nremove abcdefghijklmnopqrstuvwxy\nlist\n",
        0,
        "aaaaaaaaaaaaaaaaaaaaaaaaaaaaaaaaaaaaaaaaaaaaaaaaaaaaaaaaaaaaaaa 2\n\
abcdefghijklmnopqrstuvwxy 1\nok\n\
aaaaaaaaaaaaaaaaaaaaaaaaaaaaaaaaaaaaaaaaaaaaaaaaaaaaaaaaaaaaaaa 2\n",
    ),
];

#[test]
fn longer_names(rt: HostRuntime) {
    over_folder(&rt, rt.process(), "longer_names", LONGER_NAMES);
}

// Slot 2 is missing. Its new device gets the new table as well, so that any other may go then.
static A_SET_THAT_LACKS_A_MEMBER: &[Step] = &[
    Line(MAKE, UNREAD, 0, MADE),
    Line(RUN, "create a 64\nwrite a 0 5a*512\n", 0, "ok\nok\n"),
    Line(FAIL_2, UNREAD, 0, OK),
    Line(UPGRADE, UNREAD, 0, OK),
    Line(RUN, "list\nread a 0 1\n", 0, "a 64\n5a*512\n"),
    Line(REPLACE_2, UNREAD, 0, OK),
    Line(REBUILD, UNREAD, 0, COMPLETE),
    Line(SCRUB, UNREAD, 0, SOUND),
    Take("dev0.img"),
    Line(RUN, "list\nread a 0 1\n", 0, "a 64\n5a*512\n"),
    Line(UPGRADE, UNREAD, 0, OK),
];

#[test]
fn a_set_that_lacks_a_member(rt: HostRuntime) {
    over_folder(
        &rt,
        rt.process(),
        "upgraded_lacking",
        A_SET_THAT_LACKS_A_MEMBER,
    );
}

// The same while slot 2 is rebuilding, and the rows of the table are not done.
static A_SET_THAT_IS_REBUILDING: &[Step] = &[
    Line(MAKE, UNREAD, 0, MADE),
    Line(RUN, "create a 64\nwrite a 0 5a*512\n", 0, "ok\nok\n"),
    Line(FAIL_2, UNREAD, 0, OK),
    Line(REPLACE_2, UNREAD, 0, OK),
    Line(UPGRADE, UNREAD, 0, OK),
    Line(REBUILD, UNREAD, 0, COMPLETE),
    Line(SCRUB, UNREAD, 0, SOUND),
    Take("dev1.img"),
    Line(RUN, "list\nread a 0 1\n", 0, "a 64\n5a*512\n"),
];

#[test]
fn a_set_that_is_rebuilding(rt: HostRuntime) {
    over_folder(
        &rt,
        rt.process(),
        "upgraded_rebuilding",
        A_SET_THAT_IS_REBUILDING,
    );
}

// The table has version 2, though that cannot be told.
static AN_UPGRADE_THAT_CANNOT_BE_TOLD: &[Step] = &[
    Line(MAKE, UNREAD, 0, MADE),
    Line(RUN, "create a 64\n", 0, OK),
    Cut(UPGRADE, UNREAD, CLOSED, (1, 5, "", WRITE_FAULT)),
    Line(STATUS, UNREAD, 0, AFTER),
];

#[test]
fn an_upgrade_that_cannot_be_told(rt: HostRuntime) {
    over_folder(
        &rt,
        rt.process(),
        "upgrade_untold",
        AN_UPGRADE_THAT_CANNOT_BE_TOLD,
    );
}

const BAD_TABLE: &str = "refused 18 BadTable\n";

// Byte 4,096 of members 0 and 2 is the first of logical sector 0 and its parity. No refusal changes a byte.
static UPGRADES_THAT_ARE_REFUSED: &[Step] = &[
    Line(UPGRADE, UNREAD, 1, NO_SET),
    Line("upgrade|@|--id|0", UNREAD, 2, BAD_ID),
    Line("upgrade|@|--id|H|--slot|0", UNREAD, 2, SOME_TEXT),
    Line("upgrade|@", UNREAD, 2, SOME_TEXT),
    Line(MAKE, UNREAD, 0, MADE),
    Put("dev0.img", MEMBER_BYTES, (4_096, 2)),
    Put("dev2.img", MEMBER_BYTES, (4_096, 2)),
    Keep,
    Line(UPGRADE, UNREAD, 1, BAD_TABLE),
    Kept,
    Line(MAKE, UNREAD, 0, MADE),
    Line(FAIL_0, UNREAD, 0, OK),
    Copy("dev3.img", "away"),
    Take("dev3.img"),
    Keep,
    Line(UPGRADE, UNREAD, 1, TWO_LOST),
    Kept,
    Copy("away", "dev3.img"),
    Line(UPGRADE, UNREAD, 0, OK),
];

#[test]
fn upgrades_that_are_refused(rt: HostRuntime) {
    over_folder(
        &rt,
        rt.process(),
        "upgrade_refused",
        UPGRADES_THAT_ARE_REFUSED,
    );
}

static STATUSES: &[(&str, u8)] = &[
    ("raidtool|upgrade|/nowhere|--id|H", 1),
    ("raidtool|upgrade|/nowhere|--id|00", 2),
    ("raidtool|upgrade|/nowhere", 2),
    ("raidtool|upgrade|--help", 2),
];

#[test]
fn exit_statuses_of_an_upgrade(rt: HostRuntime) {
    for (line, status) in STATUSES {
        let code = code_of(&rt, &words_in(&rt, line, "")).expect(&rt, line);
        same(&rt, (*line, code), (*line, ExitCode::from(*status)));
    }
}
