//! Inspections of sets, over real files, which stay as they are.
use crate::testing::folder::Step::{Cut, Keep, Kept, Line, Take};
use crate::testing::folder::{FAIL_0, MAKE, REPLACE_0, RUN, Step, UNREAD, over_folder};
use crate::testing::streams::WHOLE;
use crate::testing::texts::{BAD_ID, MADE, NO_SET, OK, TWO_LOST, WRITE_FAULT};

const EXAMINE: &str = "examine|@";

const BY_ID: &str = "examine|@|--id|H";

const OTHER_ID: &str = "examine|@|--id|ffffffffffffffffffffffffffffffff";

const AS_JSON: &str = "examine|@|--json";

// The exit status tells how well the set is.
const CHECK: &str = "examine|@|--check";

const CHECK_OTHER_ID: &str = "examine|@|--id|ffffffffffffffffffffffffffffffff|--check";

const ALL_OPEN: (usize, usize, usize) = (WHOLE, WHOLE, WHOLE);

// Set A as it was made: no journal has an entry.
const FRESH: &str = "\
set 000102030405060708090a0b0c0d0e0f
members 3 chunk 8 stripes 32 rows 256
generation 1 position 0 left 0
 0 member   there generation 1 incarnation 1 live
 1 member   there generation 1 incarnation 1 live
 2 member   there generation 1 incarnation 1 live
 3 journal  there generation 1 incarnation 1 entry 0 live
 4 journal  there generation 1 incarnation 1 entry 0 live
would assemble: complete
";

const FRESH_JSON: &str =
    "{\"chunk\":8,\"generation\":1,\"id\":\"000102030405060708090a0b0c0d0e0f\",\
\"left\":0,\"members\":3,\"outlook\":\"would assemble: complete\",\"position\":0,\"rows\":256,\"slots\":[\
{\"entry\":null,\"generation\":1,\"incarnation\":1,\"presence\":\"there\",\
\"role\":\"member\",\"slot\":0,\"standing\":\"live\"},\
{\"entry\":null,\"generation\":1,\"incarnation\":1,\"presence\":\"there\",\
\"role\":\"member\",\"slot\":1,\"standing\":\"live\"},\
{\"entry\":null,\"generation\":1,\"incarnation\":1,\"presence\":\"there\",\
\"role\":\"member\",\"slot\":2,\"standing\":\"live\"},\
{\"entry\":0,\"generation\":1,\"incarnation\":1,\"presence\":\"there\",\
\"role\":\"journal\",\"slot\":3,\"standing\":\"live\"},\
{\"entry\":0,\"generation\":1,\"incarnation\":1,\"presence\":\"there\",\
\"role\":\"journal\",\"slot\":4,\"standing\":\"live\"}],\
\"stripes\":32}\n";

// The 64 blocks of a volume are zeroed by two entries, a third one has the table, and a fourth one the block that is
// written. Slot 0 was given up in the second table.
const FAILED: &str = "\
set 000102030405060708090a0b0c0d0e0f
members 3 chunk 8 stripes 32 rows 256
generation 2 position 0 left 0
 0 member   there generation 1 incarnation 1 called missing
 1 member   there generation 2 incarnation 1 live
 2 member   there generation 2 incarnation 1 live
 3 journal  there generation 2 incarnation 1 entry 4 live
 4 journal  there generation 2 incarnation 1 entry 4 live
would assemble: slot 0 missing
";

const REPLACED: &str = "\
set 000102030405060708090a0b0c0d0e0f
members 3 chunk 8 stripes 32 rows 256
generation 3 position 0 left 4
 0 member   there generation 3 incarnation 2 rebuilding at 0
 1 member   there generation 3 incarnation 1 live
 2 member   there generation 3 incarnation 1 live
 3 journal  there generation 3 incarnation 1 entry 4 live
 4 journal  there generation 3 incarnation 1 entry 4 live
would assemble: slot 0 rebuilding at 0
";

// A second slot is out, so that assembling would be refused; the inspection is not.
const TWO_OUT: &str = "\
set 000102030405060708090a0b0c0d0e0f
members 3 chunk 8 stripes 32 rows 256
generation 3 position 0 left 4
 0 member   there generation 3 incarnation 2 rebuilding at 0
 1 member   there generation 3 incarnation 1 live
 2 member   there generation 3 incarnation 1 live
 3 journal  there generation 3 incarnation 1 entry 4 live
 4 journal  absent generation 0 incarnation 0 not there
refused 15 TwoLost
";

static A_SET_THAT_IS_INSPECTED: &[Step] = &[
    Line(EXAMINE, UNREAD, 1, NO_SET),
    Line(MAKE, UNREAD, 0, MADE),
    Keep,
    Line(EXAMINE, UNREAD, 0, FRESH),
    Line(BY_ID, UNREAD, 0, FRESH),
    Line(AS_JSON, UNREAD, 0, FRESH_JSON),
    Line(OTHER_ID, UNREAD, 1, NO_SET),
    Line(CHECK, UNREAD, 0, FRESH),
    Line(CHECK_OTHER_ID, UNREAD, 4, NO_SET),
    Line("examine|@|--id|0", UNREAD, 2, BAD_ID),
    Kept,
    Line(RUN, "create a 64\nwrite a 63 5a*512\n", 0, "ok\nok\n"),
    Line(FAIL_0, UNREAD, 0, OK),
    Keep,
    Line(EXAMINE, UNREAD, 0, FAILED),
    Cut(CHECK, UNREAD, ALL_OPEN, (3, 5, FAILED, "")),
    Kept,
    Line(REPLACE_0, UNREAD, 0, OK),
    Keep,
    Line(EXAMINE, UNREAD, 0, REPLACED),
    Line(BY_ID, UNREAD, 0, REPLACED),
    Cut(CHECK, UNREAD, ALL_OPEN, (3, 5, REPLACED, "")),
    Kept,
    Take("dev4.img"),
    Keep,
    Line(EXAMINE, UNREAD, 0, TWO_OUT),
    Cut(CHECK, UNREAD, ALL_OPEN, (4, 5, TWO_OUT, "")),
    Line("status|@|--id|H|--check", UNREAD, 4, TWO_LOST),
    Kept,
];

// What is told is cut off where standard output fails.
static AN_INSPECTION_THAT_IS_CUT_OFF: &[Step] = &[
    Line(MAKE, UNREAD, 0, MADE),
    Keep,
    Cut(
        EXAMINE,
        UNREAD,
        (WHOLE, 10, WHOLE),
        (1, 5, "set 000102", WRITE_FAULT),
    ),
    Kept,
];

#[test]
fn a_set_that_is_inspected(rt: HostRuntime) {
    over_folder(&rt, rt.process(), "examine", A_SET_THAT_IS_INSPECTED);
}

#[test]
fn an_inspection_that_is_cut_off(rt: HostRuntime) {
    over_folder(
        &rt,
        rt.process(),
        "examine_cut",
        AN_INSPECTION_THAT_IS_CUT_OFF,
    );
}
