//! Readers and writers that fail in the middle, and devices that go down.
use super::{Row, SET_A, answers, fail_at, fresh_store, plays, served};
use crate::testing::same;
use crate::testing::streams::WHOLE;
use sector_model::{Bank, MemBank, Refusal};
use std::process::Abort;
use volume_table::Store;

const SCRIPT: &[u8] = b"create a 4\nwrite a 3 ab*512\nread a 3 1\nlist\n";

const TEXT: &[u8] = b"ok\nok\nab*512\na 4\n";

// What `read a 3 1` and `list` are answered with before the volume is created, before it is written, and then.
const NO_VOLUME: &[u8] = b"refused 6 NoVolume\n";

const CREATED: &[u8] = b"00*512\na 4\n";

const WRITTEN: &[u8] = b"ab*512\na 4\n";

// Runs the script, cut off by its reader or its writer, over a fresh set, and then asks what was done.
fn breaks_off(
    rt: &(impl Abort + AllocGlobal),
    read: usize,
    room: usize,
    end: Refusal,
    left: usize,
    written: usize,
    now: &[u8],
) {
    let mut store = fresh_store(rt, SET_A);
    assert!(rt; written <= TEXT.len());
    let text = &TEXT[..written];
    served(rt, &mut store, SCRIPT, read, room, Err(end), left, text);
    answers(rt, &mut store, b"read a 3 1\nlist\n", now);
}

// Where a reader fails, from one number of bytes on up to another: how many bytes of the replies are written, and
// what was done. The four lines end at the bytes 11, 28, 39 and 44. What the reader gave is taken, and each line that
// was read to its end is answered.
const READERS: &[(usize, usize, usize, &[u8])] = &[
    (0, 11, 0, NO_VOLUME),
    (11, 28, 3, CREATED),
    (28, 39, 6, WRITTEN),
    (39, 44, 13, WRITTEN),
    (44, 45, 17, WRITTEN),
];

#[test]
fn a_reader_that_fails(rt: HostRuntime) {
    for (from, to, written, now) in READERS {
        for read in *from..*to {
            let left = 44usize.saturating_sub(read);
            breaks_off(&rt, read, WHOLE, Refusal::ReadFault, left, *written, now);
        }
    }
}

// Where a writer fails: how many bytes of the script are left, and what was done. The replies end at the bytes 3, 6, 13
// and 17. The command whose reply broke off was done, and no later one is read.
const WRITERS: &[(usize, usize, usize, &[u8])] = &[
    (0, 3, 33, CREATED),
    (3, 6, 16, WRITTEN),
    (6, 13, 5, WRITTEN),
    (13, 17, 0, WRITTEN),
];

#[test]
fn a_writer_that_fails(rt: HostRuntime) {
    for (from, to, left, now) in WRITERS {
        for room in *from..*to {
            breaks_off(&rt, WHOLE, room, Refusal::WriteFault, *left, room, now);
        }
    }
}

// A store with a volume of four blocks, of which the last is written. From now on these slots go down at their next
// call, and these scripts are run.
fn with_failures(rt: &(impl Abort + AllocGlobal), slots: &[usize], rows: &[Row]) -> Store<MemBank> {
    let mut store = fresh_store(rt, SET_A);
    answers(
        rt,
        &mut store,
        b"create a 4\nwrite a 3 ab*512\n",
        b"ok\nok\n",
    );
    fail_at(rt, &mut store, slots, 0);
    plays(rt, &mut store, rows);
    store
}

// The same for each of these choices of slots.
fn each_fails(rt: &(impl Abort + AllocGlobal), cases: &[&[usize]], rows: &[Row]) {
    for slots in cases {
        let _ = with_failures(rt, slots, rows);
    }
}

#[test]
fn one_device_that_goes_down(rt: HostRuntime) {
    each_fails(
        &rt,
        &[&[0], &[1], &[2], &[3], &[4]],
        &[(
            b"write a 0 5a*512\nread a 0 4\nextend a 60\nlist\n",
            b"ok\n5a*512\n00*512\n00*512\nab*512\nok\na 64\n",
            None,
        )],
    );
}

// Slots 3 and 4 are the journals.
#[test]
fn two_devices_that_go_down(rt: HostRuntime) {
    each_fails(
        &rt,
        &[&[0, 1], &[0, 2], &[1, 2], &[0, 3], &[2, 4], &[3, 4]],
        &[(
            b"list\nwrite a 0 5a*512\nlist\n",
            b"a 4\nrefused 15 TwoLost\n",
            Some(5),
        )],
    );
}

const TWO_LOST: &[u8] = b"refused 15 TwoLost\n";

// A line that says no command asks the store nothing.
const AFTER_THE_END: &[Row] = &[
    (b"list\n", TWO_LOST, Some(0)),
    (b"read b 0 0\n", TWO_LOST, Some(0)),
    (b"write a 0\n", TWO_LOST, Some(0)),
    (b"create A 0\n", TWO_LOST, Some(0)),
    (b"extend b 0\n", TWO_LOST, Some(0)),
    (b"remove b\n", TWO_LOST, Some(0)),
    (b"rename b b\n", TWO_LOST, Some(0)),
    (
        b"List\nlist\nlist\n",
        b"refused 20 BadLine\nrefused 15 TwoLost\n",
        Some(5),
    ),
];

#[test]
fn a_store_that_was_ended(rt: HostRuntime) {
    let mut store = with_failures(&rt, &[0, 1], &[(b"write a 0 5a*512\n", TWO_LOST, Some(0))]);
    let calls = store.bank().now();
    plays(&rt, &mut store, AFTER_THE_END);
    same(&rt, store.bank().now(), calls);
    same(&rt, store.status().err(), Some(Refusal::TwoLost));
}

#[test]
fn the_refusal_that_ends_a_script_is_cut_off(rt: HostRuntime) {
    let mut store = with_failures(&rt, &[0, 1], &[]);
    let script = b"write a 0 5a*512\nlist\n";
    let cut = b"refused 15 TwoLost";
    let end = Err(Refusal::WriteFault);
    served(&rt, &mut store, script, WHOLE, 18, end, 5, cut);
    plays(&rt, &mut store, &[(b"list\n", TWO_LOST, Some(0))]);
}
