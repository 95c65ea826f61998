//! A volume gets another name: what stands then, what the call costs, and what it is refused with.
use super::Answer::{Blocks, Done, Listed, Refused};
use super::Call::{Create, Extend, List, Read, Remove, Rename, Upgrade, Write};
use super::Step::{Apply, Do, Ended, Holds, Makes, Owner, Record, Shows, Table, Version};
use super::{SET_A, Step, check, check_new, fresh_store, next_run};
use sector_model::Refusal;

mod failures;
mod largest;

// Nothing.
const NONE: [u64; 3] = [0, 0, 0];

// The reads of a rename, its writes and flushes, and its entries. A sector of the table changes, on member 0 in row 1,
// and the parity on member 2 with it: member 1 is read, two bodies and seals are written, each journal is flushed
// twice, and each of the two members has a sector and a flush.
const MADE: [u64; 3] = [1, 2 * (2 + 1) + 4 + 2 * 2, 1];

// The volume by its new name has the block that was written, and sector 1 of the table begins with the record of that
// name.
#[test]
fn rename_script(rt: HostRuntime) {
    static STEPS: [Step; 12] = [
        Do(Create(b"a", 10), Done),
        Do(Write(b"a", 0, &[0xab]), Done),
        Do(Rename(b"a", b"b"), Done),
        Do(Read(b"b", 0, 1), Blocks(&[0xab])),
        Do(Read(b"a", 0, 1), Refused(Refusal::NoVolume)),
        Do(Rename(b"b", b"b"), Refused(Refusal::Exists)),
        Do(Rename(b"a", b"B"), Refused(Refusal::NoVolume)),
        Do(Rename(b"b", b"B"), Refused(Refusal::BadName)),
        Do(List, Listed(&[(b"b", &[0; 10])])),
        Table(
            b"\x01\x62\x00\x00\x00\x00\x00\x00\x00\x00\x00\x00\x00\x00\x00\x00\x00\x00\x00\x00\
              \x00\x00\x00\x00\x00\x00\x00\x00\x0a",
            &[1],
        ),
        Record(b"b", 0, 10),
        Owner(0, Some((0, 0))),
    ];
    check_new(&rt, SET_A, &STEPS);
}

// The same by events.
#[test]
fn rename_script_by_events(rt: HostRuntime) {
    static STEPS: [Step; 10] = [
        Apply(Create(b"a", 10), Done),
        Apply(Write(b"a", 0, &[0xab]), Done),
        Apply(Rename(b"a", b"b"), Done),
        Apply(Read(b"b", 0, 1), Blocks(&[0xab])),
        Apply(Read(b"a", 0, 1), Refused(Refusal::NoVolume)),
        Apply(Rename(b"b", b"b"), Refused(Refusal::Exists)),
        Apply(Rename(b"a", b"B"), Refused(Refusal::NoVolume)),
        Apply(Rename(b"b", b"B"), Refused(Refusal::BadName)),
        Apply(List, Listed(&[(b"b", &[0; 10])])),
        Shows(&[(b"b", &[0xab, 0, 0, 0, 0, 0, 0, 0, 0, 0])]),
    ];
    check_new(&rt, SET_A, &STEPS);
}

// Also in a table of version 2. A rename that is refused makes no device call.
#[test]
fn calls_of_a_rename(rt: HostRuntime) {
    static STEPS: [Step; 9] = [
        Do(Create(b"a", 65), Done),
        Makes(Rename(b"a", b"b"), Done, MADE),
        Makes(Rename(b"b", b"b"), Refused(Refusal::Exists), NONE),
        Makes(Rename(b"a", b"c"), Refused(Refusal::NoVolume), NONE),
        Makes(Rename(b"b", b"-c"), Refused(Refusal::BadName), NONE),
        Makes(Rename(b"b", b""), Refused(Refusal::BadName), NONE),
        Do(Upgrade, Done),
        Makes(Rename(b"b", b"c"), Done, MADE),
        Makes(Rename(b"b", b"c"), Refused(Refusal::NoVolume), NONE),
    ];
    check_new(&rt, SET_A, &STEPS);
}

// The old name is looked at first, as bytes that are equal: no volume is found by the beginning of its name. A name
// that a volume has is refused.
#[test]
fn refused_renames(rt: HostRuntime) {
    static STEPS: [Step; 10] = [
        Do(Rename(b"a", b"b"), Refused(Refusal::NoVolume)),
        Do(Rename(b"", b""), Refused(Refusal::NoVolume)),
        Do(Create(b"a", 2), Done),
        Do(Create(b"ab", 3), Done),
        Do(Rename(b"b", b"ab"), Refused(Refusal::NoVolume)),
        Do(Rename(b"A", b"A"), Refused(Refusal::NoVolume)),
        Do(Rename(b"abc", b"c"), Refused(Refusal::NoVolume)),
        Do(Rename(b"a", b"ab"), Refused(Refusal::Exists)),
        Do(Rename(b"ab", b"a"), Refused(Refusal::Exists)),
        Holds(&[(b"a", &[0; 2]), (b"ab", &[0; 3])]),
    ];
    check_new(&rt, SET_A, &STEPS);
}

// Record 0 is free, and `c` keeps record 2, its extent 2, and its block. The list is in the order of the new names.
#[test]
fn renamed_volume_keeps_its_record(rt: HostRuntime) {
    static STEPS: [Step; 15] = [
        Do(Create(b"a", 64), Done),
        Do(Create(b"b", 1), Done),
        Do(Create(b"c", 2), Done),
        Do(Write(b"c", 1, &[0xcc]), Done),
        Do(Remove(b"a"), Done),
        Do(Rename(b"c", b"a"), Done),
        Record(b"a", 2, 2),
        Owner(2, Some((2, 0))),
        Owner(0, None),
        Holds(&[(b"a", &[0, 0xcc]), (b"b", &[0])]),
        Do(Create(b"c", 1), Done),
        Record(b"c", 0, 1),
        Do(Extend(b"a", 63), Done),
        Do(Read(b"a", 1, 2), Blocks(&[0xcc, 0])),
        Do(
            List,
            Listed(&[(b"a", &[0; 65]), (b"b", &[0]), (b"c", &[0])]),
        ),
    ];
    let mut store = fresh_store(&rt, SET_A);
    check(&rt, &mut store, &STEPS);
    check(&rt, &mut next_run(&rt, store.bank()), &STEPS[13..]);
}

// Two volumes change their names by a third one.
#[test]
fn exchanged_names(rt: HostRuntime) {
    static STEPS: [Step; 9] = [
        Do(Create(b"a", 1), Done),
        Do(Create(b"b", 2), Done),
        Do(Write(b"a", 0, &[0x11]), Done),
        Do(Write(b"b", 0, &[0x22, 0x33]), Done),
        Do(Rename(b"a", b"c"), Done),
        Do(Rename(b"b", b"a"), Done),
        Do(Rename(b"c", b"b"), Done),
        Holds(&[(b"a", &[0x22, 0x33]), (b"b", &[0x11])]),
        Shows(&[(b"a", &[0x22, 0x33]), (b"b", &[0x11])]),
    ];
    let mut store = fresh_store(&rt, SET_A);
    check(&rt, &mut store, &STEPS);
    check(&rt, &mut next_run(&rt, store.bank()), &STEPS[7..]);
}

const OF_24: &[u8] = b"a-name-of-twenty-four-by";

const OF_25: &[u8] = b"a-name-of-twenty-four-byt";

const OF_63: &[u8] = b"a-name-of-twenty-four-bytes-and-of-thirty-nine-more-behind-them";

const OF_64: &[u8] = b"a-name-of-twenty-four-bytes-and-of-thirty-nine-more-behind-them_";

// The longest names have 24 bytes, and 63 after an upgrade. A name that is longer names no volume.
#[test]
fn renames_to_long_names(rt: HostRuntime) {
    static STEPS: [Step; 14] = [
        Do(Create(b"a", 1), Done),
        Do(Write(b"a", 0, &[0xab]), Done),
        Do(Rename(b"a", OF_25), Refused(Refusal::BadName)),
        Do(Rename(b"a", OF_63), Refused(Refusal::BadName)),
        Do(Rename(b"a", OF_24), Done),
        Do(Rename(OF_25, b"a"), Refused(Refusal::NoVolume)),
        Do(Upgrade, Done),
        Do(Rename(OF_24, OF_25), Done),
        Do(Rename(OF_24, b"a"), Refused(Refusal::NoVolume)),
        Do(Rename(OF_25, OF_64), Refused(Refusal::BadName)),
        Do(Rename(OF_25, OF_63), Done),
        Do(Rename(OF_64, b"a"), Refused(Refusal::NoVolume)),
        Holds(&[(OF_63, &[0xab])]),
        Shows(&[(OF_63, &[0xab])]),
    ];
    static AGAIN: [Step; 4] = [
        Version(2),
        Holds(&[(OF_63, &[0xab])]),
        Do(Rename(OF_63, b"a"), Done),
        Holds(&[(b"a", &[0xab])]),
    ];
    let mut store = fresh_store(&rt, SET_A);
    check(&rt, &mut store, &STEPS);
    check(&rt, &mut next_run(&rt, store.bank()), &AGAIN);
}

// The entry's number stands at its limit: the rename is refused and ends the store, and the volume has its old name in
// the next run.
#[test]
fn rename_in_a_worn_set(rt: HostRuntime) {
    static STEPS: [Step; 5] = [
        Do(Rename(b"b", b"c"), Refused(Refusal::NoVolume)),
        Do(Rename(b"a", b"a"), Refused(Refusal::Exists)),
        Do(Rename(b"a", b"b"), Refused(Refusal::Worn)),
        Ended(Refusal::Worn),
        Shows(&[(b"a", &[0; 2])]),
    ];
    let mut store = fresh_store(&rt, SET_A);
    check(&rt, &mut store, &[Do(Create(b"a", 2), Done)]);
    store.array.entry = 1 << 62;
    check(&rt, &mut store, &STEPS);
    check(
        &rt,
        &mut next_run(&rt, store.bank()),
        &[Holds(&[(b"a", &[0; 2])])],
    );
}
