//! A set of 3 members, chunk 8 and 32 stripes, whose row 32 has logical sector 72 on member 0, its parity on member 1
//! and logical sector 64 on member 2.
use crate::array::mark::tests::{Call, Set, Step, check};
use crate::testing::{REBUILDING_2_TO_32, REBUILDING_2_TO_33, WHOLE, WITHOUT_2};

// What members 0 to 2 have in row 32, and that where what member 2 has is not read.
const ROW: [u8; 4] = [0x33, 0x22, 0x11, 0];

const ROW_WITHOUT_2: [u8; 4] = [0x33, 0x22, 0xee, 0];

const USED: Set = Set {
    slots: WHOLE,
    row: ROW,
    failures: &[],
};

const READS: &[Step] = &[
    (Call::Read(64, 0x11), 1, 1, WHOLE),
    (Call::Read(72, 0x33), 1, 1, WHOLE),
    (Call::Read(65, 0x00), 1, 1, WHOLE),
    (Call::Read(511, 0x00), 1, 1, WHOLE),
];

#[test]
fn one_call_reads_a_sector(rt: HostRuntime) {
    check(&rt, &USED, READS);
}

const MISSING: Set = Set {
    slots: WITHOUT_2,
    row: ROW_WITHOUT_2,
    failures: &[],
};

const READS_MISSING: &[Step] = &[
    (Call::Read(64, 0x11), 2, 1, WITHOUT_2),
    (Call::Read(72, 0x33), 1, 1, WITHOUT_2),
];

#[test]
fn the_others_give_a_missing_member(rt: HostRuntime) {
    check(&rt, &MISSING, READS_MISSING);
}

const TO_32: Set = Set {
    slots: REBUILDING_2_TO_32,
    row: ROW_WITHOUT_2,
    failures: &[],
};

const READS_TO_32: &[Step] = &[(Call::Read(64, 0x11), 2, 1, REBUILDING_2_TO_32)];

const TO_33: Set = Set {
    slots: REBUILDING_2_TO_33,
    row: ROW,
    failures: &[],
};

const READS_TO_33: &[Step] = &[(Call::Read(64, 0x11), 1, 1, REBUILDING_2_TO_33)];

#[test]
fn a_rebuilding_member_counts_below_its_position(rt: HostRuntime) {
    check(&rt, &TO_32, READS_TO_32);
    check(&rt, &TO_33, READS_TO_33);
}

const FAILING: Set = Set {
    slots: WHOLE,
    row: ROW,
    failures: &[(2, 0)],
};

// Member 2 goes down at the read of its sector: its superblock is written to the four others, which are flushed, and
// then its sector is read from the two other members.
const READS_FAILING: &[Step] = &[
    (Call::Read(64, 0x11), 1 + 8 + 2, 2, WITHOUT_2),
    (Call::Read(72, 0x33), 1, 2, WITHOUT_2),
];

#[test]
fn a_member_goes_down_at_its_read(rt: HostRuntime) {
    check(&rt, &FAILING, READS_FAILING);
}

const MISSING_AND_0: Set = Set {
    slots: WITHOUT_2,
    row: ROW,
    failures: &[(0, 0)],
};

const READS_WITHOUT_0: &[Step] = &[(Call::Lost(64), 1, 1, WITHOUT_2)];

const MISSING_AND_1: Set = Set {
    slots: WITHOUT_2,
    row: ROW,
    failures: &[(1, 0)],
};

// The parity isn't read for data that is there.
const READS_WITHOUT_1: &[Step] = &[
    (Call::Read(72, 0x33), 1, 1, WITHOUT_2),
    (Call::Lost(64), 2, 1, WITHOUT_2),
];

const FAILING_TWICE: Set = Set {
    slots: WHOLE,
    row: ROW,
    failures: &[(2, 0), (0, 9)],
};

// Member 2 goes down first, and then member 0 in the reads without it.
const READS_FAILING_TWICE: &[Step] = &[(Call::Lost(64), 1 + 8 + 1, 2, WITHOUT_2)];

#[test]
fn a_second_member_goes_down(rt: HostRuntime) {
    check(&rt, &MISSING_AND_0, READS_WITHOUT_0);
    check(&rt, &MISSING_AND_1, READS_WITHOUT_1);
    check(&rt, &FAILING_TWICE, READS_FAILING_TWICE);
}
