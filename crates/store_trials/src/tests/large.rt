//! Sets of format 2: where the table of version 3 stands, that clean extents cost no entry, and crashes where blocks
//! are given out again.
//!
//! The table is sectors 0 to 24: the first record is in sector 1, and the first 128 entries of extents in sector 17, in
//! rows 1 and 9. The one has its data on member 0 and its parity on 2, the other on 2 and 1: a commit of both reads two
//! sectors, holds four, and writes to three members.
use super::Answer::{Blocks, Done, Refused};
use super::Call::{Create, Extend, Read, Remove, Upgrade, Write};
use super::Step::{Do, Holds, Logical, Makes, Shows, Status, Version};
use super::crashes::{ABSENT, Case, check_crashes, check_crashes_then};
use super::tables::check_damaged;
use super::{Shape, Step, TestStore, check_from, check_new, fresh_store, logical_list};
use crate::testing::same;
use layout_map::Format;
use sector_model::{Choice, Refusal, Sector};
use std::process::Abort;

// 256 rows, 512 data sectors and 28 extents of 16 blocks.
const SET: Shape = (Format::Two, 3, 8, 32);

// 96 rows, 192 data sectors and 8 extents of 16 blocks.
const EIGHT: Shape = (Format::Two, 3, 8, 12);

// 8,232 rows, 16,464 data sectors and 512 extents of 32 blocks: of 16 blocks there would be 1,025.
const DOUBLED: Shape = (Format::Two, 3, 8, 1_029);

// Nothing.
const NONE: [u64; 3] = [0, 0, 0];

// The writes and flushes of a commit of the table.
const TABLE: u64 = 3 * 4 + 6 + 3;

// The same with its reads, and its entry.
const ONE_COMMIT: [u64; 3] = [2, TABLE, 1];

// ---- what stands in the table

// Entries of extents one after another: of the volume with this number plus 1, at rising places from this one on, dirty
// or not, so many; 0 stands for no volume, whose places are 0.
type Entries = (u8, u8, bool, u8);

// The sector with the first entries.
fn entries_sector(entries: &[Entries]) -> Sector {
    let mut sector = [0; 512];
    let mut at = 0usize;
    for (volume, first, dirty, count) in entries {
        for step in 0..*count {
            let place = if *volume == 0 {
                0
            } else {
                first.wrapping_add(step)
            };
            if at < 508 {
                sector[at] = *volume;
                sector[at + 2] = place;
                sector[at + 3] = if *dirty { 0x80 } else { 0 };
            }
            at = at.saturating_add(4);
        }
    }
    sector
}

// The sector with the first records: of a volume of this name of one letter and so many blocks, or none where there are
// no blocks.
fn records_sector(records: [(u8, u16); 2]) -> Sector {
    let mut sector = [0; 512];
    for number in 0..2usize {
        let (name, blocks) = records[number];
        if blocks > 0 {
            let at = 128 * number;
            sector[at] = 1;
            sector[at + 1] = name;
            sector[at + 64] = (blocks & 0xff) as u8;
            sector[at + 65] = (blocks >> 8) as u8;
        }
    }
    sector
}

// Takes a step on a store, after which the table on the devices is this, and so many extents are free.
fn check_step(rt: &(impl Abort + AllocGlobal), store: &mut TestStore, number: usize, row: &Row) {
    check_from(rt, store, number, &[row.step]);
    let status = store.status().expect(rt, "the status is told");
    same(rt, (number, status.free), (number, row.free));
    let (sectors, _) = logical_list(rt, store.bank());
    assert!(rt; sectors.len() >= 25);
    for at in 0..25usize {
        let wanted = match at {
            1 => records_sector(row.records),
            17 => entries_sector(row.entries),
            _ => [0; 512],
        };
        let is_so = sectors[at] == wanted;
        same(rt, (number, at, is_so), (number, at, true));
    }
}

// A step, and the records and entries of the table after it, and how many extents are free then.
#[derive(Clone, Copy)]
struct Row<'a> {
    step: Step<'a>,
    records: [(u8, u16); 2],
    entries: &'a [Entries],
    free: u32,
}

// The lowest clean extents are taken before dirty ones, and new blocks in dirty ones alone are made zero: blocks 352 to
// 399 are logical 64 to 111, the 24 rows of three stripes, of which no body has a sector; blocks 400 to 407 are one
// sector each of eight rows, and blocks 408 to 427 the others of these, four rows of two and four of one.
const ROWS: &[Row] = &[
    Row {
        step: Makes(Create(b"a", 40), Done, ONE_COMMIT),
        records: [(b'a', 40), (0, 0)],
        entries: &[(1, 0, false, 3)],
        free: 25,
    },
    Row {
        step: Makes(Create(b"b", 16), Done, ONE_COMMIT),
        records: [(b'a', 40), (b'b', 16)],
        entries: &[(1, 0, false, 3), (2, 0, false, 1)],
        free: 24,
    },
    Row {
        step: Makes(Remove(b"a"), Done, ONE_COMMIT),
        records: [(0, 0), (b'b', 16)],
        entries: &[(0, 0, true, 3), (2, 0, false, 1)],
        free: 27,
    },
    Row {
        step: Makes(Extend(b"b", 20), Done, ONE_COMMIT),
        records: [(0, 0), (b'b', 36)],
        entries: &[(0, 0, true, 3), (2, 0, false, 3)],
        free: 25,
    },
    Row {
        step: Makes(Create(b"c", 400), Done, [2, (3 * 24 + 6 + 3) + TABLE, 2]),
        records: [(b'c', 400), (b'b', 36)],
        entries: &[(1, 22, true, 3), (2, 0, false, 3), (1, 0, false, 22)],
        free: 0,
    },
    Row {
        step: Makes(Remove(b"b"), Done, ONE_COMMIT),
        records: [(b'c', 400), (0, 0)],
        entries: &[(1, 22, true, 3), (0, 0, true, 3), (1, 0, false, 22)],
        free: 3,
    },
    Row {
        step: Makes(Extend(b"c", 8), Done, [8 + 2, (3 * 16 + 6 + 2) + TABLE, 2]),
        records: [(b'c', 408), (0, 0)],
        entries: &[
            (1, 22, true, 3),
            (1, 25, true, 1),
            (0, 0, true, 2),
            (1, 0, false, 22),
        ],
        free: 2,
    },
    Row {
        step: Makes(
            Extend(b"c", 20),
            Done,
            [12 + 2, (3 * 36 + 6 + 3) + TABLE, 2],
        ),
        records: [(b'c', 428), (0, 0)],
        entries: &[
            (1, 22, true, 3),
            (1, 25, true, 1),
            (1, 26, true, 1),
            (0, 0, true, 1),
            (1, 0, false, 22),
        ],
        free: 1,
    },
];

#[test]
fn table_of_version_3(rt: HostRuntime) {
    let mut store = fresh_store(&rt, SET);
    check_from(&rt, &mut store, 0, &[Status([256, 1, 28, 28, 0])]);
    for number in 0..ROWS.len() {
        check_step(&rt, &mut store, number, &ROWS[number]);
    }
    check_from(&rt, &mut store, 8, &[Status([256, 1, 28, 1, 1])]);
}

// With the first byte of sector 0 changed it is no table of this format, and the sectors after it are not read; with
// that of sector 1 it has a record of a name that is not good.
#[test]
fn bad_table_of_version_3(rt: HostRuntime) {
    check_damaged(&rt, SET, 0, 1, 1);
    check_damaged(&rt, SET, 1, 1, 25);
}

// ---- clean extents

// Ten extents, two more and 16 more, which are all that the set has, are given out by one commit each. Where no clean
// one is left, 17 blocks are: a stripe of eight rows of two sectors, and a row of one.
#[test]
fn clean_extents_cost_no_entry(rt: HostRuntime) {
    const STEPS: &[Step] = &[
        Makes(Create(b"a", 160), Done, ONE_COMMIT),
        Makes(Extend(b"a", 32), Done, ONE_COMMIT),
        Do(Write(b"a", 0, &[0xaa; 32]), Done),
        Makes(Remove(b"a"), Done, ONE_COMMIT),
        Logical(64, &[0xaa; 32]),
        Makes(Create(b"b", 256), Done, ONE_COMMIT),
        Makes(Create(b"c", 17), Done, [1 + 2, (3 * 26 + 6 + 3) + TABLE, 2]),
        Logical(64, &[0; 17]),
        Logical(81, &[0xaa; 15]),
        Holds(&[(b"b", &[0; 256]), (b"c", &[0; 17])]),
        Shows(&[(b"b", &[0; 256]), (b"c", &[0; 17])]),
    ];
    check_new(&rt, SET, STEPS);
}

// New blocks in an extent that a volume has are in it as they were: zero where it is clean, without an entry of their
// own, so that sector 1 of the table alone is committed.
#[test]
fn new_blocks_in_a_clean_extent_of_the_volume(rt: HostRuntime) {
    const STEPS: &[Step] = &[
        Do(Create(b"a", 5), Done),
        Do(Write(b"a", 0, &[0x11; 5]), Done),
        Makes(Extend(b"a", 7), Done, [1, 3 * 2 + 6 + 2, 1]),
        Holds(&[(b"a", &[0x11, 0x11, 0x11, 0x11, 0x11, 0, 0, 0, 0, 0, 0, 0])]),
    ];
    check_new(&rt, SET, STEPS);
}

// All 28 extents have 448 blocks, and no volume has more than 1,024 extents would. An upgrade leaves the table as it
// is, without a call.
#[test]
fn limits_of_format_2(rt: HostRuntime) {
    const STEPS: &[Step] = &[
        Version(3),
        Makes(Create(b"a", 16_385), Refused(Refusal::BadSize), NONE),
        Makes(Create(b"a", 16_384), Refused(Refusal::NoSpace), NONE),
        Makes(Create(b"a", 449), Refused(Refusal::NoSpace), NONE),
        Makes(Create(b"a", 448), Done, ONE_COMMIT),
        Makes(Extend(b"a", 1), Refused(Refusal::NoSpace), NONE),
        Makes(Upgrade, Done, NONE),
        Version(3),
        Status([256, 1, 28, 0, 1]),
    ];
    check_new(&rt, SET, STEPS);
}

// ---- crashes

// Clean extents are left where others, which had other bytes, are free again: the volume gets clean ones by one commit.
static CLEAN_LEFT: Case = Case {
    shape: EIGHT,
    before: &[
        Do(Create(b"b", 1), Done),
        Do(Create(b"a", 17), Done),
        Do(Write(b"b", 0, &[0x11]), Done),
        Do(Write(b"a", 0, &[0xaa; 17]), Done),
        Do(Remove(b"a"), Done),
    ],
    call: Create(b"a", 20),
    old: &[(b"b", &[0x11])],
    new: &[(b"a", &[0; 20]), (b"b", &[0x11])],
    rows: 2,
    members: 3,
};

#[test]
fn crashes_in_create_of_clean_extents(rt: HostRuntime) {
    check_crashes(&rt, &CLEAN_LEFT, None, ABSENT);
}

// No clean extent is left: the new blocks had other bytes, and are made zero before the table says of them.
static NONE_CLEAN: Case = Case {
    shape: EIGHT,
    before: &[
        Do(Create(b"b", 1), Done),
        Do(Create(b"a", 112), Done),
        Do(Write(b"b", 0, &[0x11]), Done),
        Do(Write(b"a", 0, &[0xaa; 32]), Done),
        Do(Remove(b"a"), Done),
    ],
    call: Create(b"a", 3),
    old: &[(b"b", &[0x11])],
    new: &[(b"a", &[0; 3]), (b"b", &[0x11])],
    rows: 2,
    members: 3,
};

#[test]
fn crashes_in_create_of_dirty_extents_oldest(rt: HostRuntime) {
    check_crashes(&rt, &NONE_CLEAN, Some(Choice::Oldest), ABSENT);
}

#[test]
fn crashes_in_create_of_dirty_extents_newest(rt: HostRuntime) {
    check_crashes(&rt, &NONE_CLEAN, Some(Choice::Newest), ABSENT);
}

#[test]
fn crashes_in_create_of_dirty_extents_mixed(rt: HostRuntime) {
    check_crashes(&rt, &NONE_CLEAN, Some(Choice::Mixed(3)), ABSENT);
}

// A volume is removed whose blocks had other bytes; what it had is dirty then.
static REMOVED: Case = Case {
    shape: EIGHT,
    before: &[
        Do(Create(b"b", 1), Done),
        Do(Create(b"a", 17), Done),
        Do(Write(b"b", 0, &[0x11]), Done),
        Do(Write(b"a", 15, &[0x22, 0x33]), Done),
    ],
    call: Remove(b"a"),
    old: &[
        (
            b"a",
            &[0, 0, 0, 0, 0, 0, 0, 0, 0, 0, 0, 0, 0, 0, 0, 0x22, 0x33],
        ),
        (b"b", &[0x11]),
    ],
    new: &[(b"b", &[0x11])],
    rows: 2,
    members: 3,
};

#[test]
fn crashes_in_remove_of_format_2(rt: HostRuntime) {
    check_crashes(&rt, &REMOVED, None, ABSENT);
}

// Block 15 lies in the extent that the volume has, and block 16 in a new one. Both extents are dirty, and both blocks
// had other bytes before.
static EXTENDED: Case = Case {
    shape: EIGHT,
    before: &[
        Do(Create(b"b", 112), Done),
        Do(Write(b"b", 15, &[0xbb; 2]), Done),
        Do(Remove(b"b"), Done),
        Do(Create(b"c", 1), Done),
        Do(Create(b"a", 15), Done),
        Do(Write(b"a", 14, &[0x11]), Done),
    ],
    call: Extend(b"a", 2),
    old: &[
        (b"a", &[0, 0, 0, 0, 0, 0, 0, 0, 0, 0, 0, 0, 0, 0, 0x11]),
        (b"c", &[0]),
    ],
    new: &[
        (
            b"a",
            &[0, 0, 0, 0, 0, 0, 0, 0, 0, 0, 0, 0, 0, 0, 0x11, 0, 0],
        ),
        (b"c", &[0]),
    ],
    rows: 2,
    members: 3,
};

#[test]
fn crashes_in_extend_of_format_2(rt: HostRuntime) {
    check_crashes(&rt, &EXTENDED, None, ABSENT);
}

// The same in a set whose extents are of two stripes, where clean ones are left.
static CLEAN_LEFT_OF_TWO: Case = Case {
    shape: DOUBLED,
    before: &[
        Do(Create(b"b", 1), Done),
        Do(Create(b"a", 33), Done),
        Do(Write(b"b", 0, &[0x11]), Done),
        Do(Write(b"a", 1, &[0xaa; 32]), Done),
        Do(Remove(b"a"), Done),
    ],
    call: Create(b"a", 33),
    old: &[(b"b", &[0x11])],
    new: &[(b"a", &[0; 33]), (b"b", &[0x11])],
    rows: 2,
    members: 3,
};

// A member absent, a journal, and none.
const FEW_ABSENT: &[usize] = &[1, 3, 5];

#[test]
fn crashes_in_create_of_clean_extents_of_two_stripes(rt: HostRuntime) {
    check_crashes(&rt, &CLEAN_LEFT_OF_TWO, None, FEW_ABSENT);
}

// And where none is left: all but the first of 512 had the volume that was removed.
static NONE_CLEAN_OF_TWO: Case = Case {
    shape: DOUBLED,
    before: &[
        Do(Create(b"b", 1), Done),
        Do(Create(b"a", 16_352), Done),
        Do(Write(b"b", 0, &[0x11]), Done),
        Do(Write(b"a", 0, &[0xaa; 32]), Done),
        Do(Write(b"a", 32, &[0xbb; 32]), Done),
        Do(Remove(b"a"), Done),
    ],
    call: Create(b"a", 3),
    old: &[(b"b", &[0x11])],
    new: &[(b"a", &[0; 3]), (b"b", &[0x11])],
    rows: 2,
    members: 3,
};

#[test]
fn crashes_in_create_of_dirty_extents_of_two_stripes(rt: HostRuntime) {
    check_crashes(&rt, &NONE_CLEAN_OF_TWO, None, FEW_ABSENT);
}

// Both extents of `a`, which is removed, had other bytes. Before the seals of that it is there. Where it is gone it is
// made again, of two that are clean; and once another volume has the clean ones that are left, a third has the two. All
// three read as zeros.
static MADE_AGAIN: Case = Case {
    shape: EIGHT,
    before: &[
        Do(Create(b"b", 1), Done),
        Do(Create(b"a", 17), Done),
        Do(Write(b"b", 0, &[0x11]), Done),
        Do(Write(b"a", 0, &[0xaa; 17]), Done),
    ],
    call: Remove(b"a"),
    old: &[(b"a", &[0xaa; 17]), (b"b", &[0x11])],
    new: &[(b"b", &[0x11])],
    rows: 2,
    members: 3,
};

#[test]
fn made_again_after_crashes_in_remove(rt: HostRuntime) {
    const STEPS: &[Step] = &[
        Do(Create(b"a", 17), Done),
        Do(Read(b"a", 0, 17), Blocks(&[0; 17])),
        Do(Create(b"c", 48), Done),
        Status([96, 1, 8, 2, 3]),
        Do(Read(b"c", 0, 32), Blocks(&[0; 32])),
        Do(Read(b"c", 32, 16), Blocks(&[0; 16])),
        Do(Create(b"d", 17), Done),
        Do(Read(b"d", 0, 17), Blocks(&[0; 17])),
    ];
    check_crashes_then(&rt, &MADE_AGAIN, STEPS);
}

// The same in a set whose extents are of two stripes.
static MADE_AGAIN_OF_TWO: Case = Case {
    shape: DOUBLED,
    before: &[
        Do(Create(b"b", 1), Done),
        Do(Create(b"a", 33), Done),
        Do(Write(b"b", 0, &[0x11]), Done),
        Do(Write(b"a", 0, &[0xaa; 32]), Done),
        Do(Write(b"a", 32, &[0xaa]), Done),
    ],
    call: Remove(b"a"),
    old: &[(b"a", &[0xaa; 33]), (b"b", &[0x11])],
    new: &[(b"b", &[0x11])],
    rows: 2,
    members: 3,
};

#[test]
fn made_again_after_crashes_in_remove_of_two_stripes(rt: HostRuntime) {
    const STEPS: &[Step] = &[
        Do(Create(b"a", 33), Done),
        Do(Read(b"a", 0, 32), Blocks(&[0; 32])),
        Do(Read(b"a", 32, 1), Blocks(&[0])),
        Do(Create(b"c", 16_224), Done),
        Status([8_232, 1, 512, 2, 3]),
        Do(Read(b"c", 0, 32), Blocks(&[0; 32])),
        Do(Read(b"c", 32, 32), Blocks(&[0; 32])),
        Do(Create(b"d", 33), Done),
        Do(Read(b"d", 0, 32), Blocks(&[0; 32])),
        Do(Read(b"d", 32, 1), Blocks(&[0])),
    ];
    check_crashes_then(&rt, &MADE_AGAIN_OF_TWO, STEPS);
}
