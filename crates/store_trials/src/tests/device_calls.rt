//! How many device calls and entries the calls of a store make, and what they write.
//!
//! A commit to a set of 3 members that is all there reads of a row with one given sector the other data, and of one
//! with two nothing. It holds the given sectors and the parity: two or three sectors a row, each of them written to
//! both journals and to its member. Two seals are written, each journal is flushed twice, and each member that is
//! written once. So there are 3 writes for each sector that is held, 6 calls of seals and journals, and a flush of each
//! such member: of 1 sector in a row a read and 6 + 6 + 2 writes and flushes, of 32 in 16 rows no read and 144 + 6 + 3.
use super::Answer::{Blocks, Done, Listed, Refused};
use super::Call::{Create, Extend, Fail, List, Read, Remove, Write};
use super::Step::{Do, Holds, Logical, Makes, Owner, Record, Status};
use super::{SET_A, Step, check_new};
use sector_model::Refusal;

// Nothing.
const NONE: [u64; 3] = [0, 0, 0];

// A block.
const ONE: u64 = 3 * 2 + 6 + 2;

// Two sectors of the table, in two rows whose parity is on one member, and which have their data on one.
const TABLE: u64 = 3 * 4 + 6 + 2;

// Blocks that fill 16 rows.
const FULL: u64 = 3 * 48 + 6 + 3;

// Blocks 0 to 31 of the first volume lie in rows 32 to 47, two in each row. Blocks 7 and 8 are of rows 39 and 32, on
// members 2 and 0, with the parity on 1.
#[test]
fn calls_of_reads_and_writes(rt: HostRuntime) {
    const STEPS: &[Step] = &[
        Do(Create(b"a", 64), Done),
        Makes(Read(b"a", 5, 1), Blocks(&[0]), [1, 0, 0]),
        Makes(Read(b"a", 5, 2), Blocks(&[0; 2]), [2, 0, 0]),
        Makes(Read(b"a", 5, 31), Blocks(&[0; 31]), [31, 0, 0]),
        Makes(Read(b"a", 5, 32), Blocks(&[0; 32]), [32, 0, 0]),
        Makes(Write(b"a", 0, &[0x11]), Done, [1, ONE, 1]),
        Makes(Write(b"a", 7, &[0x22; 2]), Done, [2, 3 * 4 + 6 + 3, 1]),
        // Eight rows, of which row 32 is whole.
        Makes(Write(b"a", 0, &[0x33; 9]), Done, [7, 3 * 17 + 6 + 3, 1]),
        Makes(Write(b"a", 0, &[0x44; 32]), Done, [0, FULL, 1]),
    ];
    check_new(&rt, SET_A, STEPS);
}

// Sectors 1 and 3 of the table change with a volume, in rows 1 and 3, and sector 1 alone where only its length does.
#[test]
fn entries_of_growth(rt: HostRuntime) {
    const STEPS: &[Step] = &[
        Makes(Create(b"a", 64), Done, [2, FULL + FULL + TABLE, 3]),
        // One block in an extent of its own.
        Makes(Extend(b"a", 1), Done, [1 + 2, ONE + TABLE, 2]),
        // One block more in that extent.
        Makes(Extend(b"a", 1), Done, [1 + 1, ONE + ONE, 2]),
        // Thirty-three blocks from block 2 of that extent on: 32 to block 33, and one. The 32 are one each in rows 64,
        // 65, 80 and 81, and two each in 66 to 79: 4 × 2 + 14 × 3 sectors are held.
        Makes(
            Extend(b"a", 33),
            Done,
            [4 + 1 + 1, (3 * 50 + 6 + 3) + ONE + ONE, 3],
        ),
        Makes(Create(b"b", 33), Done, [1 + 2, FULL + ONE + TABLE, 3]),
        Makes(Remove(b"a"), Done, [2, TABLE, 1]),
        Holds(&[(b"b", &[0; 33])]),
    ];
    check_new(&rt, SET_A, STEPS);
}

// What is refused makes no device call, and what is only told neither. To give a slot up, four superblocks are written
// and flushed.
#[test]
fn calls_of_refusals(rt: HostRuntime) {
    const STEPS: &[Step] = &[
        Do(Create(b"a", 64), Done),
        Makes(Create(b"b", 448), Refused(Refusal::NoSpace), NONE),
        Makes(Extend(b"a", 385), Refused(Refusal::NoSpace), NONE),
        Makes(Remove(b"b"), Refused(Refusal::NoVolume), NONE),
        Makes(Write(b"a", 64, &[1]), Refused(Refusal::OutOfRange), NONE),
        Makes(Fail(5), Refused(Refusal::NotMissing), NONE),
        Makes(List, Listed(&[(b"a", &[0; 64])]), NONE),
        Status([256, 1, 7, 6, 1]),
        Makes(Fail(0), Done, [0, 8, 0]),
    ];
    check_new(&rt, SET_A, STEPS);
}

// The extent of `a` had other bytes before. Of these the new blocks alone are made zero.
#[test]
fn new_blocks_alone_are_zero(rt: HostRuntime) {
    const STEPS: &[Step] = &[
        Do(Create(b"b", 64), Done),
        Do(Write(b"b", 0, &[0xaa; 32]), Done),
        Do(Remove(b"b"), Done),
        Do(Create(b"a", 10), Done),
        Logical(64, &[0; 10]),
        Logical(74, &[0xaa; 22]),
        Do(Write(b"a", 9, &[0x99]), Done),
        Do(Extend(b"a", 2), Done),
        Logical(72, &[0, 0x99, 0, 0]),
        Logical(76, &[0xaa; 20]),
    ];
    check_new(&rt, SET_A, STEPS);
}

// Record 1 and extent 1 are free, and extent 3 after those of the two other volumes. Block 64 of `d` lies at the front
// of extent 3, and the block of `c` at that of extent 2.
#[test]
fn lowest_record_and_extents(rt: HostRuntime) {
    const STEPS: &[Step] = &[
        Do(Create(b"a", 64), Done),
        Do(Create(b"b", 64), Done),
        Do(Create(b"c", 64), Done),
        Do(Write(b"c", 0, &[0xcc]), Done),
        Do(Remove(b"b"), Done),
        Owner(1, None),
        Do(Create(b"d", 65), Done),
        Record(b"d", 1, 65),
        Owner(0, Some((0, 0))),
        Owner(1, Some((1, 0))),
        Owner(2, Some((2, 0))),
        Owner(3, Some((1, 1))),
        Owner(4, None),
        Do(Write(b"d", 63, &[0x63, 0x64]), Done),
        Logical(191, &[0x63, 0xcc]),
        Logical(256, &[0x64, 0]),
    ];
    check_new(&rt, SET_A, STEPS);
}
