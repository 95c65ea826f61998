//! What volumes have before a batch is committed, and after it.
use super::sets::{SMALL, Shape};
use super::steps::{Step, Volumes, opened_after};
use super::{LARGE_SMALL, Write, staged};
use layout_map::Format;
use std::process::Abort;

// Writes that are committed together, what was done before them, and the volumes before them and after them.
#[derive(Clone, Copy)]
struct Case<'a> {
    before: &'a [Step<'a>],
    writes: &'a [Write<'a>],
    old: Volumes<'a>,
    new: Volumes<'a>,
}

// Checks a case on a set of this shape: the volumes are as before while the writes wait, and as after them once they
// are committed, also in the next run.
fn check_case(rt: &(impl Abort + AllocGlobal), shape: Shape, case: &Case) {
    let store = opened_after(rt, shape, case.before);
    let mut waiting = staged(rt, store, case.writes);
    waiting.check_volumes(rt, case.old);
    assert!(rt; waiting.commit().is_ok());
    waiting.check_volumes(rt, case.new);
}

// Checks a case on a set of each format.
fn check_both(rt: &(impl Abort + AllocGlobal), case: &Case) {
    check_case(rt, SMALL, case);
    check_case(rt, LARGE_SMALL, case);
}

// A volume of ten blocks that are all the same.
const TEN: &[Step] = &[Step::Create(b"a", 10), Step::Write(b"a", 0, &[0x11; 10])];

// Blocks 4 and 5 are in both writes.
#[test]
fn the_later_write_counts(rt: HostRuntime) {
    const RISING: Case = Case {
        before: TEN,
        writes: &[(b"a", 2, &[0x22; 4]), (b"a", 4, &[0x33; 4])],
        old: &[(b"a", &[0x11; 10])],
        new: &[(
            b"a",
            &[0x11, 0x11, 0x22, 0x22, 0x33, 0x33, 0x33, 0x33, 0x11, 0x11],
        )],
    };
    const FALLING: Case = Case {
        before: TEN,
        writes: &[(b"a", 4, &[0x33; 4]), (b"a", 2, &[0x22; 4])],
        old: &[(b"a", &[0x11; 10])],
        new: &[(
            b"a",
            &[0x11, 0x11, 0x22, 0x22, 0x22, 0x22, 0x33, 0x33, 0x11, 0x11],
        )],
    };
    check_both(&rt, &RISING);
    check_both(&rt, &FALLING);
}

// The same block is written three times, and in the end it is as it was.
#[test]
fn a_block_gets_its_old_bytes_again(rt: HostRuntime) {
    const CASE: Case = Case {
        before: TEN,
        writes: &[
            (b"a", 7, &[0x77, 0x88]),
            (b"a", 7, &[0x99]),
            (b"a", 7, &[0x11]),
        ],
        old: &[(b"a", &[0x11; 10])],
        new: &[(
            b"a",
            &[0x11, 0x11, 0x11, 0x11, 0x11, 0x11, 0x11, 0x11, 0x88, 0x11],
        )],
    };
    check_both(&rt, &CASE);
}

// In `a` the first and the last blocks are written, around one that is not, and in `b` one between.
#[test]
fn writes_to_two_volumes(rt: HostRuntime) {
    const CASE: Case = Case {
        before: &[
            Step::Create(b"a", 5),
            Step::Create(b"b", 3),
            Step::Write(b"b", 0, &[0xb7; 3]),
        ],
        writes: &[
            (b"a", 0, &[0xa0, 0xa1]),
            (b"b", 1, &[0xb1]),
            (b"a", 3, &[0xa3, 0xa4]),
        ],
        old: &[(b"a", &[0; 5]), (b"b", &[0xb7; 3])],
        new: &[
            (b"a", &[0xa0, 0xa1, 0, 0xa3, 0xa4]),
            (b"b", &[0xb7, 0xb1, 0xb7]),
        ],
    };
    check_both(&rt, &CASE);
}

// Blocks 14 and 15 of `a` lie in extent 0, which ends where `b` begins; blocks 16 and 17 lie in extent 2, after `b`.
#[test]
fn a_write_over_a_border_of_extents(rt: HostRuntime) {
    const CASE: Case = Case {
        before: &[
            Step::Create(b"a", 16),
            Step::Create(b"b", 16),
            Step::Extend(b"a", 2),
            Step::Write(b"b", 0, &[0xbb; 16]),
        ],
        writes: &[(b"a", 14, &[0xe0, 0xe1, 0xe2, 0xe3]), (b"b", 0, &[0xb0])],
        old: &[(b"a", &[0; 18]), (b"b", &[0xbb; 16])],
        new: &[
            (
                b"a",
                &[
                    0, 0, 0, 0, 0, 0, 0, 0, 0, 0, 0, 0, 0, 0, 0xe0, 0xe1, 0xe2, 0xe3,
                ],
            ),
            (
                b"b",
                &[
                    0xb0, 0xbb, 0xbb, 0xbb, 0xbb, 0xbb, 0xbb, 0xbb, 0xbb, 0xbb, 0xbb, 0xbb, 0xbb,
                    0xbb, 0xbb, 0xbb,
                ],
            ),
        ],
    };
    check_case(&rt, LARGE_SMALL, &CASE);
}

// 128 rows, 256 data sectors and 3 extents of 64 blocks.
const THREE: Shape = (Format::One, 3, 8, 16);

// The same with extents of 64 blocks: blocks 62 and 63 of `a` lie in extent 0, and blocks 64 and 65 in extent 2.
#[test]
fn a_write_over_a_border_of_extents_of_format_1(rt: HostRuntime) {
    const CASE: Case = Case {
        before: &[
            Step::Create(b"a", 64),
            Step::Create(b"b", 1),
            Step::Extend(b"a", 2),
            Step::Write(b"b", 0, &[0xbb]),
        ],
        writes: &[(b"a", 62, &[0xe0, 0xe1, 0xe2, 0xe3]), (b"b", 0, &[0xb0])],
        old: &[(b"a", &[0; 66]), (b"b", &[0xbb])],
        new: &[
            (
                b"a",
                &[
                    0, 0, 0, 0, 0, 0, 0, 0, 0, 0, 0, 0, 0, 0, 0, 0, 0, 0, 0, 0, 0, 0, 0, 0, 0, 0,
                    0, 0, 0, 0, 0, 0, 0, 0, 0, 0, 0, 0, 0, 0, 0, 0, 0, 0, 0, 0, 0, 0, 0, 0, 0, 0,
                    0, 0, 0, 0, 0, 0, 0, 0, 0, 0, 0xe0, 0xe1, 0xe2, 0xe3,
                ],
            ),
            (b"b", &[0xb0]),
        ],
    };
    check_case(&rt, THREE, &CASE);
}

// A set that lacks a member, or a journal, takes a batch too.
#[test]
fn batches_without_a_slot(rt: HostRuntime) {
    for slot in 0..5u8 {
        let before = [
            Step::Create(b"a", 10),
            Step::Write(b"a", 0, &[0x11; 10]),
            Step::Fail(slot),
        ];
        let case = Case {
            before: &before,
            writes: &[(b"a", 6, &[0x66; 4]), (b"a", 0, &[0x22; 7])],
            old: &[(b"a", &[0x11; 10])],
            new: &[(
                b"a",
                &[0x22, 0x22, 0x22, 0x22, 0x22, 0x22, 0x22, 0x66, 0x66, 0x66],
            )],
        };
        check_both(&rt, &case);
    }
}
