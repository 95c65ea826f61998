//! Writes that are refused, or that find no room in a batch: nothing waits then that did not.
ghost use Rattle.batch_trials.specs.Waiting.{Waits};

use super::sets::{SMALL, Shape};
use super::steps::{Step, Volumes, opened_after};
use super::{LARGE_SMALL, OF_FIVE, TestWaiting, Waiting, Write};
use crate::testing::same;
use layout_map::Format;
use sector_model::Refusal::{BadCount, NoVolume, OutOfRange};
use sector_model::{Bank, Refusal};
use std::process::Abort;

// A volume of 40 blocks, and a shorter one.
const VOLUMES: &[Step] = &[
    Step::Create(b"a", 40),
    Step::Create(b"b", 2),
    Step::Write(b"b", 0, &[0xb0, 0xb1]),
];

// Writes, and how each is refused: one to no volume also where its count is bad, and one of a bad count also where it
// lies beyond the end of the volume.
const REFUSED: &[(Write, Refusal)] = &[
    ((b"c", 0, &[0x99]), NoVolume),
    ((b"", 0, &[0x99]), NoVolume),
    ((b"A", 0, &[0x99]), NoVolume),
    ((b"c", 0, &[]), NoVolume),
    ((b"c", 0, &[0x99; 33]), NoVolume),
    ((b"a", 0, &[]), BadCount),
    ((b"a", 40, &[]), BadCount),
    ((b"a", 0, &[0x99; 33]), BadCount),
    ((b"b", 0, &[0x99; 33]), BadCount),
    ((b"a", 4_294_967_295, &[0x99; 33]), BadCount),
    ((b"a", 40, &[0x99]), OutOfRange),
    ((b"a", 39, &[0x99; 2]), OutOfRange),
    ((b"a", 9, &[0x99; 32]), OutOfRange),
    ((b"b", 0, &[0x99; 32]), OutOfRange),
    ((b"b", 2, &[0x99]), OutOfRange),
    ((b"a", 4_294_967_295, &[0x99]), OutOfRange),
];

// Asks that each of these writes is refused so, that these sectors wait before it and after it, and that no device is
// called.
fn check_refused(rt: &(impl Abort + AllocGlobal), waiting: &mut TestWaiting, wait: &[(u64, u8)])
    requires held { Waits waiting.old.store waiting.old.batch }
    ensures held { Waits waiting.new.store waiting.new.batch }
{
    let before = waiting.store.bank().now();
    for number in 0..REFUSED.len() {
        let (write, refusal) = REFUSED[number];
        let got = waiting.stage(rt, write);
        same(rt, (number, got), (number, Err(refusal)));
        assert!(rt; waiting.listed(rt).as_slice() == wait);
    }
    same(rt, waiting.store.bank().now(), before);
}

// The volumes after blocks 3 and 4 of `a` were written.
const AFTER: Volumes = &[
    (
        b"a",
        &[
            0, 0, 0, 0x33, 0x44, 0, 0, 0, 0, 0, 0, 0, 0, 0, 0, 0, 0, 0, 0, 0, 0, 0, 0, 0, 0, 0, 0,
            0, 0, 0, 0, 0, 0, 0, 0, 0, 0, 0, 0, 0,
        ],
    ),
    (b"b", &[0xb0, 0xb1]),
];

// Blocks 3 and 4 of `a` are logical sectors 67 and 68. After the refusals they alone are written.
#[test]
fn refused_writes_do_not_wait(rt: HostRuntime) {
    for shape in [SMALL, LARGE_SMALL] {
        let mut waiting = Waiting::new(&rt, opened_after(&rt, shape, VOLUMES));
        check_refused(&rt, &mut waiting, &[]);
        waiting.stage_all(&rt, &[(b"a", 3, &[0x33, 0x44])]);
        check_refused(&rt, &mut waiting, &[(67, 0x33), (68, 0x44)]);
        assert!(rt; waiting.commit().is_ok());
        check_refused(&rt, &mut waiting, &[]);
        waiting.check_volumes(&rt, AFTER);
    }
}

// Asks that there is no room for any of these writes, and that what waits stays as it is.
fn check_full(rt: &(impl Abort + AllocGlobal), waiting: &mut TestWaiting, writes: &[Write])
    requires held { Waits waiting.old.store waiting.old.batch }
    ensures held { Waits waiting.new.store waiting.new.batch }
{
    let before = waiting.listed(rt);
    for number in 0..writes.len() {
        let got = waiting.stage(rt, writes[number]);
        same(rt, (number, got), (number, Ok(false)));
        assert!(rt; waiting.listed(rt).as_slice() == before.as_slice());
    }
}

// Asks that a batch is committed, after which the volume `a` has these bytes, also in the next run.
fn check_committed(rt: &(impl Abort + AllocGlobal), waiting: &mut TestWaiting, bytes: &[u8])
    requires held { Waits waiting.old.store waiting.old.batch }
    ensures held { Waits waiting.new.store waiting.new.batch }
{
    assert!(rt; waiting.commit().is_ok());
    waiting.check_volumes(rt, &[(b"a".as_slice(), bytes)]);
}

// So many zeros.
fn zeros(rt: &(impl Abort + AllocGlobal), count: usize) -> Vec<u8> {
    vec![in rt.alloc(); 0u8; count].expect(rt, "memory")
}

// Makes some bytes of a list another one, from a place on.
fn put(rt: &impl Abort, bytes: &mut [u8], first: usize, count: usize, byte: u8) {
    for place in first..first.saturating_add(count) {
        assert!(rt; place < bytes.len());
        bytes[place] = byte;
    }
}

// A set of this shape with a volume `a` of so many blocks.
fn with_volume(rt: &(impl Abort + AllocGlobal), shape: Shape, blocks: u32) -> TestWaiting
    ensures held { Waits result.store result.batch }
{
    Waiting::new(rt, opened_after(rt, shape, &[Step::Create(b"a", blocks)]))
}

// In a set of format 1, 32 blocks wait: a further one finds no room, alone or after one that waits already. One that
// waits already can be written again.
#[test]
fn no_room_for_33_blocks_of_format_1(rt: HostRuntime) {
    let mut waiting = with_volume(&rt, SMALL, 40);
    waiting.stage_all(&rt, &[(b"a", 0, &[0x11; 20]), (b"a", 20, &[0x22; 12])]);
    let full: &[Write] = &[(b"a", 32, &[0x99]), (b"a", 31, &[0x99; 2])];
    check_full(&rt, &mut waiting, full);
    waiting.stage_all(&rt, &[(b"a", 31, &[0x33]), (b"a", 0, &[0x44])]);
    same(&rt, waiting.batch.len(), 32);
    check_full(&rt, &mut waiting, full);
    let mut want = zeros(&rt, 40);
    put(&rt, &mut want, 0, 1, 0x44);
    put(&rt, &mut want, 1, 19, 0x11);
    put(&rt, &mut want, 20, 11, 0x22);
    put(&rt, &mut want, 31, 1, 0x33);
    check_committed(&rt, &mut waiting, &want);
    waiting.stage_all(&rt, &full[..1]);
}

// In a set of format 2, 2,048 blocks wait. The volume has 65 extents of 32 blocks.
#[test]
fn no_room_for_2049_blocks(rt: HostRuntime) {
    let mut waiting = with_volume(&rt, OF_FIVE, 2_080);
    let mut want = zeros(&rt, 2_080);
    for number in 0..64u8 {
        let at = 32 * u32::from(number);
        waiting.stage_all(&rt, &[(b"a", at, &[number + 1; 32])]);
        put(&rt, &mut want, at as usize, 32, number + 1);
    }
    same(&rt, waiting.batch.len(), 2_048);
    check_full(
        &rt,
        &mut waiting,
        &[
            (b"a", 2_048, &[0x99]),
            (b"a", 2_047, &[0x99; 2]),
            (b"a", 2_017, &[0x99; 32]),
        ],
    );
    waiting.stage_all(&rt, &[(b"a", 2_047, &[0xdd])]);
    put(&rt, &mut want, 2_047, 1, 0xdd);
    same(&rt, waiting.batch.len(), 2_048);
    check_committed(&rt, &mut waiting, &want);
}

// 512 rows, 1,024 data sectors and 60 extents of 16 blocks, each a stripe of 8 rows.
const SIXTY: Shape = (Format::Two, 3, 8, 64);

// The first blocks of 58 extents wait, each in the first row of its stripe: 58 runs of one row. That of another extent
// would be a 59th run. The block after one that waits is in the row after that, on the same member, and so of its run;
// that eight blocks on is in the same row, which then has another mask. Nine blocks from that of the last run on are
// two runs: a row with two of them, and seven rows with one.
#[test]
fn no_room_for_59_runs(rt: HostRuntime) {
    let mut waiting = with_volume(&rt, SIXTY, 960);
    let mut want = zeros(&rt, 960);
    for number in 0..58u8 {
        let at = 16 * u32::from(number);
        waiting.stage_all(&rt, &[(b"a", at, &[number + 1])]);
        put(&rt, &mut want, at as usize, 1, number + 1);
    }
    same(&rt, waiting.batch.runs().count(), 58);
    let full: &[Write] = &[
        (b"a", 928, &[0x99]),
        (b"a", 959, &[0x99]),
        (b"a", 927, &[0x99]),
        (b"a", 912, &[0x99; 9]),
        (b"a", 2, &[0x99]),
    ];
    check_full(&rt, &mut waiting, full);
    waiting.stage_all(&rt, &[(b"a", 913, &[0xaa]), (b"a", 24, &[0xbb])]);
    put(&rt, &mut want, 913, 1, 0xaa);
    put(&rt, &mut want, 24, 1, 0xbb);
    check_full(&rt, &mut waiting, &full[..3]);
    same(&rt, waiting.batch.len(), 60);
    check_committed(&rt, &mut waiting, &want);
}
