//! Seals of form Runs: their bytes, which sectors spell none, and which count.
use crate::counting::counts;
use crate::testing::{ID, read_seal, same, spelled_held, spelled_runs};
use crate::{Form, seal_decode, seal_encode};
use entry_runs::Run;
use layout_map::{FIRST_SEAL, Geometry, HALVES};
use sector_model::Sector;
use std::process::Abort;

// Rows from one on, as many, with this mask.
fn run(first: u32, length: u16, mask: u8) -> Run {
    Run {
        first,
        length,
        mask,
    }
}

// The sector spells the seal of the entry of this number with these runs, which belongs into this sector of a journal
// and whose body has so many sectors of a set of so many members, and it is what is written of the seal.
fn check(
    rt: &impl Abort,
    sector: &Sector,
    (number, place): (u64, u32),
    runs: &[Run],
    (members, held): (u8, u32),
) {
    let seal = read_seal(rt, sector);
    same(rt, (seal.id, seal.number), (ID, number));
    same(rt, FIRST_SEAL + (number % HALVES as u64) as u32, place);
    assert!(rt; members <= 8);
    same(rt, seal.form.held(members), held);
    let mut again = [0xff; 512];
    seal_encode(&seal, &mut again);
    same(rt, again, *sector);
    match &seal.form {
        Form::Runs(found) => same(rt, found.list.as_slice(), runs),
        _ => assert!(rt; false),
    }
}

#[test]
fn one_block(rt: HostRuntime) {
    let sector = spelled_runs(1, &[[0x20, 0x00, 0x00, 0x00, 0x00, 0x01, 0x00, 0x06]]);
    check(&rt, &sector, (1, 3), &[run(32, 1, 0x06)], (3, 2));
}

#[test]
fn eight_blocks_aligned(rt: HostRuntime) {
    let sector = spelled_runs(1, &[[0x20, 0x00, 0x00, 0x00, 0x00, 0x08, 0x00, 0x06]]);
    check(&rt, &sector, (1, 3), &[run(32, 8, 0x06)], (3, 16));
}

#[test]
fn a_whole_stripe(rt: HostRuntime) {
    let sector = spelled_runs(1, &[[0x20, 0x00, 0x00, 0x00, 0x00, 0x08, 0x00, 0x07]]);
    check(&rt, &sector, (1, 3), &[run(32, 8, 0x07)], (3, 24));
}

#[test]
fn two_whole_stripes(rt: HostRuntime) {
    let sector = spelled_runs(1, &[[0x20, 0x00, 0x00, 0x00, 0x00, 0x10, 0x00, 0x07]]);
    check(&rt, &sector, (1, 3), &[run(32, 16, 0x07)], (3, 48));
}

#[test]
fn blocks_in_order_over_5_members_aligned(rt: HostRuntime) {
    let sector = spelled_runs(6, &[[0x80, 0x00, 0x00, 0x00, 0x00, 0x00, 0x02, 0x1f]]);
    check(&rt, &sector, (6, 2), &[run(128, 512, 0x1f)], (5, 2560));
}

/// The bytes of the runs of "2,048 blocks in order, not aligned".
pub(crate) const NOT_ALIGNED: &[[u8; 8]] = &[
    [0x80, 0x00, 0x00, 0x00, 0x00, 0x3c, 0x00, 0x0e],
    [0xbc, 0x00, 0x00, 0x00, 0x00, 0x44, 0x00, 0x0f],
    [0x00, 0x01, 0x00, 0x00, 0x00, 0x80, 0x01, 0x1f],
    [0x80, 0x02, 0x00, 0x00, 0x00, 0x3c, 0x00, 0x13],
    [0xbc, 0x02, 0x00, 0x00, 0x00, 0x44, 0x00, 0x11],
];

#[test]
fn blocks_in_order_not_aligned(rt: HostRuntime) {
    let runs = [
        run(128, 60, 0x0e),
        run(188, 68, 0x0f),
        run(256, 384, 0x1f),
        run(640, 60, 0x13),
        run(700, 68, 0x11),
    ];
    let sector = spelled_runs(7, NOT_ALIGNED);
    check(&rt, &sector, (7, 3), &runs, (5, 2688));
}

/// The bytes of the runs of "two blocks apart in one row".
pub(crate) const APART: &[[u8; 8]] = &[
    [0x20, 0x00, 0x00, 0x00, 0x00, 0x01, 0x00, 0x06],
    [0x22, 0x00, 0x00, 0x00, 0x00, 0x01, 0x00, 0x03],
];

#[test]
fn two_blocks_apart_in_one_row(rt: HostRuntime) {
    let runs = [run(32, 1, 0x06), run(34, 1, 0x03)];
    check(&rt, &spelled_runs(3, APART), (3, 3), &runs, (3, 4));
}

/// The bytes of "runs of zeros beside a run with a mask".
pub(crate) const BESIDE_ZEROS: &[[u8; 8]] = &[
    [0x20, 0x00, 0x00, 0x00, 0x00, 0x08, 0x00, 0x00],
    [0x28, 0x00, 0x00, 0x00, 0x00, 0x08, 0x00, 0x07],
    [0x30, 0x00, 0x00, 0x00, 0x00, 0x10, 0x00, 0x00],
];

#[test]
fn runs_of_zeros_beside_a_run_with_a_mask(rt: HostRuntime) {
    let runs = [run(32, 8, 0x00), run(40, 8, 0x07), run(48, 16, 0x00)];
    check(&rt, &spelled_runs(2, BESIDE_ZEROS), (2, 2), &runs, (3, 24));
}

#[test]
fn the_longest_run_of_zeros(rt: HostRuntime) {
    let sector = spelled_runs(9, &[[0xf1, 0xff, 0xfe, 0xff, 0x00, 0xff, 0xff, 0x00]]);
    check(
        &rt,
        &sector,
        (9, 3),
        &[run(4_294_901_745, 65_535, 0x00)],
        (8, 0),
    );
}

#[test]
fn one_block_at_the_greatest_sets_last_row(rt: HostRuntime) {
    let number = 4_611_686_018_427_387_904;
    let sector = spelled_runs(number, &[[0xef, 0xff, 0xff, 0xff, 0x00, 0x01, 0x00, 0x06]]);
    check(
        &rt,
        &sector,
        (number, 2),
        &[run(4_294_967_279, 1, 0x06)],
        (8, 2),
    );
}

// The run (32, 8, 06).
const ONE_RUN: &[[u8; 8]] = &[[0x20, 0x00, 0x00, 0x00, 0x00, 0x08, 0x00, 0x06]];

#[test]
fn number_0(rt: HostRuntime) {
    assert!(rt; seal_decode(&spelled_runs(0, ONE_RUN)).is_none());
}

#[test]
fn number_2_62_and_1(rt: HostRuntime) {
    assert!(rt; seal_decode(&spelled_runs(4_611_686_018_427_387_905, ONE_RUN)).is_none());
}

#[test]
fn byte_36_is_1(rt: HostRuntime) {
    let mut sector = spelled_runs(1, ONE_RUN);
    sector[36] = 0x01;
    assert!(rt; seal_decode(&sector).is_none());
}

#[test]
fn the_end_of_form_held(rt: HostRuntime) {
    let mut sector = spelled_runs(1, ONE_RUN);
    sector[504] = 0x32;
    assert!(rt; seal_decode(&sector).is_none());
}

#[test]
fn a_count_beyond_the_runs(rt: HostRuntime) {
    let mut sector = spelled_runs(1, ONE_RUN);
    sector[32] = 2;
    assert!(rt; seal_decode(&sector).is_none());
}

// Whether the seal that a sector spells counts in seal sector 3 of the example set, or of that set in format 1.
fn is_counted(rt: &impl Abort, sector: &Sector, is_large: bool) -> bool {
    let set = if is_large {
        Geometry::large(3, 8, 32)
    } else {
        Geometry::new(3, 8, 32)
    };
    counts(
        &read_seal(rt, sector),
        &ID,
        &set.expect(rt, "a geometry"),
        1,
    )
}

#[test]
fn rows_248_to_256_of_zeros(rt: HostRuntime) {
    let sector = spelled_runs(1, &[[0xf8, 0x00, 0x00, 0x00, 0x00, 0x09, 0x00, 0x00]]);
    assert!(rt; !is_counted(&rt, &sector, true));
}

#[test]
fn row_256_of_zeros(rt: HostRuntime) {
    let sector = spelled_runs(1, &[[0x00, 0x01, 0x00, 0x00, 0x00, 0x01, 0x00, 0x00]]);
    assert!(rt; !is_counted(&rt, &sector, true));
}

#[test]
fn bit_3_of_3_members(rt: HostRuntime) {
    let sector = spelled_runs(1, &[[0x00, 0x00, 0x00, 0x00, 0x00, 0x01, 0x00, 0x0c]]);
    assert!(rt; !is_counted(&rt, &sector, true));
}

#[test]
fn no_bit_of_the_parity_in_each_row(rt: HostRuntime) {
    let sector = spelled_runs(1, &[[0x20, 0x00, 0x00, 0x00, 0x00, 0x08, 0x00, 0x05]]);
    assert!(rt; !is_counted(&rt, &sector, true));
}

#[test]
fn no_bit_of_the_parity_in_row_40(rt: HostRuntime) {
    let sector = spelled_runs(1, &[[0x20, 0x00, 0x00, 0x00, 0x00, 0x09, 0x00, 0x06]]);
    assert!(rt; !is_counted(&rt, &sector, true));
}

#[test]
fn the_seal_sector_of_the_other_number(rt: HostRuntime) {
    assert!(rt; !is_counted(&rt, &spelled_runs(2, ONE_RUN), true));
}

#[test]
fn an_id_of_zeros(rt: HostRuntime) {
    let mut sector = spelled_runs(1, ONE_RUN);
    sector[8..24].fill(0);
    assert!(rt; !is_counted(&rt, &sector, true));
}

#[test]
fn form_held_in_format_2(rt: HostRuntime) {
    let sector = spelled_held(&ID, 1, [32, 0], [0x06, 0]);
    same(
        &rt,
        (
            is_counted(&rt, &sector, true),
            is_counted(&rt, &sector, false),
        ),
        (false, true),
    );
}

#[test]
fn form_runs_in_format_1(rt: HostRuntime) {
    let sector = spelled_runs(1, &[[0x20, 0x00, 0x00, 0x00, 0x00, 0x01, 0x00, 0x06]]);
    same(
        &rt,
        (
            is_counted(&rt, &sector, true),
            is_counted(&rt, &sector, false),
        ),
        (true, false),
    );
}

#[test]
fn runs_over_three_stripes_count(rt: HostRuntime) {
    let runs = [
        [0x20, 0x00, 0x00, 0x00, 0x00, 0x08, 0x00, 0x06],
        [0x28, 0x00, 0x00, 0x00, 0x00, 0x08, 0x00, 0x07],
        [0x30, 0x00, 0x00, 0x00, 0x00, 0x08, 0x00, 0x00],
        [0x38, 0x00, 0x00, 0x00, 0x00, 0x08, 0x00, 0x06],
    ];
    assert!(rt; is_counted(&rt, &spelled_runs(1, &runs), true));
}
