//! Runs from rows that come one after another.
use super::*;

// Adds a row.
fn add(rt: &impl Abort, builder: &mut RunsBuilder, row: u32, mask: u8) -> bool {
    assert!(rt; builder.end() <= u64::from(row));
    assert!(rt; mask.count_ones() >= 2);
    builder.push(row, mask)
}

// Adds rows of zeros.
fn add_zeros(rt: &impl Abort, builder: &mut RunsBuilder, first: u32, count: u16) -> bool {
    assert!(rt; builder.end() <= u64::from(first));
    assert!(rt; count >= 1);
    builder.push_zeros(first, count)
}

// Adds the rows of a run with a mask, one by one, all of which fit.
fn add_each(rt: &impl Abort, builder: &mut RunsBuilder, first: u32, count: u32, mask: u8) {
    for row in 0..count {
        assert!(rt; row <= u32::MAX - first);
        assert!(rt; add(rt, builder, first + row, mask));
    }
}

// The runs of a builder that has rows.
fn finished(rt: &impl Abort, builder: RunsBuilder) -> Runs {
    builder.to_runs().expect(rt, "the builder has rows")
}

// A builder of these runs, of which one with the mask 0 is of zeros.
fn built(rt: &impl Abort, runs: &[Run]) -> RunsBuilder {
    let mut builder = RunsBuilder::new();
    for run in runs {
        if run.mask == 0 {
            assert!(rt; add_zeros(rt, &mut builder, run.first, run.length));
        } else {
            add_each(rt, &mut builder, run.first, u32::from(run.length), run.mask);
        }
    }
    builder
}

#[test]
fn no_rows(rt: HostRuntime) {
    let builder = RunsBuilder::new();
    same(&rt, builder.end(), 0);
    assert!(rt; builder.to_runs().is_none());
}

#[test]
fn blocks_in_order_not_aligned(rt: HostRuntime) {
    let runs = [
        run(128, 60, 0x0e),
        run(188, 68, 0x0f),
        run(256, 384, 0x1f),
        run(640, 60, 0x13),
        run(700, 68, 0x11),
    ];
    let builder = built(&rt, &runs);
    same(&rt, (builder.end(), builder.count()), (768, 640));
    let entry = finished(&rt, builder);
    same(&rt, entry.list.as_slice(), &runs);
    same(&rt, entry.held(), 2_688);
}

// Checks how many runs, rows and held sectors a builder has.
fn check_numbers(rt: &impl Abort, builder: &RunsBuilder, (runs, rows, held): (usize, usize, u32)) {
    let entry = builder.to_runs().expect(rt, "the builder has rows");
    let got = (entry.list.len(), builder.count(), entry.held());
    same(rt, got, (runs, rows, held));
}

// Of 5 members with chunks of 128 sectors, blocks 512 to 639 lie on member 4 from row 128 on, and their parity on
// member 3: these are blocks 512, 514 .. 626. With block 628 there would be 59 runs.
#[test]
fn blocks_58_with_gaps(rt: HostRuntime) {
    let mut builder = RunsBuilder::new();
    for number in 0..58 {
        assert!(rt; add(&rt, &mut builder, 128 + 2 * number, 0x18));
    }
    check_numbers(&rt, &builder, (58, 58, 116));
    assert!(rt; !add(&rt, &mut builder, 244, 0x18));
    check_numbers(&rt, &builder, (58, 58, 116));
}

// With block 513 the first three of the 59 are one run.
#[test]
fn blocks_59_with_gaps_and_one_between(rt: HostRuntime) {
    let mut builder = built(&rt, &[run(128, 3, 0x18)]);
    for number in 2..59 {
        assert!(rt; add(&rt, &mut builder, 128 + 2 * number, 0x18));
    }
    check_numbers(&rt, &builder, (58, 60, 120));
    same(&rt, builder.end(), 245);
}

// The first 128 blocks of each of 16 stripes, from block 512 on: each time on another member, with the parity on the
// one below it. No row fits beside these.
#[test]
fn a_chunk_of_each_of_16_stripes(rt: HostRuntime) {
    let runs = [
        run(128, 128, 0x18),
        run(256, 128, 0x0c),
        run(384, 128, 0x06),
        run(512, 128, 0x03),
        run(640, 128, 0x11),
        run(768, 128, 0x18),
        run(896, 128, 0x0c),
        run(1_024, 128, 0x06),
        run(1_152, 128, 0x03),
        run(1_280, 128, 0x11),
        run(1_408, 128, 0x18),
        run(1_536, 128, 0x0c),
        run(1_664, 128, 0x06),
        run(1_792, 128, 0x03),
        run(1_920, 128, 0x11),
        run(2_048, 128, 0x18),
    ];
    let mut builder = built(&rt, &runs);
    check_numbers(&rt, &builder, (16, 2_048, 4_096));
    assert!(rt; !add(&rt, &mut builder, 2_176, 0x0c));
    same(&rt, finished(&rt, builder).list.as_slice(), &runs);
}

#[test]
fn rows_over_a_gap_are_two_runs(rt: HostRuntime) {
    let runs = [run(32, 1, 6), run(34, 1, 6)];
    let builder = built(&rt, &runs);
    same(&rt, finished(&rt, builder).list.as_slice(), &runs);
}

#[test]
fn zeros_beside_a_mask(rt: HostRuntime) {
    let runs = [run(32, 8, 0), run(40, 8, 7), run(48, 16, 0)];
    let builder = built(&rt, &runs);
    same(&rt, finished(&rt, builder).list.as_slice(), &runs);
}

#[test]
fn zeros_that_follow_are_one_run(rt: HostRuntime) {
    let builder = built(&rt, &[run(56, 8, 0), run(64, 16, 0), run(104, 8, 0)]);
    same(
        &rt,
        finished(&rt, builder).list.as_slice(),
        &[run(56, 24, 0), run(104, 8, 0)],
    );
}

#[test]
fn runs_59(rt: HostRuntime) {
    let mut builder = RunsBuilder::new();
    for number in 0..58 {
        assert!(rt; add(&rt, &mut builder, 2 * number, 3));
    }
    assert!(rt; !add(&rt, &mut builder, 116, 3));
    assert!(rt; add(&rt, &mut builder, 115, 3));
    assert!(rt; add(&rt, &mut builder, 116, 3));
    let runs = finished(&rt, builder);
    same(&rt, runs.list.len(), 58);
    same(&rt, runs.run_of(115), Some(run(114, 3, 3)));
}

#[test]
fn rows_2049_with_a_mask(rt: HostRuntime) {
    let mut builder = built(&rt, &[run(0, 2048, 3)]);
    assert!(rt; !add(&rt, &mut builder, 2048, 3));
    assert!(rt; !add(&rt, &mut builder, 2049, 3));
    assert!(rt; add_zeros(&rt, &mut builder, 2048, 1));
    same(
        &rt,
        finished(&rt, builder).list.as_slice(),
        &[run(0, 2048, 3), run(2048, 1, 0)],
    );
}

#[test]
fn held_sectors_4097(rt: HostRuntime) {
    let mut builder = built(&rt, &[run(0, 1365, 7)]);
    assert!(rt; !add(&rt, &mut builder, 1365, 3));
    same(&rt, finished(&rt, builder).held(), 4095);
}

#[test]
fn zeros_65536(rt: HostRuntime) {
    let mut builder = built(&rt, &[run(0, 65_535, 0)]);
    assert!(rt; !add_zeros(&rt, &mut builder, 65_535, 1));
    assert!(rt; add_zeros(&rt, &mut builder, 65_536, 65_535));
    same(
        &rt,
        finished(&rt, builder).list.as_slice(),
        &[run(0, 65_535, 0), run(65_536, 65_535, 0)],
    );
}

#[test]
fn a_row_at_2_32(rt: HostRuntime) {
    let mut builder = RunsBuilder::new();
    assert!(rt; !add_zeros(&rt, &mut builder, 4_294_967_295, 2));
    assert!(rt; add_zeros(&rt, &mut builder, 4_294_967_295, 1));
    same(&rt, builder.end(), 4_294_967_296);
}

// Says of a builder's i-th row what it is.
fn listed(rt: &impl Abort, builder: &RunsBuilder, i: usize, row: u32, mask: u8, before: u32) {
    assert!(rt; i < builder.count());
    let want = ListedRow { row, mask, before };
    same(rt, builder.listed(i), want);
}

#[test]
fn rows_in_their_order(rt: HostRuntime) {
    let builder = built(&rt, &[run(32, 8, 0), run(40, 8, 7), run(50, 2, 5)]);
    same(&rt, builder.count(), 18);
    listed(&rt, &builder, 0, 32, 0, 0);
    listed(&rt, &builder, 7, 39, 0, 0);
    listed(&rt, &builder, 8, 40, 7, 0);
    listed(&rt, &builder, 15, 47, 7, 21);
    listed(&rt, &builder, 16, 50, 5, 24);
    listed(&rt, &builder, 17, 51, 5, 26);
}

#[test]
fn runs_taken_over(rt: HostRuntime) {
    let runs = [run(32, 8, 0), run(40, 8, 7)];
    let from = finished(&rt, built(&rt, &runs));
    let mut builder = built(&rt, &[run(0, 2048, 3)]);
    builder.set(&from);
    assert!(rt; add(&rt, &mut builder, 48, 3));
    same(
        &rt,
        finished(&rt, builder).list.as_slice(),
        &[run(32, 8, 0), run(40, 8, 7), run(48, 1, 3)],
    );
}

#[test]
fn no_rows_once_cleared(rt: HostRuntime) {
    let mut builder = built(&rt, &[run(0, 2048, 3)]);
    builder.clear();
    same(&rt, builder.count(), 0);
    assert!(rt; builder.to_runs().is_none());
    assert!(rt; add(&rt, &mut builder, 0, 3));
    same(&rt, builder.count(), 1);
}
