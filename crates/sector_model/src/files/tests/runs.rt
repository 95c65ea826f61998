//! Which calls of its files the calls of a bank are: reads that follow one another go on, and writes that do wait and
//! are one.
use super::recorded::Call::{Read, Sync, Write};
use super::recorded::Manner::{Fails, IsSlow};
use super::recorded::{Call, Manner, Recorded, RecordedBank, are_called, bank_over, rising_files};
use crate::testing::Step::{
    Flushes, NoFlush, NoRead, NoWrite, Reads, ReadsRising, Shows, Writes, WritesRising,
};
use crate::testing::{Step, play, same};
use std::cell::RefCell;
use std::process::Abort;

/// No call of a file fails.
const WELL: Manner = Fails(&[]);

/// Two devices of 64 sectors.
const TWO: &[u64] = &[32_768; 2];

/// Steps, and the calls of the files that they make.
type Row = (&'static [Step], &'static [Call]);

// Takes the steps of rows over rising files of these lengths.
fn play_rows(rt: &(impl Abort + AllocGlobal), manner: Manner, lengths: &[u64], rows: &[Row]) {
    let record = rising_files(rt, manner, lengths);
    let mut bank = bank_over(rt, &record);
    let mut number = 0u64;
    for (steps, calls) in rows {
        play(rt, &mut bank, number, steps);
        are_called(rt, &record, number, calls);
        number = number.wrapping_add(1);
    }
}

// Reads so many sectors of device 0 in order, which are as the file had them.
fn read_run(rt: &impl Abort, bank: &mut RecordedBank, first: u32, count: u32) {
    for at in 0..count {
        play(rt, bank, 0, &[ReadsRising(0, first.saturating_add(at))]);
    }
}

// Writes so many sectors of device 0 in order, each of this byte.
fn write_run(rt: &impl Abort, bank: &mut RecordedBank, first: u32, count: u32, byte: u8) {
    for at in 0..count {
        play(rt, bank, 0, &[Writes(0, first.saturating_add(at), byte)]);
    }
}

// The sectors of the file of device 0 from one on, each of one byte.
fn file_has(rt: &impl Abort, record: &RefCell<Recorded>, first: usize, bytes: &[u8]) {
    let record = record.try_borrow().expect(rt, "a record");
    assert!(rt; !record.files.is_empty());
    let file = &record.files[0];
    for at in 0..bytes.len() {
        for k in 0..512usize {
            let place = first
                .saturating_add(at)
                .saturating_mul(512)
                .saturating_add(k);
            assert!(rt; place < file.len());
            same(rt, (place, file[place]), (place, bytes[at]));
        }
    }
}

#[test]
fn a_read_by_itself_is_of_one_sector(rt: HostRuntime) {
    const ROWS: &[Row] = &[
        (&[ReadsRising(0, 0)], &[Read(0, 0, 512)]),
        (&[ReadsRising(0, 9)], &[Read(0, 4_608, 512)]),
        (&[ReadsRising(0, 9)], &[Read(0, 4_608, 512)]),
        (&[ReadsRising(0, 8)], &[Read(0, 4_096, 512)]),
        (&[ReadsRising(0, 63)], &[Read(0, 32_256, 512)]),
        (&[ReadsRising(0, 20)], &[Read(0, 10_240, 512)]),
    ];
    play_rows(&rt, WELL, TWO, ROWS)
}

// Of 512 sectors, and of 137 in a file that has 300 bytes more.
#[test]
fn reads_in_order_go_on_and_end_with_the_device(rt: HostRuntime) {
    const FRONT: [Call; 6] = [
        Read(0, 0, 512),
        Read(0, 512, 3_584),
        Read(0, 4_096, 4_096),
        Read(0, 8_192, 8_192),
        Read(0, 16_384, 16_384),
        Read(0, 32_768, 32_768),
    ];
    const WHOLE: [Call; 3] = [
        Read(0, 65_536, 65_536),
        Read(0, 131_072, 65_536),
        Read(0, 196_608, 65_536),
    ];
    const REST: [Call; 1] = [Read(0, 65_536, 4_608)];
    const CASES: [(u64, u32, &[Call]); 2] = [(262_144, 512, &WHOLE), (70_444, 137, &REST)];
    for (length, sectors, calls) in CASES {
        let record = rising_files(&rt, WELL, &[length]);
        let mut bank = bank_over(&rt, &record);
        play(&rt, &mut bank, 0, &[Shows(0, sectors, false)]);
        read_run(&rt, &mut bank, 0, 128);
        are_called(&rt, &record, u64::from(sectors), &FRONT);
        read_run(&rt, &mut bank, 128, sectors.saturating_sub(128));
        are_called(&rt, &record, u64::from(sectors), calls);
    }
}

// To the next multiple, also from a place that is none; and anew after a read that follows none.
#[test]
fn reads_in_order_begin_anywhere(rt: HostRuntime) {
    const ROWS: &[Row] = &[
        (
            &[ReadsRising(0, 5), ReadsRising(0, 6), ReadsRising(0, 7)],
            &[Read(0, 2_560, 512), Read(0, 3_072, 1_024)],
        ),
        (&[ReadsRising(0, 8)], &[Read(0, 4_096, 4_096)]),
        (&[ReadsRising(0, 31)], &[Read(0, 15_872, 512)]),
        (&[ReadsRising(0, 32)], &[Read(0, 16_384, 4_096)]),
        (
            &[ReadsRising(0, 39), ReadsRising(0, 40)],
            &[Read(0, 20_480, 4_096)],
        ),
    ];
    play_rows(&rt, WELL, TWO, ROWS)
}

// Each device has a run of its own.
#[test]
fn reads_and_writes_of_two_devices(rt: HostRuntime) {
    const ROWS: &[Row] = &[
        (
            &[
                ReadsRising(0, 0),
                ReadsRising(1, 8),
                ReadsRising(0, 1),
                ReadsRising(1, 9),
            ],
            &[
                Read(0, 0, 512),
                Read(1, 4_096, 512),
                Read(0, 512, 3_584),
                Read(1, 4_608, 3_584),
            ],
        ),
        (
            &[
                Writes(0, 3, 7),
                Writes(1, 50, 8),
                Writes(0, 4, 9),
                Writes(1, 51, 10),
            ],
            &[],
        ),
        (&[Flushes(1)], &[Write(1, 25_600, 1_024), Sync(1)]),
        (&[Flushes(1)], &[]),
        (&[Flushes(0)], &[Write(0, 1_536, 1_024), Sync(0)]),
        (&[Reads(0, 3, 7), Reads(0, 4, 9)], &[]),
    ];
    play_rows(&rt, WELL, TWO, ROWS)
}

#[test]
fn writes_in_order_are_one_at_the_flush(rt: HostRuntime) {
    const ROWS: &[Row] = &[
        (
            &[
                Writes(0, 3, 1),
                Writes(0, 4, 2),
                Writes(0, 5, 3),
                Writes(0, 6, 4),
            ],
            &[],
        ),
        (&[Flushes(0)], &[Write(0, 1_536, 2_048), Sync(0)]),
        (&[Flushes(0)], &[]),
        (&[Reads(0, 6, 4)], &[Read(0, 3_072, 512)]),
        (&[Reads(0, 3, 1)], &[Read(0, 1_536, 512)]),
        (
            &[Writes(0, 7, 5), Flushes(0)],
            &[Write(0, 3_584, 512), Sync(0)],
        ),
    ];
    play_rows(&rt, WELL, TWO, ROWS)
}

#[test]
fn eight_sectors_from_a_multiple_of_4096_are_one_write(rt: HostRuntime) {
    let record = rising_files(&rt, WELL, TWO);
    let mut bank = bank_over(&rt, &record);
    write_run(&rt, &mut bank, 8, 8, 0xa5);
    play(&rt, &mut bank, 0, &[Flushes(0)]);
    are_called(&rt, &record, 0, &[Write(0, 4_096, 4_096), Sync(0)]);
    file_has(&rt, &record, 8, &[0xa5; 8]);
}

// The sector after a gap, the same again, and the one before.
#[test]
fn a_write_that_does_not_follow_writes_the_run(rt: HostRuntime) {
    const ROWS: &[Row] = &[
        (&[Writes(0, 3, 1), Writes(0, 4, 2)], &[]),
        (&[Writes(0, 6, 3)], &[Write(0, 1_536, 1_024)]),
        (&[Writes(0, 6, 4)], &[Write(0, 3_072, 512)]),
        (&[Writes(0, 5, 5)], &[Write(0, 3_072, 512)]),
        (&[Writes(0, 6, 6)], &[]),
        (&[Flushes(0)], &[Write(0, 2_560, 1_024), Sync(0)]),
        (&[Reads(0, 5, 5)], &[Read(0, 2_560, 512)]),
        (&[Reads(0, 3, 1)], &[Read(0, 1_536, 512)]),
        (&[Reads(0, 6, 6)], &[Read(0, 3_072, 512)]),
    ];
    play_rows(&rt, WELL, TWO, ROWS)
}

#[test]
fn a_run_is_full_at_128_sectors(rt: HostRuntime) {
    let record = rising_files(&rt, WELL, &[131_072]);
    let mut bank = bank_over(&rt, &record);
    write_run(&rt, &mut bank, 1, 128, 0xa5);
    are_called(&rt, &record, 0, &[]);
    write_run(&rt, &mut bank, 129, 1, 0x5a);
    are_called(&rt, &record, 1, &[Write(0, 512, 65_536)]);
    write_run(&rt, &mut bank, 130, 1, 0x5b);
    play(&rt, &mut bank, 2, &[Flushes(0)]);
    are_called(&rt, &record, 2, &[Write(0, 66_048, 1_024), Sync(0)]);
    file_has(&rt, &record, 1, &[0xa5; 128]);
    file_has(&rt, &record, 129, &[0x5a, 0x5b]);
}

#[test]
fn a_read_of_what_waits_is_no_call(rt: HostRuntime) {
    const ROWS: &[Row] = &[
        (
            &[
                Writes(0, 3, 7),
                Writes(0, 4, 8),
                Reads(0, 3, 7),
                Reads(0, 4, 8),
            ],
            &[],
        ),
        (&[ReadsRising(0, 2)], &[Read(0, 1_024, 512)]),
        (&[ReadsRising(0, 5)], &[Read(0, 2_560, 512)]),
        (&[Reads(0, 3, 7), Writes(0, 5, 9), Reads(0, 5, 9)], &[]),
        (&[Flushes(0)], &[Write(0, 1_536, 1_536), Sync(0)]),
    ];
    play_rows(&rt, WELL, TWO, ROWS)
}

// Sectors 1 to 7 are read ahead. Of them one is written, then those at both ends, with one beside them each.
#[test]
fn what_was_read_ahead_has_what_is_written(rt: HostRuntime) {
    const ROWS: &[Row] = &[
        (
            &[ReadsRising(0, 0), ReadsRising(0, 1)],
            &[Read(0, 0, 512), Read(0, 512, 3_584)],
        ),
        (
            &[
                Writes(0, 3, 7),
                Reads(0, 3, 7),
                ReadsRising(0, 2),
                ReadsRising(0, 4),
            ],
            &[],
        ),
        (&[Flushes(0)], &[Write(0, 1_536, 512), Sync(0)]),
        (&[ReadsRising(0, 2), Reads(0, 3, 7), ReadsRising(0, 4)], &[]),
        (&[Writes(0, 0, 8), Writes(0, 1, 9)], &[]),
        (&[Writes(0, 7, 10), Writes(0, 8, 11)], &[Write(0, 0, 1_024)]),
        (&[Flushes(0)], &[Write(0, 3_584, 1_024), Sync(0)]),
        (
            &[
                Reads(0, 1, 9),
                ReadsRising(0, 2),
                ReadsRising(0, 6),
                Reads(0, 7, 10),
            ],
            &[],
        ),
        (
            &[Reads(0, 8, 11), ReadsRising(0, 9)],
            &[Read(0, 4_096, 4_096)],
        ),
        (&[Reads(0, 0, 8)], &[Read(0, 0, 512)]),
    ];
    play_rows(&rt, WELL, TWO, ROWS)
}

// What waits is read ahead as the file still has it, and yet read as it was written.
#[test]
fn a_read_that_goes_on_passes_what_waits(rt: HostRuntime) {
    const ROWS: &[Row] = &[
        (&[ReadsRising(0, 0), Writes(0, 3, 7)], &[Read(0, 0, 512)]),
        (&[ReadsRising(0, 1)], &[Read(0, 512, 3_584)]),
        (&[ReadsRising(0, 2), Reads(0, 3, 7), ReadsRising(0, 4)], &[]),
        (&[Writes(0, 60, 1)], &[Write(0, 1_536, 512)]),
        (&[Reads(0, 3, 7), ReadsRising(0, 4)], &[]),
    ];
    play_rows(&rt, WELL, TWO, ROWS)
}

/// Device 0 is down, and no file is called for it any more. Device 1 goes on.
const IS_DOWN: Row = (
    &[
        Shows(0, 64, true),
        NoRead(0, 3),
        NoWrite(0, 4, 1),
        NoFlush(0),
        ReadsRising(1, 3),
        Writes(1, 3, 1),
        Flushes(1),
    ],
    &[Read(1, 1_536, 512), Write(1, 1_536, 512), Sync(1)],
);

#[test]
fn a_fault_of_a_run_is_that_of_the_call_that_writes_it(rt: HostRuntime) {
    const FLUSH: [Row; 3] = [
        (&[Writes(0, 3, 7), Writes(0, 4, 8)], &[]),
        (&[NoFlush(0)], &[Write(0, 1_536, 1_024)]),
        IS_DOWN,
    ];
    const ELSEWHERE: [Row; 3] = [
        (&[Writes(0, 3, 7), Writes(0, 4, 8)], &[]),
        (&[NoWrite(0, 9, 9)], &[Write(0, 1_536, 1_024)]),
        IS_DOWN,
    ];
    play_rows(&rt, Fails(&[0]), TWO, &FLUSH);
    play_rows(&rt, Fails(&[0]), TWO, &ELSEWHERE);
}

#[test]
fn a_fault_of_a_full_run_is_that_of_the_129th_write(rt: HostRuntime) {
    let record = rising_files(&rt, Fails(&[0]), &[131_072]);
    let mut bank = bank_over(&rt, &record);
    write_run(&rt, &mut bank, 0, 128, 0xa5);
    are_called(&rt, &record, 0, &[]);
    play(
        &rt,
        &mut bank,
        1,
        &[NoWrite(0, 128, 0x5a), NoFlush(0), Shows(0, 256, true)],
    );
    are_called(&rt, &record, 1, &[Write(0, 0, 65_536)]);
}

#[test]
fn a_fault_of_a_sync_comes_after_the_run(rt: HostRuntime) {
    const ROWS: &[Row] = &[
        (&[Writes(0, 3, 7)], &[]),
        (&[NoFlush(0)], &[Write(0, 1_536, 512), Sync(0)]),
        IS_DOWN,
    ];
    play_rows(&rt, Fails(&[1]), TWO, ROWS)
}

// The sector that was asked for is read by itself, and only a fault of that takes the device down.
#[test]
fn a_read_ahead_that_fails_is_no_fault(rt: HostRuntime) {
    const AHEAD: [Row; 3] = [
        (&[ReadsRising(0, 0)], &[Read(0, 0, 512)]),
        (
            &[ReadsRising(0, 1)],
            &[Read(0, 512, 3_584), Read(0, 512, 512)],
        ),
        (
            &[ReadsRising(0, 2), ReadsRising(0, 3)],
            &[Read(0, 1_024, 7_168)],
        ),
    ];
    const BOTH: [Row; 3] = [
        (&[ReadsRising(0, 0)], &[Read(0, 0, 512)]),
        (&[NoRead(0, 1)], &[Read(0, 512, 3_584), Read(0, 512, 512)]),
        IS_DOWN,
    ];
    play_rows(&rt, Fails(&[1]), TWO, &AHEAD);
    play_rows(&rt, Fails(&[1, 2]), TWO, &BOTH);
}

// 2,048 bytes are 21 parts, and as many calls are interrupted.
#[test]
fn a_run_that_is_written_in_parts_arrives_whole(rt: HostRuntime) {
    let record = rising_files(&rt, IsSlow, TWO);
    let mut bank = bank_over(&rt, &record);
    play(
        &rt,
        &mut bank,
        0,
        &[
            Writes(0, 3, 1),
            Writes(0, 4, 2),
            Writes(0, 5, 3),
            Writes(0, 6, 4),
            Flushes(0),
        ],
    );
    let mut calls = Vec::new(rt.alloc());
    for part in 0..21u64 {
        let written = 100u64.wrapping_mul(part);
        let call = Write(
            0,
            1_536u64.wrapping_add(written),
            2_048usize.wrapping_sub(written as usize),
        );
        calls.push(call).expect(&rt, "memory");
        calls.push(call).expect(&rt, "memory");
    }
    calls.push(Sync(0)).expect(&rt, "memory");
    are_called(&rt, &record, 0, &calls);
    file_has(&rt, &record, 3, &[1, 2, 3, 4]);
    play(&rt, &mut bank, 1, &[ReadsRising(0, 2), ReadsRising(0, 7)]);
}

#[test]
fn what_waits_is_not_written_when_the_bank_goes(rt: HostRuntime) {
    let record = rising_files(&rt, WELL, TWO);
    {
        let mut bank = bank_over(&rt, &record);
        play(&rt, &mut bank, 0, &[Writes(0, 3, 7), Writes(0, 4, 8)]);
    }
    are_called(&rt, &record, 0, &[]);
    let mut bank = bank_over(&rt, &record);
    play(&rt, &mut bank, 1, &[ReadsRising(0, 3)]);
    are_called(&rt, &record, 1, &[Read(0, 1_536, 512)]);
}
