//! The texts of a rebuild's and of a scrub's answer.
ghost use Rattle.std.specs.Prelude.{◌<◌};

use super::{Full, NEVER, Narrow};
use crate::replies::{write_progress, write_scrubbed};
use crate::testing::same;
use layout_map::Format;
use rebuild::Progress;
use scrub::ScrubReport;
use sector_model::Refusal;
use std::process::Abort;

const LARGEST: u64 = u64::MAX;

const PROGRESSES: &[(Progress, Format, u64, &str)] = &[
    (
        Progress::Position(64),
        Format::One,
        256,
        "position 64 of 256, 3 left\n",
    ),
    (
        Progress::Position(192),
        Format::One,
        256,
        "position 192 of 256, 1 left\n",
    ),
    (
        Progress::Position(0),
        Format::One,
        24,
        "position 0 of 24, 1 left\n",
    ),
    // Of 1 GiB a step of 4,096 rows is done.
    (
        Progress::Position(4_096),
        Format::Two,
        2_097_152,
        "position 4096 of 2097152, 511 left\n",
    ),
    (
        Progress::Position(LARGEST),
        Format::One,
        LARGEST,
        "position 18446744073709551615 of 18446744073709551615, 0 left\n",
    ),
    // 2^64 - 1 rows are 2^58 steps.
    (
        Progress::Position(0),
        Format::One,
        LARGEST,
        "position 0 of 18446744073709551615, 288230376151711744 left\n",
    ),
    (Progress::Complete, Format::One, 256, "complete\n"),
];

const REPORTS: &[(u64, u64, Option<u64>, &str)] = &[
    (256, 0, None, "256 rows, 0 bad\n"),
    (256, 1, Some(5), "256 rows, 1 bad, first 5\n"),
    (8_388_608, 24, Some(0), "8388608 rows, 24 bad, first 0\n"),
    (
        LARGEST,
        LARGEST,
        Some(LARGEST),
        "18446744073709551615 rows, 18446744073709551615 bad, first 18446744073709551615\n",
    ),
];

// A report of so many rows, of which so many are not sound, this one first.
fn report(rows: u64, bad: u64, first_bad: Option<u64>) -> ScrubReport {
    ScrubReport {
        rows,
        bad,
        first_bad,
    }
}

#[test]
fn tells_how_far_a_rebuild_is(rt: HostRuntime) {
    for (progress, format, rows, text) in PROGRESSES {
        let mut writer = Narrow::new(rt.alloc(), 7, NEVER, Full::Fails);
        same(
            &rt,
            write_progress(&mut writer, progress, *format, *rows),
            Ok(()),
        );
        same(&rt, writer.text.as_slice(), text.as_bytes());
        same(&rt, writer.flushes, 0);
    }
}

#[test]
fn tells_what_a_scrub_found(rt: HostRuntime) {
    for (rows, bad, first_bad, text) in REPORTS {
        let mut writer = Narrow::new(rt.alloc(), 7, NEVER, Full::Fails);
        let found = report(*rows, *bad, *first_bad);
        same(&rt, write_scrubbed(&mut writer, &found), Ok(()));
        same(&rt, writer.text.as_slice(), text.as_bytes());
        same(&rt, writer.flushes, 0);
    }
}

// A writer that is full after so many bytes holds so many of the text.
fn holds(rt: &(impl Abort + AllocGlobal), full: Full, room: usize)
    requires { room < 9 }
{
    let mut writer = Narrow::new(rt.alloc(), 5, room, full);
    let fault = Err(Refusal::WriteFault);
    same(
        rt,
        write_progress(&mut writer, &Progress::Complete, Format::Two, 256),
        fault,
    );
    same(rt, writer.text.as_slice(), &b"complete\n"[..room]);

    let mut writer = Narrow::new(rt.alloc(), 5, room, full);
    let fault = Err(Refusal::WriteFault);
    same(
        rt,
        write_scrubbed(&mut writer, &report(256, 1, Some(5))),
        fault,
    );
    same(
        rt,
        writer.text.as_slice(),
        &b"256 rows, 1 bad, first 5\n"[..room],
    );
}

#[test]
fn a_full_writer_holds_a_beginning(rt: HostRuntime) {
    for room in 0..9 {
        holds(&rt, Full::Fails, room);
        holds(&rt, Full::TakesNothing, room);
    }
}
