//! The texts of the line.
use super::{write_blank, write_line};
use crate::progress::{Left, Speed};
use crate::testing::same;
use crate::testing::streams::{Full, WHOLE};
use std::process::Abort;

// What is shown.
fn line(
    rt: &(impl Abort + AllocGlobal),
    percent: u8,
    speed: Option<Speed>,
    left: Option<Left>,
) -> Vec<u8> {
    let mut err = empty(rt);
    write_line(&mut err, percent, speed, left).expect(rt, "a line");
    err.text
}

fn empty(rt: &impl AllocGlobal) -> Full {
    Full {
        text: Vec::new(rt.alloc()),
        room: WHOLE,
    }
}

#[test]
fn lines(rt: HostRuntime) {
    for (percent, speed, left, text) in [
        (0, None, None, b"\r  0 %                         "),
        (
            37,
            Some(Speed::Whole(412)),
            Some(Left::Seconds(12)),
            b"\r 37 %, 412 MB/s,  12 s left   ",
        ),
        (
            42,
            Some(Speed::Tenths(42)),
            Some(Left::Seconds(3)),
            b"\r 42 %, 4.2 MB/s,   3 s left   ",
        ),
        (
            1,
            Some(Speed::Tenths(0)),
            Some(Left::Hours(999)),
            b"\r  1 %, 0.0 MB/s, 999 h left   ",
        ),
        (
            7,
            Some(Speed::Whole(10)),
            Some(Left::Minutes(119)),
            b"\r  7 %,  10 MB/s, 119 min left ",
        ),
        (
            8,
            Some(Speed::Whole(1_000)),
            Some(Left::Minutes(2)),
            b"\r  8 %, 1000 MB/s,   2 min left",
        ),
        (
            100,
            None,
            Some(Left::Seconds(0)),
            b"\r100 %,   0 s left             ",
        ),
    ] {
        same(
            &rt,
            line(&rt, percent, speed, left).as_slice(),
            text.as_slice(),
        );
    }
}

#[test]
fn a_blank_line(rt: HostRuntime) {
    let mut err = empty(&rt);
    write_blank(&mut err).expect(&rt, "a line");
    same(
        &rt,
        err.text.as_slice(),
        b"\r                              \r".as_slice(),
    );
}
