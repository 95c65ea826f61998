//! A program that could not begin.
use crate::start_status;
use crate::testing::same;
use crate::testing::streams::{Full, WHOLE};
use std::io::{self, ErrorKind};
use std::process::Abort;

// The status for a fault of this kind, and what a writer that takes so many bytes got.
fn starts(
    rt: &(impl Abort + AllocGlobal),
    kind: ErrorKind,
    room: usize,
    (status, text): (u8, &str),
) {
    let mut err = Full {
        text: Vec::new(rt.alloc()),
        room,
    };
    let found = start_status(&io::Error::from(kind), &mut err);
    same(
        rt,
        (kind, found, err.text.as_slice()),
        (kind, status, text.as_bytes()),
    );
}

#[test]
fn a_word_that_is_no_text(rt: HostRuntime) {
    starts(&rt, ErrorKind::InvalidData, WHOLE, (2, "bad word\n"));
    starts(&rt, ErrorKind::InvalidData, 3, (2, "bad"));
    starts(&rt, ErrorKind::InvalidData, 0, (2, ""));
}

#[test]
fn no_memory_for_the_words(rt: HostRuntime) {
    starts(
        &rt,
        ErrorKind::OutOfMemory,
        WHOLE,
        (1, "refused 14 Memory\n"),
    );
    starts(&rt, ErrorKind::OutOfMemory, 7, (1, "refused"));
    starts(&rt, ErrorKind::OutOfMemory, 0, (1, ""));
}

#[test]
fn another_fault_at_the_start(rt: HostRuntime) {
    starts(
        &rt,
        ErrorKind::PermissionDenied,
        WHOLE,
        (1, "cannot start: permission denied\n"),
    );
    starts(&rt, ErrorKind::PermissionDenied, 12, (1, "cannot start"));
    starts(&rt, ErrorKind::NotFound, 0, (1, ""));
}
