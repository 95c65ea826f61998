//! Lines of each kind, and lines that are almost one.
use super::{Request, Stretch, parse_request};
use crate::testing::same;
use std::process::Abort;

// The word of a request, its names, and its numbers; a number that it has not is 0.
type Parts<'a> = (&'a [u8], &'a [u8], &'a [u8], u32, u32);

fn stretch_parts<'a>(word: &'a [u8], blocks: Stretch<'a>) -> Parts<'a> {
    (word, blocks.name, b"", blocks.at, blocks.count)
}

fn number_parts<'a>(word: &'a [u8], number: u32) -> Parts<'a> {
    (word, b"", b"", number, 0)
}

fn parts<'a>(request: Request<'a>) -> Parts<'a> {
    match request {
        Request::Read(blocks) => stretch_parts(b"read", blocks),
        Request::Write(blocks) => stretch_parts(b"write", blocks),
        Request::Zero(blocks) => stretch_parts(b"zero", blocks),
        Request::Together(lines) => number_parts(b"together", lines),
        Request::Create { name, blocks } => (b"create", name, b"", blocks, 0),
        Request::Extend { name, by } => (b"extend", name, b"", by, 0),
        Request::Remove { name } => (b"remove", name, b"", 0, 0),
        Request::Rename { old, new } => (b"rename", old, new, 0, 0),
        Request::List => number_parts(b"list", 0),
        Request::Status => number_parts(b"status", 0),
        Request::Fail(slot) => number_parts(b"fail", slot),
        Request::Replace(slot) => number_parts(b"replace", slot),
        Request::Rebuild(steps) => number_parts(b"rebuild", steps),
        Request::Scrub(rows) => number_parts(b"scrub", rows),
    }
}

const LINES: &[(&[u8], Parts<'static>)] = &[
    (b"read a 0 1", (b"read", b"a", b"", 0, 1)),
    (b"read a/\xff 7 2048", (b"read", b"a/\xff", b"", 7, 2_048)),
    (
        b"read read 4294967295 4294967295",
        (b"read", b"read", b"", 4_294_967_295, 4_294_967_295),
    ),
    (b"write vol 10 20", (b"write", b"vol", b"", 10, 20)),
    (b"zero vol 100 65536", (b"zero", b"vol", b"", 100, 65_536)),
    (b"zero vol 0 0", (b"zero", b"vol", b"", 0, 0)),
    (b"together 16", (b"together", b"", b"", 16, 0)),
    (b"together 0", (b"together", b"", b"", 0, 0)),
    (b"create home 500", (b"create", b"home", b"", 500, 0)),
    (b"extend home 9", (b"extend", b"home", b"", 9, 0)),
    (b"remove home", (b"remove", b"home", b"", 0, 0)),
    (b"rename old new", (b"rename", b"old", b"new", 0, 0)),
    (b"list", (b"list", b"", b"", 0, 0)),
    (b"status", (b"status", b"", b"", 0, 0)),
    (b"fail 2", (b"fail", b"", b"", 2, 0)),
    (b"replace 300", (b"replace", b"", b"", 300, 0)),
    (b"rebuild 64", (b"rebuild", b"", b"", 64, 0)),
    (b"scrub 4096", (b"scrub", b"", b"", 4_096, 0)),
];

fn asks(rt: &impl Abort, line: &[u8], want: Parts<'_>) {
    match parse_request(line) {
        Some(request) => {
            let got = parts(request);
            same(rt, got.0, want.0);
            same(rt, got.1, want.1);
            same(rt, got.2, want.2);
            same(rt, (got.3, got.4), (want.3, want.4));
        }
        None => same(rt, line, b""),
    }
}

#[test]
fn reads_each_line(rt: HostRuntime) {
    for (line, want) in LINES {
        asks(&rt, line, *want);
    }
}

const OTHERS: &[&[u8]] = &[
    b"",
    b" ",
    b"read",
    b"read a 0",
    b"read a 0 1 ",
    b"read a 0 1 2",
    b" read a 0 1",
    b"read  a 0 1",
    b"read a  0 1",
    b"read a 00 1",
    b"read a 0 01",
    b"read a 0 4294967296",
    b"read a 4294967296 1",
    b"read a -1 1",
    b"read a +1 1",
    b"read a 1 1x",
    b"read  0 1",
    b"Read a 0 1",
    b"READ a 0 1",
    b"read\ta\t0\t1",
    b"read a 0 1\r",
    b"write a 0 *512",
    b"write a 0",
    b"write a 0 1 00",
    b"zero a 0",
    b"zeros a 0 1",
    b"together",
    b"together ",
    b"together a",
    b"together 1 1",
    b"Together 1",
    b"create a",
    b"create  5",
    b"create a 5 5",
    b"create a 05",
    b"extend a",
    b"extend a 4294967296",
    b"remove",
    b"remove ",
    b"remove a ",
    b"remove a b",
    b"rename a",
    b"rename a ",
    b"rename  b",
    b"rename a b c",
    b"list ",
    b"list a",
    b"lists",
    b"LIST",
    b"status ",
    b"status 1",
    b"fail",
    b"fail  1",
    b"fail 01",
    b"replace 4294967296",
    b"rebuild",
    b"rebuild one",
    b"scrub",
    b"scrub 1 ",
    b"upgrade",
    b"sync",
];

#[test]
fn reads_no_other_line(rt: HostRuntime) {
    for line in OTHERS {
        assert!(rt; parse_request(line).is_none(), "{line:?}");
    }
}
