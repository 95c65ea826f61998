//! Lines, and those that end the server.
use super::{Part, STOPPED, cut, joined, serves, with_volume};
use crate::testing::fresh_store;
use crate::testing::streams::WHOLE;
use std::process::Abort;

// A line that ends the server with this reply, and `remove v` after it, which is not done.
fn stops(rt: &(impl Abort + AllocGlobal), line: &[Part], text: &'static [u8]) {
    let mut store = with_volume(rt);
    let mut input = joined(rt, &[(b"list\n", 1)]);
    input
        .extend_from_slice(&joined(rt, line))
        .expect(rt, "memory");
    input
        .extend_from_slice(b"\nremove v\n")
        .expect(rt, "memory");
    let text = joined(rt, &[(b"volumes 1\nv 64\n", 1), (text, 1)]);
    cut(rt, &mut store, &input, (WHOLE, WHOLE), STOPPED, 9, &text);
    serves(
        rt,
        &mut store,
        &[(b"list\n", 1)],
        &[(b"volumes 1\nv 64\n", 1)],
    );
}

const BAD: &[&[u8]] = &[
    b"",
    b" list",
    b"list ",
    b"list\r",
    b"LIST",
    b"read  v 0 1",
    b"Read v 0 1",
    b"read v 0",
    b"read v 00 1",
    b"read v +0 1",
    b"read v 0 4294967296",
    b"read v 0 1 1",
    b"write  v 0 1",
    b"write v 0 61 62",
    b"together",
    b"together 1 2",
    b"create v",
    b"scrub",
    b"upgrade",
    b"\x80",
];

#[test]
fn lines_that_are_none(rt: HostRuntime) {
    for line in BAD {
        stops(&rt, &[(line, 1)], b"refused 20 BadLine\n");
    }
}

const OUTSIDE: &[&[u8]] = &[
    b"read v 0 0",
    b"read v 0 2049",
    b"read x 0 2049",
    b"read v 0 4294967295",
    b"write v 0 0",
    b"write v 0 2049",
    b"write x 64 0",
    b"zero v 0 0",
    b"zero v 0 65537",
    b"zero x 64 65537",
    b"together 0",
    b"together 257",
];

#[test]
fn counts_outside_their_limits(rt: HostRuntime) {
    for line in OUTSIDE {
        stops(&rt, &[(line, 1)], b"refused 7 BadCount\n");
    }
}

// The longest line has 65,535 bytes.
#[test]
fn long_lines(rt: HostRuntime) {
    serves(
        &rt,
        &mut with_volume(&rt),
        &[(b"read ", 1), (b"v", 65_526), (b" 0 1\nlist\n", 1)],
        &[(b"refused 6 NoVolume\nvolumes 1\nv 64\n", 1)],
    );
    stops(
        &rt,
        &[(b"read ", 1), (b"v", 65_527), (b" 0 1", 1)],
        b"refused 20 BadLine\n",
    );
    stops(&rt, &[(b"list", 20_000)], b"refused 20 BadLine\n");
}

#[test]
fn volumes_by_lines(rt: HostRuntime) {
    serves(
        &rt,
        &mut fresh_store(&rt),
        &[(
            b"list\ncreate b 5\ncreate a 70\nlist\nextend b 60\nrename a c\ncreate b 1\n\
list\nremove b\nremove b\nlist\n",
            1,
        )],
        &[(
            b"volumes 0\nok\nok\nvolumes 2\na 70\nb 5\nok\nok\nrefused 3 Exists\n\
volumes 2\nb 65\nc 70\nok\nrefused 6 NoVolume\nvolumes 1\nc 70\n",
            1,
        )],
    );
}

#[test]
fn no_line(rt: HostRuntime) {
    serves(&rt, &mut fresh_store(&rt), &[], &[]);
}
