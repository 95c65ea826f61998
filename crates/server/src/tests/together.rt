//! Writes that go together.
use super::{Part, STOPPED, ends, made, serves, since, with_volume, with_volume_in_large};
use crate::testing::same;
use sector_model::MemBank;
use std::process::Abort;
use volume_table::Store;

const THREE: &[Part] = &[
    (b"together 3\nwrite v 0 1\n", 1),
    (b"a", 512),
    (b"write v 1 1\n", 1),
    (b"b", 512),
    (b"write v 2 1\n", 1),
    (b"c", 512),
];

const THREE_ALONE: &[Part] = &[
    (b"write v 0 1\n", 1),
    (b"a", 512),
    (b"write v 1 1\n", 1),
    (b"b", 512),
    (b"write v 2 1\n", 1),
    (b"c", 512),
];

const ONE_OF_THREE: &[Part] = &[(b"write v 0 3\n", 1), (b"a", 512), (b"b", 512), (b"c", 512)];

const READ_THREE: &[Part] = &[(b"read v 0 3\n", 1)];

const ARE_THREE: &[Part] = &[(b"blocks 3\n", 1), (b"a", 512), (b"b", 512), (b"c", 512)];

// How many commits and device calls an input makes that writes three blocks, and is answered so.
fn calls_of_three(
    rt: &(impl Abort + AllocGlobal),
    store: &mut Store<MemBank>,
    input: &[Part],
    text: &[Part],
) -> (u64, u64) {
    let before = made(store);
    serves(rt, store, input, text);
    let calls = since(store, before);
    serves(rt, store, READ_THREE, ARE_THREE);
    calls
}

// Three writes that go together make one commit, and as many device calls as one write of three blocks.
#[test]
fn three_writes_are_one_commit(rt: HostRuntime) {
    let one = calls_of_three(&rt, &mut with_volume(&rt), ONE_OF_THREE, &[(b"ok\n", 1)]);
    let three = calls_of_three(&rt, &mut with_volume(&rt), THREE, &[(b"ok\n", 3)]);
    let alone = calls_of_three(&rt, &mut with_volume(&rt), THREE_ALONE, &[(b"ok\n", 3)]);
    same(&rt, (one.0, three.0, alone.0), (1, 1, 3));
    same(&rt, three.1, one.1);
    assert!(&rt; alone.1 > one.1);
}

#[test]
fn three_writes_are_one_commit_in_format_2(rt: HostRuntime) {
    let mut first = with_volume_in_large(&rt);
    let one = calls_of_three(&rt, &mut first, ONE_OF_THREE, &[(b"ok\n", 1)]);
    let mut second = with_volume_in_large(&rt);
    let three = calls_of_three(&rt, &mut second, THREE, &[(b"ok\n", 3)]);
    same(&rt, (one.0, three), (1, one));
}

// Of writes to one block the later counts.
#[test]
fn the_later_of_two_writes_counts(rt: HostRuntime) {
    let mut store = with_volume(&rt);
    let before = made(&store);
    serves(
        &rt,
        &mut store,
        &[
            (b"together 3\nwrite v 0 2\n", 1),
            (b"a", 512),
            (b"b", 512),
            (b"write v 1 2\n", 1),
            (b"c", 512),
            (b"d", 512),
            (b"write v 1 1\n", 1),
            (b"e", 512),
        ],
        &[(b"ok\n", 3)],
    );
    same(&rt, since(&store, before).0, 1);
    serves(
        &rt,
        &mut store,
        &[(b"read v 0 4\n", 1)],
        &[
            (b"blocks 4\n", 1),
            (b"a", 512),
            (b"e", 512),
            (b"d", 512),
            (b"\0", 512),
        ],
    );
}

// The bytes of the two that are refused are taken, and read as no lines.
#[test]
fn refused_writes_between_others(rt: HostRuntime) {
    let mut store = with_volume(&rt);
    let before = made(&store);
    serves(
        &rt,
        &mut store,
        &[
            (b"together 4\nwrite v 0 1\n", 1),
            (b"a", 512),
            (b"write v 63 2\n", 1),
            (b"write v 0 1\nxxxx", 64),
            (b"write w 0 1\n", 1),
            (b"write v 0 1\nxxxx", 32),
            (b"write v 1 1\n", 1),
            (b"d", 512),
        ],
        &[(b"ok\nrefused 8 OutOfRange\nrefused 6 NoVolume\nok\n", 1)],
    );
    same(&rt, since(&store, before).0, 1);
    serves(
        &rt,
        &mut store,
        &[(b"read v 0 2\nread v 63 1\n", 1)],
        &[
            (b"blocks 2\n", 1),
            (b"a", 512),
            (b"d", 512),
            (b"blocks 1\n", 1),
            (b"\0", 512),
        ],
    );
}

// Where all are refused there is no commit.
#[test]
fn refused_writes_alone(rt: HostRuntime) {
    let mut store = with_volume(&rt);
    let before = made(&store);
    serves(
        &rt,
        &mut store,
        &[
            (b"together 2\nwrite v 64 1\n", 1),
            (b"a", 512),
            (b"write w 0 1\n", 1),
            (b"b", 512),
            (b"list\n", 1),
        ],
        &[(
            b"refused 8 OutOfRange\nrefused 6 NoVolume\nvolumes 1\nv 64\n",
            1,
        )],
    );
    same(&rt, since(&store, before), (0, 0));
}

// Of 16 blocks each, two fit one entry of format 1, and three one of format 2.
const LONG: &[Part] = &[
    (b"together 3\nwrite v 0 16\n", 1),
    (b"a", 16 * 512),
    (b"write v 16 16\n", 1),
    (b"b", 16 * 512),
    (b"write v 32 16\n", 1),
    (b"c", 16 * 512),
];

#[test]
fn writes_that_fit_are_committed_together(rt: HostRuntime) {
    let mut store = with_volume(&rt);
    let before = made(&store);
    serves(&rt, &mut store, LONG, &[(b"ok\n", 3)]);
    same(&rt, since(&store, before).0, 2);
    let mut store = with_volume_in_large(&rt);
    let before = made(&store);
    serves(&rt, &mut store, LONG, &[(b"ok\n", 3)]);
    same(&rt, since(&store, before).0, 1);
}

// A line that ends the server within lines that go together, and `remove v` after it: the write before is committed
// and answered, and nothing follows.
fn stops(rt: &(impl Abort + AllocGlobal), line: &'static [u8], text: &'static [u8]) {
    let mut store = with_volume(rt);
    let before = made(&store);
    ends(
        rt,
        &mut store,
        &[
            (b"together 3\nwrite v 0 1\n", 1),
            (b"a", 512),
            (line, 1),
            (b"remove v\n", 1),
        ],
        STOPPED,
        9,
        &[(b"ok\n", 1), (text, 1)],
    );
    same(rt, since(&store, before).0, 1);
    serves(
        rt,
        &mut store,
        &[(b"read v 0 1\n", 1)],
        &[(b"blocks 1\n", 1), (b"a", 512)],
    );
}

#[test]
fn another_line_between_writes(rt: HostRuntime) {
    stops(&rt, b"list\n", b"refused 20 BadLine\n");
    stops(&rt, b"read v 0 1\n", b"refused 20 BadLine\n");
    stops(&rt, b"zero v 0 1\n", b"refused 20 BadLine\n");
    stops(&rt, b"together 1\n", b"refused 20 BadLine\n");
    stops(&rt, b"replace 0\n", b"refused 20 BadLine\n");
    stops(&rt, b"WRITE v 0 1\n", b"refused 20 BadLine\n");
    stops(&rt, b"\n", b"refused 20 BadLine\n");
    stops(&rt, b"write v 0 0\n", b"refused 7 BadCount\n");
    stops(&rt, b"write v 0 2049\n", b"refused 7 BadCount\n");
}

// The most lines that go together: all write one block, so one entry has them all.
#[test]
fn lines_256_together(rt: HostRuntime) {
    let mut store = with_volume(&rt);
    let before = made(&store);
    serves(
        &rt,
        &mut store,
        &[
            (b"together 256\n", 1),
            (ONE_OF_MANY, 256),
            (b"list\nread v 0 1\n", 1),
        ],
        &[
            (b"ok\n", 256),
            (b"volumes 1\nv 64\nblocks 1\n", 1),
            (b"0123456789abcdef", 32),
        ],
    );
    same(&rt, since(&store, before).0, 1);
}

const ONE_OF_MANY: &[u8] = b"write v 0 1\n\
0123456789abcdef0123456789abcdef0123456789abcdef0123456789abcdef0123456789abcdef0123456789abcdef\
0123456789abcdef0123456789abcdef0123456789abcdef0123456789abcdef0123456789abcdef0123456789abcdef\
0123456789abcdef0123456789abcdef0123456789abcdef0123456789abcdef0123456789abcdef0123456789abcdef\
0123456789abcdef0123456789abcdef0123456789abcdef0123456789abcdef0123456789abcdef0123456789abcdef\
0123456789abcdef0123456789abcdef0123456789abcdef0123456789abcdef0123456789abcdef0123456789abcdef\
0123456789abcdef0123456789abcdef";
