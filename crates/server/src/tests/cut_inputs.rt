//! Inputs that end too early.
use super::{Part, STOPPED, ends, serves, with_volume};
use std::process::Abort;

// An input that ends too early over a volume of zeros, and what blocks 0 and 1 are then.
fn stops(rt: &(impl Abort + AllocGlobal), input: &[Part], text: &[Part], then: &[Part]) {
    let mut store = with_volume(rt);
    ends(rt, &mut store, input, STOPPED, 0, text);
    serves(rt, &mut store, &[(b"read v 0 2\n", 1)], then);
}

const ZEROS: &[Part] = &[(b"blocks 2\n", 1), (b"\0", 2 * 512)];

const FIRST: &[Part] = &[(b"blocks 2\n", 1), (b"a", 512), (b"\0", 512)];

// `remove ab` that is cut to `remove a` removes nothing.
#[test]
fn a_line_without_its_end(rt: HostRuntime) {
    let mut store = with_volume(&rt);
    ends(
        &rt,
        &mut store,
        &[(b"create a 1\ncreate ab 1\nremove a", 1)],
        STOPPED,
        0,
        &[(b"ok\nok\n", 1)],
    );
    serves(
        &rt,
        &mut store,
        &[(b"list\n", 1)],
        &[(b"volumes 3\na 1\nab 1\nv 64\n", 1)],
    );
    stops(&rt, &[(b"zero v 0 1", 1)], &[], ZEROS);
    stops(&rt, &[(b"LIST", 1)], &[], ZEROS);
}

#[test]
fn a_write_without_all_its_blocks(rt: HostRuntime) {
    stops(&rt, &[(b"write v 0 1\n", 1)], &[], ZEROS);
    stops(&rt, &[(b"write v 0 1\n", 1), (b"a", 511)], &[], ZEROS);
    stops(&rt, &[(b"write v 0 2\n", 1), (b"a", 1_023)], &[], ZEROS);
    stops(
        &rt,
        &[
            (b"write v 0 1\n", 1),
            (b"a", 512),
            (b"write v 1 1\n", 1),
            (b"b", 100),
        ],
        &[(b"ok\n", 1)],
        FIRST,
    );
    stops(&rt, &[(b"write v 64 1\n", 1), (b"a", 511)], &[], ZEROS);
}

// What is whole is committed and answered.
#[test]
fn lines_together_that_are_not_all_there(rt: HostRuntime) {
    stops(&rt, &[(b"together 3\n", 1)], &[], ZEROS);
    stops(&rt, &[(b"together 3\nwrite v 0", 1)], &[], ZEROS);
    stops(
        &rt,
        &[(b"together 3\nwrite v 0 1\n", 1), (b"a", 512)],
        &[(b"ok\n", 1)],
        FIRST,
    );
    stops(
        &rt,
        &[
            (b"together 3\nwrite v 0 1\n", 1),
            (b"a", 512),
            (b"write v 1", 1),
        ],
        &[(b"ok\n", 1)],
        FIRST,
    );
    stops(
        &rt,
        &[
            (b"together 3\nwrite v 0 1\n", 1),
            (b"a", 512),
            (b"write v 1 1\n", 1),
            (b"b", 511),
        ],
        &[(b"ok\n", 1)],
        FIRST,
    );
    stops(
        &rt,
        &[
            (b"together 3\nwrite v 64 1\n", 1),
            (b"b", 512),
            (b"write v 0 1\n", 1),
            (b"a", 512),
        ],
        &[(b"refused 8 OutOfRange\nok\n", 1)],
        FIRST,
    );
}
