//! Blocks are written, read and made zero.
use super::{Part, serves, with_volume, with_volume_in_large};
use std::process::Abort;

const WRITES: &[Part] = &[
    (b"write v 3 2\n", 1),
    (b"a", 512),
    (b"b", 512),
    (b"read v 2 4\nread v 63 1\n", 1),
];

const READS: &[Part] = &[
    (b"ok\nblocks 4\n", 1),
    (b"\0", 512),
    (b"a", 512),
    (b"b", 512),
    (b"\0", 512),
    (b"blocks 1\n", 1),
    (b"\0", 512),
];

#[test]
fn written_blocks_are_read(rt: HostRuntime) {
    serves(&rt, &mut with_volume(&rt), WRITES, READS);
    serves(&rt, &mut with_volume_in_large(&rt), WRITES, READS);
}

// A block that is line ends and words alone is a block.
#[test]
fn blocks_are_no_lines(rt: HostRuntime) {
    serves(
        &rt,
        &mut with_volume(&rt),
        &[
            (b"write v 0 1\n", 1),
            (b"remove v\nlist\n\n\n", 32),
            (b"read v 0 1\nlist\n", 1),
        ],
        &[
            (b"ok\nblocks 1\n", 1),
            (b"remove v\nlist\n\n\n", 32),
            (b"volumes 1\nv 64\n", 1),
        ],
    );
}

const ZEROES: &[Part] = &[
    (b"write v 0 3\n", 1),
    (b"a", 3 * 512),
    (b"zero v 1 1\nread v 0 3\nzero v 0 64\nread v 0 3\n", 1),
];

const ZEROED: &[Part] = &[
    (b"ok\nok\nblocks 3\n", 1),
    (b"a", 512),
    (b"\0", 512),
    (b"a", 512),
    (b"ok\nblocks 3\n", 1),
    (b"\0", 3 * 512),
];

#[test]
fn blocks_become_zero(rt: HostRuntime) {
    serves(&rt, &mut with_volume(&rt), ZEROES, ZEROED);
    serves(&rt, &mut with_volume_in_large(&rt), ZEROES, ZEROED);
}

// The bytes of a write that is refused are `remove`, again and again, and none of them is a line.
#[test]
fn bytes_of_a_refused_write_are_no_lines(rt: HostRuntime) {
    serves(
        &rt,
        &mut with_volume(&rt),
        &[
            (b"create volume-a 64\nwrite volume-a 64 1\n", 1),
            (b"remove volume-a\n", 32),
            (b"write volume-a 63 2\n", 1),
            (b"remove volume-a\n", 64),
            (b"write volume-b 0 1\n", 1),
            (b"remove volume-a\n", 32),
            (b"read volume-a 63 1\nlist\n", 1),
        ],
        &[
            (
                b"ok\nrefused 8 OutOfRange\nrefused 8 OutOfRange\nrefused 6 NoVolume\nblocks 1\n",
                1,
            ),
            (b"\0", 512),
            (b"volumes 2\nv 64\nvolume-a 64\n", 1),
        ],
    );
}

#[test]
fn ranges_that_are_refused(rt: HostRuntime) {
    serves(
        &rt,
        &mut with_volume(&rt),
        &[(
            b"read x 0 1\nzero x 0 1\nread v 63 2\nread v 4294967295 1\nread v 0 2048\n\
zero v 1 64\nzero v 0 65536\n",
            1,
        )],
        &[(b"refused 6 NoVolume\n", 2), (b"refused 8 OutOfRange\n", 5)],
    );
}
