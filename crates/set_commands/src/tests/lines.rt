//! Lines that are no commands, long ones, and many.
use super::{Row, SET_A, fresh_store, plays, writes, writes_joined};
use crate::testing::joined;

// What a line that is no command and a `list` are answered with.
const BAD: &[u8] = b"refused 20 BadLine\na 64\n";

const NO_COMMANDS: &[Row] = &[
    (b"create a 64\n", b"ok\n", None),
    (b"\nlist\n", BAD, None),
    (b" list\nlist\n", BAD, None),
    (b"list \nlist\n", BAD, None),
    (b"list\r\nlist\n", BAD, None),
    (b"LIST\nlist\n", BAD, None),
    (b"read a 00 1\nlist\n", BAD, None),
    (b"read a 01 1\nlist\n", BAD, None),
    (b"read a  0 1\nlist\n", BAD, None),
    (b"read a 0 1 \nlist\n", BAD, None),
    (b"read a 4294967296 1\nlist\n", BAD, None),
    (b"read a +1 1\nlist\n", BAD, None),
    (b"write a 0 *511\nlist\n", BAD, None),
    (b"write a 0 5a*511\nlist\n", BAD, None),
    (b"write a \xff 5a*512\nlist\n", BAD, None),
    (b"create b 064\nlist\n", BAD, None),
    (b"create b\nlist\n", BAD, None),
    (b"extend a 4294967296\nlist\n", BAD, None),
    (b"remove a 1\nlist\n", BAD, None),
    (b"rename a\nlist\n", BAD, None),
    (b"rename a b 1\nlist\n", BAD, None),
    (b"Rename a b\nlist\n", BAD, None),
    (b"fail 0\nlist\n", BAD, None),
    (b"upgrade\nlist\n", BAD, None),
    (b"\x80\nlist\n", BAD, None),
    (b"write a 0 AB*512\nread a 0 1\n", b"ok\nab*512\n", None),
];

#[test]
fn lines_that_are_no_commands(rt: HostRuntime) {
    plays(&rt, &mut fresh_store(&rt, SET_A), NO_COMMANDS);
}

#[test]
fn commands_that_are_refused(rt: HostRuntime) {
    writes(
        &rt,
        b"create a 64\ncreate a 1\nextend b 1\nextend a 0\nextend a 65473\nextend a 385\nremove b\n\
write b 0 00*512\nread a 0 33\nread a 0 4294967295\nread a 4294967295 1\nlist\n",
        b"ok\nrefused 3 Exists\nrefused 6 NoVolume\nrefused 2 BadSize\nrefused 2 BadSize\n\
refused 5 NoSpace\nrefused 6 NoVolume\n\
refused 6 NoVolume\nrefused 7 BadCount\nrefused 7 BadCount\nrefused 8 OutOfRange\na 64\n",
    );
}

#[test]
fn volumes_are_listed_by_their_names(rt: HostRuntime) {
    writes(
        &rt,
        b"create b 2\ncreate a 3\ncreate aa 65\ncreate a-b 1\nextend b 62\nlist\nremove a\nlist\n",
        b"ok\nok\nok\nok\nok\na 3\na-b 1\naa 65\nb 64\nok\na-b 1\naa 65\nb 64\n",
    );
}

// The fields of 1,024 zeros are blocks. A line of 63 of them is read, and one of 64 is too long.
#[test]
fn long_lines(rt: HostRuntime) {
    let field = joined(&rt, &[(b" ", 1), (b"0", 1_024)]);
    writes_joined(
        &rt,
        &[(START, 1), (&field, 63), (b"\nlist\n", 1)],
        &[(b"ok\nrefused 7 BadCount\na 64\n", 1)],
    );
    writes_joined(
        &rt,
        &[(START, 1), (&field, 64), (b"\nlist\n", 1)],
        &[(b"ok\nrefused 20 BadLine\na 64\n", 1)],
    );
}

const START: &[u8] = b"create a 64\nwrite a 0";

#[test]
fn many_blocks_are_kept_apart(rt: HostRuntime) {
    writes(
        &rt,
        b"create a 64\nwrite a 32 \
00*512 01*512 02*512 03*512 04*512 05*512 06*512 07*512 08*512 09*512 0a*512 0b*512 0c*512 0d*512 0e*512 0f*512 \
10*512 11*512 12*512 13*512 14*512 15*512 16*512 17*512 18*512 19*512 1a*512 1b*512 1c*512 1d*512 1e*512 1f*512\n\
read a 32 32\n",
        b"ok\nok\n\
00*512\n01*512\n02*512\n03*512\n04*512\n05*512\n06*512\n07*512\n08*512\n09*512\n0a*512\n0b*512\n\
0c*512\n0d*512\n0e*512\n0f*512\n\
10*512\n11*512\n12*512\n13*512\n14*512\n15*512\n16*512\n17*512\n18*512\n19*512\n1a*512\n1b*512\n\
1c*512\n1d*512\n1e*512\n1f*512\n",
    );
}

#[test]
fn a_block_of_many_bytes(rt: HostRuntime) {
    writes_joined(
        &rt,
        &[
            (b"create a 64\nwrite a 7 ", 1),
            (b"09aFfA5c", 128),
            (b"\nread a 7 1\n", 1),
        ],
        &[(b"ok\nok\n", 1), (b"09affa5c", 128), (b"\n", 1)],
    );
}

#[test]
fn a_script_of_70_000_lines(rt: HostRuntime) {
    writes_joined(
        &rt,
        &[(b"create a 64\n", 1), (b"list\n", 70_000)],
        &[(b"ok\n", 1), (b"a 64\n", 70_000)],
    );
}
