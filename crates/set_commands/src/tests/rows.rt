//! Small scripts over set A, with what they are answered.
use super::{
    MEMBER_DOWN, SET_A, answers, bank_of, fail_at, fresh_store, image_now, writes, writes_joined,
};
use crate::testing::{ID, same};
use crate::{Health, serve_on, tell_on};
use report::table_text;
use sector_model::{Bank, Image, MemBank};
use std::process::Abort;
use volume_table::Store;

/// Runs a script over the set on these devices in a run of its own: it has to be answered with this text.
pub(super) fn serves(rt: &(impl Abort + AllocGlobal), image: Image, script: &[u8], text: &[u8]) {
    let (bank, entry) = bank_of(rt, image);
    let mut out = Vec::new(rt.alloc());
    let mut reader = script;
    let done = serve_on(rt.alloc(), bank, entry, ID, &mut reader, &mut out);
    same(rt, (done, out.as_slice()), (Ok(()), text));
}

#[test]
fn fill_then_no_space(rt: HostRuntime) {
    writes(
        &rt,
        b"create a 448\ncreate b 1\n",
        b"ok\nrefused 5 NoSpace\n",
    );
}

#[test]
fn one_block_too_many(rt: HostRuntime) {
    writes(&rt, b"create a 449\nlist\n", b"refused 5 NoSpace\n");
}

#[test]
fn extend_into_new_extent(rt: HostRuntime) {
    writes(
        &rt,
        b"create a 64\nextend a 1\nread a 64 1\n",
        b"ok\nok\n00*512\n",
    );
}

#[test]
fn extend_keeps_and_zeroes(rt: HostRuntime) {
    writes(
        &rt,
        b"create a 10\nwrite a 9 ff*512\nextend a 10\nread a 9 2\n",
        b"ok\nok\nok\nff*512\n00*512\n",
    );
}

#[test]
fn reused_extent_is_zero(rt: HostRuntime) {
    writes_joined(
        &rt,
        &[
            (b"create a 128\nwrite a 0", 1),
            (b" aa*512", 32),
            (b"\nwrite a 32", 1),
            (b" aa*512", 32),
            (b"\nwrite a 64", 1),
            (b" aa*512", 32),
            (b"\nremove a\ncreate b 10\nextend b 118\n", 1),
            (b"read b 0 1\nread b 10 1\nread b 64 1\n", 1),
        ],
        &[(b"ok\n", 7), (b"00*512\n", 3)],
    );
}

#[test]
fn thirty_two_blocks(rt: HostRuntime) {
    writes_joined(
        &rt,
        &[
            (b"create a 128\nwrite a 48", 1),
            (b" 11*512", 32),
            (b"\nwrite a 48", 1),
            (b" 11*512", 33),
            (b"\nwrite a 48\n", 1),
        ],
        &[(b"ok\nok\nrefused 7 BadCount\nrefused 7 BadCount\n", 1)],
    );
}

#[test]
fn write_out_of_range(rt: HostRuntime) {
    writes(
        &rt,
        b"create a 64\nwrite a 63 11*512 22*512\nread a 63 1\n",
        b"ok\nrefused 8 OutOfRange\n00*512\n",
    );
}

#[test]
fn refused_lines(rt: HostRuntime) {
    writes(
        &rt,
        b"create A 0\ncreate a 0\ncreate a 65537\nread b 0 0\ncreate a 064\nread a 0\n\nlist\n",
        b"refused 1 BadName\nrefused 2 BadSize\nrefused 2 BadSize\nrefused 6 NoVolume\n\
refused 20 BadLine\nrefused 20 BadLine\nrefused 20 BadLine\n",
    );
}

// The set has 2,176 data sectors and 33 extents, and there may be 32 volumes.
#[test]
fn too_many_volumes(rt: HostRuntime) {
    let script = b"\
create vb 1\ncreate vc 1\ncreate vd 1\ncreate ve 1\ncreate vf 1\ncreate vg 1\ncreate vh 1\ncreate vi 1\n\
create vj 1\ncreate vk 1\ncreate vl 1\ncreate vm 1\ncreate vn 1\ncreate vo 1\ncreate vp 1\ncreate vq 1\n\
create vr 1\ncreate vs 1\ncreate vt 1\ncreate vu 1\ncreate vv 1\ncreate vw 1\ncreate vx 1\ncreate vy 1\n\
create vz 1\ncreate v0 1\ncreate v1 1\ncreate v2 1\ncreate v3 1\ncreate v4 1\ncreate v5 1\ncreate v6 1\n\
create va 1\ncreate vb 1\n";
    let text = b"\
ok\nok\nok\nok\nok\nok\nok\nok\n\
ok\nok\nok\nok\nok\nok\nok\nok\n\
ok\nok\nok\nok\nok\nok\nok\nok\n\
ok\nok\nok\nok\nok\nok\nok\nok\n\
refused 4 TooManyVolumes\nrefused 3 Exists\n";
    answers(&rt, &mut fresh_store(&rt, 136), script, text);
}

#[test]
fn first_refusals(rt: HostRuntime) {
    writes(
        &rt,
        b"create a 64\nread a 63 2\nread b 0 1\nread a 0 0\n",
        b"ok\nrefused 8 OutOfRange\nrefused 6 NoVolume\nrefused 7 BadCount\n",
    );
}

// A store with a volume, in which block 0 was written with this byte. Slot 2 goes down in it from a call on.
fn written(rt: &(impl Abort + AllocGlobal), call: u64) -> Store<MemBank> {
    let mut store = fresh_store(rt, SET_A);
    answers(rt, &mut store, b"create a 64\n", b"ok\n");
    fail_at(rt, &mut store, &[2], call);
    answers(rt, &mut store, b"write a 0 66*512\n", b"ok\n");
    store
}

/// A store whose slot 2 went down at its flush in a write of block 0: the last call of the write, by the same write
/// where no device goes down.
pub(super) fn member_down(rt: &(impl Abort + AllocGlobal)) -> Store<MemBank> {
    let calls = written(rt, u64::MAX).bank().now();
    written(rt, calls.saturating_sub(1))
}

#[test]
fn member_down_at_flush(rt: HostRuntime) {
    let mut store = member_down(&rt);
    tells(&rt, &store, MEMBER_DOWN);
    answers(&rt, &mut store, b"read a 0 1\n", b"66*512\n");
    let image = image_now(&rt, &store);
    serves(&rt, image, b"read a 0 1\nlist\n", b"66*512\na 64\n");
}

/// The status of a store has to be this text.
pub(super) fn tells(rt: &(impl Abort + AllocGlobal), store: &Store<MemBank>, wanted: &str) {
    let status = store.status().expect(rt, "a status");
    let text = table_text(rt.alloc(), &status).expect(rt, "memory");
    same(rt, text.as_str(), wanted);
}

#[test]
fn status_text(rt: HostRuntime) {
    let image = image_now(&rt, &member_down(&rt));
    let (bank, entry) = bank_of(&rt, image);
    let mut out = Vec::new(rt.alloc());
    let mut health = Health::Complete;
    let done = tell_on(rt.alloc(), bank, entry, ID, false, &mut out, &mut health);
    same(
        &rt,
        (done, health, out.as_slice()),
        (Ok(()), Health::Incomplete, MEMBER_DOWN.as_bytes()),
    );
}
