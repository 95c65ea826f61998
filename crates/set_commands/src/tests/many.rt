//! What no contract says of many volumes, and of devices of another set.
use super::{SET_A, answers, bank_of, fresh_store, fresh_store_of, image_now};
use crate::serve_on;
use crate::testing::{ID, same};
use sector_model::{Image, Refusal};
use std::process::Abort;

// The stripes of a set of 2,176 data sectors and 33 extents.
const STRIPES: u32 = 136;

// As many volumes as a table has records, of one block each: by their names the last comes first.
const CREATES: &[u8] = b"\
create v31 1\ncreate v30 1\ncreate v29 1\ncreate v28 1\ncreate v27 1\ncreate v26 1\n\
create v25 1\ncreate v24 1\ncreate v23 1\ncreate v22 1\ncreate v21 1\ncreate v20 1\n\
create v19 1\ncreate v18 1\ncreate v17 1\ncreate v16 1\ncreate v15 1\ncreate v14 1\n\
create v13 1\ncreate v12 1\ncreate v11 1\ncreate v10 1\ncreate v09 1\ncreate v08 1\n\
create v07 1\ncreate v06 1\ncreate v05 1\ncreate v04 1\ncreate v03 1\ncreate v02 1\n\
create v01 1\ncreate v00 1\n";

const OKS: &[u8] = b"\
ok\nok\nok\nok\nok\nok\nok\nok\nok\nok\nok\nok\nok\nok\nok\nok\n\
ok\nok\nok\nok\nok\nok\nok\nok\nok\nok\nok\nok\nok\nok\nok\nok\n";

const VOLUMES: &[u8] = b"\
v00 1\nv01 1\nv02 1\nv03 1\nv04 1\nv05 1\nv06 1\nv07 1\nv08 1\nv09 1\nv10 1\n\
v11 1\nv12 1\nv13 1\nv14 1\nv15 1\nv16 1\nv17 1\nv18 1\nv19 1\nv20 1\nv21 1\n\
v22 1\nv23 1\nv24 1\nv25 1\nv26 1\nv27 1\nv28 1\nv29 1\nv30 1\nv31 1\n";

// A list may be refused for want of memory: here there is enough.
#[test]
fn a_list_of_each_record(rt: HostRuntime) {
    let mut store = fresh_store(&rt, STRIPES);
    answers(&rt, &mut store, CREATES, OKS);
    answers(&rt, &mut store, b"list\n", VOLUMES);
}

// The devices of a set in memory with another id than that which is served.
fn serves_none(rt: &(impl Abort + AllocGlobal), image: Image, id: [u8; 16], end: Refusal) {
    let (bank, entry) = bank_of(rt, image);
    let mut out = Vec::new(rt.alloc());
    let mut reader: &[u8] = b"list\n";
    let done = serve_on(rt.alloc(), bank, entry, id, &mut reader, &mut out);
    same(rt, (done, out.len(), reader.len()), (Err(end), 0, 5));
}

#[test]
fn devices_of_another_set(rt: HostRuntime) {
    let store = fresh_store(&rt, SET_A);
    serves_none(&rt, image_now(&rt, &store), [7; 16], Refusal::NoSet);
}

// A member and a journal of another set lie in two slots of this one: they count for nothing, and two are lost.
#[test]
fn two_devices_of_another_set(rt: HostRuntime) {
    let store = fresh_store(&rt, SET_A);
    let other = fresh_store_of(&rt, [7; 16], SET_A);
    let mut image = image_now(&rt, &store);
    let mut foreign = image_now(&rt, &other);
    for slot in [0, 4] {
        assert!(rt; slot < image.slots.len() && slot < foreign.slots.len());
        image.slots[slot] = foreign.slots[slot].take();
    }
    serves_none(&rt, image, ID, Refusal::TwoLost);
}
