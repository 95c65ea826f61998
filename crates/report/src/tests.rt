//! The texts of docs/FORMATS.md, "Status".
use crate::testing::same;
use crate::*;
use layout_map::Format;
use std::process::Abort;
use superblock::State;
use volume_table::Status;

// A set of 3 members, chunk 8 and 32 stripes, as it was made.
const FRESH: Status = Status {
    id: [
        0x00, 0x01, 0x02, 0x03, 0x04, 0x05, 0x06, 0x07, 0x08, 0x09, 0x0a, 0x0b, 0x0c, 0x0d, 0x0e,
        0x0f,
    ],
    format: Format::One,
    members: 3,
    chunk: 8,
    stripes: 32,
    rows: 256,
    generation: 1,
    position: 0,
    extent_blocks: 64,
    extents: 7,
    free: 7,
    volumes: 0,
    version: 1,
    states: [
        State::InSync,
        State::InSync,
        State::InSync,
        State::InSync,
        State::InSync,
        State::Missing,
        State::Missing,
        State::Missing,
        State::Missing,
        State::Missing,
    ],
    incarnations: [1, 1, 1, 1, 1, 0, 0, 0, 0, 0],
};

// The text once slot 2 went down in a write to the only volume.
const MEMBER_DOWN: &str = "\
set 000102030405060708090a0b0c0d0e0f
members 3 chunk 8 stripes 32 rows 256
generation 2 position 0 left 0
extents 7 free 6 volumes 1 table 1
 0 member   in-sync    1
 1 member   in-sync    1
 2 member   missing    1
 3 journal  in-sync    1
 4 journal  in-sync    1
";

// The status has this text.
fn has_text(rt: &(impl Abort + AllocGlobal), status: &Status, wanted: &str) {
    let text = table_text(rt.alloc(), status).expect(rt, "memory");
    same(rt, text.as_str(), wanted);
}

#[test]
fn text_after_a_member_went_down(rt: HostRuntime) {
    let mut status = FRESH;
    status.generation = 2;
    status.free = 6;
    status.volumes = 1;
    status.states[2] = State::Missing;
    has_text(&rt, &status, MEMBER_DOWN);
}

// The text of a set of 8 members while slot 1, whose device is its twelfth, is rebuilt.
const EIGHT_MEMBERS: &str = "\
set 000102030405060708090a0b0c0d0e0f
members 8 chunk 8 stripes 32 rows 256
generation 4611686018427387904 position 255 left 1
extents 27 free 27 volumes 0 table 1
 0 member   in-sync    1
 1 member   rebuilding 12
 2 member   in-sync    1
 3 member   in-sync    1
 4 member   in-sync    1
 5 member   in-sync    1
 6 member   in-sync    1
 7 member   in-sync    1
 8 journal  in-sync    1
 9 journal  in-sync    1
";

#[test]
fn text_of_eight_members_while_one_is_rebuilt(rt: HostRuntime) {
    let mut status = FRESH;
    status.members = 8;
    status.generation = 4_611_686_018_427_387_904;
    status.position = 255;
    status.extents = 27;
    status.free = 27;
    status.states = [State::InSync; 10];
    status.states[1] = State::Rebuilding;
    status.incarnations = [1; 10];
    status.incarnations[1] = 12;
    has_text(&rt, &status, EIGHT_MEMBERS);
}

// How the JSON text of a set as it was made begins, and how it ends.
const FRESH_BEGIN: &str =
    r#"{"chunk":8,"extents":7,"free":7,"generation":1,"id":"000102030405060708090a0b0c0d0e0f","left":0,"members":3,"position":0,"rows":256,"slots":[{"incarnation":1,"role":"member","slot":0,"state":"in-sync"},"#;

const FRESH_END: &str = r#"],"stripes":32,"table":1,"volumes":0}"#;

// The status as JSON text.
fn json_text(rt: &(impl Abort + AllocGlobal), status: &Status) -> String {
    let value = to_json(rt.alloc(), status).expect(rt, "memory");
    value.to_string(rt.alloc()).expect(rt, "memory")
}

#[test]
fn json_of_a_fresh_set(rt: HostRuntime) {
    let text = json_text(&rt, &FRESH);
    same(&rt, text.as_str().starts_with(FRESH_BEGIN), true);
    same(&rt, text.as_str().ends_with(FRESH_END), true);
}

// A set of format 2 of 3 members, chunk 8 and 32 stripes while slot 1, whose device is its second, is rebuilt.
fn large(status: &Status) -> Status {
    let mut large = *status;
    large.format = Format::Two;
    large.generation = 3;
    large.extent_blocks = 16;
    large.extents = 28;
    large.free = 28;
    large.version = 3;
    large.states[1] = State::Rebuilding;
    large.incarnations[1] = 2;
    large
}

// Its text: a step of its rebuild is of 4,096 rows.
const LARGE: &str = "\
set 000102030405060708090a0b0c0d0e0f
members 3 chunk 8 stripes 32 rows 256 format 2
generation 3 position 0 left 1
extents 28 free 28 volumes 0 table 3
 0 member   in-sync    1
 1 member   rebuilding 2
 2 member   in-sync    1
 3 journal  in-sync    1
 4 journal  in-sync    1
";

#[test]
fn text_of_format_2(rt: HostRuntime) {
    has_text(&rt, &large(&FRESH), LARGE);
}

// How its JSON text begins.
const LARGE_BEGIN: &str =
    r#"{"chunk":8,"extent_blocks":16,"extents":28,"format":2,"free":28,"generation":3,"id":"000102030405060708090a0b0c0d0e0f","left":1,"members":3,"#;

#[test]
fn json_of_format_2(rt: HostRuntime) {
    let text = json_text(&rt, &large(&FRESH));
    same(&rt, text.as_str().starts_with(LARGE_BEGIN), true);
}
