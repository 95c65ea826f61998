//! The texts of docs/FORMATS.md, "An inspection".
use crate::testing::same;
use crate::{examined_text, examined_to_json};
use recovery::{Examined, ExaminedSlot, Outlook, Presence, Standing};
use std::process::Abort;
use superblock::{Table, decode};

// The table of a set of format 1 of 3 members, chunk 8 and 32 stripes at generation 2, of which slot 2 is in the state
// of this byte, and so many rows of it count.
fn table(rt: &impl Abort, state: u8, position: u8) -> Table {
    table_of(rt, b'1', state, position)
}

// The same of the format with this digit.
fn table_of(rt: &impl Abort, format: u8, state: u8, position: u8) -> Table {
    let mut sector = [0; 512];
    sector[..8].copy_from_slice(b"RAID5JV1");
    sector[7] = format;
    for byte in 0..16u8 {
        sector[8 + byte as usize] = byte;
    }
    sector[24] = 2;
    sector[32] = 3;
    sector[34] = 8;
    sector[36] = 32;
    for slot in 0..5 {
        sector[40 + 16 * slot] = 1;
        sector[48 + 16 * slot] = 1;
    }
    sector[40 + 16 * 2] = state;
    sector[200] = position;
    sector[208] = 1;
    sector[504..].copy_from_slice(b"1VJ5DIAR");
    sector[504] = format;
    decode(&sector).expect(rt, "it is a superblock").table
}

const LIVE: ExaminedSlot = ExaminedSlot {
    presence: Presence::There,
    generation: 2,
    incarnation: 1,
    standing: Standing::Live,
};

// An inspection of such a set that finds this in slot 2.
fn inspection(table: Table, presence: Presence, standing: Standing, outlook: Outlook) -> Examined {
    let mut slots = [LIVE; 10];
    slots[2] = ExaminedSlot {
        presence,
        generation: 0,
        incarnation: 0,
        standing,
    };
    Examined {
        table,
        slots,
        last: [Some(5), None],
        outlook,
    }
}

// The text of an inspection of a set whose slot 2 is missing.
const MEMBER_AWAY: &str = "\
set 000102030405060708090a0b0c0d0e0f
members 3 chunk 8 stripes 32 rows 256
generation 2 position 0 left 0
 0 member   there generation 2 incarnation 1 live
 1 member   there generation 2 incarnation 1 live
 2 member   absent generation 0 incarnation 0 called missing
 3 journal  there generation 2 incarnation 1 entry 5 live
 4 journal  there generation 2 incarnation 1 live
would assemble: slot 2 missing
";

// Its JSON.
const MEMBER_AWAY_JSON: &str =
    r#"{"chunk":8,"generation":2,"id":"000102030405060708090a0b0c0d0e0f","left":0,"members":3,"outlook":"would assemble: slot 2 missing","position":0,"rows":256,"slots":[{"entry":null,"generation":2,"incarnation":1,"presence":"there","role":"member","slot":0,"standing":"live"},{"entry":null,"generation":2,"incarnation":1,"presence":"there","role":"member","slot":1,"standing":"live"},{"entry":null,"generation":0,"incarnation":0,"presence":"absent","role":"member","slot":2,"standing":"called missing"},{"entry":5,"generation":2,"incarnation":1,"presence":"there","role":"journal","slot":3,"standing":"live"},{"entry":null,"generation":2,"incarnation":1,"presence":"there","role":"journal","slot":4,"standing":"live"}],"stripes":32}"#;

#[test]
fn an_inspection_of_a_set_without_a_member(rt: HostRuntime) {
    let table = table(&rt, 0, 0);
    let away = Standing::CalledMissing;
    let found = inspection(table, Presence::Absent, away, Outlook::Missing(2));
    let text = examined_text(rt.alloc(), &found).expect(&rt, "memory");
    same(&rt, text.as_str(), MEMBER_AWAY);
    let value = examined_to_json(rt.alloc(), &found).expect(&rt, "memory");
    let json = value.to_string(rt.alloc()).expect(&rt, "memory");
    same(&rt, json.as_str(), MEMBER_AWAY_JSON);
}

// How the text and the JSON of an inspection of a set of format 2 begin.
const LARGE_BEGIN: &str = "\
set 000102030405060708090a0b0c0d0e0f
members 3 chunk 8 stripes 32 rows 256 format 2
generation 2 position 0 left 0
";

const LARGE_JSON: &str =
    r#"{"chunk":8,"extent_blocks":16,"format":2,"generation":2,"id":"000102030405060708090a0b0c0d0e0f","left":0,"members":3,"#;

#[test]
fn an_inspection_of_format_2(rt: HostRuntime) {
    let table = table_of(&rt, b'2', 0, 0);
    let away = Standing::CalledMissing;
    let found = inspection(table, Presence::Absent, away, Outlook::Missing(2));
    let text = examined_text(rt.alloc(), &found).expect(&rt, "memory");
    same(&rt, text.as_str().starts_with(LARGE_BEGIN), true);
    let value = examined_to_json(rt.alloc(), &found).expect(&rt, "memory");
    let json = value.to_string(rt.alloc()).expect(&rt, "memory");
    same(&rt, json.as_str().starts_with(LARGE_JSON), true);
}

// How the text of an inspection of such a set ends, in whose slot 2 this is found: from the line of slot 2 on.
fn check_end(rt: &(impl Abort + AllocGlobal), found: &Examined, slot: &str, outlook: &str) {
    let text = examined_text(rt.alloc(), found).expect(rt, "memory");
    same(rt, text.as_str().contains(slot), true);
    same(rt, text.as_str().ends_with(outlook), true);
}

#[test]
fn what_an_inspection_may_find(rt: HostRuntime) {
    let rebuilding = table(&rt, 2, 64);
    let found = inspection(
        rebuilding,
        Presence::There,
        Standing::Rebuilding(64),
        Outlook::Rebuilding(2, 64),
    );
    check_end(
        &rt,
        &found,
        "\n 2 member   there generation 0 incarnation 0 rebuilding at 64\n",
        "\nwould assemble: slot 2 rebuilding at 64\n",
    );
    let whole = table(&rt, 1, 0);
    for (presence, standing, line, outlook, end) in [
        (
            Presence::TooShort,
            Standing::NotThere,
            "too short generation 0 incarnation 0 not there\n",
            Outlook::WouldMark(2),
            "\nwould mark slot 2 missing\n",
        ),
        (
            Presence::There,
            Standing::NoSuperblock,
            " no superblock\n",
            Outlook::TwoLost,
            "\nrefused 15 TwoLost\n",
        ),
        (
            Presence::There,
            Standing::OlderGeneration,
            " older generation\n",
            Outlook::WouldMark(2),
            "\nwould mark slot 2 missing\n",
        ),
        (
            Presence::There,
            Standing::LowerIncarnation,
            " lower incarnation\n",
            Outlook::WouldMark(2),
            "\nwould mark slot 2 missing\n",
        ),
        (
            Presence::There,
            Standing::HigherIncarnation,
            " higher incarnation\n",
            Outlook::WouldMark(2),
            "\nwould mark slot 2 missing\n",
        ),
        (
            Presence::There,
            Standing::Live,
            " live\n",
            Outlook::Complete,
            "\nwould assemble: complete\n",
        ),
    ] {
        check_end(
            &rt,
            &inspection(whole, presence, standing, outlook),
            line,
            end,
        );
    }
}
