//! Commands over set A in memory: a slot is given a device, rows are rebuilt, and all are looked at, the table of
//! volumes gets version 2, and what the other events are answered.
use super::{SET_A, bank_of, fresh_store, image_now};
use crate::testing::streams::{Full, WHOLE};
use crate::testing::{ID, same};
use crate::{apply_on, rebuild_on};
use sector_model::{Image, Refusal};
use std::process::Abort;
use volume_table::Event;

// A set that is whole, has a row that is not sound, lacks the member in slot 2, or is rebuilding it.
#[derive(Clone, Copy, PartialEq, Eq, Debug)]
enum Set {
    Whole,
    Unsound,
    Lacking,
    Rebuilding,
    // It has a volume of 4 blocks.
    Used,
}

#[derive(Clone, Copy, PartialEq, Eq, Debug)]
enum Command {
    Replace(u8),
    Rebuild(Option<u64>),
    Scrub,
    Upgrade,
    Step(u64),
    Create(u32),
    Read,
    List,
}

// The devices of such a set. The parity of row 5, which is sector 13, is on member 2.
fn devices(rt: &(impl Abort + AllocGlobal), set: Set) -> Image {
    let mut store = fresh_store(rt, SET_A);
    if set == Set::Lacking || set == Set::Rebuilding {
        same(rt, store.fail(2), Ok(()));
    }
    if set == Set::Rebuilding {
        same(rt, store.replace(2), Ok(()));
    }
    if set == Set::Used {
        same(rt, store.create(b"v", 4), Ok(()));
        same(rt, store.write(b"v", 2, &[[0x5a; 512]]), Ok(()));
    }
    let mut image = image_now(rt, &store);
    if set == Set::Unsound {
        flip(rt, &mut image);
    }
    image
}

// One byte of row 5 of member 2 is changed.
fn flip(rt: &impl Abort, image: &mut Image) {
    assert!(rt; image.slots.len() > 2);
    let disk = image.slots[2].as_deref_mut().expect(rt, "a device");
    assert!(rt; disk.len() > 13);
    disk[13][0] ^= 1;
}

// The event that a command is.
fn event_of(command: Command) -> Event<'static> {
    match command {
        Command::Replace(slot) => Event::Replace { slot },
        Command::Rebuild(_) => Event::RebuildStep { rows: 64 },
        Command::Scrub => Event::Scrub,
        Command::Upgrade => Event::Upgrade,
        Command::Step(rows) => Event::RebuildStep { rows },
        Command::Create(blocks) => Event::Create { name: b"a", blocks },
        Command::Read => Event::Read {
            name: b"v",
            at: 1,
            count: 2,
        },
        Command::List => Event::List,
    }
}

// Such a set, a command over it, how many bytes of its line the writer takes, how it has to end, and what has to be
// written.
type Row = (Set, Command, usize, Result<(), Refusal>, &'static str);

fn is_done(rt: &(impl Abort + AllocGlobal), row: &Row) {
    let (set, command, room, end, text) = *row;
    let (bank, entry) = bank_of(rt, devices(rt, set));
    let mut out = Full {
        text: Vec::new(rt.alloc()),
        room,
    };
    let done = match command {
        Command::Rebuild(steps) => rebuild_on(bank, entry, ID, steps, &mut out),
        other => apply_on(rt.alloc(), bank, entry, ID, &event_of(other), &mut out),
    };
    let case = (set, command, room);
    same(
        rt,
        (case, done, out.text.as_slice()),
        (case, end, text.as_bytes()),
    );
}

static REPLACED: &[Row] = &[
    (Set::Lacking, Command::Replace(2), WHOLE, Ok(()), "ok\n"),
    (
        Set::Lacking,
        Command::Replace(1),
        WHOLE,
        Err(Refusal::NotMissing),
        "",
    ),
    (
        Set::Whole,
        Command::Replace(2),
        WHOLE,
        Err(Refusal::NotMissing),
        "",
    ),
    (
        Set::Whole,
        Command::Replace(5),
        WHOLE,
        Err(Refusal::NotMissing),
        "",
    ),
    (
        Set::Lacking,
        Command::Replace(2),
        2,
        Err(Refusal::WriteFault),
        "ok",
    ),
];

#[test]
fn a_slot_is_given_a_device(rt: HostRuntime) {
    for row in REPLACED {
        is_done(&rt, row);
    }
}

// The 256 rows take four steps.
static REBUILT: &[Row] = &[
    (
        Set::Rebuilding,
        Command::Rebuild(Some(1)),
        WHOLE,
        Ok(()),
        "position 64 of 256, 3 left\n",
    ),
    (
        Set::Rebuilding,
        Command::Rebuild(Some(3)),
        WHOLE,
        Ok(()),
        "position 192 of 256, 1 left\n",
    ),
    (
        Set::Rebuilding,
        Command::Rebuild(Some(4)),
        WHOLE,
        Ok(()),
        "complete\n",
    ),
    (
        Set::Rebuilding,
        Command::Rebuild(Some(u64::MAX)),
        WHOLE,
        Ok(()),
        "complete\n",
    ),
    (
        Set::Rebuilding,
        Command::Rebuild(None),
        WHOLE,
        Ok(()),
        "complete\n",
    ),
    (
        Set::Lacking,
        Command::Rebuild(None),
        WHOLE,
        Err(Refusal::NothingToRebuild),
        "",
    ),
    (
        Set::Whole,
        Command::Rebuild(Some(1)),
        WHOLE,
        Err(Refusal::NothingToRebuild),
        "",
    ),
    (
        Set::Rebuilding,
        Command::Rebuild(Some(2)),
        9,
        Err(Refusal::WriteFault),
        "position ",
    ),
];

#[test]
fn rows_are_rebuilt(rt: HostRuntime) {
    for row in REBUILT {
        is_done(&rt, row);
    }
}

static SCRUBBED: &[Row] = &[
    (
        Set::Whole,
        Command::Scrub,
        WHOLE,
        Ok(()),
        "256 rows, 0 bad\n",
    ),
    (
        Set::Unsound,
        Command::Scrub,
        WHOLE,
        Ok(()),
        "256 rows, 1 bad, first 5\n",
    ),
    (
        Set::Lacking,
        Command::Scrub,
        WHOLE,
        Err(Refusal::Incomplete),
        "",
    ),
    (
        Set::Rebuilding,
        Command::Scrub,
        WHOLE,
        Err(Refusal::Incomplete),
        "",
    ),
    (
        Set::Unsound,
        Command::Scrub,
        15,
        Err(Refusal::WriteFault),
        "256 rows, 1 bad",
    ),
];

#[test]
fn rows_are_inspected(rt: HostRuntime) {
    for row in SCRUBBED {
        is_done(&rt, row);
    }
}

static UPGRADED: &[Row] = &[
    (Set::Whole, Command::Upgrade, WHOLE, Ok(()), "ok\n"),
    (Set::Lacking, Command::Upgrade, WHOLE, Ok(()), "ok\n"),
    (Set::Rebuilding, Command::Upgrade, WHOLE, Ok(()), "ok\n"),
    (
        Set::Whole,
        Command::Upgrade,
        1,
        Err(Refusal::WriteFault),
        "o",
    ),
    (
        Set::Lacking,
        Command::Upgrade,
        0,
        Err(Refusal::WriteFault),
        "",
    ),
];

#[test]
fn a_table_gets_version_2(rt: HostRuntime) {
    for row in UPGRADED {
        is_done(&rt, row);
    }
}

// What no command of the program asks by one event.
static OTHERS: &[Row] = &[
    (
        Set::Rebuilding,
        Command::Step(64),
        WHOLE,
        Ok(()),
        "position 64 of 256, 3 left\n",
    ),
    (
        Set::Lacking,
        Command::Step(64),
        WHOLE,
        Err(Refusal::NothingToRebuild),
        "",
    ),
    (Set::Used, Command::Create(64), WHOLE, Ok(()), "ok\n"),
    (
        Set::Used,
        Command::Create(0),
        WHOLE,
        Err(Refusal::BadSize),
        "",
    ),
    (Set::Used, Command::Read, WHOLE, Ok(()), "00*512\n5a*512\n"),
    (Set::Whole, Command::Read, WHOLE, Err(Refusal::NoVolume), ""),
    (
        Set::Used,
        Command::Read,
        9,
        Err(Refusal::WriteFault),
        "00*512\n5a",
    ),
    (Set::Used, Command::List, WHOLE, Ok(()), "v 4\n"),
    (Set::Whole, Command::List, WHOLE, Ok(()), ""),
];

#[test]
fn what_other_events_are_answered(rt: HostRuntime) {
    for row in OTHERS {
        is_done(&rt, row);
    }
}
