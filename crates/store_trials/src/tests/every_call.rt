//! One list of events on set A, and the volumes after each number of them: tests crash it at every device call, and let
//! each device go down at every call.
use super::{
    SET_A, TestStore, Volumes, assembled, fresh_store, image_now, opened, unlike, version_of,
};
use sector_model::Image;
use std::process::Abort;
use volume_table::Event;

mod crashes;
mod crashes_twice;
mod failures;
mod replaced;

/// The events. The last one leaves the volumes as they are, and gives their table version 2.
pub(crate) static EVENTS: [Event; 9] = [
    Event::Create {
        name: b"a",
        blocks: 10,
    },
    Event::Write {
        name: b"a",
        at: 9,
        blocks: &[[0xff; 512]],
    },
    Event::Extend { name: b"a", by: 10 },
    Event::Write {
        name: b"a",
        at: 0,
        blocks: &[[0x11; 512], [0x22; 512], [0x33; 512]],
    },
    Event::Create {
        name: b"b",
        blocks: 3,
    },
    Event::Remove { name: b"a" },
    Event::Create {
        name: b"c",
        blocks: 20,
    },
    Event::Rename {
        old: b"c",
        new: b"d",
    },
    Event::Upgrade,
];

/// The volumes after none of the events, after the first, and so on.
pub(crate) static AFTER: [Volumes; 10] = [
    &[],
    &[(b"a", &[0; 10])],
    &[(b"a", &[0, 0, 0, 0, 0, 0, 0, 0, 0, 0xff])],
    &[(
        b"a",
        &[
            0, 0, 0, 0, 0, 0, 0, 0, 0, 0xff, 0, 0, 0, 0, 0, 0, 0, 0, 0, 0,
        ],
    )],
    &[(
        b"a",
        &[
            0x11, 0x22, 0x33, 0, 0, 0, 0, 0, 0, 0xff, 0, 0, 0, 0, 0, 0, 0, 0, 0, 0,
        ],
    )],
    &[
        (
            b"a",
            &[
                0x11, 0x22, 0x33, 0, 0, 0, 0, 0, 0, 0xff, 0, 0, 0, 0, 0, 0, 0, 0, 0, 0,
            ],
        ),
        (b"b", &[0; 3]),
    ],
    &[(b"b", &[0; 3])],
    &[(b"b", &[0; 3]), (b"c", &[0; 20])],
    &[(b"b", &[0; 3]), (b"d", &[0; 20])],
    &[(b"b", &[0; 3]), (b"d", &[0; 20])],
];

// The versions of the table then.
static VERSIONS: [u8; 10] = [1, 1, 1, 1, 1, 1, 1, 1, 1, 2];

/// The devices of set A as `make` left them.
pub(crate) fn fresh_image(rt: &(impl Abort + AllocGlobal)) -> Image {
    image_now(rt, fresh_store(rt, SET_A).bank())
}

/// A store over these devices: the calls of its assembly are its bank's first.
pub(crate) fn begun(rt: &(impl Abort + AllocGlobal), image: Image) -> TestStore {
    opened(rt, assembled(rt, image))
}

/// The version of a store's table, and where the store shows other volumes than those after so many events.
pub(crate) type Finding = (u8, Option<(usize, u32)>);

/// What a store shows beside the volumes after so many events.
pub(crate) fn shown(
    rt: &(impl Abort + AllocGlobal),
    store: &mut TestStore,
    events: usize,
) -> Finding {
    assert!(rt; events < AFTER.len());
    let place = unlike(rt, store, AFTER[events]);
    (version_of(rt, store), place)
}

/// The version of the table after so many events.
pub(crate) fn version_after(rt: &impl Abort, events: usize) -> u8 {
    assert!(rt; events < VERSIONS.len());
    VERSIONS[events]
}

/// What a store has to show then: the table's version after so many events, and no other volumes.
pub(crate) fn wanted(rt: &impl Abort, events: usize) -> Finding {
    (version_after(rt, events), None)
}

/// Whether a store shows the volumes after so many events, in a table of the version after them.
pub(crate) fn is_after(
    rt: &(impl Abort + AllocGlobal),
    store: &mut TestStore,
    events: usize,
) -> bool {
    shown(rt, store, events) == wanted(rt, events)
}
