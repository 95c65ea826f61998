//! The set under a store, by lines.
use super::{Part, ends, serves, with_volume};
use crate::Ending;
use crate::answering::is_missing_slot;
use crate::testing::{ID, STATUS, fresh_store, same};
use sector_model::{Bank, Choice, Image, MemBank, Plan};
use set_commands::open_on;
use std::process::Abort;
use stripe_journal::Entry;
use volume_table::Store;

// No line end follows the 484 bytes: the next reply does.
#[test]
fn the_status(rt: HostRuntime) {
    serves(
        &rt,
        &mut fresh_store(&rt),
        &[(b"status\nlist\n", 1)],
        &[(STATUS.as_bytes(), 1), (b"volumes 0\n", 1)],
    );
}

#[test]
fn slots_are_given_up(rt: HostRuntime) {
    let mut store = with_volume(&rt);
    serves(
        &rt,
        &mut store,
        &[(b"rebuild 1\nfail 256\nfail 2\nrebuild 1\nlist\n", 1)],
        &[
            (
                b"refused 12 NothingToRebuild\nrefused 10 NotMissing\nok\n",
                1,
            ),
            (b"refused 12 NothingToRebuild\nvolumes 1\nv 64\n", 1),
        ],
    );
    same(&rt, is_missing_slot(&store, 2), true);
}

#[test]
fn a_member_is_rebuilt_between_lines(rt: HostRuntime) {
    let mut store = with_volume(&rt);
    same(&rt, store.fail(2), Ok(()));
    same(&rt, store.replace(2), Ok(()));
    serves(
        &rt,
        &mut store,
        &[
            (b"rebuild 2\nwrite v 0 1\n", 1),
            (b"a", 512),
            (
                b"replace 2\nscrub 1\nrebuild 9\nrebuild 1\nread v 0 1\nscrub 256\n",
                1,
            ),
        ],
        &[
            (
                b"position 128 of 256, 2 left\nok\nrefused 10 NotMissing\n",
                1,
            ),
            (
                b"refused 13 Incomplete\ncomplete\nrefused 12 NothingToRebuild\n",
                1,
            ),
            (b"blocks 1\n", 1),
            (b"a", 512),
            (b"256 rows, 0 bad\n", 1),
        ],
    );
}

// A slot that is in sync, or none of the set: no device is asked for.
#[test]
fn slots_that_are_not_missing(rt: HostRuntime) {
    let mut store = with_volume(&rt);
    serves(
        &rt,
        &mut store,
        &[(
            b"replace 0\nreplace 4\nreplace 5\nreplace 300\nreplace 4294967295\nlist\n",
            1,
        )],
        &[(b"refused 10 NotMissing\n", 5), (b"volumes 1\nv 64\n", 1)],
    );
    same(&rt, store.fail(0), Ok(()));
    serves(
        &rt,
        &mut store,
        &[(b"replace 256\nreplace 1\nlist\n", 1)],
        &[(b"refused 10 NotMissing\n", 2), (b"volumes 1\nv 64\n", 1)],
    );
}

// A device is asked for by the second of three lines, for a slot that is missing: no reply is written, and the next
// line isn't read.
fn asks_for(rt: &(impl Abort + AllocGlobal), slot: u8, lines: &'static [u8]) {
    let mut store = with_volume(rt);
    same(rt, store.fail(slot), Ok(()));
    let end = Ok(Ending::Replace(slot));
    let text: &[Part] = &[(b"volumes 1\nv 64\n", 1)];
    ends(rt, &mut store, &[(lines, 1)], end, 5, text);
    same(rt, is_missing_slot(&store, u32::from(slot)), true);
    same(rt, store.replace(slot), Ok(()));
}

#[test]
fn a_missing_slot_is_to_be_replaced(rt: HostRuntime) {
    asks_for(&rt, 2, b"list\nreplace 2\nlist\n");
    asks_for(&rt, 4, b"list\nreplace 4\nlist\n");
}

// The devices of a store, with all that was written.
fn image_of(rt: &(impl Abort + AllocGlobal), store: &Store<MemBank>) -> Image {
    let call = store.bank().now();
    let image = store.bank().image_after(rt.alloc(), call, Choice::Newest);
    image.expect(rt, "memory")
}

// The first byte of a sector becomes another.
fn spoil(rt: &impl Abort, image: &mut Image, slot: usize, at: usize) {
    assert!(rt; slot < image.slots.len());
    let disk = image.slots[slot].as_deref_mut().expect(rt, "a device");
    assert!(rt; at < disk.len());
    disk[at][0] ^= 1;
}

// A store over a set of which rows 100 and 150, sectors 108 and 158 of the members, are bad.
fn spoiled(rt: &(impl Abort + AllocGlobal)) -> Store<MemBank> {
    let mut image = image_of(rt, &with_volume(rt));
    spoil(rt, &mut image, 0, 108);
    spoil(rt, &mut image, 1, 158);
    assert!(rt; image.slots.len() >= 5 && image.slots.len() <= 10);
    let bank = MemBank::new(rt.alloc(), image, Plan::NONE, 8_000).expect(rt, "memory");
    let entry = Entry::new(rt.alloc()).expect(rt, "memory");
    open_on(bank, entry, ID).expect(rt, "a store")
}

#[test]
fn parts_of_a_scrub(rt: HostRuntime) {
    serves(
        &rt,
        &mut fresh_store(&rt),
        &[(b"scrub 100\nscrub 100\nscrub 100\nscrub 10\nscrub 0\n", 1)],
        &[(
            b"100 rows, 0 bad\n200 rows, 0 bad\n256 rows, 0 bad\n10 rows, 0 bad\n10 rows, 0 bad\n",
            1,
        )],
    );
    serves(
        &rt,
        &mut spoiled(&rt),
        &[(
            b"scrub 100\nlist\nscrub 1\nscrub 49\nscrub 1\nscrub 4294967295\nscrub 101\n",
            1,
        )],
        &[
            (
                b"100 rows, 0 bad\nvolumes 1\nv 64\n101 rows, 1 bad, first 100\n",
                1,
            ),
            (
                b"150 rows, 1 bad, first 100\n151 rows, 2 bad, first 100\n",
                1,
            ),
            (
                b"256 rows, 2 bad, first 100\n101 rows, 1 bad, first 100\n",
                1,
            ),
        ],
    );
}

// A part that is refused leaves what was found.
#[test]
fn a_part_that_is_refused(rt: HostRuntime) {
    serves(
        &rt,
        &mut with_volume(&rt),
        &[(b"scrub 100\nfail 1\nscrub 100\nscrub 100\nlist\n", 1)],
        &[
            (b"100 rows, 0 bad\nok\n", 1),
            (b"refused 13 Incomplete\n", 2),
            (b"volumes 1\nv 64\n", 1),
        ],
    );
}
