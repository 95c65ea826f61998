//! Images made by hand: which superblocks count in them, which table decides, and which devices are live.
use super::{chosen_table_in, counted_in, is_live_in, own_incarnation_in};
use crate::Table;
use crate::testing::{
    Entry, FRESH, ID, IN_SYNC, MISSING, REBUILDING, WITHOUT_2, read, same, spelled,
};
use sector_model::{Image, Sector};
use std::process::Abort;

const OTHER_ID: [u8; 16] = [0xff; 16];

const BLANK: Sector = [0; 512];

const WITHOUT_4: [Entry; 5] = [
    (IN_SYNC, 1),
    (IN_SYNC, 1),
    (IN_SYNC, 1),
    (IN_SYNC, 1),
    (MISSING, 1),
];

const REPLACED_2: [Entry; 5] = [
    (IN_SYNC, 1),
    (IN_SYNC, 1),
    (REBUILDING, 2),
    (IN_SYNC, 1),
    (IN_SYNC, 1),
];

// What stands in a place: zeros, or the superblock of a generation with these entries, of the slot where it is.
type Standing = Option<(u8, &'static [Entry; 5])>;

// A slot, whether it is live, and its own incarnation.
type Shown = (usize, bool, u64);

fn sector_of(role: u8, standing: Standing) -> Sector {
    match standing {
        Some((generation, entries)) => spelled(&ID, generation, role, entries),
        None => BLANK,
    }
}

// A device with these sectors in place 0 and place 1, and zeros after them.
fn device(
    rt: &(impl Abort + AllocGlobal),
    sectors: u16,
    places: &[Sector; 2],
) -> Option<Vec<Sector>> {
    let mut device = Vec::new(rt.alloc());
    for at in 0..sectors {
        let sector = if at < 2 { places[at as usize] } else { BLANK };
        device.push(sector).expect(rt, "memory");
    }
    Some(device)
}

// Five devices that are just long enough, with these in their places 0 and 1.
fn image(rt: &(impl Abort + AllocGlobal), even: &[Standing; 5], odd: &[Standing; 5]) -> Image {
    let mut slots = Vec::new(rt.alloc());
    for slot in 0..5u8 {
        let sectors = if slot < 3 { 264 } else { 520 };
        let places = [
            sector_of(slot, even[slot as usize]),
            sector_of(slot, odd[slot as usize]),
        ];
        slots
            .push(device(rt, sectors, &places))
            .expect(rt, "memory");
    }
    Image { slots }
}

// The table of this generation with these entries.
fn table_of(rt: &impl Abort, generation: u8, entries: &[Entry; 5]) -> Table {
    read(rt, &spelled(&ID, generation, 0, entries)).table
}

// Of an image the id's own table is chosen, and none of another id. The slots are by that table as the rows say.
fn check_image(rt: &impl Abort, image: &Image, table: &Table, rows: &[Shown]) {
    let chosen = (
        chosen_table_in(image, &ID),
        chosen_table_in(image, &OTHER_ID),
    );
    same(rt, chosen, (Some(*table), None));
    for (slot, is_live, incarnation) in rows {
        assert!(rt; *slot < image.slots.len());
        let content = &image.slots[*slot];
        let own = own_incarnation_in(content, &ID, 5, *slot);
        let got = (*slot, is_live_in(content, 5, table, *slot), own);
        same(rt, got, (*slot, *is_live, Some(*incarnation)));
    }
}

// In five devices that are just long enough, with these in their places 0 and 1, the table of this generation with
// these entries is chosen, and the slots are by it as the rows say.
fn check_chosen(
    rt: &(impl Abort + AllocGlobal),
    (even, odd): (&[Standing; 5], &[Standing; 5]),
    (generation, entries): (u8, &[Entry; 5]),
    rows: &[Shown],
) {
    let image = image(rt, even, odd);
    check_image(rt, &image, &table_of(rt, generation, entries), rows)
}

static NONE: [Standing; 5] = [None; 5];

static FIRST: [Standing; 5] = [Some((1, &FRESH)); 5];

#[test]
fn a_fresh_set(rt: HostRuntime) {
    const ROWS: &[Shown] = &[
        (0, true, 1),
        (1, true, 1),
        (2, true, 1),
        (3, true, 1),
        (4, true, 1),
    ];
    let without = (
        is_live_in(&None, 5, &table_of(&rt, 1, &FRESH), 0),
        own_incarnation_in(&None, &ID, 5, 0),
    );
    same(&rt, without, (false, None));
    check_chosen(&rt, (&NONE, &FIRST), (1, &FRESH), ROWS)
}

#[test]
fn a_slot_is_missing(rt: HostRuntime) {
    const NEW: Standing = Some((2, &WITHOUT_2));
    static EVEN: [Standing; 5] = [NEW, NEW, None, NEW, NEW];
    const ROWS: &[Shown] = &[
        (0, true, 1),
        (1, true, 1),
        (2, false, 1),
        (3, true, 1),
        (4, true, 1),
    ];
    check_chosen(&rt, (&EVEN, &FIRST), (2, &WITHOUT_2), ROWS)
}

#[test]
fn an_earlier_device_of_a_slot(rt: HostRuntime) {
    // Slot 2 has a new device since generation 4; its first one, of generation 3 at the latest, was put back.
    const NEW: Standing = Some((4, &REPLACED_2));
    static EVEN: [Standing; 5] = [NEW, NEW, None, NEW, NEW];
    static ODD: [Standing; 5] = [Some((3, &FRESH)); 5];
    static ALL_NEW: [Standing; 5] = [NEW; 5];
    check_chosen(
        &rt,
        (&EVEN, &ODD),
        (4, &REPLACED_2),
        &[(1, true, 1), (2, false, 1)],
    );
    // With the new device in its slot.
    check_chosen(&rt, (&ALL_NEW, &NONE), (4, &REPLACED_2), &[(2, true, 2)]);
}

#[test]
fn equal_generations(rt: HostRuntime) {
    static EVEN: [Standing; 5] = [Some((6, &FRESH)), None, None, None, None];
    static ODD: [Standing; 5] = [
        None,
        Some((7, &WITHOUT_4)),
        None,
        Some((7, &WITHOUT_2)),
        None,
    ];
    check_chosen(&rt, (&EVEN, &ODD), (7, &WITHOUT_4), &[])
}

// The id, generation and role of a superblock of a fresh set, and the place where it stands.
type Spelled = (&'static [u8; 16], u8, u8, usize);

// The slot of a device, its sectors, and how many slots there are.
type Device = (usize, u16, usize);

// Whether the superblock counts in place 0 of the device and in place 1, whether the slot has an incarnation of its
// own, and whether it is live by the first table of the fresh set.
fn found_on(
    rt: &(impl Abort + AllocGlobal),
    (id, generation, role, place): Spelled,
    (slot, sectors, devices): Device,
) -> (bool, bool, bool, bool) {
    let mut places = [BLANK; 2];
    places[place % 2] = spelled(id, generation, role, &FRESH);
    let content = device(rt, sectors, &places);
    (
        counted_in(&content, &ID, devices, slot, 0).is_some(),
        counted_in(&content, &ID, devices, slot, 1).is_some(),
        own_incarnation_in(&content, &ID, devices, slot).is_some(),
        is_live_in(&content, devices, &table_of(rt, 1, &FRESH), slot),
    )
}

// Whether each superblock counts in place 1 of its device, and whether the slot is live; in place 0 none counts.
fn check_found(rt: &(impl Abort + AllocGlobal), rows: &[(Spelled, Device, bool, bool)]) {
    for row in 0..rows.len() {
        let (spelled, device, is_counted, is_live) = rows[row];
        let want = (false, is_counted, is_counted, is_live);
        same(rt, (row, found_on(rt, spelled, device)), (row, want));
    }
}

#[test]
fn superblocks_that_do_not_count(rt: HostRuntime) {
    const ROWS: &[(Spelled, Device, bool, bool)] = &[
        ((&ID, 1, 0, 1), (0, 264, 5), true, true),
        ((&ID, 1, 0, 1), (0, 264, 4), false, false),
        ((&ID, 1, 0, 0), (0, 264, 5), false, false),
        ((&ID, 2, 0, 1), (0, 264, 5), false, false),
        ((&OTHER_ID, 1, 0, 1), (0, 264, 5), false, false),
        ((&ID, 1, 1, 1), (0, 264, 5), false, false),
    ];
    check_found(&rt, ROWS)
}

#[test]
fn short_devices(rt: HostRuntime) {
    const ROWS: &[(Spelled, Device, bool, bool)] = &[
        ((&ID, 1, 2, 1), (2, 263, 5), true, false),
        ((&ID, 1, 2, 1), (2, 264, 5), true, true),
        ((&ID, 1, 3, 1), (3, 519, 5), true, false),
        ((&ID, 1, 3, 1), (3, 520, 5), true, true),
    ];
    check_found(&rt, ROWS)
}
