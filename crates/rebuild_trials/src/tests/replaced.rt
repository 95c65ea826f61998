//! Devices that a slot is given: what stood on them counts no more, and they have what the set needs of them.
use super::{
    Case, Device, ID, OF_3, OF_4, OF_8, Shape, check_complete, check_list, check_published,
    check_whole, crashed, disk, geometry_of, journal, told, told_when_done, without,
};
use crate::testing::{all, same};
use array_io::Array;
use layout_map::Format;
use rebuild::{Progress, rebuild_step, replace};
use sector_model::{Bank, Choice, Image, MemBank, Sector};
use std::process::Abort;
use stripe_journal::oracle::last_sealed_in;

// The kinds of devices.
const DEVICES: &[Device] = &[
    Device::Blank,
    Device::Own,
    Device::Ahead,
    Device::Foreign,
    Device::Filled,
];

// Whether these are the same sectors.
fn are_same(left: &[Sector], right: &[Sector]) -> bool {
    if left.len() != right.len() {
        return false;
    }
    for at in 0..left.len().min(right.len()) {
        if left[at] != right[at] {
            return false;
        }
    }
    true
}

// Asks that so many sectors of the slot's device are zero after a crash, by this choice.
fn check_cleared(
    rt: &(impl Abort + AllocGlobal),
    case: &Case,
    bank: &MemBank,
    crash: (u64, Choice),
    count: usize,
) {
    let image = crashed(rt, bank, crash.0, crash.1);
    let sectors = disk(rt, &image, case.slot);
    assert!(rt; count <= sectors.len());
    for at in 0..count {
        let is_clear = sectors[at] == all(0);
        same(rt, (case.slot, at, is_clear), (case.slot, at, true));
    }
}

// Asks that the devices of other slots hold the same at two calls.
fn check_others_stay(
    rt: &(impl Abort + AllocGlobal),
    case: &Case,
    bank: &MemBank,
    calls: (u64, u64),
) {
    let before = crashed(rt, bank, calls.0, Choice::Newest);
    let after = crashed(rt, bank, calls.1, Choice::Newest);
    for slot in 0..case.shape.members.saturating_add(2) {
        let is_same = are_same(disk(rt, &before, slot), disk(rt, &after, slot));
        let stays = slot == case.slot || is_same;
        same(rt, (slot, stays), (slot, true));
    }
}

// Checks in which order a device is joined, from this call on, after the two reads of the other journal's seals: its
// places, and a journal's seals too, are cleared and safe before another device is written, and the places stay clear
// until each other device has the table in which it has joined.
fn check_order(rt: &(impl Abort + AllocGlobal), case: &Case, array: &Array<MemBank>, from: u64) {
    let bank = &array.bank;
    let end = bank.now();
    let (reads, count) = if case.slot < case.shape.members {
        (0, 2)
    } else {
        (2, 4)
    };
    let calls = count as u64 + 1;
    let cleared = from.saturating_add(reads).saturating_add(calls);
    check_cleared(rt, case, bank, (cleared, Choice::Oldest), count);
    check_others_stay(rt, case, bank, (from, cleared));
    check_cleared(rt, case, bank, (end.saturating_sub(2), Choice::Newest), 2);
    let image = crashed(rt, bank, end, Choice::Oldest);
    let sectors = disk(rt, &image, case.slot);
    assert!(rt; sectors.len() >= 2);
    let other = (array.table.generation.wrapping_add(1) % 2) as usize;
    let is_clear = sectors[other] == all(0);
    same(rt, (case.slot, is_clear), (case.slot, true));
    check_published(rt, (end, 0), array);
}

// How many sectors an entry holds, by its seal's sector: a bit for each in the masks from byte 168 on.
fn held_by_masks(rt: &impl Abort, seal: &Sector) -> usize {
    assert!(rt; seal.starts_with(b"RAID5JE2") && seal.ends_with(b"2EJ5DIAR"));
    let mut count = 0u32;
    for mask in &seal[168..200] {
        count = count.saturating_add(mask.count_ones());
    }
    count as usize
}

// The same of an entry of runs: from byte 40 on, 8 bytes a run, of which the last three are its rows' number and mask.
fn held_by_runs(rt: &impl Abort, seal: &Sector) -> usize {
    assert!(rt; seal.starts_with(b"RAID5JE3") && seal.ends_with(b"3EJ5DIAR"));
    let mut count = 0u32;
    for run in 0..58usize {
        let at = 40 + 8 * run;
        let rows = u32::from(seal[at + 5]) + 256 * u32::from(seal[at + 6]);
        let held = rows.saturating_mul(seal[at + 7].count_ones());
        count = count.saturating_add(held);
    }
    count as usize
}

// How many sectors an entry of a set of this format holds, by its seal's sector.
fn held_by(rt: &impl Abort, format: Format, seal: &Sector) -> usize {
    match format {
        Format::One => held_by_masks(rt, seal),
        Format::Two => held_by_runs(rt, seal),
    }
}

// What counts of a journal: the number of its last entry, and its body.
fn entry_of(
    rt: &(impl Abort + AllocGlobal),
    case: &Case,
    image: &Image,
    journal: u8,
) -> Option<(u64, Vec<Sector>)> {
    let slot = journal as usize;
    assert!(rt; slot < image.slots.len());
    let geometry = geometry_of(rt, case.shape);
    let seal = last_sealed_in(&image.slots[slot], &ID, &geometry)?;
    let place = (seal.number % 2) as usize;
    let sectors = disk(rt, image, journal);
    let half = match case.shape.format {
        Format::One => 256usize,
        Format::Two => 4_096,
    };
    assert!(rt; sectors.len() == 8 + 2 * half);
    let count = held_by(rt, case.shape.format, &sectors[2 + place]);
    let first = 8 + half * place;
    assert!(rt; count <= half);
    let body = Vec::from_slice(rt.alloc(), &sectors[first..first + count]);
    Some((seal.number, body.expect(rt, "memory")))
}

/// Asks that both journals have one last entry, or none.
pub(crate) fn check_entries(rt: &(impl Abort + AllocGlobal), case: &Case, image: &Image) {
    let lower = entry_of(rt, case, image, case.shape.members);
    let upper = entry_of(rt, case, image, case.shape.members.saturating_add(1));
    match (lower, upper) {
        (Some((lower, left)), Some((upper, right))) => {
            let are_same = are_same(&left, &right);
            same(rt, (case.is_used, lower, are_same), (true, upper, true));
        }
        (lower, upper) => {
            let none = lower.is_none() && upper.is_none();
            same(rt, (case.is_used, none), (false, true));
        }
    }
}

// Replaces a device, and rebuilds it if it is a member's: the list stays, also where the set is assembled again.
fn check_replaced(rt: &(impl Abort + AllocGlobal), case: &Case) {
    let mut known = without(rt, case);
    let old = told(&known.array.table);
    let from = known.array.bank.now();
    same(rt, replace(&mut known.array, case.slot), Ok(()));
    let wanted = told_when_done(rt, case, old);
    same(rt, told(&known.array.table), wanted);
    check_order(rt, case, &known.array, from);
    check_list(rt, (0, 0), &mut known.array, &known.list);
    if case.slot < case.shape.members {
        let step = rebuild_step(&mut known.array, 64);
        same(rt, step, Ok(Progress::Complete));
        check_published(rt, (0, 1), &known.array);
    } else {
        let bank = &known.array.bank;
        let image = crashed(rt, bank, bank.now(), Choice::Oldest);
        check_entries(rt, case, &image);
    }
    if case.is_used {
        check_complete(rt, (0, 2), &known.array, &known.list);
    } else {
        check_whole(rt, (0, 3), &known.array, &known.list);
    }
}

// Replaces a slot by a device of each kind.
fn check_each(rt: &(impl Abort + AllocGlobal), shape: Shape, slot: u8) {
    for device in DEVICES {
        for is_used in [true, false] {
            let case = journal(shape, slot, *device, is_used);
            check_replaced(rt, &case);
        }
    }
}

#[test]
fn each_device_as_a_member(rt: HostRuntime) {
    check_each(&rt, OF_3, 0);
    check_each(&rt, OF_4, 3);
}

#[test]
fn each_device_as_a_journal(rt: HostRuntime) {
    check_each(&rt, OF_3, 4);
    check_each(&rt, OF_8, 8);
}
