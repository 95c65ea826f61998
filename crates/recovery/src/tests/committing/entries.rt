//! What a commit puts on the journals and the members, and what reads give afterwards.
use super::{
    List, answer_of_commit, check_members, check_sectors, checked, commit, list_of, put_list, zeros,
};
use crate::testing::{
    BLANK, ID, SET_A, Shape, assembled, calls_of_make, fresh, fresh_without, image_now, made,
    put_from, put_sector, same, sector_of,
};
use array_io::Array;
use sector_model::{Bank, Choice, Image, MemBank, Refusal, Sector};
use std::process::Abort;

// The bytes of the seal of the entry with this number and these rows, each with the mask of what is held of it.
fn seal_of(rt: &impl Abort, number: u8, rows: &[(u8, u8)]) -> Sector {
    assert!(rt; rows.len() <= 32);
    let mut sector = BLANK;
    sector[..8].copy_from_slice(b"RAID5JE2");
    sector[8..24].copy_from_slice(&ID);
    sector[24] = number;
    sector[32] = rows.len() as u8;
    for i in 0..rows.len() {
        sector[40 + 4 * i] = rows[i].0;
        sector[168 + i] = rows[i].1;
    }
    sector[504..].copy_from_slice(b"2EJ5DIAR");
    sector
}

// Asks that both journals of set A have this sector.
fn check_journals(rt: &impl Abort, image: &Image, at: usize, sector: &Sector) {
    for slot in [3, 4] {
        let stands = sector_of(rt, image, slot, at) == *sector;
        same(rt, (slot, at, stands), (slot, at, true));
    }
}

// Checks both journals of an image: the seals in sectors 2 and 3, and a body from a sector on, each of its sectors full
// of a byte.
fn check_entry_in(rt: &impl Abort, image: &Image, seals: &[Sector; 2], from: u16, body: &[u8]) {
    check_journals(rt, image, 2, &seals[0]);
    check_journals(rt, image, 3, &seals[1]);
    assert!(rt; body.len() <= 256);
    for i in 0..body.len() {
        check_journals(rt, image, from as usize + i, &[body[i]; 512]);
    }
}

// Checks them in what a crash now leaves, whatever has landed.
fn check_entry(
    rt: &(impl Abort + AllocGlobal),
    bank: &MemBank,
    seals: &[Sector; 2],
    from: u16,
    body: &[u8],
) {
    check_entry_in(rt, &image_now(rt, bank, Choice::Oldest), seals, from, body);
    check_entry_in(rt, &image_now(rt, bank, Choice::Newest), seals, from, body);
}

// Checks two commits of row 32 to a set that was just made.
fn check_two_entries(rt: &(impl Abort + AllocGlobal), array: &mut Array<MemBank>) {
    commit(rt, array, &[(64, 0x22)]);
    same(rt, array.entry, 1);
    // It holds the parity, on member 1, which is the data here, and the data, on member 2.
    let first = seal_of(rt, 1, &[(32, 0x06)]);
    check_entry(rt, &array.bank, &[BLANK, first], 264, &[0x22, 0x22, 0]);
    // The next entry stands in the other half, and the first one stays.
    commit(rt, array, &[(72, 0x05)]);
    same(rt, array.entry, 2);
    let seals = [seal_of(rt, 2, &[(32, 0x03)]), first];
    check_entry(rt, &array.bank, &seals, 8, &[0x05, 0x27, 0]);
    check_entry(rt, &array.bank, &seals, 264, &[0x22, 0x22, 0]);
}

// Checks a commit of all of row 32, and of one sector of row 33, to a set that was just made.
fn check_two_rows(rt: &(impl Abort + AllocGlobal), array: &mut Array<MemBank>) {
    commit(rt, array, &[(64, 0x22), (65, 0x77), (72, 0x05)]);
    same(rt, array.entry, 1);
    let seals = [BLANK, seal_of(rt, 1, &[(32, 0x07), (33, 0x06)])];
    let body = [0x05, 0x27, 0x22, 0x77, 0x77, 0];
    check_entry(rt, &array.bank, &seals, 264, &body);
}

#[test]
fn first_entry(rt: HostRuntime) {
    let mut array = made(&rt, SET_A);
    same(&rt, array.bank.now(), calls_of_make(3, 256));
    check_two_entries(&rt, &mut array);
    check_two_rows(&rt, &mut made(&rt, SET_A));
}

/// So many logical sectors, of `list_of` what it takes.
pub(crate) type Run = (usize, u16, u16, u8);

// Checks all logical sectors of a set that is assembled again with the device that a slot had when the set was made.
fn check_with_old(
    rt: &(impl Abort + AllocGlobal),
    bank: &MemBank,
    shape: Shape,
    missing: usize,
    list: List,
) {
    let mut image = image_now(rt, bank, Choice::Newest);
    put_from(rt, &mut image, missing, fresh(rt, shape));
    same(rt, checked(rt, image, missing, list).table.generation, 2);
}

// Checks all logical sectors of an array: by reads, and by reads of the set assembled again on what is safe. Where a
// slot is missing, also with the device that the slot had when the set was made.
fn check_all(
    rt: &(impl Abort + AllocGlobal),
    array: &mut Array<MemBank>,
    shape: Shape,
    missing: usize,
    list: List,
) {
    check_sectors(rt, array, list);
    let image = image_now(rt, &array.bank, Choice::Oldest);
    let _ = checked(rt, image, missing, list);
    if missing < 10 {
        check_with_old(rt, &array.bank, shape, missing, list);
    }
}

// An array of a set of this shape that was just made, assembled without a slot, or as it was made where that is 10.
fn begin(rt: &(impl Abort + AllocGlobal), shape: Shape, missing: usize) -> Array<MemBank> {
    if missing >= 10 {
        return made(rt, shape);
    }
    checked(rt, fresh_without(rt, shape, missing), missing, &[])
}

// Commits a run of sectors, and puts it at its places among all logical sectors.
fn commit_run(
    rt: &(impl Abort + AllocGlobal),
    array: &mut Array<MemBank>,
    all_sectors: &mut [(u64, u8)],
    run: &Run,
) {
    let (count, first, step, salt) = *run;
    let list = list_of(first, step, salt);
    assert!(rt; count <= 32);
    commit(rt, array, &list[..count]);
    put_list(rt, all_sectors, &list[..count]);
}

// Checks commits of runs of sectors, one after another, to an array of which all logical sectors are zeros.
fn check_runs(
    rt: &(impl Abort + AllocGlobal),
    array: &mut Array<MemBank>,
    shape: Shape,
    missing: usize,
    runs: &[Run],
) {
    let mut all_sectors = zeros(rt, shape);
    for run in runs {
        commit_run(rt, array, &mut all_sectors, run);
        check_all(rt, array, shape, missing, &all_sectors);
    }
}

// Checks that all rows of an array are sound, each by the members alone, too.
fn check_each_row(rt: &(impl Abort + AllocGlobal), array: &Array<MemBank>) {
    for row in 0..array.table.geometry.rows() {
        check_members(rt, &array.bank, &[row], &[]);
    }
}

/// Checks commits of runs of sectors, one after another, to a set of this shape, of which a slot is missing if it is
/// one of the set's. All rows are sound in the end, where all slots are there.
pub(crate) fn check_commits(
    rt: &(impl Abort + AllocGlobal),
    shape: Shape,
    missing: usize,
    runs: &[Run],
) {
    let mut array = begin(rt, shape, missing);
    check_runs(rt, &mut array, shape, missing, runs);
    if missing >= 10 {
        check_each_row(rt, &array);
    }
}

#[test]
fn commits_of_1_2_and_32_sectors(rt: HostRuntime) {
    for shape in [(3, 8, 8), (4, 8, 6), (8, 8, 4)] {
        let runs = [
            (1, 64, 1, 0x11),
            (2, 64, 8, 0x22),
            (32, 60, 1, 0x33),
            (2, 0, 127, 0x44),
            (32, 3, 4, 0x55),
            (1, 67, 1, 0x66),
        ];
        check_commits(&rt, shape, 10, &runs);
    }
}

// Puts a number in place of that of the seal in sector 3 of both journals of set A.
fn number_seals(rt: &impl Abort, image: &mut Image, number: u64) {
    for slot in [3, 4] {
        let mut seal = sector_of(rt, image, slot, 3);
        seal[24..32].copy_from_slice(&number.to_le_bytes());
        put_sector(rt, image, slot, 3, &seal);
    }
}

// The devices of set A, whose one entry has this number.
fn numbered(rt: &(impl Abort + AllocGlobal), number: u64) -> Image {
    let mut array = made(rt, SET_A);
    commit(rt, &mut array, &[(64, 0x11)]);
    let mut image = image_now(rt, &array.bank, Choice::Newest);
    number_seals(rt, &mut image, number);
    image
}

// Asks that an array refuses a commit, since its number stands at the limit, and that nothing is changed then.
fn check_worn(rt: &(impl Abort + AllocGlobal), array: &mut Array<MemBank>, limit: u64) {
    let before = image_now(rt, &array.bank, Choice::Newest);
    let (calls, room) = (array.bank.now(), array.bank.room);
    same(
        rt,
        answer_of_commit(rt, array, &[(64, 0x33)]),
        Err(Refusal::Worn),
    );
    let left = (array.entry, array.bank.now(), array.bank.room);
    same(rt, left, (limit, calls, room));
    let now = image_now(rt, &array.bank, Choice::Newest);
    assert!(rt; now.slots == before.slots);
    check_sectors(rt, array, &[(64, 0x22)]);
}

#[test]
fn entry_number_at_its_limit(rt: HostRuntime) {
    let limit = 1u64 << 62;
    let mut array = assembled(&rt, numbered(&rt, limit - 1));
    same(&rt, array.entry, limit - 1);
    commit(&rt, &mut array, &[(64, 0x22)]);
    same(&rt, array.entry, limit);

    let mut array = assembled(&rt, image_now(&rt, &array.bank, Choice::Newest));
    same(&rt, array.entry, limit);
    check_worn(&rt, &mut array, limit);
}
