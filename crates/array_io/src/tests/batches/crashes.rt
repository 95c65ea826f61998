//! Crashes at each device call of a batch, and of rows that are made zero, in a set of 3 members with chunks of 8
//! sectors. Stripe 4 has its parity on member 1, stripe 5 on member 0 and stripe 6 on member 2; logical sectors 64, 80
//! and 96 begin them, and rows 32, 40 and 48.
use super::set::{
    Stretch, array_on, bank_on, byte_at, commit_batch, commit_zero_sectors, commit_zeros, large, made,
    table_of,
};
use crate::Array;
use crate::oracle::{is_row_sound_in, logical_in};
use crate::testing::{BLANK, ID, all, holds, same};
use crate::tests::crashes::image_at;
use sector_model::{Bank, Choice, Image, MemBank, Sector};
use std::process::Abort;
use superblock::Table;
use superblock::oracle::chosen_table_in;

// While the seals are written, a crash after each call is asked about by all of them, and elsewhere by one of them, by
// turns.
const CHOICES: [Choice; 3] = [Choice::Oldest, Choice::Newest, Choice::Mixed(3)];

// What is written last.
#[derive(Clone, Copy)]
enum Written {
    // `BATCH`, by one batch.
    Batch,
    // Zeros into rows 36 to 51.
    Zeros,
    // Zeros into logical sectors 70 to 83.
    ZeroSectors,
}

// What stands on the set before, by an entry of its own: logical sectors 60 to 111.
const BEFORE: &[Stretch] = &[(60, 32, 1), (92, 20, 1)];

// Logical sectors 64 to 103: stripes 4 and 5, and the first chunk of stripe 6.
const BATCH: &[Stretch] = &[(64, 32, 2), (96, 8, 2)];

// A logical sector before.
fn old(logical: u64) -> Sector {
    if matches!(logical, 60..=111) {
        all(byte_at(1, logical))
    } else {
        BLANK
    }
}

// Whether a logical sector is written last. Rows 36 to 39 have the last four of both chunks of stripe 4, rows 48 to 51
// the first four of both chunks of stripe 6.
fn is_written(written: Written, logical: u64) -> bool {
    match written {
        Written::Batch => matches!(logical, 64..=103),
        Written::Zeros => matches!(logical, 68..=71 | 76..=99 | 104..=107),
        Written::ZeroSectors => matches!(logical, 70..=83),
    }
}

// A logical sector after.
fn new(written: Written, logical: u64) -> Sector {
    if !is_written(written, logical) {
        return old(logical);
    }
    match written {
        Written::Batch => all(byte_at(2, logical)),
        Written::Zeros | Written::ZeroSectors => BLANK,
    }
}

// Which list images stand for: the old one, the new one, or either.
#[derive(Clone, Copy)]
enum Stage {
    Old,
    Either,
    New,
}

// A writing, and the device calls that it takes: those after which both bodies are safe, the first of the seals, and
// both of them, and all of its calls. Rows and logical sectors are looked at where what is written begins and ends, in
// its stripes and in its chunks.
struct Case {
    written: Written,
    bodies: u64,
    one_seal: u64,
    seals: u64,
    end: u64,
    rows: &'static [u64],
    logical: &'static [u64],
}

// Of the batch 8 rows take one read each. A body has 16 rows of 3 sectors and 8 of 2; of these 24, 16 and 24 are on the
// members. Each body, each seal and each member's rows end with a flush.
const OF_BATCH: Case = Case {
    written: Written::Batch,
    bodies: 138,
    one_seal: 140,
    seals: 142,
    end: 209,
    rows: &[31, 32, 47, 48, 55],
    logical: &[63, 64, 79, 80, 96, 103, 104],
};

// Zeros take no read and no body, and 16 sectors on each member.
const OF_ZEROS: Case = Case {
    written: Written::Zeros,
    bodies: 2,
    one_seal: 4,
    seals: 6,
    end: 57,
    rows: &[35, 36, 43, 51, 52],
    logical: &[67, 68, 75, 76, 80, 99, 100, 104, 107, 108],
};

// Sectors 70 and 71 lie on member 2 in rows 38 and 39, sectors 72 to 79 on member 0 in rows 32 to 39, and sectors 80 to
// 83 on member 1 in rows 40 to 43. Of rows 32 to 37 and of the last four one sector is read. A body has 2 rows of 3
// sectors and 10 of 2; of these 12, 12 and 2 are on the members.
const OF_ZERO_SECTORS: Case = Case {
    written: Written::ZeroSectors,
    bodies: 64,
    one_seal: 66,
    seals: 68,
    end: 97,
    rows: &[31, 32, 37, 38, 40, 43, 44],
    logical: &[69, 70, 71, 72, 79, 80, 83, 84],
};

// Which list the images of a crash after so many calls of the writing stand for.
fn stage_after(case: &Case, calls: u64) -> Stage {
    if calls <= case.bodies {
        Stage::Old
    } else if calls < case.seals {
        Stage::Either
    } else {
        Stage::New
    }
}

// Whether the rows that are looked at are sound.
fn are_sound(rt: &impl Abort, image: &Image, table: &Table, rows: &[u64]) -> bool {
    for row in rows {
        assert!(rt; *row < table.geometry.rows());
        if !is_row_sound_in(image, table, *row) {
            return false;
        }
    }
    true
}

// Whether the logical sectors are the old ones, or the new ones.
fn has_list(rt: &impl Abort, image: &Image, table: &Table, case: &Case, is_new: bool) -> bool {
    for logical in case.logical {
        assert!(rt; *logical < table.geometry.data_sectors());
        let mut sector = all(0xee);
        logical_in(image, table, *logical, &mut sector);
        let wanted = if is_new {
            new(case.written, *logical)
        } else {
            old(*logical)
        };
        if sector != wanted {
            return false;
        }
    }
    true
}

// Whether an image chooses this table, and stands for a list of this stage.
fn holds_in(rt: &impl Abort, image: &Image, table: &Table, case: &Case, stage: Stage) -> bool {
    chosen_table_in(image, &ID) == Some(*table)
        && are_sound(rt, image, table, case.rows)
        && match stage {
            Stage::Old => has_list(rt, image, table, case, false),
            Stage::New => has_list(rt, image, table, case, true),
            Stage::Either => {
                has_list(rt, image, table, case, false) || has_list(rt, image, table, case, true)
            }
        }
}

// The same of the image without a slot, which is put back.
fn holds_without(
    rt: &impl Abort,
    image: &mut Image,
    slot: usize,
    table: &Table,
    case: &Case,
    stage: Stage,
) -> bool {
    assert!(rt; slot < image.slots.len());
    let content = image.slots[slot].take();
    let is_so = holds_in(rt, image, table, case, stage);
    image.slots[slot] = content;
    is_so
}

// Asks that an image, whole and without any one slot, stands for a list of this stage.
fn check_image(
    rt: &impl Abort,
    mut image: Image,
    table: &Table,
    calls: u64,
    case: &Case,
    stage: Stage,
) {
    let is_so = holds_in(rt, &image, table, case, stage);
    holds(rt, "crash after call", (calls, 0), is_so);
    for slot in 0..5usize {
        let is_so = holds_without(rt, &mut image, slot, table, case, stage);
        holds(
            rt,
            "crash after call, without slot",
            (calls, slot as u64),
            is_so,
        );
    }
}

// Asks this of images that a crash after so many calls may leave.
fn check_crash(
    rt: &(impl Abort + AllocGlobal),
    bank: &MemBank,
    table: &Table,
    calls: u64,
    case: &Case,
    stage: Stage,
) {
    for (turn, choice) in CHOICES.iter().enumerate() {
        if matches!(stage, Stage::Either) || calls % 3 == turn as u64 {
            let image = image_at(rt, bank, calls, *choice);
            check_image(rt, image, table, calls, case, stage);
        }
    }
}

// Once the first seal alone is safe, the image stands for the new list, and without that journal for the old one.
fn check_one_seal(
    rt: &(impl Abort + AllocGlobal),
    bank: &MemBank,
    table: &Table,
    calls: u64,
    case: &Case,
) {
    let mut image = image_at(rt, bank, calls, Choice::Oldest);
    assert!(rt; holds_in(rt, &image, table, case, Stage::New));
    assert!(rt; holds_without(rt, &mut image, 3, table, case, Stage::Old));
    assert!(rt; holds_without(rt, &mut image, 4, table, case, Stage::New));
}

fn write(rt: &(impl Abort + AllocGlobal), array: &mut Array<MemBank>, written: Written) {
    match written {
        Written::Batch => commit_batch(rt, array, BATCH, 40),
        Written::Zeros => commit_zeros(rt, array, 36, 16),
        Written::ZeroSectors => commit_zero_sectors(rt, array, &[(70, 14)]),
    }
}

// Writes, and asks about a crash after each number of its calls from one to another.
fn check(rt: &(impl Abort + AllocGlobal), case: &Case, from: u64, end: u64) {
    let set = large(3, 8, 8);
    let table = table_of(rt, &set);
    let mut array = array_on(rt, &set, bank_on(rt, made(rt, &set)));
    commit_batch(rt, &mut array, BEFORE, 52);
    let first = array.bank.now();
    write(rt, &mut array, case.written);
    let bank = array.into_bank();
    same(rt, bank.now().checked_sub(first), Some(case.end));
    for calls in from..=end {
        let stage = stage_after(case, calls);
        check_crash(rt, &bank, &table, first.wrapping_add(calls), case, stage);
    }
    let one_seal = first.wrapping_add(case.one_seal);
    check_one_seal(rt, &bank, &table, one_seal, case);
}

#[test]
fn batch_is_old_while_its_first_body_is_written(rt: HostRuntime) {
    check(&rt, &OF_BATCH, 0, 73);
}

#[test]
fn batch_is_old_or_new_until_it_is_sealed_twice(rt: HostRuntime) {
    check(&rt, &OF_BATCH, 74, 142);
}

#[test]
fn batch_is_new_while_the_members_are_written(rt: HostRuntime) {
    check(&rt, &OF_BATCH, 143, 209);
}

#[test]
fn zeros_are_written_whole_or_not_at_all(rt: HostRuntime) {
    check(&rt, &OF_ZEROS, 0, 57);
}

#[test]
fn zero_sectors_are_old_while_their_bodies_are_written(rt: HostRuntime) {
    check(&rt, &OF_ZERO_SECTORS, 0, 64);
}

#[test]
fn zero_sectors_are_zero_once_they_are_sealed(rt: HostRuntime) {
    check(&rt, &OF_ZERO_SECTORS, 65, 97);
}
