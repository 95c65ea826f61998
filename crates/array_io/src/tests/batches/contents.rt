//! What the logical sectors and the rows are after a batch, and after rows were made zero: of a whole set, of one
//! without a member, and beside a member that is rebuilding. The set has 4 members and 4 stripes with chunks of 8
//! sectors: 96 logical sectors, 24 a stripe, in 32 rows.
use super::set::{
    Set, Stretch, array_on, bank_on, byte_at, commit_batch, commit_zero_sectors, commit_zeros,
    large, made,
};
use super::tally::{Calls, Tally, check_calls, tallied};
use crate::Array;
use crate::testing::{BLANK, all, check_sector, holds, put, same};
use parity::xor_into;
use sector_model::{Bank, Image, MemBank, Sector, read_sector};
use std::process::Abort;

// What is written.
#[derive(Clone, Copy)]
enum Written {
    // `STAGES`, by one batch.
    Batch,
    // Zeros into rows 5 to 18, which lie in stripes 0, 1 and 2.
    Zeros,
    // Zeros into `ZERO_SECTORS`.
    ZeroSectors,
}

// Logical sectors 18 to 33, and 60 to 70.
const ZERO_SECTORS: &[(u64, u32)] = &[(18, 16), (60, 11)];

// Logical sectors 20 to 70. Sectors 40 to 51 are staged twice, 30 and 31, and 59, too.
const STAGES: &[Stretch] = &[(20, 32, 1), (40, 20, 2), (30, 2, 3), (59, 12, 4)];

// Of what kind a logical sector is once the stages are written: what was staged last, and 0 where nothing was.
fn kind_of(logical: u64) -> u8 {
    match logical {
        20..=29 | 32..=39 => 1,
        30..=31 => 3,
        40..=58 => 2,
        59..=70 => 4,
        _ => 0,
    }
}

// Whether a logical sector lies in rows 5 to 18.
fn is_in_zeros(logical: u64) -> bool {
    match logical / 24 {
        0 => logical % 8 >= 5,
        1 => true,
        2 => logical % 8 <= 2,
        _ => false,
    }
}

// What a logical sector is then.
fn wanted(written: Written, logical: u64) -> Sector {
    match written {
        Written::Batch => all(byte_at(kind_of(logical), logical)),
        Written::Zeros if is_in_zeros(logical) => BLANK,
        Written::ZeroSectors if matches!(logical, 18..=33 | 60..=70) => BLANK,
        _ => all(byte_at(0, logical)),
    }
}

// A set, and the member that is out in it, with the row from which on the member's own sectors don't count.
#[derive(Clone, Copy)]
struct Case {
    set: Set,
    out: Option<(u8, u32)>,
}

fn whole() -> Case {
    Case {
        set: large(4, 8, 4),
        out: None,
    }
}

fn without(member: u8) -> Case {
    let mut set = large(4, 8, 4);
    set.slots.odd = member as usize;
    set.slots.state = 0;
    Case {
        set,
        out: Some((member, 0)),
    }
}

// The member is rebuilding, up to row 10.
fn rebuilding(member: u8) -> Case {
    let mut set = large(4, 8, 4);
    set.slots.odd = member as usize;
    set.slots.state = 2;
    set.slots.position = 10;
    Case {
        set,
        out: Some((member, 10)),
    }
}

// Puts each logical sector on its member, each of kind 0. Chunk c lies on member c mod 4, in stripe c div 3.
fn put_data(rt: &impl Abort, image: &mut Image) {
    for logical in 0..96usize {
        let chunk = logical / 8;
        let row = 8 * (chunk / 3) + logical % 8;
        let sector = all(byte_at(0, logical as u64));
        put(rt, image, chunk % 4, 8 + row, &sector);
    }
}

// Puts the parity of each row: of stripe s on member 3 - s.
fn put_parity(rt: &impl Abort, image: &mut Image) {
    for row in 0..32usize {
        let stripe = row / 8;
        let first = (24 * stripe + row % 8) as u64;
        let byte = byte_at(0, first) ^ byte_at(0, first + 8) ^ byte_at(0, first + 16);
        put(rt, image, 3 - stripe, 8 + row, &all(byte));
    }
}

// The array of a case, with all logical sectors of kind 0. What doesn't count is full of another byte.
fn array_of(rt: &(impl Abort + AllocGlobal), case: &Case) -> Array<Tally<MemBank>> {
    let mut image = made(rt, &case.set);
    put_data(rt, &mut image);
    put_parity(rt, &mut image);
    if let Some((member, from)) = case.out {
        for row in from..32 {
            put(
                rt,
                &mut image,
                member as usize,
                8 + row as usize,
                &all(0xee),
            );
        }
    }
    array_on(rt, &case.set, tallied(bank_on(rt, image)))
}

fn write<B: Bank>(rt: &(impl Abort + AllocGlobal), array: &mut Array<B>, written: Written) {
    match written {
        Written::Batch => commit_batch(rt, array, STAGES, 51),
        Written::Zeros => commit_zeros(rt, array, 5, 14),
        Written::ZeroSectors => commit_zero_sectors(rt, array, ZERO_SECTORS),
    }
}

// Asks for each logical sector, as it is read.
fn check_logical<B: Bank>(rt: &impl Abort, array: &mut Array<B>, written: Written) {
    for logical in 0..96u64 {
        assert!(rt; logical < array.table.geometry.data_sectors());
        let mut sector = all(0xee);
        same(rt, array.read(logical, &mut sector), Ok(()));
        let is_so = sector == wanted(written, logical);
        holds(rt, "logical sector", (logical, 0), is_so);
    }
}

// Asks that the members' sectors of a row XOR to zero.
fn check_sum(rt: &impl Abort, bank: &mut MemBank, row: u32) {
    let mut sum = BLANK;
    for member in 0..4u8 {
        let mut sector = all(0xee);
        assert!(rt; member < bank.devices() && row < 32 && 8 + row < bank.sectors(member));
        same(rt, read_sector(bank, member, 8 + row, &mut sector), Ok(()));
        xor_into(&mut sum, &sector);
    }
    holds(rt, "row", (u64::from(row), 0), sum == BLANK);
}

// Asks that each row is sound on the members, but for rows that don't count on a member: it was not written there.
fn check_rows(rt: &impl Abort, bank: &mut MemBank, out: Option<(u8, u32)>) {
    for row in 0..32u32 {
        match out {
            Some((member, from)) if row >= from => {
                check_sector(rt, bank, member, 8 + row, &all(0xee));
            }
            _ => check_sum(rt, bank, row),
        }
    }
}

// Writes in a case, and asks what all is then. Answers the bank, and the calls that the writing took.
fn check(rt: &(impl Abort + AllocGlobal), written: Written, case: &Case) -> (MemBank, Calls) {
    let mut array = array_of(rt, case);
    write(rt, &mut array, written);
    let calls = array.bank.calls;
    check_logical(rt, &mut array, written);
    let mut bank = array.into_bank().bank;
    check_rows(rt, &mut bank, case.out);
    (bank, calls)
}

// Rows 4 to 7 change on member 2, with the parity on member 3: their old values are read. Rows 8 to 22 are given whole,
// and of row 23 all but member 0's sector, which is read.
const BATCH_CALLS: Calls = Calls {
    reads: [1, 0, 4, 4, 0, 0, 0, 0, 0, 0],
    writes: [15, 16, 20, 20, 72, 72, 0, 0, 0, 0],
    flushes: [1, 1, 1, 1, 2, 2, 0, 0, 0, 0],
};

// Row 14 has logical 30, 38 and 46 on members 3, 0 and 1: 3 + 5 * 30, 1 + 5 * 38 and 2 + 5 * 46. Row 23 has 55, 63 and
// 71 on members 2, 3 and 0: 2 + 5 * 5, 4 + 5 * 13 and 5 * 21. The parity is their XOR.
const BATCH_SECTORS: &[(u8, u32, u8)] = &[
    (3, 22, 0x99),
    (0, 22, 0xbf),
    (1, 22, 0xe8),
    (2, 22, 0xce),
    (2, 31, 0x1b),
    (3, 31, 0x45),
    (0, 31, 0x69),
    (1, 31, 0x37),
];

#[test]
fn what_is_staged_last_is_written(rt: HostRuntime) {
    let (mut bank, calls) = check(&rt, Written::Batch, &whole());
    check_calls(&rt, &calls, &BATCH_CALLS);
    for (member, at, byte) in BATCH_SECTORS {
        check_sector(&rt, &mut bank, *member, *at, &all(*byte));
    }
}

#[test]
fn batch_without_a_member(rt: HostRuntime) {
    for member in 0..4u8 {
        let _ = check(&rt, Written::Batch, &without(member));
    }
}

#[test]
fn batch_beside_a_rebuilding_member(rt: HostRuntime) {
    for member in 0..4u8 {
        let _ = check(&rt, Written::Batch, &rebuilding(member));
    }
}

const ZEROS_CALLS: Calls = Calls {
    reads: [0; 10],
    writes: [14, 14, 14, 14, 1, 1, 0, 0, 0, 0],
    flushes: [1, 1, 1, 1, 2, 2, 0, 0, 0, 0],
};

#[test]
fn rows_of_three_stripes_are_zero(rt: HostRuntime) {
    let (mut bank, calls) = check(&rt, Written::Zeros, &whole());
    check_calls(&rt, &calls, &ZEROS_CALLS);
    for row in 5..19u32 {
        for member in 0..4u8 {
            check_sector(&rt, &mut bank, member, 8 + row, &BLANK);
        }
    }
}

#[test]
fn zeros_without_a_member(rt: HostRuntime) {
    for member in 0..4u8 {
        let _ = check(&rt, Written::Zeros, &without(member));
    }
}

#[test]
fn zeros_beside_a_rebuilding_member(rt: HostRuntime) {
    for member in 0..4u8 {
        let _ = check(&rt, Written::Zeros, &rebuilding(member));
    }
}

// Stripe 0 has rows 2 to 7 on member 2, with the parity on member 3. Stripe 1 has rows 8 to 15 on member 3 and 8 and 9
// on member 0, with the parity on member 2; stripe 2 has rows 20 to 23 on member 3 and 16 to 22 on member 0, with the
// parity on member 1. Of a row in which one of them lies two old values are read, and of the others, 8, 9 and 20 to 22,
// the one sector that stays.
const ZERO_SECTORS_CALLS: Calls = Calls {
    reads: [4, 7, 15, 13, 0, 0, 0, 0, 0, 0],
    writes: [9, 8, 14, 18, 50, 50, 0, 0, 0, 0],
    flushes: [1, 1, 1, 1, 2, 2, 0, 0, 0, 0],
};

#[test]
fn sectors_that_are_listed_become_zero(rt: HostRuntime) {
    let (_, calls) = check(&rt, Written::ZeroSectors, &whole());
    check_calls(&rt, &calls, &ZERO_SECTORS_CALLS);
}

#[test]
fn zero_sectors_without_a_member(rt: HostRuntime) {
    for member in 0..4u8 {
        let _ = check(&rt, Written::ZeroSectors, &without(member));
    }
}

#[test]
fn zero_sectors_beside_a_rebuilding_member(rt: HostRuntime) {
    for member in 0..4u8 {
        let _ = check(&rt, Written::ZeroSectors, &rebuilding(member));
    }
}
