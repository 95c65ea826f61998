//! Device calls of batches and of rows that are made zero, counted slot by slot. Stripe s of a set of N members has its
//! parity on member N - 1 - s mod N, and chunk c lies on member c mod N, in stripe c div (N - 1).
use crate::testing::{ID, all, check_sector, same};
use sector_model::{MemBank, Sector};
use std::process::Abort;

mod contents;
mod crashes;
mod set;
mod tally;

use set::{
    Set, Stretch, array_on, bank_on, commit, commit_batch, commit_full_batch, commit_zero_sectors,
    commit_zeros, large, made, small,
};
use tally::{Calls, Tally, check_calls, tallied};

// An array of the set, all zero, whose calls are counted.
type Counted = crate::Array<Tally<MemBank>>;

fn counted(rt: &(impl Abort + AllocGlobal), set: &Set) -> Counted {
    array_on(rt, set, tallied(bank_on(rt, made(rt, set))))
}

// The seal of entry 1 of form Runs, with these runs, 1 or 2: the first row of each, how many rows, and the mask.
fn seal_of_runs(runs: &[(u16, u16, u8); 2], count: u8) -> Sector {
    let mut sector = all(0);
    sector[..8].copy_from_slice(b"RAID5JE3");
    sector[8..24].copy_from_slice(&ID);
    sector[24] = 1;
    sector[32] = count;
    for i in 0..2 {
        let at = 40 + 8 * i;
        sector[at..at + 2].copy_from_slice(&runs[i].0.to_le_bytes());
        sector[at + 5..at + 7].copy_from_slice(&runs[i].1.to_le_bytes());
        sector[at + 7] = runs[i].2;
    }
    sector[504..].copy_from_slice(b"3EJ5DIAR");
    sector
}

// Asks for these calls, and for entry 1 with this seal on the journals, which are in this slot and the next.
fn check_entry(rt: &impl Abort, array: Counted, calls: &Calls, journal: u8, seal: &Sector) {
    same(rt, array.entry, 1);
    let mut bank = array.into_bank();
    check_calls(rt, &bank.calls, calls);
    assert!(rt; journal < 10);
    check_sector(rt, &mut bank.bank, journal, 3, seal);
    check_sector(rt, &mut bank.bank, journal + 1, 3, seal);
}

// 512 rows, and a body of 2,560 sectors.
const WHOLE_STRIPES: Calls = Calls {
    reads: [0; 10],
    writes: [512, 512, 512, 512, 512, 2_561, 2_561, 0, 0, 0],
    flushes: [1, 1, 1, 1, 1, 2, 2, 0, 0, 0],
};

// Logical 64 begins stripe 2 of 32 blocks, and stripe 1 of 64 blocks: row 16 in both.
#[test]
fn whole_stripes_are_not_read(rt: HostRuntime) {
    let seal = seal_of_runs(&[(16, 512, 0x1f), (0, 0, 0)], 1);
    let mut array = counted(&rt, &large(5, 8, 80));
    commit_full_batch(&rt, &mut array, 64, 1);
    check_entry(&rt, array, &WHOLE_STRIPES, 5, &seal);
    let mut array = counted(&rt, &large(5, 16, 40));
    commit_full_batch(&rt, &mut array, 64, 1);
    check_entry(&rt, array, &WHOLE_STRIPES, 5, &seal);
}

// Of 2,048 blocks 2,040 fill 85 stripes of 24, from row 24 to 703. The others are one chunk of stripe 88, on member 0
// with the parity on member 3: of each row the two old values, as many as the others.
const ONE_CHUNK_MORE: Calls = Calls {
    reads: [8, 0, 0, 8, 0, 0, 0, 0, 0, 0],
    writes: [688, 680, 680, 688, 2_737, 2_737, 0, 0, 0, 0],
    flushes: [1, 1, 1, 1, 2, 2, 0, 0, 0, 0],
};

// 2,016 blocks fill 42 stripes of 48, from row 32 to 703. The others are two chunks of stripe 44, on members 0 and 1
// with the parity on member 3: of each row the third one is read.
const TWO_CHUNKS_MORE: Calls = Calls {
    reads: [0, 0, 16, 0, 0, 0, 0, 0, 0, 0],
    writes: [688, 688, 672, 688, 2_737, 2_737, 0, 0, 0, 0],
    flushes: [1, 1, 1, 1, 2, 2, 0, 0, 0, 0],
};

#[test]
fn last_stripe_is_read_as_its_rows_need(rt: HostRuntime) {
    let mut array = counted(&rt, &large(4, 8, 90));
    commit_full_batch(&rt, &mut array, 72, 1);
    let seal = seal_of_runs(&[(24, 680, 0x0f), (704, 8, 0x09)], 2);
    check_entry(&rt, array, &ONE_CHUNK_MORE, 4, &seal);
    let mut array = counted(&rt, &large(4, 16, 45));
    commit_full_batch(&rt, &mut array, 96, 1);
    let seal = seal_of_runs(&[(32, 672, 0x0f), (704, 16, 0x0b)], 2);
    check_entry(&rt, array, &TWO_CHUNKS_MORE, 4, &seal);
}

// Every thirteenth chunk, 13 k: on member 3 k mod 5, in stripes 0, 3, 6, 9, 13 .. 48.
const FAR_APART: &[Stretch] = &[
    (0, 8, 1),
    (104, 8, 1),
    (208, 8, 1),
    (312, 8, 1),
    (416, 8, 1),
    (520, 8, 1),
    (624, 8, 1),
    (728, 8, 1),
    (832, 8, 1),
    (936, 8, 1),
    (1_040, 8, 1),
    (1_144, 8, 1),
    (1_248, 8, 1),
    (1_352, 8, 1),
    (1_456, 8, 1),
    (1_560, 8, 1),
];

// Member 0 has four of the chunks, and the parity of four others. Each other member has three, and of three the parity.
const ON_FIVE: Calls = Calls {
    reads: [64, 48, 48, 48, 48, 0, 0, 0, 0, 0],
    writes: [64, 48, 48, 48, 48, 257, 257, 0, 0, 0],
    flushes: [1, 1, 1, 1, 1, 2, 2, 0, 0, 0],
};

// The first chunk of every fifth stripe: it is on member 0, and the parity on member 4.
const ON_ONE_MEMBER: &[Stretch] = &[
    (2_400, 8, 1),
    (160, 8, 1),
    (320, 8, 1),
    (480, 8, 1),
    (640, 8, 1),
    (800, 8, 1),
    (960, 8, 1),
    (1_120, 8, 1),
    (1_280, 8, 1),
    (1_440, 8, 1),
    (1_600, 8, 1),
    (1_760, 8, 1),
    (1_920, 8, 1),
    (2_080, 8, 1),
    (2_240, 8, 1),
    (0, 8, 1),
];

const ON_TWO: Calls = Calls {
    reads: [128, 0, 0, 0, 128, 0, 0, 0, 0, 0],
    writes: [128, 0, 0, 0, 128, 257, 257, 0, 0, 0],
    flushes: [1, 0, 0, 0, 1, 2, 2, 0, 0, 0],
};

#[test]
fn writes_far_apart_are_one_commit(rt: HostRuntime) {
    let mut array = counted(&rt, &large(5, 8, 80));
    commit_batch(&rt, &mut array, FAR_APART, 128);
    same(&rt, array.entry, 1);
    check_calls(&rt, &array.bank.calls, &ON_FIVE);
    let mut array = counted(&rt, &large(5, 8, 80));
    commit_batch(&rt, &mut array, ON_ONE_MEMBER, 128);
    same(&rt, array.entry, 1);
    check_calls(&rt, &array.bank.calls, &ON_TWO);
}

// Logical 64 is the first of stripe 2: on member 3, and the parity on member 2.
const OF_ONE_BLOCK: Calls = Calls {
    reads: [0, 0, 1, 1, 0, 0, 0, 0, 0, 0],
    writes: [0, 0, 1, 1, 0, 3, 3, 0, 0, 0],
    flushes: [0, 0, 1, 1, 0, 2, 2, 0, 0, 0],
};

#[test]
fn one_block_takes_what_a_commit_does(rt: HostRuntime) {
    for set in [small(5, 8, 32), large(5, 8, 32)] {
        let mut array = counted(&rt, &set);
        commit(&rt, &mut array, &(64, 1, 1));
        check_calls(&rt, &array.bank.calls, &OF_ONE_BLOCK);
        let mut array = counted(&rt, &set);
        commit_batch(&rt, &mut array, &[(64, 1, 1)], 1);
        check_calls(&rt, &array.bank.calls, &OF_ONE_BLOCK);
    }
}

// Of the journals the seals alone are written. They are flushed twice as ever, though there is no body.
const OF_ZEROS: Calls = Calls {
    reads: [0; 10],
    writes: [1_000, 1_000, 1_000, 1_000, 1_000, 1, 1, 0, 0, 0],
    flushes: [1, 1, 1, 1, 1, 2, 2, 0, 0, 0],
};

#[test]
fn zeros_take_no_read_and_no_body(rt: HostRuntime) {
    let mut array = counted(&rt, &large(5, 8, 130));
    commit_zeros(&rt, &mut array, 20, 1_000);
    let seal = seal_of_runs(&[(20, 1_000, 0), (0, 0, 0)], 1);
    check_entry(&rt, array, &OF_ZEROS, 5, &seal);
}

// Logical 512 begins stripe 1 of 512 blocks, in row 128: on member 4, and the parity on member 3. Of each of the rows
// 136 to 235 the two old values are read, of which there are fewer than of the others.
const OF_100_SECTORS: Calls = Calls {
    reads: [0, 0, 0, 100, 100, 0, 0, 0, 0, 0],
    writes: [0, 0, 0, 100, 100, 201, 201, 0, 0, 0],
    flushes: [0, 0, 0, 1, 1, 2, 2, 0, 0, 0],
};

#[test]
fn zero_sectors_of_one_stripe_are_one_commit(rt: HostRuntime) {
    let mut array = counted(&rt, &large(5, 128, 10));
    commit_zero_sectors(&rt, &mut array, &[(520, 100)]);
    let seal = seal_of_runs(&[(136, 100, 0x18), (0, 0, 0)], 1);
    check_entry(&rt, array, &OF_100_SECTORS, 5, &seal);
}

#[test]
fn zero_sectors_of_whole_rows_are_not_read(rt: HostRuntime) {
    let seal = seal_of_runs(&[(16, 512, 0x1f), (0, 0, 0)], 1);
    let mut array = counted(&rt, &large(5, 8, 80));
    commit_zero_sectors(&rt, &mut array, &[(64, 2_048)]);
    check_entry(&rt, array, &WHOLE_STRIPES, 5, &seal);
}

#[test]
fn one_zero_sector_takes_what_a_commit_does(rt: HostRuntime) {
    for set in [small(5, 8, 32), large(5, 8, 32)] {
        let mut array = counted(&rt, &set);
        commit_zero_sectors(&rt, &mut array, &[(64, 1)]);
        check_calls(&rt, &array.bank.calls, &OF_ONE_BLOCK);
    }
}

const NO_CALLS: Calls = Calls {
    reads: [0; 10],
    writes: [0; 10],
    flushes: [0; 10],
};

#[test]
fn no_zero_sector_takes_no_call(rt: HostRuntime) {
    for set in [small(5, 8, 32), large(5, 8, 32)] {
        let mut array = counted(&rt, &set);
        commit_zero_sectors(&rt, &mut array, &[]);
        check_calls(&rt, &array.bank.calls, &NO_CALLS);
        same(&rt, array.entry, 0);
    }
}
