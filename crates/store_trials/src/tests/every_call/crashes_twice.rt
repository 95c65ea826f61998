//! A crash in the list, and a second one at each device call of the assembly that follows, with the same slot absent:
//! the assembly after it gives the volumes that the first one gave.
use super::super::{NO_SLOT, again, check_missing};
use super::crashes::{FIRST_CRASHES, all_done, events_shown};
use super::{shown, wanted};
use crate::testing::same;
use sector_model::{Bank, Choice, MemBank};
use std::process::Abort;

// A commit of the list: the first call of its seals, and how many sectors its entry holds for each member.
#[derive(Clone, Copy)]
struct Commit {
    seals: u64,
    held: [u64; 3],
}

// The commits. The first call of the seals lies after the reads and two bodies with a flush each: the commits begin at
// calls 30, 99, 121, 136, 214, 229, 258, 287, 309, 331, 440, 462 and 477, and read 6, 2, 1, 10, 1, 3, 3, 2, 2, 4, 2, 1
// and 7 sectors.
static COMMITS: [Commit; 13] = [
    // Rows 32 and 33 whole, and one block in each of 34 to 39, on member 2 with the parity on 1.
    Commit {
        seals: 30 + 6 + 2 * 19,
        held: [2, 8, 8],
    },
    // Sectors 1 and 3 of the table on member 0, with the parity on 2.
    Commit {
        seals: 99 + 2 + 2 * 5,
        held: [2, 0, 2],
    },
    // Row 33.
    Commit {
        seals: 121 + 1 + 2 * 3,
        held: [1, 1, 0],
    },
    // Rows 34 to 43.
    Commit {
        seals: 136 + 10 + 2 * 21,
        held: [10, 10, 0],
    },
    // Sector 1 of the table.
    Commit {
        seals: 214 + 1 + 2 * 3,
        held: [1, 0, 1],
    },
    // Rows 32 to 34.
    Commit {
        seals: 229 + 3 + 2 * 7,
        held: [0, 3, 3],
    },
    // Rows 64 to 66.
    Commit {
        seals: 258 + 3 + 2 * 7,
        held: [3, 3, 0],
    },
    Commit {
        seals: 287 + 2 + 2 * 5,
        held: [2, 0, 2],
    },
    Commit {
        seals: 309 + 2 + 2 * 5,
        held: [2, 0, 2],
    },
    // Rows 32 to 39 whole, and one block in each of 40 to 43.
    Commit {
        seals: 331 + 4 + 2 * 33,
        held: [12, 12, 8],
    },
    Commit {
        seals: 440 + 2 + 2 * 5,
        held: [2, 0, 2],
    },
    // Sector 1 of the table.
    Commit {
        seals: 462 + 1 + 2 * 3,
        held: [1, 0, 1],
    },
    // Sectors 0 to 24 of the table: rows 0 to 8 whole, and rows 9 to 15 without member 0.
    Commit {
        seals: UPGRADE_SEALS,
        held: [9, 16, 16],
    },
];

// The first call of the seals of the upgrade.
const UPGRADE_SEALS: u64 = 477 + 7 + 2 * 42;

// What the last entry of a journal holds for each member after so many calls, all of which have landed: its seal is so
// many calls after the first one of its commit's seals. Nothing where there is no entry.
fn held_after(calls: u64, after: u64) -> [u64; 3] {
    let mut held = [0; 3];
    for commit in &COMMITS {
        if commit.seals.saturating_add(after) < calls {
            held = commit.held;
        }
    }
    held
}

// How many calls put an entry on the members: a write of each sector and a flush of each member that has some, but none
// on the one that is absent.
fn put_calls(held: [u64; 3], absent: usize) -> u64 {
    let mut calls = 0u64;
    for member in 0..3usize {
        if member != absent && held[member] > 0 {
            calls = calls.saturating_add(held[member]).saturating_add(1);
        }
    }
    calls
}

// How many sectors an entry holds.
fn sectors_of(held: [u64; 3]) -> u64 {
    held[0].saturating_add(held[1]).saturating_add(held[2])
}

// Whether the table that is opened after so many calls, all of which have landed, has version 2: one journal that is
// there has the entry of the upgrade.
fn is_upgraded(calls: u64, absent: usize) -> bool {
    let seal = if absent == 3 {
        UPGRADE_SEALS + 2
    } else {
        UPGRADE_SEALS
    };
    seal < calls
}

// The calls of reading the table of volumes, without a slot or with all. In version 1 member 0 has sectors 0 to 7, and
// member 1 has 8 to 10. In version 2 member 0 has sectors 0 to 7 and 24, member 1 has 8 to 15, and member 2 has 16 to
// 23. A sector on the absent member takes a read of each other one.
fn open_calls(absent: usize, is_upgraded: bool) -> u64 {
    match (is_upgraded, absent) {
        (false, 0) => 3 + 2 * 8,
        (false, 1) => 8 + 2 * 3,
        (false, _) => 11,
        (true, 0) => 16 + 2 * 9,
        (true, 1 | 2) => 17 + 2 * 8,
        (true, _) => 25,
    }
}

// The calls of finding a set, without those of an entry. All there: two reads of each device, one for whether its table
// is stale, and two of seals of each journal. With a slot out: two reads of each of four devices, a table published on
// four, and the seals of the journals that are there.
fn found_calls(absent: usize) -> u64 {
    match absent {
        0 | 1 | 2 => 8 + 8 + 4,
        3 | 4 => 8 + 8 + 2,
        _ => 10 + 5 + 4,
    }
}

// The calls of assembling and opening the set after a crash by Newest. The upper journal's seal comes two calls after
// the lower's. So the last entry is the lower journal's, if that is there, and the upper one is stale where it does not
// have it: it gets the sectors, a seal and a flush after each.
fn assembly_calls(call: u64, absent: usize) -> u64 {
    let lower = held_after(call, 0);
    let upper = held_after(call, 2);
    let held = if absent == 3 { upper } else { lower };
    let read = sectors_of(held);
    let is_stale = absent != 3 && absent != 4 && lower != upper;
    let copied = if is_stale { read.saturating_add(3) } else { 0 };
    let calls = found_calls(absent)
        .saturating_add(read)
        .saturating_add(copied)
        .saturating_add(put_calls(held, absent));
    calls.saturating_add(open_calls(absent, is_upgraded(call, absent)))
}

// Checks the second crash at a call by each choice: so many events are shown, by the volumes and the version of their
// table. What fails is named by both calls.
fn check_second(
    rt: &(impl Abort + AllocGlobal),
    bank: &MemBank,
    crashes: (u64, u64),
    absent: usize,
    events: usize,
) -> u64 {
    let mut images = 0u64;
    for choice in [Choice::Oldest, Choice::Newest, Choice::Mixed(3)] {
        let mut store = again(rt, bank, crashes.1, choice, absent);
        check_missing(rt, &store, crashes.1 as usize, absent);
        let got = shown(rt, &mut store, events);
        same(
            rt,
            (crashes, absent, got),
            (crashes, absent, wanted(rt, events)),
        );
        images = images.saturating_add(1);
    }
    images
}

// Checks the second crashes at each call of the assembly that follows a crash. Gives how many there are.
fn check_first(rt: &(impl Abort + AllocGlobal), bank: &MemBank, call: u64, absent: usize) -> u64 {
    let mut store = again(rt, bank, call, Choice::Newest, absent);
    let end = store.bank().now();
    let calls = assembly_calls(call, absent);
    same(rt, (call, absent, end), (call, absent, calls));
    let events = events_shown(rt, &mut store, (call, absent));
    let mut images = 0u64;
    for second in 0..end.saturating_add(1) {
        let checked = check_second(rt, store.bank(), (call, second), absent, events);
        images = images.saturating_add(checked);
    }
    images
}

// Checks the second crashes for each first crash at a multiple of 16, from 0 to 608, with this slot absent if it is one
// of the set's.
fn check_crashes(rt: &(impl Abort + AllocGlobal), absent: usize, wanted: u64) {
    let store = all_done(rt);
    let mut images = 0u64;
    for step in 0..FIRST_CRASHES {
        let checked = check_first(rt, store.bank(), 16 * step, absent);
        images = images.saturating_add(checked);
    }
    same(rt, images, wanted);
}

// How many second crashes there are, by three choices: of k calls of an assembly there are k + 1. Of the 39 first
// crashes 36 find a table of version 1 and the last 3 one of version 2. Of all 5 find no entry; 2 find the first
// commit's, 2, 3, 2, 2, 2, 1, 2, 5, 3 and 1 those of the second to the eleventh, 6 that of the rename and 3 that of the
// upgrade. The first crash at 112 lies between the second commit's seals, and the upper journal lacks 4 sectors: 7
// calls. Each entry costs its sectors and what puts them on the members: a sector each and a flush of each member,
// without the absent one.
const NONE_ABSENT: u64 = 3
    * (36 * 31
        + 3 * 45
        + 2 * 39
        + (2 * 10 + 7)
        + 3 * 6
        + 2 * 42
        + 2 * 6
        + 2 * 14
        + 14
        + 2 * 10
        + 5 * 10
        + 3 * 67
        + 10
        + 6 * 6
        + 3 * 85);

const MEMBER_0_ABSENT: u64 = 3
    * (36 * 40
        + 3 * 55
        + 2 * 36
        + (2 * 7 + 7)
        + 3 * 4
        + 2 * 31
        + 2 * 4
        + 2 * 14
        + 10
        + 2 * 7
        + 5 * 7
        + 3 * 54
        + 7
        + 6 * 4
        + 3 * 75);

const MEMBER_1_ABSENT: u64 = 3
    * (36 * 35
        + 3 * 54
        + 2 * 30
        + (2 * 10 + 7)
        + 3 * 4
        + 2 * 31
        + 2 * 6
        + 2 * 10
        + 10
        + 2 * 10
        + 5 * 10
        + 3 * 54
        + 10
        + 6 * 6
        + 3 * 68);

const MEMBER_2_ABSENT: u64 = 3
    * (36 * 32
        + 3 * 54
        + 2 * 30
        + (2 * 7 + 7)
        + 3 * 6
        + 2 * 42
        + 2 * 4
        + 2 * 10
        + 14
        + 2 * 7
        + 5 * 7
        + 3 * 58
        + 7
        + 6 * 4
        + 3 * 68);

// The crash at 112 finds the first entry.
const LOWER_ABSENT: u64 = 3
    * (36 * 30
        + 3 * 44
        + 3 * 39
        + 10
        + 3 * 6
        + 2 * 42
        + 2 * 6
        + 2 * 14
        + 14
        + 2 * 10
        + 5 * 10
        + 3 * 67
        + 10
        + 6 * 6
        + 3 * 85);

const UPPER_ABSENT: u64 = 3
    * (36 * 30
        + 3 * 44
        + 2 * 39
        + 2 * 10
        + 3 * 6
        + 2 * 42
        + 2 * 6
        + 2 * 14
        + 14
        + 2 * 10
        + 5 * 10
        + 3 * 67
        + 10
        + 6 * 6
        + 3 * 85);

// 6,252 second crashes.
#[test]
fn second_crash_at_every_call(rt: HostRuntime) {
    check_crashes(&rt, NO_SLOT, NONE_ABSENT);
}

// 6,855.
#[test]
fn second_crash_without_member_0(rt: HostRuntime) {
    check_crashes(&rt, 0, MEMBER_0_ABSENT);
}

// 6,321.
#[test]
fn second_crash_without_member_1(rt: HostRuntime) {
    check_crashes(&rt, 1, MEMBER_1_ABSENT);
}

// 5,991.
#[test]
fn second_crash_without_member_2(rt: HostRuntime) {
    check_crashes(&rt, 2, MEMBER_2_ABSENT);
}

// 6,201.
#[test]
fn second_crash_without_the_lower_journal(rt: HostRuntime) {
    check_crashes(&rt, 3, LOWER_ABSENT);
}

// 6,114.
#[test]
fn second_crash_without_the_upper_journal(rt: HostRuntime) {
    check_crashes(&rt, 4, UPPER_ABSENT);
}
