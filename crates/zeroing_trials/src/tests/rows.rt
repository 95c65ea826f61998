//! What each commit of a zeroing holds, and where a crash between two of them leaves the blocks: worked rows.
//!
//! A row of a stripe has the mask of the members that the entry holds; of stripe s of N members the parity is on member
//! N-1 - s mod N, and the data come after it, in turn.
use super::sets::{ID, Shape};
use super::thin::Thin;
use super::{EXAMPLE, OF_FOUR, Run, ThinStore, bytes_from, bytes_of, filled, later, new_set};
use crate::testing::same;
use sector_model::{MemBank, Plan, Refusal, Sector};
use std::process::Abort;

/// A commit: the block after the last of its writes, and the runs of its seal.
pub(crate) type Commit<'a> = (u32, &'a [Run]);

/// How the volume `v` is made of a set's extents.
#[derive(Clone, Copy)]
pub(crate) enum Made {
    /// Of so many blocks, one extent after the other.
    InOrder(u32),
    /// In extents 5, 3, 4 and 9, of 16 blocks.
    Falling,
    /// In extents 0, 2, 4 and so on, so many of 24 blocks.
    EveryOther(u32),
}

/// A range of blocks of the volume `v`, and the commits that make it zero.
#[derive(Clone, Copy)]
pub(crate) struct Row<'a> {
    pub shape: Shape,
    pub made: Made,
    pub at: u32,
    pub count: u32,
    pub commits: &'a [Commit<'a>],
}

// Makes a volume.
fn create(rt: &(impl Abort + AllocGlobal), store: &mut ThinStore, name: &[u8], blocks: u32) {
    same(rt, store.create(name, blocks), Ok(()));
}

// Adds blocks to a volume.
fn extend(rt: &(impl Abort + AllocGlobal), store: &mut ThinStore, name: &[u8], by: u32) {
    same(rt, store.extend(name, by), Ok(()));
}

// Makes the volume `v` in extents 5, 3, 4 and 9 of 28: `p` has 0 to 2, `q` has 3 and 4, `r` has 6 to 8, `s` has 9 and
// `t` the others, so that no clean one is left, and `v` then gets what `q` and `s` had.
fn make_falling(rt: &(impl Abort + AllocGlobal), store: &mut ThinStore) {
    create(rt, store, b"p", 48);
    create(rt, store, b"q", 32);
    create(rt, store, b"v", 16);
    create(rt, store, b"r", 48);
    create(rt, store, b"s", 16);
    create(rt, store, b"t", 288);
    same(rt, store.remove(b"q"), Ok(()));
    extend(rt, store, b"v", 32);
    same(rt, store.remove(b"s"), Ok(()));
    extend(rt, store, b"v", 16);
}

// Makes the volume `v` in so many extents of 24 blocks with an even number, and `w` in those between.
fn make_every_other(rt: &(impl Abort + AllocGlobal), store: &mut ThinStore, extents: u32) {
    create(rt, store, b"v", 24);
    create(rt, store, b"w", 24);
    for _ in 1..extents.max(1) {
        extend(rt, store, b"v", 24);
        extend(rt, store, b"w", 24);
    }
}

impl Made {
    // How many blocks the volume has.
    fn blocks(self) -> u32 {
        match self {
            Made::InOrder(blocks) => blocks,
            Made::Falling => 64,
            Made::EveryOther(extents) => extents.saturating_mul(24),
        }
    }

    // The devices of a set with the volume, of whose blocks none is zero.
    fn devices(self, rt: &(impl Abort + AllocGlobal), shape: Shape) -> Thin<MemBank> {
        let mut store = new_set(rt, shape);
        match self {
            Made::InOrder(blocks) => create(rt, &mut store, b"v", blocks),
            Made::Falling => make_falling(rt, &mut store),
            Made::EveryOther(extents) => make_every_other(rt, &mut store, extents),
        }
        filled(rt, store, self.filled())
    }

    // How many blocks lie in the extents from the first up to the last that has a volume.
    fn filled(self) -> u32 {
        match self {
            Made::InOrder(blocks) => blocks,
            Made::Falling => 448,
            Made::EveryOther(extents) => extents.saturating_mul(48),
        }
    }
}

// Puts bytes into a sector from a place on.
fn put(sector: &mut Sector, at: usize, bytes: &[u8]) {
    let end = at.saturating_add(bytes.len());
    if end <= 512 {
        sector[at..end].copy_from_slice(bytes);
    }
}

/// The seal of an entry of this number with these runs.
pub(crate) fn seal_of(number: u64, runs: &[Run]) -> Sector {
    let mut sector = [0; 512];
    put(&mut sector, 0, b"RAID5JE3");
    put(&mut sector, 8, &ID);
    put(&mut sector, 24, &number.to_le_bytes());
    put(&mut sector, 32, &(runs.len().min(58) as u32).to_le_bytes());
    let mut at = 40usize;
    for (first, length, mask) in runs {
        put(&mut sector, at, &first.to_le_bytes()[..5]);
        put(&mut sector, at.saturating_add(5), &length.to_le_bytes());
        put(&mut sector, at.saturating_add(7), &[*mask]);
        at = at.saturating_add(8);
    }
    put(&mut sector, 504, b"3EJ5DIAR");
    sector
}

/// Asks that the seals which a bank was told are those of entries with these runs, from the one after `last` on, and so
/// many others after them.
pub(crate) fn check_seals(
    rt: &(impl Abort + AllocGlobal),
    store: &ThinStore,
    last: u64,
    (commits, others): (&[Commit], usize),
) {
    let seals = &store.array.bank.notes.seals;
    same(rt, seals.len(), commits.len().saturating_add(others));
    let mut number = last;
    for at in 0..commits.len().min(seals.len()) {
        number = number.saturating_add(1);
        let is_so = seals[at].sector == seal_of(number, commits[at].1);
        same(rt, (at, is_so), (at, true));
    }
}

// The first of up to 32 blocks of `v` that is not as it has to be: zero from block `at` to `end` - 1, and else as it
// was.
fn unlike_among(
    rt: &(impl Abort + AllocGlobal),
    store: &mut ThinStore,
    first: u32,
    before: &[u8],
    (at, end): (u32, u32),
) -> Option<u32> {
    assert!(rt; before.len() <= 32);
    let bytes = bytes_from(rt, store, b"v", first, before.len() as u32);
    same(rt, bytes.len(), before.len());
    let mut block = first;
    for place in 0..before.len().min(bytes.len()) {
        let is_within = at <= block && block < end;
        let wanted = if is_within { 0 } else { before[place] };
        if bytes[place] != wanted {
            return Some(block);
        }
        block = block.saturating_add(1);
    }
    None
}

// The first block of `v` that is not as it has to be. Of large volumes those around the first and last that are zero
// are looked at, and of the others a ninth.
fn unlike_zeroed(
    rt: &(impl Abort + AllocGlobal),
    store: &mut ThinStore,
    before: &[u8],
    at: u32,
    end: u32,
) -> Option<u32> {
    let apart = if before.len() <= 8_192 { 1 } else { 9 };
    let mut number = 0u32;
    for some in before.chunks(32) {
        let first = number.saturating_mul(32);
        let is_near = is_beside(first, at) || is_beside(first, end);
        if is_near || number % apart == 0 {
            let unlike = unlike_among(rt, store, first, some, (at, end));
            if unlike.is_some() {
                return unlike;
            }
        }
        number = number.saturating_add(1);
    }
    None
}

// Whether a block is one of 32, or the one before or after them.
fn is_beside(first: u32, block: u32) -> bool {
    first <= block.saturating_add(1) && block <= first.saturating_add(32)
}

// A run that stops at a call, and a further one: the blocks up to `end` are zero.
fn check_stopped(
    rt: &(impl Abort + AllocGlobal),
    before: &Thin<MemBank>,
    (row, bytes): (&Row, &[u8]),
    stop: u64,
    end: u32,
) {
    let mut plan = Plan::NONE;
    plan.stop = Some(stop);
    let mut store = later(rt, before, plan);
    let stopped = store.zero(b"v", row.at, row.count);
    same(rt, (stop, stopped), (stop, Err(Refusal::TwoLost)));
    let mut store = later(rt, &store.array.bank, Plan::NONE);
    let place = unlike_zeroed(rt, &mut store, bytes, row.at, end);
    same(rt, (stop, place), (stop, None));
}

/// Makes the range of a row zero. Checks the seals; that a crash before the seals of a commit leaves the blocks of
/// those before it zero, and one after its seals, before members are written, those of this commit as well; and that at
/// the end they are all, and no other block.
pub(crate) fn check_row(rt: &(impl Abort + AllocGlobal), row: &Row) {
    let before = row.made.devices(rt, row.shape);
    let mut store = later(rt, &before, Plan::NONE);
    let bytes = bytes_of(rt, &mut store, b"v", row.made.blocks());
    for byte in &bytes {
        assert!(rt; *byte != 0);
    }
    let mut store = later(rt, &before, Plan::NONE);
    let last = store.array.entry;
    same(rt, store.zero(b"v", row.at, row.count), Ok(()));
    check_seals(rt, &store, last, (row.commits, 0));
    let seals = &store.array.bank.notes.seals;
    let mut end = row.at;
    for number in 0..row.commits.len().min(seals.len()) {
        let call = seals[number].call;
        check_stopped(rt, &before, (row, &bytes), call, end);
        end = row.commits[number].0;
        check_stopped(rt, &before, (row, &bytes), call.saturating_add(4), end);
    }
    same(rt, end, row.at.saturating_add(row.count));
    same(rt, unlike_zeroed(rt, &mut store, &bytes, row.at, end), None);
    same(rt, store.array.bank.notes.mixed, false);
}

// All 28 extents of the example set.
const ALL: Made = Made::InOrder(448);

// Blocks 0 to 31 of the volume are stripes 4 and 5, rows 32 to 47, of which each has three members.
#[test]
fn blocks_32_are_one_write(rt: HostRuntime) {
    let row = Row {
        shape: EXAMPLE,
        made: ALL,
        at: 0,
        count: 32,
        commits: &[(32, &[(32, 16, 0x07)])],
    };
    check_row(&rt, &row);
}

// Stripe 6 has its parity on member 2, and its first block on member 0.
#[test]
fn one_block_more(rt: HostRuntime) {
    let row = Row {
        shape: EXAMPLE,
        made: ALL,
        at: 0,
        count: 33,
        commits: &[(32, &[(32, 16, 0)]), (33, &[(48, 1, 0x05)])],
    };
    check_row(&rt, &row);
}

// Blocks 8 to 15 are on member 0, with the parity of stripe 4 on member 1.
#[test]
fn a_first_part_and_whole_stripes(rt: HostRuntime) {
    let row = Row {
        shape: EXAMPLE,
        made: ALL,
        at: 8,
        count: 40,
        commits: &[(16, &[(32, 8, 0x03)]), (48, &[(40, 16, 0)])],
    };
    check_row(&rt, &row);
}

// Whole stripes are two writes, of 32 and of 16 blocks.
#[test]
fn three_parts(rt: HostRuntime) {
    let row = Row {
        shape: EXAMPLE,
        made: ALL,
        at: 5,
        count: 60,
        commits: &[
            (16, &[(32, 5, 0x03), (37, 3, 0x07)]),
            (64, &[(40, 24, 0)]),
            (65, &[(64, 1, 0x03)]),
        ],
    };
    check_row(&rt, &row);
}

// All extents of the set of four.
const ALL_OF_FOUR: Made = Made::InOrder(4_728);

// Two stripes, of which each lacks a block at one end.
#[test]
fn no_whole_stripe_two_stripes(rt: HostRuntime) {
    let row = Row {
        shape: OF_FOUR,
        made: ALL_OF_FOUR,
        at: 1,
        count: 46,
        commits: &[(47, &[(24, 1, 0x0d), (25, 14, 0x0f), (39, 1, 0x0b)])],
    };
    check_row(&rt, &row);
}

#[test]
fn one_whole_stripe(rt: HostRuntime) {
    let row = Row {
        shape: OF_FOUR,
        made: ALL_OF_FOUR,
        at: 1,
        count: 47,
        commits: &[(24, &[(24, 1, 0x0d), (25, 7, 0x0f)]), (48, &[(32, 8, 0)])],
    };
    check_row(&rt, &row);
}

#[test]
fn stripes_of_24_in_writes_of_32(rt: HostRuntime) {
    let row = Row {
        shape: OF_FOUR,
        made: ALL_OF_FOUR,
        at: 24,
        count: 96,
        commits: &[(120, &[(32, 32, 0)])],
    };
    check_row(&rt, &row);
}

// Extents 5, 3 and 4 are stripes 9, 7 and 8, extent 9 is stripe 13.
#[test]
fn extents_that_fall(rt: HostRuntime) {
    let row = Row {
        shape: EXAMPLE,
        made: Made::Falling,
        at: 0,
        count: 64,
        commits: &[(64, &[(56, 24, 0), (104, 8, 0)])],
    };
    check_row(&rt, &row);
}

#[test]
fn a_part_of_extents_that_fall(rt: HostRuntime) {
    let row = Row {
        shape: EXAMPLE,
        made: Made::Falling,
        at: 10,
        count: 40,
        commits: &[
            (16, &[(74, 6, 0x06)]),
            (48, &[(56, 16, 0)]),
            (50, &[(104, 2, 0x06)]),
        ],
    };
    check_row(&rt, &row);
}

// Sixty stripes that do not touch: extent 2 i is stripe 3 + 2 i. A seal has room for 58 runs.
#[test]
fn more_than_58_runs(rt: HostRuntime) {
    let mut runs = [(0, 8, 0); 58];
    for number in 0..58u16 {
        runs[number as usize].0 = 24 + 16 * u64::from(number);
    }
    let row = Row {
        shape: OF_FOUR,
        made: Made::EveryOther(60),
        at: 0,
        count: 1_440,
        commits: &[(1_392, &runs), (1_440, &[(952, 8, 0), (968, 8, 0)])],
    };
    check_row(&rt, &row);
}
