//! What this crate's tests have in common: superblocks byte by byte, and what they compare values with.

use crate::{Superblock, decode};
use sector_model::Sector;
use std::fmt::Debug;
use std::process::Abort;

/// Ends the test where `got` is not `want`. As a call it leaves the test a fraction of what `assert_eq!` would
/// put into it, and so of the time that the test is checked in.
pub(crate) fn same<T: PartialEq + Debug + Drop>(rt: &impl Abort, got: T, want: T) {
    assert_eq!(rt; got, want);
}

pub(crate) const ID: [u8; 16] = [
    0x00, 0x01, 0x02, 0x03, 0x04, 0x05, 0x06, 0x07, 0x08, 0x09, 0x0a, 0x0b, 0x0c, 0x0d, 0x0e, 0x0f,
];

const FIRST_MARK: [u8; 8] = [0x52, 0x41, 0x49, 0x44, 0x35, 0x4a, 0x56, 0x31];

const LAST_MARK: [u8; 8] = [0x31, 0x56, 0x4a, 0x35, 0x44, 0x49, 0x41, 0x52];

pub(crate) const MISSING: u8 = 0;

pub(crate) const IN_SYNC: u8 = 1;

pub(crate) const REBUILDING: u8 = 2;

/// What a superblock says of a slot: its state, and its incarnation.
pub(crate) type Entry = (u8, u8);

/// The entries of a fresh set, and those once slot 2 is missing.
pub(crate) const FRESH: [Entry; 5] = [(IN_SYNC, 1); 5];

pub(crate) const WITHOUT_2: [Entry; 5] = [
    (IN_SYNC, 1),
    (IN_SYNC, 1),
    (MISSING, 1),
    (IN_SYNC, 1),
    (IN_SYNC, 1),
];

/// A set of 3 members, chunk 8 and 32 stripes: the bytes of the superblock of this generation in the slot of this
/// role.
pub(crate) fn spelled(id: &[u8; 16], generation: u8, role: u8, entries: &[Entry; 5]) -> Sector {
    let mut sector = [0; 512];
    sector[..8].copy_from_slice(&FIRST_MARK);
    sector[8..24].copy_from_slice(id);
    sector[24] = generation;
    sector[32] = 3;
    sector[33] = role;
    sector[34] = 8;
    sector[36] = 32;
    for slot in 0..5 {
        sector[40 + 16 * slot] = entries[slot].0;
        sector[48 + 16 * slot] = entries[slot].1;
        if slot == role as usize {
            sector[208] = entries[slot].1;
        }
    }
    sector[504..].copy_from_slice(&LAST_MARK);
    sector
}

/// The superblock that a sector spells.
pub(crate) fn read(rt: &impl Abort, sector: &Sector) -> Superblock {
    decode(sector).expect(rt, "it is a superblock")
}
