//! Crashes in the device calls of a commit of one logical sector, in the right order and in wrong ones.
use super::calls::{Asked, Call, check};
use super::crashes::{ANY, Logical, Wanted};
use super::steps::Put;

// Any slot may be out, and the logical sectors are the old ones, the new ones, or either.
const ALL_OLD: Wanted = Wanted {
    out: ANY,
    logical: Logical::Old,
};

pub(crate) const ALL_NEW: Wanted = Wanted {
    out: ANY,
    logical: Logical::New,
};

pub(crate) const EITHER: Wanted = Wanted {
    out: ANY,
    logical: Logical::Either,
};

/// A set with the old logical sectors, after two entries: row 32 with the parity on member 1, and row 33.
pub(crate) const USED: &[Put] = &[
    Put::Entry(1, 32, [0x05, 0x14, 0x11, 0]),
    Put::Entry(2, 33, [0, 0x77, 0x77, 0]),
];

const COMMIT: &[Call] = &[
    Call::Body(3),
    Call::Body(4),
    Call::Flush(3),
    Call::Flush(4),
    Call::Seal(3),
    Call::Seal(4),
    Call::Flush(3),
    Call::Flush(4),
    Call::Row(0, 0x05),
    Call::Row(1, 0x27),
    Call::Row(2, 0x22),
    Call::Flush(0),
    Call::Flush(1),
    Call::Flush(2),
];

const COMMIT_ASKS: &[Asked] = &[
    Asked::Calls(18),
    Asked::FirstBad(EITHER, None),
    Asked::Stop(0, ALL_OLD, true),
    Asked::Stop(11, ALL_NEW, false),
    Asked::Stop(12, ALL_NEW, true),
    Asked::Stop(13, ALL_NEW, true),
    Asked::Stop(14, ALL_NEW, true),
    Asked::Stop(15, ALL_NEW, true),
    Asked::Stop(16, ALL_NEW, true),
    Asked::Stop(17, ALL_NEW, true),
    Asked::Stop(18, ALL_NEW, true),
    Asked::Members(ALL_NEW, true),
];

#[test]
fn commit_holds_at_each_crash(rt: HostRuntime) {
    check(&rt, USED, COMMIT, COMMIT_ASKS);
}

// The parity is written, and the data is not.
const MEMBERS_FIRST: &[Call] = &[
    Call::Row(0, 0x05),
    Call::Row(1, 0x27),
    Call::Row(2, 0x22),
    Call::Flush(0),
    Call::Flush(1),
    Call::Flush(2),
    Call::Body(3),
    Call::Body(4),
    Call::Flush(3),
    Call::Flush(4),
    Call::Seal(3),
    Call::Seal(4),
    Call::Flush(3),
    Call::Flush(4),
];

const MEMBERS_FIRST_ASKS: &[Asked] = &[Asked::FirstBad(EITHER, Some(2))];

#[test]
fn members_before_the_journal_fail(rt: HostRuntime) {
    check(&rt, USED, MEMBERS_FIRST, MEMBERS_FIRST_ASKS);
}

// The parity is written, the data is not, and slot 3 has the only seal.
const ONE_SEAL: &[Call] = &[
    Call::Body(3),
    Call::Body(4),
    Call::Flush(3),
    Call::Flush(4),
    Call::Seal(3),
    Call::Flush(3),
    Call::Row(0, 0x05),
    Call::Row(1, 0x27),
    Call::Row(2, 0x22),
    Call::Flush(0),
    Call::Flush(1),
    Call::Flush(2),
    Call::Seal(4),
    Call::Flush(4),
];

const ONE_SEAL_ASKS: &[Asked] = &[Asked::FirstBad(EITHER, Some(12))];

#[test]
fn members_after_one_seal_fail(rt: HostRuntime) {
    check(&rt, USED, ONE_SEAL, ONE_SEAL_ASKS);
}

// The first seal landed, and not all of its body.
const UNFLUSHED_BODIES: &[Call] = &[
    Call::Body(3),
    Call::Body(4),
    Call::Seal(3),
    Call::Seal(4),
    Call::Flush(3),
    Call::Flush(4),
    Call::Row(0, 0x05),
    Call::Row(1, 0x27),
    Call::Row(2, 0x22),
    Call::Flush(0),
    Call::Flush(1),
    Call::Flush(2),
];

const UNFLUSHED_BODIES_ASKS: &[Asked] = &[Asked::FirstBad(EITHER, Some(7))];

#[test]
fn seals_before_the_flush_of_bodies_fail(rt: HostRuntime) {
    check(&rt, USED, UNFLUSHED_BODIES, UNFLUSHED_BODIES_ASKS);
}

const NO_MEMBERS: &[Call] = &[
    Call::Body(3),
    Call::Body(4),
    Call::Flush(3),
    Call::Flush(4),
    Call::Seal(3),
    Call::Seal(4),
    Call::Flush(3),
    Call::Flush(4),
];

const NO_MEMBERS_ASKS: &[Asked] = &[
    Asked::FirstBad(EITHER, None),
    Asked::Calls(12),
    Asked::Stop(12, ALL_NEW, true),
    Asked::Members(ALL_NEW, false),
];

#[test]
fn members_left_unwritten_fail_at_the_end(rt: HostRuntime) {
    check(&rt, USED, NO_MEMBERS, NO_MEMBERS_ASKS);
}
