//! The rows of given sectors, formed in an entry. In the set of 3 members, chunk 8 and 32 stripes, logical sectors 72
//! and 64 are the data of row 32, on members 0 and 2, and 73 and 65 that of row 33; the parity is on member 1. In the
//! set of 4 members, logical sectors 96, 104 and 112 are the data of row 32, on members 0 to 2; the parity is on member
//! 3.
ghost use Rattle.array_io.specs.Believed.ArrayCalls.{MayCommit};
ghost use Rattle.array_io.specs.Believed.Views.{HasItsSlots};

use super::{Contents, Writes, form_rows};
use crate::testing::{
    Bytes, Failure, Row, Slots, WHOLE, WITHOUT_0, WITHOUT_1, all, bank_of, blank, check_rows,
    check_sectors, check_slots, entry_of, put, put_row, same, table_of,
};
use batch::{Places, plan_rows};
use entry_runs::RunsBuilder;
use sector_model::{Bank, MemBank, Refusal, Sector};
use std::process::Abort;
use stripe_journal::Entry;
use superblock::Table;

// Forms the rows of sectors that may be committed (condition).
fn form<B: Bank>(
    rt: &impl Abort,
    bank: &mut B,
    table: &mut Table,
    given: &[(u64, Sector)],
    entry: &mut Entry,
) -> Result<(), Refusal>
    requires its_slots { HasItsSlots table.old (B.panel bank.old) }
    requires may { MayCommit table.old given.now }
{
    let placed = Places::of(&table.geometry, given);
    let places = placed.as_slice();
    let mut rows = RunsBuilder::new();
    if !plan_rows(&table.geometry, places, &mut rows) {
        panic!(rt; "up to 32 sectors fit an entry");
    }
    form_rows(
        bank,
        table,
        &Writes {
            contents: Contents::Sectors(given),
            places,
            rows: &rows,
        },
        entry,
    )
}

// The forming of the rows of these logical sectors, each full of one byte, in a set of these slots, whose members have
// these bytes in rows 32 and 33.
struct Case {
    slots: Slots,
    row_32: Bytes,
    row_33: Bytes,
    failures: &'static [Failure],
    given: &'static [(u64, u8)],
    // The answer, the device calls that are made, and the generation and slots of the table then.
    answer: Result<(), Refusal>,
    calls: u64,
    table: (u8, Slots),
    // The rows of the entry, if it is answered. Bytes of members that a row's mask lacks don't count.
    formed: &'static [Row],
}

// The bank of the set.
fn set_bank(rt: &(impl Abort + AllocGlobal), case: &Case) -> MemBank {
    let members = case.slots.members;
    let mut image = blank(rt, members);
    put_row(rt, &mut image, members, 32, &case.row_32);
    put_row(rt, &mut image, members, 33, &case.row_33);
    bank_of(rt, image, case.failures)
}

// These logical sectors, each full of its byte.
fn given_of(rt: &(impl Abort + AllocGlobal), bytes: &[(u64, u8)]) -> Vec<(u64, Sector)> {
    let mut given = Vec::new(rt.alloc());
    for sector in bytes {
        given.push((sector.0, all(sector.1))).expect(rt, "memory");
    }
    given
}

fn check(rt: &(impl Abort + AllocGlobal), case: &Case) {
    let given = given_of(rt, case.given);
    check_forming(rt, case, &given);
}

fn check_forming(rt: &(impl Abort + AllocGlobal), case: &Case, given: &[(u64, Sector)]) {
    let mut bank = set_bank(rt, case);
    let mut table = table_of(rt, 1, &case.slots);
    let mut entry = entry_of(rt, &[]);
    check_slots(rt, &table, &bank);
    check_sectors(rt, &table, given);
    let answer = form(rt, &mut bank, &mut table, given, &mut entry);
    same(rt, (answer, bank.now()), (case.answer, case.calls));
    same(rt, table, table_of(rt, case.table.0, &case.table.1));
    if answer.is_ok() {
        check_rows(rt, &entry, case.formed);
    }
}

// What the members of 3 have in row 32, and without member 0, whose own sector is not read.
const ROW_OF_3: Bytes = [0x05, 0x14, 0x11, 0];

const ROW_OF_3_WITHOUT_0: Bytes = [0xee, 0x14, 0x11, 0];

const ONE: Case = Case {
    slots: WHOLE,
    row_32: ROW_OF_3,
    row_33: [0x00, 0x77, 0x77, 0],
    failures: &[],
    given: &[(64, 0x22)],
    answer: Ok(()),
    calls: 1,
    table: (1, WHOLE),
    formed: &[(32, 0b110, [0, 0x27, 0x22, 0])],
};

#[test]
fn one_sector_of_a_row(rt: HostRuntime) {
    check(&rt, &ONE);
}

const WHOLE_AND_HALF: Case = Case {
    slots: WHOLE,
    row_32: ROW_OF_3,
    row_33: [0x00, 0x77, 0x77, 0],
    failures: &[],
    given: &[(64, 0x22), (65, 0x33), (72, 0x44)],
    answer: Ok(()),
    calls: 1,
    table: (1, WHOLE),
    formed: &[
        (32, 0b111, [0x44, 0x66, 0x22, 0]),
        (33, 0b110, [0, 0x33, 0x33, 0]),
    ],
};

#[test]
fn whole_row_and_half_a_row(rt: HostRuntime) {
    check(&rt, &WHOLE_AND_HALF);
}

const WHOLE_ROW: Case = Case {
    slots: WHOLE,
    row_32: ROW_OF_3,
    row_33: [0x00, 0x77, 0x77, 0],
    failures: &[],
    given: &[(72, 0x44), (64, 0x22)],
    answer: Ok(()),
    calls: 0,
    table: (1, WHOLE),
    formed: &[(32, 0b111, [0x44, 0x66, 0x22, 0])],
};

const TWO_HALVES: Case = Case {
    slots: WHOLE,
    row_32: ROW_OF_3,
    row_33: [0x00, 0x77, 0x77, 0],
    failures: &[],
    given: &[(65, 0x33), (72, 0x44)],
    answer: Ok(()),
    calls: 2,
    table: (1, WHOLE),
    formed: &[
        (32, 0b011, [0x44, 0x55, 0, 0]),
        (33, 0b110, [0, 0x33, 0x33, 0]),
    ],
};

#[test]
fn order_does_not_matter(rt: HostRuntime) {
    check(&rt, &WHOLE_ROW);
    check(&rt, &TWO_HALVES);
}

// A read, the one that finds the member down, the marking of four slots, and two reads instead of it.
const DOWN_MEANWHILE: Case = Case {
    slots: WHOLE,
    row_32: ROW_OF_3,
    row_33: [0x00, 0x77, 0x77, 0],
    failures: &[(0, 1)],
    given: &[(64, 0x22), (65, 0x33)],
    answer: Ok(()),
    calls: 12,
    table: (2, WITHOUT_0),
    formed: &[
        (32, 0b110, [0, 0x27, 0x22, 0]),
        (33, 0b110, [0, 0x33, 0x33, 0]),
    ],
};

#[test]
fn member_down_meanwhile(rt: HostRuntime) {
    check(&rt, &DOWN_MEANWHILE);
}

// What the member has is read from the two others, and in the other row the old values of what changes.
const DOWN_BEFORE: Case = Case {
    slots: WHOLE,
    row_32: ROW_OF_3,
    row_33: [0x00, 0x77, 0x77, 0],
    failures: &[(0, 0)],
    given: &[(64, 0x22), (65, 0x33)],
    answer: Ok(()),
    calls: 13,
    table: (2, WITHOUT_0),
    formed: &[
        (32, 0b110, [0, 0x27, 0x22, 0]),
        (33, 0b110, [0, 0x33, 0x33, 0]),
    ],
};

#[test]
fn member_down_before(rt: HostRuntime) {
    check(&rt, &DOWN_BEFORE);
}

// The read that finds member 0 down, and the write of a superblock that finds member 1 down.
const TWO_DOWN: Case = Case {
    slots: WHOLE,
    row_32: ROW_OF_3,
    row_33: [0x00, 0x77, 0x77, 0],
    failures: &[(0, 0), (1, 0)],
    given: &[(64, 0x22)],
    answer: Err(Refusal::TwoLost),
    calls: 2,
    table: (2, WITHOUT_0),
    formed: &[],
};

#[test]
fn two_members_down(rt: HostRuntime) {
    check(&rt, &TWO_DOWN);
}

// Of three members one is missing: the old values of the two others are read where they change, and only the other data
// where its own changes.
const READS_TWO: Case = Case {
    slots: WITHOUT_0,
    row_32: ROW_OF_3_WITHOUT_0,
    row_33: [0; 4],
    failures: &[],
    given: &[(64, 0x22)],
    answer: Ok(()),
    calls: 2,
    table: (1, WITHOUT_0),
    formed: &[(32, 0b110, [0, 0x27, 0x22, 0])],
};

const READS_ONE: Case = Case {
    slots: WITHOUT_0,
    row_32: ROW_OF_3_WITHOUT_0,
    row_33: [0; 4],
    failures: &[],
    given: &[(72, 0x22)],
    answer: Ok(()),
    calls: 1,
    table: (1, WITHOUT_0),
    formed: &[(32, 0b011, [0x22, 0x33, 0, 0])],
};

const READS_ONE_WITHOUT_PARITY: Case = Case {
    slots: WITHOUT_1,
    row_32: [0x05, 0xee, 0x11, 0],
    row_33: [0; 4],
    failures: &[],
    given: &[(72, 0x22)],
    answer: Ok(()),
    calls: 1,
    table: (1, WITHOUT_1),
    formed: &[(32, 0b011, [0x22, 0x33, 0, 0])],
};

#[test]
fn three_members_without_one(rt: HostRuntime) {
    check(&rt, &READS_TWO);
    check(&rt, &READS_ONE);
    check(&rt, &READS_ONE_WITHOUT_PARITY);
}

// What the members of 4 have in row 32, and where member 1's own sector is not read.
const ROW_OF_4: Bytes = [0x05, 0x14, 0x31, 0x20];

const ROW_OF_4_WITHOUT_1: Bytes = [0x05, 0xee, 0x31, 0x20];

const OF_4_WITHOUT_1: Slots = Slots {
    members: 4,
    odd: 1,
    state: 0,
    incarnation: 1,
    position: 0,
};

const OF_4_WITHOUT_3: Slots = Slots {
    members: 4,
    odd: 3,
    state: 0,
    incarnation: 1,
    position: 0,
};

// Member 1 is rebuilding, up to row 32 or 33.
const OF_4_TO_32: Slots = Slots {
    members: 4,
    odd: 1,
    state: 2,
    incarnation: 1,
    position: 32,
};

const OF_4_TO_33: Slots = Slots {
    members: 4,
    odd: 1,
    state: 2,
    incarnation: 1,
    position: 33,
};

// Of four members one is missing that does not change: what changes is read, its old values.
const READS_CHANGED: Case = Case {
    slots: OF_4_WITHOUT_1,
    row_32: ROW_OF_4_WITHOUT_1,
    row_33: [0; 4],
    failures: &[],
    given: &[(96, 0x22)],
    answer: Ok(()),
    calls: 2,
    table: (1, OF_4_WITHOUT_1),
    formed: &[(32, 0b1001, [0x22, 0, 0, 0x07])],
};

const READS_CHANGED_FOR_THE_LAST: Case = Case {
    slots: OF_4_WITHOUT_1,
    row_32: ROW_OF_4_WITHOUT_1,
    row_33: [0; 4],
    failures: &[],
    given: &[(112, 0x22)],
    answer: Ok(()),
    calls: 2,
    table: (1, OF_4_WITHOUT_1),
    formed: &[(32, 0b1100, [0, 0, 0x22, 0x33])],
};

#[test]
fn four_members_without_one_that_stays(rt: HostRuntime) {
    check(&rt, &READS_CHANGED);
    check(&rt, &READS_CHANGED_FOR_THE_LAST);
}

// Where the missing one changes, the other data is read.
const READS_DATA: Case = Case {
    slots: OF_4_WITHOUT_1,
    row_32: ROW_OF_4_WITHOUT_1,
    row_33: [0; 4],
    failures: &[],
    given: &[(104, 0x22)],
    answer: Ok(()),
    calls: 2,
    table: (1, OF_4_WITHOUT_1),
    formed: &[(32, 0b1010, [0, 0x22, 0, 0x16])],
};

const READS_NO_PARITY: Case = Case {
    slots: OF_4_WITHOUT_3,
    row_32: [0x05, 0x14, 0x31, 0xee],
    row_33: [0; 4],
    failures: &[],
    given: &[(96, 0x22)],
    answer: Ok(()),
    calls: 2,
    table: (1, OF_4_WITHOUT_3),
    formed: &[(32, 0b1001, [0x22, 0, 0, 0x07])],
};

#[test]
fn four_members_without_one_that_changes(rt: HostRuntime) {
    check(&rt, &READS_DATA);
    check(&rt, &READS_NO_PARITY);
}

// The one sector that stays is on the member that is rebuilding.
const BELOW: Case = Case {
    slots: OF_4_TO_33,
    row_32: ROW_OF_4,
    row_33: [0; 4],
    failures: &[],
    given: &[(96, 0x22), (112, 0x44)],
    answer: Ok(()),
    calls: 1,
    table: (1, OF_4_TO_33),
    formed: &[(32, 0b1101, [0x22, 0, 0x44, 0x72])],
};

const ABOVE: Case = Case {
    slots: OF_4_TO_32,
    row_32: ROW_OF_4_WITHOUT_1,
    row_33: [0; 4],
    failures: &[],
    given: &[(96, 0x22), (112, 0x44)],
    answer: Ok(()),
    calls: 3,
    table: (1, OF_4_TO_32),
    formed: &[(32, 0b1101, [0x22, 0, 0x44, 0x72])],
};

#[test]
fn rebuilding_member_is_read_below_its_position(rt: HostRuntime) {
    check(&rt, &BELOW);
    check(&rt, &ABOVE);
}

// Member 3 goes down at the second read.
const SECOND_DOWN: Case = Case {
    slots: OF_4_WITHOUT_1,
    row_32: ROW_OF_4,
    row_33: [0; 4],
    failures: &[(3, 1)],
    given: &[(96, 0x22)],
    answer: Err(Refusal::TwoLost),
    calls: 2,
    table: (1, OF_4_WITHOUT_1),
    formed: &[],
};

#[test]
fn second_member_down_in_a_row_without_one(rt: HostRuntime) {
    check(&rt, &SECOND_DOWN);
}

// A set, of which this member has the parity of row 32: the bytes of which its members are full there, and the row's
// logical sectors, each with the byte that it gets.
struct Set {
    members: u8,
    parity: u8,
    row: [u8; 8],
    given: &'static [(u64, u8)],
}

const THREE: Set = Set {
    members: 3,
    parity: 1,
    row: [0x02, 0x03, 0x01, 0, 0, 0, 0, 0],
    given: &[(64, 0x11), (72, 0x22)],
};

const FOUR: Set = Set {
    members: 4,
    parity: 3,
    row: [0x01, 0x02, 0x04, 0x07, 0, 0, 0, 0],
    given: &[(96, 0x11), (104, 0x22), (112, 0x44)],
};

const FIVE: Set = Set {
    members: 5,
    parity: 0,
    row: [0x0f, 0x01, 0x02, 0x04, 0x08, 0, 0, 0],
    given: &[(128, 0x11), (136, 0x22), (144, 0x44), (152, 0x88)],
};

const EIGHT: Set = Set {
    members: 8,
    parity: 3,
    row: [0x01, 0x02, 0x04, 0xf7, 0x10, 0x20, 0x40, 0x80],
    given: &[
        (224, 0x11),
        (232, 0x22),
        (240, 0x44),
        (248, 0x88),
        (256, 0x11),
        (264, 0x22),
        (272, 0x44),
    ],
};

// The set's slots: all in sync, or all but a member that is missing.
fn slots_of(set: &Set, out: Option<u8>) -> Slots {
    Slots {
        members: set.members,
        odd: out.unwrap_or(0) as usize,
        state: if out.is_some() { 0 } else { 1 },
        incarnation: 1,
        position: 0,
    }
}

// The bank of the set. The member that is missing has other bytes.
fn bank_of_set(rt: &(impl Abort + AllocGlobal), set: &Set, out: Option<u8>) -> MemBank {
    let mut image = blank(rt, set.members);
    for member in 0..set.members {
        assert!(rt; member < 8);
        let byte = if out == Some(member) {
            0xee
        } else {
            set.row[member as usize]
        };
        put(rt, &mut image, member as usize, 40, &all(byte));
    }
    bank_of(rt, image, &[])
}

fn check_parity(rt: &impl Abort, entry: &Entry, parity: u8, byte: u8) {
    assert!(rt; entry.len() == 1 && parity < 8);
    let is_so = match entry.view(0).member(parity) {
        Some(sector) => *sector == all(byte),
        None => false,
    };
    assert!(rt; is_so);
}

// Forms row 32 of the set, without a member, from so many of its sectors. That takes so many reads, and the parity is
// full of this byte then.
fn check_reads(
    rt: &(impl Abort + AllocGlobal),
    set: &Set,
    out: Option<u8>,
    count: usize,
    reads: u64,
    byte: u8,
) {
    assert!(rt; count <= set.given.len());
    let given = given_of(rt, &set.given[..count]);
    let mut bank = bank_of_set(rt, set, out);
    let mut table = table_of(rt, 1, &slots_of(set, out));
    let mut entry = entry_of(rt, &[]);
    check_slots(rt, &table, &bank);
    check_sectors(rt, &table, &given);
    let answer = form(rt, &mut bank, &mut table, &given, &mut entry);
    same(rt, (answer, bank.now()), (Ok(()), reads));
    check_parity(rt, &entry, set.parity, byte);
}

// What changes is read, or what stays, whichever is less.
#[test]
fn complete_set_reads_the_fewer(rt: HostRuntime) {
    check_reads(&rt, &THREE, None, 1, 1, 0x13);
    check_reads(&rt, &THREE, None, 2, 0, 0x33);
    check_reads(&rt, &FOUR, None, 1, 2, 0x17);
    check_reads(&rt, &FOUR, None, 2, 1, 0x37);
    check_reads(&rt, &FOUR, None, 3, 0, 0x77);
    check_reads(&rt, &FIVE, None, 1, 2, 0x1f);
    check_reads(&rt, &FIVE, None, 2, 2, 0x3f);
    check_reads(&rt, &FIVE, None, 3, 1, 0x7f);
    check_reads(&rt, &FIVE, None, 4, 0, 0xff);
    check_reads(&rt, &EIGHT, None, 1, 2, 0xf6);
    check_reads(&rt, &EIGHT, None, 2, 3, 0xf4);
    check_reads(&rt, &EIGHT, None, 3, 4, 0xf0);
    check_reads(&rt, &EIGHT, None, 4, 3, 0xf8);
    check_reads(&rt, &EIGHT, None, 7, 0, 0x88);
}

// Where the missing member stays as it is, what changes is read.
#[test]
fn set_without_one_that_stays_reads_what_changes(rt: HostRuntime) {
    check_reads(&rt, &THREE, Some(0), 1, 2, 0x13);
    check_reads(&rt, &FOUR, Some(2), 1, 2, 0x17);
    check_reads(&rt, &FOUR, Some(2), 2, 3, 0x37);
    check_reads(&rt, &FIVE, Some(4), 1, 2, 0x1f);
    check_reads(&rt, &FIVE, Some(4), 3, 4, 0x7f);
    check_reads(&rt, &EIGHT, Some(2), 1, 2, 0xf6);
    check_reads(&rt, &EIGHT, Some(2), 4, 5, 0xf8);
    check_reads(&rt, &EIGHT, Some(2), 6, 7, 0xc8);
}

// Where it changes, or has the parity, what stays is read.
#[test]
fn set_without_one_that_changes_reads_what_stays(rt: HostRuntime) {
    check_reads(&rt, &THREE, Some(2), 1, 1, 0x13);
    check_reads(&rt, &THREE, Some(1), 1, 1, 0x13);
    check_reads(&rt, &FOUR, Some(0), 1, 2, 0x17);
    check_reads(&rt, &FOUR, Some(3), 2, 1, 0x37);
    check_reads(&rt, &FIVE, Some(1), 1, 3, 0x1f);
    check_reads(&rt, &FIVE, Some(0), 2, 2, 0x3f);
    check_reads(&rt, &EIGHT, Some(4), 1, 6, 0xf6);
    check_reads(&rt, &EIGHT, Some(3), 4, 3, 0xf8);
    check_reads(&rt, &EIGHT, Some(4), 7, 0, 0x88);
}
