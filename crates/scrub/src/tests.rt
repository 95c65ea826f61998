//! The rows of a set of 3 members, chunk 8 and 32 stripes, on a bank in memory: its rows 0 to 255 are the sectors 8
//! to 263 of each member.
ghost use Rattle.std.specs.Prelude.{◌≡◌, ◌≤◌, ◌<◌, false};
ghost use Rattle.array_io.specs.Believed.Views.{HasItsSlots};
ghost use Rattle.superblock.specs.Counted.{least_sectors};

use crate::rows::scrub_rows;
use crate::{ScrubReport, is_complete};
use layout_map::Format;
use sector_model::{Bank, Image, MemBank, Plan, Refusal, Sector};
use std::fmt::Debug;
use std::process::Abort;
use superblock::{State, Table, decode, least_of};

// What the rows answer.
type Answer = Result<Option<ScrubReport>, Refusal>;

// Ends the test where `got` is not `want`.
fn same<T: PartialEq + Debug + Drop>(rt: &impl Abort, got: T, want: T) {
    assert_eq!(rt; got, want);
}

// The superblock of generation 1 in slot 0 of the set, all of it in sync.
fn superblock() -> Sector {
    let mut sector = [0; 512];
    sector[..8].copy_from_slice(b"RAID5JV1");
    sector[24] = 1;
    sector[32] = 3;
    sector[34] = 8;
    sector[36] = 32;
    for slot in 0..5 {
        sector[40 + 16 * slot] = 1;
        sector[48 + 16 * slot] = 1;
    }
    sector[208] = 1;
    sector[504..].copy_from_slice(b"1VJ5DIAR");
    sector
}

// A device of so many zero sectors.
fn blank_device(rt: &(impl Abort + AllocGlobal), sectors: usize) -> Vec<Sector> {
    let device = vec![in rt.alloc(); [0; 512]; sectors];
    device.expect(rt, "memory")
}

// The set's devices, of zeros.
fn blank(rt: &(impl Abort + AllocGlobal)) -> Image {
    let mut slots = Vec::new(rt.alloc());
    for sectors in [264, 264, 264, 520, 520] {
        slots
            .push(Some(blank_device(rt, sectors)))
            .expect(rt, "memory");
    }
    Image { slots }
}

// A member, one of its rows, and the byte that stands in the middle of its sector there.
type Byte = (usize, usize, u8);

fn put_byte(rt: &impl Abort, image: &mut Image, byte: &Byte) {
    assert!(rt; byte.0 < image.slots.len() && byte.1 < 256);
    if let Some(device) = &mut image.slots[byte.0] {
        assert!(rt; byte.1 + 8 < device.len());
        device[byte.1 + 8][255] = byte.2;
    }
}

// A slot, and the number of the device call from which on it is down.
type Failure = (usize, u64);

// The bank of the set with these bytes, on which these devices go down.
fn bank_of(rt: &(impl Abort + AllocGlobal), bytes: &[Byte], failures: &[Failure]) -> MemBank {
    let mut image = blank(rt);
    for byte in bytes {
        put_byte(rt, &mut image, byte);
    }
    let mut plan = Plan::NONE;
    for failure in failures {
        assert!(rt; failure.0 < 10);
        plan.down[failure.0] = Some(failure.1);
    }
    assert!(rt; image.slots.len() == 5);
    MemBank::new(rt.alloc(), image, plan, 100).expect(rt, "memory")
}

// A device that is up is long enough for its slot.
fn check_device<B: Bank>(rt: &impl Abort, table: &Table, bank: &B, slot: u8)
    requires { slot < (B.panel bank.now).devices }
    ensures { (B.panel bank.now).down slot ≡ false
        → least_sectors table.now.geometry slot ≤ (B.panel bank.now).sectors slot }
{
    assert!(rt; bank.is_down(slot) || bank.sectors(slot) >= least_of(&table.geometry, slot));
}

// The bank has the devices of a set of format 1.
fn check_slots<B: Bank>(rt: &impl Abort, table: &Table, bank: &B)
    ensures { HasItsSlots table.now (B.panel bank.now) }
{
    assert!(rt; table.geometry.format == Format::One);
    let slots = table.geometry.members + 2;
    assert!(rt; slots <= bank.devices());
    for slot in 0..slots {
        check_device(rt, table, bank, slot);
    }
}

// The first row of a part, and how many rows it is to have.
type Part = (u64, u64);

const ALL: Part = (0, 256);

// Scrubs a part, asks for the answer, for how many device calls and writes with flushes were made, and for the table's
// generation then. Gives the table.
fn check(rt: &impl Abort, bank: &mut MemBank, part: Part, want: Answer, made: [u64; 3]) -> Table {
    let mut table = decode(&superblock()).expect(rt, "it is a superblock").table;
    let room = bank.room;
    check_slots(rt, &table, bank);
    assert!(rt; is_complete(&table));
    let answer = scrub_rows(bank, &mut table, part.0, part.1);
    same(rt, answer, want);
    let writes = room.saturating_sub(bank.room) as u64;
    same(rt, [bank.now(), writes, table.generation], made);
    table
}

fn report(rows: u64, bad: u64, first_bad: Option<u64>) -> Answer {
    Ok(Some(ScrubReport {
        rows,
        bad,
        first_bad,
    }))
}

// Each of 3 members is read once in each of 256 rows, and nothing else is called.
const READS: [u64; 3] = [3 * 256, 0, 1];

#[test]
fn fresh_rows_are_sound(rt: HostRuntime) {
    let mut bank = bank_of(&rt, &[], &[]);
    check(&rt, &mut bank, ALL, report(256, 0, None), READS);
}

#[test]
fn changed_parity_byte(rt: HostRuntime) {
    let mut bank = bank_of(&rt, &[(2, 5, 1)], &[]);
    check(&rt, &mut bank, ALL, report(256, 1, Some(5)), READS);
}

// Rows 7, 200 and 255 are bad; two members that differ alike in a row, as in row 9, leave it sound.
const BYTES: &[Byte] = &[
    (0, 9, 0x33),
    (1, 9, 0x33),
    (1, 7, 0x80),
    (0, 200, 0x0f),
    (1, 200, 0xf0),
    (2, 255, 0x01),
];

#[test]
fn bad_rows_are_counted(rt: HostRuntime) {
    let mut bank = bank_of(&rt, BYTES, &[]);
    check(&rt, &mut bank, ALL, report(256, 3, Some(7)), READS);
}

// 100, 100 and 56 rows are all 256, and their 1, 0 and 2 bad ones all 3.
#[test]
fn parts_add_up(rt: HostRuntime) {
    let mut bank = bank_of(&rt, BYTES, &[]);
    check(
        &rt,
        &mut bank,
        (0, 100),
        report(100, 1, Some(7)),
        [300, 0, 1],
    );
    check(
        &rt,
        &mut bank,
        (100, 100),
        report(100, 0, None),
        [600, 0, 1],
    );
    check(
        &rt,
        &mut bank,
        (200, 56),
        report(56, 2, Some(200)),
        [768, 0, 1],
    );
}

// The set has no row 256, and a part of no rows has none.
#[test]
fn part_past_the_end(rt: HostRuntime) {
    let mut bank = bank_of(&rt, BYTES, &[]);
    check(
        &rt,
        &mut bank,
        (250, 10),
        report(6, 1, Some(255)),
        [18, 0, 1],
    );
    check(
        &rt,
        &mut bank,
        (255, u64::MAX),
        report(1, 1, Some(255)),
        [21, 0, 1],
    );
    check(&rt, &mut bank, (256, 5), report(0, 0, None), [21, 0, 1]);
    check(
        &rt,
        &mut bank,
        (u64::MAX, u64::MAX),
        report(0, 0, None),
        [21, 0, 1],
    );
    check(&rt, &mut bank, (7, 0), report(0, 0, None), [21, 0, 1]);
}

// Member 1 goes down at the second row that is read: after a part of one row, and within the next one.
#[test]
fn member_fails_in_a_part(rt: HostRuntime) {
    let mut bank = bank_of(&rt, BYTES, &[(1, 4)]);
    check(&rt, &mut bank, (7, 1), report(1, 1, Some(7)), [3, 0, 1]);
    let table = check(&rt, &mut bank, (100, 50), Ok(None), [5 + 8, 8, 2]);
    same(&rt, table.states[1], State::Missing);
}

// Member 1 goes down at its read of row 1: its slot is marked missing on the four others.
#[test]
fn member_fails(rt: HostRuntime) {
    let mut bank = bank_of(&rt, &[(2, 0, 1)], &[(1, 4)]);
    let table = check(&rt, &mut bank, ALL, Ok(None), [5 + 8, 8, 2]);
    same(&rt, table.states[1], State::Missing);
    same(&rt, table.states[2], State::InSync);
}

// Member 0 goes down when its superblock is to be written then.
#[test]
fn second_member_fails(rt: HostRuntime) {
    let mut bank = bank_of(&rt, &[], &[(1, 4), (0, 5)]);
    let table = check(&rt, &mut bank, ALL, Err(Refusal::TwoLost), [5 + 1, 0, 2]);
    same(&rt, table.states[1], State::Missing);
}

// No journal is read.
#[test]
fn journal_is_down(rt: HostRuntime) {
    let mut bank = bank_of(&rt, &[], &[(3, 0)]);
    check(&rt, &mut bank, ALL, report(256, 0, None), READS);
}
