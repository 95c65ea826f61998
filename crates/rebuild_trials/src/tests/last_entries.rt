//! A member is rebuilt, and a journal gets its device, over a last entry that holds some of the sectors of its rows, or
//! all. The set has 4 members of chunk 8 and 6 stripes: rows 0 to 47 are the sectors 8 to 55 of each. Whatever was not
//! written is full of a5.
ghost use Rattle.std.specs.Prelude.{◌≡◌, ◌≤◌, ◌<◌, false};
ghost use Rattle.array_io.specs.Believed.Views.{HasItsSlots};
ghost use Rattle.superblock.specs.Counted.{least_sectors};

use crate::testing::same;
use array_io::Array;
use array_io::oracle::row_sources_in;
use layout_map::Format;
use rebuild::{Progress, rebuild_step, replace, steps_left};
use sector_model::{Bank, Choice, Image, MemBank, Plan, Refusal, Sector};
use std::process::Abort;
use stripe_journal::Entry;
use superblock::oracle::chosen_table_in;
use superblock::{Table, least_of};

const ID: [u8; 16] = [0; 16];

const UNWRITTEN: Sector = [0xa5; 512];

// The sector with which the body of the last entry, number 3, begins.
const BODY: usize = 264;

// The byte of which a member's sector of a row is full. Those of a row XOR to zero.
fn byte(member: u8, row: u8) -> u8 {
    let first = row.wrapping_mul(3) ^ 0x11;
    let second = row.wrapping_mul(5) ^ 0x62;
    let third = row.wrapping_add(0x80);
    match member {
        0 => first,
        1 => second,
        2 => third,
        _ => first ^ second ^ third,
    }
}

// The member with the parity of a row of the last entry, 32 to 47.
fn parity_of(row: u8) -> u8 {
    if row < 40 { 3 } else { 2 }
}

// The slot that is not in sync: missing in a state of 0, and rebuilding up to row 40 in one of 2. And whether the last
// entry holds all sectors of its rows.
#[derive(Clone, Copy)]
struct Case {
    slot: usize,
    state: u8,
    is_whole: bool,
}

// Whether the last entry holds a member's sector of a row, 32 to 47. Where it does not hold all, it has of each row the
// parity, and beside it the sector of member 1 of even rows, of member 0 of odd ones.
fn is_held(is_whole: bool, member: u8, row: u8) -> bool {
    is_whole || member == parity_of(row) || member == 1 - row % 2
}

fn mask_of(row: u8) -> u8 {
    let parity = if row < 40 { 8 } else { 4 };
    parity + 2 - row % 2
}

// The seal of the last entry, with rows 32 to 47.
fn seal(is_whole: bool) -> Sector {
    let mut sector = [0; 512];
    sector[..8].copy_from_slice(if is_whole { b"RAID5JE1" } else { b"RAID5JE2" });
    sector[24] = 3;
    sector[32] = 16;
    for i in 0..16 {
        let row = 32 + i as u8;
        sector[40 + 4 * i] = row;
        sector[168 + i] = if is_whole { 0 } else { mask_of(row) };
    }
    sector[504..].copy_from_slice(if is_whole { b"1EJ5DIAR" } else { b"2EJ5DIAR" });
    sector
}

fn rebuilding(is_whole: bool) -> Case {
    Case {
        slot: 1,
        state: 2,
        is_whole,
    }
}

fn without_journal(is_whole: bool) -> Case {
    Case {
        slot: 5,
        state: 0,
        is_whole,
    }
}

// The superblock of generation 4 in the slot of this role.
fn superblock(role: u8, case: Case) -> Sector {
    let mut sector = [0; 512];
    sector[..8].copy_from_slice(b"RAID5JV1");
    sector[24] = 4;
    sector[32] = 4;
    sector[33] = role;
    sector[34] = 8;
    sector[36] = 6;
    for slot in 0..6 {
        sector[40 + 16 * slot] = if slot == case.slot { case.state } else { 1 };
        sector[48 + 16 * slot] = 1;
    }
    sector[200] = if case.state == 2 { 40 } else { 0 };
    sector[208] = 1;
    sector[504..].copy_from_slice(b"1VJ5DIAR");
    sector
}

fn put(rt: &impl Abort, image: &mut Image, slot: usize, at: usize, sector: &Sector) {
    assert!(rt; slot < image.slots.len());
    if let Some(device) = &mut image.slots[slot] {
        assert!(rt; at < device.len());
        device[at] = *sector;
    }
}

// A member's sectors in the rows up to one.
fn put_member(rt: &impl Abort, image: &mut Image, member: u8, end: u8) {
    for row in 0..end {
        let at = 8 + row as usize;
        put(rt, image, member as usize, at, &[byte(member, row); 512]);
    }
}

// The last entry, on a journal.
fn put_entry(rt: &impl Abort, image: &mut Image, journal: usize, is_whole: bool) {
    let mut at = BODY;
    for row in 32..48u8 {
        for member in 0..4u8 {
            if is_held(is_whole, member, row) {
                put(rt, image, journal, at, &[byte(member, row); 512]);
                at = at.wrapping_add(1);
            }
        }
    }
    put(rt, image, journal, 3, &seal(is_whole));
}

// What a slot has.
fn put_slot(rt: &impl Abort, image: &mut Image, slot: u8, case: Case) {
    let is_out = slot as usize == case.slot;
    if is_out && case.state == 0 {
        return;
    }
    put(rt, image, slot as usize, 0, &superblock(slot, case));
    if slot < 4 {
        put_member(rt, image, slot, if is_out { 40 } else { 48 });
    } else {
        put_entry(rt, image, slot as usize, case.is_whole);
    }
}

// The set's devices. A missing slot has one with nothing on it.
fn devices(rt: &(impl Abort + AllocGlobal), case: Case) -> Image {
    let mut slots = Vec::new(rt.alloc());
    for sectors in [56, 56, 56, 56, 520, 520] {
        let device = vec![in rt.alloc(); UNWRITTEN; sectors].expect(rt, "memory");
        slots.push(Some(device)).expect(rt, "memory");
    }
    let mut image = Image { slots };
    for slot in 0..6 {
        put_slot(rt, &mut image, slot, case);
    }
    image
}

// A device that is up is long enough for its slot.
fn check_device<B: Bank>(rt: &impl Abort, table: &Table, bank: &B, slot: u8)
    requires { slot < (B.panel bank.now).devices }
    ensures { (B.panel bank.now).down slot ≡ false
        → least_sectors table.now.geometry slot ≤ (B.panel bank.now).sectors slot }
{
    assert!(rt; bank.is_down(slot) || bank.sectors(slot) >= least_of(&table.geometry, slot));
}

// The bank has the devices of a set of format 1.
fn check_slots<B: Bank>(rt: &impl Abort, table: &Table, bank: &B)
    ensures { HasItsSlots table.now (B.panel bank.now) }
{
    assert!(rt; table.geometry.format == Format::One);
    let slots = table.geometry.members + 2;
    assert!(rt; slots <= bank.devices());
    for slot in 0..slots {
        check_device(rt, table, bank, slot);
    }
}

// The set, at rest on its devices, which go down by this plan.
fn array_of(rt: &(impl Abort + AllocGlobal), case: Case, plan: Plan) -> Array<MemBank> {
    let image = devices(rt, case);
    let table = chosen_table_in(&image, &ID).expect(rt, "a table is chosen");
    assert!(rt; image.slots.len() == 6);
    let bank = MemBank::new(rt.alloc(), image, plan, 1_000).expect(rt, "memory");
    check_slots(rt, &table, &bank);
    let buffer = Entry::new(rt.alloc()).expect(rt, "memory");
    Array {
        bank,
        table,
        entry: 3,
        buffer,
    }
}

// The devices at a crash after so many calls.
fn crashed(rt: &(impl Abort + AllocGlobal), bank: &MemBank, call: u64, choice: Choice) -> Image {
    assert!(rt; call <= bank.now());
    bank.image_after(rt.alloc(), call, choice)
        .expect(rt, "memory")
}

fn take(rt: &impl Abort, image: &mut Image, slot: usize) {
    assert!(rt; slot < image.slots.len());
    image.slots[slot] = None;
}

// Asks for the members' values in a row of an image. What fails is named by this number.
fn check_row(rt: &impl Abort, number: u64, image: &Image, table: &Table, row: u8) {
    assert!(rt; u64::from(row) < table.geometry.rows());
    let sources = row_sources_in(image, table, u64::from(row));
    for member in 0..4 {
        let mut sector = UNWRITTEN;
        assert!(rt; member < sources.members);
        sources.value_of(member, &mut sector);
        let is_so = sector == [byte(member, row); 512];
        same(
            rt,
            (number, row, member, is_so),
            (number, row, member, true),
        );
    }
}

// Asks for the values of rows 38 to 45, by the table that the image chooses.
fn check_values(rt: &impl Abort, number: u64, image: &Image) {
    let table = chosen_table_in(image, &ID).expect(rt, "a table is chosen");
    for row in 38..46 {
        check_row(rt, number, image, &table, row);
    }
}

// Asks for them at a crash, with this slot's device and without it.
fn check_crash(
    rt: &(impl Abort + AllocGlobal),
    bank: &MemBank,
    call: u64,
    choice: Choice,
    slot: usize,
) {
    let mut image = crashed(rt, bank, call, choice);
    check_values(rt, call, &image);
    take(rt, &mut image, slot);
    check_values(rt, call, &image);
}

// The choice at a crash of this number: each of three in turn.
fn in_turn(number: u64) -> Choice {
    match number % 3 {
        0 => Choice::Oldest,
        1 => Choice::Newest,
        _ => Choice::Mixed(3),
    }
}

// Checks the crashes in two steps of a rebuild.
fn check_steps(rt: &(impl Abort + AllocGlobal), is_whole: bool) {
    let mut array = array_of(rt, rebuilding(is_whole), Plan::NONE);
    let step = rebuild_step(&mut array, 3);
    same(rt, step, Ok(Progress::Position(43)));
    let step = rebuild_step(&mut array, 64);
    same(rt, step, Ok(Progress::Complete));
    let end = array.bank.now();
    for call in 0..end {
        check_crash(rt, &array.bank, call, in_turn(call), 1);
    }
    // The members say it by themselves.
    let mut image = crashed(rt, &array.bank, end, Choice::Oldest);
    take(rt, &mut image, 4);
    take(rt, &mut image, 5);
    check_values(rt, end, &image);
}

// Of the rows that are written, the entry holds the member's sector of each second one, or of all.
#[test]
fn crashes_in_steps_over_the_last_entry(rt: HostRuntime) {
    check_steps(&rt, false);
    check_steps(&rt, true);
}

// Checks a step of 3 rows in which a slot goes down at its first call from one on.
fn check_failure(rt: &(impl Abort + AllocGlobal), case: Case, slot: u8, call: u64) {
    let mut plan = Plan::NONE;
    assert!(rt; slot < 6);
    plan.down[slot as usize] = Some(call);
    let mut array = array_of(rt, case, plan);
    let step = rebuild_step(&mut array, 3);
    assert!(rt; slot < array.bank.devices());
    let wanted = match (array.bank.is_down(slot), slot) {
        (false, _) => Ok(Progress::Position(43)),
        (true, 1) => Err(Refusal::NothingToRebuild),
        (true, _) => Err(Refusal::TwoLost),
    };
    same(rt, (slot, call, step), (slot, call, wanted));
    let bank = &array.bank;
    check_crash(rt, bank, bank.now(), in_turn(call), 1);
}

// Three rows take 9 reads and 3 writes, and then there are a flush, and 6 writes and flushes of superblocks.
#[test]
fn each_device_down_in_a_step_over_the_last_entry(rt: HostRuntime) {
    for slot in 0..6 {
        for call in 0..26 {
            check_failure(&rt, rebuilding(false), slot, call);
            check_failure(&rt, rebuilding(true), slot, call);
        }
    }
}

// A sector of a device.
fn sector_of<'a>(rt: &impl Abort, image: &'a Image, slot: usize, at: usize) -> &'a Sector {
    assert!(rt; slot < image.slots.len());
    let device = image.slots[slot].as_deref().expect(rt, "there is a device");
    assert!(rt; at < device.len());
    &device[at]
}

// What the members have of the last entry is lost.
fn lose_held(rt: &impl Abort, image: &mut Image, is_whole: bool) {
    for row in 32..48u8 {
        for member in 0..4u8 {
            if is_held(is_whole, member, row) {
                let at = 8 + row as usize;
                put(rt, image, member as usize, at, &UNWRITTEN);
            }
        }
    }
}

// Asks that the new journal has the body and the seal of the other one, and nothing beside them.
fn check_copied(rt: &impl Abort, image: &Image, count: usize) {
    for at in 2..520usize {
        let is_copied = at == 3 || (at >= BODY && at - BODY < count);
        let wanted = match at {
            2 => [0; 512],
            _ => if is_copied {
                *sector_of(rt, image, 4, at)
            } else {
                UNWRITTEN
            },
        };
        let is_so = *sector_of(rt, image, 5, at) == wanted;
        same(rt, (at, is_so), (at, true));
    }
}

// Replaces a journal, which takes so many calls, and gives it so many sectors of a body. What it has of the last entry
// stands for what the members then lose.
fn check_journal(rt: &(impl Abort + AllocGlobal), is_whole: bool, count: usize, calls: u64) {
    let mut array = array_of(rt, without_journal(is_whole), Plan::NONE);
    same(rt, replace(&mut array, 5), Ok(()));
    let end = array.bank.now();
    same(rt, end, calls);
    for call in 0..end {
        check_crash(rt, &array.bank, call, in_turn(call), 5);
    }
    let mut image = crashed(rt, &array.bank, end, Choice::Oldest);
    check_copied(rt, &image, count);
    take(rt, &mut image, 4);
    lose_held(rt, &mut image, is_whole);
    check_values(rt, end, &image);
}

// The two seals of the other journal are read; two superblock places and both seals are cleared and flushed; each
// sector of the body is read and written, and they are flushed; then there are the seal, its flush, and the superblocks
// of all six.
#[test]
fn journal_gets_what_the_last_entry_holds(rt: HostRuntime) {
    check_journal(&rt, false, 32, 2 + 5 + 2 * 32 + 3 + 12);
    check_journal(&rt, true, 64, 2 + 5 + 2 * 64 + 3 + 12);
}

// Four steps of 64 rows are 256 rows, so a row done leaves as many still, of which the first is not full.
#[test]
fn steps_left_values(rt: HostRuntime) {
    same(&rt, steps_left(Format::One, 0, 256), 4);
    same(&rt, steps_left(Format::One, 1, 256), 4);
    same(&rt, steps_left(Format::One, 64, 256), 3);
    same(&rt, steps_left(Format::One, 255, 256), 1);
    same(&rt, steps_left(Format::One, 256, 256), 0);
}

// Steps of 4,096 rows, of a set of 256 rows and of the one with most.
#[test]
fn large_steps_left(rt: HostRuntime) {
    same(&rt, steps_left(Format::Two, 0, 256), 1);
    same(&rt, steps_left(Format::Two, 0, 4_294_967_280), 1_048_576);
    same(
        &rt,
        steps_left(Format::Two, 4_294_963_183, 4_294_967_280),
        2,
    );
    same(
        &rt,
        steps_left(Format::Two, 4_294_963_184, 4_294_967_280),
        1,
    );
}
