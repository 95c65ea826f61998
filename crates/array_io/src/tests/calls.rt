//! Device calls on a set of 3 members as lists, and what the crashes among them are asked.
use super::crashes::{Wanted, crash_holds, first_bad_crash, image_at, members_hold};
use super::steps::{Put, check_table, made_with};
use crate::testing::{
    BLANK, Row, Slots, all, bank_of, entry_of, holds, put, same, seal, superblock,
};
use layout_map::Geometry;
use sector_model::{Bank, Choice, MemBank, Sector, flush_device, write_sector};
use std::process::Abort;
use stripe_journal::{seal_decode, write_body, write_seal};

/// The number of the entry that is committed.
const NUMBER: u8 = 3;

// Its row, as it becomes: the parity is that of member 1.
const ROWS: &[Row] = &[(32, 0x07, [0x05, 0x27, 0x22, 0])];

/// Calls of the device in a slot.
pub(crate) enum Call {
    /// Writes the body of the entry.
    Body(u8),
    /// Writes the seal of the entry.
    Seal(u8),
    /// Writes the row of the entry, of which this is the member's byte.
    Row(u8, u8),
    /// Writes rows 0 to 63 of member 0: the XOR of what the two others have.
    Rows,
    /// Writes the superblock of this generation.
    Table(u8, u8, Slots),
    Flush(u8),
}

/// What the crashes among the calls are asked.
pub(crate) enum Asked {
    /// So many device calls were made.
    Calls(u64),
    /// The number of calls of the first crash that may leave a case which is not as wanted, if there is one.
    FirstBad(Wanted, Option<u64>),
    /// Whether a crash after so many calls leaves what is wanted.
    Stop(u64, Wanted, bool),
    /// Whether the members alone show what is wanted once all calls are done.
    Members(Wanted, bool),
    /// The generation and the slots of the table of the image that a crash after so many calls may leave.
    Table(u64, Choice, u8, Slots),
    /// The same once the superblock in place 1 of slot 2 is gone.
    TableWithout2(u64, Choice, u8, Slots),
}

fn write(rt: &impl Abort, bank: &mut MemBank, dev: u8, at: u32, sector: &Sector) {
    assert!(rt; dev < bank.devices() && at < bank.sectors(dev));
    same(rt, write_sector(bank, dev, at, sector), Ok(()));
}

fn write_entry_seal(rt: &impl Abort, bank: &mut MemBank, journal: u8) {
    let seal = seal_decode(&seal(NUMBER, [32, 0])).expect(rt, "it is a seal");
    assert!(rt; journal < bank.devices() && 520 <= bank.sectors(journal));
    same(rt, write_seal(bank, journal, &seal), Ok(()));
}

fn write_entry_body(rt: &(impl Abort + AllocGlobal), bank: &mut MemBank, journal: u8) {
    let geometry = Geometry::new(3, 8, 32).expect(rt, "it is a geometry");
    let entry = entry_of(rt, ROWS);
    assert!(rt; journal < bank.devices() && 520 <= bank.sectors(journal));
    assert!(rt; entry.body_len(geometry.members) <= geometry.format.body_sectors());
    let answer = write_body(bank, journal, u64::from(NUMBER), &entry, &geometry);
    same(rt, answer, Ok(()));
}

fn write_rows(rt: &impl Abort, bank: &mut MemBank) {
    for row in 0..64u8 {
        write(
            rt,
            bank,
            0,
            8 + u32::from(row),
            &all((1 + row) ^ (0x80 + row)),
        );
    }
}

fn flush(rt: &impl Abort, bank: &mut MemBank, dev: u8) {
    assert!(rt; dev < bank.devices());
    same(rt, flush_device(bank, dev), Ok(()));
}

fn make(rt: &(impl Abort + AllocGlobal), bank: &mut MemBank, call: &Call) {
    match call {
        Call::Body(dev) => write_entry_body(rt, bank, *dev),
        Call::Seal(dev) => write_entry_seal(rt, bank, *dev),
        Call::Row(dev, byte) => write(rt, bank, *dev, 40, &all(*byte)),
        Call::Rows => write_rows(rt, bank),
        Call::Table(dev, generation, slots) => {
            let sector = superblock(*generation, *dev, slots);
            write(rt, bank, *dev, u32::from(*generation % 2), &sector);
        }
        Call::Flush(dev) => flush(rt, bank, *dev),
    }
}

fn make_each(rt: &(impl Abort + AllocGlobal), bank: &mut MemBank, calls: &[Call]) {
    for call in calls {
        make(rt, bank, call);
    }
}

// Asks for the table of the image that a crash leaves, without the superblock in place 1 of slot 2 where that is so.
fn check_crash_table(
    rt: &(impl Abort + AllocGlobal),
    bank: &MemBank,
    crash: (u64, Choice),
    table: (u8, &Slots),
    is_without_2: bool,
) {
    let mut image = image_at(rt, bank, crash.0, crash.1);
    if is_without_2 {
        put(rt, &mut image, 2, 1, &BLANK);
    }
    check_table(rt, &image, crash.0, table.0, table.1);
}

fn ask(rt: &(impl Abort + AllocGlobal), bank: &MemBank, asked: &Asked) {
    match asked {
        Asked::Calls(calls) => same(rt, bank.now(), *calls),
        Asked::FirstBad(wanted, call) => same(rt, first_bad_crash(rt, bank, wanted), *call),
        Asked::Stop(call, wanted, is_so) => {
            let got = crash_holds(rt, bank, *call, wanted);
            holds(rt, "crash after call", (*call, 0), got == *is_so);
        }
        Asked::Members(wanted, is_so) => same(rt, members_hold(rt, bank, wanted), *is_so),
        Asked::Table(call, choice, generation, slots) => {
            check_crash_table(rt, bank, (*call, *choice), (*generation, slots), false);
        }
        Asked::TableWithout2(call, choice, generation, slots) => {
            check_crash_table(rt, bank, (*call, *choice), (*generation, slots), true);
        }
    }
}

fn ask_each(rt: &(impl Abort + AllocGlobal), bank: &MemBank, asks: &[Asked]) {
    for asked in asks {
        ask(rt, bank, asked);
    }
}

/// Makes the calls on a set that was just made and has these on it, and asks.
pub(crate) fn check(
    rt: &(impl Abort + AllocGlobal),
    before: &[Put],
    calls: &[Call],
    asks: &[Asked],
) {
    let mut bank = bank_of(rt, made_with(rt, before), &[]);
    make_each(rt, &mut bank, calls);
    ask_each(rt, &bank, asks);
}
