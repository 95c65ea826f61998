//! A set of 3 members, chunk 8 and 32 stripes, of which slots are marked missing.
use crate::Array;
use crate::testing::{
    BLANK, Failure, REBUILDING_1, Slots, WHOLE, WITHOUT_1, WITHOUT_4, all, bank_of, blank,
    check_sector, check_slots, holds, is_out, put, put_row, same, superblock, table_of,
};
use sector_model::{Bank, Image, MemBank, Refusal, Sector};
use std::process::Abort;
use stripe_journal::Entry;

/// A call of an open array, or what is asked of it.
pub(crate) enum Call {
    /// Marks this slot missing.
    Mark(u8, Result<(), Refusal>),
    /// Reads this logical sector, which is full of this byte.
    Read(u64, u8),
    /// Reads this logical sector, and is refused, since two are lost.
    Lost(u64),
    /// This device is down.
    Down(u8),
}

/// A call and its answer, how many device calls it makes, and the generation and slots of the array's table then.
pub(crate) type Step = (Call, u64, u8, Slots);

/// A set of these slots: superblocks of generation 1 stand in place 1, and its members have these bytes in row 32.
pub(crate) struct Set {
    pub slots: Slots,
    pub row: [u8; 4],
    pub failures: &'static [Failure],
}

// The image of the set.
fn image_of(rt: &(impl Abort + AllocGlobal), set: &Set) -> Image {
    let mut image = blank(rt, 3);
    put_row(rt, &mut image, 3, 32, &set.row);
    put_superblocks(rt, &mut image, &set.slots);
    image
}

fn put_superblocks(rt: &impl Abort, image: &mut Image, slots: &Slots) {
    for slot in 0..5u8 {
        put(rt, image, slot as usize, 1, &superblock(1, slot, slots));
    }
}

// The set's array.
fn array_of(rt: &(impl Abort + AllocGlobal), set: &Set) -> Array<MemBank> {
    let table = table_of(rt, 1, &set.slots);
    let entry = Entry::new(rt.alloc()).expect(rt, "memory");
    let bank = bank_of(rt, image_of(rt, set), set.failures);
    check_slots(rt, &table, &bank);
    Array {
        bank,
        table,
        entry: 0,
        buffer: entry,
    }
}

// Makes a call and asks for its answer.
fn make(rt: &impl Abort, array: &mut Array<MemBank>, call: &Call) {
    match call {
        Call::Mark(slot, answer) => {
            assert!(rt; *slot < array.table.geometry.members + 2);
            same(rt, array.mark_missing(*slot), *answer);
        }
        Call::Read(logical, byte) => {
            let mut to = all(0xee);
            same(rt, read(rt, array, *logical, &mut to), Ok(()));
            holds(rt, "logical sector", (*logical, 0), to == all(*byte));
        }
        Call::Lost(logical) => {
            let answer = read(rt, array, *logical, &mut all(0xee));
            same(rt, answer, Err(Refusal::TwoLost));
        }
        Call::Down(slot) => {
            assert!(rt; *slot < array.bank.devices() && array.bank.is_down(*slot));
        }
    }
}

fn read(
    rt: &impl Abort,
    array: &mut Array<MemBank>,
    logical: u64,
    to: &mut Sector,
) -> Result<(), Refusal> {
    assert!(rt; logical < array.table.geometry.data_sectors());
    array.read(logical, to)
}

// Makes the calls, in order.
fn make_each(rt: &impl Abort, array: &mut Array<MemBank>, steps: &[Step]) {
    for i in 0..steps.len() {
        let step = &steps[i];
        let before = array.bank.now();
        make(rt, array, &step.0);
        assert!(rt; before <= array.bank.now());
        same(rt, (i, array.bank.now() - before), (i, step.1));
        same(rt, array.table, table_of(rt, step.2, &step.3));
    }
}

/// Makes the calls on the set.
pub(crate) fn check(rt: &(impl Abort + AllocGlobal), set: &Set, steps: &[Step]) {
    let mut array = array_of(rt, set);
    make_each(rt, &mut array, steps);
}

// Makes the calls on the set, and asks for the superblocks that they leave.
fn check_marking(rt: &(impl Abort + AllocGlobal), set: &Set, steps: &[Step], new: &Slots) {
    let mut array = array_of(rt, set);
    make_each(rt, &mut array, steps);
    let mut bank = array.into_bank();
    check_marked(rt, &mut bank, &set.slots, new);
}

// Asks for the superblocks of generation 1 in place 1 of each slot, and those of generation 2 in place 0 of each slot
// that is not out then.
fn check_marked(rt: &impl Abort, bank: &mut MemBank, old: &Slots, new: &Slots) {
    for slot in 0..5 {
        check_sector(rt, bank, slot, 1, &superblock(1, slot, old));
        check_sector(rt, bank, slot, 2, &BLANK);
        if is_out(new, slot) {
            check_sector(rt, bank, slot, 0, &BLANK);
        } else {
            check_sector(rt, bank, slot, 0, &superblock(2, slot, new));
        }
    }
}

const FRESH: Set = Set {
    slots: WHOLE,
    row: [0; 4],
    failures: &[],
};

// The marking has two calls of each other slot. When it is missing already, no device is called. Another one may not
// go.
const MARKS: &[Step] = &[
    (Call::Mark(4, Ok(())), 8, 2, WITHOUT_4),
    (Call::Mark(4, Ok(())), 0, 2, WITHOUT_4),
    (Call::Mark(0, Err(Refusal::TwoLost)), 0, 2, WITHOUT_4),
];

#[test]
fn slot_is_marked(rt: HostRuntime) {
    check_marking(&rt, &FRESH, MARKS, &WITHOUT_4);
}

const REBUILDING: Set = Set {
    slots: REBUILDING_1,
    row: [0; 4],
    failures: &[],
};

// The position is 64 before, and 0 then.
const MARKS_REBUILDING: &[Step] = &[(Call::Mark(1, Ok(())), 8, 2, WITHOUT_1)];

#[test]
fn rebuilding_slot_is_marked(rt: HostRuntime) {
    check_marking(&rt, &REBUILDING, MARKS_REBUILDING, &WITHOUT_1);
}

// Device 2 goes down at its flush: calls 0 to 3 are writes to slots 0 to 3, and call 6 is the flush of slot 2.
const FAILING: Set = Set {
    slots: WHOLE,
    row: [0; 4],
    failures: &[(2, 6)],
};

// In memory the slot is missing, so that two are out.
const FAILURES: &[Step] = &[
    (Call::Mark(4, Err(Refusal::TwoLost)), 7, 2, WITHOUT_4),
    (Call::Down(2), 0, 2, WITHOUT_4),
];

#[test]
fn device_down_meanwhile(rt: HostRuntime) {
    check(&rt, &FAILING, FAILURES);
}
