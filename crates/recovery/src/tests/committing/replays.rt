//! Assembling a set of 3 members, chunk 8 and 32 stripes whose last entry is copied to a journal or replayed on
//! members: crashes in it, devices that fail in it, and how many device calls it makes. Row 32 has logical sectors 72
//! and 64 on members 0 and 2, row 33 has 73 and 65; the parity of both is on member 1. An entry holds what was
//! committed, and parity.
use super::{List, check_members, check_sectors, checked, commit, table_of};
use crate::Returned;
use crate::testing::{
    AssemblySize, CommitSize, ID, ROOM, SET_A, Shape, answer_failing, assembled, assembled_failing,
    check_missing, crashed, fails_at, fresh, geometry_of, image_now, left, made, put_from, same,
    sector_of,
};
use array_io::Array;
use sector_model::{Bank, Choice, Image, MemBank, Plan, Refusal};
use std::process::Abort;
use stripe_journal::oracle::last_sealed_in;

// What entry 1 says.
static OLD: [(u64, u8); 4] = [(64, 0x11), (65, 0x77), (72, 0x05), (73, 0x09)];

// Entry 2 of one row: what is committed, and what is there then.
static ONE: [(u64, u8); 1] = [(64, 0x22)];

static AFTER_ONE: [(u64, u8); 4] = [(64, 0x22), (65, 0x77), (72, 0x05), (73, 0x09)];

// The run in which it is committed begins with the assembly of entry 1, of two rows.
const BEGINNING: AssemblySize = AssemblySize {
    members: 3,
    out: None,
    masks: &[0x07, 0x07],
    is_copied: false,
};

const OF_ONE: CommitSize = CommitSize {
    members: 3,
    masks: &[0x06],
};

// Crashes in that run after the first seal, after its flush, and after the flush of the second one.
fn after_seal_3() -> u64 {
    BEGINNING.calls() + OF_ONE.before_seals() + 1
}

fn between_seals() -> u64 {
    BEGINNING.calls() + OF_ONE.between_seals()
}

fn after_seals() -> u64 {
    BEGINNING.calls() + OF_ONE.before_members()
}

// Entry 2 of two rows: what is committed, and what is there then.
static TWO: [(u64, u8); 3] = [(64, 0x22), (65, 0x33), (72, 0x44)];

static AFTER_TWO: [(u64, u8); 4] = [(64, 0x22), (65, 0x33), (72, 0x44), (73, 0x09)];

const OF_TWO: CommitSize = CommitSize {
    members: 3,
    masks: &[0x07, 0x06],
};

// No slot of the set.
const NONE: usize = 5;

// The bank of a run that is assembled with entry 1, and then commits these sectors.
fn committed(rt: &(impl Abort + AllocGlobal), sectors: List) -> MemBank {
    let mut first = made(rt, SET_A);
    commit(rt, &mut first, &OLD);
    let image = image_now(rt, &first.bank, Choice::Newest);
    let mut array = assembled(rt, image);
    same(rt, array.bank.now(), BEGINNING.calls());
    commit(rt, &mut array, sectors);
    array.into_bank()
}

// Checks that a journal has the seal of entry 2 of `ONE`.
fn check_seal(rt: &impl Abort, image: &Image, slot: usize) {
    assert!(rt; slot < image.slots.len());
    let last = last_sealed_in(&image.slots[slot], &ID, &geometry_of(rt, SET_A));
    let seal = last.expect(rt, "a seal counts");
    let is_row = seal.form.rows() == [32].as_slice();
    same(rt, (slot, seal.number, is_row), (slot, 2, true));
}

// Checks that a journal has the body of entry 2 of `ONE`.
fn check_body(rt: &impl Abort, image: &Image, slot: usize) {
    let body = [0x27, 0x22];
    for i in 0..2 {
        let is_byte = sector_of(rt, image, slot, 8 + i) == [body[i]; 512];
        same(rt, (slot, i, is_byte), (slot, i, true));
    }
}

// Checks that both journals have entry 2 of `ONE`, with equal seals and bodies.
fn check_journals(rt: &impl Abort, image: &Image) {
    for slot in [3, 4] {
        check_seal(rt, image, slot);
        check_body(rt, image, slot);
    }
    assert!(rt; sector_of(rt, image, 3, 2) == sector_of(rt, image, 4, 2));
}

// Checks that after a crash and an assembly without slot 0, whatever has landed of that.
fn check_journals_after(rt: &(impl Abort + AllocGlobal), bank: &MemBank, call: u64) {
    let image = left(rt, bank, call, Choice::Newest, 0);
    let array = checked(rt, image, 0, &AFTER_ONE);
    check_journals(rt, &image_now(rt, &array.bank, Choice::Oldest));
    check_journals(rt, &image_now(rt, &array.bank, Choice::Newest));
}

#[test]
fn journals_equal_after_assembly(rt: HostRuntime) {
    let bank = committed(&rt, &ONE);
    check_journals_after(&rt, &bank, after_seal_3());
    check_journals_after(&rt, &bank, between_seals());
}

// Checks that a set is complete at generation 1 and reads so, and that its members say so by themselves, each row
// sound.
fn check_whole(rt: &(impl Abort + AllocGlobal), array: &mut Array<MemBank>, list: List) {
    same(rt, array.table.generation, 1);
    check_missing(rt, &array.table, NONE);
    check_sectors(rt, array, list);
    check_members(rt, &array.bank, &[0, 32, 33, 255], list);
}

// Checks what is assembled after a crash in the commit of `TWO`, and after a crash at each call of that assembly.
fn check_crash(
    rt: &(impl Abort + AllocGlobal),
    bank: &MemBank,
    call: u64,
    choice: Choice,
    list: List,
) {
    let mut array = assembled(rt, crashed(rt, bank, call, choice));
    let calls = array.bank.now();
    check_whole(rt, &mut array, list);
    for later in 0..calls {
        let image = crashed(rt, &array.bank, later, choice);
        check_whole(rt, &mut assembled(rt, image), list);
    }
}

// Checks a crash at each call of the commit of `TWO`. After `first` calls from the first seal on, which the second of
// them makes safe, the new sectors are there.
fn check_crashes(rt: &(impl Abort + AllocGlobal), choice: Choice, first: u64) {
    let bank = committed(rt, &TWO);
    let from = BEGINNING.calls();
    let end = from + OF_TWO.calls();
    same(rt, bank.now(), end);
    let sealed = first.saturating_add(from + OF_TWO.before_seals());
    for call in from..end + 1 {
        let list = if call < sealed { &OLD } else { &AFTER_TWO };
        check_crash(rt, &bank, call, choice, list);
    }
}

#[test]
fn stops_in_commit_and_assembly_oldest(rt: HostRuntime) {
    check_crashes(&rt, Choice::Oldest, 2);
}

#[test]
fn stops_in_commit_and_assembly_newest(rt: HostRuntime) {
    check_crashes(&rt, Choice::Newest, 1);
}

// Of the two candidates of the first seal, in sector 2 of slot 3, it takes number (3 + 7 * 3 + 2) mod 2, the older one.
#[test]
fn stops_in_commit_and_assembly_mixed(rt: HostRuntime) {
    check_crashes(&rt, Choice::Mixed(3), 2);
}

// An image that a crash in the commit of `ONE` leaves, and the assembly on it.
#[derive(Clone, Copy)]
struct Begin {
    crash: u64,
    size: AssemblySize<'static>,
}

// Both journals have the entry.
fn sealed() -> Begin {
    Begin {
        crash: after_seals(),
        size: REPLAYED,
    }
}

const REPLAYED: AssemblySize = AssemblySize {
    members: 3,
    out: None,
    masks: &[0x06],
    is_copied: false,
};

// Slot 4 lacks the entry.
fn stale_journal() -> Begin {
    Begin {
        crash: between_seals(),
        size: COPIED,
    }
}

const COPIED: AssemblySize = AssemblySize {
    members: 3,
    out: None,
    masks: &[0x06],
    is_copied: true,
};

// Checks what is assembled after a crash that leaves each device: by the table that they choose, in which this slot is
// missing from generation 2 on.
fn check_with(rt: &(impl Abort + AllocGlobal), image: Image, slot: u8, list: List) {
    let table = table_of(rt, &image);
    let missing = if table.generation == 1 {
        NONE
    } else {
        slot as usize
    };
    same(rt, checked(rt, image, missing, list).table, table);
}

// Checks what is assembled after a crash without the device of this slot.
fn check_without(rt: &(impl Abort + AllocGlobal), bank: &MemBank, call: u64, slot: u8, list: List) {
    let image = left(rt, bank, call, Choice::Newest, slot as usize);
    same(
        rt,
        checked(rt, image, slot as usize, list).table.generation,
        2,
    );
}

// The array that is assembled where a slot goes down at its first call from this one on: the slot is missing where it
// is called then.
fn with_failure(
    rt: &(impl Abort + AllocGlobal),
    bank: &MemBank,
    begin: &Begin,
    slot: u8,
    call: u64,
) -> Array<MemBank> {
    let image = crashed(rt, bank, begin.crash, Choice::Oldest);
    let mut array = assembled_failing(rt, image, slot, call);
    let has_failed = call <= begin.size.last_call(slot);
    let missing = if has_failed { slot as usize } else { NONE };
    check_missing(rt, &array.table, missing);
    same(rt, array.table.generation, if has_failed { 2 } else { 1 });
    array.bank.plan = Plan::NONE;
    array
}

// Checks a crash at each call of an assembly from this one on, with the device of the slot that goes down and without
// it.
fn check_later_crashes(rt: &(impl Abort + AllocGlobal), bank: &MemBank, slot: u8, call: u64) {
    let calls = bank.now();
    assert!(rt; calls < 1_000);
    for later in call.min(calls)..calls + 1 {
        let image = crashed(rt, bank, later, Choice::Newest);
        check_with(rt, image, slot, &AFTER_ONE);
        check_without(rt, bank, later, slot, &AFTER_ONE);
    }
}

// Checks the assembly in which a slot goes down at its first call from this one on, and a crash at each later call of
// it, with the device of the slot and without it.
fn check_failure(
    rt: &(impl Abort + AllocGlobal),
    bank: &MemBank,
    begin: &Begin,
    slot: u8,
    call: u64,
) {
    let mut array = with_failure(rt, bank, begin, slot, call);
    check_sectors(rt, &mut array, &AFTER_ONE);
    check_later_crashes(rt, &array.bank, slot, call);
}

#[test]
fn each_member_down_in_assembly(rt: HostRuntime) {
    let bank = committed(&rt, &ONE);
    for slot in 0..3u8 {
        for call in 0..REPLAYED.calls() + 1 {
            check_failure(&rt, &bank, &sealed(), slot, call);
        }
        for call in 0..COPIED.calls() + 1 {
            check_failure(&rt, &bank, &stale_journal(), slot, call);
        }
    }
}

#[test]
fn each_journal_down_in_assembly(rt: HostRuntime) {
    let bank = committed(&rt, &ONE);
    for call in 0..REPLAYED.calls() + 1 {
        check_failure(&rt, &bank, &sealed(), 3, call);
        check_failure(&rt, &bank, &sealed(), 4, call);
    }
    for call in 0..COPIED.calls() + 1 {
        check_failure(&rt, &bank, &stale_journal(), 4, call);
    }
}

// Checks a crash at each call of an assembly without the device of slot 3, which alone has entry 2 when it begins: the
// entry before is there until slot 4 has the seal, which is flushed before the first write to a member.
#[test]
fn source_lost_in_a_copy(rt: HostRuntime) {
    let bank = committed(&rt, &ONE);
    let calls = COPIED.calls();
    for call in COPIED.before_copy()..calls + 1 {
        let mut array = with_failure(&rt, &bank, &stale_journal(), 3, call);
        same(&rt, array.bank.now(), calls);
        check_sectors(&rt, &mut array, &AFTER_ONE);
    }
    let array = with_failure(&rt, &bank, &stale_journal(), 3, calls);
    for later in 0..calls + 1 {
        let has_seal = later + 1 >= COPIED.before_members();
        let list = if has_seal { &AFTER_ONE } else { &OLD };
        check_without(&rt, &array.bank, later, 3, list);
    }
}

// Checks a crash at each call from this one on of an assembly in which slot 3 goes down: with its device back the entry
// is there until generation 2 calls the slot missing, and without it the entry before.
fn check_crashes_without_source(rt: &(impl Abort + AllocGlobal), bank: &MemBank, call: u64) {
    let calls = bank.now();
    assert!(rt; calls < 1_000);
    for later in call.min(calls)..calls + 1 {
        let image = crashed(rt, bank, later, Choice::Newest);
        let is_first = table_of(rt, &image).generation == 1;
        check_with(rt, image, 3, if is_first { &AFTER_ONE } else { &OLD });
        check_without(rt, bank, later, 3, &OLD);
    }
}

// Checks an assembly in which slot 3 goes down at its first call from this one on, which alone had entry 2, and a crash
// at each later call of it.
fn check_lost_source(rt: &(impl Abort + AllocGlobal), bank: &MemBank, call: u64) {
    let mut array = with_failure(rt, bank, &stale_journal(), 3, call);
    check_sectors(rt, &mut array, &OLD);
    check_crashes_without_source(rt, &array.bank, call);
}

#[test]
fn source_lost_before_a_copy(rt: HostRuntime) {
    let bank = committed(&rt, &ONE);
    for call in 0..COPIED.before_copy() {
        check_lost_source(&rt, &bank, call);
    }
}

// The assembly without slot 0, with the entry on both journals.
const WITHOUT_0: AssemblySize = AssemblySize {
    members: 3,
    out: Some(0),
    masks: &[0x06],
    is_copied: false,
};

// Checks an assembly in which no slot but 0 is lost.
fn check_one_lost(rt: &impl Abort, array: &mut Array<MemBank>) {
    same(rt, array.bank.now(), WITHOUT_0.calls());
    check_missing(rt, &array.table, 0);
    array.bank.plan = Plan::NONE;
    check_sectors(rt, array, &AFTER_ONE);
}

// Checks an assembly in which a second slot is lost: all that was committed is there once the device of slot 0 is back,
// and the one that went down.
fn check_two_lost(rt: &(impl Abort + AllocGlobal), returned: &Returned<MemBank>, first: &MemBank) {
    same(rt, returned.refusal, Refusal::TwoLost);
    for choice in [Choice::Oldest, Choice::Newest] {
        let mut image = image_now(rt, &returned.bank, choice);
        put_from(
            rt,
            &mut image,
            0,
            crashed(rt, first, after_seals(), Choice::Oldest),
        );
        check_with(rt, image, 0, &AFTER_ONE);
    }
}

// Checks the assembly without slot 0 where another slot goes down at its first call from this one on.
fn check_second_failure(rt: &(impl Abort + AllocGlobal), bank: &MemBank, slot: u8, call: u64) {
    let image = left(rt, bank, after_seals(), Choice::Oldest, 0);
    let answer = answer_failing(rt, image, slot, call);
    let has_failed = call <= WITHOUT_0.last_call(slot);
    same(rt, (slot, call, answer.is_err()), (slot, call, has_failed));
    match answer {
        Ok(mut array) => check_one_lost(rt, &mut array),
        Err(returned) => check_two_lost(rt, &returned, bank),
    }
}

#[test]
fn two_slots_down_in_assembly(rt: HostRuntime) {
    let bank = committed(&rt, &ONE);
    for slot in 1..5u8 {
        for call in 0..WITHOUT_0.calls() + 1 {
            check_second_failure(&rt, &bank, slot, call);
        }
    }
}

// Checks what is assembled with the old device back in slot 2, which failed in a commit of logical sector 64, after
// another one without it.
fn check_old_device(rt: &(impl Abort + AllocGlobal), bank: &MemBank, choice: Choice) {
    let image = left(rt, bank, bank.now(), choice, 2);
    let mut array = checked(rt, image, 2, &[(64, 0x66), (65, 0x77), (72, 0x05)]);
    commit(rt, &mut array, &[(64, 0x99)]);
    let mut image = image_now(rt, &array.bank, Choice::Newest);
    put_from(rt, &mut image, 2, image_now(rt, bank, choice));
    let array = checked(rt, image, 2, &[(64, 0x99), (65, 0x77), (72, 0x05)]);
    same(rt, array.table.generation, 2);
}

// Checks the same of the set on this bank, where slot 2 goes down at this call in a commit.
fn check_comes_back(rt: &(impl Abort + AllocGlobal), bank: &MemBank, call: u64) {
    let mut array = assembled(rt, image_now(rt, bank, Choice::Newest));
    array.bank.plan = fails_at(rt, &[2], call);
    commit(rt, &mut array, &[(64, 0x66)]);
    check_missing(rt, &array.table, 2);
    check_old_device(rt, &array.bank, Choice::Oldest);
    check_old_device(rt, &array.bank, Choice::Newest);
}

#[test]
fn an_old_device_comes_back(rt: HostRuntime) {
    let mut first = made(&rt, SET_A);
    commit(&rt, &mut first, &OLD);
    // Slot 2 goes down at the write of its row, or at the flush, which are the last calls.
    let end = BEGINNING.calls() + OF_ONE.calls();
    for call in [end.saturating_sub(2), end.saturating_sub(1)] {
        check_comes_back(&rt, &first.bank, call);
    }
}

// An entry of a set that is assembled: the set, what is committed, and what that changes in its rows.
#[derive(Clone, Copy)]
struct Replay<'a> {
    shape: Shape,
    given: List<'a>,
    masks: &'a [u8],
}

static REPLAYS: [Replay; 3] = [
    Replay {
        shape: SET_A,
        given: &[(64, 0x22)],
        masks: &[0x06],
    },
    Replay {
        shape: SET_A,
        given: &[(64, 0x22), (65, 0x33)],
        masks: &[0x06, 0x06],
    },
    Replay {
        shape: (8, 8, 32),
        given: &[(64, 0x22)],
        masks: &[0x41],
    },
];

// The array that is assembled on these devices by the calls of this size, and reads of which give these logical
// sectors: each write or flush takes room in the log.
fn assembled_by(
    rt: &(impl Abort + AllocGlobal),
    image: Image,
    size: AssemblySize,
    list: List,
) -> Array<MemBank> {
    let mut array = assembled(rt, image);
    let changes = ROOM.saturating_sub(array.bank.room) as u64;
    let reads = array.bank.now().saturating_sub(changes);
    let calls = size.calls();
    same(
        rt,
        (reads, changes),
        (size.reads(), calls.saturating_sub(size.reads())),
    );
    check_sectors(rt, &mut array, list);
    array
}

// Checks the assembly after a crash, without the device of the slot that is out.
fn check_assembly(
    rt: &(impl Abort + AllocGlobal),
    bank: &MemBank,
    crash: u64,
    size: AssemblySize,
    list: List,
) {
    let absent = size.out.map_or(10, usize::from);
    let image = left(rt, bank, crash, Choice::Oldest, absent);
    let _ = assembled_by(rt, image, size, list);
}

// Checks the assemblies of an entry that one journal has after so many calls, and both have after so many: with all
// there, without a member, and without a journal.
fn check_assemblies(
    rt: &(impl Abort + AllocGlobal),
    bank: &MemBank,
    replay: &Replay,
    stale_journal: u64,
    sealed: u64,
) {
    let members = replay.shape.0;
    let size = AssemblySize {
        members,
        out: None,
        masks: replay.masks,
        is_copied: false,
    };
    let copied = AssemblySize {
        is_copied: true,
        ..size
    };
    check_assembly(rt, bank, stale_journal, copied, replay.given);
    for out in [None, Some(0), Some(members)] {
        check_assembly(rt, bank, sealed, AssemblySize { out, ..size }, replay.given);
    }
}

// Checks the assemblies of the entry of a set.
fn check_replay(rt: &(impl Abort + AllocGlobal), replay: &Replay) {
    let mut array = assembled(rt, fresh(rt, replay.shape));
    let from = array.bank.now();
    assert!(rt; from < 1_000);
    commit(rt, &mut array, replay.given);
    let size = CommitSize {
        members: replay.shape.0,
        masks: replay.masks,
    };
    let (stale_journal, sealed) = (size.between_seals(), size.before_members());
    check_assemblies(rt, &array.bank, replay, from + stale_journal, from + sealed);
}

#[test]
fn device_calls_of_a_replay(rt: HostRuntime) {
    for replay in &REPLAYS {
        check_replay(&rt, replay);
    }
}

// Checks that an array is assembled again by the same calls, and that each sector and the table stay.
fn check_again(rt: &(impl Abort + AllocGlobal), array: &Array<MemBank>) -> Array<MemBank> {
    let image = image_now(rt, &array.bank, Choice::Newest);
    let again = assembled_by(rt, image, REPLAYED, &AFTER_ONE);
    same(rt, again.table, array.table);
    check_equal(rt, &again.bank, Choice::Newest, &array.bank);
    again
}

// Asks that a crash now leaves on a bank what it leaves on another where all that was written has landed.
fn check_equal(rt: &(impl Abort + AllocGlobal), bank: &MemBank, choice: Choice, other: &MemBank) {
    let image = image_now(rt, bank, choice);
    let other = image_now(rt, other, Choice::Newest);
    assert!(rt; image.slots == other.slots);
}

// Checks that twice after the assembly of a crash.
fn check_again_twice(rt: &(impl Abort + AllocGlobal), bank: &MemBank, call: u64) {
    let array = assembled(rt, crashed(rt, bank, call, Choice::Oldest));
    // All that was written is safe.
    check_equal(rt, &array.bank, Choice::Oldest, &array.bank);
    let again = check_again(rt, &array);
    let _ = check_again(rt, &again);
}

#[test]
fn assembling_again_changes_nothing(rt: HostRuntime) {
    let bank = committed(&rt, &ONE);
    check_again_twice(&rt, &bank, between_seals());
    check_again_twice(&rt, &bank, after_seals());
}
