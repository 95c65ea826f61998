//! What assembling finds after a crash in it, and what it does where devices fail in it, of a set of 3 members, chunk 8
//! and 32 stripes; and how many device calls it makes.
use super::tests::{check_published, check_table, opened};
use crate::testing::{
    AssemblySize, ROOM, SET_A, Shape, answer_failing, assembled, assembled_failing, check_missing,
    crashed, fresh, fresh_without, image_now, put_from, put_sector, same, sector_of, superblock,
    table_in,
};
use sector_model::{Bank, Choice, Image, MemBank, Refusal};
use std::process::Abort;
use superblock::decode;

// Each choice, and the first number of calls, counted from the first write, after which it leaves a superblock of
// generation 2 in the assembly of the set without slot 4. Four calls write these, and the four next ones flush them;
// `Mixed(1)` takes the newer of two in slot 0.
const CHOICES: [(Choice, u64); 3] = [
    (Choice::Oldest, 5),
    (Choice::Newest, 1),
    (Choice::Mixed(1), 1),
];

// The generation of the superblock in place 0 of a device, 0 where there is none.
fn generation_at(rt: &impl Abort, image: &Image, slot: usize) -> u64 {
    match decode(&sector_of(rt, image, slot, 0)) {
        Some(superblock) => superblock.table.generation,
        None => 0,
    }
}

// Whether a device of slots 0 to 3 has a superblock in place 0, which has to be of generation 2.
fn is_published(rt: &impl Abort, image: &Image) -> bool {
    let mut found = false;
    for slot in 0..4 {
        let generation = generation_at(rt, image, slot);
        same(rt, (slot, generation == 0 || generation == 2), (slot, true));
        found = found || generation == 2;
    }
    found
}

// Checks that the set is assembled without slot 4, and says so then.
fn check_without_4(rt: &(impl Abort + AllocGlobal), image: Image) {
    let array = assembled(rt, image);
    check_table(rt, &array, 2, 4, array.bank.now());
    check_published(rt, &image_now(rt, &array.bank, Choice::Newest));
}

// Checks what is assembled after a crash: without slot 4, and with its old device back.
fn check_crash(
    rt: &(impl Abort + AllocGlobal),
    bank: &MemBank,
    call: u64,
    choice: Choice,
    published: bool,
) {
    let image = crashed(rt, bank, call, choice);
    same(rt, (call, is_published(rt, &image)), (call, published));
    check_without_4(rt, image);

    let mut image = crashed(rt, bank, call, choice);
    put_from(rt, &mut image, 4, fresh(rt, SET_A));
    if published {
        check_without_4(rt, image);
    } else {
        // All five are there, and nothing tells that one was away.
        let array = assembled(rt, image);
        check_table(rt, &array, 1, 9, array.bank.now());
    }
}

#[test]
fn stops_in_assembly(rt: HostRuntime) {
    let size = AssemblySize::without(3, 4);
    let bank = opened(&rt, fresh_without(&rt, SET_A, 4), 2, 4, size.calls());
    for call in 0..size.calls() + 1 {
        for (choice, first) in CHOICES {
            let is_published = call >= first.saturating_add(size.before_marks());
            check_crash(&rt, &bank, call, choice, is_published);
        }
    }
}

// Checks the assembly without slot 4 where another slot goes down at its first call from this one on.
fn check_second_failure(rt: &(impl Abort + AllocGlobal), slot: u8, call: u64) {
    let size = AssemblySize::without(3, 4);
    let image = fresh_without(rt, SET_A, 4);
    let answer = answer_failing(rt, image, slot, call);
    let has_failed = call <= size.last_call(slot);
    same(rt, (slot, call, answer.is_err()), (slot, call, has_failed));
    match answer {
        Ok(array) => check_table(rt, &array, 2, 4, size.calls()),
        Err(returned) => same(rt, returned.refusal, Refusal::TwoLost),
    }
}

// Checks the assembly with all five where a slot goes down at its first call from this one on.
fn check_first_failure(rt: &(impl Abort + AllocGlobal), slot: u8, call: u64) {
    let size = AssemblySize::whole(3);
    let array = assembled_failing(rt, fresh(rt, SET_A), slot, call);
    if call <= size.last_call(slot) {
        check_table(rt, &array, 2, slot as usize, array.bank.now());
    } else {
        check_table(rt, &array, 1, 9, size.calls());
    }
}

#[test]
fn each_device_down_in_assembly(rt: HostRuntime) {
    for call in 0..AssemblySize::whole(3).calls() + 1 {
        for slot in 0..4u8 {
            check_second_failure(&rt, slot, call);
        }
        for slot in 0..5u8 {
            check_first_failure(&rt, slot, call);
        }
    }
}

#[test]
fn an_older_device_in_each_slot(rt: HostRuntime) {
    for slot in 0..5u8 {
        let size = AssemblySize::without(3, slot);
        let out = slot as usize;
        let bank = opened(&rt, fresh_without(&rt, SET_A, out), 2, out, size.calls());
        let mut image = image_now(&rt, &bank, Choice::Newest);
        put_from(&rt, &mut image, out, fresh(&rt, SET_A));
        let _ = opened(&rt, image, 2, out, size.calls_again(5));
    }
}

// Puts the superblock of generation 2 with this slot missing, and else as that of place 1, into place 0 of a device.
fn publish_by_hand(rt: &impl Abort, image: &mut Image, slot: usize, missing: usize) {
    assert!(rt; missing < 5);
    let mut sector = sector_of(rt, image, slot, 1);
    sector[24] = 2;
    sector[40 + 16 * missing] = 0;
    check_missing(rt, &table_in(rt, &sector), missing);
    put_sector(rt, image, slot, 0, &sector);
}

#[test]
fn equal_generations_with_another_table(rt: HostRuntime) {
    let mut image = fresh(&rt, SET_A);
    publish_by_hand(&rt, &mut image, 0, 4);
    publish_by_hand(&rt, &mut image, 1, 3);
    // Slots 1 to 3 are stale, and get a write and a flush each before the two reads of seals.
    let calls = AssemblySize::without(3, 4).calls_again(5) + 2 * 3;
    let bank = opened(&rt, image, 2, 4, calls);
    check_published(&rt, &image_now(&rt, &bank, Choice::Newest));
    // They are safe.
    check_published(&rt, &crashed(&rt, &bank, calls - 2, Choice::Oldest));
}

// Checks that a set of this shape that was just made is assembled at generation 1 by reads alone: no write or flush
// takes room in the log.
fn check_reads(rt: &(impl Abort + AllocGlobal), shape: Shape) {
    let array = assembled(rt, fresh(rt, shape));
    let size = AssemblySize::whole(shape.0);
    same(rt, size.reads(), size.calls());
    check_table(rt, &array, 1, 10, size.calls());
    same(rt, array.bank.room, ROOM);
    let now = image_now(rt, &array.bank, Choice::Newest);
    assert!(rt; now.slots == fresh(rt, shape).slots);
}

// A set of 8 members, chunk 128 and 2 stripes.
#[test]
fn a_large_set(rt: HostRuntime) {
    check_reads(&rt, (8, 128, 2));
}

#[test]
fn device_calls_of_assembly(rt: HostRuntime) {
    check_reads(&rt, SET_A);
}
