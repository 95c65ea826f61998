//! A set of 3 members, chunk 8 and 32 stripes that is assembled on devices that were away, came back, or fail.
use crate::testing::{
    AssemblySize, ID, OTHER_ID, SET_A, answer, assembled, assembled_failing, check_missing, fresh,
    fresh_without, image_now, left, put_from, refusal_of, same, sector_of, table_in,
};
use array_io::Array;
use sector_model::{Bank, Choice, Image, MemBank, Plan, Refusal};
use std::process::Abort;
use superblock::State;

// Checks the generation of an array's table, which slot that calls missing, and how many calls were made.
pub(crate) fn check_table(
    rt: &impl Abort,
    array: &Array<MemBank>,
    generation: u64,
    missing: usize,
    calls: u64,
) {
    same(
        rt,
        (array.table.generation, array.bank.now()),
        (generation, calls),
    );
    check_missing(rt, &array.table, missing);
}

// The bank of the array that is assembled on these devices, of which that is checked.
pub(crate) fn opened(
    rt: &(impl Abort + AllocGlobal),
    image: Image,
    generation: u64,
    missing: usize,
    calls: u64,
) -> MemBank {
    let array = assembled(rt, image);
    check_table(rt, &array, generation, missing, calls);
    array.into_bank()
}

// Checks that the devices of slots 0 to 3 carry generation 2 in place 0, with slot 4 missing.
pub(crate) fn check_published(rt: &impl Abort, image: &Image) {
    for slot in 0..4 {
        let table = table_in(rt, &sector_of(rt, image, slot, 0));
        same(
            rt,
            (slot, table.generation, table.states[4]),
            (slot, 2, State::Missing),
        );
    }
}

#[test]
fn all_there(rt: HostRuntime) {
    let calls = AssemblySize::whole(3).calls();
    let _ = opened(&rt, fresh(&rt, SET_A), 1, 9, calls);
}

#[test]
fn journal_away_and_back(rt: HostRuntime) {
    let size = AssemblySize::without(3, 4);
    let bank = opened(&rt, fresh_without(&rt, SET_A, 4), 2, 4, size.calls());
    let image = image_now(&rt, &bank, Choice::Newest);
    check_published(&rt, &image);
    // Assembled again, nothing is written.
    let bank = opened(&rt, image, 2, 4, size.calls_again(4));
    // The device that was away is back: what it says is older.
    let mut image = image_now(&rt, &bank, Choice::Newest);
    check_published(&rt, &image);
    put_from(&rt, &mut image, 4, fresh(&rt, SET_A));
    let _ = opened(&rt, image, 2, 4, size.calls_again(5));
}

#[test]
fn a_device_fails_while_superblocks_are_read_again(rt: HostRuntime) {
    let call = AssemblySize::whole(3).last_call(2);
    let array = assembled_failing(&rt, fresh(&rt, SET_A), 2, call);
    // After the read that fails, four writes and four flushes, and four reads of seals.
    check_table(&rt, &array, 2, 2, call + 1 + 4 + 4 + 4);
}

// Checks that assembling the set of this id on these devices is refused so, after so many calls.
fn check_refused(
    rt: &(impl Abort + AllocGlobal),
    image: Image,
    id: [u8; 16],
    refusal: Refusal,
    calls: u64,
) {
    let answer = answer(rt, image, Plan::NONE, id);
    same(rt, refusal_of(rt, answer), (refusal, calls));
}

#[test]
fn two_lost_and_no_set(rt: HostRuntime) {
    let calls = AssemblySize::without(3, 0).calls();
    let bank = opened(&rt, fresh_without(&rt, SET_A, 0), 2, 0, calls);
    let image = left(&rt, &bank, bank.now(), Choice::Newest, 3);
    // Two reads of each device that is there.
    check_refused(&rt, image, ID, Refusal::TwoLost, 2 * 3);
    check_refused(&rt, fresh(&rt, SET_A), OTHER_ID, Refusal::NoSet, 2 * 5);
}
