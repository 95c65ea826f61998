//! A set of 3 members, chunk 8 and 32 stripes that is assembled on devices with sectors that were forged.
use super::tests::check_table;
use crate::testing::{
    AssemblySize, BLANK, ID, ROOM, SET_A, answer, assembled, devices, fresh, put_sector,
    refusal_of, same, sector_of, superblock,
};
use layout_map::Format;
use sector_model::{Bank, Image, Plan, Refusal, Sector};
use std::process::Abort;

// Puts a byte between the fields of the superblock of a slot, in sector 1: bytes 216 to 503 of a superblock are zeros.
fn fill(rt: &impl Abort, image: &mut Image, slot: usize) {
    let mut sector = sector_of(rt, image, slot, 1);
    sector[216] = 1;
    put_sector(rt, image, slot, 1, &sector);
}

// Slot 0 has no superblock that counts. The other four get generation 2 after two reads of each slot, by a write and a
// flush each, and then the two seals of each journal are read.
#[test]
fn forged_filler(rt: HostRuntime) {
    let mut image = fresh(&rt, SET_A);
    fill(&rt, &mut image, 0);
    check_table(&rt, &assembled(&rt, image), 2, 0, 2 * 5 + 2 * 4 + 2 * 2);
    forged_filler_on_all(&rt);
}

// No slot has one. Each is read twice, and nothing is written.
fn forged_filler_on_all(rt: &(impl Abort + AllocGlobal)) {
    let mut image = fresh(rt, SET_A);
    for slot in 0..5 {
        fill(rt, &mut image, slot);
    }
    let refusal = refusal_of(rt, answer(rt, image, Plan::NONE, ID));
    same(rt, refusal, (Refusal::NoSet, 2 * 5));
}

// The bytes of the seal of entry 2 with one row, which it holds whole.
fn whole_seal(row: u16) -> Sector {
    let mut sector = BLANK;
    sector[..8].copy_from_slice(b"RAID5JE1");
    sector[8..24].copy_from_slice(&ID);
    sector[24] = 2;
    sector[32] = 1;
    sector[40..42].copy_from_slice(&row.to_le_bytes());
    sector[504..].copy_from_slice(b"1EJ5DIAR");
    sector
}

// The same, where the entry says of each of the three members that it holds the member's sector.
fn held_seal(row: u16) -> Sector {
    let mut sector = whole_seal(row);
    sector[..8].copy_from_slice(b"RAID5JE2");
    sector[168] = 0x07;
    sector[504..].copy_from_slice(b"2EJ5DIAR");
    sector
}

// Assembles the set that was just made with a seal in sector 2 of slot 3: whether that is the last entry's. Where it is
// not, all that is done is to read, and no write or flush takes room in the log.
fn check_seal(rt: &(impl Abort + AllocGlobal), seal: &Sector, counts: bool) {
    let mut image = fresh(rt, SET_A);
    put_sector(rt, &mut image, 3, 2, seal);
    let array = assembled(rt, image);
    let entry = if counts { 2 } else { 0 };
    let has_written = array.bank.room < ROOM;
    same(rt, (array.entry, has_written), (entry, counts));
    check_table(rt, &array, 1, 9, array.bank.now());
}

// The set has rows 0 to 255, so a seal of row 256 is not counted. One of row 255, with else the same bytes, is.
#[test]
fn forged_seal(rt: HostRuntime) {
    check_seal(&rt, &whole_seal(256), false);
    check_seal(&rt, &held_seal(256), false);
    check_seal(&rt, &whole_seal(255), true);
    check_seal(&rt, &held_seal(255), true);
}

// The superblock of this generation of the set in the slot of this role, with the marks of this format.
fn superblock_of(format: u8, generation: u8, role: u8) -> Sector {
    let mut sector = superblock(generation, 32, role);
    sector[7] = format;
    sector[504] = format;
    sector
}

// Puts superblocks of generation 9 with the marks of this format on the first slots of a set, so many.
fn forge(rt: &impl Abort, image: &mut Image, format: u8, slots: u8) {
    for slot in 0..slots {
        put_sector(
            rt,
            image,
            usize::from(slot),
            1,
            &superblock_of(format, 9, slot),
        );
    }
}

// The devices of the set in format 2, as it was made.
fn fresh_of_format_2(rt: &(impl Abort + AllocGlobal)) -> Image {
    let mut image = devices(rt, &[264, 264, 264, 8_200, 8_200], 0);
    for slot in 0..5u8 {
        put_sector(
            rt,
            &mut image,
            usize::from(slot),
            1,
            &superblock_of(b'2', 1, slot),
        );
    }
    image
}

// The table with the greatest generation is chosen, whatever its format. That of format 2 asks for longer journals than
// the 520 sectors of a set of format 1, so that both are lost: each slot is read twice, and nothing is written.
#[test]
fn forged_superblock_of_the_other_format(rt: HostRuntime) {
    for slots in [1u8, 5] {
        let mut image = fresh(&rt, SET_A);
        forge(&rt, &mut image, b'2', slots);
        let refusal = refusal_of(&rt, answer(&rt, image, Plan::NONE, ID));
        same(&rt, (slots, refusal), (slots, (Refusal::TwoLost, 2 * 5)));
    }
    forged_superblock_of_format_1(&rt);
}

// A journal of format 2 is long enough for format 1, and the incarnations are those of the forged table: every slot is
// live, and the set is assembled in format 1. Slots 1 to 4 get its superblock, by a write and a flush each.
fn forged_superblock_of_format_1(rt: &(impl Abort + AllocGlobal)) {
    let mut image = fresh_of_format_2(rt);
    forge(rt, &mut image, b'1', 1);
    let array = assembled(rt, image);
    same(rt, array.table.geometry.format, Format::One);
    let calls = AssemblySize::whole(3).calls_again(5) + 2 * 4;
    check_table(rt, &array, 9, 9, calls);
}

// Superblocks with a mark of each format are none.
#[test]
fn forged_superblock_of_both_formats(rt: HostRuntime) {
    let mut image = fresh_of_format_2(&rt);
    for slot in 0..5u8 {
        let mut sector = superblock_of(b'2', 1, slot);
        sector[504] = b'1';
        put_sector(&rt, &mut image, usize::from(slot), 1, &sector);
    }
    let refusal = refusal_of(&rt, answer(&rt, image, Plan::NONE, ID));
    same(&rt, refusal, (Refusal::NoSet, 2 * 5));
}
