//! A bank over files in memory writes them, and they stay with whoever has them; one that only reads writes none.
ghost use Rattle.std.specs.Prelude.{◌≡◌, ◌<◌, IfOk, IfSome, true};
ghost use Rattle.device_files.specs.BankFiles.{AreAllSafe};

use super::{bank_on, bank_to_inspect};
use crate::testing::same;
use crate::{Before, DeviceFiles, HeldFile, SLOTS};
use sector_model::{Bank, flush_device, read_sector, write_sector};
use std::alloc::{AllocError, Global};
use std::process::Abort;

// The bytes of the files of slots 1 and 4: two sectors and a part of one, and a sector.
const LONG: usize = 1_100;

const SHORT: usize = 512;

// The file of a slot, where it has one.
fn file_of(alloc: Global, slot: usize) -> Result<Option<HeldFile>, AllocError>
    ensures { IfOk result (λ file. IfSome file (λ held. held.safe.items ≡ held.bytes.items)) }
{
    match slot {
        1 => Ok(Some(HeldFile::new(alloc, &[7; LONG])?)),
        4 => Ok(Some(HeldFile::new(alloc, &[9; SHORT])?)),
        _ => Ok(None),
    }
}

// The files of ten slots.
fn files_of(alloc: Global) -> Result<DeviceFiles<HeldFile>, AllocError>
    ensures { IfOk result (λ files. AreAllSafe (λ held. held.safe.items ≡ held.bytes.items) files.files.items) }
{
    let mut files = Vec::with_capacity(alloc, SLOTS)?;
    for slot in 0..SLOTS {
        files.push(file_of(alloc, slot)?)?;
    }
    Ok(DeviceFiles {
        files,
        before: [Before::Same; SLOTS],
        unsynced: [false; SLOTS],
        barred: [None; SLOTS],
    })
}

// Whether slot 1 has a second sector.
fn has_second<B: Bank>(bank: &B) -> bool
    ensures { result ≡ true → (1 < (B.panel bank.now).devices) × (1 < (B.panel bank.now).sectors 1) }
{
    bank.devices() > 1 && bank.sectors(1) > 1
}

// Reads the second sector of slot 1.
fn read_second<B: Bank>(bank: &mut B) -> u8 {
    let mut sector = [0; 512];
    if has_second(bank) && read_sector(bank, 1, 1, &mut sector).is_ok() {
        sector[0]
    } else {
        0
    }
}

// Writes it, and makes that safe.
fn write_second<B: Bank>(bank: &mut B) -> bool {
    has_second(bank)
        && write_sector(bank, 1, 1, &[5; 512]).is_ok()
        && has_second(bank)
        && flush_device(bank, 1).is_ok()
}

// The first and the last byte of the second sector of slot 1, those beside it, and that of slot 4.
fn seen(files: &[Option<HeldFile>]) -> [u8; 5] {
    match (files.get(1), files.get(4)) {
        (Some(Some(long)), Some(Some(short))) => [
            byte_at(long, 511),
            byte_at(long, 512),
            byte_at(long, 1_023),
            byte_at(long, 1_024),
            byte_at(short, 0),
        ],
        _ => [0; 5],
    }
}

fn byte_at(file: &HeldFile, place: usize) -> u8 {
    match file.bytes.get(place) {
        Some(byte) => *byte,
        None => 0,
    }
}

#[test]
fn a_bank_over_files_in_memory(rt: HostRuntime) {
    let files = files_of(rt.alloc()).expect(&rt, "memory");
    match bank_to_inspect(rt.alloc(), &files) {
        Ok(mut bank) => {
            let found = (read_second(&mut bank), write_second(&mut bank));
            same(&rt, found, (7, false));
        }
        Err(_) => same(&rt, true, false),
    }
    let mut files = files.files;
    same(&rt, seen(&files), [7, 7, 7, 7, 9]);
    match bank_on(rt.alloc(), &mut files) {
        Ok(mut bank) => {
            let found = (read_second(&mut bank), write_second(&mut bank));
            same(&rt, found, (7, true));
        }
        Err(_) => same(&rt, true, false),
    }
    same(&rt, seen(&files), [7, 5, 5, 7, 9]);
}
