//! Files of a folder that are there and could not be opened: refused where they are needed, else passed over.
ghost use Rattle.std.specs.Prelude.{◌≡◌, ◌≢◌, ◌<◌, ◌≤◌, ◌⊎◌, IfErr, IfOk, IsSome, IsTrue, None, OnErr, OnOk};
ghost use Rattle.std.specs.Prelude.{false, true, ℕ};
ghost use Rattle.sector_model.specs.declared.refusal.Refusal.{Refusal};
ghost use Rattle.sector_model.specs.declared.refusal.Refusal.TheVariants.{Memory, Worn};
ghost use Rattle.superblock.specs.NextTables.{slots_of};
ghost use Rattle.superblock.specs.Tables.{state_at};
ghost use Rattle.superblock.specs.declared.state.State.TheVariants.{Missing};
ghost use Rattle.device_files.specs.BankFiles.{AreAllSafe, BeginsWithFiles};
ghost use Rattle.device_files.specs.DeviceFiles.{IsMissingBy, IsMissingIn, IsNoTableIn, IsTableIn, barred_in};
ghost use Rattle.device_files.specs.declared.FolderFault.{FolderFault};
ghost use Rattle.device_files.specs.Faults.{IsBarredIn, IsPassingFault, Passes};

use super::{BankFile, DeviceFiles, FolderFault, Reason, SLOTS, bank_to_inspect, words_of};
use recovery::chosen_table;
use report::replies::write_slot_line;
use sector_model::Refusal;
use std::alloc::Global;
use std::io::Write;
use superblock::{State, Table};

/// Refuses the first slot from `first` on, below `end` and below 10, whose file is there and could not be opened, as
/// `NotOpened` with the reason.
pub fn refuse_barred<G: Drop>(files: &DeviceFiles<G>, first: u8, end: u8) -> Result<(), FolderFault>
    ensures none { OnOk result ((slot : ℕ) → first ≤ slot → slot < end → slot < 10
        → barred_in files.now.barred slot ≡ None) }
    ensures fault { IfErr result (IsBarredIn files.now.barred first end) }
{
    for slot in first..end.min(SLOTS as u8) {
        if let Some(reason) = files.barred[slot as usize] {
            return Err(FolderFault::NotOpened(slot, reason));
        }
    }
    Ok(())
}

/// Passes over each file that is there and could not be opened, and tells that to `err` as
/// `without dev1.img: read-only file system`: only where the set of this id, by the table that the other files choose,
/// calls each of their slots missing. Those are safe (condition), and only read.
///
/// `NotOpened` names the first of them of which that is not so, also where there is no such table; `Memory` where an
/// allocation was refused, and `Worn` where the count of device calls stands at 2^62, as in `chosen_table`. Nothing is
/// told then. A fault of `err` has no place to be told.
pub fn pass_over<F: BankFile, E: Write>(
    alloc: Global,
    files: &DeviceFiles<F>,
    id: [u8; 16],
    err: &mut E,
) -> Result<(), FolderFault>
    requires safe { AreAllSafe F.is_safe files.now.files.items }
    ensures missing { OnOk result ((slot : ℕ) → slot < 10 → IsSome (barred_in files.now.barred slot)
        → IsMissingIn (IsTrue F.tells) (BeginsWithFiles F.tells F.told F.left files.now.files.items) id slot) }
    ensures told { OnOk result (Passes E.contents files.now.barred err.old err.new) }
    ensures quiet { OnErr result (err.new ≡ err.old) }
    ensures fault { IfErr result (IsPassingFault files.now.barred) }
    ensures cause { IfErr result (λ fault. (refusal : Refusal) → fault ≡ FolderFault.Refused refusal → refusal ≢ Memory
        → IsNoTableIn (IsTrue F.tells) (BeginsWithFiles F.tells F.told F.left files.now.files.items) id refusal) }
{
    if refuse_barred(files, 0, SLOTS as u8).is_err() {
        let table = table_over(alloc, files, id)?;
        refuse_needed(&files.barred, &table)?;
    }
    tell_passed(&files.barred, err);
    Ok(())
}

// The table that the superblocks on the files of a folder choose for a set.
fn table_over<F: BankFile>(
    alloc: Global,
    files: &DeviceFiles<F>,
    id: [u8; 16],
) -> Result<Option<Table>, Refusal>
    requires safe { AreAllSafe F.is_safe files.now.files.items }
    ensures found { IfOk result (IsTableIn (IsTrue F.tells)
        (BeginsWithFiles F.tells F.told F.left files.now.files.items) id) }
    ensures err { IfErr result (λ refusal. (refusal ≡ Memory) ⊎ (refusal ≡ Worn)) }
    ensures cause { IfErr result (λ refusal. refusal ≢ Memory
        → IsNoTableIn (IsTrue F.tells) (BeginsWithFiles F.tells F.told F.left files.now.files.items) id refusal) }
{
    let mut bank = bank_to_inspect(alloc, files)?;
    chosen_table(&mut bank, id)
}

// Refuses the first slot whose file could not be opened, and that the table doesn't call missing.
fn refuse_needed(barred: &[Option<Reason>; SLOTS], table: &Option<Table>) -> Result<(), FolderFault>
    ensures missing { OnOk result ((slot : ℕ) → slot < 10 → IsSome (barred_in barred.now slot)
        → IsMissingBy table.now slot) }
    ensures fault { IfErr result (IsBarredIn barred.now 0 10) }
{
    for slot in 0..SLOTS as u8 {
        if let Some(reason) = barred[slot as usize] {
            if !is_missing(table, slot) {
                return Err(FolderFault::NotOpened(slot, reason));
            }
        }
    }
    Ok(())
}

// Whether there is a table, of which this is a slot that it calls missing.
fn is_missing(table: &Option<Table>, slot: u8) -> bool
    ensures { result ≡ true → IsMissingBy table.now slot }
{
    match table {
        Some(table) => {
            slot < table.geometry.members + 2 && table.states[slot as usize] == State::Missing
        }
        None => false,
    }
}

// Tells which files are passed over, and why.
fn tell_passed<E: Write>(barred: &[Option<Reason>; SLOTS], err: &mut E)
    ensures told { Passes E.contents barred.now err.old err.new }
{
    for slot in 0..SLOTS {
        if let Some(reason) = barred[slot] {
            let _ = write_slot_line(err, b"without ", slot as u8, words_of(reason));
        }
    }
}
