//! Giving a slot a device, on the device files of a folder.
ghost use Rattle.std.specs.Prelude.{◌≡◌, ◌≢◌, ◌⊎◌, ◌↔◌, ◌<◌, ◌≤◌, ℕ, IfErr, IfOk, IfSome, IsTrue, OnOk, ⊤, length, map};
ghost use Rattle.std.specs.Prelude.{false, string_bytes, true};
ghost use Rattle.superblock.specs.NextTables.{slots_of};
ghost use Rattle.recovery.specs.SeenBank.{bank_seen};
ghost use Rattle.sector_model.specs.declared.refusal.Refusal.TheVariants.{Memory};
ghost use Rattle.device_files.specs.BankFiles.{AreAllSafe};
ghost use Rattle.device_files.specs.DeviceFiles.{AreOthersKept, IsLinkSynced, IsNoTableIn};
ghost use Rattle.device_files.specs.DeviceFiles.{slot_path};
ghost use Rattle.raidtool.specs.FolderFiles.{PreparesSlot, ReplacesOrUndoes};
ghost use Rattle.raidtool.specs.Needs.{AreOthersWhole, FindsNeed, IsNeed, IsWhole};
ghost use Rattle.raidtool.specs.Begun.{BeginsOver, IsNoTableOver};
ghost use Rattle.raidtool.specs.Causes.{IsCauseOfReplace, IsCausedBy, IsReplaceRefused};
ghost use Rattle.raidtool.specs.DoneOver.{IsPrepared, IsReplacedIn, IsReplacedOn, IsReplacedOver};
ghost use Rattle.raidtool.specs.Done.{IsNeedIn};
ghost use Rattle.raidtool.specs.Replacing.{Replaces};
ghost use Rattle.raidtool.specs.Stops.{HasPassed, IsBlamed, IsPreparingRefusal, IsRefusal, IsSlotFault};

use crate::undoing::{Ended, settle};
use device_files::{
    BankFile, DeviceFiles, FolderFault, FolderSync, Growing, SlotFiles, SlotPaths, bank_on,
    bank_to_inspect, bytes_of, open_folder, pass_over, refuse_barred, refuse_unsynced, renew_slot,
    slot_paths, sync_folders,
};
use recovery::chosen_table;
use sector_model::{Bank, Refusal};
use set_commands::apply_on;
use std::alloc::Global;
use std::io::Write;
use stripe_journal::Entry;
use superblock::{State, Table, least_of};
use volume_table::Event;

/// Takes the device file of a missing slot into the set of this id on the device files of a folder, and writes `ok`.
///
/// First all files of the folder are opened, locked and synced, as `open_folder` says. One of another slot that is
/// there and can't be opened is passed over as `pass_over` says; of this slot it is `NotOpened`. Before the set is
/// assembled, the slot's file is created if it is absent, and one that is too short is emptied and filled with zero
/// bytes: not where there is no such set or it has no such slot, nor where its table calls another slot missing or
/// rebuilding, or another slot's file is absent or too short. `NoFile` where this could not be done, or the sync of the
/// slot's file failed, and `NotSynced` where the folder, which is synced at any rate, could not be. The command itself
/// is refused as `apply_on` is, and with `Memory`.
///
/// Where the slot is not given the device, a file that was created is removed again. `WriteFault` says that the slot
/// has the device and `out` failed.
#[tactic(auto, using(crate::proofs::Taken::nothing_passed))]
pub(crate) fn replace_in_folder<S, D, W: Write, E: Write>(
    rt: &S,
    disk: &D,
    folder: &str,
    id: [u8; 16],
    slot: u8,
    out: &mut W,
    err: &mut E,
) -> Result<(), FolderFault>
where
    S: AllocGlobal,
    D: SlotFiles + FolderSync,
    D::File: BankFile,
    ensures passed { HasPassed E.contents err.old err.new }
    ensures replaces { Replaces
        (IsReplacedIn ⟦<D::File as Growing>⟧ D.File.left (D.creates disk.now) folder.now (D.opens disk.now) id slot)
        (D.is_safe disk.now folder.now ⊎ D.is_never disk.now folder.now)
        (IsCauseOfReplace ⟦<D::File as Growing>⟧ D.File.left id slot)
        (IsBlamed (D.opens disk.now) (D.creates disk.now) D.File.has_failed folder.now)
        W.contents slot out.old out.new result }
{
    let entry = Entry::new(rt.alloc())?;
    let paths = slot_paths(rt.alloc(), folder)?;
    let files = open_folder(rt.alloc(), disk, folder)?;
    refuse_barred(&files, slot, slot.saturating_add(1))?;
    refuse_unsynced(&files, slot, slot.saturating_add(1))?;
    pass_over(rt.alloc(), &files, id, err)?;
    replace_or_undo(
        rt.alloc(),
        disk,
        folder,
        &paths,
        entry,
        id,
        slot,
        files,
        out,
    )
    .done
}

// Replaces the device of a slot over the files of a folder, which have these paths, or takes back what was made of
// them.
fn replace_or_undo<D, W: Write>(
    alloc: Global,
    disk: &D,
    folder: &str,
    paths: &SlotPaths,
    entry: Entry,
    id: [u8; 16],
    slot: u8,
    files: DeviceFiles<D::File>,
    out: &mut W,
) -> Ended<D::File>
where
    D: SlotFiles + FolderSync,
    D::File: BankFile,
    requires safe { AreAllSafe D.File.is_safe files.files.items }
    ensures ends { ReplacesOrUndoes ⟦<D::File as Growing>⟧ (D.creates disk.now) (D.removes disk.now) folder.now
        (map string_bytes paths.now.paths.items) slot
        (λ prepared. IsReplacedOn ⟦<D::File as Growing>⟧ D.File.left prepared id slot)
        files.files.items files.before result.files.items result.log result.done }
    ensures replaces { Replaces
        (IsReplacedOver ⟦<D::File as Growing>⟧ D.File.left (D.creates disk.now) folder.now id slot files.files.items)
        (D.is_safe disk.now folder.now ⊎ D.is_never disk.now folder.now)
        (IsCauseOfReplace ⟦<D::File as Growing>⟧ D.File.left id slot)
        (IsBlamed (D.opens disk.now) (D.creates disk.now) D.File.has_failed folder.now)
        W.contents slot out.old out.new result.done }
{
    let mut files = files;
    let ready = prepare_file(alloc, disk, folder, id, slot, &mut files);
    let (mut open, log) = files.into_parts();
    match ready {
        Ok(()) => {
            let done = replace_over(alloc, entry, id, slot, &mut open, out);
            settle(disk, paths, done, log, open)
        }
        Err(fault) => settle(disk, paths, Err(fault), log, open),
    }
}

// Replaces the device of a slot over files that are prepared, and takes nothing back.
fn replace_over<F: BankFile, W: Write>(
    alloc: Global,
    entry: Entry,
    id: [u8; 16],
    slot: u8,
    files: &mut [Option<F>],
    out: &mut W,
) -> Result<(), FolderFault>
    requires ten { length files.old ≡ 10 }
    requires safe { AreAllSafe F.is_safe files.old }
    ensures { Replaces (IsReplacedOn ⟦<F as Growing>⟧ F.left files.old id slot) ⊤
        (IsReplaceRefused ⟦<F as Growing>⟧ F.left id slot) (λ fault. IsRefusal fault)
        W.contents slot out.old out.new result }
{
    let bank = bank_on(alloc, files)?;
    apply_on(alloc, bank, entry, id, &Event::Replace { slot }, out)?;
    Ok(())
}

// Makes the file of a slot anew where it has to be, and syncs it; and syncs the folder at any rate, since the entry of
// a file that an earlier program made may not be safe.
fn prepare_file<D>(
    alloc: Global,
    disk: &D,
    folder: &str,
    id: [u8; 16],
    slot: u8,
    files: &mut DeviceFiles<D::File>,
) -> Result<(), FolderFault>
where
    D: SlotFiles + FolderSync,
    D::File: BankFile,
    requires safe { AreAllSafe D.File.is_safe files.old.files.items }
    ensures prepared { OnOk result (IsPrepared ⟦<D::File as Growing>⟧ D.File.left (D.creates disk.now) folder.now
        id slot files.old.files.items files.new.files.items) }
    ensures safe { OnOk result (AreAllSafe D.File.is_safe files.new.files.items) }
    ensures synced { OnOk result (D.is_safe disk.now folder.now ⊎ D.is_never disk.now folder.now) }
    ensures linked { slot < 10 → OnOk result (IsLinkSynced (D.is_no_link disk.now) (D.leads_to disk.now)
        (λ folder. D.is_safe disk.now folder ⊎ D.is_never disk.now folder) (slot_path folder.now slot)) }
    ensures prepares { PreparesSlot ⟦<D::File as Growing>⟧ (D.creates disk.now) folder.now slot
        files.old.files.items files.new.files.items files.old.before files.new.before }
    ensures fault { IfErr result (IsSlotFault IsPreparingRefusal slot) }
    ensures cause { IfErr result (IsCausedBy (IsNoTableOver ⟦<D::File as Growing>⟧ D.File.left id)) }
    ensures named { IfErr result (IsBlamed (D.opens disk.now) (D.creates disk.now) D.File.has_failed folder.now) }
{
    let need = need_over(alloc, files, id, slot)?;
    if let Some(bytes) = need {
        renew_slot(alloc, disk, folder, slot, bytes, files)?;
    }
    sync_folders(alloc, disk, folder, slot, slot.saturating_add(1))
}

// How many bytes the file of a slot gets by the table that the superblocks on the files choose, if it is made anew.
fn need_over<F: BankFile>(
    alloc: Global,
    files: &DeviceFiles<F>,
    id: [u8; 16],
    slot: u8,
) -> Result<Option<u64>, Refusal>
    requires safe { AreAllSafe F.is_safe files.now.files.items }
    ensures need { IfOk result (IsNeedIn (IsTrue F.tells)
        (BeginsOver ⟦<F as Growing>⟧ F.left files.now.files.items) id slot) }
    ensures within { IfOk result (λ need. IfSome need (λ _. slot < 10)) }
    ensures err { IfErr result IsPreparingRefusal }
    ensures cause { IfErr result (λ refusal. refusal ≢ Memory → IsNoTableIn (IsTrue F.tells)
        (BeginsOver ⟦<F as Growing>⟧ F.left files.now.files.items) id refusal) }
{
    let mut bank = bank_to_inspect(alloc, files)?;
    need_on(&mut bank, id, slot)
}

// How many bytes the file of a slot gets by the table that the bank's superblocks choose, if it is made anew.
fn need_on<B: Bank>(bank: &mut B, id: [u8; 16], slot: u8) -> Result<Option<u64>, Refusal>
    ensures { FindsNeed (B.honest bank.old) id slot (bank_seen B.Bank bank.old) (bank_seen B.Bank bank.new) result }
{
    match chosen_table(bank, id)? {
        Some(table) => Ok(need_of(bank, &table, slot)),
        None => Ok(None),
    }
}

// How many bytes the file of a slot gets by a table, if it is made anew: where it is absent or too short, and each
// other slot of the set is in sync and its device is there.
fn need_of<B: Bank>(bank: &B, table: &Table, slot: u8) -> Option<u64>
    requires of_bank { slots_of table.now ≤ (B.panel bank.now).devices }
    ensures { IsNeed table.now (B.panel bank.now) slot result }
{
    if slot >= table.geometry.members + 2 {
        return None;
    }
    let is_too_short = bank.sectors(slot) < least_of(&table.geometry, slot);
    if is_too_short && are_others_whole(bank, table, slot) {
        Some(bytes_of(&table.geometry, slot))
    } else {
        None
    }
}

// Whether each other slot of the set is in sync, and its device up and long enough.
fn are_others_whole<B: Bank>(bank: &B, table: &Table, slot: u8) -> bool
    requires of_bank { slots_of table.now ≤ (B.panel bank.now).devices }
    ensures whole { result ≡ true → AreOthersWhole table.now (B.panel bank.now) slot }
    ensures lost { result ≡ false → ¬ AreOthersWhole table.now (B.panel bank.now) slot }
{
    for other in 0..table.geometry.members + 2 {
        if other != slot && !is_whole(bank, table, other) {
            return false;
        }
    }
    true
}

// Whether a slot is in sync, and its device up and long enough.
fn is_whole<B: Bank>(bank: &B, table: &Table, slot: u8) -> bool
    requires of_set { slot < slots_of table.now }
    requires of_bank { slots_of table.now ≤ (B.panel bank.now).devices }
    ensures whole { result ≡ true → IsWhole table.now (B.panel bank.now) slot }
    ensures lost { result ≡ false → ¬ IsWhole table.now (B.panel bank.now) slot }
{
    table.states[slot as usize] == State::InSync
        && !bank.is_down(slot)
        && bank.sectors(slot) >= least_of(&table.geometry, slot)
}

#[cfg(test)]
mod tests;
