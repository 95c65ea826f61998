//! Requests are served over the device files of a folder.
ghost use Rattle.std.specs.Prelude.{◌≡◌, ◌≢◌, ◌<◌, Some, [], None, IfErr, IfSome, IsSome, Ok, OnOk, length, ℕ, ◌⊎◌};
ghost use Rattle.sector_model.specs.declared.refusal.Refusal.{Refusal};
ghost use Rattle.device_files.specs.declared.FolderFault.{FolderFault};
ghost use Rattle.device_files.specs.BankFiles.{AreAllSafe};
ghost use Rattle.device_files.specs.DeviceFiles.{IsReopened, file_in, slot_path};
ghost use Rattle.set_commands.specs.Run.{streams};
ghost use Rattle.set_commands.specs.Serving.{IsEnd};
ghost use Rattle.server.specs.declared.ending.Ending.{Ending};
ghost use Rattle.raidtool.specs.Causes.{IsCausedBy};
ghost use Rattle.raidtool.specs.ServedRuns.{IsCauseOfServing, IsLastOf, ServesAgain, ServesFirst, ServesFolder};
ghost use Rattle.raidtool.specs.ServedRuns.{ServesReady, ServesRuns};
ghost use Rattle.raidtool.specs.Stops.{HasPassed, IsBlamed, IsServeFault};
ghost use Rattle.raidtool.specs.Tool.{IsOfFiles};

use device_files::{
    BankFile, FolderFault, FolderSync, Growing, SlotFiles, bank_on, open_folder, pass_over,
    reopen_slot, sync_folders,
};
use sector_model::{Bank, Refusal};
use server::{Ending, serve_replaced, serve_set, write_last};
use std::alloc::Global;
use std::io::{BufRead, Write};
use stripe_journal::Entry;

/// Serves requests over the set of this id on the device files of a folder, until the input ends.
///
/// First all files of the folder are opened, locked and synced, as `open_folder` says; one that is there and can't be
/// opened is passed over as `pass_over` says. Where a request asks for a device for a missing slot, the run over the
/// set ends; the slot's file is opened anew as `reopen_slot` says, and another run begins, whose first reply says what
/// giving the slot its device came to. Refused as `serve_set` and `serve_replaced` are, with `Memory`, and with the
/// faults of opening the files, which come before anything is read.
#[tactic(auto, using(crate::proofs::Taken::nothing_passed))]
pub(crate) fn serve_in_folder<D, R: BufRead, W: Write, E: Write>(
    alloc: Global,
    disk: &D,
    folder: &str,
    id: [u8; 16],
    reader: &mut R,
    out: &mut W,
    err: &mut E,
) -> Result<(), FolderFault>
where
    D: SlotFiles + FolderSync,
    D::File: BankFile,
    ensures passed { HasPassed E.contents err.old err.new }
    ensures served { OnOk result (ServesFolder ⟦<D::File as Growing>⟧ D.File.left (D.opens disk.now) folder.now id
        (streams (R.remaining reader.old) (W.contents out.old))
        (streams (R.remaining reader.new) (W.contents out.new))) }
    ensures read { R.remaining reader.old ≢ None → OnOk result (R.remaining reader.new ≡ Some []) }
    ensures stopped { IfErr result (IsServeFault IsEnd) }
    ensures cause { IfErr result (IsCausedBy (IsCauseOfServing ⟦<D::File as Growing>⟧ D.File.left
        (λ slot. D.opens disk.now (slot_path folder.now slot)) id)) }
    ensures named { IfErr result (IsBlamed (D.opens disk.now) (D.creates disk.now) D.File.has_failed folder.now) }
    ensures alone { IfErr result (λ fault. IsOfFiles fault → (reader.new ≡ reader.old) × (out.new ≡ out.old)) }
{
    let entry = Entry::new(alloc)?;
    let files = open_folder(alloc, disk, folder)?;
    pass_over(alloc, &files, id, err)?;
    let mut open = files.files;
    serve_runs(alloc, disk, folder, entry, id, &mut open, reader, out)?;
    Ok(())
}

// Serves run after run over files that are open.
fn serve_runs<D, R: BufRead, W: Write>(
    alloc: Global,
    disk: &D,
    folder: &str,
    entry: Entry,
    id: [u8; 16],
    files: &mut [Option<D::File>],
    reader: &mut R,
    out: &mut W,
) -> Result<(), Refusal>
where
    D: SlotFiles + FolderSync,
    D::File: BankFile,
    requires ten { length files.old ≡ 10 }
    requires safe { AreAllSafe D.File.is_safe files.old }
    ensures runs { ServesRuns ⟦<D::File as Growing>⟧ D.File.left (λ slot. D.opens disk.now (slot_path folder.now slot))
        id files.old (streams (R.remaining reader.old) (W.contents out.old))
        (streams (R.remaining reader.new) (W.contents out.new)) result }
    ensures ten { length files.new ≡ 10 }
    ensures end { IfErr result IsEnd }
{
    let mut ending = serve_first(alloc, entry, id, files, reader, out);
    for _runs in 0..u64::MAX {
        let Some(slot) = slot_in(&ending) else {
            return last_of(ending);
        };
        ending = serve_again(alloc, disk, folder, id, slot, files, reader, out);
    }
    // Each line has a byte at least, so the input has more than 2^63 bytes.
    last_of(ending)
}

// The slot that is to be given a device, if a run ended so.
fn slot_in(ending: &Result<Ending, Refusal>) -> Option<u8>
    ensures some { IfSome result (λ slot. ending.now ≡ Ok (Ending.Replace slot)) }
    ensures none { result ≡ None → (slot : ℕ) → ending.now ≢ Ok (Ending.Replace slot) }
{
    match ending {
        Ok(Ending::Replace(slot)) => Some(*slot),
        Ok(Ending::Input) => None,
        Err(_) => None,
    }
}

// What all runs came to, by the last.
fn last_of(ending: Result<Ending, Refusal>) -> Result<(), Refusal>
    ensures { IsLastOf ending result }
{
    match ending {
        Ok(Ending::Input) => Ok(()),
        Ok(Ending::Replace(_)) => Err(Refusal::ReadFault),
        Err(refusal) => Err(refusal),
    }
}

// The first run.
fn serve_first<F: BankFile, R: BufRead, W: Write>(
    alloc: Global,
    entry: Entry,
    id: [u8; 16],
    files: &mut [Option<F>],
    reader: &mut R,
    out: &mut W,
) -> Result<Ending, Refusal>
    requires ten { length files.old ≡ 10 }
    requires safe { AreAllSafe F.is_safe files.old }
    ensures first { ServesFirst ⟦<F as Growing>⟧ F.left id files.old
        (streams (R.remaining reader.old) (W.contents out.old))
        (streams (R.remaining reader.new) (W.contents out.new)) result }
    ensures ten { length files.new ≡ 10 }
    ensures end { IfErr result IsEnd }
{
    let bank = bank_on(alloc, files)?;
    serve_set(alloc, bank, entry, id, reader, out)
}

// A further run, which begins where a slot is to be given a device.
fn serve_again<D, R: BufRead, W: Write>(
    alloc: Global,
    disk: &D,
    folder: &str,
    id: [u8; 16],
    slot: u8,
    files: &mut [Option<D::File>],
    reader: &mut R,
    out: &mut W,
) -> Result<Ending, Refusal>
where
    D: SlotFiles + FolderSync,
    D::File: BankFile,
    requires ten { length files.old ≡ 10 }
    ensures again { ServesAgain ⟦<D::File as Growing>⟧ D.File.left (λ slot. D.opens disk.now (slot_path folder.now slot))
        id slot (streams (R.remaining reader.old) (W.contents out.old))
        (streams (R.remaining reader.new) (W.contents out.new)) result }
    ensures ten { length files.new ≡ 10 }
    ensures end { IfErr result IsEnd }
{
    match ready_again(alloc, disk, folder, slot, files) {
        Ok(entry) => serve_over(alloc, entry, id, slot, files, reader, out),
        Err(refusal) => write_last(out, refusal),
    }
}

// Makes the files of a further run ready, and room for its entries. The folder is synced, and so is the one to which the
// path of the slot leads: a file that was made there since may be unsafe in it. Where that fails, the slot has no file.
fn ready_again<D>(
    alloc: Global,
    disk: &D,
    folder: &str,
    slot: u8,
    files: &mut [Option<D::File>],
) -> Result<Entry, Refusal>
where
    D: SlotFiles + FolderSync,
    D::File: BankFile,
    requires ten { length files.old ≡ 10 }
    ensures ten { length files.new ≡ 10 }
    ensures safe { OnOk result (AreAllSafe D.File.is_safe files.new) }
    ensures opened { OnOk result (IsReopened D.File.tells D.File.told (D.opens disk.now (slot_path folder.now slot))
        (file_in files.new slot)) }
    ensures synced { OnOk result (IsSome (file_in files.new slot)
        → D.is_safe disk.now folder.now ⊎ D.is_never disk.now folder.now) }
    ensures err { IfErr result (λ refusal. refusal ≡ Refusal.Memory) }
{
    reopen_slot(alloc, disk, folder, slot, files)?;
    if sync_folders(alloc, disk, folder, slot, slot.saturating_add(1)).is_err() {
        close_slot(slot, files);
    }
    Ok(Entry::new(alloc)?)
}

// Closes the file of a slot.
fn close_slot<F: BankFile>(slot: u8, files: &mut [Option<F>])
    requires ten { length files.old ≡ 10 }
    requires safe { AreAllSafe F.is_safe files.old }
    ensures ten { length files.new ≡ 10 }
    ensures safe { AreAllSafe F.is_safe files.new }
    ensures closed { file_in files.new slot ≡ None }
{
    let at = slot as usize;
    if at < files.len() {
        files[at] = None;
    }
}

// Serves over files that are ready.
fn serve_over<F: BankFile, R: BufRead, W: Write>(
    alloc: Global,
    entry: Entry,
    id: [u8; 16],
    slot: u8,
    files: &mut [Option<F>],
    reader: &mut R,
    out: &mut W,
) -> Result<Ending, Refusal>
    requires ten { length files.old ≡ 10 }
    requires safe { AreAllSafe F.is_safe files.old }
    ensures over { ServesReady ⟦<F as Growing>⟧ F.left id slot files.old
        (streams (R.remaining reader.old) (W.contents out.old))
        (streams (R.remaining reader.new) (W.contents out.new)) result }
    ensures ten { length files.new ≡ 10 }
    ensures end { IfErr result IsEnd }
{
    match bank_on(alloc, files) {
        Ok(bank) => serve_replaced(alloc, bank, entry, id, slot, reader, out),
        Err(refusal) => write_last(out, refusal),
    }
}
