//! Making a set on the device files of a folder.
ghost use Rattle.std.specs.Prelude.{◌≡◌, ◌≢◌, ◌<◌, ◌+◌, ◌⊎◌, IfErr, IsErr, IsOk, IsTrue, OnErr, OnOk, length, map};
ghost use Rattle.std.specs.Prelude.{string_bytes, ℕ};
ghost use Rattle.std.specs.Io.KnownBytes.{Appends};
ghost use Rattle.sector_model.specs.declared.refusal.Refusal.{Refusal};
ghost use Rattle.report.specs.Written.{AppendsPart};
ghost use Rattle.device_files.specs.declared.FolderFault.{FolderFault};
ghost use Rattle.device_files.specs.DeviceFiles.{IsLinkSynced, slot_path};
ghost use Rattle.device_files.specs.BankFiles.{AreAllSafe};
ghost use Rattle.raidtool.specs.Begun.{BeginsOver, BeginsSafely};
ghost use Rattle.raidtool.specs.Causes.{IsCausedBy};
ghost use Rattle.raidtool.specs.DoneOver.{IsMadeIn, IsMadeOver};
ghost use Rattle.raidtool.specs.OtherSets.{IsAloneIn, IsMadeAlone, IsRefusedMake, IsUntoldIn};
ghost use Rattle.raidtool.specs.Stops.{IsBlamed, IsFileFault, IsMakeFault, IsOtherFault, IsStoppedOver, IsUnmade};
ghost use Rattle.raidtool.specs.FolderFiles.{LeavesFiles, MakesFiles, MakesOrUndoes};
ghost use Rattle.raidtool.specs.Texts.{made_text};

mod on_bank;
mod other_set;
mod sized;

use crate::telling::write_made_set;
use crate::undoing::{Ended, settle};
use device_files::{
    BankFile, DeviceFiles, FolderFault, FolderSync, Growing, SLOTS, SlotFiles, SlotPaths, bank_on,
    bank_to_inspect, bytes_of, lengthen_slot, open_folder, refuse_barred, refuse_unsynced,
    slot_paths, sync_folders,
};
use layout_map::Geometry;
use on_bank::make_alone;
use other_set::refuse_other;
use set_commands::Meter;
pub(crate) use sized::{Wanted, make_sized};
use std::alloc::Global;
use std::io::Write;
use stripe_journal::Entry;

/// Makes a set of this id and geometry on the device files of a folder, whatever they held, and writes `made`, with the
/// id where that was drawn.
///
/// First all files of the folder are opened, locked and synced, as `open_folder` says. `NoFile` names the first of the
/// set's whose sync failed, `NotOpened` the first that is there and could not be opened, be it the set's or not, and
/// `OtherSet` a slot after the set that has a superblock of this id; nothing is touched then. Each of the set's files
/// that is absent is created, and each that is too short is lengthened by zero bytes; none is shortened, and no byte
/// that is there is changed, before the making of the set begins. `NoFile` names the first file that this could not be
/// done with, and `NotSynced` says that a folder could not be synced. The set itself is refused with `NotUsable`,
/// `Worn` or `Memory`, and with `OtherSet` where a slot gives such a superblock only then.
///
/// Where it is not made, the files that it created are removed again, and those that it lengthened are cut to the bytes
/// that they had. `WriteFault` says that the set was made and `out` failed.
pub(crate) fn make_set<S, D, W: Write>(
    rt: &S,
    disk: &D,
    folder: &str,
    id: [u8; 16],
    geometry: Geometry,
    drawn: bool,
    out: &mut W,
) -> Result<(), FolderFault>
where
    S: Meter + AllocGlobal,
    D: SlotFiles + FolderSync,
    D::File: BankFile,
    ensures synced { OnOk result (D.is_safe disk.now folder.now ⊎ D.is_never disk.now folder.now) }
    ensures made { OnOk result
        (IsMadeIn ⟦<D::File as Growing>⟧ D.File.left (D.creates disk.now) folder.now (D.opens disk.now) id geometry) }
    ensures written { OnOk result (Appends (W.contents out.old) (W.contents out.new) (made_text drawn id)) }
    ensures fault { IfErr result (IsMakeFault geometry.members) }
    ensures cause { IfErr result (IsCausedBy
        (IsRefusedMake (IsTrue D.File.tells) (BeginsSafely ⟦<D::File as Growing>⟧ D.File.left) id geometry)) }
    ensures named { IfErr result (IsBlamed (D.opens disk.now) (D.creates disk.now)
        D.File.has_failed folder.now) }
    ensures unmade { IfErr result (λ fault. fault ≢ FolderFault.Refused Refusal.WriteFault → out.new ≡ out.old) }
    ensures part { IfErr result (λ fault. fault ≡ FolderFault.Refused Refusal.WriteFault
        → IsMadeIn ⟦<D::File as Growing>⟧ D.File.left (D.creates disk.now) folder.now (D.opens disk.now) id geometry
        × AppendsPart (W.contents out.old) (W.contents out.new) (made_text drawn id)) }
{
    make_in(rt, disk, folder, id, geometry)?;
    write_made_set(out, drawn, &id)?;
    Ok(())
}

// Makes the set, or leaves the files that were there as long as they were, and no other.
fn make_in<S, D>(
    rt: &S,
    disk: &D,
    folder: &str,
    id: [u8; 16],
    geometry: Geometry,
) -> Result<(), FolderFault>
where
    S: Meter + AllocGlobal,
    D: SlotFiles + FolderSync,
    D::File: BankFile,
    ensures synced { OnOk result (D.is_safe disk.now folder.now ⊎ D.is_never disk.now folder.now) }
    ensures made { OnOk result
        (IsMadeIn ⟦<D::File as Growing>⟧ D.File.left (D.creates disk.now) folder.now (D.opens disk.now) id geometry) }
    ensures fault { IfErr result (IsUnmade geometry.members) }
    ensures cause { IfErr result (IsCausedBy
        (IsRefusedMake (IsTrue D.File.tells) (BeginsSafely ⟦<D::File as Growing>⟧ D.File.left) id geometry)) }
    ensures named { IfErr result (IsBlamed (D.opens disk.now) (D.creates disk.now) D.File.has_failed folder.now) }
{
    let paths = slot_paths(rt.alloc(), folder)?;
    let files = open_folder(rt.alloc(), disk, folder)?;
    refuse_barred(&files, 0, SLOTS as u8)?;
    refuse_unsynced(&files, 0, geometry.members + 2)?;
    make_or_undo(rt, disk, folder, &paths, id, geometry, true, files).done
}

// Makes the set over the files of a folder, which have these paths, or takes back what was made of them.
fn make_or_undo<S, D>(
    rt: &S,
    disk: &D,
    folder: &str,
    paths: &SlotPaths,
    id: [u8; 16],
    geometry: Geometry,
    reserve: bool,
    files: DeviceFiles<D::File>,
) -> Ended<D::File>
where
    S: Meter + AllocGlobal,
    D: SlotFiles + FolderSync,
    D::File: BankFile,
    requires safe { AreAllSafe D.File.is_safe files.files.items }
    ensures ends { MakesOrUndoes ⟦<D::File as Growing>⟧ (D.creates disk.now) (D.removes disk.now) folder.now
        (map string_bytes paths.now.paths.items) geometry
        (λ made. IsMadeAlone (IsTrue D.File.tells) (BeginsOver ⟦<D::File as Growing>⟧ D.File.left made) id geometry)
        files.files.items files.before result.files.items result.log result.done }
    ensures synced { OnOk result.done (D.is_safe disk.now folder.now ⊎ D.is_never disk.now folder.now) }
    ensures made { OnOk result.done
        (IsMadeOver ⟦<D::File as Growing>⟧ D.File.left (D.creates disk.now) folder.now id geometry files.files.items) }
    ensures fault { IfErr result.done (IsUnmade geometry.members) }
    ensures cause { IfErr result.done (IsCausedBy
        (IsRefusedMake (IsTrue D.File.tells) (BeginsSafely ⟦<D::File as Growing>⟧ D.File.left) id geometry)) }
    ensures named { IfErr result.done (IsBlamed (D.opens disk.now) (D.creates disk.now) D.File.has_failed folder.now) }
{
    let mut files = files;
    let ready = ready_files(
        rt.alloc(),
        disk,
        folder,
        &id,
        &geometry,
        reserve,
        &mut files,
    );
    let (mut open, log) = files.into_parts();
    match ready {
        Ok(entry) => {
            let made = make_over(rt, entry, id, geometry, &mut open);
            settle(disk, paths, made, log, open)
        }
        Err(fault) => settle(disk, paths, Err(fault), log, open),
    }
}

// Makes the files of the set long enough, where no slot after its own has another set of this id; the set is not made
// yet.
fn ready_files<D>(
    alloc: Global,
    disk: &D,
    folder: &str,
    id: &[u8; 16],
    geometry: &Geometry,
    reserve: bool,
    files: &mut DeviceFiles<D::File>,
) -> Result<Entry, FolderFault>
where
    D: SlotFiles + FolderSync,
    D::File: BankFile,
    requires safe { AreAllSafe D.File.is_safe files.old.files.items }
    ensures files { LeavesFiles ⟦<D::File as Growing>⟧ (D.creates disk.now) folder.now geometry.now
        files.old.files.items files.new.files.items files.old.before files.new.before result }
    ensures safe { OnOk result (AreAllSafe D.File.is_safe files.new.files.items) }
    ensures synced { OnOk result (D.is_safe disk.now folder.now ⊎ D.is_never disk.now folder.now) }
    ensures fault { IfErr result (IsUnmade geometry.now.members) }
    ensures cause { IfErr result (IsCausedBy
        (IsRefusedMake (IsTrue D.File.tells) (BeginsSafely ⟦<D::File as Growing>⟧ D.File.left) id.now geometry.now)) }
    ensures named { IfErr result (IsBlamed (D.opens disk.now) (D.creates disk.now) D.File.has_failed folder.now) }
{
    let entry = Entry::new(alloc)?;
    refuse_other_set(alloc, files, id, geometry.members + 2)?;
    make_files(alloc, disk, folder, geometry, reserve, files)?;
    Ok(entry)
}

// Makes the set over files that are long enough, and takes nothing back.
fn make_over<S, F>(
    rt: &S,
    entry: Entry,
    id: [u8; 16],
    geometry: Geometry,
    files: &mut [Option<F>],
) -> Result<(), FolderFault>
where
    S: Meter + AllocGlobal,
    F: BankFile,
    requires ten { length files.old ≡ 10 }
    requires safe { AreAllSafe F.is_safe files.old }
    ensures made { OnOk result (IsMadeAlone (IsTrue F.tells)
        (BeginsOver ⟦<F as Growing>⟧ F.left files.old) id geometry) }
    ensures stopped { IfErr result (IsStoppedOver geometry.members) }
    ensures cause { IfErr result (IsCausedBy
        (IsRefusedMake (IsTrue F.tells) (BeginsSafely ⟦<F as Growing>⟧ F.left) id geometry)) }
{
    let bank = bank_on(rt.alloc(), files)?;
    make_alone(bank, rt, entry, id, geometry)?;
    Ok(())
}

// Refuses a slot from this one on that has a superblock of this id, before a file is touched.
fn refuse_other_set<F: BankFile>(
    alloc: Global,
    files: &DeviceFiles<F>,
    id: &[u8; 16],
    first: u8,
) -> Result<(), FolderFault>
    requires safe { AreAllSafe F.is_safe files.now.files.items }
    ensures none { OnOk result (IsAloneIn (IsTrue F.tells)
        (BeginsOver ⟦<F as Growing>⟧ F.left files.now.files.items) id.now first) }
    ensures fault { IfErr result (IsOtherFault first) }
    ensures cause { IfErr result (IsCausedBy (IsUntoldIn (IsTrue F.tells)
        (BeginsOver ⟦<F as Growing>⟧ F.left files.now.files.items) id.now first)) }
{
    let mut bank = bank_to_inspect(alloc, files)?;
    refuse_other(&mut bank, id, first)
}

// Makes the files of the set's slots long enough, and syncs them and the folder.
fn make_files<D: SlotFiles + FolderSync>(
    alloc: Global,
    disk: &D,
    folder: &str,
    geometry: &Geometry,
    reserve: bool,
    files: &mut DeviceFiles<D::File>,
) -> Result<(), FolderFault>
    ensures made { MakesFiles D.File.tells D.File.told D.File.is_safe D.File.has_failed (D.creates disk.now)
        folder.now geometry.now files.old.files.items files.new.files.items files.old.before files.new.before result }
    ensures synced { OnOk result (D.is_safe disk.now folder.now ⊎ D.is_never disk.now folder.now) }
    ensures linked { OnOk result ((slot : ℕ) → slot < geometry.now.members + 2
        → IsLinkSynced (D.is_no_link disk.now) (D.leads_to disk.now)
        (λ folder. D.is_safe disk.now folder ⊎ D.is_never disk.now folder) (slot_path folder.now slot)) }
    ensures fault { IfErr result (IsFileFault geometry.now.members) }
    ensures named { IfErr result (IsBlamed (D.opens disk.now) (D.creates disk.now) D.File.has_failed folder.now) }
{
    make_each(alloc, disk, folder, geometry, reserve, files)?;
    sync_folders(alloc, disk, folder, 0, geometry.members + 2)
}

// Makes the files of the set's slots long enough, one after another, and syncs each.
fn make_each<D: SlotFiles>(
    alloc: Global,
    disk: &D,
    folder: &str,
    geometry: &Geometry,
    reserve: bool,
    files: &mut DeviceFiles<D::File>,
) -> Result<(), FolderFault>
    ensures made { MakesFiles D.File.tells D.File.told D.File.is_safe D.File.has_failed (D.creates disk.now)
        folder.now geometry.now files.old.files.items files.new.files.items files.old.before files.new.before result }
    ensures fault { IfErr result (IsFileFault geometry.now.members) }
    ensures named { IfErr result (IsBlamed (D.opens disk.now) (D.creates disk.now) D.File.has_failed folder.now) }
{
    for slot in 0..geometry.members + 2 {
        let bytes = bytes_of(geometry, slot);
        lengthen_slot(alloc, disk, folder, slot, bytes, files, reserve)?;
    }
    Ok(())
}

#[cfg(test)]
mod tests;
