//! Making a set of format 2 that has a wished room for volumes, or all that its members have.
ghost use Rattle.std.specs.Prelude.{◌≡◌, ◌≢◌, ◌⊎◌, ◌≤◌, ◌+◌, IfErr, IfOk, IsTrue, None, OnErr, OnOk, Ok, false, length};
ghost use Rattle.std.specs.Prelude.{true};
ghost use Rattle.std.specs.Io.KnownBytes.{Appends};
ghost use Rattle.sector_model.specs.declared.refusal.Refusal.{Refusal};
ghost use Rattle.layout_map.specs.declared.geometry.Geometry.{Geometry};
ghost use Rattle.layout_map.specs.declared.format.Format.TheVariants.{Two};
ghost use Rattle.device_files.specs.declared.FolderFault.{FolderFault};
ghost use Rattle.device_files.specs.BankFiles.{AreAllSafe};
ghost use Rattle.device_files.specs.DeviceFiles.{slot_path};
ghost use Rattle.device_files.specs.SlotCalls.{ClearsPlaces};
ghost use Rattle.device_files.specs.Superblocks.{FindsSet};
ghost use Rattle.report.specs.Written.{AppendsPart, WritesText};
ghost use Rattle.raidtool.specs.Begun.{BeginsSafely};
ghost use Rattle.raidtool.specs.Causes.{IsCauseOfSized, IsCausedBy};
ghost use Rattle.raidtool.specs.DoneOver.{IsMadeSizedIn};
ghost use Rattle.raidtool.specs.Sized.{IsFoundIn, IsLookingFault, IsPlacedFor, IsShapeFault, IsShapeless};
ghost use Rattle.raidtool.specs.Sized.{IsSizedFor, IsSizedStop, IsUnsized, sized_text};
ghost use Rattle.raidtool.specs.Stops.{IsBlamed};

use super::make_or_undo;
use crate::telling::{write_made_set, write_unused};
use command_line::Size;
use device_files::{
    BankFile, FolderFault, FolderSync, Growing, SLOTS, SlotFiles, clear_places, find_set,
    open_folder, refuse_barred, refuse_unsynced, shortest_of, slot_paths,
};
use layout_map::Geometry;
use sector_model::Refusal;
use set_commands::Meter;
use set_sizes::{least_for, most_for, unused};
use std::io::Write;

/// A set that is to be made.
#[derive(Clone, Copy)]
pub(crate) struct Wanted {
    /// The members.
    pub(crate) members: u8,
    /// The sectors of a chunk.
    pub(crate) chunk: u16,
    /// The room for its volumes.
    pub(crate) size: Size,
    /// It is made also where the files of the folder have a set, which is lost.
    pub(crate) over: bool,
    /// Files are lengthened by writing zeros, so that they have their room, and not by setting their lengths.
    pub(crate) reserve: bool,
}

/// Makes a set of this id of format 2 on the device files of a folder: with the fewest stripes that have the wished
/// room, or with the most that lie on the shortest member. Writes `made`, and the id where that was drawn; and, where
/// all that there is was asked for, how many blocks no volume can have.
///
/// `BadGeometry` where no set has that room, or lies on such members, before a file is touched. The files are opened,
/// locked and synced, lengthened and taken back as by `make_set`, but `NoFile` names the first of all ten whose sync
/// failed. `Absent` names a member without a file, where all that there is was asked for. `SetThere` tells the id of a
/// superblock that is in one of the ten files, whatever its place, unless the set is to be made over it (`over`): then
/// the superblock places of the slots after the set's are cleared, and synced, before anything else is written.
pub(crate) fn make_sized<S, D, W: Write>(
    rt: &S,
    disk: &D,
    folder: &str,
    id: [u8; 16],
    wanted: &Wanted,
    drawn: bool,
    out: &mut W,
) -> Result<(), FolderFault>
where
    S: Meter + AllocGlobal,
    D: SlotFiles + FolderSync,
    D::File: BankFile,
    ensures synced { OnOk result (D.is_safe disk.now folder.now ⊎ D.is_never disk.now folder.now) }
    ensures made { OnOk result ((geometry : Geometry)
        × IsMadeSizedIn ⟦<D::File as Growing>⟧ D.File.left (D.creates disk.now) folder.now (D.opens disk.now) id
        wanted.now.members wanted.now.chunk wanted.now.size wanted.now.over geometry
        × Appends (W.contents out.old) (W.contents out.new) (sized_text drawn id wanted.now.size geometry)) }
    ensures fault { IfErr result (IsSizedStop wanted.now.members wanted.now.size wanted.now.over) }
    ensures cause { IfErr result (IsCausedBy (IsCauseOfSized ⟦<D::File as Growing>⟧ D.File.left
        (λ slot. D.opens disk.now (slot_path folder.now slot)) id
        wanted.now.members wanted.now.chunk wanted.now.size)) }
    ensures named { IfErr result (IsBlamed (D.opens disk.now) (D.creates disk.now) D.File.has_failed folder.now) }
    ensures found { IfErr result (IsFoundIn ⟦<D::File as Growing>⟧
        (λ slot. D.opens disk.now (slot_path folder.now slot))) }
    ensures unmade { IfErr result (λ fault. fault ≢ FolderFault.Refused Refusal.WriteFault → out.new ≡ out.old) }
    ensures part { IfErr result (λ fault. fault ≡ FolderFault.Refused Refusal.WriteFault → (geometry : Geometry)
        × IsMadeSizedIn ⟦<D::File as Growing>⟧ D.File.left (D.creates disk.now) folder.now (D.opens disk.now) id
        wanted.now.members wanted.now.chunk wanted.now.size wanted.now.over geometry
        × AppendsPart (W.contents out.old) (W.contents out.new) (sized_text drawn id wanted.now.size geometry)) }
{
    let geometry = make_sized_in(rt, disk, folder, id, wanted)?;
    write_sized(out, drawn, &id, wanted.size, &geometry)?;
    Ok(())
}

// Writes what the making of such a set is answered with.
fn write_sized<W: Write>(
    out: &mut W,
    drawn: bool,
    id: &[u8; 16],
    size: Size,
    geometry: &Geometry,
) -> Result<(), Refusal>
    ensures { WritesText (W.contents out.old) (W.contents out.new) (sized_text drawn id.now size geometry.now) result }
{
    match size {
        Size::Blocks(_) => write_made_set(out, drawn, id),
        Size::Most => write_made_most(out, drawn, id, geometry),
    }
}

// Writes that a set was made of all that there is, and how many blocks of it no volume can have.
fn write_made_most<W: Write>(
    out: &mut W,
    drawn: bool,
    id: &[u8; 16],
    geometry: &Geometry,
) -> Result<(), Refusal>
    ensures { WritesText (W.contents out.old) (W.contents out.new)
        (sized_text drawn id.now Size.Most geometry.now) result }
{
    write_made_set(out, drawn, id)?;
    write_unused(out, unused(geometry))
}

// Makes the set, or leaves the files that were there as long as they were, and no other; and gives its geometry.
fn make_sized_in<S, D>(
    rt: &S,
    disk: &D,
    folder: &str,
    id: [u8; 16],
    wanted: &Wanted,
) -> Result<Geometry, FolderFault>
where
    S: Meter + AllocGlobal,
    D: SlotFiles + FolderSync,
    D::File: BankFile,
    ensures synced { OnOk result (D.is_safe disk.now folder.now ⊎ D.is_never disk.now folder.now) }
    ensures made { IfOk result (IsMadeSizedIn ⟦<D::File as Growing>⟧ D.File.left (D.creates disk.now) folder.now
        (D.opens disk.now) id wanted.now.members wanted.now.chunk wanted.now.size wanted.now.over) }
    ensures fault { IfErr result (IsUnsized wanted.now.members wanted.now.size wanted.now.over) }
    ensures cause { IfErr result (IsCausedBy (IsCauseOfSized ⟦<D::File as Growing>⟧ D.File.left
        (λ slot. D.opens disk.now (slot_path folder.now slot)) id
        wanted.now.members wanted.now.chunk wanted.now.size)) }
    ensures named { IfErr result (IsBlamed (D.opens disk.now) (D.creates disk.now) D.File.has_failed folder.now) }
    ensures found { IfErr result (IsFoundIn ⟦<D::File as Growing>⟧
        (λ slot. D.opens disk.now (slot_path folder.now slot))) }
{
    let wished = wished_shape(wanted)?;
    let paths = slot_paths(rt.alloc(), folder)?;
    let mut files = open_folder(rt.alloc(), disk, folder)?;
    refuse_barred(&files, 0, SLOTS as u8)?;
    refuse_unsynced(&files, 0, SLOTS as u8)?;
    let geometry = shape_on(wanted, wished, &files.files)?;
    look(wanted, &mut files.files)?;
    make_or_undo(
        rt,
        disk,
        folder,
        &paths,
        id,
        geometry,
        wanted.reserve,
        files,
    )
    .done?;
    Ok(geometry)
}

// The geometry of the wished room; where all that there is was asked for, the greatest one of these members and chunks.
// `BadGeometry` where there is none.
fn wished_shape(wanted: &Wanted) -> Result<Geometry, Refusal>
    ensures format { IfOk result (λ geometry. geometry.format ≡ Two) }
    ensures members { IfOk result (λ geometry. geometry.members ≡ wanted.now.members) }
    ensures chunk { IfOk result (λ geometry. geometry.chunk ≡ wanted.now.chunk) }
    ensures stripes { IfOk result (λ geometry.
        IsPlacedFor wanted.now.members wanted.now.chunk wanted.now.size geometry.stripes) }
    ensures err { IfErr result (λ refusal. (refusal ≡ Refusal.BadGeometry)
        × IsShapeless wanted.now.members wanted.now.chunk wanted.now.size) }
{
    match wanted.size {
        Size::Blocks(blocks) => least_for(wanted.members, wanted.chunk, blocks),
        Size::Most => most_for(wanted.members, wanted.chunk, u32::MAX),
    }
}

// The geometry of the set over these files: the wished one, or that of the shortest member's sectors.
fn shape_on<F: Growing>(
    wanted: &Wanted,
    wished: Geometry,
    files: &[Option<F>],
) -> Result<Geometry, FolderFault>
    requires format { wished.format ≡ Two }
    requires members { wished.members ≡ wanted.now.members }
    requires chunk { wished.chunk ≡ wanted.now.chunk }
    requires stripes { IsPlacedFor wanted.now.members wanted.now.chunk wanted.now.size wished.stripes }
    requires ten { length files.now ≡ 10 }
    ensures sized { IfOk result (IsSizedFor F.tells F.told wanted.now.members wanted.now.chunk wanted.now.size
        files.now) }
    ensures fault { IfErr result (IsShapeFault F.tells F.told F.has_failed wanted.now.members wanted.now.chunk
        wanted.now.size files.now) }
{
    match wanted.size {
        Size::Blocks(_) => Ok(wished),
        Size::Most => {
            let bytes = shortest_of(files, wished.members)?;
            let sectors = (bytes / 512).min(u64::from(u32::MAX)) as u32;
            Ok(most_for(wanted.members, wanted.chunk, sectors)?)
        }
    }
}

// Refuses files of which one has a superblock of any set; or, where the set is to be made over it, clears the places of
// superblocks in the slots after the set's.
fn look<F: BankFile>(wanted: &Wanted, files: &mut [Option<F>]) -> Result<(), FolderFault>
    requires ten { length files.old ≡ 10 }
    requires safe { AreAllSafe F.is_safe files.old }
    requires members { wanted.now.members ≤ 8 }
    ensures alone { wanted.now.over ≡ false → OnOk result ((files.new ≡ files.old)
        × FindsSet F.tells F.told F.has_failed files.old None) }
    ensures cleared { wanted.now.over ≡ true → OnOk result
        (ClearsPlaces F.tells F.told F.is_safe F.has_failed (wanted.now.members + 2) files.old files.new (Ok tt)) }
    ensures safe { OnOk result (AreAllSafe F.is_safe files.new) }
    ensures long { length files.new ≡ length files.old }
    ensures fault { IfErr result (IsLookingFault F.tells F.told F.has_failed wanted.now.over files.old) }
{
    if wanted.over {
        return clear_places(wanted.members + 2, files);
    }
    match find_set(files) {
        Some(id) => Err(FolderFault::SetThere(id)),
        None => Ok(()),
    }
}
