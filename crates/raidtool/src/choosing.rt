//! Which set a line is of, where its words give no id: a new one, or the only one of its folder.
ghost use Rattle.std.specs.Prelude.{◌≡◌, ◌≢◌, ◌↔◌, ◌∷◌, [], IfErr, IfOk, List, OnOk, Result, ℕ};
ghost use Rattle.std.specs.declared.io.Error.{Error};
ghost use Rattle.sector_model.specs.declared.refusal.Refusal.{Refusal};
ghost use Rattle.recovery.specs.SeenBank.{bank_seen};
ghost use Rattle.set_commands.specs.Examining.{IsInspectionEnd, IsWornOn};
ghost use Rattle.raidtool.specs.Choosing.{AppendsIds, AreIdsIn, FindsIdsAbove, IsChosen, IsNotOnly, IsUnchosen};
ghost use Rattle.raidtool.specs.Choosing.{IsUninspected};

use crate::tool::folder_of;
use command_line::{Asked, Invocation, SetChoice};
use device_files::{
    FolderFault, Growing, InspectFiles, SystemFolders, bank_to_inspect, inspect_folder,
};
use recovery::id_above;
use sector_model::{Bank, Refusal};
use std::alloc::Global;
use std::fs;
use std::io::{self, Read};
use std::rt::Files;

/// An id of a set.
pub(crate) type Id = [u8; 16];

/// The most sets of which superblocks count on a bank: ten slots have two places each.
const MOST_SETS: u8 = 20;

/// Where ids of new sets are drawn.
pub(crate) trait DrawIds {
    /// What drawing an id came to.
    ghost draws: { Self → Result (List ℕ) Error → Type 0 };

    /// Draws an id: 16 bytes at random. The error is that of the system.
    fn draw(&self) -> io::Result<Id>
        ensures { draws self.now result };
}

impl<S: Files + AllocGlobal> DrawIds for SystemFolders<'_, S> {
    ghost use Rattle.std.specs.Prelude.{⊤};

    ghost draws = { λ _ _. ⊤ };

    fn draw(&self) -> io::Result<Id> {
        let mut id = [0; 16];
        fs::open(self.rt, "/dev/urandom")?.read_exact(&mut id)?;
        Ok(id)
    }
}

/// Why a line is of no set.
#[derive(Drop)]
pub(crate) enum Unchosen {
    /// The folder's files could not be inspected, or have no set.
    Fault(FolderFault),
    /// They have several sets, of these ids in rising order.
    Several(Vec<Id>),
    /// No id could be drawn.
    Undrawn,
}

impl From<FolderFault> for Unchosen {
    ghost use Rattle.std.specs.Prelude.{◌≡◌};
    ghost use Rattle.raidtool.specs.declared.choosing.Unchosen.TheVariants.{Fault};

    ghost from_gives = { λ fault unchosen. unchosen ≡ Fault fault };

    fn from(fault: FolderFault) -> Unchosen {
        Unchosen::Fault(fault)
    }
}

impl From<Refusal> for Unchosen {
    ghost use Rattle.std.specs.Prelude.{◌≡◌};
    ghost use Rattle.device_files.specs.declared.FolderFault.TheVariants.{Refused};
    ghost use Rattle.raidtool.specs.declared.choosing.Unchosen.TheVariants.{Fault};

    ghost from_gives = { λ refusal unchosen. unchosen ≡ Fault (Refused refusal) };

    fn from(refusal: Refusal) -> Unchosen {
        Unchosen::Fault(FolderFault::Refused(refusal))
    }
}

/// The line that was asked for, with the id of its set: the one in its words, one that is drawn, or that of the only
/// set of its folder, whose files are opened for reading alone.
///
/// `Undrawn` where drawing it failed; `Several` where there are several sets, and `NoSet` where there is none;
/// `Memory`, `Worn`, and the faults of opening a folder's files for reading.
pub(crate) fn choose<'a, D: InspectFiles + DrawIds>(
    alloc: Global,
    disk: &D,
    asked: &Asked<'a>,
) -> Result<Invocation<'a>, Unchosen>
    ensures chosen { IfOk result (IsChosen ⟦<D::InspectedFile as Growing>⟧ D.InspectedFile.left
        (D.inspects disk.now) (D.draws disk.now) asked.now) }
    ensures unchosen { IfErr result (IsUnchosen ⟦<D::InspectedFile as Growing>⟧ D.InspectedFile.left
        (D.inspects disk.now) (D.draws disk.now) asked.now) }
{
    let id = match asked.choice {
        SetChoice::Given => return Ok(asked.line),
        SetChoice::New => match disk.draw() {
            Ok(id) => id,
            Err(_) => return Err(Unchosen::Undrawn),
        },
        SetChoice::Only => only_set(alloc, disk, folder_of(&asked.line))?,
    };
    Ok(asked.line.with_id(id))
}

// The id of the only set on the files of a folder.
fn only_set<D: InspectFiles>(alloc: Global, disk: &D, folder: &str) -> Result<Id, Unchosen>
    ensures only { IfOk result (λ id. AreIdsIn ⟦<D::InspectedFile as Growing>⟧ D.InspectedFile.left
        (D.inspects disk.now) folder.now (id ∷ [])) }
    ensures none { IfErr result (IsNotOnly ⟦<D::InspectedFile as Growing>⟧ D.InspectedFile.left
        (D.inspects disk.now) folder.now) }
{
    let ids = ids_in(alloc, disk, folder)?;
    match ids.as_slice() {
        [] => Err(Unchosen::Fault(FolderFault::Refused(Refusal::NoSet))),
        [id] => Ok(*id),
        _ => Err(Unchosen::Several(ids)),
    }
}

// The ids of the sets on the files of a folder, which are opened for reading alone.
fn ids_in<D: InspectFiles>(alloc: Global, disk: &D, folder: &str) -> Result<Vec<Id>, FolderFault>
    ensures ids { IfOk result (λ ids. AreIdsIn ⟦<D::InspectedFile as Growing>⟧ D.InspectedFile.left
        (D.inspects disk.now) folder.now ids.items) }
    ensures fault { IfErr result (IsUninspected ⟦<D::InspectedFile as Growing>⟧ D.InspectedFile.left
        (D.inspects disk.now) folder.now) }
{
    let files = inspect_folder(alloc, disk, folder)?;
    let mut bank = bank_to_inspect(alloc, &files)?;
    let mut ids = Vec::new(alloc);
    push_ids_above(&mut bank, None, MOST_SETS, &mut ids)?;
    Ok(ids)
}

// Appends the ids above this one of sets of which a superblock counts, so many at most.
fn push_ids_above<B: Bank>(
    bank: &mut B,
    above: Option<Id>,
    most: u8,
    ids: &mut Vec<Id>,
) -> Result<(), Refusal>
    ensures found { OnOk result (AppendsIds ids.old.items ids.new.items
        (FindsIdsAbove (B.honest bank.old) most above (bank_seen B.Bank bank.old) (bank_seen B.Bank bank.new))) }
    ensures honest { B.honest bank.old ↔ B.honest bank.new }
    ensures err { IfErr result IsInspectionEnd }
    ensures cause { IfErr result (λ refusal. refusal ≢ Refusal.Memory → IsWornOn (bank_seen B.Bank bank.old)) }
{
    if most == 0 {
        return Ok(());
    }
    let Some(id) = id_above(bank, &above)? else {
        return Ok(());
    };
    if ids.push(id).is_err() {
        return Err(Refusal::Memory);
    }
    push_ids_above(bank, Some(id), most - 1, ids)
}
