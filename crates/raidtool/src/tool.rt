//! One line of the program.
ghost use Rattle.std.specs.Prelude.{◌≡◌, ◌≢◌, ◌⊎◌, ◌≤◌, ◌↔◌, ℕ, Bool, List, [], Some, None, Err, IfErr, OnOk, is_ok};
ghost use Rattle.std.specs.Prelude.{if◌then◌else◌, IsTrue};
ghost use Rattle.clap.specs.Walk.{texts};
ghost use Rattle.sector_model.specs.declared.refusal.Refusal.{Refusal};
ghost use Rattle.recovery.specs.SeenBank.{bank_seen};
ghost use Rattle.volume_table.specs.Events.{event_of};
ghost use Rattle.volume_table.specs.VolumeStep.{OnVolumes};
ghost use Rattle.command_line.specs.declared.Asked.{Asked};
ghost use Rattle.command_line.specs.declared.Invocation.{Invocation};
ghost use Rattle.device_files.specs.declared.FolderFault.{FolderFault};
ghost use Rattle.device_files.specs.DeviceFiles.{slot_path};
ghost use Rattle.device_files.specs.Faults.{IsToldLine};
ghost use Rattle.raidtool.specs.Begun.{BeginsInspected};
ghost use Rattle.raidtool.specs.Causes.{HasCause, IsCauseOfExamine, IsCauseOn, IsCauseOver, IsCaused, IsCausedBy};
ghost use Rattle.raidtool.specs.Causes.{IsPlainEnd, folder_text, id_text};
ghost use Rattle.raidtool.specs.Choosing.{IsChosen, IsUnchosen};
ghost use Rattle.raidtool.specs.Done.{DoesOn, IsPartExamined, command_for};
ghost use Rattle.raidtool.specs.DoneOver.{HealthOf, IsDone, IsExaminedIn, IsServedOver};
ghost use Rattle.raidtool.specs.Ends.{EndsAsked, EndsLine, EndsWords, unchosen_line, unchosen_status};
ghost use Rattle.raidtool.specs.Stops.{HasPassed, IsBlamed, IsInspectionBlamed, IsServeFault, IsTold, IsToldAfter};
ghost use Rattle.raidtool.specs.Texts.{IsFaultLine};
ghost use Rattle.raidtool.specs.Tool.{ComesFirst, IsAsked, IsBlamedIn, IsEndOfLine, IsFirst, IsFirstIn, IsMemoryFault};
ghost use Rattle.raidtool.specs.Tool.{IsMisshapen};
ghost use Rattle.raidtool.specs.Tool.{IsPartWritten, IsServed, IsStopOf, PassesNone, ReadsInput, WasRefused, checked_status};
ghost use Rattle.raidtool.specs.Tool.{is_new};
ghost use Rattle.set_commands.specs.DoneLaw.{CommandsMakeInvocations};
ghost use Rattle.set_commands.specs.Examining.{IsExamineEnd};
ghost use Rattle.set_commands.specs.Fresh.{IsFreshEnd, RunsFresh};
ghost use Rattle.set_commands.specs.Invocations.{HeadlineOfTheProgram};
ghost use Rattle.set_commands.specs.Run.{streams};

use crate::choosing::{DrawIds, Unchosen, choose};
use crate::make::{Wanted, make_set, make_sized};
use crate::replacing::replace_in_folder;
use crate::serving::serve_in_folder;
use crate::telling::{tell_fault, tell_several};
use clap::error::ErrorKind;
use command_line::{Asked, Change, Invocation, InvocationFault, SetChoice, parse_invocation};
use device_files::{
    BankFile, FolderFault, FolderSync, Growing, InspectFiles, SlotFiles, bank_on, bank_to_inspect,
    folder_status, inspect_folder, open_folder, pass_over,
};
use layout_map::Geometry;
use report::replies::{Answer, write_reply, write_text};
use sector_model::{Bank, Refusal};
use set_commands::{
    Health, Meter, apply_on, examine_on, headline_of_the_program, law_of_invocations,
    rebuild_with_progress, scrub_with_progress, serve_fresh, serve_on, tell_on,
};
use std::alloc::Global;
use std::io::{BufRead, Write};
use stripe_journal::Entry;
use volume_table::Event;

/// Does what the words after the program's name ask for, and gives the exit status: 0 where it was done, also where
/// lines of a script were refused; 1 for a refusal, which is written to `err` as `refused 17 NoSet`, also for `Memory`
/// while the words are read, and for a fault of a device file, which is written as `cannot make dev3.img`, `in use
/// dev3.img`, `cannot open dev3.img: ` and why, `not a regular file: dev3.img`, `cannot sync dev3.img: ` and why,
/// `another set with this id: dev5.img`, `there is a set: ` and its id, `no file: dev2.img` or `cannot sync FOLDER`; 2
/// for a line that is none of the program's or asks for help or the version, which is answered on `err`. Without any
/// words the script is served over a set in memory that is made for it. On `out` a set that was made is answered with
/// `made`, and its id where that was drawn, a status is written as text or as JSON, a slot that was given up or got a
/// device, a volume that was made, extended, removed or renamed and a table of volumes that has its last version are
/// answered with `ok`, and a rebuild and a scrub with how far the one came and what the other found. Where a device
/// file can't be opened that the set doesn't need, it is done without, which is written to `err` as `without dev1.img:
/// read-only file system`.
///
/// A line may leave its id open (`--id new`, `--id auto`): it is drawn, or that of the only set of its folder. Where
/// there are several, their ids are written to `err`, and the status is 1.
///
/// A status or an inspection that asks how well a set is (`--check`) ends with 3 where it is not complete, and with 4
/// where it would not be assembled, or was refused with `NoSet`, `BadTable`, `TwoLost` or `Worn`.
///
/// Over a folder, each device file is opened once, and locked until the line is done; when all are locked, each is
/// synced before any is read. For an inspection of its sets, and to find its only one, it is opened for reading alone,
/// and neither locked nor synced.
pub(crate) fn tool<S, D, R: BufRead, W: Write, E: Write>(
    rt: &S,
    disk: &D,
    words: &[&str],
    reader: &mut R,
    out: &mut W,
    err: &mut E,
) -> u8
where
    S: Meter + AllocGlobal,
    D: SlotFiles + InspectFiles + FolderSync + DrawIds,
    D::File: BankFile,
    ensures status { result ≤ 4 }

    // Of invocations, one after another, each ended by a crash at any moment or after it.
    ensures headline { HeadlineOfTheProgram }

    // 0 only where something was asked for, and 2 only where nothing was: then nothing is done.
    ensures done { result ≡ 0 → IsAsked (texts words.now) }
    ensures wrong { result ≡ 2 → ¬ IsAsked (texts words.now) }
    ensures unread { result ≡ 2 → (reader.new ≡ reader.old) × (out.new ≡ out.old) }

    // Words: the line that they ask for has its set, and ends as it should; or what they lack is told.
    ensures ends { texts words.now ≢ [] → EndsWords (texts words.now)
        (λ asked. EndsAsked asked result
        (IsChosen ⟦<D::InspectedFile as Growing>⟧ D.InspectedFile.left (D.inspects disk.now)
        (D.draws disk.now) asked)
        (IsUnchosen ⟦<D::InspectedFile as Growing>⟧ D.InspectedFile.left (D.inspects disk.now)
        (D.draws disk.now) asked)
        (λ line. EndsLine line (is_new asked.choice) result
        (IsDone ⟦<D::File as Growing>⟧ D.File.left ⟦<D::InspectedFile as Growing>⟧ D.InspectedFile.left
        (D.opens disk.now) (D.creates disk.now) (D.inspects disk.now)
        (λ folder. D.is_safe disk.now folder ⊎ D.is_never disk.now folder)
        (is_new asked.choice) line (streams (R.remaining reader.old) (W.contents out.old))
        (streams (R.remaining reader.new) (W.contents out.new)) Health.Complete)
        (IsCaused ⟦<D::File as Growing>⟧ D.File.left ⟦<D::InspectedFile as Growing>⟧ D.InspectedFile.left
        (D.opens disk.now) (D.inspects disk.now) line)
        (IsBlamedIn ⟦<D::File as Growing>⟧ (D.opens disk.now) (D.creates disk.now) (D.inspects disk.now) line)
        (λ text. IsToldAfter E.contents text err.old err.new)
        (λ text. IsToldLine text (E.contents err.old) (E.contents err.new))
        (HasPassed E.contents err.old err.new) (err.new ≡ err.old) (reader.new ≡ reader.old) (out.new ≡ out.old)
        (R.remaining reader.old ≢ None → R.remaining reader.new ≡ Some [])
        (W.contents out.old) (W.contents out.new))
        (λ text. IsToldLine text (E.contents err.old) (E.contents err.new))
        ((reader.new ≡ reader.old) × (out.new ≡ out.old)))
        ((result ≡ 1) × IsTold Refusal.Memory (E.contents err.old) (E.contents err.new)
        × (reader.new ≡ reader.old) × (out.new ≡ out.old))
        (λ fault. (result ≡ 2)
        × ((line : List ℕ) → IsFaultLine fault line → IsToldLine line (E.contents err.old) (E.contents err.new))) }

    // Without any words: a script was run to its end, or refused, over a set in memory.
    ensures memory { (script : List ℕ) → words.now ≡ [] → R.remaining reader.old ≡ Some script → result ≡ 0
        → ∥ RunsFresh script (W.contents out.old) (W.contents out.new) ∥₁ }
    ensures read { words.now ≡ [] → result ≡ 0 → R.remaining reader.old ≢ None → R.remaining reader.new ≡ Some [] }
    ensures silent { words.now ≡ [] → result ≡ 0 → err.new ≡ err.old }
    ensures refused { words.now ≡ [] → (result ≡ 0) ⊎ ((result ≡ 1) × WasRefused IsFreshEnd ComesFirst
        (λ text. IsToldLine text (E.contents err.old) (E.contents err.new))
        ((reader.new ≡ reader.old) × (out.new ≡ out.old))) }
{
    headline_of_the_program();
    if words.is_empty() {
        return status_of(serve_fresh(rt.alloc(), reader, out), err);
    }
    match parse_invocation(rt.alloc(), words) {
        Ok(asked) => end_asked(rt, disk, &asked, reader, out, err),
        Err(fault) if is_memory(&fault) => status_of(Err(Refusal::Memory), err),
        Err(fault) => {
            tell_fault(rt.alloc(), &fault, words, err);
            2
        }
    }
}

// Does what was asked for, once its set is known, and gives the exit status.
fn end_asked<S, D, R: BufRead, W: Write, E: Write>(
    rt: &S,
    disk: &D,
    asked: &Asked<'_>,
    reader: &mut R,
    out: &mut W,
    err: &mut E,
) -> u8
where
    S: Meter + AllocGlobal,
    D: SlotFiles + InspectFiles + FolderSync + DrawIds,
    D::File: BankFile,
    ensures ends { EndsAsked asked.now result
        (IsChosen ⟦<D::InspectedFile as Growing>⟧ D.InspectedFile.left (D.inspects disk.now)
        (D.draws disk.now) asked.now)
        (IsUnchosen ⟦<D::InspectedFile as Growing>⟧ D.InspectedFile.left (D.inspects disk.now)
        (D.draws disk.now) asked.now)
        (λ line. EndsLine line (is_new asked.now.choice) result
        (IsDone ⟦<D::File as Growing>⟧ D.File.left ⟦<D::InspectedFile as Growing>⟧ D.InspectedFile.left
        (D.opens disk.now) (D.creates disk.now) (D.inspects disk.now)
        (λ folder. D.is_safe disk.now folder ⊎ D.is_never disk.now folder)
        (is_new asked.now.choice) line (streams (R.remaining reader.old) (W.contents out.old))
        (streams (R.remaining reader.new) (W.contents out.new)) Health.Complete)
        (IsCaused ⟦<D::File as Growing>⟧ D.File.left ⟦<D::InspectedFile as Growing>⟧ D.InspectedFile.left
        (D.opens disk.now) (D.inspects disk.now) line)
        (IsBlamedIn ⟦<D::File as Growing>⟧ (D.opens disk.now) (D.creates disk.now) (D.inspects disk.now) line)
        (λ text. IsToldAfter E.contents text err.old err.new)
        (λ text. IsToldLine text (E.contents err.old) (E.contents err.new))
        (HasPassed E.contents err.old err.new) (err.new ≡ err.old) (reader.new ≡ reader.old) (out.new ≡ out.old)
        (R.remaining reader.old ≢ None → R.remaining reader.new ≡ Some [])
        (W.contents out.old) (W.contents out.new))
        (λ text. IsToldLine text (E.contents err.old) (E.contents err.new))
        ((reader.new ≡ reader.old) × (out.new ≡ out.old)) }
    ensures most { result ≤ 4 }
    ensures never_two { result ≢ 2 }
{
    match choose(rt.alloc(), disk, asked) {
        Ok(line) => end_line(rt, disk, line, is_new(asked.choice), reader, out, err),
        Err(unchosen) => end_unchosen(&asked.line, unchosen, err),
    }
}

// Whether the id of a set is to be drawn.
fn is_new(choice: SetChoice) -> bool
    ensures { result ≡ is_new choice }
{
    match choice {
        SetChoice::New => true,
        SetChoice::Given | SetChoice::Only => false,
    }
}

// Tells why a line is of no set, and gives its exit status.
fn end_unchosen<E: Write>(line: &Invocation<'_>, unchosen: Unchosen, err: &mut E) -> u8
    ensures status { result ≡ unchosen_status line.now unchosen }
    ensures told { IsToldLine (unchosen_line (folder_text line.now) unchosen) (E.contents err.old)
        (E.contents err.new) }
{
    match unchosen {
        Unchosen::Fault(fault) => {
            let done = Err(fault);
            let status = folder_status(done, folder_of(line), err);
            checked(line, &done, status, Health::Complete)
        }
        Unchosen::Several(ids) => {
            tell_several(err, &ids);
            1
        }
        Unchosen::Undrawn => {
            let _ = write_text(err, b"cannot draw an id\n");
            1
        }
    }
}

// Does what a line asks for, and gives the exit status.
fn end_line<S, D, R: BufRead, W: Write, E: Write>(
    rt: &S,
    disk: &D,
    line: Invocation<'_>,
    drawn: bool,
    reader: &mut R,
    out: &mut W,
    err: &mut E,
) -> u8
where
    S: Meter + AllocGlobal,
    D: SlotFiles + InspectFiles + FolderSync,
    D::File: BankFile,
    ensures { EndsLine line.entry drawn result
        (IsDone ⟦<D::File as Growing>⟧ D.File.left ⟦<D::InspectedFile as Growing>⟧ D.InspectedFile.left
        (D.opens disk.now) (D.creates disk.now) (D.inspects disk.now)
        (λ folder. D.is_safe disk.now folder ⊎ D.is_never disk.now folder)
        drawn line.entry (streams (R.remaining reader.old) (W.contents out.old))
        (streams (R.remaining reader.new) (W.contents out.new)) Health.Complete)
        (IsCaused ⟦<D::File as Growing>⟧ D.File.left ⟦<D::InspectedFile as Growing>⟧ D.InspectedFile.left
        (D.opens disk.now) (D.inspects disk.now) line.entry)
        (IsBlamedIn ⟦<D::File as Growing>⟧ (D.opens disk.now) (D.creates disk.now) (D.inspects disk.now) line.entry)
        (λ text. IsToldAfter E.contents text err.old err.new)
        (λ text. IsToldLine text (E.contents err.old) (E.contents err.new))
        (HasPassed E.contents err.old err.new) (err.new ≡ err.old) (reader.new ≡ reader.old) (out.new ≡ out.old)
        (R.remaining reader.old ≢ None → R.remaining reader.new ≡ Some [])
        (W.contents out.old) (W.contents out.new) }
{
    let mut health = Health::Complete;
    let done = do_line(rt, disk, line, drawn, reader, out, err, &mut health);
    let status = folder_status(done, folder_of(&line), err);
    checked(&line, &done, status, health)
}

// Does what a line asks for.
#[tactic(auto, using(crate::proofs::Taken::nothing_passed))]
fn do_line<S, D, R: BufRead, W: Write, E: Write>(
    rt: &S,
    disk: &D,
    line: Invocation<'_>,
    drawn: bool,
    reader: &mut R,
    out: &mut W,
    err: &mut E,
    health: &mut Health,
) -> Result<(), FolderFault>
where
    S: Meter + AllocGlobal,
    D: SlotFiles + InspectFiles + FolderSync,
    D::File: BankFile,
    ensures does { OnOk result (IsDone ⟦<D::File as Growing>⟧ D.File.left
        ⟦<D::InspectedFile as Growing>⟧ D.InspectedFile.left
        (D.opens disk.now) (D.creates disk.now) (D.inspects disk.now)
        (λ folder. D.is_safe disk.now folder ⊎ D.is_never disk.now folder)
        drawn line.entry (streams (R.remaining reader.old) (W.contents out.old))
        (streams (R.remaining reader.new) (W.contents out.new)) health.old health.new) }
    ensures read { ReadsInput line.entry → R.remaining reader.old ≢ None → OnOk result (R.remaining reader.new ≡ Some []) }
    ensures stopped { IfErr result (IsStopOf line.entry) }
    ensures cause { IfErr result (IsCausedBy (HasCause ⟦<D::File as Growing>⟧ D.File.left
        ⟦<D::InspectedFile as Growing>⟧ D.InspectedFile.left (D.opens disk.now) (D.inspects disk.now) line.entry)) }
    ensures named { IfErr result (IsBlamedIn ⟦<D::File as Growing>⟧ (D.opens disk.now) (D.creates disk.now)
        (D.inspects disk.now) line.entry) }
    ensures alone { IfErr result (λ fault. IsFirstIn line.entry fault → (reader.new ≡ reader.old) × (out.new ≡ out.old)) }
    ensures unwritten { ¬ ReadsInput line.entry
        → IfErr result (λ fault. fault ≢ FolderFault.Refused Refusal.WriteFault → out.new ≡ out.old) }
    ensures cut { ¬ ReadsInput line.entry → IfErr result (λ fault. fault ≡ FolderFault.Refused Refusal.WriteFault
        → IsPartWritten drawn line.entry (W.contents out.old) (W.contents out.new)) }
    ensures beside { ¬ ReadsInput line.entry → reader.new ≡ reader.old }
    ensures misshapen { IsMisshapen line.entry → (result ≡ Err (FolderFault.Refused Refusal.BadGeometry))
        × (err.new ≡ err.old) }
    ensures passed { HasPassed E.contents err.old err.new }
    ensures hushed { PassesNone line.entry → err.new ≡ err.old }
{
    match line {
        Invocation::Make {
            folder,
            id,
            members,
            chunk,
            stripes,
        } => {
            let geometry = Geometry::new(members, chunk, stripes)?;
            make_set(rt, disk, folder, id, geometry, drawn, out)
        }
        Invocation::MakeSized {
            folder,
            id,
            members,
            chunk,
            size,
            over,
            reserve,
        } => {
            let wanted = Wanted {
                members,
                chunk,
                size,
                over,
                reserve,
            };
            make_sized(rt, disk, folder, id, &wanted, drawn, out)
        }
        Invocation::Replace { folder, id, slot } => {
            replace_in_folder(rt, disk, folder, id, slot, out, err)
        }
        Invocation::Examine {
            folder,
            id,
            json,
            ..
        } => examine_folder(rt.alloc(), disk, folder, id, json, out, health),
        Invocation::Serve { folder, id } => {
            serve_in_folder(rt.alloc(), disk, folder, id, reader, out, err)
        }
        served => serve_folder(rt, disk, served, reader, out, err, health),
    }
}

/// The folder of a line.
pub(crate) fn folder_of<'a>(line: &Invocation<'a>) -> &'a str
    ensures { result.now ≡ folder_text line.now }
{
    match line {
        Invocation::Run { folder, .. }
        | Invocation::Serve { folder, .. }
        | Invocation::Make { folder, .. }
        | Invocation::MakeSized { folder, .. }
        | Invocation::Change { folder, .. }
        | Invocation::Status { folder, .. }
        | Invocation::Fail { folder, .. }
        | Invocation::Replace { folder, .. }
        | Invocation::Rebuild { folder, .. }
        | Invocation::Scrub { folder, .. }
        | Invocation::Upgrade { folder, .. }
        | Invocation::Examine { folder, .. } => folder,
    }
}

// The id of a line that needs no file to be made; of others it is not asked.
fn id_of(line: &Invocation<'_>) -> [u8; 16]
    requires { IsServed line.now }
    ensures { result ≡ id_text line.now }
{
    match line {
        Invocation::Run { id, .. }
        | Invocation::Status { id, .. }
        | Invocation::Fail { id, .. }
        | Invocation::Rebuild { id, .. }
        | Invocation::Scrub { id, .. }
        | Invocation::Upgrade { id, .. }
        | Invocation::Change { id, .. } => *id,
        Invocation::Serve { .. }
        | Invocation::Make { .. }
        | Invocation::MakeSized { .. }
        | Invocation::Replace { .. }
        | Invocation::Examine { .. } => unreachable!(),
    }
}

// Inspects the sets on the device files of a folder, which are opened for reading alone.
fn examine_folder<D: InspectFiles, W: Write>(
    alloc: Global,
    disk: &D,
    folder: &str,
    id: Option<[u8; 16]>,
    json: bool,
    out: &mut W,
    health: &mut Health,
) -> Result<(), FolderFault>
    ensures examined { OnOk result (IsExaminedIn ⟦<D::InspectedFile as Growing>⟧ D.InspectedFile.left
        (D.inspects disk.now) folder.now id json (W.contents out.old) (W.contents out.new) health.old health.new) }
    ensures stopped { IfErr result (IsServeFault IsExamineEnd) }
    ensures cause { IfErr result (IsCausedBy
        (IsCauseOfExamine ⟦<D::InspectedFile as Growing>⟧ D.InspectedFile.left
        (D.inspects disk.now) folder.now id json)) }
    ensures named { IfErr result (IsInspectionBlamed (D.inspects disk.now) folder.now) }
    ensures unwritten { IfErr result (λ fault. fault ≢ FolderFault.Refused Refusal.WriteFault → out.new ≡ out.old) }
    ensures cut { IfErr result (λ fault. fault ≡ FolderFault.Refused Refusal.WriteFault
        → IsPartExamined (IsTrue D.InspectedFile.tells)
        (BeginsInspected ⟦<D::InspectedFile as Growing>⟧ D.InspectedFile.left
        (λ slot. D.inspects disk.now (slot_path folder.now slot)))
        id json
        (W.contents out.old) (W.contents out.new)) }
{
    let files = inspect_folder(alloc, disk, folder)?;
    let bank = bank_to_inspect(alloc, &files)?;
    examine_on(alloc, bank, id, json, out, health)?;
    Ok(())
}

// Does what a line asks for that needs no file to be made, over the device files of its folder.
#[tactic(auto, using(crate::proofs::Taken::nothing_passed))]
fn serve_folder<S, D, R: BufRead, W: Write, E: Write>(
    rt: &S,
    disk: &D,
    line: Invocation<'_>,
    reader: &mut R,
    out: &mut W,
    err: &mut E,
    health: &mut Health,
) -> Result<(), FolderFault>
where
    S: Meter + AllocGlobal,
    D: SlotFiles,
    D::File: BankFile,
    requires { IsServed line }
    ensures served { OnOk result (IsServedOver ⟦<D::File as Growing>⟧ D.File.left (D.opens disk.now) line.entry
        (streams (R.remaining reader.old) (W.contents out.old))
        (streams (R.remaining reader.new) (W.contents out.new)) health.old health.new) }
    ensures passed { HasPassed E.contents err.old err.new }
    ensures read { ReadsInput line.entry → R.remaining reader.old ≢ None → OnOk result (R.remaining reader.new ≡ Some []) }
    ensures stopped { IfErr result (IsStopOf line.entry) }
    ensures cause { IfErr result (IsCausedBy
        (IsCauseOver ⟦<D::File as Growing>⟧ D.File.left (D.opens disk.now) line.entry)) }
    ensures named { IfErr result (IsBlamed (D.opens disk.now) (D.creates disk.now)
        D.File.has_failed (folder_text line.entry)) }
    ensures alone { IfErr result (λ fault. IsFirst fault → (reader.new ≡ reader.old) × (out.new ≡ out.old)) }
    ensures unwritten { ¬ ReadsInput line.entry
        → IfErr result (λ fault. fault ≢ FolderFault.Refused Refusal.WriteFault → out.new ≡ out.old) }
    ensures cut { ¬ ReadsInput line.entry → IfErr result (λ fault. fault ≡ FolderFault.Refused Refusal.WriteFault
        → (drawn : Bool) → IsPartWritten drawn line.entry (W.contents out.old) (W.contents out.new)) }
    ensures beside { ¬ ReadsInput line.entry → reader.new ≡ reader.old }
{
    let entry = Entry::new(rt.alloc())?;
    let files = open_folder(rt.alloc(), disk, folder_of(&line))?;
    pass_over(rt.alloc(), &files, id_of(&line), err)?;
    let mut open = files.files;
    let bank = bank_on(rt.alloc(), &mut open)?;
    do_on(rt, bank, entry, line, reader, out, health)?;
    Ok(())
}

// Does what a line asks for that needs no file to be made, over a bank of devices.
fn do_on<S, B: Bank + Drop, R: BufRead, W: Write>(
    rt: &S,
    bank: B,
    entry: Entry,
    line: Invocation<'_>,
    reader: &mut R,
    out: &mut W,
    health: &mut Health,
) -> Result<(), Refusal>
where
    S: Meter + AllocGlobal,
    requires { IsServed line }
    ensures invocations { CommandsMakeInvocations (B.honest bank) }
    ensures health { OnOk result (HealthOf line.entry (B.honest bank) (bank_seen B.Bank bank) health.old health.new) }
    ensures does { OnOk result (DoesOn line.entry (B.honest bank) (bank_seen B.Bank bank)
        (streams (R.remaining reader.old) (W.contents out.old))
        (streams (R.remaining reader.new) (W.contents out.new))) }
    ensures read { ReadsInput line.entry → R.remaining reader.old ≢ None → OnOk result (R.remaining reader.new ≡ Some []) }
    ensures end { IfErr result (IsEndOfLine line.entry) }
    ensures cause { IfErr result (λ refusal. ¬ IsPlainEnd refusal
        → IsCauseOn line.entry (B.honest bank) (bank_seen B.Bank bank) refusal) }
    ensures alone { IfErr result (λ refusal. ComesFirst refusal → (reader.new ≡ reader.old) × (out.new ≡ out.old)) }
    ensures unwritten { ¬ ReadsInput line.entry
        → IfErr result (λ refusal. refusal ≢ Refusal.WriteFault → out.new ≡ out.old) }
    ensures cut { ¬ ReadsInput line.entry → IfErr result (λ refusal. refusal ≡ Refusal.WriteFault
        → (drawn : Bool) → IsPartWritten drawn line.entry (W.contents out.old) (W.contents out.new)) }
    ensures beside { ¬ ReadsInput line.entry → reader.new ≡ reader.old }
{
    law_of_invocations(&bank);
    match line {
        Invocation::Run { id, .. } => serve_on(rt.alloc(), bank, entry, id, reader, out),
        Invocation::Status { id, json, .. } => tell_on(
            rt.alloc(),
            bank,
            entry,
            id,
            json,
            out,
            health,
        ),
        Invocation::Fail { id, slot, .. } => {
            apply_on(rt.alloc(), bank, entry, id, &Event::Fail { slot }, out)
        }
        Invocation::Rebuild { id, steps, .. } => {
            rebuild_with_progress(bank, rt, entry, id, steps, out)
        }
        Invocation::Scrub { id, .. } => scrub_with_progress(rt.alloc(), bank, rt, entry, id, out),
        Invocation::Upgrade { id, .. } => {
            apply_on(rt.alloc(), bank, entry, id, &Event::Upgrade, out)
        }
        Invocation::Change { id, change, .. } => {
            apply_on(rt.alloc(), bank, entry, id, &event_for(change), out)
        }
        Invocation::Serve { .. }
        | Invocation::Make { .. }
        | Invocation::MakeSized { .. }
        | Invocation::Replace { .. }
        | Invocation::Examine { .. } => unreachable!(),
    }
}

// The event of a change of volumes.
fn event_for(change: Change<'_>) -> Event<'_>
    ensures { event_of result ≡ OnVolumes (command_for change.entry) }
{
    match change {
        Change::Create { name, blocks } => Event::Create {
            name: name.as_bytes(),
            blocks,
        },
        Change::Extend { name, blocks } => Event::Extend {
            name: name.as_bytes(),
            by: blocks,
        },
        Change::Remove { name } => Event::Remove {
            name: name.as_bytes(),
        },
        Change::Rename { name, to } => Event::Rename {
            old: name.as_bytes(),
            new: to.as_bytes(),
        },
        Change::List => Event::List,
    }
}

// The exit status of a line, which is this unless it asks how well a set is: then 3 where one is not complete, and 4
// where one would not be assembled, or was not.
fn checked(line: &Invocation<'_>, done: &Result<(), FolderFault>, status: u8, health: Health) -> u8
    ensures { result ≡ checked_status line.now done.now status health }
{
    match line {
        Invocation::Status { check: true, .. } | Invocation::Examine { check: true, .. } => {}
        _ => return status,
    }
    match done {
        Ok(()) => match health {
            Health::Complete => 0,
            Health::Incomplete => 3,
            Health::Unassembled => 4,
        },
        Err(
            FolderFault::Refused(
                Refusal::NoSet | Refusal::BadTable | Refusal::TwoLost | Refusal::Worn,
            ),
        ) => 4,
        Err(_) => status,
    }
}

// Says whether memory ran out while the words were read.
fn is_memory(fault: &InvocationFault) -> bool
    ensures { IsTrue result ↔ IsMemoryFault fault.now }
{
    match fault {
        InvocationFault::Usage(error) => error.kind() == ErrorKind::OutOfMemory,
        InvocationFault::BadId | InvocationFault::BadSize | InvocationFault::BadShape => false,
    }
}

/// The exit status of what was done: 0, or 1 for a refusal, which is told.
pub fn status_of<E: Write>(done: Result<(), Refusal>, err: &mut E) -> u8
    ensures status { result ≡ (if is_ok done then 0 else 1) }
    ensures quiet { OnOk done (err.new ≡ err.old) }
    ensures told { IfErr done (λ refusal. IsTold refusal (E.contents err.old) (E.contents err.new)) }
{
    match done {
        Ok(()) => 0,
        Err(refusal) => {
            let _ = write_reply(err, &Answer::Refused(refusal));
            1
        }
    }
}
