//! What the matches say that clap finds.
ghost use Rattle.std.specs.Prelude.{◌≡◌, IfErr, IfOk, IsSomeAnd, None, Ok, Some, codes, false, true};
ghost use Rattle.hex.specs.Hex.{decode_of};
ghost use Rattle.clap.specs.Words.{first_of, found_of, rows_of, subcommand_rows_of};
ghost use Rattle.command_line.specs.FoundRows.{HasCountOrNone, HasEntered, HasFlags, HasFolder, HasMakeValues};
ghost use Rattle.command_line.specs.FoundRows.{HasNumberTo, HasNumberToOrNone, HasSet, HasWord};
ghost use Rattle.command_line.specs.Invocations.{AsksIn, Chooses, ChoosesOrNone, IsChoice, IsFaultIn, IsIdText};
ghost use Rattle.command_line.specs.Invocations.{IsByStripes, NamesSet};

use crate::sizes::{read_extent, read_room};
use crate::{Asked, Change, Invocation, InvocationFault, SetChoice};
use clap::ArgMatches;
use hex::FromHex;

/// Reads the matches of the program.
pub(crate) fn read_invocation<'a>(matches: &ArgMatches<'a>) -> Result<Asked<'a>, InvocationFault>
    requires { HasEntered (subcommand_rows_of matches.now) }
    ensures ok { IfOk result (λ asked. IsSomeAnd (subcommand_rows_of matches.now) (λ e. AsksIn e.0 e.1 asked)) }
    ensures err { IfErr result (λ fault. IsSomeAnd (subcommand_rows_of matches.now) (λ e. IsFaultIn e.0 e.1 fault)) }
{
    match matches.subcommand() {
        Some(("run", run)) => read_run(run),
        Some(("serve", serve)) => read_serve(serve),
        Some(("make", make)) => read_make(make),
        Some(("status", status)) => read_status(status),
        Some(("fail", fail)) => read_fail(fail),
        Some(("replace", replace)) => read_replace(replace),
        Some(("rebuild", rebuild)) => read_rebuild(rebuild),
        Some(("scrub", scrub)) => read_scrub(scrub),
        Some(("upgrade", upgrade)) => read_upgrade(upgrade),
        Some(("examine", examine)) => read_examine(examine),
        Some(("create", create)) => read_create(create),
        Some(("extend", extend)) => read_extend(extend),
        Some(("remove", remove)) => read_remove(remove),
        Some(("rename", rename)) => read_rename(rename),
        Some(("list", list)) => read_list(list),
        _ => unreachable!(),
    }
}

// The set that a line is of, in the folder that it names.
#[derive(Clone, Copy)]
struct Chosen<'a> {
    folder: &'a str,
    id: [u8; 16],
    choice: SetChoice,
}

impl<'a> Chosen<'a> {
    // What a line of this set asks for.
    fn asks(self, line: Invocation<'a>) -> Asked<'a>
        ensures { result ≡ record { line = line.entry; choice = self.entry.choice } }
    {
        Asked {
            line,
            choice: self.choice,
        }
    }

    // What a change of the volumes of this set asks for.
    fn changes(self, change: Change<'a>) -> Asked<'a>
        ensures { result ≡ record {
          line = Invocation.Change self.entry.folder self.entry.id change.entry;
          choice = self.entry.choice;
        } }
    {
        self.asks(Invocation::Change {
            folder: self.folder,
            id: self.id,
            change,
        })
    }
}

// The bytes of an id.
fn read_id(text: &str) -> Result<[u8; 16], InvocationFault>
    ensures ok { IfOk result (λ id. IsIdText text.now × (decode_of text.now ≡ Ok id)) }
    ensures err { IfErr result (λ fault. (fault ≡ InvocationFault.BadId) × ¬ IsIdText text.now) }
{
    match <[u8; 16]>::from_hex(text) {
        Ok(id) => Ok(id),
        Err(_) => Err(InvocationFault::BadId),
    }
}

// What a value of `--id` chooses, of the command of this name.
fn read_choice(name: &str, text: &str) -> Result<([u8; 16], SetChoice), InvocationFault>
    ensures ok { IfOk result (λ chosen. Chooses name.now text.now chosen.1 chosen.0) }
    ensures err { IfErr result (λ fault. (fault ≡ InvocationFault.BadId) × ¬ IsChoice name.now text.now) }
{
    let is_make = name == "make";
    if is_make && text == "new" {
        return Ok(([0; 16], SetChoice::New));
    }
    if !is_make && text == "auto" {
        return Ok(([0; 16], SetChoice::Only));
    }
    let id = read_id(text)?;
    Ok((id, SetChoice::Given))
}

// Reads FOLDER and the value of `--id`, of the command of this name.
fn read_set<'a>(name: &str, matches: &ArgMatches<'a>) -> Result<Chosen<'a>, InvocationFault>
    requires { HasSet (rows_of (found_of matches.now)) }
    ensures ok { IfOk result (λ set.
        NamesSet name.now (rows_of (found_of matches.now)) set.folder.now set.choice set.id) }
    ensures err { IfErr result (IsFaultIn name.now (rows_of (found_of matches.now))) }
{
    let folder = matches.get_str("folder").unwrap();
    let (id, choice) = read_choice(name, matches.get_str("id").unwrap())?;
    Ok(Chosen { folder, id, choice })
}

// Reads the matches of `run`.
fn read_run<'a>(matches: &ArgMatches<'a>) -> Result<Asked<'a>, InvocationFault>
    requires { HasSet (rows_of (found_of matches.now)) }
    ensures ok { IfOk result (AsksIn (codes "run") (rows_of (found_of matches.now))) }
    ensures err { IfErr result (IsFaultIn (codes "run") (rows_of (found_of matches.now))) }
{
    let set = read_set("run", matches)?;
    let (folder, id) = (set.folder, set.id);
    Ok(set.asks(Invocation::Run { folder, id }))
}

// Reads the matches of `serve`.
fn read_serve<'a>(matches: &ArgMatches<'a>) -> Result<Asked<'a>, InvocationFault>
    requires { HasSet (rows_of (found_of matches.now)) }
    ensures ok { IfOk result (AsksIn (codes "serve") (rows_of (found_of matches.now))) }
    ensures err { IfErr result (IsFaultIn (codes "serve") (rows_of (found_of matches.now))) }
{
    let set = read_set("serve", matches)?;
    let (folder, id) = (set.folder, set.id);
    Ok(set.asks(Invocation::Serve { folder, id }))
}

// Reads the matches of `make`.
fn read_make<'a>(matches: &ArgMatches<'a>) -> Result<Asked<'a>, InvocationFault>
    requires set { HasSet (rows_of (found_of matches.now)) }
    requires values { HasMakeValues (rows_of (found_of matches.now)) }
    ensures ok { IfOk result (AsksIn (codes "make") (rows_of (found_of matches.now))) }
    ensures err { IfErr result (IsFaultIn (codes "make") (rows_of (found_of matches.now))) }
{
    let set = read_set("make", matches)?;
    match matches.get_str("size") {
        Some(size) => read_by_size(set, size, matches),
        None => read_by_stripes(set, matches),
    }
}

// The options of `make` without `--size` are those of its first line.
fn is_by_stripes(matches: &ArgMatches) -> bool
    requires values { HasMakeValues (rows_of (found_of matches.now)) }
    requires no_size { first_of (codes "size") (rows_of (found_of matches.now)) ≡ None }
    ensures is { result ≡ true → IsByStripes (rows_of (found_of matches.now)) }
    ensures is_not { result ≡ false → ¬ IsByStripes (rows_of (found_of matches.now)) }
{
    if matches.get_flag("over") || matches.get_flag("reserve") {
        return false;
    }
    matches.get_str("chunk").is_some() && matches.get_str("stripes").is_some()
}

// Reads the other matches of `make` without `--size`.
fn read_by_stripes<'a>(
    set: Chosen<'a>,
    matches: &ArgMatches<'a>,
) -> Result<Asked<'a>, InvocationFault>
    requires set { NamesSet (codes "make") (rows_of (found_of matches.now)) set.folder.now set.choice set.id }
    requires values { HasMakeValues (rows_of (found_of matches.now)) }
    requires no_size { first_of (codes "size") (rows_of (found_of matches.now)) ≡ None }
    ensures ok { IfOk result (AsksIn (codes "make") (rows_of (found_of matches.now))) }
    ensures err { IfErr result (IsFaultIn (codes "make") (rows_of (found_of matches.now))) }
{
    if !is_by_stripes(matches) {
        return Err(InvocationFault::BadShape);
    }
    Ok(set.asks(Invocation::Make {
        folder: set.folder,
        id: set.id,
        members: matches.get_one("members").unwrap(),
        chunk: matches.get_one("chunk").unwrap(),
        stripes: matches.get_one("stripes").unwrap(),
    }))
}

// Reads the other matches of `make` with `--size`.
fn read_by_size<'a>(
    set: Chosen<'a>,
    size: &str,
    matches: &ArgMatches<'a>,
) -> Result<Asked<'a>, InvocationFault>
    requires set { NamesSet (codes "make") (rows_of (found_of matches.now)) set.folder.now set.choice set.id }
    requires values { HasMakeValues (rows_of (found_of matches.now)) }
    requires size { first_of (codes "size") (rows_of (found_of matches.now)) ≡ Some size.now }
    ensures ok { IfOk result (AsksIn (codes "make") (rows_of (found_of matches.now))) }
    ensures err { IfErr result (IsFaultIn (codes "make") (rows_of (found_of matches.now))) }
{
    if matches.get_str("stripes").is_some() {
        return Err(InvocationFault::BadShape);
    }
    let size = read_room(size)?;
    let chunk: Option<u16> = matches.get_one("chunk");
    Ok(set.asks(Invocation::MakeSized {
        folder: set.folder,
        id: set.id,
        members: matches.get_one("members").unwrap(),
        chunk: chunk.unwrap_or(128),
        size,
        over: matches.get_flag("over"),
        reserve: matches.get_flag("reserve"),
    }))
}

// Reads the matches of `status`.
fn read_status<'a>(matches: &ArgMatches<'a>) -> Result<Asked<'a>, InvocationFault>
    requires set { HasSet (rows_of (found_of matches.now)) }
    requires flags { HasFlags (rows_of (found_of matches.now)) }
    ensures ok { IfOk result (AsksIn (codes "status") (rows_of (found_of matches.now))) }
    ensures err { IfErr result (IsFaultIn (codes "status") (rows_of (found_of matches.now))) }
{
    let set = read_set("status", matches)?;
    let (folder, id) = (set.folder, set.id);
    let json = matches.get_flag("json");
    let check = matches.get_flag("check");
    Ok(set.asks(Invocation::Status {
        folder,
        id,
        json,
        check,
    }))
}

// Reads the matches of `fail`.
fn read_fail<'a>(matches: &ArgMatches<'a>) -> Result<Asked<'a>, InvocationFault>
    requires set { HasSet (rows_of (found_of matches.now)) }
    requires slot { HasNumberTo (rows_of (found_of matches.now)) (codes "slot") 255 }
    ensures ok { IfOk result (AsksIn (codes "fail") (rows_of (found_of matches.now))) }
    ensures err { IfErr result (IsFaultIn (codes "fail") (rows_of (found_of matches.now))) }
{
    let set = read_set("fail", matches)?;
    let (folder, id) = (set.folder, set.id);
    let slot = matches.get_one("slot").unwrap();
    Ok(set.asks(Invocation::Fail { folder, id, slot }))
}

// Reads the matches of `replace`.
fn read_replace<'a>(matches: &ArgMatches<'a>) -> Result<Asked<'a>, InvocationFault>
    requires set { HasSet (rows_of (found_of matches.now)) }
    requires slot { HasNumberTo (rows_of (found_of matches.now)) (codes "slot") 255 }
    ensures ok { IfOk result (AsksIn (codes "replace") (rows_of (found_of matches.now))) }
    ensures err { IfErr result (IsFaultIn (codes "replace") (rows_of (found_of matches.now))) }
{
    let set = read_set("replace", matches)?;
    let (folder, id) = (set.folder, set.id);
    let slot = matches.get_one("slot").unwrap();
    Ok(set.asks(Invocation::Replace { folder, id, slot }))
}

// Reads the matches of `rebuild`.
fn read_rebuild<'a>(matches: &ArgMatches<'a>) -> Result<Asked<'a>, InvocationFault>
    requires set { HasSet (rows_of (found_of matches.now)) }
    requires steps { HasCountOrNone (rows_of (found_of matches.now)) (codes "steps") }
    ensures ok { IfOk result (AsksIn (codes "rebuild") (rows_of (found_of matches.now))) }
    ensures err { IfErr result (IsFaultIn (codes "rebuild") (rows_of (found_of matches.now))) }
{
    let set = read_set("rebuild", matches)?;
    let (folder, id) = (set.folder, set.id);
    let steps = matches.get_one("steps");
    Ok(set.asks(Invocation::Rebuild { folder, id, steps }))
}

// Reads the matches of `scrub`.
fn read_scrub<'a>(matches: &ArgMatches<'a>) -> Result<Asked<'a>, InvocationFault>
    requires { HasSet (rows_of (found_of matches.now)) }
    ensures ok { IfOk result (AsksIn (codes "scrub") (rows_of (found_of matches.now))) }
    ensures err { IfErr result (IsFaultIn (codes "scrub") (rows_of (found_of matches.now))) }
{
    let set = read_set("scrub", matches)?;
    let (folder, id) = (set.folder, set.id);
    Ok(set.asks(Invocation::Scrub { folder, id }))
}

// Reads the matches of `upgrade`.
fn read_upgrade<'a>(matches: &ArgMatches<'a>) -> Result<Asked<'a>, InvocationFault>
    requires { HasSet (rows_of (found_of matches.now)) }
    ensures ok { IfOk result (AsksIn (codes "upgrade") (rows_of (found_of matches.now))) }
    ensures err { IfErr result (IsFaultIn (codes "upgrade") (rows_of (found_of matches.now))) }
{
    let set = read_set("upgrade", matches)?;
    let (folder, id) = (set.folder, set.id);
    Ok(set.asks(Invocation::Upgrade { folder, id }))
}

// Reads the value of `--id` of `examine`, if it is given.
fn read_some_id(matches: &ArgMatches) -> Result<(Option<[u8; 16]>, SetChoice), InvocationFault>
    ensures ok { IfOk result (λ chosen.
        ChoosesOrNone (codes "examine") (rows_of (found_of matches.now)) chosen.1 chosen.0) }
    ensures err { IfErr result (IsFaultIn (codes "examine") (rows_of (found_of matches.now))) }
{
    match matches.get_str("id") {
        Some(text) => {
            let (id, choice) = read_choice("examine", text)?;
            Ok((Some(id), choice))
        }
        None => Ok((None, SetChoice::Given)),
    }
}

// Reads the matches of `examine`.
fn read_examine<'a>(matches: &ArgMatches<'a>) -> Result<Asked<'a>, InvocationFault>
    requires folder { HasFolder (rows_of (found_of matches.now)) }
    requires flags { HasFlags (rows_of (found_of matches.now)) }
    ensures ok { IfOk result (AsksIn (codes "examine") (rows_of (found_of matches.now))) }
    ensures err { IfErr result (IsFaultIn (codes "examine") (rows_of (found_of matches.now))) }
{
    let folder = matches.get_str("folder").unwrap();
    let (id, choice) = read_some_id(matches)?;
    let json = matches.get_flag("json");
    let check = matches.get_flag("check");
    let line = Invocation::Examine {
        folder,
        id,
        json,
        check,
    };
    Ok(Asked { line, choice })
}

// Reads the matches of `create`.
fn read_create<'a>(matches: &ArgMatches<'a>) -> Result<Asked<'a>, InvocationFault>
    requires set { HasSet (rows_of (found_of matches.now)) }
    requires name { HasWord (rows_of (found_of matches.now)) (codes "name") }
    requires size { HasWord (rows_of (found_of matches.now)) (codes "size") }
    ensures ok { IfOk result (AsksIn (codes "create") (rows_of (found_of matches.now))) }
    ensures err { IfErr result (IsFaultIn (codes "create") (rows_of (found_of matches.now))) }
{
    let set = read_set("create", matches)?;
    let name = matches.get_str("name").unwrap();
    let blocks = read_extent(matches.get_str("size").unwrap())?;
    Ok(set.changes(Change::Create { name, blocks }))
}

// Reads the matches of `extend`.
fn read_extend<'a>(matches: &ArgMatches<'a>) -> Result<Asked<'a>, InvocationFault>
    requires set { HasSet (rows_of (found_of matches.now)) }
    requires name { HasWord (rows_of (found_of matches.now)) (codes "name") }
    requires size { HasWord (rows_of (found_of matches.now)) (codes "size") }
    ensures ok { IfOk result (AsksIn (codes "extend") (rows_of (found_of matches.now))) }
    ensures err { IfErr result (IsFaultIn (codes "extend") (rows_of (found_of matches.now))) }
{
    let set = read_set("extend", matches)?;
    let name = matches.get_str("name").unwrap();
    let blocks = read_extent(matches.get_str("size").unwrap())?;
    Ok(set.changes(Change::Extend { name, blocks }))
}

// Reads the matches of `remove`.
fn read_remove<'a>(matches: &ArgMatches<'a>) -> Result<Asked<'a>, InvocationFault>
    requires set { HasSet (rows_of (found_of matches.now)) }
    requires name { HasWord (rows_of (found_of matches.now)) (codes "name") }
    ensures ok { IfOk result (AsksIn (codes "remove") (rows_of (found_of matches.now))) }
    ensures err { IfErr result (IsFaultIn (codes "remove") (rows_of (found_of matches.now))) }
{
    let set = read_set("remove", matches)?;
    let name = matches.get_str("name").unwrap();
    Ok(set.changes(Change::Remove { name }))
}

// Reads the matches of `rename`.
fn read_rename<'a>(matches: &ArgMatches<'a>) -> Result<Asked<'a>, InvocationFault>
    requires set { HasSet (rows_of (found_of matches.now)) }
    requires name { HasWord (rows_of (found_of matches.now)) (codes "name") }
    requires new { HasWord (rows_of (found_of matches.now)) (codes "new") }
    ensures ok { IfOk result (AsksIn (codes "rename") (rows_of (found_of matches.now))) }
    ensures err { IfErr result (IsFaultIn (codes "rename") (rows_of (found_of matches.now))) }
{
    let set = read_set("rename", matches)?;
    let name = matches.get_str("name").unwrap();
    let to = matches.get_str("new").unwrap();
    Ok(set.changes(Change::Rename { name, to }))
}

// Reads the matches of `list`.
fn read_list<'a>(matches: &ArgMatches<'a>) -> Result<Asked<'a>, InvocationFault>
    requires { HasSet (rows_of (found_of matches.now)) }
    ensures ok { IfOk result (AsksIn (codes "list") (rows_of (found_of matches.now))) }
    ensures err { IfErr result (IsFaultIn (codes "list") (rows_of (found_of matches.now))) }
{
    let set = read_set("list", matches)?;
    Ok(set.changes(Change::List))
}
