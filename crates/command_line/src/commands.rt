//! The program's commands, as clap is told of them.
ghost use Rattle.std.specs.Prelude.{◌≡◌, IfErr, IfOk, false};
ghost use Rattle.clap.specs.Simple.{App};
ghost use Rattle.clap.specs.Values.{kind_of};
ghost use Rattle.clap.specs.Words.{app_of, rule_of, with_subcommand};
ghost use Rattle.clap.specs.declared.builder.command.Command.TheViews.{out-Command};
ghost use Rattle.command_line.specs.Commands.{HasApp, bare_app, blocks_rule, check_rule, chunk_rule, create_app};
ghost use Rattle.command_line.specs.Commands.{examine_app, extend_app, fail_app, flag_rule, folder_rule, id_rule};
ghost use Rattle.command_line.specs.Commands.{json_rule, list_app, make_app, members_rule, name_rule, new_name_rule};
ghost use Rattle.command_line.specs.Commands.{number_rule, over_rule, raidtool_app, rebuild_app, remove_app};
ghost use Rattle.command_line.specs.Commands.{rename_app, replace_app, reserve_rule, run_app, scrub_app, serve_app};
ghost use Rattle.command_line.specs.Commands.{set_app, size_rule, slot_rule, some_id_rule, some_number_rule};
ghost use Rattle.command_line.specs.Commands.{status_app, steps_rule, stripes_rule, upgrade_app, volume_app};
ghost use Rattle.command_line.specs.Commands.{word_rule};

use clap::builder::ValueParser;
use clap::error::ErrorKind;
use clap::{Arg, ArgAction, Command, value_parser};
use std::alloc::{AllocError, Global};

// The version of the program.
const VERSION: &str = "0.5.0";

/// The program's command, with each of its subcommands.
pub(crate) fn raidtool_command<'a>(alloc: Global) -> Result<Command<'a>, clap::Error>
    ensures ok { IfOk result (λ command. app_of command ≡ raidtool_app) }
    ensures err { IfErr result (λ error. kind_of error ≡ ErrorKind.OutOfMemory) }
{
    let with_run = added(bare_command(alloc), run_command(alloc));
    let with_serve = added(with_run, serve_command(alloc));
    let with_make = added(with_serve, make_command(alloc));
    let with_status = added(with_make, status_command(alloc));
    let with_fail = added(with_status, fail_command(alloc));
    let with_replace = added(with_fail, replace_command(alloc));
    let with_rebuild = added(with_replace, rebuild_command(alloc));
    let with_scrub = added(with_rebuild, scrub_command(alloc));
    let with_upgrade = added(with_scrub, upgrade_command(alloc));
    let with_examine = added(with_upgrade, examine_command(alloc));
    let with_create = added(with_examine, create_command(alloc));
    let with_extend = added(with_create, extend_command(alloc));
    let with_remove = added(with_extend, remove_command(alloc));
    let with_rename = added(with_remove, rename_command(alloc));
    added(with_rename, list_command(alloc))
}

// A command with one more subcommand, where there was memory for both.
fn added<'a>(
    command: Result<Command<'a>, clap::Error>,
    sub: Result<Command<'a>, AllocError>,
) -> Result<Command<'a>, clap::Error>
    ensures ok { (app below : App) → IfOk command.entry (λ command. app_of command ≡ app)
        → HasApp below sub.entry → IfOk result (λ sum. app_of sum ≡ with_subcommand app below.top) }
    ensures err { IfErr command.entry (λ error. kind_of error ≡ ErrorKind.OutOfMemory)
        → IfErr result (λ error. kind_of error ≡ ErrorKind.OutOfMemory) }
{
    let command = command?;
    let sub = sub?;
    let sum = command.subcommand(sub)?;
    Ok(sum)
}

// The program's command, before its subcommands.
fn bare_command<'a>(alloc: Global) -> Result<Command<'a>, clap::Error>
    ensures ok { IfOk result (λ command. app_of command ≡ bare_app) }
    ensures err { IfErr result (λ error. kind_of error ≡ ErrorKind.OutOfMemory) }
{
    let command = Command::new(alloc, "raidtool")
        .bin_name("raidtool")?
        .version(VERSION)
        .about("A RAID 5 set with a stripe journal and linear logical volumes, over device files")
        .no_binary_name(true)
        .subcommand_required(true)
        .disable_help_subcommand(true);
    Ok(command)
}

// The argument FOLDER.
fn folder_argument<'a>(alloc: Global) -> Arg<'a>
    ensures rule { rule_of result ≡ folder_rule }
    ensures local { result.global ≡ false }
{
    word(
        alloc,
        "folder",
        "FOLDER",
        "The folder of dev0.img, dev1.img and so on",
    )
}

// The option `--id H`.
fn id_option<'a>(alloc: Global, help: &'a str) -> Arg<'a>
    ensures rule { rule_of result ≡ id_rule }
    ensures local { result.global ≡ false }
{
    Arg::new(alloc, "id")
        .long("id")
        .value_name("H")
        .help(help)
        .required(true)
}

// An option of this name, whose value passes this parser.
fn number_option<'a>(
    alloc: Global,
    name: &'a str,
    value: &'a str,
    help: &'a str,
    parser: ValueParser<'a>,
) -> Arg<'a>
    ensures rule { rule_of result ≡ number_rule name.entry.now parser.entry }
    ensures local { result.global ≡ false }
{
    some_number_option(alloc, name, value, help, parser).required(true)
}

// The same where the option may be left out.
fn some_number_option<'a>(
    alloc: Global,
    name: &'a str,
    value: &'a str,
    help: &'a str,
    parser: ValueParser<'a>,
) -> Arg<'a>
    ensures rule { rule_of result ≡ some_number_rule name.entry.now parser.entry }
    ensures local { result.global ≡ false }
{
    Arg::new(alloc, name)
        .long(name)
        .value_name(value)
        .help(help)
        .value_parser(parser)
}

// A flag of this name.
fn flag<'a>(alloc: Global, name: &'a str, help: &'a str) -> Arg<'a>
    ensures rule { rule_of result ≡ flag_rule name.entry.now }
    ensures local { result.global ≡ false }
{
    Arg::new(alloc, name)
        .long(name)
        .help(help)
        .action(ArgAction::SetTrue)
}

// An argument of this name that is no option's value.
fn word<'a>(alloc: Global, name: &'a str, value: &'a str, help: &'a str) -> Arg<'a>
    ensures rule { rule_of result ≡ word_rule name.entry.now }
    ensures local { result.global ≡ false }
{
    Arg::new(alloc, name)
        .value_name(value)
        .help(help)
        .required(true)
}

// A command of this name with FOLDER and `--id H`, on a set that is there.
fn set_command<'a>(alloc: Global, name: &'a str, about: &'a str) -> Result<Command<'a>, AllocError>
    ensures { IfOk result (λ command. (app_of command ≡ set_app name.entry.now)
        × ((out-Command command).has_globals ≡ false)) }
{
    Command::new(alloc, name)
        .about(about)
        .arg(folder_argument(alloc))?
        .arg(id_option(
            alloc,
            "The id of the set, 32 hexadecimal digits, or auto for the only one there",
        ))
}

// The command `run FOLDER --id H`.
fn run_command<'a>(alloc: Global) -> Result<Command<'a>, AllocError>
    ensures { HasApp run_app result }
{
    set_command(
        alloc,
        "run",
        "Serves the script on standard input over the device files of a folder",
    )
}

// The command `serve FOLDER --id H`.
fn serve_command<'a>(alloc: Global) -> Result<Command<'a>, AllocError>
    ensures { HasApp serve_app result }
{
    set_command(
        alloc,
        "serve",
        "Serves requests on standard input over the device files of a folder: \
their blocks are bytes",
    )
}

// The command `make FOLDER --id H --members N [--chunk C] [--stripes S] [--size SIZE] [--over]
// [--reserve]`.
fn make_command<'a>(alloc: Global) -> Result<Command<'a>, AllocError>
    ensures { HasApp make_app result }
{
    Command::new(alloc, "make")
        .about(
            "Makes a set on the device files of a folder, whatever they held \
(with --size no set, unless --over is given)",
        )
        .arg(folder_argument(alloc))?
        .arg(id_option(
            alloc,
            "The id of the set, 32 hexadecimal digits, or new for one that is drawn",
        ))?
        .arg(members_option(alloc))?
        .arg(chunk_option(alloc))?
        .arg(stripes_option(alloc))?
        .arg(size_option(alloc))?
        .arg(over_flag(alloc))?
        .arg(reserve_flag(alloc))
}

// The option `--members N`.
fn members_option<'a>(alloc: Global) -> Arg<'a>
    ensures rule { rule_of result ≡ members_rule }
    ensures local { result.global ≡ false }
{
    number_option(
        alloc,
        "members",
        "N",
        "The members, 3 to 8",
        value_parser!(u8),
    )
}

// The option `--chunk C`.
fn chunk_option<'a>(alloc: Global) -> Arg<'a>
    ensures rule { rule_of result ≡ chunk_rule }
    ensures local { result.global ≡ false }
{
    some_number_option(
        alloc,
        "chunk",
        "C",
        "The sectors of a chunk: 8 to 1024, a power of 2 (up to 128 without --size); \
128 where it is left out",
        value_parser!(u16),
    )
}

// The option `--stripes S`.
fn stripes_option<'a>(alloc: Global) -> Arg<'a>
    ensures rule { rule_of result ≡ stripes_rule }
    ensures local { result.global ≡ false }
{
    some_number_option(
        alloc,
        "stripes",
        "S",
        "The stripes, 2 to 65536",
        value_parser!(u32),
    )
}

// The option `--size SIZE`.
fn size_option<'a>(alloc: Global) -> Arg<'a>
    ensures rule { rule_of result ≡ size_rule }
    ensures local { result.global ≡ false }
{
    Arg::new(alloc, "size").long("size").value_name("SIZE").help(
        "The room for volumes: a number with M, G or T, or max for all that \
the shortest member allows",
    )
}

// The flag `--over`.
fn over_flag<'a>(alloc: Global) -> Arg<'a>
    ensures rule { rule_of result ≡ over_rule }
    ensures local { result.global ≡ false }
{
    flag(
        alloc,
        "over",
        "Make it also where the files have a set, which is lost",
    )
}

// The flag `--reserve`.
fn reserve_flag<'a>(alloc: Global) -> Arg<'a>
    ensures rule { rule_of result ≡ reserve_rule }
    ensures local { result.global ≡ false }
{
    flag(
        alloc,
        "reserve",
        "Write zeros where a file is lengthened, so that its room is there",
    )
}

// The command `status FOLDER --id H [--json] [--check]`.
fn status_command<'a>(alloc: Global) -> Result<Command<'a>, AllocError>
    ensures { HasApp status_app result }
{
    set_command(
        alloc,
        "status",
        "Tells what the set on the device files of a folder says of itself",
    )?
    .arg(json_flag(alloc))?
    .arg(check_flag(alloc))
}

// The flag `--json`.
fn json_flag<'a>(alloc: Global) -> Arg<'a>
    ensures rule { rule_of result ≡ json_rule }
    ensures local { result.global ≡ false }
{
    flag(alloc, "json", "As JSON in one line")
}

// The flag `--check`.
fn check_flag<'a>(alloc: Global) -> Arg<'a>
    ensures rule { rule_of result ≡ check_rule }
    ensures local { result.global ≡ false }
{
    flag(
        alloc,
        "check",
        "End with 3 where a set is not complete, and with 4 where it can't be assembled",
    )
}

// The command `fail FOLDER --id H --slot K`.
fn fail_command<'a>(alloc: Global) -> Result<Command<'a>, AllocError>
    ensures { HasApp fail_app result }
{
    set_command(
        alloc,
        "fail",
        "Gives a slot of the set on the device files of a folder up",
    )?
    .arg(slot_option(alloc))
}

// The option `--slot K`.
fn slot_option<'a>(alloc: Global) -> Arg<'a>
    ensures rule { rule_of result ≡ slot_rule }
    ensures local { result.global ≡ false }
{
    number_option(
        alloc,
        "slot",
        "K",
        "The slot, counted from 0",
        value_parser!(u8),
    )
}

// The command `replace FOLDER --id H --slot K`.
fn replace_command<'a>(alloc: Global) -> Result<Command<'a>, AllocError>
    ensures { HasApp replace_app result }
{
    set_command(
        alloc,
        "replace",
        "Takes the device file of a missing slot of the set of a folder, whatever it held",
    )?
    .arg(slot_option(alloc))
}

// The command `rebuild FOLDER --id H [--steps T]`.
fn rebuild_command<'a>(alloc: Global) -> Result<Command<'a>, AllocError>
    ensures { HasApp rebuild_app result }
{
    set_command(
        alloc,
        "rebuild",
        "Rebuilds the member of the set of a folder that was replaced",
    )?
    .arg(steps_option(alloc))
}

// The option `--steps T`.
fn steps_option<'a>(alloc: Global) -> Arg<'a>
    ensures rule { rule_of result ≡ steps_rule }
    ensures local { result.global ≡ false }
{
    some_number_option(
        alloc,
        "steps",
        "T",
        "The steps, 1 or more, of 64 rows or 4096 in a large set; all that there are if left out",
        ValueParser::unsigned(1, u64::MAX),
    )
}

// The command `scrub FOLDER --id H`.
fn scrub_command<'a>(alloc: Global) -> Result<Command<'a>, AllocError>
    ensures { HasApp scrub_app result }
{
    set_command(
        alloc,
        "scrub",
        "Counts the rows of the set of a folder whose parity does not match, and mends none",
    )
}

// The command `upgrade FOLDER --id H`.
fn upgrade_command<'a>(alloc: Global) -> Result<Command<'a>, AllocError>
    ensures { HasApp upgrade_app result }
{
    set_command(
        alloc,
        "upgrade",
        "Makes the table of volumes of the set of a folder one of version 2",
    )
}

// The option `--id H`, which may be left out.
fn some_id_option<'a>(alloc: Global) -> Arg<'a>
    ensures rule { rule_of result ≡ some_id_rule }
    ensures local { result.global ≡ false }
{
    Arg::new(alloc, "id").long("id").value_name("H").help(
        "The id of the set, 32 hexadecimal digits, or auto for the only one there; \
each set where it is left out",
    )
}

// The command `examine FOLDER [--id H] [--json] [--check]`.
fn examine_command<'a>(alloc: Global) -> Result<Command<'a>, AllocError>
    ensures { HasApp examine_app result }
{
    Command::new(alloc, "examine")
        .about("Inspects the sets on the device files of a folder, and changes nothing")
        .arg(folder_argument(alloc))?
        .arg(some_id_option(alloc))?
        .arg(json_flag(alloc))?
        .arg(check_flag(alloc))
}

// The argument NAME.
fn name_argument<'a>(alloc: Global) -> Arg<'a>
    ensures rule { rule_of result ≡ name_rule }
    ensures local { result.global ≡ false }
{
    word(alloc, "name", "NAME", "The name of the volume")
}

// The argument SIZE, of which `help` says what it is for.
fn blocks_argument<'a>(alloc: Global, help: &'a str) -> Arg<'a>
    ensures rule { rule_of result ≡ blocks_rule }
    ensures local { result.global ≡ false }
{
    word(alloc, "size", "SIZE", help)
}

// The argument NEW.
fn new_name_argument<'a>(alloc: Global) -> Arg<'a>
    ensures rule { rule_of result ≡ new_name_rule }
    ensures local { result.global ≡ false }
{
    word(alloc, "new", "NEW", "The new name of the volume")
}

// A command of this name with FOLDER, NAME and `--id H`.
fn volume_command<'a>(
    alloc: Global,
    name: &'a str,
    about: &'a str,
) -> Result<Command<'a>, AllocError>
    ensures { IfOk result (λ command. (app_of command ≡ volume_app name.entry.now)
        × ((out-Command command).has_globals ≡ false)) }
{
    set_command(alloc, name, about)?.arg(name_argument(alloc))
}

// The command `create FOLDER NAME SIZE --id H`.
fn create_command<'a>(alloc: Global) -> Result<Command<'a>, AllocError>
    ensures { HasApp create_app result }
{
    volume_command(alloc, "create", "Creates a volume in the set of a folder")?.arg(
        blocks_argument(
            alloc,
            "The size of the volume: blocks of 512 bytes, or a number with K, M, G or T; \
2 TiB less a block at most",
        ),
    )
}

// The command `extend FOLDER NAME SIZE --id H`.
fn extend_command<'a>(alloc: Global) -> Result<Command<'a>, AllocError>
    ensures { HasApp extend_app result }
{
    volume_command(
        alloc,
        "extend",
        "Makes a volume of the set of a folder longer",
    )?
    .arg(blocks_argument(
        alloc,
        "What is added to the volume: blocks of 512 bytes, or a number with K, M, G or T; \
the volume has 2 TiB less a block at most",
    ))
}

// The command `remove FOLDER NAME --id H`.
fn remove_command<'a>(alloc: Global) -> Result<Command<'a>, AllocError>
    ensures { HasApp remove_app result }
{
    volume_command(alloc, "remove", "Removes a volume of the set of a folder")
}

// The command `rename FOLDER NAME NEW --id H`.
fn rename_command<'a>(alloc: Global) -> Result<Command<'a>, AllocError>
    ensures { HasApp rename_app result }
{
    volume_command(
        alloc,
        "rename",
        "Gives a volume of the set of a folder a new name",
    )?
    .arg(new_name_argument(alloc))
}

// The command `list FOLDER --id H`.
fn list_command<'a>(alloc: Global) -> Result<Command<'a>, AllocError>
    ensures { HasApp list_app result }
{
    set_command(alloc, "list", "Lists the volumes of the set of a folder")
}
