//! The words of a call of the program: what they ask for, or what is wrong with them.
#![tactic(auto)]

ghost use Rattle.std.specs.Prelude.{◌≡◌, IfErr, IfOk};
ghost use Rattle.clap.specs.Walk.{texts};
ghost use Rattle.command_line.specs.Invocations.{AsksFor, IsFaultOf, with_id};
ghost use Rattle.command_line.specs.Requests.{AnswersBy, IsAskedBy, IsPlain, Request, words_of};

mod commands;
mod reading;
mod sizes;

use crate::commands::raidtool_command;
use crate::reading::read_invocation;
use std::alloc::Global;

/// Which set a line is of.
#[derive(Clone, Copy, Debug, PartialEq, Eq)]
pub enum SetChoice {
    /// The one whose id the words give.
    Given,
    /// A new one, whose id is to be drawn (`make --id new`).
    New,
    /// The only one that the folder has (`--id auto`, of every command but `make`).
    Only,
}

/// What words ask for.
///
/// Where the choice is not `Given`, the id of the line is 16 zero bytes, and that of the set has
/// to be put in their place (`Invocation::with_id`).
#[derive(Clone, Copy)]
pub struct Asked<'a> {
    /// What is to be done.
    pub line: Invocation<'a>,
    /// With which set.
    pub choice: SetChoice,
}

/// How much room the volumes of a set are to have.
#[derive(Clone, Copy, Debug, PartialEq, Eq)]
pub enum Size {
    /// So many blocks of 512 bytes, 1 or more.
    Blocks(u64),
    /// As much as the shortest member allows.
    Most,
}

/// What is to be done with the volumes of a set.
///
/// A name is any text, also one that no volume can have, and `blocks` any number of blocks of 512
/// bytes.
#[derive(Clone, Copy)]
pub enum Change<'a> {
    /// Create a volume of so many blocks.
    Create { name: &'a str, blocks: u32 },
    /// Make a volume so many blocks longer.
    Extend { name: &'a str, blocks: u32 },
    /// Remove a volume.
    Remove { name: &'a str },
    /// Give a volume the name `to`.
    Rename { name: &'a str, to: &'a str },
    /// List the volumes.
    List,
}

/// What the program is asked to do, over the device files of the folder `folder`.
///
/// An `id` is the 16 bytes of the id of a set. The numbers are any of their types, also those that
/// are out of a set's limits.
#[derive(Clone, Copy)]
pub enum Invocation<'a> {
    /// Serve the script on standard input as the set of this id.
    Run {
        folder: &'a str,
        id: [u8; 16],
    },
    /// Serve the requests on standard input, whose blocks are bytes, as the set of this id.
    Serve {
        folder: &'a str,
        id: [u8; 16],
    },
    /// Make a set of this id. The three numbers are the geometry that is asked for.
    Make {
        folder: &'a str,
        id: [u8; 16],
        members: u8,
        chunk: u16,
        stripes: u32,
    },
    /// Tell what the set of this id says of itself: as JSON, or as lines of text. With `check`, the
    /// exit status tells whether it is complete.
    Status {
        folder: &'a str,
        id: [u8; 16],
        json: bool,
        check: bool,
    },
    /// Give a slot of the set of this id up.
    Fail {
        folder: &'a str,
        id: [u8; 16],
        slot: u8,
    },
    /// Take the device file of a missing slot of the set of this id as its device.
    Replace {
        folder: &'a str,
        id: [u8; 16],
        slot: u8,
    },
    /// Rebuild the set of this id: `steps` steps, which is 1 or more, or until it is
    /// complete where there is no number.
    Rebuild {
        folder: &'a str,
        id: [u8; 16],
        steps: Option<u64>,
    },
    /// Count the rows of the set of this id, and those whose parity does not match.
    Scrub {
        folder: &'a str,
        id: [u8; 16],
    },
    /// Make the table of volumes of the set of this id one of version 2.
    Upgrade {
        folder: &'a str,
        id: [u8; 16],
    },
    /// Tell, by reads alone, what the device files say of the set of this id, or of each set that
    /// they have where there is no id: as JSON, or as lines of text. With `check`, the exit status
    /// tells whether each would be assembled, and is complete.
    Examine {
        folder: &'a str,
        id: Option<[u8; 16]>,
        json: bool,
        check: bool,
    },
    /// Make a set of this id whose volumes have this much room, with chunks of so many sectors.
    /// With `over`, also where the files have a set, which is lost. With `reserve`, with zeros
    /// written where a file is lengthened, so that its room is there.
    MakeSized {
        folder: &'a str,
        id: [u8; 16],
        members: u8,
        chunk: u16,
        size: Size,
        over: bool,
        reserve: bool,
    },
    /// Change or list the volumes of the set of this id.
    Change {
        folder: &'a str,
        id: [u8; 16],
        change: Change<'a>,
    },
}

impl<'a> Invocation<'a> {
    /// The same line, of the set of this id.
    pub fn with_id(self, id: [u8; 16]) -> Invocation<'a>
        ensures { result ≡ with_id self.entry id }
    {
        let mut line = self;
        match &mut line {
            Invocation::Run { id: place, .. } => *place = id,
            Invocation::Serve { id: place, .. } => *place = id,
            Invocation::Make { id: place, .. } => *place = id,
            Invocation::MakeSized { id: place, .. } => *place = id,
            Invocation::Status { id: place, .. } => *place = id,
            Invocation::Fail { id: place, .. } => *place = id,
            Invocation::Replace { id: place, .. } => *place = id,
            Invocation::Rebuild { id: place, .. } => *place = id,
            Invocation::Scrub { id: place, .. } => *place = id,
            Invocation::Upgrade { id: place, .. } => *place = id,
            Invocation::Change { id: place, .. } => *place = id,
            Invocation::Examine { id: place, .. } => *place = Some(id),
        }
        line
    }
}

/// Why words ask for nothing.
#[derive(Drop)]
pub enum InvocationFault {
    /// What clap says: a fault in the words, a request for help or for the version, or that memory
    /// ran out. Its `Display` is the text for the user, and its kind tells a request from a fault.
    Usage(clap::Error),
    /// The value of `--id` is not 32 hexadecimal digits, and not the word that may stand in their
    /// place: `new` for `make`, `auto` for every other command.
    BadId,
    /// The options of `make` are those of neither of its lines: there is neither `--size` nor both
    /// `--chunk` and `--stripes`, or `--size` together with `--stripes`, or `--over` or `--reserve`
    /// without `--size`.
    BadShape,
    /// The value of `--size`, or SIZE, is no size, or is too large.
    BadSize,
}

impl From<clap::Error> for InvocationFault {
    ghost use Rattle.std.specs.Prelude.{◌≡◌};
    ghost use Rattle.command_line.specs.declared.InvocationFault.TheVariants.{Usage};

    ghost from_gives = { λ error fault. fault ≡ Usage error };

    fn from(error: clap::Error) -> InvocationFault {
        InvocationFault::Usage(error)
    }
}

/// Reads the words after the program's name, which is not one of them.
///
/// The words are those of one of these lines, each of which asks for the `Invocation` of its name:
///
/// - `run FOLDER --id H`
/// - `serve FOLDER --id H`
/// - `make FOLDER --id H --members N --chunk C --stripes S`
/// - `make FOLDER --id H --members N --size ROOM`, after which `--chunk C`, `--over` and
///   `--reserve` may stand, for `MakeSized`, whose chunk is 128 where it is left out
/// - `status FOLDER --id H`, after which `--json` and `--check` may stand
/// - `fail FOLDER --id H --slot K`
/// - `replace FOLDER --id H --slot K`
/// - `rebuild FOLDER --id H`, after which `--steps T` may stand
/// - `scrub FOLDER --id H`
/// - `upgrade FOLDER --id H`
/// - `examine FOLDER`, after which `--id H`, `--json` and `--check` may stand
/// - `create FOLDER NAME SIZE --id H`, `extend FOLDER NAME SIZE --id H`,
///   `remove FOLDER NAME --id H`, `rename FOLDER NAME NEW --id H` and `list FOLDER --id H`, for
///   `Change`
///
/// Options stand in any order, also before FOLDER, and may be written `--id=H`. H is 32 hexadecimal
/// digits of either case, of which the first two are the first byte; in their place may stand `new`
/// for `make`, and `auto` for every other command, and the choice says so. N, C, S and K are
/// decimal numbers of at most 255, 65,535, 4,294,967,295 and 255, and T is one from 1 to
/// 18,446,744,073,709,551,615; a `+` may stand before each.
///
/// SIZE is a decimal number without a sign or a leading zero: of blocks of 512 bytes, or, with `K`,
/// `M`, `G` or `T` after it, of so many powers of 1,024 bytes; it is at most 4,294,967,295 blocks.
/// ROOM is `max`, or such a number of 1 or more with `M`, `G` or `T` after it, which is at most
/// 18,446,744,073,709,551,615 blocks.
///
/// The answer is `BadId`, `BadShape` or `BadSize`, the first of these that applies, where clap
/// takes the words. It is `Usage` where clap does not take them: no words, an unknown subcommand or
/// option, a missing, repeated or further value, a text that is no number, or is too large or too
/// small, or a request: for help by `--help` or `-h`, also after a subcommand, or for the version
/// by `--version` or `-V` in place of one. Where clap takes the words, `Usage` says only that
/// memory ran out. It takes the lines above in the order given, with any FOLDER, NAME and NEW that
/// do not begin with a hyphen.
pub fn parse_invocation<'a>(
    alloc: Global,
    words: &'a [&'a str],
) -> Result<Asked<'a>, InvocationFault>
    ensures ok { IfOk result (AsksFor (texts words.now)) }
    ensures err { IfErr result (IsFaultOf (texts words.now)) }
    ensures plain { (request : Request) → texts words.now ≡ words_of request → IsPlain request
        → AnswersBy (IsAskedBy request) result }
{
    let matches = raidtool_command(alloc)?.try_get_matches_from(words)?;
    read_invocation(&matches)
}
