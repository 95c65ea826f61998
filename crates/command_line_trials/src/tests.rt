use command_line::{Asked, Change, Invocation, InvocationFault, SetChoice, Size, parse_invocation};
use std::alloc::{AllocError, Global};
use std::process::Abort;

const ID: [u8; 16] = [0, 1, 2, 3, 4, 5, 6, 7, 8, 9, 10, 11, 12, 13, 14, 15];

const ID_TEXT: &str = "000102030405060708090a0b0c0d0e0f";

// The words of a line, which stand between `|`; for `H` the id is put in.
fn words_in<'a>(rt: &(impl Abort + AllocGlobal), line: &'a str) -> Vec<&'a str> {
    let mut words = Vec::new(rt.alloc());
    for word in line.split_terminator('|') {
        let word = if word == "H" { ID_TEXT } else { word };
        words.push(word).expect(rt, "memory");
    }
    words
}

// The id as `H`, 16 zero bytes as `0`, and any other as `?`.
fn id_text(id: [u8; 16]) -> &'static str {
    if id == ID {
        "H"
    } else if id == [0; 16] {
        "0"
    } else {
        "?"
    }
}

// How the set is chosen, unless by its id.
fn choice_text(choice: SetChoice) -> &'static str {
    match choice {
        SetChoice::Given => "",
        SetChoice::New => "new ",
        SetChoice::Only => "only ",
    }
}

// What is asked for, and the choice before it.
fn asked(alloc: Global, asked: Asked<'_>) -> Result<String, AllocError> {
    let line = line_text(alloc, asked.line)?;
    format!(in alloc; "{}{line}", choice_text(asked.choice))
}

// The room for volumes, in blocks, or `most`.
fn size_text(alloc: Global, size: Size) -> Result<String, AllocError> {
    match size {
        Size::Blocks(blocks) => format!(in alloc; "{blocks}"),
        Size::Most => format!(in alloc; "most"),
    }
}

// A change, with its values.
fn change_text(alloc: Global, change: Change<'_>) -> Result<String, AllocError> {
    match change {
        Change::Create { name, blocks } => format!(in alloc; "create {name} {blocks}"),
        Change::Extend { name, blocks } => format!(in alloc; "extend {name} {blocks}"),
        Change::Remove { name } => format!(in alloc; "remove {name}"),
        Change::Rename { name, to } => format!(in alloc; "rename {name} {to}"),
        Change::List => format!(in alloc; "list"),
    }
}

// The line, and the values in the order that `Invocation` has them in.
fn line_text(alloc: Global, line: Invocation<'_>) -> Result<String, AllocError> {
    match line {
        Invocation::Run { folder, id } => format!(in alloc; "run {folder} {}", id_text(id)),
        Invocation::Serve { folder, id } => format!(in alloc; "serve {folder} {}", id_text(id)),
        Invocation::Make {
            folder,
            id,
            members,
            chunk,
            stripes,
        } => format!(in alloc; "make {folder} {} {members} {chunk} {stripes}", id_text(id)),
        Invocation::Status {
            folder,
            id,
            json,
            check,
        } => format!(in alloc; "status {folder} {} {json} {check}", id_text(id)),
        Invocation::Fail { folder, id, slot } => {
            format!(in alloc; "fail {folder} {} {slot}", id_text(id))
        }
        Invocation::Replace { folder, id, slot } => {
            format!(in alloc; "replace {folder} {} {slot}", id_text(id))
        }
        Invocation::Rebuild { folder, id, steps } => match steps {
            Some(steps) => format!(in alloc; "rebuild {folder} {} {steps}", id_text(id)),
            None => format!(in alloc; "rebuild {folder} {} all", id_text(id)),
        },
        Invocation::Scrub { folder, id } => format!(in alloc; "scrub {folder} {}", id_text(id)),
        Invocation::Upgrade { folder, id } => format!(in alloc; "upgrade {folder} {}", id_text(id)),
        Invocation::Examine {
            folder,
            id,
            json,
            check,
        } => match id {
            Some(id) => format!(in alloc; "examine {folder} {} {json} {check}", id_text(id)),
            None => format!(in alloc; "examine {folder} all {json} {check}"),
        },
        Invocation::MakeSized {
            folder,
            id,
            members,
            chunk,
            size,
            over,
            reserve,
        } => {
            let size = size_text(alloc, size)?;
            let id = id_text(id);
            format!(in alloc; "sized {folder} {id} {members} {chunk} {size} {over} {reserve}")
        }
        Invocation::Change { folder, id, change } => {
            let change = change_text(alloc, change)?;
            format!(in alloc; "{folder} {} {change}", id_text(id))
        }
    }
}

// Each of these lines has to be read as the text says: what is asked for, or the kind of the fault.
fn reads(rt: &(impl Abort + AllocGlobal), cases: &[(&str, &str)]) {
    for (line, want) in cases {
        let words = words_in(rt, line);
        let text = match parse_invocation(rt.alloc(), &words) {
            Ok(line) => asked(rt.alloc(), line),
            Err(InvocationFault::BadId) => format!(in rt.alloc(); "BadId"),
            Err(InvocationFault::BadShape) => format!(in rt.alloc(); "BadShape"),
            Err(InvocationFault::BadSize) => format!(in rt.alloc(); "BadSize"),
            Err(InvocationFault::Usage(error)) => format!(in rt.alloc(); "{:?}", error.kind()),
        };
        let text = text.expect(rt, "memory");
        assert!(rt; text.as_str() == *want, "{line}: {text}");
    }
}

// What clap tells of each of these lines has each of the parts, which stand between `|`.
fn tells(rt: &(impl Abort + AllocGlobal), cases: &[(&str, &str)]) {
    for (line, parts) in cases {
        let words = words_in(rt, line);
        let fault = parse_invocation(rt.alloc(), &words).err();
        let Some(InvocationFault::Usage(error)) = fault else {
            panic!(rt; "{line}");
        };
        let text = format!(in rt.alloc(); "{error}").expect(rt, "memory");
        for part in parts.split_terminator('|') {
            assert!(rt; text.contains(part), "{line}: {part}\n{text}");
        }
    }
}

static EACH_COMMAND: &[(&str, &str)] = &[
    ("run|d|--id|H", "run d H"),
    ("serve|d|--id|H", "serve d H"),
    (
        "make|d|--id|H|--members|3|--chunk|8|--stripes|32",
        "make d H 3 8 32",
    ),
    ("status|d|--id|H", "status d H false false"),
    ("status|d|--id|H|--json", "status d H true false"),
    ("status|d|--id|H|--check", "status d H false true"),
    ("fail|d|--id|H|--slot|4", "fail d H 4"),
    ("replace|d|--id|H|--slot|4", "replace d H 4"),
    ("rebuild|d|--id|H", "rebuild d H all"),
    ("rebuild|d|--id|H|--steps|3", "rebuild d H 3"),
    ("scrub|d|--id|H", "scrub d H"),
    ("upgrade|d|--id|H", "upgrade d H"),
    ("examine|d", "examine d all false false"),
    ("examine|d|--id|H|--json", "examine d H true false"),
    ("examine|d|--check", "examine d all false true"),
    (
        "make|d|--id|H|--members|5|--size|1T",
        "sized d H 5 128 2147483648 false false",
    ),
    (
        "make|d|--id|H|--members|3|--size|max|--chunk|64|--over",
        "sized d H 3 64 most true false",
    ),
    (
        "make|d|--id|H|--members|3|--size|10G|--reserve",
        "sized d H 3 128 20971520 false true",
    ),
    ("create|d|v|64|--id|H", "d H create v 64"),
    ("extend|d|v|64|--id|H", "d H extend v 64"),
    ("remove|d|v|--id|H", "d H remove v"),
    ("rename|d|v|w|--id|H", "d H rename v w"),
    ("list|d|--id|H", "d H list"),
];

#[test]
fn reads_each_command(rt: HostRuntime) {
    reads(&rt, EACH_COMMAND);
}

static ANY_ORDER: &[(&str, &str)] = &[
    ("run|--id|H|d/e", "run d/e H"),
    ("run|run|--id|H", "run run H"),
    ("run|--id=000102030405060708090A0B0C0D0E0F|d", "run d H"),
    (
        "serve|--id=000102030405060708090a0b0c0d0e0f|serve",
        "serve serve H",
    ),
    ("serve|--id|H|--|--json", "serve --json H"),
    ("scrub|--id|H|--|--id", "scrub --id H"),
    (
        "make|--stripes=32|--chunk=8|--members=3|d|--id|H",
        "make d H 3 8 32",
    ),
    ("status|--json|--id|H|--check|d", "status d H true true"),
    ("fail|--slot|4|d|--id|H", "fail d H 4"),
    ("rebuild|--steps=3|--id|H|d", "rebuild d H 3"),
    ("examine|--check|--|--json", "examine --json all false true"),
];

// Options before FOLDER and after it, with `=` or without, and a FOLDER that begins with a hyphen.
#[test]
fn reads_options_in_any_order(rt: HostRuntime) {
    reads(&rt, ANY_ORDER);
}

static CHOICES: &[(&str, &str)] = &[
    ("run|d|--id|auto", "only run d 0"),
    ("serve|d|--id|auto", "only serve d 0"),
    ("examine|d|--id=auto", "only examine d 0 false false"),
    ("list|--id|auto|d", "only d 0 list"),
    (
        "make|d|--id|new|--members|3|--chunk|8|--stripes|32",
        "new make d 0 3 8 32",
    ),
    (
        "make|d|--id|new|--members|3|--size|1M",
        "new sized d 0 3 128 2048 false false",
    ),
    (
        "make|d|--id|auto|--members|3|--chunk|8|--stripes|32",
        "BadId",
    ),
    ("make|d|--id|auto|--members|3", "BadId"),
    ("serve|d|--id|new", "BadId"),
    ("status|d|--id|new", "BadId"),
    ("create|d|v|x|--id|new", "BadId"),
    ("run|d|--id|AUTO", "BadId"),
];

// A new set is for `make` alone, and the only one for all others.
#[test]
fn reads_the_choice_of_a_set(rt: HostRuntime) {
    reads(&rt, CHOICES);
}

static SHAPES: &[(&str, &str)] = &[
    ("make|d|--id|H|--members|3", "BadShape"),
    ("make|d|--id|H|--members|3|--chunk|8", "BadShape"),
    ("make|d|--id|H|--members|3|--stripes|32", "BadShape"),
    (
        "make|d|--id|H|--members|3|--size|1M|--stripes|32",
        "BadShape",
    ),
    (
        "make|d|--id|H|--members|3|--size|x|--stripes|32",
        "BadShape",
    ),
    (
        "make|d|--id|H|--members|3|--chunk|8|--stripes|32|--over",
        "BadShape",
    ),
    (
        "make|d|--id|H|--members|3|--chunk|8|--stripes|32|--reserve",
        "BadShape",
    ),
];

#[test]
fn refuses_other_forms_of_make(rt: HostRuntime) {
    reads(&rt, SHAPES);
}

// Each size has to be read by a line that it stands in at `@`, as the text says.
fn sizes(rt: &(impl Abort + AllocGlobal), before: &str, after: &str, cases: &[(&str, &str)]) {
    for (size, want) in cases {
        let line = format!(in rt.alloc(); "{before}{size}|{after}").expect(rt, "memory");
        reads(rt, &[(line.as_str(), *want)]);
    }
}

static ROOMS: &[(&str, &str)] = &[
    ("1M", "sized d H 3 128 2048 false false"),
    ("1G", "sized d H 3 128 2097152 false false"),
    ("max", "sized d H 3 128 most false false"),
    (
        "8589934591T",
        "sized d H 3 128 18446744071562067968 false false",
    ),
    ("8589934592T", "BadSize"),
    ("18446744073709551616M", "BadSize"),
    ("0M", "BadSize"),
    ("01M", "BadSize"),
    ("+1M", "BadSize"),
    ("1.5G", "BadSize"),
    ("1K", "BadSize"),
    ("1MM", "BadSize"),
    ("1", "BadSize"),
    ("M", "BadSize"),
    ("m", "BadSize"),
    ("1m", "BadSize"),
    ("Max", "BadSize"),
    ("", "BadSize"),
];

#[test]
fn reads_the_room_for_volumes(rt: HostRuntime) {
    sizes(&rt, "make|d|--size|", "--id|H|--members|3|", ROOMS);
}

static EXTENTS: &[(&str, &str)] = &[
    ("0", "d H create v 0"),
    ("4294967295", "d H create v 4294967295"),
    ("4294967296", "BadSize"),
    ("18446744073709551616", "BadSize"),
    ("1K", "d H create v 2"),
    ("0K", "d H create v 0"),
    ("1M", "d H create v 2048"),
    ("3G", "d H create v 6291456"),
    ("1T", "d H create v 2147483648"),
    ("2T", "BadSize"),
    ("2097151M", "d H create v 4294965248"),
    ("2097152M", "BadSize"),
    ("max", "BadSize"),
    ("01", "BadSize"),
    ("+1", "BadSize"),
    ("1.5G", "BadSize"),
    ("1é", "BadSize"),
    ("K", "BadSize"),
    ("m", "BadSize"),
    ("", "BadSize"),
];

#[test]
fn reads_the_size_of_a_volume(rt: HostRuntime) {
    sizes(&rt, "create|d|v|", "--id|H|", EXTENTS);
}

static NUMBERS: &[(&str, &str)] = &[
    (
        "make|d|--id|H|--members|255|--chunk|65535|--stripes|4294967295",
        "make d H 255 65535 4294967295",
    ),
    (
        "make|d|--id|H|--members|+0|--chunk=-0|--stripes|0032",
        "make d H 0 0 32",
    ),
    (
        "make|d|--id|H|--members|256|--chunk|8|--stripes|32",
        "ValueValidation",
    ),
    (
        "make|d|--id|H|--members|3|--chunk|65536|--stripes|32",
        "ValueValidation",
    ),
    (
        "make|d|--id|H|--members|3|--chunk|8|--stripes|4294967296",
        "ValueValidation",
    ),
    ("fail|d|--id|H|--slot|255", "fail d H 255"),
    ("fail|d|--id|H|--slot|256", "ValueValidation"),
    ("fail|d|--id|H|--slot=-1", "ValueValidation"),
    ("replace|d|--id|H|--slot|4294967297", "ValueValidation"),
    ("replace|d|--id|H|--slot|0x1", "ValueValidation"),
    (
        "rebuild|d|--id|H|--steps|18446744073709551615",
        "rebuild d H 18446744073709551615",
    ),
    (
        "rebuild|d|--id|H|--steps|18446744073709551616",
        "ValueValidation",
    ),
    ("rebuild|d|--id|H|--steps|0", "ValueValidation"),
    ("rebuild|d|--id|H|--steps||", "ValueValidation"),
];

#[test]
fn reads_numbers_to_their_limits(rt: HostRuntime) {
    reads(&rt, NUMBERS);
}

static IDS: &[(&str, &str)] = &[
    ("run|d|--id|0f0e0d0c0b0a09080706050403020100", "run d ?"),
    ("run|d|--id|000102030405060708090a0b0c0d0e0", "BadId"),
    ("run|d|--id|000102030405060708090a0b0c0d0e0f0", "BadId"),
    ("run|d|--id|000102030405060708090a0b0c0d0e0g", "BadId"),
    ("examine|d|--id=", "BadId"),
    ("fail|d|--id|00|--slot|256", "ValueValidation"),
];

// What is no id is told only where all else is well.
#[test]
fn refuses_an_id(rt: HostRuntime) {
    reads(&rt, IDS);
}

static OTHER_WORDS: &[(&str, &str)] = &[
    ("", "MissingSubcommand"),
    ("walk|d", "InvalidSubcommand"),
    ("serve|d", "MissingRequiredArgument"),
    ("serve|d|e|--id|H", "UnknownArgument"),
    ("serve|d|--id|H|--check", "UnknownArgument"),
    ("scrub|d", "MissingRequiredArgument"),
    ("upgrade|--id|H", "MissingRequiredArgument"),
    ("run|d|e|--id|H", "UnknownArgument"),
    ("run|d|--id|H|--json", "UnknownArgument"),
    ("fail|d|--id|H|--slot|-1", "UnknownArgument"),
    ("run|d|--id|H|--id|H", "ArgumentConflict"),
    ("status|d|--id|H|--json|--json", "ArgumentConflict"),
    ("status|d|--id|H|--json=true", "TooManyValues"),
    ("replace|d|--id|H|--slot", "InvalidValue"),
    ("create|d|v|--id|H", "MissingRequiredArgument"),
    ("rename|d|v|w|x|--id|H", "UnknownArgument"),
    ("make|d|--id|H|--size|1M", "MissingRequiredArgument"),
];

#[test]
fn refuses_other_words(rt: HostRuntime) {
    reads(&rt, OTHER_WORDS);
}

static REQUESTS: &[(&str, &str)] = &[
    ("--help", "DisplayHelp"),
    ("serve|-h", "DisplayHelp"),
    ("scrub|-h", "DisplayHelp"),
    ("--version", "DisplayVersion"),
    ("-V|--help", "DisplayVersion"),
    ("--version=1", "TooManyValues"),
    ("upgrade|d|--id|H|-V", "UnknownArgument"),
];

// Only the program has a version, and no command.
#[test]
fn tells_a_request_from_a_fault(rt: HostRuntime) {
    reads(&rt, REQUESTS);
}

static HELPS: &[(&str, &str)] = &[
    (
        "--help",
        "A RAID 5 set with a stripe journal and linear logical volumes, over device files|\
Usage: raidtool <COMMAND>|\
Serves the script on standard input over the device files of a folder|\
Serves requests on standard input over the device files of a folder: their blocks are bytes|\
run|serve|make|status|fail|replace|rebuild|scrub|upgrade|examine|\
create|extend|remove|rename|list|\
-V, --version|Print version",
    ),
    (
        "run|--help",
        "Serves the script on standard input over the device files of a folder|\
Usage: raidtool run --id <H> <FOLDER>|\
The folder of dev0.img, dev1.img and so on|\
The id of the set, 32 hexadecimal digits, or auto for the only one there",
    ),
    (
        "serve|--help",
        "Serves requests on standard input over the device files of a folder: \
their blocks are bytes|\
Usage: raidtool serve --id <H> <FOLDER>|\
The folder of dev0.img, dev1.img and so on|\
The id of the set, 32 hexadecimal digits, or auto for the only one there",
    ),
    (
        "make|--help",
        "Makes a set on the device files of a folder, whatever they held \
(with --size no set, unless --over is given)|\
Usage: raidtool make [OPTIONS] --id <H> --members <N> <FOLDER>|\
The id of the set, 32 hexadecimal digits, or new for one that is drawn|\
The sectors of a chunk: 8 to 1024, a power of 2 (up to 128 without --size); \
128 where it is left out|\
--size <SIZE>|\
The room for volumes: a number with M, G or T, or max for all that \
the shortest member allows|\
Make it also where the files have a set, which is lost|\
Write zeros where a file is lengthened, so that its room is there",
    ),
    (
        "status|--help",
        "Tells what the set on the device files of a folder says of itself|\
Usage: raidtool status [OPTIONS] --id <H> <FOLDER>|\
As JSON in one line",
    ),
    (
        "fail|--help",
        "Gives a slot of the set on the device files of a folder up|\
Usage: raidtool fail --id <H> --slot <K> <FOLDER>|\
The slot, counted from 0",
    ),
    (
        "replace|--help",
        "Takes the device file of a missing slot of the set of a folder, whatever it held|\
Usage: raidtool replace --id <H> --slot <K> <FOLDER>|\
The slot, counted from 0",
    ),
    (
        "rebuild|--help",
        "Rebuilds the member of the set of a folder that was replaced|\
Usage: raidtool rebuild [OPTIONS] --id <H> <FOLDER>|\
--steps <T>|\
The steps, 1 or more, of 64 rows or 4096 in a large set; all that there are if left out",
    ),
    (
        "scrub|--help",
        "Counts the rows of the set of a folder whose parity does not match, and mends none|\
Usage: raidtool scrub --id <H> <FOLDER>",
    ),
    (
        "upgrade|--help",
        "Makes the table of volumes of the set of a folder one of version 2|\
Usage: raidtool upgrade --id <H> <FOLDER>",
    ),
    (
        "examine|--help",
        "Inspects the sets on the device files of a folder, and changes nothing|\
Usage: raidtool examine [OPTIONS] <FOLDER>|\
The id of the set, 32 hexadecimal digits, or auto for the only one there; \
each set where it is left out|\
As JSON in one line",
    ),
    (
        "create|--help",
        "Creates a volume in the set of a folder|\
Usage: raidtool create --id <H> <FOLDER> <NAME> <SIZE>|\
The name of the volume|\
The size of the volume: blocks of 512 bytes, or a number with K, M, G or T; \
2 TiB less a block at most",
    ),
    (
        "extend|--help",
        "Makes a volume of the set of a folder longer|\
Usage: raidtool extend --id <H> <FOLDER> <NAME> <SIZE>|\
What is added to the volume: blocks of 512 bytes, or a number with K, M, G or T; \
the volume has 2 TiB less a block at most",
    ),
    (
        "remove|--help",
        "Removes a volume of the set of a folder|\
Usage: raidtool remove --id <H> <FOLDER> <NAME>",
    ),
    (
        "rename|--help",
        "Gives a volume of the set of a folder a new name|\
Usage: raidtool rename --id <H> <FOLDER> <NAME> <NEW>|\
The new name of the volume",
    ),
    (
        "list|--help",
        "Lists the volumes of the set of a folder|\
Usage: raidtool list --id <H> <FOLDER>",
    ),
];

#[test]
fn helps(rt: HostRuntime) {
    tells(&rt, HELPS);
}

static FAULTS: &[(&str, &str)] = &[
    (
        "fail|d|--id|H|--slot|256",
        "error: invalid value '256' for '--slot <K>': 256 is not in 0..=255",
    ),
    (
        "scrub|d",
        "error: the following required arguments were not provided:|  --id <H>|\
Usage: raidtool scrub --id <H> <FOLDER>",
    ),
    (
        "serve|d",
        "error: the following required arguments were not provided:|  --id <H>|\
Usage: raidtool serve --id <H> <FOLDER>",
    ),
    ("walk|d", "error: unrecognized subcommand 'walk'"),
    ("run|d|--fast", "error: unexpected argument '--fast' found"),
];

#[test]
fn tells_a_fault(rt: HostRuntime) {
    tells(&rt, FAULTS);
}
