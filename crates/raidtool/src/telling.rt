//! What the program tells beside the replies of a set: that one was made, and why words are no line of its.
ghost use Rattle.std.specs.Prelude.{◌≡◌, ◌∷◌, IfErr, List, OnErr, OnOk, true, ℕ};
ghost use Rattle.std.specs.List.{flat_map};
ghost use Rattle.std.specs.Io.KnownBytes.{Appends};
ghost use Rattle.hex.specs.Hex.{encode_lower};
ghost use Rattle.sector_model.specs.declared.refusal.Refusal.{Refusal};
ghost use Rattle.command_line.specs.declared.InvocationFault.{InvocationFault};
ghost use Rattle.device_files.specs.Faults.{IsToldLine};
ghost use Rattle.report.specs.Written.{AppendsPart, WritesText};
ghost use Rattle.raidtool.specs.Texts.{IsFaultLine, made_text, several_line, unused_line};

use command_line::{InvocationFault, parse_invocation};
use itoa::Buffer;
use report::replies::{write_made, write_text};
use sector_model::Refusal;
use std::alloc::Global;
use std::io::Write;

/// Writes `made` and a newline, or `made H`, where the id `H` of the set was drawn. The only refusal is `WriteFault`,
/// as for a reply.
pub(crate) fn write_made_set<W: Write>(
    out: &mut W,
    drawn: bool,
    id: &[u8; 16],
) -> Result<(), Refusal>
    ensures ok { OnOk result (Appends (W.contents out.old) (W.contents out.new) (made_text drawn id.now)) }
    ensures part { OnErr result (AppendsPart (W.contents out.old) (W.contents out.new) (made_text drawn id.now)) }
    ensures kind { IfErr result (λ refusal. refusal ≡ Refusal.WriteFault) }
{
    if drawn {
        write_text(out, &made_line_of(id))
    } else {
        write_made(out)
    }
}

// The line `made H`.
fn made_line_of(id: &[u8; 16]) -> [u8; 38]
    ensures { result ≡ made_text true id.now }
{
    let mut line = *b"made 00000000000000000000000000000000\n";
    let _ = hex::encode_to_slice(id, &mut line[5..37]);
    line
}

/// Writes how many blocks of a set no volume can have, as `unused 1023 blocks`. The only refusal is `WriteFault`, as
/// for a reply.
pub(crate) fn write_unused<W: Write>(out: &mut W, blocks: u64) -> Result<(), Refusal>
    ensures { WritesText (W.contents out.old) (W.contents out.new) (unused_line blocks) result }
{
    let mut number = Buffer::new();
    write_text(out, b"unused ")?;
    write_text(out, number.format(blocks).as_bytes())?;
    write_text(out, b" blocks\n")
}

/// Tells that a folder has several sets, and their ids. A fault of standard error has no place to be told.
pub(crate) fn tell_several<E: Write>(err: &mut E, ids: &[[u8; 16]])
    ensures { IsToldLine (several_line ids.now) (E.contents err.old) (E.contents err.new) }
{
    let _ = write_several(err, ids);
}

// Writes that line.
fn write_several<W: Write>(out: &mut W, ids: &[[u8; 16]]) -> Result<(), Refusal>
    ensures { WritesText (W.contents out.old) (W.contents out.new) (several_line ids.now) result }
{
    write_text(out, b"several sets:")?;
    write_ids(out, ids)?;
    write_text(out, b"\n")
}

// Writes ids, a space before each.
fn write_ids<W: Write>(out: &mut W, ids: &[[u8; 16]]) -> Result<(), Refusal>
    ensures { WritesText (W.contents out.old) (W.contents out.new)
        (flat_map (λ id. 32 ∷ encode_lower id) ids.now) result }
{
    for id in ids {
        write_id(out, id)?;
    }
    Ok(())
}

// Writes a space and an id.
fn write_id<W: Write>(out: &mut W, id: &[u8; 16]) -> Result<(), Refusal>
    ensures { WritesText (W.contents out.old) (W.contents out.new) (32 ∷ encode_lower id.now) result }
{
    write_text(out, &spaced(id))
}

// A space and the 32 digits of an id.
fn spaced(id: &[u8; 16]) -> [u8; 33]
    ensures { result ≡ 32 ∷ encode_lower id.now }
{
    let mut text = [b' '; 33];
    let _ = hex::encode_to_slice(id, &mut text[1..]);
    text
}

/// Tells why these words are no line of the program; where the first is `help`, what `--help` tells. A fault of
/// standard error has no place to be told.
pub(crate) fn tell_fault<E: Write>(
    alloc: Global,
    fault: &InvocationFault,
    words: &[&str],
    err: &mut E,
)
    ensures { (line : List ℕ) → IsFaultLine fault.now line
        → IsToldLine line (E.contents err.old) (E.contents err.new) }
{
    match fault {
        InvocationFault::Usage(error) => {
            if words.first() == Some(&"help") {
                tell_help(alloc, words, err);
            } else {
                tell_usage(alloc, error, err);
            }
        }
        InvocationFault::BadId => {
            let _ = write_text(err, b"bad id\n");
        }
        InvocationFault::BadSize => {
            let _ = write_text(err, b"bad size\n");
        }
        InvocationFault::BadShape => {
            let _ = write_text(err, b"make takes --size, or --chunk and --stripes\n");
        }
    }
}

// Tells what `--help` does, or that of a command that is named.
fn tell_help<E: Write>(alloc: Global, words: &[&str], err: &mut E) {
    match words.get(1) {
        Some(command) => tell_fault_of(alloc, &[*command, "--help"], err),
        None => tell_fault_of(alloc, &["--help"], err),
    }
}

// Tells what is said to words that are no line of the program.
fn tell_fault_of<E: Write>(alloc: Global, words: &[&str], err: &mut E) {
    if let Err(InvocationFault::Usage(error)) = parse_invocation(alloc, words) {
        tell_usage(alloc, &error, err);
    }
}

// Tells a fault in the words, or the help, but no other command or option that may have been meant: one that is like
// the word that was given may do something else altogether.
fn tell_usage<E: Write>(alloc: Global, error: &clap::Error, err: &mut E) {
    let Ok(text) = format!(in alloc; "{error}") else {
        let _ = write!(err, "{error}");
        return;
    };
    let mut before: &[u8] = b"";
    for part in text.split("\n\n") {
        if !part.starts_with("  tip:") {
            let _ = write_text(err, before);
            let _ = write_text(err, part.as_bytes());
            before = b"\n\n";
        }
    }
}
