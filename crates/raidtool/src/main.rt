//! A RAID 5 set over device files: the program.
#![tactic(auto)]

ghost use Rattle.std.specs.Prelude.{◌≡◌, ◌≢◌, IfErr, IfOk, OnErr, OnOk, drop, map, string_bytes};
ghost use Rattle.std.specs.Process.{exit_status};
ghost use Rattle.clap.specs.Walk.{texts};
ghost use Rattle.sector_model.specs.declared.refusal.Refusal.{Refusal};
ghost use Rattle.std.specs.IoError.{error_kind};
ghost use Rattle.raidtool.specs.Stops.{IsTold};
ghost use Rattle.raidtool.specs.Tool.{IsNotStarted, IsStatusFor};

mod choosing;
mod console;
mod make;
mod replacing;
mod serving;
mod telling;
mod tool;
mod undoing;

use console::{Output, Replies, Script};
use device_files::SystemFolders;
use report::replies::write_text;
use sector_model::Refusal;
use std::alloc::{AllocError, Global};
use std::fs::OpenOptions;
use std::io::{ErrorKind, Write};
use std::process::ExitCode;
use std::rt::Files;
use std::{env, io};

fn main(rt: HostRuntime) -> ExitCode {
    match begin(&rt) {
        Ok(code) => code,
        Err(error) => ExitCode::from(start_status(&error, &mut rt.stderr())),
    }
}

// Does what the program's arguments ask for, and gives the status that it ends with. The error says why it could not
// begin.
fn begin(rt: &HostRuntime) -> io::Result<ExitCode> {
    let _streams = [stand_in(rt)?, stand_in(rt)?, stand_in(rt)?];
    let args: Vec<String> = env::args(rt)?.collect(rt.alloc())?;
    answer(rt, &args)
}

// The status of a program that could not begin, which is told to `err`: 2 where a word is no text, 1 for `Memory` and
// for any other fault.
fn start_status<E: Write>(error: &io::Error, err: &mut E) -> u8
    ensures { IsNotStarted (error_kind error.now) result (E.contents err.old) (E.contents err.new) }
{
    match error.kind() {
        ErrorKind::InvalidData => {
            let _ = write_text(err, b"bad word\n");
            2
        }
        ErrorKind::OutOfMemory => tool::status_of(Err(Refusal::Memory), err),
        _ => {
            let _ = write!(err, "cannot start: {error}\n");
            1
        }
    }
}

// A file that can be neither read nor written. The system gives the lowest free number to each file that is opened, so
// of three that are opened before all others one takes the place of each standard stream that the caller closed:
// without them it would be a device file, and replies would be written over its sectors. A read of it is a fault of the
// reader, a write one of the writer.
fn stand_in<R: Files>(rt: &R) -> io::Result<R::File> {
    OpenOptions::new().read(true).open(rt, "/")
}

// Does what the program's arguments ask for, of which the first is its name, and gives the status that it ends with.
fn answer(rt: &HostRuntime, args: &[String]) -> io::Result<ExitCode>
    ensures ok { IfOk result (λ code. IsStatusFor (drop 1 (map string_bytes args.now)) (exit_status code)) }
    ensures err { IfErr result (λ error. error_kind error ≡ ErrorKind.OutOfMemory) }
{
    let words = words_of(rt.alloc(), args)?;
    let replies = Replies::new(rt.alloc(), io::writer(rt))?;
    let status = run_tool(rt, &words, &replies)?;
    let ended = ended(status, replies.send(), &mut rt.stderr());
    Ok(ExitCode::from(ended))
}

// Does what the words ask for, whose replies may then wait to leave, and gives the status of that.
fn run_tool<W: Write + Drop>(
    rt: &HostRuntime,
    words: &[&str],
    replies: &Replies<W>,
) -> io::Result<u8>
    ensures ok { IfOk result (IsStatusFor (texts words.now)) }
    ensures err { IfErr result (λ error. error_kind error ≡ ErrorKind.OutOfMemory) }
{
    let mut script = Script::new(rt.alloc(), rt.reader(), replies)?;
    let mut out = Output { replies };
    let disk = SystemFolders { rt };
    let status = tool::tool(rt, &disk, words, &mut script, &mut out, &mut rt.stderr());
    Ok(status)
}

// The status that the program ends with, once the replies that were left have been sent, or not. Where they could not
// be, and nothing else was refused, that is told.
fn ended<E: Write>(status: u8, sent: io::Result<()>, err: &mut E) -> u8
    ensures same { status ≢ 0 → (result ≡ status) × (err.new ≡ err.old) }
    ensures sent { OnOk sent ((result ≡ status) × (err.new ≡ err.old)) }
    ensures unsent { status ≡ 0 → OnErr sent
        ((result ≡ 1) × IsTold Refusal.WriteFault (E.contents err.old) (E.contents err.new)) }
{
    if status != 0 {
        return status;
    }
    tool::status_of(sent.map_err(|_| Refusal::WriteFault), err)
}

// The words after the program's name.
fn words_of<'a>(alloc: Global, args: &'a [String]) -> Result<Vec<&'a str>, AllocError>
    ensures { IfOk result (λ words. texts words.items ≡ drop 1 (map string_bytes args.now)) }
{
    let mut words = Vec::new(alloc);
    if let Some((_, rest)) = args.split_first() {
        for word in rest {
            words.push(word.as_str())?;
        }
    }
    Ok(words)
}

#[cfg(test)]
mod testing;
#[cfg(test)]
mod tests;
