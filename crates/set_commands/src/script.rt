//! Scripts over a store of volumes.
ghost use Rattle.std.specs.Prelude.{◌≡◌, ◌⊎◌, ◌↔◌, List, Err, OnOk, OnErr, IfErr};
ghost use Rattle.std.specs.Io.KnownBytes.{Appends};
ghost use Rattle.sector_model.specs.declared.refusal.Refusal.{Refusal};
ghost use Rattle.array_io.specs.Believed.Views.{EndsIt};
ghost use Rattle.array_io.specs.Believed.OpenArray.{IsHonest};
ghost use Rattle.volume_table.specs.StoreCalls.{Applies, EndsStore};
ghost use Rattle.volume_table.specs.StoreFunctions.{done_reply};
ghost use Rattle.volume_table.specs.VolumeStep.{OnVolumes, Read, Refused};
ghost use Rattle.volume_table.specs.Volumes.{Block};
ghost use Rattle.volume_table.specs.OpenStore.{store_view};
ghost use Rattle.report.specs.Replies.{reply_text};
ghost use Rattle.set_commands.specs.Run.{HasRun, IsScriptRefusal, LineIsCut, LineIsDone, LineIsLast, StoppedByStore};
ghost use Rattle.set_commands.specs.Run.{StoppedReading, StoppedWriting, reply_in, streams};
ghost use Rattle.report.specs.Script.{Answers};
ghost use Rattle.report.specs.Written.{AppendsPart, reply_of};

use report::lines::{LONGEST_LINE, next_line};
use report::parse::{KEPT_BLOCKS, parse};
use report::replies::{Answer, write_reply};
use sector_model::{Bank, Refusal, Sector};
use std::alloc::Global;
use std::io::{BufRead, Write};
use volume_table::{Event, Listed, Store};

/// What a line came to. The blocks that were read are the first of the buffer.
#[derive(Drop)]
pub enum Outcome {
    Done,
    Read(usize),
    Listed(Vec<Listed>),
    Refused(Refusal),
}

// What a call is that answers nothing but that it was done.
fn outcome_of(answer: Result<(), Refusal>) -> Outcome
    ensures { (buffer : List Block) → reply_in result buffer ≡ done_reply answer }
{
    match answer {
        Ok(()) => Outcome::Done,
        Err(refusal) => Outcome::Refused(refusal),
    }
}

// Does what a line asks for. The blocks of a write are kept in a buffer of their own, since an event lends them.
fn serve<B: Bank>(
    store: &mut Store<B>,
    alloc: Global,
    line: &[u8],
    kept: &mut [Sector; KEPT_BLOCKS],
    buffer: &mut [Sector; KEPT_BLOCKS],
) -> Outcome
    ensures honest { IsHonest store.old.array ↔ IsHonest store.new.array }
    ensures answered { Answers (IsHonest store.old.array) line.now (store_view store.old) (store_view store.new)
        (reply_in result buffer.new) }
{
    if line.len() > LONGEST_LINE {
        return Outcome::Refused(Refusal::BadLine);
    }
    match parse(line, kept) {
        None => Outcome::Refused(Refusal::BadLine),
        Some(Event::Create { name, blocks }) => outcome_of(store.create(name, blocks)),
        Some(Event::Extend { name, by }) => outcome_of(store.extend(name, by)),
        Some(Event::Remove { name }) => outcome_of(store.remove(name)),
        Some(Event::Rename { old, new }) => outcome_of(store.rename(old, new)),
        Some(Event::Read { name, at, count }) => serve_read(store, name, at, count, buffer),
        Some(Event::Write { name, at, blocks }) => outcome_of(store.write(name, at, blocks)),
        Some(Event::List) => match store.list(alloc) {
            Ok(volumes) => Outcome::Listed(volumes),
            Err(refusal) => Outcome::Refused(refusal),
        },
        // No line says a command on the set.
        Some(_) => Outcome::Refused(Refusal::BadLine),
    }
}

// Reads blocks into the buffer, as many as it holds at most: one more than a read may have, so that a longer one is
// refused as that one is.
fn serve_read<B: Bank>(
    store: &mut Store<B>,
    name: &[u8],
    at: u32,
    count: u32,
    buffer: &mut [Sector; KEPT_BLOCKS],
) -> Outcome
    ensures honest { IsHonest store.old.array ↔ IsHonest store.new.array }
    ensures applies { Applies (IsHonest store.old.array) (OnVolumes (Read name.now at count)) (store_view store.old)
        (store_view store.new) (reply_in result buffer.new) }
{
    let count = (count as usize).min(KEPT_BLOCKS);
    match store.read(name, at, &mut buffer[..count]) {
        Ok(()) => Outcome::Read(count),
        Err(refusal) => Outcome::Refused(refusal),
    }
}

// The reply that an outcome is.
fn answer_of<'a>(outcome: &'a Outcome, buffer: &'a [Sector; KEPT_BLOCKS]) -> Answer<'a>
    ensures { reply_of result ≡ reply_in outcome.now buffer.now }
{
    match outcome {
        Outcome::Done => Answer::Done,
        Outcome::Read(count) => Answer::Blocks(&buffer[..(*count).min(KEPT_BLOCKS)]),
        Outcome::Listed(volumes) => Answer::Volumes(volumes),
        Outcome::Refused(refusal) => Answer::Refused(*refusal),
    }
}

// Does what a line asks for, and then writes the reply. A refusal that ended the store is written, and then answered.
fn answer_line<W: Write, B: Bank>(
    store: &mut Store<B>,
    alloc: Global,
    line: &[u8],
    kept: &mut [Sector; KEPT_BLOCKS],
    buffer: &mut [Sector; KEPT_BLOCKS],
    writer: &mut W,
) -> Result<(), Refusal>
    ensures honest { IsHonest store.old.array ↔ IsHonest store.new.array }
    ensures done { OnOk result (LineIsDone (IsHonest store.old.array) line.now (store_view store.old)
        (store_view store.new) (W.contents writer.old) (W.contents writer.new)) }
    ensures cut { result ≡ Err Refusal.WriteFault → LineIsCut (IsHonest store.old.array) line.now (store_view store.old)
        (store_view store.new) (W.contents writer.old) (W.contents writer.new) }
    ensures ended { (refusal : Refusal) → result ≡ Err refusal → EndsIt refusal → LineIsLast (IsHonest store.old.array)
        line.now (store_view store.old) (store_view store.new) refusal (W.contents writer.old) (W.contents writer.new) }
    ensures err { IfErr result (λ refusal. (refusal ≡ Refusal.WriteFault) ⊎ EndsIt refusal) }
{
    let outcome = serve(store, alloc, line, kept, buffer);
    write_outcome(writer, &outcome, buffer)?;
    ending(&outcome)
}

// Writes the reply that an outcome is.
fn write_outcome<W: Write>(
    writer: &mut W,
    outcome: &Outcome,
    buffer: &[Sector; KEPT_BLOCKS],
) -> Result<(), Refusal>
    ensures ok { OnOk result (Appends (W.contents writer.old) (W.contents writer.new)
        (reply_text (reply_in outcome.now buffer.now))) }
    ensures part { OnErr result (AppendsPart (W.contents writer.old) (W.contents writer.new)
        (reply_text (reply_in outcome.now buffer.now))) }
    ensures kind { IfErr result (λ refusal. refusal ≡ Refusal.WriteFault) }
{
    write_reply(writer, &answer_of(outcome, buffer))
}

// The refusal that ended the store, where the line came to one.
fn ending(outcome: &Outcome) -> Result<(), Refusal>
    ensures going { OnOk result ((buffer : List Block) → ¬ EndsStore (reply_in outcome.now buffer)) }
    ensures ended { IfErr result (λ refusal. EndsIt refusal
        × ((buffer : List Block) → reply_in outcome.now buffer ≡ Refused refusal)) }
{
    match outcome {
        Outcome::Refused(Refusal::TwoLost) => Err(Refusal::TwoLost),
        Outcome::Refused(Refusal::Worn) => Err(Refusal::Worn),
        _ => Ok(()),
    }
}

/// Runs a script over a store: each line is done and its reply written, before the next line is read. A line that is no
/// command is answered `refused 20 BadLine`, and the script goes on.
///
/// `Memory` where the buffers could not be made, with nothing read and nothing done. `ReadFault` where the reader
/// fails, or the script has more than 2^63 bytes; `WriteFault` where the writer fails, with the last command done and a
/// beginning of its reply written. `TwoLost` and `Worn` end the store; they are written as a reply before they are
/// returned. The writer is not flushed.
pub fn run_script<R: BufRead, W: Write, B: Bank>(
    alloc: Global,
    reader: &mut R,
    writer: &mut W,
    store: &mut Store<B>,
) -> Result<(), Refusal>
    ensures honest { IsHonest store.old.array ↔ IsHonest store.new.array }
    ensures done { OnOk result (HasRun (IsHonest store.old.array) (store_view store.old) (store_view store.new)
        (streams (R.remaining reader.old) (W.contents writer.old))
        (streams (R.remaining reader.new) (W.contents writer.new))) }
    ensures read_fault { result ≡ Err Refusal.ReadFault → StoppedReading (IsHonest store.old.array)
        (store_view store.old) (store_view store.new) (streams (R.remaining reader.old) (W.contents writer.old))
        (streams (R.remaining reader.new) (W.contents writer.new)) }
    ensures write_fault { result ≡ Err Refusal.WriteFault → StoppedWriting (IsHonest store.old.array)
        (store_view store.old) (store_view store.new) (streams (R.remaining reader.old) (W.contents writer.old))
        (streams (R.remaining reader.new) (W.contents writer.new)) }
    ensures loss { (refusal : Refusal) → result ≡ Err refusal → EndsIt refusal → StoppedByStore
        (IsHonest store.old.array) refusal (store_view store.old) (store_view store.new)
        (streams (R.remaining reader.old) (W.contents writer.old))
        (streams (R.remaining reader.new) (W.contents writer.new)) }
    ensures err { IfErr result IsScriptRefusal }
    ensures memory { result ≡ Err Refusal.Memory → (store.new ≡ store.old) × (reader.new ≡ reader.old)
        × (writer.new ≡ writer.old) }
{
    let mut line = Vec::with_capacity(alloc, LONGEST_LINE + 1)?;
    let mut kept = [[0; 512]; KEPT_BLOCKS];
    let mut buffer = [[0; 512]; KEPT_BLOCKS];
    let mut answered = 0u64;
    for _ in 0..u64::MAX {
        if !next_line(reader, &mut line)? {
            return Ok(());
        }
        answer_line(store, alloc, &line, &mut kept, &mut buffer, writer)?;
        answered += 1;
    }
    // Each line has a byte at least, so the script has more than 2^63 bytes.
    prove!(answered == u64::MAX);
    Err(Refusal::ReadFault)
}
