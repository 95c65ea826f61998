//! The replies to requests, written to a writer that is never flushed.
ghost use Rattle.std.specs.Prelude.{◌≡◌, ◌≤◌, ◌+◌, ◌++◌, [], ◌∷◌, decimal, length};
ghost use Rattle.arrayvec.specs.ArrayVec.{array_vec_len};
ghost use Rattle.report.specs.Written.{WritesText};
ghost use Rattle.server.specs.Answers.{TellsBlocks, TellsVolumes, told_text};
ghost use Rattle.server.specs.Outcomes.{told_in};
ghost use Rattle.volume_table.specs.Listing.{told};

#[cfg(test)]
mod tests;

use crate::answering::Outcome;
use arrayvec::ArrayVec;
use itoa::Buffer;
use report::replies::{Answer, write_progress, write_reply, write_text};
use sector_model::{Refusal, Sector};
use std::io::Write;
use volume_table::Listed;

/// Writes the reply that an outcome is; the blocks that were read are the first of the buffer. It does not flush.
///
/// The only refusal is `WriteFault`, as for a reply: a beginning of the text may then be written, and never all of it.
pub(crate) fn write_told<W: Write>(
    writer: &mut W,
    outcome: &Outcome,
    blocks: &[Sector],
) -> Result<(), Refusal>
    ensures { WritesText (W.contents writer.old) (W.contents writer.new) (told_text (told_in outcome.now blocks.now))
        result }
{
    match outcome {
        Outcome::Done => write_reply(writer, &Answer::Done),
        Outcome::Read(count) => write_blocks(writer, &blocks[..(*count).min(blocks.len())]),
        Outcome::Listed(volumes) => write_volumes(writer, volumes),
        Outcome::Status(json) => write_counted(writer, b"status ", json.len(), json.as_bytes()),
        Outcome::Progress(progress, format, rows) => {
            write_progress(writer, progress, *format, *rows)
        }
        Outcome::Refused(refusal) => write_reply(writer, &Answer::Refused(*refusal)),
    }
}

// Writes how many blocks there are, and then their bytes.
fn write_blocks<W: Write>(writer: &mut W, blocks: &[Sector]) -> Result<(), Refusal>
    ensures { WritesText (W.contents writer.old) (W.contents writer.new) (told_text (TellsBlocks blocks.now)) result }
{
    write_counted(writer, b"blocks ", blocks.len(), blocks.as_flattened())
}

// Writes how many volumes there are, and then a line for each.
fn write_volumes<W: Write>(writer: &mut W, volumes: &[Listed]) -> Result<(), Refusal>
    ensures { WritesText (W.contents writer.old) (W.contents writer.new) (told_text (TellsVolumes (told volumes.now)))
        result }
{
    write_count(writer, b"volumes ", volumes.len())?;
    write_reply(writer, &Answer::Volumes(volumes))
}

// Writes a line of a word and a count, and then these bytes. The word has 8 bytes at most (condition).
fn write_counted<W: Write>(
    writer: &mut W,
    word: &[u8],
    count: usize,
    bytes: &[u8],
) -> Result<(), Refusal>
    requires { length word.now ≤ 8 }
    ensures { WritesText (W.contents writer.old) (W.contents writer.new)
        (word.now ++ decimal count ++ 10 ∷ bytes.now) result }
{
    write_count(writer, word, count)?;
    write_text(writer, bytes)
}

// Writes a line of a word and a count. The word has 8 bytes at most (condition).
fn write_count<W: Write>(writer: &mut W, word: &[u8], count: usize) -> Result<(), Refusal>
    requires { length word.now ≤ 8 }
    ensures { WritesText (W.contents writer.old) (W.contents writer.new) (word.now ++ decimal count ++ 10 ∷ [])
        result }
{
    let mut number = Buffer::new();
    let mut line = ArrayVec::<u8, 32>::new();
    append(&mut line, word);
    append(&mut line, number.format(count).as_bytes());
    line.push(b'\n');
    write_text(writer, line.as_slice())
}

// Appends bytes that there is room for.
fn append(line: &mut ArrayVec<u8, 32>, bytes: &[u8])
    requires { array_vec_len line.old + length bytes.now ≤ 32 }
    ensures items { line.new.items ≡ line.old.items ++ bytes.now }
    ensures len { array_vec_len line.new ≡ array_vec_len line.old + length bytes.now }
{
    let _ = line.try_extend_from_slice(bytes);
}
