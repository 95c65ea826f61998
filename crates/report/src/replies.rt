//! The texts of replies, written to a writer that is never flushed.
ghost use Rattle.std.specs.Prelude.{◌≡◌, ◌+◌, ◌<◌, ◌≤◌, [], ◌∷◌, ◌++◌, length, take, codes, IfOk, IfErr, OnOk, OnErr};
ghost use Rattle.std.specs.List.{flat_map};
ghost use Rattle.hex.specs.Hex.{encode_lower};
ghost use Rattle.std.specs.Io.KnownBytes.{Appends, Keeps};
ghost use Rattle.arrayvec.specs.ArrayVec.{array_vec_len};
ghost use Rattle.report.specs.Replies.{is_uniform as is_uniform_block, block_line, made_line, slot_line, volume_line};
ghost use Rattle.report.specs.Replies.{refusal_line, reply_text};
ghost use Rattle.report.specs.Written.{volume_of, reply_of, AppendsPart, WritesText};

mod set;
#[cfg(test)]
mod tests;

use arrayvec::ArrayVec;
use extents::MOST_NAME_BYTES;
use itoa::Buffer;
use sector_model::{Refusal, Sector};
pub use set::{write_progress, write_scrubbed};
use std::io::{ErrorKind, Write};
use volume_table::Listed;

/// What a line is answered.
#[derive(Clone, Copy)]
pub enum Answer<'a> {
    /// The command was done.
    Done,
    /// The blocks that were read.
    Blocks(&'a [Sector]),
    /// All volumes.
    Volumes(&'a [Listed]),
    /// Nothing was done.
    Refused(Refusal),
}

/// Writes the text of a reply, in one call of `write` for each line where the writer takes it whole. It does not flush.
///
/// The only refusal is `Refusal::WriteFault`, where the writer fails, takes 0 bytes or is interrupted
/// without end: a beginning of the text may then be written, and never all of it.
pub fn write_reply<W: Write>(writer: &mut W, answer: &Answer<'_>) -> Result<(), Refusal>
    ensures ok { OnOk result
        (Appends (W.contents writer.old) (W.contents writer.new) (reply_text (reply_of answer.now))) }
    ensures part { OnErr result
        (AppendsPart (W.contents writer.old) (W.contents writer.new) (reply_text (reply_of answer.now))) }
    ensures kind { IfErr result (λ refusal. refusal ≡ Refusal.WriteFault) }
{
    match answer {
        Answer::Done => write_text(writer, b"ok\n"),
        Answer::Blocks(blocks) => write_blocks(writer, blocks),
        Answer::Volumes(volumes) => write_volumes(writer, volumes),
        Answer::Refused(refusal) => write_refusal(writer, *refusal),
    }
}

/// Writes `made` and a newline. The only refusal is `Refusal::WriteFault`, as for a reply.
pub fn write_made<W: Write>(writer: &mut W) -> Result<(), Refusal>
    ensures ok { OnOk result (Appends (W.contents writer.old) (W.contents writer.new) made_line) }
    ensures part { OnErr result (AppendsPart (W.contents writer.old) (W.contents writer.new) made_line) }
    ensures kind { IfErr result (λ refusal. refusal ≡ Refusal.WriteFault) }
{
    write_text(writer, b"made\n")
}

/// Writes a line that names the file of a slot, `cannot make dev3.img` or `in use dev3.img`: the words before the name,
/// `dev3.img` with the number of the slot, what stands after it, and a newline, in one call of `write` where the writer
/// takes it whole. The words and what stands after have 80 bytes at most (condition). The only refusal is
/// `Refusal::WriteFault`, as for a reply.
pub fn write_slot_line<W: Write>(
    writer: &mut W,
    before: &[u8],
    slot: u8,
    after: &[u8],
) -> Result<(), Refusal>
    requires { length before.now + length after.now ≤ 80 }
    ensures ok { OnOk result
        (Appends (W.contents writer.old) (W.contents writer.new) (slot_line before.now slot after.now)) }
    ensures part { OnErr result
        (AppendsPart (W.contents writer.old) (W.contents writer.new) (slot_line before.now slot after.now)) }
    ensures kind { IfErr result (λ refusal. refusal ≡ Refusal.WriteFault) }
{
    let mut number = Buffer::new();
    let mut line = ArrayVec::<u8, 96>::new();
    append(&mut line, before);
    append(&mut line, b"dev");
    append(&mut line, number.format(slot).as_bytes());
    append(&mut line, b".img");
    append(&mut line, after);
    line.push(b'\n');
    write_text(writer, line.as_slice())
}

fn write_blocks<W: Write>(writer: &mut W, blocks: &[Sector]) -> Result<(), Refusal>
    ensures { WritesText (W.contents writer.old) (W.contents writer.new) (flat_map block_line blocks.now) result }
{
    for block in blocks {
        write_block(writer, block)?;
    }
    Ok(())
}

fn write_volumes<W: Write>(writer: &mut W, volumes: &[Listed]) -> Result<(), Refusal>
    ensures { WritesText (W.contents writer.old) (W.contents writer.new)
        (flat_map (λ volume. volume_line (volume_of volume)) volumes.now) result }
{
    for volume in volumes {
        write_volume(writer, volume)?;
    }
    Ok(())
}

// The two digits of a byte that stands 512 times, or the digits of each byte.
fn write_block<W: Write>(writer: &mut W, block: &Sector) -> Result<(), Refusal>
    ensures { WritesText (W.contents writer.old) (W.contents writer.new) (block_line block.now) result }
{
    if is_uniform(block) {
        write_text(writer, &short_line(block[0]))
    } else {
        write_text(writer, &long_line(block))
    }
}

// Whether all bytes are equal to the first: each byte is equal to the next.
fn is_uniform(block: &Sector) -> bool
    ensures { result ≡ is_uniform_block block.now }
{
    block[..511] == block[1..]
}

fn short_line(byte: u8) -> [u8; 7]
    ensures { result ≡ encode_lower (byte ∷ []) ++ codes "*512" ++ 10 ∷ [] }
{
    let mut digits = [0; 2];
    let _ = hex::encode_to_slice([byte], &mut digits);
    [digits[0], digits[1], b'*', b'5', b'1', b'2', b'\n']
}

fn long_line(block: &Sector) -> [u8; 1_025]
    ensures { result ≡ encode_lower block.now ++ 10 ∷ [] }
{
    let mut line = [b'\n'; 1_025];
    let _ = hex::encode_to_slice(block, &mut line[..1_024]);
    line
}

// The most bytes of the line of a volume: its name, a space, its number of blocks and the end of the line.
const MOST_VOLUME_LINE: usize = MOST_NAME_BYTES + 1 + 10 + 1;

fn write_volume<W: Write>(writer: &mut W, volume: &Listed) -> Result<(), Refusal>
    ensures { WritesText (W.contents writer.old) (W.contents writer.new) (volume_line (volume_of volume.now)) result }
{
    let mut number = Buffer::new();
    let mut line = ArrayVec::<u8, MOST_VOLUME_LINE>::new();
    append(&mut line, volume.name.bytes());
    line.push(b' ');
    append(&mut line, number.format(volume.blocks).as_bytes());
    line.push(b'\n');
    write_text(writer, line.as_slice())
}

fn write_refusal<W: Write>(writer: &mut W, refusal: Refusal) -> Result<(), Refusal>
    ensures { WritesText (W.contents writer.old) (W.contents writer.new) (refusal_line refusal) result }
{
    let mut number = Buffer::new();
    let mut line = ArrayVec::<u8, 32>::new();
    append(&mut line, b"refused ");
    append(&mut line, number.format(refusal.number()).as_bytes());
    line.push(b' ');
    append(&mut line, refusal.name().as_bytes());
    line.push(b'\n');
    write_text(writer, line.as_slice())
}

// Appends bytes that there is room for.
fn append<const N: usize>(line: &mut ArrayVec<u8, N>, bytes: &[u8])
    requires { array_vec_len line.old + length bytes.now ≤ N }
    ensures items { line.new.items ≡ line.old.items ++ bytes.now }
    ensures len { array_vec_len line.new ≡ array_vec_len line.old + length bytes.now }
{
    let _ = line.try_extend_from_slice(bytes);
}

/// Writes all bytes. It calls nothing for no bytes, and does not flush. The only refusal is `Refusal::WriteFault`, as
/// for a reply: a beginning of the bytes may then be written, and never all of them.
pub fn write_text<W: Write>(writer: &mut W, bytes: &[u8]) -> Result<(), Refusal>
    ensures ok { OnOk result (Appends (W.contents writer.old) (W.contents writer.new) bytes.now) }
    ensures part { OnErr result (AppendsPart (W.contents writer.old) (W.contents writer.new) bytes.now) }
    ensures kind { IfErr result (λ refusal. refusal ≡ Refusal.WriteFault) }
{
    let mut rest = bytes;
    while !rest.is_empty() {
        let count = write_some(writer, rest)?;
        rest = &rest[count..];
    }
    Ok(())
}

// Writes one or more of the bytes, and says how many. An interrupted call is made again.
fn write_some<W: Write>(writer: &mut W, bytes: &[u8]) -> Result<usize, Refusal>
    requires { 0 < length bytes.now }
    ensures some { IfOk result (λ count. 0 < count) }
    ensures bound { IfOk result (λ count. count ≤ length bytes.now) }
    ensures ok { IfOk result
        (λ count. Appends (W.contents writer.old) (W.contents writer.new) (take count bytes.now)) }
    ensures fault { OnErr result (Keeps (W.contents writer.old) (W.contents writer.new)) }
    ensures kind { IfErr result (λ refusal. refusal ≡ Refusal.WriteFault) }
{
    for _ in 0..u64::MAX {
        match writer.write(bytes) {
            Ok(0) => return Err(Refusal::WriteFault),
            Ok(count) => return Ok(count),
            Err(error) => {
                if error.kind() != ErrorKind::Interrupted {
                    return Err(Refusal::WriteFault);
                }
            }
        }
    }
    Err(Refusal::WriteFault)
}
