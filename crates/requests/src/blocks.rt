//! The blocks that follow a line, as bytes.
ghost use Rattle.std.specs.Prelude.{◌≡◌, ◌+◌, ◌*◌, ◌<◌, ◌≤◌, length, take, drop, Ok, None, Some, IfErr, IfOk, IfSome, OnErr, OnOk, OnSome};
ghost use Rattle.std.specs.Prelude.{false, true};
ghost use Rattle.std.specs.Io.KnownBytes.{Consumes, IsAtEnd, Keeps};
ghost use Rattle.requests.specs.Inputs.{EndsBefore, Skips, StopsBefore, bytes_of};

#[cfg(test)]
mod tests;

use sector_model::{Refusal, Sector};
use std::io::{self, BufRead, ErrorKind};

// Bytes of a block.
const BLOCK_BYTES: usize = 512;

/// Fills all these blocks with the next bytes of a reader: `Ok(true)`. A call that is interrupted is made again.
///
/// `Ok(false)` says that the input ended before: what was left of it is then read, and the blocks hold anything.
/// The refusal is `Refusal::ReadFault`, where the reader fails: fewer bytes than the blocks' are then read, and
/// the blocks hold anything.
pub fn read_blocks<R: BufRead>(reader: &mut R, to: &mut [Sector]) -> Result<bool, Refusal>
    ensures len { length to.new ≡ length to.old }
    ensures read { result ≡ Ok true → Consumes (R.remaining reader.old) (R.remaining reader.new) (bytes_of to.new) }
    ensures ended { result ≡ Ok false
        → EndsBefore (R.remaining reader.old) (R.remaining reader.new) (512 * length to.old) }
    ensures fault { OnErr result (StopsBefore (R.remaining reader.old) (R.remaining reader.new) (512 * length to.old)) }
    ensures kind { IfErr result (λ refusal. refusal ≡ Refusal.ReadFault) }
{
    for at in 0..to.len() {
        if !read_block(reader, &mut to[at])? {
            return Ok(false);
        }
    }
    Ok(true)
}

/// Reads so many blocks of a reader, and drops them: `Ok(true)`. A call that is interrupted is made again.
///
/// `Ok(false)` says that the input ended before: what was left of it is then read. The refusal is
/// `Refusal::ReadFault`, where the reader fails: fewer bytes than those of the blocks are then read.
pub fn skip_blocks<R: BufRead>(reader: &mut R, count: u32) -> Result<bool, Refusal>
    ensures skipped { result ≡ Ok true → Skips (R.remaining reader.old) (R.remaining reader.new) (512 * count) }
    ensures ended { result ≡ Ok false
        → EndsBefore (R.remaining reader.old) (R.remaining reader.new) (512 * count) }
    ensures fault { OnErr result (StopsBefore (R.remaining reader.old) (R.remaining reader.new) (512 * count)) }
    ensures kind { IfErr result (λ refusal. refusal ≡ Refusal.ReadFault) }
{
    let mut left = count as usize * BLOCK_BYTES;
    if left == 0 {
        return Ok(true);
    }
    for _ in 0..u64::MAX {
        match skip_part(reader, left)? {
            None => {}
            Some(0) => return Ok(false),
            Some(skipped) => {
                left -= skipped;
                if left == 0 {
                    return Ok(true);
                }
            }
        }
    }
    Err(Refusal::ReadFault)
}

// Fills one block.
fn read_block<R: BufRead>(reader: &mut R, to: &mut Sector) -> Result<bool, Refusal>
    ensures len { length to.new ≡ 512 }
    ensures read { result ≡ Ok true → Consumes (R.remaining reader.old) (R.remaining reader.new) to.new }
    ensures ended { result ≡ Ok false → EndsBefore (R.remaining reader.old) (R.remaining reader.new) 512 }
    ensures fault { OnErr result (StopsBefore (R.remaining reader.old) (R.remaining reader.new) 512) }
    ensures kind { IfErr result (λ refusal. refusal ≡ Refusal.ReadFault) }
{
    let mut done = 0;
    for _ in 0..u64::MAX {
        match read_more(reader, to, done)? {
            None => {}
            Some(0) => return Ok(false),
            Some(count) => {
                done += count;
                if done == BLOCK_BYTES {
                    return Ok(true);
                }
            }
        }
    }
    Err(Refusal::ReadFault)
}

// Reads what the reader shows of a block of which so many bytes are there.
fn read_more<R: BufRead>(
    reader: &mut R,
    to: &mut Sector,
    done: usize,
) -> Result<Option<usize>, Refusal>
    requires { done < 512 }
    ensures front { take done to.new ≡ take done to.old }
    ensures within { IfOk result (λ part. IfSome part (λ count. done + count ≤ 512)) }
    ensures read { IfOk result (λ part. IfSome part (λ count. Consumes (R.remaining reader.old) (R.remaining reader.new)
        (take count (drop done to.new)))) }
    ensures ended { result ≡ Ok (Some 0) → OnSome (R.remaining reader.old) (IsAtEnd (R.remaining reader.new)) }
    ensures interrupted { result ≡ Ok None → Keeps (R.remaining reader.old) (R.remaining reader.new) }
    ensures fault { OnErr result (Keeps (R.remaining reader.old) (R.remaining reader.new)) }
    ensures kind { IfErr result (λ refusal. refusal ≡ Refusal.ReadFault) }
{
    read_part(reader, &mut to[done..])
}

// Reads what the reader shows, as far as there is room: how many bytes, none where the input is at its end.
// None where the call was interrupted.
fn read_part<R: BufRead>(reader: &mut R, to: &mut [u8]) -> Result<Option<usize>, Refusal>
    requires { 0 < length to.old }
    ensures len { length to.new ≡ length to.old }
    ensures within { IfOk result (λ part. IfSome part (λ count. count ≤ length to.new)) }
    ensures read { IfOk result (λ part. IfSome part (λ count. Consumes (R.remaining reader.old) (R.remaining reader.new)
        (take count to.new))) }
    ensures ended { result ≡ Ok (Some 0) → OnSome (R.remaining reader.old) (IsAtEnd (R.remaining reader.new)) }
    ensures interrupted { result ≡ Ok None → Keeps (R.remaining reader.old) (R.remaining reader.new) }
    ensures fault { OnErr result (Keeps (R.remaining reader.old) (R.remaining reader.new)) }
    ensures kind { IfErr result (λ refusal. refusal ≡ Refusal.ReadFault) }
{
    let shown = match reader.fill_buf() {
        Ok(shown) => shown,
        Err(error) => return after_error(&error),
    };
    let count = shown.len().min(to.len());
    to[..count].copy_from_slice(&shown[..count]);
    reader.consume(count);
    Ok(Some(count))
}

// Skips what the reader shows, so many bytes at most: how many, none where the input is at its end.
// None where the call was interrupted.
fn skip_part<R: BufRead>(reader: &mut R, most: usize) -> Result<Option<usize>, Refusal>
    requires { 0 < most }
    ensures skipped { IfOk result (λ part. IfSome part (λ count. (count ≤ most)
        × Skips (R.remaining reader.old) (R.remaining reader.new) count)) }
    ensures ended { result ≡ Ok (Some 0) → OnSome (R.remaining reader.old) (IsAtEnd (R.remaining reader.new)) }
    ensures interrupted { result ≡ Ok None → Keeps (R.remaining reader.old) (R.remaining reader.new) }
    ensures fault { OnErr result (Keeps (R.remaining reader.old) (R.remaining reader.new)) }
    ensures kind { IfErr result (λ refusal. refusal ≡ Refusal.ReadFault) }
{
    let shown = match reader.fill_buf() {
        Ok(shown) => shown,
        Err(error) => return after_error(&error),
    };
    let count = shown.len().min(most);
    reader.consume(count);
    Ok(Some(count))
}

// What a call says that failed: nothing yet where it was interrupted.
fn after_error(error: &io::Error) -> Result<Option<usize>, Refusal>
    ensures none { IfOk result (λ part. part ≡ None) }
    ensures kind { IfErr result (λ refusal. refusal ≡ Refusal.ReadFault) }
{
    if error.kind() == ErrorKind::Interrupted {
        Ok(None)
    } else {
        Err(Refusal::ReadFault)
    }
}
