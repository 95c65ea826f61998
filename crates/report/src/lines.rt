//! The lines of a script, read one at a time.
ghost use Rattle.std.specs.Prelude.{◌≡◌, ◌≢◌, ◌+◌, ◌<◌, ◌≤◌, [], ◌++◌, length, take, All, Ok, IfOk, IfErr, OnOk, OnErr};
ghost use Rattle.std.specs.Prelude.{IfSome, OnSome, true, false, vec_len, vec_capacity};
ghost use Rattle.std.specs.Io.KnownBytes.{Keeps, IsAtEnd};
ghost use Rattle.report.specs.Lines.{GivesLine, HasNoLine, ReadsUnended, ReadsWhole, StopsInLine, ReadsPart, end_of};

#[cfg(test)]
mod tests;

use sector_model::Refusal;
use std::alloc::Allocator;
use std::io::{BufRead, ErrorKind};

/// The most bytes of a line, without its end. A longer line is no command.
pub const LONGEST_LINE: usize = 65_535;

// The byte that ends a line.
const END: u8 = b'\n';

// What follows the bytes that were read of a line.
#[derive(Clone, Copy)]
enum Met {
    Nothing,
    LineEnd,
    ScriptEnd,
}

/// What was read of a line.
#[derive(Clone, Copy, Debug, PartialEq, Eq)]
pub enum LineRead {
    /// The line, and its end.
    Whole,
    /// Bytes that no end of a line follows: the input ended.
    Unended,
    /// Nothing: no byte was left.
    Nothing,
}

/// Reads the next line into `line`, without its end, and says whether it had one. Of a line of more than
/// `LONGEST_LINE` bytes it keeps the first `LONGEST_LINE + 1`, and drops the others as it reads them.
///
/// `line` needs a capacity of `LONGEST_LINE + 1` bytes, so that nothing is allocated. It is cleared first.
/// The refusal is `Refusal::ReadFault`, where the reader fails: a part of the line may then be read, and no
/// end of a line.
pub fn read_line<R: BufRead, A: Allocator>(
    reader: &mut R,
    line: &mut Vec<u8, A>,
) -> Result<LineRead, Refusal>
    requires { LONGEST_LINE + 1 ≤ vec_capacity line.old }

    // Where the reader's bytes are known.
    ensures whole { result ≡ Ok LineRead.Whole
        → ReadsWhole (R.remaining reader.old) (R.remaining reader.new) line.new.items }
    ensures unended { result ≡ Ok LineRead.Unended
        → IfSome (R.remaining reader.old) (λ script. ReadsUnended script (R.remaining reader.new) line.new.items) }
    ensures none { result ≡ Ok LineRead.Nothing
        → IfSome (R.remaining reader.old) (λ script. HasNoLine script (R.remaining reader.new)) }
    ensures fault { OnErr result
        (IfSome (R.remaining reader.old) (λ script. StopsInLine script (R.remaining reader.new))) }

    // At any reader.
    ensures kind { IfErr result (λ refusal. refusal ≡ Refusal.ReadFault) }
    ensures held { vec_len line.new ≤ LONGEST_LINE + 1 }
    ensures unbroken { OnOk result (All (λ byte. byte ≢ 10) line.new.items) }
    ensures empty { result ≡ Ok LineRead.Nothing → line.new.items ≡ [] }
    ensures capacity { LONGEST_LINE + 1 ≤ vec_capacity line.new }
{
    line.clear();
    for _ in 0..u64::MAX {
        match read_part(reader, line)? {
            Met::Nothing => {}
            Met::LineEnd => return Ok(LineRead::Whole),
            Met::ScriptEnd => {
                return if line.is_empty() {
                    Ok(LineRead::Nothing)
                } else {
                    Ok(LineRead::Unended)
                };
            }
        }
    }
    Err(Refusal::ReadFault)
}

/// Reads the next line as `read_line` does, and takes what the input ends with as a line too.
///
/// `Ok(false)` says that no byte was left, and so no line.
pub fn next_line<R: BufRead, A: Allocator>(
    reader: &mut R,
    line: &mut Vec<u8, A>,
) -> Result<bool, Refusal>
    requires { LONGEST_LINE + 1 ≤ vec_capacity line.old }

    // Where the reader's bytes are known.
    ensures line { result ≡ Ok true
        → IfSome (R.remaining reader.old) (λ script. GivesLine script (R.remaining reader.new) line.new.items) }
    ensures none { result ≡ Ok false
        → IfSome (R.remaining reader.old) (λ script. HasNoLine script (R.remaining reader.new)) }
    ensures fault { OnErr result
        (IfSome (R.remaining reader.old) (λ script. StopsInLine script (R.remaining reader.new))) }

    // At any reader.
    ensures kind { IfErr result (λ refusal. refusal ≡ Refusal.ReadFault) }
    ensures held { vec_len line.new ≤ LONGEST_LINE + 1 }
    ensures unbroken { OnOk result (All (λ byte. byte ≢ 10) line.new.items) }
    ensures empty { result ≡ Ok false → line.new.items ≡ [] }
    ensures capacity { LONGEST_LINE + 1 ≤ vec_capacity line.new }
{
    match read_line(reader, line)? {
        LineRead::Whole | LineRead::Unended => Ok(true),
        LineRead::Nothing => Ok(false),
    }
}

// Reads what the reader shows of a line, with the line's end if it is there.
fn read_part<R: BufRead, A: Allocator>(
    reader: &mut R,
    line: &mut Vec<u8, A>,
) -> Result<Met, Refusal>
    requires capacity { LONGEST_LINE + 1 ≤ vec_capacity line.old }
    requires held { vec_len line.old ≤ LONGEST_LINE + 1 }
    ensures read { IfOk result (λ met. ReadsPart (R.remaining reader.old) (R.remaining reader.new) met line.old.items
        line.new.items) }
    ensures end { result ≡ Ok Met.ScriptEnd → OnSome (R.remaining reader.old) (IsAtEnd (R.remaining reader.new)) }
    ensures fault { OnErr result (Keeps (R.remaining reader.old) (R.remaining reader.new)) }
    ensures kind { IfErr result (λ refusal. refusal ≡ Refusal.ReadFault) }
    ensures held { vec_len line.new ≤ LONGEST_LINE + 1 }
    ensures capacity { LONGEST_LINE + 1 ≤ vec_capacity line.new }
{
    let shown = match reader.fill_buf() {
        Ok(shown) => shown,
        Err(error) => {
            return if error.kind() == ErrorKind::Interrupted {
                Ok(Met::Nothing)
            } else {
                Err(Refusal::ReadFault)
            };
        }
    };
    let (part_len, met) = find_end(shown);
    keep(line, &shown[..part_len]);
    reader.consume(part_len + end_len(met));
    Ok(met)
}

// How many bytes stand before the first end of a line, and what follows them.
fn find_end(shown: &[u8]) -> (usize, Met)
    ensures within { result.0 + length (end_of result.1) ≤ length shown.now }
    ensures unbroken { All (λ byte. byte ≢ 10) (take result.0 shown.now) }
    ensures through { take (result.0 + length (end_of result.1)) shown.now ≡ take result.0 shown.now
        ++ end_of result.1 }
    ensures none { result.1 ≡ Met.ScriptEnd → length shown.now ≡ 0 }
    ensures all { result.1 ≡ Met.Nothing → (0 < result.0) × (result.0 ≡ length shown.now) }
{
    match shown.iter().position(|&byte| byte == END) {
        Some(at) => (at, Met::LineEnd),
        None if shown.is_empty() => (0, Met::ScriptEnd),
        None => (shown.len(), Met::Nothing),
    }
}

fn end_len(met: Met) -> usize
    ensures { result ≡ length (end_of met) }
{
    match met {
        Met::LineEnd => 1,
        Met::Nothing | Met::ScriptEnd => 0,
    }
}

// Appends the bytes, as far as the line holds them.
fn keep<A: Allocator>(line: &mut Vec<u8, A>, part: &[u8])
    requires capacity { LONGEST_LINE + 1 ≤ vec_capacity line.old }
    requires held { vec_len line.old ≤ LONGEST_LINE + 1 }
    ensures items { line.new.items ≡ take (LONGEST_LINE + 1) (line.old.items ++ part.now) }
    ensures held { vec_len line.new ≤ LONGEST_LINE + 1 }
    ensures capacity { LONGEST_LINE + 1 ≤ vec_capacity line.new }
{
    let room = LONGEST_LINE + 1 - line.len();
    // The capacity suffices, so nothing is refused.
    let _ = line.extend_from_slice(&part[..part.len().min(room)]);
}
