//! What the commands on the set itself are answered, as text.
ghost use Rattle.std.specs.Prelude.{◌≡◌, ◌+◌, ◌≤◌, ◌++◌, length, IfErr, OnOk, OnErr};
ghost use Rattle.std.specs.Io.KnownBytes.{Appends};
ghost use Rattle.arrayvec.specs.ArrayVec.{array_vec_len};
ghost use Rattle.sector_model.specs.declared.refusal.Refusal.{Refusal};
ghost use Rattle.rebuild.specs.Rebuilding.{Position};
ghost use Rattle.rebuild.specs.Stepping.{progress_by};
ghost use Rattle.scrub.specs.Reports.{report_of};
ghost use Rattle.report.specs.Replies.{first_bad_text, left_text, progress_line, scrub_line};
ghost use Rattle.report.specs.Written.{AppendsPart, WritesText};

use super::{append, write_text};
use arrayvec::ArrayVec;
use itoa::Buffer;
use layout_map::Format;
use rebuild::{Progress, steps_left};
use scrub::ScrubReport;
use sector_model::Refusal;
use std::io::Write;

/// Writes `position 64 of 256, 3 left` and a newline, with the position, the number of a member's rows and how many
/// steps of 64 rows are left, in format 2 of 4,096; or `complete` and a newline. The only refusal is
/// `Refusal::WriteFault`, as for a reply.
pub fn write_progress<W: Write>(
    writer: &mut W,
    progress: &Progress,
    format: Format,
    rows: u64,
) -> Result<(), Refusal>
    ensures ok { OnOk result
        (Appends (W.contents writer.old) (W.contents writer.new)
        (progress_line format rows (progress_by progress.now))) }
    ensures part { OnErr result
        (AppendsPart (W.contents writer.old) (W.contents writer.new)
        (progress_line format rows (progress_by progress.now))) }
    ensures kind { IfErr result (λ refusal. refusal ≡ Refusal.WriteFault) }
{
    match progress {
        Progress::Position(position) => write_position(writer, *position, format, rows),
        Progress::Complete => write_text(writer, b"complete\n"),
    }
}

fn write_position<W: Write>(
    writer: &mut W,
    position: u64,
    format: Format,
    rows: u64,
) -> Result<(), Refusal>
    ensures { WritesText (W.contents writer.old) (W.contents writer.new)
        (progress_line format rows (Position position)) result }
{
    let mut number = Buffer::new();
    let mut line = ArrayVec::<u8, 96>::new();
    append(&mut line, b"position ");
    append(&mut line, number.format(position).as_bytes());
    append(&mut line, b" of ");
    append(&mut line, number.format(rows).as_bytes());
    append_left(&mut line, steps_left(format, position, rows));
    line.push(b'\n');
    write_text(writer, line.as_slice())
}

// Appends how many steps are left.
fn append_left(line: &mut ArrayVec<u8, 96>, steps: u64)
    requires { array_vec_len line.old ≤ 53 }
    ensures items { line.new.items ≡ line.old.items ++ left_text steps }
    ensures len { array_vec_len line.new ≤ 80 }
{
    let mut number = Buffer::new();
    append(line, b", ");
    append(line, number.format(steps).as_bytes());
    append(line, b" left");
}

/// Writes `256 rows, 0 bad` and a newline, or `256 rows, 2 bad, first 5` where rows are not sound, with the first of
/// these. The only refusal is `Refusal::WriteFault`, as for a reply.
pub fn write_scrubbed<W: Write>(writer: &mut W, report: &ScrubReport) -> Result<(), Refusal>
    ensures ok { OnOk result
        (Appends (W.contents writer.old) (W.contents writer.new) (scrub_line (report_of report.now))) }
    ensures part { OnErr result
        (AppendsPart (W.contents writer.old) (W.contents writer.new) (scrub_line (report_of report.now))) }
    ensures kind { IfErr result (λ refusal. refusal ≡ Refusal.WriteFault) }
{
    let mut number = Buffer::new();
    let mut line = ArrayVec::<u8, 80>::new();
    append(&mut line, number.format(report.rows).as_bytes());
    append(&mut line, b" rows, ");
    append(&mut line, number.format(report.bad).as_bytes());
    append(&mut line, b" bad");
    append_first(&mut line, report.first_bad);
    line.push(b'\n');
    write_text(writer, line.as_slice())
}

// Appends which row is the first that is not sound, where one is not.
fn append_first(line: &mut ArrayVec<u8, 80>, first_bad: Option<u64>)
    requires { array_vec_len line.old ≤ 51 }
    ensures items { line.new.items ≡ line.old.items ++ first_bad_text first_bad }
    ensures len { array_vec_len line.new ≤ 79 }
{
    if let Some(first) = first_bad {
        let mut number = Buffer::new();
        append(line, b", first ");
        append(line, number.format(first).as_bytes());
    }
}
