//! Requests are served one after another.
ghost use Rattle.std.specs.Prelude.{◌≡◌, ◌≢◌, ◌≤◌, ◌<◌, ◌+◌, ◌↔◌, ℕ, [], ◌∷◌, ◌++◌, All, IfErr, IfOk, IsTrue, List, OnOk, length, take};
ghost use Rattle.std.specs.Prelude.{Err, IsErr, None, Option, false, vec_capacity, vec_len, ◌⊎◌};
ghost use Rattle.report.specs.declared.lines.TheConstants.{LONGEST_LINE};
ghost use Rattle.server.specs.declared.counts.TheConstants.{MOST_LINES_TOGETHER, MOST_WRITTEN_AT_ONCE};
ghost use Rattle.arrayvec.specs.ArrayVec.{array_vec_len};
ghost use Rattle.sector_model.specs.declared.refusal.Refusal.{Refusal};
ghost use Rattle.array_io.specs.Believed.OpenArray.{IsHonest};
ghost use Rattle.array_io.specs.Believed.Views.{EndsIt};
ghost use Rattle.server.specs.Scrubs.{going_on, joined, none_scrubbed};
ghost use Rattle.batch.specs.Batches.{waiting};
ghost use Rattle.requests.specs.Demands.{Demands, ScrubRows, Together, WriteBlocks, demand_of};
ghost use Rattle.scrub.specs.Scrubbing.{Report};
ghost use Rattle.scrub.specs.Reports.{report_of};
ghost use Rattle.set_commands.specs.Run.{Streams, streams};
ghost use Rattle.volume_table.specs.OpenStore.{store_view};
ghost use Rattle.volume_table.specs.Stands.{StoreView};
ghost use Rattle.server.specs.Answers.{IsAnswered};
ghost use Rattle.server.specs.Ends.{Comes, Commits, HasBadCount, HasCome, HasServed, IsBadRefusal, IsBadRequest};
ghost use Rattle.server.specs.Ends.{IsForGood, IsOutside, NoneWaits, ServesLine, ServesLines, TellsBadRequest, Waits};
ghost use Rattle.server.specs.Ends.{replies_of, state_of};
ghost use Rattle.server.specs.Serving.{IsRequest, Line, spelled};

use crate::answering::{answer, ended_by};
use crate::counts::{MOST_LINES_TOGETHER, MOST_WRITTEN_AT_ONCE};
use crate::ending::Ending;
use crate::kinds::{Kind, kind_of};
use crate::telling::write_told;
use crate::waiting::{NONE_SCRUBBED, Waiting, commit_waiting, take_write};
use report::lines::{LONGEST_LINE, LineRead, read_line};
use report::replies::{Answer, write_reply, write_scrubbed};
use requests::{Request, Stretch, parse_request, read_blocks};
use scrub::ScrubReport;
use sector_model::{Bank, Refusal, Sector};
use std::alloc::Global;
use std::io::{BufRead, Write};
use volume_table::{MOST_ZEROED_AT_ONCE, Store};

/// Serves the lines of an input over a store, and writes the reply to each after what it says is done: of the writes
/// that go together after one commit of as many of them as one entry holds. The store is one that no refusal ended
/// (condition).
///
/// It ends where the input does, or with a line that asks for a device for a missing slot, to which no reply is
/// written. `ReadFault` where the reader fails, where the input ends within a line, the blocks after it or lines that
/// go together, and after a line that is none of the grammar or whose count lies outside its limits, which is answered
/// `BadLine` or `BadCount`; what was read whole before is then done and answered. `WriteFault` where the writer fails.
/// `TwoLost` and `Worn` end the store, and are written before they are returned. `Memory` where there is none for a
/// batch and the blocks of a request, 2 MiB; then nothing is read. The writer is not flushed.
pub fn serve_requests<R: BufRead, W: Write, B: Bank>(
    alloc: Global,
    reader: &mut R,
    writer: &mut W,
    store: &mut Store<B>,
) -> Result<Ending, Refusal>
    requires going { store.old.ended ≡ None }
    ensures honest { IsHonest store.old.array ↔ IsHonest store.new.array }
    ensures serves { (first : B) → (B.honest first → IsHonest store.old.array)
        → HasServed (B.honest first) (store_view store.old) (store_view store.new)
        (streams (R.remaining reader.old) (W.contents writer.old))
        (streams (R.remaining reader.new) (W.contents writer.new)) result }
{
    let mut held = Waiting::new(&store.array.table.geometry, alloc)?;
    let mut line = Vec::with_capacity(alloc, LONGEST_LINE + 1)?;
    let mut blocks = vec![in alloc; [0; 512]; MOST_WRITTEN_AT_ONCE]?;
    let ended = serve_lines(
        alloc,
        reader,
        writer,
        store,
        &mut held,
        &mut line,
        blocks.as_mut_slice(),
    );
    tell_bad_request(writer, ended)
}

// Writes the refusal of a line that ended the server.
fn tell_bad_request<W: Write>(
    writer: &mut W,
    ended: Result<Ending, Refusal>,
) -> Result<Ending, Refusal>
    ensures told { (refusal : Refusal) → ended ≡ Err refusal → IsBadRefusal refusal
        → TellsBadRequest (W.contents writer.old) (W.contents writer.new) refusal result }
    ensures same { IfErr ended (λ refusal. ¬ IsBadRefusal refusal → (result ≡ ended) × (writer.new ≡ writer.old)) }
    ensures ended { OnOk ended ((result ≡ ended) × (writer.new ≡ writer.old)) }
{
    let Err(refusal) = ended else {
        return ended;
    };
    if !is_bad_request(refusal) {
        return ended;
    }
    write_reply(writer, &Answer::Refused(refusal))?;
    Err(Refusal::ReadFault)
}

// Whether a refusal is that of a line that ends the server.
fn is_bad_request(refusal: Refusal) -> bool
    ensures { IsTrue result ↔ IsBadRefusal refusal }
{
    refusal == Refusal::BadLine || refusal == Refusal::BadCount
}

// Serves line by line.
fn serve_lines<R: BufRead, W: Write, B: Bank>(
    alloc: Global,
    reader: &mut R,
    writer: &mut W,
    store: &mut Store<B>,
    held: &mut Waiting,
    line: &mut Vec<u8>,
    blocks: &mut [Sector],
) -> Result<Ending, Refusal>
    requires going { store.old.ended ≡ None }
    requires of_set { held.old.batch.geometry ≡ store.old.array.table.geometry }
    requires waits { waiting held.old.batch ≡ [] }
    requires replies { held.old.replies.items ≡ [] }
    requires capacity { LONGEST_LINE + 1 ≤ vec_capacity line.old }
    requires buffer { length blocks.old ≡ MOST_WRITTEN_AT_ONCE }
    ensures honest { IsHonest store.old.array ↔ IsHonest store.new.array }
    ensures serves { (first : B) (start : StoreView) (was : Streams) → (B.honest first → IsHonest store.old.array)
        → NoneWaits (B.honest first) start was [] 0 [] (store_view store.old)
        (streams (R.remaining reader.old) (W.contents writer.old)) (report_of held.old.scrubbed)
        → ServesLines (B.honest first) start was result (store_view store.new)
        (streams (R.remaining reader.new) (W.contents writer.new)) }
{
    for _ in 0..u64::MAX {
        match read_line(reader, line)? {
            LineRead::Nothing => return Ok(Ending::Input),
            LineRead::Unended => return Err(Refusal::ReadFault),
            LineRead::Whole => {}
        }
        if let Some(ending) = serve_line(alloc, reader, writer, store, held, line, blocks)? {
            return Ok(ending);
        }
    }
    // Each line has a byte at least, so the input has more than 2^63 bytes.
    Err(Refusal::ReadFault)
}

// Serves a line that was read whole, and for `together` those that it announces.
fn serve_line<R: BufRead, W: Write, B: Bank>(
    alloc: Global,
    reader: &mut R,
    writer: &mut W,
    store: &mut Store<B>,
    held: &mut Waiting,
    line: &mut Vec<u8>,
    blocks: &mut [Sector],
) -> Result<Option<Ending>, Refusal>
    requires going { store.old.ended ≡ None }
    requires of_set { held.old.batch.geometry ≡ store.old.array.table.geometry }
    requires waits { waiting held.old.batch ≡ [] }
    requires replies { held.old.replies.items ≡ [] }
    requires capacity { LONGEST_LINE + 1 ≤ vec_capacity line.old }
    requires buffer { length blocks.old ≡ MOST_WRITTEN_AT_ONCE }
    ensures honest { IsHonest store.old.array ↔ IsHonest store.new.array }
    ensures serves { (first : B) (start : StoreView) (was : Streams) (bytes : List ℕ)
        → (B.honest first → IsHonest store.old.array) → All (λ byte. byte ≢ 10) bytes
        → line.old.items ≡ take (LONGEST_LINE + 1) bytes
        → NoneWaits (B.honest first) start was [] 0 (bytes ++ 10 ∷ []) (store_view store.old)
        (streams (R.remaining reader.old) (W.contents writer.old)) (report_of held.old.scrubbed)
        → ServesLine (B.honest first) start was result (store_view store.new)
        (streams (R.remaining reader.new) (W.contents writer.new))
        (report_of held.new.scrubbed) }
    ensures of_set { held.new.batch.geometry ≡ store.new.array.table.geometry }
    ensures buffer { length blocks.new ≡ length blocks.old }
    ensures going { OnOk result (store.new.ended ≡ None) }
    ensures waits { OnOk result (waiting held.new.batch ≡ []) }
    ensures replies { OnOk result (held.new.replies.items ≡ []) }
    ensures capacity { LONGEST_LINE + 1 ≤ vec_capacity line.new }
{
    let request = request_in(line)?;
    match kind_of(store, &request) {
        Kind::Together(count) => {
            serve_together(reader, writer, store, held, line, blocks, count)?;
            Ok(None)
        }
        Kind::Write(stretch) => {
            serve_write(reader, writer, store, held, &stretch, blocks)?;
            Ok(None)
        }
        Kind::Scrub(rows) => {
            scrub_on(writer, store, held, rows)?;
            Ok(None)
        }
        Kind::Ends(slot) => Ok(Some(Ending::Replace(slot))),
        Kind::Answered => {
            answer_request(alloc, writer, store, &request, blocks)?;
            Ok(None)
        }
    }
}

// Scrubs so many rows more.
fn scrub_on<W: Write, B: Bank>(
    writer: &mut W,
    store: &mut Store<B>,
    held: &mut Waiting,
    rows: u32,
) -> Result<(), Refusal>
    requires going { store.old.ended ≡ None }
    ensures honest { IsHonest store.old.array ↔ IsHonest store.new.array }
    ensures answers { (first : B) (start : StoreView) (was : Streams) (line : Line) (remaining : Option (List ℕ))
        → (B.honest first → IsHonest store.old.array) → IsRequest line (ScrubRows rows)
        → NoneWaits (B.honest first) start was [] 0 (spelled line) (store_view store.old)
        (streams remaining (W.contents writer.old)) (report_of held.old.scrubbed)
        → Commits (B.honest first) start was [] 0 [] result (store_view store.new)
        (streams remaining (W.contents writer.new)) (report_of held.new.scrubbed) }
    ensures batch { held.new.batch ≡ held.old.batch }
    ensures replies { held.new.replies ≡ held.old.replies }
    ensures of_set { store.new.array.table.geometry ≡ store.old.array.table.geometry }
    ensures going { OnOk result (store.new.ended ≡ None) }
{
    let before = going_on(store.array.table.geometry.rows(), &held.scrubbed);
    match store.scrub_rows(before.rows, u64::from(rows)) {
        Ok(part) => {
            held.scrubbed = joined(&before, &part);
            write_scrubbed(writer, &held.scrubbed)
        }
        Err(refusal) => {
            write_reply(writer, &Answer::Refused(refusal))?;
            ending_of(refusal)
        }
    }
}

// From where a scrub goes on: from the beginning again, where all rows were looked at.
fn going_on(rows: u64, so_far: &ScrubReport) -> ScrubReport
    ensures { report_of result ≡ going_on rows (report_of so_far.now) }
{
    if so_far.rows == rows {
        NONE_SCRUBBED
    } else {
        *so_far
    }
}

// What was found until then, with a part more.
fn joined(before: &ScrubReport, part: &ScrubReport) -> ScrubReport
    ensures { report_of result ≡ joined (report_of before.now) (report_of part.now) }
{
    ScrubReport {
        rows: before.rows.saturating_add(part.rows),
        bad: before.bad.saturating_add(part.bad),
        first_bad: before.first_bad.or(part.first_bad),
    }
}

// The refusal where it is one that ended the store.
fn ending_of(refusal: Refusal) -> Result<(), Refusal>
    ensures going { OnOk result (¬ EndsIt refusal) }
    ensures ended { IfErr result (λ other. (other ≡ refusal) × EndsIt refusal) }
{
    match refusal {
        Refusal::TwoLost | Refusal::Worn => Err(refusal),
        _ => Ok(()),
    }
}

// Answers a request that is no write.
fn answer_request<W: Write, B: Bank>(
    alloc: Global,
    writer: &mut W,
    store: &mut Store<B>,
    request: &Request<'_>,
    blocks: &mut [Sector],
) -> Result<(), Refusal>
    requires going { store.old.ended ≡ None }
    requires answered { IsAnswered (store_view store.old) (demand_of request.now) }
    requires buffer { length blocks.old ≡ MOST_WRITTEN_AT_ONCE }
    ensures honest { IsHonest store.old.array ↔ IsHonest store.new.array }
    ensures answers { (first : B) (start : StoreView) (was : Streams) (line : Line) (remaining : Option (List ℕ))
        (so_far : Report)
        → (B.honest first → IsHonest store.old.array) → IsRequest line (demand_of request.now)
        → NoneWaits (B.honest first) start was [] 0 (spelled line) (store_view store.old)
        (streams remaining (W.contents writer.old)) so_far
        → Commits (B.honest first) start was [] 0 [] result (store_view store.new)
        (streams remaining (W.contents writer.new))
        so_far }
    ensures of_set { store.new.array.table.geometry ≡ store.old.array.table.geometry }
    ensures buffer { length blocks.new ≡ length blocks.old }
    ensures going { OnOk result (store.new.ended ≡ None) }
{
    let outcome = answer(store, alloc, request, blocks);
    write_told(writer, &outcome, blocks)?;
    ended_by(&outcome)
}

// Serves a write that goes alone.
fn serve_write<R: BufRead, W: Write, B: Bank>(
    reader: &mut R,
    writer: &mut W,
    store: &mut Store<B>,
    held: &mut Waiting,
    stretch: &Stretch<'_>,
    blocks: &mut [Sector],
) -> Result<(), Refusal>
    requires going { store.old.ended ≡ None }
    requires of_set { held.old.batch.geometry ≡ store.old.array.table.geometry }
    requires waits { waiting held.old.batch ≡ [] }
    requires replies { held.old.replies.items ≡ [] }
    requires least { 1 ≤ stretch.now.count }
    requires most { stretch.now.count ≤ MOST_WRITTEN_AT_ONCE }
    requires buffer { length blocks.old ≡ MOST_WRITTEN_AT_ONCE }
    ensures honest { IsHonest store.old.array ↔ IsHonest store.new.array }
    ensures serves { (first : B) (start : StoreView) (was : Streams) (bytes : List ℕ)
        → (B.honest first → IsHonest store.old.array) → All (λ byte. byte ≢ 10) bytes → length bytes ≤ LONGEST_LINE
        → Demands bytes (WriteBlocks stretch.now.name.now stretch.now.at stretch.now.count)
        → NoneWaits (B.honest first) start was [] 0 (bytes ++ 10 ∷ []) (store_view store.old)
        (streams (R.remaining reader.old) (W.contents writer.old)) (report_of held.old.scrubbed)
        → Commits (B.honest first) start was [] 0 [] result (store_view store.new)
        (streams (R.remaining reader.new) (W.contents writer.new))
        (report_of held.new.scrubbed) }
    ensures of_set { held.new.batch.geometry ≡ store.new.array.table.geometry }
    ensures buffer { length blocks.new ≡ length blocks.old }
    ensures going { OnOk result (store.new.ended ≡ None) }
    ensures waits { OnOk result (waiting held.new.batch ≡ []) }
    ensures replies { OnOk result (held.new.replies.items ≡ []) }
{
    let blocks = &mut blocks[..stretch.count as usize];
    if !read_blocks(reader, blocks)? {
        return Err(Refusal::ReadFault);
    }
    take_write(store, held, writer, stretch, blocks)?;
    commit_waiting(store, held, writer)
}

// Serves so many writes that go together. Where they stop, what was read whole is committed and answered.
fn serve_together<R: BufRead, W: Write, B: Bank>(
    reader: &mut R,
    writer: &mut W,
    store: &mut Store<B>,
    held: &mut Waiting,
    line: &mut Vec<u8>,
    blocks: &mut [Sector],
    count: u32,
) -> Result<(), Refusal>
    requires going { store.old.ended ≡ None }
    requires of_set { held.old.batch.geometry ≡ store.old.array.table.geometry }
    requires waits { waiting held.old.batch ≡ [] }
    requires replies { held.old.replies.items ≡ [] }
    requires capacity { LONGEST_LINE + 1 ≤ vec_capacity line.old }
    requires buffer { length blocks.old ≡ MOST_WRITTEN_AT_ONCE }
    requires least { 1 ≤ count }
    requires most { count ≤ MOST_LINES_TOGETHER }
    ensures honest { IsHonest store.old.array ↔ IsHonest store.new.array }
    ensures serves { (first : B) (start : StoreView) (was : Streams) (opening : Line)
        → (B.honest first → IsHonest store.old.array) → IsRequest opening (Together count)
        → NoneWaits (B.honest first) start was [] 0 (spelled opening) (store_view store.old)
        (streams (R.remaining reader.old) (W.contents writer.old)) (report_of held.old.scrubbed)
        → Commits (B.honest first) start was [] 0 [] result (store_view store.new)
        (streams (R.remaining reader.new) (W.contents writer.new))
        (report_of held.new.scrubbed) }
    ensures of_set { held.new.batch.geometry ≡ store.new.array.table.geometry }
    ensures buffer { length blocks.new ≡ length blocks.old }
    ensures going { OnOk result (store.new.ended ≡ None) }
    ensures waits { OnOk result (waiting held.new.batch ≡ []) }
    ensures replies { OnOk result (held.new.replies.items ≡ []) }
    ensures capacity { LONGEST_LINE + 1 ≤ vec_capacity line.new }
{
    let taken = take_writes(reader, writer, store, held, line, blocks, count);
    if is_for_good(&taken) {
        return taken;
    }
    commit_waiting(store, held, writer)?;
    taken
}

// Whether serving stopped for good: the store was ended, or the writer failed.
fn is_for_good(taken: &Result<(), Refusal>) -> bool
    ensures good { IsTrue result → IfErr taken.now IsForGood × IsErr taken.now }
    ensures not { result ≡ false → IfErr taken.now (λ refusal. ¬ IsForGood refusal) }
{
    match taken {
        Err(Refusal::TwoLost | Refusal::Worn | Refusal::WriteFault) => true,
        _ => false,
    }
}

// Takes so many writes.
fn take_writes<R: BufRead, W: Write, B: Bank>(
    reader: &mut R,
    writer: &mut W,
    store: &mut Store<B>,
    held: &mut Waiting,
    line: &mut Vec<u8>,
    blocks: &mut [Sector],
    count: u32,
) -> Result<(), Refusal>
    requires going { store.old.ended ≡ None }
    requires of_set { held.old.batch.geometry ≡ store.old.array.table.geometry }
    requires holds { Waits (store_view store.old) (waiting held.old.batch) }
    requires capacity { LONGEST_LINE + 1 ≤ vec_capacity line.old }
    requires buffer { length blocks.old ≡ MOST_WRITTEN_AT_ONCE }
    requires room { array_vec_len held.old.replies + count ≤ MOST_LINES_TOGETHER }
    ensures honest { IsHonest store.old.array ↔ IsHonest store.new.array }
    ensures comes { (first : B) (start : StoreView) (was : Streams) → (B.honest first → IsHonest store.old.array)
        → HasCome (B.honest first) start was [] count [] (state_of (store_view store.old)
        (streams (R.remaining reader.old) (W.contents writer.old)) (waiting held.old.batch)
        (replies_of held.old.replies.items)
        (report_of held.old.scrubbed))
        → Comes (B.honest first) start was [] 0 [] result (state_of (store_view store.new)
        (streams (R.remaining reader.new) (W.contents writer.new)) (waiting held.new.batch)
        (replies_of held.new.replies.items)
        (report_of held.new.scrubbed)) }
    ensures holds { Waits (store_view store.new) (waiting held.new.batch) }
    ensures scrubbed { held.new.scrubbed ≡ held.old.scrubbed }
    ensures of_set { held.new.batch.geometry ≡ store.new.array.table.geometry }
    ensures buffer { length blocks.new ≡ length blocks.old }
    ensures going { OnOk result (store.new.ended ≡ None) }
    ensures capacity { LONGEST_LINE + 1 ≤ vec_capacity line.new }
    ensures still { IfErr result (λ refusal. ¬ IsForGood refusal → store.new.ended ≡ None) }
{
    for _ in 0..count {
        take_next(reader, writer, store, held, line, blocks)?;
    }
    Ok(())
}

// Takes the write that comes next.
fn take_next<R: BufRead, W: Write, B: Bank>(
    reader: &mut R,
    writer: &mut W,
    store: &mut Store<B>,
    held: &mut Waiting,
    line: &mut Vec<u8>,
    blocks: &mut [Sector],
) -> Result<(), Refusal>
    requires going { store.old.ended ≡ None }
    requires of_set { held.old.batch.geometry ≡ store.old.array.table.geometry }
    requires holds { Waits (store_view store.old) (waiting held.old.batch) }
    requires capacity { LONGEST_LINE + 1 ≤ vec_capacity line.old }
    requires buffer { length blocks.old ≡ MOST_WRITTEN_AT_ONCE }
    requires room { array_vec_len held.old.replies < MOST_LINES_TOGETHER }
    ensures honest { IsHonest store.old.array ↔ IsHonest store.new.array }
    ensures comes { (first : B) (start : StoreView) (was : Streams) (left : ℕ)
        → (B.honest first → IsHonest store.old.array)
        → HasCome (B.honest first) start was [] (left + 1) [] (state_of (store_view store.old)
        (streams (R.remaining reader.old) (W.contents writer.old)) (waiting held.old.batch)
        (replies_of held.old.replies.items)
        (report_of held.old.scrubbed))
        → Comes (B.honest first) start was [] left [] result (state_of (store_view store.new)
        (streams (R.remaining reader.new) (W.contents writer.new)) (waiting held.new.batch)
        (replies_of held.new.replies.items)
        (report_of held.new.scrubbed)) }
    ensures holds { Waits (store_view store.new) (waiting held.new.batch) }
    ensures scrubbed { held.new.scrubbed ≡ held.old.scrubbed }
    ensures of_set { held.new.batch.geometry ≡ store.new.array.table.geometry }
    ensures buffer { length blocks.new ≡ length blocks.old }
    ensures going { OnOk result (store.new.ended ≡ None) }
    ensures capacity { LONGEST_LINE + 1 ≤ vec_capacity line.new }
    ensures still { IfErr result (λ refusal. ¬ IsForGood refusal → store.new.ended ≡ None) }
    ensures room { array_vec_len held.new.replies ≤ array_vec_len held.old.replies + 1 }
{
    match read_line(reader, line)? {
        LineRead::Whole => {}
        LineRead::Unended => return Err(Refusal::ReadFault),
        LineRead::Nothing => return Err(Refusal::ReadFault),
    }
    let stretch = write_in(line)?;
    let blocks = &mut blocks[..stretch.count as usize];
    if !read_blocks(reader, blocks)? {
        return Err(Refusal::ReadFault);
    }
    take_write(store, held, writer, &stretch, blocks)
}

// The request that a line is. `BadLine` where it is none, `BadCount` where its count lies outside its limits.
fn request_in(line: &[u8]) -> Result<Request<'_>, Refusal>
    ensures said { IfOk result (λ request. (length line.now ≤ LONGEST_LINE) × Demands line.now (demand_of request)
        × ¬ HasBadCount (demand_of request)) }
    ensures refused { IfErr result (λ refusal. (left : ℕ) → IsBadRequest left line.now refusal) }
{
    if line.len() > LONGEST_LINE {
        return Err(Refusal::BadLine);
    }
    let request = parse_request(line).ok_or(Refusal::BadLine)?;
    if has_bad_count(&request) {
        return Err(Refusal::BadCount);
    }
    Ok(request)
}

// The write that a line is. `BadLine` where it is none, `BadCount` where its count lies outside its limits.
fn write_in(line: &[u8]) -> Result<Stretch<'_>, Refusal>
    ensures said { IfOk result (λ stretch. (length line.now ≤ LONGEST_LINE)
        × Demands line.now (WriteBlocks stretch.name.now stretch.at stretch.count)
        × (1 ≤ stretch.count) × (stretch.count ≤ MOST_WRITTEN_AT_ONCE)) }
    ensures refused { IfErr result (λ refusal. (left : ℕ) → 1 ≤ left → IsBadRequest left line.now refusal) }
{
    match request_in(line)? {
        Request::Write(stretch) => Ok(stretch),
        _ => Err(Refusal::BadLine),
    }
}

// Whether the count of a request lies outside its limits.
fn has_bad_count(request: &Request<'_>) -> bool
    ensures { IsTrue result ↔ HasBadCount (demand_of request.now) }
{
    match request {
        Request::Read(stretch) | Request::Write(stretch) => {
            is_outside(stretch.count, MOST_WRITTEN_AT_ONCE)
        }
        Request::Zero(stretch) => is_outside(stretch.count, MOST_ZEROED_AT_ONCE as usize),
        Request::Together(count) => is_outside(*count, MOST_LINES_TOGETHER),
        _ => false,
    }
}

fn is_outside(count: u32, most: usize) -> bool
    ensures { IsTrue result ↔ IsOutside most count }
{
    count == 0 || count as usize > most
}
