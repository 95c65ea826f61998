//! Writes that wait to be committed together, and the replies that wait for that.
ghost use Rattle.std.specs.Prelude.{All, ◌≡◌, ◌<◌, ◌≤◌, ◌+◌, ◌↔◌, ℕ, [], ◌∷◌, ◌++◌, IfErr, IfOk, List, OnOk, Option, length};
ghost use Rattle.arrayvec.specs.ArrayVec.{array_vec_len};
ghost use Rattle.sector_model.specs.declared.refusal.Refusal.{Refusal};
ghost use Rattle.array_io.specs.Believed.OpenArray.{IsHonest};
ghost use Rattle.batch.specs.Batches.{waiting};
ghost use Rattle.report.specs.Written.{WritesText, reply_of};
ghost use Rattle.requests.specs.Demands.{WriteBlocks};
ghost use Rattle.scrub.specs.Scrubbing.{Report};
ghost use Rattle.scrub.specs.Reports.{report_of};
ghost use Rattle.set_commands.specs.Run.{Streams, streams};
ghost use Rattle.volume_table.specs.Admission.{HasBlocksAt, IsWithinVolume};
ghost use Rattle.volume_table.specs.OpenStore.{store_view};
ghost use Rattle.volume_table.specs.Stands.{StoreView};
ghost use Rattle.volume_table.specs.VolumeStep.{Command, Write};
ghost use Rattle.volume_table.specs.Volumes.{IsBlock};
ghost use Rattle.server.specs.Ends.{Comes, CommitsNow, HasCome, IsForGood, StagesParts, Waits, replies_of, reply_of_write};
ghost use Rattle.server.specs.Ends.{reply_text_to_write, state_of};
ghost use Rattle.std.specs.List.{flat_map};
ghost use Rattle.server.specs.Scrubs.{none_scrubbed};
ghost use Rattle.server.specs.Serving.{IsRequest, Line, spelled, texts_of};
ghost use Rattle.server.specs.declared.counts.TheConstants.{MOST_LINES_TOGETHER, MOST_WRITTEN_AT_ONCE};

use crate::counts::MOST_LINES_TOGETHER;
use arrayvec::ArrayVec;
use batch::Batch;
use layout_map::Geometry;
use report::replies::{Answer, write_reply};
use requests::Stretch;
use scrub::ScrubReport;
use sector_model::{Bank, Refusal, Sector};
use std::alloc::Global;
use std::io::Write;
use volume_table::{MOST_BLOCKS_AT_ONCE, Store};

/// What a server holds between requests: writes that wait to be committed together, the replies to their lines, which
/// wait for that, and how far a scrub is.
#[derive(Drop)]
pub(crate) struct Waiting {
    batch: Batch,
    // A reply for each line that was read whole since the last commit: what it was refused with, if it was.
    replies: ArrayVec<Option<Refusal>, MOST_LINES_TOGETHER>,
    /// What a scrub in parts found so far.
    pub(crate) scrubbed: ScrubReport,
}

/// Before the first part of a scrub.
pub(crate) const NONE_SCRUBBED: ScrubReport = ScrubReport {
    rows: 0,
    bad: 0,
    first_bad: None,
};

impl Waiting {
    // Nothing waits. `Memory` where there is none for a batch.
    pub(crate) fn new(geometry: &Geometry, alloc: Global) -> Result<Waiting, Refusal>
        ensures batch { IfOk result (λ it. waiting it.batch ≡ []) }
        ensures replies { IfOk result (λ it. it.replies.items ≡ []) }
        ensures scrubbed { IfOk result (λ it. report_of it.scrubbed ≡ none_scrubbed) }
        ensures geometry { IfOk result (λ it. it.batch.geometry ≡ geometry.now) }
        ensures err { IfErr result (λ refusal. refusal ≡ Refusal.Memory) }
    {
        let batch = Batch::new(geometry, alloc)?;
        Ok(Waiting {
            batch,
            replies: ArrayVec::new(),
            scrubbed: NONE_SCRUBBED,
        })
    }
}

/// Commits what waits, as one, and then writes the replies that waited for it. Where the commit ends the store, its
/// refusal is written once. The store is going, and the batch is of its set (conditions).
pub(crate) fn commit_waiting<W: Write, B: Bank>(
    store: &mut Store<B>,
    held: &mut Waiting,
    writer: &mut W,
) -> Result<(), Refusal>
    requires going { store.old.ended ≡ None }
    requires of_set { held.old.batch.geometry ≡ store.old.array.table.geometry }
    requires holds { Waits (store_view store.old) (waiting held.old.batch) }
    ensures honest { IsHonest store.old.array ↔ IsHonest store.new.array }
    ensures comes { (first : B) (start : StoreView) (was : Streams) (parts : List Command) (left : ℕ)
        (ahead : List ℕ) (remaining : Option (List ℕ)) → (B.honest first → IsHonest store.old.array)
        → HasCome (B.honest first) start was parts left ahead (state_of (store_view store.old)
        (streams remaining (W.contents writer.old)) (waiting held.old.batch) (replies_of held.old.replies.items)
        (report_of held.old.scrubbed))
        → CommitsNow (B.honest first) start was parts left ahead result (store_view store.new)
        (streams remaining (W.contents writer.new))
        (report_of held.new.scrubbed) }
    ensures empty { waiting held.new.batch ≡ [] }
    ensures replied { OnOk result (held.new.replies.items ≡ []) }
    ensures room { array_vec_len held.new.replies ≤ array_vec_len held.old.replies }
    ensures table { store.new.table ≡ store.old.table }
    ensures scrubbed { held.new.scrubbed ≡ held.old.scrubbed }
    ensures geometry { held.new.batch.geometry ≡ held.old.batch.geometry }
    ensures of_set { store.new.array.table.geometry ≡ store.old.array.table.geometry }
    ensures going { OnOk result (store.new.ended ≡ None) }
    ensures good { IfErr result IsForGood }
{
    if let Err(refusal) = store.commit_staged(&mut held.batch) {
        write_reply(writer, &Answer::Refused(refusal))?;
        return Err(refusal);
    }
    write_replies(writer, held.replies.as_slice())?;
    held.replies.clear();
    Ok(())
}

// Writes replies to writes.
fn write_replies<W: Write>(writer: &mut W, replies: &[Option<Refusal>]) -> Result<(), Refusal>
    ensures { WritesText (W.contents writer.old) (W.contents writer.new) (flat_map reply_text_to_write replies.now)
        result }
{
    for reply in replies {
        write_reply(writer, &answer_to(*reply))?;
    }
    Ok(())
}

// The reply to a write: what it was refused with, if it was.
fn answer_to<'a>(refused: Option<Refusal>) -> Answer<'a>
    ensures { reply_of result ≡ reply_of_write refused }
{
    match refused {
        None => Answer::Done,
        Some(refusal) => Answer::Refused(refusal),
    }
}

/// Takes a write whose line and blocks were read whole: its parts wait, or it is refused. What waits is committed where
/// a part doesn't fit. Its reply waits for the commit.
pub(crate) fn take_write<W: Write, B: Bank>(
    store: &mut Store<B>,
    held: &mut Waiting,
    writer: &mut W,
    stretch: &Stretch<'_>,
    blocks: &[Sector],
) -> Result<(), Refusal>
    requires going { store.old.ended ≡ None }
    requires of_set { held.old.batch.geometry ≡ store.old.array.table.geometry }
    requires holds { Waits (store_view store.old) (waiting held.old.batch) }
    requires least { 1 ≤ stretch.now.count }
    requires most { stretch.now.count ≤ MOST_WRITTEN_AT_ONCE }
    requires as_many { length blocks.now ≡ stretch.now.count }
    requires room { array_vec_len held.old.replies < MOST_LINES_TOGETHER }
    ensures honest { IsHonest store.old.array ↔ IsHonest store.new.array }
    ensures comes { (first : B) (start : StoreView) (was : Streams) (left : ℕ)
        (line : Line) (remaining : Option (List ℕ)) → (B.honest first → IsHonest store.old.array)
        → (All IsBlock blocks.now
        → IsRequest line (WriteBlocks stretch.now.name.now stretch.now.at stretch.now.count))
        → line.blocks ≡ blocks.now
        → HasCome (B.honest first) start was [] (left + 1) (spelled line) (state_of (store_view store.old)
        (streams remaining (W.contents writer.old)) (waiting held.old.batch) (replies_of held.old.replies.items)
        (report_of held.old.scrubbed))
        → Comes (B.honest first) start was [] left [] result (state_of (store_view store.new)
        (streams remaining (W.contents writer.new)) (waiting held.new.batch) (replies_of held.new.replies.items)
        (report_of held.new.scrubbed)) }
    ensures holds { Waits (store_view store.new) (waiting held.new.batch) }
    ensures table { store.new.table ≡ store.old.table }
    ensures scrubbed { held.new.scrubbed ≡ held.old.scrubbed }
    ensures geometry { held.new.batch.geometry ≡ held.old.batch.geometry }
    ensures of_set { store.new.array.table.geometry ≡ store.old.array.table.geometry }
    ensures going { OnOk result (store.new.ended ≡ None) }
    ensures good { IfErr result IsForGood }
    ensures room { array_vec_len held.new.replies ≤ array_vec_len held.old.replies + 1 }
{
    match store.admit(stretch.name, stretch.at, stretch.count) {
        Ok(volume) => {
            stage_parts(store, held, writer, volume, stretch.at, blocks)?;
            held.replies.push(None);
            Ok(())
        }
        Err(refusal) => {
            held.replies.push(Some(refusal));
            Ok(())
        }
    }
}

// Has all parts of an admitted write wait, up to 32 blocks each.
fn stage_parts<W: Write, B: Bank>(
    store: &mut Store<B>,
    held: &mut Waiting,
    writer: &mut W,
    volume: u8,
    at: u32,
    blocks: &[Sector],
) -> Result<(), Refusal>
    requires going { store.old.ended ≡ None }
    requires of_set { held.old.batch.geometry ≡ store.old.array.table.geometry }
    requires holds { Waits (store_view store.old) (waiting held.old.batch) }
    requires most { length blocks.now ≤ MOST_WRITTEN_AT_ONCE }
    requires has { (name : List ℕ) × ∥ HasBlocksAt store.old.table.records name volume at (length blocks.now) ∥₁ }
    ensures honest { IsHonest store.old.array ↔ IsHonest store.new.array }
    ensures comes { (first : B) (start : StoreView) (was : Streams) (left : ℕ) (ahead : List ℕ)
        (remaining : Option (List ℕ)) (name : List ℕ) → (B.honest first → IsHonest store.old.array)
        → ∥ HasBlocksAt store.old.table.records name volume at (length blocks.now) ∥₁
        → HasCome (B.honest first) start was [] left ahead (state_of (store_view store.old)
        (streams remaining (W.contents writer.old)) (waiting held.old.batch) (replies_of held.old.replies.items)
        (report_of held.old.scrubbed))
        → StagesParts (B.honest first) start was left ahead name at blocks.now result (state_of (store_view store.new)
        (streams remaining (W.contents writer.new)) (waiting held.new.batch) (replies_of held.new.replies.items)
        (report_of held.new.scrubbed)) }
    ensures holds { Waits (store_view store.new) (waiting held.new.batch) }
    ensures table { store.new.table ≡ store.old.table }
    ensures scrubbed { held.new.scrubbed ≡ held.old.scrubbed }
    ensures geometry { held.new.batch.geometry ≡ held.old.batch.geometry }
    ensures of_set { store.new.array.table.geometry ≡ store.old.array.table.geometry }
    ensures going { OnOk result (store.new.ended ≡ None) }
    ensures good { IfErr result IsForGood }
    ensures room { array_vec_len held.new.replies ≤ array_vec_len held.old.replies }
{
    let mut staged = 0;
    while staged < blocks.len() {
        let part = &blocks[staged..(staged + MOST_BLOCKS_AT_ONCE).min(blocks.len())];
        stage_one(store, held, writer, volume, at + staged as u32, part)?;
        staged += part.len();
    }
    Ok(())
}

// Has a part of an admitted write wait. Where it doesn't fit, what waits is committed first; alone it always fits.
fn stage_one<W: Write, B: Bank>(
    store: &mut Store<B>,
    held: &mut Waiting,
    writer: &mut W,
    volume: u8,
    at: u32,
    part: &[Sector],
) -> Result<(), Refusal>
    requires going { store.old.ended ≡ None }
    requires of_set { held.old.batch.geometry ≡ store.old.array.table.geometry }
    requires holds { Waits (store_view store.old) (waiting held.old.batch) }
    requires within { (name : List ℕ) × ∥ IsWithinVolume store.old.table.records name volume at (length part.now) ∥₁ }
    ensures honest { IsHonest store.old.array ↔ IsHonest store.new.array }
    ensures comes { (first : B) (start : StoreView) (was : Streams) (parts : List Command) (left : ℕ) (ahead : List ℕ)
        (remaining : Option (List ℕ)) (name : List ℕ) → (B.honest first → IsHonest store.old.array)
        → ∥ IsWithinVolume store.old.table.records name volume at (length part.now) ∥₁
        → HasCome (B.honest first) start was parts left ahead (state_of (store_view store.old)
        (streams remaining (W.contents writer.old)) (waiting held.old.batch) (replies_of held.old.replies.items)
        (report_of held.old.scrubbed))
        → Comes (B.honest first) start was (parts ++ Write name at part.now ∷ []) left ahead result
        (state_of (store_view store.new) (streams remaining (W.contents writer.new)) (waiting held.new.batch)
        (replies_of held.new.replies.items)
        (report_of held.new.scrubbed)) }
    ensures holds { Waits (store_view store.new) (waiting held.new.batch) }
    ensures table { store.new.table ≡ store.old.table }
    ensures scrubbed { held.new.scrubbed ≡ held.old.scrubbed }
    ensures geometry { held.new.batch.geometry ≡ held.old.batch.geometry }
    ensures of_set { store.new.array.table.geometry ≡ store.old.array.table.geometry }
    ensures going { OnOk result (store.new.ended ≡ None) }
    ensures good { IfErr result IsForGood }
    ensures room { array_vec_len held.new.replies ≤ array_vec_len held.old.replies }
{
    if store.stage_part(&mut held.batch, volume, at, part) {
        return Ok(());
    }
    commit_waiting(store, held, writer)?;
    let _ = store.stage_part(&mut held.batch, volume, at, part);
    Ok(())
}
