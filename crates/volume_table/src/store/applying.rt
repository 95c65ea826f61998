//! An event is done by its call.
ghost use Rattle.std.specs.Prelude.{◌≡◌, ◌↔◌};
ghost use Rattle.array_io.specs.Believed.OpenArray.{IsHonest};
ghost use Rattle.rebuild.specs.Stepping.{answer_by};
ghost use Rattle.scrub.specs.Reports.{told_by};
ghost use Rattle.volume_table.specs.Events.{event_of, reply_of};
ghost use Rattle.volume_table.specs.StoreCalls.{Applies};
ghost use Rattle.volume_table.specs.StoreFunctions.{done_reply, listed_of, listed_reply, progress_reply, scrub_reply};
ghost use Rattle.volume_table.specs.VolumeStep.{OnVolumes, Read};
ghost use Rattle.volume_table.specs.OpenStore.{store_view};

use super::Store;
use crate::Listed;
use crate::event::{Event, MOST_BLOCKS_AT_ONCE, Reply};
use arrayvec::ArrayVec;
use rebuild::Progress;
use scrub::ScrubReport;
use sector_model::{Bank, Refusal};
use std::alloc::Global;

impl<B: Bank> Store<B> {
    /// Does what an event asks, by its call: `create`, `extend`, `remove`, `read`, `write`, `rename`, `list`,
    /// `upgrade`, `fail`, `replace`, `rebuild_step`, `scrub` or `scrub_rows`. The reply is what that call answers, and
    /// its refusals are those of the call: `Memory` for `List` alone. `TwoLost` and `Worn` end the store.
    pub fn apply(&mut self, alloc: Global, event: &Event<'_>) -> Reply
        ensures honest { IsHonest self.old.array ↔ IsHonest self.new.array }
        ensures applies { Applies (IsHonest self.old.array) (event_of event.now) (store_view self.old)
            (store_view self.new) (reply_of result) }
    {
        match *event {
            Event::Create { name, blocks } => reply_to(self.create(name, blocks)),
            Event::Extend { name, by } => reply_to(self.extend(name, by)),
            Event::Remove { name } => reply_to(self.remove(name)),
            Event::Read { name, at, count } => self.reply_to_read(name, at, count),
            Event::Write { name, at, blocks } => reply_to(self.write(name, at, blocks)),
            Event::Rename { old, new } => reply_to(self.rename(old, new)),
            Event::List => reply_to_list(self.list(alloc)),
            Event::Upgrade => reply_to(self.upgrade()),
            Event::Fail { slot } => reply_to(self.fail(slot)),
            Event::Replace { slot } => reply_to(self.replace(slot)),
            Event::RebuildStep { rows } => reply_to_step(self.rebuild_step(rows)),
            Event::Scrub => reply_to_scrub(self.scrub()),
            Event::ScrubRows { first, rows } => reply_to_scrub(self.scrub_rows(first, rows)),
        }
    }

    // The blocks of a read, or why it was refused. One of more than 32 blocks is refused as one of 33 is.
    fn reply_to_read(&mut self, name: &[u8], at: u32, count: u32) -> Reply
        ensures honest { IsHonest self.old.array ↔ IsHonest self.new.array }
        ensures applies { Applies (IsHonest self.old.array) (OnVolumes (Read name.now at count)) (store_view self.old)
            (store_view self.new) (reply_of result) }
    {
        if count as usize > MOST_BLOCKS_AT_ONCE {
            return reply_to(self.read(name, at, &mut [[0; 512]; MOST_BLOCKS_AT_ONCE + 1]));
        }
        let mut blocks = ArrayVec::from([[0; 512]; MOST_BLOCKS_AT_ONCE]);
        blocks.truncate(count as usize);
        match self.read(name, at, blocks.as_mut_slice()) {
            Ok(()) => Reply::Blocks(blocks),
            Err(refusal) => Reply::Refused(refusal),
        }
    }
}

// The reply to a call that answers nothing but that it was done.
fn reply_to(answer: Result<(), Refusal>) -> Reply
    ensures { reply_of result ≡ done_reply answer }
{
    match answer {
        Ok(()) => Reply::Done,
        Err(refusal) => Reply::Refused(refusal),
    }
}

// The reply to a call that answers a list of volumes.
fn reply_to_list(answer: Result<Vec<Listed>, Refusal>) -> Reply
    ensures { reply_of result ≡ listed_reply (listed_of answer) }
{
    match answer {
        Ok(volumes) => Reply::Volumes(volumes),
        Err(refusal) => Reply::Refused(refusal),
    }
}

// The reply to a step of a rebuild.
fn reply_to_step(answer: Result<Progress, Refusal>) -> Reply
    ensures { reply_of result ≡ progress_reply (answer_by answer) }
{
    match answer {
        Ok(progress) => Reply::Progress(progress),
        Err(refusal) => Reply::Refused(refusal),
    }
}

// The reply to a scrub.
fn reply_to_scrub(answer: Result<ScrubReport, Refusal>) -> Reply
    ensures { reply_of result ≡ scrub_reply (told_by answer) }
{
    match answer {
        Ok(report) => Reply::Scrubbed(report),
        Err(refusal) => Reply::Refused(refusal),
    }
}
