//! Requests are answered over a store: all but a write, and what is committed together.
ghost use Rattle.std.specs.Prelude.{◌≡◌, ◌≤◌, ◌↔◌, List, None, IfErr, OnOk, length};
ghost use Rattle.array_io.specs.Believed.OpenArray.{IsHonest};
ghost use Rattle.array_io.specs.Believed.Views.{EndsIt};
ghost use Rattle.volume_table.specs.OpenStore.{store_view};
ghost use Rattle.volume_table.specs.StoreFunctions.{done_reply};
ghost use Rattle.volume_table.specs.Volumes.{Block};
ghost use Rattle.requests.specs.Demands.{demand_of};
ghost use Rattle.server.specs.Answers.{EndsServing, IsAnswered, IsServed, TellsRefusal, done_told};
ghost use Rattle.server.specs.Outcomes.{told_in};
ghost use Rattle.server.specs.declared.counts.TheConstants.{MOST_WRITTEN_AT_ONCE};

mod of_set;
mod of_volumes;
mod reading;
#[cfg(test)]
mod tests;

use layout_map::Format;
pub(crate) use of_set::is_missing_slot;
use of_set::{answer_fail, answer_rebuild, answer_replace, answer_status};
use of_volumes::{
    answer_create, answer_extend, answer_list, answer_remove, answer_rename, answer_zero,
};
use reading::answer_read;
use rebuild::Progress;
use requests::Request;
use sector_model::{Bank, Refusal, Sector};
use std::alloc::Global;
use volume_table::{Listed, Store};

/// What a request came to. The blocks that were read are the first of the buffer.
#[derive(Drop)]
pub enum Outcome {
    /// It was done.
    Done,
    /// So many blocks were read.
    Read(usize),
    /// All volumes.
    Listed(Vec<Listed>),
    /// The status of the set: a JSON object in one line, without the line's end.
    Status(String),
    /// How far the rebuild of a member of so many rows is, in a set of this format.
    Progress(Progress, Format, u64),
    /// It was refused.
    Refused(Refusal),
}

/// Answers a request that is no write and no `together`, over a store. Blocks that are read become the first of the
/// buffer, which has 2,048 places.
///
/// The request is one that is answered here, its count lies in its limits, and a slot to be replaced is not a missing
/// one of the set (condition). Refused as the store's calls are, a replacement with `NotMissing`, and the status with
/// `Memory`. After a read that is refused the buffer may hold anything.
pub(crate) fn answer<B: Bank>(
    store: &mut Store<B>,
    alloc: Global,
    request: &Request<'_>,
    blocks: &mut [Sector],
) -> Outcome
    requires answered { IsAnswered (store_view store.old) (demand_of request.now) }
    requires room { MOST_WRITTEN_AT_ONCE ≤ length blocks.old }
    ensures honest { IsHonest store.old.array ↔ IsHonest store.new.array }
    ensures served { store.old.ended ≡ None → IsServed (IsHonest store.old.array) (demand_of request.now)
        (store_view store.old) (store_view store.new) (told_in result blocks.new) }
{
    match *request {
        Request::Read(stretch) => {
            answer_read(store, stretch.name, stretch.at, stretch.count, blocks)
        }
        Request::Zero(stretch) => answer_zero(store, stretch.name, stretch.at, stretch.count),
        Request::Create { name, blocks } => answer_create(store, name, blocks),
        Request::Extend { name, by } => answer_extend(store, name, by),
        Request::Remove { name } => answer_remove(store, name),
        Request::Rename { old, new } => answer_rename(store, old, new),
        Request::List => answer_list(store, alloc),
        Request::Status => answer_status(store, alloc),
        Request::Fail(slot) => answer_fail(store, slot),
        Request::Replace(slot) => answer_replace(store, slot),
        Request::Rebuild(steps) => answer_rebuild(store, steps),
        Request::Write(_) => unreachable!(),
        Request::Together(_) => unreachable!(),
        Request::Scrub(_) => unreachable!(),
    }
}

/// The refusal that ended the store, where a request came to one.
pub(crate) fn ended_by(outcome: &Outcome) -> Result<(), Refusal>
    ensures going { OnOk result ((buffer : List Block) → ¬ EndsServing (told_in outcome.now buffer)) }
    ensures ended { IfErr result (λ refusal. EndsIt refusal
        × ((buffer : List Block) → told_in outcome.now buffer ≡ TellsRefusal refusal)) }
{
    match outcome {
        Outcome::Refused(Refusal::TwoLost) => Err(Refusal::TwoLost),
        Outcome::Refused(Refusal::Worn) => Err(Refusal::Worn),
        _ => Ok(()),
    }
}

/// What a call is that answers nothing but that it was done.
pub(crate) fn outcome_of(answer: Result<(), Refusal>) -> Outcome
    ensures { (buffer : List Block) → told_in result buffer ≡ done_told answer }
{
    match answer {
        Ok(()) => Outcome::Done,
        Err(refusal) => Outcome::Refused(refusal),
    }
}
