//! What kind of request a line is, by how it is served.
ghost use Rattle.requests.specs.Demands.{ReplaceSlot, demand_of};
ghost use Rattle.volume_table.specs.OpenStore.{store_view};
ghost use Rattle.server.specs.Kinds.{IsOfKind};

use crate::answering::is_missing_slot;
use requests::{Request, Stretch};
use sector_model::Bank;
use volume_table::Store;

/// How a request is served.
#[derive(Clone, Copy)]
pub(crate) enum Kind<'a> {
    /// So many writes follow, which go together.
    Together(u32),
    /// Its blocks follow.
    Write(Stretch<'a>),
    /// So many rows more are scrubbed.
    Scrub(u32),
    /// It ends the server: a device is asked for, for this slot, which is missing.
    Ends(u8),
    /// It is answered by a call of the store.
    Answered,
}

/// The kind of a request, over a store.
pub(crate) fn kind_of<'a, B: Bank>(store: &Store<B>, request: &Request<'a>) -> Kind<'a>
    ensures { IsOfKind (store_view store.now) (demand_of request.now) result }
{
    match *request {
        Request::Together(count) => Kind::Together(count),
        Request::Write(stretch) => Kind::Write(stretch),
        Request::Scrub(rows) => Kind::Scrub(rows),
        Request::Replace(slot) => replace_kind(store, slot),
        Request::Read(_) => Kind::Answered,
        Request::Zero(_) => Kind::Answered,
        Request::Create { .. } => Kind::Answered,
        Request::Extend { .. } => Kind::Answered,
        Request::Remove { .. } => Kind::Answered,
        Request::Rename { .. } => Kind::Answered,
        Request::List => Kind::Answered,
        Request::Status => Kind::Answered,
        Request::Fail(_) => Kind::Answered,
        Request::Rebuild(_) => Kind::Answered,
    }
}

// The kind of a request for a device, for the slot that a number says.
fn replace_kind<'a, B: Bank>(store: &Store<B>, number: u32) -> Kind<'a>
    ensures { IsOfKind (store_view store.now) (ReplaceSlot number) result }
{
    if is_missing_slot(store, number) {
        return Kind::Ends(number.min(255) as u8);
    }
    Kind::Answered
}
