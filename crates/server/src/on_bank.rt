//! The set on a bank is served.
ghost use Rattle.std.specs.Prelude.{◌≡◌, ◌↔◌, IfErr, IfOk, OnOk, None, Ok, OnErr};
ghost use Rattle.sector_model.specs.declared.refusal.Refusal.{Refusal};
ghost use Rattle.array_io.specs.Believed.OpenArray.{IsHonest};
ghost use Rattle.recovery.specs.SeenBank.{bank_seen};
ghost use Rattle.set_commands.specs.Run.{streams};
ghost use Rattle.set_commands.specs.Serving.{IsEnd};
ghost use Rattle.volume_table.specs.OpenStore.{store_view};
ghost use Rattle.server.specs.OnBanks.{ReplacesAndServes, ServesReplaced, ServesSet, TellsLast, TellsReplaced};

use crate::answering::{Outcome, ended_by, outcome_of};
use crate::ending::Ending;
use crate::serving::serve_requests;
use crate::telling::write_told;
use report::replies::{Answer, write_reply};
use sector_model::{Bank, Refusal};
use set_commands::open_on;
use std::alloc::Global;
use std::io::{BufRead, Write};
use stripe_journal::Entry;
use volume_table::Store;

/// Serves requests over the set of this id on a bank, which is given up at the end. `entry` is where the set holds
/// entries.
///
/// Refused as `open_on` is, before anything is read, and as `serve_requests` is.
pub fn serve_set<R: BufRead, W: Write, B: Bank + Drop>(
    alloc: Global,
    bank: B,
    entry: Entry,
    id: [u8; 16],
    reader: &mut R,
    writer: &mut W,
) -> Result<Ending, Refusal>
    ensures serves { ServesSet (B.honest bank) id (bank_seen B.Bank bank)
        (streams (R.remaining reader.old) (W.contents writer.old))
        (streams (R.remaining reader.new) (W.contents writer.new)) result }
    ensures end { IfErr result IsEnd }
{
    let mut store = open_on(bank, entry, id)?;
    serve_requests(alloc, reader, writer, &mut store)
}

/// Gives a slot of the set of this id on a bank its device, writes what that came to, and serves requests as
/// `serve_set` does.
///
/// Refused as `open_on` is, which is then the last line written, and as `serve_requests` is. Where the device is
/// refused, with `NotMissing` or `NotUsable`, requests are served all the same; `TwoLost` and `Worn` end the store, and
/// are the last line.
pub fn serve_replaced<R: BufRead, W: Write, B: Bank + Drop>(
    alloc: Global,
    bank: B,
    entry: Entry,
    id: [u8; 16],
    slot: u8,
    reader: &mut R,
    writer: &mut W,
) -> Result<Ending, Refusal>
    ensures serves { ServesReplaced (B.honest bank) id slot (bank_seen B.Bank bank)
        (streams (R.remaining reader.old) (W.contents writer.old))
        (streams (R.remaining reader.new) (W.contents writer.new)) result }
    ensures end { IfErr result IsEnd }
{
    match open_on(bank, entry, id) {
        Ok(mut store) => serve_after_replacing(alloc, &mut store, slot, reader, writer),
        Err(refusal) => write_last(writer, refusal),
    }
}

/// Writes a refusal, after which nothing is served any more, and is refused so; with `WriteFault`, as for a reply, where
/// a beginning of it was written.
pub fn write_last<W: Write>(writer: &mut W, refusal: Refusal) -> Result<Ending, Refusal>
    ensures { TellsLast (W.contents writer.old) (W.contents writer.new) refusal result }
{
    write_reply(writer, &Answer::Refused(refusal))?;
    Err(refusal)
}

// Gives a slot its device, writes what that came to, and serves requests.
fn serve_after_replacing<R: BufRead, W: Write, B: Bank>(
    alloc: Global,
    store: &mut Store<B>,
    slot: u8,
    reader: &mut R,
    writer: &mut W,
) -> Result<Ending, Refusal>
    requires going { store.old.ended ≡ None }
    ensures serves { (first : B) → (B.honest first → IsHonest store.old.array)
        → ReplacesAndServes (B.honest first) slot (store_view store.old)
        (streams (R.remaining reader.old) (W.contents writer.old)) (store_view store.new)
        (streams (R.remaining reader.new) (W.contents writer.new)) result }
{
    replace_on(store, slot, writer)?;
    serve_requests(alloc, reader, writer, store)
}

// Gives a slot its device, and writes what that came to.
fn replace_on<W: Write, B: Bank>(
    store: &mut Store<B>,
    slot: u8,
    writer: &mut W,
) -> Result<(), Refusal>
    requires going { store.old.ended ≡ None }
    ensures honest { IsHonest store.old.array ↔ IsHonest store.new.array }
    ensures replaced { TellsReplaced (IsHonest store.old.array) slot (store_view store.old) (store_view store.new)
        (W.contents writer.old) (W.contents writer.new) result }
    ensures going { OnOk result (store.new.ended ≡ None) }
{
    let outcome = outcome_of(store.replace(slot));
    write_told(writer, &outcome, &[])?;
    ended_by(&outcome)
}
