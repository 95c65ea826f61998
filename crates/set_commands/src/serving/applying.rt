//! An event is done on the set on a bank.
ghost use Rattle.std.specs.Prelude.{◌≡◌, ◌≢◌, ◌⊎◌, IfErr, IfOk, OnErr, OnOk};
ghost use Rattle.std.specs.Io.KnownBytes.{Appends};
ghost use Rattle.sector_model.specs.declared.refusal.Refusal.{Refusal};
ghost use Rattle.recovery.specs.SeenBank.{bank_seen};
ghost use Rattle.volume_table.specs.Events.{event_of, reply_of};
ghost use Rattle.volume_table.specs.VolumeStep.{OnSet, Refused, Scrub};
ghost use Rattle.report.specs.Written.{AppendsPart};
ghost use Rattle.set_commands.specs.Serving.{AppliesOn, IsEventEnd, IsNotOpened, RefusesOn, event_text};

use super::open_on;
use crate::{Meter, ProgressBank};
use layout_map::Geometry;
use report::replies::{Answer, write_progress, write_reply, write_scrubbed};
use sector_model::{Bank, Refusal};
use std::alloc::Global;
use std::io::Write;
use stripe_journal::Entry;
use volume_table::{Event, Reply};

/// Does an event on the set of this id, by one call of its store, and writes what it is answered: `ok`, how far a
/// rebuild came, what was found in the rows, or the blocks or volumes that were asked for.
///
/// Refused as `open_on` is; as `Store::apply` says, with `WouldLose` and `NotMissing` where a slot is given up, with
/// `NotMissing` and `NotUsable` where one is given a device, with `Incomplete` where the rows are looked at, with
/// `NothingToRebuild` where some are rebuilt, and with those of a command on volumes; and with `WriteFault`, where the
/// event was done and a beginning of the text may be written.
pub fn apply_on<W: Write, B: Bank + Drop>(
    alloc: Global,
    bank: B,
    entry: Entry,
    id: [u8; 16],
    event: &Event<'_>,
    out: &mut W,
) -> Result<(), Refusal>
    ensures applied { OnOk result (AppliesOn (B.honest bank) id (event_of event.now) (bank_seen B.Bank bank)
        (Appends (W.contents out.old) (W.contents out.new))) }
    ensures end { IfErr result (IsEventEnd (event_of event.now)) }
    ensures unwritten { IfErr result (λ refusal. refusal ≢ Refusal.WriteFault → out.new ≡ out.old) }
    ensures refused { IfErr result (λ refusal. refusal ≢ Refusal.WriteFault
        → IsNotOpened (B.honest bank) id (bank_seen B.Bank bank) refusal
        ⊎ RefusesOn (B.honest bank) id (event_of event.now) (bank_seen B.Bank bank) refusal) }
    ensures cut { IfErr result (λ refusal. refusal ≡ Refusal.WriteFault
        → AppliesOn (B.honest bank) id (event_of event.now)
        (bank_seen B.Bank bank) (AppendsPart (W.contents out.old) (W.contents out.new))) }
{
    let mut store = open_on(bank, entry, id)?;
    let reply = done(store.apply(alloc, event))?;
    write_event(out, &reply, &store.array.table.geometry)
}

/// Looks at the rows of the members of the set of this id, as `apply_on` does, and shows on a meter how far that is: of
/// all of them, since it is this call that has the bank watched.
pub fn scrub_with_progress<W: Write, B: Bank + Drop, M: Meter>(
    alloc: Global,
    bank: B,
    meter: &M,
    entry: Entry,
    id: [u8; 16],
    out: &mut W,
) -> Result<(), Refusal>
    ensures applied { OnOk result (AppliesOn (B.honest bank) id (OnSet Scrub) (bank_seen B.Bank bank)
        (Appends (W.contents out.old) (W.contents out.new))) }
    ensures end { IfErr result (IsEventEnd (OnSet Scrub)) }
    ensures unwritten { IfErr result (λ refusal. refusal ≢ Refusal.WriteFault → out.new ≡ out.old) }
    ensures refused { IfErr result (λ refusal. refusal ≢ Refusal.WriteFault
        → IsNotOpened (B.honest bank) id (bank_seen B.Bank bank) refusal
        ⊎ RefusesOn (B.honest bank) id (OnSet Scrub) (bank_seen B.Bank bank) refusal) }
    ensures cut { IfErr result (λ refusal. refusal ≡ Refusal.WriteFault
        → AppliesOn (B.honest bank) id (OnSet Scrub) (bank_seen B.Bank bank)
        (AppendsPart (W.contents out.old) (W.contents out.new))) }
{
    let watched = ProgressBank::of_scrub(bank, meter, id);
    apply_on(alloc, watched, entry, id, &Event::Scrub, out)
}

// A reply that is no refusal.
fn done(reply: Reply) -> Result<Reply, Refusal>
    ensures same { IfOk result (λ done. reply_of done ≡ reply_of reply) }
    ensures done { IfOk result (λ done. (refusal : Refusal) → reply_of done ≢ Refused refusal) }
    ensures refused { IfErr result (λ refusal. reply_of reply ≡ Refused refusal) }
{
    match reply {
        Reply::Refused(refusal) => Err(refusal),
        reply => Ok(reply),
    }
}

// Writes what an event is answered on a set of this geometry.
fn write_event<W: Write>(out: &mut W, reply: &Reply, geometry: &Geometry) -> Result<(), Refusal>
    ensures ok { OnOk result (Appends (W.contents out.old) (W.contents out.new)
        (event_text geometry.now (reply_of reply.now))) }
    ensures part { OnErr result (AppendsPart (W.contents out.old) (W.contents out.new)
        (event_text geometry.now (reply_of reply.now))) }
    ensures kind { IfErr result (λ refusal. refusal ≡ Refusal.WriteFault) }
{
    match reply {
        Reply::Done => write_reply(out, &Answer::Done),
        Reply::Blocks(blocks) => write_reply(out, &Answer::Blocks(blocks.as_slice())),
        Reply::Volumes(volumes) => write_reply(out, &Answer::Volumes(volumes)),
        Reply::Progress(progress) => write_progress(
            out,
            progress,
            geometry.format,
            geometry.rows(),
        ),
        Reply::Scrubbed(report) => write_scrubbed(out, report),
        Reply::Refused(refusal) => write_reply(out, &Answer::Refused(*refusal)),
    }
}
