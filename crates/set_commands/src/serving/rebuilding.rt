//! Rows of the rebuilding member of the set on a bank are rebuilt.
ghost use Rattle.std.specs.Prelude.{◌≡◌, ◌≢◌, ◌⊎◌, ◌↔◌, IfErr, OnOk};
ghost use Rattle.std.specs.Io.KnownBytes.{Appends};
ghost use Rattle.sector_model.specs.declared.refusal.Refusal.{Refusal};
ghost use Rattle.array_io.specs.Believed.OpenArray.{IsHonest};
ghost use Rattle.recovery.specs.SeenBank.{bank_seen};
ghost use Rattle.rebuild.specs.Stepping.{answer_by};
ghost use Rattle.volume_table.specs.OpenStore.{store_view};
ghost use Rattle.report.specs.Written.{AppendsPart};
ghost use Rattle.set_commands.specs.Progress.{most_rows_of};
ghost use Rattle.set_commands.specs.Serving.{IsNotOpened, IsRebuildEnd, RebuildsOn, StopsRebuildingOn};
ghost use Rattle.set_commands.specs.Steps.{Rebuilds};

use super::open_on;
use crate::{Meter, ProgressBank};
use layout_map::Format;
use rebuild::Progress;
use report::replies::write_progress;
use sector_model::{Bank, Refusal};
use std::io::Write;
use stripe_journal::Entry;
use volume_table::Store;

/// Makes steps of the rebuild of the set of this id, each of 64 rows or in format 2 of 4,096, and writes how far the
/// last one came: so many steps, but one at least, or where no number is given as many as it takes, and none once the
/// rebuild is complete.
///
/// Refused as `open_on` is, with `NothingToRebuild` as `Store::rebuild_step` says, where the steps before are done, and
/// with `WriteFault`, where all of them are done and a beginning of the line may be written.
pub fn rebuild_on<W: Write, B: Bank + Drop>(
    bank: B,
    entry: Entry,
    id: [u8; 16],
    steps: Option<u64>,
    out: &mut W,
) -> Result<(), Refusal>
    ensures rebuilt { OnOk result (RebuildsOn (B.honest bank) id steps (bank_seen B.Bank bank)
        (Appends (W.contents out.old) (W.contents out.new))) }
    ensures end { IfErr result IsRebuildEnd }
    ensures unwritten { IfErr result (λ refusal. refusal ≢ Refusal.WriteFault → out.new ≡ out.old) }
    ensures refused { IfErr result (λ refusal. refusal ≢ Refusal.WriteFault
        → IsNotOpened (B.honest bank) id (bank_seen B.Bank bank) refusal
        ⊎ StopsRebuildingOn (B.honest bank) id steps (bank_seen B.Bank bank) refusal) }
    ensures cut { IfErr result (λ refusal. refusal ≡ Refusal.WriteFault → RebuildsOn (B.honest bank) id steps
        (bank_seen B.Bank bank) (AppendsPart (W.contents out.old) (W.contents out.new))) }
{
    let mut store = open_on(bank, entry, id)?;
    let progress = rebuild_rows(&mut store, steps)?;
    let geometry = store.array.table.geometry;
    write_progress(out, &progress, geometry.format, geometry.rows())
}

/// Makes steps of the rebuild of the set of this id, as `rebuild_on` does, and shows on a meter how far that is: of the
/// rows of these very steps, since it is this call that has the bank watched.
pub fn rebuild_with_progress<W: Write, B: Bank + Drop, M: Meter>(
    bank: B,
    meter: &M,
    entry: Entry,
    id: [u8; 16],
    steps: Option<u64>,
    out: &mut W,
) -> Result<(), Refusal>
    ensures rebuilt { OnOk result (RebuildsOn (B.honest bank) id steps (bank_seen B.Bank bank)
        (Appends (W.contents out.old) (W.contents out.new))) }
    ensures end { IfErr result IsRebuildEnd }
    ensures unwritten { IfErr result (λ refusal. refusal ≢ Refusal.WriteFault → out.new ≡ out.old) }
    ensures refused { IfErr result (λ refusal. refusal ≢ Refusal.WriteFault
        → IsNotOpened (B.honest bank) id (bank_seen B.Bank bank) refusal
        ⊎ StopsRebuildingOn (B.honest bank) id steps (bank_seen B.Bank bank) refusal) }
    ensures cut { IfErr result (λ refusal. refusal ≡ Refusal.WriteFault → RebuildsOn (B.honest bank) id steps
        (bank_seen B.Bank bank) (AppendsPart (W.contents out.old) (W.contents out.new))) }
{
    let watched = ProgressBank::of_rebuild(bank, meter, id, steps);
    rebuild_on(watched, entry, id, steps, out)
}

/// Makes steps of the rebuild of a store's set, each of 64 rows or in format 2 of 4,096: so many, but one at least, or
/// where no number is given as many as it takes, and none once the rebuild is complete. The progress is that of the
/// last one.
///
/// Refused with `NothingToRebuild` as `Store::rebuild_step` says, where the steps before are done. `TwoLost` and `Worn`
/// end the store.
pub fn rebuild_rows<B: Bank>(store: &mut Store<B>, steps: Option<u64>) -> Result<Progress, Refusal>
    ensures honest { IsHonest store.old.array ↔ IsHonest store.new.array }
    ensures rebuilds { Rebuilds (IsHonest store.old.array) steps (store_view store.old) (store_view store.new)
        (answer_by result) }
{
    // Each step does a row at least, so that no rebuild takes more steps than rows.
    let most = steps.unwrap_or(store.array.table.geometry.rows());
    let rows = store.array.table.geometry.format.rebuild_rows();
    for _ in 1..most {
        let progress = store.rebuild_step(rows)?;
        match progress {
            Progress::Position(_) => {}
            Progress::Complete => return Ok(progress),
        }
    }
    store.rebuild_step(rows)
}

/// The most rows that so many steps of a rebuild of a set of this format do; where no number is given, 2^64 - 1.
pub fn most_rows(format: Format, steps: Option<u64>) -> u64
    ensures { result ≡ most_rows_of format steps }
{
    match steps {
        Some(steps) => steps.max(1).saturating_mul(format.rebuild_rows()),
        None => u64::MAX,
    }
}
