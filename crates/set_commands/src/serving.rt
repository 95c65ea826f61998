//! What the program's commands do with the set on a bank of devices.
ghost use Rattle.std.specs.Prelude.{◌≡◌, ◌≢◌, ◌⊎◌, ◌↔◌, IfErr, IfOk, None, OnOk, Some, []};
ghost use Rattle.std.specs.Io.KnownBytes.{Appends};
ghost use Rattle.sector_model.specs.declared.refusal.Refusal.{Refusal};
ghost use Rattle.array_io.specs.Believed.Views.{EndsIt};
ghost use Rattle.array_io.specs.Believed.OpenArray.{IsHonest};
ghost use Rattle.recovery.specs.SeenBank.{bank_seen};
ghost use Rattle.volume_table.specs.OpenStore.{store_view};
ghost use Rattle.set_commands.specs.Run.{StoppedReading, StoppedWriting, streams};
ghost use Rattle.set_commands.specs.Healths.{HealthOn};
ghost use Rattle.set_commands.specs.Serving.{IsEarly, IsEnd, IsNotOpened, IsOpened, IsOpeningRefusal, IsTellEnd};
ghost use Rattle.set_commands.specs.Serving.{LosesOn, OpensOnly, RunsOn, ServesOn, TellsOn, TellsPartOn, told_text};
ghost use Rattle.report.specs.Written.{AppendsPart};

mod applying;
mod examining;
pub mod fresh;
mod health;
mod rebuilding;

use crate::script::run_script;
pub use applying::{apply_on, scrub_with_progress};
pub use examining::examine_on;
pub use health::Health;
use health::assembled;
pub use rebuilding::{most_rows, rebuild_on, rebuild_rows, rebuild_with_progress};
use recovery::assemble;
use report::replies::write_text;
use report::{table_text, to_json};
use sector_model::{Bank, Refusal};
use std::alloc::Global;
use std::io::{BufRead, Write};
use stripe_journal::Entry;
use volume_table::{Status, Store};

/// Assembles the set of this id on a bank of devices, and opens its volumes. `entry` is where the set holds entries.
///
/// `BadTable` where the first 11 logical sectors are no table of volumes of version 1 and the first 25 none of version
/// 2, `NoSet`, `TwoLost` and `Worn` as `assemble` and `Store::open` say. The bank is given up then.
pub fn open_on<B: Bank + Drop>(bank: B, entry: Entry, id: [u8; 16]) -> Result<Store<B>, Refusal>
    ensures honest { IfOk result (λ store. B.honest bank ↔ IsHonest store.array) }
    ensures opened { IfOk result (λ store. IsOpened (B.honest bank) id (bank_seen B.Bank bank) (store_view store)) }
    ensures refused { IfErr result (IsNotOpened (B.honest bank) id (bank_seen B.Bank bank)) }
    ensures err { IfErr result IsOpeningRefusal }
{
    let array = match assemble(bank, entry, id) {
        Ok(array) => array,
        Err(returned) => return Err(returned.refusal),
    };
    match Store::open(array) {
        Ok(store) => Ok(store),
        Err(returned) => Err(returned.refusal),
    }
}

/// Serves a script over the set of this id. Refused as `open_on` is, before anything is read, and as `run_script` is.
pub fn serve_on<R: BufRead, W: Write, B: Bank + Drop>(
    alloc: Global,
    bank: B,
    entry: Entry,
    id: [u8; 16],
    reader: &mut R,
    out: &mut W,
) -> Result<(), Refusal>
    ensures ran { OnOk result (RunsOn (B.honest bank) id (bank_seen B.Bank bank)
        (streams (R.remaining reader.old) (W.contents out.old))
        (streams (R.remaining reader.new) (W.contents out.new))) }
    ensures read { R.remaining reader.old ≢ None → OnOk result (R.remaining reader.new ≡ Some []) }
    ensures end { IfErr result IsEnd }
    ensures early { IfErr result (λ refusal. IsEarly refusal → (reader.new ≡ reader.old) × (out.new ≡ out.old)) }
    ensures unopened { IfErr result (λ refusal. (refusal ≡ Refusal.NoSet) ⊎ (refusal ≡ Refusal.BadTable)
        → IsNotOpened (B.honest bank) id (bank_seen B.Bank bank) refusal) }
    ensures memory { IfErr result (λ refusal. refusal ≡ Refusal.Memory
        → OpensOnly (B.honest bank) id (bank_seen B.Bank bank)) }
    ensures loss { IfErr result (λ refusal. EndsIt refusal → LosesOn (B.honest bank) id (bank_seen B.Bank bank) refusal
        (streams (R.remaining reader.old) (W.contents out.old)) (streams (R.remaining reader.new) (W.contents out.new))
        ((reader.new ≡ reader.old) × (out.new ≡ out.old))) }
    ensures read_fault { IfErr result (λ refusal. refusal ≡ Refusal.ReadFault → ServesOn (B.honest bank) id
        (bank_seen B.Bank bank) (λ first last. StoppedReading (B.honest bank) first last
        (streams (R.remaining reader.old) (W.contents out.old))
        (streams (R.remaining reader.new) (W.contents out.new)))) }
    ensures write_fault { IfErr result (λ refusal. refusal ≡ Refusal.WriteFault → ServesOn (B.honest bank) id
        (bank_seen B.Bank bank) (λ first last. StoppedWriting (B.honest bank) first last
        (streams (R.remaining reader.old) (W.contents out.old))
        (streams (R.remaining reader.new) (W.contents out.new)))) }
{
    let mut store = open_on(bank, entry, id)?;
    run_script(alloc, reader, out, &mut store)
}

/// Writes what the set of this id tells of itself: as lines of text, or as JSON in one line; and says how well it is.
/// Refused as `open_on` is, with `Memory`, and with `WriteFault`, where a beginning of the text may be written.
pub fn tell_on<W: Write, B: Bank + Drop>(
    alloc: Global,
    bank: B,
    entry: Entry,
    id: [u8; 16],
    json: bool,
    out: &mut W,
    health: &mut Health,
) -> Result<(), Refusal>
    ensures health { OnOk result (HealthOn (B.honest bank) id (bank_seen B.Bank bank) health.new) }
    ensures told { OnOk result
        (TellsOn (B.honest bank) id (bank_seen B.Bank bank) json (W.contents out.old) (W.contents out.new)) }
    ensures end { IfErr result IsTellEnd }
    ensures unwritten { IfErr result (λ refusal. refusal ≢ Refusal.WriteFault → out.new ≡ out.old) }
    ensures memory { IfErr result (λ refusal. refusal ≡ Refusal.Memory
        → OpensOnly (B.honest bank) id (bank_seen B.Bank bank)) }
    ensures unopened { IfErr result (λ refusal. refusal ≢ Refusal.Memory → refusal ≢ Refusal.WriteFault
        → IsNotOpened (B.honest bank) id (bank_seen B.Bank bank) refusal) }
    ensures cut { IfErr result (λ refusal. refusal ≡ Refusal.WriteFault
        → TellsPartOn (B.honest bank) id (bank_seen B.Bank bank) json (W.contents out.old) (W.contents out.new)) }
{
    let store = open_on(bank, entry, id)?;
    let status = store.status()?;
    *health = assembled(&status);
    write_status(alloc, &status, json, out)
}

// Writes a status.
fn write_status<W: Write>(
    alloc: Global,
    status: &Status,
    json: bool,
    out: &mut W,
) -> Result<(), Refusal>
    ensures ok { OnOk result (Appends (W.contents out.old) (W.contents out.new) (told_text json status.now)) }
    ensures err { IfErr result (λ refusal. ((refusal ≡ Refusal.Memory) × (out.new ≡ out.old))
        ⊎ ((refusal ≡ Refusal.WriteFault)
        × AppendsPart (W.contents out.old) (W.contents out.new) (told_text json status.now))) }
{
    if json {
        let mut text = to_json(alloc, status)?.to_string(alloc)?;
        text.push('\n')?;
        write_text(out, text.as_bytes())
    } else {
        let text = table_text(alloc, status)?;
        write_text(out, text.as_bytes())
    }
}
