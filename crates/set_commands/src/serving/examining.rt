//! Sets are inspected.
ghost use Rattle.std.specs.Prelude.{◌≡◌, ◌≢◌, ◌≤◌, ◌↔◌, IfErr, IfOk, OnOk, string_bytes};
ghost use Rattle.sector_model.specs.declared.refusal.Refusal.{Refusal};
ghost use Rattle.recovery.specs.SeenBank.{bank_seen};
ghost use Rattle.set_commands.specs.Healths.{HealthAbove, HealthAt, InspectsHealth};
ghost use Rattle.set_commands.specs.Examining.{ExaminesOn, ExaminesPartOn, IsExamineEnd, IsInspectionEnd};
ghost use Rattle.set_commands.specs.Examining.{IsInspectionText, IsWornOn, Inspects, InspectsAbove, InspectsOne, Puts};
ghost use Rattle.set_commands.specs.Examining.{RefusesInspecting};

use super::health::{Health, foreseen, worse};
use recovery::{Examined, examine, id_above};
use report::replies::write_text;
use report::{examined_text, examined_to_json};
use sector_model::{Bank, Refusal};
use std::alloc::Global;
use std::io::Write;

/// The most sets of which superblocks count on a bank: ten slots have two places each.
const MOST_SETS: u8 = 20;

/// Inspects the set of this id on a bank of devices, or each set that it has, in rising order of ids, where no id is
/// given, by reads alone, and writes what it found: as lines of text, or as JSON, a line for each set; and says how
/// well the worst is, or what was said before, if that is worse.
///
/// `NoSet` where `examine` finds no set of the id, or none of any, `Worn` where the count of device calls stands at
/// 2^62, and `Memory`, each with nothing written; `WriteFault`, where a beginning of the text may be written.
pub fn examine_on<W: Write, B: Bank + Drop>(
    alloc: Global,
    bank: B,
    id: Option<[u8; 16]>,
    json: bool,
    out: &mut W,
    health: &mut Health,
) -> Result<(), Refusal>
    ensures health { OnOk result (InspectsHealth (B.honest bank) id (bank_seen B.Bank bank) health.old health.new) }
    ensures examined { OnOk result (ExaminesOn (B.honest bank) id json (bank_seen B.Bank bank) (W.contents out.old)
        (W.contents out.new)) }
    ensures end { IfErr result IsExamineEnd }
    ensures refused { IfErr result (λ refusal. refusal ≢ Refusal.Memory → refusal ≢ Refusal.WriteFault
        → RefusesInspecting (B.honest bank) id json (bank_seen B.Bank bank) refusal) }
    ensures unwritten { IfErr result (λ refusal. refusal ≢ Refusal.WriteFault → out.new ≡ out.old) }
    ensures cut { IfErr result (λ refusal. refusal ≡ Refusal.WriteFault
        → ExaminesPartOn (B.honest bank) id json (bank_seen B.Bank bank) (W.contents out.old) (W.contents out.new)) }
{
    let mut bank = bank;
    let text = inspections(alloc, &mut bank, id, json, health)?;
    if text.is_empty() {
        return Err(Refusal::NoSet);
    }
    write_text(out, text.as_bytes())
}

// What is found of the set of this id, or of each one.
fn inspections<B: Bank>(
    alloc: Global,
    bank: &mut B,
    id: Option<[u8; 16]>,
    json: bool,
    health: &mut Health,
) -> Result<String, Refusal>
    ensures health { OnOk result (InspectsHealth (B.honest bank.old) id (bank_seen B.Bank bank.old) health.old
        health.new) }
    ensures inspections { IfOk result (λ text. Inspects (B.honest bank.old) id json (bank_seen B.Bank bank.old)
        (string_bytes text)) }
    ensures err { IfErr result IsInspectionEnd }
    ensures cause { IfErr result (λ refusal. refusal ≢ Refusal.Memory → IsWornOn (bank_seen B.Bank bank.old)) }
{
    let mut text = String::new(alloc);
    match id {
        Some(id) => inspect_one(alloc, bank, &id, json, &mut text, health)?,
        None => inspect_above(alloc, bank, None, MOST_SETS, json, &mut text, health)?,
    }
    Ok(text)
}

// Appends what is found of each set with an id above this one, of so many at most.
fn inspect_above<B: Bank>(
    alloc: Global,
    bank: &mut B,
    above: Option<[u8; 16]>,
    most: u8,
    json: bool,
    text: &mut String,
    health: &mut Health,
) -> Result<(), Refusal>
    ensures health { OnOk result (HealthAbove (B.honest bank.old) most above (bank_seen B.Bank bank.old)
        (bank_seen B.Bank bank.new) health.old health.new) }
    ensures honest { B.honest bank.old ↔ B.honest bank.new }
    ensures puts { OnOk result (Puts (string_bytes text.old) (string_bytes text.new)
        (InspectsAbove (B.honest bank.old) json most above (bank_seen B.Bank bank.old) (bank_seen B.Bank bank.new))) }
    ensures err { IfErr result IsInspectionEnd }
    ensures cause { IfErr result (λ refusal. refusal ≢ Refusal.Memory → IsWornOn (bank_seen B.Bank bank.old)) }
{
    if most == 0 {
        return Ok(());
    }
    let Some(id) = id_above(bank, &above)? else {
        return Ok(());
    };
    inspect_one(alloc, bank, &id, json, text, health)?;
    inspect_above(alloc, bank, Some(id), most - 1, json, text, health)
}

// Appends what is found of the set of this id, if it is there.
fn inspect_one<B: Bank>(
    alloc: Global,
    bank: &mut B,
    id: &[u8; 16],
    json: bool,
    text: &mut String,
    health: &mut Health,
) -> Result<(), Refusal>
    ensures health { OnOk result (HealthAt (B.honest bank.old) id.now (bank_seen B.Bank bank.old)
        (bank_seen B.Bank bank.new) health.old health.new) }
    ensures honest { B.honest bank.old ↔ B.honest bank.new }
    ensures puts { OnOk result (Puts (string_bytes text.old) (string_bytes text.new)
        (InspectsOne (B.honest bank.old) id.now json (bank_seen B.Bank bank.old) (bank_seen B.Bank bank.new))) }
    ensures err { IfErr result IsInspectionEnd }
    ensures cause { IfErr result (λ refusal. refusal ≢ Refusal.Memory → IsWornOn (bank_seen B.Bank bank.old)) }
{
    match examine(bank, id)? {
        Some(examined) => {
            *health = worse(*health, foreseen(&examined.outlook));
            put_inspection(alloc, &examined, json, text)
        }
        None => Ok(()),
    }
}

// Appends the text of an inspection, or its JSON and a newline.
fn put_inspection(
    alloc: Global,
    examined: &Examined,
    json: bool,
    text: &mut String,
) -> Result<(), Refusal>
    ensures puts { OnOk result (Puts (string_bytes text.old) (string_bytes text.new)
        (IsInspectionText json examined.now)) }
    ensures err { IfErr result (λ refusal. refusal ≡ Refusal.Memory) }
{
    if json {
        let line = examined_to_json(alloc, examined)?.to_string(alloc)?;
        text.push_str(&line)?;
        text.push('\n')?;
    } else {
        let lines = examined_text(alloc, examined)?;
        text.push_str(&lines)?;
    }
    Ok(())
}
