//! Whether a slot after a set that is to be made has a superblock of the same id.
ghost use Rattle.std.specs.Prelude.{◌≡◌, ◌<◌, ◌≤◌, IfErr, IfOk, IfSome, None, Ok, OnOk};
ghost use Rattle.sector_model.specs.declared.refusal.Refusal.TheVariants.{Worn};
ghost use Rattle.recovery.specs.SeenBank.{bank_seen};
ghost use Rattle.raidtool.specs.OtherSets.{InspectsBeyond, RefusesOther};

use device_files::FolderFault;
use recovery::newest_at;
use sector_model::{Bank, Refusal};

/// Refuses a bank where a slot from this one on has a superblock of this id that counts: `OtherSet` names the lowest.
/// Such a slot is of another set with the id, whose table, where it is the later one, would be taken for that of the
/// set that is made.
///
/// A device that is down, that goes down here or that is too short has none. `Worn` where the count of device calls
/// stands at 2^62.
pub(super) fn refuse_other<B: Bank>(
    bank: &mut B,
    id: &[u8; 16],
    first: u8,
) -> Result<(), FolderFault>
    ensures honest { B.honest bank.old → B.honest bank.new }
    ensures none { OnOk result (InspectsBeyond (B.honest bank.old) id.now first (bank_seen B.Bank bank.old)
        (bank_seen B.Bank bank.new) (Ok None)) }
    ensures fault { IfErr result (RefusesOther (B.honest bank.old) id.now first (bank_seen B.Bank bank.old)
        (bank_seen B.Bank bank.new)) }
{
    match other_set(bank, id, first)? {
        Some(slot) => Err(FolderFault::OtherSet(slot)),
        None => Ok(()),
    }
}

// The lowest slot from this one on in which a superblock of this id counts, if there is one.
fn other_set<B: Bank>(bank: &mut B, id: &[u8; 16], first: u8) -> Result<Option<u8>, Refusal>
    ensures honest { B.honest bank.old → B.honest bank.new }
    ensures found { IfOk result (λ other. IfSome other (λ slot. (first ≤ slot) × (slot < (B.panel bank.old).devices))) }
    ensures inspections { InspectsBeyond (B.honest bank.old) id.now first (bank_seen B.Bank bank.old)
        (bank_seen B.Bank bank.new) result }
    ensures err { IfErr result (λ refusal. refusal ≡ Worn) }
{
    for slot in first..bank.devices() {
        if newest_at(bank, slot, id)?.is_some() {
            return Ok(Some(slot));
        }
    }
    Ok(None)
}
