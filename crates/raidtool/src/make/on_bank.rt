//! Making a set on a bank of devices.
ghost use Rattle.std.specs.Prelude.{IfErr, IfOk, OnOk};
ghost use Rattle.recovery.specs.Making.{Makes};
ghost use Rattle.recovery.specs.SeenBank.{bank_seen, opened_as};
ghost use Rattle.raidtool.specs.Done.{MakesOn, RefusesMake};
ghost use Rattle.raidtool.specs.OtherSets.{MakesAlone, StopsMaking};
ghost use Rattle.raidtool.specs.Stops.{IsMakingFault, IsMakingRefusal};

use super::other_set::refuse_other;
use array_io::Array;
use device_files::FolderFault;
use layout_map::Geometry;
use recovery::make;
use sector_model::{Bank, Refusal};
use set_commands::{Meter, ProgressBank};
use stripe_journal::Entry;

/// Makes a set of this id and geometry on the bank's first `members + 2` slots, whatever they held.
///
/// `BadGeometry` where the bank has fewer slots; `NotUsable` where one of the set's devices is down, goes down in the
/// call, or is too short; `Worn` where the count of device calls stands at 2^62. The bank is given up then.
pub fn make_on<B: Bank + Drop>(
    bank: B,
    entry: Entry,
    id: [u8; 16],
    geometry: Geometry,
) -> Result<Array<B>, Refusal>
    ensures made { IfOk result (λ array. Makes (B.honest bank) id geometry (bank_seen B.Bank bank) (opened_as array)) }
    ensures err { IfErr result IsMakingRefusal }
    ensures cause { IfErr result (RefusesMake (B.honest bank) id geometry (bank_seen B.Bank bank)) }
{
    match make(bank, entry, id, geometry) {
        Ok(array) => Ok(array),
        Err(returned) => Err(returned.refusal),
    }
}

/// Makes a set as `make_on` does, shows on a meter how far that is, and gives the bank up.
pub fn make_with_progress<B: Bank + Drop, M: Meter>(
    bank: B,
    meter: &M,
    entry: Entry,
    id: [u8; 16],
    geometry: Geometry,
) -> Result<(), Refusal>
    ensures made { OnOk result (MakesOn (B.honest bank) id geometry (bank_seen B.Bank bank)) }
    ensures err { IfErr result IsMakingRefusal }
    ensures cause { IfErr result (RefusesMake (B.honest bank) id geometry (bank_seen B.Bank bank)) }
{
    make_on(
        ProgressBank::over(bank, meter, &geometry),
        entry,
        id,
        geometry,
    )?;
    Ok(())
}

/// Makes a set as `make_with_progress` does, on a bank where no slot after the set's has a superblock of this id that
/// counts: another set's would be taken for that of this one. `OtherSet` and `Worn` as `refuse_other` says; nothing is
/// written then.
pub(super) fn make_alone<B: Bank + Drop, M: Meter>(
    bank: B,
    meter: &M,
    entry: Entry,
    id: [u8; 16],
    geometry: Geometry,
) -> Result<(), FolderFault>
    ensures made { OnOk result (MakesAlone (B.honest bank) id geometry (bank_seen B.Bank bank)) }
    ensures fault { IfErr result (IsMakingFault geometry.members (B.panel bank).devices) }
    ensures cause { IfErr result (StopsMaking (B.honest bank) id geometry (bank_seen B.Bank bank)) }
{
    let mut bank = bank;
    refuse_other(&mut bank, &id, geometry.members + 2)?;
    make_with_progress(bank, meter, entry, id, geometry)?;
    Ok(())
}
