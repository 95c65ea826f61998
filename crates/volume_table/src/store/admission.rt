//! Whether a command on volumes is admitted.
ghost use Rattle.std.specs.Prelude.{ℕ, ◌≡◌, ◌≢◌, ◌<◌, ◌+◌, ◌∷◌, [], List, Some, None, Contains, IfOk, IfErr};
ghost use Rattle.std.specs.Prelude.{MatchOption};
ghost use Rattle.sector_model.specs.declared.refusal.Refusal.TheVariants.{BadCount, BadName, BadSize, Exists, NoSpace};
ghost use Rattle.sector_model.specs.declared.refusal.Refusal.TheVariants.{NoVolume, OutOfRange, TooManyVolumes};
ghost use Rattle.extents.specs.declared.extent_layout.ExtentLayout.{ExtentLayout};
ghost use Rattle.extents.specs.Versions.{most_volumes};
ghost use Rattle.extents.specs.VolumeTables.{IsRecordFor, record_of};
ghost use Rattle.volume_table.specs.Admission.{AreKept, HasBlocksAt, HasRecordAt, IsFirstUnused, IsWithinVolume};
ghost use Rattle.volume_table.specs.Admission.{MayGrowTo, MayRename, ShowsBy, refusal_in};
ghost use Rattle.volume_table.specs.Volumes.{Block, VolumeMap};
ghost use Rattle.volume_table.specs.VolumeStep.{Create, Extend, Remove, Rename, checks_within, first_refusal};
ghost use Rattle.volume_table.specs.VolumeStep.{refusal_of};
ghost use Rattle.volume_table.specs.Zeroing.{checks_of_zero};

use super::growing::Growth;
use super::renaming::Renaming;
use crate::event::{MOST_BLOCKS_AT_ONCE, MOST_ZEROED_AT_ONCE};
use extents::{
    ExtentLayout, ExtentMap, MOST_VOLUMES, Name, Record, VolumeTable, most_name_bytes, most_volumes,
};
use sector_model::Refusal;

/// The number of the record of a name. `NoVolume` where no record is used for it.
pub fn admit_removal(table: &VolumeTable, name: &[u8]) -> Result<u8, Refusal>
    ensures found { IfOk result (λ number. ∥ HasRecordAt table.now.records name.now number ∥₁) }
    ensures listed { IfErr result (λ refusal. refusal ≡ NoVolume) }
    ensures decides { (extents : ExtentLayout) (sectors : List Block) (volumes : VolumeMap)
        → ShowsBy extents table.now sectors volumes
        → refusal_in result ≡ refusal_of extents (Remove name.now) volumes }
{
    let found = table.record_named(name).ok_or(Refusal::NoVolume)?;
    Ok(found.number as u8)
}

/// The number of the record of the volume of which `count` blocks from `at` on are to be read or written.
///
/// Refused with `NoVolume` where no volume has the name, then with `BadCount` where `count` is 0 or above 32, then with
/// `OutOfRange` where the volume has not so many blocks.
pub fn admit_within(table: &VolumeTable, name: &[u8], at: u32, count: usize) -> Result<u8, Refusal>
    ensures found { IfOk result (λ number. ∥ IsWithinVolume table.now.records name.now number at count ∥₁) }
    ensures listed { IfErr result (λ refusal. Contains (NoVolume ∷ BadCount ∷ OutOfRange ∷ []) refusal) }
    ensures decides { (extents : ExtentLayout) (sectors : List Block) (volumes : VolumeMap)
        → ShowsBy extents table.now sectors volumes
        → refusal_in result ≡ first_refusal (checks_within name.now at count volumes.volumes) }
{
    let found = table.record_named(name).ok_or(Refusal::NoVolume)?;
    if count == 0 || count > MOST_BLOCKS_AT_ONCE {
        return Err(Refusal::BadCount);
    }
    if u64::from(at) + count as u64 > u64::from(found.count) {
        return Err(Refusal::OutOfRange);
    }
    Ok(found.number as u8)
}

/// The number of the record of the volume of which `count` blocks from `at` on are to be made zero.
///
/// Refused with `NoVolume` where no volume has the name, then with `BadCount` where `count` is 0 or above 65,536, then
/// with `OutOfRange` where the volume has not so many blocks.
pub fn admit_zeroing(table: &VolumeTable, name: &[u8], at: u32, count: u32) -> Result<u8, Refusal>
    ensures found { IfOk result (λ number. ∥ HasBlocksAt table.now.records name.now number at count ∥₁) }
    ensures listed { IfErr result (λ refusal. Contains (NoVolume ∷ BadCount ∷ OutOfRange ∷ []) refusal) }
    ensures decides { (extents : ExtentLayout) (sectors : List Block) (volumes : VolumeMap)
        → ShowsBy extents table.now sectors volumes
        → refusal_in result ≡ first_refusal (checks_of_zero name.now at count volumes.volumes) }
{
    let found = table.record_named(name).ok_or(Refusal::NoVolume)?;
    if count == 0 || count > MOST_ZEROED_AT_ONCE {
        return Err(Refusal::BadCount);
    }
    if u64::from(at) + u64::from(count) > u64::from(found.count) {
        return Err(Refusal::OutOfRange);
    }
    Ok(found.number as u8)
}

/// The record that a `rename` puts in place of that of the old name.
///
/// Refused, in this order, with `NoVolume`, `BadName` by the table's version, and `Exists`, also where the new name is
/// the old one.
pub fn admit_rename(table: &VolumeTable, old: &[u8], new: &[u8]) -> Result<Renaming, Refusal>
    ensures may { IfOk result (λ renaming. MayRename table.now.version table.now.records renaming.volume
        renaming.entry) }
    ensures used { IfOk result (λ renaming. ∥ HasRecordAt table.now.records old.now renaming.volume ∥₁) }
    ensures named { IfOk result (λ renaming. renaming.entry.name.bytes.items ≡ new.now) }
    ensures listed { IfErr result (λ refusal. Contains (NoVolume ∷ BadName ∷ Exists ∷ []) refusal) }
    ensures decides { (extents : ExtentLayout) (sectors : List Block) (volumes : VolumeMap)
        → ShowsBy extents table.now sectors volumes
        → refusal_in result ≡ refusal_of extents (Rename old.now new.now) volumes }
{
    let found = table.record_named(old).ok_or(Refusal::NoVolume)?;
    let Some(name) = Name::new(new) else {
        return Err(Refusal::BadName);
    };
    if new.len() > most_name_bytes(table.version) {
        return Err(Refusal::BadName);
    }
    if table.record_named(new).is_some() {
        return Err(Refusal::Exists);
    }
    let volume = found.number as u8;
    let blocks = found.count;
    Ok(Renaming {
        volume,
        entry: Record { name, blocks },
    })
}

/// The new volume that a `create` makes in a set whose extents lie so. Its record is the lowest one that is not used.
///
/// Refused, in this order, with `BadName`, `BadSize` where the blocks are 0 or above the most blocks of the set (65,536
/// in a set of format 1), `Exists`, `TooManyVolumes` where each record of the table's version is used, and `NoSpace`
/// where too few extents are free.
pub fn admit_creation(
    table: &VolumeTable,
    map: &ExtentMap,
    extents: &ExtentLayout,
    name: &[u8],
    blocks: u32,
) -> Result<Growth, Refusal>
    ensures may { IfOk result (λ growth. MayGrowTo extents.now table.now.version table.now.records map.now
        growth.volume growth.first growth.entry) }
    ensures lowest { IfOk result (λ growth. IsFirstUnused table.now.version table.now.records growth.volume) }
    ensures named { IfOk result (λ growth. growth.entry.name.bytes.items ≡ name.now) }
    ensures blocks { IfOk result (λ growth. growth.entry.blocks ≡ blocks) }
    ensures listed { IfErr result (λ refusal. Contains (BadName ∷ BadSize ∷ Exists ∷ TooManyVolumes ∷ NoSpace ∷ [])
        refusal) }
    ensures decides { (sectors : List Block) (volumes : VolumeMap) → AreKept extents.now table.now map.now
        → ShowsBy extents.now table.now sectors volumes
        → refusal_in result ≡ refusal_of extents.now (Create name.now blocks) volumes }
{
    let Some(name) = Name::new(name) else {
        return Err(Refusal::BadName);
    };
    if name.bytes().len() > most_name_bytes(table.version) {
        return Err(Refusal::BadName);
    }
    let most = extents.most_blocks();
    if blocks == 0 || blocks > most {
        return Err(Refusal::BadSize);
    }
    if table.record_named(name.bytes()).is_some() {
        return Err(Refusal::Exists);
    }
    let Some(volume) = first_unused(table.version, &table.records) else {
        return Err(Refusal::TooManyVolumes);
    };
    if extents.extents_for(blocks) > map.free_count() {
        return Err(Refusal::NoSpace);
    }
    Ok(Growth {
        volume,
        first: 0,
        entry: Record { name, blocks },
    })
}

/// The new blocks that an `extend` gives a volume of a set whose extents lie so.
///
/// Refused, in this order, with `NoVolume`, `BadSize` where the growth is 0 or the volume would have more than the most
/// blocks of the set (65,536 in a set of format 1), and `NoSpace` where too few extents are free.
pub fn admit_extension(
    table: &VolumeTable,
    map: &ExtentMap,
    extents: &ExtentLayout,
    name: &[u8],
    by: u32,
) -> Result<Growth, Refusal>
    ensures may { IfOk result (λ growth. MayGrowTo extents.now table.now.version table.now.records map.now
        growth.volume growth.first growth.entry) }
    ensures named { IfOk result (λ growth. growth.entry.name.bytes.items ≡ name.now) }
    ensures used { IfOk result (λ growth. ∥ IsRecordFor table.now.records name.now growth.volume growth.first ∥₁) }
    ensures blocks { IfOk result (λ growth. growth.entry.blocks ≡ growth.first + by) }
    ensures listed { IfErr result (λ refusal. Contains (NoVolume ∷ BadSize ∷ NoSpace ∷ []) refusal) }
    ensures decides { (sectors : List Block) (volumes : VolumeMap) → AreKept extents.now table.now map.now
        → ShowsBy extents.now table.now sectors volumes
        → refusal_in result ≡ refusal_of extents.now (Extend name.now by) volumes }
{
    let found = table.record_named(name).ok_or(Refusal::NoVolume)?;
    let most = u64::from(extents.most_blocks());
    let grown = u64::from(found.count) + u64::from(by);
    if by == 0 || grown > most {
        return Err(Refusal::BadSize);
    }
    let blocks = found.count + by;
    if extents.extents_for(blocks) - extents.extents_for(found.count) > map.free_count() {
        return Err(Refusal::NoSpace);
    }
    let Some(name) = Name::new(name) else {
        unreachable!()
    };
    Ok(Growth {
        volume: found.number as u8,
        first: found.count,
        entry: Record { name, blocks },
    })
}

// The number of the first of the version's records that is not used. None where each is.
fn first_unused(version: u8, records: &[Option<Record>; MOST_VOLUMES]) -> Option<u8>
    ensures { MatchOption result ((number : ℕ) → number < most_volumes version → record_of records.now number ≢ None)
        (λ number. IsFirstUnused version records.now number) }
{
    for number in 0..most_volumes(version) {
        if records[number].is_none() {
            return Some(number as u8);
        }
    }
    None
}
