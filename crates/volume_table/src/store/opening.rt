//! A store is opened over a set.
ghost use Rattle.std.specs.Prelude.{◌≡◌, ◌↔◌, ◌+◌, ◌<◌, ◌≤◌, ℕ, IfOk, IfErr, List, [], Option, Err, OnOk, take, drop};
ghost use Rattle.std.specs.Prelude.{length, slice_index_or};
ghost use Rattle.sector_model.specs.declared.refusal.Refusal.{Refusal};
ghost use Rattle.sector_model.specs.History.{Bytes};
ghost use Rattle.superblock.specs.Cases.{Lost};
ghost use Rattle.array_io.specs.Believed.Views.{IsEndOf, RestsOn};
ghost use Rattle.extents.specs.declared.volume_table.VolumeTable.{VolumeTable};
ghost use Rattle.extents.specs.TableLaw.{IsOfFormat};
ghost use Rattle.extents.specs.TableSpelling.{Spell};
ghost use Rattle.array_io.specs.Believed.ReadWhole.{NoDeviceFailed, list_read};
ghost use Rattle.array_io.specs.Believed.OpenArray.{IsHonest, array_view};
ghost use Rattle.volume_table.specs.ListChanges.{ChangesList, IsSame};
ghost use Rattle.volume_table.specs.Opening.{Opens, given_back, opened};
ghost use Rattle.volume_table.specs.OpenStore.{store_view};

use super::Store;
use array_io::Array;
use extents::{ExtentLayout, ExtentMap, TABLE_SECTORS, VolumeTable, table_length, version_of};
use recovery::Returned;
use sector_model::{Bank, Refusal, Sector};

impl<B: Bank> Store<B> {
    /// Opens a store over a set: reads its first logical sectors, which are the table of volumes, as many as a table of
    /// its version has.
    ///
    /// Refused with `BadTable` where they are no table of volumes of a set with its extents, and as a read of the
    /// array is; the bank is then given back as it stands.
    pub fn open(mut array: Array<B>) -> Result<Store<B>, Returned<B>>
        ensures honest_store { IfOk result (λ store. IsHonest array ↔ IsHonest store.array) }
        ensures honest_bank { IfErr result (λ returned. IsHonest array ↔ B.honest returned.bank) }
        ensures opened { IfOk result (λ store. Opens (IsHonest array) (array_view array) (opened (store_view store))) }
        ensures refused { IfErr result (λ returned. Opens (IsHonest array) (array_view array)
            (given_back (B.panel returned.bank) (B.history returned.bank) returned.refusal)) }
    {
        let mut sectors = [[0; 512]; TABLE_SECTORS];
        if let Err(refusal) = read_table(&mut array, &mut sectors) {
            return Err(Returned {
                bank: array.into_bank(),
                refusal,
            });
        }
        let extents = ExtentLayout::of(&array.table.geometry);
        let Some(table) = VolumeTable::decode(&sectors, &extents) else {
            return Err(Returned {
                bank: array.into_bank(),
                refusal: Refusal::BadTable,
            });
        };
        let map = ExtentMap::new(&table.extents[..extents.count as usize]);
        Ok(Store {
            array,
            table,
            map,
            ended: None,
        })
    }
}

// Reads the first logical sectors of a set, as many as a table of the version has that the first of them begins, of
// those of the set's format.
// Refused as a read of the array is.
fn read_table<B: Bank>(
    array: &mut Array<B>,
    sectors: &mut [Sector; TABLE_SECTORS],
) -> Result<(), Refusal>
    ensures honest { IsHonest array.old ↔ IsHonest array.new }
    ensures changes { ChangesList (IsHonest array.old) 0 IsSame IsSame (array_view array.old) (array_view array.new)
        result }
    ensures cause { (refusal : Refusal) → result ≡ Err refusal
        → IsEndOf (array_view array.old) (array_view array.new) ⊥ refusal }
    ensures gives { IsHonest array.old → OnOk result ((lost : Option Lost) (V : List Bytes) (table : VolumeTable)
        → IsOfFormat array.old.table.geometry.format table
        → RestsOn (array_view array.old) lost V → Spell sectors.new table ↔ Spell V table) }
    ensures spelled { IsHonest array.old → OnOk result (NoDeviceFailed (B.panel array.old.bank) (B.panel array.new.bank)
        → (table : VolumeTable) → IsOfFormat array.old.table.geometry.format table
        → Spell (list_read (array_view array.old)) table → Spell sectors.new table) }
{
    let format = array.table.geometry.format;
    array.read(0, &mut sectors[0])?;
    let Some(version) = version_of(format, &sectors[0]) else {
        return Ok(());
    };
    read_from(array, 1, &mut sectors[1..table_length(version)])
}

// Reads logical sectors of a set from one on. Refused as a read of the array is.
fn read_from<B: Bank>(
    array: &mut Array<B>,
    first: u64,
    sectors: &mut [Sector],
) -> Result<(), Refusal>
    requires within { first + length sectors.old ≤ TABLE_SECTORS }
    ensures honest { IsHonest array.old ↔ IsHonest array.new }
    ensures changes { ChangesList (IsHonest array.old) 0 IsSame IsSame (array_view array.old) (array_view array.new)
        result }
    ensures cause { (refusal : Refusal) → result ≡ Err refusal
        → IsEndOf (array_view array.old) (array_view array.new) ⊥ refusal }
    ensures gives { IsHonest array.old → OnOk result ((lost : Option Lost) (V : List Bytes)
        → RestsOn (array_view array.old) lost V → sectors.new ≡ take (length sectors.old) (drop first V)) }
    ensures reads { IsHonest array.old → OnOk result (NoDeviceFailed (B.panel array.old.bank) (B.panel array.new.bank)
        → (k : ℕ) → k < length sectors.old
        → length (slice_index_or (list_read (array_view array.old)) (first + k) []) ≡ 512
        → slice_index_or sectors.new k [] ≡ slice_index_or (list_read (array_view array.old)) (first + k) []) }
{
    for (number, sector) in sectors.iter_mut().enumerate() {
        array.read(first + number as u64, sector)?;
    }
    Ok(())
}
