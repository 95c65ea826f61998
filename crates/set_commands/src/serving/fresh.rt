//! A script over a set in memory that is made for it.
ghost use Rattle.std.specs.Prelude.{◌≡◌, ◌≢◌, ◌⊎◌, ℕ, List, [], Some, None, IfErr, IfOk, OnOk, false, map, replicate};
ghost use Rattle.std.specs.Prelude.{vec_len};
ghost use Rattle.sector_model.specs.Memory.{sectors_in};
ghost use Rattle.sector_model.specs.Plans.{fails_at};
ghost use Rattle.array_io.specs.Believed.OpenArray.{array_view};
ghost use Rattle.recovery.specs.Making.{IsQuietBeyond};
ghost use Rattle.recovery.specs.SeenBank.{bank_seen};
ghost use Rattle.volume_table.specs.OpenStore.{store_view};
ghost use Rattle.set_commands.specs.Fresh.{HasNoVolumes, IsFreshEnd, IsFreshRefusal, IsMadeFresh, RunsFresh};
ghost use Rattle.set_commands.specs.Fresh.{fresh_devices};
ghost use Rattle.set_commands.specs.Serving.{IsEarly};

use crate::script::run_script;
use array_io::Array;
use layout_map::{FIRST_ROW, Format, Geometry};
use recovery::make;
use sector_model::{Bank, Image, MemBank, Plan, Refusal, Sector};
use std::alloc::{AllocError, Global};
use std::io::{BufRead, Write};
use stripe_journal::Entry;
use volume_table::Store;

/// The id of the set.
const ID: [u8; 16] = [0, 1, 2, 3, 4, 5, 6, 7, 8, 9, 10, 11, 12, 13, 14, 15];
/// The sectors of a member of 256 rows.
const MEMBER_SECTORS: u32 = FIRST_ROW + 256;
/// How many writes and flushes the bank in memory has room for.
const ROOM: usize = 20_000;

/// Serves a script over a set in memory that is made for it: 3 members with a chunk of 8 sectors and 32 stripes, 2
/// journals, and no volume. Refused with `Memory` and `NotUsable` before anything is read, and as `run_script` is.
pub fn serve_fresh<R: BufRead, W: Write>(
    alloc: Global,
    reader: &mut R,
    out: &mut W,
) -> Result<(), Refusal>
    ensures ran { (script : List ℕ) → R.remaining reader.old ≡ Some script
        → OnOk result ∥ RunsFresh script (W.contents out.old) (W.contents out.new) ∥₁ }
    ensures read { R.remaining reader.old ≢ None → OnOk result (R.remaining reader.new ≡ Some []) }
    ensures end { IfErr result IsFreshEnd }
    ensures early { IfErr result (λ refusal. IsEarly refusal ⊎ (refusal ≡ Refusal.NotUsable)
        → (reader.new ≡ reader.old) × (out.new ≡ out.old)) }
{
    let mut store = fresh_store(alloc)?;
    run_script(alloc, reader, out, &mut store)
}

// An open store without a volume, over a set in memory.
fn fresh_store(alloc: Global) -> Result<Store<MemBank>, Refusal>
    ensures fresh { IfOk result (λ store. ∥ HasNoVolumes (store_view store) ∥₁) }
    ensures err { IfErr result IsFreshRefusal }
{
    match Store::open(fresh_array(alloc)?) {
        Ok(store) => Ok(store),
        Err(unopened) => Err(unopened.refusal),
    }
}

// A set that was made in memory.
fn fresh_array(alloc: Global) -> Result<Array<MemBank>, Refusal>
    ensures fresh { IfOk result (λ array. IsMadeFresh (array_view array)) }
    ensures err { IfErr result IsFreshRefusal }
{
    let bank = fresh_bank(alloc)?;
    let entry = Entry::new(alloc)?;
    let geometry = Geometry::new(3, 8, 32)?;
    match make(bank, entry, ID, geometry) {
        Ok(array) => Ok(array),
        Err(unmade) => Err(unmade.refusal),
    }
}

// A bank in memory with the devices of such a set and no other, none of which goes down by its plan, with room for
// 20,000 writes and flushes.
fn fresh_bank(alloc: Global) -> Result<MemBank, Refusal>
    ensures devices { IfOk result (λ bank. (⟦<MemBank as Bank>⟧.panel bank).devices ≡ 5) }
    ensures quiet { (id : List ℕ) → IfOk result (λ bank. IsQuietBeyond id 5 (bank_seen ⟦<MemBank as Bank>⟧ bank)) }
    ensures plan { IfOk result (λ bank. (device call : ℕ) → fails_at bank.plan device call ≡ false) }
    ensures room { IfOk result (λ bank. bank.room ≡ 20000) }
    ensures err { IfErr result (λ refusal. refusal ≡ Refusal.Memory) }
{
    MemBank::new(alloc, fresh_image(alloc)?, Plan::none(), ROOM)
}

// The devices of a set of 3 members with a chunk of 8 sectors and 32 stripes, all zeros: each is as long as the set
// needs. The only error is that an allocation was refused.
fn fresh_image(alloc: Global) -> Result<Image, AllocError>
    ensures slots { IfOk result (λ image. vec_len image.slots ≡ 5) }
    ensures devices { IfOk result (λ image. map sectors_in image.slots.items ≡ fresh_devices) }
{
    let journal = Format::One.journal_sectors();
    let slots = vec![in alloc;
        Some(zero_device(alloc, MEMBER_SECTORS)?),
        Some(zero_device(alloc, MEMBER_SECTORS)?),
        Some(zero_device(alloc, MEMBER_SECTORS)?),
        Some(zero_device(alloc, journal)?),
        Some(zero_device(alloc, journal)?),
    ]?;
    Ok(Image { slots })
}

// So many sectors of zeros.
fn zero_device(alloc: Global, sectors: u32) -> Result<Vec<Sector>, AllocError>
    ensures { IfOk result (λ disk. disk.items ≡ replicate sectors (replicate 512 0)) }
{
    let mut disk = Vec::with_capacity(alloc, sectors as usize)?;
    for _ in 0..sectors {
        disk.push([0; 512])?;
    }
    Ok(disk)
}
