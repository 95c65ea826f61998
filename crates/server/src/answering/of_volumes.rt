//! The volumes of a store are changed as a whole, blocks of them made zero, and all of them told.
ghost use Rattle.std.specs.Prelude.{◌≡◌, ◌≤◌, ◌↔◌, List, None};
ghost use Rattle.array_io.specs.Believed.OpenArray.{IsHonest};
ghost use Rattle.volume_table.specs.OpenStore.{store_view};
ghost use Rattle.volume_table.specs.Volumes.{Block};
ghost use Rattle.volume_table.specs.VolumeStep.{Create, Extend, Names, Remove, Rename};
ghost use Rattle.volume_table.specs.declared.event.TheConstants.{MOST_ZEROED_AT_ONCE};
ghost use Rattle.requests.specs.Demands.{OnVolumes, ZeroBlocks};
ghost use Rattle.server.specs.Answers.{IsServed};
ghost use Rattle.server.specs.Outcomes.{told_in};

use super::{Outcome, outcome_of};
use sector_model::Bank;
use std::alloc::Global;
use volume_table::Store;

// Makes 1 to 65,536 blocks of the volume of this name zero, from block `at` on.
pub(super) fn answer_zero<B: Bank>(
    store: &mut Store<B>,
    name: &[u8],
    at: u32,
    count: u32,
) -> Outcome
    requires least { 1 ≤ count }
    requires most { count ≤ MOST_ZEROED_AT_ONCE }
    ensures honest { IsHonest store.old.array ↔ IsHonest store.new.array }
    ensures served { (buffer : List Block) → store.old.ended ≡ None → IsServed (IsHonest store.old.array)
        (ZeroBlocks name.now at count) (store_view store.old) (store_view store.new) (told_in result buffer) }
{
    outcome_of(store.zero(name, at, count))
}

// Makes a volume of this name, of so many zero blocks.
pub(super) fn answer_create<B: Bank>(store: &mut Store<B>, name: &[u8], blocks: u32) -> Outcome
    ensures honest { IsHonest store.old.array ↔ IsHonest store.new.array }
    ensures served { (buffer : List Block) → store.old.ended ≡ None → IsServed (IsHonest store.old.array)
        (OnVolumes (Create name.now blocks)) (store_view store.old) (store_view store.new) (told_in result buffer) }
{
    outcome_of(store.create(name, blocks))
}

// Appends so many zero blocks to the volume of this name.
pub(super) fn answer_extend<B: Bank>(store: &mut Store<B>, name: &[u8], by: u32) -> Outcome
    ensures honest { IsHonest store.old.array ↔ IsHonest store.new.array }
    ensures served { (buffer : List Block) → store.old.ended ≡ None → IsServed (IsHonest store.old.array)
        (OnVolumes (Extend name.now by)) (store_view store.old) (store_view store.new) (told_in result buffer) }
{
    outcome_of(store.extend(name, by))
}

// Removes the volume of this name.
pub(super) fn answer_remove<B: Bank>(store: &mut Store<B>, name: &[u8]) -> Outcome
    ensures honest { IsHonest store.old.array ↔ IsHonest store.new.array }
    ensures served { (buffer : List Block) → store.old.ended ≡ None → IsServed (IsHonest store.old.array)
        (OnVolumes (Remove name.now)) (store_view store.old) (store_view store.new) (told_in result buffer) }
{
    outcome_of(store.remove(name))
}

// Gives the volume of a name another.
pub(super) fn answer_rename<B: Bank>(store: &mut Store<B>, old: &[u8], new: &[u8]) -> Outcome
    ensures honest { IsHonest store.old.array ↔ IsHonest store.new.array }
    ensures served { (buffer : List Block) → store.old.ended ≡ None → IsServed (IsHonest store.old.array)
        (OnVolumes (Rename old.now new.now)) (store_view store.old) (store_view store.new) (told_in result buffer) }
{
    outcome_of(store.rename(old, new))
}

// Tells all volumes.
pub(super) fn answer_list<B: Bank>(store: &mut Store<B>, alloc: Global) -> Outcome
    ensures honest { IsHonest store.old.array ↔ IsHonest store.new.array }
    ensures served { (buffer : List Block) → store.old.ended ≡ None → IsServed (IsHonest store.old.array)
        (OnVolumes Names) (store_view store.old) (store_view store.new) (told_in result buffer) }
{
    match store.list(alloc) {
        Ok(volumes) => Outcome::Listed(volumes),
        Err(refusal) => Outcome::Refused(refusal),
    }
}
