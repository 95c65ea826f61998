//! Blocks of a volume are read, more than one read of the store may have.
ghost use Rattle.std.specs.Prelude.{◌≡◌, ◌≤◌, ◌<◌, ◌+◌, ◌^◌, ◌↔◌, min, take, None, IfOk, IfErr, OnOk, length};
ghost use Rattle.array_io.specs.Believed.OpenArray.{IsHonest};
ghost use Rattle.volume_table.specs.OpenStore.{store_view};
ghost use Rattle.volume_table.specs.StoreCalls.{Applies};
ghost use Rattle.volume_table.specs.VolumeStep.{Blocks, OnVolumes, Read, Refused};
ghost use Rattle.volume_table.specs.declared.event.TheConstants.{MOST_BLOCKS_AT_ONCE};
ghost use Rattle.requests.specs.Demands.{ReadBlocks};
ghost use Rattle.server.specs.Answers.{IsServed, ReadsParts, StopsInRead};
ghost use Rattle.server.specs.Outcomes.{told_in};
ghost use Rattle.server.specs.declared.counts.TheConstants.{MOST_WRITTEN_AT_ONCE};

use super::Outcome;
use sector_model::{Bank, Refusal, Sector};
use volume_table::{MOST_BLOCKS_AT_ONCE, Store};

// Reads 1 to 2,048 blocks of the volume of this name, from block `at` on, which become the first of a buffer that has
// so many places.
pub(super) fn answer_read<B: Bank>(
    store: &mut Store<B>,
    name: &[u8],
    at: u32,
    count: u32,
    blocks: &mut [Sector],
) -> Outcome
    requires least { 1 ≤ count }
    requires most { count ≤ MOST_WRITTEN_AT_ONCE }
    requires room { MOST_WRITTEN_AT_ONCE ≤ length blocks.old }
    ensures honest { IsHonest store.old.array ↔ IsHonest store.new.array }
    ensures served { store.old.ended ≡ None → IsServed (IsHonest store.old.array) (ReadBlocks name.now at count)
        (store_view store.old) (store_view store.new) (told_in result blocks.new) }
{
    match store.admit(name, at, count) {
        Ok(_) => read_admitted(store, name, at, count, blocks),
        Err(refusal) => Outcome::Refused(refusal),
    }
}

// Reads blocks that the volume has.
fn read_admitted<B: Bank>(
    store: &mut Store<B>,
    name: &[u8],
    at: u32,
    count: u32,
    blocks: &mut [Sector],
) -> Outcome
    requires least { 1 ≤ count }
    requires most { count ≤ MOST_WRITTEN_AT_ONCE }
    requires room { MOST_WRITTEN_AT_ONCE ≤ length blocks.old }
    requires within { at + count < 2 ^ 32 }
    ensures honest { IsHonest store.old.array ↔ IsHonest store.new.array }
    ensures served { store.old.ended ≡ None → IsServed (IsHonest store.old.array) (ReadBlocks name.now at count)
        (store_view store.old) (store_view store.new) (told_in result blocks.new) }
{
    match read_parts(store, name, at, &mut blocks[..count as usize]) {
        Ok(()) => Outcome::Read(count as usize),
        Err(stopped) => Outcome::Refused(stopped),
    }
}

// Reads as many blocks as there are places, from block `at` on: 32 by each read of the store, and then the rest.
fn read_parts<B: Bank>(
    store: &mut Store<B>,
    name: &[u8],
    at: u32,
    to: &mut [Sector],
) -> Result<(), Refusal>
    requires { at + length to.old < 2 ^ 32 }
    ensures honest { IsHonest store.old.array ↔ IsHonest store.new.array }
    ensures reads { OnOk result (ReadsParts (IsHonest store.old.array) name.now at (at + length to.new) to.new
        (store_view store.old) (store_view store.new)) }
    ensures stops { IfErr result (StopsInRead (IsHonest store.old.array) name.now at (length to.old)
        (store_view store.old) (store_view store.new)) }
{
    let mut done = 0;
    'parts: while done < to.len() {
        let count = read_part(store, name, at + done as u32, &mut to[done..])?;
        done += count;
    }
    Ok(())
}

// Reads the next blocks, as many as there are places, but 32 at most: how many.
fn read_part<B: Bank>(
    store: &mut Store<B>,
    name: &[u8],
    at: u32,
    to: &mut [Sector],
) -> Result<usize, Refusal>
    requires some { 0 < length to.old }
    ensures honest { IsHonest store.old.array ↔ IsHonest store.new.array }
    ensures count { IfOk result (λ count. count ≡ min (length to.old) MOST_BLOCKS_AT_ONCE) }
    ensures read { IfOk result (λ count. Applies (IsHonest store.old.array) (OnVolumes (Read name.now at count))
        (store_view store.old) (store_view store.new) (Blocks (take count to.new))) }
    ensures refused { IfErr result (λ refusal. Applies (IsHonest store.old.array)
        (OnVolumes (Read name.now at (min (length to.old) MOST_BLOCKS_AT_ONCE))) (store_view store.old)
        (store_view store.new) (Refused refusal)) }
{
    let count = to.len().min(MOST_BLOCKS_AT_ONCE);
    store.read(name, at, &mut to[..count])?;
    Ok(count)
}
