//! Lines of bytes served over sets in memory.
use crate::testing::streams::{Full, Script, WHOLE};
use crate::testing::{fresh_store, made_store, same};
use crate::{Ending, serve_requests};
use layout_map::Geometry;
use sector_model::{Bank, MemBank, Refusal};
use std::process::Abort;
use volume_table::Store;

mod blocks;
mod cut_inputs;
mod faults;
mod lines;
mod many_blocks;
mod sets;
mod together;

/// A text so many times.
type Part = (&'static [u8], usize);

/// How serving ends where all lines are served.
const ALL: Result<Ending, Refusal> = Ok(Ending::Input);

/// How it ends where the input ends too early, or a line ends it.
const STOPPED: Result<Ending, Refusal> = Err(Refusal::ReadFault);

/// A text of these parts.
fn joined(rt: &(impl Abort + AllocGlobal), parts: &[Part]) -> Vec<u8> {
    let mut all = Vec::new(rt.alloc());
    for (part, count) in parts {
        for _ in 0..*count {
            all.extend_from_slice(part).expect(rt, "memory");
        }
    }
    all
}

/// The first bytes of a text, so many.
fn first<'a>(rt: &impl Abort, text: &'a [u8], count: usize) -> &'a [u8] {
    assert!(rt; count <= text.len());
    &text[..count]
}

/// Serves an input whose reader and writer fail after so many bytes, over a store that goes on: how it has to end, how
/// many of its bytes have to be left, and what has to be written.
fn cut(
    rt: &(impl Abort + AllocGlobal),
    store: &mut Store<MemBank>,
    input: &[u8],
    (read, room): (usize, usize),
    end: Result<Ending, Refusal>,
    left: usize,
    text: &[u8],
) {
    let mut reader = Script::new(input, read);
    let mut out = Full {
        text: Vec::new(rt.alloc()),
        room,
    };
    assert!(rt; store.ended.is_none());
    let ended = serve_requests(rt.alloc(), &mut reader, &mut out, store);
    same(rt, (ended, reader.text.len()), (end, left));
    same(rt, out.text.as_slice(), text);
}

/// Serves an input of these parts: how it has to end, how many of its bytes have to be left, and what has to be
/// written.
fn ends(
    rt: &(impl Abort + AllocGlobal),
    store: &mut Store<MemBank>,
    input: &[Part],
    end: Result<Ending, Refusal>,
    left: usize,
    text: &[Part],
) {
    let input = joined(rt, input);
    let text = joined(rt, text);
    cut(rt, store, &input, (WHOLE, WHOLE), end, left, &text);
}

/// Serves an input of these parts to its end.
fn serves(
    rt: &(impl Abort + AllocGlobal),
    store: &mut Store<MemBank>,
    input: &[Part],
    text: &[Part],
) {
    ends(rt, store, input, ALL, 0, text);
}

/// A set of 3 members in format 1 with a volume `v` of 64 blocks, all zero.
fn with_volume(rt: &(impl Abort + AllocGlobal)) -> Store<MemBank> {
    let mut store = fresh_store(rt);
    same(rt, store.create(b"v", 64), Ok(()));
    store
}

/// The same in format 2.
fn with_volume_in_large(rt: &(impl Abort + AllocGlobal)) -> Store<MemBank> {
    let mut store = made_store(rt, Geometry::large(3, 8, 32), 8_000);
    same(rt, store.create(b"v", 64), Ok(()));
    store
}

/// How many commits and device calls were made so far.
fn made(store: &Store<MemBank>) -> (u64, u64) {
    (store.array.entry, store.bank().now())
}

/// How many commits and device calls were made since.
fn since(store: &Store<MemBank>, before: (u64, u64)) -> (u64, u64) {
    let now = made(store);
    (now.0.wrapping_sub(before.0), now.1.wrapping_sub(before.1))
}
