//! Bytes that lie together in a file, in a buffer of fixed size.
ghost use Rattle.std.specs.Prelude.{IsTrue, ◌↔◌, ◌≡◌, ◌⊎◌, ◌≤◌, ◌<◌, ◌+◌, ◌-◌, ◌^◌, ℕ, IfOk, false, length};
ghost use Rattle.std.specs.Prelude.{slice_index_or, true, vec_len};
ghost use Rattle.sector_model.specs.DeviceFiles.{AreAt};

use crate::DeviceFile;
use std::alloc::{AllocError, Global};

/// The most bytes of a span: 64 KiB.
pub(crate) const SPAN_BYTES: usize = 65_536;

/// The bytes of a file from `start` on, `len` of them, which are the first of a buffer.
#[derive(Drop)]
pub struct Span {
    bytes: Vec<u8>,
    start: u64,
    len: usize,
    ghost room: { vec_len bytes ≡ 65536 },
    ghost fits: { len ≤ 65536 },
    ghost place: { start + len < 2 ^ 64 },
}

impl Span {
    /// A span without bytes.
    pub(crate) fn new(alloc: Global) -> Result<Span, AllocError>
        ensures start { IfOk result (λ span. span.start ≡ 0) }
        ensures len { IfOk result (λ span. span.len ≡ 0) }
    {
        Ok(Span {
            bytes: vec![in alloc; 0; SPAN_BYTES]?,
            start: 0,
            len: 0,
        })
    }

    /// The place of its first byte.
    pub(crate) fn start(&self) -> u64
        ensures { result ≡ self.now.start }
    {
        self.start
    }

    /// Whether it has no byte.
    pub(crate) fn is_empty(&self) -> bool
        ensures { IsTrue result ↔ (self.now.len ≡ 0) }
    {
        self.len == 0
    }

    /// Whether it has the byte at this place.
    pub(crate) fn has(&self, place: u64) -> bool
        ensures from { result ≡ true → self.now.start ≤ place }
        ensures to { result ≡ true → place < self.now.start + self.now.len }
        ensures outside { result ≡ false → (place < self.now.start) ⊎ (self.now.start + self.now.len ≤ place) }
    {
        self.start <= place && place - self.start < self.len as u64
    }

    /// How many bytes from a place on are not its own, so many at most: those before its first.
    pub(crate) fn room_before(&self, place: u64, most: usize) -> usize
        requires { (place < self.now.start) ⊎ (self.now.start + self.now.len ≤ place) }
        ensures most { result ≤ most }
        ensures beside { (k : ℕ) → k < result
            → (place + k < self.now.start) ⊎ (self.now.start + self.now.len ≤ place + k) }
    {
        if place < self.start && self.start - place < most as u64 {
            (self.start - place) as usize
        } else {
            most
        }
    }

    /// Whether it has room for bytes from this place on, which is the one after its last.
    pub(crate) fn ends_at(&self, place: u64) -> bool
        ensures { result ≡ true → place ≡ self.now.start + self.now.len }
    {
        0 < self.len && self.len < SPAN_BYTES && self.start + self.len as u64 == place
    }

    /// Gives up its bytes, and begins anew at this place.
    pub(crate) fn restart(&mut self, place: u64)
        ensures start { self.new.start ≡ place }
        ensures len { self.new.len ≡ 0 }
    {
        self.len = 0;
        self.start = place;
    }

    /// Appends the first of these bytes, or all, and says how many.
    pub(crate) fn append(&mut self, from: &[u8]) -> usize
        requires { self.old.start + self.old.len + length from.now < 2 ^ 64 }
        ensures bound { result ≤ length from.now }
        ensures start { self.new.start ≡ self.old.start }
        ensures len { self.new.len ≡ self.old.len + result }
        ensures put { (k : ℕ) → k < result → slice_index_or self.new.bytes.items (self.old.len + k) 0 ≡
            slice_index_or from.now k 0 }
        ensures kept { (k : ℕ) → k < self.old.len → slice_index_or self.new.bytes.items k 0 ≡
            slice_index_or self.old.bytes.items k 0 }
    {
        let count = from.len().min(SPAN_BYTES - self.len);
        let end = self.len + count;
        self.bytes[self.len..end].copy_from_slice(&from[..count]);
        self.len = end;
        count
    }

    /// Copies bytes from a place on that it has, the first of them or all, and says how many.
    pub(crate) fn copy_out(&self, place: u64, to: &mut [u8]) -> usize
        requires from { self.now.start ≤ place }
        requires to { place < self.now.start + self.now.len }
        ensures bound { result ≤ length to.new }
        ensures within { place + result ≤ self.now.start + self.now.len }
        ensures copied { (k : ℕ) → k < result → slice_index_or to.new k 0 ≡
            slice_index_or self.now.bytes.items (place - self.now.start + k) 0 }
    {
        let skip = (place - self.start) as usize;
        let count = to.len().min(self.len - skip);
        to[..count].copy_from_slice(&self.bytes[skip..skip + count]);
        count
    }

    /// Puts these bytes, which a file has from a place on, in the place of its own where it has such.
    pub(crate) fn patch(&mut self, place: u64, from: &[u8])
        requires { place + length from.now < 2 ^ 64 }
        ensures start { self.new.start ≡ self.old.start }
        ensures len { self.new.len ≡ self.old.len }
        ensures put { (k : ℕ) → k < self.old.len → place ≤ self.old.start + k
            → self.old.start + k < place + length from.now
            → slice_index_or self.new.bytes.items k 0 ≡ slice_index_or from.now (self.old.start + k - place) 0 }
        ensures below { (k : ℕ) → k < self.old.len → self.old.start + k < place
            → slice_index_or self.new.bytes.items k 0 ≡ slice_index_or self.old.bytes.items k 0 }
        ensures above { (k : ℕ) → k < self.old.len → place + length from.now ≤ self.old.start + k
            → slice_index_or self.new.bytes.items k 0 ≡ slice_index_or self.old.bytes.items k 0 }
    {
        let first = self.start.max(place);
        let end = (self.start + self.len as u64).min(place + from.len() as u64);
        if first < end {
            let part = part_of(from, (first - place) as usize, (end - place) as usize);
            self.put((first - self.start) as usize, part);
        }
    }

    // Puts these bytes in the place of its own from one on.
    fn put(&mut self, at: usize, from: &[u8])
        requires { at + length from.now ≤ self.old.len }
        ensures start { self.new.start ≡ self.old.start }
        ensures len { self.new.len ≡ self.old.len }
        ensures put { (k : ℕ) → k < length from.now → slice_index_or self.new.bytes.items (at + k) 0 ≡
            slice_index_or from.now k 0 }
        ensures below { (k : ℕ) → k < at → slice_index_or self.new.bytes.items k 0 ≡
            slice_index_or self.old.bytes.items k 0 }
        ensures above { (k : ℕ) → at + length from.now ≤ k → k < self.old.len
            → slice_index_or self.new.bytes.items k 0 ≡ slice_index_or self.old.bytes.items k 0 }
    {
        self.bytes[at..at + from.len()].copy_from_slice(from);
    }

    /// Becomes so many bytes of a file from a place on, at most 65,536, or the first of them; none after a fault.
    pub(crate) fn read_from<F: DeviceFile>(&mut self, file: &mut F, place: u64, count: usize)
        requires place { place + count < 2 ^ 64 }
        requires most { count ≤ 65536 }
        requires within { IsTrue F.tells → place + count ≤ (F.told file.old).size }
        ensures same { IsTrue F.tells → F.told file.new ≡ F.told file.old }
        ensures read { IsTrue F.tells
            → AreAt (F.told file.old).byte self.new.start self.new.len self.new.bytes.items }
    {
        self.start = place;
        self.len = 0;
        self.len = read_some(file, place, &mut self.bytes, count);
    }

    /// Its bytes.
    pub(crate) fn held(&self) -> &[u8]
        ensures len { length result.now ≡ self.now.len }
        ensures each { (k : ℕ) → k < self.now.len → slice_index_or result.now k 0 ≡
            slice_index_or self.now.bytes.items k 0 }
    {
        &self.bytes[..self.len]
    }
}

// The bytes of a slice from one up to another.
fn part_of(from: &[u8], first: usize, end: usize) -> &[u8]
    requires order { first ≤ end }
    requires within { end ≤ length from.now }
    ensures len { first + length result.now ≡ end }
    ensures each { (k : ℕ) → k < length result.now
        → slice_index_or result.now k 0 ≡ slice_index_or from.now (first + k) 0 }
{
    &from[first..end]
}

// Reads so many bytes of a file from a place on, the first of them or all, and says how many; none after a fault.
fn read_some<F: DeviceFile>(file: &mut F, place: u64, to: &mut [u8], count: usize) -> usize
    requires place { place + count < 2 ^ 64 }
    requires most { count ≤ length to.old }
    requires within { IsTrue F.tells → place + count ≤ (F.told file.old).size }
    ensures most { result ≤ count }
    ensures same { IsTrue F.tells → F.told file.new ≡ F.told file.old }
    ensures read { IsTrue F.tells → AreAt (F.told file.old).byte place result to.new }
{
    file.read_part(place, &mut to[..count]).unwrap_or(0)
}
