//! Volumes in a plain list, and the rules by which calls change it or are refused: docs/FORMATS.md, "Limits" and "Order
//! of refusals".
use sector_model::Refusal;
use std::process::Abort;

/// A volume: its name, and for each of its blocks the byte of which that is full.
#[derive(Drop)]
pub(crate) struct Kept {
    pub name: &'static [u8],
    pub bytes: Vec<u8>,
}

/// The volumes of a set with so many extents, in rising order of names, and the version of their table.
#[derive(Drop)]
pub(crate) struct Map {
    pub extents: usize,
    pub version: u8,
    pub volumes: Vec<Kept>,
}

// Whether a byte may stand first in a name.
fn is_letter(byte: u8) -> bool {
    byte >= b'a' && byte <= b'z'
}

// Whether a byte may stand after the first.
fn is_part(byte: u8) -> bool {
    is_letter(byte) || (byte >= b'0' && byte <= b'9') || byte == b'-' || byte == b'_'
}

// Whether this is a good name of at most so many bytes.
fn is_good(name: &[u8], most: usize) -> bool {
    if name.is_empty() || name.len() > most || !is_letter(name[0]) {
        return false;
    }
    for byte in name {
        if !is_part(*byte) {
            return false;
        }
    }
    true
}

// Whether a name comes before another one, byte by byte, and the shorter one first.
fn is_before(one: &[u8], other: &[u8]) -> bool {
    for at in 0..one.len().min(other.len()) {
        if one[at] != other[at] {
            return one[at] < other[at];
        }
    }
    one.len() < other.len()
}

// How many extents a volume of so many blocks has, of 64 blocks each.
fn extents_of(blocks: usize) -> usize {
    blocks.saturating_add(63) / 64
}

// So many zeros.
fn zeros(rt: &(impl Abort + AllocGlobal), count: u32) -> Vec<u8> {
    vec![in rt.alloc(); 0u8; count as usize].expect(rt, "memory")
}

impl Map {
    /// No volumes.
    pub(crate) fn new(rt: &impl AllocGlobal, extents: usize) -> Map {
        Map {
            extents,
            version: 1,
            volumes: Vec::new(rt.alloc()),
        }
    }

    // The place of the volume of a name.
    fn place_of(&self, name: &[u8]) -> Option<usize> {
        for (place, kept) in self.volumes.iter().enumerate() {
            if kept.name == name {
                return Some(place);
            }
        }
        None
    }

    // How many volumes there may be.
    fn most_volumes(&self) -> usize {
        if self.version == 1 { 32 } else { 64 }
    }

    // Whether this is a good name by the version of the table.
    fn is_good(&self, name: &[u8]) -> bool {
        is_good(name, if self.version == 1 { 24 } else { 63 })
    }

    // Whether so many extents more are more than there are.
    fn lacks(&self, more: usize) -> bool {
        let mut used = more;
        for kept in &self.volumes {
            used = used.saturating_add(extents_of(kept.bytes.len()));
        }
        used > self.extents
    }

    // Puts a volume after those whose names come before its own.
    fn put(&mut self, rt: &impl Abort, kept: Kept) {
        let mut place = 0usize;
        for other in &self.volumes {
            if is_before(other.name, kept.name) {
                place = place.saturating_add(1);
            }
        }
        assert!(rt; place <= self.volumes.len());
        self.volumes.insert(place, kept).ok().expect(rt, "memory");
    }

    /// How many blocks the volume of a name has, and 0 where there is none.
    pub(crate) fn blocks_in(&self, name: &[u8]) -> usize {
        for kept in &self.volumes {
            if kept.name == name {
                return kept.bytes.len();
            }
        }
        0
    }

    /// A new volume of zeros.
    pub(crate) fn create(
        &mut self,
        rt: &(impl Abort + AllocGlobal),
        name: &'static [u8],
        blocks: u32,
    ) -> Result<(), Refusal> {
        if !self.is_good(name) {
            return Err(Refusal::BadName);
        }
        if blocks == 0 || blocks > 65_536 {
            return Err(Refusal::BadSize);
        }
        if self.place_of(name).is_some() {
            return Err(Refusal::Exists);
        }
        if self.volumes.len() >= self.most_volumes() {
            return Err(Refusal::TooManyVolumes);
        }
        if self.lacks(extents_of(blocks as usize)) {
            return Err(Refusal::NoSpace);
        }
        let bytes = zeros(rt, blocks);
        self.put(rt, Kept { name, bytes });
        Ok(())
    }

    /// So many zeros more.
    pub(crate) fn extend(
        &mut self,
        rt: &(impl Abort + AllocGlobal),
        name: &[u8],
        by: u32,
    ) -> Result<(), Refusal> {
        let Some(place) = self.place_of(name) else {
            return Err(Refusal::NoVolume);
        };
        assert!(rt; place < self.volumes.len());
        let before = self.volumes[place].bytes.len();
        let after = before.saturating_add(by as usize);
        if by == 0 || after > 65_536 {
            return Err(Refusal::BadSize);
        }
        if self.lacks(extents_of(after).saturating_sub(extents_of(before))) {
            return Err(Refusal::NoSpace);
        }
        let more = zeros(rt, by);
        let bytes = &mut self.volumes[place].bytes;
        bytes.extend_from_slice(&more).expect(rt, "memory");
        Ok(())
    }

    /// No volume of this name any more.
    pub(crate) fn remove(&mut self, rt: &impl Abort, name: &[u8]) -> Result<(), Refusal> {
        let Some(place) = self.place_of(name) else {
            return Err(Refusal::NoVolume);
        };
        assert!(rt; place < self.volumes.len());
        let _ = self.volumes.remove(place);
        Ok(())
    }

    /// Another name for a volume.
    pub(crate) fn rename(
        &mut self,
        rt: &impl Abort,
        old: &[u8],
        new: &'static [u8],
    ) -> Result<(), Refusal> {
        let Some(place) = self.place_of(old) else {
            return Err(Refusal::NoVolume);
        };
        if !self.is_good(new) {
            return Err(Refusal::BadName);
        }
        if self.place_of(new).is_some() {
            return Err(Refusal::Exists);
        }
        assert!(rt; place < self.volumes.len());
        let Kept { name: _, bytes } = self.volumes.remove(place);
        self.put(rt, Kept { name: new, bytes });
        Ok(())
    }

    // The place of the volume of a name that has `count` blocks from `at` on.
    fn place_with(
        &self,
        rt: &impl Abort,
        name: &[u8],
        at: u32,
        count: usize,
    ) -> Result<usize, Refusal> {
        let Some(place) = self.place_of(name) else {
            return Err(Refusal::NoVolume);
        };
        if count == 0 || count > 32 {
            return Err(Refusal::BadCount);
        }
        assert!(rt; place < self.volumes.len());
        if (at as usize).saturating_add(count) > self.volumes[place].bytes.len() {
            return Err(Refusal::OutOfRange);
        }
        Ok(place)
    }

    /// The bytes of some blocks.
    pub(crate) fn read(
        &self,
        rt: &(impl Abort + AllocGlobal),
        name: &[u8],
        at: u32,
        count: u32,
    ) -> Result<Vec<u8>, Refusal> {
        let place = self.place_with(rt, name, at, count as usize)?;
        assert!(rt; place < self.volumes.len());
        let bytes = self.volumes[place].bytes.as_slice();
        let mut read = Vec::new(rt.alloc());
        for number in 0..count as usize {
            let from = number.saturating_add(at as usize);
            assert!(rt; from < bytes.len());
            read.push(bytes[from]).expect(rt, "memory");
        }
        Ok(read)
    }

    /// Other bytes for some blocks.
    pub(crate) fn write(
        &mut self,
        rt: &impl Abort,
        name: &[u8],
        at: u32,
        written: &[u8],
    ) -> Result<(), Refusal> {
        let place = self.place_with(rt, name, at, written.len())?;
        assert!(rt; place < self.volumes.len());
        let bytes = self.volumes[place].bytes.as_mut_slice();
        for number in 0..written.len() {
            let to = number.saturating_add(at as usize);
            assert!(rt; to < bytes.len());
            bytes[to] = written[number];
        }
        Ok(())
    }
}
