//! How many device calls there are in making a set, in a commit and in an assembly, where no device fails in them: the
//! formulas of docs/ARCHITECTURE.md, "Device calls". What an entry holds of its rows is said by a mask for each of
//! them.
ghost use Rattle.std.specs.Prelude.{◌≤◌};

// Whether a mask has the bit of a member.
fn has_bit(mask: u8, member: u8) -> bool {
    member < 8 && (mask >> member) % 2 == 1
}

// How many sectors an entry with these masks holds.
fn sectors(masks: &[u8]) -> u64
    ensures { result ≤ 65_535 }
{
    let mut all = 0u64;
    for mask in masks {
        all = all.saturating_add(u64::from(mask.count_ones()));
    }
    all.min(65_535)
}

// In how many of these rows a member's sector is held.
fn rows_on(masks: &[u8], member: u8) -> u64
    ensures { result ≤ 65_535 }
{
    let mut rows = 0u64;
    for mask in masks {
        if has_bit(*mask, member) {
            rows = rows.saturating_add(1);
        }
    }
    rows.min(65_535)
}

// The calls of a member on which an entry with these masks is put: a write for each sector, and a flush; none where it
// has none.
fn calls_on(masks: &[u8], member: u8) -> u64
    ensures { result ≤ 65_536 }
{
    let rows = rows_on(masks, member);
    if rows == 0 { 0 } else { rows + 1 }
}

// The same of all members below one, without a slot that is out.
fn calls_below(masks: &[u8], member: u8, out: Option<u8>) -> u64
    ensures { result ≤ 65_535 }
{
    let mut calls = 0u64;
    for below in 0..member {
        if out != Some(below) {
            calls = calls.saturating_add(calls_on(masks, below));
        }
    }
    calls.min(65_535)
}

// How many members below one have a sector of these rows, without a slot that is out.
fn members_below(masks: &[u8], member: u8, out: Option<u8>) -> u64
    ensures { result ≤ 255 }
{
    let mut members = 0u64;
    for below in 0..member {
        if out != Some(below) && rows_on(masks, below) > 0 {
            members = members.saturating_add(1);
        }
    }
    members.min(255)
}

// How many sectors making a set clears: the places of each slot, the seals of each journal, and so many rows of each
// member.
fn sectors_of_make(members: u8, rows: u16) -> u64
    ensures { result ≤ 4_294_968_000 }
{
    let rows = u32::from(rows).saturating_mul(u32::from(members));
    2 * (u64::from(members) + 2) + 2 * 2 + u64::from(rows)
}

/// The calls of making a set where these sectors are zero: each is read; each slot is flushed, gets its superblock and
/// is flushed again. Each of them that is not zero takes one call more.
pub(crate) fn calls_of_make(members: u8, rows: u16) -> u64
    ensures { result ≤ 4_294_970_000 }
{
    sectors_of_make(members, rows) + 3 * (u64::from(members) + 2)
}

/// The same where none of them is zero.
pub(crate) fn calls_of_make_on_used(members: u8, rows: u16) -> u64
    ensures { result ≤ 8_589_938_000 }
{
    calls_of_make(members, rows) + sectors_of_make(members, rows)
}

/// The size of a commit to a set that is all there, or of which a slot goes down in it: how many members the set has,
/// and of each row a mask of what changes there, the given sectors and the parity.
#[derive(Clone, Copy)]
pub(crate) struct CommitSize<'a> {
    pub members: u8,
    pub masks: &'a [u8],
}

impl<'a> CommitSize<'a> {
    // How many members of a row with this mask are read: those that change, or the others, if these are fewer.
    fn reads_in(&self, mask: u8) -> u32 {
        let held = mask.count_ones();
        held.min(u32::from(self.members).saturating_sub(held))
    }

    /// How many calls are reads: those that the rows' parity takes.
    pub(crate) fn reads(&self) -> u64
        ensures { result ≤ 65_535 }
    {
        let mut reads = 0u64;
        for mask in self.masks {
            reads = reads.saturating_add(u64::from(self.reads_in(*mask)));
        }
        reads.min(65_535)
    }

    /// How many calls come before the first write of a seal: the reads, and a body and a flush on each journal.
    pub(crate) fn before_seals(&self) -> u64
        ensures { result ≤ 200_000 }
    {
        self.reads() + 2 * (sectors(self.masks) + 1)
    }

    /// How many calls come before the second seal: the first one, and its flush.
    pub(crate) fn between_seals(&self) -> u64
        ensures { result ≤ 200_002 }
    {
        self.before_seals() + 2
    }

    /// How many calls come before the first write to a member.
    pub(crate) fn before_members(&self) -> u64
        ensures { result ≤ 200_004 }
    {
        self.between_seals() + 2
    }

    /// How many calls there are: the sectors and a flush of each member that has some come last.
    pub(crate) fn calls(&self) -> u64
        ensures { result ≤ 270_000 }
    {
        self.before_members() + calls_below(self.masks, self.members, None)
    }

    // The last read of a member, counted from 0, if it is read.
    fn last_read(&self, member: u8) -> Option<u64> {
        let mut last = None;
        let mut reads = 0u64;
        for mask in self.masks {
            let is_changed = u64::from(self.reads_in(*mask)) == u64::from(mask.count_ones());
            for other in 0..self.members {
                if has_bit(*mask, other) == is_changed {
                    if other == member {
                        last = Some(reads);
                    }
                    reads = reads.saturating_add(1);
                }
            }
        }
        last
    }

    /// The last call to a slot, counted from 0, if there is one: the flush after its seal, or after its rows; where a
    /// member has none of the sectors, its last read.
    pub(crate) fn last_call(&self, slot: u8) -> Option<u64> {
        if slot >= self.members {
            return Some(self.before_seals() + 2 * u64::from(slot - self.members) + 1);
        }
        let rows = rows_on(self.masks, slot);
        if rows == 0 {
            return self.last_read(slot);
        }
        Some(self.before_members() + calls_below(self.masks, slot, None) + rows)
    }

    /// Whether a slot is called at this call or later.
    pub(crate) fn is_called_from(&self, slot: u8, call: u64) -> bool {
        match self.last_call(slot) {
            Some(last) => call <= last,
            None => false,
        }
    }

    /// How many reads, writes and flushes there are.
    pub(crate) fn counts(&self) -> [u64; 3] {
        let held = sectors(self.masks);
        let flushes = 2 + 2 + members_below(self.masks, self.members, None);
        [self.reads(), 2 * held + 2 + held, flushes]
    }

    /// The same where a slot is missing, and so many sectors are read.
    pub(crate) fn counts_without(&self, slot: u8, reads: u64) -> [u64; 3] {
        let held = sectors(self.masks);
        let members = members_below(self.masks, self.members, Some(slot));
        if slot < self.members {
            let written = held.saturating_sub(rows_on(self.masks, slot));
            [reads, 2 * (held + 1) + written, 2 * 2 + members]
        } else {
            [reads, held + 1 + held, 2 + members]
        }
    }
}

/// The size of an assembly: how many members the set has, which slot it finds out and marks missing, if one is, a mask
/// of what the last entry holds for each of its rows, none where there is no entry, and whether the second journal
/// lacks that entry.
#[derive(Clone, Copy)]
pub(crate) struct AssemblySize<'a> {
    pub members: u8,
    pub out: Option<u8>,
    pub masks: &'a [u8],
    pub is_copied: bool,
}

impl<'a> AssemblySize<'a> {
    /// That of a set that has no entry, and is all there.
    pub(crate) fn whole(members: u8) -> AssemblySize<'static> {
        AssemblySize {
            members,
            out: None,
            masks: &[],
            is_copied: false,
        }
    }

    /// The same where this slot is out.
    pub(crate) fn without(members: u8, slot: u8) -> AssemblySize<'static> {
        AssemblySize {
            members,
            out: Some(slot),
            masks: &[],
            is_copied: false,
        }
    }

    // How many of the slots below this one are there.
    fn there_below(&self, slot: u8) -> u8 {
        match self.out {
            Some(out) if out < slot => slot - 1,
            _ => slot,
        }
    }

    // How many slots are there.
    fn slots(&self) -> u64
        ensures { result ≤ 257 }
    {
        let slots = u64::from(self.members) + 2;
        if self.out.is_some() { slots - 1 } else { slots }
    }

    // How many journals are there.
    fn journals(&self) -> u64
        ensures { result ≤ 257 }
    {
        let members = self.there_below(self.members);
        self.slots().saturating_sub(u64::from(members))
    }

    /// How many calls come before superblocks are brought up or written: two reads of each slot.
    pub(crate) fn before_marks(&self) -> u64
        ensures { result ≤ 514 }
    {
        2 * self.slots()
    }

    // How many calls come before those of seals: one more read of each slot where all are there; else a write and a
    // flush of each, which mark the one missing that is out.
    fn before_seals(&self) -> u64
        ensures { result ≤ 1_028 }
    {
        if self.out.is_some() {
            self.before_marks() + 2 * self.slots()
        } else {
            self.before_marks() + self.slots()
        }
    }

    // How many calls come before those of bodies: two reads of seals of each journal more.
    fn before_body(&self) -> u64
        ensures { result ≤ 1_542 }
    {
        self.before_seals() + 2 * self.journals()
    }

    /// How many calls come before the first write of the entry: the body is read.
    pub(crate) fn before_copy(&self) -> u64
        ensures { result ≤ 70_000 }
    {
        self.before_body() + sectors(self.masks)
    }

    /// How many calls come before the first write to a member: where a journal lacks the entry, it gets the body, a
    /// flush, the seal and a flush.
    pub(crate) fn before_members(&self) -> u64
        ensures { result ≤ 140_000 }
    {
        if !self.is_copied {
            return self.before_copy();
        }
        self.before_copy() + sectors(self.masks) + 3
    }

    /// How many calls there are: where there is an entry, its sectors and a flush of each member that has some come
    /// last.
    pub(crate) fn calls(&self) -> u64
        ensures { result ≤ 210_000 }
    {
        self.before_members() + calls_below(self.masks, self.members, self.out)
    }

    /// How many calls assembling the set again makes, without an entry and with so many devices up: two reads of each
    /// of these, one of each slot that is not missing, and two of seals of each such journal.
    pub(crate) fn calls_again(&self, up: u8) -> u64
        ensures { result ≤ 1_300 }
    {
        2 * u64::from(up) + self.slots() + 2 * self.journals()
    }

    /// How many of the calls are reads.
    pub(crate) fn reads(&self) -> u64
        ensures { result ≤ 70_000 }
    {
        let of_marks = if self.out.is_some() {
            2 * self.slots()
        } else {
            0
        };
        self.before_copy().saturating_sub(of_marks)
    }

    /// The last call to a slot that is there, counted from 0.
    pub(crate) fn last_call(&self, slot: u8) -> u64
        ensures { result ≤ 280_000 }
    {
        if slot < self.members {
            self.last_of_member(slot)
        } else {
            self.last_of_journal(
                self.there_below(slot)
                    .saturating_sub(self.there_below(self.members)),
            )
        }
    }

    // That to a member: the flush after its sectors of the entry; where it has none, that of its superblock, or the
    // read of it.
    fn last_of_member(&self, slot: u8) -> u64
        ensures { result ≤ 280_000 }
    {
        let rows = rows_on(self.masks, slot);
        if rows == 0 {
            let place = self.there_below(slot);
            return (self.before_seals() + u64::from(place)).saturating_sub(self.slots());
        }
        self.before_members() + calls_below(self.masks, slot, self.out) + rows
    }

    // That to the journal at this place of those that are there: the last read of the body that the first one has; the
    // flush after the seal that the second one gets; else the read of its second seal.
    fn last_of_journal(&self, place: u8) -> u64
        ensures { result ≤ 210_000 }
    {
        if place > 0 && self.is_copied {
            return self.before_members().saturating_sub(1);
        }
        if place == 0 && !self.masks.is_empty() {
            return self.before_copy().saturating_sub(1);
        }
        self.before_seals() + 2 * u64::from(place) + 1
    }
}
