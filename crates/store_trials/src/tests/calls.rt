//! How many device calls the steps of these sets make, as docs/ARCHITECTURE.md, "Device calls" has them for 3 members.
ghost use Rattle.std.specs.Prelude.{◌≤◌};

/// The members of each of these sets.
pub(crate) const MEMBERS: u64 = 3;

/// The calls that publish a table: a write and a flush of each member and each of two journals.
pub(crate) const PUBLISH_CALLS: u64 = 2 * (MEMBERS + 2);

/// The calls of an entry's seals: a write and a flush of each journal.
pub(crate) const SEAL_CALLS: u64 = 2 * 2;

/// A commit to a set that is all there of sectors that lie each in a row of its own, all of them on one member, and the
/// parity of these rows on another. The entry holds two sectors a row; the third member's is read.
#[derive(Clone, Copy)]
pub(crate) struct CommitSize {
    pub rows: u8,
    /// The member that is read, and not written.
    pub read: u8,
}

/// The first block of the first extent of these sets, in row 32: member 2 has it, and member 1 the parity.
pub(crate) const OF_ONE: CommitSize = CommitSize { rows: 1, read: 0 };

/// Sectors 1 and 3 of the table, which change with a volume: member 0 has them, and member 2 the parity.
pub(crate) const OF_TABLE: CommitSize = CommitSize { rows: 2, read: 1 };

impl CommitSize {
    // How many calls come before the first write of a seal: a read a row, and a body of two sectors a row and a flush
    // of each journal.
    fn before_seals(&self) -> u64
        ensures { result ≤ 2_100 }
    {
        let rows = u64::from(self.rows);
        rows + 2 * (2 * rows + 1)
    }

    // How many calls come before the first write to a member.
    fn before_members(&self) -> u64
        ensures { result ≤ 2_104 }
    {
        self.before_seals() + SEAL_CALLS
    }

    /// How many calls there are.
    pub(crate) fn calls(&self) -> u64
        ensures { result ≤ 3_000 }
    {
        self.before_members() + member_calls(self.rows)
    }

    /// The last call to a slot, counted from 0: the read of its last row, the flush after its rows, or the one after
    /// its seal.
    pub(crate) fn last_call(&self, slot: u8) -> u64 {
        let at = u64::from(slot);
        if at >= MEMBERS {
            return self.before_seals() + 2 * (at - MEMBERS) + 1;
        }
        if slot == self.read {
            return u64::from(self.rows).saturating_sub(1);
        }
        // Each of the two others has its rows and a flush, one member after the other.
        let place = if slot < self.read {
            slot
        } else {
            slot.saturating_sub(1)
        };
        let each = u64::from(self.rows) + 1;
        let last = self.before_members() + each - 1;
        last.saturating_add(each.saturating_mul(u64::from(place)))
    }
}

/// How many calls put such an entry on the members: a sector a row and a flush of each of two.
pub(crate) fn member_calls(rows: u8) -> u64
    ensures { result ≤ 768 }
{
    2 * (u64::from(rows) + 1)
}
