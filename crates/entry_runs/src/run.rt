//! One run of rows.
ghost use Rattle.std.specs.Prelude.{◌≡◌, ◌≤◌, ◌<◌, ◌^◌};
ghost use Rattle.entry_runs.specs.Body.{bits_below, has_bit, has_row, run_holds};
ghost use Rattle.entry_runs.specs.Runs.{end_of, end_of_runs, held_of, masked_of};

/// Rows of an entry that follow one another, of each of which it holds the sectors of the same members. Where the mask
/// is 0 it is a run of zeros: whole rows, of which every member's sector is zero and none stands in the body.
#[derive(Clone, Copy, Debug, Default, PartialEq, Eq)]
pub struct Run {
    /// The first row.
    pub first: u32,
    /// How many rows.
    pub length: u16,
    /// The members that are held: bit m says that member m's sector of each row stands in the body.
    pub mask: u8,
}

impl Run {
    /// The row after its last.
    pub fn end(&self) -> u64
        ensures { result ≡ end_of self.now }
    {
        u64::from(self.first) + u64::from(self.length)
    }

    /// Whether a row is one of its rows.
    pub fn has_row(&self, row: u64) -> bool
        ensures { result ≡ has_row self.now row }
    {
        u64::from(self.first) <= row && row < self.end()
    }

    /// Whether its rows hold the sector of a member, 0 to 7 (condition), in a set with so many members.
    pub fn holds(&self, members: u8, member: u8) -> bool
        requires { member < 8 }
        ensures { result ≡ run_holds members self.now member }
    {
        if self.mask == 0 {
            member < members
        } else {
            has_bit(self.mask, member)
        }
    }

    /// How many of its rows have a mask: all or none.
    pub(crate) fn masked(&self) -> u32
        ensures rows { result ≡ masked_of self.now }
        ensures most { result < 2 ^ 16 }
    {
        if self.mask == 0 {
            0
        } else {
            u32::from(self.length)
        }
    }

    /// How many sectors of a body its rows have.
    pub(crate) fn held(&self) -> u32
        ensures sectors { result ≡ held_of self.now }
        ensures most { result < 2 ^ 19 }
    {
        u32::from(self.length) * self.mask.count_ones()
    }
}

/// Whether a mask has the bit of a member, 0 to 7 (condition).
pub fn has_bit(mask: u8, member: u8) -> bool
    requires { member < 8 }
    ensures { result ≡ has_bit mask member }
{
    (mask >> member) % 2 == 1
}

/// How many members below this one, at most 8 (condition), a mask has the bits of.
pub fn bits_below(mask: u8, member: u8) -> u32
    requires { member ≤ 8 }
    ensures bits { result ≡ bits_below mask member }
    ensures most { result ≤ member }
{
    let mut count = 0;
    for below in 0..member {
        if has_bit(mask, below) {
            count += 1;
        }
    }
    count
}

/// The row after the last of these runs, 0 where there is none.
pub(crate) fn end_of_runs(runs: &[Run]) -> u64
    ensures { result ≡ end_of_runs runs.now }
{
    if runs.is_empty() {
        0
    } else {
        runs[runs.len() - 1].end()
    }
}
