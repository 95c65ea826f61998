//! The halves of a journal.
ghost use Rattle.std.specs.Prelude.{◌≡◌, ◌≤◌, ◌+◌};
ghost use Rattle.layout_map.specs.Formats.{body_sectors, journal_sectors};
ghost use Rattle.layout_map.specs.declared.sizes.TheConstants.{FIRST_BODY};
ghost use Rattle.stripe_journal.specs.Entries.{half_start};

use layout_map::{FIRST_BODY, Format, HALVES};

/// The sector with which the half of the entry of this number begins, on a journal of a set of this format: 8, and of
/// an odd number 264, or 4,104 in format 2. The body of the entry begins there.
pub fn half_start(format: Format, number: u64) -> u32
    ensures start { result ≡ half_start format number }
    ensures least { FIRST_BODY ≤ result }
    ensures end { result + body_sectors format ≤ journal_sectors format }
{
    FIRST_BODY + format.body_sectors() * (number % HALVES as u64) as u32
}
