//! An open array: a bank, and the table of the set that stands on it.
ghost use Rattle.std.specs.Prelude.{◌≡◌};
ghost use Rattle.array_io.specs.Believed.Views.{HasItsSlots};

use sector_model::Bank;
use stripe_journal::Entry;
use superblock::Table;

mod commit;
pub(crate) mod mark;
mod put;
pub(crate) mod read;
mod zeroing;

pub use self::mark::{is_other_out, mark_slot};
pub use self::put::{done_or_fail_slot, put_on_journal, put_on_members};
pub use self::read::value_or_fail_slot;

/// A set that was made or assembled. The fields are open to the crates that make, assemble, rebuild and scrub it.
#[derive(Drop)]
pub struct Array<B: Bank> {
    /// The devices: slots 0 to members + 1 are the set's.
    pub bank: B,
    /// The table that each device in sync carries, or that is being published.
    pub table: Table,
    /// The number of the last entry, 0 where there is none, at most 2^62.
    pub entry: u64,
    /// Room for the entry of a commit: what was handed in.
    pub buffer: Entry,
    pub ghost its_slots: { HasItsSlots table (B.panel bank) },
}

impl<B: Bank> Array<B> {
    /// The bank, to be looked at.
    pub fn bank(&self) -> &B
        ensures { result.now ≡ self.now.bank }
    {
        &self.bank
    }

    /// The set's table.
    pub fn table(&self) -> &Table
        ensures { result.now ≡ self.now.table }
    {
        &self.table
    }

    /// Gives the array up, and the bank back.
    pub fn into_bank(self) -> B
        ensures { result ≡ self.bank }
    {
        self.bank
    }
}
