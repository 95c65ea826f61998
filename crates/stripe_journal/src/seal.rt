//! The seal of an entry.
ghost use Rattle.stripe_journal.specs.Forms.{IsForm, rows_in};
ghost use Rattle.stripe_journal.specs.Seals.{IsSeal};

use crate::Form;

/// What makes a journal's entry count: its number, its rows, and which of their sectors stand in its body.
#[derive(Drop)]
pub struct Seal {
    /// The set's id.
    pub id: [u8; 16],
    /// The number of the entry, 1 to 2^62.
    pub number: u64,
    /// The rows of the entry, strictly rising, and which of their sectors it holds.
    pub form: Form,
    pub ghost allowed: { IsSeal number (rows_in form) },
    pub ghost formed: { IsForm form },
}
