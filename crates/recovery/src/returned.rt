//! A bank that is given back.

use sector_model::Refusal;

/// A bank that did not become an array, as it stands, and why.
#[derive(Drop)]
pub struct Returned<B> {
    /// The bank, to be used again.
    pub bank: B,
    /// Why there is no array.
    pub refusal: Refusal,
}
