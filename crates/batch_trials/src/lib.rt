//! Tests of writes that a store commits together: what waits and what fits, what a commit leaves and costs, and what is
//! there after crashes and device failures. They stand in a crate of their own, since a crate that has tests is proved
//! twice.
#![tactic(auto)]

#[cfg(test)]
mod testing;
#[cfg(test)]
mod tests;
