//! Tests of what gets a set whole again, by the calls of a set and without a store. They take the crates that make and
//! assemble sets, too, and so stand above those and above the crate `rebuild`.
#![tactic(auto)]

#[cfg(test)]
mod testing;
#[cfg(test)]
mod tests;
