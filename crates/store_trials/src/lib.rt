//! Tests of stores over whole sets in memory: what calls and events answer and leave, how many device calls they make,
//! and what is there after crashes and device failures. They stand in a crate of their own, since a crate that has
//! tests is proved twice.
#![tactic(auto)]

#[cfg(test)]
mod lists;
#[cfg(test)]
mod testing;
#[cfg(test)]
mod tests;
