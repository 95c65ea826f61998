//! Tests of what the program's words ask for. They stand in a crate of their own, since one that has tests is proved
//! twice.
#![tactic(auto)]

#[cfg(test)]
mod tests;
