//! Analyses behind an interface: the trait that says what one is, the pair of any two, and what all of them promise.
#![tactic(auto)]

pub mod analysis;
pub mod pair;
pub mod promises;
