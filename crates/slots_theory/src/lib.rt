//! The analysis of the slots, as a definition with its theory: sets of slots, and why the analysis keeps the laws.
#![tactic(auto)]

pub mod members;
pub mod set;
