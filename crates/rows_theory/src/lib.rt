//! The analysis of the row, as a definition with its theory: what is known of the row, and why the analysis keeps the laws.
#![tactic(auto)]

pub mod state;
