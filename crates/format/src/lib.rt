//! The unit format: what the bytes of a rule unit mean, which bytes are a unit, and why others are refused.
//! This crate has the definitions and the theory; the code that reads is in the crates above it.
#![tactic(auto)]

pub mod layout;
pub mod refusal;
