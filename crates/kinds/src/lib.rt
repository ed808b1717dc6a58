//! The kinds of values that a rule handles, and their two-byte codes in a file.
#![tactic(auto)]

pub mod codes;
pub mod display;
pub mod equal;
pub mod kind;
