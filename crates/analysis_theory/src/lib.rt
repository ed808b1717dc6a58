//! What an analysis means and has to keep, what a stable typing is, and why one is safe: definitions and their theory, with
//! the few types that they speak of.
#![tactic(auto)]

pub mod both;
pub mod fault;
