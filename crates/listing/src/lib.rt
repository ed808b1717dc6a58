//! What a program needs to show units: a unit, its code and a refused reading as text, the instructions that jumps go to, and
//! how the program takes its words, reads a file and tells of a failure.
#![tactic(auto)]

pub mod code;
pub mod explain;
pub mod failure;
pub mod program;
pub mod show;
pub mod targets;
