//! What the program `berth_effects` can show of a unit, before it is printed: the command that asks for it, and the way on
//! which every jump is taken.
#![tactic(auto)]

pub mod command;
pub mod follow;
pub mod way;
