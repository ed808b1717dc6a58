//! A rule unit: `read` fills the caller's place with the unit that bytes hold, or says why they hold none, and the methods of
//! `Unit` hand out its parts.
#![tactic(auto)]

pub mod builtin;
pub mod parts;
mod places;
pub mod read;
pub mod unit;
