//! Reading the bytes of a rule unit: where its parts lie, or the first thing that is wrong.
#![tactic(auto)]

pub mod bytes;
mod classes;
mod code;
mod framing;
pub mod layout;
mod records;
mod slots;
