//! The analysis of the slots: none is loaded that may be unset.
#![tactic(auto)]

pub mod slots;
