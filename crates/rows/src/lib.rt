//! The analysis of the row that a run holds: none is entered twice, and none is returned that was not entered.
#![tactic(auto)]

pub mod rows;
