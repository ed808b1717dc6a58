//! The files that the second tool makes, taken piece by piece: units, and units with queries on their states.
#![tactic(auto)]

pub mod block;
pub mod cursor;
pub mod piece;
pub mod query;
pub mod unit_bytes;
