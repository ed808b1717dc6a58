//! Certificates: check, generic over the analysis, over lent tables.
#![tactic(auto)]

pub mod check;
mod entries;
mod fields;
mod tables;
mod walk;
