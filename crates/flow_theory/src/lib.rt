//! Certificates as a definition: their format, the walk over the code with a certificate's entries, why what the walk accepts is a
//! stable typing, and why the entries of a stable typing are accepted.
#![tactic(auto)]

pub mod certificate;
pub mod check;
pub mod flow;
