//! The analysis of types, as a definition with its theory: the kinds of the operands, and why they keep the laws.
#![tactic(auto)]
