//! The fifteen instructions, as one constant table that everything else looks things up in.
#![tactic(auto)]

pub mod instruction;
pub mod opcode;
pub mod operand;
pub mod table;
pub mod unknown;
