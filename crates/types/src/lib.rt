//! The analysis of types: the kinds of the operands, by the opcode table. It has layer 1, and forbids that operands are too few,
//! too many, or not what an instruction takes.
#![tactic(auto)]

/// The layer under which this analysis refuses.
const LAYER: u8 = 1;

mod effect;
pub mod operands;
mod order;
mod shapes;
pub mod types;
mod writing;
