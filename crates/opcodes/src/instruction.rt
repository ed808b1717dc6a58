use crate::opcode::Instruction;
use crate::operand::Operand;
use std::fmt;

/// The name of the opcode, and the operand unless that is unused.
impl fmt::Display for Instruction {
    fn fmt<W: fmt::Write>(&self, f: &mut fmt::Formatter<W>) -> fmt::Result {
        let name = self.opcode.row().name;
        match Operand::of(*self) {
            Operand::Unused => f.write_str(name),
            operand => write!(f, "{name:<6}  {operand}"),
        }
    }
}
