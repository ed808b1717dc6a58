ghost use Rattle.std.specs.Prelude.{◌≡◌};
ghost use Rattle.opcodes.specs.Table.{line_of};
ghost use Rattle.opcodes.specs.Operands.{operand_of};

use crate::opcode::{Instruction, Sort};
use std::fmt;

/// What the two-byte number of an instruction says.
#[derive(Clone, Copy, Debug, PartialEq, Eq)]
pub enum Operand {
    Unused,
    Number(i16),
    Slot(u16),
    Class(u16),
    /// A field of a class, by its number in the class.
    Field { class: u16, field: u16 },
    /// An instruction to jump to.
    Target(u16),
}

impl Operand {
    /// The operand of an instruction, as its opcode asks.
    pub fn of(instruction: Instruction) -> Operand
        ensures { result ≡ operand_of (line_of instruction.opcode).sort instruction.operand }
    {
        let n = instruction.operand;
        match instruction.opcode.row().sort {
            Sort::Unused => Operand::Unused,
            Sort::Number => Operand::Number(n.cast_signed()),
            Sort::Slot => Operand::Slot(n),
            Sort::Class => Operand::Class(n),
            Sort::Field => Operand::Field {
                class: n / 8,
                field: n % 8,
            },
            Sort::Target => Operand::Target(n),
        }
    }
}

impl fmt::Display for Operand {
    fn fmt<W: fmt::Write>(&self, f: &mut fmt::Formatter<W>) -> fmt::Result {
        match *self {
            Operand::Unused => Ok(()),
            Operand::Number(n) => write!(f, "{n}"),
            Operand::Slot(slot) => write!(f, "slot {slot}"),
            Operand::Class(class) => write!(f, "class {class}"),
            Operand::Field { class, field } => write!(f, "{class}.{field}"),
            Operand::Target(at) => write!(f, "to {at}"),
        }
    }
}
