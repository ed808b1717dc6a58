use crate::targets::targets;
use opcodes::opcode::Instruction;
use std::fmt;
use unit::unit::Unit;

/// The code of a unit, a line for each instruction.
#[derive(Clone, Copy)]
pub struct Listing<'a>(pub Unit<'a>);

impl<'a> fmt::Display for Listing<'a> {
    fn fmt<W: fmt::Write>(&self, f: &mut fmt::Formatter<W>) -> fmt::Result {
        let marks = targets(&self.0);
        for (at, marked) in marks.iter().enumerate() {
            if let Some(instruction) = self.0.instruction(at) {
                line(at, instruction, *marked, f)?;
            }
        }
        Ok(())
    }
}

/// The line of an instruction, with a mark where a jump goes to it.
fn line<W: fmt::Write>(
    at: usize,
    instruction: Instruction,
    marked: bool,
    f: &mut fmt::Formatter<W>,
) -> fmt::Result {
    let mark = if marked { '>' } else { ' ' };
    writeln!(f, "{mark} {at:>4}  {instruction}")
}
