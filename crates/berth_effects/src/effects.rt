use crate::state::StateWords;
use opcodes::opcode::Instruction;
use std::fmt;
use std::fmt::InlineText;
use unit::unit::Unit;
use views::way::{End, Way};

/// The most characters that an instruction has in words.
const WIDTH: usize = 17;

/// What the three analyses say of a rule, a line for each instruction on the way on which every jump is taken.
#[derive(Clone, Copy)]
pub struct Effects<'a>(pub Unit<'a>);

impl<'a> fmt::Display for Effects<'a> {
    fn fmt<W: fmt::Write>(&self, f: &mut fmt::Formatter<W>) -> fmt::Result {
        // each turn comes to an instruction that none before it came to, so the way ends within these turns
        let mut way = Way::begin(&self.0);
        for _ in 0..self.0.code_len() {
            if let Some(instruction) = self.0.instruction(way.at) {
                line(&way, instruction, f)?;
            }
            if let Some(end) = way.go_on(&self.0) {
                return ending(end, f);
            }
        }
        Ok(())
    }
}

/// The line of the instruction that the way stands at, with the state before it.
fn line<W: fmt::Write>(
    way: &Way,
    instruction: Instruction,
    f: &mut fmt::Formatter<W>,
) -> fmt::Result {
    let at = way.at;
    let words = InlineText::<WIDTH>::of(instruction);
    let text = words.as_str();
    writeln!(f, "{at:>6}  {text:<17}  {}", StateWords(way.state))
}

/// The line that says why the way ends, and none at a return.
fn ending<W: fmt::Write>(end: End, f: &mut fmt::Formatter<W>) -> fmt::Result {
    match end {
        End::Returned => Ok(()),
        End::Refused { at, fault } => {
            let layer = fault.layer;
            let number = fault.cause.number();
            let detail = fault.cause.detail();
            writeln!(
                f,
                "layer {layer} refuses instruction {at}: fault {number}, detail {detail}"
            )
        }
        End::Left(at) => writeln!(f, "the way leaves the code after instruction {at}"),
        End::Again(at) => writeln!(f, "the way comes to instruction {at} again"),
    }
}
