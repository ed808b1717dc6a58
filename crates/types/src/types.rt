ghost use Rattle.types_theory.specs.Types.{types_meaning};
ghost use Rattle.types_theory.proofs.StackLaws.{types_laws};

use crate::LAYER;
use crate::operands::Operands;
use crate::shapes::Context;
use analysis::analysis::Analysis;
use analysis_theory::fault::{Cause, Fault, NoJoin, Unreadable};
use unit::unit::Unit;

/// The analysis of types.
#[derive(Clone, Copy, Debug, PartialEq, Eq, Hash)]
pub struct Types;

impl Analysis for Types {
    type State = Operands;

    ghost meaning = { λ _ p. types_meaning p };

    ghost laws = { λ a p k. types_laws p k };

    fn start(&self, _unit: &Unit<'_>) -> Operands {
        Operands::new()
    }

    fn below(&self, unit: &Unit<'_>, a: &Operands, b: &Operands) -> bool {
        a.lies_below(unit, b)
    }

    fn join(&self, unit: &Unit<'_>, into: &mut Operands, other: &Operands) -> Result<bool, NoJoin> {
        into.join(unit, other)
    }

    fn effect(&self, unit: &Unit<'_>, at: usize, state: &mut Operands) -> Result<(), Fault> {
        let instruction = unit.instruction(at).ok_or(Cause::Outside.under(LAYER))?;
        let row = instruction.opcode.row();
        let context = Context {
            unit,
            number: instruction.operand,
        };
        let mut operands = *state;
        operands.take(&context, row.takes)?;
        operands.leave(&context, row.leaves)?;
        *state = operands;
        Ok(())
    }

    #[tactic(auto, using(crate::proofs::Coding::sized))]
    fn size(&self, _unit: &Unit<'_>, state: &Operands) -> Option<usize> {
        Some(1 + 2 * state.len())
    }

    fn write(&self, _unit: &Unit<'_>, state: &Operands, out: &mut [u8]) -> Option<usize> {
        state.write(out)
    }

    fn read(&self, unit: &Unit<'_>, bytes: &[u8]) -> Result<(Operands, usize), Unreadable> {
        Operands::read(unit, bytes)
    }
}
