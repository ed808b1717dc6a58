ghost use Rattle.rows_theory.specs.Meaning.{rows_meaning};
ghost use Rattle.rows_theory.proofs.RowsLaws.{rows_laws};

use analysis::analysis::Analysis;
use analysis_theory::fault::{Cause, Fault, NoJoin, Unreadable};
use opcodes::opcode::Opcode;
use rows_theory::state::{LAYER, RowState};
use unit::unit::Unit;

/// The analysis of the row: whether one is held.
#[derive(Clone, Copy, Debug, PartialEq, Eq, Hash)]
pub struct Rows;

impl Analysis for Rows {
    type State = RowState;

    ghost meaning = { λ _ p. rows_meaning p };

    ghost laws = { λ a p k. rows_laws p k };

    fn start(&self, _unit: &Unit<'_>) -> RowState {
        RowState::Empty
    }

    fn below(&self, _unit: &Unit<'_>, a: &RowState, b: &RowState) -> bool {
        *a == *b || *b == RowState::Perhaps
    }

    fn join(&self, unit: &Unit<'_>, into: &mut RowState, other: &RowState) -> Result<bool, NoJoin> {
        if self.below(unit, other, into) {
            return Ok(false);
        }
        *into = RowState::Perhaps;
        Ok(true)
    }

    fn effect(&self, unit: &Unit<'_>, at: usize, state: &mut RowState) -> Result<(), Fault> {
        let instruction = unit.instruction(at).ok_or(Cause::Outside.under(LAYER))?;
        match (instruction.opcode, *state) {
            (Opcode::Post, RowState::Empty) => {
                *state = RowState::Held;
                Ok(())
            }
            (Opcode::Post, _) => Err(Cause::RowHeld.under(LAYER)),
            (Opcode::Return, RowState::Empty | RowState::Perhaps) => Err(Cause::NoRow.under(LAYER)),
            _ => Ok(()),
        }
    }

    fn size(&self, _unit: &Unit<'_>, _state: &RowState) -> Option<usize> {
        Some(1)
    }

    fn write(&self, unit: &Unit<'_>, state: &RowState, out: &mut [u8]) -> Option<usize> {
        let first = out.first_mut()?;
        *first = u8::from(*state);
        self.size(unit, state)
    }

    fn read(&self, _unit: &Unit<'_>, bytes: &[u8]) -> Result<(RowState, usize), Unreadable> {
        let byte = bytes.first().ok_or(Unreadable { layer: LAYER })?;
        Ok((RowState::try_from(*byte)?, 1))
    }
}
