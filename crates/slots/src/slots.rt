ghost use Rattle.slots_theory.specs.Meaning.{slots_meaning};
ghost use Rattle.slots_theory.proofs.SlotsLaws.{slots_laws};

use analysis::analysis::Analysis;
use analysis_theory::fault::{Cause, Fault, NoJoin, Unreadable};
use opcodes::opcode::Opcode;
use slots_theory::set::SlotSet;
use unit::unit::Unit;

/// The layer of this analysis.
const LAYER: u8 = 2;

/// The analysis of the slots: which of them are surely set.
#[derive(Clone, Copy, Debug, PartialEq, Eq, Hash)]
pub struct Slots;

impl Analysis for Slots {
    type State = SlotSet;

    ghost meaning = { λ _ p. slots_meaning p };

    ghost laws = { λ a p k. slots_laws p k };

    fn start(&self, _unit: &Unit<'_>) -> SlotSet {
        SlotSet { bits: 1 }
    }

    fn below(&self, _unit: &Unit<'_>, a: &SlotSet, b: &SlotSet) -> bool {
        a.contains_all(*b)
    }

    #[tactic(auto, using(crate::proofs::Rising::rose_if_fell))]
    fn join(&self, _unit: &Unit<'_>, into: &mut SlotSet, other: &SlotSet) -> Result<bool, NoJoin> {
        let joined = into.intersection(*other);
        let rose = joined.height() < into.height();
        *into = joined;
        Ok(rose)
    }

    fn effect(&self, unit: &Unit<'_>, at: usize, state: &mut SlotSet) -> Result<(), Fault> {
        let instruction = unit.instruction(at).ok_or(Cause::Outside.under(LAYER))?;
        let slot = instruction.operand;
        match instruction.opcode {
            Opcode::Load if !state.contains(slot) => Err(Cause::Unset { slot }.under(LAYER)),
            Opcode::Store => {
                *state = state.with_slot(slot);
                Ok(())
            }
            _ => Ok(()),
        }
    }

    fn size(&self, _unit: &Unit<'_>, _state: &SlotSet) -> Option<usize> {
        Some(4)
    }

    fn write(&self, unit: &Unit<'_>, state: &SlotSet, out: &mut [u8]) -> Option<usize> {
        let front = out.first_chunk_mut::<4>()?;
        *front = state.bits.to_be_bytes();
        self.size(unit, state)
    }

    fn read(&self, unit: &Unit<'_>, bytes: &[u8]) -> Result<(SlotSet, usize), Unreadable> {
        let front = bytes.first_chunk::<4>().ok_or(Unreadable { layer: LAYER })?;
        let bits = u32::from_be_bytes(*front);
        if u64::from(bits) >= 1 << unit.slot_count() {
            return Err(Unreadable { layer: LAYER });
        }
        Ok((SlotSet { bits }, 4))
    }
}
