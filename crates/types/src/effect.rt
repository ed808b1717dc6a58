ghost use Rattle.std.specs.Prelude.{◌≡◌};
ghost use Rattle.types.specs.Popping.{Left, Taken, TakenOne};
ghost use Rattle.types_theory.specs.Effect.{left, shallow, taken};
ghost use Rattle.unit.specs.Model.{parts_of};

use crate::LAYER;
use crate::operands::Operands;
use crate::shapes::Context;
use analysis_theory::fault::{Cause, Fault};
use opcodes::opcode::{Shape, Takes};

impl Operands {
    /// Takes one operand off, which has to be of a shape. It stood at this distance from the top when the instruction began.
    fn take_one(
        &mut self,
        context: &Context<'_, '_>,
        shape: Shape,
        distance: u8,
    ) -> Result<(), Fault>
        ensures { TakenOne (parts_of context.now.unit.now) context.now.number shape distance self.old result self.new }
    {
        let Some(kind) = self.pop() else {
            return Err(Cause::TooFew.under(LAYER));
        };
        if context.suits(shape, kind) {
            Ok(())
        } else {
            Err(Cause::Misfit { distance }.under(LAYER))
        }
    }

    /// Takes off what an instruction takes, the top one first. That there are too few comes before one that does not fit.
    pub(crate) fn take(&mut self, context: &Context<'_, '_>, takes: Takes) -> Result<(), Fault>
        ensures { Taken (taken (parts_of context.now.unit.now) context.now.number takes self.old) result self.new }
    {
        match takes {
            Takes::Nothing => Ok(()),
            Takes::One(only) => self.take_one(context, only, 0),
            Takes::Two(lower, upper) => {
                if self.len() < 2 {
                    return Err(Cause::TooFew.under(LAYER));
                }
                self.take_one(context, upper, 0)?;
                self.take_one(context, lower, 1)
            }
        }
    }

    /// Puts on what an instruction leaves, unless more operands would stand than the head allows.
    pub(crate) fn leave(
        &mut self,
        context: &Context<'_, '_>,
        leaves: Option<Shape>,
    ) -> Result<(), Fault>
        ensures { Left (shallow (parts_of context.now.unit.now) (left (parts_of context.now.unit.now) context.now.number leaves self.old)) result self.new }
    {
        let depth = self.len() + usize::from(leaves.is_some());
        if depth > usize::from(context.unit.depth()) {
            return Err(Cause::TooDeep.under(LAYER));
        }
        if let Some(shape) = leaves {
            self.push(context.kind(shape));
        }
        Ok(())
    }
}
