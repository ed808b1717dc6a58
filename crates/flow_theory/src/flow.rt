ghost use Rattle.std.specs.Prelude.{◌≡◌};
ghost use Rattle.flow_theory.specs.Refusals.{flow_refusal};
ghost use Rattle.flow_theory.specs.declared.flow.FlowFault.TheVariants.{Effect};

use analysis_theory::fault::Fault;
use format::refusal::Refusal;

/// The start's number in a refusal. No instruction has it: a code has fewer instructions.
const START: usize = 65535;

/// A fault of an analysis, and the instruction that it refuses.
#[derive(Clone, Copy, Debug, PartialEq, Eq)]
pub struct Located {
    pub at: usize,
    pub fault: Fault,
}

/// Why states do not flow through a rule as its certificate says.
#[derive(Clone, Copy, Debug, PartialEq, Eq)]
pub enum FlowFault {
    /// The state that comes from an instruction, or from the start where none is named, is not below the entry at a place.
    NotBelow { place: usize, from: Option<usize> },
    /// The analysis refuses an instruction.
    Effect(Located),
    /// The instruction that is jumped to has no entry.
    NoEntry { at: usize, target: usize },
    /// The next way leaves the code.
    Leaves { at: usize },
}

impl From<Located> for FlowFault {
    ghost from_gives = { λ l r. r ≡ Effect l };

    fn from(l: Located) -> FlowFault {
        FlowFault::Effect(l)
    }
}

impl From<FlowFault> for Refusal {
    ghost from_gives = { λ f r. r ≡ flow_refusal f };

    /// The five numbers of states that do not flow as a certificate says.
    fn from(fault: FlowFault) -> Refusal {
        let (number, place, detail) = match fault {
            FlowFault::Effect(Located { at, fault }) => {
                return Refusal {
                    number: 7,
                    place: at,
                    layer: fault.layer,
                    fault: fault.cause.number(),
                    detail: fault.cause.detail() as usize,
                };
            }
            FlowFault::Leaves { at } => (8, at, 0),
            FlowFault::NoEntry { at, target } => (14, at, target),
            FlowFault::NotBelow { place, from } => (15, place, from.unwrap_or(START)),
        };
        Refusal {
            number,
            place,
            detail,
            ..Refusal::default()
        }
    }
}
