use analysis_theory::both::Both;
use analysis_theory::fault::Fault;
use listing::targets::MAX_INSTRUCTIONS;
use rows_theory::state::RowState;
use slots_theory::set::SlotSet;
use types::operands::Operands;

/// The state of the three analyses: of types, and then of slots and rows.
pub type State = Both<Operands, Both<SlotSet, RowState>>;

/// How far the way has come on which every jump is taken: the instruction that it stands at, the state before it, and for
/// each number whether it has come to the instruction of that number.
#[derive(Clone, Copy, Debug, PartialEq, Eq)]
pub struct Way {
    pub at: usize,
    pub state: State,
    // kept as an array of the most instructions: a rule of the project, fixed memory and no heap
    pub seen: [bool; MAX_INSTRUCTIONS],
}

/// Why the way ends.
#[derive(Clone, Copy, Debug, PartialEq, Eq)]
pub enum End {
    /// It has come to a return.
    Returned,
    /// An analysis refuses this instruction.
    Refused { at: usize, fault: Fault },
    /// Past this instruction, which it goes on from, there is no other.
    Left(usize),
    /// It comes to this instruction for the second time.
    Again(usize),
}
