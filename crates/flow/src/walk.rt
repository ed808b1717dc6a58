ghost use Rattle.std.specs.Prelude.{◌≡◌, ◌+◌, ◌<◌, length, cond, if◌then◌else◌, Some, None, Ok, Err, nat_lt};
ghost use Rattle.flow_theory.specs.Walk.{and_then, sender_of, jump_to as jump_to_of, jumped, onward as onward_of, turn as turn_of, walk as walk_of};
ghost use Rattle.flow_theory.specs.declared.flow.FlowFault.TheVariants.{Leaves, NotBelow};
ghost use Rattle.machine.specs.Ways.{passes};
ghost use Rattle.flow.specs.Tables.{listed};
ghost use Rattle.flow.specs.Answers.{EffectedAt, HeldAt};
ghost use Rattle.unit.specs.Model.{parts_of};

use crate::tables::Entries;
use analysis::analysis::Analysis;
use flow_theory::flow::{FlowFault, Located};
use opcodes::opcode::{Instruction, Opcode, Ways};
use unit::unit::Unit;

/// Where what arrives at an instruction comes from: the one before it, and none for the start.
fn came_from(at: usize) -> Option<usize>
    ensures { result ≡ sender_of at }
{
    at.checked_sub(1)
}

/// Whether a run may go on at the following instruction.
fn has_next(ways: Ways) -> bool
    ensures { result ≡ passes ways }
{
    matches!(ways, Ways::Next | Ways::Both)
}

/// What arrives at the next instruction, where there is a next way.
fn onward<S: Copy>(ways: Ways, code: usize, at: usize, state: S) -> Result<Option<S>, FlowFault>
    requires { at < code }
    ensures { result ≡ (if passes ways then (if nat_lt (at + 1) code then Ok (Some state) else Err (Leaves at)) else Ok None) }
{
    if !has_next(ways) {
        return Ok(None);
    }
    if at + 1 < code {
        Ok(Some(state))
    } else {
        Err(FlowFault::Leaves { at })
    }
}

/// A walk over the code of a unit: the analysis whose states flow, and the entries of a certificate.
#[derive(Drop)]
pub(crate) struct Walk<'a, A: Analysis> {
    pub(crate) analysis: &'a A,
    pub(crate) unit: &'a Unit<'a>,
    pub(crate) entries: &'a Entries<'a, A::State>,
}

impl<A: Analysis> Walk<'_, A> {
    /// Compares a state with the entry at the place where it arrives, below which it has to lie.
    fn compare(
        &self,
        state: &A::State,
        entry: &A::State,
        place: usize,
        from: Option<usize>,
    ) -> Result<(), FlowFault>
        ensures { result ≡ cond ((A.Analysis.meaning self.now.analysis.now (parts_of self.now.unit.now)).below state.now entry.now) (Ok tt) (Err (NotBelow place from)) }
    {
        if self.analysis.below(self.unit, state, entry) {
            Ok(())
        } else {
            Err(FlowFault::NotBelow { place, from })
        }
    }

    /// The effect of an instruction, with the instruction's number beside a fault.
    fn effect_at(&self, at: usize, state: &mut A::State) -> Result<(), Located>
        ensures { EffectedAt ((A.Analysis.meaning self.now.analysis.now (parts_of self.now.unit.now)).after at state.old) at result state.new }
    {
        self.analysis
            .effect(self.unit, at, state)
            .map_err(|fault| Located { at, fault })
    }

    /// What is held at an instruction: its entry, below which what arrives has to lie, else what arrives.
    fn hold(&self, at: usize, arriving: Option<A::State>) -> Result<Option<A::State>, FlowFault>
        ensures { HeldAt (A.Analysis.meaning self.now.analysis.now (parts_of self.now.unit.now)) at (listed self.now.entries.now at) arriving result }
    {
        let Some(entry) = self.entries.get(at) else {
            return Ok(arriving);
        };
        if let Some(state) = arriving {
            self.compare(&state, &entry, at, came_from(at))?;
        }
        Ok(Some(entry))
    }

    /// Whether a jump's target has an entry above a state.
    fn jump_to(&self, at: usize, target: usize, state: &A::State) -> Result<(), FlowFault>
        ensures { result ≡ jump_to_of (A.Analysis.meaning self.now.analysis.now (parts_of self.now.unit.now)) at target state.now (listed self.now.entries.now target) }
    {
        let entry = self
            .entries
            .get(target)
            .ok_or(FlowFault::NoEntry { at, target })?;
        self.compare(state, &entry, target, Some(at))
    }

    /// Lets the state after an instruction flow to a jump's target and to the next instruction.
    fn flow_on(&self, at: usize, state: A::State) -> Result<Option<A::State>, FlowFault>
        requires { at < length (parts_of self.now.unit.now).code }
        ensures { result ≡ and_then (jumped (parts_of self.now.unit.now) (A.Analysis.meaning self.now.analysis.now (parts_of self.now.unit.now)) (listed self.now.entries.now) at state) (onward_of (parts_of self.now.unit.now) at state) }
    {
        let Some(instruction) = self.unit.instruction(at) else {
            return Ok(None);
        };
        let ways = instruction.opcode.row().ways;
        if ways.has_jump() {
            self.jump_to(at, instruction.operand as usize, &state)?;
        }
        onward(ways, self.unit.code_len(), at, state)
    }

    /// One instruction: from what arrives there to what arrives at the next one.
    fn turn(&self, at: usize, arriving: Option<A::State>) -> Result<Option<A::State>, FlowFault>
        requires { at < length (parts_of self.now.unit.now).code }
        ensures { result ≡ turn_of (parts_of self.now.unit.now) (A.Analysis.meaning self.now.analysis.now (parts_of self.now.unit.now)) (listed self.now.entries.now) at arriving }
    {
        let Some(mut state) = self.hold(at, arriving)? else {
            return Ok(None);
        };
        self.effect_at(at, &mut state)?;
        self.flow_on(at, state)
    }

    /// Walks upward from instruction 0, where the start arrives.
    #[tactic(auto, using(crate::proofs::Turning::walks_on))]
    pub(crate) fn run(&self) -> Result<(), FlowFault>
        ensures { result ≡ walk_of (parts_of self.now.unit.now) (A.Analysis.meaning self.now.analysis.now (parts_of self.now.unit.now)) (listed self.now.entries.now) }
    {
        let mut arriving = Some(self.analysis.start(self.unit));
        for at in 0..self.unit.code_len() {
            arriving = self.turn(at, arriving)?;
        }
        Ok(())
    }
}
