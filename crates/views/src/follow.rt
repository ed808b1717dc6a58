ghost use Rattle.std.specs.Prelude.{◌≡◌};
ghost use Rattle.unit.specs.Model.{parts_of};
ghost use Rattle.views.specs.Way.{onward, LeadsOn, begun, comes, goes};

use crate::way::{End, Way};
use analysis::analysis::Analysis;
use listing::targets::MAX_INSTRUCTIONS;
use opcodes::opcode::Ways;
use three::three;
use unit::unit::Unit;

/// Where the way goes on after an instruction: the jump way's target, else the next instruction, else none.
pub fn follows(unit: &Unit, at: usize) -> Option<usize>
    ensures value { result ≡ onward (parts_of unit.now) at }
    ensures leads { LeadsOn (parts_of unit.now) at result }
{
    if at >= unit.code_len() {
        return None;
    }
    let instruction = unit.instruction(at)?;
    match instruction.opcode.row().ways {
        Ways::Jump | Ways::Both => Some(instruction.operand as usize),
        Ways::Next => Some(at + 1),
        Ways::End => None,
    }
}

impl Way {
    /// The way at its first instruction, in the state in which a run starts.
    pub fn begin(unit: &Unit) -> Way
        ensures { result ≡ begun (parts_of unit.now) }
    {
        let state = three().start(unit);
        let mut seen = [false; MAX_INSTRUCTIONS];
        seen[0] = true;
        Way { at: 0, state, seen }
    }

    /// Makes the effect of the instruction that the way stands at, and goes on to the one that follows, or tells why it
    /// ends.
    pub fn go_on(&mut self, unit: &Unit) -> Option<End>
        ensures why { result ≡ (goes (parts_of unit.now) self.old).why }
        ensures after { self.new ≡ (goes (parts_of unit.now) self.old).way }
    {
        let at = self.at;
        if let Err(fault) = three().effect(unit, at, &mut self.state) {
            return Some(End::Refused { at, fault });
        }
        match follows(unit, at) {
            Some(next) => self.come_to(unit, next),
            None => Some(End::Returned),
        }
    }

    /// Comes to an instruction, or tells why the way ends before it.
    fn come_to(&mut self, unit: &Unit, next: usize) -> Option<End>
        ensures why { result ≡ (comes (parts_of unit.now) self.old next).why }
        ensures after { self.new ≡ (comes (parts_of unit.now) self.old next).way }
    {
        if next >= unit.code_len() {
            return Some(End::Left(self.at));
        }
        if self.seen[next] {
            return Some(End::Again(next));
        }
        self.seen[next] = true;
        self.at = next;
        None
    }
}
