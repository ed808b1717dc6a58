ghost use Rattle.std.specs.Prelude.{◌≡◌, true, ◌&&◌, length, if◌then◌else◌, nat_lt, slice_set};
ghost use Rattle.unit.specs.Model.{parts_of};
ghost use Rattle.listing.specs.Targets.{is_jump, Marked};

use opcodes::opcode::Instruction;
use unit::unit::Unit;

/// The most instructions that a unit can have.
pub const MAX_INSTRUCTIONS: usize = 1024;

/// For each number, whether some jump of the code goes to the instruction of that number.
// kept as an array of the most instructions: a rule of the project, fixed memory and no heap
#[tactic(auto, using(crate::proofs::Marks::marked_more, crate::proofs::Marks::marked_past))]
pub fn targets(unit: &Unit) -> [bool; MAX_INSTRUCTIONS]
    ensures { Marked (parts_of unit.now) (length (parts_of unit.now).code) result }
{
    let mut marks = [false; MAX_INSTRUCTIONS];
    // Kept as a loop over the numbers: tried over the instructions (`filter_map`), and the proof did not close.
    for at in 0..unit.code_len() {
        if let Some(instruction) = unit.instruction(at) {
            mark(&mut marks, instruction);
        }
    }
    marks
}

/// Marks the instruction that another jumps to, if it does.
fn mark(marks: &mut [bool; MAX_INSTRUCTIONS], instruction: Instruction)
    ensures { marks.new ≡ (if is_jump instruction && nat_lt instruction.operand 1024 then slice_set marks.old instruction.operand true else marks.old) }
{
    let target = instruction.operand as usize;
    if instruction.opcode.row().ways.has_jump() && target < MAX_INSTRUCTIONS {
        marks[target] = true;
    }
}
