use kinds::kind::Kind;
use opcodes::opcode::Instruction;
use tree::{below, join};
use unit::unit::Unit;

/// A number that a long list of numbers leaves behind: each is added to 31 times what was there, in 32 bits.
#[derive(Clone, Copy, Debug)]
pub struct Digest(u32);

impl Digest {
    /// Adds a number.
    fn add(&mut self, n: u32) {
        self.0 = self.0.wrapping_mul(31).wrapping_add(n);
    }

    /// Adds the code of a kind.
    fn add_kind(&mut self, kind: Kind) {
        self.add(u32::from(u16::from(kind)));
    }

    /// Adds a class: its parent, how many fields it has, and their kinds.
    fn add_class(&mut self, unit: &Unit, class: u16, parent: u16) {
        let fields = unit.field_count(class).unwrap_or(0);
        self.add(u32::from(parent));
        self.add(u32::from(fields));
        for kind in (0..fields).filter_map(|field| unit.field(class, field)) {
            self.add_kind(kind);
        }
    }

    /// Adds an instruction: its opcode's number and its operand.
    fn add_instruction(&mut self, instruction: Instruction) {
        self.add(u32::from(u8::from(instruction.opcode)));
        self.add(u32::from(instruction.operand));
    }

    /// Adds whether one kind lies below another, and the least kind above both.
    fn add_pair(&mut self, unit: &Unit, a: Kind, b: Kind) {
        self.add(u32::from(below(unit, a, b)));
        self.add_kind(join(unit, a, b));
    }

    /// All that a unit says: depth, classes, slots and code, each table after its count.
    pub fn of_parts(unit: &Unit) -> u32 {
        let mut digest = Digest(0);
        digest.add(u32::from(unit.depth()));
        digest.add(unit.class_count() as u32);
        for class in 0..unit.class_count() as u16 {
            if let Some(parent) = unit.parent(class) {
                digest.add_class(unit, class, parent);
            }
        }
        digest.add(unit.slot_count() as u32);
        for kind in (0..unit.slot_count()).filter_map(|slot| unit.slot(slot)) {
            digest.add_kind(kind);
        }
        digest.add(unit.code_len() as u32);
        for instruction in (0..unit.code_len()).filter_map(|at| unit.instruction(at)) {
            digest.add_instruction(instruction);
        }
        digest.0
    }

    /// For each two of some kinds, whether one lies below the other, and the least kind above both.
    pub fn of_kinds(unit: &Unit) -> u32 {
        let classes = unit.class_count() as u16;
        let mut digest = Digest(0);
        // the classes among them: the first twelve, the last, and one that the unit has not
        let numbers = || (0..classes.min(12)).chain([classes - 1, classes]);
        for a in PLAIN.into_iter().chain(numbers().map(Kind::Class)) {
            for b in PLAIN.into_iter().chain(numbers().map(Kind::Class)) {
                digest.add_pair(unit, a, b);
            }
        }
        digest.0
    }
}

/// The kinds that are no class.
const PLAIN: [Kind; 3] = [Kind::Int, Kind::Null, Kind::Unusable];
