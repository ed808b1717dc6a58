ghost use Rattle.std.specs.Prelude.{◌≡◌, ℕ, ◌<◌, ◌≤◌, length};
ghost use Rattle.format.specs.Parts.{within, parent_of, field_count, field_of, slot_of, instruction_of};
ghost use Rattle.format.specs.Rules.{Keeps};
ghost use Rattle.unit.specs.Model.{parts_of, field_in};

use crate::unit::Unit;
use kinds::kind::Kind;
use opcodes::opcode::{Instruction, Opcode};
use reader::bytes::{are_bytes, word};

impl<'a> Unit<'a> {
    /// Does nothing, and tells a proof that the unit keeps the rules.
    // Kept beside the invariant, as `tables` is.
    pub fn keeps_rules(&self)
        ensures { Keeps (parts_of self.now) }
    {
        are_bytes(self.bytes);
    }

    /// How many bytes the unit has.
    pub fn byte_len(&self) -> usize
        ensures { result ≡ length self.now.bytes.now }
    {
        self.bytes.len()
    }

    /// The greatest number of operands that may stand on the stack, at most 16.
    pub fn depth(&self) -> u8
        ensures value { result ≡ (parts_of self.now).depth }
        ensures bound { result ≤ 16 }
    {
        self.tables();
        self.layout.depth
    }

    /// How many classes there are, from 1 to 256.
    pub fn class_count(&self) -> usize
        ensures value { result ≡ length (parts_of self.now).classes }
        ensures bound { (0 < result) × (result ≤ 256) }
    {
        self.tables();
        self.layout.classes.count
    }

    /// The parent of a class: of lower number, but for the root's.
    pub fn parent(&self, class: u16) -> Option<u16>
        ensures value { result ≡ within class (length (parts_of self.now).classes) (parent_of (parts_of self.now) class) }
        ensures lower { (c : ℕ) → 0 < c → c < length (parts_of self.now).classes → parent_of (parts_of self.now) c < c }
    {
        self.tables();
        let at = self.class_place(class)?;
        Some(word(self.bytes, at))
    }

    /// How many fields a class has, its parent's among them: at most eight.
    pub fn field_count(&self, class: u16) -> Option<u8>
        ensures { result ≡ within class (length (parts_of self.now).classes) (field_count (parts_of self.now) class) }
    {
        let at = self.class_place(class)?;
        Some(self.bytes[at + 2])
    }

    /// The kind of a field of a class.
    pub fn field(&self, class: u16, field: u8) -> Option<Kind>
        ensures { result ≡ field_in (parts_of self.now) class field }
    {
        let at = self.class_place(class)?;
        if field >= self.bytes[at + 2] {
            return None;
        }
        Some(Kind::from(word(self.bytes, at + 3 + 2 * field as usize)))
    }

    /// How many slots there are, from 1 to 32.
    pub fn slot_count(&self) -> usize
        ensures value { result ≡ length (parts_of self.now).slots }
        ensures bound { (0 < result) × (result ≤ 32) }
    {
        self.tables();
        self.layout.slots.count
    }

    /// The kind of a slot: int or a class.
    pub fn slot(&self, slot: usize) -> Option<Kind>
        ensures { result ≡ within slot (length (parts_of self.now).slots) (slot_of (parts_of self.now) slot) }
    {
        let at = self.slot_place(slot)?;
        Some(Kind::from(word(self.bytes, at)))
    }

    /// How many instructions there are, from 1 to 1,024.
    pub fn code_len(&self) -> usize
        ensures value { result ≡ length (parts_of self.now).code }
        ensures bound { (0 < result) × (result ≤ 1024) }
    {
        self.tables();
        self.layout.code.count
    }

    /// An instruction, by its number.
    pub fn instruction(&self, at: usize) -> Option<Instruction>
        ensures { result ≡ within at (length (parts_of self.now).code) (instruction_of (parts_of self.now) at) }
    {
        let place = self.instruction_place(at)?;
        let opcode = Opcode::try_from(self.bytes[place]).ok()?;
        Some(Instruction {
            opcode,
            operand: word(self.bytes, place + 1),
        })
    }
}
