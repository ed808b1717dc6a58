/// The instructions, in the order of their numbers in a file, from 0.
#[derive(Clone, Copy, Debug, PartialEq, Eq, Hash)]
pub enum Opcode {
    Push,
    Nil,
    Load,
    Store,
    Drop,
    Add,
    Less,
    Jump,
    Branch,
    Brnull,
    New,
    Get,
    Put,
    Post,
    Return,
}

/// What an operand on the stack has to be, or is left as.
#[derive(Clone, Copy, Debug, PartialEq, Eq, Hash)]
pub enum Shape {
    Int,
    Null,
    /// Null or any object.
    Ref,
    Any,
    /// The kind of the slot that the instruction names.
    OfSlot,
    /// The class that the instruction names.
    OfClass,
    /// The class whose field the instruction names.
    OfOwner,
    /// The kind of the field that the instruction names.
    OfField,
}

/// The operands that an instruction takes off the stack, the top one last.
#[derive(Clone, Copy, Debug, PartialEq, Eq, Hash)]
pub enum Takes {
    Nothing,
    One(Shape),
    Two(Shape, Shape),
}

/// What an instruction's two-byte number names.
#[derive(Clone, Copy, Debug, PartialEq, Eq, Hash)]
pub enum Sort {
    /// Nothing: the number is 0.
    Unused,
    /// A signed number: every value is good.
    Number,
    Slot,
    Class,
    /// Eight times a class number, plus the number of one of its fields.
    Field,
    /// An instruction to jump to.
    Target,
}

/// Where a run goes on after an instruction.
#[derive(Clone, Copy, Debug, PartialEq, Eq, Hash)]
pub enum Ways {
    /// At the following instruction.
    Next,
    /// At the instruction that it names.
    Jump,
    /// At either.
    Both,
    /// Nowhere: the run ends.
    End,
}

/// All that the table says of one instruction.
#[derive(Clone, Copy, Debug, PartialEq, Eq, Hash)]
pub struct Row {
    pub opcode: Opcode,
    pub name: &'static str,
    pub takes: Takes,
    pub leaves: Option<Shape>,
    pub sort: Sort,
    pub ways: Ways,
}

/// A byte that is the number of no instruction.
#[derive(Clone, Copy, Debug, PartialEq, Eq, Hash)]
pub struct UnknownOpcode {
    pub byte: u8,
}

/// One instruction of a rule: what to do, and its two-byte number.
#[derive(Clone, Copy, Debug, PartialEq, Eq, Hash)]
pub struct Instruction {
    pub opcode: Opcode,
    pub operand: u16,
}
