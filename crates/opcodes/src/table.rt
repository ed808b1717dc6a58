ghost use Rattle.std.specs.Prelude.{◌≡◌, true};
ghost use Rattle.opcodes.specs.Table.{line_of, numbered, table as table_of};
ghost use Rattle.opcodes.specs.Numbers.{opcode_number};
ghost use Rattle.opcodes.specs.TableRule.{every_line_keeps, jumps};

use crate::opcode::{Opcode, Row, Shape, Sort, Takes, UnknownOpcode, Ways};

static ROWS: [Row; 15] = [
    Row {
        opcode: Opcode::Push,
        name: "push",
        takes: Takes::Nothing,
        leaves: Some(Shape::Int),
        sort: Sort::Number,
        ways: Ways::Next,
    },
    Row {
        opcode: Opcode::Nil,
        name: "nil",
        takes: Takes::Nothing,
        leaves: Some(Shape::Null),
        sort: Sort::Unused,
        ways: Ways::Next,
    },
    Row {
        opcode: Opcode::Load,
        name: "load",
        takes: Takes::Nothing,
        leaves: Some(Shape::OfSlot),
        sort: Sort::Slot,
        ways: Ways::Next,
    },
    Row {
        opcode: Opcode::Store,
        name: "store",
        takes: Takes::One(Shape::OfSlot),
        leaves: None,
        sort: Sort::Slot,
        ways: Ways::Next,
    },
    Row {
        opcode: Opcode::Drop,
        name: "drop",
        takes: Takes::One(Shape::Any),
        leaves: None,
        sort: Sort::Unused,
        ways: Ways::Next,
    },
    Row {
        opcode: Opcode::Add,
        name: "add",
        takes: Takes::Two(Shape::Int, Shape::Int),
        leaves: Some(Shape::Int),
        sort: Sort::Unused,
        ways: Ways::Next,
    },
    Row {
        opcode: Opcode::Less,
        name: "less",
        takes: Takes::Two(Shape::Int, Shape::Int),
        leaves: Some(Shape::Int),
        sort: Sort::Unused,
        ways: Ways::Next,
    },
    Row {
        opcode: Opcode::Jump,
        name: "jump",
        takes: Takes::Nothing,
        leaves: None,
        sort: Sort::Target,
        ways: Ways::Jump,
    },
    Row {
        opcode: Opcode::Branch,
        name: "branch",
        takes: Takes::One(Shape::Int),
        leaves: None,
        sort: Sort::Target,
        ways: Ways::Both,
    },
    Row {
        opcode: Opcode::Brnull,
        name: "brnull",
        takes: Takes::One(Shape::Ref),
        leaves: None,
        sort: Sort::Target,
        ways: Ways::Both,
    },
    Row {
        opcode: Opcode::New,
        name: "new",
        takes: Takes::Nothing,
        leaves: Some(Shape::OfClass),
        sort: Sort::Class,
        ways: Ways::Next,
    },
    Row {
        opcode: Opcode::Get,
        name: "get",
        takes: Takes::One(Shape::OfOwner),
        leaves: Some(Shape::OfField),
        sort: Sort::Field,
        ways: Ways::Next,
    },
    Row {
        opcode: Opcode::Put,
        name: "put",
        takes: Takes::Two(Shape::OfOwner, Shape::OfField),
        leaves: None,
        sort: Sort::Field,
        ways: Ways::Next,
    },
    Row {
        opcode: Opcode::Post,
        name: "post",
        takes: Takes::One(Shape::Int),
        leaves: None,
        sort: Sort::Unused,
        ways: Ways::Next,
    },
    Row {
        opcode: Opcode::Return,
        name: "return",
        takes: Takes::Nothing,
        leaves: None,
        sort: Sort::Unused,
        ways: Ways::End,
    },
];

/// The instruction of a number in a file.
impl TryFrom<u8> for Opcode {
    type Error = UnknownOpcode;

    ghost try_from_gives = { λ byte r. r ≡ numbered byte };

    fn try_from(byte: u8) -> Result<Opcode, UnknownOpcode> {
        match byte {
            0 => Ok(Opcode::Push),
            1 => Ok(Opcode::Nil),
            2 => Ok(Opcode::Load),
            3 => Ok(Opcode::Store),
            4 => Ok(Opcode::Drop),
            5 => Ok(Opcode::Add),
            6 => Ok(Opcode::Less),
            7 => Ok(Opcode::Jump),
            8 => Ok(Opcode::Branch),
            9 => Ok(Opcode::Brnull),
            10 => Ok(Opcode::New),
            11 => Ok(Opcode::Get),
            12 => Ok(Opcode::Put),
            13 => Ok(Opcode::Post),
            14 => Ok(Opcode::Return),
            _ => Err(UnknownOpcode { byte }),
        }
    }
}

/// The number of an instruction in a file.
impl From<Opcode> for u8 {
    ghost from_gives = { λ opcode r. r ≡ opcode_number opcode };

    fn from(opcode: Opcode) -> u8 {
        opcode as u8
    }
}

impl Opcode {
    /// What the table says of an instruction.
    pub fn row(self) -> Row
        ensures opcode { result.opcode ≡ self }
        ensures name { result.name.now ≡ (line_of self).name }
        ensures takes { result.takes ≡ (line_of self).takes }
        ensures leaves { result.leaves ≡ (line_of self).leaves }
        ensures sort { result.sort ≡ (line_of self).sort }
        ensures ways { result.ways ≡ (line_of self).ways }
        ensures rule { every_line_keeps table_of ≡ true }
    {
        ROWS[self as usize]
    }
}

impl Ways {
    /// Whether a run may go on at the instruction that is named.
    pub fn has_jump(self) -> bool
        ensures { result ≡ jumps self }
    {
        matches!(self, Ways::Jump | Ways::Both)
    }
}
