use format::refusal::{ReadError, Refusal};
use std::fmt;

/// A refused reading, as its five numbers and a sentence.
// Kept as a wrapper, no plainer: the error belongs to `format`, and these sentences are the programs' own.
#[derive(Clone, Copy, Debug, PartialEq, Eq)]
pub struct Explained {
    pub error: ReadError,
}

impl fmt::Display for Explained {
    fn fmt<W: fmt::Write>(&self, f: &mut fmt::Formatter<W>) -> fmt::Result {
        writeln!(f, "refused: {}", Refusal::from(self.error))?;
        sentence(self.error, f)
    }
}

/// What is wrong and where, in words.
fn sentence<W: fmt::Write>(error: ReadError, f: &mut fmt::Formatter<W>) -> fmt::Result {
    match error {
        ReadError::Framing(byte) => framing(byte, f),
        ReadError::Head => f.write_str(
            "the head is not two bytes, the version 1 and a depth of at most 16",
        ),
        ReadError::Class(class) => class_rule(class, f),
        ReadError::Slot(slot) => slot_rule(slot, f),
        ReadError::Code(at) => code_rule(at, f),
    }
}

/// Where the fields do not stand one after another.
fn framing<W: fmt::Write>(byte: usize, f: &mut fmt::Formatter<W>) -> fmt::Result {
    write!(
        f,
        "at byte {byte} the next field is missing, has a wrong tag or runs past the end, or bytes are left over after the fourth"
    )
}

/// What the class table or one class should be.
fn class_rule<W: fmt::Write>(class: usize, f: &mut fmt::Formatter<W>) -> fmt::Result {
    if class == 0 {
        return f.write_str(
            "the class table is not 1 to 256 records of 19 bytes, or class 0 is not the root, all of whose bytes are 0",
        );
    }
    write!(
        f,
        "class {class} breaks the class rule: a parent of lower number, at most eight fields that begin with the parent's, "
    )?;
    f.write_str("each int or a class of the unit, and 0000 for each field that it has not")
}

/// What the slot table or one slot should be.
fn slot_rule<W: fmt::Write>(slot: usize, f: &mut fmt::Formatter<W>) -> fmt::Result {
    if slot == 0 {
        return f.write_str(
            "the slot table is not 1 to 32 kinds of two bytes, or slot 0 is not a class of the unit",
        );
    }
    write!(f, "slot {slot} is neither int nor a class of the unit")
}

/// What the code or one instruction should be.
fn code_rule<W: fmt::Write>(at: usize, f: &mut fmt::Formatter<W>) -> fmt::Result {
    if at == 0 {
        f.write_str("the code is not 1 to 1024 instructions of three bytes, or ")?;
    }
    write!(
        f,
        "instruction {at} is none of the fifteen, or its operand names nothing that the unit has, or is not 0 where it is unused"
    )
}
