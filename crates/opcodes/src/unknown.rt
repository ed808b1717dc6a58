use crate::opcode::UnknownOpcode;
use std::error::Error;
use std::fmt;

impl fmt::Display for UnknownOpcode {
    fn fmt<W: fmt::Write>(&self, f: &mut fmt::Formatter<W>) -> fmt::Result {
        write!(f, "{} is the number of no instruction", self.byte)
    }
}

impl Error for UnknownOpcode {}
