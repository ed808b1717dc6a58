use crate::kind::Kind;
use std::fmt;

impl fmt::Display for Kind {
    fn fmt<W: fmt::Write>(&self, f: &mut fmt::Formatter<W>) -> fmt::Result {
        match *self {
            Kind::Int => f.write_str("int"),
            Kind::Null => f.write_str("null"),
            Kind::Unusable => f.write_str("unusable"),
            Kind::Class(class) => write!(f, "class {class}"),
        }
    }
}
