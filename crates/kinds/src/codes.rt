ghost use Rattle.std.specs.Prelude.{◌≡◌};
ghost use Rattle.kinds.specs.Codes.{kind_of, kind_code};

use crate::kind::Kind;

const INT: u16 = 0xFFFF;

const NULL: u16 = 0xFFFE;

const UNUSABLE: u16 = 0xFFFD;

/// The kind that two bytes of a file stand for.
impl From<u16> for Kind {
    ghost from_gives = { λ code r. r ≡ kind_of code };

    fn from(code: u16) -> Kind {
        match code {
            INT => Kind::Int,
            NULL => Kind::Null,
            UNUSABLE => Kind::Unusable,
            class => Kind::Class(class),
        }
    }
}

/// The two bytes that stand for a kind.
impl From<Kind> for u16 {
    ghost from_gives = { λ k r. r ≡ kind_code k };

    fn from(kind: Kind) -> u16 {
        match kind {
            Kind::Int => INT,
            Kind::Null => NULL,
            Kind::Unusable => UNUSABLE,
            Kind::Class(class) => class,
        }
    }
}
