ghost use Rattle.std.specs.Prelude.{◌≡◌};
ghost use Rattle.format.specs.Encoding.{encode};
ghost use Rattle.format.specs.Example.{example_rule};
ghost use Rattle.unit.specs.Model.{parts_of};

use crate::unit::Unit;
use format::layout::{Layout, Span};

/// The bytes of the built-in rule: a line for each field's header, the head, each class, the slots, each instruction.
const RULE: &[u8; 124] = b"\
    \x01\x00\x02\x01\x02\
    \x02\x00\x4C\
    \x00\x00\x00\x00\x00\x00\x00\x00\x00\x00\x00\x00\x00\x00\x00\x00\x00\x00\x00\
    \x00\x00\x01\xFF\xFF\x00\x00\x00\x00\x00\x00\x00\x00\x00\x00\x00\x00\x00\x00\
    \x00\x01\x02\xFF\xFF\xFF\xFF\x00\x00\x00\x00\x00\x00\x00\x00\x00\x00\x00\x00\
    \x00\x01\x01\xFF\xFF\x00\x00\x00\x00\x00\x00\x00\x00\x00\x00\x00\x00\x00\x00\
    \x03\x00\x04\
    \x00\x01\xFF\xFF\
    \x04\x00\x1E\
    \x02\x00\x00\
    \x0B\x00\x08\
    \x00\x00\x28\
    \x06\x00\x00\
    \x08\x00\x07\
    \x00\x00\x02\
    \x07\x00\x08\
    \x00\x00\x01\
    \x0D\x00\x00\
    \x0E\x00\x00";

impl<'a> Unit<'a> {
    /// The built-in rule, which fills a place until a unit is read into it.
    pub fn builtin() -> Unit<'a>
        ensures bytes { result.bytes.now ≡ encode example_rule }
        ensures parts { parts_of result ≡ example_rule }
    {
        Unit {
            bytes: RULE,
            layout: Layout {
                depth: 2,
                classes: Span { start: 8, count: 4 },
                slots: Span {
                    start: 87,
                    count: 2,
                },
                code: Span {
                    start: 94,
                    count: 10,
                },
            },
        }
    }
}
