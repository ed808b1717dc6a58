ghost use Rattle.std.specs.Prelude.{◌≡◌};
ghost use Rattle.types_theory.specs.Effect.{kind_of_shape, suits as suits_of};
ghost use Rattle.unit.specs.Model.{parts_of};

use kinds::kind::Kind;
use opcodes::opcode::Shape;
use tree::below;
use unit::unit::Unit;

/// What a shape of the opcode table is read by: the unit, and the number in the instruction, which names a slot, a class or a
/// field.
// Kept as a number that is taken apart in `kind`: the definition of a shape's kind speaks of the number.
#[derive(Clone, Copy)]
pub(crate) struct Context<'u, 'a> {
    pub(crate) unit: &'u Unit<'a>,
    pub(crate) number: u16,
}

impl Context<'_, '_> {
    /// The kind that a shape stands for. Values that may be anything are unusable.
    pub(crate) fn kind(&self, shape: Shape) -> Kind
        ensures { result ≡ kind_of_shape (parts_of self.now.unit.now) self.now.number shape }
    {
        let Context { unit, number } = *self;
        match shape {
            Shape::Int => Kind::Int,
            Shape::Null => Kind::Null,
            Shape::Ref | Shape::Any => Kind::Unusable,
            Shape::OfSlot => unit.slot(number as usize).unwrap_or(Kind::Int),
            Shape::OfClass => Kind::Class(number),
            Shape::OfOwner => Kind::Class(number / 8),
            Shape::OfField => unit
                .field(number / 8, (number % 8) as u8)
                .unwrap_or(Kind::Int),
        }
    }

    /// Whether an operand of a kind is what a shape asks for.
    pub(crate) fn suits(&self, shape: Shape, kind: Kind) -> bool
        ensures { result ≡ suits_of (parts_of self.now.unit.now) self.now.number shape kind }
    {
        match shape {
            Shape::Ref => matches!(kind, Kind::Null | Kind::Class(_)),
            _ => below(self.unit, kind, self.kind(shape)),
        }
    }
}
