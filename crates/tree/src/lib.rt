//! The class tree: which kinds lie below which, and the least kind above two.
#![tactic(auto)]

ghost use Rattle.std.specs.Prelude.{◌≡◌, Decides};
ghost use Rattle.kinds.specs.declared.kind.Kind.TheVariants.{Class};
ghost use Rattle.lattice.specs.Computing.{lies, least_of};
ghost use Rattle.lattice.specs.Order.{Below, Least, Order};
ghost use Rattle.unit.specs.Model.{parts_of};

use kinds::kind::Kind;
use unit::unit::Unit;

/// Whether one kind lies below another.
pub fn below(unit: &Unit<'_>, a: Kind, b: Kind) -> bool
    ensures decides { Decides result (Below (parts_of unit.now) a b) }
    ensures value { result ≡ lies (parts_of unit.now) a b }
    ensures order { Order (parts_of unit.now) }
{
    match b {
        Kind::Unusable => true,
        Kind::Int => matches!(a, Kind::Int),
        Kind::Null => matches!(a, Kind::Null),
        Kind::Class(to) => match a {
            Kind::Null => true,
            Kind::Class(from) => descends(unit, from, to),
            Kind::Int | Kind::Unusable => false,
        },
    }
}

/// The least kind above two.
pub fn join(unit: &Unit<'_>, a: Kind, b: Kind) -> Kind
    ensures least { Least (parts_of unit.now) a b result }
    ensures value { result ≡ least_of (parts_of unit.now) a b }
{
    match a {
        Kind::Unusable => Kind::Unusable,
        Kind::Int => match b {
            Kind::Int => Kind::Int,
            Kind::Null | Kind::Unusable | Kind::Class(_) => Kind::Unusable,
        },
        Kind::Null => match b {
            Kind::Null | Kind::Class(_) => b,
            Kind::Int | Kind::Unusable => Kind::Unusable,
        },
        Kind::Class(first) => match b {
            Kind::Null => a,
            Kind::Class(second) => join_classes(unit, first, second),
            Kind::Int | Kind::Unusable => Kind::Unusable,
        },
    }
}

/// Whether a class is another or has it as an ancestor: climbs from the first until it meets the second,
/// the root, or a class that the unit has not.
fn descends(unit: &Unit<'_>, from: u16, to: u16) -> bool
    ensures { Decides result (Below (parts_of unit.now) (Class from) (Class to)) }
{
    let mut at = from;
    while at != to {
        if at == 0 {
            return false;
        }
        let Some(up) = unit.parent(at) else {
            return false;
        };
        at = up;
    }
    true
}

/// The least kind above two classes: climbs from whichever has the larger number until the two meet.
fn join_classes(unit: &Unit<'_>, first: u16, second: u16) -> Kind
    ensures { Least (parts_of unit.now) (Class first) (Class second) result }
{
    let mut left = first;
    let mut right = second;
    while left != right {
        if left > right {
            let Some(up) = unit.parent(left) else {
                return Kind::Unusable;
            };
            left = up;
        } else {
            let Some(up) = unit.parent(right) else {
                return Kind::Unusable;
            };
            right = up;
        }
    }
    Kind::Class(left)
}
