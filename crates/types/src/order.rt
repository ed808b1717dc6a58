ghost use Rattle.std.specs.Prelude.{◌≡◌};
ghost use Rattle.analysis_theory.specs.Methods.{Joined};
ghost use Rattle.types_theory.specs.Order.{all_below, joined_kinds};
ghost use Rattle.unit.specs.Model.{parts_of};

use crate::operands::Operands;
use analysis_theory::fault::NoJoin;
use tree::{below, join};
use unit::unit::Unit;

impl Operands {
    /// Whether another stack is of equal depth and each kind of this one lies below that of the other.
    pub(crate) fn lies_below(&self, unit: &Unit<'_>, other: &Operands) -> bool
        ensures { result ≡ all_below (parts_of unit.now) self.now other.now }
    {
        let kinds = self.as_slice();
        let others = other.as_slice();
        kinds.len() == others.len() && kinds.iter().zip(others).all(|(a, b)| below(unit, *a, *b))
    }

    /// Raises each kind to the least one above it and another stack's, and tells whether any rose.
    pub(crate) fn join(&mut self, unit: &Unit<'_>, other: &Operands) -> Result<bool, NoJoin>
        ensures { Joined (joined_kinds (parts_of unit.now) self.old other.now) self.old result self.new }
    {
        if self.len() != other.len() {
            return Err(NoJoin);
        }
        let kinds = self.as_slice();
        let mut joined = *self;
        let mut rose = false;
        for (i, other) in other.as_slice().iter().enumerate() {
            let kind = join(unit, kinds[i], *other);
            rose |= kind != kinds[i];
            joined.replace(i, kind);
        }
        *self = joined;
        Ok(rose)
    }
}
