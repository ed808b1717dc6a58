ghost use Rattle.std.specs.Prelude.{◌≡◌, ◌<◌, ◌≤◌, [], ◌∷◌, length, reverse, ◌==◌, nat_le, if◌then◌else◌, Some, None, slice_set};
ghost use Rattle.types.specs.Popping.{Popped};

use kinds::kind::Kind;
use std::marker::Model;

/// The kinds of the operands on the stack, sixteen at most. A contract sees them as a list, the top one first.
#[derive(Clone, Copy, Debug, PartialEq, Eq)]
pub struct Operands {
    // Kept as an array with a length: the project has no heap, and a state is copied
    kinds: [Kind; 16],
    depth: usize,
}

impl Model for Operands {
    ghost use Rattle.std.specs.Prelude.{List};
    ghost use Rattle.kinds.specs.declared.kind.Kind.{Kind};

    ghost Value = { List Kind };

    ghost use Rattle.types.specs.Cells.{stack_in, Cells, cells_of, cells_back};

    ghost view = { stack_in };

    ghost invariant = { Cells };

    ghost inverse = { cells_of };

    ghost inverse_ok = { cells_back };
}

impl Operands {
    /// No operands.
    pub fn new() -> Operands
        ensures { result ≡ [] }
    {
        Operands {
            kinds: [Kind::Int; 16],
            depth: 0,
        }
    }

    /// The stack of these kinds, from the bottom up, if there are sixteen at most.
    pub fn from_slice(kinds: &[Kind]) -> Option<Operands>
        ensures { result ≡ (if nat_le (length kinds.now) 16 then Some (reverse kinds.now) else None) }
    {
        if kinds.len() > 16 {
            return None;
        }
        let mut operands = Operands::new();
        for kind in kinds {
            operands.push(*kind);
        }
        Some(operands)
    }

    /// The kinds from the bottom up.
    pub fn as_slice(&self) -> &[Kind]
        ensures kinds { result.now ≡ reverse self.now }
        ensures few { length result.now ≤ 16 }
    {
        &self.kinds[..self.depth]
    }

    /// How many operands there are.
    pub fn len(&self) -> usize
        ensures number { result ≡ length self.now }
        ensures few { result ≤ 16 }
    {
        self.as_slice().len()
    }

    /// Whether there is none.
    pub fn is_empty(&self) -> bool
        ensures { result ≡ (length self.now == 0) }
    {
        self.depth == 0
    }

    /// Puts an operand on top.
    pub(crate) fn push(&mut self, kind: Kind)
        requires { length self.old < 16 }
        ensures { self.new ≡ kind ∷ self.old }
    {
        self.kinds[self.depth] = kind;
        self.depth += 1;
    }

    /// Puts a kind in the place of the one that stands at a place, counted from the bottom.
    pub(crate) fn replace(&mut self, at: usize, kind: Kind)
        requires { at < length self.old }
        ensures { self.new ≡ reverse (slice_set (reverse self.old) at kind) }
    {
        let kinds = &mut self.kinds;
        kinds[at] = kind;
    }

    /// Takes the top operand off, if there is one.
    pub fn pop(&mut self) -> Option<Kind>
        ensures { Popped self.old result self.new }
    {
        let top = self.depth.checked_sub(1)?;
        let kind = self.kinds[top];
        self.kinds[top] = Kind::Int;
        self.depth = top;
        Some(kind)
    }
}
