ghost use Rattle.std.specs.Prelude.{◌≡◌, ◌≤◌, length, IfOk};
ghost use Rattle.analysis_theory.specs.Methods.{ReadAs, written_in, written_length};
ghost use Rattle.types_theory.specs.Order.{known as known_in};
ghost use Rattle.types_theory.specs.Writing.{stack_bytes, stack_read};
ghost use Rattle.unit.specs.Model.{parts_of};

use crate::LAYER;
use crate::operands::Operands;
use analysis_theory::fault::Unreadable;
use kinds::kind::Kind;
use unit::unit::Unit;

/// Whether the unit has a kind.
fn known(unit: &Unit<'_>, kind: Kind) -> bool
    ensures { result ≡ known_in (parts_of unit.now) kind }
{
    match kind {
        Kind::Class(class) => usize::from(class) < unit.class_count(),
        Kind::Int | Kind::Null | Kind::Unusable => true,
    }
}

impl Operands {
    /// Writes the depth, and the codes of the kinds from the bottom, to the front of a buffer that has room.
    pub(crate) fn write(&self, out: &mut [u8]) -> Option<usize>
        ensures length { result ≡ written_length (stack_bytes self.now) out.old }
        ensures buffer { out.new ≡ written_in (stack_bytes self.now) out.old }
    {
        let kinds = self.as_slice();
        let length = 1 + 2 * kinds.len();
        if out.len() < length {
            return None;
        }
        out[0] = kinds.len() as u8;
        // Kept with its own sum of places: tried with `chunks_exact_mut`, no invariant can name `out`, the proof did not close.
        for (i, kind) in kinds.iter().enumerate() {
            out[1 + 2 * i..3 + 2 * i].copy_from_slice(&u16::from(*kind).to_be_bytes());
        }
        Some(length)
    }

    /// Reads the stack that bytes begin with.
    pub(crate) fn read(unit: &Unit<'_>, bytes: &[u8]) -> Result<(Operands, usize), Unreadable>
        ensures within { IfOk result (λ got. got.1 ≤ length bytes.now) }
        ensures value { ReadAs (stack_read (parts_of unit.now) bytes.now) result }
    {
        let unreadable = Unreadable { layer: LAYER };
        let Some((depth, codes)) = bytes.split_first() else {
            return Err(unreadable);
        };
        let depth = usize::from(*depth);
        if depth > usize::from(unit.depth()) || codes.len() < 2 * depth {
            return Err(unreadable);
        }
        let mut operands = Operands::new();
        for code in codes[..2 * depth].chunks_exact(2) {
            let kind = Kind::from(u16::from_be_bytes([code[0], code[1]]));
            if !known(unit, kind) {
                return Err(unreadable);
            }
            operands.push(kind);
        }
        Ok((operands, 1 + 2 * depth))
    }
}
