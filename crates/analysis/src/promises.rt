ghost use Rattle.std.specs.Prelude.{◌≡◌};
ghost use Rattle.analysis_theory.specs.Methods.{Survives, written_in};
ghost use Rattle.analysis_theory.specs.Typing.{StableIsSafe};
ghost use Rattle.unit.specs.Model.{parts_of};

use crate::analysis::Analysis;
use analysis_theory::fault::Unreadable;
use unit::unit::Unit;

/// Does next to nothing, and promises of any analysis: a unit with a stable typing can't go wrong. For every announced vessel
/// and every number of steps, the tagged machine stands inside the code and meets no fault that the analysis forbids.
pub fn stable_is_safe<A: Analysis>(analysis: &A, unit: &Unit<'_>)
    ensures { StableIsSafe (parts_of unit.now) (A.Analysis.meaning analysis.now (parts_of unit.now)) }
{
    unit.keeps_rules();
}

/// Writes a state to the front of a buffer, and reads it back from the whole buffer: a state that fits is the same, and its
/// length is the one written, whatever stands behind it.
pub fn write_and_read<A: Analysis>(
    analysis: &A,
    unit: &Unit<'_>,
    state: &A::State,
    out: &mut [u8],
) -> Option<Result<(A::State, usize), Unreadable>>
    ensures survives { Survives (A.Analysis.meaning analysis.now (parts_of unit.now)) state.now out.old result }
    ensures buffer { out.new ≡ written_in ((A.Analysis.meaning analysis.now (parts_of unit.now)).bytes state.now) out.old }
{
    unit.keeps_rules();
    analysis.write(unit, state, out)?;
    Some(analysis.read(unit, out))
}
