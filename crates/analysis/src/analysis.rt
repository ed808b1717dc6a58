ghost use Rattle.std.specs.Prelude.{◌≡◌, ◌≤◌, length, IfOk};
ghost use Rattle.analysis_theory.specs.Laws.{Laws};
ghost use Rattle.analysis_theory.specs.Meaning.{Meaning};
ghost use Rattle.analysis_theory.specs.Methods.{Effected, Joined, ReadAs, size_of, written_in, written_length};
ghost use Rattle.format.specs.Parts.{Parts};
ghost use Rattle.format.specs.Rules.{Keeps};
ghost use Rattle.unit.specs.Model.{parts_of};

use analysis_theory::fault::{Fault, NoJoin, Unreadable};
use unit::unit::Unit;

/// An analysis of rule units: states that describe configurations of a run, and what each instruction makes of them. It is
/// of the unit that it is asked about.
// The unit is kept as a parameter of each method: in the analysis, the parts of a pair could be of two units.
pub trait Analysis {
    type State: Copy;

    ghost meaning: { Self → Parts → Meaning Self.State };

    /// The state in which a run starts.
    fn start(&self, unit: &Unit<'_>) -> Self::State
        ensures { result ≡ (meaning self.now (parts_of unit.now)).start };

    /// Whether one state lies below another.
    fn below(&self, unit: &Unit<'_>, a: &Self::State, b: &Self::State) -> bool
        ensures { result ≡ (meaning self.now (parts_of unit.now)).below a.now b.now };

    /// Raises a state to the least one above it and another, and tells whether it rose. Where no state is above both, it
    /// stays as it was.
    fn join(
        &self,
        unit: &Unit<'_>,
        into: &mut Self::State,
        other: &Self::State,
    ) -> Result<bool, NoJoin>
        ensures { Joined ((meaning self.now (parts_of unit.now)).join into.old other.now) into.old result into.new };

    /// Makes of a state what an instruction makes of it. Where the instruction is refused, the state stays as it was.
    fn effect(&self, unit: &Unit<'_>, at: usize, state: &mut Self::State) -> Result<(), Fault>
        ensures { Effected ((meaning self.now (parts_of unit.now)).after at state.old) state.old result state.new };

    /// How many bytes a state is written in, where a certificate's field can hold them.
    fn size(&self, unit: &Unit<'_>, state: &Self::State) -> Option<usize>
        ensures { result ≡ size_of ((meaning self.now (parts_of unit.now)).bytes state.now) };

    /// Writes a state to the front of a buffer, and answers its length. Where it does not fit, the buffer stays as it was.
    fn write(&self, unit: &Unit<'_>, state: &Self::State, out: &mut [u8]) -> Option<usize>
        ensures length { result ≡ written_length ((meaning self.now (parts_of unit.now)).bytes state.now) out.old }
        ensures buffer { out.new ≡ written_in ((meaning self.now (parts_of unit.now)).bytes state.now) out.old };

    /// Reads the state that bytes begin with, and the length of its writing.
    fn read(&self, unit: &Unit<'_>, bytes: &[u8]) -> Result<(Self::State, usize), Unreadable>
        ensures within { IfOk result (λ got. got.1 ≤ length bytes.now) }
        ensures value { ReadAs ((meaning self.now (parts_of unit.now)).parsed bytes.now) result };

    ghost laws: { (a : Self) (p : Parts) → Keeps p → Laws p (meaning a p) };
}
