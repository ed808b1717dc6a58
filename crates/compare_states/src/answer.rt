use analysis::analysis::Analysis;
use analysis_theory::fault::Unreadable;
use corpus::query::Query;
use std::fmt;
use unit::unit::Unit;

/// More bytes than any state is written in.
// kept as an array with a length beside it: `Analysis::write` fills what its caller lends, a rule of the project
const ROOM: usize = 64;

/// The answer of an analysis to a query on a unit: how both states were read, the orders and the join if both were, and the
/// effect on the first if that was.
#[derive(Drop)]
pub struct Answer<'a, A> {
    pub analysis: A,
    pub unit: Unit<'a>,
    pub query: Query<'a>,
}

impl<'a, A: Analysis + Drop> fmt::Display for Answer<'a, A> {
    fn fmt<W: fmt::Write>(&self, f: &mut fmt::Formatter<W>) -> fmt::Result {
        let a = self.analysis.read(&self.unit, self.query.a);
        let b = self.analysis.read(&self.unit, self.query.b);
        self.reading(a, f)?;
        write!(f, " | ")?;
        self.reading(b, f)?;
        if let (Ok((a, _)), Ok((b, _))) = (a, b) {
            self.orders(&a, &b, f)?;
            self.join(a, &b, f)?;
        }
        if let Ok((a, _)) = a {
            self.effect(a, f)?;
        }
        Ok(())
    }
}

impl<'a, A: Analysis + Drop> Answer<'a, A> {
    /// The writing of a state, two digits for each byte.
    fn state<W: fmt::Write>(&self, state: &A::State, f: &mut fmt::Formatter<W>) -> fmt::Result {
        let mut room = [0u8; ROOM];
        let Some(length) = self.analysis.write(&self.unit, state, &mut room) else {
            return write!(f, "too long");
        };
        for byte in room.iter().take(length) {
            write!(f, "{byte:02x}")?;
        }
        Ok(())
    }

    /// How bytes were read.
    fn reading<W: fmt::Write>(
        &self,
        reading: Result<(A::State, usize), Unreadable>,
        f: &mut fmt::Formatter<W>,
    ) -> fmt::Result {
        match reading {
            Ok((state, length)) => {
                write!(f, "read {length} ")?;
                self.state(&state, f)
            }
            Err(Unreadable { layer }) => write!(f, "refused {layer}"),
        }
    }

    /// Whether the first state lies below the second, and the second below the first.
    fn orders<W: fmt::Write>(
        &self,
        a: &A::State,
        b: &A::State,
        f: &mut fmt::Formatter<W>,
    ) -> fmt::Result {
        let forth = u8::from(self.analysis.below(&self.unit, a, b));
        let back = u8::from(self.analysis.below(&self.unit, b, a));
        write!(f, " | below {forth} {back}")
    }

    /// The join of two states, and whether it is above the first.
    fn join<W: fmt::Write>(
        &self,
        into: A::State,
        other: &A::State,
        f: &mut fmt::Formatter<W>,
    ) -> fmt::Result {
        let mut joined = into;
        let Ok(rose) = self.analysis.join(&self.unit, &mut joined, other) else {
            return write!(f, " | join refused");
        };
        let told = if rose { "rose" } else { "same" };
        write!(f, " | join {told} ")?;
        self.state(&joined, f)
    }

    /// The state after the instruction, or why it is refused.
    fn effect<W: fmt::Write>(&self, before: A::State, f: &mut fmt::Formatter<W>) -> fmt::Result {
        let mut after = before;
        let at = usize::from(self.query.instruction);
        match self.analysis.effect(&self.unit, at, &mut after) {
            Ok(()) => {
                write!(f, " | effect ")?;
                self.state(&after, f)
            }
            Err(fault) => {
                let layer = fault.layer;
                let number = fault.cause.number();
                let detail = fault.cause.detail();
                write!(f, " | effect fault {layer} {number} {detail}")
            }
        }
    }
}
