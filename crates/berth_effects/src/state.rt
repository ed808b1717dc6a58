use rows_theory::state::RowState;
use slots_theory::set::SlotSet;
use std::fmt;
use types::operands::Operands;
use views::way::State;

/// The state of the three analyses, to be printed in words.
// kept as a wrapper: the state's types belong to the crates of the analyses, and these words are this program's own
#[derive(Clone, Copy)]
pub struct StateWords(pub State);

impl fmt::Display for StateWords {
    fn fmt<W: fmt::Write>(&self, f: &mut fmt::Formatter<W>) -> fmt::Result {
        f.write_str("operands")?;
        operands(&self.0.left, f)?;
        f.write_str("; slots set")?;
        slots(self.0.right.left, f)?;
        f.write_str("; ")?;
        row(self.0.right.right, f)
    }
}

/// The kinds of the operands, from the bottom up.
fn operands<W: fmt::Write>(operands: &Operands, f: &mut fmt::Formatter<W>) -> fmt::Result {
    if operands.is_empty() {
        return f.write_str(" none");
    }
    for kind in operands.as_slice() {
        write!(f, " {kind}")?;
    }
    Ok(())
}

/// The numbers of the slots in a set.
fn slots<W: fmt::Write>(set: SlotSet, f: &mut fmt::Formatter<W>) -> fmt::Result {
    if set.bits == 0 {
        return f.write_str(" none");
    }
    for slot in (0..32).filter(|slot| set.contains(*slot)) {
        write!(f, " {slot}")?;
    }
    Ok(())
}

/// Whether a row is held.
fn row<W: fmt::Write>(state: RowState, f: &mut fmt::Formatter<W>) -> fmt::Result {
    match state {
        RowState::Empty => f.write_str("no row"),
        RowState::Held => f.write_str("a row is held"),
        RowState::Perhaps => f.write_str("perhaps a row"),
    }
}
