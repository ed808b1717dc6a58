ghost use Rattle.std.specs.Prelude.{◌≡◌, ◌<◌, length, replicate, slice_index_or, slice_set, Some, None};

use flow_theory::certificate::Entry;
use std::marker::Model;

/// Puts a value into every place of a table.
// kept beside the slices' method `fill` (tried, the proof didn't close): of `T: Copy` it isn't known that a clone is the value
#[tactic(auto, using(crate::proofs::Filling::filled_more))]
pub(crate) fn fill<T: Copy>(table: &mut [T], value: T)
    ensures { table.new ≡ replicate (length table.old) value }
{
    for place in table.iter_mut() {
        *place = value;
    }
}

/// The entries of a certificate, in a table of states and marks that the caller lends: an instruction whose mark is not 0 has the
/// state at its place. Clauses see a list, with the state of each instruction, if it has an entry.
#[derive(Drop)]
pub(crate) struct Entries<'t, S> {
    table: &'t mut [S],
    marks: &'t mut [u8],
}

impl<'t, S> Model for Entries<'t, S> {
    ghost use Rattle.std.specs.Prelude.{◌≡◌, length, List, Option};
    ghost use Rattle.flow.specs.Tables.{marked};

    ghost Value = { List (Option S) };

    ghost view = { λ e. marked e.table.now e.marks.now };

    ghost invariant = { λ e. length e.table.now ≡ length e.marks.now };
}

impl<'t, S: Copy> Entries<'t, S> {
    /// No entries yet, for as many instructions as the table and the marks have places.
    #[tactic(auto, using(crate::proofs::Marking::marked_none))]
    pub(crate) fn empty(table: &'t mut [S], marks: &'t mut [u8]) -> Entries<'t, S>
        requires { length table.old ≡ length marks.old }
        ensures { result ≡ replicate (length table.old) None }
    {
        marks.fill(0);
        Entries { table, marks }
    }

    /// Enters an instruction's state.
    #[tactic(auto, using(crate::proofs::Marking::below_marked, crate::proofs::Marking::marked_set))]
    pub(crate) fn enter(&mut self, entry: Entry<S>)
        requires { entry.at < length self.old }
        ensures { self.new ≡ slice_set self.old entry.at (Some entry.state) }
    {
        self.marks[entry.at] = 1;
        self.table[entry.at] = entry.state;
    }

    /// The state of an instruction, if it has an entry.
    #[tactic(auto, using(crate::proofs::Marking::marked_zero, crate::proofs::Marking::marked_some))]
    pub(crate) fn get(&self, at: usize) -> Option<S>
        ensures { result ≡ slice_index_or self.now at None }
    {
        let mark = self.marks.get(at)?;
        if *mark == 0 {
            None
        } else {
            Some(self.table[at])
        }
    }
}
