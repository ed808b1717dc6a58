use crate::answer::Answer;
use analysis::analysis::Analysis;
use analysis::pair::Pair;
use corpus::query::{Choice, Query};
use rows::rows::Rows;
use slots::slots::Slots;
use std::fmt;
use three::three;
use types::types::Types;
use unit::unit::Unit;

/// The line on one query: its number, and the answer of the analysis that it is about.
#[derive(Clone, Copy)]
pub struct Line<'a> {
    pub block: usize,
    pub number: usize,
    pub unit: Unit<'a>,
    pub query: Query<'a>,
}

impl<'a> fmt::Display for Line<'a> {
    fn fmt<W: fmt::Write>(&self, f: &mut fmt::Formatter<W>) -> fmt::Result {
        let block = self.block;
        let number = self.number;
        write!(f, "{block}.{number} ")?;
        match self.query.choice {
            Choice::Types => self.answer(Types, f),
            Choice::Slots => self.answer(Slots, f),
            Choice::Rows => self.answer(Rows, f),
            Choice::Three => self.answer(three(), f),
            Choice::RowsTypes => self.answer(
                Pair {
                    left: Rows,
                    right: Types,
                },
                f,
            ),
        }
    }
}

impl<'a> Line<'a> {
    /// Writes the answer of an analysis.
    fn answer<A: Analysis + Drop, W: fmt::Write>(
        &self,
        analysis: A,
        f: &mut fmt::Formatter<W>,
    ) -> fmt::Result {
        let answer = Answer {
            analysis,
            unit: self.unit,
            query: self.query,
        };
        write!(f, "{answer}")
    }
}
