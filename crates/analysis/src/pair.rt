ghost use Rattle.analysis_theory.specs.Pairs.{pair_meaning};
ghost use Rattle.analysis_theory.proofs.PairLaws.{pair_laws};

use crate::analysis::Analysis;
use analysis_theory::both::Both;
use analysis_theory::fault::{Fault, NoJoin, Unreadable};
use unit::unit::Unit;

/// The longest writing of a state that a certificate's field can hold: it has 65,535 bytes, and two are an instruction's number.
const LONGEST: usize = 65533;

/// Two analyses of one unit at once, the left one before the right one.
#[derive(Clone, Copy, Debug, PartialEq, Eq)]
pub struct Pair<L, R> {
    pub left: L,
    pub right: R,
}

impl<L: Analysis, R: Analysis> Analysis for Pair<L, R> {
    type State = Both<L::State, R::State>;

    ghost meaning = { λ a p. pair_meaning (L.Analysis.meaning a.left p) (R.Analysis.meaning a.right p) };

    ghost laws = { λ a p k. pair_laws (L.Analysis.laws a.left p k) (R.Analysis.laws a.right p k) };

    fn start(&self, unit: &Unit<'_>) -> Both<L::State, R::State> {
        Both {
            left: self.left.start(unit),
            right: self.right.start(unit),
        }
    }

    fn below(
        &self,
        unit: &Unit<'_>,
        a: &Both<L::State, R::State>,
        b: &Both<L::State, R::State>,
    ) -> bool {
        self.left.below(unit, &a.left, &b.left) && self.right.below(unit, &a.right, &b.right)
    }

    fn join(
        &self,
        unit: &Unit<'_>,
        into: &mut Both<L::State, R::State>,
        other: &Both<L::State, R::State>,
    ) -> Result<bool, NoJoin> {
        let mut left = into.left;
        let left_rose = self.left.join(unit, &mut left, &other.left)?;
        let right_rose = self.right.join(unit, &mut into.right, &other.right)?;
        into.left = left;
        Ok(left_rose || right_rose)
    }

    fn effect(
        &self,
        unit: &Unit<'_>,
        at: usize,
        state: &mut Both<L::State, R::State>,
    ) -> Result<(), Fault> {
        let mut left = state.left;
        self.left.effect(unit, at, &mut left)?;
        self.right.effect(unit, at, &mut state.right)?;
        state.left = left;
        Ok(())
    }

    fn size(&self, unit: &Unit<'_>, state: &Both<L::State, R::State>) -> Option<usize> {
        let left = self.left.size(unit, &state.left)?;
        let right = self.right.size(unit, &state.right)?;
        if left + right <= LONGEST {
            Some(left + right)
        } else {
            None
        }
    }

    fn write(
        &self,
        unit: &Unit<'_>,
        state: &Both<L::State, R::State>,
        out: &mut [u8],
    ) -> Option<usize> {
        let size = self.size(unit, state)?;
        if size > out.len() {
            return None;
        }
        let left = self.left.write(unit, &state.left, out)?;
        let right = self.right.write(unit, &state.right, &mut out[left..])?;
        Some(left + right)
    }

    fn read(
        &self,
        unit: &Unit<'_>,
        bytes: &[u8],
    ) -> Result<(Both<L::State, R::State>, usize), Unreadable> {
        let (left, front) = self.left.read(unit, bytes)?;
        let (right, back) = self.right.read(unit, &bytes[front..])?;
        Ok((Both { left, right }, front + back))
    }
}
