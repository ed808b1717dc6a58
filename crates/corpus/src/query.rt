ghost use Rattle.corpus.specs.Choices.{Chosen};
ghost use Rattle.corpus.specs.Queries.{TakesQuery};

use crate::cursor::Cursor;
use crate::piece::Piece;

/// The analyses that a query can be about.
#[derive(Clone, Copy, Debug, PartialEq, Eq)]
pub enum Choice {
    Types,
    Slots,
    Rows,
    /// Types paired with the pair of slots and rows.
    Three,
    /// The pair of rows and types, in this order.
    RowsTypes,
}

/// A number that stands for no analysis.
#[derive(Clone, Copy, Debug, PartialEq, Eq)]
pub struct UnknownChoice(pub u8);

impl TryFrom<u8> for Choice {
    type Error = UnknownChoice;

    ghost try_from_gives = { Chosen };

    fn try_from(number: u8) -> Result<Choice, UnknownChoice> {
        match number {
            1 => Ok(Choice::Types),
            2 => Ok(Choice::Slots),
            3 => Ok(Choice::Rows),
            4 => Ok(Choice::Three),
            5 => Ok(Choice::RowsTypes),
            _ => Err(UnknownChoice(number)),
        }
    }
}

/// A question about two states, which are given as bytes that may or may not begin with the writing of a state, and about
/// the effect of an instruction on the first.
#[derive(Clone, Copy, Debug, PartialEq, Eq)]
pub struct Query<'a> {
    pub choice: Choice,
    pub instruction: u16,
    pub a: &'a [u8],
    pub b: &'a [u8],
}

impl<'a> Piece<'a> for Query<'a> {
    ghost takes = { TakesQuery };

    fn take(cursor: &mut Cursor<'a>) -> Option<Query<'a>> {
        // Kept as a copy that is put back, as in `Block`.
        let mut after = *cursor;
        let choice = Choice::try_from(after.byte()?).ok()?;
        let instruction = after.word()?;
        let a = after.field()?;
        let b = after.field()?;
        *cursor = after;
        Some(Query {
            choice,
            instruction,
            a,
            b,
        })
    }
}
