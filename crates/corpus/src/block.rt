ghost use Rattle.corpus.specs.Blocks.{TakesBlock};

use crate::cursor::Cursor;
use crate::piece::Piece;

/// The bytes of a unit and those of the queries on it.
#[derive(Clone, Copy, Debug, PartialEq, Eq)]
pub struct Block<'a> {
    pub unit: &'a [u8],
    pub queries: &'a [u8],
}

impl<'a> Piece<'a> for Block<'a> {
    ghost takes = { TakesBlock };

    fn take(cursor: &mut Cursor<'a>) -> Option<Block<'a>> {
        // Kept as a copy that is put back, no plainer: a helper would take the steps as a closure.
        let mut after = *cursor;
        let unit = after.blob()?;
        let queries = after.blob()?;
        *cursor = after;
        Some(Block { unit, queries })
    }
}
