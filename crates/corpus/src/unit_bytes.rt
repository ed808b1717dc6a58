ghost use Rattle.corpus.specs.Taking.{TakesUnit};

use crate::cursor::Cursor;
use crate::piece::Piece;

/// The bytes of a unit, which have their length before them in four bytes.
#[derive(Clone, Copy, Debug, PartialEq, Eq)]
pub struct UnitBytes<'a> {
    pub bytes: &'a [u8],
}

impl<'a> Piece<'a> for UnitBytes<'a> {
    ghost takes = { TakesUnit };

    fn take(cursor: &mut Cursor<'a>) -> Option<UnitBytes<'a>> {
        let bytes = cursor.blob()?;
        Some(UnitBytes { bytes })
    }
}
