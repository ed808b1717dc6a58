ghost use Rattle.std.specs.Prelude.{◌≡◌, ◌<◌, length, Option, OnSome};
ghost use Rattle.std.specs.Iterator.{at_most};
ghost use Rattle.corpus.specs.declared.cursor.Cursor.{Cursor};
ghost use Rattle.corpus.specs.Taking.{left};

use crate::cursor::Cursor;
use std::marker::PhantomData;

/// What can stand many times in a file, one after another.
pub trait Piece<'a>: Sized + Drop {
    // what is taken from the front of the bytes, and what is left
    ghost takes: { Cursor → Option Self → Cursor → Type 0 };

    /// Takes one from the front. Where no whole one stands there, all stays as it was.
    fn take(cursor: &mut Cursor<'a>) -> Option<Self>
        ensures takes { takes cursor.old result cursor.new }
        ensures fewer { OnSome result (length (left cursor.new) < length (left cursor.old)) };
}

/// The pieces of a file, up to the first that does not stand there whole. The cursor has what is not taken yet.
#[derive(Clone, Copy)]
pub struct Pieces<'a, P> {
    pub cursor: Cursor<'a>,
    of: PhantomData<P>,
}

impl<'a, P: Piece<'a>> Pieces<'a, P> {
    /// The pieces that bytes hold.
    pub fn new(bytes: &'a [u8]) -> Pieces<'a, P>
        ensures { left result.cursor ≡ bytes.now }
    {
        Pieces {
            cursor: Cursor { rest: bytes },
            of: PhantomData,
        }
    }
}

impl<'a, P: Piece<'a>> Iterator for Pieces<'a, P> {
    type Item = P;

    ghost next_gives = { λ before piece after. P.takes before.cursor piece after.cursor };

    ghost remaining = { λ pieces. at_most (length (left pieces.cursor)) };

    fn next(&mut self) -> Option<P> {
        P::take(&mut self.cursor)
    }
}
