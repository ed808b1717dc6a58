ghost use Rattle.corpus.specs.Taking.{TakesPart, TakesArray, TakesByte, TakesWord, TakesLongWord, TakesField, TakesBlob};

/// Bytes that are taken from the front, piece by piece. Where a piece does not stand there whole, none is taken, and all
/// stays as it was. Numbers have their high byte first.
#[derive(Clone, Copy, Debug, PartialEq, Eq)]
pub struct Cursor<'a> {
    pub rest: &'a [u8],
}

impl<'a> Cursor<'a> {
    /// Takes so many bytes.
    fn part(&mut self, length: usize) -> Option<&'a [u8]>
        ensures { TakesPart length self.old result self.new }
    {
        let (part, rest) = self.rest.split_at_checked(length)?;
        self.rest = rest;
        Some(part)
    }

    /// Takes as many bytes as an array has.
    fn array<const N: usize>(&mut self) -> Option<[u8; N]>
        ensures { TakesArray N self.old result self.new }
    {
        let (bytes, after) = self.rest.split_first_chunk::<N>()?;
        self.rest = after;
        Some(*bytes)
    }

    /// Takes one byte.
    pub fn byte(&mut self) -> Option<u8>
        ensures { TakesByte self.old result self.new }
    {
        let [byte] = self.array::<1>()?;
        Some(byte)
    }

    /// Takes a number of two bytes.
    pub fn word(&mut self) -> Option<u16>
        ensures { TakesWord self.old result self.new }
    {
        Some(u16::from_be_bytes(self.array()?))
    }

    /// Takes a number of four bytes.
    fn long_word(&mut self) -> Option<u32>
        ensures { TakesLongWord self.old result self.new }
    {
        Some(u32::from_be_bytes(self.array()?))
    }

    /// Takes bytes that have their length before them in two bytes.
    #[tactic(auto, using(crate::proofs::Pieces::as_many))]
    pub fn field(&mut self) -> Option<&'a [u8]>
        ensures { TakesField self.old result self.new }
    {
        let mut after = *self;
        let length = after.word()?;
        let field = after.part(length as usize)?;
        *self = after;
        Some(field)
    }

    /// Takes bytes that have their length before them in four bytes.
    // Kept beside `field`, no plainer: one function for both would take the reading of the length as a closure.
    #[tactic(auto, using(crate::proofs::Pieces::as_many))]
    pub fn blob(&mut self) -> Option<&'a [u8]>
        ensures { TakesBlob self.old result self.new }
    {
        let mut after = *self;
        let length = after.long_word()?;
        let blob = after.part(length as usize)?;
        *self = after;
        Some(blob)
    }
}
