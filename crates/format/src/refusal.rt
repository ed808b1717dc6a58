ghost use Rattle.std.specs.Prelude.{◌≡◌};
ghost use Rattle.format.specs.Refusals.{read_refusal};

use std::fmt;

/// Why bytes are no unit: the first thing that is wrong, and where.
// A wrong size of a table is kept as its place 0, with no variant of its own: a rule of the project names both by that place.
#[derive(Clone, Copy, Debug, PartialEq, Eq, Hash)]
pub enum ReadError {
    /// A field does not stand whole at this byte, or bytes are left over from it on.
    Framing(usize),
    /// The head is not the version 1 and a depth of at most 16.
    Head,
    /// The class table has a wrong size (then 0), or this class breaks its rule.
    Class(usize),
    /// The slot table has a wrong size (then 0), or this slot breaks its rule.
    Slot(usize),
    /// The code has a wrong size (then 0), or this instruction breaks its rule.
    Code(usize),
}

/// A refusal as five numbers; those that say nothing are 0.
// Kept as numbers: a rule of the project names every refusal by these five.
#[derive(Clone, Copy, Debug, Default, PartialEq, Eq, Hash)]
pub struct Refusal {
    pub number: u8,
    pub place: usize,
    pub layer: u8,
    pub fault: u8,
    pub detail: usize,
}

impl fmt::Display for Refusal {
    fn fmt<W: fmt::Write>(&self, f: &mut fmt::Formatter<W>) -> fmt::Result {
        let Refusal {
            number,
            place,
            layer,
            fault,
            detail,
        } = *self;
        write!(
            f,
            "{number} place {place} layer {layer} fault {fault} detail {detail}"
        )
    }
}

/// The five numbers of a refused reading.
impl From<ReadError> for Refusal {
    ghost from_gives = { λ error r. r ≡ read_refusal error };

    fn from(error: ReadError) -> Refusal {
        let (number, place) = match error {
            ReadError::Framing(place) => (1, place),
            ReadError::Head => (2, 0),
            ReadError::Class(class) => (3, class),
            ReadError::Slot(slot) => (4, slot),
            ReadError::Code(instruction) => (5, instruction),
        };
        Refusal {
            number,
            place,
            ..Refusal::default()
        }
    }
}
