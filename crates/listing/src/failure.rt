ghost use Rattle.std.specs.Prelude.{◌≡◌};
ghost use Rattle.listing.specs.declared.failure.Failure.TheVariants.{Refused, Output};

use crate::explain::Explained;
use format::refusal::ReadError;
use std::{fmt, io};

/// Why a program does not do what it is asked to.
#[derive(Clone, Copy)]
pub enum Failure<'a> {
    /// The words of the command line cannot be had, as where one is no UTF-8.
    Arguments(io::Error),
    /// The words of the command line are no command.
    Usage,
    /// The file of this name cannot be read.
    Input { file: &'a str, error: io::Error },
    /// The bytes of the file are no unit.
    Refused(ReadError),
    /// The output cannot be written.
    Output(io::Error),
}

impl<'a> From<ReadError> for Failure<'a> {
    ghost from_gives = { λ error failure. failure ≡ Refused error };

    fn from(error: ReadError) -> Failure<'a> {
        Self::Refused(error)
    }
}

impl<'a> From<io::Error> for Failure<'a> {
    ghost from_gives = { λ error failure. failure ≡ Output error };

    fn from(error: io::Error) -> Failure<'a> {
        Self::Output(error)
    }
}

impl<'a> fmt::Display for Failure<'a> {
    fn fmt<W: fmt::Write>(&self, f: &mut fmt::Formatter<W>) -> fmt::Result {
        match *self {
            Failure::Arguments(error) => write!(f, "cannot read the arguments: {error}"),
            Failure::Usage => f.write_str("the words are no command"),
            Failure::Input { file, error } => write!(f, "cannot read {file}: {error}"),
            Failure::Refused(error) => write!(f, "{}", Explained { error }),
            Failure::Output(error) => write!(f, "cannot write: {error}"),
        }
    }
}
