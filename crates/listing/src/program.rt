ghost use Rattle.std.specs.Prelude.{◌≡◌, IfErr};
ghost use Rattle.std.specs.Process.{exit_status};
ghost use Rattle.listing.specs.Programs.{status_of, NoArguments, NoInput};

use crate::failure::Failure;
use std::process::ExitCode;
use std::rt::{Env, Files};
use std::{env, fs, io};

/// A program: its name, and how it is called.
#[derive(Clone, Copy, Debug)]
pub struct Program {
    pub name: &'static str,
    pub usage: &'static str,
}

impl Program {
    /// Says what went wrong, if anything did, and answers the status with which the program ends: 0 where all went well, and
    /// else 1.
    pub fn finish<R: Print + Eprint>(&self, rt: &R, outcome: Result<(), Failure>) -> ExitCode
        ensures { exit_status result ≡ status_of outcome.entry }
    {
        match outcome {
            Ok(()) => ExitCode::SUCCESS,
            Err(failure) => {
                self.tell(rt, failure);
                ExitCode::FAILURE
            }
        }
    }

    /// Says what went wrong, a refused unit on the standard output and all else on the standard error. Where that cannot be
    /// written either, nothing is left to do.
    fn tell<R: Print + Eprint>(&self, rt: &R, failure: Failure) {
        let name = self.name;
        let usage = self.usage;
        let _ = match failure {
            Failure::Usage => eprintln!(rt; "{usage}"),
            Failure::Refused(_) => rt.println(failure),
            _ => eprintln!(rt; "{name}: {failure}"),
        };
    }
}

/// The words of the command line, without the program's own name.
fn words<R: Env + AllocGlobal>(rt: &R) -> io::Result<Vec<String>> {
    Ok(env::args(rt)?.skip(1).collect(rt.alloc())?)
}

/// The same, or why they cannot be had.
pub fn arguments<'a, R: Env + AllocGlobal>(rt: &R) -> Result<Vec<String>, Failure<'a>>
    ensures { IfErr result NoArguments }
{
    // kept as a match: the check covers no `map_err` whose error has a lifetime that is not in the function passed to it
    match words(rt) {
        Ok(words) => Ok(words),
        Err(error) => Err(Failure::Arguments(error)),
    }
}

/// The bytes of a file, or why they cannot be had.
pub fn bytes_of<'a, R: Files + AllocGlobal>(rt: &R, file: &'a str) -> Result<Vec<u8>, Failure<'a>>
    ensures { IfErr result (NoInput file.now) }
{
    fs::read(rt, file).map_err(|error| Failure::Input { file, error })
}
