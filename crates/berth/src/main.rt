//! The program `berth` shows rule units: the built-in rule, or the unit that a file holds.
#![tactic(auto)]

mod command;

use command::Command;
use listing::failure::Failure;
use listing::program::{Program, arguments, bytes_of};
use listing::show::Shown;
use std::process::ExitCode;
use unit::read::read;
use unit::unit::Unit;

const BERTH: Program = Program {
    name: "berth",
    usage: "usage: berth              shows the built-in rule
       berth show FILE    shows the unit in a file",
};

/// Reads a file and prints the unit that it holds.
fn show_file<'a>(rt: &HostRuntime, file: &'a str) -> Result<(), Failure<'a>> {
    let bytes = bytes_of(rt, file)?;
    let mut unit = Unit::builtin();
    read(bytes.as_slice(), &mut unit)?;
    Ok(rt.print(Shown(unit))?)
}

/// Does what the words of a command line ask for.
fn run<'a>(rt: &HostRuntime, words: &'a [String]) -> Result<(), Failure<'a>> {
    match Command::parse(words).ok_or(Failure::Usage)? {
        Command::Builtin => Ok(rt.print(Shown(Unit::builtin()))?),
        Command::Show(file) => show_file(rt, file),
    }
}

// Kept beside that of `berth_effects`, no plainer: what the two run has other commands.
fn main(rt: HostRuntime) -> ExitCode {
    match arguments(&rt) {
        Ok(words) => BERTH.finish(&rt, run(&rt, words.as_slice())),
        Err(failure) => BERTH.finish(&rt, Err(failure)),
    }
}
