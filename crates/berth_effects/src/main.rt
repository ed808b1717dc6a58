//! The program `berth_effects` shows rule units, the built-in rule or the unit that a file holds, and what the analyses say
//! of them.
#![tactic(auto)]

mod effects;
mod state;

use effects::Effects;
use listing::failure::Failure;
use listing::program::{Program, arguments, bytes_of};
use listing::show::Shown;
use std::io;
use std::process::ExitCode;
use unit::read::read;
use unit::unit::Unit;
use views::command::{Command, View};

const BERTH_EFFECTS: Program = Program {
    name: "berth_effects",
    usage: "usage: berth_effects                   shows the built-in rule, and what the analyses say of it
       berth_effects show FILE         shows the unit in a file
       berth_effects effects [FILE]    shows what the analyses say of the unit in a file, or of the built-in rule",
};

/// Prints a view of a unit.
fn print_unit(rt: &HostRuntime, view: View, unit: Unit) -> io::Result<()> {
    match view {
        View::Listing => rt.print(Shown(unit)),
        View::Effects => rt.print(Effects(unit)),
    }
}

/// Prints the built-in rule, and then what the analyses say of it.
fn print_builtin(rt: &HostRuntime) -> io::Result<()> {
    print_unit(rt, View::Listing, Unit::builtin())?;
    rt.println("")?;
    print_unit(rt, View::Effects, Unit::builtin())
}

/// Reads a file and prints a view of the unit that it holds.
fn print_file<'a>(rt: &HostRuntime, view: View, file: &'a str) -> Result<(), Failure<'a>> {
    let bytes = bytes_of(rt, file)?;
    let mut unit = Unit::builtin();
    read(bytes.as_slice(), &mut unit)?;
    Ok(print_unit(rt, view, unit)?)
}

/// Does what the words of a command line ask for.
fn run<'a>(rt: &HostRuntime, words: &'a [String]) -> Result<(), Failure<'a>> {
    match Command::parse(words).ok_or(Failure::Usage)? {
        Command::Builtin => Ok(print_builtin(rt)?),
        Command::Effects => Ok(print_unit(rt, View::Effects, Unit::builtin())?),
        Command::OnFile { view, file } => print_file(rt, view, file),
    }
}

// Kept beside that of `berth`, no plainer: what the two run has other commands.
fn main(rt: HostRuntime) -> ExitCode {
    match arguments(&rt) {
        Ok(words) => BERTH_EFFECTS.finish(&rt, run(&rt, words.as_slice())),
        Err(failure) => BERTH_EFFECTS.finish(&rt, Err(failure)),
    }
}
