//! Prints a verdict on each unit of a file of many, in the form in which a second, independent tool prints its own.
#![tactic(auto)]

mod digest;
mod verdict;

use corpus::piece::Pieces;
use corpus::unit_bytes::UnitBytes;
use std::{env, fs};
use verdict::Verdict;

/// Prints a line for each unit.
fn print_verdicts(rt: &HostRuntime, bytes: &[u8]) -> anyhow::Result<()> {
    for (number, unit) in Pieces::<UnitBytes>::new(bytes).enumerate() {
        rt.println(Verdict {
            number,
            bytes: unit.bytes,
        })?;
    }
    Ok(())
}

/// Prints the lines of each file that the command line names.
// Kept beside that of `compare_states`, no plainer: a shared one would bring the runtime and its errors into `corpus`.
fn run(rt: &HostRuntime) -> anyhow::Result<()> {
    for file in env::args(rt)?.skip(1) {
        let bytes = fs::read(rt, file.as_str())?;
        print_verdicts(rt, bytes.as_slice())?;
    }
    Ok(())
}

fn main(rt: HostRuntime) -> anyhow::Result<()> {
    run(&rt)
}
