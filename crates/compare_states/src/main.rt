//! Prints a line for each query of a file of states, in the form in which a second, independent tool prints its own.
#![tactic(auto)]

mod answer;
mod line;

use anyhow::{anyhow, ensure};
use corpus::block::Block;
use corpus::piece::Pieces;
use corpus::query::Query;
use line::Line;
use std::{env, fs};
use unit::read::read;
use unit::unit::Unit;

/// Prints a line for each query on a unit.
fn print_lines<'a>(
    rt: &HostRuntime,
    block: usize,
    unit: Unit<'a>,
    queries: &'a [u8],
) -> anyhow::Result<()> {
    let mut queries = Pieces::<Query>::new(queries);
    for (number, query) in queries.by_ref().enumerate() {
        rt.println(Line {
            block,
            number,
            unit,
            query,
        })?;
    }
    ensure!(
        queries.cursor.rest.is_empty(),
        "not a whole number of queries"
    );
    Ok(())
}

/// Prints the lines of a block.
fn print_block(rt: &HostRuntime, number: usize, block: Block) -> anyhow::Result<()> {
    let mut unit = Unit::builtin();
    read(block.unit, &mut unit).map_err(|_| anyhow!("a block without a unit"))?;
    print_lines(rt, number, unit, block.queries)
}

/// Prints the lines of all blocks.
fn print_blocks(rt: &HostRuntime, bytes: &[u8]) -> anyhow::Result<()> {
    let mut blocks = Pieces::<Block>::new(bytes);
    for (number, block) in blocks.by_ref().enumerate() {
        print_block(rt, number, block)?;
    }
    ensure!(
        blocks.cursor.rest.is_empty(),
        "not a whole number of blocks"
    );
    Ok(())
}

/// Prints the lines of each file that the command line names.
// Kept beside that of `compare`, no plainer: a shared one would bring the runtime and its errors into `corpus`.
fn run(rt: &HostRuntime) -> anyhow::Result<()> {
    for file in env::args(rt)?.skip(1) {
        let bytes = fs::read(rt, file.as_str())?;
        print_blocks(rt, bytes.as_slice())?;
    }
    Ok(())
}

fn main(rt: HostRuntime) -> anyhow::Result<()> {
    run(&rt)
}
