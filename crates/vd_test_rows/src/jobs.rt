//! Timed work and comparisons, outside of what is promised.

mod dealing;
mod hosts;
mod network;
mod settings;
mod sources;

use crate::jobs::hosts::Run;
use anyhow::bail;
use std::alloc::Global;
use std::io::{self, Write};

/// Makes deals, and prints how many bytes their texts have.
fn print_deal<W: Write>(alloc: Global, to: &mut W, count: u32) -> anyhow::Result<()> {
    let bytes = dealing::deal(alloc, count)?;
    writeln!(to, "deal {count} ok {bytes}")?;
    Ok(())
}

/// Prints what a run of so many turns made.
fn print_run<W: Write>(to: &mut W, job: &str, count: u32, run: Run) -> io::Result<()> {
    writeln!(to, "{job} {count} {} {}", run.steps, run.printed)
}

/// Prints the network of a source.
fn print_network<W: Write>(alloc: Global, to: &mut W, source: &str) -> anyhow::Result<()> {
    let space = sources::space_of(alloc, source)?;
    network::print(alloc, to, &space)
}

/// Does a job with a number.
fn run_numbered<W: Write>(alloc: Global, to: &mut W, job: &str, count: u32) -> anyhow::Result<()> {
    match job {
        "deal" => print_deal(alloc, to, count)?,
        "world" => print_run(to, job, count, hosts::world(alloc, count)?)?,
        "talk" => print_run(to, job, count, hosts::talk(alloc, count)?)?,
        _ => bail!("no such job"),
    }
    Ok(())
}

/// Does the job of a line; `wcsp` is about a source.
pub(crate) fn run<W: Write>(
    alloc: Global,
    to: &mut W,
    line: &str,
    source: &str,
) -> anyhow::Result<()> {
    if line == "wcsp" {
        return print_network(alloc, to, source);
    }
    let Some((job, number)) = line.split_once(" ") else {
        bail!("expected a job and a number");
    };
    let count: u32 = number.parse()?;
    run_numbered(alloc, to, job, count)
}
