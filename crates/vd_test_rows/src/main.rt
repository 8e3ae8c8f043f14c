//! Prints worked rows, and does timed jobs. What to do is read from standard input, a line each; `stdout` has what is to come.
//!
//!     rows       prints worked rows: of libraries, and of the objects of the system
//!     deal N     makes, writes and reads the deals of two hosts with N own words and N items of each kind
//!     world N    runs a loop of N turns at one of two hosts
//!     talk N     runs N turns of two hosts, in each of which a word goes from one to the other
//!     wcsp       writes the choice of protocols for a source as a weighted constraint network (WCSP), the format that exact solvers
//!                read; the source stands before it, each of its lines behind `|`
//!
//! A job with a number prints one line of what it made, which is the same in every run.
#![tactic(auto)]

mod jobs;
mod system;
mod tables;

use std::alloc::Global;
use std::io::{self, BufRead, BufReader, BufWriter, Write};

/// Prints the rows of libraries and of the system.
fn print_rows<W: Write>(to: &mut W, rt: &HostRuntime, alloc: Global) -> anyhow::Result<()> {
    tables::print(to, alloc)?;
    system::print(to, rt, alloc)?;
    Ok(())
}

fn main(rt: HostRuntime) -> anyhow::Result<()> {
    let alloc = rt.alloc();
    let mut to = BufWriter::new(alloc, io::writer(&rt))?;
    let mut source = String::new(alloc);
    for line in BufReader::new(alloc, rt.reader())?.lines(alloc) {
        let line = line?;
        if let Some(text) = line.as_str().strip_prefix("|") {
            source.push_str(text)?;
            source.push('\n')?;
        } else if line.as_str() == "rows" {
            print_rows(&mut to, &rt, alloc)?;
        } else {
            jobs::run(alloc, &mut to, line.as_str(), source.as_str())?;
            source.clear();
        }
    }
    to.flush()?;
    Ok(())
}
