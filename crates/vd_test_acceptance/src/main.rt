//! Runs worked examples through the top call, over files, streams, links and children in memory, and prints what each run leaves.
//! `stdin` has the examples, and `stdout` what is to come.
//!
//! Each line of an example is one of these:
//!
//!     case NAME         begins an example
//!     words WORD ..     the words of the command line
//!     file NAME         begins a file, of which the next lines that begin `|`, `>` or `*` are the content:
//!     |TEXT             a line, with its end
//!     >TEXT             a piece without an end
//!     *COUNT TEXT       a piece, so many times
//!     link ADDRESS      begins a link that waits at an address
//!     <HEX              bytes that come on the last link
//!     child STATUS      begins a child, which ends with this status
//!     -TEXT             a line that the last child writes
//!     mark PLACE        the mark at this place is taken
//!     draw HEX          32 bytes that will be drawn
//!     fail files CALL   the call of the files with this number fails; likewise of `marks`, `out`, `err`, `net`, `spawner` and, of the
//!                       last link, `link`
//!     most COUNT        one write of the output takes at most so many bytes, and one call of a link passes as many
//!     keep              goes on with the files and marks that the example before left
//!     quiet             leaves out what stands in stored files, where more than one content is right
//!     run               runs the example
#![tactic(auto)]

mod example;
mod outside;
mod report;

ghost use Rattle.std.specs.Prelude.{◌≡◌, []};

use crate::example::{Example, Objects};
use crate::report::print_run;
use std::alloc::Global;
use std::io::{self, BufRead, BufReader, Write};
use vd_base::{Items, Texts};
use vd_fakes::Mark;
use vd_outside::Stored;
use vd_top::{Outside, start};

/// Runs an example over these objects, prints what it leaves, and gives the files and marks of it.
fn run_over<W: Write>(
    alloc: Global,
    to: &mut W,
    example: &Example,
    objects: Objects,
) -> io::Result<(Items<Stored>, Items<Mark>)>
    requires listeners { objects.net.net.listeners ≡ [] }
    requires children { objects.spawner.children ≡ [] }
{
    let Objects {
        words,
        files,
        marks,
        out,
        err,
        net,
        spawner,
    } = objects;
    let mut outside = Outside {
        files,
        marks,
        out,
        err,
        net,
        spawner,
        packets: None,
    };
    let code = start(alloc, &words, &mut outside).code();
    let Outside {
        files,
        marks,
        out,
        err,
        net,
        spawner,
        packets: _packets,
    } = outside;
    let left = Objects {
        words,
        files,
        marks,
        out,
        err,
        net,
        spawner,
    };
    print_run(to, example.name(), code, &left, example.is_quiet())?;
    let Objects { files, marks, .. } = left;
    Ok((files.files, marks.marks))
}

/// Runs one example, and prints what it leaves; the files and marks that it leaves stand there for the next one.
fn run_example<W: Write>(
    alloc: Global,
    to: &mut W,
    example: Example,
    before: Items<Stored>,
    marks: Items<Mark>,
) -> io::Result<(Items<Stored>, Items<Mark>)> {
    let mut example = example;
    example.go_on(before, marks)?;
    let objects = example.take_objects(alloc)?;
    run_over(alloc, to, &example, objects)
}

fn main(rt: HostRuntime) -> io::Result<()> {
    let alloc = rt.alloc();
    let mut to = rt.stdout();
    let mut example = Example::new(alloc)?;
    let mut files = Items::new(alloc);
    let mut marks = Items::new(alloc);
    for line in BufReader::new(alloc, rt.reader())?.lines(alloc) {
        let line = line?;
        if line.as_str() == "run" {
            let left = run_example(alloc, &mut to, example, files, marks)?;
            files = left.0;
            marks = left.1;
            example = Example::new(alloc)?;
        } else if !example.read(alloc, line.as_str())? {
            to.write_all(b"no line of an example: ")?;
            to.write_all(line.as_str().as_bytes())?;
            to.write_all(b"\n")?;
        }
    }
    Ok(())
}
