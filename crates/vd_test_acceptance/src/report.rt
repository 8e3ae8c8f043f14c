//! What is printed of an example.

use crate::example::Objects;
use std::io::{self, Write};
use vd_base::Texts;
use vd_outside::{FilesCall, MarksCall, NetCall, SpawnerCall, Stored};

/// Prints bytes line by line: a line with its end behind `|`, a piece without an end behind `>`.
fn print_lines<W: Write>(to: &mut W, bytes: &[u8]) -> io::Result<()> {
    let mut start = 0;
    for (at, byte) in bytes.iter().enumerate() {
        if *byte == b'\n' && start <= at {
            to.write_all(b"|")?;
            to.write_all(&bytes[start..at])?;
            to.write_all(b"\n")?;
            start = at + 1;
        }
    }
    if start < bytes.len() {
        to.write_all(b">")?;
        to.write_all(&bytes[start..])?;
        to.write_all(b"\n")?;
    }
    Ok(())
}

/// Prints what a stream holds, if it holds anything.
fn print_stream<W: Write>(to: &mut W, name: &[u8], bytes: &[u8]) -> io::Result<()> {
    if bytes.is_empty() {
        return Ok(());
    }
    to.write_all(name)?;
    print_lines(to, bytes)
}

/// Prints what stands in a file.
fn print_content<W: Write>(to: &mut W, files: &[Stored], name: &str) -> io::Result<()> {
    for file in files {
        if file.name.as_str() == name {
            return print_lines(to, file.content.as_slice());
        }
    }
    Ok(())
}

/// Prints a call of the files; of a store what stands there then, unless that is left out.
fn print_call<W: Write>(
    to: &mut W,
    files: &[Stored],
    call: &FilesCall,
    quiet: bool,
) -> io::Result<()> {
    match call {
        FilesCall::Fetch(name) => {
            to.write_all(b"fetch ")?;
            to.write_all(name.as_str().as_bytes())?;
            to.write_all(b"\n")
        }
        FilesCall::Store(name) => {
            to.write_all(b"store ")?;
            to.write_all(name.as_str().as_bytes())?;
            to.write_all(b"\n")?;
            if quiet {
                return Ok(());
            }
            print_content(to, files, name.as_str())
        }
    }
}

/// Prints a call of the marks.
fn print_marks_call<W: Write>(to: &mut W, call: &MarksCall) -> io::Result<()> {
    match call {
        MarksCall::Draw => to.write_all(b"draw\n"),
        MarksCall::Claim(place) => {
            to.write_all(b"claim ")?;
            to.write_all(place.as_slice())?;
            to.write_all(b"\n")
        }
        MarksCall::Look(place) => {
            to.write_all(b"look ")?;
            to.write_all(place.as_slice())?;
            to.write_all(b"\n")
        }
        MarksCall::Release(place) => {
            to.write_all(b"release ")?;
            to.write_all(place.as_slice())?;
            to.write_all(b"\n")
        }
    }
}

/// Prints a call of the net.
fn print_net_call<W: Write>(to: &mut W, call: &NetCall) -> io::Result<()> {
    match call {
        NetCall::Listen(address) => {
            to.write_all(b"listen ")?;
            to.write_all(address.as_str().as_bytes())?;
            to.write_all(b"\n")
        }
        NetCall::Accept(listener) => {
            let listener = *listener;
            writeln!(to, "accept {listener}")
        }
        NetCall::Connect(address) => {
            to.write_all(b"connect ")?;
            to.write_all(address.as_str().as_bytes())?;
            to.write_all(b"\n")
        }
    }
}

/// Prints the bytes that were sent on a link that came back, in hexadecimal.
fn print_sent<W: Write>(to: &mut W, bytes: &[u8]) -> io::Result<()> {
    to.write_all(b"back")?;
    for byte in bytes {
        let byte = *byte;
        write!(to, " {byte:02x}")?;
    }
    to.write_all(b"\n")
}

/// Prints the start of a child, with its program and words.
fn print_start<W: Write>(to: &mut W, program: &str, words: &Texts) -> io::Result<()> {
    to.write_all(b"start ")?;
    to.write_all(program.as_bytes())?;
    for word in words.as_slice() {
        to.write_all(b" ")?;
        to.write_all(word.as_str().as_bytes())?;
    }
    to.write_all(b"\n")
}

/// Prints a call of the spawner.
fn print_spawner_call<W: Write>(to: &mut W, call: &SpawnerCall) -> io::Result<()> {
    match call {
        SpawnerCall::Start(program, words) => print_start(to, program.as_str(), words),
        SpawnerCall::Line(child) => {
            let child = *child;
            writeln!(to, "line {child}")
        }
        SpawnerCall::Finish(child) => {
            let child = *child;
            writeln!(to, "finish {child}")
        }
    }
}

/// Prints the status of a run, what was written to its streams, the calls of its files, its marks, its net and its spawner, and what
/// was sent on each link that came back.
pub(crate) fn print_run<W: Write>(
    to: &mut W,
    name: &str,
    code: u8,
    objects: &Objects,
    quiet: bool,
) -> io::Result<()> {
    to.write_all(b"case ")?;
    to.write_all(name.as_bytes())?;
    writeln!(to, "\nstatus {code}")?;
    print_stream(to, b"out\n", objects.out.bytes())?;
    print_stream(to, b"err\n", objects.err.bytes())?;
    for call in objects.files.asked.as_slice() {
        print_call(to, objects.files.files.as_slice(), call, quiet)?;
    }
    for call in objects.marks.asked.as_slice() {
        print_marks_call(to, call)?;
    }
    for call in objects.net.net.asked() {
        print_net_call(to, call)?;
    }
    for link in objects.net.net.back() {
        print_sent(to, link.bytes())?;
    }
    for call in objects.spawner.asked() {
        print_spawner_call(to, call)?;
    }
    to.write_all(b"\n")
}
