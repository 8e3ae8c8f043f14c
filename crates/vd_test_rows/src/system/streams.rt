ghost use Rattle.std.specs.Prelude.{◌<◌, length};

use std::alloc::Global;
use std::io::{self, Write};
use vd_edge::RealSink;
use vd_outside::Sink;

/// A writer that takes a byte at a time, and no more than its room.
#[derive(Drop)]
struct Narrow {
    room: usize,
}

impl Write for Narrow {
    fn write(&mut self, buf: &[u8]) -> io::Result<usize> {
        if buf.is_empty() || self.room == 0 {
            return Ok(0);
        }
        self.room -= 1;
        Ok(1)
    }

    fn flush(&mut self) -> io::Result<()> {
        Ok(())
    }
}

/// Writes this piece, and prints how that ended.
fn print_write<W: Write, S: Sink>(to: &mut W, sink: &mut S, piece: &[u8]) -> io::Result<()>
    requires { 0 < length piece.now }
{
    let written = sink.write(piece);
    writeln!(to, "write: {written:?}, {} faults", sink.faults())
}

/// Prints what a stream in memory takes.
fn print_memory<W: Write>(to: &mut W, alloc: Global) -> io::Result<()> {
    let mut sink = RealSink::new(Vec::new(alloc));
    print_write(to, &mut sink, b"abc")
}

/// Prints what streams take: one in memory, and one that takes a byte at a time until it has no room.
pub(crate) fn print_streams<W: Write>(to: &mut W, alloc: Global) -> io::Result<()> {
    print_memory(to, alloc)?;
    let mut narrow = RealSink::new(Narrow { room: 2 });
    print_write(to, &mut narrow, b"abc")?;
    print_write(to, &mut narrow, b"bc")?;
    print_write(to, &mut narrow, b"c")
}
