ghost use Rattle.std.specs.Prelude.{◌≡◌, ◌≤◌, IfOk, false, [], length};
ghost use Rattle.vd_edge.specs.Duplex.{DuplexView, Gives, Takes};

use crate::Waits;
use crate::waits::silent;
use std::io::{self, ErrorKind, Read, Write};
use std::net::OpenStream;
use std::time::{Duration, Instant};

/// A stream of bytes in each direction, such as a socket.
pub trait Duplex {
    /// What it tells.
    ghost view: { Self → DuplexView };

    /// Takes a prefix of a piece, and says how much.
    fn take(&mut self, bytes: &[u8]) -> io::Result<usize>
        ensures { Takes bytes.now (view self.old) (view self.new) result };

    /// Puts the next bytes at the front of a piece, and says how many. No bytes are the end.
    fn give(&mut self, into: &mut [u8]) -> io::Result<usize>
        ensures { Gives into.new (view self.old) (view self.new) result };
}

/// A socket of the system. What passes over it is not known.
#[derive(Drop)]
pub struct SystemStream<S: Read + Write + Drop> {
    stream: S,
    waits: Waits,
    /// When it came, or was made.
    made: Instant,
}

impl<S: Read + Write + OpenStream + Drop> SystemStream<S> {
    /// This socket, which sends its pieces at once; one that cannot is as good. Where waits may end, its calls come back each
    /// second.
    pub fn new(stream: S, waits: Waits, made: Instant) -> io::Result<SystemStream<S>> {
        stream.set_nonblocking(false)?;
        let _ = stream.set_nodelay(true);
        if waits.may_end() {
            let second = Some(Duration::from_secs(1));
            stream.set_read_timeout(second)?;
            stream.set_write_timeout(second)?;
        }
        Ok(SystemStream {
            stream,
            waits,
            made,
        })
    }

    /// The socket.
    pub(crate) fn stream(&self) -> &S {
        &self.stream
    }

    /// When it came, or was made.
    pub(crate) fn made(&self) -> Instant {
        self.made
    }
}

/// Whether a call came back because its time was over.
pub(crate) fn is_early(error: &io::Error) -> bool {
    matches!(error.kind(), ErrorKind::WouldBlock | ErrorKind::TimedOut)
}

/// Whether a call was interrupted, as where the process was stopped and goes on: it is made again.
pub(crate) fn is_interrupted(error: &io::Error) -> bool {
    error.kind() == ErrorKind::Interrupted
}

/// Writes a prefix of a piece, and says how much. A call that was interrupted is made again, so it is no turn of a wait.
fn write_on<S: Write>(stream: &mut S, bytes: &[u8]) -> io::Result<usize>
    ensures { IfOk result (λ count. count ≤ length bytes.now) }
{
    for _ in 0..u64::MAX {
        match stream.write(bytes) {
            Err(error) if is_interrupted(&error) => {}
            ended => return ended,
        }
    }
    Err(silent())
}

/// Reads the next bytes, and says how many. A call that was interrupted is made again, so it is no turn of a wait.
fn read_on<S: Read>(stream: &mut S, into: &mut [u8]) -> io::Result<usize>
    ensures count { IfOk result (λ count. count ≤ length into.new) }
    ensures same { length into.new ≡ length into.old }
{
    for _ in 0..u64::MAX {
        match stream.read(into) {
            Err(error) if is_interrupted(&error) => {}
            ended => return ended,
        }
    }
    Err(silent())
}

impl<S: Read + Write + Drop> Duplex for SystemStream<S> {
    ghost view = { λ stream. record { told = false; sent = []; coming = [] } };

    fn take(&mut self, bytes: &[u8]) -> io::Result<usize> {
        for _ in 0..self.waits.turns() {
            match write_on(&mut self.stream, bytes) {
                Ok(count) => return Ok(count),
                Err(error) if is_early(&error) => self.waits.go_on()?,
                Err(error) => return Err(error),
            }
        }
        Err(silent())
    }

    fn give(&mut self, into: &mut [u8]) -> io::Result<usize> {
        for _ in 0..self.waits.turns() {
            match read_on(&mut self.stream, into) {
                Ok(count) => return Ok(count),
                Err(error) if is_early(&error) => self.waits.go_on()?,
                Err(error) => return Err(error),
            }
        }
        Err(silent())
    }
}
