ghost use Rattle.std.specs.Prelude.{◌≡◌, ◌≤◌, ◌++◌, nat_eq, length, position, IfOk, IfSome, OnErr, OnOk, Some};
ghost use Rattle.std.specs.Io.KnownBytes.{Keeps};
ghost use Rattle.vd_edge_processes.specs.Lines.{GivesNext, GivesNow, left};
ghost use Rattle.vd_outside.specs.Line.{IsLine};

use crate::next::Next;
use std::alloc::Global;
use std::io::{ErrorKind, Read};
use vd_base::{Bytes, CallFault};
use vd_edge::fault_of;
use vd_outside::{LINE_BYTES, Line};

/// The most bytes that a host writes: 65,538 lines, each with its line feed.
const MOST_BYTES: usize = 65_538 * (LINE_BYTES + 1);

/// How many bytes are read at once.
const PIECE: usize = 4_096;

/// What a child writes, line by line. A stream that never waits is read without waiting.
#[derive(Drop)]
pub(crate) struct Lines<O: Read + Drop> {
    alloc: Global,
    output: Option<O>,
    bytes: Bytes,
    handed: usize,

    // Only what was read was handed out.
    ghost read_before: { handed ≤ length bytes },
}

/// What a stream gives now, and `None` where that is nothing so far.
fn read_now<O: Read>(output: &mut O, piece: &mut [u8]) -> Result<Option<usize>, CallFault>
    ensures { IfOk result (GivesNow (O.remaining output.old) (O.remaining output.new) piece.new) }
{
    match output.read(piece) {
        Ok(count) => Ok(Some(count)),
        Err(error) => match error.kind() {
            ErrorKind::WouldBlock | ErrorKind::Interrupted => Ok(None),
            _ => Err(fault_of(&error)),
        },
    }
}

/// Where the first line feed stands.
fn line_end(bytes: &[u8]) -> Option<usize>
    ensures { result ≡ position (λ byte. nat_eq byte 10) bytes.now }
{
    bytes.iter().position(|byte| *byte == b'\n')
}

/// These bytes as a line. It is a fault if they are too many.
fn a_line(alloc: Global, bytes: &[u8]) -> Result<Line, CallFault>
    ensures { IfOk result (λ line. (line ≡ bytes.now) × IsLine bytes.now) }
{
    match Line::from_bytes(Bytes::from_slice(alloc, bytes)?) {
        Some(line) => Ok(line),
        None => Err(CallFault::Failed),
    }
}

/// Keeps bytes that were read. It is a fault if they are more than a host writes.
fn keep(bytes: &mut Bytes, piece: &[u8]) -> Result<(), CallFault>
    ensures ok { OnOk result (bytes.new ≡ bytes.old ++ piece.now) }
    ensures err { OnErr result (bytes.new ≡ bytes.old) }
{
    if bytes.as_slice().len() > MOST_BYTES {
        return Err(CallFault::Failed);
    }
    bytes.extend_from_slice(piece)?;
    Ok(())
}

impl<O: Read + Drop> Lines<O> {
    /// The lines of this stream.
    pub fn new(alloc: Global, output: O) -> Lines<O>
        ensures { IfSome (O.remaining output) (λ all. left O.remaining result.output result.bytes result.handed ≡ Some all) }
    {
        Lines {
            alloc,
            output: Some(output),
            bytes: Bytes::new(alloc),
            handed: 0,
        }
    }

    /// Whether the output has ended.
    pub(crate) fn is_over(&self) -> bool {
        self.output.is_none()
    }

    /// Takes what the stream gives now, and says whether that was anything. A read that fails is a fault, and so is more than a
    /// host writes: the stream is then let go.
    pub(crate) fn turn(&mut self) -> Result<bool, CallFault>
        ensures { OnOk result (Keeps (left O.remaining self.old.output self.old.bytes self.old.handed)
            (left O.remaining self.new.output self.new.bytes self.new.handed)) }
    {
        let mut piece = [0u8; PIECE];
        match self.output.take() {
            None => Ok(false),
            Some(mut output) => match read_now(&mut output, &mut piece)? {
                None => {
                    self.output = Some(output);
                    Ok(false)
                }
                Some(0) => Ok(true),
                Some(count) => {
                    keep(&mut self.bytes, &piece[..count])?;
                    self.output = Some(output);
                    Ok(true)
                }
            },
        }
    }

    /// What there is of the next line. Bytes that no line feed ends are the last line. A line that is too long is a fault.
    pub(crate) fn next(&mut self) -> Result<Next, CallFault>
        ensures { IfOk result (GivesNext (left O.remaining self.old.output self.old.bytes self.old.handed)
            (left O.remaining self.new.output self.new.bytes self.new.handed)) }
    {
        let ahead = &self.bytes.as_slice()[self.handed..];
        match line_end(ahead) {
            Some(end) => {
                let line = a_line(self.alloc, &ahead[..end])?;
                self.handed += end + 1;
                Ok(Next::Line(line))
            }
            None if ahead.len() > LINE_BYTES => Err(CallFault::Failed),
            None if self.output.is_some() => Ok(Next::Later),
            None if ahead.is_empty() => Ok(Next::End),
            None => {
                let line = a_line(self.alloc, ahead)?;
                self.handed = self.bytes.as_slice().len();
                Ok(Next::Line(line))
            }
        }
    }
}
