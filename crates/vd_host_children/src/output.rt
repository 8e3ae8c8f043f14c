ghost use Rattle.std.specs.Prelude.{◌≡◌, [], false};
ghost use Rattle.std.specs.Str.{bytes_eq};
ghost use Rattle.vd_host_children.specs.Lines.{TakesLine};

use crate::ChildrenFault;
use std::alloc::Global;
use vd_base::{HostId, Words, limits, number};

/// The most words that a host prints.
const MOST_WORDS: usize = limits::WEIGHTS as usize;

/// What a child has printed since its first line: its words, and whether it said that it ended.
#[derive(Drop)]
pub(crate) struct Output {
    pub words: Words,
    pub over: bool,
}

impl Output {
    /// Nothing.
    pub fn new(alloc: Global) -> Output
        ensures words { result.words ≡ [] }
        ensures over { result.over ≡ false }
    {
        Output {
            words: Words::new(alloc),
            over: false,
        }
    }
}

/// Whether a line is this text.
pub(crate) fn is(line: &[u8], text: &[u8]) -> bool
    ensures { result ≡ bytes_eq line.now text.now }
{
    line == text
}

/// Takes a further line of a host's child, if it may stand there: a word in decimal, or `ended` behind all words.
pub(crate) fn take_line(output: &mut Output, host: HostId, line: &[u8]) -> Result<(), ChildrenFault>
    ensures { TakesLine host line.now output.old output.new result }
{
    if output.over {
        return Err(ChildrenFault::Line(host));
    }
    if is(line, b"ended") {
        output.over = true;
        return Ok(());
    }
    match number(line) {
        Some(word) => {
            if output.words.as_slice().len() < MOST_WORDS {
                output.words.push(word)?;
                Ok(())
            } else {
                Err(ChildrenFault::Line(host))
            }
        }
        None => Err(ChildrenFault::Line(host)),
    }
}
