ghost use Rattle.std.specs.Prelude.{◌≡◌, ◌≢◌, ◌||◌, true, None, OnErr, OnOk, is_some};
ghost use Rattle.vd_edge.specs.Waits.{turns};

use std::io::{self, ErrorKind};
use std::os::unix::process::parent_id;
use std::process::Process;

/// How long this process waits for its peers: until the run that started it is over, and at most so many seconds at a time.
/// Where neither is set it waits as long as they take.
#[derive(Clone, Copy)]
pub struct Waits {
    process: Process,
    parent: Option<u32>,
    seconds: Option<u32>,
}

impl Waits {
    /// Waits without a limit, of a process that a parent with this number started, if that is known.
    pub fn new(process: Process, parent: Option<u32>) -> Waits
        ensures parent { result.parent ≡ parent }
        ensures seconds { result.seconds ≡ None }
    {
        Waits {
            process,
            parent,
            seconds: None,
        }
    }

    /// The same waits with this limit in seconds.
    pub fn within(self, seconds: Option<u32>) -> Waits
        ensures parent { result.parent ≡ self.parent }
        ensures seconds { result.seconds ≡ seconds }
    {
        Waits { seconds, ..self }
    }

    /// Whether a wait may end before its peer does something.
    pub(crate) fn may_end(&self) -> bool
        ensures { result ≡ (is_some self.now.parent || is_some self.now.seconds) }
    {
        self.parent.is_some() || self.seconds.is_some()
    }

    /// The limit in seconds.
    pub fn seconds(&self) -> Option<u32>
        ensures { result ≡ self.now.seconds }
    {
        self.seconds
    }

    /// How often a call is made that comes back each second.
    pub(crate) fn turns(&self) -> u64
        ensures { result ≡ turns self.now.seconds }
    {
        match self.seconds {
            Some(seconds) => u64::from(seconds),
            None => u64::MAX,
        }
    }

    /// Goes on waiting. It is an error if the process that started this one is gone, and where none is known that never is.
    pub(crate) fn go_on(&self) -> io::Result<()>
        ensures { OnErr result (is_some self.now.parent ≡ true) }
    {
        match self.parent {
            Some(parent) => same_parent(parent_id(self.process), parent),
            None => Ok(()),
        }
    }
}

/// An error where the parent of a process is not the one that started it, and only there.
fn same_parent(now: u32, then: u32) -> io::Result<()>
    ensures gone { OnErr result (now ≢ then) }
    ensures here { OnOk result (now ≡ then) }
{
    if now != then {
        return Err(io::Error::new(ErrorKind::ConnectionAborted, "the run ended"));
    }
    Ok(())
}

/// The error of a peer that did nothing for as long as a wait may last.
pub(crate) fn silent() -> io::Error {
    io::Error::new(ErrorKind::TimedOut, "silent for too long")
}
