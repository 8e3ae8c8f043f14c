//! The faults of the readers.

ghost use Rattle.std.specs.Prelude.{◌≡◌};
ghost use Rattle.vd_report.specs.declared.fault.ReadFault.TheVariants as read_fault;
ghost use Rattle.vd_report.specs.Tokens.{capped};

use std::alloc::AllocError;
use std::error::Error;
use std::fmt;

/// Why a file was refused. An offset counts bytes, and is `u32::MAX` where it would be larger.
#[derive(Clone, Copy, PartialEq, Eq, Debug)]
pub enum ReadFault {
    /// The token at this offset cannot stand there. The end of the file is a token at its length.
    Text(u32),
    /// The name at this offset is no declared host's.
    UnknownHost(u32),
    /// Out of memory.
    Memory,
}

impl fmt::Display for ReadFault {
    fn fmt<W: fmt::Write>(&self, f: &mut fmt::Formatter<W>) -> fmt::Result {
        match self {
            ReadFault::Text(at) => write!(f, "unexpected text at {at}"),
            ReadFault::UnknownHost(at) => write!(f, "unknown host at {at}"),
            ReadFault::Memory => write!(f, "out of memory"),
        }
    }
}

impl Error for ReadFault {}

impl From<AllocError> for ReadFault {
    ghost from_gives = { λ _ fault. fault ≡ read_fault.Memory };

    fn from(_: AllocError) -> ReadFault {
        ReadFault::Memory
    }
}

/// An offset as a fault tells it.
pub(crate) fn offset(at: usize) -> u32
    ensures { result ≡ capped at }
{
    u32::try_from(at).unwrap_or(u32::MAX)
}
