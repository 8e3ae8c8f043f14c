ghost use Rattle.std.specs.Prelude.{◌≡◌};
ghost use Rattle.vd_base.specs.declared.faults.CallFault.TheVariants as call_fault;
ghost use Rattle.vd_base.specs.declared.faults.FileFault.TheVariants as file_fault;

use std::alloc::AllocError;
use std::error::Error;
use std::fmt;

/// A call of the outside failed, which its object has counted.
#[derive(Clone, Copy, Debug, PartialEq, Eq)]
pub struct Failed;

impl fmt::Display for Failed {
    fn fmt<W: fmt::Write>(&self, f: &mut fmt::Formatter<W>) -> fmt::Result {
        write!(f, "a call of the outside failed")
    }
}

impl Error for Failed {}

/// Why a call of the outside gave nothing.
#[derive(Clone, Copy, Debug, PartialEq, Eq)]
pub enum CallFault {
    /// The outside failed, which the object has counted.
    Failed,
    /// There was no memory left.
    Memory,
}

impl fmt::Display for CallFault {
    fn fmt<W: fmt::Write>(&self, f: &mut fmt::Formatter<W>) -> fmt::Result {
        match self {
            CallFault::Failed => write!(f, "a call of the outside failed"),
            CallFault::Memory => write!(f, "out of memory"),
        }
    }
}

impl Error for CallFault {}

impl From<AllocError> for CallFault {
    ghost from_gives = { λ _ fault. fault ≡ call_fault.Memory };

    fn from(_: AllocError) -> Self {
        CallFault::Memory
    }
}

/// Why bytes were refused as a file that machines write. An offset counts bytes, and is `u32::MAX` where it would be larger.
#[derive(Clone, Copy, Debug, PartialEq, Eq)]
pub enum FileFault {
    /// The byte at this offset cannot stand there. The end of the file stands at its length.
    Text(u32),
    /// There was no memory left.
    Memory,
}

impl fmt::Display for FileFault {
    fn fmt<W: fmt::Write>(&self, f: &mut fmt::Formatter<W>) -> fmt::Result {
        match self {
            FileFault::Text(offset) => write!(f, "unexpected text at {offset}"),
            FileFault::Memory => write!(f, "out of memory"),
        }
    }
}

impl Error for FileFault {}

impl From<AllocError> for FileFault {
    ghost from_gives = { λ _ fault. fault ≡ file_fault.Memory };

    fn from(_: AllocError) -> Self {
        FileFault::Memory
    }
}
