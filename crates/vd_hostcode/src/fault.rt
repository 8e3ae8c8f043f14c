//! Why a host's program was not read.

ghost use Rattle.std.specs.Prelude.{◌≡◌};
ghost use Rattle.vd_hostcode.specs.declared.fault.CodeFault.TheVariants as code_fault;

use std::alloc::AllocError;
use thiserror::Error;

/// Why the file of a host's program was refused. Offsets count bytes. Offset and number are `u32::MAX` where they would be larger.
#[derive(Clone, Copy, PartialEq, Eq, Debug, Error)]
pub enum CodeFault {
    /// The byte at this offset cannot stand there. The end of the file stands at its length.
    #[error("host text at {0}")]
    Text(u32),
    /// The instruction with this number breaks a range. Instructions count from 0 in text order, without `else` and `end`.
    #[error("host range at {0}")]
    Range(u32),
    /// There was no memory left.
    #[error("out of memory")]
    Memory,
}

impl From<AllocError> for CodeFault {
    ghost from_gives = { λ _ fault. fault ≡ code_fault.Memory };

    fn from(_: AllocError) -> CodeFault {
        CodeFault::Memory
    }
}
