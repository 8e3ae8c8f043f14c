//! Why nothing was read.

ghost use Rattle.std.specs.Prelude.{◌≡◌};
ghost use Rattle.vd_base_codec.specs.declared.fault.CodecFault.TheVariants as codec_fault;

use std::alloc::{AllocError, AllocFailed};
use thiserror::Error;

/// The byte at the cursor cannot stand there, or the bytes end where none can end.
#[derive(Clone, Copy, PartialEq, Eq, Debug, Error)]
#[error("the bytes do not go on as a text does")]
pub struct Stopped;

/// Why a part of a file was not read.
#[derive(Clone, Copy, PartialEq, Eq, Debug, Error)]
pub enum CodecFault {
    /// The byte at the cursor cannot stand there, or the bytes end where none can end.
    #[error("the bytes do not go on as a text does")]
    Stopped,
    /// There was no memory left.
    #[error("no memory was left")]
    Memory,
}

impl From<Stopped> for CodecFault {
    ghost from_gives = { λ _ fault. fault ≡ codec_fault.Stopped };

    fn from(_: Stopped) -> CodecFault {
        CodecFault::Stopped
    }
}

impl From<AllocError> for CodecFault {
    ghost from_gives = { λ _ fault. fault ≡ codec_fault.Memory };

    fn from(_: AllocError) -> CodecFault {
        CodecFault::Memory
    }
}

impl<T: Drop> From<AllocFailed<T>> for CodecFault {
    ghost from_gives = { λ _ fault. fault ≡ codec_fault.Memory };

    fn from(_: AllocFailed<T>) -> CodecFault {
        CodecFault::Memory
    }
}
