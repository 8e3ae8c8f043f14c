ghost use Rattle.std.specs.Prelude.{◌≡◌};
ghost use Rattle.vd_diag.specs.declared.fault.TellFault.TheVariants as tell_fault;

use std::alloc::AllocError;
use thiserror::Error;

/// Why nothing is told.
#[derive(Clone, Copy, PartialEq, Eq, Debug, Error)]
pub enum TellFault {
    /// There was no memory left.
    #[error("out of memory")]
    Memory,
}

impl From<AllocError> for TellFault {
    ghost from_gives = { λ _ fault. fault ≡ tell_fault.Memory };

    fn from(_: AllocError) -> TellFault {
        TellFault::Memory
    }
}
