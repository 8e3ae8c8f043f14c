//! Why inputs are not explained.

ghost use Rattle.std.specs.Prelude.{◌≡◌};
ghost use Rattle.vd_excuse.specs.declared.fault.ViewFault.TheVariants.{Memory};

use std::alloc::AllocError;
use thiserror::Error;
use vd_tape::DealKind;

/// Why other inputs are not explained to a host.
#[derive(Clone, Copy, PartialEq, Eq, Debug, Error)]
pub enum ViewFault {
    /// The first kind of items of which the first run takes more than some host was dealt.
    #[error("deal short {0}")]
    Short(DealKind),
    /// The first place at which what the host knows of the two inputs differs: its own inputs, and then the clear words that come to it.
    #[error("view differs at {0}")]
    Differ(usize),
    /// There was no memory left.
    #[error("out of memory")]
    Memory,
}

impl From<AllocError> for ViewFault {
    ghost from_gives = { λ _ fault. fault ≡ Memory };

    fn from(_: AllocError) -> Self {
        ViewFault::Memory
    }
}
