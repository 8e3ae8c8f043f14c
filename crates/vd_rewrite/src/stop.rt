ghost use Rattle.std.specs.Prelude.{◌≡◌};
ghost use Rattle.vd_rewrite.specs.declared.stop.Stop.TheVariants as stop;

use std::alloc::AllocError;
use thiserror::Error;

/// Why nothing is made.
#[derive(Clone, Copy, PartialEq, Eq, Debug, Error)]
pub enum Stop {
    #[error("more statements than a program may have")]
    TooMany,
    #[error("out of memory")]
    Memory(AllocError),
}

impl From<AllocError> for Stop {
    ghost from_gives = { λ refused fault. fault ≡ stop.Memory refused };

    fn from(refused: AllocError) -> Self {
        Stop::Memory(refused)
    }
}
