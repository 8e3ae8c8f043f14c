//! Why a source is not resolved.

ghost use Rattle.std.specs.Prelude.{◌≡◌};
ghost use Rattle.vd_resolve.specs.declared.fault.NameFault.TheVariants.{Memory as want_of_memory};

use crate::met::Met;
use std::alloc::AllocError;
use thiserror::Error;
use vd_base::Span;

/// What has a limit.
#[derive(Clone, Copy, PartialEq, Eq, Debug)]
pub enum Quantity {
    Principals,
    Hosts,
    /// Loops around one statement.
    Nesting,
    /// Statements, with one more for each inlined call.
    Statements,
    /// How often the statements are executed, all together.
    Weights,
    /// The lengths of all arrays together.
    Cells,
}

/// The first fault of a source. A span is that of the token at which it is found.
#[derive(Clone, Copy, PartialEq, Eq, Debug, Error)]
pub enum NameFault {
    /// A name of a principal, a host, a function or a value that is not in sight.
    #[error("unknown name at {}", .0.start)]
    Unknown(Span),
    /// A name that is in sight already, among names of its sort; and where it was declared.
    #[error("name twice at {}", .0.start)]
    Twice(Span, Span),
    /// A call of the function itself or of a later one.
    #[error("recursive call at {}", .0.start)]
    Recursive(Span),
    /// A call with another number of arguments.
    #[error("arity at {}", .0.start)]
    Arity(Span),
    /// A value of the wrong kind, a shift by more than 31, or a name that stands for no such thing; and what meets there.
    #[error("kind at {}", .0.start)]
    Kind(Span, Met),
    /// A quantity above its limit, with the count, or 4294967295 where that is larger.
    #[error("limit {0:?} {1}")]
    Limit(Quantity, u32),
    /// There was no memory left.
    #[error("out of memory")]
    Memory,
}

impl From<AllocError> for NameFault {
    ghost from_gives = { λ _ fault. fault ≡ want_of_memory };

    fn from(_: AllocError) -> Self {
        NameFault::Memory
    }
}
