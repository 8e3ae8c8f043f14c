//! Blocks of a code that is read from its end.

/// A block whose end was read, with what is taken from a list behind what is read of it.
#[derive(Clone, Copy, PartialEq, Eq)]
pub(crate) enum TakenBehind {
    /// Behind the block.
    End(u64),
    /// Of a branch whose `else` was read: in its other part, and behind the branch.
    Else(u64, u64),
}
