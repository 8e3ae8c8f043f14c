//! Blocks of a text that is read from its end.

/// A block whose end was read, with steps that stand behind what is read of it.
#[derive(Clone, Copy, PartialEq, Eq)]
pub(crate) enum Behind {
    /// Behind the block.
    End(u64),
    /// Of a branch whose `else` was read: in its other part and behind the branch.
    Else(u64),
}
