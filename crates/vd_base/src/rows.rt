use crate::{HostId, Op};

/// What a binding or a variable asks of the protocol that it stands at: a row of the table of operations.
#[derive(Clone, Copy, PartialEq, Eq)]
pub enum Row {
    /// A number, or the number of a loop's turn.
    Constant,
    /// A value that is handed on: copied, loaded, read from an array, declassified or endorsed.
    Carry,
    /// The next input word of a host.
    Input(HostId),
    /// A variable or an array.
    Variable,
    /// An operation on words.
    Apply(Op),
}
