//! What names stand for.

use crate::size::Size;
use vd_base::{Items, Kind};

/// What the name of a value stands for.
#[derive(Clone, Copy, PartialEq, Eq)]
pub enum Symbol {
    /// A `let` name, a parameter or a loop's name.
    Constant(Kind),
    /// A `var` name.
    Variable(Kind),
    Array(Kind),
}

/// The kinds of a function.
#[derive(Drop)]
pub struct Signature {
    pub parameters: Items<Kind>,
    pub result: Kind,
}

/// A function that may be called, with the size of its body.
#[derive(Drop)]
pub(crate) struct Callee {
    pub signature: Signature,
    pub size: Size,
}
